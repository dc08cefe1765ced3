//! A family of shells, each with its own answers, in any interleaving.

mod changes;
mod children;
mod family_fault;
mod fitting;
mod given_answers;
mod next_calls;
mod process_steps;
mod replay_world;
mod replaying;

ghost use Rattle.std.specs.Prelude.{◌≡◌, IfErr, IfOk, OnErr, OnOk, option_map};
ghost use Rattle.std.specs.Option.{option_copied};
ghost use Rattle.rc_model.specs.Handed.Proper.{IsProperTree};
ghost use Rattle.rc_scope.specs.States.{state_of};
ghost use Rattle.rc_tree.specs.View.{cmd_tree};
ghost use Rattle.rc_world.specs.Views.{answer_of, call_of};

use changes::{change_of, change_processes, make_room};
pub use family_fault::FamilyFault;
use next_calls::{alone, begin};
use process_steps::{Change, FamilyStep, Process};
use rc_scope::State;
use rc_tree::{Cmd, clone_tree};
use rc_world::{Answer, Call};
use std::alloc::Global;
use std::marker::Model;

/// A family of shells that start one another. It is run by hand: each step answers the pending call of one of them.
pub struct Family {
    limit: u64,
    processes: Vec<Process>,
    /// The steps so far: the answers of a process are those of its steps.
    steps: Vec<FamilyStep>,
}

impl Drop for Family {
    fn drop(self) {
        let Family {
            limit: _,
            processes: _,
            steps: _,
        } = self;
    }
}

impl Model for Family {
    ghost use Rattle.rc_shell.specs.Held.{Held};
    ghost use Rattle.rc_shell.specs.contracts.family.process_steps.Process as p;
    ghost use Rattle.rc_shell.specs.contracts.family.process_steps.FamilyStep as q;
    ghost use Rattle.std.specs.Coded.{codes};

    ghost Value = { Held };

    ghost coded = { Prim.hlevel (codes, p.the_row.coded, q.the_row.coded) };

    ghost use Rattle.rc_shell.specs.Families.{Holds};

    ghost view = { λ f. record { limit = f.limit; processes = f.processes.items; steps = f.steps.items } };

    ghost invariant = { λ f. Holds (record { limit = f.limit; processes = f.processes.items; steps = f.steps.items }) };
}

impl Family {
    ghost use Rattle.rc_shell.specs.Families.{made_of};
    ghost use Rattle.rc_shell.specs.Made.{BeginsNot, KeepsPromise, PendingAt, Steps, StepsNot, newly_made, processes};

    /// A family of one shell, which has run up to its first call or its end. No process of it runs more than `limit`
    /// instructions.
    pub fn new(alloc: Global, cmd: &Cmd, state: State, limit: u64) -> Result<Family, FamilyFault>
        requires { IsProperTree (cmd_tree cmd.now) }
        ensures ok { IfOk result (λ family. made_of family ≡ newly_made limit (cmd_tree cmd.now) (state_of state)) }
        ensures err { IfErr result (λ fault. BeginsNot limit (cmd_tree cmd.now) (state_of state) fault) }
    {
        let first = begin(alloc, clone_tree(alloc, cmd)?, state, limit)?;
        Ok(Family {
            limit,
            processes: alone(alloc, first)?,
            steps: Vec::new(alloc),
        })
    }

    /// Answers the pending call of process `k`, and returns that call. A shell that it starts becomes the last process.
    /// The faults are looked for in their order, but out of memory may come in place of the limit or of an answer. A
    /// step costs a run of process `k` from its beginning over all its answers, and a look at each step so far.
    pub fn step(&mut self, alloc: Global, k: usize, answer: Answer) -> Result<Call, FamilyFault>
        // The family has one step more: of this process, its pending call and this answer.
        ensures ok { IfOk result
            (λ call. Steps (made_of self.old) (made_of self.new) k (answer_of answer) (call_of call)) }
        // Each fault comes exactly in its case, and nothing changes.
        ensures err { IfErr result (λ fault. StepsNot (made_of self.old) k (answer_of answer) fault) }
        ensures kept { OnErr result (self.new ≡ self.old) }
        // The promises for families are kept.
        ensures promised { OnOk result (KeepsPromise (made_of self.new)) }
    {
        let change = change_of(
            alloc,
            self.processes.as_slice(),
            self.steps.as_slice(),
            self.limit,
            k,
            &answer,
        )?;
        make_room(&mut self.processes, &mut self.steps)?;
        let Change {
            kept,
            answered,
            pending,
            child,
        } = change;
        change_processes(&mut self.processes, k, pending, child);
        self.steps.push_reserved(FamilyStep {
            process: k,
            call: kept,
            answer,
        });
        Ok(answered)
    }

    /// The call of process `k` that wants an answer, or none if it has ended or doesn't exist.
    pub fn pending(&self, k: usize) -> Option<&Call>
        ensures { PendingAt (made_of self.now) k (option_map call_of (option_copied result)) }
    {
        match self.processes.get(k) {
            Some(process) => process.pending.as_ref(),
            None => None,
        }
    }

    /// The number of shells.
    pub fn count(&self) -> usize
        ensures count { result ≡ (processes (made_of self.now)).count }
        ensures promised { KeepsPromise (made_of self.now) }
    {
        self.processes.len()
    }
}
