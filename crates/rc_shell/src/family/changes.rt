//! The changes of a step, and making them.

ghost use Rattle.std.specs.Prelude.{◌≡◌, ◌++◌, ◌∷◌, [], ◌<◌, IfErr, IfOk, OnOk, length, vec_len, vec_capacity};
ghost use Rattle.rc_world.specs.Views.{answer_of};
ghost use Rattle.rc_shell.specs.Changes.{Changes, IsAnsweredAt, IsChanged, IsNotAnswered};
ghost use Rattle.rc_shell.specs.Families.{Holds, held, made_of};
ghost use Rattle.rc_shell.specs.Made.{StepsNot};

use crate::family::children::child_of;
use crate::family::family_fault::FamilyFault;
use crate::family::fitting::fits;
use crate::family::given_answers::answers_with;
use crate::family::next_calls::next_call;
use crate::family::process_steps::{Change, FamilyStep, Process};
use rc_world::{Answer, Call};
use std::alloc::{AllocError, Global};

/// The pending call of process `k`, if the answer fits it.
fn answered_call<'a>(
    processes: &'a [Process],
    k: usize,
    answer: &Answer,
) -> Result<&'a Call, FamilyFault>
    ensures ok { IfOk result (λ call. IsAnsweredAt processes.now k call.now (answer_of answer.now)) }
    ensures err { IfErr result (λ fault. IsNotAnswered processes.now k (answer_of answer.now) fault) }
{
    let Some(process) = processes.get(k) else {
        return Err(FamilyFault::NoProcess);
    };
    let Some(call) = &process.pending else {
        return Err(FamilyFault::Ended);
    };
    if !fits(call, answer) {
        return Err(FamilyFault::WrongKind);
    }
    Ok(call)
}

/// The changes of a step of process `k`, if it is made.
pub(crate) fn change_of(
    alloc: Global,
    processes: &[Process],
    steps: &[FamilyStep],
    limit: u64,
    k: usize,
    answer: &Answer,
) -> Result<Change, FamilyFault>
    requires { Holds (held limit processes.now steps.now) }
    ensures ok { IfOk result (λ change. Changes (held limit processes.now steps.now) k (answer_of answer.now) change) }
    ensures err { IfErr result
        (λ fault. StepsNot (made_of (held limit processes.now steps.now)) k (answer_of answer.now) fault) }
{
    let call = answered_call(processes, k, answer)?;
    let answers = answers_with(alloc, steps, k, answer)?;
    let process = &processes[k];
    let pending = next_call(alloc, &process.cmd, &process.state, answers, limit)?;
    let child = child_of(alloc, call, answer, limit)?;
    Ok(Change {
        kept: call.clone()?,
        answered: call.clone()?,
        pending,
        child,
    })
}

/// Reserves room for one more process and one more step.
pub(crate) fn make_room(
    processes: &mut Vec<Process>,
    steps: &mut Vec<FamilyStep>,
) -> Result<(), AllocError>
    ensures processes { processes.new.items ≡ processes.old.items }
    ensures steps { steps.new.items ≡ steps.old.items }
    ensures room { OnOk result (vec_len processes.new < vec_capacity processes.new) }
    ensures step_room { OnOk result (vec_len steps.new < vec_capacity steps.new) }
{
    processes.reserve(1)?;
    steps.reserve(1)
}

/// Changes the pending call of process `k`, and adds the shell that was started.
pub(crate) fn change_processes(
    processes: &mut Vec<Process>,
    k: usize,
    pending: Option<Call>,
    child: Option<Process>,
)
    requires process { k < vec_len processes.old }
    requires room { vec_len processes.old < vec_capacity processes.old }
    ensures { IsChanged processes.old.items k pending child processes.new.items }
{
    processes[k].pending = pending;
    if let Some(child) = child {
        processes.push_reserved(child);
    }
}
