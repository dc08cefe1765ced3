//! Measures the steps of a family, one step of each shell after the other.

use crate::families::trees::tree_of;
use anyhow::{Context, Result};
use rc_scope::State;
use rc_shell::Family;
use rc_world::{Answer, Call, ChildNo, Ending, Handle, Kind};
use std::alloc::{AllocError, Global};
use std::time::CpuClock;

/// Enough instructions for each shell.
const LIMIT: u64 = 1_000_000_000;

/// More rounds than there are.
const MOST_ROUNDS: usize = 1_000_000;

/// The numbers from 1 to this one.
fn push_numbers(text: &mut String, last: usize) -> Result<(), AllocError> {
    for number in 1..=last {
        write!(text, " {number}")?;
    }
    Ok(())
}

/// A script that starts this many shells with this many commands each.
fn script(alloc: Global, shells: usize, commands: usize) -> Result<String, AllocError> {
    let mut text = String::from_str(alloc, "for(x in")?;
    push_numbers(&mut text, shells)?;
    text.push_str("){for(y in")?;
    push_numbers(&mut text, commands)?;
    text.push_str(") /bin/c $y &}\n")?;
    Ok(text)
}

/// An answer to a call.
fn answer(alloc: Global, call: &Call, number: u32) -> Answer {
    match call {
        Call::Open(_, _) | Call::Here(_) => Answer::File(Handle(number)),
        Call::Pipe => Answer::Pair(Handle(number), Handle(number.saturating_add(1))),
        Call::Read(_) => Answer::Bytes(Vec::new(alloc)),
        Call::Start(_) => Answer::Child(ChildNo(number)),
        Call::Wait(_) => Answer::Ended(Ending::Code(0)),
        Call::List(_) => Answer::Names(Vec::new(alloc)),
        Call::Probe(_) => Answer::Found(Kind::Program),
        _ => Answer::Done,
    }
}

/// A running family, and how long each thousand of its steps took.
#[derive(Drop)]
struct Run {
    rt: HostRuntime,
    family: Family,
    steps: u32,
    /// The microseconds so far when the last thousand began.
    since: u128,
}

impl Run {
    /// The microseconds of processor time so far.
    fn micros(&self) -> Result<u128> {
        Ok(self.rt.thread_cpu_time()?.as_micros())
    }

    /// Answers the call of a shell, if it has one, and returns whether it had.
    fn step(&mut self, shell: usize) -> Result<bool> {
        let alloc = self.rt.alloc();
        let Some(call) = self.family.pending(shell) else {
            return Ok(false);
        };
        let answer = answer(alloc, call, self.steps);
        self.family.step(alloc, shell, answer)?;
        self.steps = self.steps.saturating_add(1);
        if self.steps.is_multiple_of(1000) {
            let now = self.micros()?;
            let (steps, took) = (self.steps, now.saturating_sub(self.since));
            println!(self.rt; "{steps} {took}")?;
            self.since = now;
        }
        Ok(true)
    }

    /// Makes one step of each shell that has a call, and returns whether there was one.
    fn round(&mut self) -> Result<bool> {
        let mut has_gone_on = false;
        for shell in 0..self.family.count() {
            has_gone_on |= self.step(shell)?;
        }
        Ok(has_gone_on)
    }
}

/// Runs this many shells with this many commands each, and prints the microseconds of processor time that each thousand
/// steps take.
pub(crate) fn measure(rt: HostRuntime, shells: &str, commands: &str) -> Result<()> {
    let shells = shells.parse().context("no number of shells")?;
    let commands = commands.parse().context("no number of commands")?;
    let alloc = rt.alloc();
    let text = script(alloc, shells, commands)?;
    let tree = tree_of(alloc, text.as_str())?;
    let family = Family::new(alloc, &tree, State::new(alloc), LIMIT)?;
    let mut run = Run {
        rt,
        family,
        steps: 0,
        since: 0,
    };
    run.since = run.micros()?;
    for _ in 0..MOST_ROUNDS {
        if !run.round()? {
            break;
        }
    }
    let (steps, count) = (run.steps, run.family.count());
    println!(run.rt; "{steps} steps of {count} shells")?;
    Ok(())
}
