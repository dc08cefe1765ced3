//! The run of a script on a machine over a world that refuses calls, for runs in which an allocation is refused.

use crate::refusals::calls::print_call;
use crate::refusals::runs::{LIMIT, state};
use crate::refusals::world::{Refusals, RefusingWorld};
use crate::scripts::Script;
use anyhow::{Result, bail};
use rc_builtin::compile_script;
use rc_code::Code;
use rc_machine::{Machine, Progress};
use rc_model::InputError;
use std::alloc::Global;

/// Runs a script, and prints its calls and, unless memory ran out, how it ended. If memory ran out, which is an error,
/// it runs the machine once more, and prints before the calls what that does but return that it has halted.
pub fn run_on_machine(rt: HostRuntime, script: Script, refusals: Refusals) -> Result<()> {
    let alloc = rt.alloc();
    let mut machine = machine_of(alloc, script)?;
    let mut world = RefusingWorld::new(alloc, refusals);
    let progress = machine.run(alloc, &mut world, LIMIT);
    let calls = world.events().len();
    if progress.is_err() && !is_over(alloc, &mut machine, &mut world) {
        println!(rt; "a further run goes on")?;
    }
    if calls < world.events().len() {
        println!(rt; "a further run makes calls")?;
    }
    for event in world.events() {
        print_call(rt, &event.call)?;
    }
    println!(rt; "{}", words(progress?))?;
    Ok(())
}

/// Whether a further run of a machine returns that it has halted.
fn is_over(alloc: Global, machine: &mut Machine, world: &mut RefusingWorld) -> bool {
    matches!(machine.run(alloc, world, LIMIT), Ok(Progress::Halted))
}

fn words(progress: Progress) -> &'static str {
    match progress {
        Progress::Ended => "ended",
        Progress::Limit => "limit",
        Progress::Halted => "halted",
    }
}

/// The machine of a script before its first instruction.
fn machine_of(alloc: Global, script: Script) -> Result<Box<Machine>> {
    let code = code_of(alloc, script)?;
    let state = state(alloc)?;
    Ok(Box::new(alloc, Machine::new(alloc, code, state))?)
}

/// The code of a script.
fn code_of(alloc: Global, script: Script) -> Result<Code> {
    match compile_script(alloc, script.1.as_bytes()) {
        Ok(code) => Ok(code),
        Err(InputError::Fault(_)) => bail!("no script"),
        Err(InputError::NoMemory) => bail!("no memory"),
    }
}
