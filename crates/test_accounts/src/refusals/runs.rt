//! A run of a script over a world that refuses.

use crate::refusals::accounts::{Wrong, check};
use crate::refusals::world::{Refusals, RefusingWorld};
use crate::scripts::Script;
use rc_scope::{State, texts_of};
use rc_shell::{Ran, ShellFault, execute};
use rc_world::{Answer, ChildNo, Fault};
use std::alloc::{AllocError, Global};

/// More instructions than any of the scripts has.
pub const LIMIT: u64 = 1_000_000;

/// The state before a script.
pub fn state(alloc: Global) -> Result<State, AllocError> {
    let mut state = State::new(alloc);
    let bin = vec![in alloc; String::from_str(alloc, "/bin")?]?;
    state
        .set("path", texts_of(alloc, &bin)?)
        .map_err(|_| AllocError)?;
    Ok(state)
}

/// How a run ended.
#[derive(Drop)]
enum End {
    /// The script ended, with these children in the background list.
    Ended(Vec<ChildNo>),
    Halted,
    /// It was refused, or stopped at its limit.
    Cut,
}

impl End {
    fn of(alloc: Global, ran: Result<Ran, ShellFault>) -> Result<End, AllocError> {
        Ok(match ran {
            Ok(Ran::Ended { state }) => End::Ended(Vec::from_slice(alloc, state.children())?),
            Ok(Ran::Halted) => End::Halted,
            Err(ShellFault::NoMemory) => return Err(AllocError),
            _ => End::Cut,
        })
    }
}

/// A run over a world.
pub struct Run {
    world: RefusingWorld,
    end: End,
}

impl Drop for Run {
    fn drop(self) {
        let Run { world: _, end: _ } = self;
    }
}

impl Run {
    /// The run of a script over a world that refuses these calls.
    pub fn of(alloc: Global, script: Script, refusals: Refusals) -> Result<Run, AllocError> {
        let state = state(alloc)?;
        let mut world = RefusingWorld::new(alloc, refusals);
        let ran = execute(alloc, &mut world, script.1.as_bytes(), state, LIMIT);
        let end = End::of(alloc, ran)?;
        Ok(Run { world, end })
    }

    /// The number of calls.
    pub fn calls(&self) -> usize {
        self.world.events().len()
    }

    /// The number of calls that were refused.
    pub fn refused(&self) -> usize {
        self.world
            .events()
            .iter()
            .filter(|event| matches!(event.answer, Answer::Refused(_)))
            .count()
    }

    /// Whether the script ended, or the run stopped at the call at which the world stopped.
    pub fn has_ended(&self) -> bool {
        let is_over = match self.world.events().last() {
            Some(event) => matches!(event.answer, Answer::Refused(Fault::Halt)),
            None => false,
        };
        match self.end {
            End::Ended(_) => !is_over,
            End::Halted => is_over,
            End::Cut => false,
        }
    }

    /// Checks what the run held and owed.
    pub fn check(&self, alloc: Global) -> Result<(), Wrong> {
        let background = match &self.end {
            End::Ended(background) => Some(background.as_slice()),
            _ => None,
        };
        check(alloc, self.world.events(), background)
    }
}
