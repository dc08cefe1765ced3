//! The trials of a script: its runs with each call refused in turn, with each two calls, and with the world stopped at
//! each call.

use crate::refusals::runs::Run;
use crate::refusals::world::Refusals;
use crate::scripts::Script;
use anyhow::{Result, bail};
use std::alloc::Global;

/// More calls than any run makes.
const MOST_CALLS: usize = 1_000;

/// The number of runs, of calls that were refused in them, and of runs with a fault.
#[derive(Clone, Copy)]
pub struct Counts {
    pub runs: usize,
    pub refused: usize,
    pub wrong: usize,
}

impl Counts {
    /// The counts before the first run.
    pub fn none() -> Counts {
        Counts {
            runs: 0,
            refused: 0,
            wrong: 0,
        }
    }

    /// Adds the counts of other runs.
    pub fn add(&mut self, other: Counts) {
        self.runs = self.runs.saturating_add(other.runs);
        self.refused = self.refused.saturating_add(other.refused);
        self.wrong = self.wrong.saturating_add(other.wrong);
    }
}

/// The trials of a script.
#[derive(Drop)]
struct Trials {
    rt: HostRuntime,
    script: Script,
    counts: Counts,
}

/// Makes the trials of a script, prints the faults in any of them, and counts them.
pub fn try_all(rt: HostRuntime, script: Script) -> Result<Counts> {
    let mut trials = Trials {
        rt,
        script,
        counts: Counts::none(),
    };
    trials.refuse_each()?;
    trials.refuse_pairs()?;
    trials.halt_at_each()?;
    Ok(trials.counts)
}

impl Trials {
    /// Makes one run, and returns the number of its calls.
    fn run(&mut self, refusals: Refusals) -> Result<usize> {
        let alloc = self.rt.alloc();
        let run = Run::of(alloc, self.script, refusals)?;
        let mut counts = Counts {
            runs: 1,
            refused: run.refused(),
            wrong: 0,
        };
        if let Some(words) = wrong(alloc, &run) {
            let name = self.script.0;
            println!(self.rt; "{name}, {refusals}: {words}")?;
            counts.wrong = 1;
        }
        self.counts.add(counts);
        Ok(run.calls())
    }

    /// Refuses each call in turn, until a run has no call of that number.
    fn refuse_each(&mut self) -> Result<()> {
        for number in 1..MOST_CALLS {
            if self.run(Refusals::One(number))? < number {
                return Ok(());
            }
        }
        bail!("too many calls")
    }

    /// Refuses each two calls in turn, until a run has no call of the first one's number.
    fn refuse_pairs(&mut self) -> Result<()> {
        for first in 1..MOST_CALLS {
            if self.refuse_after(first)? < first {
                return Ok(());
            }
        }
        bail!("too many calls")
    }

    /// Refuses a call and each later one in turn, until a run has no call of the later one's number. Returns the number
    /// of calls of that run.
    fn refuse_after(&mut self, first: usize) -> Result<usize> {
        for second in first.saturating_add(1)..MOST_CALLS {
            let calls = self.run(Refusals::Two(first, second))?;
            if calls < second {
                return Ok(calls);
            }
        }
        bail!("too many calls")
    }

    /// Stops the world at each call in turn, until a run has no call of that number.
    fn halt_at_each(&mut self) -> Result<()> {
        for number in 1..MOST_CALLS {
            if self.run(Refusals::Halt(number))? < number {
                return Ok(());
            }
        }
        bail!("too many calls")
    }
}

/// The fault of a run, in words.
fn wrong(alloc: Global, run: &Run) -> Option<&'static str> {
    if !run.has_ended() {
        return Some("another end");
    }
    match run.check(alloc) {
        Ok(()) => None,
        Err(wrong) => Some(wrong.words()),
    }
}
