//! Families that are run to their ends.

use crate::families::accounts::Accounts;
use crate::families::fault::RunError;
use crate::families::trees::tree_of;
use rc_scope::{State, texts_of};
use rc_shell::{Family, FamilyFault};
use std::alloc::Global;

/// More steps than any family of a script makes.
const MOST_STEPS: usize = 10_000;

/// A state with `path=(/bin)`.
fn state(alloc: Global) -> Result<State, RunError> {
    let mut state = State::new(alloc);
    let path = vec![in alloc; String::from_str(alloc, "/bin")?]?;
    if state.set("path", texts_of(alloc, &path)?).is_err() {
        return Err(RunError::NoMemory);
    }
    Ok(state)
}

/// The family of a script before its first step, or why it is not begun.
pub fn begin(
    alloc: Global,
    script: &str,
    limit: u64,
) -> Result<Result<Family, FamilyFault>, RunError> {
    let tree = tree_of(alloc, script)?;
    Ok(Family::new(alloc, &tree, state(alloc)?, limit))
}

/// Which of the processes that can go on goes first.
#[derive(Clone, Copy)]
pub enum Order {
    Greatest,
    Least,
    /// By pseudorandom numbers, which begin with this one.
    Random(u64),
}

impl Order {
    /// The index of the next of this many processes, and the order from then on.
    fn choose(self, count: usize) -> (usize, Order) {
        match self {
            Order::Greatest => (count.saturating_sub(1), self),
            Order::Least => (0, self),
            Order::Random(number) => {
                let next = number
                    .wrapping_mul(6_364_136_223_846_793_005)
                    .wrapping_add(1_442_695_040_888_963_407);
                let place = if count == 0 {
                    0
                } else {
                    (next >> 33) as usize % count
                };
                (place, Order::Random(next))
            }
        }
    }
}

/// A family with the accounts of its processes, over a world in which every call is done.
pub struct Run {
    pub accounts: Accounts,
    family: Family,
}

impl Drop for Run {
    fn drop(self) {
        let Run {
            accounts: _,
            family: _,
        } = self;
    }
}

impl Run {
    /// A run before the first step of its script.
    pub fn begin(alloc: Global, script: &str, limit: u64) -> Result<Run, RunError> {
        let family = begin(alloc, script, limit)??;
        Ok(Run {
            accounts: Accounts::new(alloc)?,
            family,
        })
    }

    /// The number of shells.
    pub fn count(&self) -> usize {
        self.family.count()
    }

    /// Whether each shell has ended.
    pub fn has_ended(&self) -> bool {
        for process in 0..self.family.count() {
            if self.family.pending(process).is_some() {
                return false;
            }
        }
        true
    }

    /// The processes that can go on, in their order.
    fn ready(&self, alloc: Global) -> Result<Vec<usize>, RunError> {
        let mut ready = Vec::new(alloc);
        for process in 0..self.family.count() {
            if let Some(call) = self.family.pending(process)
                && !self.accounts.is_waiting(&self.family, process, call)
            {
                ready.push(process)?;
            }
        }
        Ok(ready)
    }

    /// Answers the pending call of a process.
    pub fn step(&mut self, alloc: Global, process: usize) -> Result<(), RunError> {
        let Some(call) = self.family.pending(process) else {
            return Err(RunError::BadRow);
        };
        let answer = self.accounts.answer(alloc, process, call)?;
        let call = self.family.step(alloc, process, answer)?;
        self.accounts.push_call(process, &call)
    }

    /// Makes steps in this order, until no process can go on.
    pub fn finish(&mut self, alloc: Global, order: Order) -> Result<(), RunError> {
        let mut order = order;
        for _ in 0..MOST_STEPS {
            let ready = self.ready(alloc)?;
            let (place, next) = order.choose(ready.len());
            order = next;
            match ready.get(place) {
                Some(process) => self.step(alloc, *process)?,
                None => return Ok(()),
            }
        }
        Ok(())
    }
}
