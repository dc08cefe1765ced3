//! The orders in which the processes of a family can go on.

use crate::families::fault::RunError;
use crate::families::runs::{Order, Run};
use std::alloc::Global;

/// Enough instructions for each process.
const LIMIT: u64 = 100_000;

/// The number of orders that are tried for a script.
const ORDERS: u64 = 40;

/// A pipeline into a subshell that runs another pipeline, and the processes whose calls are answered first.
const PIPELINES: &str = "a | @{b | c}";

const BEGINNING: [usize; 5] = [0, 0, 0, 0, 2];

/// The first of these orders after which some process of a script has not ended, if there is one.
pub fn check_orders(alloc: Global, script: &str) -> Result<Option<u64>, RunError> {
    for seed in 0..ORDERS {
        let mut run = Run::begin(alloc, script, LIMIT)?;
        run.finish(alloc, Order::Random(seed))?;
        if !run.has_ended() {
            return Ok(Some(seed));
        }
    }
    Ok(None)
}

/// Runs the pipelines to their end, in this order after their beginning.
fn run_pipelines(alloc: Global, order: Order) -> Result<Run, RunError> {
    let mut run = Run::begin(alloc, PIPELINES, LIMIT)?;
    for process in BEGINNING {
        run.step(alloc, process)?;
    }
    run.finish(alloc, order)?;
    Ok(run)
}

/// Whether two runs have ended with the same calls of each process.
fn are_alike(one: &Run, other: &Run) -> bool {
    if !one.has_ended() || !other.has_ended() || one.count() != other.count() {
        return false;
    }
    for process in 0..one.count() {
        if one.accounts.calls(process) != other.accounts.calls(process) {
            return false;
        }
    }
    true
}

/// Whether each process makes the same calls if the greatest goes first and if the least does.
pub fn check_both_orders(alloc: Global) -> Result<bool, RunError> {
    let greatest = run_pipelines(alloc, Order::Greatest)?;
    let least = run_pipelines(alloc, Order::Least)?;
    Ok(are_alike(&greatest, &least))
}
