//! Scripts that are cut at random places, the same in each run.

use crate::cuts::{shown, tree_of_pieces};
use crate::script_rows::ARROW;
use crate::trees::tree_of;
use std::alloc::{AllocError, Global};
use test_rows::{Tally, bytes};

/// The number of pieces that are fed before the rest of a script.
const PIECES: usize = 16;

/// The seeds of the two ways in which a script is cut.
const SEEDS: [u64; 2] = [1, 2];

/// The next number of a linear congruential generator.
fn next_number(number: u64) -> u64 {
    number
        .wrapping_mul(6_364_136_223_846_793_005)
        .wrapping_add(1_442_695_040_888_963_407)
}

/// Random lengths of the pieces of a script of this many bytes: between 0 and twice the average.
fn random_lengths(alloc: Global, seed: u64, bytes: usize) -> Result<Vec<usize>, AllocError> {
    let mut lengths = Vec::new(alloc);
    let mut number = next_number(seed.wrapping_add(bytes as u64));
    for _ in 0..PIECES {
        number = next_number(number);
        let random = (number >> 33) as usize;
        lengths.push(random % (bytes / PIECES * 2 + 3))?;
    }
    Ok(lengths)
}

/// Cuts a script at random places, and counts whether its result is that of the whole.
fn compare_cut(
    alloc: Global,
    out: &mut String,
    tally: &mut Tally,
    written: &str,
    script: &[u8],
    seed: u64,
) -> Result<(), AllocError> {
    let whole = shown(alloc, tree_of(alloc, script))?;
    let lengths = random_lengths(alloc, seed, script.len())?;
    let cut = shown(alloc, tree_of_pieces(alloc, script, &lengths))?;
    if cut.as_str() == whole.as_str() {
        tally.add_equal();
        return Ok(());
    }
    tally.add_differing(out, written, cut.as_str(), whole.as_str())
}

/// Cuts the script of each row at random places, in two ways.
pub fn compare(
    alloc: Global,
    out: &mut String,
    rows: &str,
    tally: &mut Tally,
) -> Result<(), AllocError> {
    for row in rows.lines() {
        let Some((written, _)) = row.split_once(ARROW) else {
            continue;
        };
        let Some(script) = bytes(alloc, written)? else {
            continue;
        };
        for seed in SEEDS {
            compare_cut(alloc, out, tally, written, script.as_slice(), seed)?;
        }
    }
    Ok(())
}
