//! Rows of scripts: a script, an arrow and the expected result, or one of several.

use crate::script_layers::Layer;
use std::alloc::{AllocError, Global};
use test_rows::{Tally, bytes};

/// The separator between a script and the expected result.
pub const ARROW: &str = "  ==>  ";

/// The separator between alternatives.
const OR: &str = "  or  ";

/// Whether the result is one of those that are expected.
fn is_wanted(alloc: Global, came: &str, wanted: &str) -> Result<bool, AllocError> {
    for one in wanted.split(OR) {
        if let Some(one) = bytes(alloc, one)?
            && one.as_slice() == came.as_bytes()
        {
            return Ok(true);
        }
    }
    Ok(false)
}

/// The result for the script of a row.
fn shown(alloc: Global, layer: Layer, written: &str) -> Result<String, AllocError> {
    match bytes(alloc, written)? {
        Some(script) => layer.show(alloc, script.as_slice()),
        None => String::from_str(alloc, "this is no row"),
    }
}

/// Compares a row, and writes the result if it differs.
fn compare_row(
    alloc: Global,
    out: &mut String,
    tally: &mut Tally,
    layer: Layer,
    row: &str,
) -> Result<(), AllocError> {
    let Some((written, wanted)) = row.split_once(ARROW) else {
        return tally.add_differing(out, row, "no arrow", "one");
    };
    let came = shown(alloc, layer, written)?;
    if is_wanted(alloc, came.as_str(), wanted)? {
        tally.add_equal();
        return Ok(());
    }
    tally.add_differing(out, written, came.as_str(), wanted)
}

/// Compares the rows of a file, and writes those that differ and how many there are.
pub fn compare(
    alloc: Global,
    out: &mut String,
    rows: &str,
    layer: Layer,
    name: &str,
) -> Result<(), AllocError> {
    let mut tally = Tally::new();
    for row in rows.lines() {
        compare_row(alloc, out, &mut tally, layer, row)?;
    }
    tally.report(out, name)
}
