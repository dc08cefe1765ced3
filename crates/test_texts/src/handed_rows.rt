//! Rows of images, words and entries: the input, an arrow and the expected result.

use crate::handed_layers::Layer;
use std::alloc::{AllocError, Global};
use test_rows::Tally;

/// Compares a row, and writes the result if it differs.
fn compare_row(
    alloc: Global,
    out: &mut String,
    tally: &mut Tally,
    layer: Layer,
    written: &str,
    wanted: &str,
) -> Result<(), AllocError> {
    let came = layer.show(alloc, written)?;
    if came.trim_end_matches('\n') == wanted.trim_end_matches('\n') {
        tally.add_equal();
        return Ok(());
    }
    tally.add_differing(out, written, came.as_str(), wanted)
}

/// Compares the rows of a file, and writes those that differ and how many there are. A row without an arrow is a
/// comment.
pub fn compare(
    alloc: Global,
    out: &mut String,
    rows: &str,
    layer: Layer,
    name: &str,
) -> Result<(), AllocError> {
    let (between, arrow) = layer.separators();
    let mut tally = Tally::new();
    for row in rows.split(between) {
        if let Some((written, wanted)) = row.split_once(arrow) {
            compare_row(alloc, out, &mut tally, layer, written, wanted)?;
        }
    }
    tally.report(out, name)
}
