//! Compares the results for scripts, and for what a shell is handed, with the expected ones, row by row, and reads the
//! examples and the one-line scripts in this folder. `test_texts lex|parse KIND BYTES` measures one reading instead.
#![tactic(auto)]

mod cuts;
mod dump;
mod examples;
mod faults;
mod findings;
mod handed_layers;
mod handed_rows;
mod images;
mod lines;
mod measure;
mod options;
mod random_cuts;
mod row_error;
mod row_texts;
mod script_layers;
mod script_rows;
mod states;
mod tokens;
mod trees;

use anyhow::Result;
use measure::measure;
use std::{env, fs};
use test_rows::Tally;

/// Compares the rows of scripts.
fn compare_scripts(rt: &HostRuntime, out: &mut String) -> Result<()> {
    use script_layers::Layer;
    for (name, layer) in [
        ("tokens", Layer::Tokens),
        ("trees", Layer::Trees),
        ("texts", Layer::Texts),
        ("faults", Layer::Faults),
        ("cuts", Layer::Cuts),
        ("mistakes", Layer::Findings),
        ("warnings", Layer::Findings),
        ("repairs", Layer::Repairs),
        ("forms", Layer::Forms),
    ] {
        let rows = fs::read_to_string(rt, name)?;
        script_rows::compare(rt.alloc(), out, rows.as_str(), layer, name)?;
    }
    Ok(())
}

/// Cuts the scripts of these rows at random places.
fn compare_cuts(rt: &HostRuntime, out: &mut String) -> Result<()> {
    let mut tally = Tally::new();
    for name in ["trees", "texts", "faults"] {
        let rows = fs::read_to_string(rt, name)?;
        random_cuts::compare(rt.alloc(), out, rows.as_str(), &mut tally)?;
    }
    tally.report(out, "cut at random places")?;
    Ok(())
}

/// Compares the rows of images, words and entries.
fn compare_handed(rt: &HostRuntime, out: &mut String) -> Result<()> {
    use handed_layers::Layer;
    for (name, layer) in [
        ("images", Layer::Trees),
        ("pieces", Layer::Pieces),
        ("words", Layer::Words),
        ("states", Layer::States),
        ("launches", Layer::States),
    ] {
        let rows = fs::read_to_string(rt, name)?;
        handed_rows::compare(rt.alloc(), out, rows.as_str(), layer, name)?;
    }
    Ok(())
}

/// Compares all rows, and reads the examples and the one-line scripts.
fn compare_all(rt: HostRuntime) -> Result<()> {
    let mut out = String::new(rt.alloc());
    compare_scripts(&rt, &mut out)?;
    compare_cuts(&rt, &mut out)?;
    compare_handed(&rt, &mut out)?;
    print!(rt; "{out}")?;
    examples::read_all(&rt)?;
    lines::read_all(&rt)
}

fn main(rt: HostRuntime) -> Result<()> {
    let mut args = env::args(&rt)?.skip(1);
    match (args.next(), args.next(), args.next()) {
        (Some(what), Some(kind), Some(size)) => measure(rt, &what, &kind, &size),
        _ => compare_all(rt),
    }
}
