//! The rows of the files `*.calls` in this folder: calls on Linux, each with the expected answer after ` > `. A line
//! `## its_name` begins a row, which has a world of its own; `#` begins a comment. The lines after `100 times:`, up to
//! an empty one, are made a hundred times.

use crate::calls::answer;
use anyhow::Result;
use rc_host::HostWorld;
use std::alloc::Global;
use std::fs;

/// The separator between a call and its answer.
const ARROW: &str = " > ";

/// Makes the calls of some lines, prints those whose answers differ, and returns whether there is none.
fn check_lines(rt: HostRuntime, alloc: Global, host: &mut HostWorld, lines: &str) -> Result<bool> {
    let mut are_well = true;
    for line in lines.lines() {
        if let Some((call, wanted)) = line.split_once(ARROW) {
            let came = answer(alloc, host, call)?;
            if came.as_str() != wanted {
                println!(rt; "{call} > {came} in place of {wanted}")?;
                are_well = false;
            }
        }
    }
    Ok(are_well)
}

/// Makes the calls of some lines as often as the line above them says.
fn check_part(rt: HostRuntime, alloc: Global, host: &mut HostWorld, part: &str) -> Result<bool> {
    let (times, lines) = match part.split_once(" times:\n") {
        Some((times, lines)) => (times.parse::<u32>()?, lines),
        None => (1, part),
    };
    let mut are_well = true;
    for _ in 0..times {
        are_well &= check_lines(rt, alloc, host, lines)?;
    }
    Ok(are_well)
}

/// Makes the calls of a row, part by part; an empty line separates parts.
fn check_row(rt: HostRuntime, alloc: Global, row: &str) -> Result<bool> {
    let shell = String::from_str(alloc, "/bin/false")?;
    let mut host = HostWorld::new(rt, Some(shell));
    let mut are_well = true;
    for part in row.split("\n\n") {
        are_well &= check_part(rt, alloc, &mut host, part)?;
    }
    Ok(are_well)
}

/// Makes the calls of the rows of a file, prints those whose answers differ, and returns whether there is none.
pub fn check_file(rt: HostRuntime, alloc: Global, file: &str) -> Result<bool> {
    let text = fs::read_to_string(&rt, file)?;
    let mut are_well = true;
    for row in text.split("## ").skip(1) {
        let (name, calls) = row.split_once('\n').unwrap_or((row, ""));
        if !check_row(rt, alloc, calls)? {
            println!(rt; "{name} differs")?;
            are_well = false;
        }
    }
    Ok(are_well)
}
