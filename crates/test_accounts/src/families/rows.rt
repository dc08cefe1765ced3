//! How a row is written:
//!
//! ```text
//! ## its_name
//! limit 1000
//! script:
//! the lines of the script
//! steps:
//! 0 probe /bin/a > program
//! 7 no such process > done
//! pending 0 start /bin/a [] ["path=/bin", "status="] 0 1 2
//! count 1
//! ```
//!
//! The limit can be left out. A step is the number of a process, the call that it answers or why it is refused, and the
//! answer. For a family that is not begun the only line says why. Lines that begin with `#`, and empty ones, are
//! ignored.

use crate::families::fault::RunError;
use crate::families::runs::begin;
use rc_shell::{Family, FamilyFault};
use std::alloc::{AllocError, Global};
use test_calls::{answer, write_call};

/// Enough instructions for each script that ends.
const LIMIT: u64 = 100_000;

/// The separator between a call and its answer.
const ARROW: &str = " > ";

/// Returns what differs in a row: its actual lines.
pub fn difference(alloc: Global, written: &str) -> Result<Option<String>, RunError> {
    let (options, rest) = written.split_once("script:\n").ok_or(RunError::BadRow)?;
    let (script, rest) = rest.split_once("steps:\n").ok_or(RunError::BadRow)?;
    let steps = lines(alloc, rest)?;
    let came = transcript(alloc, limit(options)?, script, steps.as_str())?;
    Ok(if came == steps { None } else { Some(came) })
}

/// The limit in the options.
fn limit(options: &str) -> Result<u64, RunError> {
    for option in options.lines() {
        if let Some(number) = option.strip_prefix("limit ") {
            return Ok(number.parse::<u64>()?);
        }
    }
    Ok(LIMIT)
}

/// The lines that are not ignored.
fn lines(alloc: Global, written: &str) -> Result<String, AllocError> {
    let mut lines = String::new(alloc);
    for line in written.lines() {
        if !line.is_empty() && !line.starts_with('#') {
            lines.push_str(line)?;
            lines.push('\n')?;
        }
    }
    Ok(lines)
}

/// The actual lines for the steps of a family.
fn transcript(alloc: Global, limit: u64, script: &str, steps: &str) -> Result<String, RunError> {
    let mut out = String::new(alloc);
    match begin(alloc, script, limit)? {
        Ok(mut family) => {
            for line in steps.lines() {
                push_line(alloc, &mut out, &mut family, line)?;
            }
        }
        Err(fault) => write!(out, "{fault}\n")?,
    }
    Ok(out)
}

/// Adds the actual line for a line.
fn push_line(
    alloc: Global,
    out: &mut String,
    family: &mut Family,
    line: &str,
) -> Result<(), RunError> {
    let (first, rest) = line.split_once(' ').ok_or(RunError::BadRow)?;
    match first {
        "count" => write!(out, "count {}\n", family.count())?,
        "pending" => push_pending(out, family, first_word(rest).parse::<usize>()?)?,
        _ => push_step(alloc, out, family, first.parse::<usize>()?, rest)?,
    }
    Ok(())
}

/// The text before the first space.
fn first_word(text: &str) -> &str {
    text.split_once(' ').unwrap_or((text, "")).0
}

/// Adds the pending call of a process.
fn push_pending(out: &mut String, family: &Family, process: usize) -> Result<(), AllocError> {
    write!(out, "pending {process} ")?;
    match family.pending(process) {
        Some(call) => write_call(out, call)?,
        None => out.push_str("none")?,
    }
    out.push('\n')
}

/// Makes a step of a process, and adds the result.
fn push_step(
    alloc: Global,
    out: &mut String,
    family: &mut Family,
    process: usize,
    rest: &str,
) -> Result<(), RunError> {
    let (_, answered) = rest.split_once(ARROW).ok_or(RunError::BadRow)?;
    write!(out, "{process} ")?;
    match family.step(alloc, process, answer(alloc, answered)?) {
        Ok(call) => write_call(out, &call)?,
        Err(fault) => write!(out, "{fault}")?,
    }
    write!(out, "{ARROW}{answered}\n")?;
    Ok(())
}
