//! Runs each row of the files `*.rows` in this folder over a tape, and prints for each file whether its rows are as
//! expected, and for a row that isn't what differs.
#![tactic(auto)]

mod answers;
mod checks;
mod fault;
mod input;
mod options;
mod rows;
mod runs;
mod story;

use anyhow::Result;
use checks::difference;
use fault::RowError;
use rows::Row;
use std::alloc::{AllocError, Global};
use std::fs;
use std::process::ExitCode;

/// The names of the files with rows, in byte order.
fn files(rt: &HostRuntime) -> Result<Vec<String>> {
    let mut names = Vec::new(rt.alloc());
    for entry in fs::read_dir(rt, ".")? {
        let entry = entry?;
        if entry.file_name().ends_with(".rows") {
            names.push(String::from_str(rt.alloc(), entry.file_name())?)?;
        }
    }
    names.sort()?;
    Ok(names)
}

/// What differs in a row, if anything.
fn difference_of(alloc: Global, written: &str) -> Result<Option<String>, RowError> {
    let row = Row::read(alloc, written)?;
    difference(alloc, &row)
}

/// Adds what differs in a row, and returns whether nothing does.
fn is_well(alloc: Global, out: &mut String, row: &str) -> Result<bool, AllocError> {
    let (name, written) = row.split_once('\n').unwrap_or((row, ""));
    match difference_of(alloc, written) {
        Ok(None) => return Ok(true),
        Ok(Some(difference)) => write!(out, "{name} differs, {difference}\n")?,
        Err(RowError::NoMemory) => return Err(AllocError),
        Err(_) => write!(out, "{name} is no row\n")?,
    }
    Ok(false)
}

/// Adds what differs in the rows of a file, and returns whether it has rows and nothing does.
fn are_well(alloc: Global, out: &mut String, text: &str) -> Result<bool, AllocError> {
    let begun = format!(in alloc; "\n{text}")?;
    let mut are_well = begun.contains("\n## ");
    for row in begun.split("\n## ").skip(1) {
        are_well &= is_well(alloc, out, row)?;
    }
    Ok(are_well)
}

/// Checks the rows of a file.
fn check_file(rt: &HostRuntime, name: &str) -> Result<bool> {
    let text = fs::read_to_string(rt, name)?;
    let mut out = String::new(rt.alloc());
    let are_well = are_well(rt.alloc(), &mut out, text.as_str())?;
    let result = if are_well {
        "as wanted"
    } else {
        "not as wanted"
    };
    print!(rt; "{out}{name}: {result}\n")?;
    Ok(are_well)
}

fn main(rt: HostRuntime) -> Result<ExitCode> {
    let mut are_well = true;
    for name in files(&rt)? {
        are_well &= check_file(&rt, name.as_str())?;
    }
    Ok(if are_well {
        ExitCode::SUCCESS
    } else {
        ExitCode::FAILURE
    })
}
