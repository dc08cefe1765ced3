//! Names each of the one-line scripts of `tests/lines` that writes something and has a fault: a script that has run is
//! accepted. A row is `SCRIPT => OUTPUT => STATUS`, with `-` for no output; in a script `\n` is a newline, `\\` a
//! backslash and `\0` with three digits the byte of that octal number.

use anyhow::Result;
use rc_check::first_fault;
use std::alloc::{AllocError, Global};
use std::fs;

/// The separator between the parts of a row.
const ARROW: &str = " => ";

/// Parses the script of a row.
fn script(alloc: Global, written: &str) -> Result<Vec<u8>, AllocError> {
    let mut bytes = Vec::new(alloc);
    let mut parts = written.split('\\');
    if let Some(first) = parts.next() {
        bytes.extend_from_slice(first.as_bytes())?;
    }
    let mut is_escaped = false;
    for part in parts {
        is_escaped = add_escaped(&mut bytes, part, is_escaped)?;
    }
    Ok(bytes)
}

/// Adds what follows a backslash, which is plain text if an empty part was an escape before, and returns whether the
/// next one is plain.
fn add_escaped(bytes: &mut Vec<u8>, part: &str, is_plain: bool) -> Result<bool, AllocError> {
    if is_plain {
        bytes.extend_from_slice(part.as_bytes())?;
        return Ok(false);
    }
    match part.as_bytes() {
        [] => {
            bytes.push(b'\\')?;
            return Ok(true);
        }
        [b'n', rest @ ..] => add(bytes, b'\n', rest)?,
        [
            b'0',
            a @ b'0'..=b'3',
            b @ b'0'..=b'7',
            c @ b'0'..=b'7',
            rest @ ..,
        ] => {
            add(bytes, octal(*a, *b, *c), rest)?;
        }
        rest => add(bytes, b'\\', rest)?,
    }
    Ok(false)
}

/// The byte of an octal number of three digits.
fn octal(a: u8, b: u8, c: u8) -> u8 {
    (a & 3) << 6 | (b & 7) << 3 | (c & 7)
}

fn add(bytes: &mut Vec<u8>, first: u8, rest: &[u8]) -> Result<(), AllocError> {
    bytes.push(first)?;
    bytes.extend_from_slice(rest)
}

/// Whether the script of a row has a fault, although it writes something.
fn is_wrong(alloc: Global, row: &str) -> Result<bool, AllocError> {
    let Some((written, came)) = row.split_once(ARROW) else {
        return Ok(false);
    };
    if came.starts_with("- => ") {
        return Ok(false);
    }
    let script = script(alloc, written)?;
    Ok(first_fault(alloc, script.as_slice())?.is_some())
}

/// Reads the rows of a file.
fn read(rt: &HostRuntime, name: &str) -> Result<()> {
    let rows = fs::read_to_string(rt, name)?;
    for row in rows.as_str().lines() {
        if is_wrong(rt.alloc(), row)? {
            println!(rt; "{name}: {row}")?;
        }
    }
    Ok(())
}

/// Reads each file of rows in this folder.
pub fn read_all(rt: &HostRuntime) -> Result<()> {
    for entry in fs::read_dir(rt, ".")? {
        let entry = entry?;
        if entry.file_name().ends_with(".lines") {
            read(rt, entry.file_name())?;
        }
    }
    Ok(())
}
