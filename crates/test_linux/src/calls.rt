//! The notation for calls: the name of the call and its arguments, separated by blanks. After a backslash `s` is a
//! blank, `n` a newline and `0` a byte 0. `fill 1 20` writes 20 bytes to the file 1, `count 1` says how many bytes one
//! read of it returns, and `text 1` reads it to its end and closes it. `tally d` says how many names the directory
//! has.

use crate::answers::{child, count, done, ending, fault, file, kind, names, pipe, tally};
use crate::launches::{launch, slot};
use anyhow::{Result, anyhow};
use rc_host::HostWorld;
use rc_world::{ChildNo, Fault, Handle, Mode, World};
use std::alloc::{AllocError, Global};

/// Undoes the escapes of an argument.
pub fn unescaped(alloc: Global, written: &str) -> Result<String, AllocError> {
    let mut text = String::new(alloc);
    let mut is_escaped = false;
    for character in written.chars() {
        if is_escaped {
            text.push(match character {
                's' => ' ',
                'n' => '\n',
                '0' => '\0',
                _ => character,
            })?;
            is_escaped = false;
        } else if character == '\\' {
            is_escaped = true;
        } else {
            text.push(character)?;
        }
    }
    Ok(text)
}

/// Makes a call, and writes its answer.
pub fn answer(alloc: Global, host: &mut HostWorld, call: &str) -> Result<String> {
    let (kind, rest) = call.split_once(' ').unwrap_or((call, ""));
    match kind {
        "open" | "here" | "pipe" | "close" => open_or_close(alloc, host, kind, rest),
        "write" | "fill" | "count" | "text" => read_or_write(alloc, host, kind, rest),
        "list" | "tally" | "probe" | "chdir" => look(alloc, host, kind, rest),
        "start" | "wait" => run(alloc, host, kind, rest),
        _ => Err(anyhow!("another call")),
    }
}

/// Splits off the first argument of a call.
fn parted(given: &str) -> (&str, &str) {
    given.split_once(' ').unwrap_or((given, ""))
}

fn handle(number: &str) -> Result<Handle> {
    Ok(Handle(number.parse::<u32>()?))
}

fn mode(name: &str) -> Mode {
    match name {
        "read" => Mode::Read,
        "write" => Mode::Write,
        _ => Mode::Append,
    }
}

fn open_or_close(alloc: Global, host: &mut HostWorld, kind: &str, given: &str) -> Result<String> {
    Ok(match kind {
        "open" => {
            let (name, path) = parted(given);
            let path = unescaped(alloc, path)?;
            file(alloc, host.open(path.as_str(), mode(name)))?
        }
        "here" => {
            let text = unescaped(alloc, given)?;
            file(alloc, host.here(text.as_str()))?
        }
        "pipe" => pipe(alloc, host.pipe())?,
        _ => done(alloc, host.close(handle(given)?))?,
    })
}

fn read_or_write(alloc: Global, host: &mut HostWorld, kind: &str, given: &str) -> Result<String> {
    let (number, rest) = parted(given);
    Ok(match kind {
        "write" => {
            let text = unescaped(alloc, rest)?;
            done(alloc, host.write(slot(number)?, text.as_bytes()))?
        }
        "fill" => {
            let bytes = vec![in alloc; b'x'; rest.parse::<usize>()?]?;
            done(alloc, host.write(slot(number)?, bytes.as_slice()))?
        }
        "count" => count(alloc, host.read(handle(number)?))?,
        _ => read_all(alloc, host, handle(number)?)?,
    })
}

/// Reads the rest of a file, and closes it.
fn read_all(alloc: Global, host: &mut HostWorld, file: Handle) -> Result<String, AllocError> {
    let mut all = Vec::new(alloc);
    for _ in 0..u64::MAX {
        match host.read(file) {
            Ok(bytes) if bytes.is_empty() => break,
            Ok(bytes) => all.extend_from_slice(bytes.as_slice())?,
            Err(why) => return fault(alloc, why),
        }
    }
    match (host.close(file), str::from_utf8(all.as_slice())) {
        (Ok(()), Ok(text)) => format!(in alloc; "{text:?}"),
        (Err(why), _) => fault(alloc, why),
        (_, Err(_)) => fault(alloc, Fault::Other),
    }
}

fn look(alloc: Global, host: &mut HostWorld, call: &str, given: &str) -> Result<String> {
    let path = unescaped(alloc, given)?;
    Ok(match call {
        "list" => names(alloc, host.list(path.as_str()))?,
        "tally" => tally(alloc, host.list(path.as_str()))?,
        "probe" => kind(alloc, host.probe(path.as_str()))?,
        _ => done(alloc, host.chdir(path.as_str()))?,
    })
}

fn run(alloc: Global, host: &mut HostWorld, kind: &str, given: &str) -> Result<String> {
    if kind == "start" {
        let launch = launch(alloc, given)?;
        return Ok(child(alloc, host.start(&launch))?);
    }
    let number = ChildNo(given.parse::<u32>()?);
    Ok(ending(alloc, host.wait(number))?)
}
