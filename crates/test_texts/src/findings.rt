//! What `rc_check` finds in a script.

use rc_check::{Canonical, Finding, Position, canonical_of, first_fault, position_of, warnings_of};
use std::alloc::{AllocError, Global};

/// The fault of a script, as `LINE:COLUMN FAULT ADVICE`, or its warnings, each as `LINE:COLUMN NAME`, or `nothing`.
pub fn findings(alloc: Global, script: &[u8]) -> Result<String, AllocError> {
    match first_fault(alloc, script)? {
        Some(finding) => fault(alloc, script, finding),
        None => warnings(alloc, script),
    }
}

/// A fault with its place, which is on the parser's line.
fn fault(alloc: Global, script: &[u8], finding: Finding) -> Result<String, AllocError> {
    let mut out = String::new(alloc);
    match finding.place {
        Some(place) => show_place(&mut out, script, place)?,
        None => out.push_str("nowhere")?,
    }
    let kind = finding.fault.kind;
    write!(out, " {kind}")?;
    if let Some(advice) = finding.advice {
        let name = advice.name;
        write!(out, " {name}")?;
        if let Some(line) = advice.line {
            write!(out, "({line})")?;
        }
    }
    Ok(out)
}

fn warnings(alloc: Global, script: &[u8]) -> Result<String, AllocError> {
    let warnings = warnings_of(alloc, script)?;
    if warnings.is_empty() {
        return String::from_str(alloc, "nothing");
    }
    let mut out = String::new(alloc);
    for warning in &warnings {
        if !out.is_empty() {
            out.push_str(", ")?;
        }
        show_place(&mut out, script, warning.place)?;
        let name = warning.kind.name;
        write!(out, " {name}")?;
    }
    Ok(out)
}

fn show_place(out: &mut String, script: &[u8], place: usize) -> Result<(), AllocError> {
    let Position { line, column } = position_of(script, place.min(script.len()));
    write!(out, "{line}:{column}")
}

/// What to write in place of each thing that a script is warned of, as `NAME: WORDS`.
pub fn repairs(alloc: Global, script: &[u8]) -> Result<String, AllocError> {
    let mut out = String::new(alloc);
    for warning in &warnings_of(alloc, script)? {
        if !out.is_empty() {
            out.push_str("; ")?;
        }
        let name = warning.kind.name;
        let repair = warning.repair.text(alloc, script)?;
        write!(out, "{name}: {repair}")?;
    }
    Ok(out)
}

/// The canonical form of a script.
pub fn form(alloc: Global, script: &[u8]) -> Result<String, AllocError> {
    match canonical_of(alloc, script)? {
        Canonical::Text(text) => Ok(text),
        Canonical::Refused => String::from_str(alloc, "refused"),
        Canonical::HereInside => String::from_str(alloc, "a here document is inside"),
        Canonical::TooLong => String::from_str(alloc, "too long"),
    }
}
