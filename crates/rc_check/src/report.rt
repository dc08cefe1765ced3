//! The report on a script.

ghost use Rattle.std.specs.Prelude.{IfOk};
ghost use Rattle.rc_check.specs.Verdicts.{IsVerdictOn};

use crate::faults::findings::{Finding, found_fault, read};
use crate::positions::{Position, beginning, go_to, position_of};
use crate::verdicts::Verdict;
use rc_parser::{InputError, Source};
use rc_warnings::{MOST_WARNINGS, Warning, WarningKind, push_escaped, warnings_in};
use std::alloc::{AllocError, Global};

/// The greatest number of bytes of a line that are shown on each side of a place.
const MOST_SHOWN: usize = 200;

/// The report on a script.
#[derive(Drop)]
pub struct Report {
    /// For a fault or a warning `NAME:LINE:COLUMN: WORDS`, the line, a mark below the place, and any advice. Empty if
    /// there is neither.
    pub text: String,
    pub verdict: Verdict,
}

/// Reports on a script of this name.
pub fn report_of(alloc: Global, name: &str, script: &[u8]) -> Result<Report, AllocError>
    ensures { IfOk result (λ report. IsVerdictOn script.now report.verdict) }
{
    let mut text = String::new(alloc);
    let verdict = match read(alloc, script) {
        Ok(lexed) => {
            show_warnings(alloc, &mut text, name, &lexed.source())?;
            if text.is_empty() {
                Verdict::Well
            } else {
                Verdict::Warned
            }
        }
        Err(InputError::Fault(fault)) => {
            let finding = found_fault(alloc, script, fault)?;
            show_finding(alloc, &mut text, name, script, finding)?;
            Verdict::Failed
        }
        Err(InputError::NoMemory) => return Err(AllocError),
    };
    Ok(Report { text, verdict })
}

fn show_finding(
    alloc: Global,
    out: &mut String,
    name: &str,
    script: &[u8],
    finding: Finding,
) -> Result<(), AllocError> {
    let kind = finding.fault.kind;
    match finding.place {
        Some(place) => {
            let place = place.min(script.len());
            show_place(out, name, position_of(script, place))?;
            write!(out, "{kind}\n")?;
            show_line(alloc, out, script, place)?;
        }
        None => write!(out, "{name}: {kind}\n")?,
    }
    if let Some(advice) = finding.advice {
        write!(out, "    {advice}\n")?;
    }
    Ok(())
}

/// Writes the warnings of a script with its tokens.
fn show_warnings(
    alloc: Global,
    out: &mut String,
    name: &str,
    source: &Source<'_>,
) -> Result<(), AllocError> {
    let script = source.script;
    let mut reached = beginning(script);
    let warnings = warnings_in(alloc, script, source.tokens)?;
    for warning in &warnings {
        reached = go_to(script, reached, warning.place.min(script.len()));
        show_place(out, name, reached.position)?;
        show_warning(alloc, out, script, *warning)?;
    }
    if warnings.len() >= MOST_WARNINGS {
        write!(out, "{name}: only {MOST_WARNINGS} warnings are shown\n")?;
    }
    Ok(())
}

/// Writes a warning after its place, with its line and what to write.
fn show_warning(
    alloc: Global,
    out: &mut String,
    script: &[u8],
    warning: Warning,
) -> Result<(), AllocError> {
    let WarningKind { name, words } = warning.kind;
    let repair = warning.repair.text(alloc, script)?;
    write!(out, "{words} [{name}]\n")?;
    show_line(alloc, out, script, warning.place)?;
    write!(out, "    {repair}\n")
}

/// Writes the name of a file and a position in it.
fn show_place(out: &mut String, name: &str, position: Position) -> Result<(), AllocError> {
    let Position { line, column } = position;
    write!(out, "{name}:{line}:{column}: ")
}

/// Writes the line of a place, with a mark below it.
fn show_line(
    alloc: Global,
    out: &mut String,
    script: &[u8],
    place: usize,
) -> Result<(), AllocError> {
    let (before, after) = script.split_at(place.min(script.len()));
    let mut shown = String::new(alloc);
    push_escaped(&mut shown, end_of_line(before))?;
    write!(out, "    {shown}")?;
    push_escaped(out, begin_of_line(after))?;
    out.push_str("\n    ")?;
    for character in shown.as_str().chars() {
        out.push(if character == '\t' { '\t' } else { ' ' })?;
    }
    out.push_str("^\n")
}

/// The end of a text after its last newline, as far as it is shown.
fn end_of_line(text: &[u8]) -> &[u8] {
    let shown = &text[text.len().saturating_sub(MOST_SHOWN)..];
    shown.rsplit(|byte| *byte == b'\n').next().unwrap_or(shown)
}

/// The beginning of a text before its first newline, as far as it is shown.
fn begin_of_line(text: &[u8]) -> &[u8] {
    let shown = &text[..text.len().min(MOST_SHOWN)];
    shown.split(|byte| *byte == b'\n').next().unwrap_or(shown)
}
