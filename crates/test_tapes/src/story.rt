//! The story of a run: its calls, each on a line, and how it ended.

use crate::answers::ARROW;
use rc_cli::RunError;
use rc_image::ImageFault;
use rc_model::SyntaxFault;
use rc_scope::State;
use rc_world::Call;
use std::alloc::{AllocError, Global};
use test_calls::write_call;

/// How a run ended.
#[derive(Drop)]
pub enum End<'a> {
    Ended(&'a State),
    Limit,
    Halted,
    NoScript(SyntaxFault),
    NoImage(ImageFault),
    NoMemory,
    /// The program ended with this number.
    Number(u8),
    /// The program ended with the line of this fault.
    Fault(RunError<'a>),
}

/// The story of a run.
pub struct Story {
    pub calls: String,
    pub end: String,
}

impl Drop for Story {
    fn drop(self) {
        let Story { calls: _, end: _ } = self;
    }
}

impl Story {
    /// The story of a run with these calls and this end.
    pub fn of(alloc: Global, calls: &[Call], end: String) -> Result<Story, AllocError> {
        let mut story = Story {
            calls: String::new(alloc),
            end,
        };
        for call in calls {
            write_call(&mut story.calls, call)?;
            story.calls.push('\n')?;
        }
        Ok(story)
    }

    /// The story of a run whose calls are shown in these lines of the process `1`, with this end.
    pub fn shown(alloc: Global, lines: &[u8], end: String) -> Result<Story, AllocError> {
        let mut calls = String::new(alloc);
        for line in str::from_utf8(lines).unwrap_or("no text").lines() {
            let (call, _) = line.split_once(ARROW).unwrap_or((line, ""));
            calls.push_str(call.strip_prefix("1 ").unwrap_or(line))?;
            calls.push('\n')?;
        }
        Ok(Story { calls, end })
    }
}

/// An end as it is written.
pub fn ended(alloc: Global, end: End<'_>) -> Result<String, AllocError> {
    let mut written = String::new(alloc);
    write_end(&mut written, end)?;
    Ok(written)
}

/// Writes an end.
fn write_end(out: &mut String, end: End<'_>) -> Result<(), AllocError> {
    match end {
        End::Ended(state) => write_state(out, state),
        End::Limit => out.push_str("limit"),
        End::Halted => out.push_str("halted"),
        End::NoImage(fault) => write!(out, "{fault}"),
        End::NoScript(fault) => write!(out, "{:?} in line {}", fault.kind, fault.line),
        End::NoMemory => out.push_str("no memory"),
        End::Number(number) => write!(out, "{number}"),
        End::Fault(fault) => write!(out, "{fault}"),
    }
}

/// Writes the status of a state, and the variables that a script of a row may set.
fn write_state(out: &mut String, state: &State) -> Result<(), AllocError> {
    out.push_str("ended, ")?;
    out.push_str(state.status())?;
    write_variable(out, state, "x")?;
    write_variable(out, state, "apid")
}

/// Writes a variable, if it has a member.
fn write_variable(out: &mut String, state: &State, name: &str) -> Result<(), AllocError> {
    match state.get(name) {
        Ok(value) if !value.is_empty() => write!(out, "; {name}={value:?}"),
        _ => Ok(()),
    }
}
