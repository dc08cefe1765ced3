//! Runs a script and shows each call that it makes with its answer: `rctrace FILE arg ..`.
#![tactic(auto)]

mod environment;
mod guard;
mod options;
mod paths;
mod scratch;
mod table;
mod tracing;
mod trials;

use options::{Asked, Refused};
use rc_cli::report;
use rc_host::arguments;
use std::process::ExitCode;
use tracing::{TraceError, USAGE, trace};
use trials::try_all;

/// The version of the shell with its tools, and the kit that proves it.
const VERSION: &str = "rctrace 0.3.0 (rattle-kit-13)";

/// Does what the arguments ask for.
fn run(rt: HostRuntime, arguments: &[String]) -> ExitCode {
    match arguments {
        [first] if first.as_str() == "--version" => say(&rt, VERSION),
        [first] if first.as_str() == "--help" => say(&rt, USAGE),
        _ => match Asked::of(arguments) {
            Some((asked, request)) if !matches!(asked.refused, Refused::Each) => {
                end(&rt, trace(rt, asked, request))
            }
            Some((asked, _)) => try_each(rt, asked),
            None => end(&rt, Err(TraceError::Usage)),
        },
    }
}

/// Writes a line.
fn say(rt: &HostRuntime, text: &str) -> ExitCode {
    match println!(rt; "{text}") {
        Ok(()) => ExitCode::SUCCESS,
        Err(_) => ExitCode::FAILURE,
    }
}

/// Refuses each call in turn.
fn try_each(rt: HostRuntime, asked: Asked<'_>) -> ExitCode {
    match try_all(rt, asked) {
        Ok(()) => ExitCode::SUCCESS,
        Err(error) => {
            let _ = eprintln!(rt; "rctrace: {error:#}");
            ExitCode::FAILURE
        }
    }
}

/// What the process ends with. An error is reported on descriptor 2.
fn end(rt: &HostRuntime, traced: Result<u8, TraceError<'_>>) -> ExitCode {
    match traced {
        Ok(status) => ExitCode::from(status),
        Err(TraceError::Run(error)) => report(rt, Err(error)),
        Err(error) => {
            let _ = eprintln!(rt; "{error}");
            ExitCode::FAILURE
        }
    }
}

fn main(rt: HostRuntime) -> ExitCode {
    match arguments(&rt) {
        Ok(arguments) => run(rt, &arguments),
        Err(error) => end(&rt, Err(TraceError::from(error))),
    }
}
