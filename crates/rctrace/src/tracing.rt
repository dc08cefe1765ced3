//! A run of the shell whose calls are shown.

use crate::environment::manner;
use crate::options::{Asked, Refused};
use crate::paths::absolute;
use rc_cli::{Request, RunError};
use rc_host::{ArgumentsFault, InputError};
use rc_process::{Shell, shell_of};
use rc_shown::run_shown;
use rc_trace::{HandingWorld, Lines, Refusal, RefusalWorld, TraceWorld};
use std::alloc::{AllocError, AllocFailed, Global};
use std::fs::File;
use std::io::Write;
use std::{env, fmt, fs, io};

/// The name of the first process.
pub(crate) const FIRST: &str = "1";

pub(crate) const USAGE: &str =
    "usage: rctrace [-E] [-S] [-o file] [-r n] [-d directory] [-e] [-c text | file] [arg ...]\n\
     usage: rctrace [-E] [-S] -r all [-t seconds] -d directory [-e] [-c text | file] [arg ...]";

/// Why nothing was run, or why the run failed.
#[derive(Clone, Copy)]
pub(crate) enum TraceError<'a> {
    Usage,
    /// The file for the calls couldn't be opened.
    CannotOpen(&'a str),
    /// The directory couldn't be changed to.
    CannotEnter(&'a str),
    Run(RunError<'a>),
}

impl<'a> From<RunError<'a>> for TraceError<'a> {
    fn from(error: RunError<'a>) -> TraceError<'a> {
        TraceError::Run(error)
    }
}

impl<'a> From<InputError<ArgumentsFault>> for TraceError<'a> {
    fn from(error: InputError<ArgumentsFault>) -> TraceError<'a> {
        match error {
            InputError::Fault(ArgumentsFault::NotText) => TraceError::Usage,
            InputError::NoMemory => TraceError::Run(RunError::NoMemory),
        }
    }
}

impl<'a> From<AllocError> for TraceError<'a> {
    fn from(_: AllocError) -> TraceError<'a> {
        TraceError::Run(RunError::NoMemory)
    }
}

impl<'a, T: Drop> From<AllocFailed<T>> for TraceError<'a> {
    fn from(_: AllocFailed<T>) -> TraceError<'a> {
        TraceError::Run(RunError::NoMemory)
    }
}

impl fmt::Display for TraceError<'_> {
    fn fmt<W: fmt::Write>(&self, f: &mut fmt::Formatter<W>) -> fmt::Result {
        match self {
            TraceError::Usage => f.write_str(USAGE),
            TraceError::CannotOpen(name) => write!(f, "rctrace: cannot open {name}"),
            TraceError::CannotEnter(name) => write!(f, "rctrace: cannot enter {name}"),
            TraceError::Run(error) => write!(f, "{error}"),
        }
    }
}

/// Runs the request of what is asked for, and returns the number that the process ends with.
pub(crate) fn trace<'a>(
    rt: HostRuntime,
    asked: Asked<'a>,
    request: Request<'a>,
) -> Result<u8, TraceError<'a>> {
    let shell = shell_of(rt, request)?;
    let Some(name) = asked.out else {
        return run_to(rt, asked, with_errors(shell), rt.stderr(), None);
    };
    let path = absolute(&rt, name)?;
    match opened(&rt, &path, asked.process.is_none()) {
        Ok(out) => run_to(rt, asked, shell, out, Some(path)),
        // The script goes on, whatever has become of the file.
        Err(_) if asked.process.is_some() => {
            run_to(rt, asked, with_errors(shell), rt.stderr(), Some(path))
        }
        Err(_) => Err(TraceError::CannotOpen(name)),
    }
}

/// The same shell, which keeps its descriptor 2 open.
fn with_errors(mut shell: Shell) -> Shell {
    shell.leaving.errors = false;
    shell
}

/// The file that the calls are shown in, at whose end each process writes. The first one empties it, and holds it open
/// until it is open for appending, so that a reader of a FIFO sees no end in between.
fn opened(rt: &HostRuntime, path: &str, is_first: bool) -> io::Result<File> {
    let _emptied = if is_first {
        Some(fs::create(rt, path)?)
    } else {
        None
    };
    File::options().append(true).create(true).open(rt, path)
}

/// Runs what is asked for with its calls shown here, in the file of this path if it has one.
fn run_to<'a, O: Write + Drop>(
    rt: HostRuntime,
    asked: Asked<'a>,
    shell: Shell,
    out: O,
    path: Option<String>,
) -> Result<u8, TraceError<'a>> {
    let alloc = rt.alloc();
    let Shell {
        mut world,
        leaving,
        entries,
        input,
    } = shell;
    world.leave(leaving);
    let process = asked.process.unwrap_or(FIRST);
    let refusing = RefusalWorld::new(alloc, world, refusal(asked.refused));
    let name = String::from_str(alloc, process)?;
    let handing = HandingWorld::new(alloc, refusing, options(alloc, asked, path)?, name);
    let process = String::from_str(alloc, process)?;
    let lines = Lines::new(alloc, process, manner(alloc, asked, &entries)?, out);
    let mut traced = TraceWorld::new(handing, lines);
    enter(&rt, asked.directory)?;
    let ran = run_shown(alloc, &mut traced, asked.arguments, &entries, input);
    let (_, lines) = traced.into_parts();
    if !lines.is_whole() {
        let _ = eprintln!(rt; "rctrace: some calls could not be shown");
    }
    Ok(ran?)
}

/// The words that a shell is handed before its name.
fn options(
    alloc: Global,
    asked: Asked<'_>,
    path: Option<String>,
) -> Result<Vec<String>, AllocError> {
    let mut options = Vec::new(alloc);
    if asked.environment {
        options.push(String::from_str(alloc, "-E")?)?;
    }
    if asked.images {
        options.push(String::from_str(alloc, "-S")?)?;
    }
    if let Some(path) = path {
        options.push(String::from_str(alloc, "-o")?)?;
        options.push(path)?;
    }
    options.push(String::from_str(alloc, "-p")?)?;
    Ok(options)
}

fn refusal(refused: Refused) -> Refusal {
    match refused {
        Refused::One(number) => Refusal::After(number.saturating_sub(1)),
        Refused::None | Refused::Each => Refusal::Never,
    }
}

/// Changes to the directory that the script runs in, if there is one.
fn enter<'a>(rt: &HostRuntime, directory: Option<&'a str>) -> Result<(), TraceError<'a>> {
    match directory {
        Some(name) if env::set_current_dir(rt, name).is_err() => Err(TraceError::CannotEnter(name)),
        _ => Ok(()),
    }
}
