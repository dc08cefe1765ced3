//! The runs of a script with each call of its first process refused in turn, each in a fresh copy of a directory.
//!
//! Each run is a process of its own, `rctrace` once more, so that none can spoil what a script is tried on. `cp`,
//! `sort`, `diff` and `timeout` do what is not a shell's matter.

use crate::guard::{Guard, bound, bounded, can_bind};
use crate::options::Asked;
use crate::scratch::Scratch;
use crate::table::{LEGEND, Outcome, TITLES, only_in};
use crate::tracing::FIRST;
use anyhow::{Context, Result, bail};
use rc_host::own_path;
use std::alloc::AllocError;
use std::io::Write;
use std::process::{Command, ExitStatus, Stdio};
use std::time::{Duration, Instant};
use std::{env, process};

/// More calls than are refused in turn.
const MOST_CALLS: usize = 100_000;

/// How many seconds a run may take, unless it was told.
const MOST_SECONDS: u32 = 60;

/// The runs of a script.
#[derive(Drop)]
struct Trials<'a> {
    rt: HostRuntime,
    asked: Asked<'a>,
    /// The path of this program.
    program: String,
    scratch: Scratch,
    /// Whether the runs end when this process is gone.
    is_bound: bool,
    /// How many seconds a run may take.
    seconds: u32,
}

/// Runs the script without a refusal, and then once for each call, until a run meets no refusal. Shows what is
/// different.
pub(crate) fn try_all(rt: HostRuntime, asked: Asked<'_>) -> Result<()> {
    let program = own_path(rt.alloc(), env::current_exe(&rt), process::id(rt.process()))?;
    let scratch = Scratch::new(rt)?;
    let guard = Guard::over(&rt, scratch.path());
    let is_bound = can_bind(&rt)?;
    let seconds = asked.seconds.unwrap_or(MOST_SECONDS);
    let trials = Trials {
        rt,
        asked,
        program,
        scratch,
        is_bound,
        seconds,
    };
    let tried = trials.refuse_each();
    let removed = trials.scratch.remove();
    if let Ok(guard) = guard {
        guard.end()?;
    }
    tried?;
    removed
}

impl Trials<'_> {
    fn refuse_each(&self) -> Result<()> {
        self.run("plain", None)?;
        self.show_plain()?;
        println!(self.rt; "{TITLES}")?;
        let (mut all_compared, mut some_silent) = (true, false);
        for number in 1..MOST_CALLS {
            self.run("refused", Some(number))?;
            let Some(call) = self.refused_call(number)? else {
                return self.show_differences(all_compared, some_silent);
            };
            match self.outcome(number, call)? {
                Some(outcome) => {
                    println!(self.rt; "{outcome}")?;
                    some_silent |= outcome.is_silent();
                }
                None => all_compared = false,
            }
            self.scratch.remove_directory("refused")?;
        }
        bail!("too many calls")
    }

    /// Runs the script in a fresh copy of the directory, with this call refused, and calls the directory of the run by
    /// this name then.
    fn run(&self, name: &str, refused: Option<usize>) -> Result<()> {
        self.scratch.make_directory("run")?;
        self.copy_files()?;
        let status = self.run_to_files(&mut self.traced(refused)?)?;
        self.scratch
            .write("run/status", &format!(in self.rt.alloc(); "{status}\n")?)?;
        self.sort_calls()?;
        self.scratch.rename("run", name)
    }

    /// Copies the directory, with all that is in it.
    fn copy_files(&self) -> Result<()> {
        let directory = self.asked.directory.context("no directory")?;
        let from = format!(in self.rt.alloc(); "{directory}/.")?;
        let mut command = self.command("cp")?;
        command
            .arg("-a")?
            .arg("--")?
            .arg(&from)?
            .arg(&self.scratch.path_of("run/files")?)?;
        if !self.status(&mut command)?.success() {
            bail!("cannot copy {directory}");
        }
        Ok(())
    }

    /// The command that shows the calls of the script, with this one refused.
    fn traced(&self, refused: Option<usize>) -> Result<Command> {
        let alloc = self.rt.alloc();
        let mut command = bounded(alloc, self.is_bound, self.seconds, &self.program)?;
        command.arg("-o")?.arg(&self.scratch.path_of("run/calls")?)?;
        command.arg("-d")?.arg(&self.scratch.path_of("run/files")?)?;
        if self.asked.environment {
            command.arg("-E")?;
        }
        if self.asked.images {
            command.arg("-S")?;
        }
        if let Some(number) = refused {
            command.arg("-r")?.arg(format!(in alloc; "{number}")?)?;
        }
        for argument in self.asked.arguments {
            command.arg(argument)?;
        }
        Ok(command)
    }

    /// Runs a command without input, whose output goes into files of the run, and returns how it ended: its number,
    /// `signal`, or `cut` if it took too long.
    fn run_to_files(&self, command: &mut Command) -> Result<String> {
        command
            .stdin(Stdio::null())
            .stdout(self.scratch.create("run/output")?)
            .stderr(self.scratch.create("run/errors")?);
        let begun = Instant::now(&self.rt)?;
        let status = self.status(command)?;
        if begun.elapsed(&self.rt)? >= Duration::from_secs(u64::from(self.seconds)) {
            return Ok(String::from_str(self.rt.alloc(), "cut")?);
        }
        Ok(match status.code() {
            Some(code) => format!(in self.rt.alloc(); "{code}")?,
            None => String::from_str(self.rt.alloc(), "signal")?,
        })
    }

    /// A command that ends when this process is gone, if it is bound.
    fn command(&self, program: &str) -> Result<Command, AllocError> {
        bound(self.rt.alloc(), self.is_bound, program)
    }

    /// How a command ends.
    fn status(&self, command: &mut Command) -> Result<ExitStatus> {
        let ended = command.status(&self.rt);
        ended.context(format_args!("cannot run {}", command.get_program()))
    }

    /// Orders the calls of a run by process.
    fn sort_calls(&self) -> Result<()> {
        let calls = self.scratch.path_of("run/calls")?;
        let mut command = self.command("sort")?;
        command
            .arg("-s")?
            .args(["-k", "1,1", "-o", calls.as_str(), calls.as_str()])?
            .env("LC_ALL", "C")?;
        if !self.status(&mut command)?.success() {
            bail!("cannot sort the calls");
        }
        Ok(())
    }

    /// Shows how many calls the first process made without a refusal, and how it ended. It is an error if it made
    /// none: then the shell has said why on descriptor 2, unless the script needs none. It is one, too, if it took too
    /// long.
    fn show_plain(&self) -> Result<()> {
        let calls = self.scratch.text("plain/calls")?;
        let status = self.scratch.text("plain/status")?;
        let status = status.trim_end();
        let count = calls.lines().filter(|line| is_of_first(line)).count();
        println!(self.rt; "no call refused: {count} calls, status {status}")?;
        if status == "cut" {
            bail!("the script was cut after {} seconds", self.seconds);
        }
        if count == 0 {
            eprint!(self.rt; "{}", self.scratch.text("plain/errors")?)?;
            bail!("there is no call to refuse");
        }
        Ok(())
    }

    /// The call that was refused, if one was.
    fn refused_call(&self, number: usize) -> Result<Option<String>> {
        let calls = self.scratch.text("refused/calls")?;
        let mut of_first = calls.lines().filter(|line| is_of_first(line));
        Ok(match of_first.nth(number.saturating_sub(1)) {
            Some(line) => Some(String::from_str(self.rt.alloc(), call_of(line))?),
            None => None,
        })
    }

    /// What a run has come to, unless its files can't be compared. Its differences are kept.
    fn outcome(&self, number: usize, call: String) -> Result<Option<Outcome>> {
        let are_kept = self.keep_differences(number, &call)?;
        let Some((same_files, left)) = self.compare_files()? else {
            return Ok(None);
        };
        if !are_kept {
            return Ok(None);
        }
        let status = self.scratch.text("refused/status")?;
        Ok(Some(Outcome {
            number,
            call,
            status: String::from_str(self.rt.alloc(), status.trim_end())?,
            same_output: self.scratch.bytes("plain/output")?
                == self.scratch.bytes("refused/output")?,
            same_files,
            left,
        }))
    }

    /// Whether the files are the same, and which are there in place of none, if they can be compared.
    fn compare_files(&self) -> Result<Option<(bool, Vec<String>)>> {
        let alloc = self.rt.alloc();
        let mut command = self.command("diff")?;
        command
            .args(["-rq", "plain/files", "refused/files"])?
            .env("LC_ALL", "C")?
            .current_dir(self.scratch.path())?
            .stdout(self.scratch.create("files")?);
        let code = self.status(&mut command)?.code();
        if !matches!(code, Some(0 | 1)) {
            return Ok(None);
        }
        let mut left = Vec::new(alloc);
        let only = self.scratch.text("files")?;
        for line in only.lines() {
            if let Some((inside, name)) = only_in(line, "refused/files") {
                let path = format!(in alloc; "{inside}/{name}")?;
                let path = path.strip_prefix('/').unwrap_or(&path);
                left.push(String::from_str(alloc, path)?)
                    .map_err(AllocError::from)?;
            }
        }
        Ok(Some((code == Some(0), left)))
    }

    /// Keeps what is different with a refusal, and returns whether all could be compared.
    fn keep_differences(&self, number: usize, call: &str) -> Result<bool> {
        let mut kept = self.scratch.end_of("differences")?;
        let alloc = self.rt.alloc();
        let title = format!(in alloc; "call {number} refused: {call}\n")?;
        kept.write_all(title.as_bytes())?;
        let mut command = self.command("diff")?;
        command
            .args(["-r", "plain", "refused"])?
            .current_dir(self.scratch.path())?
            .stdout(kept);
        Ok(matches!(self.status(&mut command)?.code(), Some(0 | 1)))
    }

    /// Shows what is different with each refusal.
    fn show_differences(&self, all_compared: bool, some_silent: bool) -> Result<()> {
        if some_silent {
            println!(self.rt; "{LEGEND}")?;
        }
        println!(self.rt; "")?;
        self.rt
            .stdout()
            .write_all(&self.scratch.bytes("differences")?)?;
        if !all_compared {
            bail!("some files could not be compared");
        }
        Ok(())
    }
}

/// Whether a line shows a call of the first process.
fn is_of_first(line: &str) -> bool {
    process_and_call(line).0 == FIRST
}

/// The call of a line, without its process and its answer.
fn call_of(line: &str) -> &str {
    let (_, call) = process_and_call(line);
    call.rsplit_once(" > ").map_or(call, |(call, _)| call)
}

/// The name of the process of a line, and what comes after it.
fn process_and_call(line: &str) -> (&str, &str) {
    line.split_once(' ').unwrap_or((line, ""))
}
