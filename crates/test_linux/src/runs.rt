//! The runs, and the result of each.

use crate::run_rows::Row;
use anyhow::Result;
use std::alloc::{AllocError, AllocGlobal, Global};
use std::fs;
use std::fs::File;
use std::io::{self, Write};
use std::process::{Child, Command, Output, Processes, Stdio};
use std::rt::Files;

/// Makes the run of each row, prints the results that are not as expected, and returns whether there is none.
pub fn check_all<R: Print + Files<File = File> + Processes + AllocGlobal>(
    rt: &R,
    own_path: &str,
) -> Result<bool> {
    let text = fs::read_to_string(rt, "runs.rows")?;
    let mut are_well = true;
    for written in text.split("\n## ").skip(1) {
        let row = Row::read(rt.alloc(), written)?;
        are_well &= check_run(rt, &row, own_path)?;
    }
    Ok(are_well)
}

fn check_run<R: Print + Files<File = File> + Processes + AllocGlobal>(
    rt: &R,
    row: &Row,
    own_path: &str,
) -> Result<bool> {
    let mut shell = shell_of(rt.alloc(), row, own_path)?;
    let output = match &row.input {
        Some(path) => with_file(rt, shell, path)?,
        None => with_script(rt, &mut shell, row.script.as_bytes())?,
    };
    let result = result_of(rt.alloc(), &output)?;
    if result.trim_end_matches('\n') == row.result.trim_end_matches('\n') {
        return Ok(true);
    }
    let name = row.name.as_str();
    let wanted = row.result.as_str();
    println!(rt; "{name} differs: {result}in place of {wanted}")?;
    Ok(false)
}

/// The shell as a process without an environment, which a row starts this way.
fn shell_of(alloc: Global, row: &Row, own_path: &str) -> Result<Command, AllocError> {
    match &row.starter {
        Some(text) => through_sh(alloc, text, own_path),
        None => with_arguments(alloc, &row.words),
    }
}

/// The shell as a process with these arguments.
fn with_arguments(alloc: Global, arguments: &[String]) -> Result<Command, AllocError> {
    let mut command = Command::new(alloc, "/proc/self/exe")?;
    command.env_clear();
    command.arg("rc")?;
    for argument in arguments {
        command.arg(argument)?;
    }
    Ok(command)
}

/// The shell as a process that another shell starts with this text.
fn through_sh(alloc: Global, text: &str, own_path: &str) -> Result<Command, AllocError> {
    let mut command = Command::new(alloc, "/bin/sh")?;
    command.env_clear();
    command.arg("-c")?;
    command.arg(text)?;
    command.arg(own_path)?;
    Ok(command)
}

/// A run of the shell whose input is this file.
fn with_file<R: Files<File = File> + Processes + AllocGlobal>(
    rt: &R,
    mut shell: Command,
    path: &str,
) -> Result<Output> {
    shell.stdin(fs::open(rt, path)?);
    Ok(shell.output(rt)?)
}

/// A run of the shell that reads this script from a pipe.
fn with_script<R: Processes + AllocGlobal>(
    rt: &R,
    shell: &mut Command,
    script: &[u8],
) -> Result<Output> {
    let mut child = started(rt, shell)?;
    let given = give(child.stdin.take(), script);
    let output = child.wait_with_output(rt.alloc());
    given?;
    Ok(output?)
}

/// The running shell, with a pipe as each of its descriptors.
fn started<R: Processes + AllocGlobal>(
    rt: &R,
    shell: &mut Command,
) -> io::Result<Child<R::Started>> {
    shell
        .stdin(Stdio::piped())
        .stdout(Stdio::piped())
        .stderr(Stdio::piped())
        .spawn(rt)
}

/// Writes this to a child's input, which then ends.
fn give<W: Write + Drop>(input: Option<W>, script: &[u8]) -> io::Result<()> {
    if let Some(mut input) = input {
        input.write_all(script)?;
    }
    Ok(())
}

/// The status, and the lines that were written, in the notation of a row.
fn result_of(alloc: Global, output: &Output) -> Result<String, AllocError> {
    let status = output.status.code().unwrap_or(-1);
    let mut result = format!(in alloc; "{status}\n")?;
    add_lines(&mut result, "1", output.stdout.as_slice())?;
    add_lines(&mut result, "2", output.stderr.as_slice())?;
    Ok(result)
}

fn add_lines(out: &mut String, descriptor: &str, bytes: &[u8]) -> Result<(), AllocError> {
    for line in std::str::from_utf8(bytes).unwrap_or("not UTF-8").lines() {
        write!(out, "{descriptor}> {line}\n")?;
    }
    Ok(())
}
