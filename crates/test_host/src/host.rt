//! A host, and launches on it.
use rc_host::{HostWorld, entries, own_path};
use rc_text::Text;
use rc_world::{Ending, Fault, Handle, Launch, Mode, PLAIN_SLOTS, Program, Slots, World};
use std::alloc::{AllocError, Global};
use std::rt::HostRuntime;
use std::test::Fail;
use std::{env, process};

/// The entry that marks a process that was started by its own test.
const AGAIN: &str = "RC_HOST_TEST=again";

/// A host that has opened and started nothing.
pub fn host(rt: HostRuntime) -> Result<HostWorld, AllocError> {
    let shell = String::from_str(rt.alloc(), "/bin/false")?;
    Ok(HostWorld::new(rt, Some(shell)))
}

/// The path of this program.
pub fn this_program(rt: HostRuntime) -> Result<String, AllocError> {
    own_path(rt.alloc(), env::current_exe(&rt), process::id(rt.process()))
}

/// Returns the value of a call. A refusal fails the test; out of memory does so by its own error.
pub fn granted<T: Drop>(answer: Result<T, Fault>) -> Result<T, Fail> {
    match answer {
        Ok(value) => Ok(value),
        Err(Fault::NoMemory) => Err(Fail::from(AllocError)),
        Err(_) => Err(Fail::new("a call was refused")),
    }
}

pub fn texts(alloc: Global, all: &[&str]) -> Result<Vec<Text>, AllocError> {
    let mut copies = Vec::new(alloc);
    for text in all {
        copies.push(Text::of(alloc, text)?)?;
    }
    Ok(copies)
}

pub fn launch(
    alloc: Global,
    path: &str,
    args: &[&str],
    entries: &[&str],
    slots: Slots,
) -> Result<Launch, AllocError> {
    Ok(Launch {
        program: Program::Path(String::from_str(alloc, path)?),
        args: texts(alloc, args)?,
        env: texts(alloc, entries)?,
        slots,
    })
}

/// A script of `/bin/sh`, with this word as its `$0`.
pub fn script(alloc: Global, text: &str, word: &str, slots: Slots) -> Result<Launch, AllocError> {
    launch(
        alloc,
        "/bin/sh",
        &["-c", text, word],
        &["PATH=/bin:/usr/bin"],
        slots,
    )
}

/// Runs a launch, and returns how it ended.
pub fn run(host: &mut HostWorld, launch: &Launch) -> Result<Ending, Fail> {
    let child = granted(host.start(launch))?;
    granted(host.wait(child))
}

/// Runs a script of `/bin/sh` with the descriptors of this process, and returns how it ended.
pub fn run_script(alloc: Global, host: &mut HostWorld, text: &str) -> Result<Ending, Fail> {
    run(host, &script(alloc, text, "sh", PLAIN_SLOTS)?)
}

/// Reads the rest of a file or a pipe, and closes it.
pub fn read_all(alloc: Global, host: &mut HostWorld, file: Handle) -> Result<String, Fail> {
    let mut all = Vec::new(alloc);
    for _ in 0..u64::MAX {
        let bytes = granted(host.read(file))?;
        if bytes.is_empty() {
            break;
        }
        all.extend_from_slice(&bytes)?;
    }
    granted(host.close(file))?;
    match String::from_utf8(all) {
        Ok(text) => Ok(text),
        Err(_) => Err(Fail::new("it is not UTF-8")),
    }
}

/// The text of a file.
pub fn contents(alloc: Global, host: &mut HostWorld, path: &str) -> Result<String, Fail> {
    let file = granted(host.open(path, Mode::Read))?;
    read_all(alloc, host, file)
}

/// Makes a fresh directory, and enters it.
pub fn enter_fresh_directory(rt: HostRuntime, host: &mut HostWorld) -> Result<String, Fail> {
    let process = process::id(rt.process());
    let path = format!(in rt.alloc(); "/tmp/rc_host.{process}")?;
    std::fs::create_dir(&rt, path.as_str())?;
    granted(host.chdir(&path))?;
    Ok(path)
}

/// Leaves the directory, and removes it with all its files.
pub fn leave_directory(rt: HostRuntime, host: &mut HostWorld, path: &str) -> Result<(), Fail> {
    granted(host.chdir("/"))?;
    std::fs::remove_dir_all(&rt, path)?;
    Ok(())
}

/// Whether this process was started by its own test.
pub fn is_started_again(rt: HostRuntime) -> Result<bool, Fail> {
    Ok(entries(&rt)?.iter().any(|entry| entry.as_str() == AGAIN))
}

/// The program of this test with its arguments, after these words of another program, and with the entry that marks it.
pub fn again(
    alloc: Global,
    host: &mut HostWorld,
    path: &str,
    words: &[&str],
    slots: Slots,
) -> Result<Launch, Fail> {
    let line = contents(alloc, host, "/proc/self/cmdline")?;
    let mut launch = launch(alloc, path, words, &[AGAIN], slots)?;
    for arg in line.as_str().trim_end_matches('\0').split('\0').skip(1) {
        launch.args.push(Text::of(alloc, arg)?)?;
    }
    Ok(launch)
}
