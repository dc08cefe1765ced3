//! Programs that were started.
ghost use Rattle.std.specs.Prelude.{◌≡◌, ◌≢◌, ◌↔◌, ℤ, pos, ◌<ℤ◌, ◌≤ℤ◌, IfOk, IfErr, IsOk};
ghost use Rattle.std.specs.Int.{cast_signed, w32};
ghost use Rattle.std.specs.IoError.{error_kind};
ghost use Rattle.std.specs.Process.{status_bits};

use crate::launches::launch_request::Request;
use std::io;
use std::io::ErrorKind;
use std::marker::Model;
use std::os::fd::RawFd;
use std::os::unix::process::ExitStatusExt;
use std::process::{Child, ChildStderr, ChildStdin, ChildStdout, ExitStatus, OpenProcess};

/// A child that Linux started, by its number. It is waited for once, after which Linux may give the number to another.
#[derive(Drop)]
pub(crate) struct LinuxChild {
    number: i32,
}

impl Model for LinuxChild {
    ghost Value = { ℤ };

    ghost view = { λ child. child.number };

    ghost invariant = { λ child. pos 0 <ℤ child.number };
}

impl OpenProcess for LinuxChild {
    type Stdin = ChildStdin;

    type Stdout = ChildStdout;

    type Stderr = ChildStderr;

    fn id(&self) -> u32 {
        self.number.cast_unsigned()
    }

    fn wait(&mut self) -> io::Result<ExitStatus> {
        wait_again(self)
    }
}

/// Starts the program of a request.
pub(crate) fn start(request: &Request) -> io::Result<Child<LinuxChild>> {
    let program = request.program.as_bytes();
    child_of(spawn(
        program,
        request.args,
        request.env,
        request.descriptors,
        request,
    ))
}

/// Asks Linux for the start of the program in the directory of this process. It gets copies of these descriptors as its
/// own three, and no others.
fn spawn(
    program: &[u8],
    args: &[u8],
    env: &[u8],
    descriptors: [RawFd; 3],
    _request: &Request,
) -> i32
    requires program { program.now ≡ _request.now.program.now }
    requires args { args.now ≡ _request.now.args.now }
    requires env { env.now ≡ _request.now.env.now }
    requires descriptors { descriptors ≡ _request.now.descriptors }
{
    os::spawn(program, args, env, b"", descriptors)
}

/// The child that Linux has started, by what it answered: the child's number, or none if the start was refused.
fn child_of(said: i32) -> io::Result<Child<LinuxChild>>
    ensures { IsOk result ↔ pos 0 <ℤ said }
{
    if said <= 0 {
        return Err(io::Error::from_raw_os_error(os::errno()));
    }
    Ok(Child::from_parts(LinuxChild { number: said }, None, None, None))
}

/// Waits for the end of a child, and again if a signal interrupts that.
fn wait_again(child: &LinuxChild) -> io::Result<ExitStatus>
    ensures { IfErr result (λ error. error_kind error ≢ ErrorKind.Interrupted) }
{
    for _ in 0..u64::MAX {
        match wait_once(child.number, child) {
            Err(error) if error.kind() == ErrorKind::Interrupted => {}
            ended => return ended,
        }
    }
    Err(io::Error::from(ErrorKind::Other))
}

/// Waits for the end of the child with this number.
fn wait_once(number: i32, _child: &LinuxChild) -> io::Result<ExitStatus>
    requires child { number ≡ _child.now }
    requires some { pos 0 <ℤ number }
{
    let mut status = 0;
    let said = unsafe { libc::waitpid(number, &mut status, 0) };
    status_of(said, status)
}

/// How a child ended, by what Linux answered to the wait for it, and the status that it left.
fn status_of(said: i32, status: i32) -> io::Result<ExitStatus>
    ensures waited { IsOk result ↔ pos 0 ≤ℤ said }
    ensures ended { IfOk result (λ ended. cast_signed w32 (status_bits ended) ≡ status) }
{
    if said < 0 {
        return Err(io::Error::from_raw_os_error(os::errno()));
    }
    Ok(ExitStatus::from_raw(status))
}
