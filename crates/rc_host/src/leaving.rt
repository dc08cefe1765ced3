//! Descriptors of its own that a process closes.
ghost use Rattle.std.specs.Prelude.{◌≡◌, pos, not, true, Some};
ghost use Rattle.rc_host.specs.Leaving.{is_own, stands, gives_up, nothing, due_after, counted};

use rc_world::{Slot, Slots};
use std::fs::File;
use std::io;
use std::os::fd::{AsRawFd, IntoRawFd};
use std::rt::HostRuntime;

/// Which descriptors of its own a process closes, and when: after it has opened this many files and here documents.
/// With none to open it closes nothing.
#[derive(Clone, Copy)]
pub struct Leaving {
    pub files: u32,
    pub input: bool,
    pub output: bool,
    pub errors: bool,
}

impl Leaving {
    /// Closes nothing.
    pub fn never() -> Leaving
        ensures { result ≡ nothing }
    {
        Leaving {
            files: 0,
            input: false,
            output: false,
            errors: false,
        }
    }

    /// With this many files to open, closes each descriptor that is in none of these slots.
    pub fn all_but(files: u32, slots: Slots) -> Leaving
        ensures files { result.files ≡ files }
        ensures input { result.input ≡ not (stands 0 slots) }
        ensures output { result.output ≡ not (stands 1 slots) }
        ensures errors { result.errors ≡ not (stands 2 slots) }
    {
        Leaving {
            files,
            input: !stands(0, slots),
            output: !stands(1, slots),
            errors: !stands(2, slots),
        }
    }

    /// Counts a file that was opened, and returns what is to be closed for it.
    pub(crate) fn count(&mut self) -> Leaving
        ensures due { result ≡ due_after self.old }
        ensures left { self.new ≡ counted self.old }
    {
        let due = if self.files == 1 {
            *self
        } else {
            Leaving::never()
        };
        self.files = self.files.saturating_sub(1);
        due
    }
}

/// Whether one of these slots is this process's own descriptor of this number.
fn stands(own: u8, slots: Slots) -> bool
    ensures { result ≡ stands own slots }
{
    is_own(own, slots.input) || is_own(own, slots.output) || is_own(own, slots.errors)
}

fn is_own(own: u8, slot: Slot) -> bool
    ensures { result ≡ is_own own slot }
{
    match slot {
        Slot::Own(number) => number == own,
        Slot::To(_) => false,
    }
}

/// Opens `/dev/null`, to take the place of a descriptor.
pub(crate) fn open_null(rt: &HostRuntime) -> io::Result<File> {
    File::options().read(true).write(true).open(rt, "/dev/null")
}

/// Closes the descriptors of this process that are due after a file was opened, as far as `/dev/null` can be opened to
/// take their places. No other file gets their numbers.
pub(crate) fn give_up(rt: &HostRuntime, due: Leaving, _before: Leaving)
    requires { due ≡ due_after _before }
{
    if due.files == 0 || open_null(rt).is_err() {
        return;
    }
    if due.input {
        replace(rt, &rt.stdin(), 0, due);
    }
    if due.output {
        replace(rt, &rt.stdout(), 1, due);
    }
    if due.errors {
        replace(rt, &rt.stderr(), 2, due);
    }
}

/// Closes a descriptor of this process that is due. Linux gives `/dev/null` its number, the lowest free one.
fn replace<F: AsRawFd>(rt: &HostRuntime, own: &F, _number: u8, _due: Leaving)
    requires own { F.raw_fd own.now ≡ Some (pos _number) }
    requires due { gives_up _due _number ≡ true }
{
    libc::close(own.as_raw_fd());
    if let Ok(null) = open_null(rt) {
        null.into_raw_fd();
    }
}
