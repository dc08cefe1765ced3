//! The world of a shell: files, pipes, children and directories.

ghost use Rattle.std.specs.Prelude.{◌≤◌, List, Option, IfOk, vec_len};
ghost use Rattle.rc_model.specs.Run.Calls.{Event, open_file, here, make_pipe, close, read, write, start, wait};
ghost use Rattle.rc_model.specs.Run.Calls.{list_names, probe, change_dir};
ghost use Rattle.rc_model.specs.declared.limits.TheConstants.{LONGEST_READ};
ghost use Rattle.rc_world.specs.Comes.{Records};
ghost use Rattle.rc_world.specs.Views.{launch_of};
ghost use Rattle.rc_world.specs.Views.{file_answer, pair_answer, done_answer, bytes_answer};
ghost use Rattle.rc_world.specs.Views.{child_answer, ending_answer, names_answer, kind_answer};

use crate::{ChildNo, Ending, Fault, Handle, Kind, Launch, Mode, Slot};

/// A world of calls. Each call adds its own event to the world's record, unless it was not made because memory ran out.
pub trait World {
    /// The events so far, if the world records them.
    ghost events: { Self → Option (List Event) };

    /// Opens a file.
    fn open(&mut self, path: &str, mode: Mode) -> Result<Handle, Fault>
        ensures { Records events self.old self.new (open_file path.now mode) (file_answer result) };

    /// Returns a file for reading that holds this text.
    fn here(&mut self, text: &str) -> Result<Handle, Fault>
        ensures { Records events self.old self.new (here text.now) (file_answer result) };

    /// Makes a pipe, and returns its read end and its write end.
    fn pipe(&mut self) -> Result<(Handle, Handle), Fault>
        ensures { Records events self.old self.new make_pipe (pair_answer result) };

    /// Closes a file or an end of a pipe.
    fn close(&mut self, handle: Handle) -> Result<(), Fault>
        ensures { Records events self.old self.new (close handle.0) (done_answer result) };

    /// Reads the next bytes: at least one, except at the end.
    fn read(&mut self, handle: Handle) -> Result<Vec<u8>, Fault>
        ensures recorded { Records events self.old self.new (read handle.0) (bytes_answer result) }
        ensures bound { IfOk result (λ bytes. vec_len bytes ≤ LONGEST_READ) };

    /// Writes the whole text.
    fn write(&mut self, slot: Slot, text: &[u8]) -> Result<(), Fault>
        ensures { Records events self.old self.new (write slot text.now) (done_answer result) };

    /// Starts a child.
    fn start(&mut self, launch: &Launch) -> Result<ChildNo, Fault>
        ensures { Records events self.old self.new (start (launch_of launch.now)) (child_answer result) };

    /// Waits for the end of a child.
    fn wait(&mut self, child: ChildNo) -> Result<Ending, Fault>
        ensures { Records events self.old self.new (wait child.0) (ending_answer result) };

    /// Lists the names in a directory, in any order.
    fn list(&mut self, path: &str) -> Result<Vec<String>, Fault>
        ensures { Records events self.old self.new (list_names path.now) (names_answer result) };

    /// Returns the kind of a path.
    fn probe(&mut self, path: &str) -> Result<Kind, Fault>
        ensures { Records events self.old self.new (probe path.now) (kind_answer result) };

    /// Changes the current directory.
    fn chdir(&mut self, path: &str) -> Result<(), Fault>
        ensures { Records events self.old self.new (change_dir path.now) (done_answer result) };
}
