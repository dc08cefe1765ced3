//! The calls of a world, for callers that only need to know whether a call was refused.

ghost use Rattle.std.specs.Prelude.{◌≡◌, ◌≤◌, option_map, IfOk, IfSome, is_some, map, string_bytes, vec_len};
ghost use Rattle.rc_model.specs.Run.Calls.{open_file, here, make_pipe, close, read, write, start, wait};
ghost use Rattle.rc_model.specs.Run.Calls.{list_names, probe, change_dir};
ghost use Rattle.rc_model.specs.Run.Calls.{as_file, as_pair, as_done, as_bytes, as_child, as_ending, as_names, as_kind};
ghost use Rattle.rc_model.specs.declared.limits.TheConstants.{LONGEST_READ};
ghost use Rattle.rc_world.specs.Comes.{Asks, unless_refused, was_done};
ghost use Rattle.rc_world.specs.Views.{launch_of};

use crate::{ChildNo, Ending, Fault, Handle, Kind, Launch, Mode, Slot, Stop, World};

/// Returns the value of a call, or `None` if it was refused.
pub fn unless_refused<T>(answer: Result<T, Fault>) -> Result<Option<T>, Stop>
    ensures { result ≡ unless_refused answer }
{
    match answer {
        Ok(value) => Ok(Some(value)),
        Err(Fault::Halt) => Err(Stop::Halt),
        Err(Fault::NoMemory) => Err(Stop::NoMemory),
        Err(_) => Ok(None),
    }
}

fn was_done(answer: Result<(), Fault>) -> Result<bool, Stop>
    ensures { result ≡ was_done answer }
{
    Ok(unless_refused(answer)?.is_some())
}

/// Returns the file that was opened.
pub fn open<W: World>(world: &mut W, path: &str, mode: Mode) -> Result<Option<Handle>, Stop>
    ensures { Asks W.events world.old world.new (open_file path.now mode) as_file (option_map (λ file. file.0)) result }
{
    unless_refused(world.open(path, mode))
}

/// Returns a file for reading that holds this text.
pub fn here<W: World>(world: &mut W, text: &str) -> Result<Option<Handle>, Stop>
    ensures { Asks W.events world.old world.new (here text.now) as_file (option_map (λ file. file.0)) result }
{
    unless_refused(world.here(text))
}

/// Returns the read end and the write end.
pub fn pipe<W: World>(world: &mut W) -> Result<Option<(Handle, Handle)>, Stop>
    ensures { Asks W.events world.old world.new make_pipe as_pair (option_map (λ ends. (ends.0.0, ends.1.0))) result }
{
    unless_refused(world.pipe())
}

/// Returns whether the close succeeded.
pub fn close<W: World>(world: &mut W, handle: Handle) -> Result<bool, Stop>
    ensures { Asks W.events world.old world.new (close handle.0) as_done (λ closed. closed) result }
{
    was_done(world.close(handle))
}

/// Returns the next bytes, none at the end.
pub fn read<W: World>(world: &mut W, handle: Handle) -> Result<Option<Vec<u8>>, Stop>
    ensures came { Asks W.events world.old world.new (read handle.0) as_bytes
        (option_map (λ bytes. bytes.items)) result }
    ensures bound { IfOk result (λ given. IfSome given (λ bytes. vec_len bytes ≤ LONGEST_READ)) }
{
    unless_refused(world.read(handle))
}

/// Returns whether the whole text was written.
pub fn write<W: World>(world: &mut W, slot: Slot, text: &[u8]) -> Result<bool, Stop>
    ensures { Asks W.events world.old world.new (write slot text.now) as_done (λ written. written) result }
{
    was_done(world.write(slot, text))
}

/// Returns the child that was started.
pub fn start<W: World>(world: &mut W, launch: &Launch) -> Result<Option<ChildNo>, Stop>
    ensures { Asks W.events world.old world.new (start (launch_of launch.now)) as_child
        (option_map (λ child. child.0)) result }
{
    unless_refused(world.start(launch))
}

/// Returns how the child ended.
pub fn wait<W: World>(world: &mut W, child: ChildNo) -> Result<Option<Ending>, Stop>
    ensures { Asks W.events world.old world.new (wait child.0) as_ending (λ ending. ending) result }
{
    unless_refused(world.wait(child))
}

/// Returns the names in a directory, in any order.
pub fn list<W: World>(world: &mut W, path: &str) -> Result<Option<Vec<String>>, Stop>
    ensures { Asks W.events world.old world.new (list_names path.now) as_names
        (option_map (λ names. map string_bytes names.items)) result }
{
    unless_refused(world.list(path))
}

/// Returns the kind of a path.
pub fn probe<W: World>(world: &mut W, path: &str) -> Result<Option<Kind>, Stop>
    ensures { Asks W.events world.old world.new (probe path.now) as_kind (λ kind. kind) result }
{
    unless_refused(world.probe(path))
}

/// Returns whether the current directory was changed.
pub fn chdir<W: World>(world: &mut W, path: &str) -> Result<bool, Stop>
    ensures { Asks W.events world.old world.new (change_dir path.now) as_done (λ changed. changed) result }
{
    was_done(world.chdir(path))
}
