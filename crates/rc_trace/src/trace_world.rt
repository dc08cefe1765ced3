//! A world that shows each call with its answer.

ghost use Rattle.std.specs.Prelude.{◌≡◌, ◌≤◌, IfOk, [], vec_len};
ghost use Rattle.rc_model.specs.Run.Calls.{open_file, here, make_pipe, close, read, write, start, wait};
ghost use Rattle.rc_model.specs.Run.Calls.{list_names, probe, change_dir};
ghost use Rattle.rc_model.specs.declared.limits.TheConstants.{LONGEST_READ};
ghost use Rattle.rc_trace.specs.Lines.{first_of, is_whole, out_of, process_of, style_in, trail_of};
ghost use Rattle.rc_trace.specs.Made.{HasMade};
ghost use Rattle.rc_world.specs.Views.{launch_of};
ghost use Rattle.rc_world.specs.Views.{file_answer, pair_answer, done_answer, bytes_answer};
ghost use Rattle.rc_world.specs.Views.{child_answer, ending_answer, names_answer, kind_answer};

use crate::answered::{
    of_bytes, of_child, of_done, of_ending, of_file, of_kind, of_names, of_pair,
};
use crate::lines::Lines;
use crate::shown::ShownCall;
use rc_world::{ChildNo, Ending, Fault, Handle, Kind, Launch, Mode, Slot, World};
use std::io::Write;
use std::snapshot::Snapshot;

/// A world that passes each call on, and shows it with its answer. If a line can't be written, the calls go on. Its
/// record has an event for how the lines begin, what was recorded before, and then the calls that it shows.
#[derive(Drop)]
pub struct TraceWorld<W: World, O: Write> {
    world: W,
    lines: Lines<O>,
    /// The world as it was before the first call that is shown.
    first: Snapshot<W>,
    ghost made: { HasMade (W.events first.value) (W.events world) (trail_of lines) },
}

impl<W: World, O: Write> TraceWorld<W, O> {
    ghost use Rattle.rc_trace.specs.Shows.{first_world, lines_of, traced};

    pub fn new(world: W, lines: Lines<O>) -> TraceWorld<W, O>
        ensures world { traced result ≡ world }
        ensures first { first_world result ≡ world }
        ensures process { process_of (lines_of result) ≡ process_of lines }
        ensures style { style_in (lines_of result) ≡ style_in lines }
        ensures out { out_of (lines_of result) ≡ out_of lines }
        ensures begun { first_of (lines_of result) ≡ out_of lines }
        ensures none { trail_of (lines_of result) ≡ [] }
        ensures whole { is_whole (lines_of result) ≡ is_whole lines }
    {
        let first = Snapshot::of(&world);
        let lines = lines.begun();
        TraceWorld {
            world,
            lines,
            first,
        }
    }

    /// The world whose calls are shown, and what they are written to.
    pub fn into_parts(self) -> (W, Lines<O>)
        ensures world { result.0 ≡ traced self }
        ensures lines { result.1 ≡ lines_of self }
        ensures made { HasMade (W.events (first_world self)) (W.events result.0) (trail_of result.1) }
    {
        let TraceWorld { world, lines, .. } = self;
        (world, lines)
    }
}

impl<W: World, O: Write> World for TraceWorld<W, O> {
    ghost use Rattle.rc_trace.specs.Shows.{Shows, record_of};

    ghost events = { record_of W.events O.contents };

    fn open(&mut self, path: &str, mode: Mode) -> Result<Handle, Fault>
        ensures { Shows W.events O.contents self.old self.new (open_file path.now mode) (file_answer result) }
    {
        let said = self.world.open(path, mode);
        self.lines.show(ShownCall::Open(path, mode), of_file(&said));
        said
    }

    fn here(&mut self, text: &str) -> Result<Handle, Fault>
        ensures { Shows W.events O.contents self.old self.new (here text.now) (file_answer result) }
    {
        let said = self.world.here(text);
        self.lines.show(ShownCall::Here(text), of_file(&said));
        said
    }

    fn pipe(&mut self) -> Result<(Handle, Handle), Fault>
        ensures { Shows W.events O.contents self.old self.new make_pipe (pair_answer result) }
    {
        let said = self.world.pipe();
        self.lines.show(ShownCall::Pipe, of_pair(&said));
        said
    }

    fn close(&mut self, handle: Handle) -> Result<(), Fault>
        ensures { Shows W.events O.contents self.old self.new (close handle.0) (done_answer result) }
    {
        let said = self.world.close(handle);
        self.lines.show(ShownCall::Close(handle), of_done(&said));
        said
    }

    fn read(&mut self, handle: Handle) -> Result<Vec<u8>, Fault>
        ensures does { Shows W.events O.contents self.old self.new (read handle.0) (bytes_answer result) }
        ensures bound { IfOk result (λ bytes. vec_len bytes ≤ LONGEST_READ) }
    {
        let said = self.world.read(handle);
        self.lines.show(ShownCall::Read(handle), of_bytes(&said));
        said
    }

    fn write(&mut self, slot: Slot, text: &[u8]) -> Result<(), Fault>
        ensures { Shows W.events O.contents self.old self.new (write slot text.now) (done_answer result) }
    {
        let said = self.world.write(slot, text);
        self.lines
            .show(ShownCall::Write(slot, text), of_done(&said));
        said
    }

    fn start(&mut self, launch: &Launch) -> Result<ChildNo, Fault>
        ensures { Shows W.events O.contents self.old self.new (start (launch_of launch.now)) (child_answer result) }
    {
        let said = self.world.start(launch);
        self.lines.show(ShownCall::Start(launch), of_child(&said));
        said
    }

    fn wait(&mut self, child: ChildNo) -> Result<Ending, Fault>
        ensures { Shows W.events O.contents self.old self.new (wait child.0) (ending_answer result) }
    {
        let said = self.world.wait(child);
        self.lines.show(ShownCall::Wait(child), of_ending(&said));
        said
    }

    fn list(&mut self, path: &str) -> Result<Vec<String>, Fault>
        ensures { Shows W.events O.contents self.old self.new (list_names path.now) (names_answer result) }
    {
        let said = self.world.list(path);
        self.lines.show(ShownCall::List(path), of_names(&said));
        said
    }

    fn probe(&mut self, path: &str) -> Result<Kind, Fault>
        ensures { Shows W.events O.contents self.old self.new (probe path.now) (kind_answer result) }
    {
        let said = self.world.probe(path);
        self.lines.show(ShownCall::Probe(path), of_kind(&said));
        said
    }

    fn chdir(&mut self, path: &str) -> Result<(), Fault>
        ensures { Shows W.events O.contents self.old self.new (change_dir path.now) (done_answer result) }
    {
        let said = self.world.chdir(path);
        self.lines.show(ShownCall::Chdir(path), of_done(&said));
        said
    }
}
