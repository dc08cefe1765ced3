//! A world that refuses one call.

ghost use Rattle.std.specs.Prelude.{◌≡◌, ◌≤◌, IfOk, IfSome, None, false, true, vec_len};
ghost use Rattle.rc_model.specs.Run.Calls.{open_file, here, make_pipe, close, read, write, start, wait};
ghost use Rattle.rc_model.specs.Run.Calls.{list_names, probe, change_dir, refused};
ghost use Rattle.rc_model.specs.declared.limits.TheConstants.{LONGEST_READ};
ghost use Rattle.rc_trace.specs.Refusals.{CanCount, Meets, MeetsClose, events_with, is_due, refusal_of, refused_in};
ghost use Rattle.rc_trace.specs.Views.{shown_call};
ghost use Rattle.rc_world.specs.Views.{launch_of};
ghost use Rattle.rc_world.specs.Views.{file_answer, pair_answer, done_answer, bytes_answer};
ghost use Rattle.rc_world.specs.Views.{child_answer, ending_answer, names_answer, kind_answer};

use crate::answered::{
    of_bytes, of_child, of_done, of_ending, of_file, of_kind, of_names, of_pair,
};
use crate::refusal::Refusal;
use crate::shown::ShownCall;
use rc_world::{ChildNo, Ending, Fault, Handle, Kind, Launch, Mode, Slot, World};
use std::alloc::Global;

/// A world that passes the calls on, but for one that it refuses. A close is passed on all the same, since a file is
/// closed whatever is answered.
#[derive(Drop)]
pub struct RefusalWorld<W> {
    alloc: Global,
    world: W,
    refusal: Refusal,
}

impl<W> RefusalWorld<W> {
    pub fn new(alloc: Global, world: W, refusal: Refusal) -> RefusalWorld<W>
        ensures world { refused_in result ≡ world }
        ensures refusal { refusal_of result ≡ refusal }
    {
        RefusalWorld {
            alloc,
            world,
            refusal,
        }
    }
}

impl<W: World> RefusalWorld<W> {
    /// The fault for this call if it isn't passed on: it is refused, or it can't be counted.
    fn withheld(&mut self, call: ShownCall<'_>) -> Option<Fault>
        ensures refused { IfSome result
            (λ fault. Meets W.events self.old self.new (shown_call call.entry) (refused fault)) }
        ensures same { result ≡ None → self.new ≡ self.old }
        ensures due { result ≡ None → is_due (refusal_of self.old) ≡ false }
        ensures counts { result ≡ None → CanCount (refusal_of self.old) }
    {
        match self.refusal.is_due() {
            Ok(true) => Some(self.refusal.refuse(self.alloc, call)),
            Ok(false) => None,
            Err(fault) => Some(fault),
        }
    }

    /// Closes a file whose close is refused, and returns why it is. If memory is refused, the call counts as not
    /// made.
    fn refuse_close(&mut self, handle: Handle) -> Fault
        requires { is_due (refusal_of self.old) ≡ true }
        ensures { MeetsClose W.events self.old self.new handle.0 (refused result) }
    {
        if let Err(Fault::NoMemory) = self.world.close(handle) {
            return Fault::NoMemory;
        }
        self.refusal = Refusal::Closed(handle, 0);
        Fault::Denied
    }
}

impl<W: World> World for RefusalWorld<W> {
    ghost events = { events_with W.events };

    fn open(&mut self, path: &str, mode: Mode) -> Result<Handle, Fault>
        ensures { Meets W.events self.old self.new (open_file path.now mode) (file_answer result) }
    {
        if let Some(fault) = self.withheld(ShownCall::Open(path, mode)) {
            return Err(fault);
        }
        let said = self.world.open(path, mode);
        self.refusal.count(of_file(&said));
        said
    }

    fn here(&mut self, text: &str) -> Result<Handle, Fault>
        ensures { Meets W.events self.old self.new (here text.now) (file_answer result) }
    {
        if let Some(fault) = self.withheld(ShownCall::Here(text)) {
            return Err(fault);
        }
        let said = self.world.here(text);
        self.refusal.count(of_file(&said));
        said
    }

    fn pipe(&mut self) -> Result<(Handle, Handle), Fault>
        ensures { Meets W.events self.old self.new make_pipe (pair_answer result) }
    {
        if let Some(fault) = self.withheld(ShownCall::Pipe) {
            return Err(fault);
        }
        let said = self.world.pipe();
        self.refusal.count(of_pair(&said));
        said
    }

    fn close(&mut self, handle: Handle) -> Result<(), Fault>
        ensures { MeetsClose W.events self.old self.new handle.0 (done_answer result) }
    {
        if self.refusal.is_due()? {
            return Err(self.refuse_close(handle));
        }
        let said = self.world.close(handle);
        self.refusal.count(of_done(&said));
        said
    }

    fn read(&mut self, handle: Handle) -> Result<Vec<u8>, Fault>
        ensures does { Meets W.events self.old self.new (read handle.0) (bytes_answer result) }
        ensures bound { IfOk result (λ bytes. vec_len bytes ≤ LONGEST_READ) }
    {
        if let Some(fault) = self.withheld(ShownCall::Read(handle)) {
            return Err(fault);
        }
        let said = self.world.read(handle);
        self.refusal.count(of_bytes(&said));
        said
    }

    fn write(&mut self, slot: Slot, text: &[u8]) -> Result<(), Fault>
        ensures { Meets W.events self.old self.new (write slot text.now) (done_answer result) }
    {
        if let Some(fault) = self.withheld(ShownCall::Write(slot, text)) {
            return Err(fault);
        }
        let said = self.world.write(slot, text);
        self.refusal.count(of_done(&said));
        said
    }

    fn start(&mut self, launch: &Launch) -> Result<ChildNo, Fault>
        ensures { Meets W.events self.old self.new (start (launch_of launch.now)) (child_answer result) }
    {
        if let Some(fault) = self.withheld(ShownCall::Start(launch)) {
            return Err(fault);
        }
        let said = self.world.start(launch);
        self.refusal.count(of_child(&said));
        said
    }

    fn wait(&mut self, child: ChildNo) -> Result<Ending, Fault>
        ensures { Meets W.events self.old self.new (wait child.0) (ending_answer result) }
    {
        if let Some(fault) = self.withheld(ShownCall::Wait(child)) {
            return Err(fault);
        }
        let said = self.world.wait(child);
        self.refusal.count(of_ending(&said));
        said
    }

    fn list(&mut self, path: &str) -> Result<Vec<String>, Fault>
        ensures { Meets W.events self.old self.new (list_names path.now) (names_answer result) }
    {
        if let Some(fault) = self.withheld(ShownCall::List(path)) {
            return Err(fault);
        }
        let said = self.world.list(path);
        self.refusal.count(of_names(&said));
        said
    }

    fn probe(&mut self, path: &str) -> Result<Kind, Fault>
        ensures { Meets W.events self.old self.new (probe path.now) (kind_answer result) }
    {
        if let Some(fault) = self.withheld(ShownCall::Probe(path)) {
            return Err(fault);
        }
        let said = self.world.probe(path);
        self.refusal.count(of_kind(&said));
        said
    }

    fn chdir(&mut self, path: &str) -> Result<(), Fault>
        ensures { Meets W.events self.old self.new (change_dir path.now) (done_answer result) }
    {
        if let Some(fault) = self.withheld(ShownCall::Chdir(path)) {
            return Err(fault);
        }
        let said = self.world.chdir(path);
        self.refusal.count(of_done(&said));
        said
    }
}
