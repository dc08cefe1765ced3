//! Linux as a world.
ghost use Rattle.std.specs.Prelude.{◌≡◌, ◌≢◌, ◌↔◌, ℕ, ◌<◌, ◌≤◌, List, [], length, string_bytes, vec_len};
ghost use Rattle.std.specs.Prelude.{map, option_map, unwrap_or, ◌++◌, MatchResult};
ghost use Rattle.std.specs.Prelude.{None, Some, Ok, Err, IfOk, IfErr, OnOk, OnErr, IsOk, IsSome, IsTrue};
ghost use Rattle.std.specs.Io.KnownBytes.{Appends};
ghost use Rattle.std.specs.Result.{is_ok};
ghost use Rattle.rc_model.specs.declared.call.Fault.TheVariants.{NoMemory, Other, Halt};
ghost use Rattle.rc_model.specs.declared.limits.TheConstants.{LONGEST_READ};
ghost use Rattle.rc_world.specs.Faults.{fault_at};
ghost use Rattle.rc_world.specs.Views.{launch_of};
ghost use Rattle.rc_host.specs.Leaving.{nothing, counted};
ghost use Rattle.rc_host.specs.Process.{own_link, IsFileLost};
ghost use Rattle.rc_host.specs.Requests.{handed_over};
ghost use Rattle.rc_host.specs.Table.{held_at, IsLeastFree, AreLeastFree, HoldsTheSame, ChangesOnly};
ghost use Rattle.rc_host.specs.Host.{shell_of, files_of, children_of, ChangesFilesAlone, ChangesChildrenAlone};
ghost use Rattle.rc_host.specs.Host.{ChangesChildrenAndShell, FindsShellAlone, IsShellOf, known_shell};
ghost use Rattle.rc_host.specs.Host.{HoldsAllAlike, AddsFile, AddsPipe, AddsChild, IsThere, AreThere, IsOwn};
ghost use Rattle.rc_host.specs.Host.{descriptor_at, AreNamed, AsksForPlanOf, IsStartedBy, IsTriedAgain};
ghost use Rattle.rc_host.specs.Host.{starts_itself, leaving_of, kept_of, Opens};

use crate::answers::{answer, end_of, kind_found};
use crate::directory::names_in;
use crate::files::{OpenFile, here_file, options_of, write_text};
use crate::launches::kept_environment::KeptEnvironment;
use crate::launches::launch_request::{Command, Request};
use crate::launches::linux_child::{LinuxChild, start};
use crate::launches::planning::plan;
use crate::leaving::{Leaving, give_up};
use crate::linux::{enter, metadata, open_file};
use crate::process::{OWN_LINK, is_file_lost, own_program};
use crate::table::Table;
use rc_world::{ChildNo, Ending, Fault, Handle, Kind, Launch, Mode, Program, Slot, Slots, World};
use std::fs::File;
use std::io;
use std::io::{PipeReader, PipeWriter, Write};
use std::os::fd::{AsRawFd, RawFd};
use std::process::Child;
use std::rt::HostRuntime;

/// Linux as a world. It records no events.
///
/// Open files, here documents and ends of pipes have numbers of their own, which are not Linux's. A child has its three
/// descriptors and no others, and starts in the directory of the last `chdir`.
pub struct HostWorld {
    rt: HostRuntime,
    /// The path of the shell's own program, if it is known.
    shell: Option<String>,
    /// Whether that program is this process's own.
    is_itself: bool,
    files: Table<OpenFile>,
    children: Table<Child<LinuxChild>>,
    /// The entries of the last launch that had some, as Linux takes them.
    environment: KeptEnvironment,
    leaving: Leaving,
}

impl Drop for HostWorld {
    fn drop(self) {
        let HostWorld {
            rt: _,
            shell: _,
            is_itself: _,
            files: _,
            children: _,
            environment: _,
            leaving: _,
        } = self;
    }
}

impl HostWorld {
    /// `shell` is the path of the program that a launch of the shell itself starts. If it is not given, it is that of
    /// this process's program, for which Linux is asked at the first such launch; if that can't be started since its file
    /// is gone, or another is in its place, the link to it is tried once.
    pub fn new(rt: HostRuntime, shell: Option<String>) -> HostWorld
        ensures shell { shell_of result ≡ option_map string_bytes shell }
        ensures files { (k : ℕ) → held_at (files_of result) k ≡ None }
        ensures children { (k : ℕ) → held_at (children_of result) k ≡ None }
        ensures leaving { leaving_of result ≡ nothing }
        ensures itself { IsTrue (starts_itself result) ↔ (shell ≡ None) }
    {
        let is_itself = shell.is_none();
        HostWorld {
            rt,
            shell,
            is_itself,
            files: Table::new(rt.alloc()),
            children: Table::new(rt.alloc()),
            environment: KeptEnvironment::new(rt.alloc()),
            leaving: Leaving::never(),
        }
    }

    /// Sets how many files are opened before the process closes descriptors of its own. No call may name them after
    /// that.
    pub fn leave(&mut self, leaving: Leaving)
        ensures set { leaving_of self.new ≡ leaving }
        ensures same { HoldsAllAlike self.old self.new }
    {
        self.leaving = leaving;
    }

    /// Counts a file that was opened. After the last one the process closes descriptors of its own.
    fn count_opened(&mut self)
        ensures counted { leaving_of self.new ≡ counted (leaving_of self.old) }
        ensures same { HoldsAllAlike self.old self.new }
    {
        let before = self.leaving;
        let due = self.leaving.count();
        give_up(&self.rt, due, before);
    }

    /// Whether each open file that a slot names is held.
    fn are_there(&self, slots: Slots) -> bool
        ensures { IsTrue result ↔ AreThere (files_of self.now) slots }
    {
        self.is_there(slots.input) && self.is_there(slots.output) && self.is_there(slots.errors)
    }

    fn is_there(&self, slot: Slot) -> bool
        ensures { IsTrue result ↔ IsThere (files_of self.now) slot }
    {
        match slot {
            Slot::Own(own) => own < 3,
            Slot::To(file) => self.files.get(file.0).is_some(),
        }
    }

    /// The descriptors of this process that these slots name, in order.
    fn descriptors(&self, slots: Slots) -> Result<[RawFd; 3], Fault>
        ensures named { IfOk result (AreNamed (files_of self.now) slots) }
        ensures answered { result ≢ Err Halt }
    {
        let input = self.descriptor(slots.input)?;
        let output = self.descriptor(slots.output)?;
        let errors = self.descriptor(slots.errors)?;
        Ok([input, output, errors])
    }

    fn descriptor(&self, slot: Slot) -> Result<RawFd, Fault>
        ensures named { IfOk result (λ descriptor. descriptor_at (files_of self.now) slot ≡ Some descriptor) }
        ensures answered { result ≢ Err Halt }
    {
        match slot {
            Slot::Own(own) if own < 3 => Ok(RawFd::from(own)),
            Slot::Own(_) => Err(Fault::Other),
            Slot::To(named) => match self.files.get(named.0) {
                Some(file) => Ok(file.descriptor()),
                None => Err(Fault::Other),
            },
        }
    }

    /// Opens the file to be held at this number, for which there is room already.
    fn file_for(&self, _number: u32, path: &str, mode: Mode) -> Result<File, Fault>
        requires place { _number < length (files_of self.now) }
        ensures answered { result ≢ Err Halt }
    {
        answer(open_file(&self.rt, &options_of(mode), path, mode, path))
    }

    /// Makes the here document to be held at this number, for which there is room already.
    fn here_for(&self, _number: u32, text: &str) -> Result<File, Fault>
        requires place { _number < length (files_of self.now) }
        ensures answered { result ≢ Err Halt }
    {
        here_file(&self.rt, text)
    }

    /// Makes the pipe whose ends are to be held at these numbers, for which there is room already.
    fn pipe_for(&self, _read_end: u32, _write_end: u32) -> Result<(PipeReader, PipeWriter), Fault>
        requires read_place { _read_end < length (files_of self.now) }
        requires write_place { _write_end < length (files_of self.now) }
        ensures answered { result ≢ Err Halt }
    {
        answer(io::pipe(&self.rt))
    }

    /// Asks Linux for the path of the shell's own program, if the launch needs it and it is not known.
    fn find_shell(&mut self, launch: &Launch) -> Result<(), Fault>
        ensures found { OnOk result (IsShellOf self.new (launch_of launch.now) (known_shell self.new)) }
        ensures refused { IfErr result (λ fault. (fault ≡ NoMemory)
            × ((launch_of launch.now).program ≡ None) × (shell_of self.new ≡ None)) }
        ensures rest { FindsShellAlone self.old self.new }
    {
        if self.shell.is_none() && matches!(launch.program, Program::Shell) {
            let path = own_program(&self.rt).map_err(|_| Fault::NoMemory)?;
            self.shell = Some(path);
        }
        Ok(())
    }

    /// Starts the program of a launch, whose child is to be held at this number, for which there is room already, with
    /// the environment that is kept, or none. If the shell's own file is lost, the link to its program is tried.
    fn started(
        &self,
        number: u32,
        launch: &Launch,
        is_kept: bool,
    ) -> Result<io::Result<Child<LinuxChild>>, Fault>
        requires place { number < length (children_of self.now) }
        requires known { IsShellOf self.now (launch_of launch.now) (known_shell self.now) }
        requires kept { handed_over is_kept (kept_of self.now) ≡ (launch_of launch.now).entries }
        ensures answered { result ≢ Err Halt }
    {
        let said = self.started_by(path_or_empty(&self.shell), number, launch, is_kept)?;
        match said {
            Err(refused) if self.is_tried_again(launch, &refused) => {
                let again = self.started_by(OWN_LINK, number, launch, is_kept)?;
                Ok(again_or(again, refused))
            }
            said => Ok(said),
        }
    }

    /// Starts the program of a launch; a launch of the shell itself starts what is at this path.
    fn started_by(
        &self,
        path: &str,
        number: u32,
        launch: &Launch,
        is_kept: bool,
    ) -> Result<io::Result<Child<LinuxChild>>, Fault>
        requires path { IsStartedBy self.now (launch_of launch.now) path.now }
        requires place { number < length (children_of self.now) }
        requires kept { handed_over is_kept (kept_of self.now) ≡ (launch_of launch.now).entries }
        ensures answered { result ≢ Err Halt }
    {
        let plan = plan(launch, path);
        let command = Command::of(self.rt.alloc(), &plan)?;
        let descriptors = self.descriptors(plan.slots)?;
        let request = command.request(self.environment.block(is_kept), descriptors);
        Ok(self.spawn(number, launch, path, &request))
    }

    /// Asks Linux for the program of a launch. The child does not inherit the shell's own descriptors but gets copies,
    /// since one that was opened because it was absent is closed there.
    fn spawn(
        &self,
        _number: u32,
        _launch: &Launch,
        _path: &str,
        request: &Request,
    ) -> io::Result<Child<LinuxChild>>
        requires place { _number < length (children_of self.now) }
        requires path { IsStartedBy self.now (launch_of _launch.now) _path.now }
        requires planned { AsksForPlanOf self.now (launch_of _launch.now) _path.now request.now }
    {
        start(request)
    }

    /// Whether the start of a launch that was refused is to be tried again, by the link to this process's program.
    fn is_tried_again(&self, launch: &Launch, refused: &io::Error) -> bool
        ensures { IsTrue result ↔ IsTriedAgain self.now (launch_of launch.now) refused.now }
    {
        self.is_itself && matches!(launch.program, Program::Shell) && is_file_lost(refused)
    }

    /// Holds the child at this number, if Linux started one.
    fn hold(&mut self, number: u32, said: io::Result<Child<LinuxChild>>) -> Result<ChildNo, Fault>
        requires { number < length (children_of self.old) }
        ensures held { IfOk said (λ child. (result ≡ Ok (record { 0 = number }))
            × ChangesOnly (children_of self.old) (children_of self.new) number (Some child)) }
        ensures refused { IfErr said (λ error. (result ≡ Err (fault_at error))
            × (children_of self.new ≡ children_of self.old)) }
        ensures rest { ChangesChildrenAlone self.old self.new }
        ensures answered { result ≢ Err Halt }
    {
        match answer(said) {
            Ok(child) => {
                self.children.put(number, child);
                Ok(ChildNo(number))
            }
            Err(fault) => Err(fault),
        }
    }
}

/// The path, or the empty text if there is none.
fn path_or_empty(path: &Option<String>) -> &str
    ensures { result.now ≡ unwrap_or (option_map string_bytes path.now) [] }
{
    match path {
        Some(path) => path.as_str(),
        None => "",
    }
}

/// What Linux said of the second start, or the first refusal if it refused that one too.
fn again_or(
    again: io::Result<Child<LinuxChild>>,
    refused: io::Error,
) -> io::Result<Child<LinuxChild>>
    ensures { MatchResult again (λ child. result ≡ Ok child) (λ _. result ≡ Err refused) }
{
    match again {
        Ok(child) => Ok(child),
        Err(_) => Err(refused),
    }
}

/// Writes the whole text to one of this process's own descriptors.
fn write_own<W: Write + AsRawFd>(own: &mut W, _slot: Slot, text: &[u8]) -> Result<(), Fault>
    requires own { IsOwn (W.raw_fd own.old) _slot }
    ensures whole { OnOk result (Appends (W.contents own.old) (W.contents own.new) text.now) }
    ensures answered { result ≢ Err Halt }
{
    write_text(own, text)
}

impl World for HostWorld {
    ghost events = { λ _. None };

    fn open(&mut self, path: &str, mode: Mode) -> Result<Handle, Fault>
        ensures least { IfOk result (λ file. IsLeastFree (files_of self.old) file.0) }
        ensures opened { IfOk result (λ file. AddsFile self.old self.new file.0) }
        ensures refused { OnErr result (HoldsTheSame (files_of self.old) (files_of self.new)) }
        ensures rest { Opens self.old self.new (is_ok result) }
        ensures answered { result ≢ Err Halt }
    {
        let number = self.files.room()?;
        let file = self.file_for(number, path, mode)?;
        self.files.put(number, OpenFile::File(file));
        self.count_opened();
        Ok(Handle(number))
    }

    fn here(&mut self, text: &str) -> Result<Handle, Fault>
        ensures least { IfOk result (λ file. IsLeastFree (files_of self.old) file.0) }
        ensures opened { IfOk result (λ file. AddsFile self.old self.new file.0) }
        ensures refused { OnErr result (HoldsTheSame (files_of self.old) (files_of self.new)) }
        ensures rest { Opens self.old self.new (is_ok result) }
        ensures answered { result ≢ Err Halt }
    {
        let number = self.files.room()?;
        let file = self.here_for(number, text)?;
        self.files.put(number, OpenFile::File(file));
        self.count_opened();
        Ok(Handle(number))
    }

    fn pipe(&mut self) -> Result<(Handle, Handle), Fault>
        ensures least { IfOk result (λ ends. AreLeastFree (files_of self.old) ends.0.0 ends.1.0) }
        ensures opened { IfOk result (λ ends. AddsPipe self.old self.new ends.0.0 ends.1.0) }
        ensures refused { OnErr result (HoldsTheSame (files_of self.old) (files_of self.new)) }
        ensures rest { ChangesFilesAlone self.old self.new }
        ensures answered { result ≢ Err Halt }
    {
        let (read_end, write_end) = self.files.room_for_two()?;
        let (reader, writer) = self.pipe_for(read_end, write_end)?;
        self.files.put(read_end, OpenFile::ReadEnd(reader));
        self.files.put(write_end, OpenFile::WriteEnd(writer));
        Ok((Handle(read_end), Handle(write_end)))
    }

    fn close(&mut self, handle: Handle) -> Result<(), Fault>
        ensures held { IsOk result ↔ IsSome (held_at (files_of self.old) handle.0) }
        ensures unknown { held_at (files_of self.old) handle.0 ≡ None → result ≡ Err Other }
        ensures closed { ChangesOnly (files_of self.old) (files_of self.new) handle.0 None }
        ensures rest { ChangesFilesAlone self.old self.new }
    {
        match self.files.take(handle.0) {
            Some(_) => Ok(()),
            None => Err(Fault::Other),
        }
    }

    fn read(&mut self, handle: Handle) -> Result<Vec<u8>, Fault>
        ensures bound { IfOk result (λ bytes. vec_len bytes ≤ LONGEST_READ) }
        ensures unknown { held_at (files_of self.old) handle.0 ≡ None → result ≡ Err Other }
        ensures same { self.new ≡ self.old }
        ensures answered { result ≢ Err Halt }
    {
        match self.files.get(handle.0) {
            Some(file) => file.read(self.rt.alloc()),
            None => Err(Fault::Other),
        }
    }

    fn write(&mut self, slot: Slot, text: &[u8]) -> Result<(), Fault>
        ensures own { (n : ℕ) → slot ≡ Slot.Own n → n ≢ 1 → n ≢ 2 → result ≡ Err Other }
        ensures unknown { ¬ IsThere (files_of self.old) slot → result ≡ Err Other }
        ensures same { self.new ≡ self.old }
        ensures answered { result ≢ Err Halt }
    {
        match slot {
            Slot::Own(1) => write_own(&mut self.rt.stdout(), slot, text),
            Slot::Own(2) => write_own(&mut self.rt.stderr(), slot, text),
            Slot::Own(_) => Err(Fault::Other),
            Slot::To(file) => match self.files.get(file.0) {
                Some(file) => file.write(text),
                None => Err(Fault::Other),
            },
        }
    }

    fn start(&mut self, launch: &Launch) -> Result<ChildNo, Fault>
        ensures unknown { ¬ AreThere (files_of self.old) launch.now.slots → result ≡ Err Other }
        ensures least { IfOk result (λ child. IsLeastFree (children_of self.old) child.0) }
        ensures started { IfOk result (λ child. AddsChild self.old self.new child.0) }
        ensures refused { OnErr result (HoldsTheSame (children_of self.old) (children_of self.new)) }
        ensures rest { ChangesChildrenAndShell self.old self.new }
        ensures answered { result ≢ Err Halt }
    {
        if !self.are_there(launch.slots) {
            return Err(Fault::Other);
        }
        self.find_shell(launch)?;
        let number = self.children.room()?;
        let is_kept = self.environment.keep(self.rt.alloc(), &launch.env)?;
        let said = self.started(number, launch, is_kept)?;
        self.hold(number, said)
    }

    fn wait(&mut self, child: ChildNo) -> Result<Ending, Fault>
        ensures unknown { held_at (children_of self.old) child.0 ≡ None → result ≡ Err Other }
        ensures ended { ChangesOnly (children_of self.old) (children_of self.new) child.0 None }
        ensures rest { ChangesChildrenAlone self.old self.new }
        ensures answered { result ≢ Err Halt }
    {
        match self.children.take(child.0) {
            Some(mut child) => end_of(&mut child),
            None => Err(Fault::Other),
        }
    }

    fn list(&mut self, path: &str) -> Result<Vec<String>, Fault>
        ensures same { self.new ≡ self.old }
        ensures answered { result ≢ Err Halt }
    {
        names_in(&self.rt, path)
    }

    fn probe(&mut self, path: &str) -> Result<Kind, Fault>
        ensures same { self.new ≡ self.old }
        ensures answered { result ≢ Err Halt }
    {
        kind_found(metadata(&self.rt, path, path))
    }

    fn chdir(&mut self, path: &str) -> Result<(), Fault>
        ensures same { self.new ≡ self.old }
        ensures answered { result ≢ Err Halt }
    {
        answer(enter(&self.rt, path, path))
    }
}
