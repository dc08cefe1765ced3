//! A world that hands words to the shells that it starts.

ghost use Rattle.std.specs.Prelude.{◌≡◌, ◌≤◌, IfOk, None, map, string_bytes, vec_len};
ghost use Rattle.rc_model.specs.Run.Calls.{open_file, here, make_pipe, close, read, write, start, wait};
ghost use Rattle.rc_model.specs.Run.Calls.{list_names, probe, change_dir};
ghost use Rattle.rc_model.specs.declared.limits.TheConstants.{LONGEST_READ};
ghost use Rattle.rc_text.specs.Texts.{text_bytes};
ghost use Rattle.rc_trace.specs.Handing.{Hands, HandsOn, IsHanded, Passes, handed_on, name_by, names_of};
ghost use Rattle.rc_trace.specs.Handing.{with_words, words_by};
ghost use Rattle.rc_world.specs.Views.{launch_of};
ghost use Rattle.rc_world.specs.Views.{file_answer, pair_answer, done_answer, bytes_answer};
ghost use Rattle.rc_world.specs.Views.{child_answer, ending_answer, names_answer, kind_answer};

use rc_text::Text;
use rc_world::{ChildNo, Ending, Fault, Handle, Kind, Launch, Mode, Program, Slot, World};
use std::alloc::{AllocError, Global};

/// A world that passes the calls on. A shell that it starts is handed further words before its own: options, and its
/// name, which is that of this process, a dot, and how many shells this process has started. It records no events.
#[derive(Drop)]
pub struct HandingWorld<W> {
    alloc: Global,
    world: W,
    /// The words that come before the name of a shell.
    options: Vec<String>,
    process: String,
    /// How many shells were started.
    started: u64,
}

impl<W> HandingWorld<W> {
    pub fn new(alloc: Global, world: W, options: Vec<String>, process: String) -> HandingWorld<W>
        ensures world { handed_on result ≡ world }
        ensures options { (names_of result).options ≡ map string_bytes options.items }
        ensures process { (names_of result).process ≡ string_bytes process }
        ensures started { (names_of result).started ≡ 0 }
    {
        HandingWorld {
            alloc,
            world,
            options,
            process,
            started: 0,
        }
    }

    /// The words for the shell that was started last.
    fn words(&self) -> Result<Vec<Text>, AllocError>
        ensures { IfOk result (λ words. map text_bytes words.items ≡ words_by (names_of self.now)) }
    {
        let mut words = texts_of(self.alloc, &self.options)?;
        words.push(Text::from_string(self.alloc, self.name()?)?)?;
        Ok(words)
    }

    /// The name of the shell that was started last.
    fn name(&self) -> Result<String, AllocError>
        ensures { IfOk result (λ name. string_bytes name ≡ name_by (names_of self.now)) }
    {
        let (process, number) = (&self.process, self.started);
        format!(in self.alloc; "{process}.{number}")
    }

    /// A launch that hands over further words.
    fn handed(&self, launch: &Launch) -> Result<Launch, AllocError>
        ensures { IfOk result (λ handed. IsHanded (names_of self.now) (launch_of launch.now) (launch_of handed)) }
    {
        with_words(self.words()?, launch)
    }
}

/// The texts of strings.
fn texts_of(alloc: Global, strings: &[String]) -> Result<Vec<Text>, AllocError>
    ensures { IfOk result (λ texts. map text_bytes texts.items ≡ map string_bytes strings.now) }
{
    let mut texts = Vec::new(alloc);
    for string in strings {
        texts.push(Text::of(alloc, string)?)?;
    }
    Ok(texts)
}

/// A launch with these words before its own.
fn with_words(mut words: Vec<Text>, launch: &Launch) -> Result<Launch, AllocError>
    ensures { IfOk result (λ handed.
        launch_of handed ≡ with_words (map text_bytes words.items) (launch_of launch.now)) }
{
    let mut handed = launch.clone()?;
    words.append(&mut handed.args)?;
    handed.args = words;
    Ok(handed)
}

impl<W: World> HandingWorld<W> {
    /// Starts a shell, which is handed further words.
    fn start_handed(&mut self, launch: &Launch) -> Result<ChildNo, Fault>
        ensures { HandsOn W.events self.old self.new (launch_of launch.now) (child_answer result) }
    {
        self.started = self.started.saturating_add(1);
        match self.handed(launch) {
            Ok(handed) => self.world.start(&handed),
            Err(_) => Err(Fault::NoMemory),
        }
    }
}

impl<W: World> World for HandingWorld<W> {
    ghost events = { λ _. None };

    fn open(&mut self, path: &str, mode: Mode) -> Result<Handle, Fault>
        ensures { Passes W.events self.old self.new (open_file path.now mode) (file_answer result) }
    {
        self.world.open(path, mode)
    }

    fn here(&mut self, text: &str) -> Result<Handle, Fault>
        ensures { Passes W.events self.old self.new (here text.now) (file_answer result) }
    {
        self.world.here(text)
    }

    fn pipe(&mut self) -> Result<(Handle, Handle), Fault>
        ensures { Passes W.events self.old self.new make_pipe (pair_answer result) }
    {
        self.world.pipe()
    }

    fn close(&mut self, handle: Handle) -> Result<(), Fault>
        ensures { Passes W.events self.old self.new (close handle.0) (done_answer result) }
    {
        self.world.close(handle)
    }

    fn read(&mut self, handle: Handle) -> Result<Vec<u8>, Fault>
        ensures does { Passes W.events self.old self.new (read handle.0) (bytes_answer result) }
        ensures bound { IfOk result (λ bytes. vec_len bytes ≤ LONGEST_READ) }
    {
        self.world.read(handle)
    }

    fn write(&mut self, slot: Slot, text: &[u8]) -> Result<(), Fault>
        ensures { Passes W.events self.old self.new (write slot text.now) (done_answer result) }
    {
        self.world.write(slot, text)
    }

    fn start(&mut self, launch: &Launch) -> Result<ChildNo, Fault>
        ensures { Hands W.events self.old self.new (launch_of launch.now) (child_answer result) }
    {
        match &launch.program {
            Program::Path(_) => self.world.start(launch),
            Program::Shell => self.start_handed(launch),
        }
    }

    fn wait(&mut self, child: ChildNo) -> Result<Ending, Fault>
        ensures { Passes W.events self.old self.new (wait child.0) (ending_answer result) }
    {
        self.world.wait(child)
    }

    fn list(&mut self, path: &str) -> Result<Vec<String>, Fault>
        ensures { Passes W.events self.old self.new (list_names path.now) (names_answer result) }
    {
        self.world.list(path)
    }

    fn probe(&mut self, path: &str) -> Result<Kind, Fault>
        ensures { Passes W.events self.old self.new (probe path.now) (kind_answer result) }
    {
        self.world.probe(path)
    }

    fn chdir(&mut self, path: &str) -> Result<(), Fault>
        ensures { Passes W.events self.old self.new (change_dir path.now) (done_answer result) }
    {
        self.world.chdir(path)
    }
}
