//! Redirections: the file descriptors of the shell, and the files that are open for them.
#![tactic(auto)]

ghost use Rattle.std.specs.Prelude.{◌≡◌, ◌++◌, ◌∷◌, ◌<◌, [], Some, None, OnOk, OnErr, map, string_bytes};
ghost use Rattle.std.specs.Prelude.{◌-◌, length, option_map, take, vec_len, vec_capacity};
ghost use Rattle.std.specs.Option.{MatchOption};
ghost use Rattle.rc_model.specs.Run.Calls.{slot_of, with_slot};
ghost use Rattle.rc_model.specs.Run.Plans.{done_with};
ghost use Rattle.rc_model.specs.Run.Acts.{open_one, closing, from_pipe};
ghost use Rattle.rc_world.specs.Comes.{Comes};

use rc_world::{Handle, Mode, Slot, Slots, Stop, World, calls};
use std::alloc::{AllocError, Global};
use std::fmt;
use std::marker::Model;

/// Why a redirection is refused.
#[derive(Drop)]
pub enum RedirFault {
    /// The file name is not exactly one word.
    NotOneWord,
    /// The world does not open the file of this name.
    CannotOpen(String),
}

impl fmt::Display for RedirFault {
    ghost use Rattle.rc_redir.specs.Opening.{redir_words};

    ghost output = { λ fault. Some (redir_words fault) };

    fn fmt<W: fmt::Write>(&self, f: &mut fmt::Formatter<W>) -> fmt::Result {
        match self {
            RedirFault::NotOneWord => f.write_str("redirection needs one word"),
            RedirFault::CannotOpen(name) => write!(f, "cannot open {name}"),
        }
    }
}

/// Why no redirection was added.
#[derive(Drop)]
pub enum RedirError {
    /// It was refused, which is not reported yet.
    Fault(RedirFault),
    /// Work stopped: the world halted, or memory ran out and no file is held.
    Stopped(Stop),
}

impl From<Stop> for RedirError {
    ghost use Rattle.rc_redir.specs.declared.RedirError.TheVariants.{Stopped};

    ghost from_gives = { λ stop e. e ≡ Stopped stop };

    fn from(stop: Stop) -> Self {
        RedirError::Stopped(stop)
    }
}

impl From<AllocError> for RedirError {
    ghost use Rattle.rc_redir.specs.declared.RedirError.TheVariants.{Stopped};
    ghost use Rattle.rc_world.specs.declared.starts.Stop.TheVariants.{NoMemory};

    ghost from_gives = { λ _ e. e ≡ Stopped NoMemory };

    fn from(_: AllocError) -> Self {
        RedirError::Stopped(Stop::NoMemory)
    }
}

/// The file that a redirection has opened, and the descriptors before it.
#[derive(Clone, Copy)]
pub struct Redirection {
    pub file: Option<Handle>,
    pub outer: Slots,
}

/// The current descriptors, and the open redirections.
pub struct RedirStack {
    slots: Slots,
    /// The newest is last.
    redirections: Vec<Redirection>,
}

impl Drop for RedirStack {
    fn drop(self) {
        let RedirStack {
            slots: _,
            redirections: _,
        } = self;
    }
}

impl Model for RedirStack {
    ghost use Rattle.std.specs.Prelude.{map, reverse};
    ghost use Rattle.rc_redir.specs.Redirections.{Redirections, scope_of};

    ghost Value = { Redirections };

    ghost view = { λ s. record { slots = s.slots; scopes = reverse (map scope_of s.redirections.items) } };
}

/// Replaces one of the descriptors.
pub fn with_slot(slots: Slots, number: u8, slot: Slot) -> Slots
    ensures { result ≡ with_slot slots number slot }
{
    match number {
        0 => Slots {
            input: slot,
            ..slots
        },
        1 => Slots {
            output: slot,
            ..slots
        },
        _ => Slots {
            errors: slot,
            ..slots
        },
    }
}

/// Returns the slot of a descriptor.
pub fn slot_of(slots: Slots, number: u8) -> Slot
    ensures { result ≡ slot_of slots number }
{
    match number {
        0 => slots.input,
        1 => slots.output,
        _ => slots.errors,
    }
}

/// Adds a redirection; there must be room for it.
fn push_within(redirections: &mut Vec<Redirection>, redirection: Redirection)
    requires { vec_len redirections.old < vec_capacity redirections.old }
    ensures { redirections.new.items ≡ redirections.old.items ++ redirection ∷ [] }
{
    let Ok(()) = redirections.push(redirection) else {
        unreachable!();
    };
}

/// Returns the newest of these redirections.
#[tactic(auto, using(crate::proofs::Stacks::last_of))]
fn newest(redirections: &[Redirection]) -> Option<Redirection>
    ensures { let older = take (length redirections.now - 1) redirections.now in
        MatchOption result (redirections.now ≡ []) (λ newest. redirections.now ≡ older ++ newest ∷ []) }
{
    redirections.last().copied()
}

/// Closes a file, if there is one.
#[tactic(auto, using(crate::proofs::Closings::closed))]
fn close_file<W: World>(world: &mut W, file: Option<Handle>) -> Result<(), Stop>
    ensures { Comes (W.events world.old) (W.events world.new)
        (closing (option_map (λ file. file.0) file) (done_with tt)) (λ x. x) result }
{
    if let Some(file) = file {
        calls::close(world, file)?;
    }
    Ok(())
}

impl RedirStack {
    ghost use Rattle.rc_redir.specs.Redirections.{unredirected, redirected, newest_file, without_newest};
    ghost use Rattle.rc_redir.specs.Opening.{HoldsNothing, Opens, open_text};

    /// These descriptors, and no redirections.
    pub fn new(alloc: Global, slots: Slots) -> RedirStack
        ensures { result ≡ unredirected slots }
    {
        RedirStack {
            slots,
            redirections: Vec::new(alloc),
        }
    }

    /// The current descriptors.
    pub fn slots(&self) -> Slots
        ensures { result ≡ self.now.slots }
    {
        self.slots
    }

    /// Opens the file that the one word names, in place of a descriptor. The caller makes sure that the descriptor is
    /// 0, 1 or 2.
    pub fn push_open<W: World>(
        &mut self,
        world: &mut W,
        mode: Mode,
        slot: u8,
        words: &[String],
    ) -> Result<(), RedirError>
        ensures opened { let names = map string_bytes words.now in
            Opens (W.events world.old) (W.events world.new) self.old self.new slot
            (open_one self.old.slots mode names) result }
        ensures held { HoldsNothing (W.events world.old) (W.events world.new) self.old.slots
            (open_one self.old.slots mode (map string_bytes words.now)) result }
        ensures err { OnErr result (self.new ≡ self.old) }
    {
        let [name] = words else {
            return Err(RedirError::Fault(RedirFault::NotOneWord));
        };
        // Without room no file is opened.
        self.redirections.try_reserve(1)?;
        let Some(file) = calls::unless_refused(world.open(name, mode))? else {
            return Err(RedirError::Fault(RedirFault::CannotOpen(name.clone()?)));
        };
        let redirection = Redirection {
            file: Some(file),
            outer: self.slots,
        };
        push_within(&mut self.redirections, redirection);
        self.slots = with_slot(self.slots, slot, Slot::To(file));
        Ok(())
    }

    /// Opens a here document of this text as descriptor 0.
    pub fn push_here<W: World>(&mut self, world: &mut W, text: &str) -> Result<(), RedirError>
        ensures opened { Opens (W.events world.old) (W.events world.new) self.old self.new 0
            (open_text self.old.slots text.now) result }
        ensures held { HoldsNothing (W.events world.old) (W.events world.new) self.old.slots
            (open_text self.old.slots text.now) result }
        ensures err { OnErr result (self.new ≡ self.old) }
    {
        // Without room no text is handed over.
        self.redirections.try_reserve(1)?;
        let Some(file) = calls::unless_refused(world.here(text))? else {
            let name = String::from_str(*self.redirections.allocator(), "here document")?;
            return Err(RedirError::Fault(RedirFault::CannotOpen(name)));
        };
        let redirection = Redirection {
            file: Some(file),
            outer: self.slots,
        };
        push_within(&mut self.redirections, redirection);
        self.slots = with_slot(self.slots, 0, Slot::To(file));
        Ok(())
    }

    /// Makes one descriptor what another is now. The caller makes sure that both are 0, 1 or 2.
    pub fn push_copy(&mut self, to: u8, from: u8) -> Result<(), AllocError>
        ensures ok { let slots = with_slot self.old.slots to (slot_of self.old.slots from) in
            OnOk result (self.new ≡ redirected self.old None slots) }
        ensures err { OnErr result (self.new ≡ self.old) }
    {
        let redirection = Redirection {
            file: None,
            outer: self.slots,
        };
        self.redirections.push(redirection)?;
        self.slots = with_slot(self.slots, to, slot_of(self.slots, from));
        Ok(())
    }

    /// Makes the read end of a pipe descriptor 0. Its `pop` closes it.
    pub fn push_end(&mut self, read_end: Handle) -> Result<(), AllocError>
        ensures ok { let slots = from_pipe (Some read_end.0) self.old.slots in
            OnOk result (self.new ≡ redirected self.old (Some read_end.0) slots) }
        ensures err { OnErr result (self.new ≡ self.old) }
    {
        let redirection = Redirection {
            file: Some(read_end),
            outer: self.slots,
        };
        self.redirections.push(redirection)?;
        self.slots = with_slot(self.slots, 0, Slot::To(read_end));
        Ok(())
    }

    /// Ends the newest redirection: its file is closed, and the descriptors are those before it, even if the close is
    /// refused.
    pub fn pop<W: World>(&mut self, world: &mut W) -> Result<(), Stop>
        ensures closed { Comes (W.events world.old) (W.events world.new)
            (closing (newest_file self.old.scopes) (done_with tt)) (λ x. x) result }
        ensures ok { OnOk result (self.new ≡ without_newest self.old) }
        ensures err { OnErr result (self.new ≡ self.old) }
    {
        let Some(newest) = newest(&self.redirections) else {
            return Ok(());
        };
        close_file(world, newest.file)?;
        self.redirections.pop();
        self.slots = newest.outer;
        Ok(())
    }
}
