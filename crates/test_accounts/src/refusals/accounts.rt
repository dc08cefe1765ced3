//! The files and children that are held and owed after the calls of a run, computed from these calls and their answers
//! alone: nothing here knows of scripts or of a shell.

use crate::refusals::world::Event;
use rc_world::{Answer, Call, ChildNo, Handle, Slot, Slots};
use std::alloc::{AllocError, AllocFailed, Global};

/// The fault of a sequence of calls.
#[derive(Clone, Copy, PartialEq)]
pub enum Wrong {
    /// A call names a file that is not held.
    NotHeld,
    /// A file is still held at the end.
    HeldAtTheEnd,
    /// A new pipe is followed by neither a start with its write end nor the close of that end, or such a start by
    /// another call than that close.
    OutOfTurn,
    /// The wait for a child of a pipeline or backquote is called while an end of its pipes is held.
    EndHeldAtAWait,
    /// The wait is for a child that is not owed.
    NotOwed,
    /// At the end a child that is not in the background list is owed, or one of that list is not owed.
    OwedAtTheEnd,
    /// A number is given again while it is held or owed.
    NotFresh,
    NoMemory,
}

impl Wrong {
    /// Returns the fault in words.
    pub fn words(self) -> &'static str {
        match self {
            Wrong::NotHeld => "a call names a file that is not held",
            Wrong::HeldAtTheEnd => "a file is held at the end",
            Wrong::OutOfTurn => "a write end is neither passed on nor closed at once",
            Wrong::EndHeldAtAWait => "an end of its pipes is held when a child is waited for",
            Wrong::NotOwed => "a child is waited for that is not owed",
            Wrong::OwedAtTheEnd =>
                "the children that are owed at the end are not those of the list",
            Wrong::NotFresh => "a number is given again",
            Wrong::NoMemory => "no memory",
        }
    }
}

impl From<AllocError> for Wrong {
    fn from(_: AllocError) -> Self {
        Wrong::NoMemory
    }
}

impl<T: Drop> From<AllocFailed<T>> for Wrong {
    fn from(_: AllocFailed<T>) -> Self {
        Wrong::NoMemory
    }
}

/// The kind of an open file: one that was opened, or an end of the pipe of this number.
#[derive(Clone, Copy, PartialEq)]
enum Thing {
    File,
    ReadEnd(usize),
    WriteEnd(usize),
}

/// A file that is held.
#[derive(Clone, Copy)]
struct Held {
    handle: Handle,
    thing: Thing,
}

/// A child that is owed, and the pipe whose write end it was started with, if that was just made.
#[derive(Clone, Copy)]
struct Owed {
    child: ChildNo,
    feeds: Option<usize>,
}

/// The state of the newest pipe: it was just made; a child was started with its write end; that end was closed.
#[derive(Clone, Copy)]
enum Newest {
    Free,
    Made {
        pipe: usize,
        writer: Handle,
    },
    Used {
        pipe: usize,
        writer: Handle,
        input: Slot,
    },
    Passed {
        pipe: usize,
        input: Slot,
    },
}

/// The account of some calls.
#[derive(Drop)]
struct Account {
    held: Vec<Held>,
    owed: Vec<Owed>,
    /// For each pipe, in the order in which they were made, the first pipe of its pipeline or backquote.
    first_pipes: Vec<usize>,
    newest: Newest,
}

/// Checks the calls of a run, and what is held and owed at its end, if it has ended, with these children in the
/// background list.
pub fn check(alloc: Global, events: &[Event], ended: Option<&[ChildNo]>) -> Result<(), Wrong> {
    let mut account = Account::new(alloc);
    for event in events {
        account.add(event)?;
    }
    match ended {
        Some(background) => account.check_end(background),
        None => Ok(()),
    }
}

impl Account {
    /// An account before the first call: nothing is held or owed.
    fn new(alloc: Global) -> Account {
        Account {
            held: Vec::new(alloc),
            owed: Vec::new(alloc),
            first_pipes: Vec::new(alloc),
            newest: Newest::Free,
        }
    }

    /// Adds a call and its answer.
    fn add(&mut self, event: &Event) -> Result<(), Wrong> {
        self.check_names(&event.call)?;
        self.check_turn(&event.call)?;
        self.take_call(&event.call);
        self.take_answer(&event.call, &event.answer)
    }

    /// The file that is held at this number.
    fn thing(&self, handle: Handle) -> Option<Thing> {
        for held in self.held.iter() {
            if held.handle == handle {
                return Some(held.thing);
            }
        }
        None
    }

    /// The child of this number, if it is owed.
    fn owed(&self, child: ChildNo) -> Option<Owed> {
        for owed in self.owed.iter() {
            if owed.child == child {
                return Some(*owed);
            }
        }
        None
    }

    /// The first pipe of the pipeline or backquote of a pipe.
    fn first_pipe(&self, pipe: usize) -> usize {
        self.first_pipes.get(pipe).copied().unwrap_or(pipe)
    }

    /// Checks that the call names only what is held or owed.
    fn check_names(&self, call: &Call) -> Result<(), Wrong> {
        match call {
            Call::Close(handle) | Call::Read(handle) => self.check_slot(Slot::To(*handle)),
            Call::Write(slot, _) => self.check_slot(*slot),
            Call::Start(launch) => self.check_slots(launch.slots),
            Call::Wait(child) => self.check_wait(*child),
            _ => Ok(()),
        }
    }

    fn check_slot(&self, slot: Slot) -> Result<(), Wrong> {
        match slot {
            Slot::To(handle) if self.thing(handle).is_none() => Err(Wrong::NotHeld),
            _ => Ok(()),
        }
    }

    fn check_slots(&self, slots: Slots) -> Result<(), Wrong> {
        self.check_slot(slots.input)?;
        self.check_slot(slots.output)?;
        self.check_slot(slots.errors)
    }

    /// Checks that a child is owed, and that no end is held of the pipes of its pipeline or backquote, nor of a later
    /// one.
    fn check_wait(&self, child: ChildNo) -> Result<(), Wrong> {
        match self.owed(child) {
            None => Err(Wrong::NotOwed),
            Some(
                Owed {
                    feeds: Some(pipe),
                    ..
                },
            ) => self.check_apart(self.first_pipe(pipe)),
            Some(_) => Ok(()),
        }
    }

    /// Checks that no end is held of the pipeline or backquote with this first pipe, nor of a later one.
    fn check_apart(&self, first: usize) -> Result<(), Wrong> {
        for held in self.held.iter() {
            match held.thing {
                Thing::ReadEnd(pipe) | Thing::WriteEnd(pipe) if first <= self.first_pipe(pipe) => {
                    return Err(Wrong::EndHeldAtAWait);
                }
                _ => {}
            }
        }
        Ok(())
    }

    /// Checks that a pipe is followed by a start with its write end or the close of that end, and such a start by that
    /// close. So one write end is held at a time.
    fn check_turn(&self, call: &Call) -> Result<(), Wrong> {
        match (self.newest, call) {
            (Newest::Free | Newest::Passed { .. }, _) => Ok(()),
            (Newest::Made { writer, .. } | Newest::Used { writer, .. }, Call::Close(closed))
                if *closed == writer => { Ok(()) }
            (Newest::Made { writer, .. }, Call::Start(launch)) if has(launch.slots, writer) => Ok(
                (),
            ),
            _ => Err(Wrong::OutOfTurn),
        }
    }

    /// Changes the account by a call, whatever its answer is.
    fn take_call(&mut self, call: &Call) {
        match call {
            Call::Close(handle) => self.close(*handle),
            Call::Wait(child) => self.drop_owed(*child),
            _ => {}
        }
        self.newest = self.newest_after(call);
    }

    fn close(&mut self, handle: Handle) {
        self.join(handle);
        self.held.retain(|held| held.handle != handle);
    }

    fn drop_owed(&mut self, child: ChildNo) {
        self.owed.retain(|owed| owed.child != child);
    }

    /// A pipe continues the pipeline of an earlier one if the child that was started for it has the read end of that
    /// one as its descriptor 0, and that end is closed as soon as the new write end is.
    fn join(&mut self, closed: Handle) {
        let Newest::Passed { pipe, input } = self.newest else {
            return;
        };
        if input != Slot::To(closed) {
            return;
        }
        if let Some(Thing::ReadEnd(earlier) | Thing::WriteEnd(earlier)) = self.thing(closed) {
            let first = self.first_pipe(earlier);
            if let Some(joined) = self.first_pipes.get_mut(pipe) {
                *joined = first;
            }
        }
    }

    /// The state of the newest pipe after a call.
    fn newest_after(&self, call: &Call) -> Newest {
        match (self.newest, call) {
            (Newest::Made { pipe, writer }, Call::Start(launch)) => Newest::Used {
                pipe,
                writer,
                input: launch.slots.input,
            },
            (Newest::Used { pipe, input, .. }, Call::Close(_)) => Newest::Passed { pipe, input },
            _ => Newest::Free,
        }
    }

    /// Changes the account by an answer.
    fn take_answer(&mut self, call: &Call, answer: &Answer) -> Result<(), Wrong> {
        match (call, answer) {
            (Call::Open(..) | Call::Here(_), Answer::File(handle)) => {
                self.hold(*handle, Thing::File)
            }
            (Call::Pipe, Answer::Pair(reader, writer)) => self.add_pipe(*reader, *writer),
            (Call::Start(_), Answer::Child(child)) => self.owe(*child),
            _ => Ok(()),
        }
    }

    fn hold(&mut self, handle: Handle, thing: Thing) -> Result<(), Wrong> {
        if self.thing(handle).is_some() {
            return Err(Wrong::NotFresh);
        }
        self.held.push(Held { handle, thing })?;
        Ok(())
    }

    fn add_pipe(&mut self, reader: Handle, writer: Handle) -> Result<(), Wrong> {
        let pipe = self.first_pipes.len();
        self.hold(reader, Thing::ReadEnd(pipe))?;
        self.hold(writer, Thing::WriteEnd(pipe))?;
        self.first_pipes.push(pipe)?;
        self.newest = Newest::Made { pipe, writer };
        Ok(())
    }

    fn owe(&mut self, child: ChildNo) -> Result<(), Wrong> {
        if self.owed(child).is_some() {
            return Err(Wrong::NotFresh);
        }
        let feeds = match self.newest {
            Newest::Used { pipe, .. } => Some(pipe),
            _ => None,
        };
        self.owed.push(Owed { child, feeds })?;
        Ok(())
    }

    /// Checks that nothing is held at the end, and that the children that are owed are those of the background list.
    fn check_end(&self, background: &[ChildNo]) -> Result<(), Wrong> {
        if !self.held.is_empty() {
            return Err(Wrong::HeldAtTheEnd);
        }
        if self.owed.len() != background.len() {
            return Err(Wrong::OwedAtTheEnd);
        }
        for child in background {
            if self.owed(*child).is_none() {
                return Err(Wrong::OwedAtTheEnd);
            }
        }
        Ok(())
    }
}

/// Whether one of the slots is this file.
fn has(slots: Slots, handle: Handle) -> bool {
    let wanted = Slot::To(handle);
    slots.input == wanted || slots.output == wanted || slots.errors == wanted
}
