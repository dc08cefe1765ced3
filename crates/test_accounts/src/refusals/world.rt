//! A world that refuses some calls and records all of them.

ghost use Rattle.std.specs.Prelude.{None};

use rc_world::{Answer, Call, ChildNo, Ending, Fault, Handle, Kind, Launch, Mode, Slot, World};
use std::alloc::{AllocError, Global};
use std::fmt;

/// The calls that are refused, by their numbers, from 1.
#[derive(Clone, Copy)]
pub enum Refusals {
    None,
    One(usize),
    Two(usize, usize),
    /// The world stops at this call.
    Halt(usize),
}

impl Refusals {
    /// Why the call of this number is refused, if it is.
    fn fault_at(self, number: usize) -> Option<Fault> {
        match self {
            Refusals::One(only) if number == only => Some(Fault::Denied),
            Refusals::Two(first, second) if number == first || number == second => {
                Some(Fault::Denied)
            }
            Refusals::Halt(last) if number == last => Some(Fault::Halt),
            _ => None,
        }
    }
}

impl fmt::Display for Refusals {
    fn fmt<W: fmt::Write>(&self, f: &mut fmt::Formatter<W>) -> fmt::Result {
        match self {
            Refusals::None => f.write_str("nothing refused"),
            Refusals::One(only) => write!(f, "call {only} refused"),
            Refusals::Two(first, second) => write!(f, "calls {first} and {second} refused"),
            Refusals::Halt(last) => write!(f, "over at call {last}"),
        }
    }
}

/// A call and its answer.
pub struct Event {
    pub call: Call,
    pub answer: Answer,
}

impl Drop for Event {
    fn drop(self) {
        let Event { call: _, answer: _ } = self;
    }
}

/// A world that refuses some calls. To the others it gives fresh numbers, files from 3 and children from 1; every
/// program is found, and ends with code 0; there is nothing to read; every directory has the names `d1` and `d2`.
pub struct RefusingWorld {
    alloc: Global,
    refusals: Refusals,
    events: Vec<Event>,
    next_file: u32,
    next_child: u32,
}

impl Drop for RefusingWorld {
    fn drop(self) {
        let RefusingWorld {
            alloc: _,
            refusals: _,
            events: _,
            next_file: _,
            next_child: _,
        } = self;
    }
}

impl RefusingWorld {
    /// A world before its first call.
    pub fn new(alloc: Global, refusals: Refusals) -> RefusingWorld {
        RefusingWorld {
            alloc,
            refusals,
            events: Vec::new(alloc),
            next_file: 3,
            next_child: 1,
        }
    }

    /// The calls so far, each with its answer.
    pub fn events(&self) -> &[Event] {
        self.events.as_slice()
    }

    /// Records a call, with this answer unless it is refused.
    fn answer(&mut self, call: Call, granted: Answer) -> Result<(), Fault> {
        let fault = self.refusals.fault_at(self.events.len().saturating_add(1));
        let answer = match fault {
            Some(fault) => Answer::Refused(fault),
            None => granted,
        };
        if self.events.push(Event { call, answer }).is_err() {
            return Err(Fault::NoMemory);
        }
        match fault {
            Some(fault) => Err(fault),
            None => Ok(()),
        }
    }

    /// The number of the next file.
    fn next_file(&mut self) -> Handle {
        let file = Handle(self.next_file);
        self.next_file = self.next_file.saturating_add(1);
        file
    }

    fn text(&self, text: &str) -> Result<String, Fault> {
        String::from_str(self.alloc, text).map_err(|_| Fault::NoMemory)
    }

    fn names(&self) -> Result<Vec<String>, Fault> {
        names(self.alloc).map_err(|_| Fault::NoMemory)
    }
}

/// The names in each directory.
fn names(alloc: Global) -> Result<Vec<String>, AllocError> {
    let mut names = Vec::new(alloc);
    for name in ["d1", "d2"] {
        names.push(String::from_str(alloc, name)?)?;
    }
    Ok(names)
}

impl World for RefusingWorld {
    ghost events = { λ _. None };

    fn open(&mut self, path: &str, mode: Mode) -> Result<Handle, Fault> {
        let call = Call::Open(self.text(path)?, mode);
        let file = self.next_file();
        self.answer(call, Answer::File(file))?;
        Ok(file)
    }

    fn here(&mut self, text: &str) -> Result<Handle, Fault> {
        let call = Call::Here(self.text(text)?);
        let file = self.next_file();
        self.answer(call, Answer::File(file))?;
        Ok(file)
    }

    fn pipe(&mut self) -> Result<(Handle, Handle), Fault> {
        let (reader, writer) = (self.next_file(), self.next_file());
        self.answer(Call::Pipe, Answer::Pair(reader, writer))?;
        Ok((reader, writer))
    }

    fn close(&mut self, handle: Handle) -> Result<(), Fault> {
        self.answer(Call::Close(handle), Answer::Done)
    }

    fn read(&mut self, handle: Handle) -> Result<Vec<u8>, Fault> {
        self.answer(Call::Read(handle), Answer::Bytes(Vec::new(self.alloc)))?;
        Ok(Vec::new(self.alloc))
    }

    fn write(&mut self, slot: Slot, text: &[u8]) -> Result<(), Fault> {
        let Ok(text) = Vec::from_slice(self.alloc, text) else {
            return Err(Fault::NoMemory);
        };
        self.answer(Call::Write(slot, text), Answer::Done)
    }

    fn start(&mut self, launch: &Launch) -> Result<ChildNo, Fault> {
        let Ok(launch) = launch.clone() else {
            return Err(Fault::NoMemory);
        };
        let child = ChildNo(self.next_child);
        self.next_child = self.next_child.saturating_add(1);
        self.answer(Call::Start(launch), Answer::Child(child))?;
        Ok(child)
    }

    fn wait(&mut self, child: ChildNo) -> Result<Ending, Fault> {
        let ending = Ending::Code(0);
        self.answer(Call::Wait(child), Answer::Ended(ending))?;
        Ok(ending)
    }

    fn list(&mut self, path: &str) -> Result<Vec<String>, Fault> {
        let call = Call::List(self.text(path)?);
        let answer = Answer::Names(self.names()?);
        let names = self.names()?;
        self.answer(call, answer)?;
        Ok(names)
    }

    fn probe(&mut self, path: &str) -> Result<Kind, Fault> {
        let call = Call::Probe(self.text(path)?);
        self.answer(call, Answer::Found(Kind::Program))?;
        Ok(Kind::Program)
    }

    fn chdir(&mut self, path: &str) -> Result<(), Fault> {
        let call = Call::Chdir(self.text(path)?);
        self.answer(call, Answer::Done)
    }
}
