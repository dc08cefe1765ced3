//! The accounts of the processes of a family, and the answers to their calls.

use crate::families::fault::RunError;
use rc_shell::Family;
use rc_world::{Answer, Call, ChildNo, Ending, Handle, Kind, Launch, Program, Slot};
use std::alloc::{AllocError, Global};
use test_calls::write_call;

/// The kind of an open file: an end of the pipe of this number, or anything else.
#[derive(Clone, Copy, PartialEq)]
enum Thing {
    Other,
    ReadEnd(usize),
    WriteEnd(usize),
}

/// An open file.
#[derive(Clone, Copy)]
struct Held {
    handle: Handle,
    thing: Thing,
}

/// A child, and its process if it is a shell.
#[derive(Clone, Copy)]
struct Child {
    number: ChildNo,
    process: Option<usize>,
}

/// The account of a process.
#[derive(Drop)]
struct Account {
    /// The files of its descriptors 0, 1 and 2.
    own: [Thing; 3],
    held: Vec<Held>,
    children: Vec<Child>,
    next_file: u32,
    next_child: u32,
    /// Its calls, each on a line.
    calls: String,
}

impl Account {
    /// The account of a process with these files as its descriptors.
    fn new(alloc: Global, own: [Thing; 3]) -> Account {
        Account {
            own,
            held: Vec::new(alloc),
            children: Vec::new(alloc),
            next_file: 3,
            next_child: 1,
            calls: String::new(alloc),
        }
    }

    /// The kind of an open file.
    fn thing(&self, handle: Handle) -> Thing {
        for held in self.held.iter() {
            if held.handle == handle {
                return held.thing;
            }
        }
        Thing::Other
    }

    /// The kind of the file in a slot of a launch.
    fn stands(&self, slot: Slot) -> Thing {
        match slot {
            Slot::To(handle) => self.thing(handle),
            Slot::Own(number) => match self.own.get(usize::from(number)) {
                Some(thing) => *thing,
                None => Thing::Other,
            },
        }
    }

    /// Whether it has the write end of a pipe.
    fn has_write_end(&self, pipe: usize) -> bool {
        let end = Thing::WriteEnd(pipe);
        self.own.contains(&end) || self.held.iter().any(|held| held.thing == end)
    }

    /// Opens a file.
    fn open(&mut self, thing: Thing) -> Result<Handle, AllocError> {
        let handle = Handle(self.next_file);
        self.next_file = self.next_file.saturating_add(1);
        self.held.push(Held { handle, thing })?;
        Ok(handle)
    }

    /// Starts a child.
    fn start(&mut self, process: Option<usize>) -> Result<ChildNo, AllocError> {
        let number = ChildNo(self.next_child);
        self.next_child = self.next_child.saturating_add(1);
        self.children.push(Child { number, process })?;
        Ok(number)
    }

    /// The process of a child, if it is a shell.
    fn process_of(&self, number: ChildNo) -> Option<usize> {
        for child in self.children.iter() {
            if child.number == number {
                return child.process;
            }
        }
        None
    }
}

/// The accounts of all processes.
pub struct Accounts {
    accounts: Vec<Account>,
    /// The number of pipes so far.
    pipes: usize,
}

impl Drop for Accounts {
    fn drop(self) {
        let Accounts {
            accounts: _,
            pipes: _,
        } = self;
    }
}

impl Accounts {
    /// The accounts of one process, before its first call.
    pub fn new(alloc: Global) -> Result<Accounts, AllocError> {
        let first = Account::new(alloc, [Thing::Other; 3]);
        Ok(Accounts {
            accounts: vec![in alloc; first]?,
            pipes: 0,
        })
    }

    /// The calls of a process.
    pub fn calls(&self, process: usize) -> &str {
        match self.accounts.get(process) {
            Some(account) => account.calls.as_str(),
            None => "",
        }
    }

    /// Adds a call of a process.
    pub fn push_call(&mut self, process: usize, call: &Call) -> Result<(), RunError> {
        let account = self.accounts.get_mut(process).ok_or(RunError::BadRow)?;
        write_call(&mut account.calls, call)?;
        account.calls.push('\n')?;
        Ok(())
    }

    /// Whether a process that has not ended has the write end of a pipe.
    fn is_written(&self, family: &Family, pipe: usize) -> bool {
        for (process, account) in self.accounts.iter().enumerate() {
            if family.pending(process).is_some() && account.has_write_end(pipe) {
                return true;
            }
        }
        false
    }

    /// Whether a call of a process waits for another: for a shell to end, or for a pipe to have no writer.
    pub fn is_waiting(&self, family: &Family, process: usize, call: &Call) -> bool {
        let Some(account) = self.accounts.get(process) else {
            return false;
        };
        match call {
            Call::Wait(child) => match account.process_of(*child) {
                Some(shell) => family.pending(shell).is_some(),
                None => false,
            },
            Call::Read(handle) => match account.thing(*handle) {
                Thing::ReadEnd(pipe) => self.is_written(family, pipe),
                _ => false,
            },
            _ => false,
        }
    }

    /// The answer to a call of a process: it is done, with fresh numbers, and there is nothing to read.
    pub fn answer(
        &mut self,
        alloc: Global,
        process: usize,
        call: &Call,
    ) -> Result<Answer, RunError> {
        if let Call::Start(launch) = call {
            return self.start(alloc, process, launch);
        }
        let pipe = self.pipes;
        self.pipes = self.pipes.saturating_add(1);
        let account = self.accounts.get_mut(process).ok_or(RunError::BadRow)?;
        Ok(match call {
            Call::Open(_, _) | Call::Here(_) => Answer::File(account.open(Thing::Other)?),
            Call::Pipe => {
                let reader = account.open(Thing::ReadEnd(pipe))?;
                Answer::Pair(reader, account.open(Thing::WriteEnd(pipe))?)
            }
            Call::Close(handle) => {
                account.held.retain(|held| held.handle != *handle);
                Answer::Done
            }
            Call::Read(_) => Answer::Bytes(Vec::new(alloc)),
            Call::Wait(_) => Answer::Ended(Ending::Code(0)),
            Call::List(_) => Answer::Names(Vec::new(alloc)),
            Call::Probe(_) => Answer::Found(Kind::Program),
            _ => Answer::Done,
        })
    }

    /// Answers a start: a shell is a process from then on, and a program has ended.
    fn start(
        &mut self,
        alloc: Global,
        process: usize,
        launch: &Launch,
    ) -> Result<Answer, RunError> {
        let next = self.accounts.len();
        let account = self.accounts.get_mut(process).ok_or(RunError::BadRow)?;
        let Program::Shell = launch.program else {
            return Ok(Answer::Child(account.start(None)?));
        };
        let slots = launch.slots;
        let own = [slots.input, slots.output, slots.errors].map(|slot| account.stands(slot));
        let number = account.start(Some(next))?;
        self.accounts.push(Account::new(alloc, own))?;
        Ok(Answer::Child(number))
    }
}
