//! Calls that keep every promise, and calls that break one.

use crate::refusals::accounts::{Wrong, check};
use crate::refusals::world::Event;
use Made::{Close, CloseRefused, List, Open, Pipe, Read, Start, Wait, Write};
use rc_world::{
    Answer, Call, ChildNo, Ending, Fault, Handle, Launch, Mode, PLAIN_SLOTS, Program, Slot, Slots,
};
use std::alloc::{AllocError, Global};

/// A call with its answer, in short: the numbers of its file, files or child.
#[derive(Clone, Copy)]
enum Made {
    Open(u32),
    Pipe(u32, u32),
    Close(u32),
    CloseRefused(u32),
    Read(u32),
    Write(u32),
    /// A start with these files as descriptors 0 and 1, if they are not 0, and its child.
    Start(u32, u32, u32),
    Wait(u32),
    List,
}

/// The slot of a descriptor.
fn slot(own: u8, file: u32) -> Slot {
    if file == 0 {
        Slot::Own(own)
    } else {
        Slot::To(Handle(file))
    }
}

fn launch(alloc: Global, input: u32, output: u32) -> Launch {
    Launch {
        program: Program::Shell,
        args: Vec::new(alloc),
        env: Vec::new(alloc),
        slots: Slots {
            input: slot(0, input),
            output: slot(1, output),
            ..PLAIN_SLOTS
        },
    }
}

fn event(alloc: Global, made: Made) -> Event {
    let (call, answer) = match made {
        Made::Open(file) => {
            let call = Call::Open(String::new(alloc), Mode::Write);
            (call, Answer::File(Handle(file)))
        }
        Made::Pipe(reader, writer) => (Call::Pipe, Answer::Pair(Handle(reader), Handle(writer))),
        Made::Close(file) => (Call::Close(Handle(file)), Answer::Done),
        Made::CloseRefused(file) => (Call::Close(Handle(file)), Answer::Refused(Fault::Other)),
        Made::Read(file) => (Call::Read(Handle(file)), Answer::Bytes(Vec::new(alloc))),
        Made::Write(file) => (Call::Write(slot(1, file), Vec::new(alloc)), Answer::Done),
        Made::Start(input, output, child) => {
            let call = Call::Start(launch(alloc, input, output));
            (call, Answer::Child(ChildNo(child)))
        }
        Made::Wait(child) => (Call::Wait(ChildNo(child)), Answer::Ended(Ending::Code(0))),
        Made::List => (
            Call::List(String::new(alloc)),
            Answer::Names(Vec::new(alloc)),
        ),
    };
    Event { call, answer }
}

fn events(alloc: Global, made: &[Made]) -> Result<Vec<Event>, AllocError> {
    let mut events = Vec::new(alloc);
    for made in made {
        events.push(event(alloc, *made))?;
    }
    Ok(events)
}

/// Calls after which a script has ended, the children in its background list, and what the account finds.
#[derive(Clone, Copy)]
struct Row(&'static [Made], &'static [ChildNo], Result<(), Wrong>);

/// Promises that are kept; then files, ends of pipes and children that are lost.
const ROWS: [Row; 25] = [
    Row(
        &[Open(3), Write(3), CloseRefused(3), Open(3), Close(3)],
        &[],
        Ok(()),
    ),
    Row(&[Open(3), Start(3, 0, 1), Close(3)], &[ChildNo(1)], Ok(())),
    Row(
        &[
            Pipe(3, 4),
            Start(0, 4, 1),
            Close(4),
            Read(3),
            Close(3),
            Wait(1),
        ],
        &[],
        Ok(()),
    ),
    Row(&[Pipe(3, 4), Close(4), List, Close(3)], &[], Ok(())),
    Row(
        &[
            Pipe(3, 4),
            Start(0, 4, 1),
            Close(4),
            Pipe(5, 6),
            Start(3, 6, 2),
            Close(6),
            Close(5),
            Wait(2),
            Close(3),
            Wait(1),
        ],
        &[],
        Ok(()),
    ),
    Row(&[Close(3)], &[], Err(Wrong::NotHeld)),
    Row(&[Read(3)], &[], Err(Wrong::NotHeld)),
    Row(&[Write(3)], &[], Err(Wrong::NotHeld)),
    Row(&[Start(3, 0, 1)], &[ChildNo(1)], Err(Wrong::NotHeld)),
    Row(&[Start(0, 3, 1)], &[ChildNo(1)], Err(Wrong::NotHeld)),
    Row(
        &[Open(3), CloseRefused(3), Close(3)],
        &[],
        Err(Wrong::NotHeld),
    ),
    Row(&[Open(3)], &[], Err(Wrong::HeldAtTheEnd)),
    Row(&[Open(3), Open(3)], &[], Err(Wrong::NotFresh)),
    Row(&[Pipe(3, 4), List], &[], Err(Wrong::OutOfTurn)),
    Row(&[Pipe(3, 4), Close(3)], &[], Err(Wrong::OutOfTurn)),
    Row(&[Pipe(3, 4), Start(3, 0, 1)], &[], Err(Wrong::OutOfTurn)),
    Row(
        &[Pipe(3, 4), Start(0, 4, 1), Read(3)],
        &[],
        Err(Wrong::OutOfTurn),
    ),
    Row(
        &[Pipe(3, 4), Start(0, 4, 1), Close(4), Wait(1)],
        &[],
        Err(Wrong::EndHeldAtAWait),
    ),
    Row(
        &[
            Pipe(3, 4),
            Start(0, 4, 1),
            Close(4),
            Pipe(5, 6),
            Start(3, 6, 2),
            Close(6),
            Close(3),
            Wait(1),
        ],
        &[],
        Err(Wrong::EndHeldAtAWait),
    ),
    Row(&[Wait(1)], &[], Err(Wrong::NotOwed)),
    Row(
        &[Start(0, 0, 1), Wait(1), Wait(1)],
        &[],
        Err(Wrong::NotOwed),
    ),
    Row(&[Start(0, 0, 1)], &[], Err(Wrong::OwedAtTheEnd)),
    Row(&[Start(0, 0, 1)], &[ChildNo(2)], Err(Wrong::OwedAtTheEnd)),
    Row(&[], &[ChildNo(1)], Err(Wrong::OwedAtTheEnd)),
    Row(&[Start(0, 0, 1), Start(0, 0, 1)], &[], Err(Wrong::NotFresh)),
];

/// What the account finds in the calls of a row.
fn checked(alloc: Global, row: Row) -> Result<(), Wrong> {
    let Row(made, background, _) = row;
    let events = events(alloc, made)?;
    check(alloc, events.as_slice(), Some(background))
}

/// The place of the first row in which the account finds something else, if there is one.
pub fn differing(alloc: Global) -> Option<usize> {
    for (place, row) in ROWS.iter().enumerate() {
        if checked(alloc, *row) != row.2 {
            return Some(place);
        }
    }
    None
}
