//! Copies of calls and answers.

use rc_text::Text;
use rc_world::{
    Answer, Call, ChildNo, Ending, Fault, Handle, Kind, Launch, Mode, PLAIN_SLOTS, Program, Slot,
};
use std::alloc::{AllocError, Global};
use std::test::Fail;

fn text(alloc: Global, text: &str) -> Result<String, AllocError> {
    String::from_str(alloc, text)
}

/// A launch of a program by its path, or of the shell.
fn launch(alloc: Global, program: Program) -> Result<Launch, AllocError> {
    let mut slots = PLAIN_SLOTS;
    slots.output = Slot::To(Handle(4));
    Ok(Launch {
        program,
        args: vec![in alloc; Text::of(alloc, "a")?, Text::of(alloc, "b")?]?,
        env: vec![in alloc; Text::of(alloc, "x=1")?]?,
        slots,
    })
}

/// A call of each kind.
fn calls(alloc: Global) -> Result<Vec<Call>, AllocError> {
    let program = Program::Path(text(alloc, "/bin/c")?);
    let calls = vec![in alloc;
        Call::Open(text(alloc, "f")?, Mode::Append),
        Call::Here(text(alloc, "body")?),
        Call::Pipe,
        Call::Close(Handle(3)),
        Call::Read(Handle(4)),
        Call::Write(Slot::Own(2), Vec::from_slice(alloc, b"report")?),
        Call::Start(launch(alloc, program)?),
        Call::Start(launch(alloc, Program::Shell)?),
        Call::Wait(ChildNo(5)),
        Call::List(text(alloc, ".")?),
        Call::Probe(text(alloc, "/bin/c")?),
        Call::Chdir(text(alloc, "/t")?),
    ]?;
    Ok(calls)
}

/// An answer of each kind.
fn answers(alloc: Global) -> Result<Vec<Answer>, AllocError> {
    let names = vec![in alloc; text(alloc, "d1")?, text(alloc, "d2")?]?;
    let answers = vec![in alloc;
        Answer::File(Handle(3)),
        Answer::Pair(Handle(3), Handle(4)),
        Answer::Done,
        Answer::Bytes(Vec::from_slice(alloc, b"bytes")?),
        Answer::Child(ChildNo(5)),
        Answer::Ended(Ending::Code(6)),
        Answer::Ended(Ending::Signal),
        Answer::Names(names),
        Answer::Found(Kind::Program),
        Answer::Refused(Fault::Full),
    ]?;
    Ok(answers)
}

fn are_same_texts(some: &[String], others: &[String]) -> bool {
    some.len() == others.len()
        && some
            .iter()
            .zip(others.iter())
            .all(|(one, other)| one == other)
}

fn are_same_shared_texts(some: &[Text], others: &[Text]) -> bool {
    some.len() == others.len()
        && some
            .iter()
            .zip(others.iter())
            .all(|(one, other)| one.as_str() == other.as_str())
}

fn are_same_programs(one: &Program, other: &Program) -> bool {
    match (one, other) {
        (Program::Shell, Program::Shell) => true,
        (Program::Path(one), Program::Path(other)) => one == other,
        _ => false,
    }
}

fn are_same_launches(one: &Launch, other: &Launch) -> bool {
    are_same_programs(&one.program, &other.program)
        && are_same_shared_texts(&one.args, &other.args)
        && are_same_shared_texts(&one.env, &other.env)
        && one.slots == other.slots
}

fn are_same_calls(one: &Call, other: &Call) -> bool {
    match (one, other) {
        (Call::Open(one, mode), Call::Open(other, other_mode)) => {
            one == other && mode == other_mode
        }
        (Call::Here(one), Call::Here(other))
        | (Call::List(one), Call::List(other))
        | (Call::Probe(one), Call::Probe(other))
        | (Call::Chdir(one), Call::Chdir(other)) => one == other,
        (Call::Pipe, Call::Pipe) => true,
        (Call::Close(one), Call::Close(other)) | (Call::Read(one), Call::Read(other)) => {
            one == other
        }
        (Call::Write(slot, one), Call::Write(other_slot, other)) => {
            slot == other_slot && one.as_slice() == other.as_slice()
        }
        (Call::Start(one), Call::Start(other)) => are_same_launches(one, other),
        (Call::Wait(one), Call::Wait(other)) => one == other,
        _ => false,
    }
}

fn are_same_answers(one: &Answer, other: &Answer) -> bool {
    match (one, other) {
        (Answer::File(one), Answer::File(other)) => one == other,
        (Answer::Pair(reader, writer), Answer::Pair(other_reader, other_writer)) => {
            reader == other_reader && writer == other_writer
        }
        (Answer::Done, Answer::Done) => true,
        (Answer::Bytes(one), Answer::Bytes(other)) => one.as_slice() == other.as_slice(),
        (Answer::Child(one), Answer::Child(other)) => one == other,
        (Answer::Ended(one), Answer::Ended(other)) => one == other,
        (Answer::Names(one), Answer::Names(other)) => are_same_texts(one, other),
        (Answer::Found(one), Answer::Found(other)) => one == other,
        (Answer::Refused(one), Answer::Refused(other)) => one == other,
        _ => false,
    }
}

/// Run with each allocation refused in turn. An `Err` means that one was.
#[test]
fn out_of_memory_leaves_no_copy_of_a_call(rt: HostRuntime) -> Result<(), Fail> {
    for (place, call) in calls(rt.alloc())?.iter().enumerate() {
        assert!(rt; are_same_calls(call, &call.clone()?), "call {place}");
    }
    Ok(())
}

/// Run with each allocation refused in turn. An `Err` means that one was.
#[test]
fn out_of_memory_leaves_no_copy_of_an_answer(rt: HostRuntime) -> Result<(), Fail> {
    for (place, answer) in answers(rt.alloc())?.iter().enumerate() {
        assert!(rt;
            are_same_answers(answer, &answer.clone()?),
            "answer {place}"
        );
    }
    Ok(())
}
