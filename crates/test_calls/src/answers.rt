//! The notation for the answers of calls.

use rc_world::{Answer, ChildNo, Ending, Fault, Handle, Kind};
use std::alloc::{AllocError, AllocFailed, Global};
use std::num::ParseIntError;

/// Why a text is not an answer.
#[derive(Clone, Copy)]
pub enum AnswerError {
    /// It is not the notation of an answer.
    NoAnswer,
    NoMemory,
}

impl From<AllocError> for AnswerError {
    fn from(_: AllocError) -> Self {
        AnswerError::NoMemory
    }
}

impl<T: Drop> From<AllocFailed<T>> for AnswerError {
    fn from(_: AllocFailed<T>) -> Self {
        AnswerError::NoMemory
    }
}

impl From<ParseIntError> for AnswerError {
    fn from(_: ParseIntError) -> Self {
        AnswerError::NoAnswer
    }
}

/// Parses an answer.
pub fn answer(alloc: Global, written: &str) -> Result<Answer, AnswerError> {
    let (kind, rest) = written.split_once(' ').unwrap_or((written, ""));
    match kind {
        "code" | "child" | "file" | "pipe" => numbered(kind, rest),
        "names" | "bytes" | "zeros" | "text" => listed(alloc, kind, rest),
        _ => plain(kind),
    }
}

/// The answer of this kind without values.
fn plain(kind: &str) -> Result<Answer, AnswerError> {
    Ok(match kind {
        "done" => Answer::Done,
        "refused" => Answer::Refused(Fault::Denied),
        "halt" => Answer::Refused(Fault::Halt),
        "no-memory" => Answer::Refused(Fault::NoMemory),
        "program" => Answer::Found(Kind::Program),
        "directory" => Answer::Found(Kind::Directory),
        "other" => Answer::Found(Kind::Other),
        "signal" => Answer::Ended(Ending::Signal),
        _ => return Err(AnswerError::NoAnswer),
    })
}

/// The answer of this kind with its numbers.
fn numbered(kind: &str, rest: &str) -> Result<Answer, AnswerError> {
    Ok(match kind {
        "code" => Answer::Ended(Ending::Code(rest.parse::<u8>()?)),
        "child" => Answer::Child(ChildNo(rest.parse::<u32>()?)),
        "file" => Answer::File(Handle(rest.parse::<u32>()?)),
        _ => {
            let (read, write) = rest.split_once(' ').unwrap_or((rest, ""));
            Answer::Pair(Handle(read.parse::<u32>()?), Handle(write.parse::<u32>()?))
        }
    })
}

/// The answer of this kind with its names or its bytes.
fn listed(alloc: Global, kind: &str, rest: &str) -> Result<Answer, AnswerError> {
    Ok(match kind {
        "names" => Answer::Names(names(alloc, rest)?),
        "bytes" => Answer::Bytes(bytes(alloc, rest)?),
        "zeros" => Answer::Bytes(zeros(alloc, rest)?),
        _ => Answer::Bytes(Vec::from_slice(alloc, rest.as_bytes())?),
    })
}

/// The names in a text.
fn names(alloc: Global, text: &str) -> Result<Vec<String>, AllocError> {
    let mut names = Vec::new(alloc);
    for name in text.split_whitespace() {
        names.push(String::from_str(alloc, name)?)?;
    }
    Ok(names)
}

/// The bytes with the numbers in a text.
fn bytes(alloc: Global, numbers: &str) -> Result<Vec<u8>, AnswerError> {
    let mut bytes = Vec::new(alloc);
    for number in numbers.split_whitespace() {
        bytes.push(number.parse::<u8>()?)?;
    }
    Ok(bytes)
}

/// As many bytes 0 as the text says.
fn zeros(alloc: Global, count: &str) -> Result<Vec<u8>, AnswerError> {
    let count = count.parse::<usize>()?;
    Ok(vec![in alloc; 0; count]?)
}
