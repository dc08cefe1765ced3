//! The notation for answers.

use rc_world::{ChildNo, Ending, Fault, Handle, Kind};
use std::alloc::{AllocError, Global};

pub fn fault(alloc: Global, fault: Fault) -> Result<String, AllocError> {
    let name = match fault {
        Fault::NotFound => "not found",
        Fault::Denied => "denied",
        Fault::Exists => "exists",
        Fault::Full => "full",
        Fault::Broken => "broken",
        Fault::NoMemory => "no memory",
        Fault::Halt => "halt",
        _ => "other fault",
    };
    String::from_str(alloc, name)
}

pub fn done(alloc: Global, answer: Result<(), Fault>) -> Result<String, AllocError> {
    match answer {
        Ok(()) => String::from_str(alloc, "done"),
        Err(why) => fault(alloc, why),
    }
}

pub fn file(alloc: Global, answer: Result<Handle, Fault>) -> Result<String, AllocError> {
    match answer {
        Ok(file) => format!(in alloc; "file {}", file.0),
        Err(why) => fault(alloc, why),
    }
}

pub fn pipe(alloc: Global, answer: Result<(Handle, Handle), Fault>) -> Result<String, AllocError> {
    match answer {
        Ok((reader, writer)) => format!(in alloc; "pipe {} {}", reader.0, writer.0),
        Err(why) => fault(alloc, why),
    }
}

pub fn child(alloc: Global, answer: Result<ChildNo, Fault>) -> Result<String, AllocError> {
    match answer {
        Ok(child) => format!(in alloc; "child {}", child.0),
        Err(why) => fault(alloc, why),
    }
}

pub fn ending(alloc: Global, answer: Result<Ending, Fault>) -> Result<String, AllocError> {
    match answer {
        Ok(Ending::Code(code)) => format!(in alloc; "code {code}"),
        Ok(Ending::Signal) => String::from_str(alloc, "signal"),
        Err(why) => fault(alloc, why),
    }
}

pub fn kind(alloc: Global, answer: Result<Kind, Fault>) -> Result<String, AllocError> {
    match answer {
        Ok(Kind::Program) => String::from_str(alloc, "program"),
        Ok(Kind::Directory) => String::from_str(alloc, "directory"),
        Ok(Kind::Other) => String::from_str(alloc, "other"),
        Err(why) => fault(alloc, why),
    }
}

/// The number of bytes that were read.
pub fn count(alloc: Global, answer: Result<Vec<u8>, Fault>) -> Result<String, AllocError> {
    match answer {
        Ok(bytes) => format!(in alloc; "{} bytes", bytes.len()),
        Err(why) => fault(alloc, why),
    }
}

/// The names in byte order.
pub fn names(alloc: Global, answer: Result<Vec<String>, Fault>) -> Result<String, AllocError> {
    match answer {
        Ok(mut names) => {
            names.sort()?;
            format!(in alloc; "{names:?}")
        }
        Err(why) => fault(alloc, why),
    }
}

/// The number of names.
pub fn tally(alloc: Global, answer: Result<Vec<String>, Fault>) -> Result<String, AllocError> {
    match answer {
        Ok(names) => format!(in alloc; "{} names", names.len()),
        Err(why) => fault(alloc, why),
    }
}
