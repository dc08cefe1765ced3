//! Redirections: when memory runs out, nothing is opened or ended, and the descriptors stay.

use rc_redir::{RedirError, RedirFault, RedirStack};
use rc_world::{Answer, Fault, Handle, Mode, PLAIN_SLOTS, Slot, Stop, Tape};
use std::alloc::AllocError;
use std::test::Fail;

/// The name that could not be opened.
fn refused_name(opened: Result<(), RedirError>) -> Result<String, Fail> {
    match opened {
        Err(RedirError::Fault(RedirFault::CannotOpen(name))) => Ok(name),
        Err(RedirError::Stopped(Stop::NoMemory)) => Err(Fail::from(AllocError)),
        _ => Err(Fail::new("another answer")),
    }
}

#[test]
fn out_of_memory_opens_nothing(rt: HostRuntime) -> Result<(), Fail> {
    let alloc = rt.alloc();
    let mut tape = Tape::new(vec![in alloc; Answer::File(Handle(4)), Answer::Done]?);
    let names = vec![in alloc; String::from_str(alloc, "f")?]?;
    let mut stack = RedirStack::new(alloc, PLAIN_SLOTS);
    let opened = stack.push_open(&mut tape, Mode::Write, 1, &names);
    if matches!(opened, Err(RedirError::Stopped(Stop::NoMemory))) {
        assert!(rt; stack.slots() == PLAIN_SLOTS && tape.calls().is_empty());
        return Err(Fail::from(AllocError));
    }
    assert!(rt; opened.is_ok());
    let closed = stack.pop(&mut tape);
    if matches!(closed, Err(Stop::NoMemory)) {
        assert!(rt; stack.slots().output == Slot::To(Handle(4)));
        return Err(Fail::from(AllocError));
    }
    assert!(rt; closed.is_ok());
    assert!(rt; stack.slots() == PLAIN_SLOTS);
    Ok(())
}

#[test]
fn out_of_memory_after_a_refused_open_changes_nothing(rt: HostRuntime) -> Result<(), Fail> {
    let alloc = rt.alloc();
    let mut tape = Tape::new(vec![in alloc; Answer::Refused(Fault::Other)]?);
    let names = vec![in alloc; String::from_str(alloc, "f")?]?;
    let mut stack = RedirStack::new(alloc, PLAIN_SLOTS);
    let opened = stack.push_open(&mut tape, Mode::Write, 1, &names);
    assert!(rt; stack.slots() == PLAIN_SLOTS);
    assert_eq!(rt; refused_name(opened)?.as_str(), "f");
    Ok(())
}

#[test]
fn out_of_memory_opens_no_document(rt: HostRuntime) -> Result<(), Fail> {
    let alloc = rt.alloc();
    let mut tape = Tape::new(vec![in alloc; Answer::File(Handle(4))]?);
    let mut stack = RedirStack::new(alloc, PLAIN_SLOTS);
    let opened = stack.push_here(&mut tape, "a\n");
    if matches!(opened, Err(RedirError::Stopped(Stop::NoMemory))) {
        assert!(rt; stack.slots() == PLAIN_SLOTS && tape.calls().is_empty());
        return Err(Fail::from(AllocError));
    }
    assert!(rt; opened.is_ok());
    assert!(rt; stack.slots().input == Slot::To(Handle(4)));
    Ok(())
}

#[test]
fn out_of_memory_after_a_refused_document_changes_nothing(rt: HostRuntime) -> Result<(), Fail> {
    let alloc = rt.alloc();
    let mut tape = Tape::new(vec![in alloc; Answer::Refused(Fault::Other)]?);
    let mut stack = RedirStack::new(alloc, PLAIN_SLOTS);
    let opened = stack.push_here(&mut tape, "a\n");
    assert!(rt; stack.slots() == PLAIN_SLOTS);
    assert_eq!(rt; refused_name(opened)?.as_str(), "here document");
    Ok(())
}

#[test]
fn out_of_memory_copies_nothing(rt: HostRuntime) -> Result<(), Fail> {
    let mut stack = RedirStack::new(rt.alloc(), PLAIN_SLOTS);
    let copied = stack.push_copy(2, 1);
    let wanted = if copied.is_ok() {
        Slot::Own(1)
    } else {
        Slot::Own(2)
    };
    assert!(rt; stack.slots().errors == wanted);
    copied?;
    Ok(())
}

#[test]
fn out_of_memory_takes_no_read_end(rt: HostRuntime) -> Result<(), Fail> {
    let mut stack = RedirStack::new(rt.alloc(), PLAIN_SLOTS);
    let pushed = stack.push_end(Handle(9));
    let wanted = if pushed.is_ok() {
        Slot::To(Handle(9))
    } else {
        Slot::Own(0)
    };
    assert!(rt; stack.slots().input == wanted);
    pushed?;
    Ok(())
}
