//! The state of a shell, which stays as it is when memory runs out.

use crate::support::{empty, list, state_with};
use rc_scope::State;
use rc_text::Text;
use rc_world::ChildNo;
use std::alloc::{AllocError, Global};
use std::rc::Rc;
use std::test::Fail;

/// A state in which a local covers a variable.
fn covering_state(alloc: Global) -> Result<State, Fail> {
    let mut state = state_with(alloc, "x", &["a"])?;
    state.push_local("x", list(alloc, &["b", "c"])?)?;
    Ok(state)
}

#[test]
fn out_of_memory_sets_no_variable(rt: HostRuntime) -> Result<(), Fail> {
    let alloc = rt.alloc();
    let mut state = state_with(alloc, "x", &["a"])?;
    let set = state.set("y", list(alloc, &["b", "c"])?);
    let wanted = if set.is_ok() { 2 } else { 0 };
    assert_eq!(rt; state.value("y").len(), wanted);
    assert_eq!(rt; state.value("x").len(), 1);
    set?;
    Ok(())
}

#[test]
fn out_of_memory_appends_nothing(rt: HostRuntime) -> Result<(), Fail> {
    let alloc = rt.alloc();
    let mut state = state_with(alloc, "x", &["a", "b", "c", "d"])?;
    let appended = state.append("x", Text::of(alloc, "e")?);
    if appended.is_err() {
        assert_eq!(rt; state.value("x").len(), 4);
        state.append("x", Text::of(alloc, "e")?)?;
    }
    let value = state.value("x");
    assert_eq!(rt; value.len(), 5);
    assert_eq!(rt; value[4].as_str(), "e");
    appended?;
    Ok(())
}

#[test]
fn out_of_memory_appends_nothing_to_no_value(rt: HostRuntime) -> Result<(), Fail> {
    let alloc = rt.alloc();
    let mut state = state_with(alloc, "x", &["a"])?;
    let appended = state.append("y", Text::of(alloc, "b")?);
    let wanted = if appended.is_ok() { 1 } else { 0 };
    assert_eq!(rt; state.value("y").len(), wanted);
    assert_eq!(rt; state.value("x").len(), 1);
    appended?;
    Ok(())
}

#[test]
fn out_of_memory_appends_nothing_to_the_status(rt: HostRuntime) -> Result<(), Fail> {
    let alloc = rt.alloc();
    let mut state = State::new(alloc);
    state.set_status("a")?;
    let appended = state.append("status", Text::of(alloc, "b")?);
    let wanted = if appended.is_ok() { "a b" } else { "a" };
    assert_eq!(rt; state.status(), wanted);
    appended?;
    Ok(())
}

#[test]
fn out_of_memory_leaves_the_status(rt: HostRuntime) -> Result<(), Fail> {
    let alloc = rt.alloc();
    let mut state = State::new(alloc);
    let set = state.set("status", list(alloc, &["a", "b"])?);
    let wanted = if set.is_ok() { "a b" } else { "" };
    assert_eq!(rt; state.status(), wanted);
    set?;
    Ok(())
}

#[test]
fn out_of_memory_opens_no_local(rt: HostRuntime) -> Result<(), Fail> {
    let alloc = rt.alloc();
    let mut state = state_with(alloc, "x", &["a"])?;
    let opened = state.push_local("x", list(alloc, &["b", "c"])?);
    let wanted = if opened.is_ok() { 2 } else { 1 };
    assert_eq!(rt; state.value("x").len(), wanted);
    state.pop_local();
    assert_eq!(rt; state.value("x").len(), 1);
    opened?;
    Ok(())
}

#[test]
fn out_of_memory_opens_no_local_of_the_status(rt: HostRuntime) -> Result<(), Fail> {
    let alloc = rt.alloc();
    let mut state = state_with(alloc, "x", &["a"])?;
    state.push_local("x", list(alloc, &["b", "c"])?)?;
    let opened = state.push_local("status", list(alloc, &["d", "e"])?);
    let (status, members) = if opened.is_ok() { ("d e", 2) } else { ("", 1) };
    assert_eq!(rt; state.status(), status);
    state.pop_local();
    assert_eq!(rt; state.value("x").len(), members);
    opened?;
    Ok(())
}

#[test]
fn out_of_memory_defines_nothing(rt: HostRuntime) -> Result<(), Fail> {
    let mut state = State::new(rt.alloc());
    let defined = state.define("f", empty());
    assert_eq!(rt; state.has_function("f"), defined.is_ok());
    defined?;
    Ok(())
}

#[test]
fn out_of_memory_shares_no_body(rt: HostRuntime) -> Result<(), Fail> {
    let alloc = rt.alloc();
    let mut state = State::new(alloc);
    let body = Rc::new(alloc, empty())?;
    let defined = state.define_shared("f", &body);
    assert_eq!(rt; state.has_function("f"), defined.is_ok());
    defined?;
    Ok(())
}

#[test]
fn out_of_memory_makes_no_copy(rt: HostRuntime) -> Result<(), Fail> {
    let alloc = rt.alloc();
    let state = covering_state(alloc)?;
    let copied: Result<State, AllocError> = state.clone();
    assert_eq!(rt; state.value("x").len(), 2);
    let copy = copied?;
    assert_eq!(rt; copy.value("x").len(), 2);
    Ok(())
}

#[test]
fn a_copy_is_a_state_of_its_own(rt: HostRuntime) -> Result<(), Fail> {
    let alloc = rt.alloc();
    let mut state = covering_state(alloc)?;
    state.define("f", empty())?;
    assert!(rt; state.code("f")?.is_some());
    state.set_if_not(true);
    state.add_child(ChildNo(7))?;
    let mut copy = state.clone()?;
    state.remove("f");
    state.set_if_not(false);
    state.clear_children();
    assert_eq!(rt; copy.value("x").len(), 2);
    assert!(rt; copy.has_function("f"));
    assert!(rt; copy.if_not() && !copy.strict());
    assert_eq!(rt; copy.children().len(), 1);
    copy.pop_local();
    assert_eq!(rt; copy.value("x").len(), 1);
    assert_eq!(rt; state.value("x").len(), 2);
    Ok(())
}

#[test]
fn out_of_memory_shifts_nothing(rt: HostRuntime) -> Result<(), Fail> {
    let alloc = rt.alloc();
    let mut state = state_with(alloc, "x", &["a"])?;
    let shifted = state.shift(1);
    assert_eq!(rt; state.value("x").len(), 1);
    assert_eq!(rt; state.value("*").len(), 0);
    shifted?;
    Ok(())
}

#[test]
fn out_of_memory_passes_no_arguments(rt: HostRuntime) -> Result<(), Fail> {
    let alloc = rt.alloc();
    let mut state = state_with(alloc, "*", &["a", "b"])?;
    let passed = state.pass_arguments();
    assert_eq!(rt; state.value("*").len(), 2);
    state.shift(1)?;
    assert_eq!(rt; state.value("*").len(), 1);
    state.pop_local();
    let wanted = if passed.is_ok() { 2 } else { 1 };
    assert_eq!(rt; state.value("*").len(), wanted);
    passed?;
    Ok(())
}

#[test]
fn out_of_memory_appends_to_no_arguments_that_are_shared(rt: HostRuntime) -> Result<(), Fail> {
    let alloc = rt.alloc();
    let mut state = state_with(alloc, "*", &["a", "b"])?;
    state.pass_arguments()?;
    let appended = state.append("*", Text::of(alloc, "c")?);
    let wanted = if appended.is_ok() { 3 } else { 2 };
    assert_eq!(rt; state.value("*").len(), wanted);
    state.pop_local();
    assert_eq!(rt; state.value("*").len(), 2);
    appended?;
    Ok(())
}

#[test]
fn out_of_memory_adds_no_child(rt: HostRuntime) -> Result<(), Fail> {
    let mut state = State::new(rt.alloc());
    let added = state.add_child(ChildNo(7));
    let wanted = if added.is_ok() { 1 } else { 0 };
    assert_eq!(rt; state.children().len(), wanted);
    assert_eq!(rt; state.value("apid").len(), 0);
    added?;
    Ok(())
}

#[test]
fn digits_are_a_place_among_the_arguments(rt: HostRuntime) -> Result<(), Fail> {
    let alloc = rt.alloc();
    let state = state_with(alloc, "*", &["a", "b"])?;
    let second = state.get("02")?;
    assert_eq!(rt; second.len(), 1);
    assert_eq!(rt; second[0].as_str(), "b");
    assert_eq!(rt; state.get("0")?.len(), 0);
    assert_eq!(rt; state.get("3")?.len(), 0);
    assert_eq!(rt; state.get("18446744073709551617")?.len(), 0);
    assert_eq!(rt; state.get("*")?.len(), 2);
    Ok(())
}
