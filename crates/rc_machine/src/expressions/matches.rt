//! Instructions that match a list against patterns.

ghost use Rattle.std.specs.Prelude.{◌≡◌, IfOk, IsTrue};
ghost use Rattle.rc_model.specs.Code.Layout as op;
ghost use Rattle.rc_machine.specs.Instructions.{Moves};
ghost use Rattle.rc_model.specs.Run.Acts.{match_status};
ghost use Rattle.rc_machine.specs.Subjects.{HasSubject, TakesSubject};

use crate::configuration::{Configuration, Move};
use crate::stack::list_stack::ListStack;
use rc_glob::matched;
use rc_text::{Word, spaced_unmarked};
use std::alloc::{AllocError, Global};

/// Pops the top list as one word with no marks, its words joined by spaces. A single word shares its text.
fn take_subject(alloc: Global, words: &mut ListStack<Word>) -> Result<Option<Word>, AllocError>
    ensures { IfOk result (λ subject. TakesSubject words.old words.new subject) }
{
    let subject = match words.top() {
        None => return Ok(None),
        Some([word]) => word.clone()?.unmarked()?,
        Some(list) => spaced_unmarked(alloc, list)?,
    };
    words.drop_top();
    Ok(Some(subject))
}

/// Whether the top list is the subject as it stands: one word with no marks.
fn has_subject(words: &ListStack<Word>) -> bool
    ensures { IsTrue result → HasSubject words.now }
{
    let Some([word]) = words.top() else {
        return false;
    };
    word.is_plain()
}

/// Makes the top list the subject that patterns are matched against.
#[inline(never)]
pub(crate) fn make_subject(machine: &mut Configuration, alloc: Global) -> Result<Move, AllocError>
    ensures { IfOk result (Moves op.Subject machine.old machine.new) }
{
    if has_subject(&machine.words) {
        return Ok(Move::On);
    }
    let Some(subject) = take_subject(alloc, &mut machine.words)? else {
        return Ok(Move::Ended);
    };
    machine.words.begin()?;
    machine.words.push(subject)?;
    Ok(Move::On)
}

/// Jumps to the place if the patterns don't match; the subject stays on top.
#[inline(never)]
pub(crate) fn run_case(machine: &mut Configuration, place: usize) -> Move
    ensures { Moves (op.Case place) machine.old machine.new result }
{
    let Some((subject, patterns)) = machine.words.top_two() else {
        return Move::Ended;
    };
    let is_match = matched(subject, patterns);
    machine.words.drop_top();
    if !is_match {
        machine.counter = place;
    }
    Move::On
}

/// The status of a `~` of this subject and these patterns.
pub(crate) fn match_status(subject: &[Word], patterns: &[Word]) -> &'static str
    ensures { result.now ≡ match_status subject.now patterns.now }
{
    if matched(subject, patterns) {
        ""
    } else {
        "no match"
    }
}

/// `~`.
#[inline(never)]
pub(crate) fn run_match(machine: &mut Configuration) -> Result<Move, AllocError>
    ensures { IfOk result (Moves op.Match machine.old machine.new) }
{
    let Some((subject, patterns)) = machine.words.top_two() else {
        return Ok(Move::Ended);
    };
    let status = match_status(subject, patterns);
    machine.state.set_status(status)?;
    machine.words.drop_two();
    Ok(Move::On)
}
