//! The marks of the characters of a text.

ghost use Rattle.std.specs.Prelude.{◌≡◌, ◌⊎◌, [], ◌++◌, ℕ, IfOk, IfSome, IsTrue, MatchOption, OnOk, false};
ghost use Rattle.std.proofs.Common.{inl, inr};
ghost use Rattle.rc_text.specs.Literals.{marks};
ghost use Rattle.rc_text.specs.Runs.{marked_runs, AreRuns};
ghost use Rattle.rc_text.specs.Views.{word_of, AreMarked, AreMarkedAsOne, HasPattern, HasRuns};

use crate::words::few_runs::FewRuns;
use crate::words::literal::{Ch, push_text};
use crate::words::runs::Runs;
use std::alloc::{AllocError, Global};
use std::marker::Model;
use std::rc::Rc;

/// How the characters of a text are marked.
#[derive(Drop)]
pub(crate) enum MarkRoom {
    /// A few short runs, which need no allocation.
    Few(FewRuns),
    /// More runs, or longer ones.
    Many(Rc<Runs>),
    /// Each character has its own mark, and there is a pattern character among them.
    Pattern(Rc<Vec<Ch>>),
}

/// Which characters of a text are marked: its runs, if there is no pattern character in it.
pub(crate) struct Marks(MarkRoom);

impl Drop for Marks {
    fn drop(self) {
        let Marks(_) = self;
    }
}

impl Model for Marks {
    ghost use Rattle.std.specs.Prelude.{ℕ, Bool, List, ◌⊎◌};
    ghost use Rattle.rc_text.specs.Views.{marks_in};

    ghost Value = { (Bool × List ℕ) ⊎ List (ℕ × Bool) };

    ghost view = { λ m. marks_in m.0 };
}

/// Adds the characters of runs of these lengths, the first of them with this mark.
fn push_runs(
    all: &mut Vec<Ch>,
    text: &str,
    lengths: &[usize],
    first: bool,
) -> Result<(), AllocError>
    requires { AreRuns lengths.now text.now }
    ensures { OnOk result (marks all.new.items ≡ marks all.old.items ++ marked_runs first lengths.now text.now) }
{
    let Some((length, others)) = lengths.split_first() else {
        return push_text(all, text, first);
    };
    push_text(all, &text[..*length], first)?;
    push_runs(all, &text[*length..], others, !first)
}

impl Marks {
    /// All characters have this mark.
    pub(crate) fn one(mark: bool) -> Marks
        ensures { result ≡ inl (mark, []) }
    {
        Marks(MarkRoom::Few(FewRuns::one(mark)))
    }

    /// The marks of a text that has a pattern character, by its characters.
    pub(crate) fn of_pattern(alloc: Global, chars: Vec<Ch>) -> Result<Marks, AllocError>
        ensures { IfOk result (λ all. all ≡ inr (marks chars.items)) }
    {
        Ok(Marks(MarkRoom::Pattern(Rc::new(alloc, chars)?)))
    }

    /// The marks of these runs.
    fn of_runs(alloc: Global, runs: Runs) -> Result<Marks, AllocError>
        ensures { IfOk result (λ all. all ≡ inl runs) }
    {
        Ok(Marks(MarkRoom::Many(Rc::new(alloc, runs)?)))
    }

    /// The same marks. What stands outside of the word is shared, and it fails only if that has too many owners.
    pub(crate) fn copied(&self) -> Result<Marks, AllocError>
        ensures { IfOk result (λ copy. copy ≡ self.now) }
    {
        let room = match &self.0 {
            MarkRoom::Few(runs) => MarkRoom::Few(runs.copied()),
            MarkRoom::Many(runs) => MarkRoom::Many(runs.clone()?),
            MarkRoom::Pattern(chars) => MarkRoom::Pattern(chars.clone()?),
        };
        Ok(Marks(room))
    }

    /// The mark that all characters have, if there is one run.
    fn only_mark(&self) -> Option<bool>
        ensures { IfSome result (λ mark. self.now ≡ inl (mark, [])) }
    {
        match &self.0 {
            MarkRoom::Few(runs) => runs.only_mark(),
            _ => None,
        }
    }

    /// Whether no character is marked.
    pub(crate) fn is_plain(&self) -> bool
        ensures { IsTrue result → self.now ≡ inl (false, []) }
    {
        self.only_mark() == Some(false)
    }

    /// The characters, if there is a pattern character among them.
    pub(crate) fn pattern(&self) -> Option<&[Ch]>
        ensures { MatchOption result (HasRuns self.now) (λ chars. self.now ≡ inr (marks chars.now)) }
    {
        match &self.0 {
            MarkRoom::Pattern(chars) => Some(chars.as_slice()),
            _ => None,
        }
    }

    /// The runs, if there is no pattern character.
    fn runs(&self, alloc: Global) -> Result<Option<Runs>, AllocError>
        ensures { IfOk result (λ found. MatchOption found (HasPattern self.now) (λ runs. self.now ≡ inl runs)) }
    {
        let runs = match &self.0 {
            MarkRoom::Few(runs) => runs.many(alloc)?,
            MarkRoom::Many(runs) => runs.copied()?,
            MarkRoom::Pattern(_) => return Ok(None),
        };
        Ok(Some(runs))
    }

    /// Adds the characters of a text that has these marks.
    pub(crate) fn push_chars(&self, all: &mut Vec<Ch>, text: &str) -> Result<(), AllocError>
        requires { AreMarked text.now self.now }
        ensures { OnOk result (marks all.new.items ≡ marks all.old.items ++ word_of text.now self.now) }
    {
        match &self.0 {
            MarkRoom::Few(runs) => {
                let runs = runs.many(*all.allocator())?;
                push_runs(all, text, runs.lengths(), runs.first())
            }
            MarkRoom::Many(runs) => push_runs(all, text, runs.lengths(), runs.first()),
            MarkRoom::Pattern(chars) => all.extend_from_slice(chars.as_slice()),
        }
    }

    /// The mark of the last run, if there is no pattern character.
    fn last(&self) -> Option<bool>
        ensures { IfSome result (λ mark. (end : ℕ) → AreMarkedAsOne self.now end (inl (mark, [])) self.now) }
    {
        match &self.0 {
            MarkRoom::Few(runs) => Some(runs.last()),
            MarkRoom::Many(runs) => Some(runs.last()),
            MarkRoom::Pattern(_) => None,
        }
    }

    /// Whether a text with these other marks only makes the last run longer.
    pub(crate) fn go_on(&self, next: &Marks) -> bool
        ensures { IsTrue result → (end : ℕ) → AreMarkedAsOne self.now end next.now self.now }
    {
        let Some(last) = self.last() else {
            return false;
        };
        let Some(mark) = next.only_mark() else {
            return false;
        };
        last == mark
    }

    /// The marks of a text that ends here, and of another whose characters all have this mark, as those of one text, if
    /// there is room.
    fn few_as_one(&self, end: usize, mark: bool) -> Option<Marks>
        ensures { IfSome result (AreMarkedAsOne self.now end (inl (mark, []))) }
    {
        match &self.0 {
            MarkRoom::Few(runs) => match runs.followed(end, mark) {
                Some(all) => Some(Marks(MarkRoom::Few(all))),
                None => None,
            },
            _ => None,
        }
    }

    /// The marks of two texts as those of one, of which the first ends here. There are none if either has a pattern
    /// character.
    fn as_one(&self, alloc: Global, end: usize, next: &Marks) -> Result<Option<Marks>, AllocError>
        ensures { IfOk result (λ found.
            MatchOption found (HasPattern self.now ⊎ HasPattern next.now) (AreMarkedAsOne self.now end next.now)) }
    {
        if let Some(mark) = next.only_mark() {
            if let Some(all) = self.few_as_one(end, mark) {
                return Ok(Some(all));
            }
        }
        let Some(runs) = self.runs(alloc)? else {
            return Ok(None);
        };
        let Some(others) = next.runs(alloc)? else {
            return Ok(None);
        };
        let all = runs.joined(end, others.first(), others.lengths())?;
        Ok(Some(Marks::of_runs(alloc, all)?))
    }

    /// The marks of two texts, of which the first has these, as those of one.
    pub(crate) fn joined(
        &self,
        alloc: Global,
        text: &str,
        next_marks: &Marks,
        next: &str,
    ) -> Result<Marks, AllocError>
        requires left { AreMarked text.now self.now }
        requires right { AreMarked next.now next_marks.now }
        ensures { IfOk result (λ all. AreMarked (text.now ++ next.now) all
            × (word_of (text.now ++ next.now) all ≡ word_of text.now self.now ++ word_of next.now next_marks.now)) }
    {
        if let Some(marks) = self.as_one(alloc, text.len(), next_marks)? {
            return Ok(marks);
        }
        let size = text.len().saturating_add(next.len());
        let mut all = Vec::with_capacity(alloc, size)?;
        self.push_chars(&mut all, text)?;
        next_marks.push_chars(&mut all, next)?;
        Marks::of_pattern(alloc, all)
    }
}
