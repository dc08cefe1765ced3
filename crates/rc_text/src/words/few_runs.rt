//! A few short runs, which stand in the word.

ghost use Rattle.std.specs.Prelude.{◌≡◌, ◌-◌, [], ◌∷◌, ◌++◌, IfOk, IfSome};
ghost use Rattle.rc_text.specs.Runs.{last_mark, total, AreJoined};

use crate::words::runs::Runs;
use std::alloc::{AllocError, Global};
use std::marker::Model;

/// How many lengths there may be.
const MOST: usize = 6;

/// The mark of the first run, and the lengths in bytes of all runs but the last, at most six. Each run has the other
/// mark than the one before it.
#[derive(Drop)]
pub(crate) struct FewRuns {
    first: bool,
    count: u8,
    lengths: [u16; 6],
}

impl Model for FewRuns {
    ghost use Rattle.std.specs.Prelude.{ℕ, Bool, List, ◌≤◌, take};

    ghost Value = { Bool × List ℕ };

    ghost view = { λ r. (r.first, take r.count r.lengths) };

    ghost invariant = { λ r. r.count ≤ 6 };
}

/// The length and the mark of the last run of a text that ends here, of which the first run has this mark.
fn last_run(first: bool, end: usize, lengths: &[u16]) -> (usize, bool)
    ensures length { result.0 ≡ end - total lengths.now }
    ensures mark { result.1 ≡ last_mark first lengths.now }
{
    let Some((length, others)) = lengths.split_first() else {
        return (end, first);
    };
    last_run(!first, end.saturating_sub(usize::from(*length)), others)
}

impl FewRuns {
    /// One run.
    pub(crate) fn one(mark: bool) -> FewRuns
        ensures { result ≡ (mark, []) }
    {
        FewRuns {
            first: mark,
            count: 0,
            lengths: [0; 6],
        }
    }

    /// The mark of the first run.
    pub(crate) fn first(&self) -> bool
        ensures { result ≡ self.now.0 }
    {
        self.first
    }

    /// The lengths of all runs but the last.
    fn lengths(&self) -> &[u16]
        ensures { result.now ≡ self.now.1 }
    {
        &self.lengths[..usize::from(self.count)]
    }

    /// The mark of the only run.
    pub(crate) fn only_mark(&self) -> Option<bool>
        ensures { IfSome result (λ mark. self.now ≡ (mark, [])) }
    {
        if self.count == 0 {
            Some(self.first)
        } else {
            None
        }
    }

    /// The mark of the last run.
    pub(crate) fn last(&self) -> bool
        ensures { result ≡ last_mark self.now.0 self.now.1 }
    {
        last_run(self.first, 0, self.lengths()).1
    }

    /// The same runs.
    pub(crate) fn copied(&self) -> FewRuns
        ensures { result ≡ self.now }
    {
        FewRuns {
            first: self.first,
            count: self.count,
            lengths: self.lengths,
        }
    }

    /// The runs with another one after them, where the last of them has this length, if there is room.
    fn pushed(&self, length: usize) -> Option<FewRuns>
        ensures { IfSome result (λ runs. runs ≡ (self.now.0, self.now.1 ++ length ∷ [])) }
    {
        let count = usize::from(self.count);
        if count >= MOST {
            return None;
        }
        let Ok(length) = u16::try_from(length) else {
            return None;
        };
        let mut lengths = self.lengths;
        lengths[count] = length;
        Some(FewRuns {
            first: self.first,
            count: self.count + 1,
            lengths,
        })
    }

    /// The runs of a text that ends here, and a run with this mark after it, if there is room.
    pub(crate) fn followed(&self, end: usize, mark: bool) -> Option<FewRuns>
        ensures { IfSome result (AreJoined self.now end (mark, [])) }
    {
        let (length, last) = last_run(self.first, end, self.lengths());
        if last == mark {
            return Some(self.copied());
        }
        self.pushed(length)
    }

    /// The same runs, for which more may come.
    pub(crate) fn many(&self, alloc: Global) -> Result<Runs, AllocError>
        ensures { IfOk result (λ runs. runs ≡ self.now) }
    {
        let mut runs = Runs::new(alloc, self.first);
        for length in self.lengths() {
            runs = runs.pushed(usize::from(*length))?;
        }
        Ok(runs)
    }
}
