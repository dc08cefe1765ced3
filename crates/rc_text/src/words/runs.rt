//! The runs of a text: longest parts whose characters are all marked, or all not.

ghost use Rattle.std.specs.Prelude.{◌≡◌, ◌-◌, [], ◌∷◌, ◌++◌, not, length, IfOk};
ghost use Rattle.rc_text.specs.Runs.{last_mark, total, AreJoined};

use smallvec::SmallVec;
use std::alloc::{AllocError, Global};
use std::marker::Model;

/// The mark of the first run, and the lengths in bytes of all runs but the last. Each run has the other mark than the
/// one before it.
pub(crate) struct Runs {
    first: bool,
    lengths: SmallVec<usize, 6>,
    /// Where the last run begins.
    start: usize,
    /// The mark of the last run.
    last: bool,
}

impl Drop for Runs {
    fn drop(self) {
        let Runs {
            first: _,
            lengths: _,
            start: _,
            last: _,
        } = self;
    }
}

impl Model for Runs {
    ghost use Rattle.std.specs.Prelude.{ℕ, Bool, List, ◌≡◌};
    ghost use Rattle.rc_text.specs.Runs.{last_mark, total};

    ghost Value = { Bool × List ℕ };

    ghost view = { λ r. (r.first, r.lengths.items) };

    ghost invariant = { λ r. (r.start ≡ total r.lengths.items) × (r.last ≡ last_mark r.first r.lengths.items) };
}

impl Runs {
    /// One run.
    pub(crate) fn new(alloc: Global, mark: bool) -> Runs
        ensures { result ≡ (mark, []) }
    {
        Runs {
            first: mark,
            lengths: SmallVec::new(alloc),
            start: 0,
            last: mark,
        }
    }

    /// The mark of the first run.
    pub(crate) fn first(&self) -> bool
        ensures { result ≡ self.now.0 }
    {
        self.first
    }

    /// The mark of the last run.
    pub(crate) fn last(&self) -> bool
        ensures { result ≡ last_mark self.now.0 self.now.1 }
    {
        self.last
    }

    /// The lengths of all runs but the last.
    pub(crate) fn lengths(&self) -> &[usize]
        ensures { result.now ≡ self.now.1 }
    {
        self.lengths.as_slice()
    }

    /// The same runs.
    pub(crate) fn copied(&self) -> Result<Runs, AllocError>
        ensures { IfOk result (λ copy. copy ≡ self.now) }
    {
        let lengths = SmallVec::from_slice(*self.lengths.allocator(), self.lengths.as_slice())?;
        Ok(Runs {
            first: self.first,
            lengths,
            start: self.start,
            last: self.last,
        })
    }

    /// The runs with another one after them, where the last of them has this length.
    pub(crate) fn pushed(self, length: usize) -> Result<Runs, AllocError>
        ensures { IfOk result (λ runs. runs ≡ (self.0, self.1 ++ length ∷ [])) }
    {
        let Runs {
            first,
            mut lengths,
            start,
            last,
        } = self;
        let Some(start) = start.checked_add(length) else {
            return Err(AllocError);
        };
        lengths.push(length)?;
        Ok(Runs {
            first,
            lengths,
            start,
            last: !last,
        })
    }

    /// The runs of a text that ends here, and a run with this mark after it.
    fn followed(self, end: usize, mark: bool) -> Result<Runs, AllocError>
        ensures { IfOk result (λ runs. AreJoined self end (mark, []) runs) }
    {
        if self.last == mark {
            return Ok(self);
        }
        let length = end.saturating_sub(self.start);
        self.pushed(length)
    }

    /// The runs of two texts as those of one, of which the first ends here. Those of the second begin with this mark
    /// and have these lengths.
    pub(crate) fn joined(
        self,
        end: usize,
        first: bool,
        lengths: &[usize],
    ) -> Result<Runs, AllocError>
        ensures { IfOk result (λ runs. AreJoined self end (first, lengths.now) runs) }
    {
        let runs = self.followed(end, first)?;
        let Some((length, others)) = lengths.split_first() else {
            return Ok(runs);
        };
        let Some(next_end) = end.checked_add(*length) else {
            return Err(AllocError);
        };
        runs.joined(next_end, !first, others)
    }
}
