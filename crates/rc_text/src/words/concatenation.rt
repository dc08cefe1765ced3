//! Two lists joined into one.
ghost use Rattle.std.specs.Prelude.{◌≡◌, ◌++◌, Ok, map, IfOk, MatchResult};
ghost use Rattle.rc_model.specs.Run.Lists.{concatenated, pairwise};
ghost use Rattle.rc_model.specs.Syntax.Faults.{Fails};

use crate::words::Word;
use crate::words::lists::List;
use rc_model::{InputError, ListFault};
use std::alloc::{AllocError, Global};

/// Joins lists of equal length pairwise. Otherwise the one word of a list is joined to each word of the other.
pub fn concat(alloc: Global, left: &List, right: &List) -> Result<List, InputError<ListFault>>
    ensures { MatchResult result (λ list. concatenated left.now right.now ≡ Ok list)
        (λ error. Fails error (concatenated left.now right.now)) }
{
    concat_words(alloc, left.words(), right.words())
}

/// Joins equally many words pairwise. Otherwise the one word of a side is joined to each word of the other.
pub fn concat_words(
    alloc: Global,
    left: &[Word],
    right: &[Word],
) -> Result<List, InputError<ListFault>>
    ensures { MatchResult result (λ list. concatenated left.now right.now ≡ Ok list)
        (λ error. Fails error (concatenated left.now right.now)) }
{
    let joined = match (left, right) {
        (lefts, rights) if lefts.len() == rights.len() => pairwise(alloc, lefts, rights)?,
        ([], _) | (_, []) => return Err(InputError::Fault(ListFault::EmptyConcat)),
        ([first], rights) => before_each(alloc, first, rights)?,
        (lefts, [last]) => after_each(alloc, lefts, last)?,
        _ => return Err(InputError::Fault(ListFault::CountMismatch)),
    };
    Ok(joined)
}

fn pairwise(alloc: Global, lefts: &[Word], rights: &[Word]) -> Result<List, AllocError>
    ensures { IfOk result (λ list. list ≡ pairwise lefts.now rights.now) }
{
    let mut list = List::with_capacity(alloc, lefts.len())?;
    for (left, right) in lefts.iter().zip(rights) {
        list.push(Word::joined(alloc, left, right)?)?;
    }
    Ok(list)
}

fn before_each(alloc: Global, first: &Word, words: &[Word]) -> Result<List, AllocError>
    ensures { IfOk result (λ list. list ≡ map (λ w. first.now ++ w) words.now) }
{
    let mut list = List::with_capacity(alloc, words.len())?;
    for word in words {
        list.push(Word::joined(alloc, first, word)?)?;
    }
    Ok(list)
}

fn after_each(alloc: Global, words: &[Word], last: &Word) -> Result<List, AllocError>
    ensures { IfOk result (λ list. list ≡ map (λ w. w ++ last.now) words.now) }
{
    let mut list = List::with_capacity(alloc, words.len())?;
    for word in words {
        list.push(Word::joined(alloc, word, last)?)?;
    }
    Ok(list)
}
