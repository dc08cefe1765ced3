//! The characters that separate members.
ghost use Rattle.std.specs.Prelude.{◌≡◌, ◌<◌, ◌≤◌, length, slice_index, take, IfOk};
ghost use Rattle.std.specs.List.{All};
ghost use Rattle.std.specs.Str.{chars, IsCharBoundary, NoCharPasses};
ghost use Rattle.rc_text.specs.Members.{among};

use std::alloc::{AllocError, Global};
use std::marker::Model;

/// Separators. Most characters of a text are greater than each of them.
#[derive(Drop)]
pub(crate) struct Separators {
    all: Vec<char>,
    greatest: char,
}

impl Model for Separators {
    ghost use Rattle.std.specs.Prelude.{ℕ, ◌≤◌, List};
    ghost use Rattle.std.specs.List.{All};

    ghost Value = { List ℕ };

    ghost view = { λ s. s.all.items };

    ghost invariant = { λ s. All (λ c. c ≤ s.greatest) s.all.items };
}

/// The greatest of the characters.
fn greatest(all: &[char]) -> char
    ensures { All (λ c. c ≤ result) all.now }
{
    let mut greatest = '\0';
    for c in all {
        if greatest < *c {
            greatest = *c;
        }
    }
    greatest
}

impl Separators {
    /// The characters of the text.
    pub(crate) fn new(alloc: Global, text: &str) -> Result<Separators, AllocError>
        ensures { IfOk result (λ separators. separators ≡ chars text.now) }
    {
        let all = characters(alloc, text)?;
        let greatest = greatest(all.as_slice());
        Ok(Separators { all, greatest })
    }

    /// Whether the character is one of them.
    pub(crate) fn contains(&self, c: char) -> bool
        ensures { result ≡ among self.now c }
    {
        c <= self.greatest && self.all.iter().any(|separator| *separator == c)
    }

    /// The length of a prefix that has no separator: the whole text if there are none, and else its bytes that are
    /// greater than all separators. It is 0 if one of those is not ASCII.
    pub(crate) fn skipped(&self, text: &str) -> usize
        ensures bound { result ≤ length text.now }
        ensures boundary { IsCharBoundary text.now result }
        ensures none { NoCharPasses (among self.now) (take result text.now) }
    {
        if self.all.is_empty() {
            return text.len();
        }
        if !self.greatest.is_ascii() {
            return 0;
        }
        bytes_above(text.as_bytes(), self.greatest as u8)
    }
}

/// Counts the leading bytes that are greater than the limit.
fn bytes_above(bytes: &[u8], limit: u8) -> usize
    ensures bound { result ≤ length bytes.now }
    ensures above { All (λ b. limit < b) (take result bytes.now) }
    ensures stop { result < length bytes.now → slice_index bytes.now result ≤ limit }
{
    for place in 0..bytes.len() {
        if bytes[place] <= limit {
            return place;
        }
    }
    bytes.len()
}

fn characters(alloc: Global, text: &str) -> Result<Vec<char>, AllocError>
    ensures { IfOk result (λ all. all.items ≡ chars text.now) }
{
    text.chars().collect(alloc)
}
