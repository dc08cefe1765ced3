//! The state of the lexer between two bytes.

pub(crate) mod dollars;
mod ends;
mod here_docs;
pub(crate) mod tokens;
mod transitions;
mod word_bytes;

ghost use Rattle.std.specs.Prelude.{◌≡◌, []};

use crate::operators::Op;
use crate::{Span, Token};
use rc_model::{Place, Previous};
use std::alloc::Global;
use std::collections::VecDeque;

/// Where a token begins, and the context before it.
#[derive(Clone, Copy)]
pub(crate) struct TokenStart {
    pub previous: Previous,
    pub place: Place,
}

/// What is being read.
#[derive(Clone, Copy)]
pub(crate) enum LexerState {
    Between(Previous),
    Comment,
    /// A backslash, which makes a newline a blank.
    Backslash(TokenStart),
    /// A word with a backslash after it, at this place.
    WordBackslash(TokenStart, Place),
    Word(TokenStart),
    Name(Place),
    Quoted(TokenStart),
    /// A quoted word after a quote that ends it unless another follows.
    Closed(TokenStart),
    Operator(TokenStart, Op),
    /// The body of the first pending here document: where it begins, and where the line begins.
    Body { start: usize, line: usize },
}

/// A here document whose body is still to come.
#[derive(Drop)]
pub(crate) struct PendingHereDoc {
    pub(crate) mark: Vec<u8>,
    pub(crate) line: usize,
}

/// The result of reading so far.
#[derive(Drop)]
pub(crate) struct Reading {
    pub(crate) alloc: Global,
    pub(crate) tokens: Vec<Token>,
    /// The `$`s before the operator that is being read, whose name is still to come.
    pub(crate) dollars: Vec<Token>,
    pub(crate) bodies: Vec<Span>,
    pub(crate) pending: VecDeque<PendingHereDoc>,
}

impl Reading {
    /// Nothing is read yet.
    pub(crate) fn new(alloc: Global) -> Self
        ensures tokens { result.tokens.items ≡ [] }
        ensures bodies { result.bodies.items ≡ [] }
        ensures pending { result.pending.items ≡ [] }
    {
        Reading {
            alloc,
            tokens: Vec::new(alloc),
            dollars: Vec::new(alloc),
            bodies: Vec::new(alloc),
            pending: VecDeque::new(alloc),
        }
    }
}
