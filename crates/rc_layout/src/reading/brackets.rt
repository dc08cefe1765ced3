//! The brackets around a token, as far as they have been read.

use crate::reading::expectation::Expectation;
use crate::reading::roles::Bracket;

/// The most bytes of the tokens of a pipeline, or of the commands in a pair of braces, on one line.
const MOST_BYTES: usize = 80;

/// The most commands in a pair of braces on one line.
const MOST_ITEMS: usize = 2;

/// A pair of brackets that is open.
#[derive(Clone, Copy)]
pub(crate) struct Level {
    pub(crate) bracket: Bracket,
    /// The index of the opening token, and its line.
    pub(crate) opening: usize,
    pub(crate) line: u32,
    pub(crate) expects: Expectation,
    /// The number of commands.
    pub(crate) items: usize,
    /// The bytes of the tokens.
    pub(crate) bytes: Bytes,
    /// The number of bars before its pipeline that may still end their lines.
    pub(crate) bars_before: usize,
    /// Whether there are newlines between the commands of a condition.
    pub(crate) has_newlines: bool,
    /// Whether something inside has lines of its own.
    pub(crate) is_broken: bool,
}

/// How many bytes there are in brackets, and in the pipeline that is read there.
#[derive(Clone, Copy)]
pub(crate) struct Bytes {
    pub(crate) all: usize,
    pub(crate) pipeline: usize,
}

impl Bytes {
    pub(crate) fn add(self, more: usize) -> Bytes {
        Bytes {
            all: self.all.saturating_add(more),
            pipeline: self.pipeline.saturating_add(more),
        }
    }
}

impl Level {
    /// Brackets that the token of this index opens on this line.
    pub(crate) fn new(bracket: Bracket, opening: usize, line: u32, bars_before: usize) -> Level {
        let expects = if bracket == Bracket::Words {
            Expectation::Inside
        } else {
            Expectation::Item
        };
        Level {
            bracket,
            opening,
            line,
            expects,
            items: 0,
            bytes: Bytes {
                all: 0,
                pipeline: 0,
            },
            bars_before,
            has_newlines: false,
            is_broken: false,
        }
    }

    /// Whether the pipeline that is read is too long for a line.
    pub(crate) fn has_long_pipeline(self) -> bool {
        self.bytes.pipeline > MOST_BYTES
    }

    /// Whether the commands have lines of their own, if the brackets end on this line.
    pub(crate) fn has_lines(self, line: u32) -> bool {
        match self.bracket {
            Bracket::Script => true,
            Bracket::Block | Bracket::Backquote => self.is_broken || self.is_long(line),
            Bracket::Switch => self.items > 0 || self.line != line,
            Bracket::Condition => self.has_newlines,
            Bracket::Words => false,
        }
    }

    /// Whether the commands are on several lines, or too many for one.
    fn is_long(self, line: u32) -> bool {
        self.line != line || self.items > MOST_ITEMS || self.bytes.all > MOST_BYTES
    }

    /// The brackets after others inside of them, which have lines of their own or not.
    pub(crate) fn after(self, inner: Level, has_lines: bool) -> Level {
        let more = if has_lines { 0 } else { inner.bytes.all };
        Level {
            bytes: self.bytes.add(more),
            is_broken: self.is_broken || inner.is_broken || has_lines,
            ..self
        }
    }
}
