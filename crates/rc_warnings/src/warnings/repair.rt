//! What to write in place of what is warned of.

use crate::bytes::before;
use crate::lexed::script_tokens::part;
use crate::shown::escaped::push_escaped;
use rc_lexer::Span;
use std::alloc::{AllocError, Global};

/// The greatest number of bytes of a part of a script that are shown.
const MOST_SHOWN: usize = 100;

/// No part of a script.
pub(crate) const NOWHERE: Span = Span { start: 0, stop: 0 };

/// What to write: up to three parts of the script, each after some words, and the words at the end.
#[derive(Clone, Copy)]
pub struct Repair {
    parts: [(&'static str, Span); 3],
    end: &'static str,
    /// How many lines it is about, if there is more than one.
    lines: usize,
}

impl Repair {
    /// These words alone.
    pub(crate) fn of(words: &'static str) -> Repair {
        Repair::of_lines(0, words)
    }

    /// These words alone, about this number of lines.
    pub(crate) fn of_lines(lines: usize, words: &'static str) -> Repair {
        Repair {
            parts: [("", NOWHERE); 3],
            end: words,
            lines,
        }
    }

    /// A part of the script between words.
    pub(crate) fn around(before: &'static str, part: Span, after: &'static str) -> Repair {
        Repair::new([before, "", "", after], [part, NOWHERE, NOWHERE])
    }

    /// Two parts of the script, with words before, between and after them.
    pub(crate) fn pair(words: [&'static str; 3], first: Span, second: Span) -> Repair {
        let [before, between, after] = words;
        Repair::new([before, between, "", after], [first, second, NOWHERE])
    }

    /// Parts of the script, each after its words, and the words at the end.
    pub(crate) fn new(words: [&'static str; 4], parts: [Span; 3]) -> Repair {
        let [before, between, then, end] = words;
        let [first, second, third] = parts;
        Repair {
            parts: [(before, first), (between, second), (then, third)],
            end,
            lines: 0,
        }
    }

    /// The text of it for this script, in which nothing acts on a terminal.
    pub fn text(self, alloc: Global, script: &[u8]) -> Result<String, AllocError> {
        let mut out = String::new(alloc);
        if self.lines > 0 {
            let lines = self.lines;
            write!(out, "lines: {lines}; ")?;
        }
        for (words, found) in &self.parts {
            out.push_str(words)?;
            push_part(&mut out, part(script, *found))?;
        }
        out.push_str(self.end)?;
        Ok(out)
    }
}

/// Appends a part of a script up to the end of its line, if that is not too far.
fn push_part(out: &mut String, part: &[u8]) -> Result<(), AllocError> {
    let line = before(part, b"\n");
    let shown = &line[..line.len().min(MOST_SHOWN)];
    push_escaped(out, shown)?;
    if shown.len() < part.len() {
        out.push_str("..")?;
    }
    Ok(())
}
