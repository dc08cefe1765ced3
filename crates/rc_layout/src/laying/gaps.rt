//! What is between two tokens: blanks, and perhaps a comment.

/// What is between two tokens.
#[derive(Clone, Copy)]
pub(crate) struct Gap<'a> {
    pub(crate) blanks: &'a [u8],
    /// A comment, without the blanks at its end; empty if there is none.
    pub(crate) comment: &'a [u8],
}

impl<'a> Gap<'a> {
    /// The parts of a gap.
    pub(crate) fn new(gap: &'a [u8]) -> Gap<'a> {
        let comment = past_blanks(gap);
        let (blanks, _) = gap.split_at(gap.len().saturating_sub(comment.len()));
        Gap {
            blanks,
            comment: without_end(comment),
        }
    }

    /// Whether a backslash continues the line.
    pub(crate) fn continues_line(self) -> bool {
        self.blanks.contains(&b'\n')
    }
}

/// A text after its first blanks, among which are backslashes at the ends of lines.
pub(crate) fn past_blanks(text: &[u8]) -> &[u8] {
    let mut rest = text;
    for _ in 0..text.len() {
        rest = match rest {
            [b' ' | b'\t', after @ ..] => after,
            [b'\\', b'\n', after @ ..] => after,
            _ => break,
        };
    }
    rest
}

/// A text without the blanks at its end.
fn without_end(text: &[u8]) -> &[u8] {
    let mut rest = text;
    for _ in 0..text.len() {
        rest = match rest {
            [before @ .., b' ' | b'\t'] => before,
            _ => break,
        };
    }
    rest
}
