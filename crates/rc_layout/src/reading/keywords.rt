//! Words that are special where a command begins.

use crate::reading::expectation::Expectation;

/// What may follow a word where a command begins, if that is a keyword.
pub(crate) fn after_keyword(word: &[u8]) -> Option<Expectation> {
    match word {
        b"if" | b"while" => Some(Expectation::Condition),
        b"for" => Some(Expectation::Head),
        b"switch" => Some(Expectation::Subject),
        b"fn" | b"~" => Some(Expectation::Inside),
        b"!" | b"@" => Some(Expectation::Prefixed),
        _ => None,
    }
}
