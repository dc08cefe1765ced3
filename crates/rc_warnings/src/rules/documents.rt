//! The rule for here documents.

use crate::bytes::{after, find};
use crate::lexed::script_tokens::{Tokens, part};
use crate::warnings::kind::WarningKind;
use crate::warnings::repair::Repair;
use crate::warnings::warning::Warning;
use rc_lexer::TokenKind;

/// The warning for what other shells replace in a here document, or for a backslash that quotes a `$` there.
pub(crate) fn document_warning(tokens: Tokens<'_>, at: usize) -> Option<Warning> {
    let Some(
        TokenKind::HereDoc {
            is_quoted: false,
            body,
        },
    ) = tokens.kind(at)
    else {
        return None;
    };
    let text = part(tokens.script, body);
    let found = find(text, b"${")
        .or(find(text, b"$("))
        .or(find(text, b"`{"))
        .or(find(text, b"\\$"))?;
    let words = if after(text, found).starts_with(b"\\") {
        "write $$ for a $"
    } else {
        "assign the value to a variable before, and write $x^ for it"
    };
    Some(Warning {
        kind: WarningKind::HERE,
        place: (body.start as usize).saturating_add(found),
        line: tokens.line(at),
        repair: Repair::of(words),
    })
}
