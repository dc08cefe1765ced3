//! The text of a layout, whose tree is not known.

use crate::laying::source::Source;
use crate::laying::writer::layout_of;
use rc_lexer::lex;
use rc_model::InputError;
use std::alloc::{AllocError, Global};
use std::str;

/// A text that is the layout of a script if it has its tree; empty if the script has no tokens.
pub(crate) fn arranged(alloc: Global, script: &[u8]) -> Result<Vec<u8>, AllocError> {
    let Ok(text) = str::from_utf8(script) else {
        return Ok(Vec::new(alloc));
    };
    let tokens = match lex(alloc, text) {
        Ok(tokens) => tokens,
        Err(InputError::Fault(_)) => return Ok(Vec::new(alloc)),
        Err(InputError::NoMemory) => return Err(AllocError),
    };
    let tokens = tokens.as_slice();
    layout_of(alloc, Source { script, tokens })
}
