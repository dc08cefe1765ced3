//! The results for a script that comes in pieces.

use crate::dump::dump;
use crate::tokens::tokens_shown;
use crate::trees::{fault_line, tree_of};
use rc_lexer::{Lexer, Token, lex};
use rc_parser::{Reader, ScriptError};
use rc_tree::Cmd;
use std::alloc::{AllocError, Global};
use std::str;

/// The tree of a script, in a box, as a text, or the fault.
pub fn shown(alloc: Global, answer: Result<Box<Cmd>, ScriptError>) -> Result<String, AllocError> {
    match answer {
        Ok(tree) => dump(alloc, &tree),
        Err(fault) => fault_line(alloc, fault),
    }
}

/// The tree of a script that comes in pieces of these lengths and the rest.
pub fn tree_of_pieces(
    alloc: Global,
    script: &[u8],
    lengths: &[usize],
) -> Result<Box<Cmd>, ScriptError> {
    let mut reader = Reader::new(alloc);
    let mut left = script;
    for length in lengths {
        let (piece, rest) = left.split_at((*length).min(left.len()));
        reader.feed(piece)?;
        left = rest;
    }
    reader.feed(left)?;
    Ok(Box::new(alloc, reader.finish()?)?)
}

/// The tree of a script that comes byte by byte.
fn tree_of_bytes(alloc: Global, script: &[u8]) -> Result<Box<Cmd>, ScriptError> {
    let mut reader = Reader::new(alloc);
    for byte in script.chunks(1) {
        reader.feed(byte)?;
    }
    Ok(Box::new(alloc, reader.finish()?)?)
}

/// The tokens of a text that comes character by character.
fn tokens_of_characters(alloc: Global, text: &str) -> Result<Vec<Token>, ScriptError> {
    let mut lexer = Lexer::new(alloc);
    let mut bytes = [0; 4];
    for character in text.chars() {
        lexer.feed(character.encode_utf8(&mut bytes))?;
    }
    lexer.finish()
}

/// The tokens with their places, or the lexer's fault.
fn tokens_or_fault(
    alloc: Global,
    answer: Result<Vec<Token>, ScriptError>,
) -> Result<String, AllocError> {
    match answer {
        Ok(tokens) => tokens_shown(alloc, &tokens),
        Err(fault) => fault_line(alloc, fault),
    }
}

/// Whether a script has the same tokens character by character, if it is UTF-8.
fn has_tokens_of_characters(alloc: Global, script: &[u8]) -> Result<bool, AllocError> {
    let Ok(text) = str::from_utf8(script) else {
        return Ok(true);
    };
    let whole = tokens_or_fault(alloc, lex(alloc, text))?;
    let cut = tokens_or_fault(alloc, tokens_of_characters(alloc, text))?;
    Ok(whole.as_str() == cut.as_str())
}

/// Adds each place at which the script, cut in two, has another result.
fn add_differing_places(
    alloc: Global,
    out: &mut String,
    script: &[u8],
    whole: &str,
) -> Result<(), AllocError> {
    for place in 0..script.len() {
        let cut = shown(alloc, tree_of_pieces(alloc, script, &[place]))?;
        if cut.as_str() != whole {
            write!(out, ", and not cut at {place}")?;
        }
    }
    Ok(())
}

/// The result for a script, and the cuts that have another result.
pub fn cut_everywhere(alloc: Global, script: &[u8]) -> Result<String, AllocError> {
    let whole = shown(alloc, tree_of(alloc, script))?;
    let mut out = String::from_str(alloc, whole.as_str())?;
    add_differing_places(alloc, &mut out, script, whole.as_str())?;
    if shown(alloc, tree_of_bytes(alloc, script))?.as_str() != whole.as_str() {
        out.push_str(", and not byte by byte")?;
    }
    if !has_tokens_of_characters(alloc, script)? {
        out.push_str(", with other tokens character by character")?;
    }
    Ok(out)
}
