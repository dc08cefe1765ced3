//! The results for a script: its tokens, its tree, the text of that, or its fault; whether its pieces have the same;
//! and what is found in it, or its canonical form.

use crate::cuts::cut_everywhere;
use crate::dump::dump;
use crate::faults::fault;
use crate::findings::{findings, form, repairs};
use crate::tokens::tokens_shown;
use crate::trees::{fault_line, refused, tree_of};
use rc_lexer::lex;
use rc_parser::InputError;
use rc_print::print;
use rc_tree::{Cmd, clone_tree};
use std::alloc::{AllocError, Global};
use std::str;

/// The kind of result for a script.
#[derive(Clone, Copy)]
pub enum Layer {
    Tokens,
    Trees,
    Texts,
    Faults,
    Cuts,
    Findings,
    Repairs,
    Forms,
}

impl Layer {
    /// The result for the script.
    pub fn show(self, alloc: Global, script: &[u8]) -> Result<String, AllocError> {
        match self {
            Layer::Tokens => tokens(alloc, script),
            Layer::Trees => tree_both_ways(alloc, script),
            Layer::Texts => text(alloc, script),
            Layer::Faults => fault(alloc, script),
            Layer::Cuts => cut_everywhere(alloc, script),
            Layer::Findings => findings(alloc, script),
            Layer::Repairs => repairs(alloc, script),
            Layer::Forms => form(alloc, script),
        }
    }
}

/// The tokens with their places, or the lexer's fault.
fn tokens(alloc: Global, script: &[u8]) -> Result<String, AllocError> {
    let Ok(text) = str::from_utf8(script) else {
        return String::from_str(alloc, "this is not UTF-8");
    };
    match lex(alloc, text) {
        Ok(tokens) => tokens_shown(alloc, &tokens),
        Err(fault) => fault_line(alloc, fault),
    }
}

/// The text of a copy of the tree.
fn text(alloc: Global, script: &[u8]) -> Result<String, AllocError> {
    match tree_of(alloc, script) {
        Ok(tree) => text_of_copy(alloc, &tree),
        Err(fault) => refused(alloc, fault),
    }
}

/// A copy of a tree, in a box.
fn copied(alloc: Global, tree: &Cmd) -> Result<Box<Cmd>, AllocError> {
    Ok(Box::new(alloc, clone_tree(alloc, tree)?)?)
}

fn text_of_copy(alloc: Global, tree: &Cmd) -> Result<String, AllocError> {
    let copy = copied(alloc, tree)?;
    match print(alloc, &copy) {
        Ok(text) => Ok(text),
        Err(InputError::Fault(fault)) => format!(in alloc; "{fault}"),
        Err(InputError::NoMemory) => Err(AllocError),
    }
}

/// The tree of a script, which is also that of its text, if it has one.
fn tree_both_ways(alloc: Global, script: &[u8]) -> Result<String, AllocError> {
    match tree_of(alloc, script) {
        Ok(tree) => shown_both_ways(alloc, &tree),
        Err(fault) => refused(alloc, fault),
    }
}

fn shown_both_ways(alloc: Global, tree: &Cmd) -> Result<String, AllocError> {
    let mut shown = dump(alloc, tree)?;
    let Ok(text) = print(alloc, tree) else {
        return Ok(shown);
    };
    if !is_shown_as(alloc, text.as_bytes(), shown.as_str())? {
        shown.push_str(", and not from its text")?;
    }
    Ok(shown)
}

/// Whether the tree of a script has this text form.
fn is_shown_as(alloc: Global, script: &[u8], wanted: &str) -> Result<bool, AllocError> {
    match tree_of(alloc, script) {
        Ok(tree) => Ok(dump(alloc, &tree)?.as_str() == wanted),
        Err(InputError::Fault(_)) => Ok(false),
        Err(InputError::NoMemory) => Err(AllocError),
    }
}
