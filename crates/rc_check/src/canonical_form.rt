//! The canonical form of a script: the text of its tree.

ghost use Rattle.std.specs.Prelude.{◌≡◌, ◌≤◌, ◌↔◌, length, IfOk, IsTrue, string_bytes};
ghost use Rattle.rc_model.specs.Syntax.Accepted.{IsAccepted, longest_script};
ghost use Rattle.rc_tree.specs.View.{cmd_tree};
ghost use Rattle.rc_check.specs.Findings.{IsCanonicalOf, KeepsTree};

use rc_model::limits::LONGEST_SCRIPT;
use rc_parser::{InputError, parse};
use rc_print::{PrintFault, print};
use rc_tree::Cmd;
use std::alloc::{AllocError, Global};

/// The canonical form of a script, or why it has none.
#[derive(Drop)]
pub enum Canonical {
    /// The form with a newline at its end, unless that made it longer than a script may be.
    Text(String),
    /// The script is not accepted.
    Refused,
    /// There is a here document inside.
    HereInside,
    /// The form is longer than a script may be.
    TooLong,
}

/// The canonical form of a script.
pub fn canonical_of(alloc: Global, script: &[u8]) -> Result<Canonical, AllocError>
    ensures { IfOk result (λ form. IsCanonicalOf script.now form) }
{
    match parse(alloc, script) {
        Ok(tree) => canonical_text(alloc, script, &tree),
        Err(InputError::Fault(_)) => Ok(Canonical::Refused),
        Err(InputError::NoMemory) => Err(AllocError),
    }
}

/// The canonical form of an accepted script with this tree.
fn canonical_text(alloc: Global, script: &[u8], tree: &Cmd) -> Result<Canonical, AllocError>
    requires { IsAccepted script.now (cmd_tree tree.now) }
    ensures { IfOk result (λ form. IsCanonicalOf script.now form) }
{
    match print(alloc, tree) {
        Ok(text) if is_short(text.as_str()) => Ok(Canonical::Text(ended(alloc, text)?)),
        Ok(_) => Ok(Canonical::TooLong),
        Err(InputError::Fault(PrintFault::HereInside)) => Ok(Canonical::HereInside),
        Err(InputError::NoMemory) => Err(AllocError),
    }
}

/// Whether a text is no longer than a script may be.
fn is_short(text: &str) -> bool
    ensures { IsTrue result ↔ (length text.now ≤ longest_script) }
{
    text.len() <= LONGEST_SCRIPT
}

/// The text with a newline at its end, if it keeps its tree with that. A backslash directly before a newline is a
/// blank, so a blank comes between them.
fn ended(alloc: Global, text: String) -> Result<String, AllocError>
    requires { length (string_bytes text) ≤ longest_script }
    ensures { IfOk result (λ ended. KeepsTree (string_bytes text) (string_bytes ended)) }
{
    let mut ended = text.clone()?;
    let end = if text.ends_with('\\') { " \n" } else { "\n" };
    ended.push_str(end)?;
    Ok(if is_printed_as(alloc, ended.as_bytes(), text.as_str())? {
        ended
    } else {
        text
    })
}

/// Whether this is a script whose tree is printed as this text.
fn is_printed_as(alloc: Global, script: &[u8], text: &str) -> Result<bool, AllocError>
    requires { length text.now ≤ longest_script }
    ensures { IfOk result (λ is_printed. IsTrue is_printed → KeepsTree text.now script.now) }
{
    match parse(alloc, script) {
        Ok(tree) => has_text(alloc, script, &tree, text),
        Err(InputError::Fault(_)) => Ok(false),
        Err(InputError::NoMemory) => Err(AllocError),
    }
}

/// Whether the tree of a script is printed as this text.
fn has_text(alloc: Global, script: &[u8], tree: &Cmd, text: &str) -> Result<bool, AllocError>
    requires accepted { IsAccepted script.now (cmd_tree tree.now) }
    requires short { length text.now ≤ longest_script }
    ensures { IfOk result (λ has_text. IsTrue has_text → KeepsTree text.now script.now) }
{
    match print(alloc, tree) {
        Ok(printed) => Ok(printed.as_str() == text),
        Err(InputError::Fault(_)) => Ok(false),
        Err(InputError::NoMemory) => Err(AllocError),
    }
}
