//! The place of a fault, and the advice for it. A place is only looked for here: the caller checks that it is on the
//! line of the fault.

ghost use Rattle.std.specs.Prelude.{IfOk};
ghost use Rattle.rc_lexer.specs.Views as lexer;
ghost use Rattle.rc_model.specs.Mirrors.Spelling.{AreSpelled};
ghost use Rattle.rc_model.specs.Syntax.Accepted.{lexemes};

use crate::faults::line_faults::{Sought, first_on_line, open_quote, valid_length, zero_byte};
use rc_lexer::{Token, lex};
use rc_model::{FaultKind, SyntaxFault};
use rc_parser::{InputError, Source, Tokens};
use rc_warnings::{Advice, advice_at};
use std::alloc::{AllocError, Global};
use std::str;

/// The place of a fault of a script, and the advice for it.
pub(crate) fn located(
    alloc: Global,
    script: &[u8],
    fault: SyntaxFault,
) -> Result<(usize, Option<Advice>), AllocError> {
    let line = fault.line;
    Ok(match fault.kind {
        FaultKind::TooLong | FaultKind::TooDeep => (script.len(), None),
        FaultKind::NotText => (valid_length(script), None),
        FaultKind::ZeroByte => (zero_byte(script), None),
        FaultKind::OpenQuote => (open_quote(script), Some(Advice::QUOTE)),
        FaultKind::BadDescriptor => (
            first_on_line(script, line, Sought::BadDescriptor),
            Some(Advice::DESCRIPTOR),
        ),
        FaultKind::OpenHere => {
            let place = first_on_line(script, line, Sought::HereDoc);
            (place, Some(Advice::of_mark(script.get(place..))))
        }
        FaultKind::Unexpected | FaultKind::IfNot | FaultKind::TooManyStages => {
            among_tokens(alloc, script, fault.kind)?
        }
    })
}

/// The place of a fault of this kind among the tokens of a script, and the advice for it.
fn among_tokens(
    alloc: Global,
    script: &[u8],
    kind: FaultKind,
) -> Result<(usize, Option<Advice>), AllocError> {
    let tokens = tokens_of(alloc, script)?;
    let at = first_left(alloc, script, &tokens)?;
    let place = match tokens.get(at) {
        Some(token) => token.span.start as usize,
        None => script.len(),
    };
    let advice = match kind {
        FaultKind::IfNot => Some(Advice::IF_NOT),
        FaultKind::Unexpected => advice_at(alloc, script, &tokens, at)?,
        _ => None,
    };
    Ok((place, advice))
}

/// The tokens of a script; none if it has a fault before it has tokens.
#[tactic(auto, using(crate::proofs::Laws::lexed_are_spelled))]
fn tokens_of(alloc: Global, script: &[u8]) -> Result<Vec<Token>, AllocError>
    ensures { IfOk result (λ v. AreSpelled (lexemes (lexer.tokens_of script.now v.items))) }
{
    let Ok(text) = str::from_utf8(script) else {
        return Ok(Vec::new(alloc));
    };
    match lex(alloc, text) {
        Ok(tokens) => Ok(tokens),
        Err(InputError::Fault(_)) => Ok(Vec::new(alloc)),
        Err(InputError::NoMemory) => Err(AllocError),
    }
}

/// The index of the token at which the grammar refuses a script.
fn first_left(alloc: Global, script: &[u8], tokens: &[Token]) -> Result<usize, AllocError>
    requires { AreSpelled (lexemes (lexer.tokens_of script.now tokens.now)) }
{
    let source = Source { script, tokens };
    match rc_parser::script(alloc, Tokens::new(&source)) {
        Ok(_) => Ok(tokens.len()),
        Err(InputError::Fault(found)) => Ok(tokens.len().saturating_sub(found.left)),
        Err(InputError::NoMemory) => Err(AllocError),
    }
}
