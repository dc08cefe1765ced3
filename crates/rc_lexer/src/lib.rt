//! The lexer: the tokens of a script, whole or in pieces. Their definition follows rc(1), the manual page of Plan 9's
//! shell, and Tom Duff's paper "Rc - The Plan 9 Shell".
#![tactic(auto)]

ghost use Rattle.std.specs.Prelude.{◌≡◌};

mod byte_classes;
mod lexer;
mod lexer_state;
mod operators;
mod pieces;
mod plain;
mod previous;

pub use lexer::{Lexer, lex};
pub use pieces::{Pieces, lex_bytes};
use rc_model::{FaultKind, InputError, Mode, SyntaxFault};

/// A part of the script, in bytes.
#[derive(Clone, Copy, Debug, PartialEq)]
pub struct Span {
    pub start: u32,
    pub stop: u32,
}

/// The kind of a token. Its text is the slice of the script at its span.
#[derive(Clone, Copy, PartialEq)]
pub enum TokenKind {
    Word,
    Quoted,
    Semicolon,
    Ampersand,
    Newline,
    AndAnd,
    OrOr,
    /// `|`, with the descriptor that goes into the pipe.
    Bar(u8),
    Caret,
    /// A `^` that is inserted between two tokens. Its span is empty.
    FreeCaret,
    Equals,
    LeftParen,
    RightParen,
    LeftBrace,
    RightBrace,
    Backquote,
    Redirection(Mode, u8),
    CopyTo { to: u8, from: u8 },
    /// `<<` with its mark, whether that is quoted, and the span of the body.
    HereDoc { is_quoted: bool, body: Span },
    Dollar,
    DollarCount,
    DollarFlat,
    Name,
    Subscript,
    /// A `$` without a name.
    BareDollar,
    /// A `<<` without a mark.
    BareHere,
}

/// A token, with the line where it begins, in 24 bytes. Lines count from 1. A place has 32 bits.
#[derive(Clone, Copy, PartialEq)]
pub struct Token {
    pub kind: TokenKind,
    pub span: Span,
    pub line: u32,
}

const _: () = prove!(size_of::<Token>() == 24);

/// Why a script has no tokens, or no tree: its first fault, or memory ran out.
pub type ScriptError = InputError<SyntaxFault>;

/// Returns the fault of this kind at this line.
fn fault(kind: FaultKind, line: usize) -> ScriptError
    ensures { result ≡ InputError.Fault (record { kind = kind; line = line }) }
{
    InputError::Fault(SyntaxFault { kind, line })
}
