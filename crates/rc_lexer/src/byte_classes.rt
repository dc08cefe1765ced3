//! The class of a byte outside of quotes and comments.

ghost use Rattle.std.specs.Prelude.{◌≡◌};
ghost use Rattle.rc_model.specs.Syntax.Tokens.{is_name_char};
ghost use Rattle.rc_lexer.specs.Spans.{alone_kind, byte_class};

use crate::TokenKind;

/// The class of a byte outside of quotes and comments.
#[derive(Clone, Copy)]
pub(crate) enum ByteClass {
    /// An operator of one byte that begins no other operator.
    Alone,
    /// The first byte of the other operators.
    Begins,
    Blank,
    LineEnd,
    Hash,
    Quote,
    Backslash,
    Ordinary,
}

/// Returns the class of a byte.
#[inline(always)]
pub(crate) fn class_of(b: u8) -> ByteClass
    ensures { result ≡ byte_class b }
{
    match b {
        b';' | b'^' | b'=' | b'(' | b')' | b'{' | b'}' | b'`' => ByteClass::Alone,
        b'&' | b'|' | b'>' | b'<' | b'$' => ByteClass::Begins,
        b' ' | b'\t' => ByteClass::Blank,
        b'\n' => ByteClass::LineEnd,
        b'#' => ByteClass::Hash,
        b'\'' => ByteClass::Quote,
        b'\\' => ByteClass::Backslash,
        _ => ByteClass::Ordinary,
    }
}

/// The token of a byte that stands alone.
#[inline(always)]
pub(crate) fn alone_kind(b: u8) -> TokenKind
    ensures { result ≡ alone_kind b }
{
    match b {
        b';' => TokenKind::Semicolon,
        b'^' => TokenKind::Caret,
        b'=' => TokenKind::Equals,
        b'(' => TokenKind::LeftParen,
        b')' => TokenKind::RightParen,
        b'{' => TokenKind::LeftBrace,
        b'}' => TokenKind::RightBrace,
        _ => TokenKind::Backquote,
    }
}

/// Whether the byte is allowed in an unquoted name.
pub(crate) fn is_name_byte(b: u8) -> bool
    ensures { result ≡ is_name_char b }
{
    b.is_ascii_alphanumeric() || b == b'_' || b == b'*'
}
