//! What the words of a script say, and their nodes.

ghost use Rattle.std.specs.Prelude.{◌≡◌, IfOk, IfSome, IsUtf8, true, false};
ghost use Rattle.rc_model.specs.Syntax.Grammar.{is_case, keyword};
ghost use Rattle.rc_model.specs.Syntax.HereDocs.{pieces_of};
ghost use Rattle.rc_model.specs.Syntax.Tokens.{unquoted_text};
ghost use Rattle.rc_model.specs.Syntax.Tree as t;
ghost use Rattle.rc_tree.specs.View.{arg_tree, redir_tree};
ghost use Rattle.rc_parser.specs.Results.{Gives};
ghost use Rattle.rc_parser.specs.Reading.{here_doc_by, literal};
ghost use Rattle.rc_parser.specs.Keywords.{begins_keyword};
ghost use Rattle.rc_parser.specs.Tokens.{lexemes_of};

use crate::here_pieces::pieces;
use crate::token_stream::Tokens;
use crate::token_stream::token_faults::{TokenError, fault_at};
use rc_lexer::TokenKind;
use rc_model::{DescentFault, Keyword};
use rc_text::unquote;
use rc_tree::{Arg, LiteralText, Redir};
use std::alloc::{AllocError, Global};
use std::str;

/// Whether a keyword has this length and begins with this byte.
fn begins_keyword(len: usize, first: u8) -> bool
    ensures { result ≡ begins_keyword len first }
{
    match first {
        b'~' | b'!' | b'@' => len == 1,
        b'i' => len == 2,
        b'f' => len == 2 || len == 3,
        b'n' => len == 3,
        b'w' => len == 5,
        b's' => len == 6,
        _ => false,
    }
}

/// Which keyword an unquoted word is, by looking at each of them. It is never inlined, since few words come so far.
#[inline(never)]
fn compared_keyword(word: &[u8]) -> Keyword
    ensures { result ≡ keyword word.now }
{
    if word == "for".as_bytes() {
        Keyword::For
    } else if word == "in".as_bytes() {
        Keyword::In
    } else if word == "while".as_bytes() {
        Keyword::While
    } else if word == "if".as_bytes() {
        Keyword::If
    } else if word == "not".as_bytes() {
        Keyword::Not
    } else if word == "switch".as_bytes() {
        Keyword::Switch
    } else if word == "fn".as_bytes() {
        Keyword::Fn
    } else if word == "~".as_bytes() {
        Keyword::Match
    } else if word == "!".as_bytes() {
        Keyword::Bang
    } else if word == "@".as_bytes() {
        Keyword::At
    } else {
        Keyword::Plain
    }
}

/// Which keyword an unquoted word is. Most words are known to be none by their length and their first byte.
#[inline(always)]
#[tactic(auto, using(crate::proofs::Keywords::no_first))]
pub(crate) fn keyword_of(word: &[u8]) -> Keyword
    ensures { result ≡ keyword word.now }
{
    if word.is_empty() || !begins_keyword(word.len(), word[0]) {
        return Keyword::Plain;
    }
    compared_keyword(word)
}

/// Whether an unquoted word begins a case line.
pub(crate) fn is_case(word: &[u8]) -> bool
    ensures { result ≡ is_case word.now }
{
    word == "case".as_bytes()
}

/// These bytes as text. They are known to be UTF-8, so nothing is tested.
fn text_of(bytes: &[u8]) -> &str
    requires { IsUtf8 bytes.now }
    ensures { result.now ≡ bytes.now }
{
    unsafe { str::from_utf8_unchecked(bytes) }
}

/// The node of a literal with these bytes.
#[tactic(auto, using(rc_tree::specs::View::tree_Lit, std::proofs::lemmas::Grind::common_steps))]
fn literal_node(alloc: Global, bytes: &[u8], quoted: bool) -> Result<Arg, AllocError>
    requires { IsUtf8 bytes.now }
    ensures { IfOk result (λ b. arg_tree b ≡ t.Lit bytes.now quoted) }
{
    Ok(Arg::Lit {
        quoted,
        text: LiteralText::of(alloc, text_of(bytes))?,
    })
}

/// The bytes between the quotes of a word, if they are its text: if no quote is doubled there.
#[tactic(auto, using(crate::proofs::Unquoted::text_within))]
fn text_within(word: &[u8]) -> Option<&[u8]>
    ensures { IfSome result (λ text. text.now ≡ unquoted_text word.now) }
{
    let (_, rest) = word.split_first()?;
    let (last, text) = rest.split_last()?;
    if *last == b'\'' && !text.contains(&b'\'') {
        Some(text)
    } else {
        None
    }
}

/// The node of a quoted word.
fn quoted(alloc: Global, word: &[u8]) -> Result<Arg, AllocError>
    requires { IsUtf8 (unquoted_text word.now) }
    ensures { IfOk result (λ b. arg_tree b ≡ t.Lit (unquoted_text word.now) true) }
{
    match text_within(word) {
        Some(text) => literal_node(alloc, text, true),
        None => literal_node(alloc, &unquote(alloc, word)?, true),
    }
}

/// An unquoted word or a name, with the tokens after it. It is never inlined into the descent, so that its node takes
/// no stack at each level of nesting; nor is `parse_quoted`.
#[inline(never)]
pub(crate) fn parse_plain<'a>(
    alloc: Global,
    word: &[u8],
    rest: Tokens<'a>,
) -> Result<(Arg, Tokens<'a>), TokenError>
    requires { IsUtf8 word.now }
    ensures { Gives (λ x. (arg_tree x.0, lexemes_of x.1)) result (literal word.now false (lexemes_of rest.entry)) }
{
    Ok((literal_node(alloc, word, false)?, rest))
}

/// A quoted word, with the tokens after it.
#[inline(never)]
pub(crate) fn parse_quoted<'a>(
    alloc: Global,
    word: &[u8],
    rest: Tokens<'a>,
) -> Result<(Arg, Tokens<'a>), TokenError>
    requires { IsUtf8 (unquoted_text word.now) }
    ensures { Gives (λ x. (arg_tree x.0, lexemes_of x.1)) result
        (literal (unquoted_text word.now) true (lexemes_of rest.entry)) }
{
    Ok((quoted(alloc, word)?, rest))
}

/// The node of a here document, whose mark is quoted or not.
#[tactic(auto, using(rc_tree::specs::View::tree_Here, std::proofs::lemmas::Grind::common_steps))]
fn here(alloc: Global, quoted: bool, body: &[u8]) -> Result<Redir, AllocError>
    requires { IsUtf8 body.now }
    ensures { IfOk result (λ b. redir_tree b ≡ t.Here (pieces_of quoted body.now)) }
{
    let pieces = pieces(alloc, quoted, text_of(body))?;
    Ok(Redir::Here(pieces))
}

/// A here document.
#[tactic(auto, using(crate::proofs::Spelled::said))]
pub(crate) fn parse_here_doc(
    alloc: Global,
    tokens: Tokens<'_>,
) -> Result<(Redir, Tokens<'_>), TokenError>
    ensures { Gives (λ x. (redir_tree x.0, lexemes_of x.1)) result (here_doc_by (lexemes_of tokens.entry)) }
{
    match tokens.first() {
        Some((TokenKind::HereDoc { is_quoted, body }, _, rest)) => {
            Ok((here(alloc, is_quoted, tokens.part(body))?, rest))
        }
        _ => Err(fault_at(DescentFault::Unexpected, tokens)),
    }
}
