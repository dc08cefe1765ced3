//! Literal words: those that a script has. All evaluations of a word share its literal.

ghost use Rattle.std.specs.Prelude.{◌≡◌, ◌++◌, false, true, map, IfOk, MatchOption, OnOk};
ghost use Rattle.std.specs.List.{list_any};
ghost use Rattle.std.specs.Str.{chars};
ghost use Rattle.rc_model.specs.Syntax.Words.{has_pattern, is_pattern, is_pattern_char, written};
ghost use Rattle.rc_text.specs.Literals.{mark_of, marks};
ghost use Rattle.rc_text.specs.Views.{is_quoted_by, word_of, AreMarked};

use crate::texts::Text;
use crate::words::marks::Marks;
use std::alloc::{AllocError, Global};
use std::marker::Model;

/// A character of a word. If `pat` marks it, it may be a pattern character.
#[derive(Clone, Copy)]
pub struct Ch {
    pub c: char,
    pub pat: bool,
}

/// A word of a script: a text, and its marks, which its words share.
pub struct Literal {
    text: Text,
    marks: Marks,
}

impl Drop for Literal {
    fn drop(self) {
        let Literal { text: _, marks: _ } = self;
    }
}

impl Model for Literal {
    ghost use Rattle.std.specs.Prelude.{◌≡◌, ℕ, Bool, List};
    ghost use Rattle.rc_model.specs.Syntax.Words.{written};
    ghost use Rattle.rc_text.specs.Texts.{text_bytes};
    ghost use Rattle.rc_text.specs.Views.{is_quoted_by, word_of, AreMarked};

    ghost Value = { List ℕ × Bool };

    ghost view = { λ l. (text_bytes l.text, is_quoted_by l.marks) };

    ghost invariant = { λ l. AreMarked (text_bytes l.text) l.marks
        × (word_of (text_bytes l.text) l.marks ≡ written (text_bytes l.text) (is_quoted_by l.marks)) };
}

fn is_pattern_char(c: char) -> bool
    ensures { result ≡ is_pattern_char c }
{
    matches!(c, '*' | '?' | '[')
}

fn has_pattern_char(text: &str) -> bool
    ensures { result ≡ list_any is_pattern_char (chars text.now) }
{
    text.chars().any(|c| is_pattern_char(c))
}

/// Whether a character is a marked `*`, `?` or `[`.
fn is_pattern(ch: Ch) -> bool
    ensures { result ≡ is_pattern (mark_of ch) }
{
    ch.pat && is_pattern_char(ch.c)
}

/// Whether there is a marked `*`, `?` or `[` among the characters.
pub fn any_pattern(chars: &[Ch]) -> bool
    ensures { result ≡ has_pattern (marks chars.now) }
{
    chars.iter().any(|ch| is_pattern(*ch))
}

/// Adds the characters of the text, all marked or none.
pub(crate) fn push_text(all: &mut Vec<Ch>, text: &str, pat: bool) -> Result<(), AllocError>
    ensures { OnOk result (marks all.new.items ≡ marks all.old.items ++ map (λ c. (c, pat)) (chars text.now)) }
{
    all.extend(text.chars().map(|c| Ch { c, pat }))
}

/// The characters of the text, all marked.
fn all_marked(alloc: Global, text: &str) -> Result<Vec<Ch>, AllocError>
    ensures { IfOk result (λ all. marks all.items ≡ written text.now false) }
{
    let mut all = Vec::with_capacity(alloc, text.len())?;
    push_text(&mut all, text, true)?;
    Ok(all)
}

/// The marks of a word of this text. Each character of an unquoted one is marked, and none of a quoted one.
#[tactic(auto, using(crate::proofs::LiteralMarks::patterns_of))]
fn written_marks(alloc: Global, text: &str, quoted: bool) -> Result<Marks, AllocError>
    ensures { IfOk result (λ all. AreMarked text.now all
        × (word_of text.now all ≡ written text.now quoted) × (is_quoted_by all ≡ quoted)) }
{
    if quoted || !has_pattern_char(text) {
        return Ok(Marks::one(!quoted));
    }
    Marks::of_pattern(alloc, all_marked(alloc, text)?)
}

impl Literal {
    ghost use Rattle.rc_text.specs.Texts.{text_bytes};

    /// A word of this text. Each character of an unquoted one is marked, and none of a quoted one.
    pub fn new(alloc: Global, text: &str, quoted: bool) -> Result<Literal, AllocError>
        ensures { IfOk result (λ literal. literal ≡ (text.now, quoted)) }
    {
        let marks = written_marks(alloc, text, quoted)?;
        let text = Text::of(alloc, text)?;
        Ok(Literal { text, marks })
    }

    /// The text without its quotes.
    pub fn text(&self) -> &str
        ensures { result.now ≡ self.now.0 }
    {
        self.text.as_str()
    }

    /// The text without its quotes, shared. It fails only if it has too many owners.
    pub(crate) fn shared_text(&self) -> Result<Text, AllocError>
        ensures { IfOk result (λ text. text_bytes text ≡ self.now.0) }
    {
        self.text.clone()
    }

    /// The marks of the characters.
    pub(crate) fn marks(&self) -> &Marks
        ensures fit { AreMarked self.now.0 result.now }
        ensures word { word_of self.now.0 result.now ≡ written self.now.0 self.now.1 }
    {
        &self.marks
    }

    /// The characters, if there is a pattern character among them.
    pub fn pattern(&self) -> Option<&[Ch]>
        ensures { MatchOption result (has_pattern (written self.now.0 self.now.1) ≡ false)
            (λ chars. (marks chars.now ≡ written self.now.0 self.now.1)
            × (has_pattern (written self.now.0 self.now.1) ≡ true)) }
    {
        self.marks.pattern()
    }
}
