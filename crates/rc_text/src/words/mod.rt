//! Words: characters, each of them marked or not.

pub(crate) mod concatenation;
pub(crate) mod few_runs;
pub(crate) mod lists;
pub(crate) mod literal;
pub(crate) mod marks;
pub(crate) mod quoting;
pub(crate) mod runs;

ghost use Rattle.std.specs.Prelude.{◌≡◌, [], ◌++◌, true, false, map, string_bytes};
ghost use Rattle.std.specs.Prelude.{IfOk, IsTrue, OnErr, OnOk, MatchOption};
ghost use Rattle.std.specs.Str.{chars};
ghost use Rattle.rc_model.specs.Syntax.Words.{has_pattern, unmarked, word_text, written};
ghost use Rattle.rc_text.specs.Literals.{marks};
ghost use Rattle.rc_text.specs.Texts.{text_bytes};
ghost use Rattle.rc_text.specs.Views.{word_of, AreMarked};

use crate::texts::Text;
use literal::{Ch, Literal};
use marks::Marks;
use std::alloc::{AllocError, Global};
use std::default::MadeWith;
use std::marker::Model;
use std::rc::Rc;

/// A word: characters, each of them marked or not.
pub struct Word {
    text: Text,
    marks: Marks,
}

impl Drop for Word {
    fn drop(self) {
        let Word { text: _, marks: _ } = self;
    }
}

impl Model for Word {
    ghost use Rattle.std.specs.Prelude.{ℕ, Bool, List};
    ghost use Rattle.rc_text.specs.Texts.{text_bytes};
    ghost use Rattle.rc_text.specs.Views.{word_of, AreMarked};

    ghost Value = { List (ℕ × Bool) };

    ghost view = { λ w. word_of (text_bytes w.text) w.marks };

    ghost invariant = { λ w. AreMarked (text_bytes w.text) w.marks };
}

impl Clone for Word {
    ghost use Rattle.std.specs.Prelude.{◌≡◌};

    ghost is_clone = { λ w v. v ≡ w };

    /// Copies the characters and their marks.
    fn clone(&self) -> Result<Word, AllocError> {
        let marks = self.marks.copied()?;
        let text = self.text.clone()?;
        Ok(Word { text, marks })
    }
}

impl MadeWith<Global> for Word {
    ghost use Rattle.std.specs.Prelude.{◌≡◌, []};

    ghost is_made_with = { λ w. w ≡ [] };

    fn made_with(_alloc: Global) -> Word {
        Word::empty()
    }
}

/// Joins two texts.
pub fn joined_text(alloc: Global, left: &str, right: &str) -> Result<String, AllocError>
    ensures { IfOk result (λ text. string_bytes text ≡ left.now ++ right.now) }
{
    let size = left.len().saturating_add(right.len());
    let mut text = String::with_capacity(alloc, size)?;
    text.push_str(left)?;
    text.push_str(right)?;
    Ok(text)
}

impl Word {
    /// The word with no characters.
    pub(crate) fn empty() -> Word
        ensures { result ≡ [] }
    {
        Word::plain(Text::new())
    }

    /// A text of which no character is marked.
    pub fn plain(text: Text) -> Word
        ensures { result ≡ written (text_bytes text) true }
    {
        let marks = Marks::one(false);
        Word { text, marks }
    }

    /// A word of a script. Each character of an unquoted one is marked, and none of a quoted one.
    pub fn written(alloc: Global, text: &str, quoted: bool) -> Result<Word, AllocError>
        ensures { IfOk result (λ word. word ≡ written text.now quoted) }
    {
        let literal = Literal::new(alloc, text, quoted)?;
        Word::of_literal(&literal)
    }

    /// A word that shares what is long with its literal. It fails only if that has too many owners.
    pub fn literal(literal: &Rc<Literal>) -> Result<Word, AllocError>
        ensures { IfOk result (λ word. word ≡ written literal.now.value.0 literal.now.value.1) }
    {
        Word::of_literal(literal)
    }

    fn of_literal(literal: &Literal) -> Result<Word, AllocError>
        ensures { IfOk result (λ word. word ≡ written literal.now.0 literal.now.1) }
    {
        let marks = literal.marks().copied()?;
        let text = literal.shared_text()?;
        Ok(Word { text, marks })
    }

    /// Joins two words.
    pub(crate) fn joined(alloc: Global, left: &Word, right: &Word) -> Result<Word, AllocError>
        ensures { IfOk result (λ word. word ≡ left.now ++ right.now) }
    {
        let next = right.text.as_str();
        let marks = left
            .marks
            .joined(alloc, left.text.as_str(), &right.marks, next)?;
        let text = left.text.joined(alloc, next)?;
        Ok(Word { text, marks })
    }

    /// Appends a text with these marks: in place, if no other has the text. After an error the word is as before.
    fn push(&mut self, alloc: Global, next: &str, next_marks: &Marks) -> Result<(), AllocError>
        requires { AreMarked next.now next_marks.now }
        ensures ok { OnOk result (self.new ≡ self.old ++ word_of next.now next_marks.now) }
        ensures err { OnErr result (self.new ≡ self.old) }
    {
        if self.marks.go_on(next_marks) {
            return self.text.push_str(alloc, next);
        }
        let front = &self.text;
        let marks = self.marks.joined(alloc, front.as_str(), next_marks, next)?;
        self.text.push_str(alloc, next)?;
        self.marks = marks;
        Ok(())
    }

    /// Appends a text of which no character is marked. After an error the word is as before.
    pub fn push_text(&mut self, alloc: Global, next: &str) -> Result<(), AllocError>
        ensures ok { OnOk result (self.new ≡ self.old ++ written next.now true) }
        ensures err { OnErr result (self.new ≡ self.old) }
    {
        self.push(alloc, next, &Marks::one(false))
    }

    /// Appends a word of a script. After an error the word is as before.
    pub fn push_literal(&mut self, alloc: Global, next: &Literal) -> Result<(), AllocError>
        ensures ok { OnOk result (self.new ≡ self.old ++ written next.now.0 next.now.1) }
        ensures err { OnErr result (self.new ≡ self.old) }
    {
        self.push(alloc, next.text(), next.marks())
    }

    /// Appends the characters of another word. After an error the word is as before.
    pub fn append(&mut self, alloc: Global, next: &Word) -> Result<(), AllocError>
        ensures ok { OnOk result (self.new ≡ self.old ++ next.now) }
        ensures err { OnErr result (self.new ≡ self.old) }
    {
        self.push(alloc, next.text.as_str(), &next.marks)
    }

    /// The characters without their marks.
    pub fn text(&self) -> &str
        ensures text { result.now ≡ word_text self.now }
        ensures characters { chars result.now ≡ map (λ m. m.0) self.now }
    {
        self.text.as_str()
    }

    /// The text, which is let go of by the word.
    fn take_text(self) -> Text
        ensures text { text_bytes result ≡ word_text self }
        ensures characters { chars (text_bytes result) ≡ map (λ m. m.0) self }
    {
        let Word { text, marks: _ } = self;
        text
    }

    /// Returns the characters without their marks.
    pub fn into_text(self) -> Result<Text, AllocError>
        ensures { IfOk result (λ text. text_bytes text ≡ word_text self) }
    {
        Ok(self.take_text())
    }

    /// Whether it is known, without a look at the characters, that none of them is marked.
    pub fn is_plain(&self) -> bool
        ensures { IsTrue result → unmarked self.now ≡ self.now }
    {
        self.marks.is_plain()
    }

    /// Removes the marks.
    pub fn unmarked(self) -> Result<Word, AllocError>
        ensures { IfOk result (λ word. word ≡ unmarked self) }
    {
        Ok(Word::plain(self.take_text()))
    }

    /// The characters, if there is a pattern character among them.
    pub fn pattern(&self) -> Option<&[Ch]>
        ensures { MatchOption result (has_pattern self.now ≡ false)
            (λ chars. (marks chars.now ≡ self.now) × (has_pattern self.now ≡ true)) }
    {
        self.marks.pattern()
    }

    /// Whether there is a marked `*`, `?` or `[` among the characters.
    pub fn has_pattern(&self) -> bool
        ensures { result ≡ has_pattern self.now }
    {
        self.pattern().is_some()
    }
}
