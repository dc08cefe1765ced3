//! Lists of words.
ghost use Rattle.std.specs.Prelude.{◌≡◌, [], ◌∷◌, ◌++◌, true, false, length, map, string_bytes, IfOk, OnOk, OnErr};
ghost use Rattle.rc_model.specs.Syntax.Words.{plain_words, spaced_words, unmarked, word_texts, written};
ghost use Rattle.rc_text.specs.Texts.{text_bytes};

use crate::texts::Text;
use crate::words::Word;
use smallvec::SmallVec;
use std::alloc::{AllocError, Global};
use std::marker::Model;

/// A list of words. Up to eight of them need no allocation of their own.
pub struct List(SmallVec<Word, 8>);

impl Drop for List {
    fn drop(self) {
        let List(_) = self;
    }
}

impl Model for List {
    ghost use Rattle.std.specs.Prelude.{ℕ, Bool, List};

    ghost Value = { List (List (ℕ × Bool)) };

    ghost view = { λ l. l.0.items };
}

impl List {
    /// The list with no words.
    pub fn new(alloc: Global) -> List
        ensures { result ≡ [] }
    {
        List(SmallVec::new(alloc))
    }

    /// The list with no words, and with room for this many.
    pub(crate) fn with_capacity(alloc: Global, count: usize) -> Result<List, AllocError>
        ensures { IfOk result (λ list. list ≡ []) }
    {
        Ok(List(SmallVec::with_capacity(alloc, count)?))
    }

    /// Texts as words with no marks.
    pub fn plain(alloc: Global, texts: Vec<Text>) -> Result<List, AllocError>
        ensures { IfOk result (λ list. list ≡ plain_words (map text_bytes texts.items)) }
    {
        let mut words = SmallVec::with_capacity(alloc, texts.len())?;
        for text in texts {
            words.push(Word::plain(text))?;
        }
        Ok(List(words))
    }

    pub fn words(&self) -> &[Word]
        ensures { result.now ≡ self.now }
    {
        self.0.as_slice()
    }

    /// Returns the words by themselves.
    pub fn into_words(self) -> Result<Vec<Word>, AllocError>
        ensures { IfOk result (λ words. words.items ≡ self) }
    {
        let List(words) = self;
        words.into_vec().map_err(|_| AllocError)
    }

    /// Adds a word at the end.
    pub fn push(&mut self, word: Word) -> Result<(), AllocError>
        ensures ok { OnOk result (self.new ≡ self.old ++ word ∷ []) }
        ensures err { OnErr result (self.new ≡ self.old) }
    {
        self.0.push(word)?;
        Ok(())
    }

    /// Adds the words of another list at the end.
    pub fn append(&mut self, other: List) -> Result<(), AllocError>
        ensures ok { OnOk result (self.new ≡ self.old ++ other) }
        ensures err { OnErr result (self.new ≡ self.old) }
    {
        let List(mut words) = other;
        if self.0.is_empty() {
            self.0 = words;
            return Ok(());
        }
        self.0.append(&mut words)
    }

    /// The texts of the words.
    pub fn into_texts(self, alloc: Global) -> Result<Vec<String>, AllocError>
        ensures { IfOk result (λ texts. map string_bytes texts.items ≡ word_texts self) }
    {
        let mut texts = Vec::with_capacity(alloc, self.words().len())?;
        for word in self.into_words()? {
            texts.push(word.into_text()?.into_string(alloc)?)?;
        }
        Ok(texts)
    }
}

/// The words joined by spaces, with no marks.
pub fn spaced_unmarked(alloc: Global, words: &[Word]) -> Result<Word, AllocError>
    ensures { IfOk result (λ joined. joined ≡ unmarked (spaced_words words.now)) }
{
    let mut joined = String::new(alloc);
    let Some((first, others)) = words.split_first() else {
        return Ok(Word::empty());
    };
    push_text(&mut joined, first)?;
    for word in others {
        push_spaced(&mut joined, word)?;
    }
    Ok(Word::plain(Text::from_string(alloc, joined)?))
}

fn push_text(joined: &mut String, word: &Word) -> Result<(), AllocError>
    ensures { OnOk result (written (string_bytes joined.new) true
        ≡ written (string_bytes joined.old) true ++ unmarked word.now) }
{
    joined.push_str(word.text())
}

fn push_spaced(joined: &mut String, word: &Word) -> Result<(), AllocError>
    ensures { OnOk result (written (string_bytes joined.new) true
        ≡ written (string_bytes joined.old) true ++ (32, false) ∷ unmarked word.now) }
{
    joined.push(' ')?;
    push_text(joined, word)
}

/// The number of words.
pub fn count(list: &List) -> usize
    ensures { result ≡ length list.now }
{
    list.words().len()
}
