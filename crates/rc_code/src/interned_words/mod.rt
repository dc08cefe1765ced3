//! The words of a code. Those that have the same text share one literal.

mod entries;
mod slots;

ghost use Rattle.std.specs.Prelude.{◌≡◌, ◌<◌, ◌++◌, ◌∷◌, [], true, length, IfOk, IfSome, OnErr, OnOk};
ghost use Rattle.rc_code.specs.Words.{IsWordAt, Extends, word_at, words_of};

use crate::instruction_numbers::in_32_bits;
use entries::Entry;
use rc_text::Literal;
use slots::{MOST_TRIES, Slots, hash};
use std::alloc::{AllocError, Global};
use std::rc::Rc;

/// Up to this many words are looked through one by one.
const FEW_WORDS: usize = 8;

/// The words of a code, by number.
#[derive(Drop)]
pub(crate) struct Words {
    entries: Vec<Entry>,
    slots: Slots,
}

/// Slots with the numbers of all these words.
fn slots_of(alloc: Global, entries: &[Entry], count: usize) -> Result<Slots, AllocError> {
    let mut slots = Slots::free(alloc, count)?;
    for (number, entry) in entries.iter().enumerate() {
        slots.put(entry.hash(), in_32_bits(number)?);
    }
    Ok(slots)
}

impl Words {
    /// No word yet.
    pub(crate) fn new(alloc: Global) -> Self
        ensures { words_of result ≡ [] }
    {
        Words {
            entries: Vec::new(alloc),
            slots: Slots::none(alloc),
        }
    }

    /// The word of this number.
    pub(crate) fn literal(&self, number: u32) -> &Rc<Literal>
        requires { number < length (words_of self.now) }
        ensures { result.now.value ≡ word_at (words_of self.now) number }
    {
        &self.entries[number as usize].literal
    }

    /// Whether this is the number of a word. It is never inlined, so that none of it is done before a number is found.
    #[inline(never)]
    fn is_word(&self, number: u32, text: &str, quoted: bool) -> bool
        ensures { result ≡ true → IsWordAt (words_of self.now) number (text.now, quoted) }
    {
        match self.entries.get(number as usize) {
            Some(entry) => entry.is_word(text, quoted),
            None => false,
        }
    }

    /// The number of a word among these. It is never inlined, since few codes have so few words.
    #[inline(never)]
    fn find_below(&self, end: u32, text: &str, quoted: bool) -> Option<u32>
        ensures { IfSome result (λ k. IsWordAt (words_of self.now) k (text.now, quoted)) }
    {
        for number in 0..end {
            if self.is_word(number, text, quoted) {
                return Some(number);
            }
        }
        None
    }

    /// The number of a word that is found by its hash.
    fn find_by_hash(&self, text: &str, quoted: bool) -> Option<u32>
        ensures { IfSome result (λ k. IsWordAt (words_of self.now) k (text.now, quoted)) }
    {
        let hash = hash(text, quoted);
        for tries in 0..MOST_TRIES {
            let number = self.slots.number(hash, tries)?;
            if self.is_word(number, text, quoted) {
                return Some(number);
            }
        }
        None
    }

    /// The number of a word, if it is found.
    fn find(&self, text: &str, quoted: bool) -> Option<u32>
        ensures { IfSome result (λ k. IsWordAt (words_of self.now) k (text.now, quoted)) }
    {
        match in_32_bits(self.entries.len()) {
            Ok(count) if self.slots.len() == 0 => self.find_below(count, text, quoted),
            _ => self.find_by_hash(text, quoted),
        }
    }

    /// One more word, and its number.
    fn add(&mut self, alloc: Global, text: &str, quoted: bool) -> Result<u32, AllocError>
        ensures number { IfOk result (λ k. k ≡ length (words_of self.old)) }
        ensures ok { OnOk result (words_of self.new ≡ words_of self.old ++ (text.now, quoted) ∷ []) }
        ensures err { OnErr result (words_of self.new ≡ words_of self.old) }
    {
        let number = in_32_bits(self.entries.len())?;
        self.entries.push(Entry::new(alloc, text, quoted)?)?;
        Ok(number)
    }

    /// Lets the last word be found. Half of the slots at least stay free.
    fn note(&mut self, alloc: Global, number: u32, hash: u32) -> Result<(), AllocError>
        ensures { words_of self.new ≡ words_of self.old }
    {
        let slots = self.slots.len();
        if self.entries.len() <= slots / 2 {
            self.slots.put(hash, number);
        } else if FEW_WORDS < self.entries.len() {
            let more = slots.max(FEW_WORDS).saturating_mul(4);
            self.slots = slots_of(alloc, &self.entries, more)?;
        }
        Ok(())
    }

    /// One more word, which can be found from now on, and its number. It is never inlined, since most words of a script
    /// were there before.
    #[inline(never)]
    fn add_noted(&mut self, alloc: Global, text: &str, quoted: bool) -> Result<u32, AllocError>
        ensures extends { Extends (words_of self.old) (words_of self.new) }
        ensures word { IfOk result (λ k. IsWordAt (words_of self.new) k (text.now, quoted)) }
    {
        let number = self.add(alloc, text, quoted)?;
        self.note(alloc, number, hash(text, quoted))?;
        Ok(number)
    }

    /// The number of a word, which becomes one of these if it was not found.
    pub(crate) fn number_of(
        &mut self,
        alloc: Global,
        text: &str,
        quoted: bool,
    ) -> Result<u32, AllocError>
        ensures extends { Extends (words_of self.old) (words_of self.new) }
        ensures word { IfOk result (λ k. IsWordAt (words_of self.new) k (text.now, quoted)) }
    {
        match self.find(text, quoted) {
            Some(number) => Ok(number),
            None => self.add_noted(alloc, text, quoted),
        }
    }
}
