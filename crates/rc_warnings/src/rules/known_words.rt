//! A first look at words, for whether a rule can be about them for their text.

use crate::foreign::{FOREIGN, LONGEST_WORD};
use crate::rules::functions::SIGNALS;

/// Words of letters that rules are about, besides those of other shells.
const WORDS: [&str; 14] = [
    "cd", "fn", "if", "in", "case", "eval", "exec", "flag", "from", "sudo", "nohup", "xargs",
    "import", "switch",
];

/// For each length, the first bytes of the words that rules are about, each as one of 32 bits.
#[derive(Clone, Copy)]
pub(crate) struct KnownWords([u32; LONGEST_WORD + 1]);

impl KnownWords {
    /// The words of all rules.
    pub(crate) fn new() -> KnownWords {
        let mut known = KnownWords([0; LONGEST_WORD + 1]);
        for (word, _) in &FOREIGN {
            known.add(word);
        }
        known.add_all(&WORDS);
        known.add_all(&SIGNALS);
        known
    }

    fn add_all(&mut self, words: &[&str]) {
        for word in words {
            self.add(word);
        }
    }

    fn add(&mut self, word: &str) {
        let bytes = word.as_bytes();
        if let (Some(first), Some(bits)) = (bytes.first(), self.0.get_mut(bytes.len())) {
            *bits |= bit(*first);
        }
    }

    /// Whether this may be one of the words: one of them has its length and its first byte, or one with the same bit.
    pub(crate) fn may_have(&self, word: &[u8]) -> bool {
        match (word.first(), self.0.get(word.len())) {
            (Some(first), Some(bits)) => bits & bit(*first) != 0,
            _ => false,
        }
    }
}

/// The bit of a byte.
fn bit(byte: u8) -> u32 {
    1 << (byte & 31)
}
