//! A word of a code.

ghost use Rattle.std.specs.Prelude.{◌≡◌, true, IfOk};

use crate::interned_words::slots::hash;
use rc_text::Literal;
use std::alloc::{AllocError, Global};
use std::rc::Rc;

/// A word, which all its evaluations share, and whether it is quoted.
#[derive(Drop)]
pub(crate) struct Entry {
    pub(crate) literal: Rc<Literal>,
    quoted: bool,
    ghost same: { literal.value.1 ≡ quoted },
}

impl Entry {
    pub(crate) fn new(alloc: Global, text: &str, quoted: bool) -> Result<Entry, AllocError>
        ensures { IfOk result (λ entry. entry.literal.value ≡ (text.now, quoted)) }
    {
        let literal = Literal::new(alloc, text, quoted)?;
        Ok(Entry {
            literal: Rc::new(alloc, literal)?,
            quoted,
        })
    }

    /// Whether it is this word.
    #[inline(always)]
    pub(crate) fn is_word(&self, text: &str, quoted: bool) -> bool
        ensures { result ≡ true → self.now.literal.value ≡ (text.now, quoted) }
    {
        self.quoted == quoted && self.literal.text() == text
    }

    pub(crate) fn hash(&self) -> u32 {
        hash(self.literal.text(), self.quoted)
    }
}
