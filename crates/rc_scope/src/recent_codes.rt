//! The code of the texts that ran last as scripts: what runs again is not parsed again.

ghost use Rattle.std.specs.Prelude.{◌≡◌, [], string_bytes, IfOk, IfSome};
ghost use Rattle.rc_scope.specs.CompiledTexts.{IsCodeOfText};

use rc_code::Code;
use std::alloc::{AllocError, Global};
use std::marker::Model;

/// Of how many texts the code is kept.
const MOST_TEXTS: usize = 8;

/// How many bytes a text may have if its code is kept.
const LONGEST_TEXT: usize = 8192;

/// A text with its code.
#[derive(Drop)]
pub(crate) struct CompiledText {
    text: String,
    code: Code,
}

impl Model for CompiledText {
    ghost use Rattle.std.specs.Prelude.{ℕ, List, string_bytes};
    ghost use Rattle.rc_scope.specs.CompiledTexts.{IsCodeOfText};

    ghost Value = { List ℕ };

    ghost view = { λ c. string_bytes c.text };

    ghost invariant = { λ c. IsCodeOfText (string_bytes c.text) c.code };
}

impl CompiledText {
    /// The code, if it is that of this text.
    fn code_of(&self, text: &str) -> Result<Option<Code>, AllocError>
        ensures { IfOk result (λ found. IfSome found (λ code. IsCodeOfText text.now code)) }
    {
        if self.text.as_str() == text {
            return Ok(Some(self.code.clone()?));
        }
        Ok(None)
    }
}

/// The texts that ran last, with their code. Few are kept, and no long one, so that a shell that runs ever new texts
/// needs no more memory than for those.
#[derive(Drop)]
pub(crate) struct RecentCodes {
    texts: Vec<CompiledText>,
}

impl RecentCodes {
    /// No texts.
    pub(crate) fn new(alloc: Global) -> RecentCodes
        ensures { result.texts.items ≡ [] }
    {
        RecentCodes {
            texts: Vec::new(alloc),
        }
    }

    /// The code of a text, if it is one of those that ran last.
    pub(crate) fn find(&self, text: &str) -> Result<Option<Code>, AllocError>
        ensures { IfOk result (λ found. IfSome found (λ code. IsCodeOfText text.now code)) }
    {
        for recent in &self.texts {
            if let Some(code) = recent.code_of(text)? {
                return Ok(Some(code));
            }
        }
        Ok(None)
    }

    /// Keeps the code of a text, unless the text is long. The oldest of too many goes.
    pub(crate) fn keep(&mut self, text: String, code: &Code) -> Result<(), AllocError>
        requires { IsCodeOfText (string_bytes text) code.now }
    {
        if text.len() > LONGEST_TEXT {
            return Ok(());
        }
        if self.texts.len() >= MOST_TEXTS {
            self.texts.remove(0);
        }
        let code = code.clone()?;
        self.texts.push(CompiledText { text, code })?;
        Ok(())
    }
}
