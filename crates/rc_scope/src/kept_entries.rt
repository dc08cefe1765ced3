//! Entries of an environment that are kept between launches.

ghost use Rattle.std.specs.Prelude.{◌≡◌, ◌++◌, IfOk, IfSome};
ghost use Rattle.rc_model.specs.Handed.Image.{entry};
ghost use Rattle.rc_text.specs.Texts.{text_bytes};
ghost use Rattle.rc_scope.specs.KeptEntries.{kept_text};

use rc_text::Text;
use std::alloc::AllocError;

/// An entry of an environment, with the place where the text of a value, or the image of a function, begins in it.
pub struct KeptEntry {
    pub entry: Text,
    pub start: usize,
}

impl Drop for KeptEntry {
    fn drop(self) {
        let KeptEntry { entry: _, start: _ } = self;
    }
}

impl KeptEntry {
    /// The entry, if nothing but this mark, this name and `=` stands before the text in it.
    pub(crate) fn named(&self, mark: &str, name: &str) -> Option<&Text>
        ensures { IfSome result (λ kept. text_bytes kept.now ≡ entry (mark.now ++ name.now, kept_text self.now)) }
    {
        let whole = self.entry.as_str();
        let after_mark = whole.strip_prefix(mark)?;
        let after_name = after_mark.strip_prefix(name)?;
        let [b'=', text @ ..] = after_name.as_bytes() else {
            return None;
        };
        if whole.len() - text.len() == self.start {
            Some(&self.entry)
        } else {
            None
        }
    }

    /// An entry with the same text, which is shared.
    pub(crate) fn copy(&self) -> Result<KeptEntry, AllocError>
        ensures { IfOk result (λ copy. kept_text copy ≡ kept_text self.now) }
    {
        Ok(KeptEntry {
            entry: self.entry.clone()?,
            start: self.start,
        })
    }
}
