//! Lists of texts.

ghost use Rattle.std.specs.Prelude.{◌≡◌, ◌∷◌, ◌++◌, [], IfOk, OnOk, map, string_bytes};
ghost use Rattle.rc_text.specs.Texts.{text_bytes};

use rc_text::Text;
use std::alloc::{AllocError, Global};

/// This item alone.
pub(crate) fn one<T: Drop>(alloc: Global, item: T) -> Result<Vec<T>, AllocError>
    ensures { IfOk result (λ list. list.items ≡ item ∷ []) }
{
    let mut list = Vec::with_capacity(alloc, 1)?;
    list.push(item)?;
    Ok(list)
}

/// Adds these texts, which are shared.
pub(crate) fn push_copies(out: &mut Vec<Text>, texts: &[Text]) -> Result<(), AllocError>
    ensures { OnOk result
        (map text_bytes out.new.items ≡ map text_bytes out.old.items ++ map text_bytes texts.now) }
{
    for text in texts {
        out.push(text.clone()?)?;
    }
    Ok(())
}

/// Adds these words. A long one keeps its string and is not copied.
pub(crate) fn push_words(out: &mut Vec<Text>, words: Vec<String>) -> Result<(), AllocError>
    ensures { OnOk result
        (map text_bytes out.new.items ≡ map text_bytes out.old.items ++ map string_bytes words.items) }
{
    let alloc = *words.allocator();
    for word in words {
        out.push(Text::from_string(alloc, word)?)?;
    }
    Ok(())
}
