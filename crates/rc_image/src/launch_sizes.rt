//! The sizes of the arguments and entries of a launch.

ghost use Rattle.std.specs.Prelude.{◌≡◌};
ghost use Rattle.std.specs.List.{list_all};
ghost use Rattle.rc_model.specs.Handed.Image.{is_short};
ghost use Rattle.rc_text.specs.Texts.{text_bytes};

use rc_model::limits::LONGEST_ARGUMENT;
use rc_text::Text;

/// Whether an argument or an entry is short enough for a launch.
fn is_short(text: &str) -> bool
    ensures { result ≡ is_short text.now }
{
    text.len() <= LONGEST_ARGUMENT
}

/// Whether all arguments, or all entries, are short enough for a launch.
pub fn are_short(texts: &[Text]) -> bool
    ensures { result ≡ list_all (λ text. is_short (text_bytes text)) texts.now }
{
    texts.iter().all(|text| is_short(text.as_str()))
}
