//! Values as texts.
ghost use Rattle.std.specs.Prelude.{◌≡◌, map, string_bytes, IfOk};
ghost use Rattle.rc_model.specs.Run.State.{is_true};
ghost use Rattle.rc_model.specs.Syntax.Text.{spaced};
ghost use Rattle.rc_text.specs.Texts.{text_bytes};

use crate::texts::Text;
use std::alloc::{AllocError, Global};

/// Joins the members by spaces.
pub fn flat(alloc: Global, value: &[Text]) -> Result<String, AllocError>
    ensures { IfOk result (λ text. string_bytes text ≡ spaced (map text_bytes value.now)) }
{
    let mut text = String::new(alloc);
    let Some((first, others)) = value.split_first() else {
        return Ok(text);
    };
    text.push_str(first.as_str())?;
    for member in others {
        text.push(' ')?;
        text.push_str(member.as_str())?;
    }
    Ok(text)
}

/// Whether each character of a status is `0` or `|`.
pub fn is_true(status: &str) -> bool
    ensures { result ≡ is_true status.now }
{
    status.bytes().all(|b| b == b'0' || b == b'|')
}
