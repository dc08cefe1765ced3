//! The texts of literals.

ghost use Rattle.std.specs.Prelude.{◌≡◌};
ghost use Rattle.std.specs.Str.{IsUtf8};
ghost use Rattle.rc_tree.specs.Rooms.{bytes_in};

use arrayvec::ArrayString;
use std::alloc::{AllocError, Global};

/// Where the text of a literal stands.
#[derive(Drop)]
pub(crate) enum Room {
    InPlace(ArrayString<16>),
    Owned(String),
}

/// The text of a literal. One of up to 16 bytes stands in place, and a longer one in a string.
pub struct LiteralText {
    room: Room,
    ghost ok: { ∥ IsUtf8 (bytes_in room) ∥₁ },
}

impl Drop for LiteralText {
    fn drop(self) {
        let LiteralText { room: _ } = self;
    }
}

impl LiteralText {
    ghost use Rattle.std.specs.Prelude.{IfOk};
    ghost use Rattle.rc_tree.specs.LiteralTexts.{literal_bytes};

    /// Copies a text.
    pub fn of(alloc: Global, text: &str) -> Result<LiteralText, AllocError>
        ensures { IfOk result (λ copy. literal_bytes copy ≡ text.now) }
    {
        let room = match ArrayString::from(text) {
            Ok(short) => Room::InPlace(short),
            Err(_) => Room::Owned(String::from_str(alloc, text)?),
        };
        Ok(LiteralText { room })
    }

    pub fn as_str(&self) -> &str
        ensures { result.now ≡ literal_bytes self.now }
    {
        match &self.room {
            Room::InPlace(text) => text.as_str(),
            Room::Owned(text) => text.as_str(),
        }
    }
}
