//! Texts that their copies share.

ghost use Rattle.std.specs.Prelude.{◌≡◌, ◌++◌, string_bytes, IfOk};
ghost use Rattle.std.specs.Str.{IsUtf8};
ghost use Rattle.rc_text.specs.Rooms.{bytes_in};

use crate::words::joined_text;
use arrayvec::ArrayString;
use std::alloc::{AllocError, Global};
use std::rc::Rc;

/// How many bytes may follow a text that was appended to before it is moved.
const ROOM: usize = 32;

/// Where a text stands.
#[derive(Drop)]
pub(crate) enum Room {
    InPlace(ArrayString<16>),
    Shared(Rc<String>),
}

/// A text. One of up to 16 bytes is stored in place, and a longer one is shared by its copies.
pub struct Text {
    room: Room,
    ghost ok: { ∥ IsUtf8 (bytes_in room) ∥₁ },
}

impl Drop for Text {
    fn drop(self) {
        let Text { room: _ } = self;
    }
}

/// Joins two texts, with room for what may follow them.
fn growing_text(alloc: Global, left: &str, right: &str) -> Result<String, AllocError>
    ensures { IfOk result (λ text. string_bytes text ≡ left.now ++ right.now) }
{
    let size = left.len().saturating_add(right.len());
    let mut text = String::with_capacity(alloc, size.saturating_add(ROOM))?;
    text.push_str(left)?;
    text.push_str(right)?;
    Ok(text)
}

impl Clone for Text {
    ghost use Rattle.rc_text.specs.Texts.{text_bytes};

    ghost is_clone = { λ t u. text_bytes u ≡ text_bytes t };

    /// Copies the text, or shares it. It fails only if a shared text has too many owners.
    fn clone(&self) -> Result<Text, AllocError> {
        let room = match &self.room {
            Room::InPlace(text) => Room::InPlace(*text),
            Room::Shared(text) => Room::Shared(text.clone()?),
        };
        Ok(Text { room })
    }
}

impl Text {
    ghost use Rattle.std.specs.Prelude.{[], OnErr, OnOk};
    ghost use Rattle.rc_text.specs.Texts.{text_bytes};

    /// The empty text.
    pub fn new() -> Text
        ensures { text_bytes result ≡ [] }
    {
        Text {
            room: Room::InPlace(ArrayString::new()),
        }
    }

    /// Copies a text.
    pub fn of(alloc: Global, text: &str) -> Result<Text, AllocError>
        ensures { IfOk result (λ copy. text_bytes copy ≡ text.now) }
    {
        if let Ok(short) = ArrayString::from(text) {
            return Ok(Text {
                room: Room::InPlace(short),
            });
        }
        Text::shared(alloc, String::from_str(alloc, text)?)
    }

    /// The text of a string, whose room a long one keeps.
    pub fn from_string(alloc: Global, string: String) -> Result<Text, AllocError>
        ensures { IfOk result (λ text. text_bytes text ≡ string_bytes string) }
    {
        if let Ok(short) = ArrayString::from(string.as_str()) {
            return Ok(Text {
                room: Room::InPlace(short),
            });
        }
        Text::shared(alloc, string)
    }

    /// A text that its copies share.
    fn shared(alloc: Global, string: String) -> Result<Text, AllocError>
        ensures { IfOk result (λ text. text_bytes text ≡ string_bytes string) }
    {
        Ok(Text {
            room: Room::Shared(Rc::new(alloc, string)?),
        })
    }

    pub fn as_str(&self) -> &str
        ensures { result.now ≡ text_bytes self.now }
    {
        match &self.room {
            Room::InPlace(text) => text.as_str(),
            Room::Shared(text) => text.as_str(),
        }
    }

    /// Where the text stands.
    fn into_room(self) -> Room
        ensures { bytes_in result ≡ text_bytes self }
    {
        let Text { room } = self;
        room
    }

    /// Returns the text as a string. It is copied if it is stored in place or has other owners.
    pub fn into_string(self, alloc: Global) -> Result<String, AllocError>
        ensures { IfOk result (λ string. string_bytes string ≡ text_bytes self) }
    {
        match self.into_room() {
            Room::InPlace(text) => String::from_str(alloc, text.as_str()),
            Room::Shared(text) => match Rc::try_unwrap(text) {
                Ok(string) => Ok(string),
                Err(text) => String::from_str(alloc, text.as_str()),
            },
        }
    }

    /// Appends to a text that is stored in place. If there is no room for both, they become a string.
    fn grown(alloc: Global, mut text: ArrayString<16>, next: &str) -> Result<Text, AllocError>
        requires { ∥ IsUtf8 text.bytes ∥₁ }
        ensures { IfOk result (λ grown. text_bytes grown ≡ text.bytes ++ next.now) }
    {
        match text.try_push_str(next) {
            Ok(()) => Ok(Text {
                room: Room::InPlace(text),
            }),
            Err(_) => Text::shared(alloc, joined_text(alloc, text.as_str(), next)?),
        }
    }

    /// Joins two texts.
    pub(crate) fn joined(&self, alloc: Global, next: &str) -> Result<Text, AllocError>
        ensures { IfOk result (λ text. text_bytes text ≡ text_bytes self.now ++ next.now) }
    {
        match &self.room {
            Room::InPlace(text) => Text::grown(alloc, *text, next),
            Room::Shared(text) => Text::shared(alloc, joined_text(alloc, text.as_str(), next)?),
        }
    }

    /// Appends a text: in place, if there is room, or else to the string, if it has no other owner. After an error the
    /// text is as before.
    pub fn push_str(&mut self, alloc: Global, next: &str) -> Result<(), AllocError>
        ensures ok { OnOk result (text_bytes self.new ≡ text_bytes self.old ++ next.now) }
        ensures err { OnErr result (text_bytes self.new ≡ text_bytes self.old) }
    {
        match &mut self.room {
            Room::InPlace(text) => {
                if text.try_push_str(next).is_ok() {
                    return Ok(());
                }
            }
            Room::Shared(text) => {
                if let Some(own) = Rc::get_mut(text) {
                    return own.push_str(next);
                }
            }
        }
        let joined = growing_text(alloc, self.as_str(), next)?;
        *self = Text::shared(alloc, joined)?;
        Ok(())
    }
}
