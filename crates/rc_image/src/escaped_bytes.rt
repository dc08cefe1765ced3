//! The bytes that are escaped in a member: byte 1 separates members, and byte 2 begins an escape.

ghost use Rattle.std.specs.Prelude.{◌≡◌};
ghost use Rattle.std.specs.List.{list_any};
ghost use Rattle.rc_image.specs.Additions.{is_mark};

/// Whether a byte is escaped.
fn is_mark(byte: u8) -> bool
    ensures { result ≡ is_mark byte }
{
    byte == 1 || byte == 2
}

/// Whether a text has a byte that is escaped. The loop always runs to the end, so that it can take many bytes at once.
pub(crate) fn has_marks(text: &str) -> bool
    ensures { result ≡ list_any is_mark text.now }
{
    let bytes = text.as_bytes();
    let mut found = false;
    for byte in bytes {
        found |= is_mark(*byte);
    }
    found
}
