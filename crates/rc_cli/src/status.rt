//! The exit status of the process.
ghost use Rattle.std.specs.Prelude.{◌≡◌, ◌≢◌, ℕ, ◌<◌, ◌≤◌, ◌↔◌, IsTrue, IfSome, IfNone, slice_index};
ghost use Rattle.std.specs.Fmt.{decimal};
ghost use Rattle.rc_cli.specs.Statuses.{IsProcessStatus};

use rc_text::is_true;

/// The exit status of the process for this status of its script.
pub(crate) fn process_status(status: &str) -> u8
    ensures { IsProcessStatus status.now result }
{
    if is_true(status) {
        0
    } else {
        code_of(status).unwrap_or(1)
    }
}

/// Parses the decimal of a number of 1 to 255.
fn code_of(status: &str) -> Option<u8>
    ensures found { IfSome result (λ n. (0 < n) × (n < 256) × (status.now ≡ decimal n)) }
    ensures none { IfNone result ((n : ℕ) → 0 < n → n < 256 → status.now ≢ decimal n) }
{
    if has_leading_digit(status) {
        status.parse::<u8>().ok()
    } else {
        None
    }
}

/// Whether the text begins with a digit above 0.
fn has_leading_digit(text: &str) -> bool
    ensures { IsTrue result ↔ ((49 ≤ slice_index text.now 0) × (slice_index text.now 0 ≤ 57)) }
{
    matches!(text.as_bytes().first(), Some(b'1'..=b'9'))
}
