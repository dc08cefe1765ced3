//! Numbers in scripts.
ghost use Rattle.std.specs.Prelude.{◌≡◌};
ghost use Rattle.std.specs.List.{list_all};
ghost use Rattle.rc_model.specs.Run.Numbers.{is_digit, number_of};

/// Parses a number, of digits alone and not above 4,294,967,295.
pub fn number_of(text: &str) -> Option<u32>
    ensures { result ≡ number_of text.now }
{
    if is_digits(text) {
        text.parse().ok()
    } else {
        None
    }
}

fn is_digits(text: &str) -> bool
    ensures { result ≡ list_all is_digit text.now }
{
    text.bytes().all(|b| b.is_ascii_digit())
}
