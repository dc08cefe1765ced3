//! The names of variables.

ghost use Rattle.std.specs.Prelude.{◌≡◌};
ghost use Rattle.std.specs.List.{list_all};
ghost use Rattle.rc_model.specs.Run.Numbers.{is_digit};
ghost use Rattle.rc_model.specs.Run.State.{is_name, is_readable};
ghost use Rattle.rc_model.specs.Syntax.Tokens.{is_name_char};

/// Whether the byte is a letter, a digit, `_` or `*`.
fn is_name_byte(byte: u8) -> bool
    ensures { result ≡ is_name_char byte }
{
    byte.is_ascii_digit()
        || byte.is_ascii_uppercase()
        || byte.is_ascii_lowercase()
        || byte == b'_'
        || byte == b'*'
}

/// Whether the text has only such characters.
fn has_name_bytes(text: &str) -> bool
    ensures { result ≡ list_all is_name_char text.now }
{
    text.as_bytes().iter().all(|byte| is_name_byte(*byte))
}

/// Whether the text is allowed after a `$`.
pub fn is_readable(text: &str) -> bool
    ensures { result ≡ is_readable text.now }
{
    has_name_bytes(text) && !text.is_empty()
}

/// Whether the text has only digits, or nothing.
pub fn has_digits(text: &str) -> bool
    ensures { result ≡ list_all is_digit text.now }
{
    text.as_bytes().iter().all(|byte| byte.is_ascii_digit())
}

/// Whether the text is allowed as the name of a variable.
pub fn is_name(text: &str) -> bool
    ensures { result ≡ is_name text.now }
{
    has_name_bytes(text) && !has_digits(text)
}
