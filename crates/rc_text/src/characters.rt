//! The characters of a text.
ghost use Rattle.std.specs.Prelude.{◌≡◌, ◌<◌, [], ◌∷◌, ◌++◌, length, IfSome, MatchOption};
ghost use Rattle.std.specs.Char.{encode_utf8};
ghost use Rattle.std.specs.Str.{IsUtf8, chars};
ghost use Rattle.rc_model.specs.Syntax.Tokens.{is_name_char};

/// Splits off the first character of the text.
pub fn first_char(text: &str) -> Option<(char, &str)>
    ensures chars { MatchOption result (chars text.now ≡ []) (λ x. chars text.now ≡ x.0 ∷ chars x.1.now) }
    ensures bytes { MatchOption result (text.now ≡ []) (λ x. text.now ≡ encode_utf8 x.0 ++ x.1.now) }
    ensures shorter { IfSome result (λ x. length x.1.now < length text.now) }
    ensures utf8 { IfSome result (λ x. IsUtf8 x.1.now) }
{
    let mut rest = text.chars();
    let first = rest.next()?;
    Some((first, rest.as_str()))
}

/// Whether the character is allowed in an unquoted name.
pub fn is_name_char(c: char) -> bool
    ensures { result ≡ is_name_char c }
{
    c.is_ascii_alphanumeric() || c == '_' || c == '*'
}
