//! How `whatis` prints names and values.

ghost use Rattle.std.specs.Prelude.{◌≡◌, ◌++◌, ◌∷◌, ◌&&◌, ◌==◌, not, length, OnOk, IfOk, map, string_bytes};
ghost use Rattle.std.specs.List.{list_all};
ghost use Rattle.rc_model.specs.Syntax.Grammar.{keyword, is_plain};
ghost use Rattle.rc_model.specs.Syntax.Text.{spaced};
ghost use Rattle.rc_model.specs.Run.Builtins.{is_plain_char, shown, shown_value, value_line};
ghost use Rattle.rc_text.specs.Texts.{text_bytes};

use rc_model::Keyword;
use rc_scope::is_name;
use rc_text::{Text, push_quoted};
use std::alloc::{AllocError, Global};

fn is_plain_byte(byte: u8) -> bool
    ensures { result ≡ is_plain_char byte }
{
    byte.is_ascii_alphanumeric()
        || matches!(byte, b'_' | b'.' | b'/' | b'-' | b'+' | b',' | b':' | b'%')
}

fn has_plain_bytes(text: &str) -> bool
    ensures { result ≡ list_all is_plain_char text.now }
{
    text.bytes().all(|byte| is_plain_byte(byte))
}

/// Whether the text is a word that needs no quotes.
fn is_bare(text: &str) -> bool
    ensures { result ≡ (not (length text.now == 0)
        && (list_all is_plain_char text.now && is_plain (keyword text.now))) }
{
    !text.is_empty() && has_plain_bytes(text) && matches!(Keyword::named(text), Keyword::Plain)
}

/// Writes a member, quoted if necessary.
fn push_shown(out: &mut String, text: &str) -> Result<(), AllocError>
    ensures { OnOk result (string_bytes out.new ≡ string_bytes out.old ++ shown text.now) }
{
    if is_bare(text) {
        out.push_str(text)
    } else {
        push_quoted(out, text)
    }
}

/// Writes members, separated by spaces.
fn push_members(out: &mut String, first: &str, others: &[Text]) -> Result<(), AllocError>
    ensures { OnOk result (string_bytes out.new
        ≡ string_bytes out.old ++ spaced (map shown (first.now ∷ map text_bytes others.now))) }
{
    push_shown(out, first)?;
    for member in others {
        out.push(' ')?;
        push_shown(out, member.as_str())?;
    }
    Ok(())
}

/// Writes a value: its one member, or its members in parentheses.
fn push_value(out: &mut String, value: &[Text]) -> Result<(), AllocError>
    ensures { OnOk result (string_bytes out.new ≡ string_bytes out.old ++ shown_value (map text_bytes value.now)) }
{
    let Some((first, others)) = value.split_first() else {
        return out.push_str("()");
    };
    if others.is_empty() {
        return push_shown(out, first.as_str());
    }
    out.push('(')?;
    push_members(out, first.as_str(), others)?;
    out.push(')')
}

/// The line of a variable, or nothing if there is none of this name, or it has no member.
pub(crate) fn value_line(alloc: Global, name: &str, value: &[Text]) -> Result<String, AllocError>
    ensures { IfOk result (λ line. string_bytes line ≡ value_line name.now (map text_bytes value.now)) }
{
    let mut line = String::new(alloc);
    if value.is_empty() || !is_name(name) {
        return Ok(line);
    }
    line.push_str(name)?;
    line.push('=')?;
    push_value(&mut line, value)?;
    line.push('\n')?;
    Ok(line)
}
