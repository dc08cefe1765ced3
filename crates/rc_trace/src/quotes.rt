//! Texts that are shown, each on one line.
//!
//! What is read and the names in a directory have quotes; a path has them only if it would look like another part of
//! its line without. Control characters and those that end a line or change its direction are escaped.

ghost use Rattle.std.specs.Prelude.{◌≡◌, ◌++◌, IfOk, OnOk, map, option_map, string_bytes};
ghost use Rattle.std.specs.List.{flat_map, list_any};
ghost use Rattle.std.specs.Str.{chars};
ghost use Rattle.rc_text.specs.Texts.{text_bytes};
ghost use Rattle.rc_trace.specs.Quotes.{bytes_text, code_text, escaped, is_hidden, is_odd, is_odd_word, more_texts};
ghost use Rattle.rc_trace.specs.Quotes.{needs_quotes};
ghost use Rattle.rc_trace.specs.Starts.{past};
ghost use Rattle.rc_trace.specs.Quotes.{path_text, quoted, texts_text, visible, visible_text, word_text, words_text};

use rc_text::Text;
use std::alloc::{AllocError, Global};

/// Whether a character can't be seen: a control character, or one that ends a line or changes its direction.
#[tactic(auto, unfolding(crate::specs::Quotes::is_hidden))]
fn is_hidden(c: char) -> bool
    ensures { result ≡ is_hidden c }
{
    c.is_control()
        || c == '\u{61c}'
        || ('\u{200e}'..='\u{200f}').contains(&c)
        || ('\u{2028}'..='\u{202e}').contains(&c)
        || ('\u{2066}'..='\u{2069}').contains(&c)
        || c == '\u{feff}'
}

/// Writes a hidden character by its letter or its number.
#[tactic(auto, unfolding(crate::specs::Quotes::code_text))]
fn push_code(out: &mut String, c: char) -> Result<(), AllocError>
    ensures { OnOk result (string_bytes out.new ≡ string_bytes out.old ++ code_text c) }
{
    if c == '\0' {
        return out.push_str("\\0");
    }
    if c == '\t' {
        return out.push_str("\\t");
    }
    if c == '\n' {
        return out.push_str("\\n");
    }
    if c == '\r' {
        return out.push_str("\\r");
    }
    let number = c as u32;
    out.push_str(&format!(in *out.allocator(); "\\u{{{number:x}}}")?)
}

/// Writes a character as it is, if it can be seen.
#[tactic(auto, unfolding(crate::specs::Quotes::visible))]
fn push_visible(out: &mut String, c: char) -> Result<(), AllocError>
    ensures { OnOk result (string_bytes out.new ≡ string_bytes out.old ++ visible c) }
{
    if is_hidden(c) {
        return push_code(out, c);
    }
    out.push(c)
}

/// Writes a character between quotes.
#[tactic(auto, unfolding(crate::specs::Quotes::escaped))]
fn push_escaped(out: &mut String, c: char) -> Result<(), AllocError>
    ensures { OnOk result (string_bytes out.new ≡ string_bytes out.old ++ escaped c) }
{
    if c == '"' || c == '\\' {
        out.push_str("\\")?;
        return out.push(c);
    }
    push_visible(out, c)
}

pub(crate) fn characters(alloc: Global, text: &str) -> Result<Vec<char>, AllocError>
    ensures { IfOk result (λ all. all.items ≡ chars text.now) }
{
    text.chars().collect(alloc)
}

/// Writes characters that can be seen, and the others by their letters and numbers.
fn push_all_visible(out: &mut String, characters: &[char]) -> Result<(), AllocError>
    ensures { OnOk result (string_bytes out.new ≡ string_bytes out.old ++ flat_map visible characters.now) }
{
    for c in characters {
        push_visible(out, *c)?;
    }
    Ok(())
}

/// Writes a text whose characters can all be seen.
pub(crate) fn push_visible_text(out: &mut String, text: &str) -> Result<(), AllocError>
    ensures { OnOk result (string_bytes out.new ≡ string_bytes out.old ++ visible_text text.now) }
{
    let characters = characters(*out.allocator(), text)?;
    push_all_visible(out, &characters)
}

/// Writes characters between quotes.
fn push_all_escaped(out: &mut String, characters: &[char]) -> Result<(), AllocError>
    ensures { OnOk result (string_bytes out.new ≡ string_bytes out.old ++ flat_map escaped characters.now) }
{
    for c in characters {
        push_escaped(out, *c)?;
    }
    Ok(())
}

/// Writes a text in quotes.
#[tactic(auto, unfolding(crate::specs::Quotes::quoted))]
pub(crate) fn push_quoted(out: &mut String, text: &str) -> Result<(), AllocError>
    ensures { OnOk result (string_bytes out.new ≡ string_bytes out.old ++ quoted text.now) }
{
    let characters = characters(*out.allocator(), text)?;
    out.push_str("\"")?;
    push_all_escaped(out, &characters)?;
    out.push_str("\"")
}

/// Writes bytes in quotes, if they are UTF-8.
#[tactic(auto, using(crate::proofs::Parts::encoded), unfolding(crate::specs::Quotes::bytes_text))]
pub(crate) fn push_bytes(out: &mut String, bytes: &[u8]) -> Result<(), AllocError>
    ensures { OnOk result (string_bytes out.new ≡ string_bytes out.old ++ bytes_text bytes.now) }
{
    match str::from_utf8(bytes) {
        Ok(text) => push_quoted(out, text),
        Err(_) => out.push_str("no text"),
    }
}

/// What follows a mark, in a text that begins with it.
pub(crate) fn past<'a>(mark: &str, text: &'a str) -> Option<&'a str>
    ensures { option_map (λ rest. rest.now) result ≡ past mark.now text.now }
{
    text.strip_prefix(mark)
}

/// Whether a path with this character is put in quotes.
#[tactic(auto, unfolding(crate::specs::Quotes::needs_quotes))]
fn needs_quotes(c: char) -> bool
    ensures { result ≡ needs_quotes c }
{
    c == ' ' || c == '"' || c == '\\' || is_hidden(c)
}

/// Whether a word with this character is put in quotes.
#[tactic(auto, unfolding(crate::specs::Quotes::is_odd))]
pub(crate) fn is_odd(c: char) -> bool
    ensures { result ≡ is_odd c }
{
    needs_quotes(c) || c == '(' || c == ')' || c == '<' || c == '>' || c == '{' || c == '}'
}

fn is_odd_path(path: &str) -> bool
    ensures { result ≡ list_any needs_quotes (chars path.now) }
{
    path.chars().any(|c| needs_quotes(c))
}

/// Writes a path as it is, or in quotes.
#[tactic(auto, unfolding(crate::specs::Quotes::path_text))]
pub(crate) fn push_path(out: &mut String, path: &str) -> Result<(), AllocError>
    ensures { OnOk result (string_bytes out.new ≡ string_bytes out.old ++ path_text path.now) }
{
    if is_odd_path(path) {
        return push_quoted(out, path);
    }
    out.push_str(path)
}

fn has_odd(word: &str) -> bool
    ensures { result ≡ list_any is_odd (chars word.now) }
{
    word.chars().any(|c| is_odd(c))
}

/// Whether a word could be taken for something else: an empty one, or one with such a character.
#[tactic(auto, unfolding(crate::specs::Quotes::is_odd_word))]
fn is_odd_word(word: &str) -> bool
    ensures { result ≡ is_odd_word word.now }
{
    word.is_empty() || has_odd(word)
}

/// Writes a word as it is, or in quotes, if it could be taken for something else.
#[tactic(auto, unfolding(crate::specs::Quotes::word_text))]
pub(crate) fn push_word(out: &mut String, word: &str) -> Result<(), AllocError>
    ensures { OnOk result (string_bytes out.new ≡ string_bytes out.old ++ word_text word.now) }
{
    if is_odd_word(word) {
        return push_quoted(out, word);
    }
    out.push_str(word)
}

/// Writes each of these words after a blank.
pub(crate) fn push_words(out: &mut String, words: &[Text]) -> Result<(), AllocError>
    ensures { OnOk result (string_bytes out.new ≡ string_bytes out.old ++ words_text (map text_bytes words.now)) }
{
    for word in words {
        out.push_str(" ")?;
        push_word(out, word.as_str())?;
    }
    Ok(())
}

/// Writes further texts in quotes, each after a comma.
fn push_more_texts(out: &mut String, texts: &[Text]) -> Result<(), AllocError>
    ensures { OnOk result (string_bytes out.new ≡ string_bytes out.old ++ more_texts (map text_bytes texts.now)) }
{
    for text in texts {
        out.push_str(", ")?;
        push_quoted(out, text.as_str())?;
    }
    Ok(())
}

/// Writes texts in quotes, in brackets.
#[tactic(auto, unfolding(crate::specs::Quotes::texts_text))]
pub(crate) fn push_texts(out: &mut String, texts: &[Text]) -> Result<(), AllocError>
    ensures { OnOk result (string_bytes out.new ≡ string_bytes out.old ++ texts_text (map text_bytes texts.now)) }
{
    let Some((first, others)) = texts.split_first() else {
        return out.push_str("[]");
    };
    out.push_str("[")?;
    push_quoted(out, first.as_str())?;
    push_more_texts(out, others)?;
    out.push_str("]")
}

/// Writes further names in quotes, each after a comma.
fn push_more_names(out: &mut String, names: &[String]) -> Result<(), AllocError>
    ensures { OnOk result (string_bytes out.new ≡ string_bytes out.old ++ more_texts (map string_bytes names.now)) }
{
    for name in names {
        out.push_str(", ")?;
        push_quoted(out, name)?;
    }
    Ok(())
}

/// Writes names in quotes, in brackets.
#[tactic(auto, unfolding(crate::specs::Quotes::texts_text))]
pub(crate) fn push_names(out: &mut String, names: &[String]) -> Result<(), AllocError>
    ensures { OnOk result (string_bytes out.new ≡ string_bytes out.old ++ texts_text (map string_bytes names.now)) }
{
    let Some((first, others)) = names.split_first() else {
        return out.push_str("[]");
    };
    out.push_str("[")?;
    push_quoted(out, first)?;
    push_more_names(out, others)?;
    out.push_str("]")
}
