//! Quoted words.
ghost use Rattle.std.specs.Prelude.{◌≡◌, ◌++◌, string_bytes, IfOk, OnErr, OnOk};
ghost use Rattle.rc_model.specs.Syntax.Tokens.{quoted_text, unquoted_text};

use std::alloc::{AllocError, Global};

/// Writes the text as a quoted word.
pub fn push_quoted(out: &mut String, text: &str) -> Result<(), AllocError>
    ensures ok { OnOk result (string_bytes out.new ≡ string_bytes out.old ++ quoted_text text.now) }
    ensures err { OnErr result (string_bytes out.new ≡ string_bytes out.old) }
{
    out.push_str(&quote(*out.allocator(), text)?)
}

/// Quotes a text.
#[tactic(auto, using(crate::proofs::Quotes::quoting))]
pub fn quote(alloc: Global, text: &str) -> Result<String, AllocError>
    ensures { IfOk result (λ quoted. string_bytes quoted ≡ quoted_text text.now) }
{
    let mut quoted = String::new(alloc);
    quoted.push('\'')?;
    for c in text.chars() {
        if c == '\'' {
            quoted.push_str("''")?;
        } else {
            quoted.push(c)?;
        }
    }
    quoted.push('\'')?;
    Ok(quoted)
}

/// Returns the text of a quoted word.
pub fn unquote(alloc: Global, word: &[u8]) -> Result<Vec<u8>, AllocError>
    ensures { IfOk result (λ v. v.items ≡ unquoted_text word.now) }
{
    let mut said = Vec::new(alloc);
    let Some((_, rest)) = word.split_first() else {
        return Ok(said);
    };
    let mut after_quote = false;
    for b in rest {
        if *b == b'\'' && !after_quote {
            after_quote = true;
        } else {
            said.push(*b)?;
            after_quote = false;
        }
    }
    Ok(said)
}
