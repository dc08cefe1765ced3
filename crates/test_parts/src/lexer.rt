//! The tokens of a script when memory runs out.

use rc_lexer::{Lexer, lex};
use std::alloc::AllocError;
use std::test::Fail;

#[test]
fn out_of_memory_among_tokens_is_reported(rt: HostRuntime) -> Result<(), Fail> {
    let tokens = lex(rt.alloc(), "$x <<'E'\nb\nE\n")?;
    assert_eq!(rt; tokens.len(), 4);
    Ok(())
}

#[test]
fn out_of_memory_leaves_the_text(rt: HostRuntime) -> Result<(), Fail> {
    let mut lexer = Lexer::new(rt.alloc());
    let mut is_refused = false;
    for piece in ["$x", " <<'E", "'\nb", "\nE\nc |", "| d\n"] {
        if lexer.feed(piece).is_err() {
            is_refused = true;
            lexer.feed(piece)?;
        }
    }
    let tokens = lexer.finish()?;
    assert_eq!(rt; tokens.len(), 8);
    if is_refused {
        return Err(Fail::from(AllocError));
    }
    Ok(())
}
