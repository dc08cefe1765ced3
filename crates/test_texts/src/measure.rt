//! Measures how long the lexer or the parser takes for one text of a kind.

use anyhow::{Context, bail};
use rc_lexer::lex;
use rc_parser::parse;
use std::alloc::{AllocError, Global};
use std::time::CpuClock;

/// The pieces of the texts. The last five are accepted whatever their length.
const PIECES: [(&str, &str); 10] = [
    ("operators", "a&&b|[2]c>[1=2];\n"),
    ("dollars", "$$$x$#y$\"z $$ "),
    ("one-run-of-dollars", "$"),
    ("marks-on-one-line", "<<E "),
    ("one-long-body", "<<E\n"),
    ("words", "word other.word "),
    ("quotes", "'it''s' 'a b' "),
    ("here-documents", "<<E\nline of it\nE\n"),
    ("commands", "x=$y(1) a $#b | {c^'d' >f} && ! ~ `{e} *.g &\n"),
    (
        "control-forms",
        "if(a) for(b in c $d) e\nif not switch(f) {\ncase g h\n\tfn i {j}\n}\n",
    ),
];

/// The piece of a text of this kind.
fn piece(kind: &str) -> Option<&'static str> {
    for (name, piece) in PIECES {
        if name == kind {
            return Some(piece);
        }
    }
    None
}

/// As many pieces as fit into this many bytes.
fn text(alloc: Global, piece: &str, size: usize) -> Result<String, AllocError> {
    let mut text = String::new(alloc);
    for _ in 0..size {
        if size.saturating_sub(text.len()) < piece.len() {
            break;
        }
        text.push_str(piece)?;
    }
    Ok(text)
}

/// The microseconds of processor time that reading takes.
fn time(rt: &impl CpuClock, alloc: Global, what: &str, text: &str) -> anyhow::Result<u128> {
    let start = rt.thread_cpu_time()?;
    match what {
        "lex" => {
            let _ = lex(alloc, text).is_ok();
        }
        "parse" => {
            if parse(alloc, text.as_bytes()).is_err() {
                bail!("not accepted");
            }
        }
        _ => bail!("neither lex nor parse"),
    }
    Ok(rt.thread_cpu_time()?.saturating_sub(start).as_micros())
}

/// Lexes or parses a text of this kind and of about this many bytes, and prints the microseconds of processor time.
pub(crate) fn measure(rt: HostRuntime, what: &str, kind: &str, size: &str) -> anyhow::Result<()> {
    let piece = piece(kind).context("no such kind of text")?;
    let text = text(rt.alloc(), piece, size.parse()?)?;
    let micros = time(&rt, rt.alloc(), what, text.as_str())?;
    println!(rt; "{micros}")?;
    Ok(())
}
