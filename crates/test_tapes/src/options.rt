//! The options of a row:
//!
//! - `strict`: a strict shell;
//! - `image`: the lines of the script are the words that a shell is handed, and each `entry x=a` is one of its entries;
//! - `program`: a run of the program: each `word a` is one of its arguments and each `entry x=a` one of its
//!   environment, and the script is what it reads; with `broken` an error follows that, and with `unopened` there is
//!   nothing to read;
//! - `limit 12`: at most 12 instructions;
//! - `set x a b`: a variable before the run, and `args a b` and `ifs a b`: the variables `*` and `ifs`. `''` is an
//!   empty member;
//! - `each 12 word a#`: the 12 options `word a1` to `word a12`, and `each 12 entry x#=a` likewise;
//! - `repeat MARK 12 ab`: the mark in the script, the calls, the words and the entries is replaced by 12 times `ab`,
//!   where each `#` is the number of the turn, from 1. Marks are replaced in the order of their lines.
//!
//! Members, words, entries and what is repeated are written as the texts of `test_rows`.
//! Before the options `path` is `/bin`.

use crate::fault::RowError;
use rc_scope::{State, texts_of};
use std::alloc::{AllocError, Global};

/// Enough instructions for each script that ends.
const LIMIT: u64 = 100_000;

/// The state after the options.
pub fn set_up(alloc: Global, options: &str) -> Result<State, RowError> {
    let mut state = State::new(alloc);
    set_all(alloc, &mut state, options)?;
    Ok(state)
}

fn set_all(alloc: Global, state: &mut State, options: &str) -> Result<(), RowError> {
    set(alloc, state, "path", "/bin")?;
    for option in options.lines() {
        change(alloc, state, option)?;
    }
    Ok(())
}

/// Changes a state by an option.
fn change(alloc: Global, state: &mut State, option: &str) -> Result<(), RowError> {
    let (kind, rest) = option.split_once(' ').unwrap_or((option, ""));
    match kind {
        "args" => set(alloc, state, "*", rest),
        "ifs" => set(alloc, state, "ifs", rest),
        "set" => {
            let (name, list) = rest.split_once(' ').unwrap_or((rest, ""));
            set(alloc, state, name, list)
        }
        "strict" => {
            state.set_strict(true);
            Ok(())
        }
        "limit" | "repeat" | "image" | "entry" | "each" => Ok(()),
        _ => Err(RowError::BadRow),
    }
}

/// Sets a variable to members.
fn set(alloc: Global, state: &mut State, name: &str, written: &str) -> Result<(), RowError> {
    let members = members(alloc, written)?;
    Ok(state.set(name, texts_of(alloc, &members)?)?)
}

/// Whether there is an option of one word.
pub fn has(options: &str, wanted: &str) -> bool {
    for option in options.lines() {
        if option == wanted {
            return true;
        }
    }
    false
}

/// The texts of the options of this kind.
pub fn texts(alloc: Global, options: &str, wanted: &str) -> Result<Vec<String>, RowError> {
    let mut texts = Vec::new(alloc);
    for option in options.lines() {
        let (kind, rest) = option.split_once(' ').unwrap_or((option, ""));
        if kind == wanted {
            texts.push(text(alloc, options, rest)?)?;
        } else if kind == "each" {
            push_each(alloc, &mut texts, options, wanted, rest)?;
        }
    }
    Ok(texts)
}

/// Adds the texts of this many options, if they are of this kind.
fn push_each(
    alloc: Global,
    texts: &mut Vec<String>,
    options: &str,
    wanted: &str,
    each: &str,
) -> Result<(), RowError> {
    let (times, option) = each.split_once(' ').unwrap_or((each, ""));
    let (kind, rest) = option.split_once(' ').unwrap_or((option, ""));
    if kind != wanted {
        return Ok(());
    }
    let times = times.parse::<usize>()?;
    let once = text(alloc, options, rest)?;
    for turn in 0..times {
        let mut numbered = String::new(alloc);
        push_numbered(&mut numbered, once.as_str(), turn + 1)?;
        texts.push(numbered)?;
    }
    Ok(())
}

/// Adds a text with this number for each `#`.
fn push_numbered(out: &mut String, text: &str, number: usize) -> Result<(), AllocError> {
    for character in text.chars() {
        if character == '#' {
            write!(out, "{number}")?;
        } else {
            out.push(character)?;
        }
    }
    Ok(())
}

/// Parses a text, after its marks are replaced.
fn text(alloc: Global, options: &str, written: &str) -> Result<String, RowError> {
    let text = unescaped(alloc, written)?;
    repeated(alloc, options, text.as_str())
}

/// The limit of instructions of a run.
pub fn limit(options: &str) -> Result<u64, RowError> {
    for option in options.lines() {
        if let Some(limit) = option.strip_prefix("limit ") {
            return Ok(limit.parse::<u64>()?);
        }
    }
    Ok(LIMIT)
}

/// A text with its marks replaced.
pub fn repeated(alloc: Global, options: &str, text: &str) -> Result<String, RowError> {
    let mut repeated = String::from_str(alloc, text)?;
    for option in options.lines() {
        if let Some(repeat) = option.strip_prefix("repeat ") {
            repeated = replaced(alloc, repeated.as_str(), repeat)?;
        }
    }
    Ok(repeated)
}

/// A text with the mark of this repetition replaced.
fn replaced(alloc: Global, text: &str, repeat: &str) -> Result<String, RowError> {
    let (mark, repeat) = repeat.split_once(' ').unwrap_or((repeat, ""));
    let (times, once) = repeat.split_once(' ').unwrap_or((repeat, ""));
    let times = times.parse::<usize>()?;
    let many = many_times(alloc, times, once)?;
    Ok(text.replace(alloc, mark, many.as_str())?)
}

/// A text this many times, each with its number.
fn many_times(alloc: Global, times: usize, written: &str) -> Result<String, RowError> {
    let once = unescaped(alloc, written)?;
    let mut many = String::new(alloc);
    for turn in 0..times {
        push_numbered(&mut many, once.as_str(), turn + 1)?;
    }
    Ok(many)
}

/// Parses members.
fn members(alloc: Global, written: &str) -> Result<Vec<String>, RowError> {
    match test_rows::list(alloc, written)? {
        Some(members) => Ok(members),
        None => Err(RowError::BadRow),
    }
}

/// Undoes the escapes of a text.
fn unescaped(alloc: Global, written: &str) -> Result<String, RowError> {
    match test_rows::text(alloc, written)? {
        Some(text) => Ok(text),
        None => Err(RowError::BadRow),
    }
}
