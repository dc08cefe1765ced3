//! What the rules of the warnings ask of a script as a whole, found once.

use crate::bytes::{before, has, has_any, is_number};
use crate::foreign::{foreign_form, foreign_variable};
use crate::lexed::script_tokens::Tokens;
use crate::rules::known_words::KnownWords;
use rc_lexer::TokenKind;
use std::alloc::{AllocError, Global};
use std::collections::HashSet;

/// An overview of a script.
#[derive(Drop)]
pub(crate) struct Overview<'a> {
    /// Whether it waits for jobs.
    pub(crate) has_wait: bool,
    /// Whether its first line has the option `-e`.
    pub(crate) exits_on_failure: bool,
    /// The names of its functions.
    functions: HashSet<&'a [u8]>,
    /// Whether it changes its directory.
    has_cd: bool,
    /// The names of variables that have a number.
    numbers: HashSet<&'a [u8]>,
    /// The names of variables that have a text with a pattern in quotes.
    patterns: HashSet<&'a [u8]>,
    /// The names of its variables: those that are assigned, and those of loops.
    variables: HashSet<&'a [u8]>,
    /// Whether each token is in the last command before an `rm`, and nothing checks its status.
    before_rm: Vec<bool>,
    /// The words that rules are about.
    known_words: KnownWords,
}

impl<'a> Overview<'a> {
    /// The overview of a script with these tokens.
    pub(crate) fn new(alloc: Global, tokens: Tokens<'a>) -> Result<Overview<'a>, AllocError> {
        let mut overview = Overview {
            has_wait: has_command(tokens, "wait"),
            exits_on_failure: has_option(first_line(tokens.script)),
            functions: HashSet::new(alloc),
            has_cd: has_command(tokens, "cd"),
            numbers: HashSet::new(alloc),
            patterns: HashSet::new(alloc),
            variables: HashSet::new(alloc),
            before_rm: before_rm(alloc, tokens)?,
            known_words: KnownWords::new(),
        };
        overview.add_names(tokens)?;
        Ok(overview)
    }

    /// Adds the names that the script gives to functions and variables.
    fn add_names(&mut self, tokens: Tokens<'a>) -> Result<(), AllocError> {
        for index in 0..tokens.all.len() {
            if !tokens.is(index, TokenKind::Word) {
                continue;
            }
            if is_defined(tokens, index) {
                self.functions.insert(tokens.text(index))?;
            }
            if is_assigned(tokens, index) {
                self.add_variable(tokens, index)?;
            }
        }
        Ok(())
    }

    /// Adds the variable at this index, which is assigned or that of a loop.
    fn add_variable(&mut self, tokens: Tokens<'a>, index: usize) -> Result<(), AllocError> {
        let name = tokens.text(index);
        self.variables.insert(name)?;
        if has_pattern(tokens, index) {
            self.patterns.insert(name)?;
        }
        if has_number(tokens, index) {
            self.numbers.insert(name)?;
        }
        Ok(())
    }

    /// Whether a word may be one that rules are about.
    pub(crate) fn may_name(&self, word: &[u8]) -> bool {
        self.known_words.may_have(word)
    }

    /// Whether the script has a function of this name.
    pub(crate) fn has_function(&self, name: &[u8]) -> bool {
        self.functions.contains(&name)
    }

    /// Whether the script gives a value to the variable of this name.
    pub(crate) fn has_variable(&self, name: &[u8]) -> bool {
        self.variables.contains(&name)
    }

    /// Whether the script assigns a number to the variable of this name.
    pub(crate) fn has_number(&self, name: &[u8]) -> bool {
        self.numbers.contains(&name)
    }

    /// Whether the variable of this name has, or by its name seems to have, a text that is meant as a pattern.
    pub(crate) fn has_pattern(&self, name: &[u8]) -> bool {
        self.has_quoted_pattern(name)
            || name.starts_with(b"pat") && name != b"path".as_slice()
            || name.starts_with(b"glob")
    }

    /// Whether the script assigns a text with a pattern in quotes to the variable of this name.
    pub(crate) fn has_quoted_pattern(&self, name: &[u8]) -> bool {
        self.patterns.contains(&name)
    }

    /// What to write in place of a word that is a command of other shells, and of no function.
    pub(crate) fn foreign(&self, word: &[u8]) -> Option<&'static str> {
        let instead = foreign_form(word)?;
        (!self.has_function(word)).then_some(instead)
    }

    /// What to write in place of a variable of other shells that the script doesn't set.
    pub(crate) fn foreign_variable(&self, name: &[u8]) -> Option<&'static str> {
        if name == b"PWD".as_slice() && self.has_cd && !self.has_variable(name) {
            return Some("`{pwd}, since a cd does not change it");
        }
        let instead = foreign_variable(name)?;
        (!self.has_variable(name)).then_some(instead)
    }

    /// Whether the token at this index is in the last command before an `rm`, and nothing checks its status.
    pub(crate) fn is_before_rm(&self, at: usize) -> bool {
        !self.exits_on_failure && matches!(self.before_rm.get(at), Some(true))
    }
}

/// The first line of a script.
pub(crate) fn first_line(script: &[u8]) -> &[u8] {
    before(script, b"\n")
}

/// Whether a line names an interpreter with the option `-e`.
fn has_option(line: &[u8]) -> bool {
    line.starts_with(b"#!") && (has(line, b" -e ") || line.ends_with(b" -e"))
}

/// Whether the word at this index is the name of a function that is defined.
fn is_defined(tokens: Tokens<'_>, index: usize) -> bool {
    tokens.is_in_command(index, "fn") && tokens.command_start(index) != index
}

/// Whether the word at this index is a variable that is assigned, or that of a loop; or `pid` as an argument, since a
/// command may assign it.
fn is_assigned(tokens: Tokens<'_>, index: usize) -> bool {
    if tokens.is(index.wrapping_add(1), TokenKind::Equals)
        || tokens.is_word(index, "pid") && !tokens.begins_command(index)
    {
        return true;
    }
    tokens.is(index.wrapping_sub(1), TokenKind::LeftParen)
        && tokens.is_word(index.wrapping_sub(2), "for")
}

/// Whether a script has this command.
fn has_command(tokens: Tokens<'_>, word: &str) -> bool {
    for index in 0..tokens.all.len() {
        if tokens.is_word(index, word) && tokens.begins_command(index) {
            return true;
        }
    }
    false
}

/// Whether the value of the variable at this index is a text with a pattern in quotes.
fn has_pattern(tokens: Tokens<'_>, index: usize) -> bool {
    let value = index.wrapping_add(2);
    tokens.is(index.wrapping_add(1), TokenKind::Equals)
        && tokens.is(value, TokenKind::Quoted)
        && has_any(tokens.text(value), b"*?[")
}

/// Whether the value of the variable at this index is a number.
fn has_number(tokens: Tokens<'_>, index: usize) -> bool {
    tokens.is(index.wrapping_add(1), TokenKind::Equals)
        && is_number(tokens.text(index.wrapping_add(2)))
}

/// Whether each token is in the last command before an `rm`, and nothing checks its status.
fn before_rm(alloc: Global, tokens: Tokens<'_>) -> Result<Vec<bool>, AllocError> {
    let mut before_rm = vec![in alloc; false; tokens.all.len()]?;
    // whether the next token that doesn't end a command is `rm`
    let mut is_rm_next = false;
    let mut is_before_rm = false;
    for index in (0..tokens.all.len()).rev() {
        match tokens.kind(index) {
            Some(TokenKind::Newline | TokenKind::Semicolon) => is_before_rm = is_rm_next,
            Some(kind) if goes_on(kind) => {
                is_rm_next = false;
                is_before_rm = false;
            }
            _ => is_rm_next = tokens.is_word(index, "rm"),
        }
        if is_before_rm && let Some(entry) = before_rm.get_mut(index) {
            *entry = true;
        }
    }
    Ok(before_rm)
}

/// Whether the command before a token of this kind is not the last one before what follows.
fn goes_on(kind: TokenKind) -> bool {
    matches!(
        kind,
        TokenKind::AndAnd
            | TokenKind::OrOr
            | TokenKind::Bar(_)
            | TokenKind::Ampersand
            | TokenKind::LeftBrace
            | TokenKind::RightBrace
            | TokenKind::RightParen
    )
}
