//! Tests of public calls when memory runs out: of scripts, patterns, file names, built-in commands, redirections and
//! the state; and of trees that no script has. The rows of `test_tapes` and `test_texts` show the rest.
#![tactic(auto)]

#[cfg(test)]
mod arguments;
#[cfg(test)]
mod directories;
#[cfg(test)]
mod expansion;
#[cfg(test)]
mod lexer;
#[cfg(test)]
mod matching;
#[cfg(test)]
mod names;
#[cfg(test)]
mod parser;
#[cfg(test)]
mod redirections;
#[cfg(test)]
mod states;
#[cfg(test)]
mod support;
#[cfg(test)]
mod text;
#[cfg(test)]
mod tree;
