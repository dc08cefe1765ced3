//! Tests of the public calls that run scripts, when memory runs out. The rows of `test_tapes` show what they do.
#![tactic(auto)]

#[cfg(test)]
mod copies;
#[cfg(test)]
mod family;
#[cfg(test)]
mod program;
#[cfg(test)]
mod shell;
#[cfg(test)]
mod support;
#[cfg(test)]
mod world;
