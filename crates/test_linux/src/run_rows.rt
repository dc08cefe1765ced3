//! The rows of `runs.rows`.

use anyhow::{Result, bail};
use std::alloc::{AllocError, Global};

/// The heading of the result of a run.
const RESULT: &str = "\nresult: ";

/// A run: what it shows, the input of the shell, and the expected result.
pub struct Row {
    pub name: String,
    /// The arguments of the shell.
    pub words: Vec<String>,
    /// The text with which /bin/sh starts the shell, if it does.
    pub starter: Option<String>,
    /// The file that the shell reads, if it doesn't read a script.
    pub input: Option<String>,
    pub script: String,
    /// The status, and the lines that the shell writes, each after its descriptor.
    pub result: String,
}

impl Drop for Row {
    fn drop(self) {
        let Row {
            name: _,
            words: _,
            starter: _,
            input: _,
            script: _,
            result: _,
        } = self;
    }
}

/// A word, in which `\n` is a newline.
fn word(alloc: Global, written: &str) -> Result<String, AllocError> {
    let mut word = String::new(alloc);
    for (at, part) in written.split("\\n").enumerate() {
        if at > 0 {
            word.push('\n')?;
        }
        word.push_str(part)?;
    }
    Ok(word)
}

/// This many copies of a text.
fn repeated(alloc: Global, text: &str, times: u32) -> Result<String, AllocError> {
    let mut whole = String::new(alloc);
    for _ in 0..times {
        whole.push_str(text)?;
    }
    Ok(whole)
}

/// The script of these lines, each of which ends with a newline.
fn script_of(alloc: Global, lines: &str) -> Result<String, AllocError> {
    let mut script = String::from_str(alloc, lines)?;
    if !lines.is_empty() {
        script.push('\n')?;
    }
    Ok(script)
}

impl Row {
    /// Parses a row.
    pub fn read(alloc: Global, written: &str) -> Result<Row> {
        let Some((given, result)) = written.split_once(RESULT) else {
            bail!("a row has no result");
        };
        let (head, script) = given.split_once("script:\n").unwrap_or((given, ""));
        let (name, options) = head.split_once('\n').unwrap_or((head, ""));
        let mut row = Row {
            name: String::from_str(alloc, name)?,
            words: Vec::new(alloc),
            starter: None,
            input: None,
            script: script_of(alloc, script)?,
            result: String::from_str(alloc, result)?,
        };
        for option in options.lines() {
            row.take(alloc, option)?;
        }
        Ok(row)
    }

    /// Reads a line of the head.
    fn take(&mut self, alloc: Global, option: &str) -> Result<()> {
        let (kind, text) = option.split_once(' ').unwrap_or((option, ""));
        match kind {
            "word" => self.words.push(word(alloc, text)?)?,
            "sh" => self.starter = Some(String::from_str(alloc, text)?),
            "input" => self.input = Some(String::from_str(alloc, text)?),
            "times" => self.script = repeated(alloc, self.script.as_str(), text.parse()?)?,
            "spaces" => self.script = repeated(alloc, " ", text.parse()?)?,
            _ => bail!("no row has such a line"),
        }
        Ok(())
    }
}
