//! The lines of a layout.

use crate::laying::source::{Source, operator_and_mark};
use rc_lexer::{Span, Token, TokenKind};
use std::alloc::{AllocError, Global};

/// The lines so far.
#[derive(Drop)]
pub(crate) struct Lines<'a> {
    source: Source<'a>,
    text: Vec<u8>,
    /// The tabs before the line.
    pub(crate) depth: usize,
    /// The bodies of here documents that follow the line.
    bodies: Vec<Span>,
    /// Whether the line ends with a word that ends with a backslash.
    ends_with_backslash: bool,
}

impl<'a> Lines<'a> {
    /// An empty line.
    pub(crate) fn new(alloc: Global, source: Source<'a>) -> Lines<'a> {
        Lines {
            source,
            text: Vec::new(alloc),
            depth: 0,
            bodies: Vec::new(alloc),
            ends_with_backslash: false,
        }
    }

    /// The text of the lines.
    pub(crate) fn into_text(self) -> Vec<u8> {
        let Lines { text, .. } = self;
        text
    }

    /// Whether nothing is written.
    pub(crate) fn is_empty(&self) -> bool {
        self.text.is_empty()
    }

    /// Writes a text within the line.
    pub(crate) fn push(&mut self, text: &[u8]) -> Result<(), AllocError> {
        self.ends_with_backslash = false;
        self.text.extend_from_slice(text)
    }

    /// Writes a token. The body of a here document waits for the end of the line.
    pub(crate) fn push_token(&mut self, token: Token) -> Result<(), AllocError> {
        let text = self.source.text(token);
        if let TokenKind::HereDoc { body, .. } = token.kind {
            let (operator, mark) = operator_and_mark(text);
            self.push(operator)?;
            self.push(mark)?;
            self.bodies.push(body)?;
        } else {
            self.push(text)?;
        }
        self.ends_with_backslash = text.ends_with(b"\\");
        Ok(())
    }

    /// Ends the line. A blank keeps a backslash from continuing it. The here documents follow, each with the line of
    /// its mark.
    pub(crate) fn end(&mut self) -> Result<(), AllocError> {
        if self.ends_with_backslash {
            self.push(b" ")?;
        }
        self.push(b"\n")?;
        self.push_bodies()
    }

    /// Writes the bodies that wait.
    fn push_bodies(&mut self) -> Result<(), AllocError> {
        for body in &self.bodies {
            let start = body.start as usize;
            let stop = self.source.line_end(body.stop as usize);
            self.text.extend_from_slice(self.source.part(start, stop))?;
            self.text.push(b'\n')?;
        }
        self.bodies.clear();
        Ok(())
    }

    /// Ends the line, and begins one of this depth.
    pub(crate) fn go_to(&mut self, depth: usize) -> Result<(), AllocError> {
        if !self.is_empty() {
            self.end()?;
        }
        self.begin(depth)
    }

    /// Begins a line of this depth.
    fn begin(&mut self, depth: usize) -> Result<(), AllocError> {
        self.depth = depth;
        for _ in 0..depth {
            self.text.push(b'\t')?;
        }
        Ok(())
    }

    /// Continues the line on another one of this depth, without ending it.
    pub(crate) fn continue_at(&mut self, depth: usize) -> Result<(), AllocError> {
        self.push(b" \\\n")?;
        self.begin(depth)
    }
}
