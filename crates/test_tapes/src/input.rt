//! The input of a run of the program.

use std::io;
use std::io::{ErrorKind, Read};

/// A text, after which there may be an error.
#[derive(Drop)]
pub struct Input<'a> {
    pub text: &'a [u8],
    pub is_broken: bool,
}

impl Read for Input<'_> {
    fn read(&mut self, buf: &mut [u8]) -> io::Result<usize> {
        if self.is_broken && self.text.is_empty() {
            return Err(io::Error::from(ErrorKind::Other));
        }
        self.text.read(buf)
    }
}
