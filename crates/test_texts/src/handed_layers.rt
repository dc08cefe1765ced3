//! The results for the rows of a file, and their notation.

use crate::images::{add_pieces, add_taken, tree};
use crate::row_error::RowError;
use crate::row_texts::{list, text};
use crate::states::begun;
use std::alloc::{AllocError, Global};

/// The kind of result for a row.
#[derive(Clone, Copy)]
pub enum Layer {
    /// Whether an image is read back. The row is the image.
    Trees,
    /// The words in which the tree of an image is handed over. The row is the image.
    Pieces,
    /// How many of the words the tree at their beginning takes. The row is a list of words.
    Words,
    /// The state that a shell begins with, or what it then hands over. The row has an option on each line, and the
    /// expected result several lines.
    States,
}

impl Layer {
    /// The separators between rows, and between a row and the expected result.
    pub fn separators(self) -> (&'static str, &'static str) {
        match self {
            Layer::States => ("\n\n", "\n==>\n"),
            _ => ("\n", "  ==>  "),
        }
    }

    /// Adds the result for a row, unless it is a fault.
    fn answer(self, alloc: Global, out: &mut String, written: &str) -> Result<(), RowError> {
        match self {
            Layer::Trees => {
                let shown = tree(alloc, &text(alloc, written)?)?;
                Ok(out.push_str(shown)?)
            }
            Layer::Pieces => add_pieces(alloc, out, &text(alloc, written)?),
            Layer::Words => add_taken(alloc, out, &list(alloc, written)?),
            Layer::States => begun(alloc, out, written),
        }
    }

    /// The result for a row, or the fault of an image in it.
    pub fn show(self, alloc: Global, written: &str) -> Result<String, AllocError> {
        let mut out = String::new(alloc);
        match self.answer(alloc, &mut out, written) {
            Ok(()) => {}
            Err(RowError::Image(fault)) => write!(out, "{fault}")?,
            Err(RowError::BadRow) => out.push_str("this is no row")?,
            Err(RowError::NoMemory) => return Err(AllocError),
        }
        Ok(out)
    }
}
