//! The results for images and for words.

use crate::row_error::RowError;
use rc_image::{
    ImageError, ImageFault, InputError, read_pieces, read_tree, write_pieces, write_tree,
};
use rc_tree::Cmd;
use std::alloc::{AllocError, Global};

/// The greatest length of an image that is cut at each place, in bytes.
const SHORT_IMAGE: usize = 1_000;

/// The greatest length of a word that is shown as it is, in bytes.
const SHORT_WORD: usize = 20;

/// The tree of an image, in a box: each place that may drop a tree takes long to prove.
pub fn tree_of(alloc: Global, image: &str) -> Result<Box<Cmd>, ImageError> {
    Ok(Box::new(alloc, read_tree(alloc, image)?)?)
}

/// Whether the tree of an image has this image.
fn is_read_back(alloc: Global, image: &str) -> Result<bool, ImageError> {
    let tree = tree_of(alloc, image)?;
    Ok(write_tree(alloc, &tree)?.as_str() == image)
}

/// Whether an image has the fault of one whose end is missing, wherever it is cut.
fn is_refused_where_cut(alloc: Global, image: &str) -> Result<bool, ImageError> {
    for place in 0..image.len() {
        let Some(cut) = image.get(..place) else {
            continue;
        };
        match is_read_back(alloc, cut) {
            Err(InputError::Fault(ImageFault::BadTag | ImageFault::BadLength)) => {}
            Err(InputError::NoMemory) => return Err(InputError::NoMemory),
            Ok(_) | Err(_) => return Ok(false),
        }
    }
    Ok(true)
}

/// Whether an image is read back, and a short one is refused wherever it is cut.
pub fn tree(alloc: Global, image: &str) -> Result<&'static str, ImageError> {
    if !is_read_back(alloc, image)? {
        return Ok("read back as another");
    }
    if SHORT_IMAGE < image.len() || is_refused_where_cut(alloc, image)? {
        Ok("read back")
    } else {
        Ok("read back, and not refused where it is cut")
    }
}

/// The words in which the tree of an image is handed over.
fn words_of(alloc: Global, image: &str) -> Result<Vec<String>, ImageError> {
    let tree = tree_of(alloc, image)?;
    write_pieces(alloc, &tree)
}

/// Adds short words as they are, and the lengths of others.
fn add_words(out: &mut String, words: &[String]) -> Result<(), AllocError> {
    for word in words {
        let length = word.len();
        if length <= SHORT_WORD {
            write!(out, "{word} ")?;
        } else {
            write!(out, "{length} ")?;
        }
    }
    Ok(())
}

/// Adds the words in which the tree of an image is handed over, and their result if another word follows.
pub fn add_pieces(alloc: Global, out: &mut String, image: &str) -> Result<(), RowError> {
    let mut words = words_of(alloc, image)?;
    add_words(out, &words)?;
    words.push(String::from_str(alloc, "x")?)?;
    add_taken(alloc, out, &words)
}

/// The tree of the first of these words, and how many it takes.
fn taken(alloc: Global, words: &[String]) -> Result<Box<(Cmd, usize)>, ImageError> {
    Ok(Box::new(alloc, read_pieces(alloc, words)?)?)
}

/// Adds the number of words, if the tree is handed over in these.
fn add_count(
    alloc: Global,
    out: &mut String,
    tree: &Cmd,
    taken: &[String],
) -> Result<(), RowError> {
    let words = write_pieces(alloc, tree)?;
    if words.as_slice() == taken {
        let count = taken.len();
        Ok(write!(out, "({count} read back)")?)
    } else {
        Ok(add_words(out, &words)?)
    }
}

/// Adds how many of these words the tree at their beginning takes.
pub fn add_taken(alloc: Global, out: &mut String, words: &[String]) -> Result<(), RowError> {
    let taken = taken(alloc, words)?;
    add_count(alloc, out, &taken.0, words.get(..taken.1).unwrap_or(&[]))
}
