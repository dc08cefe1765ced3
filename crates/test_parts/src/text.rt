//! A text in quotes, bytes as text, lists that are joined, and texts that are split, when memory runs out.

use rc_text::{InputError, List, Word, concat, count, lossy, quote, split};
use std::alloc::{AllocError, Global};
use std::test::Fail;

#[test]
fn out_of_memory_in_quotes_is_reported(rt: HostRuntime) -> Result<(), Fail> {
    let quoted = quote(rt.alloc(), "it's a long text")?;
    assert_eq!(rt; quoted.as_str(), "'it''s a long text'");
    Ok(())
}

#[test]
fn bytes_that_are_no_text_are_replaced(rt: HostRuntime) -> Result<(), Fail> {
    let text = lossy(rt.alloc(), &[0x61, 0xe2, 0x82, 0x62, 0])?;
    assert_eq!(rt; text.as_str(), "a\u{fffd}b");
    Ok(())
}

/// The texts as a list of quoted words.
fn list_of(alloc: Global, texts: &[&str]) -> Result<List, AllocError> {
    let mut list = List::new(alloc);
    for text in texts {
        list.push(Word::written(alloc, text, true)?)?;
    }
    Ok(list)
}

/// The number of words of two lists that are joined, and the text of the last.
fn joined(alloc: Global, left: &List, right: &List) -> Result<(usize, String), Fail> {
    match concat(alloc, left, right) {
        Ok(list) => {
            let last = list.words().last().map_or("", |word| word.text());
            Ok((count(&list), String::from_str(alloc, last)?))
        }
        Err(InputError::NoMemory) => Err(Fail::from(AllocError)),
        Err(_) => Err(Fail::from("lists that join")),
    }
}

#[test]
fn out_of_memory_among_lists_is_reported(rt: HostRuntime) -> Result<(), Fail> {
    let alloc = rt.alloc();
    let letters = list_of(alloc, &["a", "b", "c", "d", "e", "f", "g", "h", "i"])?;
    let numbers = list_of(alloc, &["1", "2", "3", "4", "5", "6", "7", "8", "9"])?;
    let (number, last) = joined(alloc, &letters, &numbers)?;
    assert_eq!(rt; number, 9);
    assert_eq!(rt; last.as_str(), "i9");
    let (number, last) = joined(alloc, &List::new(alloc), &List::new(alloc))?;
    assert_eq!(rt; number, 0);
    assert_eq!(rt; last.as_str(), "");
    Ok(())
}

#[test]
fn texts_are_split_at_separators(rt: HostRuntime) -> Result<(), Fail> {
    let alloc = rt.alloc();
    let members = split(alloc, "\ta b\n", " \t\n")?;
    let [first, second] = members.as_slice() else {
        return Err(Fail::from("two members"));
    };
    assert_eq!(rt; first.as_str(), "a");
    assert_eq!(rt; second.as_str(), "b");
    let members = split(alloc, "a b", "")?;
    let [only] = members.as_slice() else {
        return Err(Fail::from("one member"));
    };
    assert_eq!(rt; only.as_str(), "a b");
    Ok(())
}
