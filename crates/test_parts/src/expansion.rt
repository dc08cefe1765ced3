//! The file names of a word.
use rc_glob::expand;
use rc_text::Word;
use rc_world::{Answer, Fault, Kind, Stop, Tape};
use std::alloc::{AllocError, Global};
use std::test::Fail;

/// An answer with these names.
fn names(alloc: Global, all: &[&str]) -> Result<Answer, AllocError> {
    let mut names = Vec::new(alloc);
    for name in all {
        names.push(String::from_str(alloc, *name)?)?;
    }
    Ok(Answer::Names(names))
}

/// The names that the word stands for over these answers.
fn found(alloc: Global, word: &str, answers: Vec<Answer>) -> Result<Vec<String>, Fail> {
    let mut tape = Tape::new(answers);
    let word = Word::written(alloc, word, false)?;
    match expand(alloc, &mut tape, &word) {
        Ok(found) => Ok(found),
        Err(Stop::NoMemory) => Err(Fail::from(AllocError)),
        Err(Stop::Halt) => Err(Fail::new("a call was not answered")),
    }
}

#[test]
fn out_of_memory_among_file_names_is_reported(rt: HostRuntime) -> Result<(), Fail> {
    let alloc = rt.alloc();
    let answers = vec![in alloc;
        names(alloc, &["d2", "d1", "e"])?,
        Answer::Refused(Fault::NotFound),
        Answer::Found(Kind::Other),
    ]?;
    let found = found(alloc, "d*/f", answers)?;
    assert!(rt; found.len() == 1 && found[0].as_str() == "d2/f");
    Ok(())
}

#[test]
fn out_of_memory_among_paths_is_reported(rt: HostRuntime) -> Result<(), Fail> {
    let alloc = rt.alloc();
    let answers = vec![in alloc; names(alloc, &["d2", "d1", "e"])?]?;
    let found = found(alloc, "x/d*", answers)?;
    assert!(rt; found.len() == 2 && found[0].as_str() == "x/d1" && found[1].as_str() == "x/d2");
    Ok(())
}
