//! A text and a pattern.
use rc_glob::matches;
use rc_text::Word;
use std::test::Fail;

#[test]
fn a_star_stands_for_no_directory_of_a_path(rt: HostRuntime) -> Result<(), Fail> {
    let star = Word::written(rt.alloc(), "*", false)?;
    assert!(rt; !matches(&star, ".", true) && !matches(&star, "..", true));
    assert!(rt; matches(&star, ".h", true));
    assert!(rt; matches(&star, ".", false) && matches(&star, "..", false));
    Ok(())
}

#[test]
fn a_star_goes_past_no_slash_of_a_path(rt: HostRuntime) -> Result<(), Fail> {
    let last = Word::written(rt.alloc(), "*b", false)?;
    assert!(rt; matches(&last, "ab", true) && !matches(&last, "a/b", true));
    assert!(rt; matches(&last, "a/b", false));
    let inner = Word::written(rt.alloc(), "*ab*", false)?;
    assert!(rt; matches(&inner, "aab", true) && !matches(&inner, "a/ab", true));
    let spelled = Word::written(rt.alloc(), "*a/?*b", false)?;
    assert!(rt; matches(&spelled, "aa/ab", true) && !matches(&spelled, "a/aa/ab", true));
    assert!(rt; matches(&spelled, "a/aa/ab", false));
    Ok(())
}
