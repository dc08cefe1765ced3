//! The components of a word, and the paths that they make.
ghost use Rattle.std.specs.Prelude.{◌≡◌, ◌<◌, ◌++◌, ◌∷◌, [], true, length, map, string_bytes, IfOk, IfSome, OnOk};
ghost use Rattle.rc_model.specs.Syntax.Words.{has_pattern, word_text};
ghost use Rattle.rc_model.specs.Run.FileNames.{components, directory, listed, walk};
ghost use Rattle.rc_text.specs.Literals.{marks};
ghost use Rattle.rc_text.specs.Texts.{text_bytes};
ghost use Rattle.rc_glob.specs.Paths.{components_of, paths_from};

use rc_text::{Ch, Text, any_pattern};
use std::alloc::{AllocError, Global};

/// The characters up to a slash, and what follows it.
fn first_component(word: &[Ch]) -> (&[Ch], Option<&[Ch]>)
    ensures cut { components (marks word.now) ≡ marks result.0.now ∷ components_of result.1 }
    ensures shorter { IfSome result.1 (λ rest. length rest.now < length word.now) }
{
    let mut place = 0;
    while place < word.len() {
        if word[place].c == '/' {
            return (&word[..place], Some(&word[place + 1..]));
        }
        place += 1;
    }
    (word, None)
}

/// Adds the characters at the end of a path.
pub(crate) fn push_text(path: &mut String, word: &[Ch]) -> Result<(), AllocError>
    ensures { OnOk result (string_bytes path.new ≡ string_bytes path.old ++ word_text (marks word.now)) }
{
    for ch in word {
        path.push(ch.c)?;
    }
    Ok(())
}

/// Skips the components without pattern characters, up to the first that has one, and returns what follows it.
pub(crate) fn advance<'a>(
    path: &mut String,
    word: &'a [Ch],
) -> Result<(&'a [Ch], Option<&'a [Ch]>), AllocError>
    requires { has_pattern (marks word.now) ≡ true }
    ensures goes_on { IfOk result (λ at. paths_from (components (marks word.now)) (string_bytes path.old)
        ≡ listed (marks at.0.now) (walk (components_of at.1)) (string_bytes path.new)) }
    ensures shorter { IfOk result (λ at. IfSome at.1 (λ rest. length rest.now < length word.now)) }
{
    let mut rest = word;
    loop {
        let (component, after) = first_component(rest);
        if any_pattern(component) {
            return Ok((component, after));
        }
        let Some(more) = after else {
            return Ok((component, None));
        };
        push_text(path, component)?;
        path.push('/')?;
        rest = more;
    }
}

/// The directory with this path.
pub(crate) fn directory(path: &str) -> &str
    ensures { result.now ≡ directory path.now }
{
    if path.is_empty() { "." } else { path }
}

/// The path of this name in the directory with this path.
fn path_in(alloc: Global, directory: &Text, name: String) -> Result<Text, AllocError>
    ensures { IfOk result (λ path. text_bytes path ≡ text_bytes directory.now ++ string_bytes name) }
{
    if directory.as_str().is_empty() {
        return Text::from_string(alloc, name);
    }
    let mut path = directory.clone()?;
    path.push_str(alloc, &name)?;
    Ok(path)
}

/// The paths of the names in the directory with this path.
pub(crate) fn paths_in(
    alloc: Global,
    path: &str,
    names: Vec<String>,
) -> Result<Vec<Text>, AllocError>
    ensures { IfOk result (λ paths. map text_bytes paths.items
        ≡ map (λ name. path.now ++ name) (map string_bytes names.items)) }
{
    let directory = Text::of(alloc, path)?;
    let mut paths = Vec::with_capacity(alloc, names.len())?;
    for name in names {
        paths.push(path_in(alloc, &directory, name)?)?;
    }
    Ok(paths)
}

/// This path alone.
pub(crate) fn only(alloc: Global, path: String) -> Result<Vec<Text>, AllocError>
    ensures { IfOk result (λ paths. map text_bytes paths.items ≡ string_bytes path ∷ []) }
{
    let mut paths = Vec::new(alloc);
    paths.push(Text::from_string(alloc, path)?)?;
    Ok(paths)
}
