//! The file names that words expand to.
ghost use Rattle.std.specs.Prelude.{◌≡◌, ◌∷◌, [], true, map, string_bytes, MatchResult};
ghost use Rattle.rc_world.specs.declared.starts.Stop.TheVariants.{NoMemory};
ghost use Rattle.rc_model.specs.Syntax.Words.{has_pattern};
ghost use Rattle.rc_model.specs.Run.Calls.{list_names, as_names};
ghost use Rattle.rc_model.specs.Run.State.{State};
ghost use Rattle.rc_model.specs.Run.Shell.{Next};
ghost use Rattle.rc_model.specs.Run.FileNames.{components, expanded, expanded_word, fitting_names, directory, if_there};
ghost use Rattle.rc_model.specs.Run.FileNames.{walk};
ghost use Rattle.rc_text.specs.Literals.{marks};
ghost use Rattle.rc_text.specs.Texts.{text_bytes};
ghost use Rattle.rc_world.specs.Comes.{Asks, Comes};
ghost use Rattle.rc_glob.specs.Paths.{expanded_texts, paths_from, words_for};

use crate::components::{advance, directory, only, paths_in, push_text};
use crate::file_names::{fitting_names, ordered_paths};
use rc_text::{Ch, List, Text, Word, any_pattern, joined_text};
use rc_world::{Stop, World, calls};
use std::alloc::Global;

/// The names in a directory that the component matches, or none if it can't be read.
fn listed<W: World>(
    alloc: Global,
    world: &mut W,
    path: &str,
    component: &[Ch],
) -> Result<Vec<String>, Stop>
    ensures { Asks W.events world.old world.new (list_names (directory path.now))
        (λ a. fitting_names (marks component.now) (as_names a)) (λ names. map string_bytes names.items) result }
{
    let given = calls::list(world, directory(path))?;
    match given {
        Some(names) => Ok(fitting_names(component, names)),
        None => Ok(Vec::new(alloc)),
    }
}

/// The path, if something is there.
fn if_there<W: World>(alloc: Global, world: &mut W, path: String) -> Result<Vec<Text>, Stop>
    ensures { (s : State) → Comes (W.events world.old) (W.events world.new) (if_there (string_bytes path) s)
        (λ paths. Next (map text_bytes paths.items) s) result }
{
    let found = calls::probe(world, &path)?;
    match found {
        Some(_) => Ok(only(alloc, path)?),
        None => Ok(Vec::new(alloc)),
    }
}

/// The paths that begin with this one and go on with the components of the word.
#[cycle(walk)]
fn walk<W: World>(
    alloc: Global,
    world: &mut W,
    mut path: String,
    word: &[Ch],
) -> Result<Vec<Text>, Stop>
    requires { has_pattern (marks word.now) ≡ true }
    ensures { (s : State) → Comes (W.events world.old) (W.events world.new)
        (paths_from (components (marks word.now)) (string_bytes path) s)
        (λ paths. Next (map text_bytes paths.items) s) result }
{
    let (component, rest) = advance(&mut path, word)?;
    let names = listed(alloc, world, &path, component)?;
    let Some(rest) = rest else {
        return Ok(paths_in(alloc, &path, names)?);
    };
    let mut found = Vec::new(alloc);
    for name in &names {
        let whole = joined_text(alloc, &path, name)?;
        let mut below = walk_on(alloc, world, whole, rest)?;
        found.append(&mut below)?;
    }
    Ok(found)
}

/// The paths that begin with this one and go on with a slash and these components.
#[cycle(walk)]
fn walk_on<W: World>(
    alloc: Global,
    world: &mut W,
    mut path: String,
    rest: &[Ch],
) -> Result<Vec<Text>, Stop>
    ensures { (s : State) → Comes (W.events world.old) (W.events world.new)
        (walk (components (marks rest.now)) (string_bytes path) s)
        (λ paths. Next (map text_bytes paths.items) s) result }
{
    path.push('/')?;
    if any_pattern(rest) {
        return walk(alloc, world, path, rest);
    }
    push_text(&mut path, rest)?;
    if_there(alloc, world, path)
}

/// The word alone.
fn itself(alloc: Global, word: &Word) -> Result<List, Stop>
    ensures { MatchResult result (λ list. list ≡ word.now ∷ []) (λ stop. stop ≡ NoMemory) }
{
    let mut list = List::new(alloc);
    list.push(word.clone()?)?;
    Ok(list)
}

/// Returns the names of the files that the word matches, in byte order. There is none if it stands for itself: it has
/// no pattern character, or no file matches it.
pub fn find_files<W: World>(
    alloc: Global,
    world: &mut W,
    word: &Word,
) -> Result<Option<Vec<Text>>, Stop>
    ensures { (s : State) → Comes (W.events world.old) (W.events world.new) (expanded_word word.now s)
        (λ names. Next (words_for word.now names) s) result }
{
    let Some(chars) = word.pattern() else {
        return Ok(None);
    };
    let paths = walk(alloc, world, String::new(alloc), chars)?;
    if paths.as_slice().is_empty() {
        return Ok(None);
    }
    Ok(Some(ordered_paths(paths)))
}

/// The words that a word stands for.
fn expand_word<W: World>(alloc: Global, world: &mut W, word: &Word) -> Result<List, Stop>
    ensures { (s : State) → Comes (W.events world.old) (W.events world.new) (expanded_word word.now s)
        (λ list. Next list s) result }
{
    match find_files(alloc, world, word)? {
        Some(names) => Ok(List::plain(alloc, names)?),
        None => itself(alloc, word),
    }
}

/// Returns the names of the files that the word matches, in byte order; or its own text, if it has no pattern character
/// or there are none.
pub fn expand<W: World>(alloc: Global, world: &mut W, word: &Word) -> Result<Vec<String>, Stop>
    ensures { (s : State) → Comes (W.events world.old) (W.events world.new) (expanded_texts word.now s)
        (λ texts. Next (map string_bytes texts.items) s) result }
{
    let list = expand_word(alloc, world, word)?;
    Ok(list.into_texts(alloc)?)
}

/// Expands each of the words, one after the other.
pub fn expand_all<W: World>(alloc: Global, world: &mut W, words: &[Word]) -> Result<List, Stop>
    ensures { (s : State) → Comes (W.events world.old) (W.events world.new) (expanded words.now s)
        (λ list. Next list s) result }
{
    let mut all = List::new(alloc);
    for word in words {
        all.append(expand_word(alloc, world, word)?)?;
    }
    Ok(all)
}
