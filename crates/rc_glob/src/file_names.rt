//! The names that a component matches.
ghost use Rattle.std.specs.Prelude.{◌≡◌, ◌==◌, ◌||◌, ◌&&◌, not, true, bytes_eq, map, string_bytes, IsTrue, Some};
ghost use Rattle.std.specs.List.{dedup, list_any};
ghost use Rattle.std.specs.List.Sorted.{IsPermutation, IsSorted, IsStrictlySortedBy};
ghost use Rattle.std.specs.String.{string_cmp};
ghost use Rattle.std.specs.Str.{chars};
ghost use Rattle.rc_model.specs.Run.Patterns.{matches};
ghost use Rattle.rc_model.specs.Syntax.Text.{text_cmp};
ghost use Rattle.rc_model.specs.Run.FileNames.{fitting_names, is_no_name, ordered};
ghost use Rattle.rc_text.specs.Literals.{marks};
ghost use Rattle.rc_text.specs.Texts.{text_bytes};

use crate::matching::is_match;
use rc_text::{Ch, Text};

fn has_separator(name: &str) -> bool
    ensures { result ≡ list_any (λ c. (c == 47) || (c == 0)) name.now }
{
    name.bytes().any(|byte| byte == b'/' || byte == 0)
}

/// Whether no file can have this name.
fn is_no_name(name: &str) -> bool
    ensures { result ≡ is_no_name name.now }
{
    name.is_empty() || name == "." || name == ".." || has_separator(name)
}

/// Whether a file can have this name, and the component matches it. There is no slash in it, at which a pattern
/// character would have to stop.
fn is_fitting(component: &[Ch], name: &str) -> bool
    ensures { result ≡ (not (is_no_name name.now) && matches (marks component.now) (chars name.now) true) }
{
    !is_no_name(name) && is_match(component, name, false)
}

/// The names that the component matches, in byte order and each once.
pub(crate) fn fitting_names(component: &[Ch], mut names: Vec<String>) -> Vec<String>
    ensures { map string_bytes result.items
        ≡ fitting_names (marks component.now) (Some (map string_bytes names.items)) }
{
    names.retain(|name| is_fitting(component, name));
    ordered(names)
}

/// Sorts the texts. Names that were found in order stay as they are.
fn sorted(mut texts: Vec<String>) -> Vec<String>
    ensures permutation { IsPermutation texts.items result.items }
    ensures sorted { IsSorted string_cmp result.items }
{
    if texts.as_slice().is_sorted() {
        return texts;
    }
    texts.sort_unstable();
    texts
}

/// Puts the texts in byte order, each once.
pub(crate) fn ordered(texts: Vec<String>) -> Vec<String>
    ensures { map string_bytes result.items ≡ ordered (map string_bytes texts.items) }
{
    let mut names = sorted(texts);
    names.dedup();
    names
}

/// Whether each path is below the next.
fn are_rising(paths: &[Text]) -> bool
    ensures { IsTrue result → IsStrictlySortedBy text_cmp (map text_bytes paths.now) }
{
    paths.is_sorted_by(|a, b| a.as_str() < b.as_str())
}

/// Sorts the paths.
fn sort_paths(paths: &mut Vec<Text>)
    ensures permutation { IsPermutation paths.old.items paths.new.items }
    ensures sorted { IsSorted (λ p q. text_cmp (text_bytes p) (text_bytes q)) paths.new.items }
{
    paths.sort_unstable_by(|a, b| a.as_str().cmp(b.as_str()));
}

/// Removes each path that equals the one before it.
fn dedup_paths(paths: &mut Vec<Text>)
    ensures { paths.new.items ≡ dedup (λ p q. bytes_eq (text_bytes p) (text_bytes q)) paths.old.items }
{
    paths.dedup_by(|a, b| a.as_str() == b.as_str());
}

/// Puts the paths in byte order, each once. Those of one directory are found in this order.
pub(crate) fn ordered_paths(mut paths: Vec<Text>) -> Vec<Text>
    ensures { map text_bytes result.items ≡ ordered (map text_bytes paths.items) }
{
    if !are_rising(&paths) {
        sort_paths(&mut paths);
        dedup_paths(&mut paths);
    }
    paths
}
