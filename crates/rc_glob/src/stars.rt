//! The part of a word after a star: where it can begin.
ghost use Rattle.std.specs.Prelude.{◌≡◌, ◌<◌, ◌≤◌, ◌∷◌, [], false, length, option_map, IfSome};
ghost use Rattle.std.specs.Str.{chars, IsUtf8};
ghost use Rattle.rc_model.specs.Syntax.Words.{is_pattern};
ghost use Rattle.rc_model.specs.Run.Patterns.{is_marked, Inside, Outside, parts_from};
ghost use Rattle.rc_text.specs.Literals.{mark_of, marks};
ghost use Rattle.rc_glob.specs.Characters.{characters};
ghost use Rattle.rc_glob.specs.Places.{first_place, later_place, one_more, plain_front, width};
ghost use Rattle.rc_glob.specs.Begin.{can_begin, IsStartOf};

use crate::classes::{class_end, is_marked};
use crate::search::{find, last_place, stands_for};
use rc_text::{Ch, first_char};

/// Where the part of a word after a star can begin.
#[derive(Clone, Copy)]
pub(crate) enum Start<'a> {
    /// This many characters before the end of the text, since there is no star in the word.
    BeforeEnd(usize),
    /// Wherever the text goes on with these characters.
    AtFront(&'a [Ch]),
}

/// Whether the character is a marked `*`, `?` or `[`.
fn is_pattern(ch: Ch) -> bool
    ensures { result ≡ is_pattern (mark_of ch) }
{
    ch.pat && (ch.c == '*' || ch.c == '?' || ch.c == '[')
}

/// The characters in front of the first pattern character.
fn plain_front(word: &[Ch]) -> &[Ch]
    ensures { characters result.now ≡ plain_front (marks word.now) }
{
    let mut place = 0;
    while place < word.len() {
        if is_pattern(word[place]) {
            return &word[..place];
        }
        place += 1;
    }
    word
}

/// The word after a class, whose `[` comes before it; empty if no `]` closes it.
fn after_class(word: &[Ch]) -> &[Ch]
    ensures width { width (parts_from (Inside []) (marks word.now))
        ≡ one_more (width (parts_from Outside (marks result.now))) }
    ensures shorter { length result.now ≤ length word.now }
{
    match class_end(word) {
        Some((_, after)) => after,
        None => &[],
    }
}

/// The word after its first character, or after the class that it begins.
fn after_part(first: Ch, others: &[Ch]) -> &[Ch]
    requires { is_marked 42 (mark_of first) ≡ false }
    ensures width { width (parts_from Outside (mark_of first ∷ marks others.now))
        ≡ one_more (width (parts_from Outside (marks result.now))) }
    ensures shorter { length result.now ≤ length others.now }
{
    if is_marked(first, '[') {
        after_class(others)
    } else {
        others
    }
}

/// How many characters the word stands for, if there is no star in it.
fn width(word: &[Ch]) -> Option<usize>
    ensures { result ≡ width (parts_from Outside (marks word.now)) }
{
    let mut count = 0;
    let mut rest = word;
    'parts: while let Some((first, others)) = rest.split_first() {
        if is_marked(*first, '*') {
            return None;
        }
        rest = after_part(*first, others);
        count += 1;
    }
    Some(count)
}

/// Where a word that has a star can begin. Its characters up to the star are looked for. If there is a `?` or a class
/// among them, each place is tried.
fn start_before_star(word: &[Ch]) -> Start<'_>
    ensures { IsStartOf result (marks word.now) }
{
    let front = plain_front(word);
    match word.get(front.len()) {
        Some(next) if is_marked(*next, '*') => Start::AtFront(front),
        _ => Start::AtFront(&[]),
    }
}

/// Where the word can begin after a star.
pub(crate) fn start_of(word: &[Ch]) -> Start<'_>
    ensures { IsStartOf result (marks word.now) }
{
    match width(word) {
        Some(count) => Start::BeforeEnd(count),
        None => start_before_star(word),
    }
}

/// The text from the first place at which the word can begin, if the star may stand for what is before that.
pub(crate) fn next_place<'a>(explicit: bool, start: Start<'_>, text: &'a str) -> Option<&'a str>
    ensures place { option_map (λ rest. chars rest.now) result
        ≡ first_place explicit (can_begin start.entry) (chars text.now) }
    ensures shorter { IfSome result (λ rest. length rest.now ≤ length text.now) }
    ensures utf8 { IfSome result (λ rest. IsUtf8 rest.now) }
{
    match start {
        Start::BeforeEnd(count) => last_place(explicit, count, text),
        Start::AtFront(front) => find(explicit, front, text),
    }
}

/// The same from the second character of the text on, if the star may stand for the first one too.
pub(crate) fn later_place<'a>(explicit: bool, start: Start<'_>, text: &'a str) -> Option<&'a str>
    ensures place { option_map (λ rest. chars rest.now) result
        ≡ later_place explicit (can_begin start.entry) (chars text.now) }
    ensures shorter { IfSome result (λ rest. length rest.now < length text.now) }
    ensures utf8 { IfSome result (λ rest. IsUtf8 rest.now) }
{
    let Some((c, more)) = first_char(text) else {
        return None;
    };
    if stands_for(explicit, c) {
        next_place(explicit, start, more)
    } else {
        None
    }
}
