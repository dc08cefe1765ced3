//! Searching in a text, from its start and from its end.
ghost use Rattle.std.specs.Prelude.{◌≡◌, ◌<◌, ◌≤◌, ◌+◌, ◌*◌, ◌%◌, ◌^◌, ◌++◌, ◌∷◌, ◌==◌, [], true};
ghost use Rattle.std.specs.Prelude.{length, take, drop, option_map, IfSome, MatchOption};
ghost use Rattle.std.specs.Char.{encode_utf8};
ghost use Rattle.std.specs.List.{list_all};
ghost use Rattle.std.specs.Str.{chars, IsUtf8};
ghost use Rattle.rc_model.specs.Run.Patterns.{stands_for};
ghost use Rattle.rc_glob.specs.Characters.{characters};
ghost use Rattle.rc_glob.specs.Places.{begins_with, first_place};
ghost use Rattle.rc_glob.specs.Hashes.{add_char, scale_from, hash_from};

use rc_text::{Ch, first_char};

/// The prime of the 64-bit FNV hash: a hash is multiplied by it before the next character is added.
const FACTOR: u64 = 1_099_511_628_211;

/// Whether a pattern character may stand for the character.
pub(crate) fn stands_for(explicit: bool, c: char) -> bool
    ensures { result ≡ stands_for explicit c }
{
    !(explicit && c == '/')
}

/// Whether a star may stand for the whole text.
fn star_stands_for(explicit: bool, text: &str) -> bool
    ensures { result ≡ list_all (λ c. stands_for explicit c) (chars text.now) }
{
    if !explicit {
        return true;
    }
    text.chars().all(|c| stands_for(explicit, c))
}

/// Splits off the last character of the text.
fn last_char(text: &str) -> Option<(&str, char)>
    ensures bytes { IfSome result (λ x. text.now ≡ x.0.now ++ encode_utf8 x.1) }
    ensures chars { MatchOption result (chars text.now ≡ []) (λ x. chars text.now ≡ chars x.0.now ++ x.1 ∷ []) }
    ensures utf8 { IfSome result (λ x. IsUtf8 x.0.now) }
{
    let mut front = text.chars();
    match front.next_back() {
        Some(last) => Some((front.as_str(), last)),
        None => None,
    }
}

/// Splits off the last characters of the text, if it has as many.
fn split_last(count: usize, text: &str) -> Option<(&str, &str)>
    ensures parts { MatchOption result (length (chars text.now) < count)
        (λ x. (chars text.now ≡ chars x.0.now ++ chars x.1.now) × (length (chars x.1.now) ≡ count)) }
    ensures shorter { IfSome result (λ x. length x.1.now ≤ length text.now) }
    ensures utf8 { IfSome result (λ x. IsUtf8 x.1.now) }
{
    let mut front = text;
    let mut left = count;
    while left > 0 {
        let Some((before, _)) = last_char(front) else {
            return None;
        };
        front = before;
        left -= 1;
    }
    Some(text.split_at(front.len()))
}

/// The last characters of the text, if it has as many and a star may stand for those before them.
pub(crate) fn last_place(explicit: bool, count: usize, text: &str) -> Option<&str>
    ensures place { option_map (λ rest. chars rest.now) result
        ≡ first_place explicit (λ rest. length rest == count) (chars text.now) }
    ensures shorter { IfSome result (λ rest. length rest.now ≤ length text.now) }
    ensures utf8 { IfSome result (λ rest. IsUtf8 rest.now) }
{
    let Some((front, end)) = split_last(count, text) else {
        return None;
    };
    if star_stands_for(explicit, front) {
        Some(end)
    } else {
        None
    }
}

/// Multiplies and adds, modulo 2^64.
fn scaled(hash: u64, scale: u64, next: u64) -> u64
    ensures { result ≡ (hash * scale + next) % 2 ^ 64 }
{
    hash.wrapping_mul(scale).wrapping_add(next)
}

/// A hash with one more character.
fn add_char(hash: u64, c: char) -> u64
    ensures { result ≡ add_char hash c }
{
    scaled(hash, FACTOR, c as u64)
}

/// The hash of the characters.
fn hash_of(run: &[Ch]) -> u64
    ensures { result ≡ hash_from 0 (characters run.now) }
{
    let mut hash = 0;
    let mut rest = run;
    'run: while let Some((first, others)) = rest.split_first() {
        hash = add_char(hash, first.c);
        rest = others;
    }
    hash
}

/// The power of the prime by which the characters multiply the hash of those before them.
fn scale_of(run: &[Ch]) -> u64
    ensures { result ≡ scale_from 1 (characters run.now) }
{
    let mut scale: u64 = 1;
    let mut rest = run;
    'run: while let Some((_, others)) = rest.split_first() {
        scale = scale.wrapping_mul(FACTOR);
        rest = others;
    }
    scale
}

/// The hash of the first characters of the text, and what follows them, if it has that many.
fn read(count: usize, text: &str) -> Option<(u64, &str)>
    ensures parts { MatchOption result (length (chars text.now) < count)
        (λ x. (count ≤ length (chars text.now)) × (x.0 ≡ hash_from 0 (take count (chars text.now)))
        × (chars x.1.now ≡ drop count (chars text.now))) }
    ensures utf8 { IfSome result (λ x. IsUtf8 x.1.now) }
{
    let mut hash = 0;
    let mut rest = text;
    let mut left = count;
    while left > 0 {
        let Some((c, more)) = first_char(rest) else {
            return None;
        };
        hash = add_char(hash, c);
        rest = more;
        left -= 1;
    }
    Some((hash, rest))
}

/// Whether the text begins with the characters.
fn begins_with(run: &[Ch], text: &str) -> bool
    ensures { result ≡ begins_with (characters run.now) (chars text.now) }
{
    let mut left = run;
    let mut rest = text;
    'run: while let Some((first, others)) = left.split_first() {
        let Some((c, more)) = first_char(rest) else {
            return false;
        };
        if first.c != c {
            return false;
        }
        left = others;
        rest = more;
    }
    true
}

/// Whether the text begins with the characters. They are compared only if the hashes are equal.
fn stands_at(run: &[Ch], text: &str, hash: u64, wanted: u64) -> bool
    requires { begins_with (characters run.now) (chars text.now) ≡ true → hash ≡ wanted }
    ensures { result ≡ begins_with (characters run.now) (chars text.now) }
{
    if hash == wanted {
        begins_with(run, text)
    } else {
        false
    }
}

/// The text from the first place at which the characters occur, if a star may stand for what is before them. It is the
/// search of Rabin and Karp, by a rolling hash: the hash of the text up to the end of a window of as many characters
/// moves along with the place, and the window is compared only if its hash is that of the characters.
pub(crate) fn find<'a>(explicit: bool, run: &[Ch], text: &'a str) -> Option<&'a str>
    ensures place { option_map (λ rest. chars rest.now) result
        ≡ first_place explicit (begins_with (characters run.now)) (chars text.now) }
    ensures shorter { IfSome result (λ rest. length rest.now ≤ length text.now) }
    ensures utf8 { IfSome result (λ rest. IsUtf8 rest.now) }
{
    let goal = hash_of(run);
    let scale = scale_of(run);
    let mut before = 0;
    let mut place = text;
    let Some((mut hash, mut ahead)) = read(run.len(), text) else {
        return None;
    };
    'places: loop {
        if stands_at(run, place, hash, scaled(before, scale, goal)) {
            return Some(place);
        }
        let Some((c, more)) = first_char(place) else {
            return None;
        };
        if !stands_for(explicit, c) {
            return None;
        }
        let Some((next, further)) = first_char(ahead) else {
            return None;
        };
        before = add_char(before, c);
        hash = add_char(hash, next);
        place = more;
        ahead = further;
    }
}
