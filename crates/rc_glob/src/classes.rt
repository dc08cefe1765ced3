//! Classes of characters.
ghost use Rattle.std.specs.Prelude.{◌≡◌, ◌&&◌};
ghost use Rattle.rc_model.specs.Run.Patterns.{holds, is_between, is_marked};
ghost use Rattle.rc_model.specs.Mirrors.Greedy.{class_end, class_holds};
ghost use Rattle.rc_text.specs.Literals.{mark_of, marks};
ghost use Rattle.rc_glob.specs.Moves.{parts_of};

use rc_text::Ch;

pub(crate) fn is_marked(ch: Ch, c: char) -> bool
    ensures { result ≡ is_marked c (mark_of ch) }
{
    ch.pat && ch.c == c
}

/// The members of a class, whose `[` comes before the word, and what follows its `]`.
pub(crate) fn class_end(word: &[Ch]) -> Option<(&[Ch], &[Ch])>
    ensures { parts_of result ≡ class_end (marks word.now) }
{
    let mut place = 0;
    while place < word.len() {
        if is_marked(word[place], ']') {
            return Some((&word[..place], &word[place + 1..]));
        }
        place += 1;
    }
    None
}

fn is_between(low: char, high: char, c: char) -> bool
    ensures { result ≡ is_between low high c }
{
    low <= c && c <= high
}

/// Whether the character is one of the members, or is in one of their ranges.
fn holds(members: &[Ch], c: char) -> bool
    ensures { result ≡ holds (marks members.now) c }
{
    let mut rest = members;
    loop {
        let Some((first, others)) = rest.split_first() else {
            return false;
        };
        let Some((dash, more)) = others.split_first() else {
            return first.c == c;
        };
        let Some((last, after)) = more.split_first() else {
            return first.c == c || dash.c == c;
        };
        if is_marked(*dash, '-') {
            if is_between(first.c, last.c, c) {
                return true;
            }
            rest = after;
        } else {
            if first.c == c {
                return true;
            }
            rest = others;
        }
    }
}

/// Whether the class with these members holds the character.
pub(crate) fn class_holds(members: &[Ch], c: char) -> bool
    ensures { result ≡ class_holds (marks members.now) c }
{
    match members {
        [] => false,
        [first, others @ ..] if first.pat && first.c == '~' => !holds(others, c),
        _ => holds(members, c),
    }
}
