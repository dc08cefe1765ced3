//! Lines and columns.

ghost use Rattle.std.specs.Prelude.{◌≡◌, ◌<◌, ◌≤◌, ◌+◌, ◌^◌, length, IfSome};
ghost use Rattle.rc_model.specs.Syntax.Accepted.{line_of};
ghost use Rattle.rc_check.specs.Positions.{IsOnLine, IsReachedPlace, column_of, next_column, next_line};

/// The position of a byte in a text. Both numbers count from 1, and columns are of characters.
#[derive(Clone, Copy)]
pub struct Position {
    pub line: usize,
    pub column: usize,
}

/// A place in a text, with its position.
#[derive(Clone, Copy)]
pub(crate) struct ReachedPlace {
    pub(crate) place: usize,
    pub(crate) position: Position,
}

/// The position of the byte at this offset, or of the end of the text.
pub fn position_of(text: &[u8], place: usize) -> Position
    requires { place ≤ length text.now }
    ensures line { result.line ≡ line_of text.now place }
    ensures column { result.column ≡ column_of text.now place }
{
    walk(text, beginning(text), place).position
}

/// The beginning of a text.
pub(crate) fn beginning(text: &[u8]) -> ReachedPlace
    ensures reached { IsReachedPlace text.now result }
    ensures there { result.place ≡ 0 }
{
    let position = Position { line: 1, column: 1 };
    ReachedPlace { place: 0, position }
}

/// Goes to a place in a text. If that is not before the place that is reached, only the bytes between them are read.
pub(crate) fn go_to(text: &[u8], reached: ReachedPlace, place: usize) -> ReachedPlace
    requires within { place ≤ length text.now }
    requires reached { IsReachedPlace text.now reached }
    ensures reached { IsReachedPlace text.now result }
    ensures there { result.place ≡ place }
{
    if reached.place <= place {
        walk(text, reached, place)
    } else {
        walk(text, beginning(text), place)
    }
}

/// Goes forward to a place in a text.
#[tactic(auto, using(std::proofs::lemmas::List::Sums::fold_more, crate::proofs::Lines::line_more))]
fn walk(text: &[u8], reached: ReachedPlace, place: usize) -> ReachedPlace
    requires before { reached.place ≤ place }
    requires within { place ≤ length text.now }
    requires reached { IsReachedPlace text.now reached }
    ensures reached { IsReachedPlace text.now result }
    ensures there { result.place ≡ place }
{
    let Position {
        mut line,
        mut column,
    } = reached.position;
    for at in reached.place..place {
        line = next_line(line, text[at]);
        column = next_column(column, text[at]);
    }
    let position = Position { line, column };
    ReachedPlace { place, position }
}

/// The line after a byte.
fn next_line(line: usize, byte: u8) -> usize
    requires { line < 2 ^ 63 + 1 }
    ensures value { result ≡ next_line line byte }
    ensures bound { result ≤ line + 1 }
{
    if byte == b'\n' { line + 1 } else { line }
}

/// The column after a byte.
fn next_column(column: usize, byte: u8) -> usize
    requires { column < 2 ^ 63 + 1 }
    ensures value { result ≡ next_column column byte }
    ensures bound { result ≤ column + 1 }
{
    if byte == b'\n' {
        1
    } else if byte < 128 || byte > 191 {
        column + 1
    } else {
        column
    }
}

/// The offset, if it is in the text and on this line.
pub(crate) fn on_line(text: &[u8], line: usize, place: usize) -> Option<usize>
    ensures { IfSome result (IsOnLine text.now line) }
{
    if place > text.len() || position_of(text, place).line != line {
        return None;
    }
    Some(place)
}
