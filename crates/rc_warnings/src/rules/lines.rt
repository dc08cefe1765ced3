//! The rules for the lines of a script as a whole.

use crate::bytes::{after, before, find};
use crate::warnings::kind::WarningKind;
use crate::warnings::overview::first_line;
use crate::warnings::repair::Repair;
use crate::warnings::warning::Warning;

/// Shells that read another language.
const OTHERS: [&[u8]; 6] = [b"/sh", b"/bash", b"/dash", b"/zsh", b"/ksh", b"/fish"];

/// The warning for carriage returns at the ends of lines, at the first of them.
pub(crate) fn carriage_returns(script: &[u8]) -> Option<Warning> {
    let place = find(script, b"\r\n")?;
    let mut lines = 0usize;
    for byte in after(script, place) {
        lines = lines.saturating_add(usize::from(*byte == b'\r'));
    }
    Some(Warning {
        kind: WarningKind::CARRIAGE_RETURN,
        place,
        line: 1,
        repair: Repair::of_lines(lines, "remove them all, as with tr -d '\\r'"),
    })
}

/// The warning for a first line that starts no shell of this kind.
pub(crate) fn interpreter(script: &[u8]) -> Option<Warning> {
    let line = first_line(script);
    let words = line.strip_prefix(b"#!")?;
    let words = words.strip_prefix(b" ").unwrap_or(words);
    let program = before(words, b" ");
    let rest = after(words, program.len().saturating_add(1));
    let option = before(rest, b" ");
    let repair = repair_of(program, option, option.len() < rest.len())?;
    Some(Warning {
        kind: WarningKind::INTERPRETER,
        place: 0,
        line: 1,
        repair,
    })
}

/// What to write for this program with this word after it, and whether there are more.
fn repair_of(program: &[u8], option: &[u8], has_more: bool) -> Option<Repair> {
    let is_env = program.ends_with(b"/env");
    for other in &OTHERS {
        let is_named = is_env && other.strip_prefix(b"/") == Some(option);
        if is_named || program.ends_with(*other) {
            return Some(Repair::of("write the path of this shell after the #!"));
        }
    }
    if is_env && has_more && !option.starts_with(b"-S") {
        return Some(Repair::of("write env -S, which takes several words"));
    }
    let is_wrong = program.ends_with(b"/rc") && option.starts_with(b"-") && option.len() != 2
        || program.ends_with(b"/rc") && option.starts_with(b"-") && !option.ends_with(b"e");
    is_wrong.then_some(Repair::of("the only option that fits here is -e"))
}
