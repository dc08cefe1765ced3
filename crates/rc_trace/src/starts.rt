//! What is started, as a script would write it.

ghost use Rattle.std.specs.Prelude.{◌≡◌, ◌++◌, OnOk, map, option_map, string_bytes};
ghost use Rattle.std.specs.List.{flat_map, list_any};
ghost use Rattle.std.specs.Str.{chars};
ghost use Rattle.rc_model.specs.Handed.Environment.{cut_entry};
ghost use Rattle.rc_text.specs.Texts.{text_bytes};
ghost use Rattle.rc_trace.specs.Starts.{binding_text, command_text, entry_text, gone_of, gone_text, has_name};
ghost use Rattle.rc_trace.specs.Starts.{is_among, is_named, is_odd_member, is_plain_list, is_separator, member_char};
ghost use Rattle.rc_trace.specs.Starts.{news_of, news_text, redirection, redirections, start_text, unless_named};
ghost use Rattle.rc_trace.specs.Starts.{value_text, variable_text};
ghost use Rattle.rc_trace.specs.Views.{pair_of};
ghost use Rattle.rc_world.specs.Views.{launch_of, program_of};

use crate::call_texts::push_numbered;
use crate::pieces::push_shell;
use crate::quotes::{characters, is_odd, past, push_word, push_words};
use rc_text::Text;
use rc_world::{Launch, Program, Slot, Slots};
use std::alloc::AllocError;

/// Writes a launch, with the names that were known and are gone, and the entries of its environment that aren't known.
/// What a shell is to run is written as its text, or as its image if images are wanted.
#[tactic(auto, unfolding(crate::specs::Starts::start_text))]
pub(crate) fn push_start(
    out: &mut String,
    launch: &Launch,
    known: &[String],
    images: bool,
) -> Result<(), AllocError>
    ensures { OnOk result (string_bytes out.new
        ≡ string_bytes out.old ++ start_text (map string_bytes known.now) images (launch_of launch.now)) }
{
    out.push_str("start ")?;
    push_gone(out, known, &launch.env)?;
    push_news(out, &launch.env, known, images)?;
    push_command(out, &launch.program, &launch.args, images)?;
    push_redirections(out, launch.slots)
}

/// Writes the names of known entries that are gone, each as an empty list before a blank.
fn push_gone(out: &mut String, known: &[String], entries: &[Text]) -> Result<(), AllocError>
    ensures { OnOk result (string_bytes out.new
        ≡ string_bytes out.old ++ gone_text (map text_bytes entries.now) (map string_bytes known.now)) }
{
    for entry in known {
        push_if_gone(out, entry, entries)?;
    }
    Ok(())
}

/// Writes the name of a known entry as an empty list before a blank, if none of these entries has it.
#[tactic(auto, unfolding(crate::specs::Starts::gone_of))]
fn push_if_gone(out: &mut String, known: &str, entries: &[Text]) -> Result<(), AllocError>
    ensures { OnOk result (string_bytes out.new
        ≡ string_bytes out.old ++ gone_of (map text_bytes entries.now) known.now) }
{
    match cut(known) {
        None => Ok(()),
        Some((name, _)) => push_unless_named(out, name, entries),
    }
}

/// Writes a name as an empty list before a blank, if none of these entries has it.
fn push_unless_named(out: &mut String, name: &str, entries: &[Text]) -> Result<(), AllocError>
    ensures { OnOk result (string_bytes out.new
        ≡ string_bytes out.old ++ unless_named (map text_bytes entries.now) name.now) }
{
    if has_name(entries, name) {
        return Ok(());
    }
    out.push_str(name)?;
    out.push_str("=() ")
}

/// Whether one of these entries has this name.
fn has_name(entries: &[Text], name: &str) -> bool
    ensures { result ≡ has_name (map text_bytes entries.now) name.now }
{
    entries.iter().any(|entry| is_named(entry.as_str(), name))
}

/// Whether an entry has this name.
#[tactic(auto, unfolding(crate::specs::Starts::is_named))]
fn is_named(entry: &str, name: &str) -> bool
    ensures { result ≡ is_named name.now entry.now }
{
    match cut(entry) {
        None => false,
        Some((its, _)) => its == name,
    }
}

/// Writes the entries that aren't known, each before a blank.
fn push_news(
    out: &mut String,
    entries: &[Text],
    known: &[String],
    images: bool,
) -> Result<(), AllocError>
    ensures { OnOk result (string_bytes out.new
        ≡ string_bytes out.old ++ news_text (map string_bytes known.now) images (map text_bytes entries.now)) }
{
    for entry in entries {
        push_if_new(out, entry.as_str(), known, images)?;
    }
    Ok(())
}

/// Writes an entry before a blank, unless it is known.
#[tactic(auto, unfolding(crate::specs::Starts::news_of))]
fn push_if_new(
    out: &mut String,
    entry: &str,
    known: &[String],
    images: bool,
) -> Result<(), AllocError>
    ensures { OnOk result (string_bytes out.new
        ≡ string_bytes out.old ++ news_of (map string_bytes known.now) images entry.now) }
{
    if is_among(known, entry) {
        return Ok(());
    }
    push_entry(out, entry, images)?;
    out.push_str(" ")
}

/// Whether a text is one of these.
fn is_among(texts: &[String], text: &str) -> bool
    ensures { result ≡ is_among (map string_bytes texts.now) text.now }
{
    texts.iter().any(|one| one.as_str() == text)
}

/// Writes an entry of an environment.
#[tactic(auto, unfolding(crate::specs::Starts::entry_text))]
fn push_entry(out: &mut String, entry: &str, images: bool) -> Result<(), AllocError>
    ensures { OnOk result (string_bytes out.new ≡ string_bytes out.old ++ entry_text images entry.now) }
{
    match cut(entry) {
        None => push_word(out, entry),
        Some((name, text)) => push_binding(out, name, text, images),
    }
}

/// The name of an entry and the text after that.
fn cut(entry: &str) -> Option<(&str, &str)>
    ensures { option_map pair_of result ≡ cut_entry entry.now }
{
    entry.split_once('=')
}

/// Writes what a name is bound to: a function by its name, unless images are wanted, and a variable with its value.
#[tactic(auto, unfolding(crate::specs::Starts::binding_text))]
fn push_binding(out: &mut String, name: &str, text: &str, images: bool) -> Result<(), AllocError>
    ensures { OnOk result (string_bytes out.new ≡ string_bytes out.old ++ binding_text images name.now text.now) }
{
    if images {
        return push_variable(out, name, text);
    }
    match past("fn#", name) {
        None => push_variable(out, name, text),
        Some(function) => {
            out.push_str("fn ")?;
            push_word(out, function)
        }
    }
}

/// Writes a variable with its value.
fn push_variable(out: &mut String, name: &str, text: &str) -> Result<(), AllocError>
    ensures { OnOk result (string_bytes out.new ≡ string_bytes out.old ++ variable_text name.now text.now) }
{
    out.push_str(name)?;
    out.push_str("=")?;
    push_value(out, text)
}

/// Writes a value: its members in parentheses, or a word.
#[tactic(auto, unfolding(crate::specs::Starts::value_text))]
fn push_value(out: &mut String, text: &str) -> Result<(), AllocError>
    ensures { OnOk result (string_bytes out.new ≡ string_bytes out.old ++ value_text text.now) }
{
    if !is_plain_list(text) {
        return push_word(out, text);
    }
    let characters = characters(*out.allocator(), text)?;
    out.push_str("(")?;
    push_members(out, &characters)?;
    out.push_str(")")
}

/// Whether a value has several members, of which none needs quotes.
#[tactic(auto, unfolding(crate::specs::Starts::is_plain_list))]
fn is_plain_list(text: &str) -> bool
    ensures { result ≡ is_plain_list text.now }
{
    has_separator(text) && !has_odd_member(text)
}

fn has_separator(text: &str) -> bool
    ensures { result ≡ list_any is_separator (chars text.now) }
{
    text.chars().any(|c| is_separator(c))
}

fn has_odd_member(text: &str) -> bool
    ensures { result ≡ list_any is_odd_member (chars text.now) }
{
    text.chars().any(|c| is_odd_member(c))
}

/// Whether a character stands between members.
#[tactic(auto, unfolding(crate::specs::Starts::is_separator))]
fn is_separator(c: char) -> bool
    ensures { result ≡ is_separator c }
{
    c == '\u{1}'
}

/// Whether a member with this character needs quotes.
#[tactic(auto, unfolding(crate::specs::Starts::is_odd_member))]
fn is_odd_member(c: char) -> bool
    ensures { result ≡ is_odd_member c }
{
    !is_separator(c) && is_odd(c)
}

/// Writes the members of a value, which byte 1 separates, with blanks between them.
fn push_members(out: &mut String, characters: &[char]) -> Result<(), AllocError>
    ensures { OnOk result (string_bytes out.new ≡ string_bytes out.old ++ flat_map member_char characters.now) }
{
    for c in characters {
        push_member_char(out, *c)?;
    }
    Ok(())
}

#[tactic(auto, unfolding(crate::specs::Starts::member_char, crate::specs::Starts::is_separator))]
fn push_member_char(out: &mut String, c: char) -> Result<(), AllocError>
    ensures { OnOk result (string_bytes out.new ≡ string_bytes out.old ++ member_char c) }
{
    if is_separator(c) {
        return out.push_str(" ");
    }
    out.push(c)
}

/// Writes what is to run: a program or a shell.
#[tactic(auto, unfolding(crate::specs::Starts::command_text))]
fn push_command(
    out: &mut String,
    program: &Program,
    args: &[Text],
    images: bool,
) -> Result<(), AllocError>
    ensures { OnOk result (string_bytes out.new
        ≡ string_bytes out.old ++ command_text images (program_of program.now) (map text_bytes args.now)) }
{
    match program {
        Program::Shell => push_shell(out, args, images),
        Program::Path(path) => {
            push_word(out, path)?;
            push_words(out, args)
        }
    }
}

/// Writes the descriptors that are redirected.
fn push_redirections(out: &mut String, slots: Slots) -> Result<(), AllocError>
    ensures { OnOk result (string_bytes out.new ≡ string_bytes out.old ++ redirections slots) }
{
    push_redirection(out, (" <", " <[0="), 0, slots.input)?;
    push_redirection(out, (" >", " >[1="), 1, slots.output)?;
    push_redirection(out, (" >[2]", " >[2="), 2, slots.errors)
}

/// Writes what opens or copies a descriptor, if that isn't the shell's own of the same number.
#[tactic(auto, unfolding(crate::specs::Starts::redirection))]
fn push_redirection(
    out: &mut String,
    marks: (&str, &str),
    number: u8,
    slot: Slot,
) -> Result<(), AllocError>
    ensures { OnOk result (string_bytes out.new
        ≡ string_bytes out.old ++ redirection marks.entry.0.now marks.entry.1.now number slot) }
{
    let (opening, copying) = marks;
    match slot {
        Slot::Own(own) => {
            if own == number {
                return Ok(());
            }
            push_numbered(out, copying, u32::from(own))?;
            out.push_str("]")
        }
        Slot::To(file) => {
            out.push_str(opening)?;
            push_numbered(out, "file ", file.0)
        }
    }
}
