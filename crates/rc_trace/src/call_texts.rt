//! How calls and their answers are written, each on one line.

ghost use Rattle.std.specs.Prelude.{◌≡◌, ◌++◌, OnOk, map, string_bytes};
ghost use Rattle.std.specs.Fmt.{decimal};
ghost use Rattle.rc_model.specs.Run.Calls.{open_file, write};
ghost use Rattle.rc_text.specs.Texts.{text_bytes};
ghost use Rattle.rc_trace.specs.Quotes.{path_text};
ghost use Rattle.rc_trace.specs.Texts.{answer_text, call_text, ending_text, handed_text, kind_name, launch_text};
ghost use Rattle.rc_trace.specs.Texts.{mode_name};
ghost use Rattle.rc_trace.specs.Texts.{program_text, refusal_name, shown_text, slot_text, slots_text};
ghost use Rattle.rc_trace.specs.Views.{shown_answer, shown_call, style_of};
ghost use Rattle.rc_world.specs.Views.{launch_of, program_of};

use crate::manner::Manner;
use crate::quotes::{push_bytes, push_names, push_path, push_quoted, push_texts};
use crate::shown::{ShownAnswer, ShownCall};
use crate::starts::push_start;
use rc_text::Text;
use rc_world::{Ending, Fault, Kind, Launch, Mode, Program, Slot, Slots};
use std::alloc::AllocError;

/// Writes a call, with all that a launch hands over.
pub fn push_call(out: &mut String, call: ShownCall<'_>) -> Result<(), AllocError>
    ensures { OnOk result (string_bytes out.new ≡ string_bytes out.old ++ call_text (shown_call call.entry)) }
{
    match call {
        ShownCall::Open(path, mode) => push_opening(out, path, mode),
        ShownCall::Here(text) => {
            out.push_str("here ")?;
            push_quoted(out, text)
        }
        ShownCall::Pipe => out.push_str("pipe"),
        ShownCall::Close(file) => push_numbered(out, "close ", file.0),
        ShownCall::Read(file) => push_numbered(out, "read ", file.0),
        ShownCall::Write(slot, text) => push_writing(out, slot, text),
        ShownCall::Start(launch) => push_launch(out, launch),
        ShownCall::Wait(child) => push_numbered(out, "wait ", child.0),
        ShownCall::List(path) => push_named(out, "list ", path),
        ShownCall::Probe(path) => push_named(out, "probe ", path),
        ShownCall::Chdir(path) => push_named(out, "chdir ", path),
    }
}

/// Writes a call as it is shown.
pub(crate) fn push_shown(
    out: &mut String,
    manner: &Manner,
    call: ShownCall<'_>,
) -> Result<(), AllocError>
    ensures { OnOk result (string_bytes out.new
        ≡ string_bytes out.old ++ shown_text (style_of manner.now) (shown_call call.entry)) }
{
    match (call, manner) {
        (ShownCall::Start(launch), Manner::Brief { known, images }) => {
            push_start(out, launch, known, *images)
        }
        _ => push_call(out, call),
    }
}

/// Writes what a call was answered.
pub(crate) fn push_answer(out: &mut String, answer: ShownAnswer<'_>) -> Result<(), AllocError>
    ensures { OnOk result (string_bytes out.new ≡ string_bytes out.old ++ answer_text (shown_answer answer.entry)) }
{
    match answer {
        ShownAnswer::File(file) => push_numbered(out, "file ", file.0),
        ShownAnswer::Pair(reader, writer) => {
            push_numbered(out, "pipe ", reader.0)?;
            push_numbered(out, " ", writer.0)
        }
        ShownAnswer::Done => out.push_str("done"),
        ShownAnswer::Bytes(bytes) => {
            out.push_str("text ")?;
            push_bytes(out, bytes)
        }
        ShownAnswer::Child(child) => push_numbered(out, "child ", child.0),
        ShownAnswer::Ended(ending) => push_ending(out, ending),
        ShownAnswer::Names(names) => {
            out.push_str("names ")?;
            push_names(out, names)
        }
        ShownAnswer::Found(kind) => out.push_str(kind_name(kind)),
        ShownAnswer::Refused(fault) => out.push_str(refusal_name(fault)),
    }
}

/// Writes a tag and a number.
pub(crate) fn push_numbered(out: &mut String, tag: &str, number: u32) -> Result<(), AllocError>
    ensures { OnOk result (string_bytes out.new ≡ string_bytes out.old ++ (tag.now ++ decimal number)) }
{
    let digits = number.to_string(*out.allocator())?;
    out.push_str(tag)?;
    out.push_str(&digits)
}

/// Writes a tag and a path.
fn push_named(out: &mut String, tag: &str, path: &str) -> Result<(), AllocError>
    ensures { OnOk result (string_bytes out.new ≡ string_bytes out.old ++ (tag.now ++ path_text path.now)) }
{
    out.push_str(tag)?;
    push_path(out, path)
}

fn push_opening(out: &mut String, path: &str, mode: Mode) -> Result<(), AllocError>
    ensures { OnOk result (string_bytes out.new ≡ string_bytes out.old ++ call_text (open_file path.now mode)) }
{
    push_named(out, "open ", path)?;
    out.push_str(" to ")?;
    out.push_str(mode_name(mode))
}

fn push_writing(out: &mut String, slot: Slot, text: &[u8]) -> Result<(), AllocError>
    ensures { OnOk result (string_bytes out.new ≡ string_bytes out.old ++ call_text (write slot text.now)) }
{
    out.push_str("write ")?;
    push_slot(out, slot)?;
    out.push_str(" ")?;
    push_bytes(out, text)
}

fn mode_name(mode: Mode) -> &'static str
    ensures { result.now ≡ mode_name mode }
{
    match mode {
        Mode::Read => "read",
        Mode::Write => "write",
        Mode::Append => "append",
    }
}

fn kind_name(kind: Kind) -> &'static str
    ensures { result.now ≡ kind_name kind }
{
    match kind {
        Kind::Directory => "directory",
        Kind::Program => "program",
        Kind::Other => "other",
    }
}

fn refusal_name(fault: Fault) -> &'static str
    ensures { result.now ≡ refusal_name fault }
{
    match fault {
        Fault::NotFound => "refused (not found)",
        Fault::Denied => "refused (denied)",
        Fault::Exists => "refused (exists)",
        Fault::Broken => "refused (broken pipe)",
        Fault::Full => "refused (full)",
        Fault::Other => "refused (other)",
        Fault::Halt => "halt",
        Fault::NoMemory => "no-memory",
    }
}

/// Writes how a child ended.
fn push_ending(out: &mut String, ending: Ending) -> Result<(), AllocError>
    ensures { OnOk result (string_bytes out.new ≡ string_bytes out.old ++ ending_text ending) }
{
    match ending {
        Ending::Code(code) => push_numbered(out, "code ", u32::from(code)),
        Ending::Signal => out.push_str("signal"),
    }
}

/// Writes what a descriptor of a child stands for.
fn push_slot(out: &mut String, slot: Slot) -> Result<(), AllocError>
    ensures { OnOk result (string_bytes out.new ≡ string_bytes out.old ++ slot_text slot) }
{
    match slot {
        Slot::Own(number) => push_numbered(out, "", u32::from(number)),
        Slot::To(file) => push_numbered(out, "file ", file.0),
    }
}

/// Writes the descriptors of a child.
fn push_slots(out: &mut String, slots: Slots) -> Result<(), AllocError>
    ensures { OnOk result (string_bytes out.new ≡ string_bytes out.old ++ slots_text slots) }
{
    push_slot(out, slots.input)?;
    out.push_str(" ")?;
    push_slot(out, slots.output)?;
    out.push_str(" ")?;
    push_slot(out, slots.errors)
}

/// Writes what is started, with all that it is handed.
fn push_launch(out: &mut String, launch: &Launch) -> Result<(), AllocError>
    ensures { OnOk result (string_bytes out.new ≡ string_bytes out.old ++ launch_text (launch_of launch.now)) }
{
    out.push_str("start ")?;
    push_program(out, &launch.program)?;
    out.push_str(" ")?;
    push_handed(out, &launch.args, &launch.env, launch.slots)
}

/// Writes arguments, an environment and descriptors.
#[tactic(auto, unfolding(crate::specs::Texts::handed_text))]
fn push_handed(
    out: &mut String,
    args: &[Text],
    entries: &[Text],
    slots: Slots,
) -> Result<(), AllocError>
    ensures { OnOk result (string_bytes out.new ≡ string_bytes out.old
        ++ handed_text (map text_bytes args.now) (map text_bytes entries.now) slots) }
{
    push_texts(out, args)?;
    out.push_str(" ")?;
    push_texts(out, entries)?;
    out.push_str(" ")?;
    push_slots(out, slots)
}

/// Writes the program that is started.
fn push_program(out: &mut String, program: &Program) -> Result<(), AllocError>
    ensures { OnOk result (string_bytes out.new ≡ string_bytes out.old ++ program_text (program_of program.now)) }
{
    match program {
        Program::Shell => out.push_str("the shell"),
        Program::Path(path) => push_path(out, path),
    }
}
