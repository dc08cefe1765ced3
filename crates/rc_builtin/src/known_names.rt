//! The meaning of names, for `whatis`.

ghost use Rattle.std.specs.Prelude.{◌≡◌, ◌++◌, None, true, false, IfOk, IfSome, OnErr, if◌then◌else◌};
ghost use Rattle.std.specs.Prelude.{codes, map, string_bytes};
ghost use Rattle.std.specs.Option.{MatchOption};
ghost use Rattle.rc_model.specs.Syntax.Printing.{printed, has_here};
ghost use Rattle.rc_model.specs.Run.Builtins.{Finished, builtin_named, command_line, function_line, known_each};
ghost use Rattle.rc_model.specs.Run.Builtins.{known_of, line, met, program_line, whatis, write_lines};
ghost use Rattle.rc_model.specs.Run.State.{function_of};
ghost use Rattle.rc_tree.specs.View.{cmd_tree};
ghost use Rattle.rc_world.specs.Comes.{Reads, Does};
ghost use Rattle.rc_builtin.specs.Known.{known, status_of};
ghost use Rattle.rc_pipes.specs.Starts.{path_of};
ghost use Rattle.rc_scope.specs.States.{state_of};
ghost use Rattle.rc_text.specs.Texts.{text_bytes};

use crate::whatis_lines::value_line;
use rc_model::{Builtin, InputError};
use rc_pipes::find_program;
use rc_print::{PrintFault, print};
use rc_scope::State;
use rc_text::Text;
use rc_tree::Cmd;
use rc_world::{Slots, Stop, World, calls};
use std::alloc::{AllocError, Global};

/// What is known of names: lines, and the status of the last name that has one.
#[derive(Drop)]
pub(crate) struct Known {
    lines: String,
    status: Option<&'static str>,
}

/// The text of a function's body, or `None` if it has a here document.
fn body_text(alloc: Global, body: &Cmd) -> Result<Option<String>, AllocError>
    ensures here { IfOk result (λ text. MatchOption text (has_here (cmd_tree body.now) ≡ true)
        (λ t. has_here (cmd_tree body.now) ≡ false)) }
    ensures text { IfOk result (λ text. IfSome text (λ t. string_bytes t ≡ printed (cmd_tree body.now))) }
{
    match print(alloc, body) {
        Ok(text) => Ok(Some(text)),
        Err(InputError::Fault(PrintFault::HereInside)) => Ok(None),
        Err(InputError::NoMemory) => Err(AllocError),
    }
}

/// The line of a function.
fn function_line(alloc: Global, name: &str, body: &Cmd) -> Result<Known, AllocError>
    ensures { IfOk result (λ k. known k ≡ function_line name.now (cmd_tree body.now)) }
{
    let Some(text) = body_text(alloc, body)? else {
        let lines = String::new(alloc);
        return Ok(Known {
            lines,
            status: Some("here document"),
        });
    };
    let lines = format!(in alloc; "fn {name} {{{text}}}\n")?;
    Ok(Known {
        lines,
        status: None,
    })
}

/// The line of a built-in command.
fn builtin_line(alloc: Global, name: &str) -> Result<Known, AllocError>
    ensures { IfOk result (λ k. known k ≡ (line (codes "builtin " ++ name.now), None)) }
{
    let lines = format!(in alloc; "builtin {name}\n")?;
    Ok(Known {
        lines,
        status: None,
    })
}

/// The line of a program, if it was found.
fn program_line(alloc: Global, path: Option<String>) -> Result<Known, AllocError>
    ensures { IfOk result (λ k. known k ≡ program_line (path_of path)) }
{
    let Some(mut lines) = path else {
        let lines = String::new(alloc);
        return Ok(Known {
            lines,
            status: Some("not found"),
        });
    };
    lines.push('\n')?;
    Ok(Known {
        lines,
        status: None,
    })
}

/// The line of what runs by this name: a program is looked for only if no variable is printed.
#[tactic(auto, using(rc_pipes::proofs::ProgramActs::acting))]
fn command_line<W: World>(
    alloc: Global,
    world: &mut W,
    state: &State,
    name: &str,
    shown: &str,
) -> Result<Known, Stop>
    ensures { let s = state_of state.now in
        Reads W.events world.old world.new s
        (command_line name.now shown.now (function_of s name.now) (builtin_named name.now)) known result }
{
    if let Some(body) = state.function(name)? {
        return Ok(function_line(alloc, name, &body)?);
    }
    if Builtin::named(name).is_some() {
        return Ok(builtin_line(alloc, name)?);
    }
    if !shown.is_empty() {
        let lines = String::new(alloc);
        return Ok(Known {
            lines,
            status: None,
        });
    }
    let path = find_program(alloc, world, state, name)?;
    Ok(program_line(alloc, path)?)
}

/// What is known of a name.
#[tactic(auto, using(rc_pipes::proofs::ProgramActs::acting))]
fn known_of<W: World>(
    alloc: Global,
    world: &mut W,
    state: &State,
    name: &str,
) -> Result<Known, Stop>
    ensures { Reads W.events world.old world.new (state_of state.now) (known_of name.now) known result }
{
    let mut lines = value_line(alloc, name, state.value(name))?;
    let command = command_line(alloc, world, state, name, &lines)?;
    lines.push_str(&command.lines)?;
    Ok(Known {
        lines,
        status: command.status,
    })
}

/// What is known of the names.
#[tactic(auto, using(rc_pipes::proofs::ProgramActs::acting))]
fn known_each<W: World>(
    alloc: Global,
    world: &mut W,
    state: &State,
    names: &[Text],
) -> Result<Known, Stop>
    ensures { Reads W.events world.old world.new (state_of state.now)
        (known_each (map text_bytes names.now)) known result }
{
    let mut lines = String::new(alloc);
    let mut status = None;
    for name in names {
        let known = known_of(alloc, world, state, name.as_str())?;
        lines.push_str(&known.lines)?;
        status = known.status.or(status);
    }
    Ok(Known { lines, status })
}

/// The status after the lines were written, or were not.
fn status_after(status: Option<&'static str>, written: bool) -> &'static str
    ensures { result.now ≡ (if written then met (status_of status.entry) else codes "cannot write") }
{
    if written {
        status.unwrap_or("")
    } else {
        "cannot write"
    }
}

/// Writes the lines in one call, if there are any.
#[tactic(auto, using(rc_pipes::proofs::ProgramActs::acting))]
fn write_lines<W: World>(
    world: &mut W,
    state: &mut State,
    slots: Slots,
    known: &Known,
) -> Result<(), Stop>
    ensures does { Does W.events world.old world.new state_of state.old state.new
        (write_lines slots (string_bytes known.now.lines) (status_of known.now.status)) (λ x. x) result }
    ensures err { OnErr result (state_of state.new ≡ state_of state.old) }
{
    if known.lines.is_empty() {
        state.set_status(status_after(known.status, true))?;
        return Ok(());
    }
    let written = calls::write(world, slots.output, known.lines.as_bytes())?;
    state.set_status(status_after(known.status, written))?;
    Ok(())
}

/// Prints the meaning of each of the names: a variable, and a function, a built-in command or a program. The status is
/// `cannot write` if the lines could not be written; else it is that of the last name that is `not found`, or whose
/// function has a `here document` and is not printed, and null if there is none.
#[tactic(auto, using(rc_pipes::proofs::ProgramActs::acting))]
pub fn whatis<W: World>(
    alloc: Global,
    world: &mut W,
    state: &mut State,
    slots: Slots,
    names: &[Text],
) -> Result<(), Stop>
    ensures does { Does W.events world.old world.new state_of state.old state.new
        (whatis slots (map text_bytes names.now)) (λ _. Finished) result }
    ensures err { OnErr result (state_of state.new ≡ state_of state.old) }
{
    let known = known_each(alloc, world, state, names)?;
    write_lines(world, state, slots, &known)
}
