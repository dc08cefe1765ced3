//! Redirections: opening and ending them, and the texts of here documents.

ghost use Rattle.std.specs.Prelude.{◌≡◌, ◌++◌, IfOk, OnOk, string_bytes};
ghost use Rattle.rc_model.specs.Code.Layout as op;
ghost use Rattle.rc_model.specs.Run.Acts.{here_text};
ghost use Rattle.rc_model.specs.Syntax.Tree.{more, none};
ghost use Rattle.rc_tree.specs.View.{piece_tree, pieces_tree};
ghost use Rattle.rc_scope.specs.States.{state_of};
ghost use Rattle.rc_machine.specs.Configurations.{config_of};
ghost use Rattle.rc_machine.specs.EndOfRedirections.{RedirectionEnds, RedirectionsEnd, Refused};
ghost use Rattle.rc_machine.specs.Instructions.{Executes, Moves};

use crate::configuration::lookups::texts;
use crate::configuration::parts::Scope;
use crate::configuration::{Configuration, Move};
use rc_redir::RedirError;
use rc_scope::{State, is_readable};
use rc_text::flat;
use rc_tree::Piece;
use rc_world::{Mode, Stop, World};
use std::alloc::{AllocError, Global};

/// Adds a piece of a here document: a bad name stands for nothing.
fn push_piece(
    alloc: Global,
    text: &mut String,
    state: &State,
    piece: &Piece,
) -> Result<(), AllocError>
    ensures { let added = here_text (state_of state.now) (more (piece_tree piece.now) none) in
        OnOk result (string_bytes text.new ≡ string_bytes text.old ++ added) }
{
    match piece {
        Piece::Text(part) => text.push_str(part),
        Piece::Name(name) => {
            if is_readable(name) {
                text.push_str(&flat(alloc, state.lookup(name))?)?;
            }
            Ok(())
        }
    }
}

/// The text of a here document.
fn here_text(alloc: Global, state: &State, pieces: &[Piece]) -> Result<String, AllocError>
    ensures { IfOk result (λ text. string_bytes text ≡ here_text (state_of state.now) (pieces_tree pieces.now)) }
{
    let mut text = String::new(alloc);
    for piece in pieces {
        push_piece(alloc, &mut text, state, piece)?;
    }
    Ok(text)
}

/// Ends the shell after a redirection that was refused.
fn refuse<W: World>(
    machine: &mut Configuration,
    alloc: Global,
    world: &mut W,
    error: RedirError,
) -> Result<Move, Stop>
    ensures { Refused (W.events world.old) (W.events world.new) error
        (config_of machine.old) (config_of machine.new) result }
{
    match error {
        RedirError::Fault(fault) => {
            let text = fault.to_string(alloc)?;
            machine.fail(alloc, world, &text)
        }
        RedirError::Stopped(stop) => Err(stop),
    }
}

/// `>`, `>>` and `<`: opens the file in place of a descriptor.
#[inline(never)]
#[tactic(auto, using(crate::proofs::Left::step_refused))]
pub(crate) fn open<W: World>(
    machine: &mut Configuration,
    alloc: Global,
    world: &mut W,
    mode: Mode,
    slot: u8,
) -> Result<Move, Stop>
    ensures { Executes (W.events world.old) (W.events world.new) (op.Open mode slot) machine.old machine.new result }
{
    let Some(words) = machine.words.top() else {
        return Ok(Move::Ended);
    };
    let names = texts(alloc, words)?;
    if let Err(error) = machine.redirs.push_open(world, mode, slot, &names) {
        return refuse(machine, alloc, world, error);
    }
    machine.scopes.push(Scope::Redirection)?;
    machine.words.drop_top();
    Ok(Move::On)
}

/// `>[2=1]` and `>[1=2]`: makes one descriptor what another is now.
#[inline(never)]
pub(crate) fn copy(machine: &mut Configuration, to: u8, from: u8) -> Result<Move, AllocError>
    ensures { IfOk result (Moves (op.Copy to from) machine.old machine.new) }
{
    machine.redirs.push_copy(to, from)?;
    machine.scopes.push(Scope::Redirection)?;
    Ok(Move::On)
}

/// `<<`: opens the here document at this index in place of descriptor 0.
#[inline(never)]
#[tactic(auto, using(crate::proofs::Left::step_refused))]
pub(crate) fn here<W: World>(
    machine: &mut Configuration,
    alloc: Global,
    world: &mut W,
    number: usize,
) -> Result<Move, Stop>
    ensures { Executes (W.events world.old) (W.events world.new) (op.Here number) machine.old machine.new result }
{
    let Some(pieces) = machine.code.pieces(number) else {
        return Ok(Move::Ended);
    };
    let text = here_text(alloc, &machine.state, pieces)?;
    if let Err(error) = machine.redirs.push_here(world, &text) {
        return refuse(machine, alloc, world, error);
    }
    machine.scopes.push(Scope::Redirection)?;
    Ok(Move::On)
}

/// Ends the innermost scope, if it is a redirection.
fn end_redirection<W: World>(machine: &mut Configuration, world: &mut W) -> Result<bool, Stop>
    ensures { RedirectionEnds (W.events world.old) (W.events world.new)
        (config_of machine.old) (config_of machine.new) result }
{
    let Some(Scope::Redirection) = machine.scopes.top() else {
        return Ok(false);
    };
    machine.redirs.pop(world)?;
    let _ = machine.scopes.pop();
    Ok(true)
}

/// Ends this many redirections; stops at any other scope.
fn end_redirections<W: World>(
    machine: &mut Configuration,
    world: &mut W,
    count: usize,
) -> Result<(), Stop>
    ensures { RedirectionsEnd (W.events world.old) (W.events world.new) count
        (config_of machine.old) (config_of machine.new) result }
{
    for _ in 0..count {
        if !end_redirection(machine, world)? {
            return Ok(());
        }
    }
    Ok(())
}

/// Ends the redirections of a command.
#[inline(never)]
#[tactic(auto, using(crate::proofs::Left::step_refused))]
pub(crate) fn unredir<W: World>(
    machine: &mut Configuration,
    world: &mut W,
    count: usize,
) -> Result<Move, Stop>
    ensures { Executes (W.events world.old) (W.events world.new) (op.Unredir count) machine.old machine.new result }
{
    end_redirections(machine, world, count)?;
    Ok(Move::On)
}
