//! Instructions on lists of words.

ghost use Rattle.std.specs.Prelude.{◌≡◌, ◌<◌, IfOk, MatchOption, length};
ghost use Rattle.rc_model.specs.Code.Layout as op;
ghost use Rattle.rc_model.specs.Syntax.Words.{has_pattern};
ghost use Rattle.std.specs.List.{list_any};
ghost use Rattle.rc_code.specs.Views.{names_of};
ghost use Rattle.rc_code.specs.Words.{word_at};
ghost use Rattle.rc_machine.specs.Configurations.{config_of};
ghost use Rattle.rc_machine.specs.Instructions.{Executes, Moves};

use crate::configuration::{Configuration, Move};
use rc_glob::expand_all;
use rc_model::InputError;
use rc_text::Word;
use rc_world::{Stop, World};
use std::alloc::{AllocError, Global};

fn have_pattern(words: &[Word]) -> bool
    ensures { result ≡ list_any has_pattern words.now }
{
    words.iter().any(|word| word.has_pattern())
}

/// Pushes an empty list.
pub(crate) fn begin_list(machine: &mut Configuration) -> Result<Move, AllocError>
    ensures { IfOk result (Moves op.Nil machine.old machine.new) }
{
    machine.words.begin()?;
    Ok(Move::On)
}

/// Pushes a list of one word, the literal of this number.
pub(crate) fn push_word(machine: &mut Configuration, number: u32) -> Result<Move, AllocError>
    requires { number < length (names_of machine.old.code).words }
    ensures { let word = word_at (names_of machine.old.code).words number in
        IfOk result (Moves (op.Word word.0 word.1) machine.old machine.new) }
{
    let word = Word::literal(machine.code.word(number))?;
    machine.words.begin()?;
    machine.words.push(word)?;
    Ok(Move::On)
}

/// Appends the top list to the one below it.
pub(crate) fn join(machine: &mut Configuration) -> Move
    ensures { Moves op.Join machine.old machine.new result }
{
    if !machine.words.join() {
        return Move::Ended;
    }
    Move::On
}

/// Concatenates the two top lists if each has one word: the text of the first grows in place.
fn concat_pair(machine: &mut Configuration, alloc: Global) -> Result<Option<Move>, AllocError>
    ensures { IfOk result (λ joined. MatchOption joined (config_of machine.new ≡ config_of machine.old)
        (Moves op.Concat machine.old machine.new)) }
{
    let Some((mut first, second)) = machine.words.take_pair() else {
        return Ok(None);
    };
    first.append(alloc, &second)?;
    machine.words.begin()?;
    machine.words.push(first)?;
    Ok(Some(Move::On))
}

/// Concatenates the two top lists, word by word.
#[inline(never)]
#[tactic(auto, using(crate::proofs::Left::step_refused))]
pub(crate) fn concat<W: World>(
    machine: &mut Configuration,
    alloc: Global,
    world: &mut W,
) -> Result<Move, Stop>
    ensures { Executes (W.events world.old) (W.events world.new) op.Concat machine.old machine.new result }
{
    if let Some(moved) = concat_pair(machine, alloc)? {
        return Ok(moved);
    }
    let Some((first, second)) = machine.words.top_two() else {
        return Ok(Move::Ended);
    };
    match rc_text::concat_words(alloc, first, second) {
        Ok(joined) => {
            machine.words.drop_two();
            machine.words.put(joined.into_words()?)?;
            Ok(Move::On)
        }
        Err(InputError::Fault(fault)) => machine.fail(alloc, world, fault.words()),
        Err(InputError::NoMemory) => Err(Stop::NoMemory),
    }
}

/// Expands patterns to the file names that they match.
#[inline(never)]
pub(crate) fn glob<W: World>(
    machine: &mut Configuration,
    alloc: Global,
    world: &mut W,
) -> Result<Move, Stop>
    ensures { Executes (W.events world.old) (W.events world.new) op.Glob machine.old machine.new result }
{
    let Some(words) = machine.words.top() else {
        return Ok(Move::Ended);
    };
    if !have_pattern(words) {
        return Ok(Move::On);
    }
    expand_top(machine, alloc, world)
}

/// Expands the top list to the file names that it matches. Few lists have a pattern, and the others should not pay for
/// what this one needs.
#[inline(never)]
#[tactic(auto, using(crate::proofs::Left::step_refused))]
fn expand_top<W: World>(
    machine: &mut Configuration,
    alloc: Global,
    world: &mut W,
) -> Result<Move, Stop>
    ensures { Executes (W.events world.old) (W.events world.new) op.Glob machine.old machine.new result }
{
    let Some(words) = machine.words.top() else {
        return Ok(Move::Ended);
    };
    let names = expand_all(alloc, world, words)?;
    machine.words.drop_top();
    machine.words.put(names.into_words()?)?;
    Ok(Move::On)
}

/// Pops the top list.
pub(crate) fn drop_words(machine: &mut Configuration) -> Move
    ensures { Moves op.Drop machine.old machine.new result }
{
    if !machine.words.drop_top() {
        return Move::Ended;
    }
    Move::On
}
