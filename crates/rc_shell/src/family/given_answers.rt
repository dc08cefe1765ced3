//! The answers that a process was given.

ghost use Rattle.std.specs.Prelude.{◌≡◌, ◌∷◌, ◌++◌, [], IfOk, OnOk, map};
ghost use Rattle.rc_model.specs.Family.Steps.{answers_at};
ghost use Rattle.rc_world.specs.Views.{answer_of};
ghost use Rattle.rc_shell.specs.Standings.{step_of};

use crate::family::process_steps::FamilyStep;
use rc_world::Answer;
use std::alloc::{AllocError, Global};

/// Adds the answer of a step, if it is a step of this process.
fn push_answer(
    answers: &mut Vec<Answer>,
    process: usize,
    step: &FamilyStep,
) -> Result<(), AllocError>
    ensures { OnOk result (map answer_of answers.new.items
        ≡ map answer_of answers.old.items ++ answers_at process (step_of step.now ∷ [])) }
{
    if step.process == process {
        answers.push(step.answer.clone()?)?;
    }
    Ok(())
}

/// The answers of the steps of a process.
fn answers_of(
    alloc: Global,
    steps: &[FamilyStep],
    process: usize,
) -> Result<Vec<Answer>, AllocError>
    ensures { IfOk result (λ answers. map answer_of answers.items
        ≡ answers_at process (map step_of steps.now)) }
{
    let mut answers = Vec::new(alloc);
    for step in steps {
        push_answer(&mut answers, process, step)?;
    }
    Ok(answers)
}

/// The answers of the steps of a process, and one more.
pub(crate) fn answers_with(
    alloc: Global,
    steps: &[FamilyStep],
    process: usize,
    more: &Answer,
) -> Result<Vec<Answer>, AllocError>
    ensures { IfOk result (λ answers. map answer_of answers.items
        ≡ answers_at process (map step_of steps.now) ++ answer_of more.now ∷ []) }
{
    let mut answers = answers_of(alloc, steps, process)?;
    answers.push(more.clone()?)?;
    Ok(answers)
}
