//! The end of the shell.

ghost use Rattle.std.specs.Prelude.{◌≡◌, ◌<◌, ◌∷◌, [], Some};
ghost use Rattle.rc_model.specs.Code.Machine.{Over, end_waits, unwind};
ghost use Rattle.rc_model.specs.Run.State as model;
ghost use Rattle.rc_machine.specs.Configurations.{scopes_of};
ghost use Rattle.rc_scope.specs.Children.{child_numbers};
ghost use Rattle.rc_scope.specs.States.{state_of};
ghost use Rattle.rc_world.specs.Comes.{Comes};
ghost use Rattle.rc_model.specs.Run.Values.{bad_name};

use crate::configuration::parts::Scope;
use crate::configuration::{Configuration, Move};
use rc_pipes::runtime_error;
use rc_scope::NameFault;
use rc_world::{ChildNo, Stop, World, calls};
use std::alloc::Global;

/// Waits for each child. How it ended doesn't matter.
fn wait_owed<W: World>(world: &mut W, owed: &[ChildNo]) -> Result<(), Stop>
    ensures { (s : model.State) → Comes (W.events world.old) (W.events world.new)
        (end_waits (child_numbers owed.now) s) (λ x. Over s) result }
{
    for child in owed {
        calls::wait(world, *child)?;
    }
    Ok(())
}

impl Configuration {
    ghost use Rattle.rc_machine.specs.Configurations.{config_of};
    ghost use Rattle.rc_world.specs.Comes.{GoesOn};
    ghost use Rattle.rc_machine.specs.Steps.{Steps, failed};

    /// Ends a scope that was the innermost.
    fn end_scope<W: World>(
        &mut self,
        world: &mut W,
        scope: Scope,
        owed: &mut Vec<ChildNo>,
    ) -> Result<(), Stop>
        ensures ended { let before = scopes_of (scope ∷ self.old.scopes) self.old.redirs in
            GoesOn (W.events world.old) (W.events world.new)
            (unwind before (state_of self.old.state) (child_numbers owed.old.items))
            (λ done. unwind (config_of self.new).scopes (state_of self.new.state) (child_numbers owed.new.items))
            result }
        ensures others { self.new.scopes ≡ self.old.scopes }
    {
        match scope {
            Scope::Local => {
                self.state.pop_local();
                Ok(())
            }
            Scope::Loop { bound, .. } => {
                if bound {
                    self.state.pop_local();
                }
                Ok(())
            }
            Scope::Redirection => self.redirs.pop(world),
            Scope::Pipeline { mut children } => {
                self.redirs.pop(world)?;
                owed.append(&mut children)?;
                Ok(())
            }
        }
    }

    /// Ends the shell: what is open ends, the innermost first.
    pub(crate) fn unwind<W: World>(&mut self, alloc: Global, world: &mut W) -> Result<Move, Stop>
        ensures { Steps (W.events world.old) (W.events world.new)
            (unwind (config_of self.old).scopes (config_of self.old).state []) (config_of self.new) result }
    {
        let mut owed = Vec::new(alloc);
        while let Some(scope) = self.scopes.pop() {
            self.end_scope(world, scope, &mut owed)?;
        }
        wait_owed(world, &owed)?;
        Ok(Move::Ended)
    }

    /// A runtime error ends the shell: it is reported to descriptor 2, the status is `error`, and what is open ends.
    pub(crate) fn fail<W: World>(
        &mut self,
        alloc: Global,
        world: &mut W,
        text: &str,
    ) -> Result<Move, Stop>
        ensures { Steps (W.events world.old) (W.events world.new)
            (failed (config_of self.old) text.now) (config_of self.new) result }
    {
        let slots = self.redirs.slots();
        runtime_error(alloc, world, &mut self.state, slots, text)?;
        self.unwind(alloc, world)
    }

    /// A name that can't be used ends the shell: it is reported to descriptor 2, the status is `error`, and what is
    /// open ends.
    pub(crate) fn fail_bad_name<W: World>(
        &mut self,
        alloc: Global,
        world: &mut W,
    ) -> Result<Move, Stop>
        ensures { Steps (W.events world.old) (W.events world.new)
            (failed (config_of self.old) bad_name) (config_of self.new) result }
    {
        self.fail(alloc, world, NameFault::BadName.words())
    }
}
