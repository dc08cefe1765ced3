//! The state of a machine between two instructions.

pub(crate) mod endings;
pub(crate) mod lookups;
pub(crate) mod parts;

ghost use Rattle.std.specs.Prelude.{◌≡◌, []};
ghost use Rattle.rc_model.specs.Run.Calls.{plain};

use crate::configuration::parts::{Frame, Scope};
use crate::stack::Stack;
use crate::stack::list_stack::ListStack;
use rc_code::Code;
use rc_redir::RedirStack;
use rc_scope::State;
use rc_text::Word;
use rc_world::PLAIN_SLOTS;
use std::alloc::Global;

/// The result of an instruction.
#[derive(Clone, Copy)]
pub(crate) enum Move {
    On,
    Ended,
}

/// The state of a machine between two instructions: the code, the program counter, and what the instructions work on.
pub(crate) struct Configuration {
    pub code: Code,
    /// The program counter: the place of the next instruction.
    pub counter: usize,
    pub frames: Stack<Frame>,
    pub words: ListStack<Word>,
    pub scopes: Stack<Scope>,
    pub redirs: RedirStack,
    pub state: State,
}

impl Drop for Configuration {
    fn drop(self) {
        let Configuration {
            code: _,
            counter: _,
            frames: _,
            words: _,
            scopes: _,
            redirs: _,
            state: _,
        } = self;
    }
}

impl Configuration {
    ghost use Rattle.rc_machine.specs.Configurations.{config_of};
    ghost use Rattle.rc_scope.specs.States.{state_of};
    ghost use Rattle.rc_code.specs.Views.{code_of};

    /// The configuration before the first instruction.
    pub(crate) fn new(alloc: Global, code: Code, state: State) -> Configuration
        ensures { config_of result ≡ record {
          code = code_of code;
          counter = 0;
          frames = [];
          words = [];
          scopes = [];
          slots = plain;
          state = state_of state;
        } }
    {
        Configuration {
            code,
            counter: 0,
            frames: Stack::new(alloc),
            words: ListStack::new(alloc),
            scopes: Stack::new(alloc),
            redirs: RedirStack::new(alloc, PLAIN_SLOTS),
            state,
        }
    }

    /// Returns the state; the rest of the configuration is dropped.
    pub(crate) fn into_state(self) -> State
        ensures { state_of result ≡ (config_of self).state }
    {
        let Configuration {
            code: _,
            counter: _,
            frames: _,
            words: _,
            scopes: _,
            redirs: _,
            state,
        } = self;
        state
    }
}
