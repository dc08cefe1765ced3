//! Stacks: of frames, of scopes and of the members that a loop has left; and a stack of lists.

pub(crate) mod list_stack;

ghost use Rattle.std.specs.Prelude.{◌≡◌, [], ◌∷◌, drop, OnOk, MatchOption};

use std::alloc::{AllocError, Global};
use std::marker::Model;

/// A stack. Its value is the list of its items, the top one first.
#[derive(Drop)]
pub(crate) struct Stack<T> {
    items: Vec<T>,
}

impl<T> Model for Stack<T> {
    ghost use Rattle.std.specs.Prelude.{List, reverse};

    ghost Value = { List T };

    ghost view = { λ n. reverse n.items.items };
}

impl<T: Drop> Stack<T> {
    /// An empty stack.
    pub(crate) fn new(alloc: Global) -> Stack<T>
        ensures { result ≡ [] }
    {
        Stack {
            items: Vec::new(alloc),
        }
    }

    /// Pushes an item.
    pub(crate) fn push(&mut self, item: T) -> Result<(), AllocError>
        ensures { OnOk result (self.new ≡ item ∷ self.old) }
    {
        self.items.push(item)?;
        Ok(())
    }

    /// Removes and returns the top item.
    pub(crate) fn pop(&mut self) -> Option<T>
        ensures { MatchOption result (self.old ≡ []) (λ item. self.old ≡ item ∷ self.new) }
    {
        self.items.pop()
    }

    /// A stack of these items, the first on top.
    #[tactic(auto, using(crate::proofs::ScopeEnds::turned_twice))]
    pub(crate) fn of(mut items: Vec<T>) -> Stack<T>
        ensures { result ≡ items.items }
    {
        items.reverse();
        Stack { items }
    }

    /// The top item.
    pub(crate) fn top(&self) -> Option<&T>
        ensures { MatchOption result (self.now ≡ []) (λ item. self.now ≡ item.now ∷ drop 1 self.now) }
    {
        self.items.last()
    }
}
