//! A stack of lists, in one buffer of elements.

ghost use Rattle.std.specs.Prelude.{◌≡◌, [], ◌∷◌, ◌++◌, length, option_map, IfOk, OnOk, OnErr};
ghost use Rattle.rc_machine.specs.Lists.{Joins, Extends, IsDropped, TakesLast, TakesPair, top_of, two_of, below_two};

use std::alloc::{AllocError, Global};
use std::marker::Model;

/// Lists, each on top of those before it. The elements of all lists are in one buffer, and the places where the lists
/// begin in another.
#[derive(Drop)]
pub(crate) struct ListStack<T> {
    items: Vec<T>,
    starts: Vec<usize>,
}

impl<T> Model for ListStack<T> {
    ghost use Rattle.std.specs.Prelude.{List, length, reverse};
    ghost use Rattle.rc_machine.specs.Lists.{lists_of, AreStarts};

    ghost Value = { List (List T) };

    ghost view = { λ s. lists_of s.items.items (reverse s.starts.items) };

    ghost invariant = { λ s. AreStarts (length s.items.items) (reverse s.starts.items) };
}

/// Puts items in front of those of a list, and returns them all. After an error the items are as before.
fn in_front<T: Drop>(items: &mut Vec<T>, mut list: Vec<T>) -> Result<Vec<T>, AllocError>
    ensures ok { IfOk result (λ all. all.items ≡ items.old.items ++ list.items) }
    ensures err { OnErr result (items.new.items ≡ items.old.items) }
{
    let count = items.len();
    list.append(items)?;
    list.rotate_right(count);
    Ok(list)
}

impl<T: Drop> ListStack<T> {
    /// A stack without lists.
    pub(crate) fn new(alloc: Global) -> ListStack<T>
        ensures { result ≡ [] }
    {
        ListStack {
            items: Vec::new(alloc),
            starts: Vec::new(alloc),
        }
    }

    /// Pushes an empty list.
    pub(crate) fn begin(&mut self) -> Result<(), AllocError>
        ensures ok { OnOk result (self.new ≡ [] ∷ self.old) }
        ensures err { OnErr result (self.new ≡ self.old) }
    {
        self.starts.push(self.items.len())?;
        Ok(())
    }

    /// Adds an element to the top list, if there is one.
    pub(crate) fn push(&mut self, item: T) -> Result<(), AllocError>
        ensures ok { OnOk result (Extends self.old self.new (item ∷ [])) }
        ensures err { OnErr result (self.new ≡ self.old) }
    {
        self.items.push(item)?;
        Ok(())
    }

    /// Reserves room for this many more elements.
    pub(crate) fn reserve(&mut self, count: usize) -> Result<(), AllocError>
        ensures { self.new ≡ self.old }
    {
        self.items.reserve(count)
    }

    /// Gives back the room that no element needs.
    pub(crate) fn shrink(&mut self)
        ensures { self.new ≡ self.old }
    {
        self.items.shrink_to_fit();
    }

    /// Pushes a list. One for which the buffer is too short becomes the buffer itself.
    pub(crate) fn put(&mut self, mut list: Vec<T>) -> Result<(), AllocError>
        ensures ok { OnOk result (self.new ≡ list.items ∷ self.old) }
        ensures err { OnErr result (self.new ≡ self.old) }
    {
        let start = self.items.len();
        // Room comes first, so that the stack is unchanged if memory runs out.
        self.starts.reserve(1)?;
        if list.len() > self.items.capacity() {
            self.items = in_front(&mut self.items, list)?;
        } else {
            self.items.append(&mut list)?;
        }
        self.starts.push(start)?;
        Ok(())
    }

    /// Joins the two top lists, and returns whether there were two.
    pub(crate) fn join(&mut self) -> bool
        ensures { Joins self.old self.new result }
    {
        if self.starts.len() < 2 {
            return false;
        }
        self.starts.pop();
        true
    }

    /// The top list.
    pub(crate) fn top(&self) -> Option<&[T]>
        ensures { option_map (λ list. list.now) result ≡ top_of self.now }
    {
        let start = *self.starts.last()?;
        Some(&self.items[start..])
    }

    /// The two top lists, the lower one first.
    pub(crate) fn top_two(&self) -> Option<(&[T], &[T])>
        ensures { option_map (λ two. (two.0.now, two.1.now)) result ≡ two_of self.now }
    {
        let [.., lower, upper] = self.starts.as_slice() else {
            return None;
        };
        Some((&self.items[*lower..*upper], &self.items[*upper..]))
    }

    /// Removes and returns the last element of the top list, if it has one.
    pub(crate) fn take_last(&mut self) -> Option<T>
        ensures { TakesLast self.old self.new result }
    {
        let start = *self.starts.last()?;
        if self.items.len() <= start {
            return None;
        }
        self.items.pop()
    }

    /// Pops the two top lists if each has one element, and returns these, that of the lower list first.
    pub(crate) fn take_pair(&mut self) -> Option<(T, T)>
        ensures { TakesPair self.old self.new result }
    {
        let ([_], [_]) = self.top_two()? else {
            return None;
        };
        let second = self.items.pop()?;
        let first = self.items.pop()?;
        self.starts.pop();
        self.starts.pop();
        Some((first, second))
    }

    /// Pops the top list.
    pub(crate) fn drop_top(&mut self) -> bool
        ensures { IsDropped self.old self.new result }
    {
        match self.starts.pop() {
            Some(start) => {
                self.items.truncate(start);
                true
            }
            None => false,
        }
    }

    /// Pops the two top lists.
    pub(crate) fn drop_two(&mut self)
        ensures { self.new ≡ below_two self.old }
    {
        self.join();
        self.drop_top();
    }
}
