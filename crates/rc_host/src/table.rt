//! Numbered things: a new one gets the lowest number that is not held.
ghost use Rattle.std.specs.Prelude.{◌≡◌, ℕ, ◌+◌, ◌<◌, ◌≤◌, List, length, Option, None, Some, option_copied};
ghost use Rattle.std.specs.Prelude.{IfOk, IfErr, IfSome, IfNone, IsSome};
ghost use Rattle.rc_host.specs.Table.{held_at, IsLeastFree, IsLeastFreeFrom, AreLeastFree, HoldsTheSame, ChangesOnly};
ghost use Rattle.rc_host.specs.Table.{HasNoneFreeBefore, HasNoRoom, HasNoRoomFrom, HasNoRoomForTwo};

use rc_world::Fault;
use std::alloc::Global;
use std::marker::Model;

/// Things, each held at a number.
#[derive(Drop)]
pub(crate) struct Table<T> {
    places: Vec<Option<T>>,
    /// No place before this one is free.
    first: usize,
}

impl<T> Model for Table<T> {
    ghost Value = { List (Option T) };

    ghost view = { λ table. table.places.items };

    ghost invariant = { λ table. HasNoneFreeBefore table.places.items table.first };
}

impl<T: Drop> Table<T> {
    /// A table that holds nothing.
    pub(crate) fn new(alloc: Global) -> Table<T>
        ensures { (k : ℕ) → held_at result k ≡ None }
    {
        Table {
            places: Vec::new(alloc),
            first: 0,
        }
    }

    /// What is held at the number.
    pub(crate) fn get(&self, number: u32) -> Option<&T>
        ensures { option_copied result ≡ held_at self.now number }
    {
        self.places.get(number as usize)?.as_ref()
    }

    /// Returns the lowest number that is not held, and makes room for it.
    pub(crate) fn room(&mut self) -> Result<u32, Fault>
        ensures least { IfOk result (IsLeastFree self.old) }
        ensures place { IfOk result (λ n. n < length self.new) }
        ensures same { HoldsTheSame self.old self.new }
        ensures err { IfErr result (HasNoRoom self.old) }
    {
        let first = self.first;
        let number = self.room_from(first)?;
        self.first = number as usize;
        Ok(number)
    }

    /// Returns the two lowest numbers that are not held, and makes room for them.
    pub(crate) fn room_for_two(&mut self) -> Result<(u32, u32), Fault>
        ensures least { IfOk result (λ numbers. AreLeastFree self.old numbers.0 numbers.1) }
        ensures places { IfOk result (λ numbers. numbers.1 < length self.new) }
        ensures same { HoldsTheSame self.old self.new }
        ensures err { IfErr result (HasNoRoomForTwo self.old) }
    {
        let first = self.room()?;
        let second = self.room_from(first as usize + 1)?;
        Ok((first, second))
    }

    /// Returns the lowest number from `start` that is not held, and makes room for it.
    fn room_from(&mut self, start: usize) -> Result<u32, Fault>
        requires { start ≤ length self.old }
        ensures least { IfOk result (IsLeastFreeFrom self.old start) }
        ensures place { IfOk result (λ n. n < length self.new) }
        ensures same { HoldsTheSame self.old self.new }
        ensures err { IfErr result (HasNoRoomFrom self.old start) }
    {
        let all = self.places.len();
        let free = self.free_from(start);
        let Ok(number) = u32::try_from(free.unwrap_or(all)) else {
            return Err(Fault::Other);
        };
        if free.is_none() && self.places.push(None).is_err() {
            return Err(Fault::NoMemory);
        }
        Ok(number)
    }

    /// The first free index from `start`.
    fn free_from(&self, start: usize) -> Option<usize>
        requires { start ≤ length self.now }
        ensures found { IfSome result (λ n. n < length self.now) }
        ensures least { IfSome result (IsLeastFreeFrom self.now start) }
        ensures none { IfNone result ((k : ℕ) → start ≤ k → k < length self.now → IsSome (held_at self.now k)) }
    {
        for number in start..self.places.len() {
            if self.places[number].is_none() {
                return Some(number);
            }
        }
        None
    }

    /// Holds a thing at a number for which there is room.
    pub(crate) fn put(&mut self, number: u32, thing: T)
        requires { number < length self.old }
        ensures changed { ChangesOnly self.old self.new number (Some thing) }
        ensures places { length self.new ≡ length self.old }
    {
        self.places[number as usize] = Some(thing);
    }

    /// Removes and returns the thing at a number, which is free then.
    pub(crate) fn take(&mut self, number: u32) -> Option<T>
        ensures taken { result ≡ held_at self.old number }
        ensures freed { ChangesOnly self.old self.new number None }
    {
        self.first = self.first.min(number as usize);
        self.places.get_mut(number as usize)?.take()
    }
}
