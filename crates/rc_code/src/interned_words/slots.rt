//! Where to look for the number of a word. What is found here may be wrong, and a word may be missing: each number is
//! looked at before it is used.

use std::alloc::{AllocError, Global};

/// How many slots are looked at for a word.
pub(crate) const MOST_TRIES: u32 = 4;

/// What stands in a slot that is free.
const FREE: u32 = u32::MAX;

/// A number that different words seldom share.
pub(crate) fn hash(text: &str, quoted: bool) -> u32 {
    let mut hash: u32 = if quoted { 1 } else { 0 };
    for b in text.as_bytes() {
        hash = (hash ^ u32::from(*b)).wrapping_mul(0x0100_0193);
    }
    hash ^ (hash >> 15)
}

/// The numbers of words, each near the place that its hash calls for.
#[derive(Drop)]
pub(crate) struct Slots {
    /// Their number is a power of two, or 0.
    numbers: Vec<u32>,
}

impl Slots {
    /// No slots.
    pub(crate) fn none(alloc: Global) -> Slots {
        Slots {
            numbers: Vec::new(alloc),
        }
    }

    /// That many free slots.
    pub(crate) fn free(alloc: Global, count: usize) -> Result<Slots, AllocError> {
        Ok(Slots {
            numbers: vec![in alloc; FREE; count]?,
        })
    }

    pub(crate) fn len(&self) -> usize {
        self.numbers.len()
    }

    /// The place of a slot that is looked at for this hash.
    fn place(&self, hash: u32, tries: u32) -> usize {
        let mask = self.numbers.len().wrapping_sub(1);
        hash.wrapping_add(tries) as usize & mask
    }

    /// The number in a slot that is looked at for this hash, unless the slot is free.
    pub(crate) fn number(&self, hash: u32, tries: u32) -> Option<u32> {
        let number = *self.numbers.get(self.place(hash, tries))?;
        if number == FREE { None } else { Some(number) }
    }

    /// The first free slot that is looked at for this hash, or else the first of all.
    fn room(&self, hash: u32) -> usize {
        for tries in 0..MOST_TRIES {
            let place = self.place(hash, tries);
            if self
                .numbers
                .get(place)
                .is_some_and(|number| *number == FREE)
            {
                return place;
            }
        }
        self.place(hash, 0)
    }

    /// One more number.
    pub(crate) fn put(&mut self, hash: u32, number: u32) {
        let place = self.room(hash);
        if let Some(slot) = self.numbers.get_mut(place) {
            *slot = number;
        }
    }
}
