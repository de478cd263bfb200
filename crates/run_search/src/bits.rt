//! Sets of numbers below a bound.

use peripherals::NoMemory;
use std::alloc::Allocator;

/// A set of numbers below a bound, one bit for each.
#[derive(Drop)]
pub(crate) struct Bits<A: Allocator> {
    words: Vec<u64, A>,
}

impl<A: Allocator + Copy> Bits<A> {
    /// The empty set of numbers below 64 times so many.
    pub(crate) fn new(alloc: A, words: usize) -> Result<Bits<A>, NoMemory> {
        Ok(Bits {
            words: Vec::from_elem(alloc, 0, words)?,
        })
    }

    /// Puts a number in. True if it is new.
    pub(crate) fn insert(&mut self, number: usize) -> bool {
        let Some(word) = self.words.get_mut(number >> 6) else {
            return false;
        };
        let bit = 1u64 << (number & 63);
        if *word & bit != 0 {
            return false;
        }
        *word |= bit;
        true
    }
}
