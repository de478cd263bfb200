//! What was seen in all runs so far, so that it is known what is new.

use crate::bits::Bits;
use peripherals::NoMemory;
use std::alloc::Allocator;
use word12::Word;

/// Words of 64 bits for each pair of two words of the machine.
const PAIRS: usize = 1 << 18;

/// What was seen in all runs so far.
#[derive(Drop)]
pub(crate) struct Coverage<A: Allocator> {
    /// Steps from an address to an address.
    steps: Bits<A>,
    /// Words that were stored, and addresses that were used, by the address of the instruction.
    values: Bits<A>,
    /// How many of these there are at each address.
    counts: Vec<u32, A>,
    /// The least distance from 0 that each test has seen.
    nearest: Vec<u16, A>,
}

/// The number of a pair of words.
fn pair(at: Word, value: Word) -> usize {
    (at.index() << 12) | value.index()
}

impl<A: Allocator + Copy> Coverage<A> {
    /// Nothing.
    pub(crate) fn nothing(alloc: A) -> Result<Coverage<A>, NoMemory> {
        Ok(Coverage {
            steps: Bits::new(alloc, PAIRS)?,
            values: Bits::new(alloc, PAIRS)?,
            counts: Vec::from_elem(alloc, 0, 4096)?,
            nearest: Vec::from_elem(alloc, 4096, 4096)?,
        })
    }

    /// A step is made. True if it is new.
    #[inline]
    pub(crate) fn sees_step(&mut self, from: Word, to: Word) -> bool {
        self.steps.insert(pair(from, to))
    }

    /// A word is stored, or an address used. True if it is new.
    #[inline]
    pub(crate) fn sees_value(&mut self, at: Word, value: Word) -> bool {
        let is_new = self.values.insert(pair(at, value));
        if is_new {
            if let Some(count) = self.counts.get_mut(at.index()) {
                *count = count.saturating_add(1);
            }
        }
        is_new
    }

    /// A test sees a distance from 0. True if it is the least one so far.
    pub(crate) fn sees_distance(&mut self, at: Word, distance: u16) -> bool {
        let Some(nearest) = self.nearest.get_mut(at.index()) else {
            return false;
        };
        let is_new = distance < *nearest;
        if is_new {
            *nearest = distance;
        }
        is_new
    }

    /// How many words and addresses were seen at an address.
    pub(crate) fn count(&self, at: Word) -> u32 {
        self.counts.get(at.index()).copied().unwrap_or(0)
    }
}
