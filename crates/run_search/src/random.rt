//! Random numbers, the same for the same seed on every machine.

ghost use Rattle.std.specs.Prelude.{◌≤◌};

use rand_core::utils::NextWord;
use rand_pcg::Pcg32;

/// The stream of the generator that is used.
const STREAM: u64 = 8;

/// A source of random numbers.
#[derive(Drop)]
pub(crate) struct Random {
    words: Pcg32,
}

impl Random {
    /// The numbers of a seed.
    pub(crate) fn new(seed: u64) -> Random {
        Random {
            words: Pcg32::new(seed, STREAM),
        }
    }

    /// A number below another one; 0 where that is 0.
    pub(crate) fn below(&mut self, bound: usize) -> usize
        ensures { result ≤ bound }
    {
        let word = self.words.next_word() as usize;
        if bound == 0 { 0 } else { word % bound }
    }

    /// True once in so many times.
    pub(crate) fn once_in(&mut self, times: usize) -> bool {
        self.below(times) == 0
    }

    /// One of some values; none if there are none.
    pub(crate) fn pick(&mut self, values: &[u16]) -> Option<u16> {
        values.get(self.below(values.len())).copied()
    }
}
