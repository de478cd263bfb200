//! How far a return word may have been incremented, for counts up to 77.

ghost use Rattle.std.specs.Prelude.{◌≡◌, ◌<◌, ◌↔◌, ℕ, IsTrue, true, false, if◌then◌else◌};
ghost use Rattle.wordset.specs.Words.{nothing, with_word};
ghost use Rattle.wordset.specs.Lanes.{words};
ghost use Rattle.domain.specs.Moves.{counted_up, offsets_between};

use word12::Word;
use wordset::WordSet;

/// Some of the offsets 0 to 77, by which a routine's return word may have been incremented.
///
/// Contracts see them as `offsets_in` gives them.
#[derive(Clone, Copy, Debug)]
pub struct ReturnOffsets {
    bits: u64,
    ghost fits: { bits < 18446744073709551616 },
}

impl ReturnOffsets {
    ghost use Rattle.domain.specs.Offsets.{offsets_in, every_offset};

    /// No offset.
    pub fn none() -> ReturnOffsets
        ensures { offsets_in result ≡ nothing }
    {
        ReturnOffsets { bits: 0 }
    }

    /// All offsets.
    pub fn all() -> ReturnOffsets
        ensures { offsets_in result ≡ every_offset }
    {
        ReturnOffsets { bits: u64::MAX }
    }

    /// Whether an offset is among them.
    pub fn contains(self, offset: usize) -> bool
        requires { offset < 64 }
        ensures { result ≡ offsets_in self offset }
    {
        self.bits >> offset & 1 == 1
    }

    /// Puts an offset in.
    pub fn insert(&mut self, offset: usize)
        requires { offset < 64 }
        ensures { offsets_in self.new ≡ with_word offset (offsets_in self.old) }
    {
        self.bits |= 1 << offset;
    }

    /// Whether there is no offset.
    pub fn is_empty(self) -> bool
        ensures { IsTrue result ↔ ((o : ℕ) → o < 64 → offsets_in self o ≡ false) }
    {
        self.bits == 0
    }

    /// Whether each offset is among the others.
    pub fn is_subset(self, other: ReturnOffsets) -> bool
        ensures { IsTrue result ↔ ((o : ℕ) → o < 64 → offsets_in self o ≡ true →
            offsets_in other o ≡ true) }
    {
        self.bits & !other.bits == 0
    }

    /// The offsets from the return addresses of some sites to some words.
    pub fn between(sites: &WordSet, to: &WordSet) -> ReturnOffsets
        ensures { offsets_in result ≡ offsets_between (words sites.now) (words to.now) }
    {
        let mut offsets = ReturnOffsets::none();
        for o in 0..64usize {
            let reached = sites.shift(Word::from_index(o + 1)).meet(to);
            offsets.insert_if(!reached.is_empty(), o);
        }
        offsets
    }

    /// Puts an offset in, where it is chosen.
    fn insert_if(&mut self, chosen: bool, offset: usize)
        requires { offset < 64 }
        ensures { offsets_in self.new ≡
            (if chosen then with_word offset (offsets_in self.old) else offsets_in self.old) }
    {
        if chosen {
            self.insert(offset);
        }
    }

    /// The offsets after the return word went up by one.
    pub fn counted(self) -> ReturnOffsets
        ensures { offsets_in result ≡ counted_up (offsets_in self) }
    {
        ReturnOffsets {
            bits: self.bits << 1,
        }
    }
}
