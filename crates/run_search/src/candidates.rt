//! At which bytes the failed tests hint, counted for each test.

ghost use Rattle.std.specs.Prelude.{◌<◌};

use crate::dictionary::Dictionary;
use crate::random::Random;
use indexmap::IndexMap;
use peripherals::NoMemory;
use std::alloc::Allocator;
use std::hash::{BuildHasherDefault, FoldHasher};
use word12::Word;

/// How many of the last inputs a test may hint at.
pub(crate) const MOST_BACK: usize = 5;

/// For each of the last inputs, hints by a sum and by a difference.
const KINDS: usize = 2 * MOST_BACK;

/// The counts of each byte by each kind of hint.
const VOTES: usize = KINDS * 256;

/// The most tests of which candidates are kept.
const MOST_TESTS: usize = 1000;

/// The most candidates for words of the switches.
const MOST_WORDS: usize = 100_000;

/// All kinds of hints.
const ALL_KINDS: u16 = 0x3ff;

/// A test that failed so many times teaches.
const ENOUGH: u32 = 64;

/// A byte is learned at which one of so many failures of a test hints.
const PART: u32 = 24;

/// Of more failures than that half are forgotten.
const MANY: u32 = 1000;

/// How often a test is looked at before it is looked at less and less.
const OFTEN: u32 = 5000;

/// How often tests hinted at a byte, the input of the last hint, and how often that was another one than before.
#[derive(Clone, Copy)]
struct ByteCandidate {
    count: u16,
    input: u8,
    changes: u8,
}

impl ByteCandidate {
    const NONE: ByteCandidate = ByteCandidate {
        count: 0,
        input: 0,
        changes: 0,
    };

    /// One more, by an input.
    fn add(&mut self, input: u8) {
        self.count = self.count.saturating_add(1);
        if self.input != input {
            self.input = input;
            self.changes = self.changes.saturating_add(1);
        }
    }
}

/// What a test in the program hinted at.
#[derive(Drop)]
struct TestCandidates<A: Allocator> {
    /// How often it failed.
    met: u32,
    /// How often it failed, of the times that were counted.
    counted: u32,
    /// The kinds of hints that agree, a bit for each; all of them until it is known.
    good: u16,
    candidates: Vec<ByteCandidate, A>,
}

impl<A: Allocator + Copy> TestCandidates<A> {
    /// Learns the bytes at which a part of the hints agree. Where there were many, half of them are
    /// forgotten.
    fn teach(&mut self, dictionary: &mut Dictionary<A>) -> Result<(), NoMemory> {
        self.good = 0;
        for place in 0..VOTES {
            let candidate = self
                .candidates
                .get(place)
                .copied()
                .unwrap_or(ByteCandidate::NONE);
            if candidate.changes >= 3
                && (candidate.count as u32).saturating_mul(PART) >= self.counted
            {
                self.good |= 1u16 << ((place >> 8) & 15);
                dictionary.learn((place & 0o377) as u16)?;
            }
        }
        if self.counted > MANY {
            self.forget_half();
        }
        Ok(())
    }

    /// Halves the counts.
    fn forget_half(&mut self) {
        self.counted /= 2;
        for candidate in self.candidates.iter_mut() {
            candidate.count /= 2;
        }
    }
}

/// A word for the switches at which a test hinted: the input of the last hint, and how often that was another one
/// than before.
#[derive(Clone, Copy)]
struct WordCandidate {
    input: u16,
    changes: u8,
}

impl WordCandidate {
    /// One more, by an input. True if it is the fourth other input.
    fn add(&mut self, input: u16) -> bool {
        if self.input == input {
            return false;
        }
        self.input = input;
        self.changes = self.changes.saturating_add(1);
        self.changes == 4
    }
}

/// A hint of a test: by which kind, at which value.
#[derive(Clone, Copy)]
pub(crate) struct CandidateSource {
    /// How many inputs back, from 1.
    pub(crate) back: usize,
    /// Whether by a sum, and not by a difference.
    pub(crate) is_sum: bool,
    /// The input that was given.
    pub(crate) input: u16,
    /// The one that is hinted at.
    pub(crate) value: u16,
}

impl CandidateSource {
    /// The number of its kind.
    fn kind(&self) -> usize
        ensures { result < 10 }
    {
        let back = self.back.saturating_sub(1).min(MOST_BACK - 1);
        back * 2 + (self.is_sum as usize)
    }
}

/// What all tests hinted at.
#[derive(Drop)]
pub(crate) struct InputCandidates<A: Allocator> {
    alloc: A,
    tests: Vec<TestCandidates<A>, A>,
    /// The number of the test at each address, if it has one.
    test_of: Vec<Option<usize>, A>,
    words: IndexMap<usize, WordCandidate, BuildHasherDefault<FoldHasher>, A>,
}

/// How closely a test that failed is looked at.
#[derive(Clone, Copy, PartialEq, Eq)]
pub(crate) enum Interest {
    /// Its hints are counted, and followed.
    Full,
    /// Only the hint at an input right behind a kept state is followed.
    Slight,
}

impl<A: Allocator + Copy> InputCandidates<A> {
    /// No candidates.
    pub(crate) fn new(alloc: A) -> Result<InputCandidates<A>, NoMemory> {
        Ok(InputCandidates {
            alloc,
            tests: Vec::new(alloc),
            test_of: Vec::from_elem(alloc, None, 4096)?,
            words: IndexMap::new(alloc),
        })
    }

    /// The number of the test at an address, which is made where there is room for one more.
    fn test_at(&mut self, at: Word) -> Result<Option<usize>, NoMemory> {
        if let Some(Some(number)) = self.test_of.get(at.index()) {
            return Ok(Some(*number));
        }
        let number = self.tests.len();
        if number >= MOST_TESTS {
            return Ok(None);
        }
        let test = TestCandidates {
            met: 0,
            counted: 0,
            good: ALL_KINDS,
            candidates: Vec::from_elem(self.alloc, ByteCandidate::NONE, VOTES)?,
        };
        self.tests.push(test).map_err(|_| NoMemory)?;
        if let Some(place) = self.test_of.get_mut(at.index()) {
            *place = Some(number);
        }
        Ok(Some(number))
    }

    /// A test failed. A test that fails often is looked at less and less.
    pub(crate) fn meet(&mut self, at: Word, random: &mut Random) -> Result<Interest, NoMemory> {
        let Some(number) = self.test_at(at)? else {
            return Ok(Interest::Slight);
        };
        let Some(test) = self.tests.get_mut(number) else {
            return Ok(Interest::Slight);
        };
        let met = test.met;
        test.met = met.saturating_add(1);
        if met < OFTEN || random.once_in((met / (OFTEN / 2)) as usize) {
            test.counted = test.counted.saturating_add(1);
            return Ok(Interest::Full);
        }
        Ok(Interest::Slight)
    }

    /// Counts a hint at a byte.
    pub(crate) fn add_byte_candidate(&mut self, at: Word, pointer: &CandidateSource) {
        let Some(Some(number)) = self.test_of.get(at.index()) else {
            return;
        };
        if let Some(test) = self.tests.get_mut(*number) {
            let place = pointer.kind() * 256 + ((pointer.value & 0o377) as usize);
            if let Some(candidate) = test.candidates.get_mut(place) {
                candidate.add((pointer.input & 0o377) as u8);
            }
        }
    }

    /// Counts a hint at a word for the switches. True if several inputs hinted at it.
    pub(crate) fn add_word_candidate(
        &mut self,
        at: Word,
        pointer: &CandidateSource,
    ) -> Result<bool, NoMemory> {
        let key = (at.index() << 12) | (pointer.value as usize);
        let first = WordCandidate {
            input: pointer.input,
            changes: 1,
        };
        let has_room = self.words.len() < MOST_WORDS;
        if let Some(candidate) = self.words.get_mut(&key) {
            return Ok(candidate.add(pointer.input));
        }
        if has_room {
            self.words.insert(key, first).map_err(|_| NoMemory)?;
        }
        Ok(false)
    }

    /// Whether hints of a kind agree at a test, as far as it is known.
    pub(crate) fn is_good(&self, at: Word, pointer: &CandidateSource) -> bool {
        let Some(Some(number)) = self.test_of.get(at.index()) else {
            return true;
        };
        match self.tests.get(*number) {
            Some(test) => (test.good >> (pointer.kind() & 15)) & 1 != 0,
            None => true,
        }
    }

    /// Learns the bytes at which a part of one test's hints agree.
    pub(crate) fn teach(&mut self, dictionary: &mut Dictionary<A>) -> Result<(), NoMemory> {
        dictionary.forget();
        for test in self.tests.iter_mut() {
            if test.counted >= ENOUGH {
                test.teach(dictionary)?;
            }
        }
        Ok(())
    }
}
