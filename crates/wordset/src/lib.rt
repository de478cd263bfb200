//! Sets of words, kept by lanes: 64 words of 64 bits, with one bit for each of the 4096 words.
//!
//! Contracts see a set as the test `words`, which no number from 4096 on passes, and each call as
//! its mathematical image. No call takes memory.
#![tactic(auto)]

ghost use Rattle.std.specs.Prelude.{◌≡◌, ◌<◌, ◌≤◌, ◌+◌, ◌-◌, ◌*◌, ◌/◌, ◌%◌, ◌^◌, ◌==◌, ◌↔◌, ℕ, nat_lt, map, bit_and, bit_or, length, not, slice_index, IsTrue, MatchOption};
ghost use Rattle.std.specs.Int.{bit_at};
ghost use Rattle.std.specs.Simd.Lanes.{zip2, chunk, put_chunk};
ghost use Rattle.wordset.specs.Words.{IsWithin, nothing, all_words, one, between, with_word, without, union, meet, difference, shifted, has_some, how_many, first_below, only, mirrored, IsFirstFrom, HasNoneFrom, IsGreatest};
ghost use Rattle.wordset.specs.Lanes.{words, twice};

use std::marker::Model;
use std::simd::prelude::*;
use word12::Word;

mod bits;
mod iter;
mod links;
mod operate;
mod ranges;
mod sums;

pub use iter::Iter;
pub use links::{Carries, Links};
pub use ranges::Ranges;

/// A set of words.
#[derive(Clone, Copy, PartialEq, Eq, Debug)]
pub struct WordSet {
    lanes: [u64; 64],
}

impl Model for WordSet {
    ghost use Rattle.std.specs.Prelude.{ℕ, List};
    ghost use Rattle.wordset.specs.Lanes.{AreLanes};

    ghost Value = { List ℕ };

    ghost view = { λ s. s.lanes };

    ghost invariant = { λ s. AreLanes s.lanes };

    ghost inverse = { λ v. record { lanes = v } };
}

impl WordSet {
    /// The set with no word.
    pub fn empty() -> WordSet
        ensures { words result ≡ nothing }
    {
        WordSet { lanes: [0; 64] }
    }

    /// The set of all 4096 words.
    pub fn all() -> WordSet
        ensures { words result ≡ all_words }
    {
        WordSet {
            lanes: [u64::MAX; 64],
        }
    }

    /// The set of one word.
    pub fn one(word: Word) -> WordSet
        ensures { words result ≡ one word }
    {
        let mut set = WordSet::empty();
        set.insert(word);
        set
    }

    /// The words from `low` to `high`, both of them in it; none where `high` is the lesser.
    pub fn range(low: Word, high: Word) -> WordSet
        ensures { words result ≡ between low high }
    {
        if low.index() == 0 && high.index() == 4095 {
            return WordSet::all();
        }
        WordSet::short_range(low, high)
    }

    /// The same, lane by lane.
    fn short_range(low: Word, high: Word) -> WordSet
        ensures { words result ≡ between low high }
    {
        let end = high.index() + 1;
        let mut lanes = [0u64; 64];
        for i in low.index() / 64..high.index() / 64 + 1 {
            lanes[i] = lane_below(end, i) & !lane_below(low.index(), i);
        }
        WordSet { lanes }
    }

    /// Puts in the words from `low` to `high`, both of them; none where `high` is the lesser.
    pub fn insert_range(&mut self, low: Word, high: Word)
        ensures { words self.new ≡ union (words self.old) (between low high) }
    {
        let end = high.index() + 1;
        for i in low.index() / 64..high.index() / 64 + 1 {
            self.lanes[i] |= lane_below(end, i) & !lane_below(low.index(), i);
        }
    }

    /// The lanes of the set: bit j of lane i, the least bit being bit 0, is set if and only if the
    /// word 64 i + j is in the set.
    pub fn words(&self) -> &[u64; 64]
        ensures { (i j : ℕ) → i < 64 → j < 64 →
            (bit_at (slice_index result.now i) j == 1) ≡ words self.now (64 * i + j) }
    {
        &self.lanes
    }

    /// Whether the word is in the set.
    pub fn contains(&self, word: Word) -> bool
        ensures { result ≡ words self.now word }
    {
        let at = word.index();
        (self.lanes[at / 64] >> (at % 64)) & 1 == 1
    }

    /// Puts a word in.
    pub fn insert(&mut self, word: Word)
        ensures { words self.new ≡ with_word word (words self.old) }
    {
        let at = word.index();
        self.lanes[at / 64] |= 1 << (at % 64);
    }

    /// Takes a word out.
    pub fn remove(&mut self, word: Word)
        ensures { words self.new ≡ without word (words self.old) }
    {
        *self = self.minus(&WordSet::one(word));
    }

    /// Whether there is no word.
    pub fn is_empty(&self) -> bool
        ensures { result ≡ not (has_some (words self.now)) }
    {
        u64x64::from_array(self.lanes).reduce_or() == 0
    }

    /// Whether every word is in the set.
    pub fn is_all(&self) -> bool
        ensures { IsTrue result ↔ (words self.now ≡ all_words) }
    {
        WordSet::all().is_subset(self)
    }

    /// How many words there are.
    pub fn count(&self) -> usize
        ensures { result ≡ how_many 4096 (words self.now) }
    {
        let mut total = 0usize;
        for i in 0..64usize {
            total += self.lanes[i].count_ones() as usize;
        }
        total
    }

    /// The least word.
    pub fn least(&self) -> Option<Word>
        ensures { result ≡ first_below 4096 (words self.now) }
    {
        self.first_from(0)
    }

    /// The least of the words from a number on.
    pub fn first_from(&self, from: usize) -> Option<Word>
        ensures { MatchOption result
            (HasNoneFrom from (words self.now))
            (λ w. IsFirstFrom from (words self.now) w) }
    {
        if from >= 4096 {
            return None;
        }
        let rest = self.lanes[from / 64] >> (from % 64);
        if rest != 0 {
            return Some(Word::from_index(from + rest.trailing_zeros() as usize));
        }
        self.first_in_lanes(from / 64 + 1)
    }

    /// The least of the words in the lanes from one on.
    fn first_in_lanes(&self, start: usize) -> Option<Word>
        requires { start ≤ 64 }
        ensures { MatchOption result
            (HasNoneFrom (64 * start) (words self.now))
            (λ w. IsFirstFrom (64 * start) (words self.now) w) }
    {
        for i in start..64usize {
            let lane = self.lanes[i];
            if lane != 0 {
                return Some(Word::from_index(64 * i + lane.trailing_zeros() as usize));
            }
        }
        None
    }

    /// The greatest word.
    pub fn greatest(&self) -> Option<Word>
        ensures { MatchOption result
            (words self.now ≡ nothing)
            (λ w. IsGreatest (words self.now) w) }
    {
        for n in 0..64usize {
            let lane = self.lanes[63 - n];
            if lane != 0 {
                return Some(Word::from_index(64 * (63 - n) + (63 - lane.leading_zeros() as usize)));
            }
        }
        None
    }

    /// The word of the set, where it has one and no other.
    pub fn only(&self) -> Option<Word>
        ensures { result ≡ only (words self.now) }
    {
        let Some(word) = self.first_from(0) else {
            return None;
        };
        if self.is_subset(&WordSet::one(word)) {
            return Some(word);
        }
        None
    }

    /// The words of either set.
    pub fn union(&self, other: &WordSet) -> WordSet
        ensures { words result ≡ union (words self.now) (words other.now) }
    {
        let both = u64x64::from_array(self.lanes) | u64x64::from_array(other.lanes);
        WordSet {
            lanes: both.to_array(),
        }
    }

    /// The words that both sets have.
    pub fn meet(&self, other: &WordSet) -> WordSet
        ensures { words result ≡ meet (words self.now) (words other.now) }
    {
        let both = u64x64::from_array(self.lanes) & u64x64::from_array(other.lanes);
        WordSet {
            lanes: both.to_array(),
        }
    }

    /// The words of this set that the other does not have.
    pub fn minus(&self, other: &WordSet) -> WordSet
        ensures { words result ≡ difference (words self.now) (words other.now) }
    {
        let left = u64x64::from_array(self.lanes) & !u64x64::from_array(other.lanes);
        WordSet {
            lanes: left.to_array(),
        }
    }

    /// Whether each word is in the other set.
    pub fn is_subset(&self, other: &WordSet) -> bool
        ensures { IsTrue result ↔ IsWithin (words self.now) (words other.now) }
    {
        let left = u64x64::from_array(self.lanes) & !u64x64::from_array(other.lanes);
        left.reduce_or() == 0
    }

    /// The words a + k, modulo 4096, for the words a of the set.
    pub fn shift(&self, k: Word) -> WordSet
        ensures { words result ≡ shifted (words self.now) k }
    {
        if k.index() == 0 {
            return *self;
        }
        self.shift_from(&self.lanes_twice(), k)
    }

    /// Keeps the words that are a + k, modulo 4096, for a word a of another set.
    pub fn keep_shifted(&mut self, other: &WordSet, k: Word)
        ensures { words self.new ≡ meet (words self.old) (shifted (words other.now) k) }
    {
        let shifted = other.shift(k);
        let both = u64x64::from_array(self.lanes) & u64x64::from_array(shifted.lanes);
        self.lanes = both.to_array();
    }

    /// The lanes stored twice in a row, from which every shift of the set is taken.
    fn lanes_twice(&self) -> [u64; 128]
        ensures { result ≡ twice self.now }
    {
        let lanes = u64x64::from_array(self.lanes);
        let mut twice = [0u64; 128];
        put(&mut twice, 0, lanes);
        put(&mut twice, 64, lanes);
        twice
    }

    /// The same shift, from the lanes of the set stored twice.
    fn shift_from(&self, lanes: &[u64; 128], k: Word) -> WordSet
        requires { lanes.now ≡ twice self.now }
        ensures { words result ≡ shifted (words self.now) k }
    {
        // The proof needs the lanes of the set itself.
        let _set = &self.lanes;
        let by = k.index();
        let near = taken(lanes, 64 - by / 64);
        let far = taken(lanes, 63 - by / 64);
        WordSet {
            lanes: joined(near, far, by % 64),
        }
    }

    /// The complements 7777 - a of the words a of the set.
    pub fn complements(&self) -> WordSet
        ensures { words result ≡ mirrored (words self.now) }
    {
        let mut lanes = [0u64; 64];
        for i in 0..64usize {
            lanes[i] = bits::reversed(self.lanes[63 - i]);
        }
        WordSet { lanes }
    }
}

/// The words of lane i that are less than a number.
fn lane_below(end: usize, i: usize) -> u64
    requires { i < 64 }
    ensures { (j : ℕ) → j < 64 → (bit_at result j == 1) ≡ nat_lt (64 * i + j) end }
{
    let first = 64 * i;
    if end <= first {
        0
    } else if first + 64 <= end {
        u64::MAX
    } else {
        u64::MAX >> (first + 64 - end)
    }
}

/// Stores 64 lanes from a place on.
fn put(lanes: &mut [u64], at: usize, part: u64x64)
    requires { at + 64 ≤ length lanes.old }
    ensures { lanes.new ≡ put_chunk at lanes.old part }
{
    part.copy_to_slice(&mut lanes[at..]);
}

/// The 64 lanes from a place on.
fn taken(lanes: &[u64], at: usize) -> u64x64
    requires { at + 64 ≤ length lanes.now }
    ensures { result ≡ chunk at 64 lanes.now }
{
    u64x64::from_slice(&lanes[at..])
}

/// Each lane of `near` moved up, with what moves out of the lane of `far` below it.
fn joined(near: u64x64, far: u64x64, by: usize) -> [u64; 64]
    requires { by < 64 }
    ensures { result ≡ zip2 bit_or
        (map (λ x. x * 2 ^ by % 2 ^ 64) near)
        (map (λ x. x / 2 / 2 ^ (63 - by)) far) }
{
    let up = u64x64::splat(by as u64);
    let down = u64x64::splat((63 - by) as u64);
    let moved = (near << up) | (far >> 1 >> down);
    moved.to_array()
}
