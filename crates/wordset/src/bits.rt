//! The bitwise operations on the words of sets, built from shifts.
//!
//! To set a bit in a word that lacks it is to add its weight. So a bit is put into each word of a
//! set by one shift of those that lack it.

ghost use Rattle.std.specs.Prelude.{◌≡◌, ◌<◌, ◌+◌, ◌-◌, ◌*◌, ◌^◌, ◌==◌, ◌&&◌, ◌||◌, bit_and, ℕ};
ghost use Rattle.std.specs.Int.{bit_at};
ghost use Rattle.wordset.specs.Words.{SameWords, some_below, ands, ors, or_any, all_words};
ghost use Rattle.wordset.specs.Lanes.{words};
ghost use Rattle.wordset.specs.Bits.{has_bit, doubled, halved, put_bit, ors_with, neighbour};

use crate::WordSet;
use word12::Word;

/// Sets of so many words are small enough to go through all pairs of their words.
const FEW: usize = 40;

impl WordSet {
    /// The words a or m, for the words a of the set and all parts m of the mask: the words with
    /// bits of the mask alone.
    pub fn or_any(&self, mask: Word) -> WordSet
        ensures { words result ≡ or_any mask (words self.now) }
    {
        let parts = mask.index();
        let mut found = *self;
        for at in 0..12usize {
            if parts >> at & 1 == 1 {
                found = found.doubled(at);
            }
        }
        found
    }

    /// The words a or b, for the words a of this set and b of the other.
    pub fn ors(&self, other: &WordSet) -> WordSet
        ensures { words result ≡ ors (words self.now) (words other.now) }
    {
        if self.count() <= other.count() {
            self.ors_by_word(other)
        } else {
            other.ors_by_word(self)
        }
    }

    /// The words a and b, for the words a of this set and b of the other: the complement of `a and
    /// b` is the `or` of the complements.
    pub fn ands(&self, other: &WordSet) -> WordSet
        ensures { words result ≡ ands (words self.now) (words other.now) }
    {
        if other.is_all() {
            return self.ands_with_all();
        }
        if self.is_all() {
            return other.ands_with_all();
        }
        if self.count() <= FEW && other.count() <= FEW {
            return self.ands_of_few(other);
        }
        self.ands_by_complements(other)
    }

    /// The words a and b, by the complements of both sets.
    #[inline(never)]
    fn ands_by_complements(&self, other: &WordSet) -> WordSet
        ensures { words result ≡ ands (words self.now) (words other.now) }
    {
        self.complements().ors(&other.complements()).complements()
    }

    /// The words a and b, pair by pair; quick where there are few.
    fn ands_of_few(&self, other: &WordSet) -> WordSet
        ensures { words result ≡ ands (words self.now) (words other.now) }
    {
        let mut found = WordSet::empty();
        for word in self.iter() {
            other.put_ands_with(word, &mut found);
        }
        found
    }

    /// Puts the words a and b into a set, for one word a and each word b of this set.
    fn put_ands_with(&self, word: Word, found: &mut WordSet)
        ensures { (v : ℕ) → words found.new v ≡
            (words found.old v || some_below 4096 (λ y. words self.now y && (bit_and word y == v))) }
    {
        for other in self.iter() {
            found.insert(word.and(other));
        }
    }

    /// The words a and b, for the words a of the set and all words b.
    fn ands_with_all(&self) -> WordSet
        ensures { words result ≡ ands (words self.now) all_words }
    {
        let mut found = *self;
        for at in 0..12usize {
            found = found.halved(at);
        }
        found
    }

    /// The words a or b, for each word a of this set; quick where the other set is all words.
    fn ors_by_word(&self, other: &WordSet) -> WordSet
        ensures { words result ≡ ors (words self.now) (words other.now) }
    {
        if other.is_all() {
            return self.or_any(Word::from_index(0o7777));
        }
        let mut found = WordSet::empty();
        for word in self.iter() {
            found = found.union(&other.or_word(word));
        }
        found
    }

    /// The words a or b, for one word a and the words b of the set.
    fn or_word(&self, word: Word) -> WordSet
        ensures { words result ≡ ors_with word (words self.now) }
    {
        let bits = word.index();
        let mut found = *self;
        for at in 0..12usize {
            if bits >> at & 1 == 1 {
                found = found.put_bit(at);
            }
        }
        found
    }

    /// The words of the set, and each of them with the bit of weight 2 ^ at set.
    fn doubled(&self, at: usize) -> WordSet
        requires { at < 12 }
        ensures { SameWords (words result) (doubled at (words self.now)) }
    {
        let lacking = self.minus(&WordSet::having(at));
        self.union(&lacking.shift(weight(at)))
    }

    /// The words of the set, and each of them with the bit of weight 2 ^ at clear.
    fn halved(&self, at: usize) -> WordSet
        requires { at < 12 }
        ensures { SameWords (words result) (halved at (words self.now)) }
    {
        let having = self.meet(&WordSet::having(at));
        let negated = weight(at).complement().increment();
        self.union(&having.shift(negated))
    }

    /// The words of the set with the bit of weight 2 ^ at set.
    fn put_bit(&self, at: usize) -> WordSet
        requires { at < 12 }
        ensures { SameWords (words result) (put_bit at (words self.now)) }
    {
        let having = WordSet::having(at);
        let lacking = self.minus(&having);
        self.meet(&having).union(&lacking.shift(weight(at)))
    }

    /// All words with the bit of weight 2 ^ at.
    fn having(at: usize) -> WordSet
        requires { at < 12 }
        ensures { SameWords (words result) (has_bit at) }
    {
        let mut lanes = [0u64; 64];
        for i in 0..64usize {
            lanes[i] = lane_of_bit(at, i);
        }
        WordSet { lanes }
    }
}

/// The words of a lane that have the bit of weight 1, 2, 4, 8, 16 or 32.
const PATTERNS: [u64; 6] = [
    0xaaaa_aaaa_aaaa_aaaa,
    0xcccc_cccc_cccc_cccc,
    0xf0f0_f0f0_f0f0_f0f0,
    0xff00_ff00_ff00_ff00,
    0xffff_0000_ffff_0000,
    0xffff_ffff_0000_0000,
];

/// A lane in which each bit has changed places with the one whose place differs from its own by 2 ^ at in that bit alone.
fn exchanged(lane: u64, at: usize) -> u64
    requires { at < 6 }
    ensures { (j : ℕ) → j < 64 → bit_at result j ≡ bit_at lane (neighbour at j) }
{
    let by = 1usize << at;
    let upper = PATTERNS[at];
    (lane & upper) >> by | (lane << by) & upper
}

/// A lane with its bits in the opposite order: they change places by ones, twos, fours and so on, for all bits at once.
pub(crate) fn reversed(lane: u64) -> u64
    ensures { (j : ℕ) → j < 64 → bit_at result j ≡ bit_at lane (63 - j) }
{
    let pairs = exchanged(lane, 0);
    let fours = exchanged(pairs, 1);
    let eights = exchanged(fours, 2);
    let sixteens = exchanged(eights, 3);
    let halves = exchanged(sixteens, 4);
    exchanged(halves, 5)
}

/// The words of lane i that have the bit of weight 2 ^ at.
fn lane_of_bit(at: usize, i: usize) -> u64
    requires at_in { at < 12 }
    requires i_in { i < 64 }
    ensures { (j : ℕ) → j < 64 → (bit_at result j == 1) ≡ has_bit at (64 * i + j) }
{
    if at < 6 {
        PATTERNS[at]
    } else if i >> (at - 6) & 1 == 1 {
        u64::MAX
    } else {
        0
    }
}

/// The word 2 ^ at.
fn weight(at: usize) -> Word
    requires { at < 12 }
    ensures { result ≡ 2 ^ at }
{
    Word::from_index(1 << at)
}
