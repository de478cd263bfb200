//! Sums of words of two sets, and their carries.

ghost use Rattle.std.specs.Prelude.{◌≡◌, ◌≤◌, ℕ};
ghost use Rattle.wordset.specs.Words.{sums, smeared, carries};
ghost use Rattle.wordset.specs.Lanes.{words};
ghost use Rattle.wordset.specs.Links.{carries_of};

use crate::{Carries, WordSet};
use word12::Word;

impl WordSet {
    /// The sums a + b, modulo 4096, of the words a of this set and b of the other, and the carries
    /// with which they come.
    pub fn sums(&self, other: &WordSet) -> (WordSet, Carries)
        ensures words { words result.0 ≡ sums (words self.now) (words other.now) }
        ensures carries { carries_of result.1 ≡ carries (words self.now) (words other.now) }
    {
        let carries = Carries {
            absent: self.has_sum_without_carry(other),
            present: self.has_sum_with_carry(other),
        };
        (self.all_sums(other), carries)
    }

    /// The sums; quick where one of the sets has one word.
    fn all_sums(&self, other: &WordSet) -> WordSet
        ensures { words result ≡ sums (words self.now) (words other.now) }
    {
        if let Some(word) = self.only() {
            return other.shift(word);
        }
        if let Some(word) = other.only() {
            return self.shift(word);
        }
        if self.has_fewer_ranges(other) {
            self.sums_by_range(other)
        } else {
            other.sums_by_range(self)
        }
    }

    /// Whether the set is in at most as many ranges as another, where 7777 and 0 are neighbours.
    fn has_fewer_ranges(&self, other: &WordSet) -> bool {
        let one = Word::from_index(1);
        self.minus(&self.shift(one)).count() <= other.minus(&other.shift(one)).count()
    }

    /// The sums, by a shift for each range of this set; quick where the other set is all words.
    #[inline(never)]
    fn sums_by_range(&self, other: &WordSet) -> WordSet
        ensures { words result ≡ sums (words self.now) (words other.now) }
    {
        if other.is_all() && !self.is_empty() {
            return WordSet::all();
        }
        let mut found = WordSet::empty();
        for (low, high) in self.ranges() {
            let smeared = other.smeared(high.index() - low.index() + 1);
            found = found.union(&smeared.shift(low));
        }
        found
    }

    /// The words a + k, modulo 4096, for the words a of the set and the numbers k below a count. What is found of some numbers and the
    /// same shifted is found of up to twice as many.
    fn smeared(&self, count: usize) -> WordSet
        requires some { 1 ≤ count }
        requires few { count ≤ 4096 }
        ensures { words result ≡ smeared (words self.now) count }
    {
        let mut found = *self;
        let mut reach = 1usize;
        while reach < count {
            let more = reach.min(count - reach);
            found = found.union(&found.shift(Word::from_index(more)));
            reach += more;
        }
        found
    }

    /// Whether some sum is below 4096: the least words tell.
    fn has_sum_without_carry(&self, other: &WordSet) -> bool
        ensures { result ≡ carries (words self.now) (words other.now) 0 }
    {
        match self.first_from(0) {
            None => false,
            Some(a) => match other.first_from(0) {
                None => false,
                Some(b) => !a.carries(b),
            },
        }
    }

    /// Whether some sum is 4096 or more: the greatest words tell.
    fn has_sum_with_carry(&self, other: &WordSet) -> bool
        ensures { result ≡ carries (words self.now) (words other.now) 1 }
    {
        match self.greatest() {
            None => false,
            Some(a) => match other.greatest() {
                None => false,
                Some(b) => a.carries(b),
            },
        }
    }
}
