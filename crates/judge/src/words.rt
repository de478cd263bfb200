//! What the conditions at one address ask of the words that are possible by a fact.

ghost use Rattle.std.specs.Prelude.{ℕ, ◌≡◌, ◌<◌, ◌≤◌, ◌↔◌, IsTrue, IfSome, true};
ghost use Rattle.peripherals.specs.Loading.{image_of};
ghost use Rattle.wordset.specs.Words.{one};
ghost use Rattle.wordset.specs.Lanes.{words};
ghost use Rattle.facts.specs.declared.Condition.TheVariants.{V3, V5, V6, V13, V14, V15, V16};
ghost use Rattle.judge.specs.ConditionOrder.{place_among};
ghost use Rattle.judge.specs.FewWords.{asks_few};
ghost use Rattle.judge.specs.Asked.{IsLeastPlace};
ghost use Rattle.judge.specs.Points.{IsPoint, HoldsHere, HoldsForAllWords, HoldsOfPoint, HasFewHere, possible_at};

use crate::claims::Claims;
use crate::point::{ComparisonWorkspace, Point};
use bin_tape::Image;
use facts::Condition;
use std::alloc::Allocator;
use word12::Word;
use wordset::WordSet;

/// The most words that may be possible at one address.
pub(crate) const MOST_WORDS: usize = 64;

/// The condition at a place among those that are asked of words at one address.
pub(crate) fn nth(place: usize) -> Condition
    requires low { 2 ≤ place }
    requires high { place < 16 }
    ensures { place_among result ≡ place }
{
    match place {
        2 => Condition::V3,
        3 => Condition::V5,
        4 => Condition::V14,
        5 => Condition::V6,
        6 => Condition::V13,
        7 => Condition::V7,
        8 => Condition::V8,
        9 => Condition::V9,
        10 => Condition::V10,
        11 => Condition::V12,
        12 => Condition::V11,
        13 => Condition::V4,
        14 => Condition::V15,
        _ => Condition::V16,
    }
}

/// Whether a condition asks for few words.
pub(crate) fn asks_few(condition: Condition) -> bool
    ensures { result ≡ asks_few condition }
{
    matches!(condition, Condition::V3)
}

/// The word of a tape at an address, if there is one.
pub(crate) fn word_of(image: &Image, at: Word) -> Option<Word>
    ensures { result ≡ image_of image.now at }
{
    image.get(at)
}

impl<A: Allocator, C: Claims, const K: usize, const S: usize> Point<'_, A, C, K, S> {
    /// The place of the first condition on words before a limit that fails of the fact, and the limit if
    /// none does.
    pub(crate) fn first_failing<M: Allocator>(
        &self,
        limit: usize,
        others: &mut ComparisonWorkspace<M>,
    ) -> usize
        requires point { IsPoint C.claims self.now }
        requires low { 2 ≤ limit }
        requires high { limit ≤ 16 }
        ensures { IsLeastPlace (HoldsOfPoint C.claims self.now) limit result }
    {
        match self.only_word() {
            Some(word) => self.check_word(word, limit, others),
            None => self.check_words(limit, others),
        }
    }

    /// The tape's word here, where no other one is possible.
    fn only_word(&self) -> Option<Word>
        ensures { IfSome result (λ w. possible_at C.claims self.now ≡ one w) }
    {
        if self.place.declaration.is_variable(self.at) {
            return None;
        }
        word_of(self.place.image, self.at)
    }

    /// Checks the conditions on the one word that is possible here.
    fn check_word<M: Allocator>(
        &self,
        word: Word,
        limit: usize,
        others: &mut ComparisonWorkspace<M>,
    ) -> usize
        requires point { IsPoint C.claims self.now }
        requires only { possible_at C.claims self.now ≡ one word }
        requires low { 2 ≤ limit }
        requires high { limit ≤ 16 }
        ensures { IsLeastPlace (HoldsOfPoint C.claims self.now) limit result }
    {
        for place in 2..limit {
            if !self.holds_for_only(nth(place), word, others) {
                return place;
            }
        }
        limit
    }

    /// Whether a condition holds here, where a word is the only one that is possible.
    fn holds_for_only<M: Allocator>(
        &self,
        condition: Condition,
        word: Word,
        others: &mut ComparisonWorkspace<M>,
    ) -> bool
        requires point { IsPoint C.claims self.now }
        requires only { possible_at C.claims self.now ≡ one word }
        ensures { IsTrue result ↔ HoldsOfPoint C.claims self.now condition }
    {
        let _index = word.index();
        self.holds_for(condition, word, others)
    }

    /// Checks the conditions on whichever words are possible here; the room for them is made here alone.
    #[inline(never)]
    fn check_words<M: Allocator>(&self, limit: usize, others: &mut ComparisonWorkspace<M>) -> usize
        requires point { IsPoint C.claims self.now }
        requires low { 2 ≤ limit }
        requires high { limit ≤ 16 }
        ensures { IsLeastPlace (HoldsOfPoint C.claims self.now) limit result }
    {
        let possible = self.possible_words();
        for place in 2..limit {
            if !self.holds(nth(place), &possible, others) {
                return place;
            }
        }
        limit
    }

    /// The words that are possible here.
    pub fn possible_words(&self) -> WordSet
        requires { IsPoint C.claims self.now }
        ensures { words result ≡ possible_at C.claims self.now }
    {
        let mut possible = WordSet::all();
        self.place.put_possible(self.fact, self.at, &mut possible);
        possible
    }

    /// Whether a condition holds here.
    fn holds<M: Allocator>(
        &self,
        condition: Condition,
        possible: &WordSet,
        others: &mut ComparisonWorkspace<M>,
    ) -> bool
        requires point { IsPoint C.claims self.now }
        requires possible { words possible.now ≡ possible_at C.claims self.now }
        ensures { IsTrue result ↔ HoldsOfPoint C.claims self.now condition }
    {
        if !self.are_few(condition, possible) {
            return false;
        }
        self.holds_for_each(condition, possible, others)
    }

    /// Whether few enough words are possible here, where a condition asks for few.
    fn are_few(&self, condition: Condition, possible: &WordSet) -> bool
        requires { words possible.now ≡ possible_at C.claims self.now }
        ensures { IsTrue result ↔ (asks_few condition ≡ true → HasFewHere C.claims self.now) }
    {
        if !asks_few(condition) {
            return true;
        }
        possible.count() <= MOST_WORDS
    }

    /// Whether a condition holds of each word that is possible here.
    fn holds_for_each<M: Allocator>(
        &self,
        condition: Condition,
        possible: &WordSet,
        others: &mut ComparisonWorkspace<M>,
    ) -> bool
        requires point { IsPoint C.claims self.now }
        requires possible { words possible.now ≡ possible_at C.claims self.now }
        ensures { IsTrue result ↔ HoldsForAllWords C.claims self.now condition }
    {
        for word in possible.iter() {
            if !self.holds_for(condition, word, others) {
                return false;
            }
        }
        true
    }

    /// Whether a condition holds of a word here.
    pub fn holds_for<M: Allocator>(
        &self,
        condition: Condition,
        word: Word,
        others: &mut ComparisonWorkspace<M>,
    ) -> bool
        requires { IsPoint C.claims self.now }
        ensures { IsTrue result ↔ HoldsHere C.claims self.now condition word }
    {
        match condition {
            Condition::V1 | Condition::V2 => true,
            Condition::V3 => self.is_supported(word),
            Condition::V4 => self.outcomes_land(word, others),
            Condition::V5 => self.writes_are_declared(word),
            Condition::V6 => self.writes_are_listed(word),
            Condition::V7 => self.may_call(word, others),
            Condition::V8 => self.covers_callees(word, others),
            Condition::V9 => self.calls_from_sites(word, others),
            Condition::V10 => self.enters_callees(word, others),
            Condition::V11 => self.lands_after_calls(word, others),
            Condition::V12 => self.returns_well(word, others),
            Condition::V13 => self.halts_are_declared(word),
            Condition::V14 => self.entries_are_kept(word),
            Condition::V15 => self.reads_are_listed(word),
            Condition::V16 => self.holds_as_declared(),
        }
    }

    /// Whether a word has a meaning on the machine that is declared.
    fn is_supported(&self, word: Word) -> bool
        requires { IsPoint C.claims self.now }
        ensures { IsTrue result ↔ HoldsHere C.claims self.now V3 word }
    {
        self.place.is_supported(word)
    }

    /// Whether each cell that a word may write is a variable or an entry.
    fn writes_are_declared(&self, word: Word) -> bool
        requires { IsPoint C.claims self.now }
        ensures { IsTrue result ↔ HoldsHere C.claims self.now V5 word }
    {
        self.place.writes_are_declared(self.fact, self.at, word)
    }

    /// Whether a word writes no entry, except where ISZ counts the routine's own or DCA moves it.
    fn entries_are_kept(&self, word: Word) -> bool
        requires { IsPoint C.claims self.now }
        ensures { IsTrue result ↔ HoldsHere C.claims self.now V14 word }
    {
        self.place.entries_are_kept(self.fact, self.at, word)
    }

    /// Whether each cell that a word may write is one that the routine may write.
    fn writes_are_listed(&self, word: Word) -> bool
        requires { IsPoint C.claims self.now }
        ensures { IsTrue result ↔ HoldsHere C.claims self.now V6 word }
    {
        self.place
            .writes_are_listed(self.fact, self.at, word, &self.body.claim.writes)
    }

    /// Whether a word stands at a declared halt if it is a HLT.
    fn halts_are_declared(&self, word: Word) -> bool
        requires { IsPoint C.claims self.now }
        ensures { IsTrue result ↔ HoldsHere C.claims self.now V13 word }
    {
        self.place.halts_are_declared(self.at, word)
    }

    /// Whether what is declared to hold here holds, whatever the word.
    fn holds_as_declared(&self) -> bool
        requires { IsPoint C.claims self.now }
        ensures { (word : ℕ) → IsTrue result ↔ HoldsHere C.claims self.now V16 word }
    {
        self.place.holds_as_declared(self.fact, self.at)
    }

    /// Whether each cell that a word may read is on the list of reads, if there is one.
    fn reads_are_listed(&self, word: Word) -> bool
        requires { IsPoint C.claims self.now }
        ensures { IsTrue result ↔ HoldsHere C.claims self.now V15 word }
    {
        self.place.reads_are_listed(self.fact, self.at, word)
    }
}
