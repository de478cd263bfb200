//! Sets of words that are quick to write where their words are in a row.

ghost use Rattle.std.specs.Prelude.{◌≡◌, ◌↔◌, IsTrue, not};
ghost use Rattle.wordset.specs.Words.{IsWithin, SameWords, all_words, between, meet, nothing, one, has_some, only};
ghost use Rattle.wordset.specs.Lanes.{words};

use crate::rows::{is_range_within, put_row};
use word12::Word;
use wordset::WordSet;

/// How a set is kept: as the words from one up to another, or whole.
#[derive(Clone, Copy)]
enum Representation {
    Row(Word, Word),
    Whole,
}

/// A set of words in a place of 512 bytes, of which six are written where its words are in a row, so that one word costs
/// little.
///
/// Contracts see it as the words that `brief_words` gives.
#[derive(Clone, Copy)]
pub struct BriefSet {
    kept: Representation,
    whole: WordSet,
}

/// The one word of a row, if it has one and no other.
fn only_in_row(first: Word, last: Word) -> Option<Word>
    ensures { result ≡ only (between first last) }
{
    if first.index() > last.index() {
        return None;
    }
    if first.index() < last.index() {
        return None;
    }
    Some(first)
}

/// Whether a row has no word.
fn is_row_empty(first: Word, last: Word) -> bool
    ensures { result ≡ not (has_some (between first last)) }
{
    last.index() < first.index()
}

/// Whether the words of a row are all within another.
fn is_row_within(first: Word, last: Word, low: Word, high: Word) -> bool
    ensures { IsTrue result ↔ IsWithin (between first last) (between low high) }
{
    if last.index() < first.index() {
        return true;
    }
    low.index() <= first.index() && last.index() <= high.index()
}

/// Whether all words of a set are within a row.
fn is_within_row(set: &WordSet, low: Word, high: Word) -> bool
    ensures { IsTrue result ↔ IsWithin (words set.now) (between low high) }
{
    let mut row = WordSet::empty();
    put_row(&mut row, low, high);
    set.is_subset(&row)
}

/// Keeps one word of a set, if the set has it.
fn keep_one(set: &mut WordSet, word: Word)
    ensures { words set.new ≡ meet (words set.old) (one word) }
{
    let has = set.contains(word);
    *set = WordSet::empty();
    if has {
        set.insert(word);
    }
}

/// Keeps those words of a set that a row has: quick for one word.
fn keep_row(set: &mut WordSet, first: Word, last: Word)
    ensures { words set.new ≡ meet (words set.old) (between first last) }
{
    if first == last {
        keep_one(set, first);
        return;
    }
    let mut row = WordSet::empty();
    put_row(&mut row, first, last);
    *set = set.meet(&row);
}

impl BriefSet {
    ghost use Rattle.domain.specs.Brief.{brief_words};

    /// The set with no word.
    #[tactic(auto, using(crate::proofs::BriefLemmas::empty_row))]
    pub fn none() -> BriefSet
        ensures { brief_words result ≡ nothing }
    {
        BriefSet {
            kept: Representation::Row(Word::from_index(1), Word::ZERO),
            whole: WordSet::empty(),
        }
    }

    /// The set of the word 0 alone. All its bits are 0, so that room for many sets is made at once, where it stays.
    #[tactic(auto, using(crate::proofs::BriefLemmas::one_row))]
    pub fn zero() -> BriefSet
        ensures { brief_words result ≡ one 0 }
    {
        BriefSet {
            kept: Representation::Row(Word::ZERO, Word::ZERO),
            whole: WordSet::empty(),
        }
    }

    /// The set of all words.
    #[tactic(auto, using(crate::proofs::CellLemmas::full_row))]
    pub fn all() -> BriefSet
        ensures { brief_words result ≡ all_words }
    {
        BriefSet {
            kept: Representation::Row(Word::ZERO, Word::from_index(0o7777)),
            whole: WordSet::empty(),
        }
    }

    /// The words of a set.
    pub fn of(set: WordSet) -> BriefSet
        ensures { brief_words result ≡ words set }
    {
        BriefSet {
            kept: Representation::Whole,
            whole: set,
        }
    }

    /// Puts its words into a place for them.
    pub fn put(&self, place: &mut WordSet)
        ensures { words place.new ≡ brief_words self.now }
    {
        match &self.kept {
            Representation::Row(first, last) => put_row(place, *first, *last),
            Representation::Whole => *place = self.whole,
        }
    }

    /// Keeps those words of a set that this one has.
    pub fn keep(&self, set: &mut WordSet)
        ensures { words set.new ≡ meet (words set.old) (brief_words self.now) }
    {
        match &self.kept {
            Representation::Row(first, last) => keep_row(set, *first, *last),
            Representation::Whole => *set = set.meet(&self.whole),
        }
    }

    /// The word of the set, where it has one and no other.
    pub fn only(&self) -> Option<Word>
        ensures { result ≡ only (brief_words self.now) }
    {
        match &self.kept {
            Representation::Row(first, last) => only_in_row(*first, *last),
            Representation::Whole => self.whole.only(),
        }
    }

    /// Whether there is no word.
    pub fn is_empty(&self) -> bool
        ensures { result ≡ not (has_some (brief_words self.now)) }
    {
        match &self.kept {
            Representation::Row(first, last) => is_row_empty(*first, *last),
            Representation::Whole => self.whole.is_empty(),
        }
    }

    /// Whether it has all words of a set.
    pub fn has_all(&self, set: &WordSet) -> bool
        ensures { IsTrue result ↔ IsWithin (words set.now) (brief_words self.now) }
    {
        match &self.kept {
            Representation::Row(first, last) => is_within_row(set, *first, *last),
            Representation::Whole => set.is_subset(&self.whole),
        }
    }

    /// Whether it has all words of a row.
    fn has_row(&self, first: Word, last: Word) -> bool
        ensures { IsTrue result ↔ IsWithin (between first last) (brief_words self.now) }
    {
        match &self.kept {
            Representation::Row(low, high) => is_row_within(first, last, *low, *high),
            Representation::Whole => is_range_within(first, last, &self.whole),
        }
    }

    /// Whether each word is in the other set.
    pub fn is_subset(&self, other: &BriefSet) -> bool
        ensures { IsTrue result ↔ IsWithin (brief_words self.now) (brief_words other.now) }
    {
        match &self.kept {
            Representation::Row(first, last) => other.has_row(*first, *last),
            Representation::Whole => other.has_all(&self.whole),
        }
    }

    /// Whether it is kept as a row, and another as the same one.
    fn is_same_row(&self, other: &BriefSet) -> bool
        ensures { IsTrue result → brief_words self.now ≡ brief_words other.now }
    {
        match &self.kept {
            Representation::Whole => false,
            Representation::Row(first, last) => match &other.kept {
                Representation::Whole => false,
                Representation::Row(low, high) => *first == *low && *last == *high,
            },
        }
    }

    /// Whether it has the words of another and no others; of two rows that are the same this is seen at once.
    pub fn is_same(&self, other: &BriefSet) -> bool
        ensures { IsTrue result ↔ SameWords (brief_words self.now) (brief_words other.now) }
    {
        if self.is_same_row(other) {
            return true;
        }
        if !self.is_subset(other) {
            return false;
        }
        other.is_subset(self)
    }

    /// Lets it have the words from one up to another, both of them; none if the second is the lesser.
    pub fn set_row(&mut self, first: Word, last: Word)
        ensures { brief_words self.new ≡ between first last }
    {
        self.kept = Representation::Row(first, last);
    }

    /// Lets it have one word alone.
    #[tactic(auto, using(crate::proofs::BriefLemmas::one_row))]
    pub fn set_one(&mut self, word: Word)
        ensures { brief_words self.new ≡ one word }
    {
        self.kept = Representation::Row(word, word);
    }

    /// Lets it have the words of a set.
    pub fn set(&mut self, set: &WordSet)
        ensures { brief_words self.new ≡ words set.now }
    {
        self.kept = Representation::Whole;
        self.whole = *set;
    }

    /// Lets it have the words of another.
    pub fn copy_from(&mut self, other: &BriefSet)
        ensures { brief_words self.new ≡ brief_words other.now }
    {
        match &other.kept {
            Representation::Row(first, last) => self.set_row(*first, *last),
            Representation::Whole => self.set(&other.whole),
        }
    }

    /// Keeps those of its words that a set has.
    #[tactic(auto, using(crate::proofs::BriefLemmas::meet_swap))]
    pub fn meet(&mut self, set: &WordSet)
        ensures { brief_words self.new ≡ meet (brief_words self.old) (words set.now) }
    {
        let mut both = *set;
        self.keep(&mut both);
        self.set(&both);
    }
}
