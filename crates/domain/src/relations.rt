//! Relations: what is said of sums.

ghost use Rattle.std.specs.Prelude.{◌≡◌, ◌<◌, ◌≤◌, ◌+◌, ◌++◌, ◌∷◌, ◌↔◌, [], IsTrue, MatchOption, length, map, slice_set, Some};
ghost use Rattle.std.specs.List.{list_any};
ghost use Rattle.wordset.specs.Words.{Words, meet, one, sums};
ghost use Rattle.wordset.specs.Lanes.{words};
ghost use Rattle.domain.specs.Locations.{Cell};
ghost use Rattle.domain.specs.Terms.{coefficient_in};
ghost use Rattle.domain.specs.Terms as said;
ghost use Rattle.domain.specs.Brief.{brief_words};
ghost use Rattle.domain.specs.Adding.{times, with_relation, with_shape_in, adding, adding_all, set_among, lacks_all};
ghost use Rattle.domain.specs.Facts as facts;
ghost use Rattle.domain.specs.Facts.{OfSums};
ghost use Rattle.domain.specs.Moves.{free_of, outside, counted_term, counted_sum, is_behind, has_behind, moved_relation, moved_relations};

use crate::brief::BriefSet;
use crate::location::{Location, negated};
use crate::names::Names;
use crate::sets::times;
use crate::shapes::{SpelledSum, spelled};
use crate::terms::{Sum, Summand, Term, product};
use word12::Word;
use wordset::WordSet;

/// A relation: a sum is a word of a set. An equation, whose set is one word, takes a few bytes to write.
///
/// Contracts see it as `relation_of` gives it.
#[derive(Clone, Copy)]
pub struct Relation {
    /// The sum.
    pub sum: Sum,
    /// The words that it may be.
    pub set: BriefSet,
}

/// At most so many relations, in the order in which they were told.
///
/// The count stands before the relations, so that nothing lies between it and them: room for them is then made where it stays.
///
/// Contracts see them as the list that `relations_of` gives.
#[derive(Drop)]
pub struct Relations<const CAP: usize> {
    count: usize,
    relations: [Relation; CAP],
    ghost few: { count ≤ CAP },
    ghost long: { length relations ≡ CAP },
}

/// The words of a set that a word was added to, c times: quick for one word.
fn add_times(c: Word, by: Word, set: &mut BriefSet)
    ensures { brief_words set.new ≡ sums (brief_words set.old) (times c (one by)) }
{
    // The proof needs the number to be a word.
    let _index = by.index();
    let more = product(c, by);
    match set.only() {
        Some(word) => set.set_one(word.add(more)),
        None => {
            let mut place = WordSet::empty();
            set.put(&mut place);
            set.set(&place.shift(more));
        }
    }
}

impl Relation {
    ghost use Rattle.domain.specs.InCode.{sum_of};
    ghost use Rattle.domain.specs.RelationsInCode.{relation_of};

    /// What stands where there is no relation. All its bits are 0, so that room for many is made at once, where it stays.
    fn zero() -> Relation {
        Relation {
            sum: Sum::zero(),
            set: BriefSet::zero(),
        }
    }

    /// Keeps those words of a set that all of some relations of a sum allow.
    fn keep_among(relations: &[Relation], sum: &Sum, place: &mut WordSet)
        ensures { words place.new ≡ meet (words place.old) (set_among (sum_of sum.now) (map relation_of relations.now)) }
    {
        for relation in relations {
            if relation.sum.is_same(sum) {
                relation.set.keep(place);
            }
        }
    }

    /// Whether some relation's set has no word.
    pub(crate) fn is_some_empty(relations: &[Relation]) -> bool
        ensures { result ≡ list_any (λ r. lacks_all r.set) (map relation_of relations.now) }
    {
        for relation in relations {
            if relation.set.is_empty() {
                return true;
            }
        }
        false
    }
}

impl Term {
    ghost use Rattle.domain.specs.InCode.{term_of};

    /// The term of a word after a number was added to a cell's word: what stands behind the cell is after it by so much less.
    pub fn counted(&self, cell: Word, by: Word) -> Term
        ensures { term_of result ≡ counted_term cell by (term_of self.now) }
    {
        match self {
            Term::Holding(name) => Term::Holding(*name),
            Term::Behind { cell: x, more } => {
                if *x == cell {
                    Term::Behind {
                        cell: *x,
                        more: more.add(negated(by)),
                    }
                } else {
                    Term::Behind {
                        cell: *x,
                        more: *more,
                    }
                }
            }
        }
    }

    /// Whether it stands behind a cell.
    pub fn is_behind(&self, cell: Word) -> bool
        ensures { result ≡ is_behind cell (term_of self.now) }
    {
        match self {
            Term::Holding(_) => false,
            Term::Behind { cell: x, .. } => *x == cell,
        }
    }
}

impl Sum {
    ghost use Rattle.domain.specs.InCode.{sum_of};

    /// The sum's terms after a number was added to a cell's word.
    pub fn counted(&self, cell: Word, by: Word) -> Sum
        ensures { sum_of result ≡ counted_sum cell by (sum_of self.now) }
    {
        let mut sum = Sum::zero();
        for at in 0..self.len() {
            let summand = self.get(at);
            sum.push(Summand {
                coefficient: summand.coefficient,
                term: summand.term.counted(cell, by),
            });
        }
        sum
    }

    /// Whether a term stands behind a cell.
    pub fn has_behind(&self, cell: Word) -> bool
        ensures { result ≡ has_behind cell (sum_of self.now) }
    {
        for at in 0..self.len() {
            if self.get(at).term.is_behind(cell) {
                return true;
            }
        }
        false
    }

    /// What the coefficient of a cell is.
    fn coefficient_of_cell(&self, cell: Word) -> Word
        ensures { result ≡ coefficient_in (said.Holding (Cell cell)) (sum_of self.now) }
    {
        self.coefficient_of(&Term::Holding(Location::Cell(cell)))
    }
}

impl<const CAP: usize> Relations<CAP> {
    ghost use Rattle.domain.specs.InCode.{sum_of};
    ghost use Rattle.domain.specs.Naming.{names_of};
    ghost use Rattle.domain.specs.RelationsInCode.{relation_of, relations_of, relation_at, IsFoundAt};

    /// No relation.
    pub fn new() -> Relations<CAP>
        ensures { relations_of result ≡ [] }
    {
        Relations {
            count: 0,
            relations: [Relation::zero(); CAP],
        }
    }

    /// How many there are.
    pub fn len(&self) -> usize
        ensures count { result ≡ length (relations_of self.now) }
        ensures few { result ≤ CAP }
    {
        self.count
    }

    /// Whether there is no room for one more.
    pub fn is_full(&self) -> bool
        ensures { IsTrue result ↔ (length (relations_of self.now) ≡ CAP) }
    {
        self.count == CAP
    }

    /// The relations, in order.
    pub fn as_slice(&self) -> &[Relation]
        ensures relations { map relation_of result.now ≡ relations_of self.now }
        ensures few { length result.now ≤ CAP }
    {
        &self.relations[..self.count]
    }

    /// Takes all away.
    pub fn clear(&mut self)
        ensures { relations_of self.new ≡ [] }
    {
        self.count = 0;
    }

    /// Adds that a sum is in a set.
    pub fn push(&mut self, sum: &Sum, set: &WordSet)
        requires { length (relations_of self.old) < CAP }
        ensures { relations_of self.new ≡
            relations_of self.old ++ record { sum = sum_of sum.now; set = words set.now } ∷ [] }
    {
        let place = &mut self.relations[self.count];
        place.sum = *sum;
        place.set.set(set);
        self.count += 1;
    }

    /// Adds that a sum is one word.
    pub fn push_one(&mut self, sum: &Sum, word: Word)
        requires { length (relations_of self.old) < CAP }
        ensures { relations_of self.new ≡
            relations_of self.old ++ record { sum = sum_of sum.now; set = one word } ∷ [] }
    {
        let place = &mut self.relations[self.count];
        place.sum = *sum;
        place.set.set_one(word);
        self.count += 1;
    }

    /// Adds a relation of which only what is needed is written.
    pub fn push_copy(&mut self, relation: &Relation)
        requires { length (relations_of self.old) < CAP }
        ensures { relations_of self.new ≡ relations_of self.old ++ relation_of relation.now ∷ [] }
    {
        let place = &mut self.relations[self.count];
        place.sum = relation.sum;
        place.set.copy_from(&relation.set);
        self.count += 1;
    }

    /// Adds some relations.
    pub fn push_all(&mut self, others: &[Relation])
        requires { length (relations_of self.old) + length others.now ≤ CAP }
        ensures { relations_of self.new ≡ relations_of self.old ++ map relation_of others.now }
    {
        for relation in others {
            self.push_copy(relation);
        }
    }

    /// The sum of the relation at a place.
    fn sum_at(&self, at: usize) -> &Sum
        requires { at < length (relations_of self.now) }
        ensures { sum_of result.now ≡ (relation_at (relations_of self.now) at).sum }
    {
        &self.relations[at].sum
    }

    /// Where the first relation of a sum stands, if there is one.
    fn position(&self, sum: &Sum) -> Option<usize>
        ensures { MatchOption result
            ((set : Words) → with_relation (sum_of sum.now) set (relations_of self.now) ≡
            relations_of self.now ++ record { sum = sum_of sum.now; set = set } ∷ [])
            (λ at. IsFoundAt (sum_of sum.now) (relations_of self.now) at) }
    {
        for at in 0..self.len() {
            if self.sum_at(at).is_same(sum) {
                return Some(at);
            }
        }
        None
    }

    /// Lets the relation at a place be of a sum, with those of its words that a set has.
    fn meet_at(&mut self, at: usize, sum: &Sum, set: &WordSet)
        requires { at < length (relations_of self.old) }
        ensures { relations_of self.new ≡ slice_set (relations_of self.old) at
            (record { sum = sum_of sum.now; set = meet (relation_at (relations_of self.old) at).set (words set.now) }) }
    {
        let mut left = self.relations[at].set;
        left.meet(set);
        self.relations[at] = Relation {
            sum: *sum,
            set: left,
        };
    }

    /// Adds that a sum is in a set: where a relation has the sum already, the two sets are met.
    pub fn add(&mut self, sum: &Sum, set: &WordSet)
        requires { length (relations_of self.old) < CAP }
        ensures relations { relations_of self.new ≡ with_relation (sum_of sum.now) (words set.now) (relations_of self.old) }
        ensures few { length (relations_of self.new) ≤ length (relations_of self.old) + 1 }
    {
        match self.position(sum) {
            Some(at) => self.meet_at(at, sum, set),
            None => self.push(sum, set),
        }
    }

    /// Puts the words that all relations of a sum allow into a place for them: all words, if there is none.
    pub fn put_set_among(&self, sum: &Sum, place: &mut WordSet)
        ensures { words place.new ≡ set_among (sum_of sum.now) (relations_of self.now) }
    {
        *place = WordSet::all();
        Relation::keep_among(self.as_slice(), sum, place);
    }

    /// Adds those of some relations that speak of none of some names.
    pub fn push_free_of(&mut self, others: &[Relation], names: &Names<'_>)
        requires { length (relations_of self.old) + length others.now ≤ CAP }
        ensures relations { relations_of self.new ≡
            relations_of self.old ++ free_of (names_of names.now) (map relation_of others.now) }
        ensures few { length (relations_of self.new) ≤ length (relations_of self.old) + length others.now }
    {
        for relation in others {
            if !relation.sum.speaks_of(names) {
                self.push_copy(relation);
            }
        }
    }

    /// Adds that a spelled sum is in a set, if it has two or more terms. What one name alone may be is no relation.
    fn add_spelled(&mut self, found: &SpelledSum, set: &WordSet)
        requires { length (relations_of self.old) < CAP }
        ensures relations { (f : facts.Fact) → relations_of self.old ≡ f.relations → relations_of self.new ≡
            (with_shape_in OfSums (sum_of found.now.sum) (times found.now.sign (words set.now)) f).relations }
        ensures few { length (relations_of self.new) ≤ length (relations_of self.old) + 1 }
    {
        let len = found.sum.len();
        if len < 2 {
            return;
        }
        self.add(&found.sum, &times(found.sign, set));
    }

    /// Adds that a sum is in a set, if it is spelled as a sum of two or more terms.
    pub fn add_longer(&mut self, sum: &Sum, set: &WordSet)
        requires { length (relations_of self.old) < CAP }
        ensures relations { (f : facts.Fact) → relations_of self.old ≡ f.relations → relations_of self.new ≡
            (adding OfSums (record { sum = sum_of sum.now; set = words set.now }) f).relations }
        ensures few { length (relations_of self.new) ≤ length (relations_of self.old) + 1 }
    {
        match spelled(sum) {
            None => {}
            Some(found) => self.add_spelled(&found, set),
        }
    }

    /// Adds what a relation says, if its sum is spelled as a sum of two or more terms.
    fn add_copy(&mut self, relation: &Relation)
        requires { length (relations_of self.old) < CAP }
        ensures relations { (f : facts.Fact) → relations_of self.old ≡ f.relations → relations_of self.new ≡
            (adding OfSums (relation_of relation.now) f).relations }
        ensures few { length (relations_of self.new) ≤ length (relations_of self.old) + 1 }
    {
        let mut set = WordSet::empty();
        relation.set.put(&mut set);
        self.add_longer(&relation.sum, &set);
    }

    /// Adds what a relation says, if it speaks of no name that a call may change.
    fn add_if_outside(&mut self, relation: &Relation, written: &WordSet)
        requires { length (relations_of self.old) < CAP }
        ensures relations { (f : facts.Fact) → relations_of self.old ≡ f.relations → relations_of self.new ≡
            (adding_all OfSums (outside (words written.now) (relation_of relation.now ∷ [])) f).relations }
        ensures few { length (relations_of self.new) ≤ length (relations_of self.old) + 1 }
    {
        if relation.sum.speaks_of(&Names::Changing(written)) {
            return;
        }
        self.add_copy(relation);
    }

    /// Adds what some relations say, except for those that speak of a name that a call may change.
    pub fn add_outside(&mut self, others: &[Relation], written: &WordSet)
        requires { length (relations_of self.old) + length others.now ≤ CAP }
        ensures { (f : facts.Fact) → relations_of self.old ≡ f.relations → relations_of self.new ≡
            (adding_all OfSums (outside (words written.now) (map relation_of others.now)) f).relations }
    {
        for relation in others {
            self.add_if_outside(relation, written);
        }
    }

    /// Adds what a relation says after a known word was added to the word of a cell.
    fn push_moved_by(&mut self, relation: &Relation, cell: Word, by: Word)
        requires { length (relations_of self.old) < CAP }
        ensures { relations_of self.new ≡
            relations_of self.old ++ moved_relation cell (one by) (Some by) (relation_of relation.now) }
    {
        let c = relation.sum.coefficient_of_cell(cell);
        let place = &mut self.relations[self.count];
        place.sum = relation.sum.counted(cell, by);
        place.set.copy_from(&relation.set);
        add_times(c, by, &mut place.set);
        self.count += 1;
    }

    /// Adds what some relations say after a known word was added to the word of a cell.
    pub fn push_all_moved_by(&mut self, others: &[Relation], cell: Word, by: Word)
        requires { length (relations_of self.old) + length others.now ≤ CAP }
        ensures { relations_of self.new ≡
            relations_of self.old ++ moved_relations cell (one by) (map relation_of others.now) }
    {
        // The proof needs the number to be a word.
        let _index = by.index();
        for relation in others {
            self.push_moved_by(relation, cell, by);
        }
    }
}
