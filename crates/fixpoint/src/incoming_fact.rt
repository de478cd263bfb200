//! What is known where a run comes to an address.

use domain::{
    BriefSet, Location, Relation, ReturnOffsets, Rules, Sum, Term, is_same_location, negated,
    product,
};
use facts::KnownFact;
use word12::Word;
use wordset::{Links, WordSet};

/// A fact that holds where a run comes to an address, by the rules by which it was taken there, and how far the return word of
/// the routine that runs there may have been incremented. By the rules of sums the fact is narrowed already.
#[derive(Drop)]
pub(crate) struct IncomingFact<'a, F: KnownFact> {
    pub(crate) rules: Rules,
    pub(crate) fact: &'a F,
    pub(crate) offsets: ReturnOffsets,
}

/// The words of a set, kept as a row where they are one.
pub(crate) fn brief(set: &WordSet) -> BriefSet {
    if let Some(first) = set.least() {
        if let Some(last) = set.greatest() {
            if WordSet::range(first, last) == *set {
                let mut row = BriefSet::none();
                row.set_row(first, last);
                return row;
            }
        }
    }
    BriefSet::of(*set)
}

/// Whether a word is in a set.
pub(crate) fn has_word(set: &BriefSet, word: Word) -> bool {
    match set.only() {
        Some(one) => one == word,
        None => set.has_all(&WordSet::one(word)),
    }
}

/// The negative of the word of a set, if it has one and no other.
fn less_than(set: &BriefSet) -> Option<Word> {
    match set.only() {
        None => None,
        Some(more) => Some(negated(more)),
    }
}

/// Whether a relation is one of some others, or follows from one of them.
fn is_listed(relations: &[Relation], relation: &Relation) -> bool {
    for other in relations {
        if other.sum.is_same(&relation.sum) && other.set.is_subset(&relation.set) {
            return true;
        }
    }
    false
}

impl<F: KnownFact> IncomingFact<'_, F> {
    /// The words that the accumulator may hold.
    pub(crate) fn accumulator(&self) -> &WordSet {
        self.fact.accumulator()
    }

    /// The words that MQ may hold.
    pub(crate) fn mq(&self) -> &WordSet {
        self.fact.mq()
    }

    /// What the link may be.
    pub(crate) fn link(&self) -> Links {
        self.fact.link()
    }

    /// The relations.
    pub(crate) fn relations(&self) -> &[Relation] {
        self.fact.relations()
    }

    /// The words that a name may hold.
    pub(crate) fn set(&self, name: &Location) -> WordSet {
        let mut set = WordSet::all();
        self.fact.put_set_of(name, &mut set);
        set
    }

    /// The words that are left to a name by one step along the relations.
    pub(crate) fn narrowed(&self, name: &Location) -> WordSet {
        let mut set = self.set(name);
        if let Rules::OfEquations = self.rules {
            for relation in self.relations() {
                self.keep_met(name, relation, &mut set);
            }
        }
        set
    }

    /// Leaves in a set of a name the words that an equation leaves to it.
    fn keep_met(&self, name: &Location, relation: &Relation, set: &mut WordSet) {
        let [left, right] = relation.sum.summands() else {
            return;
        };
        let (x, y) = (left.term.name(), right.term.name());
        if is_same_location(&x, name) {
            let more = relation.set.only();
            self.keep_more(&y, &more, set);
        }
        if is_same_location(&y, name) {
            let less = less_than(&relation.set);
            self.keep_more(&x, &less, set);
        }
    }

    /// Keeps those words of a set that are some number more than a word of another name; none if there is no number.
    fn keep_more(&self, name: &Location, more: &Option<Word>, set: &mut WordSet) {
        match more {
            None => *set = WordSet::empty(),
            Some(more) => set.keep_shifted(&self.set(name), *more),
        }
    }

    /// Whether no word outside a set is left to a cell; a set that is not narrowed is tried first.
    pub(crate) fn is_within(&self, cell: Word, set: &BriefSet) -> bool {
        if self.fact.has_plainly_within(cell, set) {
            return true;
        }
        let name = Location::Cell(cell);
        set.has_all(&self.set(&name)) || set.has_all(&self.narrowed(&name))
    }

    /// Whether no word outside a set is left to the accumulator.
    pub(crate) fn has_accumulator_within(&self, set: &WordSet) -> bool {
        self.accumulator().is_subset(set) || self.narrowed(&Location::Accumulator).is_subset(set)
    }

    /// The word of a sum, where one word is left to each of the names whose words it adds.
    fn value_of(&self, sum: &Sum) -> Option<Word> {
        let mut value = Word::ZERO;
        for summand in sum.summands() {
            let Term::Holding(name) = summand.term else {
                return None;
            };
            let Some(word) = self.narrowed(&name).only() else {
                return None;
            };
            value = value.add(product(summand.coefficient, word));
        }
        Some(value)
    }

    /// Whether a relation is known: it follows from one that is, or one word is left to each of its names, and these fulfil it.
    pub(crate) fn knows(&self, relation: &Relation) -> bool {
        if is_listed(self.relations(), relation) {
            return true;
        }
        match self.value_of(&relation.sum) {
            None => false,
            Some(value) => has_word(&relation.set, value),
        }
    }
}
