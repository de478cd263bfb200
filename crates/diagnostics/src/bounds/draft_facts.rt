//! What a draft of a certificate knows at an address, whichever of its facts there holds.

use bin_tape::Image;
use certificate::Certificate;
use domain::{Location, Sum, Term};
use facts::Fact;
use judge::Claims;
use std::alloc::Allocator;
use word12::Word;
use wordset::WordSet;

/// How much more the word of one name is than that of another, if a sum is the first less the second, and in code is that word.
pub(crate) fn is_difference_of(sum: &Sum, first: &Location, second: &Location) -> bool {
    sum.len() == 2
        && sum.get(0).coefficient.index() == 1
        && sum.get(1).coefficient.index() == 4095
        && sum.get(0).term.is_same(&Term::Holding(*first))
        && sum.get(1).term.is_same(&Term::Holding(*second))
}

/// Whether a fact tells how far the accumulator is from a cell.
fn ties_accumulator(fact: &Fact, cell: Word) -> bool {
    for relation in fact.relations().as_slice() {
        if is_difference_of(&relation.sum, &Location::Accumulator, &Location::Cell(cell)) {
            return true;
        }
    }
    false
}

/// A draft, and room for one of its facts.
#[derive(Drop)]
pub(crate) struct DraftFacts<'x, C: Allocator> {
    image: &'x Image,
    draft: &'x Certificate<C>,
    fact: Fact,
}

impl<'x, C: Allocator> DraftFacts<'x, C> {
    /// What a draft for a tape knows.
    pub(crate) fn of(image: &'x Image, draft: &'x Certificate<C>) -> DraftFacts<'x, C> {
        DraftFacts {
            image,
            draft,
            fact: Fact::any(),
        }
    }

    /// Whether there is a fact at an address.
    pub(crate) fn has_fact(&self, at: Word) -> bool {
        self.draft.count_facts(at, 0) != 0
    }

    /// The words that a name may hold at an address by one of the facts there.
    pub(crate) fn words_at(&mut self, at: Word, name: &Location) -> WordSet {
        let DraftFacts { image, draft, fact } = self;
        let mut all = WordSet::empty();
        let mut words = WordSet::empty();
        for index in 0..draft.count_facts(at, 0) {
            let _line = draft.put_fact(at, 0, index, fact);
            fact.put_narrowed(image, name, &mut words);
            all = all.union(&words);
        }
        all
    }

    /// Whether it is known at an address, by each of the facts there, how far the accumulator is from a cell.
    pub(crate) fn ties_accumulator(&mut self, at: Word, cell: Word) -> bool {
        let DraftFacts { draft, fact, .. } = self;
        for index in 0..draft.count_facts(at, 0) {
            let _line = draft.put_fact(at, 0, index, fact);
            if !ties_accumulator(fact, cell) {
                return false;
            }
        }
        true
    }
}
