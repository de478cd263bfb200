//! What one fact leaves possible and another excludes.

use domain::{BriefSet, Chain, Location, Rules, Sum};
use facts::{AllowedValues, Fact, KnownFact, Place};
use std::alloc::Allocator;
use word12::{Link, Word};
use wordset::{Links, WordSet};

/// What is possible and excluded.
#[derive(Clone, Copy, Debug)]
pub enum Counterexample {
    /// The accumulator may hold this word.
    Accumulator(Word),
    /// MQ may hold this word.
    Mq(Word),
    /// The link may be this.
    Link(Link),
    /// The running routine may have been called from this address.
    Site(Word),
    /// The return word may have been incremented by this offset.
    Offset(usize),
    /// The cell may hold this word.
    Cell(Word, Word),
    /// By the rules of sums: this sum may be this word.
    Sum(Sum, Word),
    /// By the rules of equations: it is not known that this sum is this word; it may be so all the same.
    Equation(Sum, Option<Word>),
    /// While this cell holds the first of these words, the accumulator may hold the second one, with this link.
    Chain(Word, Word, Word, Link),
}

/// The least link of one set that another lacks.
fn link_beyond(links: Links, others: Links) -> Option<Link> {
    if links.clear && !others.clear {
        return Some(Link::CLEAR);
    }
    if links.set && !others.set {
        return Some(Link::SET);
    }
    None
}

/// The least word of one set that another lacks, which is kept in a brief place.
fn brief_beyond(set: &WordSet, other: &BriefSet) -> Option<Word> {
    let mut others = WordSet::all();
    other.put(&mut others);
    set.minus(&others).first_from(0)
}

/// The least word that a name may hold and a set lacks.
fn known_beyond<A: Allocator, K: KnownFact>(
    place: &Place<'_, A>,
    fact: &K,
    name: &Location,
    allowed: &WordSet,
) -> Option<Word> {
    let mut known = WordSet::all();
    place.put_known(fact, name, &mut known);
    known.minus(allowed).first_from(0)
}

/// What the accumulator, MQ or the link may be that a fact excludes.
fn word_gap<A: Allocator, K: KnownFact>(
    place: &Place<'_, A>,
    fact: &K,
    other: &Fact,
) -> Option<Counterexample> {
    if let Some(word) = known_beyond(place, fact, &Location::Accumulator, other.accumulator()) {
        return Some(Counterexample::Accumulator(word));
    }
    if let Some(word) = fact.mq().minus(other.mq()).first_from(0) {
        return Some(Counterexample::Mq(word));
    }
    link_beyond(fact.link(), other.link()).map(Counterexample::Link)
}

/// A site or an offset that is possible and that a fact excludes.
fn call_gap<K: KnownFact>(fact: &K, other: &Fact) -> Option<Counterexample> {
    let mut sites = WordSet::all();
    fact.sites().put(&mut sites);
    if let Some(site) = brief_beyond(&sites, other.sites()) {
        return Some(Counterexample::Site(site));
    }
    for offset in 0..64usize {
        if fact.offsets().contains(offset) && !other.offsets().contains(offset) {
            return Some(Counterexample::Offset(offset));
        }
    }
    None
}

/// What a cell may hold that a fact excludes.
fn cell_gap<A: Allocator, K: KnownFact>(
    place: &Place<'_, A>,
    fact: &K,
    other: &Fact,
) -> Option<Counterexample> {
    for entry in other.told_cells() {
        let name = Location::Cell(entry.cell);
        let mut allowed = WordSet::all();
        other.put_set_of(&name, &mut allowed);
        if let Some(word) = known_beyond(place, fact, &name, &allowed) {
            return Some(Counterexample::Cell(entry.cell, word));
        }
    }
    None
}

/// A word that the sum of one of a fact's relations may be, by the rules of sums, and that the relation excludes.
fn sum_gap<A: Allocator, K: KnownFact>(
    place: &Place<'_, A>,
    fact: &K,
    other: &Fact,
) -> Option<Counterexample> {
    for relation in other.relations().as_slice() {
        let mut possible = WordSet::all();
        fact.put_said_of(place.image, &relation.sum, &mut possible);
        if let Some(word) = brief_beyond(&possible, &relation.set) {
            return Some(Counterexample::Sum(relation.sum, word));
        }
    }
    None
}

/// A relation of a fact that is not known by the rules of equations.
fn equation_gap<A: Allocator, K: KnownFact>(
    place: &Place<'_, A>,
    fact: &K,
    other: &Fact,
) -> Option<Counterexample> {
    for relation in other.relations().as_slice() {
        if !place.knows_equation(fact, relation) {
            return Some(Counterexample::Equation(relation.sum, relation.set.only()));
        }
    }
    None
}

/// The link with which a pair is allowed beside a word of a chain's cell that the chain does not give.
fn link_beside(allowed: &AllowedValues<'_>, chain: &Chain, word: Word, ac: Word) -> Option<Link> {
    if !allowed.permits(chain, word, ac, Link::CLEAR) {
        return Some(Link::CLEAR);
    }
    if !allowed.permits(chain, word, ac, Link::SET) {
        return Some(Link::SET);
    }
    None
}

/// A word of the accumulator and a link that are allowed beside a word of a chain's cell, and that the chain does not give.
fn pair_beside(allowed: &AllowedValues<'_>, chain: &Chain, word: Word) -> Option<(Word, Link)> {
    if allowed.permits_word(chain, word) {
        return None;
    }
    for ac in allowed.accumulators.iter() {
        if let Some(link) = link_beside(allowed, chain, word, ac) {
            return Some((ac, link));
        }
    }
    None
}

/// What a fact leaves possible together and a chain excludes.
fn beside<A: Allocator, K: KnownFact>(
    place: &Place<'_, A>,
    fact: &K,
    chain: &Chain,
) -> Option<Counterexample> {
    let mut cells = WordSet::all();
    place.put_known(fact, &Location::Cell(chain.cell()), &mut cells);
    let mut accumulators = WordSet::all();
    place.put_known(fact, &Location::Accumulator, &mut accumulators);
    let allowed = AllowedValues {
        accumulators: &accumulators,
        links: fact.link(),
        chains: fact.chains(),
    };
    for word in cells.iter() {
        if let Some((ac, link)) = pair_beside(&allowed, chain, word) {
            return Some(Counterexample::Chain(chain.cell(), word, ac, link));
        }
    }
    None
}

/// What is possible together and excluded by one of a fact's chains.
fn chain_gap<A: Allocator, K: KnownFact>(
    place: &Place<'_, A>,
    fact: &K,
    other: &Fact,
) -> Option<Counterexample> {
    for chain in other.chains() {
        if let Some(found) = beside(place, fact, chain) {
            return Some(found);
        }
    }
    None
}

/// What is possible by one fact, and excluded by another: of the registers first, then of sites and offsets, the cells, the
/// relations and the chains.
pub(crate) fn gap_between<A: Allocator, K: KnownFact>(
    place: &Place<'_, A>,
    fact: &K,
    other: &Fact,
) -> Option<Counterexample> {
    word_gap(place, fact, other)
        .or_else(|| call_gap(fact, other))
        .or_else(|| cell_gap(place, fact, other))
        .or_else(|| match &place.rules {
            Rules::OfSums => sum_gap(place, fact, other),
            Rules::OfEquations => equation_gap(place, fact, other),
        })
        .or_else(|| chain_gap(place, fact, other))
}
