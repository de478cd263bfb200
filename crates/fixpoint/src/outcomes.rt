//! What may come of a word where a fact holds.

ghost use Rattle.std.specs.Prelude.{◌≡◌, ◌≤◌, length, map, true};
ghost use Rattle.domain.specs.CellsInCode.{cell_sets_of};
ghost use Rattle.domain.specs.ChainsInCode.{AreShort, chain_of};
ghost use Rattle.domain.specs.InCode.{sum_of};
ghost use Rattle.domain.specs.RelationsInCode.{relation_of, relations_of};
ghost use Rattle.transfer.specs.Shaped.{HaveFewTerms};

use domain::{Chain, Relation, Sum, SumFact};
use facts::Place;
use std::alloc::Allocator;
use transfer::Outcomes;
use word12::Word;
use wordset::WordSet;

/// Whether a sum has at most three terms.
fn is_short(sum: &Sum) -> bool
    ensures { result ≡ true → length (sum_of sum.now) ≤ 3 }
{
    sum.len() <= 3
}

/// Whether each relation's sum has at most three terms.
fn are_short(relations: &[Relation]) -> bool
    ensures { result ≡ true → HaveFewTerms (map relation_of relations.now) }
{
    for relation in relations {
        if !is_short(&relation.sum) {
            return false;
        }
    }
    true
}

/// Whether each chain has room for one step more.
#[tactic(auto, using(crate::proofs::RoomLemmas::steps_told))]
fn have_room(chains: &[Chain]) -> bool
    ensures { result ≡ true → AreShort (map chain_of chains.now) }
{
    for chain in chains {
        if chain.steps().len() >= 17 {
            return false;
        }
    }
    true
}

/// Puts what may come of a word into the lent room, if the fact has few enough chains and terms.
#[tactic(auto, using(crate::proofs::RoomLemmas::chains_told))]
pub(crate) fn put_outcomes<D: Allocator, const C: usize, const R: usize>(
    place: &Place<'_, D>,
    fact: &SumFact<C, R>,
    at: Word,
    word: Word,
    outcomes: &mut Outcomes,
) -> bool
    requires cells { length (cell_sets_of fact.now.cells) ≤ 132 }
    requires relations { length (relations_of fact.now.relations) ≤ 68 }
{
    if fact.chains().len() > 4 {
        return false;
    }
    if !are_short(fact.relations().as_slice()) || !have_room(fact.chains()) {
        return false;
    }
    place.put_outcomes(fact, at, word, outcomes);
    true
}

/// The addresses for which the running routine abandons all open calls by a word: where it is not main and the word is a JMP
/// they are the declared ones, and else there are none.
pub(crate) fn abandoned_by<D: Allocator>(place: &Place<'_, D>, word: Word) -> WordSet {
    if place.routine.is_none() || !place.is_jump(word) {
        return WordSet::empty();
    }
    *place.declaration.abandons()
}
