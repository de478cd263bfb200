//! What is known after DCA, and which chains begin.

ghost use Rattle.std.specs.Prelude.{◌≡◌, ◌<◌, ◌≤◌, ◌+◌, ◌*◌, ◌++◌, ◌∷◌, [], length, map, flat_map, ℕ};
ghost use Rattle.wordset.specs.Words.{Words, only};
ghost use Rattle.wordset.specs.Lanes.{words};
ghost use Rattle.wordset.specs.Links.{links_of};
ghost use Rattle.domain.specs.Facts.{OfSums, OfEquations};
ghost use Rattle.domain.specs.Adding.{adding_all};
ghost use Rattle.domain.specs.Moves.{moved_relation};
ghost use Rattle.domain.specs.InCode.{sum_of};
ghost use Rattle.domain.specs.CellsInCode.{cell_sets_of};
ghost use Rattle.domain.specs.RelationsInCode.{relation_of, relations_of};
ghost use Rattle.domain.specs.Chains.{all_longer};
ghost use Rattle.domain.specs.ChainsInCode.{step_of, chain_of, AreShort};
ghost use Rattle.domain.specs.FactInCode.{fact_in_code, rules_of};
ghost use Rattle.transfer.specs.Stores.{with_cell_for_ac, after_store, stored, copied_for, copied, begun_by, has_chain_on, all_begun, with_begun};
ghost use Rattle.transfer.specs.Shaped.{HaveFewTerms, told, besides_store, begun_beside, begun_at};

use crate::additions::{has_accumulator, names};
use domain::{Chain, Location, Names, Relation, Rules, Step, Sum, SumFact, Term, times};
use word12::Word;
use wordset::{Links, WordSet};

/// A sum with a cell in the accumulator's place.
fn with_cell_for_accumulator(cell: Word, sum: &Sum) -> Sum
    requires { length (sum_of sum.now) < 4 }
    ensures { sum_of result ≡ with_cell_for_ac cell (sum_of sum.now) }
{
    let mut found = Sum::of_name(Location::Cell(cell));
    found.push_from(&sum.without_term(&Term::Holding(Location::Accumulator)), 0);
    found
}

/// Adds what a sum says after a word of a set was added to the word of a cell.
fn add_moved<const C: usize, const R: usize>(
    cell: Word,
    by: &WordSet,
    sum: &Sum,
    set: &WordSet,
    after: &mut SumFact<C, R>,
)
    requires cells { length (cell_sets_of after.old.cells) < C }
    requires room { length (relations_of after.old.relations) < R }
    ensures fact { fact_in_code after.new ≡ adding_all OfSums
        (moved_relation cell (words by.now) (only (words by.now)) (told (sum_of sum.now) (words set.now)))
        (fact_in_code after.old) }
    ensures cells { length (cell_sets_of after.new.cells) ≤ length (cell_sets_of after.old.cells) + 1 }
    ensures more { length (relations_of after.new.relations) ≤ length (relations_of after.old.relations) + 1 }
{
    let c = sum.coefficient_of(&Term::Holding(Location::Cell(cell)));
    let (found, _) = set.sums(&times(c, by));
    match by.only() {
        None => {
            if !sum.has_behind(cell) {
                after.add(&Rules::OfSums, sum, &found);
            }
        }
        Some(word) => after.add(&Rules::OfSums, &sum.counted(cell, word), &found),
    }
}

/// Adds what a sum without the accumulator says after the accumulator was stored in a cell; the accumulator less the cell was a
/// word of a set. One that speaks of the cell moves, unless nothing is known of that difference.
fn add_besides<const C: usize, const R: usize>(
    cell: Word,
    by: &WordSet,
    sum: &Sum,
    set: &WordSet,
    after: &mut SumFact<C, R>,
)
    requires cells { length (cell_sets_of after.old.cells) < C }
    requires room { length (relations_of after.old.relations) < R }
    ensures fact { fact_in_code after.new ≡ adding_all OfSums
        (besides_store cell (words by.now) (told (sum_of sum.now) (words set.now))) (fact_in_code after.old) }
    ensures cells { length (cell_sets_of after.new.cells) ≤ length (cell_sets_of after.old.cells) + 1 }
    ensures more { length (relations_of after.new.relations) ≤ length (relations_of after.old.relations) + 1 }
{
    if !names(&Location::Cell(cell), sum) {
        after.add(&Rules::OfSums, sum, set);
        return;
    }
    if by.is_all() {
        return;
    }
    add_moved(cell, by, sum, set, after);
}

/// Adds what a sum says after the accumulator was stored in a cell; the accumulator less the cell was a word of a set.
fn add_after_store<const C: usize, const R: usize>(
    cell: Word,
    by: &WordSet,
    sum: &Sum,
    set: &WordSet,
    after: &mut SumFact<C, R>,
)
    requires terms { length (sum_of sum.now) < 4 }
    requires cells { length (cell_sets_of after.old.cells) < C }
    requires room { length (relations_of after.old.relations) < R }
    ensures fact { fact_in_code after.new ≡ adding_all OfSums
        (after_store cell (words by.now) (told (sum_of sum.now) (words set.now))) (fact_in_code after.old) }
    ensures cells { length (cell_sets_of after.new.cells) ≤ length (cell_sets_of after.old.cells) + 1 }
    ensures more { length (relations_of after.new.relations) ≤ length (relations_of after.old.relations) + 1 }
{
    if has_accumulator(sum) {
        if !names(&Location::Cell(cell), sum) {
            after.add(&Rules::OfSums, &with_cell_for_accumulator(cell, sum), set);
        }
        return;
    }
    if names(&Location::Accumulator, sum) {
        return;
    }
    add_besides(cell, by, sum, set, after);
}

/// Adds what some relations say after the accumulator was stored in a cell.
fn add_each_after_store<const C: usize, const R: usize>(
    cell: Word,
    by: &WordSet,
    relations: &[Relation],
    after: &mut SumFact<C, R>,
)
    requires terms { HaveFewTerms (map relation_of relations.now) }
    requires cells { length (cell_sets_of after.old.cells) + length relations.now ≤ C }
    requires room { length (relations_of after.old.relations) + length relations.now ≤ R }
    ensures { fact_in_code after.new ≡ adding_all OfSums
        (flat_map (after_store cell (words by.now)) (map relation_of relations.now)) (fact_in_code after.old) }
{
    let mut set = WordSet::empty();
    for relation in relations {
        relation.set.put(&mut set);
        add_after_store(cell, by, &relation.sum, &set, after);
    }
}

/// Lets a fact be what another one is after DCA of one target, by the rules of sums.
///
/// Each relation takes room for one cell and one relation.
pub fn put_stored<const C: usize, const R: usize, const D: usize, const S: usize>(
    cell: Word,
    fact: &SumFact<D, S>,
    after: &mut SumFact<C, R>,
)
    requires terms { HaveFewTerms (fact_in_code fact.now).relations }
    requires cells { length (cell_sets_of fact.now.cells) + length (relations_of fact.now.relations) + 4 ≤ C }
    requires room { length (relations_of fact.now.relations) + 2 ≤ R }
    ensures { fact_in_code after.new ≡ stored cell (fact_in_code fact.now) }
{
    let target = Location::Cell(cell);
    let mut by = WordSet::all();
    fact.put_set_of_sum(&Sum::difference(Location::Accumulator, target), &mut by);
    let mut old = WordSet::all();
    fact.put_set_of(&target, &mut old);
    after.take_over(fact);
    after.set_name(&target, &WordSet::all());
    after.set_name(&Location::Accumulator, &WordSet::one(Word::ZERO));
    add_after_store(
        cell,
        &by,
        &Sum::of_name(Location::Accumulator),
        fact.accumulator(),
        after,
    );
    add_after_store(cell, &by, &Sum::of_name(target), &old, after);
    add_each_after_store(cell, &by, fact.relations().as_slice(), after);
}

/// Adds what a relation says of a cell that takes the accumulator's word, if it speaks of the accumulator and not of the cell.
fn add_copied_for<const C: usize, const R: usize>(
    cell: Word,
    relation: &Relation,
    set: &mut WordSet,
    after: &mut SumFact<C, R>,
)
    requires terms { length (relation_of relation.now).sum < 4 }
    requires cells { length (cell_sets_of after.old.cells) < C }
    requires room { length (relations_of after.old.relations) < R }
    ensures fact { fact_in_code after.new ≡ adding_all OfEquations
        (copied_for cell (relation_of relation.now)) (fact_in_code after.old) }
    ensures cells { length (cell_sets_of after.new.cells) ≤ length (cell_sets_of after.old.cells) + 1 }
    ensures more { length (relations_of after.new.relations) ≤ length (relations_of after.old.relations) + 1 }
{
    if !has_accumulator(&relation.sum) {
        return;
    }
    if names(&Location::Cell(cell), &relation.sum) {
        return;
    }
    relation.set.put(set);
    after.add(
        &Rules::OfEquations,
        &with_cell_for_accumulator(cell, &relation.sum),
        set,
    );
}

/// Adds what some relations say of a cell that takes the accumulator's word.
fn add_each_copied<const C: usize, const R: usize>(
    cell: Word,
    relations: &[Relation],
    after: &mut SumFact<C, R>,
)
    requires terms { HaveFewTerms (map relation_of relations.now) }
    requires cells { length (cell_sets_of after.old.cells) + length relations.now ≤ C }
    requires room { length (relations_of after.old.relations) + length relations.now ≤ R }
    ensures { fact_in_code after.new ≡ adding_all OfEquations
        (flat_map (copied_for cell) (map relation_of relations.now)) (fact_in_code after.old) }
{
    let mut set = WordSet::empty();
    for relation in relations {
        add_copied_for(cell, relation, &mut set, after);
    }
}

/// Lets a fact be what another one is after DCA of one target, by the rules of equations. `known` are the accumulator's words.
///
/// Each relation takes room for one cell and two relations.
pub fn put_copied<const C: usize, const R: usize, const D: usize, const S: usize>(
    cell: Word,
    known: &WordSet,
    fact: &SumFact<D, S>,
    after: &mut SumFact<C, R>,
)
    requires terms { HaveFewTerms (fact_in_code fact.now).relations }
    requires cells { length (cell_sets_of fact.now.cells) + length (relations_of fact.now.relations) + 2 ≤ C }
    requires room { 2 * length (relations_of fact.now.relations) ≤ R }
    ensures { fact_in_code after.new ≡ copied cell (words known.now) (fact_in_code fact.now) }
{
    // The proof needs the cell's address to be a word.
    let _index = cell.index();
    let cells = WordSet::one(cell);
    after.take_without(fact, &Names::Changing(&cells));
    after.set_name(&Location::Cell(cell), known);
    after.set_name(&Location::Accumulator, &WordSet::one(Word::ZERO));
    add_each_copied(cell, fact.relations().as_slice(), after);
}

/// The cell of a sum that is the accumulator less a cell.
fn cell_below(sum: &Sum) -> Option<Word>
    ensures { (links set : Words) → begun_by links (sum_of sum.now) set ≡ begun_at result links (only set) }
{
    if sum.len() != 2 {
        return None;
    }
    let first = sum.get(0);
    let second = sum.get(1);
    if first.coefficient.index() != 1 || second.coefficient.index() != 4095 {
        return None;
    }
    if !first.term.is_same(&Term::Holding(Location::Accumulator)) {
        return None;
    }
    match second.term {
        Term::Holding(name) => match name {
            Location::Accumulator => None,
            Location::Cell(cell) => Some(cell),
        },
        Term::Behind { .. } => None,
    }
}

/// Whether a chain is on a cell.
fn has_chain_on(cell: Word, chains: &[Chain]) -> bool
    ensures { result ≡ has_chain_on cell (map chain_of chains.now) }
{
    for chain in chains {
        if chain.cell() == cell {
            return true;
        }
    }
    false
}

/// Adds the chain that begins by a relation, with one step, unless one of some chains is on its cell.
fn push_begun<const C: usize, const R: usize>(
    step: &Step,
    relation: &Relation,
    links: Links,
    chains: &[Chain],
    after: &mut SumFact<C, R>,
)
    requires { length after.old.chains.items < 72 }
    ensures fact { fact_in_code after.new ≡ record (fact_in_code after.old) {
      chains = (fact_in_code after.old).chains ++ all_longer (step_of step.now) (begun_beside (map chain_of chains.now)
          (begun_by (links_of links) (relation_of relation.now).sum (relation_of relation.now).set));
    } }
    ensures more { length after.new.chains.items ≤ length after.old.chains.items + 1 }
{
    let Some(cell) = cell_below(&relation.sum) else {
        return;
    };
    let Some(more) = relation.set.only() else {
        return;
    };
    if has_chain_on(cell, chains) {
        return;
    }
    let mut chain = Chain::begun(cell, more, links);
    chain.push(*step);
    after.push_chain(&chain);
}

/// Adds the chains that begin by some relations, with one step, but those on the cells of some chains.
fn push_each_begun<const C: usize, const R: usize>(
    step: &Step,
    relations: &[Relation],
    links: Links,
    chains: &[Chain],
    after: &mut SumFact<C, R>,
)
    requires { length after.old.chains.items + length relations.now ≤ 72 }
    ensures { fact_in_code after.new ≡ record (fact_in_code after.old) {
      chains = (fact_in_code after.old).chains ++ all_longer (step_of step.now) (begun_beside (map chain_of chains.now)
          (all_begun (links_of links) (map relation_of relations.now)));
    } }
{
    for relation in relations {
        push_begun(step, relation, links, chains, after);
    }
}

/// Lets a fact have the chains of another one and those that begin by its relations, each with one step more. By the rules of
/// equations there are none.
///
/// Each relation takes room for one chain.
pub fn put_begun_longer<const C: usize, const R: usize, const D: usize, const S: usize>(
    rules: &Rules,
    step: &Step,
    fact: &SumFact<D, S>,
    after: &mut SumFact<C, R>,
)
    requires short { AreShort (fact_in_code fact.now).chains }
    requires room { length fact.now.chains.items + length (relations_of fact.now.relations) ≤ 72 }
    ensures fact { fact_in_code after.new ≡ record (fact_in_code after.old) {
      chains = all_longer (step_of step.now) (with_begun (rules_of rules.now) (fact_in_code fact.now));
    } }
{
    match rules {
        Rules::OfEquations => after.clear_chains(),
        Rules::OfSums => {
            after.lengthen_chains(fact, step);
            push_each_begun(
                step,
                fact.relations().as_slice(),
                fact.link(),
                fact.chains(),
                after,
            );
        }
    }
}
