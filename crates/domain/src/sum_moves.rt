//! What may happen to a fact: a cell's word is incremented, names take new words, a call returns.

ghost use Rattle.std.specs.Prelude.{◌≡◌, ◌<◌, ◌≤◌, ◌+◌, ◌*◌, ◌++◌, [], length, map};
ghost use Rattle.wordset.specs.Words.{one};
ghost use Rattle.wordset.specs.Lanes.{words};
ghost use Rattle.domain.specs.Locations.{Cell};
ghost use Rattle.domain.specs.Adding.{with_set};
ghost use Rattle.domain.specs.Facts.{OfEquations, OfSums};
ghost use Rattle.domain.specs.Chains.{all_longer, after_count};
ghost use Rattle.domain.specs.Moves.{moved_relations, chains_free_of, without_relations, joined};
ghost use Rattle.domain.specs.CellsInCode.{cell_sets_of};
ghost use Rattle.domain.specs.RelationsInCode.{relations_of};
ghost use Rattle.domain.specs.ChainsInCode.{step_of, chain_of, AreShort};
ghost use Rattle.domain.specs.Naming.{names_of};
ghost use Rattle.domain.specs.FactInCode.{fact_in_code, names_words, rules_of};

use crate::chains::{Chain, Step};
use crate::location::Location;
use crate::names::Names;
use crate::narrowing::copy_chains;
use crate::sum_fact::{Rules, SumFact};
use arrayvec::ArrayVec;
use word12::Word;
use wordset::WordSet;

/// Lists those chains that are on none of some names: none at all, if the accumulator is one of them.
fn keep_chains_free_of(chains: &[Chain], names: &Names<'_>, list: &mut ArrayVec<Chain, 72>)
    requires { length chains.now ≤ 72 }
    ensures { map chain_of list.new.items ≡ chains_free_of (names_of names.now) (map chain_of chains.now) }
{
    list.clear();
    if names.contains(&Location::Accumulator) {
        return;
    }
    for chain in chains {
        if !names.contains(&Location::Cell(chain.cell())) {
            list.push(*chain);
        }
    }
}

/// Lists chains, each with one step more.
fn lengthen(chains: &[Chain], step: &Step, list: &mut ArrayVec<Chain, 72>)
    requires few { length chains.now ≤ 72 }
    requires short { AreShort (map chain_of chains.now) }
    ensures { map chain_of list.new.items ≡ all_longer (step_of step.now) (map chain_of chains.now) }
{
    list.clear();
    for chain in chains {
        let mut longer = *chain;
        longer.push(*step);
        list.push(longer);
    }
}

/// Lists chains after a number was added to the word of a cell.
fn count_chains(chains: &[Chain], cell: Word, by: Word, list: &mut ArrayVec<Chain, 72>)
    requires { length chains.now ≤ 72 }
    ensures { map chain_of list.new.items ≡ map (after_count cell by) (map chain_of chains.now) }
{
    list.clear();
    for chain in chains {
        let mut counted = *chain;
        counted.count_up(cell, by);
        list.push(counted);
    }
}

impl<const C: usize, const R: usize> SumFact<C, R> {
    /// Takes over what another fact says of the accumulator, MQ, the link, sites and offsets, and tells of no cell, relation or
    /// chain.
    fn take_over_rest<const D: usize, const S: usize>(&mut self, other: &SumFact<D, S>)
        ensures fact { fact_in_code self.new ≡ record (fact_in_code other.now) {
          set = names_words (words other.now.ac) [];
          relations = [];
          chains = [];
        } }
        ensures cells { cell_sets_of self.new.cells ≡ [] }
    {
        self.ac = other.ac;
        self.mq = other.mq;
        self.link = other.link;
        self.cells.clear();
        self.relations.clear();
        self.chains.clear();
        self.sites.copy_from(&other.sites);
        self.offsets = other.offsets;
    }

    /// Takes over all of another fact but its relations and chains, of which it has none then.
    pub fn take_over<const D: usize, const S: usize>(&mut self, other: &SumFact<D, S>)
        requires { length (cell_sets_of other.now.cells) ≤ C }
        ensures fact { fact_in_code self.new ≡ record (fact_in_code other.now) { relations = []; chains = [] } }
        ensures cells { cell_sets_of self.new.cells ≡ cell_sets_of other.now.cells }
    {
        self.take_over_rest(other);
        self.cells.push_all(other.cells.as_slice());
    }

    /// Lets this fact be another without what it says of some names beside their sets.
    pub fn take_without<const D: usize, const S: usize>(
        &mut self,
        other: &SumFact<D, S>,
        names: &Names<'_>,
    )
        requires cells { length (cell_sets_of other.now.cells) ≤ C }
        requires relations { length (relations_of other.now.relations) ≤ R }
        ensures fact { fact_in_code self.new ≡ without_relations (names_of names.now) (fact_in_code other.now) }
        ensures cells { cell_sets_of self.new.cells ≡ cell_sets_of other.now.cells }
        ensures fewer { length (relations_of self.new.relations) ≤ length (relations_of other.now.relations) }
    {
        self.take_over(other);
        self.relations
            .push_free_of(other.relations.as_slice(), names);
        keep_chains_free_of(other.chains.as_slice(), names, &mut self.chains);
    }

    /// Lets this fact be another after a cell's word was incremented by 1, where the cell has these words
    /// then.
    pub fn take_counted<const D: usize, const S: usize>(
        &mut self,
        other: &SumFact<D, S>,
        cell: Word,
        set: &WordSet,
    )
        requires cells { length (cell_sets_of other.now.cells) < C }
        requires relations { length (relations_of other.now.relations) ≤ R }
        ensures fact { fact_in_code self.new ≡ record (fact_in_code other.now) {
          set = with_set (Cell cell) (words set.now) (fact_in_code other.now).set;
          relations = moved_relations cell (one 1) (fact_in_code other.now).relations;
          chains = map (after_count cell 1) (fact_in_code other.now).chains;
        } }
        ensures cells { length (cell_sets_of self.new.cells) ≤ length (cell_sets_of other.now.cells) + 1 }
        ensures same { length (relations_of self.new.relations) ≡ length (relations_of other.now.relations) }
    {
        let one = Word::from_index(1);
        self.take_over(other);
        self.relations
            .push_all_moved_by(other.relations.as_slice(), cell, one);
        count_chains(other.chains.as_slice(), cell, one, &mut self.chains);
        self.cells.replace(cell, set);
    }

    /// Adds a step to each chain.
    pub fn lengthen_chains<const D: usize, const S: usize>(
        &mut self,
        other: &SumFact<D, S>,
        step: &Step,
    )
        requires { AreShort (fact_in_code other.now).chains }
        ensures { fact_in_code self.new ≡
            record (fact_in_code self.old) { chains = all_longer (step_of step.now) (fact_in_code other.now).chains } }
    {
        lengthen(other.chains.as_slice(), step, &mut self.chains);
    }

    /// Lets this fact be what holds after a call by the rules of sums.
    fn take_joined_sums<const D: usize, const S: usize, const E: usize, const T: usize>(
        &mut self,
        call: &SumFact<D, S>,
        exit: &SumFact<E, T>,
        written: &WordSet,
    )
        requires cells { length (cell_sets_of call.now.cells) + length (cell_sets_of exit.now.cells) ≤ C }
        requires relations { length (relations_of call.now.relations) + length (relations_of exit.now.relations) ≤ R }
        ensures { fact_in_code self.new ≡
            joined OfSums (fact_in_code call.now) (fact_in_code exit.now) (words written.now) }
    {
        self.take_over_rest(exit);
        self.cells.push_outside(call.cells.as_slice(), written);
        self.cells.push_all(exit.cells.as_slice());
        self.relations.push_all(exit.relations.as_slice());
        self.relations
            .add_outside(call.relations.as_slice(), written);
        copy_chains(exit.chains.as_slice(), &mut self.chains);
        self.sites.copy_from(&call.sites);
        self.offsets = call.offsets;
    }

    /// Lets this fact be what holds after a call by the rules of equations.
    fn take_joined_equations<const D: usize, const S: usize, const E: usize, const T: usize>(
        &mut self,
        call: &SumFact<D, S>,
        exit: &SumFact<E, T>,
        written: &WordSet,
    )
        requires cells { length (cell_sets_of call.now.cells) + length (cell_sets_of exit.now.cells) ≤ C }
        requires relations { length (relations_of call.now.relations) + length (relations_of exit.now.relations) ≤ R }
        ensures { fact_in_code self.new ≡
            joined OfEquations (fact_in_code call.now) (fact_in_code exit.now) (words written.now) }
    {
        self.take_over_rest(exit);
        self.cells.push_outside(call.cells.as_slice(), written);
        self.cells.push_within(exit.cells.as_slice(), written);
        self.relations
            .push_free_of(call.relations.as_slice(), &Names::Changing(written));
        self.relations.push_all(exit.relations.as_slice());
        copy_chains(exit.chains.as_slice(), &mut self.chains);
        self.sites.copy_from(&call.sites);
        self.offsets = call.offsets;
    }

    /// Lets this fact be what holds after a call: the exit's, with the sites and offsets of the fact at the JMS, its sets of the
    /// cells that were not written, and its relations between them.
    pub fn take_joined<const D: usize, const S: usize, const E: usize, const T: usize>(
        &mut self,
        rules: &Rules,
        call: &SumFact<D, S>,
        exit: &SumFact<E, T>,
        written: &WordSet,
    )
        requires cells { length (cell_sets_of call.now.cells) + length (cell_sets_of exit.now.cells) ≤ C }
        requires relations { length (relations_of call.now.relations) + length (relations_of exit.now.relations) ≤ R }
        ensures { fact_in_code self.new ≡
            joined (rules_of rules.now) (fact_in_code call.now) (fact_in_code exit.now) (words written.now) }
    {
        match rules {
            Rules::OfSums => self.take_joined_sums(call, exit, written),
            Rules::OfEquations => self.take_joined_equations(call, exit, written),
        }
    }
}
