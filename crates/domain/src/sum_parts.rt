//! Parts of a fact that are put into it one by one: chains, and relations as they stand.

ghost use Rattle.std.specs.Prelude.{◌≡◌, ◌<◌, ◌≤◌, ◌+◌, ◌++◌, ◌∷◌, [], length, map};
ghost use Rattle.wordset.specs.Words.{one, shifted, mirrored};
ghost use Rattle.wordset.specs.Lanes.{words};
ghost use Rattle.domain.specs.Adding.{is_equation, is_kept};
ghost use Rattle.domain.specs.Moves.{free_of, chains_on};
ghost use Rattle.domain.specs.InCode.{sum_of};
ghost use Rattle.domain.specs.Brief.{brief_words};
ghost use Rattle.domain.specs.RelationsInCode.{relations_of, relation_of};
ghost use Rattle.domain.specs.ChainsInCode.{chain_of};
ghost use Rattle.domain.specs.Naming.{names_of};
ghost use Rattle.domain.specs.FactInCode.{fact_in_code, rules_of};

use crate::brief::BriefSet;
use crate::chains::Chain;
use crate::names::Names;
use crate::relations::Relation;
use crate::sum_fact::{Rules, SumFact};
use crate::terms::{Sum, Term};
use arrayvec::ArrayVec;
use word12::Word;
use wordset::WordSet;

/// Whether a relation of a sum of one of the shapes is an equation: its sum is a name less another, and its set one word.
fn is_equation_in_brief(sum: &Sum, set: &BriefSet) -> bool
    ensures { result ≡ is_equation (sum_of sum.now) (brief_words set.now) }
{
    if sum.len() != 2 {
        return false;
    }
    let second = sum.get(1);
    if second.coefficient.index() != 4095 {
        return false;
    }
    match second.term {
        Term::Holding(_) => set.only().is_some(),
        Term::Behind { .. } => false,
    }
}

impl BriefSet {
    /// Adds a number to each of its words: quick for one word.
    pub fn shift(&mut self, by: Word)
        ensures { brief_words self.new ≡ shifted (brief_words self.old) by }
    {
        // The proof needs the number to be a word.
        let _index = by.index();
        match self.only() {
            Some(word) => self.set_one(word.add(by)),
            None => {
                let mut place = WordSet::empty();
                self.put(&mut place);
                self.set(&place.shift(by));
            }
        }
    }

    /// Lets each of its words be the complement: quick for one word.
    pub fn complement(&mut self)
        ensures { brief_words self.new ≡ mirrored (brief_words self.old) }
    {
        match self.only() {
            Some(word) => self.set_one(word.complement()),
            None => {
                let mut place = WordSet::empty();
                self.put(&mut place);
                self.set(&place.complements());
            }
        }
    }
}

impl Relation {
    /// Room for a relation: one of no terms, and of no word.
    pub fn none() -> Relation
        ensures { sum_of result.sum ≡ [] }
    {
        Relation {
            sum: Sum::zero(),
            set: BriefSet::none(),
        }
    }

    /// Says what another says.
    pub fn copy_from(&mut self, other: &Relation)
        ensures { relation_of self.new ≡ relation_of other.now }
    {
        self.sum = other.sum;
        self.set.copy_from(&other.set);
    }

    /// Whether the rules keep it.
    pub fn is_kept(&self, rules: &Rules) -> bool
        ensures { result ≡ is_kept (rules_of rules.now) (relation_of self.now).sum (relation_of self.now).set }
    {
        match rules {
            Rules::OfSums => true,
            Rules::OfEquations => is_equation_in_brief(&self.sum, &self.set),
        }
    }
}

/// Lists those chains that are on one of some cells.
fn list_chains_on(chains: &[Chain], cells: &WordSet, list: &mut ArrayVec<Chain, 72>)
    requires { length chains.now ≤ 72 }
    ensures list { map chain_of list.new.items ≡ chains_on (words cells.now) (map chain_of chains.now) }
    ensures fewer { length list.new.items ≤ length chains.now }
{
    list.clear();
    for chain in chains {
        if cells.contains(chain.cell()) {
            list.push(*chain);
        }
    }
}

impl<const C: usize, const R: usize> SumFact<C, R> {
    /// Takes all chains away.
    pub fn clear_chains(&mut self)
        ensures fact { fact_in_code self.new ≡ record (fact_in_code self.old) { chains = [] } }
        ensures cells { self.new.cells ≡ self.old.cells }
        ensures relations { self.new.relations ≡ self.old.relations }
        ensures few { length self.new.chains.items ≡ 0 }
    {
        self.chains.clear();
    }

    /// Takes away the chains that are on none of some cells.
    pub fn keep_chains_on(&mut self, cells: &WordSet)
        ensures fact { fact_in_code self.new ≡ record (fact_in_code self.old) {
          chains = chains_on (words cells.now) (fact_in_code self.old).chains;
        } }
        ensures cells { self.new.cells ≡ self.old.cells }
        ensures relations { self.new.relations ≡ self.old.relations }
        ensures fewer { length self.new.chains.items ≤ length self.old.chains.items }
    {
        let mut kept = ArrayVec::new();
        list_chains_on(self.chains.as_slice(), cells, &mut kept);
        self.chains = kept;
    }

    /// Adds a chain.
    pub fn push_chain(&mut self, chain: &Chain)
        requires { length self.old.chains.items < 72 }
        ensures fact { fact_in_code self.new ≡ record (fact_in_code self.old) {
          chains = (fact_in_code self.old).chains ++ chain_of chain.now ∷ [];
        } }
        ensures cells { self.new.cells ≡ self.old.cells }
        ensures relations { self.new.relations ≡ self.old.relations }
        ensures count { length self.new.chains.items ≡ length self.old.chains.items + 1 }
    {
        self.chains.push(*chain);
    }

    /// Adds that a sum is in a set, as a relation by itself.
    pub fn push_relation(&mut self, sum: &Sum, set: &WordSet)
        requires { length (relations_of self.old.relations) < R }
        ensures fact { fact_in_code self.new ≡ record (fact_in_code self.old) {
          relations = (fact_in_code self.old).relations ++ record { sum = sum_of sum.now; set = words set.now } ∷ [];
        } }
        ensures cells { self.new.cells ≡ self.old.cells }
    {
        self.relations.push(sum, set);
    }

    /// Adds that a sum is one word, as a relation by itself.
    pub fn push_one_relation(&mut self, sum: &Sum, word: Word)
        requires { length (relations_of self.old.relations) < R }
        ensures fact { fact_in_code self.new ≡ record (fact_in_code self.old) {
          relations = (fact_in_code self.old).relations ++ record { sum = sum_of sum.now; set = one word } ∷ [];
        } }
        ensures cells { self.new.cells ≡ self.old.cells }
    {
        self.relations.push_one(sum, word);
    }

    /// Adds a relation by itself.
    pub fn push_relation_copy(&mut self, relation: &Relation)
        requires { length (relations_of self.old.relations) < R }
        ensures fact { fact_in_code self.new ≡ record (fact_in_code self.old) {
          relations = (fact_in_code self.old).relations ++ relation_of relation.now ∷ [];
        } }
        ensures cells { self.new.cells ≡ self.old.cells }
    {
        self.relations.push_copy(relation);
    }

    /// Adds those of some relations that speak of none of some names, each by itself.
    pub fn push_relations_free_of(&mut self, others: &[Relation], names: &Names<'_>)
        requires { length (relations_of self.old.relations) + length others.now ≤ R }
        ensures fact { fact_in_code self.new ≡ record (fact_in_code self.old) {
          relations = (fact_in_code self.old).relations ++ free_of (names_of names.now) (map relation_of others.now);
        } }
        ensures cells { self.new.cells ≡ self.old.cells }
    {
        self.relations.push_free_of(others, names);
    }
}
