//! Telling a lent fact line by line, as a certificate does.

ghost use Rattle.std.specs.Prelude.{◌≡◌, ◌<◌, ◌≤◌, ◌+◌, ◌++◌, ◌∷◌, [], length, map};
ghost use Rattle.wordset.specs.Words.{nothing, between, one};
ghost use Rattle.wordset.specs.Lanes.{words};
ghost use Rattle.wordset.specs.Links.{links_of};
ghost use Rattle.domain.specs.Locations.{Ac};
ghost use Rattle.domain.specs.InCode.{sum_of};
ghost use Rattle.domain.specs.Brief.{brief_words};
ghost use Rattle.domain.specs.CellsInCode.{cell_set_of, cell_sets_of};
ghost use Rattle.domain.specs.RelationsInCode.{relation_of, relations_of};
ghost use Rattle.domain.specs.ChainsInCode.{chain_of};
ghost use Rattle.domain.specs.Offsets.{offsets_in};
ghost use Rattle.domain.specs.FactInCode.{fact_in_code, names_words};

use crate::brief::BriefSet;
use crate::cell_sets::CellSet;
use crate::chains::Chain;
use crate::relations::Relation;
use crate::return_offsets::ReturnOffsets;
use crate::rows::put_row;
use crate::sum_fact::SumFact;
use crate::terms::Sum;
use word12::Word;
use wordset::{Links, WordSet};

impl<const C: usize, const R: usize> SumFact<C, R> {
    /// Takes away what is told of cells and sums, the chains, the sites and the offsets.
    pub fn forget(&mut self)
        ensures fact { fact_in_code self.new ≡ record (fact_in_code self.old) {
          set = names_words (words self.old.ac) [];
          relations = [];
          chains = [];
          sites = nothing;
          offsets = nothing;
        } }
        ensures cells { cell_sets_of self.new.cells ≡ [] }
    {
        self.cells.clear();
        self.relations.clear();
        self.chains.clear();
        self.sites.set_row(Word::from_index(1), Word::ZERO);
        self.offsets = ReturnOffsets::none();
    }

    /// The cells that are told of, in order.
    pub fn told_cells(&self) -> &[CellSet]
        ensures { map cell_set_of result.now ≡ cell_sets_of self.now.cells }
    {
        self.cells.as_slice()
    }

    /// Lets the accumulator hold these words.
    pub fn set_accumulator(&mut self, set: &WordSet)
        ensures fact { fact_in_code self.new ≡ record (fact_in_code self.old) {
          set = names_words (words set.now) (cell_sets_of self.old.cells);
        } }
        ensures cells { cell_sets_of self.new.cells ≡ cell_sets_of self.old.cells }
    {
        self.ac = *set;
    }

    /// Lets the accumulator hold the words from one to another, both of them; none if the second is the lesser.
    pub fn set_accumulator_row(&mut self, first: Word, last: Word)
        ensures fact { fact_in_code self.new ≡ record (fact_in_code self.old) {
          set = names_words (between first last) (cell_sets_of self.old.cells);
        } }
        ensures cells { cell_sets_of self.new.cells ≡ cell_sets_of self.old.cells }
    {
        put_row(&mut self.ac, first, last);
    }

    /// Lets MQ hold these words.
    pub fn set_mq(&mut self, set: &WordSet)
        ensures fact { fact_in_code self.new ≡ record (fact_in_code self.old) { mq = words set.now } }
        ensures cells { cell_sets_of self.new.cells ≡ cell_sets_of self.old.cells }
    {
        self.mq = *set;
    }

    /// Lets MQ hold the words from one to another, both of them; none if the second is the lesser.
    pub fn set_mq_row(&mut self, first: Word, last: Word)
        ensures fact { fact_in_code self.new ≡ record (fact_in_code self.old) { mq = between first last } }
        ensures cells { cell_sets_of self.new.cells ≡ cell_sets_of self.old.cells }
    {
        put_row(&mut self.mq, first, last);
    }

    /// Lets the link be one of these.
    pub fn set_link(&mut self, links: Links)
        ensures fact { fact_in_code self.new ≡ record (fact_in_code self.old) { link = links_of links } }
        ensures cells { cell_sets_of self.new.cells ≡ cell_sets_of self.old.cells }
    {
        self.link = links;
    }

    /// Lets the running routine have been called from one of these sites.
    pub fn set_sites(&mut self, set: &WordSet)
        ensures fact { fact_in_code self.new ≡ record (fact_in_code self.old) { sites = words set.now } }
        ensures cells { cell_sets_of self.new.cells ≡ cell_sets_of self.old.cells }
    {
        self.sites.set(set);
    }

    /// Lets it have been called from one of the sites of a brief set.
    pub fn copy_sites(&mut self, sites: &BriefSet)
        ensures fact { fact_in_code self.new ≡ record (fact_in_code self.old) { sites = brief_words sites.now } }
        ensures cells { cell_sets_of self.new.cells ≡ cell_sets_of self.old.cells }
    {
        self.sites.copy_from(sites);
    }

    /// Lets it have been called from one of the sites from one to another, both of them; none if the second is the lesser.
    pub fn set_sites_row(&mut self, first: Word, last: Word)
        ensures fact { fact_in_code self.new ≡ record (fact_in_code self.old) { sites = between first last } }
        ensures cells { cell_sets_of self.new.cells ≡ cell_sets_of self.old.cells }
    {
        self.sites.set_row(first, last);
    }

    /// Lets the return word have been incremented by one of these.
    pub fn set_offsets(&mut self, offsets: ReturnOffsets)
        ensures fact { fact_in_code self.new ≡ record (fact_in_code self.old) { offsets = offsets_in offsets } }
        ensures cells { cell_sets_of self.new.cells ≡ cell_sets_of self.old.cells }
    {
        self.offsets = offsets;
    }

    /// Tells of one more cell, which may hold these words.
    pub fn track(&mut self, cell: Word, set: &WordSet)
        requires { length (cell_sets_of self.old.cells) < C }
        ensures fact { fact_in_code self.new ≡ record (fact_in_code self.old) {
          set = names_words (words self.old.ac) (cell_sets_of self.new.cells);
        } }
        ensures cells { cell_sets_of self.new.cells ≡ cell_sets_of self.old.cells ++ record { address = cell; set = words set.now } ∷ [] }
    {
        self.cells.push(cell, set);
    }

    /// Tells of one more cell, which may hold the words from one to another, both of them; none if the second is the
    /// lesser.
    pub fn track_row(&mut self, cell: Word, first: Word, last: Word)
        requires { length (cell_sets_of self.old.cells) < C }
        ensures fact { fact_in_code self.new ≡ record (fact_in_code self.old) {
          set = names_words (words self.old.ac) (cell_sets_of self.new.cells);
        } }
        ensures cells { cell_sets_of self.new.cells ≡ cell_sets_of self.old.cells ++ record { address = cell; set = between first last } ∷ [] }
    {
        self.cells.push_row(cell, first, last);
    }

    /// Tells of one more cell, of which only what is needed is written.
    pub fn track_copy(&mut self, entry: &CellSet)
        requires { length (cell_sets_of self.old.cells) < C }
        ensures fact { fact_in_code self.new ≡ record (fact_in_code self.old) {
          set = names_words (words self.old.ac) (cell_sets_of self.new.cells);
        } }
        ensures cells { cell_sets_of self.new.cells ≡ cell_sets_of self.old.cells ++ cell_set_of entry.now ∷ [] }
        ensures relations { self.new.relations ≡ self.old.relations }
        ensures chains { self.new.chains ≡ self.old.chains }
    {
        self.cells.push_copy(entry);
    }

    /// Tells what some relations say, whatever else is told of their sums.
    pub fn push_relations(&mut self, relations: &[Relation])
        requires { length (relations_of self.old.relations) + length relations.now ≤ R }
        ensures fact { fact_in_code self.new ≡ record (fact_in_code self.old) {
          relations = relations_of self.old.relations ++ map relation_of relations.now;
        } }
        ensures cells { self.new.cells ≡ self.old.cells }
        ensures chains { self.new.chains ≡ self.old.chains }
    {
        self.relations.push_all(relations);
    }

    /// Tells that a sum is in a set, whatever else is told of it.
    pub fn relate(&mut self, sum: &Sum, set: &WordSet)
        requires { length (relations_of self.old.relations) < R }
        ensures fact { fact_in_code self.new ≡ record (fact_in_code self.old) {
          relations = relations_of self.old.relations ++ record { sum = sum_of sum.now; set = words set.now } ∷ [];
        } }
        ensures cells { cell_sets_of self.new.cells ≡ cell_sets_of self.old.cells }
    {
        self.relations.push(sum, set);
    }

    /// Tells that a sum is one word, whatever else is told of it.
    pub fn relate_one(&mut self, sum: &Sum, word: Word)
        requires { length (relations_of self.old.relations) < R }
        ensures fact { fact_in_code self.new ≡ record (fact_in_code self.old) {
          relations = relations_of self.old.relations ++ record { sum = sum_of sum.now; set = one word } ∷ [];
        } }
        ensures cells { cell_sets_of self.new.cells ≡ cell_sets_of self.old.cells }
    {
        self.relations.push_one(sum, word);
    }

    /// Tells of one more chain.
    pub fn add_chain(&mut self, chain: &Chain)
        requires { length (fact_in_code self.old).chains < 72 }
        ensures fact { fact_in_code self.new ≡ record (fact_in_code self.old) {
          chains = (fact_in_code self.old).chains ++ chain_of chain.now ∷ [];
        } }
        ensures cells { cell_sets_of self.new.cells ≡ cell_sets_of self.old.cells }
    {
        self.chains.push(*chain);
    }
}
