//! Facts whose relations are of sums.

ghost use Rattle.std.specs.Prelude.{◌≡◌, ◌<◌, ◌≤◌, ◌+◌, ◌++◌, ◌∷◌, [], length, map, drop, ℕ};
ghost use Rattle.wordset.specs.Words.{some_below};
ghost use Rattle.std.specs.List.{list_any};
ghost use Rattle.wordset.specs.Lanes.{words};
ghost use Rattle.wordset.specs.Links.{links_of};
ghost use Rattle.peripherals.specs.Loading.{image_of};
ghost use Rattle.domain.specs.Locations.{Ac, Cell};
ghost use Rattle.domain.specs.LocationsInCode.{location_of};
ghost use Rattle.domain.specs.Terms.{Holding};
ghost use Rattle.domain.specs.Facts as said;
ghost use Rattle.domain.specs.Adding.{times, with_name, with_term_in, with_shape_in, with_spelled_in, adding, lacks_all, is_void, is_equation, is_kept, set_of_term, set_of_shape, set_of_sum};
ghost use Rattle.domain.specs.Knowing.{words_of_term, said_of};
ghost use Rattle.domain.specs.InCode.{term_of, sum_of};
ghost use Rattle.domain.specs.Brief.{brief_words};
ghost use Rattle.domain.specs.CellsInCode.{cell_sets_of, cell_set_of};
ghost use Rattle.domain.specs.RelationsInCode.{relations_of, relation_of};
ghost use Rattle.domain.specs.ChainsInCode.{chain_of};
ghost use Rattle.domain.specs.Offsets.{offsets_in};
ghost use Rattle.domain.specs.FactInCode.{fact_in_code, names_words, rules_of, nothing_known};

use crate::brief::BriefSet;
use crate::cell_sets::CellSets;
use crate::chains::Chain;
use crate::location::Location;
use crate::relations::{Relation, Relations};
use crate::return_offsets::ReturnOffsets;
use crate::sets::{at_start, times};
use crate::shapes::spelled;
use crate::terms::{Sum, Term};
use arrayvec::ArrayVec;
use bin_tape::Image;
use word12::Word;
use wordset::{Links, WordSet};

/// By which rules facts are taken further.
///
/// Contracts see them as `rules_of` gives them.
#[derive(Clone, Copy, PartialEq, Eq, Debug)]
pub enum Rules {
    /// Those of certificates of versions 1 and 2: of relations they keep equations alone.
    OfEquations,
    /// Those of certificates of version 3.
    OfSums,
}

/// What is known of the machine whenever the program counter is at an address, and of the call in which it is: the words that
/// the accumulator, MQ and at most C cells may hold, the links, at most R relations, chains, the sites from which the running
/// routine may have been called, and how far its return word may have been incremented. A cell that is not told of may hold
/// any word.
///
/// A fact of a certificate has room for 64 cells and 32 relations. One that is worked with has more, in room that is lent for
/// it again and again, and only what is told is written.
///
/// Contracts see it as the fact that `fact_in_code` gives.
#[derive(Drop)]
pub struct SumFact<const C: usize, const R: usize> {
    pub(crate) ac: WordSet,
    pub(crate) mq: WordSet,
    pub(crate) link: Links,
    pub(crate) cells: CellSets<C>,
    pub(crate) relations: Relations<R>,
    pub(crate) chains: ArrayVec<Chain, 72>,
    pub(crate) sites: BriefSet,
    pub(crate) offsets: ReturnOffsets,
}

/// Whether a relation of a sum of one of the shapes is an equation: its sum is a name less another, and its set one word.
fn is_equation(sum: &Sum, set: &WordSet) -> bool
    ensures { result ≡ is_equation (sum_of sum.now) (words set.now) }
{
    if sum.len() != 2 {
        return false;
    }
    let second = sum.get(1);
    if second.coefficient.index() != 4095 {
        return false;
    }
    match second.term {
        Term::Holding(_) => set.only().is_some(),
        Term::Behind { .. } => false,
    }
}

/// Whether a relation of a sum of one of the shapes is kept by the rules.
fn is_kept(rules: &Rules, sum: &Sum, set: &WordSet) -> bool
    ensures { result ≡ is_kept (rules_of rules.now) (sum_of sum.now) (words set.now) }
{
    match rules {
        Rules::OfSums => true,
        Rules::OfEquations => is_equation(sum, set),
    }
}

impl<const C: usize, const R: usize> SumFact<C, R> {
    /// The fact of which nothing is known: all words, both links, no relations, chains, sites or offsets.
    pub fn any() -> SumFact<C, R>
        ensures { fact_in_code result ≡ nothing_known }
    {
        SumFact {
            ac: WordSet::all(),
            mq: WordSet::all(),
            link: Links::both(),
            cells: CellSets::new(),
            relations: Relations::new(),
            chains: ArrayVec::new(),
            sites: BriefSet::none(),
            offsets: ReturnOffsets::none(),
        }
    }

    /// The words that the accumulator may hold.
    pub fn accumulator(&self) -> &WordSet
        ensures { words result.now ≡ (fact_in_code self.now).set Ac }
    {
        &self.ac
    }

    /// The words that MQ may hold.
    pub fn mq(&self) -> &WordSet
        ensures { words result.now ≡ (fact_in_code self.now).mq }
    {
        &self.mq
    }

    /// What the link may be.
    pub fn link(&self) -> Links
        ensures { links_of result ≡ (fact_in_code self.now).link }
    {
        self.link
    }

    /// The cells.
    pub fn cells(&self) -> &CellSets<C>
        ensures { names_words ((fact_in_code self.now).set Ac) (cell_sets_of result.now) ≡ (fact_in_code self.now).set }
    {
        &self.cells
    }

    /// The relations.
    pub fn relations(&self) -> &Relations<R>
        ensures { relations_of result.now ≡ (fact_in_code self.now).relations }
    {
        &self.relations
    }

    /// The chains.
    pub fn chains(&self) -> &[Chain]
        ensures chains { map chain_of result.now ≡ (fact_in_code self.now).chains }
        ensures few { length result.now ≤ 72 }
    {
        self.chains.as_slice()
    }

    /// The sites from which the running routine may have been called.
    pub fn sites(&self) -> &BriefSet
        ensures { brief_words result.now ≡ (fact_in_code self.now).sites }
    {
        &self.sites
    }

    /// How far the running routine's return word may have been incremented.
    pub fn offsets(&self) -> ReturnOffsets
        ensures { offsets_in result ≡ (fact_in_code self.now).offsets }
    {
        self.offsets
    }

    /// Puts the words that a name may hold into a place for them: all words for a cell that is not told of.
    pub fn put_set_of(&self, name: &Location, place: &mut WordSet)
        ensures { words place.new ≡ (fact_in_code self.now).set (location_of name.now) }
    {
        match name {
            Location::Accumulator => *place = self.ac,
            Location::Cell(cell) => self.cells.put_set_of(*cell, place),
        }
    }

    /// Puts the words that a name may hold into a place for them, and all words for a term that is not a
    /// name.
    fn put_set_of_term(&self, term: &Term, place: &mut WordSet)
        ensures { words place.new ≡ set_of_term (fact_in_code self.now) (term_of term.now) }
    {
        match term {
            Term::Holding(name) => self.put_set_of(name, place),
            Term::Behind { .. } => *place = WordSet::all(),
        }
    }

    /// Puts the set that the fact gives for a sum of one of the shapes into a place for it.
    fn put_set_of_shape(&self, sum: &Sum, place: &mut WordSet)
        ensures { words place.new ≡ set_of_shape (fact_in_code self.now) (sum_of sum.now) }
    {
        let len = sum.len();
        if len == 0 {
            *place = WordSet::all();
            return;
        }
        if len == 1 {
            self.put_set_of_term(&sum.get(0).term, place);
            return;
        }
        self.relations.put_set_among(sum, place);
    }

    /// Puts the set that the fact gives for any sum into a place for it: all words, if the sum has none of the shapes.
    pub fn put_set_of_sum(&self, sum: &Sum, place: &mut WordSet)
        ensures { words place.new ≡ set_of_sum (fact_in_code self.now) (sum_of sum.now) }
    {
        match spelled(sum) {
            None => *place = WordSet::all(),
            Some(found) => {
                self.put_set_of_shape(&found.sum, place);
                *place = times(found.sign, place);
            }
        }
    }

    /// Puts the words that a term may be into a place for them.
    pub fn put_words_of_term(&self, image: &Image, term: &Term, place: &mut WordSet)
        ensures { words place.new ≡ words_of_term (image_of image.now) (fact_in_code self.now) (term_of term.now) }
    {
        match term {
            Term::Holding(name) => self.put_set_of(name, place),
            Term::Behind { cell, more } => {
                self.cells.put_set_of(*cell, place);
                *place = at_start(image, &place.shift(*more));
            }
        }
    }

    /// Puts what the fact says of the terms of a sum from a place on into a place for it.
    fn put_said_from(&self, image: &Image, sum: &Sum, start: usize, place: &mut WordSet)
        ensures { words place.new ≡ said_of (image_of image.now) (fact_in_code self.now) (drop start (sum_of sum.now)) }
    {
        let len = sum.len();
        if start >= len {
            *place = WordSet::one(Word::ZERO);
            return;
        }
        let summand = sum.get(start);
        let mut first = WordSet::all();
        self.put_words_of_term(image, &summand.term, &mut first);
        let first = times(summand.coefficient, &first);
        if start + 1 == len {
            *place = first;
            return;
        }
        let mut rest = WordSet::all();
        self.put_said_from(image, sum, start + 1, &mut rest);
        let (both, _) = first.sums(&rest);
        let mut part = Sum::zero();
        part.push_from(sum, start);
        self.put_set_of_sum(&part, place);
        *place = place.meet(&both);
    }

    /// Puts what the fact says of a sum into a place for it.
    pub fn put_said_of(&self, image: &Image, sum: &Sum, place: &mut WordSet)
        ensures { words place.new ≡ said_of (image_of image.now) (fact_in_code self.now) (sum_of sum.now) }
    {
        self.put_said_from(image, sum, 0, place);
    }

    /// Lets a name hold the words of a set; what else the fact says of the name stays.
    pub fn set_name(&mut self, name: &Location, set: &WordSet)
        requires { length (cell_sets_of self.old.cells) < C }
        ensures fact { fact_in_code self.new ≡ with_name (location_of name.now) (words set.now) (fact_in_code self.old) }
        ensures cells { length (cell_sets_of self.new.cells) ≤ length (cell_sets_of self.old.cells) + 1 }
        ensures relations { self.new.relations ≡ self.old.relations }
    {
        match name {
            Location::Accumulator => self.ac = *set,
            Location::Cell(cell) => self.cells.replace(*cell, set),
        }
    }

    /// Keeps those words of a name that a set has.
    pub fn meet_name(&mut self, name: &Location, set: &WordSet)
        requires { length (cell_sets_of self.old.cells) < C }
        ensures fact { fact_in_code self.new ≡ with_term_in (Holding (location_of name.now)) (words set.now) (fact_in_code self.old) }
        ensures cells { length (cell_sets_of self.new.cells) ≤ length (cell_sets_of self.old.cells) + 1 }
        ensures relations { self.new.relations ≡ self.old.relations }
    {
        match name {
            Location::Accumulator => self.meet_accumulator(set),
            Location::Cell(cell) => self.cells.meet(*cell, set),
        }
    }

    /// Keeps those words of the accumulator that a set has.
    pub fn meet_accumulator(&mut self, set: &WordSet)
        ensures fact { fact_in_code self.new ≡ with_term_in (Holding Ac) (words set.now) (fact_in_code self.old) }
        ensures cells { self.new.cells ≡ self.old.cells }
        ensures relations { self.new.relations ≡ self.old.relations }
    {
        self.ac = self.ac.meet(set);
    }

    /// Keeps those words of a name that a set has, if a term is one.
    fn meet_term(&mut self, term: &Term, set: &WordSet)
        requires { length (cell_sets_of self.old.cells) < C }
        ensures fact { fact_in_code self.new ≡ with_term_in (term_of term.now) (words set.now) (fact_in_code self.old) }
        ensures cells { length (cell_sets_of self.new.cells) ≤ length (cell_sets_of self.old.cells) + 1 }
        ensures relations { self.new.relations ≡ self.old.relations }
    {
        match term {
            Term::Holding(name) => self.meet_name(name, set),
            Term::Behind { .. } => {}
        }
    }

    /// Adds that a sum of one of the shapes is in a set.
    fn add_shape(&mut self, rules: &Rules, sum: &Sum, set: &WordSet)
        requires cells { length (cell_sets_of self.old.cells) < C }
        requires room { length (relations_of self.old.relations) < R }
        ensures fact { fact_in_code self.new ≡
            with_shape_in (rules_of rules.now) (sum_of sum.now) (words set.now) (fact_in_code self.old) }
        ensures cells { length (cell_sets_of self.new.cells) ≤ length (cell_sets_of self.old.cells) + 1 }
        ensures more { length (relations_of self.new.relations) ≤ length (relations_of self.old.relations) + 1 }
    {
        let len = sum.len();
        if len == 0 {
            return;
        }
        if len == 1 {
            self.meet_term(&sum.get(0).term, set);
            return;
        }
        if is_kept(rules, sum, set) {
            self.relations.add(sum, set);
        }
    }

    /// Adds that a sum is in a set. Of a sum that has none of the shapes nothing is added, and by the rules of equations of one
    /// that is no equation.
    pub fn add(&mut self, rules: &Rules, sum: &Sum, set: &WordSet)
        requires cells { length (cell_sets_of self.old.cells) < C }
        requires room { length (relations_of self.old.relations) < R }
        ensures fact { fact_in_code self.new ≡ adding (rules_of rules.now)
            (record { sum = sum_of sum.now; set = words set.now }) (fact_in_code self.old) }
        ensures cells { length (cell_sets_of self.new.cells) ≤ length (cell_sets_of self.old.cells) + 1 }
        ensures more { length (relations_of self.new.relations) ≤ length (relations_of self.old.relations) + 1 }
    {
        match spelled(sum) {
            None => {}
            Some(found) => self.add_shape(rules, &found.sum, &times(found.sign, set)),
        }
    }

    /// Whether a cell may hold no word.
    fn has_empty_cell(&self) -> bool
        ensures { result ≡ some_below 4096 (λ a. lacks_all ((fact_in_code self.now).set (Cell a))) }
    {
        let mut place = WordSet::all();
        for entry in self.cells.as_slice() {
            // The proof needs the cell's address to be a word.
            let _index = entry.cell.index();
            self.cells.put_set_of(entry.cell, &mut place);
            if place.is_empty() {
                return true;
            }
        }
        false
    }

    /// Whether some set that the fact gives has no word, so that no state satisfies it. Sites and offsets are not looked at:
    /// main has none.
    pub fn is_void(&self) -> bool
        ensures { result ≡ is_void (fact_in_code self.now) }
    {
        self.mq.is_empty()
            || self.link.is_empty()
            || self.ac.is_empty()
            || self.has_empty_cell()
            || Relation::is_some_empty(self.relations.as_slice())
    }
}
