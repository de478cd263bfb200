//! To which cells a memory reference may refer, and what they may hold.
//!
//! A set is put into a place that is lent for it.

ghost use Rattle.std.specs.Prelude.{◌≡◌, ◌<◌, ◌≤◌, ◌+◌, ◌||◌, ◌&&◌, ℕ, length};
ghost use Rattle.wordset.specs.Words.{only, shifted};
ghost use Rattle.wordset.specs.Lanes.{words};
ghost use Rattle.domain.specs.Locations.{tape_word};
ghost use Rattle.domain.specs.CellsInCode.{cell_sets_of};
ghost use Rattle.domain.specs.RelationsInCode.{relations_of};
ghost use Rattle.domain.specs.FactInCode.{fact_in_code};
ghost use Rattle.domain.specs.Moves.{counted};
ghost use Rattle.transfer.specs.References.{own_words, words_in, possible, targets, words_at, is_fixed, are_fixed, one_target, operand_term};
ghost use Rattle.transfer.specs.Shaped.{term_if};
ghost use Rattle.facts.specs.PlaceInCode.{place_in_code};

use crate::instructions::steps_pointer;
use crate::place::Place;
use domain::{Location, SumFact, Term};
use std::alloc::Allocator;
use transfer::{put_one, word_of};
use word12::Word;
use wordset::WordSet;

/// Puts the tape's word into a place for it, or all words if the tape has none.
fn put_tape_word(word: Option<Word>, place: &mut WordSet)
    ensures { words place.new ≡ tape_word word }
{
    match word {
        None => *place = WordSet::all(),
        Some(word) => put_one(word, place),
    }
}

/// Adds to a set the words that are k more than those of another, where it is chosen.
fn add_shifted_if(chosen: bool, more: &WordSet, k: Word, set: &mut WordSet)
    ensures { (v : ℕ) → words set.new v ≡
        (words set.old v || (chosen && shifted (words more.now) k v)) }
{
    if chosen {
        *set = set.union(&more.shift(k));
    }
}

/// Puts the words that the running routine's entry may hold into a place for them: a site, one more, and an offset.
pub(crate) fn put_own_words<const C: usize, const R: usize>(
    fact: &SumFact<C, R>,
    place: &mut WordSet,
)
    ensures { words place.new ≡ own_words (fact_in_code fact.now) }
{
    let mut sites = WordSet::empty();
    fact.sites().put(&mut sites);
    let offsets = fact.offsets();
    *place = WordSet::empty();
    for o in 0..64usize {
        add_shifted_if(offsets.contains(o), &sites, Word::from_index(o + 1), place);
    }
}

impl<A: Allocator> Place<'_, A> {
    /// Puts the words that a cell may hold in an operand or a pointer into a place for them: a variable's words, the running
    /// routine's own return words, any word in another entry, else the tape's word.
    pub(crate) fn put_words_in<const C: usize, const R: usize>(
        &self,
        fact: &SumFact<C, R>,
        cell: Word,
        place: &mut WordSet,
    )
        ensures { words place.new ≡ words_in (place_in_code self.now) (fact_in_code fact.now) cell }
    {
        if self.declaration.is_variable(cell) {
            self.put_words_known(fact, &Location::Cell(cell), place);
            return;
        }
        if self.is_own(cell) {
            put_own_words(fact, place);
            return;
        }
        if self.declaration.is_entry(cell) {
            *place = WordSet::all();
            return;
        }
        put_tape_word(word_of(self.image, cell), place);
    }

    /// Puts the words that are possible at an address of a body into a place for them: a variable's words, else the tape's
    /// word, or all words if the tape has none.
    pub fn put_possible<const C: usize, const R: usize>(
        &self,
        fact: &SumFact<C, R>,
        at: Word,
        place: &mut WordSet,
    )
        ensures { words place.new ≡ possible (place_in_code self.now) (fact_in_code fact.now) at }
    {
        if self.declaration.is_variable(at) {
            self.put_words_known(fact, &Location::Cell(at), place);
            return;
        }
        put_tape_word(word_of(self.image, at), place);
    }

    /// Puts the targets of a reference into a place for them: the named cell, or the words that the pointer in it may be, which
    /// counts up first where it is stepped.
    pub(crate) fn put_targets<const C: usize, const R: usize>(
        &self,
        indirect: bool,
        named: Word,
        fact: &SumFact<C, R>,
        place: &mut WordSet,
    )
        ensures { words place.new ≡ targets (place_in_code self.now) indirect named (fact_in_code fact.now) }
    {
        if steps_pointer(indirect, named) {
            self.put_words_known(fact, &Location::Cell(named), place);
            *place = place.shift(Word::ZERO.increment());
            return;
        }
        if indirect {
            self.put_words_in(fact, named, place);
            return;
        }
        put_one(named, place);
    }

    /// Puts the words that some cells may hold, of which the one is given that has no other beside it, into a place for them.
    pub(crate) fn put_words_at<const C: usize, const R: usize>(
        &self,
        fact: &SumFact<C, R>,
        cells: &WordSet,
        single: &Option<Word>,
        place: &mut WordSet,
    )
        requires { single.now ≡ only (words cells.now) }
        ensures { words place.new ≡ words_at (place_in_code self.now) (fact_in_code fact.now) (words cells.now) }
    {
        match single {
            Some(cell) => self.put_words_in(fact, *cell, place),
            None => self.put_words_at_each(fact, cells, place),
        }
    }

    /// Puts in the words that any of these cells may hold, one cell after another.
    #[inline(never)]
    fn put_words_at_each<const C: usize, const R: usize>(
        &self,
        fact: &SumFact<C, R>,
        cells: &WordSet,
        place: &mut WordSet,
    )
        ensures { words place.new ≡ words_at (place_in_code self.now) (fact_in_code fact.now) (words cells.now) }
    {
        let mut one = WordSet::all();
        *place = WordSet::empty();
        for cell in cells.iter() {
            self.put_words_in(fact, cell, &mut one);
            *place = place.union(&one);
        }
    }

    /// Whether a cell is neither a variable nor an entry, so that it holds the word of the start in every run.
    fn is_fixed(&self, cell: Word) -> bool
        ensures { result ≡ is_fixed (place_in_code self.now).declaration cell }
    {
        !(self.declaration.is_variable(cell) || self.declaration.is_entry(cell))
    }

    /// Whether all of some cells are neither variables nor entries.
    fn are_fixed(&self, cells: &WordSet) -> bool
        ensures { result ≡ are_fixed (place_in_code self.now).declaration (words cells.now) }
    {
        for cell in cells.iter() {
            if !self.is_fixed(cell) {
                return false;
            }
        }
        true
    }

    /// The one target as a term, where there is one and it is a variable.
    pub(crate) fn one_target(&self, single: &Option<Word>) -> Option<Term>
        ensures { term_if result ≡ one_target (place_in_code self.now).declaration single.now }
    {
        match single {
            None => None,
            Some(cell) => {
                if self.declaration.is_variable(*cell) {
                    Some(Term::Holding(Location::Cell(*cell)))
                } else {
                    None
                }
            }
        }
    }

    /// Whether the words that a reference reads are those that stood behind a variable at the start: it goes through a pointer in
    /// the variable, and all its targets are neither variables nor entries.
    fn is_behind(&self, indirect: bool, named: Word, targets: &WordSet) -> bool
        ensures { result ≡ (indirect && ((place_in_code self.now).declaration.variable named &&
            are_fixed (place_in_code self.now).declaration (words targets.now))) }
    {
        indirect && self.declaration.is_variable(named) && self.are_fixed(targets)
    }

    /// The term that has the operand's word, if there is one: the one target, of which there is none beside it; or what stands
    /// behind the variable that holds the pointer.
    pub(crate) fn operand_term(
        &self,
        indirect: bool,
        named: Word,
        targets: &WordSet,
        single: &Option<Word>,
    ) -> Option<Term>
        requires { single.now ≡ only (words targets.now) }
        ensures { term_if result ≡
            operand_term (place_in_code self.now).declaration indirect named (words targets.now) }
    {
        if self.is_behind(indirect, named, targets) {
            return Some(Term::Behind {
                cell: named,
                more: Word::ZERO,
            });
        }
        self.one_target(single)
    }

    /// Puts the fact after a cell's word was incremented by 1 into room for it.
    pub(crate) fn put_counted<const C: usize, const R: usize, const D: usize, const S: usize>(
        &self,
        fact: &SumFact<C, R>,
        cell: Word,
        room: &mut SumFact<D, S>,
    )
        requires cells { length (cell_sets_of fact.now.cells) < D }
        requires relations { length (relations_of fact.now.relations) ≤ S }
        ensures fact { fact_in_code room.new ≡ counted (place_in_code self.now) cell (fact_in_code fact.now) }
        ensures cells { length (cell_sets_of room.new.cells) ≤ length (cell_sets_of fact.now.cells) + 1 }
        ensures relations { length (relations_of room.new.relations) ≡ length (relations_of fact.now.relations) }
        ensures chains { length room.new.chains.items ≡ length fact.now.chains.items }
    {
        let mut set = WordSet::all();
        self.put_words_known(fact, &Location::Cell(cell), &mut set);
        room.take_counted(fact, cell, &set.shift(Word::ZERO.increment()));
    }
}
