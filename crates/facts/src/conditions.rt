//! The cells that one word at the address of a fact may read, write or call, and what is asked of them.

ghost use Rattle.std.specs.Prelude.{ℕ, ◌≡◌, ◌<◌, ◌≤◌, ◌==◌, ◌&&◌, ◌||◌, ◌↔◌, ◌⊎◌, IsTrue, IfSome, Some, true, false};
ghost use Rattle.wordset.specs.Words.{one, SameWords};
ghost use Rattle.wordset.specs.Lanes.{words};
ghost use Rattle.declaration.specs.Declaration.{IsListed};
ghost use Rattle.domain.specs.Locations.{is_routine};
ghost use Rattle.domain.specs.Facts as said;
ghost use Rattle.domain.specs.FactInCode.{fact_in_code, rules_of};
ghost use Rattle.domain.specs.Offsets.{offsets_in};
ghost use Rattle.facts.specs.Instructions.{MayWrite};
ghost use Rattle.facts.specs.Conditions.{may_read, may_write, called, WritesAreDeclared, EntriesAreKept, WritesAreListed, ReadsAreListed, MayCount, CountsItsReturn, reach, AreInReach, MovesItsReturn};
ghost use Rattle.facts.specs.PlaceInCode.{place_in_code, meaning_in};

use crate::instructions::{counts, deposits, is_jms, reads_operand, steps_pointer, stores};
use crate::place::Place;
use crate::references::put_own_words;
use domain::{Location, ReturnOffsets, Rules, SumFact};
use instruct::{refers_indirectly, target};
use std::alloc::Allocator;
use transfer::named_if;
use word12::Word;
use wordset::WordSet;

/// Whether no offset from 7 on is among those by which a return word may have been incremented.
fn are_below_seven(offsets: ReturnOffsets) -> bool
    ensures { IsTrue result ↔ ((o : ℕ) → 7 ≤ o → o < 64 → offsets_in offsets o ≡ false) }
{
    for o in 7..64usize {
        if offsets.contains(o) {
            return false;
        }
    }
    true
}

/// Whether a return word is not 77 up already, and is not 7777.
fn may_go_up<const C: usize, const R: usize>(fact: &SumFact<C, R>) -> bool
    ensures { IsTrue result ↔ MayCount said.OfSums (fact_in_code fact.now) }
{
    if fact.offsets().contains(63) {
        return false;
    }
    let mut set = WordSet::empty();
    put_own_words(fact, &mut set);
    if set.contains(Word::ZERO.complement()) {
        return false;
    }
    true
}

/// Whether the return word may be incremented once more by the rules.
fn may_count<const C: usize, const R: usize>(rules: &Rules, fact: &SumFact<C, R>) -> bool
    ensures { IsTrue result ↔ MayCount (rules_of rules.now) (fact_in_code fact.now) }
{
    match rules {
        Rules::OfEquations => are_below_seven(fact.offsets()),
        Rules::OfSums => may_go_up(fact),
    }
}

/// The words that lie 1 to 100 behind an address.
fn reach(at: Word) -> WordSet
    ensures { SameWords (words result) (reach at) }
{
    if at.index() == 0o7777 {
        return WordSet::empty();
    }
    let last = if at.index() < 0o7700 {
        at.index() + 64
    } else {
        0o7777
    };
    WordSet::range(Word::from_index(at.index() + 1), Word::from_index(last))
}

/// Whether each of some words lies 0 to 77 past the return address of each of a fact's sites.
fn are_in_reach<const C: usize, const R: usize>(fact: &SumFact<C, R>, known: &WordSet) -> bool
    ensures { IsTrue result ↔ AreInReach (fact_in_code fact.now) (words known.now) }
{
    let mut sites = WordSet::empty();
    fact.sites().put(&mut sites);
    for site in sites.iter() {
        if !known.is_subset(&reach(site)) {
            return false;
        }
    }
    true
}

impl<A: Allocator> Place<'_, A> {
    /// Whether a word is of those that write, a JMS apart: where it is not it writes nothing.
    fn is_writing(&self, at: Word, word: Word) -> bool
        ensures { result ≡ false → (f : said.Fact) (a : ℕ) →
            may_write (place_in_code self.now) f (meaning_in (place_in_code self.now) at word) a ≡ false }
    {
        if !self.is_reference(word) {
            return false;
        }
        stores(word) || steps_pointer(refers_indirectly(word), target(word, at))
    }

    /// The cell in which a word stores without a pointer, the one that it writes then: the named cell of ISZ or DCA.
    fn stored_cell(&self, at: Word, word: Word) -> Option<Word>
        ensures { IfSome result (λ c. (f : said.Fact) →
            may_write (place_in_code self.now) f (meaning_in (place_in_code self.now) at word) ≡ one c) }
    {
        if !self.is_reference(word) {
            return None;
        }
        if refers_indirectly(word) {
            return None;
        }
        if !stores(word) {
            return None;
        }
        Some(target(word, at))
    }

    /// Puts the cells that a word at the address of a fact may read, wherever the fact holds, into a place for them: an
    /// indirect reference's pointer, and the operands of AND, TAD and ISZ.
    pub fn put_reads<const C: usize, const R: usize>(
        &self,
        fact: &SumFact<C, R>,
        at: Word,
        word: Word,
        place: &mut WordSet,
    )
        ensures { words place.new ≡ may_read (place_in_code self.now) (fact_in_code fact.now)
            (meaning_in (place_in_code self.now) at word) }
    {
        if !self.is_reference(word) {
            *place = WordSet::empty();
            return;
        }
        let indirect = refers_indirectly(word);
        let named = target(word, at);
        let pointer = named_if(indirect, named);
        if !reads_operand(word) {
            *place = pointer;
            return;
        }
        self.put_targets(indirect, named, fact, place);
        *place = pointer.union(place);
    }

    /// Puts the cells that a word at the address of a fact may write, wherever the fact holds, into a place for them: the targets
    /// of ISZ and DCA, and a pointer that is stepped. The cell that a JMS itself writes is not among them.
    pub fn put_writes<const C: usize, const R: usize>(
        &self,
        fact: &SumFact<C, R>,
        at: Word,
        word: Word,
        place: &mut WordSet,
    )
        ensures { words place.new ≡ may_write (place_in_code self.now) (fact_in_code fact.now)
            (meaning_in (place_in_code self.now) at word) }
    {
        if !self.is_reference(word) {
            *place = WordSet::empty();
            return;
        }
        let indirect = refers_indirectly(word);
        let named = target(word, at);
        let pointer = named_if(steps_pointer(indirect, named), named);
        if !stores(word) {
            *place = pointer;
            return;
        }
        self.put_targets(indirect, named, fact, place);
        *place = pointer.union(place);
    }

    /// Puts the cells that a word at the address of a fact may call, wherever the fact holds, into a place for them: the targets
    /// of a JMS.
    pub fn put_called<const C: usize, const R: usize>(
        &self,
        fact: &SumFact<C, R>,
        at: Word,
        word: Word,
        place: &mut WordSet,
    )
        ensures { words place.new ≡ called (place_in_code self.now) (fact_in_code fact.now)
            (meaning_in (place_in_code self.now) at word) }
    {
        if !self.is_reference(word) {
            *place = WordSet::empty();
            return;
        }
        if !is_jms(word) {
            *place = WordSet::empty();
            return;
        }
        self.put_targets(refers_indirectly(word), target(word, at), fact, place);
    }

    /// Whether a cell is a variable or an entry.
    fn is_declared(&self, cell: Word) -> bool
        ensures { IsTrue result ↔ (((place_in_code self.now).declaration.variable cell ≡ true) ⊎
            ((place_in_code self.now).declaration.entry cell ≡ true)) }
    {
        self.declaration.is_variable(cell) || self.declaration.is_entry(cell)
    }

    /// Whether each of some cells is a variable or an entry; mostly all are variables.
    fn are_declared(&self, cells: &WordSet) -> bool
        ensures { IsTrue result ↔ ((a : ℕ) → a < 4096 → words cells.now a ≡ true →
            ((place_in_code self.now).declaration.variable a ≡ true) ⊎
            ((place_in_code self.now).declaration.entry a ≡ true)) }
    {
        if cells.is_subset(self.declaration.variables()) {
            return true;
        }
        for cell in cells.iter() {
            if !self.is_declared(cell) {
                return false;
            }
        }
        true
    }

    /// Whether each cell that a word may write is a variable or an entry. The one that a JMS itself writes does not count, here
    /// and below.
    pub fn writes_are_declared<const C: usize, const R: usize>(
        &self,
        fact: &SumFact<C, R>,
        at: Word,
        word: Word,
    ) -> bool
        ensures { IsTrue result ↔ WritesAreDeclared (place_in_code self.now) (fact_in_code fact.now)
            (meaning_in (place_in_code self.now) at word) }
    {
        if let Some(cell) = self.stored_cell(at, word) {
            let _index = cell.index();
            return self.is_declared(cell);
        }
        if !self.is_writing(at, word) {
            return true;
        }
        let mut written = WordSet::empty();
        self.put_writes(fact, at, word, &mut written);
        self.are_declared(&written)
    }

    /// Whether a word increments the running routine's return word, and may do so: an ISZ of its own entry alone, which may
    /// be incremented once more.
    fn counts_its_return<const C: usize, const R: usize>(
        &self,
        fact: &SumFact<C, R>,
        at: Word,
        word: Word,
        entry: Word,
    ) -> bool
        ensures { IsTrue result ↔ CountsItsReturn (place_in_code self.now) (fact_in_code fact.now)
            (meaning_in (place_in_code self.now) at word) entry }
    {
        if !self.is_reference(word) {
            return false;
        }
        if !counts(word) {
            return false;
        }
        if !self.is_own(entry) {
            return false;
        }
        if !may_count(&self.rules, fact) {
            return false;
        }
        let mut cells = WordSet::empty();
        self.put_targets(refers_indirectly(word), target(word, at), fact, &mut cells);
        match cells.only() {
            None => false,
            Some(cell) => cell == entry,
        }
    }

    /// Whether a word stores in the running routine's own entry, and may do so: a DCA that names it directly, where the declaration
    /// lets the routine store there, and each word of the accumulator lies 0 to 77 past each return address.
    fn moves_its_return<const C: usize, const R: usize>(
        &self,
        fact: &SumFact<C, R>,
        at: Word,
        word: Word,
        entry: Word,
    ) -> bool
        ensures { IsTrue result ↔ MovesItsReturn (place_in_code self.now) (fact_in_code fact.now)
            (meaning_in (place_in_code self.now) at word) entry }
    {
        if !self.is_reference(word) {
            return false;
        }
        if !deposits(word) {
            return false;
        }
        if refers_indirectly(word) {
            return false;
        }
        if !self.is_own(entry) {
            return false;
        }
        if !self.declaration.may_move(entry) {
            return false;
        }
        let mut known = WordSet::all();
        self.put_words_known(fact, &Location::Accumulator, &mut known);
        are_in_reach(fact, &known)
    }

    /// Whether a cell is not an entry, or the one in which a word changes the running routine's return
    /// word.
    fn keeps_entry<const C: usize, const R: usize>(
        &self,
        fact: &SumFact<C, R>,
        at: Word,
        word: Word,
        cell: Word,
    ) -> bool
        ensures { let pl = place_in_code self.now in let m = meaning_in pl at word in
            IsTrue result ↔ (pl.declaration.entry cell ≡ true →
            CountsItsReturn pl (fact_in_code fact.now) m cell
            ⊎ MovesItsReturn pl (fact_in_code fact.now) m cell) }
    {
        if !self.declaration.is_entry(cell) {
            return true;
        }
        self.counts_its_return(fact, at, word, cell) || self.moves_its_return(fact, at, word, cell)
    }

    /// Whether no cell that a word may write is an entry, except that ISZ may increment the running routine's own, as its
    /// only target, where that may be incremented once more, and that DCA may store in it by its name, where that may be
    /// moved so.
    pub fn entries_are_kept<const C: usize, const R: usize>(
        &self,
        fact: &SumFact<C, R>,
        at: Word,
        word: Word,
    ) -> bool
        ensures { IsTrue result ↔ EntriesAreKept (place_in_code self.now) (fact_in_code fact.now)
            (meaning_in (place_in_code self.now) at word) }
    {
        if let Some(cell) = self.stored_cell(at, word) {
            let _index = cell.index();
            return self.keeps_entry(fact, at, word, cell);
        }
        if !self.is_writing(at, word) {
            return true;
        }
        let mut written = WordSet::empty();
        self.put_writes(fact, at, word, &mut written);
        self.declaration.is_declared();
        if written.is_subset(self.declaration.variables()) {
            return true;
        }
        for cell in written.iter() {
            if !self.keeps_entry(fact, at, word, cell) {
                return false;
            }
        }
        true
    }

    /// The cells of a set, and the running routine's own entry.
    fn with_own(&self, cells: &WordSet) -> WordSet
        ensures { (a : ℕ) → words result a ≡
            (words cells.now a || is_routine (place_in_code self.now).routine a) }
    {
        match self.routine {
            None => *cells,
            Some(entry) => cells.union(&WordSet::one(entry)),
        }
    }

    /// Whether the running routine may write each of some cells: those of its written set and its own entry; in main all.
    fn may_write(&self, listed: &WordSet, cells: &WordSet) -> bool
        ensures { IsTrue result ↔ ((a : ℕ) → a < 4096 → words cells.now a ≡ true →
            MayWrite (words listed.now) (place_in_code self.now).routine a) }
    {
        match self.routine {
            None => true,
            Some(entry) => cells.is_subset(&listed.union(&WordSet::one(entry))),
        }
    }

    /// Whether the running routine may write a cell.
    fn may_write_cell(&self, listed: &WordSet, cell: Word) -> bool
        ensures { IsTrue result ↔ MayWrite (words listed.now) (place_in_code self.now).routine cell }
    {
        match self.routine {
            None => true,
            Some(entry) => listed.contains(cell) || cell == entry,
        }
    }

    /// Whether each cell that a word may write is one that the running routine may write: one of its written set, which is
    /// given, or its own entry; in main any.
    pub fn writes_are_listed<const C: usize, const R: usize>(
        &self,
        fact: &SumFact<C, R>,
        at: Word,
        word: Word,
        listed: &WordSet,
    ) -> bool
        ensures { IsTrue result ↔ WritesAreListed (place_in_code self.now) (words listed.now) (fact_in_code fact.now)
            (meaning_in (place_in_code self.now) at word) }
    {
        if let Some(cell) = self.stored_cell(at, word) {
            let _index = cell.index();
            return self.may_write_cell(listed, cell);
        }
        if !self.is_writing(at, word) {
            return true;
        }
        let mut written = WordSet::empty();
        self.put_writes(fact, at, word, &mut written);
        self.may_write(listed, &written)
    }

    /// Whether each of some cells is on the list of reads, if there is one, or is the running routine's own entry.
    fn are_listed(&self, cells: &WordSet) -> bool
        ensures { IsTrue result ↔ ((a : ℕ) → a < 4096 → words cells.now a ≡ true →
            IsListed (place_in_code self.now).declaration.reads a ⊎
            ((place_in_code self.now).routine ≡ Some a)) }
    {
        match self.declaration.reads() {
            None => true,
            Some(listed) => cells.is_subset(&self.with_own(listed)),
        }
    }

    /// Whether each cell that a word may read is on the list of reads, if there is one, or is the running routine's own entry.
    pub fn reads_are_listed<const C: usize, const R: usize>(
        &self,
        fact: &SumFact<C, R>,
        at: Word,
        word: Word,
    ) -> bool
        ensures { IsTrue result ↔ ReadsAreListed (place_in_code self.now) (fact_in_code fact.now)
            (meaning_in (place_in_code self.now) at word) }
    {
        if !self.declaration.reads_listed() {
            return true;
        }
        let mut read = WordSet::empty();
        self.put_reads(fact, at, word, &mut read);
        self.are_listed(&read)
    }
}
