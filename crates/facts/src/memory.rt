//! The rows of the words that refer to memory.

ghost use Rattle.std.specs.Prelude.{◌≡◌, ◌≤◌, ◌+◌, ◌++◌, ◌&&◌, true, false, length, Some, None};
ghost use Rattle.wordset.specs.Words.{only, some_below};
ghost use Rattle.wordset.specs.Lanes.{words};
ghost use Rattle.domain.specs.Locations.{Cell, is_routine};
ghost use Rattle.domain.specs.Narrowing.{words_known};
ghost use Rattle.domain.specs.CellsInCode.{cell_sets_of};
ghost use Rattle.domain.specs.RelationsInCode.{relations_of};
ghost use Rattle.domain.specs.ChainsInCode.{AreShort};
ghost use Rattle.domain.specs.FactInCode.{fact_in_code, rules_of};
ghost use Rattle.transfer.specs.Shaped.{has_last_or_other};
ghost use Rattle.transfer.specs.Outcomes.{anded, chains_after_and, tad, isz_case, dca_case, deposited, moved, stored_by, jmp, call};
ghost use Rattle.transfer.specs.Shaped.{HaveFewTerms};
ghost use Rattle.facts.specs.PlaceInCode.{place_in_code};
ghost use Rattle.transfer.specs.OutcomesInCode.{outcome_in};

use crate::place::Place;
use domain::{Location, ReturnOffsets, Rules, Step, SumFact};
use std::alloc::Allocator;
use transfer::{
    FactOutcome, has_some, is_alive, put_added, put_added_under, put_begun_longer, put_copied,
    put_stored,
};
use word12::{Link, Word};
use wordset::WordSet;

/// Lets the chains of a fact be those of another after an AND of a word, if it is known which.
fn put_chains_after_and<const C: usize, const R: usize, const D: usize, const S: usize>(
    rules: &Rules,
    word: &Option<Word>,
    fact: &SumFact<D, S>,
    after: &mut SumFact<C, R>,
)
    requires chains { length fact.now.chains.items + length (relations_of fact.now.relations) ≤ 72 }
    requires short { AreShort (fact_in_code fact.now).chains }
    ensures { fact_in_code after.new ≡ record (fact_in_code after.old) {
      chains = chains_after_and (rules_of rules.now) word.now (fact_in_code fact.now);
    } }
{
    match word {
        None => after.clear_chains(),
        Some(word) => put_begun_longer(rules, &Step::Ands(*word), fact, after),
    }
}

/// Lets a fact be another after DCA stored one of some words of the accumulator in the running routine's own entry.
fn put_moved<const C: usize, const R: usize, const D: usize, const S: usize>(
    held: &WordSet,
    fact: &SumFact<D, S>,
    after: &mut SumFact<C, R>,
)
    requires cells { length (cell_sets_of fact.now.cells) ≤ C }
    requires relations { length (relations_of fact.now.relations) ≤ R }
    ensures { fact_in_code after.new ≡ moved (words held.now) (fact_in_code fact.now) }
{
    let mut sites = WordSet::empty();
    fact.sites().put(&mut sites);
    after.take_for_accumulator(fact, &WordSet::one(Word::ZERO));
    after.set_offsets(ReturnOffsets::between(&sites, held));
}

impl<A: Allocator> Place<'_, A> {
    /// AND: all a and v, for the words a of the accumulator and v of the targets.
    #[inline(never)]
    pub(crate) fn combine<const C: usize, const R: usize>(
        &self,
        at: Word,
        fact: &SumFact<C, R>,
        targets: &WordSet,
        single: &Option<Word>,
        outcome: &mut FactOutcome,
    )
        requires single { single.now ≡ only (words targets.now) }
        requires cells { length (cell_sets_of fact.now.cells) ≤ 133 }
        requires relations { length (relations_of fact.now.relations) ≤ 68 }
        requires chains { length fact.now.chains.items + length (relations_of fact.now.relations) ≤ 72 }
        requires short { AreShort (fact_in_code fact.now).chains }
        ensures { outcome_in outcome.new ≡
            anded (place_in_code self.now) at (fact_in_code fact.now) (words targets.now) }
    {
        let mut held = WordSet::all();
        self.put_words_known(fact, &Location::Accumulator, &mut held);
        let mut read = WordSet::all();
        self.put_words_at(fact, targets, single, &mut read);
        outcome.fact.take_for_accumulator(fact, &held.ands(&read));
        put_chains_after_and(&self.rules, &read.only(), fact, &mut outcome.fact);
        let comes = is_alive(&self.rules, has_some(targets), &held, true, &outcome.fact);
        outcome.go_to(comes, at.increment());
    }

    /// TAD: by the rules of sums an outcome for each link, by those of equations one for both.
    #[inline(never)]
    pub(crate) fn add<const C: usize, const R: usize>(
        &self,
        indirect: bool,
        named: Word,
        at: Word,
        fact: &SumFact<C, R>,
        targets: &WordSet,
        single: &Option<Word>,
        first: &mut FactOutcome,
        second: &mut FactOutcome,
    )
        requires single { single.now ≡ only (words targets.now) }
        requires cells { length (cell_sets_of fact.now.cells) ≤ 133 }
        requires relations { length (relations_of fact.now.relations) ≤ 68 }
        requires terms { HaveFewTerms (fact_in_code fact.now).relations }
        requires short { AreShort (fact_in_code fact.now).chains }
        ensures { outcome_in first.new ++ outcome_in second.new ≡
            tad (place_in_code self.now) indirect named at (fact_in_code fact.now) (words targets.now) }
    {
        let mut held = WordSet::all();
        self.put_words_known(fact, &Location::Accumulator, &mut held);
        let mut read = WordSet::all();
        self.put_words_at(fact, targets, single, &mut read);
        let reached = has_some(targets);
        match self.rules {
            Rules::OfSums => {
                let term = self.operand_term(indirect, named, targets, single);
                put_added_under(&read, &term, fact, Link::CLEAR, &mut first.fact);
                let comes = is_alive(&self.rules, reached, &held, true, &first.fact);
                first.go_to(comes, at.increment());
                put_added_under(&read, &term, fact, Link::SET, &mut second.fact);
                let comes = is_alive(&self.rules, reached, &held, true, &second.fact);
                second.go_to(comes, at.increment());
            }
            Rules::OfEquations => {
                put_added(
                    &held,
                    &read,
                    &self.one_target(single),
                    fact,
                    &mut first.fact,
                );
                let comes = is_alive(&self.rules, reached, &held, true, &first.fact);
                first.go_to(comes, at.increment());
                second.clear();
            }
        }
    }

    /// What is known after DCA of the one target: of a variable, or else of the running routine's own entry.
    fn put_deposited<const C: usize, const R: usize>(
        &self,
        cell: Word,
        held: &WordSet,
        fact: &SumFact<C, R>,
        outcome: &mut FactOutcome,
    )
        requires cells { length (cell_sets_of fact.now.cells) ≤ 133 }
        requires relations { length (relations_of fact.now.relations) ≤ 68 }
        requires terms { HaveFewTerms (fact_in_code fact.now).relations }
        ensures { fact_in_code outcome.new.fact ≡
            deposited (place_in_code self.now) cell (words held.now) (fact_in_code fact.now) }
    {
        if self.declaration.is_variable(cell) {
            self.put_stored_by(cell, held, fact, outcome);
            return;
        }
        put_moved(held, fact, &mut outcome.fact);
    }

    /// What is known after DCA of the one target, a variable.
    fn put_stored_by<const C: usize, const R: usize>(
        &self,
        cell: Word,
        held: &WordSet,
        fact: &SumFact<C, R>,
        outcome: &mut FactOutcome,
    )
        requires cells { length (cell_sets_of fact.now.cells) ≤ 133 }
        requires relations { length (relations_of fact.now.relations) ≤ 68 }
        requires terms { HaveFewTerms (fact_in_code fact.now).relations }
        ensures { fact_in_code outcome.new.fact ≡
            stored_by (place_in_code self.now).rules cell (words held.now) (fact_in_code fact.now) }
    {
        match self.rules {
            Rules::OfSums => put_stored(cell, fact, &mut outcome.fact),
            Rules::OfEquations => put_copied(cell, held, fact, &mut outcome.fact),
        }
    }

    /// DCA: the one target takes the accumulator's words and relations, or an unknown one of several its words; then the
    /// accumulator is 0.
    #[inline(never)]
    pub(crate) fn deposit<const C: usize, const R: usize>(
        &self,
        at: Word,
        fact: &SumFact<C, R>,
        targets: &WordSet,
        single: &Option<Word>,
        outcome: &mut FactOutcome,
    )
        requires single { single.now ≡ only (words targets.now) }
        requires cells { length (cell_sets_of fact.now.cells) ≤ 133 }
        requires relations { length (relations_of fact.now.relations) ≤ 68 }
        requires terms { HaveFewTerms (fact_in_code fact.now).relations }
        ensures { outcome_in outcome.new ≡
            dca_case (place_in_code self.now) at (fact_in_code fact.now) (words targets.now) (only (words targets.now)) }
    {
        let mut held = WordSet::all();
        self.put_words_known(fact, &Location::Accumulator, &mut held);
        let reached = has_some(targets);
        match single {
            Some(cell) => {
                self.put_deposited(*cell, &held, fact, outcome);
                let comes = is_alive(&self.rules, reached, &held, has_some(&held), &outcome.fact);
                outcome.go_to(comes, at.increment());
            }
            None => {
                outcome.fact.take_deposited_among(fact, targets, &held);
                let comes = is_alive(&self.rules, reached, &held, true, &outcome.fact);
                outcome.go_to(comes, at.increment());
            }
        }
    }

    /// ISZ of one variable: it skips where the variable was 7777, and otherwise leaves it not zero.
    #[inline(never)]
    fn count_one<const C: usize, const R: usize>(
        &self,
        at: Word,
        fact: &SumFact<C, R>,
        targets: &WordSet,
        cell: Word,
        first: &mut FactOutcome,
        second: &mut FactOutcome,
    )
        requires cells { length (cell_sets_of fact.now.cells) ≤ 133 }
        requires relations { length (relations_of fact.now.relations) ≤ 68 }
        requires variable { (place_in_code self.now).declaration.variable cell ≡ true }
        ensures { outcome_in first.new ++ outcome_in second.new ≡
            isz_case (place_in_code self.now) at (fact_in_code fact.now) (words targets.now) (Some cell) }
    {
        let mut held = WordSet::all();
        self.put_words_known(fact, &Location::Accumulator, &mut held);
        let mut old = WordSet::all();
        self.put_words_known(fact, &Location::Cell(cell), &mut old);
        let reached = has_some(targets);
        first
            .fact
            .take_counted(fact, cell, &WordSet::one(Word::ZERO));
        let comes = is_alive(&self.rules, reached, &held, true, &first.fact);
        first.go_to_if(
            old.contains(Word::ZERO.complement()),
            comes,
            at.increment().increment(),
        );
        let mut more = old.shift(Word::ZERO.increment());
        more.remove(Word::ZERO);
        second.fact.take_counted(fact, cell, &more);
        let comes = is_alive(&self.rules, reached, &held, has_some(&more), &second.fact);
        second.go_to(comes, at.increment());
    }

    /// ISZ of the running routine's own entry increments the offsets.
    #[inline(never)]
    fn count_own<const C: usize, const R: usize>(
        &self,
        at: Word,
        fact: &SumFact<C, R>,
        targets: &WordSet,
        cell: Word,
        outcome: &mut FactOutcome,
    )
        requires cells { length (cell_sets_of fact.now.cells) ≤ 133 }
        requires relations { length (relations_of fact.now.relations) ≤ 68 }
        requires variable { (place_in_code self.now).declaration.variable cell ≡ false }
        ensures { outcome_in outcome.new ≡
            isz_case (place_in_code self.now) at (fact_in_code fact.now) (words targets.now) (Some cell) }
    {
        let mut held = WordSet::all();
        self.put_words_known(fact, &Location::Accumulator, &mut held);
        outcome.fact.copy_from(fact);
        outcome.fact.set_offsets(fact.offsets().counted());
        let comes = is_alive(&self.rules, has_some(targets), &held, true, &outcome.fact);
        outcome.go_to(comes, at.increment());
    }

    /// Whether a cell may hold 7777, or whether it may hold another word.
    fn may_hold<const C: usize, const R: usize>(
        &self,
        fact: &SumFact<C, R>,
        cell: Word,
        last: bool,
    ) -> bool
        ensures { result ≡ has_last_or_other last
            (words_known (place_in_code self.now) (fact_in_code fact.now) (Cell cell)) }
    {
        let mut known = WordSet::all();
        self.put_words_known(fact, &Location::Cell(cell), &mut known);
        if last {
            return known.contains(Word::ZERO.complement());
        }
        known.remove(Word::ZERO.complement());
        has_some(&known)
    }

    /// Whether some of the cells may hold 7777, or whether some of them may hold another word.
    fn may_some_hold<const C: usize, const R: usize>(
        &self,
        fact: &SumFact<C, R>,
        cells: &WordSet,
        last: bool,
    ) -> bool
        ensures { result ≡ some_below 4096 (λ y. words cells.now y &&
            has_last_or_other last (words_known (place_in_code self.now) (fact_in_code fact.now) (Cell y))) }
    {
        for cell in cells.iter() {
            if self.may_hold(fact, cell, last) {
                return true;
            }
        }
        false
    }

    /// ISZ of several variables increments an unknown one of them.
    #[inline(never)]
    fn count_several<const C: usize, const R: usize>(
        &self,
        at: Word,
        fact: &SumFact<C, R>,
        targets: &WordSet,
        first: &mut FactOutcome,
        second: &mut FactOutcome,
    )
        requires cells { length (cell_sets_of fact.now.cells) ≤ 133 }
        requires relations { length (relations_of fact.now.relations) ≤ 68 }
        ensures { outcome_in first.new ++ outcome_in second.new ≡
            isz_case (place_in_code self.now) at (fact_in_code fact.now) (words targets.now) None }
    {
        let mut held = WordSet::all();
        self.put_words_known(fact, &Location::Accumulator, &mut held);
        let reached = has_some(targets);
        first.fact.take_counted_among(fact, targets);
        let comes = is_alive(&self.rules, reached, &held, true, &first.fact);
        first.go_to_if(
            self.may_some_hold(fact, targets, true),
            comes,
            at.increment().increment(),
        );
        second.fact.take_counted_among(fact, targets);
        let comes = is_alive(&self.rules, reached, &held, true, &second.fact);
        second.go_to_if(
            self.may_some_hold(fact, targets, false),
            comes,
            at.increment(),
        );
    }

    /// ISZ: of one variable, of the running routine's own entry, or of one of several variables.
    pub(crate) fn count<const C: usize, const R: usize>(
        &self,
        at: Word,
        fact: &SumFact<C, R>,
        targets: &WordSet,
        single: &Option<Word>,
        first: &mut FactOutcome,
        second: &mut FactOutcome,
    )
        requires single { single.now ≡ only (words targets.now) }
        requires cells { length (cell_sets_of fact.now.cells) ≤ 133 }
        requires relations { length (relations_of fact.now.relations) ≤ 68 }
        ensures { outcome_in first.new ++ outcome_in second.new ≡
            isz_case (place_in_code self.now) at (fact_in_code fact.now) (words targets.now) (only (words targets.now)) }
    {
        match single {
            None => self.count_several(at, fact, targets, first, second),
            Some(cell) => {
                if self.declaration.is_variable(*cell) {
                    self.count_one(at, fact, targets, *cell, first, second);
                    return;
                }
                self.count_own(at, fact, targets, *cell, first);
                second.clear();
            }
        }
    }

    /// JMS calls each target.
    #[inline(never)]
    pub(crate) fn call<const C: usize, const R: usize>(
        &self,
        fact: &SumFact<C, R>,
        targets: &WordSet,
        outcome: &mut FactOutcome,
    )
        requires cells { length (cell_sets_of fact.now.cells) ≤ 133 }
        requires relations { length (relations_of fact.now.relations) ≤ 68 }
        ensures { outcome_in outcome.new ≡
            call (place_in_code self.now) (fact_in_code fact.now) (words targets.now) }
    {
        let mut held = WordSet::all();
        self.put_words_known(fact, &Location::Accumulator, &mut held);
        outcome.fact.copy_from(fact);
        let comes = is_alive(&self.rules, has_some(targets), &held, true, &outcome.fact);
        outcome.call_one_of(comes, targets);
    }

    /// Whether a JMP returns: through the running routine's own entry.
    fn is_returning(&self, indirect: bool, named: Word) -> bool
        ensures { result ≡ (indirect && is_routine (place_in_code self.now).routine named) }
    {
        indirect && self.is_own(named)
    }

    /// JMP goes to each target; JMP I through the running routine's own entry returns.
    #[inline(never)]
    pub(crate) fn jump<const C: usize, const R: usize>(
        &self,
        indirect: bool,
        named: Word,
        fact: &SumFact<C, R>,
        targets: &WordSet,
        outcome: &mut FactOutcome,
    )
        requires cells { length (cell_sets_of fact.now.cells) ≤ 133 }
        requires relations { length (relations_of fact.now.relations) ≤ 68 }
        ensures { outcome_in outcome.new ≡
            jmp (place_in_code self.now) indirect named (fact_in_code fact.now) (words targets.now) }
    {
        let mut held = WordSet::all();
        self.put_words_known(fact, &Location::Accumulator, &mut held);
        outcome.fact.copy_from(fact);
        let comes = is_alive(&self.rules, has_some(targets), &held, true, &outcome.fact);
        if self.is_returning(indirect, named) {
            outcome.go_back(comes);
            return;
        }
        outcome.go_to_one_of(comes, targets);
    }
}
