//! The rows of operate and device words, which go on at the next address whatever memory holds.

ghost use Rattle.std.specs.Prelude.{◌≡◌, ◌≤◌, ◌+◌, ◌++◌, Some, true, false, length};
ghost use Rattle.instruct.specs.declared.Profile.TheVariants.{Pdp8E};
ghost use Rattle.instruct.specs.declared.Instruction.TheVariants.{Operate1};
ghost use Rattle.instruct.specs.Operates.{MqOperate, mq_operate_of};
ghost use Rattle.instruct.specs.Instructions.{instruction_of, processor_action, Skips, Leaves};
ghost use Rattle.processor.specs.Machine.{next_pc};
ghost use Rattle.wordset.specs.Words.{all_words, one, or_any, plus};
ghost use Rattle.wordset.specs.Lanes.{words};
ghost use Rattle.domain.specs.Locations.{Ac};
ghost use Rattle.domain.specs.Facts as said;
ghost use Rattle.domain.specs.Moves.{taking};
ghost use Rattle.domain.specs.CellsInCode.{cell_sets_of};
ghost use Rattle.domain.specs.RelationsInCode.{relations_of};
ghost use Rattle.domain.specs.ChainsInCode.{AreShort};
ghost use Rattle.domain.specs.FactInCode.{fact_in_code};
ghost use Rattle.transfer.specs.Outcomes.{ac_of, goes, with_mq};
ghost use Rattle.transfer.specs.Operations.{all_operated1, all_operated2, operated2, operated3, device_outcomes};
ghost use Rattle.transfer.specs.Shaped.{HaveFewTerms};
ghost use Rattle.facts.specs.PlaceInCode.{place_in_code};
ghost use Rattle.transfer.specs.OutcomesInCode.{outcome_in, outcomes_in};

use crate::place::Place;
use domain::{Location, Rules, SumFact};
use instruct::DeviceOperation;
use std::alloc::Allocator;
use transfer::{
    FactOutcome, Outcomes, TestedFact, is_alive, put_all_operated, put_branch, put_operated_under,
};
use word12::{Link, Word};
use wordset::WordSet;

/// The address after an instruction that skips or does not.
fn next_address(at: Word, skip: bool) -> Word
    ensures { result ≡ next_pc at skip }
{
    if skip {
        at.increment().increment()
    } else {
        at.increment()
    }
}

impl<A: Allocator> Place<'_, A> {
    /// Lets the run go on at an address with the fact that stands in the outcome's room, where that may come about. The
    /// accumulator's words before are given.
    fn go_on(&self, held: &WordSet, next: Word, outcome: &mut FactOutcome)
        ensures { (f : said.Fact) → words held.now ≡ ac_of (place_in_code self.now) f →
            outcome_in outcome.new ≡
            goes (place_in_code self.now) all_words f all_words (one next) (fact_in_code outcome.old.fact) }
    {
        let comes = is_alive(&self.rules, true, held, true, &outcome.fact);
        outcome.go_to(comes, next);
    }

    /// The outcome that goes on at an address, where nothing changes.
    fn leave<const C: usize, const R: usize>(
        &self,
        fact: &SumFact<C, R>,
        next: Word,
        outcome: &mut FactOutcome,
    )
        requires cells { length (cell_sets_of fact.now.cells) ≤ 133 }
        requires relations { length (relations_of fact.now.relations) ≤ 68 }
        ensures { outcome_in outcome.new ≡ goes (place_in_code self.now) all_words (fact_in_code fact.now) all_words
            (one next) (fact_in_code fact.now) }
    {
        let mut held = WordSet::all();
        self.put_words_known(fact, &Location::Accumulator, &mut held);
        outcome.fact.copy_from(fact);
        self.go_on(&held, next, outcome);
    }

    /// The outcome after the accumulator took a word of a set.
    fn assign<const C: usize, const R: usize>(
        &self,
        at: Word,
        fact: &SumFact<C, R>,
        set: &WordSet,
        outcome: &mut FactOutcome,
    )
        requires cells { length (cell_sets_of fact.now.cells) ≤ 133 }
        requires relations { length (relations_of fact.now.relations) ≤ 68 }
        ensures { outcome_in outcome.new ≡ goes (place_in_code self.now) all_words (fact_in_code fact.now) all_words
            (one (plus at 1)) (taking Ac (words set.now) (fact_in_code fact.now)) }
    {
        let mut held = WordSet::all();
        self.put_words_known(fact, &Location::Accumulator, &mut held);
        outcome.fact.take_for_accumulator(fact, set);
        self.go_on(&held, at.increment(), outcome);
    }

    /// The accumulator's words, each with any bits of a byte.
    fn with_byte<const C: usize, const R: usize>(&self, fact: &SumFact<C, R>) -> WordSet
        ensures { words result ≡ or_any 255 (ac_of (place_in_code self.now) (fact_in_code fact.now)) }
    {
        let mut held = WordSet::all();
        self.put_words_known(fact, &Location::Accumulator, &mut held);
        held.or_any(Word::from_byte(0o377))
    }

    /// A flag test: the flag may be set or not.
    fn test_flag<const C: usize, const R: usize>(
        &self,
        at: Word,
        fact: &SumFact<C, R>,
        first: &mut FactOutcome,
        second: &mut FactOutcome,
    )
        requires cells { length (cell_sets_of fact.now.cells) ≤ 133 }
        requires relations { length (relations_of fact.now.relations) ≤ 68 }
        ensures { outcome_in first.new ++ outcome_in second.new ≡
            device_outcomes (place_in_code self.now) at (fact_in_code fact.now) Skips }
    {
        self.leave(fact, at.increment(), first);
        self.leave(fact, at.increment().increment(), second);
    }

    /// A device word: a flag may be set or not, and a byte may be any.
    #[inline(never)]
    pub(crate) fn transfer<const C: usize, const R: usize>(
        &self,
        at: Word,
        operation: DeviceOperation,
        fact: &SumFact<C, R>,
        first: &mut FactOutcome,
        second: &mut FactOutcome,
    )
        requires cells { length (cell_sets_of fact.now.cells) ≤ 133 }
        requires relations { length (relations_of fact.now.relations) ≤ 68 }
        ensures { outcome_in first.new ++ outcome_in second.new ≡
            device_outcomes (place_in_code self.now) at (fact_in_code fact.now) (processor_action operation) }
    {
        second.clear();
        match operation {
            DeviceOperation::SkipOnReaderFlag
            | DeviceOperation::SkipOnPunchFlag
            | DeviceOperation::SkipOnKeyboardFlag
            | DeviceOperation::SkipOnPrinterFlag => self.test_flag(at, fact, first, second),
            DeviceOperation::ReadReaderBuffer
            | DeviceOperation::ReadReaderBufferAndFetchFrame
            | DeviceOperation::ReadKeyboardBuffer => self.assign(
                at,
                fact,
                &self.with_byte(fact),
                first,
            ),
            DeviceOperation::ClearKeyboardFlagAndAccumulator => {
                self.assign(at, fact, &WordSet::one(Word::ZERO), first)
            }
            DeviceOperation::TakeKeyboardByte => {
                let set = WordSet::range(Word::ZERO, Word::from_byte(0o377));
                self.assign(at, fact, &set, first)
            }
            _ => self.leave(fact, at.increment(), first),
        }
    }

    /// The outcome after the accumulator took a word of a set, and MQ one of another.
    fn take<const C: usize, const R: usize>(
        &self,
        at: Word,
        fact: &SumFact<C, R>,
        set: &WordSet,
        mq: &WordSet,
        outcome: &mut FactOutcome,
    )
        requires cells { length (cell_sets_of fact.now.cells) ≤ 133 }
        requires relations { length (relations_of fact.now.relations) ≤ 68 }
        ensures { outcome_in outcome.new ≡ goes (place_in_code self.now) all_words (fact_in_code fact.now) all_words
            (one (plus at 1)) (with_mq (words mq.now) (taking Ac (words set.now) (fact_in_code fact.now))) }
    {
        let mut held = WordSet::all();
        self.put_words_known(fact, &Location::Accumulator, &mut held);
        outcome.fact.take_for_accumulator(fact, set);
        outcome.fact.set_mq(mq);
        self.go_on(&held, at.increment(), outcome);
    }

    /// A word of group 3 moves words between the accumulator and MQ.
    #[inline(never)]
    pub(crate) fn exchange<const C: usize, const R: usize>(
        &self,
        at: Word,
        word: Word,
        fact: &SumFact<C, R>,
        outcome: &mut FactOutcome,
    )
        requires cells { length (cell_sets_of fact.now.cells) ≤ 133 }
        requires relations { length (relations_of fact.now.relations) ≤ 68 }
        ensures { (o : MqOperate) → mq_operate_of word ≡ Some o →
            outcome_in outcome.new ≡ goes (place_in_code self.now) all_words (fact_in_code fact.now) all_words
            (one (plus at 1)) (operated3 o (ac_of (place_in_code self.now) (fact_in_code fact.now)) (fact_in_code fact.now)) }
    {
        let mut ac = WordSet::all();
        self.put_words_known(fact, &Location::Accumulator, &mut ac);
        let mq = *fact.mq();
        let zero = WordSet::one(Word::ZERO);
        match word.value() {
            0o7421 => self.take(at, fact, &zero, &ac, outcome),
            0o7501 => self.take(at, fact, &ac.ors(&mq), &mq, outcome),
            0o7521 => self.take(at, fact, &mq, &ac, outcome),
            0o7621 => self.take(at, fact, &zero, &zero, outcome),
            0o7701 => self.take(at, fact, &mq, &mq, outcome),
            0o7721 => self.take(at, fact, &mq, &zero, outcome),
            _ => outcome.clear(),
        }
    }

    /// A word of group 1: by the rules of sums an outcome for each link, by those of equations one for both.
    #[inline(never)]
    pub(crate) fn operate<const C: usize, const R: usize>(
        &self,
        at: Word,
        word: Word,
        fact: &SumFact<C, R>,
        first: &mut FactOutcome,
        second: &mut FactOutcome,
    )
        requires word { instruction_of Pdp8E word ≡ Operate1 }
        requires cells { length (cell_sets_of fact.now.cells) ≤ 133 }
        requires relations { length (relations_of fact.now.relations) ≤ 68 }
        requires chains { length fact.now.chains.items + length (relations_of fact.now.relations) ≤ 72 }
        requires terms { HaveFewTerms (fact_in_code fact.now).relations }
        requires short { AreShort (fact_in_code fact.now).chains }
        ensures { outcome_in first.new ++ outcome_in second.new ≡ all_operated1 (place_in_code self.now).rules
            (place_in_code self.now) at word (fact_in_code fact.now) }
    {
        let mut held = WordSet::all();
        self.put_words_known(fact, &Location::Accumulator, &mut held);
        match self.rules {
            Rules::OfSums => {
                put_operated_under(word, fact, Link::CLEAR, &mut first.fact);
                self.go_on(&held, at.increment(), first);
                put_operated_under(word, fact, Link::SET, &mut second.fact);
                self.go_on(&held, at.increment(), second);
            }
            Rules::OfEquations => {
                put_all_operated(word, &held, fact, &mut first.fact);
                self.go_on(&held, at.increment(), first);
                second.clear();
            }
        }
    }

    /// The outcome of a word of group 2 that skips, or that does not, under one link.
    fn branch_one_way<const C: usize, const R: usize>(
        &self,
        at: Word,
        word: Word,
        held: &WordSet,
        fact: &SumFact<C, R>,
        link: Link,
        skip: bool,
        tested: &mut TestedFact,
        outcome: &mut FactOutcome,
    )
        requires held { words held.now ≡ ac_of (place_in_code self.now) (fact_in_code fact.now) }
        requires cells { length (cell_sets_of fact.now.cells) ≤ 132 }
        requires relations { length (relations_of fact.now.relations) ≤ 68 }
        requires chains { length fact.now.chains.items + length (relations_of fact.now.relations) ≤ 72 }
        ensures { outcome_in outcome.new ≡
            operated2 (place_in_code self.now) at word (fact_in_code fact.now) link skip }
    {
        if !put_branch(
            &self.rules,
            self.image,
            word,
            held,
            fact,
            link,
            skip,
            tested,
            &mut outcome.fact,
        ) {
            outcome.clear();
            return;
        }
        self.go_on(held, next_address(at, skip), outcome);
    }

    /// The outcomes of a word of group 2 under one link: the one that skips, then the one that does not.
    fn branch_under<const C: usize, const R: usize>(
        &self,
        at: Word,
        word: Word,
        held: &WordSet,
        fact: &SumFact<C, R>,
        link: Link,
        tested: &mut TestedFact,
        skipping: &mut FactOutcome,
        staying: &mut FactOutcome,
    )
        requires held { words held.now ≡ ac_of (place_in_code self.now) (fact_in_code fact.now) }
        requires cells { length (cell_sets_of fact.now.cells) ≤ 132 }
        requires relations { length (relations_of fact.now.relations) ≤ 68 }
        requires chains { length fact.now.chains.items + length (relations_of fact.now.relations) ≤ 72 }
        ensures { outcome_in skipping.new ++ outcome_in staying.new ≡
            operated2 (place_in_code self.now) at word (fact_in_code fact.now) link true ++
            operated2 (place_in_code self.now) at word (fact_in_code fact.now) link false }
    {
        self.branch_one_way(at, word, held, fact, link, true, tested, skipping);
        self.branch_one_way(at, word, held, fact, link, false, tested, staying);
    }

    /// A word of group 2: each link by itself, with and without a skip.
    #[inline(never)]
    pub(crate) fn branch<const C: usize, const R: usize>(
        &self,
        at: Word,
        word: Word,
        fact: &SumFact<C, R>,
        outcomes: &mut Outcomes,
    )
        requires cells { length (cell_sets_of fact.now.cells) ≤ 132 }
        requires relations { length (relations_of fact.now.relations) ≤ 68 }
        requires chains { length fact.now.chains.items + length (relations_of fact.now.relations) ≤ 72 }
        ensures { outcomes_in outcomes.new ≡ all_operated2 (place_in_code self.now) at word (fact_in_code fact.now) }
    {
        let mut held = WordSet::all();
        self.put_words_known(fact, &Location::Accumulator, &mut held);
        let tested = &mut outcomes.tested;
        self.branch_under(
            at,
            word,
            &held,
            fact,
            Link::CLEAR,
            tested,
            &mut outcomes.first,
            &mut outcomes.second,
        );
        self.branch_under(
            at,
            word,
            &held,
            fact,
            Link::SET,
            tested,
            &mut outcomes.third,
            &mut outcomes.fourth,
        );
    }
}
