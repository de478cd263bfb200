//! What may come of a word, whatever it is.

ghost use Rattle.std.specs.Prelude.{false, ◌≡◌, ◌≤◌, ◌+◌, ◌++◌, [], length};
ghost use Rattle.instruct.specs.declared.Instruction.TheVariants.{Iot};
ghost use Rattle.instruct.specs.Bits.{is_indirect, named_cell};
ghost use Rattle.instruct.specs.Instructions.{kind_of, operation_of, reference_at, Group2};
ghost use Rattle.wordset.specs.Words.{only, one};
ghost use Rattle.wordset.specs.Lanes.{words};
ghost use Rattle.domain.specs.Facts as said;
ghost use Rattle.domain.specs.CellsInCode.{cell_sets_of};
ghost use Rattle.domain.specs.RelationsInCode.{relations_of};
ghost use Rattle.domain.specs.ChainsInCode.{AreShort};
ghost use Rattle.domain.specs.FactInCode.{fact_in_code};
ghost use Rattle.transfer.specs.References.{stepped, targets};
ghost use Rattle.transfer.specs.Operations.{outcomes_of};
ghost use Rattle.transfer.specs.Shaped.{HaveFewTerms};
ghost use Rattle.facts.specs.PlaceInCode.{place_in_code, meaning_in};
ghost use Rattle.transfer.specs.OutcomesInCode.{outcome_in, outcomes_in};

use crate::instructions::steps_pointer;
use crate::place::Place;
use domain::SumFact;
use instruct::{DeviceOperation, Instruction, Operation, decode, halts, refers_indirectly, target};
use std::alloc::Allocator;
use transfer::{FactOutcome, Outcomes, single_target};
use word12::Word;
use wordset::WordSet;

impl<A: Allocator> Place<'_, A> {
    /// The outcomes of a memory reference to some targets, with the fact that the access sees.
    fn refer_to<const C: usize, const R: usize>(
        &self,
        at: Word,
        word: Word,
        seen: &SumFact<C, R>,
        reached: &WordSet,
        single: &Option<Word>,
        first: &mut FactOutcome,
        second: &mut FactOutcome,
    )
        requires single { single.now ≡ only (words reached.now) }
        requires cells { length (cell_sets_of seen.now.cells) ≤ 133 }
        requires relations { length (relations_of seen.now.relations) ≤ 68 }
        requires chains { length seen.now.chains.items + length (relations_of seen.now.relations) ≤ 72 }
        requires terms { HaveFewTerms (fact_in_code seen.now).relations }
        requires short { AreShort (fact_in_code seen.now).chains }
        ensures { (f : said.Fact) →
            fact_in_code seen.now ≡ stepped (place_in_code self.now) (is_indirect word) (named_cell word at) f →
            words reached.now ≡ targets (place_in_code self.now) (is_indirect word) (named_cell word at) f →
            outcome_in first.new ++ outcome_in second.new ≡ outcomes_of (place_in_code self.now) f at
            (reference_at (operation_of word) word at) }
    {
        let indirect = refers_indirectly(word);
        let named = target(word, at);
        second.clear();
        match Operation::of(word) {
            Operation::And => self.combine(at, seen, reached, single, first),
            Operation::Tad => self.add(indirect, named, at, seen, reached, single, first, second),
            Operation::Isz => self.count(at, seen, reached, single, first, second),
            Operation::Dca => self.deposit(at, seen, reached, single, first),
            Operation::Jms => self.call(seen, reached, first),
            Operation::Jmp => self.jump(indirect, named, seen, reached, first),
        }
    }

    /// The outcomes of a memory reference: a stepped pointer is incremented first.
    fn refer<const C: usize, const R: usize>(
        &self,
        at: Word,
        word: Word,
        fact: &SumFact<C, R>,
        outcomes: &mut Outcomes,
    )
        requires cells { length (cell_sets_of fact.now.cells) ≤ 132 }
        requires relations { length (relations_of fact.now.relations) ≤ 68 }
        requires chains { length fact.now.chains.items + length (relations_of fact.now.relations) ≤ 72 }
        requires terms { HaveFewTerms (fact_in_code fact.now).relations }
        requires short { AreShort (fact_in_code fact.now).chains }
        ensures { outcomes_in outcomes.new ≡ outcomes_of (place_in_code self.now) (fact_in_code fact.now) at
            (reference_at (operation_of word) word at) }
    {
        let indirect = refers_indirectly(word);
        let named = target(word, at);
        let mut reached = WordSet::all();
        self.put_targets(indirect, named, fact, &mut reached);
        let single = single_target(indirect, named, &reached);
        outcomes.third.clear();
        outcomes.fourth.clear();
        if steps_pointer(indirect, named) {
            self.put_counted(fact, named, &mut outcomes.stepped);
            self.refer_to(
                at,
                word,
                &outcomes.stepped,
                &reached,
                &single,
                &mut outcomes.first,
                &mut outcomes.second,
            );
            return;
        }
        self.refer_to(
            at,
            word,
            fact,
            &reached,
            &single,
            &mut outcomes.first,
            &mut outcomes.second,
        );
    }

    /// The outcomes of a word of group 2. A HLT at a stop has none.
    fn skip<const C: usize, const R: usize>(
        &self,
        at: Word,
        word: Word,
        fact: &SumFact<C, R>,
        outcomes: &mut Outcomes,
    )
        requires cells { length (cell_sets_of fact.now.cells) ≤ 132 }
        requires relations { length (relations_of fact.now.relations) ≤ 68 }
        requires chains { length fact.now.chains.items + length (relations_of fact.now.relations) ≤ 72 }
        ensures { outcomes_in outcomes.new ≡
            outcomes_of (place_in_code self.now) (fact_in_code fact.now) at (Group2 word) }
    {
        if halts(word) && self.declaration.is_stop(at) {
            outcomes.clear();
            return;
        }
        self.branch(at, word, fact, outcomes);
    }

    /// The outcomes of a device word.
    fn transfer_by<const C: usize, const R: usize>(
        &self,
        at: Word,
        word: Word,
        fact: &SumFact<C, R>,
        outcomes: &mut Outcomes,
    )
        requires kind { kind_of (meaning_in (place_in_code self.now) at word) ≡ Iot }
        requires cells { length (cell_sets_of fact.now.cells) ≤ 132 }
        requires relations { length (relations_of fact.now.relations) ≤ 68 }
        ensures { outcomes_in outcomes.new ≡ outcomes_of (place_in_code self.now) (fact_in_code fact.now) at
            (meaning_in (place_in_code self.now) at word) }
    {
        outcomes.third.clear();
        outcomes.fourth.clear();
        match DeviceOperation::of(word, self.declaration.profile()) {
            Some(operation) => self.transfer(
                at,
                operation,
                fact,
                &mut outcomes.first,
                &mut outcomes.second,
            ),
            None => outcomes.clear(),
        }
    }

    /// Puts the outcomes of a word that stands at the address of a fact into room for them: what may come of it from a state of the
    /// fact, where its writes are declared and change no entry except for an ISZ of the routine's own. They come in the order of the
    /// definition; those that cannot come about are left out, and a word without a meaning has none, as has a HLT at a stop.
    ///
    /// By the rules of sums the fact is narrowed before.
    #[inline(never)]
    pub fn put_outcomes<const C: usize, const R: usize>(
        &self,
        fact: &SumFact<C, R>,
        at: Word,
        word: Word,
        outcomes: &mut Outcomes,
    )
        requires cells { length (cell_sets_of fact.now.cells) ≤ 132 }
        requires relations { length (relations_of fact.now.relations) ≤ 68 }
        requires chains { length fact.now.chains.items + length (relations_of fact.now.relations) ≤ 72 }
        requires terms { HaveFewTerms (fact_in_code fact.now).relations }
        requires short { AreShort (fact_in_code fact.now).chains }
        ensures { outcomes_in outcomes.new ≡ outcomes_of (place_in_code self.now) (fact_in_code fact.now) at
            (meaning_in (place_in_code self.now) at word) }
    {
        match decode(word, self.declaration.profile()) {
            Instruction::Memory => self.refer(at, word, fact, outcomes),
            Instruction::Operate1 => {
                outcomes.third.clear();
                outcomes.fourth.clear();
                self.operate(at, word, fact, &mut outcomes.first, &mut outcomes.second)
            }
            Instruction::Operate2 => self.skip(at, word, fact, outcomes),
            Instruction::Operate3 => {
                outcomes.second.clear();
                outcomes.third.clear();
                outcomes.fourth.clear();
                self.exchange(at, word, fact, &mut outcomes.first)
            }
            Instruction::Iot => self.transfer_by(at, word, fact, outcomes),
            Instruction::Unsupported => outcomes.clear(),
        }
    }
}
