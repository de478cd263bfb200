//! On from one fact by the words that are possible at its address.

ghost use Rattle.std.specs.Prelude.{◌≡◌, ◌≤◌, IfErr};
ghost use Rattle.turns.specs.Counts.{IsSpentUp};

use crate::fault::SearchFault;
use crate::invariant::Case;
use crate::of_sums::program::SumProgram;
use crate::of_sums::search::{SearchPhase, SumSearch};
use crate::of_sums::workspace::{CallWorkspace, PartWorkspace, SumWorkspace};
use crate::outcomes::{abandoned_by, put_outcomes};
use crate::settings::SETTINGS;
use domain::{Location, ReturnOffsets};
use facts::{Fact, FactPart, KnownFact, Place};
use instruct::{refers_indirectly, target};
use std::alloc::Allocator;
use transfer::{FactOutcome, NextFact, OutcomeKind};
use turns::{GuessFault, Turns};
use word12::{Link, Word};
use wordset::WordSet;

/// Where facts go to be kept: from which address to which, and for what is joined there, in the body of which routine.
#[derive(Clone, Copy)]
pub(crate) struct MergeTarget {
    pub(crate) from: Word,
    pub(crate) to: Word,
    pub(crate) routine: Option<Word>,
    pub(crate) exit: Option<usize>,
}

impl<A: Allocator + Copy> SumSearch<A> {
    /// Goes on from a fact at an address.
    pub(crate) fn visit<D: Allocator>(
        &mut self,
        program: &SumProgram<'_, D>,
        at: Word,
        index: usize,
        room: &mut SumWorkspace<A>,
        turns: &mut Turns,
    ) -> Result<(), GuessFault>
        ensures limit { turns.new.limit ≡ turns.old.limit }
        ensures rises { turns.old.spent ≤ turns.new.spent }
        ensures within { turns.new.spent ≤ turns.new.limit }
        ensures spent { IfErr result (IsSpentUp turns.new) }
    {
        turns.are_within();
        let Some(kept) = self.sources().get(at, index) else {
            return Ok(());
        };
        kept.put(&mut room.calls.claimed);
        if !room.calls.narrow(program.base.image) {
            return Ok(());
        }
        let place = program.place(&program.base.owner(at));
        let mut possible = WordSet::empty();
        place.put_possible(&room.calls.fact, at, &mut possible);
        if possible.count() > SETTINGS.most_words {
            return Ok(());
        }
        for word in possible.iter() {
            self.step_in_turn(program, &place, at, word, room, turns)?;
        }
        Ok(())
    }

    /// Goes on by a word, if it may stand there; the turn for its `post` is taken right before it.
    fn step_in_turn<D: Allocator>(
        &mut self,
        program: &SumProgram<'_, D>,
        place: &Place<'_, D>,
        at: Word,
        word: Word,
        room: &mut SumWorkspace<A>,
        turns: &mut Turns,
    ) -> Result<(), GuessFault>
        ensures limit { turns.new.limit ≡ turns.old.limit }
        ensures rises { turns.old.spent ≤ turns.new.spent }
        ensures within { turns.new.spent ≤ turns.new.limit }
        ensures spent { IfErr result (IsSpentUp turns.new) }
    {
        self.take_turn(at, turns)?;
        if !program.may_be_met(place, at, word) {
            return Ok(());
        }
        if !may_go_on(program, place, at, word, &mut room.calls) {
            return Ok(());
        }
        match self.step(program, place, at, word, room) {
            Ok(()) => Ok(()),
            Err(halt) => Err(halt.fault()),
        }
    }

    /// Goes on where the outcomes of a word lead.
    fn step<D: Allocator>(
        &mut self,
        program: &SumProgram<'_, D>,
        place: &Place<'_, D>,
        at: Word,
        word: Word,
        room: &mut SumWorkspace<A>,
    ) -> Result<(), SearchFault> {
        let mut written = WordSet::empty();
        place.put_writes(&room.calls.fact, at, word, &mut written);
        self.write(&place.routine, &written)?;
        room.calls.fact.is_within_room();
        if !put_outcomes(place, &room.calls.fact, at, word, &mut room.outcomes) {
            return Ok(());
        }
        let kind = room.outcomes.first.kind;
        match kind {
            OutcomeKind::Calls => self.call_each(program, place, at, room),
            OutcomeKind::Returns => self.take_returns(program, place, at, word, room),
            OutcomeKind::Goes | OutcomeKind::Nothing => {
                self.follow_all(program, place, at, &abandoned_by(place, word), room)
            }
        }
    }

    /// Goes on where all outcomes lead that go on, in the same body or where all calls are abandoned.
    fn follow_all<D: Allocator>(
        &mut self,
        program: &SumProgram<'_, D>,
        place: &Place<'_, D>,
        at: Word,
        beyond: &WordSet,
        room: &mut SumWorkspace<A>,
    ) -> Result<(), SearchFault> {
        let SumWorkspace {
            outcomes,
            parts,
            ..
        } = room;
        self.follow(program, place, at, beyond, &mut outcomes.first, parts)?;
        self.follow(program, place, at, beyond, &mut outcomes.second, parts)?;
        self.follow(program, place, at, beyond, &mut outcomes.third, parts)?;
        self.follow(program, place, at, beyond, &mut outcomes.fourth, parts)
    }

    /// Goes on at each address where an outcome leads, if it leads anywhere: in the same body, and in main's, without sites and
    /// offsets, where all calls are abandoned for the address.
    fn follow<D: Allocator>(
        &mut self,
        program: &SumProgram<'_, D>,
        place: &Place<'_, D>,
        at: Word,
        beyond: &WordSet,
        outcome: &mut FactOutcome,
        rooms: &mut PartWorkspace<A>,
    ) -> Result<(), SearchFault> {
        if outcome.kind != OutcomeKind::Goes {
            return Ok(());
        }
        let mut addresses = WordSet::empty();
        outcome.targets.put(&mut addresses);
        let fact = &mut outcome.fact;
        fact.keep_chains_on(&self.chained_cells(&*fact, &self.tracked_at_some(&addresses)));
        self.land_at_each(
            program,
            &place.routine,
            &addresses.minus(beyond),
            at,
            fact,
            rooms,
        )?;
        fact.set_sites(&WordSet::empty());
        fact.set_offsets(ReturnOffsets::none());
        self.land_at_each(program, &None, &addresses.meet(beyond), at, fact, rooms)
    }

    /// Those of some cells on which a fact has a chain that is kept: each that may hold few words, and as many others as this try
    /// may keep yet, since narrowing goes through all words of the cell.
    pub(crate) fn chained_cells<F: KnownFact>(&mut self, fact: &F, cells: &WordSet) -> WordSet {
        let mut found = WordSet::empty();
        for chain in fact.chains() {
            if cells.contains(chain.cell()) && self.keeps_chain_on(fact, chain.cell()) {
                found.insert(chain.cell());
            }
        }
        found
    }

    /// Whether a chain on a cell of a fact is kept.
    fn keeps_chain_on<F: KnownFact>(&mut self, fact: &F, cell: Word) -> bool {
        if has_words_to_try(fact, cell) {
            return true;
        }
        if self.wide_chains_left == 0 {
            return false;
        }
        self.wide_chains_left -= 1;
        true
    }

    /// Lets a fact be known at each of some addresses that are in a routine's body, to which a word at an address goes.
    fn land_at_each<D: Allocator>(
        &mut self,
        program: &SumProgram<'_, D>,
        routine: &Option<Word>,
        addresses: &WordSet,
        at: Word,
        fact: &mut NextFact,
        rooms: &mut PartWorkspace<A>,
    ) -> Result<(), SearchFault> {
        for to in addresses.iter() {
            if program.base.has(routine, to) {
                let goal = MergeTarget {
                    from: at,
                    to,
                    routine: *routine,
                    exit: None,
                };
                self.land(program, &goal, fact, rooms)?;
            }
        }
        Ok(())
    }

    /// Whether what is known is kept where it goes, as the search goes.
    fn keeps(&self, goal: &MergeTarget) -> bool {
        match self.way {
            SearchPhase::Ascending => true,
            SearchPhase::DescendingBack => goal.exit.is_none() && goal.to <= goal.from,
            SearchPhase::DescendingForth => goal.exit.is_some() || goal.to > goal.from,
        }
    }

    /// Lets a fact be known where it goes, each of its links for itself.
    pub(crate) fn land<D: Allocator>(
        &mut self,
        program: &SumProgram<'_, D>,
        goal: &MergeTarget,
        fact: &mut NextFact,
        rooms: &mut PartWorkspace<A>,
    ) -> Result<(), SearchFault> {
        if !self.keeps(goal) {
            return Ok(());
        }
        for link in [Link::CLEAR, Link::SET] {
            if fact.link().contains(link) {
                let place = program.place(&goal.routine);
                rooms.part.take(&place, fact, link);
                if !rooms.part.is_none() {
                    self.reach_each(program, goal, rooms)?;
                }
            }
        }
        Ok(())
    }

    /// Lets a part be known where it goes, each word for itself of a cell by which facts are
    /// distinguished.
    fn reach_each<D: Allocator>(
        &mut self,
        program: &SumProgram<'_, D>,
        goal: &MergeTarget,
        rooms: &mut PartWorkspace<A>,
    ) -> Result<(), SearchFault> {
        if let Some(cell) = self.split.cell {
            let name = Location::Cell(cell);
            let mut set = WordSet::all();
            rooms.part.put_set_of(&name, &mut set);
            if has_few_words(&set) {
                return self.reach_values(program, goal, &name, &set, rooms);
            }
        }
        self.reach(
            program,
            goal,
            rooms.part.fact(),
            &mut rooms.before,
            &mut rooms.after,
        )
    }

    /// Lets a part be known where it goes, each word of a name for itself.
    fn reach_values<D: Allocator>(
        &mut self,
        program: &SumProgram<'_, D>,
        goal: &MergeTarget,
        name: &Location,
        values: &WordSet,
        rooms: &mut PartWorkspace<A>,
    ) -> Result<(), SearchFault> {
        for value in values.iter() {
            if rooms.has_value(program.base.image, name, value) {
                self.reach(
                    program,
                    goal,
                    &*rooms.met,
                    &mut rooms.before,
                    &mut rooms.after,
                )?;
            }
        }
        Ok(())
    }

    /// A run may come to where a part goes, and know this.
    fn reach<D: Allocator, F: KnownFact>(
        &mut self,
        program: &SumProgram<'_, D>,
        goal: &MergeTarget,
        known: &F,
        before: &mut Fact,
        after: &mut Fact,
    ) -> Result<(), SearchFault> {
        match goal.exit {
            None => {
                let case = self.split.case_of(goal.to, &goal.routine, known);
                if program.is_past_returns(&goal.routine, case.offset) {
                    return Ok(());
                }
                self.reach_fact(program, goal, &case, known, before, after)
            }
            Some(offset) => {
                let Some(entry) = goal.routine else {
                    return Ok(());
                };
                let case = self.split.case_of_exit(entry, offset, known);
                self.reach_exit(program, goal, &case, known, before, after)
            }
        }
    }

    /// Lets what is known reach the facts at an address.
    fn reach_fact<D: Allocator, F: KnownFact>(
        &mut self,
        program: &SumProgram<'_, D>,
        goal: &MergeTarget,
        case: &Case,
        known: &F,
        before: &mut Fact,
        after: &mut Fact,
    ) -> Result<(), SearchFault> {
        let at = goal.to;
        let merge = self.merge_at(program, at);
        let is_less = if self.gathers() {
            let wanted = self.table.facts.relations_in(at, case);
            self.gathered
                .facts
                .reach(at, at, case, known, wanted, &merge, before, after)?
        } else {
            self.table
                .facts
                .reach(at, at, case, known, &[], &merge, before, after)?
        };
        if is_less {
            self.waiting.insert(at);
        }
        Ok(())
    }
}

/// Whether a cell may hold few enough words to go through each of them again and again.
fn has_words_to_try<F: KnownFact>(fact: &F, cell: Word) -> bool {
    let mut set = WordSet::all();
    fact.put_set_of(&Location::Cell(cell), &mut set);
    set.count() <= SETTINGS.most_chained_words
}

/// Whether a set has more than one word, and few.
fn has_few_words(set: &WordSet) -> bool {
    let count = set.count();
    count > 1 && count <= SETTINGS.most_values
}

/// Whether a run may go on by a word where the fact in the lent room holds; where what it refers to is only permitted in part,
/// the fact then says that its pointer keeps to that.
fn may_go_on<D: Allocator>(
    program: &SumProgram<'_, D>,
    place: &Place<'_, D>,
    at: Word,
    word: Word,
    calls: &mut CallWorkspace,
) -> bool {
    if program.may_access(place, &calls.fact, at, word) {
        return true;
    }
    let named = target(word, at);
    if !refers_indirectly(word) || !program.base.declaration.is_variable(named) {
        return false;
    }
    let permitted = program.permitted(&place.routine, at, word);
    calls.clip(program.base.image, named, &permitted)
        && program.may_access(place, &calls.fact, at, word)
}
