//! Calls and returns.

use crate::fault::SearchFault;
use crate::invariant::Case;
use crate::of_sums::program::SumProgram;
use crate::of_sums::search::SumSearch;
use crate::of_sums::steps::MergeTarget;
use crate::of_sums::workspace::SumWorkspace;
use certificate_lines::RoutineClaim;
use facts::{Fact, KnownFact, Place};
use std::alloc::Allocator;
use word12::Word;
use wordset::WordSet;

/// The last address that may be a site of a call.
const LAST_SITE: usize = 0o7776;

impl<A: Allocator + Copy> SumSearch<A> {
    /// What is claimed of the routine of an entry so far, and in a sweep back what was before.
    fn claimed(&self, entry: Word) -> RoutineClaim {
        self.table.routines.routine(entry)
    }

    /// Claims more of a routine, and returns whether it is more.
    fn claim(
        &mut self,
        entry: Word,
        sites: &WordSet,
        writes: &WordSet,
    ) -> Result<bool, SearchFault> {
        if self.gathers() {
            self.gathered.routines.claim(entry, sites, writes)
        } else {
            self.table.routines.claim(entry, sites, writes)
        }
    }

    /// The routine of a body may write some cells, its own entry apart.
    pub(crate) fn write(
        &mut self,
        routine: &Option<Word>,
        cells: &WordSet,
    ) -> Result<(), SearchFault> {
        let Some(entry) = routine else {
            return Ok(());
        };
        let mut writes = *cells;
        writes.remove(*entry);
        if writes.is_empty() {
            return Ok(());
        }
        if self.claim(*entry, &WordSet::empty(), &writes)? {
            let sites = self.claimed(*entry).sites;
            self.visit_again(&sites);
        }
        Ok(())
    }

    /// The facts at some addresses wait again.
    fn visit_again(&mut self, addresses: &WordSet) {
        if self.gathers() {
            return;
        }
        for at in addresses.iter() {
            self.table.facts.mark_waiting(at);
        }
        self.waiting = self.waiting.union(addresses);
    }

    /// Calls each of the entries that the outcome calls.
    pub(crate) fn call_each<D: Allocator>(
        &mut self,
        program: &SumProgram<'_, D>,
        place: &Place<'_, D>,
        at: Word,
        room: &mut SumWorkspace<A>,
    ) -> Result<(), SearchFault> {
        let mut entries = WordSet::empty();
        room.outcomes.first.targets.put(&mut entries);
        for entry in entries.iter() {
            if may_call(program, at, entry) {
                self.call(program, place, at, entry, room)?;
            }
        }
        Ok(())
    }

    /// Calls an entry.
    fn call<D: Allocator>(
        &mut self,
        program: &SumProgram<'_, D>,
        place: &Place<'_, D>,
        at: Word,
        entry: Word,
        room: &mut SumWorkspace<A>,
    ) -> Result<(), SearchFault> {
        self.claim(entry, &WordSet::one(at), &WordSet::empty())?;
        let written = self.claimed(entry).writes;
        self.write(&place.routine, &written.union(&WordSet::one(entry)))?;
        room.calls.put_called_from(at);
        let goal = MergeTarget {
            from: at,
            to: entry.increment(),
            routine: Some(entry),
            exit: None,
        };
        self.land_next(program, &goal, room)?;
        for index in 0..self.table.exits.row(entry).len() {
            self.come_from(program, place, at, entry, index, room)?;
        }
        Ok(())
    }

    /// Lets what comes next be known where it goes.
    fn land_next<D: Allocator>(
        &mut self,
        program: &SumProgram<'_, D>,
        goal: &MergeTarget,
        room: &mut SumWorkspace<A>,
    ) -> Result<(), SearchFault> {
        let SumWorkspace { calls, parts, .. } = room;
        let cells = self.chained_cells(&calls.next, &self.tracked_for(goal));
        calls.next.keep_chains_on(&cells);
        self.land(program, goal, &mut calls.next, parts)
    }

    /// Goes on after a call by one of the exits of the entry.
    fn come_from<D: Allocator>(
        &mut self,
        program: &SumProgram<'_, D>,
        place: &Place<'_, D>,
        at: Word,
        entry: Word,
        index: usize,
        room: &mut SumWorkspace<A>,
    ) -> Result<(), SearchFault> {
        let written = self.claimed(entry).writes;
        let Some(kept) = self.table.exits.get(entry, index) else {
            return Ok(());
        };
        let Some(offset) = kept.case.offset else {
            return Ok(());
        };
        let to = at.increment().add(Word::from_index(offset.min(63)));
        if !kept.sites.contains(at) || !program.base.has(&place.routine, to) {
            return Ok(());
        }
        kept.put_written(&written, &mut room.calls.exit);
        room.calls.put_joined(&written);
        let goal = MergeTarget {
            from: at,
            to,
            routine: place.routine,
            exit: None,
        };
        self.land_next(program, &goal, room)
    }

    /// Returns by a word, if it is a return of the routine whose body it stands in, by offsets that are declared.
    pub(crate) fn take_returns<D: Allocator>(
        &mut self,
        program: &SumProgram<'_, D>,
        place: &Place<'_, D>,
        at: Word,
        word: Word,
        room: &mut SumWorkspace<A>,
    ) -> Result<(), SearchFault> {
        let Some(entry) = place.routine else {
            return Ok(());
        };
        if place.returned_entry(at, word) != Some(entry) {
            return Ok(());
        }
        for offset in 0..64usize {
            let more = Word::from_index(offset);
            if room.calls.fact.offsets().contains(offset)
                && program.base.declaration.has_offset(entry, more)
            {
                room.calls.put_next();
                let goal = MergeTarget {
                    from: at,
                    to: at,
                    routine: Some(entry),
                    exit: Some(offset),
                };
                self.land_next(program, &goal, room)?;
            }
        }
        Ok(())
    }

    /// A routine may return and know this.
    pub(crate) fn reach_exit<D: Allocator, F: KnownFact>(
        &mut self,
        program: &SumProgram<'_, D>,
        goal: &MergeTarget,
        case: &Case,
        known: &F,
        before: &mut Fact,
        after: &mut Fact,
    ) -> Result<(), SearchFault> {
        let Some(entry) = goal.routine else {
            return Ok(());
        };
        let at = goal.to;
        let merge = self.merge_at(program, entry);
        let is_less = if self.gathers() {
            let wanted = self.table.exits.relations_in(entry, case);
            self.gathered
                .exits
                .reach(entry, at, case, known, wanted, &merge, before, after)?
        } else {
            self.table
                .exits
                .reach(entry, at, case, known, &[], &merge, before, after)?
        };
        if is_less {
            let sites = self.claimed(entry).sites;
            self.visit_again(&sites);
        }
        Ok(())
    }
}

/// Whether an entry may be called from an address: it is one, and its body has the address after it.
fn may_call<D: Allocator>(program: &SumProgram<'_, D>, at: Word, entry: Word) -> bool {
    let declaration = program.base.declaration;
    declaration.is_entry(entry)
        && declaration.in_body(entry, entry.increment())
        && at.index() <= LAST_SITE
}
