//! Calls and returns in a search: on into a routine, from each return that is known, and out of a routine.

use crate::fault::SearchFault;
use crate::invariant::{Case, Invariant};
use crate::program::{AbstractState, AnalysedProgram};
use crate::search::{Search, known_of};
use crate::workspace::ReturnWorkspace;
use domain::ReturnOffsets;
use facts::Place;
use std::alloc::Allocator;
use transfer::FactOutcome;
use word12::Word;
use wordset::WordSet;

/// The last address from which a call may return by each of the eight offsets without going past
/// 7777.
const LAST_SITE: usize = 0o7767;

impl<A: Allocator + Copy> Search<A> {
    /// Calls each entry that an outcome calls.
    pub(crate) fn call_each<D: Allocator>(
        &mut self,
        program: &AnalysedProgram<'_, D>,
        visit: &AbstractState,
        outcome: &FactOutcome,
        returns: &mut ReturnWorkspace,
    ) -> Result<(), SearchFault> {
        let mut entries = WordSet::empty();
        outcome.targets.put(&mut entries);
        for entry in entries.iter() {
            self.call(program, visit, entry, returns)?;
        }
        Ok(())
    }

    /// Calls an entry.
    fn call<D: Allocator>(
        &mut self,
        program: &AnalysedProgram<'_, D>,
        visit: &AbstractState,
        entry: Word,
        returns: &mut ReturnWorkspace,
    ) -> Result<(), SearchFault> {
        if !program.declaration.is_entry(entry) {
            return Err(SearchFault::Stuck(visit.at));
        }
        if !program.declaration.in_body(entry, entry.increment()) {
            return Err(SearchFault::Stuck(visit.at));
        }
        self.add_site(program, entry, visit.at)?;
        if visit.at.index() > LAST_SITE {
            return Err(SearchFault::Stuck(visit.at));
        }
        let mut written = self.table.routines.routine(entry).writes;
        written.insert(entry);
        self.write(&visit.routine, &written)?;
        let mut entering = known_of(program, &visit.fact);
        entering.offsets = ReturnOffsets::none();
        entering.offsets.insert(0);
        let ahead = self.patience.ahead;
        self.reach(program, entry.increment(), &entering, &ahead)?;
        self.land(program, visit, entry, returns)
    }

    /// An address is a site of an entry.
    fn add_site<D: Allocator>(
        &mut self,
        program: &AnalysedProgram<'_, D>,
        entry: Word,
        at: Word,
    ) -> Result<(), SearchFault> {
        let (site, none) = (WordSet::one(at), WordSet::empty());
        if self.table.routines.claim(entry, &site, &none)? {
            self.visit_again(&program.body_of(entry).meet(&program.lookers));
        }
        Ok(())
    }

    /// Goes on after a call by each return that is known.
    fn land<D: Allocator>(
        &mut self,
        program: &AnalysedProgram<'_, D>,
        visit: &AbstractState,
        entry: Word,
        returns: &mut ReturnWorkspace,
    ) -> Result<(), SearchFault> {
        let written = self.table.routines.routine(entry).writes;
        let ahead = self.patience.ahead;
        for offset in 0..8usize {
            if let Some(kept) = self.table.exits.find(entry, &Case::of_exit(offset)) {
                kept.put_written(&written, &mut returns.exit);
                let to = visit.at.increment().add(Word::from_index(offset));
                if !program.has(&visit.routine, to) {
                    return Err(SearchFault::Stuck(visit.at));
                }
                returns.join(&program.rules, &visit.fact, &written);
                let known = known_of(program, &returns.joined);
                self.reach(program, to, &known, &ahead)?;
            }
        }
        Ok(())
    }

    /// Returns by a word. In versions 1 and 2 an exit line has an offset of at most 7.
    pub(crate) fn take_returns<D: Allocator>(
        &mut self,
        program: &AnalysedProgram<'_, D>,
        place: &Place<'_, D>,
        visit: &AbstractState,
        word: Word,
    ) -> Result<(), SearchFault> {
        let Some(entry) = visit.routine else {
            return Err(SearchFault::Stuck(visit.at));
        };
        if place.returned_entry(visit.at, word) != Some(entry) {
            return Err(SearchFault::Stuck(visit.at));
        }
        for offset in 0..64usize {
            if visit.fact.offsets().contains(offset) {
                let declared = program
                    .declaration
                    .has_offset(entry, Word::from_index(offset));
                if !declared || offset >= 8 {
                    return Err(SearchFault::Stuck(visit.at));
                }
                self.reach_exit(program, visit, entry, offset)?;
            }
        }
        Ok(())
    }

    /// A routine may return by an offset and know what is known here.
    fn reach_exit<D: Allocator>(
        &mut self,
        program: &AnalysedProgram<'_, D>,
        visit: &AbstractState,
        entry: Word,
        offset: usize,
    ) -> Result<(), SearchFault> {
        let (alloc, limits, case) = (self.alloc, &program.limits, Case::of_exit(offset));
        let known = known_of(program, &visit.fact);
        let ahead = self.patience.ahead;
        let mut grew = self.table.exits.find(entry, &case).is_none();
        if grew {
            let tracked = self.tracked_at(entry);
            let kept = Invariant::of_incoming(alloc, visit.at, case, &tracked, &known, limits)?;
            self.table.exits.keep(alloc, entry, kept)?;
        } else if let Some(kept) = self.table.exits.find_mut(entry, &case) {
            grew = kept.join_incoming(alloc, &known, limits, &ahead)?;
        }
        if grew {
            let sites = self.table.routines.routine(entry).sites;
            self.visit_again(&sites);
        }
        Ok(())
    }
}
