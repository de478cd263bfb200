//! Ranks of routines, and calls that go round in a circle.

use crate::fault::SearchFault;
use crate::table::Routines;
use declaration::Declaration;
use std::alloc::Allocator;
use word12::Word;
use wordset::WordSet;

/// The most routines of a certificate, and one more than the greatest rank.
const MOST_ROUTINES: usize = 64;

/// The greatest rank.
const LAST_RANK: usize = MOST_ROUTINES - 1;

impl<A: Allocator + Copy> Routines<A> {
    /// Ranks all routines. Each round settles those of one rank more; where calls go round in a circle,
    /// the last round leaves the last rank.
    pub(crate) fn rank_all<D: Allocator>(
        &mut self,
        declaration: &Declaration<D>,
    ) -> Result<(), SearchFault> {
        for _round in 0..MOST_ROUTINES {
            self.raise_ranks(declaration)?;
        }
        Ok(())
    }

    /// Ranks each routine above those that it calls, as far as there are ranks.
    fn raise_ranks<D: Allocator>(
        &mut self,
        declaration: &Declaration<D>,
    ) -> Result<(), SearchFault> {
        for routine in declaration.routines() {
            let entry = routine.entry();
            let mut claimed = self.routine(entry);
            claimed.rank = self.rank_above(declaration, routine.body()).min(LAST_RANK);
            self.set_routine(entry, claimed)?;
        }
        Ok(())
    }

    /// The least rank above all that a body calls.
    fn rank_above<D: Allocator>(&self, declaration: &Declaration<D>, body: &WordSet) -> usize {
        let mut rank = 0usize;
        for routine in declaration.routines() {
            let callee = self.routine(routine.entry());
            if !callee.sites.meet(body).is_empty() && callee.rank >= rank {
                rank = callee.rank.saturating_add(1);
            }
        }
        rank
    }

    /// The least call that is part of a circle, if there is one: it stands in a body that is reached by
    /// calls from that of the routine which it calls.
    pub(crate) fn circle<D: Allocator>(&self, declaration: &Declaration<D>) -> Option<Word> {
        let mut calls = WordSet::empty();
        for routine in declaration.routines() {
            let reached = self.reached_from(declaration, routine.body());
            let sites = self.routine(routine.entry()).sites;
            calls = calls.union(&sites.meet(&reached));
        }
        calls.least()
    }

    /// The cells of a body and of all that are reached from it by calls.
    fn reached_from<D: Allocator>(&self, declaration: &Declaration<D>, body: &WordSet) -> WordSet {
        let mut cells = *body;
        for _call in 0..MOST_ROUTINES {
            let more = self.with_called(declaration, &cells);
            if more == cells {
                return cells;
            }
            cells = more;
        }
        cells
    }

    /// The cells of some bodies and of those that they call.
    fn with_called<D: Allocator>(&self, declaration: &Declaration<D>, bodies: &WordSet) -> WordSet {
        let mut cells = *bodies;
        for routine in declaration.routines() {
            if !self.routine(routine.entry()).sites.meet(bodies).is_empty() {
                cells = cells.union(routine.body());
            }
        }
        cells
    }
}
