//! Facts as the search by the rules of sums keeps them.

use crate::fault::SearchFault;
use crate::incoming_fact::brief;
use crate::invariant::{Case, Invariant, MOST_RELATIONS, relate_if_room};
use crate::of_sums::merging::Merge;
use crate::sums::speaks_only_of;
use domain::{Chain, Location, Relation, Sum};
use facts::{Fact, KnownFact};
use std::alloc::Allocator;
use word12::Word;
use wordset::WordSet;

/// The most steps of a chain.
const MOST_STEPS: usize = 16;

/// Whether a chain has the room of a certificate's.
fn is_short(chain: &Chain) -> bool {
    let count = chain.steps().len();
    count >= 1 && count <= MOST_STEPS
}

impl<A: Allocator + Copy> Invariant<A> {
    /// What is known at an address in a case, of tracked cells alone. The lent room becomes the fact that says it.
    pub(crate) fn of<F: KnownFact>(
        at: Word,
        case: Case,
        known: &F,
        merge: &Merge<'_, A>,
        after: &mut Fact,
    ) -> Result<Invariant<A>, SearchFault> {
        let mut kept = Invariant::without_cells(merge.alloc, at, case, known);
        kept.ac = merge.with_few_runs(&kept.ac);
        for cell in merge.tracked.iter() {
            let mut set = WordSet::all();
            known.put_set_of(&Location::Cell(cell), &mut set);
            kept.track(cell, &merge.with_few_runs(&set))?;
        }
        kept.put(after);
        kept.take_relations(known, merge, after)?;
        kept.take_chains(known.chains(), merge)?;
        Ok(kept)
    }

    /// Adds relations between tracked cells that say more than the sets.
    fn take_relations<F: KnownFact>(
        &mut self,
        known: &F,
        merge: &Merge<'_, A>,
        after: &mut Fact,
    ) -> Result<(), SearchFault> {
        for relation in known.relations() {
            if speaks_only_of(&merge.tracked, &relation.sum) && !self.relates(&relation.sum) {
                let mut set = WordSet::all();
                known.put_said_of(merge.image, &relation.sum, &mut set);
                self.relate(&relation.sum, &set, 0, merge, after)?;
            }
        }
        Ok(())
    }

    /// Adds that a sum is in a set, if this says more than the fact that stands in the lent room, and there is room.
    pub(crate) fn relate(
        &mut self,
        sum: &Sum,
        set: &WordSet,
        growths: u32,
        merge: &Merge<'_, A>,
        after: &mut Fact,
    ) -> Result<(), SearchFault> {
        if self.relations.len() >= MOST_RELATIONS || set.is_all() {
            return Ok(());
        }
        let smooth = merge.with_few_runs(set);
        let mut said = WordSet::all();
        after.put_said_of(merge.image, sum, &mut said);
        if said.is_subset(&smooth) {
            return Ok(());
        }
        let told = Relation {
            sum: *sum,
            set: brief(&smooth),
        };
        relate_if_room(after, &told);
        self.push_relation(told, growths)
    }

    /// Adds chains on tracked cells, one for each.
    pub(crate) fn take_chains(
        &mut self,
        chains: &[Chain],
        merge: &Merge<'_, A>,
    ) -> Result<(), SearchFault> {
        for chain in chains {
            if merge.tracked.contains(chain.cell()) && is_short(chain) {
                self.add_chain(chain)?;
            }
        }
        Ok(())
    }
}
