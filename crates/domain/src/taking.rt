//! What may happen to the words of names: the accumulator takes some word of a set, or one of several cells does, unknown
//! which.

ghost use Rattle.std.specs.Prelude.{◌≡◌, ◌≤◌, ◌<◌, ◌+◌, ◌++◌, ◌∷◌, [], length, map};
ghost use Rattle.wordset.specs.Words.{shifted, union, one};
ghost use Rattle.wordset.specs.Lanes.{words};
ghost use Rattle.domain.specs.Locations.{Ac, Cell};
ghost use Rattle.domain.specs.Moves.{taking, weakly_updated, weakly_updated_sets, without_relations};
ghost use Rattle.domain.specs.Naming.{names_of};
ghost use Rattle.domain.specs.CellsInCode.{cell_sets_of, cell_set_of};
ghost use Rattle.domain.specs.RelationsInCode.{relations_of};
ghost use Rattle.domain.specs.Taken.{changed, changed_among};
ghost use Rattle.domain.specs.FactInCode.{fact_in_code};

use crate::cell_sets::{CellSet, CellSets};
use crate::location::Location;
use crate::names::Names;
use crate::sum_fact::SumFact;
use word12::Word;
use wordset::WordSet;

/// What becomes of the words of the one cell, unknown which, that changes.
#[derive(Drop)]
enum Change<'a> {
    /// Its word is incremented by 1.
    CountsUp,
    /// It takes a word of a set.
    Takes(&'a WordSet),
}

/// Adds to the words of a cell those that it may hold after a change.
fn add_changed(change: &Change<'_>, set: &mut WordSet)
    ensures { words set.new ≡ union (words set.old) (changed change.now (words set.old)) }
{
    match change {
        Change::CountsUp => *set = set.union(&set.shift(Word::from_index(1))),
        Change::Takes(words) => *set = set.union(words),
    }
}

/// Adds to some cells an entry of others, with the words that its cell may hold after a change of one cell of a set.
fn push_changed<const D: usize, const C: usize>(
    others: &CellSets<D>,
    entry: &CellSet,
    among: &WordSet,
    change: &Change<'_>,
    cells: &mut CellSets<C>,
)
    requires { length (cell_sets_of cells.old) < C }
    ensures { cell_sets_of cells.new ≡ cell_sets_of cells.old ++
        changed_among (words among.now) (changed change.now) (cell_sets_of others.now) (cell_set_of entry.now) ∷ [] }
{
    if !among.contains(entry.cell) {
        cells.push_copy(entry);
        return;
    }
    let mut set = WordSet::all();
    others.put_set_of(entry.cell, &mut set);
    add_changed(change, &mut set);
    cells.push(entry.cell, &set);
}

/// Adds to some cells entries of others, with the words that their cells may hold after a change of one cell of a set.
fn push_all_changed<const D: usize, const C: usize>(
    others: &CellSets<D>,
    entries: &[CellSet],
    among: &WordSet,
    change: &Change<'_>,
    cells: &mut CellSets<C>,
)
    requires { length (cell_sets_of cells.old) + length entries.now ≤ C }
    ensures { cell_sets_of cells.new ≡ cell_sets_of cells.old ++
        map (changed_among (words among.now) (changed change.now) (cell_sets_of others.now)) (map cell_set_of entries.now) }
{
    for entry in entries {
        push_changed(others, entry, among, change, cells);
    }
}

impl<const C: usize, const R: usize> SumFact<C, R> {
    /// Lets this fact be another after the accumulator took some word of a set.
    pub fn take_for_accumulator<const D: usize, const S: usize>(
        &mut self,
        other: &SumFact<D, S>,
        set: &WordSet,
    )
        requires cells { length (cell_sets_of other.now.cells) ≤ C }
        requires relations { length (relations_of other.now.relations) ≤ R }
        ensures { fact_in_code self.new ≡ taking Ac (words set.now) (fact_in_code other.now) }
    {
        self.take_without(other, &Names::One(Location::Accumulator));
        self.ac = *set;
    }

    /// Lets this fact be another after one cell of a set, unknown which, changed, without what it says of some names beside their
    /// sets.
    fn take_changed<const D: usize, const S: usize>(
        &mut self,
        other: &SumFact<D, S>,
        names: &Names<'_>,
        among: &WordSet,
        change: &Change<'_>,
    )
        requires cells { length (cell_sets_of other.now.cells) ≤ C }
        requires relations { length (relations_of other.now.relations) ≤ R }
        ensures { fact_in_code self.new ≡ record (without_relations (names_of names.now) (fact_in_code other.now)) {
          set = λ n. weakly_updated_sets (words among.now)
              (λ a. changed change.now ((fact_in_code other.now).set (Cell a))) (fact_in_code other.now).set n;
        } }
    {
        self.take_without(other, names);
        self.cells.clear();
        push_all_changed(
            &other.cells,
            other.cells.as_slice(),
            among,
            change,
            &mut self.cells,
        );
    }

    /// Lets this fact be another after one cell of a set, unknown which, was incremented by 1.
    pub fn take_counted_among<const D: usize, const S: usize>(
        &mut self,
        other: &SumFact<D, S>,
        among: &WordSet,
    )
        requires cells { length (cell_sets_of other.now.cells) ≤ C }
        requires relations { length (relations_of other.now.relations) ≤ R }
        ensures { fact_in_code self.new ≡ weakly_updated (words among.now)
            (λ a. shifted ((fact_in_code other.now).set (Cell a)) 1) (fact_in_code other.now) }
    {
        self.take_changed(other, &Names::Cells(among), among, &Change::CountsUp);
    }

    /// Lets this fact be another after one cell of a set, unknown which, took a word of another set, and the accumulator was
    /// cleared.
    pub fn take_deposited_among<const D: usize, const S: usize>(
        &mut self,
        other: &SumFact<D, S>,
        among: &WordSet,
        set: &WordSet,
    )
        requires cells { length (cell_sets_of other.now.cells) ≤ C }
        requires relations { length (relations_of other.now.relations) ≤ R }
        ensures { fact_in_code self.new ≡
            taking Ac (one 0) (weakly_updated (words among.now) (λ a. words set.now) (fact_in_code other.now)) }
    {
        self.take_changed(other, &Names::Changing(among), among, &Change::Takes(set));
        self.ac = WordSet::one(Word::ZERO);
    }
}
