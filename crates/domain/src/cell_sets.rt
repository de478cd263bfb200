//! Cells and the words that they may hold.

ghost use Rattle.std.specs.Prelude.{◌≡◌, ◌<◌, ◌≤◌, ◌+◌, ◌++◌, ◌∷◌, ◌↔◌, [], IsTrue, IfSome, length, map, slice_set};
ghost use Rattle.wordset.specs.Words.{all_words, between, meet};
ghost use Rattle.wordset.specs.Lanes.{words};
ghost use Rattle.domain.specs.TrackedCells.{tracked, cell_at};

use crate::brief::BriefSet;
use word12::Word;
use wordset::WordSet;

/// A cell and the words that it may hold.
///
/// Contracts see it as `cell_set_of` gives it.
#[derive(Clone, Copy)]
pub struct CellSet {
    /// The cell's address.
    pub cell: Word,
    /// The words that it may hold.
    pub set: BriefSet,
}

/// At most so many cells with their words, in the order in which they were told. A cell without an entry may hold any word.
///
/// The count stands before the entries, so that nothing lies between it and them: room for them is then made where it stays.
///
/// Contracts see them as the list that `cell_sets_of` gives, or as the words of each cell, `words_in_cells`.
#[derive(Drop)]
pub struct CellSets<const CAP: usize> {
    count: usize,
    entries: [CellSet; CAP],
    ghost few: { count ≤ CAP },
    ghost long: { length entries ≡ CAP },
}

impl CellSet {
    ghost use Rattle.domain.specs.CellsInCode.{cell_set_of};

    /// Keeps those words of a set that all of some entries of a cell allow.
    fn keep_among(entries: &[CellSet], cell: Word, place: &mut WordSet)
        ensures { words place.new ≡ meet (words place.old) (tracked cell (map cell_set_of entries.now)) }
    {
        for entry in entries {
            if entry.cell == cell {
                entry.set.keep(place);
            }
        }
    }
}

impl<const CAP: usize> CellSets<CAP> {
    ghost use Rattle.domain.specs.Brief.{brief_words};
    ghost use Rattle.domain.specs.CellsInCode.{cell_set_of, cell_sets_of, words_in_cells, with_cell, freed, cells_outside, cells_within, IsCellAt};

    /// No cell.
    pub fn new() -> CellSets<CAP>
        ensures { cell_sets_of result ≡ [] }
    {
        CellSets {
            count: 0,
            entries: [CellSet {
                cell: Word::ZERO,
                set: BriefSet::zero(),
            }; CAP],
        }
    }

    /// How many entries there are.
    pub fn len(&self) -> usize
        ensures count { result ≡ length (cell_sets_of self.now) }
        ensures few { result ≤ CAP }
    {
        self.count
    }

    /// Whether there is no room for one more.
    pub fn is_full(&self) -> bool
        ensures { IsTrue result ↔ (length (cell_sets_of self.now) ≡ CAP) }
    {
        self.count == CAP
    }

    /// The entries, in order.
    pub fn as_slice(&self) -> &[CellSet]
        ensures cells { map cell_set_of result.now ≡ cell_sets_of self.now }
        ensures few { length result.now ≤ CAP }
    {
        &self.entries[..self.count]
    }

    /// Takes all away.
    pub fn clear(&mut self)
        ensures { cell_sets_of self.new ≡ [] }
    {
        self.count = 0;
    }

    /// Adds a cell, which may hold the words of a set.
    pub fn push(&mut self, cell: Word, set: &WordSet)
        requires { length (cell_sets_of self.old) < CAP }
        ensures { cell_sets_of self.new ≡
            cell_sets_of self.old ++ record { address = cell; set = words set.now } ∷ [] }
    {
        let place = &mut self.entries[self.count];
        place.cell = cell;
        place.set.set(set);
        self.count += 1;
    }

    /// Adds a cell, which may hold the words from one up to another; none if the second is the lesser.
    pub fn push_row(&mut self, cell: Word, first: Word, last: Word)
        requires { length (cell_sets_of self.old) < CAP }
        ensures { cell_sets_of self.new ≡
            cell_sets_of self.old ++ record { address = cell; set = between first last } ∷ [] }
    {
        let place = &mut self.entries[self.count];
        place.cell = cell;
        place.set.set_row(first, last);
        self.count += 1;
    }

    /// Adds a cell of which only what is needed is written.
    pub fn push_copy(&mut self, entry: &CellSet)
        requires { length (cell_sets_of self.old) < CAP }
        ensures { cell_sets_of self.new ≡ cell_sets_of self.old ++ cell_set_of entry.now ∷ [] }
    {
        let place = &mut self.entries[self.count];
        place.cell = entry.cell;
        place.set.copy_from(&entry.set);
        self.count += 1;
    }

    /// Adds some cells.
    pub fn push_all(&mut self, others: &[CellSet])
        requires { length (cell_sets_of self.old) + length others.now ≤ CAP }
        ensures { cell_sets_of self.new ≡ cell_sets_of self.old ++ map cell_set_of others.now }
    {
        for entry in others {
            self.push_copy(entry);
        }
    }

    /// Adds those of some cells that a set has not.
    pub fn push_outside(&mut self, others: &[CellSet], written: &WordSet)
        requires { length (cell_sets_of self.old) + length others.now ≤ CAP }
        ensures cells { cell_sets_of self.new ≡
            cell_sets_of self.old ++ cells_outside (words written.now) (map cell_set_of others.now) }
        ensures few { length (cell_sets_of self.new) ≤ length (cell_sets_of self.old) + length others.now }
    {
        for entry in others {
            if !written.contains(entry.cell) {
                self.push_copy(entry);
            }
        }
    }

    /// Adds those of some cells that a set has.
    pub fn push_within(&mut self, others: &[CellSet], written: &WordSet)
        requires { length (cell_sets_of self.old) + length others.now ≤ CAP }
        ensures cells { cell_sets_of self.new ≡
            cell_sets_of self.old ++ cells_within (words written.now) (map cell_set_of others.now) }
        ensures few { length (cell_sets_of self.new) ≤ length (cell_sets_of self.old) + length others.now }
    {
        for entry in others {
            if written.contains(entry.cell) {
                self.push_copy(entry);
            }
        }
    }

    /// Puts the words of a cell into a place for them: those that all its entries allow, or all words if it has none.
    pub fn put_set_of(&self, cell: Word, place: &mut WordSet)
        ensures { words place.new ≡ tracked cell (cell_sets_of self.now) }
    {
        *place = WordSet::all();
        CellSet::keep_among(self.as_slice(), cell, place);
    }

    /// The address of the entry at a place.
    fn address(&self, at: usize) -> Word
        requires { at < length (cell_sets_of self.now) }
        ensures { result ≡ (cell_at (cell_sets_of self.now) at).address }
    {
        self.entries[at].cell
    }

    /// Where the first entry of a cell stands, if there is one.
    fn position(&self, cell: Word) -> Option<usize>
        ensures { IfSome result (λ at. IsCellAt cell (cell_sets_of self.now) at) }
    {
        for at in 0..self.len() {
            if self.address(at) == cell {
                return Some(at);
            }
        }
        None
    }

    /// Keeps those words of the entry at a place that a set has.
    fn meet_at(&mut self, at: usize, set: &WordSet)
        requires { at < length (cell_sets_of self.old) }
        ensures { cell_sets_of self.new ≡ slice_set (cell_sets_of self.old) at
            (record (cell_at (cell_sets_of self.old) at) { set = meet (cell_at (cell_sets_of self.old) at).set (words set.now) }) }
    {
        let mut left = self.entries[at].set;
        left.meet(set);
        self.entries[at] = CellSet {
            cell: self.entries[at].cell,
            set: left,
        };
    }

    /// Takes away the entries of a cell.
    fn remove(&mut self, cell: Word)
        ensures words { words_in_cells (cell_sets_of self.new) ≡
            with_cell cell all_words (words_in_cells (cell_sets_of self.old)) }
        ensures few { length (cell_sets_of self.new) ≤ length (cell_sets_of self.old) }
    {
        for at in 0..self.len() {
            self.free_at(at, cell);
        }
    }

    /// Lets the entry at a place allow all words, if it is of a cell.
    fn free_at(&mut self, at: usize, cell: Word)
        requires { at < length (cell_sets_of self.old) }
        ensures { cell_sets_of self.new ≡ slice_set (cell_sets_of self.old) at
            (freed cell (cell_at (cell_sets_of self.old) at)) }
    {
        if self.address(at) == cell {
            self.entries[at] = CellSet {
                cell,
                set: BriefSet::all(),
            };
        }
    }

    /// Keeps those words of a cell that a set has.
    pub fn meet(&mut self, cell: Word, set: &WordSet)
        requires { length (cell_sets_of self.old) < CAP }
        ensures words { words_in_cells (cell_sets_of self.new) ≡
            with_cell cell (meet (words_in_cells (cell_sets_of self.old) cell) (words set.now))
            (words_in_cells (cell_sets_of self.old)) }
        ensures few { length (cell_sets_of self.new) ≤ length (cell_sets_of self.old) + 1 }
    {
        match self.position(cell) {
            Some(at) => self.meet_at(at, set),
            None => self.push(cell, set),
        }
    }

    /// Lets a cell hold the words of a set.
    pub fn replace(&mut self, cell: Word, set: &WordSet)
        requires { length (cell_sets_of self.old) < CAP }
        ensures words { words_in_cells (cell_sets_of self.new) ≡
            with_cell cell (words set.now) (words_in_cells (cell_sets_of self.old)) }
        ensures few { length (cell_sets_of self.new) ≤ length (cell_sets_of self.old) + 1 }
    {
        self.remove(cell);
        self.meet(cell, set);
    }
}
