//! Points of a program, and sets of them.

ghost use Rattle.std.specs.Prelude.{ℕ, ◌≡◌, ◌<◌, ◌==◌, ◌&&◌, ◌||◌, not, nat_lt, false, ◌+◌, MatchOption, IfSome};
ghost use Rattle.wordset.specs.Lanes.{words};
ghost use Rattle.wordset.specs.Words.{SameWords};
ghost use Rattle.tape_walk.specs.Points.{HasJust, HasNone, IsFirst, LacksOnly, cells_behind, has, has_cell, is_at, moved};

use word12::Word;
use wordset::WordSet;

/// How many offsets are told apart: a routine that increments its return word more often most likely does so in a loop.
const OFFSETS: usize = 8;

/// A cell of a program, and by how far the running routine's return word has been incremented when control is there.
#[derive(Clone, Copy)]
pub struct ProgramPoint {
    pub at: Word,
    pub offset: usize,
}

impl ProgramPoint {
    /// Another cell with the same offset.
    pub fn to(&self, at: Word) -> ProgramPoint
        ensures { result ≡ moved self.now at }
    {
        ProgramPoint {
            at,
            offset: self.offset,
        }
    }

    /// The next cell with the same offset.
    pub fn next(&self) -> ProgramPoint
        ensures { result ≡ moved self.now (cells_behind self.now.at 1) }
    {
        self.to(self.at.increment())
    }

    /// The cell past the next one with the same offset.
    pub fn past_next(&self) -> ProgramPoint
        ensures { result ≡ moved self.now (cells_behind self.now.at 2) }
    {
        self.next().next()
    }

    /// Whether its offset is one of those that are told apart, at most 7.
    pub fn is_counted(&self) -> bool
        ensures { result ≡ nat_lt self.now.offset 8 }
    {
        self.offset < OFFSETS
    }

    /// The same cell after the return word was incremented once more.
    pub fn incremented(&self) -> ProgramPoint
        ensures at { result.at ≡ self.now.at }
        ensures offset { self.now.offset < 8 → result.offset ≡ self.now.offset + 1 }
        ensures many { nat_lt self.now.offset 8 ≡ false → nat_lt result.offset 8 ≡ false }
    {
        ProgramPoint {
            at: self.at,
            offset: self.offset.saturating_add(1),
        }
    }
}

/// A set of points with offsets of at most 7.
#[derive(Clone, Copy, PartialEq, Eq)]
pub struct PointSet {
    by_offset: [WordSet; OFFSETS],
}

impl PointSet {
    /// The set without points.
    pub fn empty() -> PointSet
        ensures { HasJust result (λ offset at. false) }
    {
        PointSet {
            by_offset: [WordSet::empty(); OFFSETS],
        }
    }

    /// Adds a point. False if it was in the set before, or its offset is above 7.
    pub fn insert(&mut self, point: &ProgramPoint) -> bool
        ensures is_new { result ≡
            (nat_lt point.now.offset 8 && not (has self.old point.now.offset point.now.at)) }
        ensures points { HasJust self.new (λ offset at. has self.old offset at || is_at point.now offset at) }
    {
        if point.offset >= OFFSETS {
            return false;
        }
        let mut cells = self.by_offset[point.offset];
        if cells.contains(point.at) {
            return false;
        }
        cells.insert(point.at);
        self.by_offset[point.offset] = cells;
        true
    }

    /// Adds all points of another set.
    pub fn insert_all(&mut self, other: &PointSet)
        ensures { HasJust self.new (λ offset at. has self.old offset at || has other.now offset at) }
    {
        for offset in 0..OFFSETS {
            let both = self.by_offset[offset].union(&other.by_offset[offset]);
            self.by_offset[offset] = both;
        }
    }

    /// Adds all cells of a set with the offset 0.
    pub fn insert_cells(&mut self, cells: &WordSet)
        ensures { HasJust self.new (λ offset at.
            has self.old offset at || (offset == 0 && words cells.now at)) }
    {
        self.by_offset[0] = self.by_offset[0].union(cells);
    }

    /// Takes out the point with the least offset, and among these the least cell.
    pub fn take_first(&mut self) -> Option<ProgramPoint>
        ensures first { MatchOption result (HasNone self.old) (λ point. IsFirst self.old point) }
        ensures others { IfSome result (λ point. LacksOnly self.old self.new point) }
    {
        let first = self.first()?;
        let mut cells = self.by_offset[first.offset];
        cells.remove(first.at);
        self.by_offset[first.offset] = cells;
        Some(first)
    }

    /// The point with the least offset, and among these with the least cell.
    fn first(&self) -> Option<ProgramPoint>
        ensures { MatchOption result (HasNone self.now) (λ point. IsFirst self.now point) }
    {
        for offset in 0..OFFSETS {
            if let Some(at) = self.by_offset[offset].first_from(0) {
                return Some(ProgramPoint { at, offset });
            }
        }
        None
    }

    /// Takes out a cell with every offset.
    pub fn remove_cell(&mut self, at: Word)
        ensures { HasJust self.new (λ offset cell. has self.old offset cell && not (cell == at)) }
    {
        for offset in 0..OFFSETS {
            let mut cells = self.by_offset[offset];
            cells.remove(at);
            self.by_offset[offset] = cells;
        }
    }

    /// The cells of its points.
    pub fn cells(&self) -> WordSet
        ensures { SameWords (words result) (has_cell self.now) }
    {
        let mut all = WordSet::empty();
        for cells in &self.by_offset {
            all = all.union(cells);
        }
        all
    }

    /// The cells of its points with an offset.
    pub fn cells_with(&self, offset: usize) -> WordSet
        ensures { offset < 8 → words result ≡ has self.now offset }
    {
        self.by_offset
            .get(offset)
            .copied()
            .unwrap_or(WordSet::empty())
    }

    /// The offsets of its points with a cell.
    pub fn offsets_of(&self, at: Word) -> WordSet
        ensures { (offset : ℕ) → offset < 8 → words result offset ≡ has self.now offset at }
    {
        let mut offsets = WordSet::empty();
        for offset in 0..OFFSETS {
            if self.by_offset[offset].contains(at) {
                offsets.insert(Word::from_index(offset));
            }
        }
        offsets
    }
}
