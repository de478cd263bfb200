//! What is asked of a fact that may entail others.

ghost use Rattle.std.specs.Prelude.{◌≡◌, IsTrue, map, ℕ};
ghost use Rattle.wordset.specs.Words.{IsWithin};
ghost use Rattle.wordset.specs.Lanes.{words};
ghost use Rattle.wordset.specs.Links.{links_of};
ghost use Rattle.peripherals.specs.Loading.{image_of};
ghost use Rattle.domain.specs.Locations.{Ac, Cell};
ghost use Rattle.domain.specs.LocationsInCode.{location_of};
ghost use Rattle.domain.specs.TrackedCells.{tracked};
ghost use Rattle.domain.specs.Adding.{set_of_sum};
ghost use Rattle.domain.specs.Brief.{brief_words};
ghost use Rattle.domain.specs.CellsInCode.{cell_set_of};
ghost use Rattle.domain.specs.ChainsInCode.{chain_of};
ghost use Rattle.domain.specs.FactInCode.{fact_in_code};
ghost use Rattle.domain.specs.Facts as said;
ghost use Rattle.domain.specs.InCode.{sum_of};
ghost use Rattle.domain.specs.Knowing.{said_of};
ghost use Rattle.domain.specs.Narrowing.{narrowed};
ghost use Rattle.domain.specs.Offsets.{offsets_in};
ghost use Rattle.domain.specs.RelationsInCode.{relation_of};

use bin_tape::Image;
use domain::{BriefSet, CellSet, Chain, Location, Relation, ReturnOffsets, Sum, SumFact};
use word12::Word;
use wordset::{Links, WordSet};

/// Whether an entry is of a cell and has no word outside a set.
fn is_within_of(entry: &CellSet, cell: Word, set: &BriefSet) -> bool
    ensures { IsTrue result →
        (entry.now.cell ≡ cell) × IsWithin (brief_words entry.now.set) (brief_words set.now) }
{
    if entry.cell != cell {
        return false;
    }
    entry.set.is_subset(set)
}

/// Whether an entry of a cell shows that the cell has no word outside a set.
fn shows_within(cells: &[CellSet], cell: Word, set: &BriefSet) -> bool
    ensures { IsTrue result → IsWithin (tracked cell (map cell_set_of cells.now)) (brief_words set.now) }
{
    for entry in cells {
        if is_within_of(entry, cell, set) {
            return true;
        }
    }
    false
}

/// Whether the entry at a place is of a cell and shows that the cell has no word outside a set.
fn shows_within_at(cells: &[CellSet], at: usize, cell: Word, set: &BriefSet) -> bool
    ensures { IsTrue result → IsWithin (tracked cell (map cell_set_of cells.now)) (brief_words set.now) }
{
    if at >= cells.len() {
        return false;
    }
    is_within_of(&cells[at], cell, set)
}

/// A fact that may entail others: one in room for facts, or that of all starts.
pub trait KnownFact {
    /// The fact that is meant.
    ghost known: { Self → said.Fact };

    /// The words that the accumulator may hold.
    fn accumulator(&self) -> &WordSet
        ensures { words result.now ≡ (known self.now).set Ac };

    /// The words that MQ may hold.
    fn mq(&self) -> &WordSet
        ensures { words result.now ≡ (known self.now).mq };

    /// What the link may be.
    fn link(&self) -> Links
        ensures { links_of result ≡ (known self.now).link };

    /// The sites from which the running routine may have been called.
    fn sites(&self) -> &BriefSet
        ensures { brief_words result.now ≡ (known self.now).sites };

    /// How far the running routine's return word may have been incremented.
    fn offsets(&self) -> ReturnOffsets
        ensures { offsets_in result ≡ (known self.now).offsets };

    /// The relations.
    fn relations(&self) -> &[Relation]
        ensures { map relation_of result.now ≡ (known self.now).relations };

    /// The chains.
    fn chains(&self) -> &[Chain]
        ensures { map chain_of result.now ≡ (known self.now).chains };

    /// Whether the entry at a place is of a cell and shows that the cell has no word outside a set. Facts of neighbours mostly
    /// tell of the same cells in the same order.
    fn has_within_at(&self, at: usize, cell: Word, set: &BriefSet) -> bool
        ensures { IsTrue result → IsWithin ((known self.now).set (Cell cell)) (brief_words set.now) };

    /// Whether it is seen at once that a cell has no word outside a set.
    fn has_plainly_within(&self, cell: Word, set: &BriefSet) -> bool
        ensures { IsTrue result → IsWithin ((known self.now).set (Cell cell)) (brief_words set.now) };

    /// Puts the words that a name may hold into a place for them.
    fn put_set_of(&self, name: &Location, place: &mut WordSet)
        ensures { words place.new ≡ (known self.now).set (location_of name.now) };

    /// Puts the words that narrowing leaves to a name into a place for them.
    fn put_narrowed(&self, image: &Image, name: &Location, place: &mut WordSet)
        ensures { words place.new ≡ (narrowed (image_of image.now) (known self.now)).set (location_of name.now) };

    /// Puts the set that the fact gives for a sum into a place for it.
    fn put_set_of_sum(&self, sum: &Sum, place: &mut WordSet)
        ensures { words place.new ≡ set_of_sum (known self.now) (sum_of sum.now) };

    /// Puts what the fact says of a sum into a place for it.
    fn put_said_of(&self, image: &Image, sum: &Sum, place: &mut WordSet)
        ensures { words place.new ≡ said_of (image_of image.now) (known self.now) (sum_of sum.now) };
}

impl<const C: usize, const R: usize> KnownFact for SumFact<C, R> {
    ghost known = { fact_in_code };

    fn accumulator(&self) -> &WordSet {
        self.accumulator()
    }

    fn mq(&self) -> &WordSet {
        self.mq()
    }

    fn link(&self) -> Links {
        self.link()
    }

    fn sites(&self) -> &BriefSet {
        self.sites()
    }

    fn offsets(&self) -> ReturnOffsets {
        self.offsets()
    }

    fn relations(&self) -> &[Relation] {
        self.relations().as_slice()
    }

    fn chains(&self) -> &[Chain] {
        self.chains()
    }

    fn has_within_at(&self, at: usize, cell: Word, set: &BriefSet) -> bool {
        shows_within_at(self.cells().as_slice(), at, cell, set)
    }

    fn has_plainly_within(&self, cell: Word, set: &BriefSet) -> bool {
        shows_within(self.cells().as_slice(), cell, set)
    }

    fn put_set_of(&self, name: &Location, place: &mut WordSet) {
        self.put_set_of(name, place);
    }

    fn put_narrowed(&self, image: &Image, name: &Location, place: &mut WordSet) {
        self.put_narrowed(image, name, place);
    }

    fn put_set_of_sum(&self, sum: &Sum, place: &mut WordSet) {
        self.put_set_of_sum(sum, place);
    }

    fn put_said_of(&self, image: &Image, sum: &Sum, place: &mut WordSet) {
        self.put_said_of(image, sum, place);
    }
}
