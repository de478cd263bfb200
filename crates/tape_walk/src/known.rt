//! What a walk knows of the cells of a program.

ghost use Rattle.std.specs.Prelude.{◌≡◌, ◌&&◌, ◌||◌, false, nat_lt, not};
ghost use Rattle.wordset.specs.Lanes.{words};
ghost use Rattle.wordset.specs.Words.{nothing};
ghost use Rattle.tape_walk.specs.Known.{address_told, may_change};
ghost use Rattle.tape_walk.specs.Points.{HasJust, has, is_at, moved};

use crate::effect::MemoryReference;
use crate::points::{PointSet, ProgramPoint};
use bin_tape::Image;
use processor::is_auto_index;
use word12::Word;
use wordset::WordSet;

/// What a walk knows of the cells of a program: which are entries of routines, by which offsets these return, and in which cells
/// the program stores.
#[derive(Clone, Copy, PartialEq, Eq)]
pub struct KnownCells {
    /// The cells that JMS goes to.
    pub entries: WordSet,
    /// The cells in which the program stores.
    pub stored: WordSet,
    /// The entries, with the offsets by which their routines may return.
    pub returns: PointSet,
}

impl KnownCells {
    /// Nothing is known.
    pub fn none() -> KnownCells
        ensures entries { words result.entries ≡ nothing }
        ensures stored { words result.stored ≡ nothing }
        ensures returns { HasJust result.returns (λ offset entry. false) }
    {
        KnownCells {
            entries: WordSet::empty(),
            stored: WordSet::empty(),
            returns: PointSet::empty(),
        }
    }

    /// Whether the word of a cell may become another one than it is on the tape: an indirect reference steps it, a JMS keeps a
    /// return address in it, or the program stores in it.
    pub fn may_change(&self, cell: Word) -> bool
        ensures { result ≡ may_change self.now cell }
    {
        is_auto_index(cell) || self.stored.contains(cell) || self.entries.contains(cell)
    }

    /// The address that a memory reference refers to, if the words of a tape tell: the cell that it names, or the word of a pointer
    /// that does not change.
    pub fn address(&self, image: &Image, reference: &MemoryReference) -> Option<Word>
        ensures { result ≡ address_told self.now image.now reference.now }
    {
        if !reference.is_indirect {
            Some(reference.named)
        } else if self.may_change(reference.named) {
            None
        } else {
            image.get(reference.named)
        }
    }

    /// Notes that the routine of an entry may return by the offset of a point. False if that was known.
    pub fn note_return(&mut self, entry: Word, point: &ProgramPoint) -> bool
        ensures is_new { result ≡
            (nat_lt point.now.offset 8 && not (has self.old.returns point.now.offset entry)) }
        ensures returns { HasJust self.new.returns (λ offset at.
            has self.old.returns offset at || is_at (moved point.now entry) offset at) }
        ensures entries { self.new.entries ≡ self.old.entries }
        ensures stored { self.new.stored ≡ self.old.stored }
    {
        self.returns.insert(&point.to(entry))
    }
}
