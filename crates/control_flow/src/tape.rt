//! A tape, with what runs were seen to do.

ghost use Rattle.std.specs.Prelude.{◌≡◌};

use crate::ObservedRuns;
use bin_tape::Image;
use declaration::Owner;
use tape_walk::ProgramPoint;
use word12::Word;
use wordset::WordSet;

/// Where a step was made, and the running routine's entry, if it was not main.
#[derive(Clone, Copy)]
pub(crate) struct Visit {
    pub(crate) entry: Option<Word>,
    pub(crate) spot: ProgramPoint,
}

/// A return: the routine's entry, and by how much its return word was past the return address.
#[derive(Clone, Copy)]
pub(crate) struct SeenReturn {
    pub(crate) entry: Word,
    pub(crate) offset: Word,
}

/// From where steps were made.
#[derive(Clone, Copy)]
pub(crate) struct Visits<'a> {
    /// Each place from which one was made.
    pub(crate) places: &'a [Visit],
    /// By address the routine that ran when one was first made.
    pub(crate) owners: &'a [Option<Owner>],
    /// The returns by offsets of which the words did not tell.
    pub(crate) returns: &'a [SeenReturn],
    pub(crate) seen: ObservedRuns,
}

/// A tape, with what runs were seen to do, if there were runs.
#[derive(Clone, Copy)]
pub struct Tape<'a> {
    pub image: &'a Image,
    pub(crate) visits: Option<Visits<'a>>,
}

/// The offsets of those of some returns that are of the routine of an entry.
fn offsets_of(returns: &[SeenReturn], entry: Word) -> WordSet {
    let mut offsets = WordSet::empty();
    for seen in returns {
        if seen.entry == entry {
            offsets.insert(seen.offset);
        }
    }
    offsets
}

impl<'a> Tape<'a> {
    /// A tape alone, without runs.
    pub fn of(image: &'a Image) -> Tape<'a>
        ensures { result.image.now ≡ image.now }
    {
        Tape {
            image,
            visits: None,
        }
    }

    /// The word for an address, if the tape has one.
    pub(crate) fn get(&self, at: Word) -> Option<Word> {
        self.image.get(at)
    }

    /// In which runs it was seen what the program does, if there were runs.
    pub fn seen(&self) -> Option<ObservedRuns> {
        self.visits.map(|visits| visits.seen)
    }

    /// The offsets by which the routine of an entry was seen to return, though its words do not tell them.
    pub(crate) fn offsets(&self, entry: Word) -> WordSet {
        match self.visits {
            None => WordSet::empty(),
            Some(visits) => offsets_of(visits.returns, entry),
        }
    }

    /// The routine that ran when a step was made from an address, if one was.
    pub(crate) fn owner(&self, at: Word) -> Option<Owner> {
        self.visits?.owners.get(at.index()).copied().flatten()
    }

    /// Whether a cell that is stored in may be taken for code: without runs each, else one from which a
    /// step was made.
    pub(crate) fn may_be_code(&self, at: Word) -> bool {
        self.visits.is_none() || self.owner(at).is_some()
    }

    /// Whether a cell may be in a body: no step was made from it while another routine ran.
    pub(crate) fn may_be_in(&self, body: Owner, at: Word) -> bool {
        match self.owner(at) {
            None => true,
            Some(owner) => owner == body,
        }
    }
}
