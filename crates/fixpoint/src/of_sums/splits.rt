//! How the facts at an address are distinguished.

use crate::invariant::Case;
use crate::of_sums::program::SumProgram;
use crate::of_sums::search::SumSearch;
use crate::settings::SETTINGS;
use domain::{Location, ReturnOffsets};
use facts::KnownFact;
use std::alloc::Allocator;
use word12::{Link, Word};
use wordset::{Links, WordSet};

/// By what the facts at an address are distinguished: those of the routines of some entries by the call and by how far the return
/// word was incremented, those of some more by the latter alone, those at some addresses and at the returns of some entries by the
/// link, and all of them by the word of a cell and by that of the accumulator, where there is only one. And some cells of which
/// all facts speak.
#[derive(Clone, Copy)]
pub struct Split {
    called: WordSet,
    skipping: WordSet,
    links: WordSet,
    by_accumulator: bool,
    pub(crate) cell: Option<Word>,
    pub(crate) told: WordSet,
}

/// The one offset of some, if there is one and no other.
fn only_offset(offsets: ReturnOffsets) -> Option<usize> {
    let mut found: Option<usize> = None;
    for offset in 0..64usize {
        if offsets.contains(offset) {
            if found.is_some() {
                return None;
            }
            found = Some(offset);
        }
    }
    found
}

/// The one link of some, if there is one and no other.
fn only_link(links: Links) -> Option<Link> {
    match (links.contains(Link::CLEAR), links.contains(Link::SET)) {
        (true, false) => Some(Link::CLEAR),
        (false, true) => Some(Link::SET),
        _ => None,
    }
}

/// The one site of a fact, if there is one and no other.
fn only_site<F: KnownFact>(known: &F) -> Option<Word> {
    known.sites().only()
}

impl Split {
    /// One fact at an address.
    pub fn none() -> Split {
        Split {
            called: WordSet::empty(),
            skipping: WordSet::empty(),
            links: WordSet::empty(),
            by_accumulator: false,
            cell: None,
            told: WordSet::empty(),
        }
    }

    /// Lets facts of the routines of some entries also be distinguished by the call, if they are not yet.
    pub fn by_calls(&self, entries: &WordSet) -> Option<Split> {
        if entries.is_subset(&self.called) {
            return None;
        }
        let mut split = *self;
        split.called = self.called.union(entries);
        Some(split)
    }

    /// Lets facts of the routines of some entries also be distinguished by how far the return word was incremented, and all facts
    /// by the word of the accumulator.
    pub fn by_offsets_and_accumulator(&self, entries: &WordSet) -> Split {
        let mut split = *self;
        split.skipping = self.skipping.union(entries);
        split.by_accumulator = true;
        split
    }

    /// Lets facts at some addresses and at the returns of some entries also be distinguished by the link.
    pub fn by_links(&self, addresses: &WordSet) -> Split {
        let mut split = *self;
        split.links = self.links.union(addresses);
        split
    }

    /// Lets facts also be distinguished by the word of a cell.
    pub fn by_cell(&self, cell: Word) -> Split {
        let mut split = self.of_cells(&WordSet::one(cell));
        split.cell = Some(cell);
        split
    }

    /// Lets all facts also speak of some cells.
    pub fn of_cells(&self, cells: &WordSet) -> Split {
        let mut split = *self;
        split.told = self.told.union(cells);
        split
    }

    /// Whether the facts of a routine are distinguished by the call.
    fn is_by_call(&self, routine: &Option<Word>) -> bool {
        match routine {
            None => false,
            Some(entry) => self.called.contains(*entry),
        }
    }

    /// Whether the facts of a routine are distinguished by how far the return word was incremented.
    fn is_by_offset(&self, routine: &Option<Word>) -> bool {
        match routine {
            None => false,
            Some(entry) => self.called.contains(*entry) || self.skipping.contains(*entry),
        }
    }

    /// The link of a case at an address, or at the return of an entry.
    fn link_of<F: KnownFact>(&self, at: Word, known: &F) -> Option<Link> {
        if self.links.contains(at) {
            only_link(known.link())
        } else {
            None
        }
    }

    /// The word of a case.
    fn value_of<F: KnownFact>(&self, known: &F) -> Option<Word> {
        let cell = self.cell?;
        let mut set = WordSet::all();
        known.put_set_of(&Location::Cell(cell), &mut set);
        set.only()
    }

    /// The case of a fact at an address, in the body of a routine, if it is not main's; or at the return of an entry.
    pub(crate) fn case_of<F: KnownFact>(
        &self,
        at: Word,
        routine: &Option<Word>,
        known: &F,
    ) -> Case {
        let mut case = Case::ONLY;
        if self.is_by_call(routine) {
            case.site = only_site(known);
        }
        if self.is_by_offset(routine) {
            case.offset = only_offset(known.offsets());
        }
        if self.by_accumulator {
            case.ac = known.accumulator().only();
        }
        case.link = self.link_of(at, known);
        case.value = self.value_of(known);
        case
    }

    /// The case of a fact where the routine of an entry returns by an offset.
    pub(crate) fn case_of_exit<F: KnownFact>(&self, entry: Word, offset: usize, known: &F) -> Case {
        let mut case = self.case_of(entry, &Some(entry), known);
        case.offset = Some(offset);
        case
    }
}

impl<A: Allocator + Copy> SumSearch<A> {
    /// The variables by whose words facts may be distinguished: those that the program tests, or of which something is declared to
    /// hold, and of which some fact says that they hold one of few words, but more than one.
    pub fn distinguishing_variables<D: Allocator>(&self, program: &SumProgram<'_, D>) -> WordSet {
        let mut found = WordSet::empty();
        let cells = program.tested().union(&program.asserted);
        for cell in cells.iter() {
            if self.has_few_words(cell) {
                found.insert(cell);
            }
        }
        found
    }

    /// Whether some fact says that a cell holds one of few words, but more than one.
    fn has_few_words(&self, cell: Word) -> bool {
        for at in self.table.facts.addresses().iter() {
            if self.has_few_words_at(at, cell) {
                return true;
            }
        }
        false
    }

    /// Whether some fact at an address says it.
    fn has_few_words_at(&self, at: Word, cell: Word) -> bool {
        for kept in self.table.facts.row(at) {
            let count = kept.count_of(cell);
            if count > 1 && count <= SETTINGS.most_values {
                return true;
            }
        }
        false
    }
}
