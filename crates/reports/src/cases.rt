//! What tells the facts at an address apart.

ghost use Rattle.std.specs.Prelude.{◌≡◌, length};
ghost use Rattle.certificate_lines.specs.CertificateInCode.{claims};

use crate::known_fact::{KnownFact, Subject};
use bin_tape::Image;
use certificate::Certificate;
use std::alloc::Allocator;
use word12::Word;
use wordset::WordSet;

/// By what the facts at an address differ.
#[derive(Clone, Copy)]
pub(crate) struct FactDifferences {
    /// By the sites from which the routine was called.
    pub(crate) sites: bool,
    /// By how far the return word was incremented.
    pub(crate) offsets: bool,
    /// By the link.
    pub(crate) link: bool,
    /// By the words of a cell or of the accumulator.
    pub(crate) name: Option<Subject>,
}

/// The names by which facts were found to differ.
#[derive(Clone, Copy)]
struct Names {
    /// The accumulator.
    accumulator: bool,
    /// Cells.
    cells: WordSet,
    /// Cells that hold one word each in all facts.
    single: WordSet,
}

impl Names {
    /// The names of one fact alone, which differs by none.
    fn of(first: &KnownFact) -> Names {
        let mut single = WordSet::empty();
        for cell in first.cells.iter() {
            if first.words_of(&Subject::Cell(cell)).only().is_some() {
                single.insert(cell);
            }
        }
        Names {
            accumulator: false,
            cells: WordSet::empty(),
            single,
        }
    }

    /// Adds those names by which another fact differs from the first.
    fn add(&mut self, first: &KnownFact, other: &KnownFact) {
        self.accumulator |= first.fact.accumulator() != other.fact.accumulator();
        for cell in first.cells.union(&other.cells).iter() {
            let set = other.words_of(&Subject::Cell(cell));
            if first.words_of(&Subject::Cell(cell)) != set {
                self.cells.insert(cell);
            }
            if set.only().is_none() {
                self.single.remove(cell);
            }
        }
    }

    /// The name that tells most about which of the facts holds: a cell that holds one word in each; if there is none and
    /// they do not differ otherwise, another cell, or the accumulator.
    fn chosen(&self, differ: bool) -> Option<Subject> {
        if let Some(cell) = self.cells.meet(&self.single).least() {
            return Some(Subject::Cell(cell));
        }
        if differ {
            return None;
        }
        match self.cells.least() {
            Some(cell) => Some(Subject::Cell(cell)),
            None if self.accumulator => Some(Subject::Accumulator),
            None => None,
        }
    }
}

impl FactDifferences {
    /// Nothing is to be distinguished.
    pub(crate) fn by_nothing() -> FactDifferences {
        FactDifferences {
            sites: false,
            offsets: false,
            link: false,
            name: None,
        }
    }

    /// Adds that by which another fact differs from the first, names apart.
    fn add(&mut self, first: &KnownFact, other: &KnownFact) {
        self.sites |= first.sites() != other.sites();
        self.offsets |= first.offsets() != other.offsets();
        self.link |= first.fact.link() != other.fact.link();
    }

    /// By what the facts at an address differ. `sites` are those of the routine in whose body they are, and two facts are
    /// lent.
    pub(crate) fn of<C: Allocator>(
        image: &Image,
        certificate: &Certificate<C>,
        sites: &WordSet,
        at: Word,
        count: usize,
        first: &mut KnownFact,
        other: &mut KnownFact,
    ) -> FactDifferences
        requires { count ≡ length ((claims certificate.now).facts at) }
    {
        let mut apart = FactDifferences::by_nothing();
        if count == 0 {
            return apart;
        }
        first.read(image, certificate, sites, at, 0);
        let mut names = Names::of(first);
        for index in 1..count {
            other.read(image, certificate, sites, at, index);
            apart.add(first, other);
            names.add(first, other);
        }
        apart.name = names.chosen(apart.sites || apart.offsets || apart.link);
        apart
    }

    /// By which subjects facts are distinguished.
    pub(crate) fn subjects(&self) -> [Option<Subject>; 4] {
        [
            self.sites.then_some(Subject::Sites),
            self.offsets.then_some(Subject::Offsets),
            self.name,
            self.link.then_some(Subject::Link),
        ]
    }

    /// Whether facts are distinguished by a subject.
    pub(crate) fn is_by(&self, subject: &Subject) -> bool {
        self.subjects().contains(&Some(*subject))
    }

    /// Whether facts are distinguished by something.
    pub(crate) fn is_told(&self) -> bool {
        self.sites || self.offsets || self.link || self.name.is_some()
    }
}
