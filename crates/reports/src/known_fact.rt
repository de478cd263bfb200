//! A fact as a report shows it.

ghost use Rattle.std.specs.Prelude.{◌<◌, length};
ghost use Rattle.certificate_lines.specs.CertificateInCode.{claims};

use crate::fact_context::FactContext;
use bin_tape::Image;
use certificate::Certificate;
use domain::{Chain, Location, Relation, Rules};
use facts::{Fact, NarrowedFact};
use judge::{Claims, put_asked, put_sites};
use std::alloc::Allocator;
use word12::{Link, Word};
use wordset::WordSet;

/// Of what a fact says which words it may be.
#[derive(Clone, Copy, PartialEq)]
pub(crate) enum Subject {
    /// The accumulator.
    Accumulator,
    /// MQ.
    Mq,
    /// The link.
    Link,
    /// A cell.
    Cell(Word),
    /// By how much the return word was incremented.
    Offsets,
    /// The sites from which the running routine may have been called.
    Sites,
}

/// A fact as it is claimed, and as conditions are checked for it.
#[derive(Drop)]
pub(crate) struct KnownFact {
    /// What is claimed, with the sites of its routine where the claim has none of its own.
    claimed: Fact,
    /// The same, narrowed where the rules of the certificate narrow it.
    pub(crate) fact: NarrowedFact,
    /// The cells about which something is said.
    pub(crate) cells: WordSet,
    /// Whether some state may satisfy it.
    pub(crate) is_possible: bool,
}

/// The words that a cell may hold by a fact.
fn words_in_cell(fact: &NarrowedFact, cell: Word) -> WordSet {
    let mut set = WordSet::empty();
    fact.put_set_of(&Location::Cell(cell), &mut set);
    set
}

/// The cells about which something is to be said: by the rules of equations each cell that the fact tells, else each of these
/// that may not hold any word.
fn cells_of(rules: Rules, fact: &NarrowedFact) -> WordSet {
    let mut cells = WordSet::empty();
    for entry in fact.told_cells() {
        let is_told = match rules {
            Rules::OfEquations => true,
            Rules::OfSums => !words_in_cell(fact, entry.cell).is_all(),
        };
        if is_told {
            cells.insert(entry.cell);
        }
    }
    cells
}

impl KnownFact {
    /// A fact that says nothing.
    pub(crate) fn new() -> KnownFact {
        KnownFact {
            claimed: Fact::any(),
            fact: NarrowedFact::any(),
            cells: WordSet::empty(),
            is_possible: true,
        }
    }

    /// Reads one of the facts at an address. `sites` are those of the routine in whose body it is.
    pub(crate) fn read<C: Allocator>(
        &mut self,
        image: &Image,
        certificate: &Certificate<C>,
        sites: &WordSet,
        at: Word,
        index: usize,
    )
        requires { index < length ((claims certificate.now).facts at) }
    {
        let rules = certificate.rules();
        let _line = certificate.put_fact(at, 0, index, &mut self.claimed);
        put_sites(&rules, sites, &mut self.claimed);
        self.is_possible = put_asked(&rules, image, &self.claimed, &mut self.fact);
        self.cells = cells_of(rules, &self.fact);
    }

    /// Reads one of the exits of a routine for an offset, as it is claimed. `sites` are those of the routine.
    pub(crate) fn read_exit<C: Allocator>(
        &mut self,
        certificate: &Certificate<C>,
        sites: &WordSet,
        entry: Word,
        offset: usize,
        index: usize,
    )
        requires offset { offset < 64 }
        requires index { index < length ((claims certificate.now).exits entry offset) }
    {
        let rules = certificate.rules();
        certificate.put_exit(entry, offset, index, &mut self.claimed);
        put_sites(&rules, sites, &mut self.claimed);
        self.claimed.is_within_room();
        self.fact.copy_from(&self.claimed);
        self.is_possible = true;
        self.cells = cells_of(rules, &self.fact);
    }

    /// The relations that are claimed.
    pub(crate) fn relations(&self) -> &[Relation] {
        self.claimed.relations().as_slice()
    }

    /// The chains that are claimed.
    pub(crate) fn chains(&self) -> &[Chain] {
        self.claimed.chains()
    }

    /// The words of a subject by what conditions are checked for.
    pub(crate) fn words_of(&self, subject: &Subject) -> WordSet {
        match subject {
            Subject::Accumulator => *self.fact.accumulator(),
            Subject::Mq => *self.fact.mq(),
            Subject::Link => self.links(),
            Subject::Cell(cell) => words_in_cell(&self.fact, *cell),
            Subject::Offsets => self.offsets(),
            Subject::Sites => self.sites(),
        }
    }

    /// The words that all that is known leaves to a name.
    pub(crate) fn narrowed(&self, setting: &FactContext<'_>, name: &Location) -> WordSet {
        let mut set = WordSet::empty();
        self.fact
            .put_words_by(&setting.rules, setting.image, name, &mut set);
        set
    }

    /// The words that the link may be.
    fn links(&self) -> WordSet {
        let mut set = WordSet::empty();
        if self.fact.link().contains(Link::CLEAR) {
            set.insert(Word::ZERO);
        }
        if self.fact.link().contains(Link::SET) {
            set.insert(Word::from_index(1));
        }
        set
    }

    /// By how much the return word may have been incremented.
    pub(crate) fn offsets(&self) -> WordSet {
        let mut set = WordSet::empty();
        for offset in 0..64usize {
            if self.fact.offsets().contains(offset) {
                set.insert(Word::from_index(offset));
            }
        }
        set
    }

    /// The sites from which the running routine may have been called.
    pub(crate) fn sites(&self) -> WordSet {
        let mut set = WordSet::empty();
        self.fact.sites().put(&mut set);
        set
    }
}
