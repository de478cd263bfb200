//! What a report is made of.

ghost use Rattle.std.specs.Prelude.{◌≡◌, IfOk};

use crate::fact_context::FactContext;
use crate::source_notes::{SourceNote, SourceNotes};
use crate::variables::{VariableSummaries, VariableSummary, held_of};
use bin_tape::Image;
use certificate::Certificate;
use certificate_lines::RoutineClaim;
use declaration::{Declaration, Owner};
use facts::Place;
use judge::Claims;
use std::alloc::{AllocError, Allocator};
use word12::Word;
use wordset::WordSet;

/// What stands at an address.
#[derive(Clone, Copy, PartialEq)]
pub(crate) enum CellKind {
    /// The entry of a routine.
    Entry,
    /// A cell of main's body.
    Main,
    /// A cell of the body of the routine with this entry.
    Routine(Word),
    /// A variable outside all bodies.
    Variable,
    /// Another word of the tape.
    Other,
    /// Nothing.
    Unset,
}

/// What is known about a certificate.
#[derive(Clone, Copy)]
pub enum Finding {
    /// All conditions hold for it.
    Shown,
    /// A condition on it fails at an address.
    Refused(Word),
    /// It is the draft of a search that is stuck at an address.
    Stuck(Word),
}

/// A certificate with the tape and the declaration that it is about, and what is known about it.
#[derive(Drop)]
pub struct Report<'a, A: Allocator, D: Allocator, C: Allocator> {
    pub(crate) image: &'a Image,
    pub(crate) declaration: &'a Declaration<D>,
    pub(crate) certificate: &'a Certificate<C>,
    pub(crate) finding: Finding,
    /// The name of the condition that fails, or nothing if none is told.
    pub(crate) failing: &'a str,
    /// What is said about the files of the program, or nothing.
    pub(crate) files: &'a [u8],
    /// What the source says about addresses, where one is known.
    pub(crate) notes: Option<&'a SourceNotes<A>>,
    /// The addresses with a fact.
    pub(crate) facts: WordSet,
    /// What is known about variables.
    pub(crate) held: VariableSummaries<A>,
}

/// A routine of rank 0 that is called from nowhere and writes nothing, as nothing is claimed about it.
pub(crate) fn unclaimed() -> RoutineClaim {
    RoutineClaim {
        rank: 0,
        sites: WordSet::empty(),
        writes: WordSet::empty(),
    }
}

/// What is claimed about a routine, or that it is called from nowhere and writes nothing.
pub(crate) fn claimed_of<C: Claims>(certificate: &C, entry: Word) -> RoutineClaim {
    match certificate.routine(entry) {
        Some(routine) => routine,
        None => unclaimed(),
    }
}

/// What is claimed about the routine in whose body an address of this kind is; nothing if it is in none, or in main's.
pub(crate) fn claimed_in<C: Claims>(certificate: &C, kind: &CellKind) -> RoutineClaim {
    match kind {
        CellKind::Routine(entry) => claimed_of(certificate, *entry),
        _ => unclaimed(),
    }
}

impl<'a, A: Allocator + Copy, D: Allocator, C: Allocator> Report<'a, A, D, C> {
    /// The report of a certificate and of what is known about it, with the name of the condition that fails, if one
    /// is told, a line on the files of the program, if they have names, and what the source says about addresses, if it
    /// is known.
    ///
    /// # Errors
    ///
    /// Memory was refused.
    pub fn new(
        alloc: A,
        image: &'a Image,
        declaration: &'a Declaration<D>,
        certificate: &'a Certificate<C>,
        finding: Finding,
        failing: &'a str,
        files: &'a [u8],
        notes: Option<&'a SourceNotes<A>>,
    ) -> Result<Report<'a, A, D, C>, AllocError>
        ensures finding { IfOk result (λ report. report.finding ≡ finding) }
        ensures failing { IfOk result (λ report. report.failing.now ≡ failing.now) }
        ensures program { IfOk result (λ report.
            (report.image.now ≡ image.now) × (report.declaration.now ≡ declaration.now)) }
        ensures certificate { IfOk result (λ report. report.certificate.now ≡ certificate.now) }
    {
        let mut facts = WordSet::empty();
        let held = held_of(alloc, image, declaration, certificate, &mut facts)?;
        Ok(Report {
            image,
            declaration,
            certificate,
            finding,
            failing,
            files,
            notes,
            facts,
            held,
        })
    }
}

impl<A: Allocator, D: Allocator, C: Allocator> Report<'_, A, D, C> {
    /// What stands at an address outside all bodies, which is not an entry.
    fn kind_outside(&self, at: Word) -> CellKind {
        if self.declaration.is_variable(at) {
            CellKind::Variable
        } else if self.image.get(at).is_some() {
            CellKind::Other
        } else {
            CellKind::Unset
        }
    }

    /// What stands at an address.
    pub(crate) fn kind_of(&self, at: Word) -> CellKind {
        if self.declaration.is_entry(at) {
            return CellKind::Entry;
        }
        let Some(owner) = self.declaration.owner_of(at) else {
            return self.kind_outside(at);
        };
        match owner {
            Owner::Main => CellKind::Main,
            Owner::Routine(entry) => CellKind::Routine(entry),
        }
    }

    /// What the source says about an address; nothing if it is not known.
    pub(crate) fn note_at(&self, at: Word) -> Option<SourceNote<'_>> {
        self.notes?.at(at)
    }

    /// What is known about a variable, if something is.
    pub(crate) fn held_in(&self, cell: Word) -> Option<&VariableSummary> {
        self.held.get(&cell.index())
    }

    /// Whether nothing is to be said about a cell but that it is a variable.
    pub(crate) fn is_quiet(&self, at: Word) -> bool {
        if self.image.get(at).is_some() || self.facts.contains(at) || self.is_marked(at) {
            return false;
        }
        self.kind_of(at) == CellKind::Variable && self.held_in(at).is_none()
    }

    /// Whether the listing has a line for an address: where something stands, or at the place of a no,
    /// unless it is in a row of variables of which nothing is said.
    pub(crate) fn has_line(&self, at: Word) -> bool {
        if self.kind_of(at) == CellKind::Unset {
            return self.facts.contains(at) || self.is_marked(at);
        }
        at == Word::ZERO || !self.is_quiet(at) || !self.is_quiet(before(at))
    }

    /// The addresses with a line of the listing.
    pub(crate) fn lines(&self) -> WordSet {
        let mut lines = WordSet::empty();
        for index in 0..4096 {
            let at = Word::from_index(index);
            if self.has_line(at) {
                lines.insert(at);
            }
        }
        lines
    }

    /// Whether the word at an address is told as an instruction: in a body, or where there is a fact.
    pub(crate) fn is_code(&self, at: Word) -> bool {
        matches!(self.kind_of(at), CellKind::Main | CellKind::Routine(_)) || self.facts.contains(at)
    }

    /// Whether a run begins at an address.
    pub(crate) fn is_start(&self, at: Word) -> bool {
        self.declaration.start() == at
    }

    /// Whether an address is that at which the verdict is no or the search is stuck.
    pub(crate) fn is_marked(&self, at: Word) -> bool {
        match self.finding {
            Finding::Shown => false,
            Finding::Refused(place) | Finding::Stuck(place) => place == at,
        }
    }

    /// The place of the facts at an address of this kind.
    pub(crate) fn place_in(&self, kind: &CellKind) -> Place<'_, D> {
        Place {
            image: self.image,
            declaration: self.declaration,
            routine: match kind {
                CellKind::Routine(entry) => Some(*entry),
                _ => None,
            },
            rules: self.certificate.rules(),
        }
    }

    /// Where the facts of a routine, or of main, stand. `claimed` is what is claimed about the routine.
    pub(crate) fn setting_of(&self, claimed: &RoutineClaim) -> FactContext<'_> {
        FactContext {
            image: self.image,
            rules: self.certificate.rules(),
            profile: self.declaration.profile(),
            sites: claimed.sites,
        }
    }
}

/// The address before another one.
pub(crate) fn before(at: Word) -> Word {
    at.add(Word::from_index(4095))
}
