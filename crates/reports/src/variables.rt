//! Which words variables may hold, as far as the facts of a certificate tell.

use crate::known_fact::{KnownFact, Subject};
use crate::report::{claimed_of, unclaimed};
use bin_tape::Image;
use certificate::Certificate;
use certificate_lines::RoutineClaim;
use declaration::{Declaration, Owner};
use judge::Claims;
use std::alloc::{AllocError, Allocator};
use std::collections::BTreeMap;
use word12::Word;
use wordset::WordSet;

/// What is known about a variable.
#[derive(Clone, Copy)]
pub(crate) struct VariableSummary {
    /// The words that it may hold wherever something is known about it.
    pub(crate) words: WordSet,
    /// The addresses at which something is known about it.
    pub(crate) known_at: WordSet,
}

/// What is known about variables, by their addresses.
pub(crate) type VariableSummaries<A> = BTreeMap<usize, VariableSummary, A>;

/// Adds what a fact says about variables: which words they may hold.
fn add_fact<A: Allocator + Copy, D: Allocator>(
    held: &mut VariableSummaries<A>,
    declaration: &Declaration<D>,
    known: &KnownFact,
) -> Result<(), AllocError> {
    for cell in known.cells.meet(declaration.variables()).iter() {
        let nothing = VariableSummary {
            words: WordSet::empty(),
            known_at: WordSet::empty(),
        };
        let words = known.words_of(&Subject::Cell(cell));
        let summary = held.entry(cell.index())?.or_insert(nothing);
        summary.words = summary.words.union(&words);
    }
    Ok(())
}

/// Adds what the facts at an address say about variables, and tells whether there are any. Something is known about a cell there if each
/// of them says it. One fact is lent.
fn add_facts<A: Allocator + Copy, D: Allocator, C: Allocator>(
    held: &mut VariableSummaries<A>,
    image: &Image,
    declaration: &Declaration<D>,
    certificate: &Certificate<C>,
    at: Word,
    known: &mut KnownFact,
) -> Result<bool, AllocError> {
    let count = certificate.count_facts(at, 0);
    let sites = claimed_at(declaration, certificate, at).sites;
    let mut cells = WordSet::all();
    for index in 0..count {
        known.read(image, certificate, &sites, at, index);
        add_fact(held, declaration, known)?;
        cells = cells.meet(&known.cells);
    }
    if count > 0 {
        know(held, &cells, at);
    }
    Ok(count > 0)
}

/// Adds that something is known about some cells at an address.
fn know<A: Allocator>(held: &mut VariableSummaries<A>, cells: &WordSet, at: Word) {
    for cell in cells.iter() {
        if let Some(summary) = held.get_mut(&cell.index()) {
            summary.known_at.insert(at);
        }
    }
}

/// What is claimed about the routine in whose body an address is; of main nothing is.
fn claimed_at<D: Allocator, C: Allocator>(
    declaration: &Declaration<D>,
    certificate: &Certificate<C>,
    at: Word,
) -> RoutineClaim {
    let Some(owner) = declaration.owner_of(at) else {
        return unclaimed();
    };
    match owner {
        Owner::Main => unclaimed(),
        Owner::Routine(entry) => claimed_of(certificate, entry),
    }
}

/// What is known about variables, and the addresses with a fact, which are added to others.
pub(crate) fn held_of<A: Allocator + Copy, D: Allocator, C: Allocator>(
    alloc: A,
    image: &Image,
    declaration: &Declaration<D>,
    certificate: &Certificate<C>,
    facts: &mut WordSet,
) -> Result<VariableSummaries<A>, AllocError> {
    let mut held = BTreeMap::new(alloc);
    let mut known = Box::new(alloc, KnownFact::new())?;
    for index in 0..4096 {
        let at = Word::from_index(index);
        if add_facts(&mut held, image, declaration, certificate, at, &mut known)? {
            facts.insert(at);
        }
    }
    Ok(held)
}
