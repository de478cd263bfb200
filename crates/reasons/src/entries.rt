//! How a word changes an entry that it may not change.

use crate::violation::Violation;
use crate::words::written;
use domain::Location;
use instruct::{Instruction, Operation, decode, refers_indirectly, target};
use judge::{Claims, NarrowedPoint};
use std::alloc::Allocator;
use word12::Word;
use wordset::WordSet;

/// How a word changes an entry, except where it counts or moves the running routine's own return word as it
/// may.
pub(crate) fn writes_entry<A: Allocator, C: Claims>(
    point: &NarrowedPoint<'_, A, C>,
    word: Word,
) -> Option<Violation> {
    if point.place.entries_are_kept(point.fact, point.at, word) {
        return None;
    }
    if let Some(breach) = changes_return(point, word) {
        return Some(breach);
    }
    let cells = written(point, word);
    for cell in cells.iter() {
        if point.place.declaration.is_entry(cell) {
            return Some(Violation::WritesEntry(cell));
        }
    }
    None
}

/// The running routine's own entry, if a word is a memory reference that names it, not through a pointer.
fn own_entry_named<A: Allocator, C: Claims>(
    point: &NarrowedPoint<'_, A, C>,
    word: Word,
) -> Option<Word> {
    let declaration = point.place.declaration;
    let is_reference = matches!(decode(word, declaration.profile()), Instruction::Memory);
    if !is_reference || refers_indirectly(word) {
        return None;
    }
    let named = target(word, point.at);
    (point.is_own(named) && declaration.is_entry(named)).then_some(named)
}

/// How a word that names the running routine's own entry changes the return word there, where it may not.
fn changes_return<A: Allocator, C: Claims>(
    point: &NarrowedPoint<'_, A, C>,
    word: Word,
) -> Option<Violation> {
    let entry = own_entry_named(point, word)?;
    match Operation::of(word) {
        Operation::Isz => Some(Violation::CountsTooFar(entry)),
        Operation::Dca => moves_wrongly(point, entry),
        _ => None,
    }
}

/// How a DCA that names the running routine's own entry moves the return word there as it may not.
fn moves_wrongly<A: Allocator, C: Claims>(
    point: &NarrowedPoint<'_, A, C>,
    entry: Word,
) -> Option<Violation> {
    if !point.place.declaration.may_move(entry) {
        return Some(Violation::StoresInOwn(entry));
    }
    let mut known = WordSet::all();
    point
        .place
        .put_words_known(point.fact, &Location::Accumulator, &mut known);
    let (word, site) = first_out_of_reach(point, &known)?;
    Some(Violation::MovesTooFar(entry, word, site))
}

/// A word of some and a site of the fact, where the word is not 0 to 77 past the return address of a call from there.
fn first_out_of_reach<A: Allocator, C: Claims>(
    point: &NarrowedPoint<'_, A, C>,
    known: &WordSet,
) -> Option<(Word, Word)> {
    let mut sites = WordSet::empty();
    point.fact.sites().put(&mut sites);
    for site in sites.iter() {
        if let Some(word) = first_beyond(known, site) {
            return Some((word, site));
        }
    }
    None
}

/// The first of some words that is not 0 to 77 past the return address of a call from an address.
fn first_beyond(known: &WordSet, site: Word) -> Option<Word> {
    for word in known.iter() {
        if !is_in_reach(site, word) {
            return Some(word);
        }
    }
    None
}

/// Whether a word is 0 to 77 past the return address of a call from an address.
fn is_in_reach(site: Word, word: Word) -> bool {
    site.index() < word.index() && word.index() <= site.index() + 64
}
