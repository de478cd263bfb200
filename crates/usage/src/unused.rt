//! What of a declaration is wider than a certificate needs.

use crate::uses::{Use, used};
use bin_tape::Image;
use certificate::Certificate;
use declaration::Declaration;
use std::alloc::Allocator;
use word12::Word;
use wordset::WordSet;

/// The parts of a declaration that the facts of a certificate do not use.
#[derive(Clone, Copy, Debug)]
pub struct Surplus {
    /// Cells of bodies that are never executed.
    pub unexecuted: WordSet,
    /// Variables that no instruction writes.
    pub unwritten: WordSet,
    /// Cells of the list of reads that no instruction reads; the entry that the instruction's own routine has does not count.
    pub unread: WordSet,
    /// Entries of routines that are never called.
    pub uncalled: WordSet,
    /// Stops and pauses at which no HLT is executed.
    pub unhalted: WordSet,
    /// Places for which calls may be abandoned, and for which none are.
    pub unabandoned: WordSet,
    /// Entries in which their routines may store, and do not.
    pub unmoved: WordSet,
}

/// Whether a declaration says of a cell that it may be used so.
fn may_be_used<D: Allocator>(way: Use, declaration: &Declaration<D>, cell: Word) -> bool {
    match way {
        Use::Execute => declaration.owner_of(cell).is_some(),
        Use::Write => declaration.is_variable(cell),
        Use::Read => match declaration.reads() {
            None => false,
            Some(listed) => listed.contains(cell),
        },
        Use::Call => declaration.is_entry(cell),
        Use::Halt => declaration.is_stop(cell) || declaration.is_pause(cell),
        Use::Abandon => declaration.is_abandon(cell),
        Use::Move => declaration.may_move(cell),
    }
}

/// The cells that may be used so by a declaration and that are not used so by the facts of a certificate.
fn unused<A: Allocator, D: Allocator>(
    way: Use,
    image: &Image,
    declaration: &Declaration<D>,
    certificate: &Certificate<A>,
) -> WordSet {
    let used = used(way, image, declaration, certificate);
    let mut cells = WordSet::empty();
    for index in 0..4096usize {
        let cell = Word::from_index(index);
        if !used.contains(cell) && may_be_used(way, declaration, cell) {
            cells.insert(cell);
        }
    }
    cells
}

/// What of a declaration the facts of a certificate do not use. After a yes no run of the program uses it.
pub fn surplus_of<A: Allocator, D: Allocator>(
    image: &Image,
    declaration: &Declaration<D>,
    certificate: &Certificate<A>,
) -> Surplus {
    Surplus {
        unexecuted: unused(Use::Execute, image, declaration, certificate),
        unwritten: unused(Use::Write, image, declaration, certificate),
        unread: unused(Use::Read, image, declaration, certificate),
        uncalled: unused(Use::Call, image, declaration, certificate),
        unhalted: unused(Use::Halt, image, declaration, certificate),
        unabandoned: unused(Use::Abandon, image, declaration, certificate),
        unmoved: unused(Use::Move, image, declaration, certificate),
    }
}
