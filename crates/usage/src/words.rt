//! What one word at the address of a fact does beside reading, writing and calling.

use facts::{Location, NarrowedFact, Place};
use instruct::{Instruction, Operation, decode, halts, refers_indirectly, target};
use processor::is_auto_index;
use std::alloc::Allocator;
use word12::Word;
use wordset::WordSet;

/// The address of a word, if it is a HLT.
pub(crate) fn halted<D: Allocator>(place: &Place<'_, D>, at: Word, word: Word) -> WordSet {
    let instruction = decode(word, place.declaration.profile());
    if matches!(instruction, Instruction::Operate2) && halts(word) {
        return WordSet::one(at);
    }
    WordSet::empty()
}

/// Whether a word is a DCA that names a cell, not through a pointer.
fn stores_by_name<D: Allocator>(place: &Place<'_, D>, word: Word) -> bool {
    let instruction = decode(word, place.declaration.profile());
    matches!(instruction, Instruction::Memory)
        && matches!(Operation::of(word), Operation::Dca)
        && !refers_indirectly(word)
}

/// The running routine's own entry, if a word is a DCA that names it.
pub(crate) fn moved<D: Allocator>(place: &Place<'_, D>, at: Word, word: Word) -> WordSet {
    let named = target(word, at);
    if stores_by_name(place, word) && place.is_own(named) {
        return WordSet::one(named);
    }
    WordSet::empty()
}

/// Whether a JMP is a return: through a pointer, which is an entry.
fn returns<D: Allocator>(place: &Place<'_, D>, indirect: bool, named: Word) -> bool {
    indirect && (place.declaration.is_entry(named) || place.is_own(named))
}

/// The cells to which a JMP may go that is not a return.
fn jumped<D: Allocator>(
    place: &Place<'_, D>,
    fact: &NarrowedFact,
    indirect: bool,
    named: Word,
) -> WordSet {
    if !indirect {
        return WordSet::one(named);
    }
    let mut cells = WordSet::empty();
    if is_auto_index(named) {
        place.put_words_known(fact, &Location::Cell(named), &mut cells);
        return cells.shift(Word::ZERO.increment());
    }
    place.put_possible(fact, named, &mut cells);
    cells
}

/// The cells to which a JMP in a routine may go by a fact and for which calls may be abandoned.
pub(crate) fn abandoned<D: Allocator>(
    place: &Place<'_, D>,
    fact: &NarrowedFact,
    at: Word,
    word: Word,
) -> WordSet {
    let indirect = refers_indirectly(word);
    let named = target(word, at);
    let goes = place.routine.is_some() && place.is_jump(word);
    if !goes || returns(place, indirect, named) {
        return WordSet::empty();
    }
    jumped(place, fact, indirect, named).meet(place.declaration.abandons())
}
