//! What would be enough at an instruction that refers to memory through a pointer, and which test in the program could show it.

use crate::bounds::losses::operation;
use crate::inputs::is_in_body;
use bin_tape::Image;
use declaration::Declaration;
use instruct::{
    Operation, Profile, refers_indirectly, replaces_accumulator, skips_always, target,
    tests_accumulator,
};
use processor::is_auto_index;
use std::alloc::Allocator;
use word12::Word;
use wordset::WordSet;

/// How many addresses there are.
const ADDRESSES: usize = 4096;

/// The most instructions between the one that adds a pointer to the accumulator and the test of the sum.
const MOST_BETWEEN: usize = 6;

/// Whether the cell belongs to the routine that executes the instruction at an address: it is in the same body.
fn is_in_same_body<D: Allocator>(declaration: &Declaration<D>, at: Word, cell: Word) -> bool {
    match declaration.owner_of(at) {
        Some(owner) => is_in_body(declaration, owner, cell),
        None => false,
    }
}

/// Whether an operation at an address may refer to a cell through a pointer, as far as the declaration tells.
fn may_refer_to<D: Allocator>(
    declaration: &Declaration<D>,
    operation: Operation,
    at: Word,
    cell: Word,
) -> bool {
    match operation {
        Operation::And | Operation::Tad => declaration.may_read(cell),
        Operation::Isz => declaration.is_variable(cell) && declaration.may_read(cell),
        Operation::Dca => declaration.is_variable(cell),
        Operation::Jms => declaration.is_entry(cell),
        Operation::Jmp => is_in_same_body(declaration, at, cell) || declaration.is_abandon(cell),
    }
}

/// The words of a pointer with which the instruction at an address, of this word, refers to a cell to which it may refer. A pointer from
/// 0010 to 0017 is incremented first.
pub(crate) fn sufficient_words<D: Allocator>(
    declaration: &Declaration<D>,
    at: Word,
    word: Word,
) -> WordSet {
    let operation = Operation::of(word);
    let is_incremented = is_auto_index(target(word, at));
    let mut sufficient = WordSet::empty();
    for index in 0..ADDRESSES {
        let held = Word::from_index(index);
        let cell = if is_incremented {
            held.increment()
        } else {
            held
        };
        if may_refer_to(declaration, operation, at, cell) {
            sufficient.insert(held);
        }
    }
    sufficient
}

/// Whether the word adds a cell to the accumulator, directly.
fn adds(word: Word, at: Word, cell: Word) -> bool {
    matches!(operation(word), Some(Operation::Tad))
        && !refers_indirectly(word)
        && target(word, at) == cell
}

/// Whether a word that is no test ends a computation in the accumulator, on a machine of a profile: control goes elsewhere, or the
/// accumulator is stored, cleared or replaced.
fn ends_computation(word: Word, profile: Profile) -> bool {
    matches!(operation(word), Some(Operation::Jmp | Operation::Jms))
        || replaces_accumulator(word, profile)
}

/// The first test that follows an address, before the accumulator is stored, cleared or replaced and before control goes elsewhere. A word
/// behind one that skips in any case is passed over.
fn next_test(image: &Image, profile: Profile, at: Word) -> Option<Word> {
    let mut here = at;
    for _ in 0..MOST_BETWEEN {
        here = here.increment();
        let word = image.get(here)?;
        if tests_accumulator(word) {
            return Some(here);
        }
        if ends_computation(word, profile) {
            return None;
        }
        if skips_always(word) {
            here = here.increment();
        }
    }
    None
}

/// The first test, in the body that has an address, of a sum to which a pointer was added.
pub(crate) fn test_of_pointer<D: Allocator>(
    image: &Image,
    declaration: &Declaration<D>,
    at: Word,
    pointer: Word,
) -> Option<Word> {
    for index in 0..ADDRESSES {
        let here = Word::from_index(index);
        let Some(word) = image.get(here) else {
            continue;
        };
        if adds(word, here, pointer) && is_in_same_body(declaration, at, here) {
            let test = next_test(image, declaration.profile(), here);
            if test.is_some() {
                return test;
            }
        }
    }
    None
}
