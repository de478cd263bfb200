//! Why less is known about a pointer after an instruction than before it.

use crate::bounds::draft_facts::DraftFacts;
use declaration::Declaration;
use domain::Location;
use instruct::{
    Format, Operation, SkipCondition, clears, complements, halts, refers_indirectly,
    refers_to_memory, target, tests_accumulator,
};
use std::alloc::Allocator;
use word12::Word;
use wordset::WordSet;

/// Why less is known about a pointer after an instruction.
#[derive(Clone, Copy, PartialEq, Eq)]
pub(crate) enum PrecisionLoss {
    /// The accumulator was compared, and the skip clears it.
    ClearingSkip,
    /// The accumulator had the pointer, and is complemented.
    Complement,
    /// A routine may write it.
    Call,
    /// A store through a pointer may reach it.
    Store,
    /// It may hold other words on another way to the same place.
    Meeting,
}

impl PrecisionLoss {
    /// What is said about it.
    pub(crate) fn told(self) -> &'static str {
        match self {
            PrecisionLoss::ClearingSkip =>
                "a skip that also clears AC shows nothing about this cell",
            PrecisionLoss::Complement =>
                "a complement before a test loses what is known about this cell",
            PrecisionLoss::Call => "the routine may write this cell",
            PrecisionLoss::Store => "the store through a pointer may reach this cell",
            PrecisionLoss::Meeting =>
                "the pointer may hold more words at the next address if that address can also be reached on another path",
        }
    }
}

/// The operation of a word, if it is a memory reference.
pub(crate) fn operation(word: Word) -> Option<Operation> {
    refers_to_memory(word).then_some(Operation::of(word))
}

/// When a word skips the next one, as far as the word tells.
fn skip_condition(word: Word) -> SkipCondition {
    match Format::of(word) {
        Format::Reference(Operation::Isz) | Format::Device => SkipCondition::Sometimes,
        Format::Group2 => SkipCondition::of_tests(word),
        _ => SkipCondition::Never,
    }
}

/// Whether a word is a HLT, alone or combined with a skip.
fn is_halt(word: Word) -> bool {
    Format::of(word).is_group2() && halts(word)
}

/// Whether a word stores through a pointer.
pub(crate) fn stores_through_pointer(word: Word) -> bool {
    matches!(operation(word), Some(Operation::Dca | Operation::Isz)) && refers_indirectly(word)
}

/// The addresses to which a call from this one may return.
pub(crate) fn successors_of_call<D: Allocator>(
    declaration: &Declaration<D>,
    entry: Word,
    at: Word,
) -> WordSet {
    let after = at.increment();
    let mut places = WordSet::empty();
    for index in 0..64usize {
        let offset = Word::from_index(index);
        if declaration.has_offset(entry, offset) {
            places.insert(after.add(offset));
        }
    }
    places
}

/// Whether an address is one of the two behind an instruction to which a run may go on, by when the instruction skips.
fn is_successor(condition: SkipCondition, at: Word, to: Word) -> bool {
    let next = at.increment();
    (condition.may_go_on() && to == next) || (condition.may_skip() && to == next.increment())
}

/// Whether a run may go on from an instruction to an address, as far as the word tells. At a declared pause the operator continues
/// where the HLT leaves the program counter, which is behind a skip that the same word takes.
pub(crate) fn may_go_on<D: Allocator>(
    declaration: &Declaration<D>,
    at: Word,
    word: Word,
    to: Word,
) -> bool {
    let named = target(word, at);
    match operation(word) {
        Some(Operation::Jmp) => !refers_indirectly(word) && named == to,
        Some(Operation::Jms) => {
            !refers_indirectly(word)
                && (named.increment() == to
                    || successors_of_call(declaration, named, at).contains(to))
        }
        None if is_halt(word) && !declaration.is_pause(at) => false,
        _ => is_successor(skip_condition(word), at, to),
    }
}

/// The words that a pointer may hold after an instruction, as far as the instruction itself tells.
fn words_behind<C: Allocator>(
    known: &mut DraftFacts<'_, C>,
    at: Word,
    word: Word,
    pointer: Word,
) -> WordSet {
    let stores = matches!(operation(word), Some(Operation::Dca)) && !refers_indirectly(word);
    if stores && target(word, at) == pointer {
        return known.words_at(at, &Location::Accumulator);
    }
    known.words_at(at, &Location::Cell(pointer))
}

/// Why it is no longer known behind an instruction how far the accumulator is from a pointer, if the instruction is a test or a
/// complement.
fn loss_of_tie(word: Word) -> Option<PrecisionLoss> {
    if tests_accumulator(word) && clears(word) {
        return Some(PrecisionLoss::ClearingSkip);
    }
    let complements_alone = Format::of(word) == Format::Group1
        && complements(word)
        && !clears(word);
    complements_alone.then_some(PrecisionLoss::Complement)
}

/// Why less is known about a pointer at the place where a run goes on from an instruction, if it is so.
pub(crate) fn loss_at<C: Allocator>(
    known: &mut DraftFacts<'_, C>,
    at: Word,
    word: Word,
    to: Word,
    pointer: Word,
) -> Option<PrecisionLoss> {
    if known.ties_accumulator(at, pointer) && !known.ties_accumulator(to, pointer) {
        let loss = loss_of_tie(word);
        if loss.is_some() {
            return loss;
        }
    }
    let fewer = words_behind(known, at, word, pointer);
    if fewer.count() >= known.words_at(to, &Location::Cell(pointer)).count() {
        return None;
    }
    match operation(word) {
        Some(Operation::Jms) if target(word, at).increment() != to => Some(PrecisionLoss::Call),
        Some(Operation::Dca | Operation::Isz) if refers_indirectly(word) => Some(
            PrecisionLoss::Store,
        ),
        _ => Some(PrecisionLoss::Meeting),
    }
}
