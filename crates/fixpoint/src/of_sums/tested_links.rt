//! Where it matters what the link is: where a skip may test it before a word sets or rotates it.

use crate::program::AnalysedProgram;
use crate::settings::SETTINGS;
use instruct::{Format, Operation, clears_link, rotates, target, tests_link};
use std::alloc::Allocator;
use word12::Word;
use wordset::WordSet;

/// The addresses from which a run may come to a skip that tests the link as it is there, and the entries of the routines after
/// whose return it may.
pub(crate) fn tested_links<D: Allocator>(program: &AnalysedProgram<'_, D>) -> WordSet {
    let mut tested = WordSet::empty();
    for _round in 0..SETTINGS.most_rounds {
        let more = with_words_before(program, &tested);
        if more.is_subset(&tested) {
            return tested;
        }
        tested = more;
    }
    tested
}

/// Adds the addresses of the words that lead to these, from the last on.
fn with_words_before<D: Allocator>(program: &AnalysedProgram<'_, D>, tested: &WordSet) -> WordSet {
    let mut found = *tested;
    for more in 0..4096usize {
        let at = Word::from_index(4095 - more);
        if let Some(word) = program.fixed_word(at) {
            if is_tested_from(program, at, word, &found) {
                found.insert(at);
            }
            if let Some(entry) = tested_return(program, at, word, &found) {
                found.insert(entry);
            }
        }
    }
    found
}

/// Whether the link is tested from a word on, as it is before it.
fn is_tested_from<D: Allocator>(
    program: &AnalysedProgram<'_, D>,
    at: Word,
    word: Word,
    tested: &WordSet,
) -> bool {
    let next = at.increment();
    match Format::of(word) {
        Format::Reference(operation) => {
            is_tested_from_reference(program, at, word, operation, tested)
        }
        Format::Device => is_tested_behind_skip(next, tested),
        Format::Group1 => !clears_link(word) && !rotates(word) && tested.contains(next),
        Format::Group2 => tests_link(word) || is_tested_behind_skip(next, tested),
        Format::Group3 => tested.contains(next),
    }
}

/// Whether the link before a memory reference is tested later.
fn is_tested_from_reference<D: Allocator>(
    program: &AnalysedProgram<'_, D>,
    at: Word,
    word: Word,
    operation: Operation,
    tested: &WordSet,
) -> bool {
    let next = at.increment();
    let named = target(word, at);
    match operation {
        Operation::And | Operation::Tad | Operation::Dca => tested.contains(next),
        Operation::Isz => is_tested_behind_skip(next, tested),
        Operation::Jms => match program.place_named(word, named) {
            None => false,
            Some(entry) => tested.contains(entry.increment()),
        },
        Operation::Jmp => match program.place_named(word, named) {
            None => program.declaration.is_entry(named) && tested.contains(named),
            Some(to) => tested.contains(to),
        },
    }
}

/// Whether the link is tested from an address on or from the one behind it.
fn is_tested_behind_skip(next: Word, tested: &WordSet) -> bool {
    tested.contains(next) || tested.contains(next.increment())
}

/// The entry that a word calls, if the link is tested behind the call.
fn tested_return<D: Allocator>(
    program: &AnalysedProgram<'_, D>,
    at: Word,
    word: Word,
    tested: &WordSet,
) -> Option<Word> {
    let Format::Reference(Operation::Jms) = Format::of(word) else {
        return None;
    };
    let entry = program.place_named(word, target(word, at))?;
    for offset in 0..64usize {
        let more = Word::from_index(offset);
        if program.declaration.has_offset(entry, more)
            && tested.contains(at.increment().add(more))
        {
            return Some(entry);
        }
    }
    None
}
