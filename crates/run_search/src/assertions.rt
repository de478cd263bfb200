//! What is declared to hold at places and at returns, and how far it is from not holding there.

use bin_tape::Image;
use declaration::{Assertion, Declaration, Subject};
use instruct::{Operation, refers_indirectly, target};
use policy::Call;
use processor::Cpu;
use std::alloc::Allocator;
use word12::Word;
use wordset::WordSet;

/// The entry through which a word returns at an address, if it is a JMP I through an entry.
fn entry_of_return<D: Allocator>(
    declaration: &Declaration<D>,
    word: Word,
    at: Word,
) -> Option<Word> {
    if !matches!(Operation::of(word), Operation::Jmp) || !refers_indirectly(word) {
        return None;
    }
    let entry = target(word, at);
    if declaration.is_entry(entry) {
        Some(entry)
    } else {
        None
    }
}

/// Whether something is declared to hold when the routine of an entry returns.
fn is_asserted_at_return<D: Allocator>(declaration: &Declaration<D>, entry: Word) -> bool {
    declaration
        .returns()
        .iter()
        .any(|returning| returning.entry() == entry)
}

/// Whether a word of the tape returns from a routine at whose returns something is declared to hold.
fn returns_with_assertion<D: Allocator>(
    image: &Image,
    declaration: &Declaration<D>,
    at: Word,
) -> bool {
    let Some(word) = image.get(at) else {
        return false;
    };
    match entry_of_return(declaration, word, at) {
        Some(entry) => is_asserted_at_return(declaration, entry),
        None => false,
    }
}

/// The places at which something is declared to hold.
fn held_places<D: Allocator>(declaration: &Declaration<D>) -> WordSet {
    let mut places = WordSet::empty();
    for holding in declaration.holds() {
        places = places.union(holding.places());
    }
    places
}

/// The places at which something is declared to hold, and those of the tape's words that return from a routine at whose returns
/// something is.
pub(crate) fn asserted_places<D: Allocator>(
    image: &Image,
    declaration: &Declaration<D>,
) -> WordSet {
    let mut places = held_places(declaration);
    for index in 0..4096usize {
        let at = Word::from_index(index);
        if returns_with_assertion(image, declaration, at) {
            places.insert(at);
        }
    }
    places
}

/// A return that is about to be made: the entry of its routine, and the offset, if it is the last call's own.
#[derive(Clone, Copy)]
pub(crate) struct NextReturn {
    entry: Word,
    offset: Word,
}

impl NextReturn {
    /// The return that comes next, if one does.
    pub(crate) fn of<D: Allocator>(
        declaration: &Declaration<D>,
        cpu: &Cpu,
        calls: &[Call],
    ) -> Option<NextReturn> {
        let entry = entry_of_return(declaration, cpu.memory.get(cpu.pc), cpu.pc)?;
        let call = calls.last()?;
        if call.entry != entry {
            return None;
        }
        let before = call.after.complement().increment();
        Some(NextReturn {
            entry,
            offset: cpu.memory.get(entry).add(before),
        })
    }

    /// Whether something is declared to hold at a return of a routine by some offsets, and this is one of them.
    pub(crate) fn is_among(&self, entry: Word, offsets: &WordSet) -> bool {
        self.entry == entry && offsets.contains(self.offset)
    }
}

/// The word of which an assertion speaks; of the link 0 or 1.
pub(crate) fn asserted_word(assertion: &Assertion, cpu: &Cpu) -> Word {
    match assertion.subject() {
        Subject::Accumulator => cpu.ac,
        Subject::Cell(cell) => cpu.memory.get(*cell),
        Subject::Mq => cpu.mq,
        Subject::Link => Word::from_index(cpu.link.is_set() as usize),
    }
}

/// How much more a word is than the nearest one that is not asserted, modulo 4096; none if all are asserted, and of the link, which
/// is no sum of inputs.
pub(crate) fn beyond_assertion(assertion: &Assertion, word: Word) -> Option<u16> {
    if *assertion.subject() == Subject::Link {
        return None;
    }
    for index in 0..2049usize {
        let more = Word::from_index(index);
        let less = more.complement().increment();
        if !assertion.words().contains(word.add(less)) {
            return Some(more.value());
        }
        if !assertion.words().contains(word.add(more)) {
            return Some(less.value());
        }
    }
    None
}
