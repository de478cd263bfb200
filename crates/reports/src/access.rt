//! What an instruction may read, write, call and jump to, as far as the fact at its address tells.

use crate::known_fact::KnownFact;
use crate::report::{CellKind, Report};
use crate::writer::ReportWriter;
use command_parts::sentence::Argument::{Addresses, Text, Words};
use declaration::Declaration;
use facts::Place;
use instruct::{Instruction, Operation, decode, refers_indirectly, target};
use processor::is_auto_index;
use std::alloc::Allocator;
use word12::Word;
use wordset::WordSet;

/// More words than this are not looked at one by one.
const MOST_WORDS: usize = 64;

/// What the words that may stand at an address do.
#[derive(Clone, Copy)]
struct Access {
    reads: WordSet,
    writes: WordSet,
    calls: WordSet,
    jumps: WordSet,
    returns: WordSet,
}

/// Writes an item with addresses, if there are any.
fn write_places<A: Allocator>(writer: &mut ReportWriter<'_, A>, name: &str, set: &WordSet) {
    if set.is_all() {
        writer.item("{} any", &[Text(name)]);
    } else if !set.is_empty() {
        writer.item("{} {}", &[Text(name), Addresses(set)]);
    }
}

/// Whether a word is an indirect memory reference.
fn is_indirect<D: Allocator>(declaration: &Declaration<D>, word: Word) -> bool {
    matches!(decode(word, declaration.profile()), Instruction::Memory) && refers_indirectly(word)
}

/// Whether a word is a memory reference that stores into its operand.
fn stores<D: Allocator>(declaration: &Declaration<D>, word: Word) -> bool {
    matches!(decode(word, declaration.profile()), Instruction::Memory)
        && matches!(Operation::of(word), Operation::Isz | Operation::Dca)
}

impl Access {
    /// Nothing.
    fn none() -> Access {
        Access {
            reads: WordSet::empty(),
            writes: WordSet::empty(),
            calls: WordSet::empty(),
            jumps: WordSet::empty(),
            returns: WordSet::empty(),
        }
    }
}

/// An address, and what is known there.
#[derive(Drop)]
struct Spot<'p, 'k, D: Allocator> {
    place: Place<'p, D>,
    known: &'k KnownFact,
    at: Word,
}

impl<D: Allocator> Spot<'_, '_, D> {
    /// The words that may stand in a cell.
    fn words_in(&self, cell: Word) -> WordSet {
        let mut words = WordSet::empty();
        self.place.put_possible(&self.known.fact, cell, &mut words);
        words
    }

    /// The cells that a word writes.
    fn written(&self, word: Word) -> WordSet {
        let mut cells = WordSet::empty();
        self.place
            .put_writes(&self.known.fact, self.at, word, &mut cells);
        cells
    }

    /// Where a JMP I that is not a return goes: where the cell that it names points, one up through an auto-index cell.
    fn jumped(&self, word: Word) -> WordSet {
        let named = target(word, self.at);
        let words = self.words_in(named);
        if is_auto_index(named) {
            words.shift(Word::from_index(1))
        } else {
            words
        }
    }

    /// Where a routine returns: after the sites of the fact, by its offsets.
    fn returned(&self) -> WordSet {
        let sites = self.known.sites();
        let mut found = WordSet::empty();
        for offset in self.known.offsets().iter() {
            found = found.union(&sites.shift(offset.increment()));
        }
        found
    }

    /// Adds what an indirect word does beside writing.
    fn add_indirect(&self, access: &mut Access, word: Word) {
        let mut cells = WordSet::empty();
        match Operation::of(word) {
            Operation::And | Operation::Tad | Operation::Isz => {
                self.place
                    .put_reads(&self.known.fact, self.at, word, &mut cells);
                access.reads = access.reads.union(&cells);
            }
            Operation::Dca => {}
            Operation::Jms => {
                self.place
                    .put_called(&self.known.fact, self.at, word, &mut cells);
                access.calls = access.calls.union(&cells);
            }
            Operation::Jmp if self.place.declaration.is_entry(target(word, self.at)) => {
                access.returns = access.returns.union(&self.returned());
            }
            Operation::Jmp => access.jumps = access.jumps.union(&self.jumped(word)),
        }
    }

    /// What some words do.
    fn access_of(&self, words: &WordSet) -> Access {
        let mut access = Access::none();
        for word in words.iter() {
            access.writes = access.writes.union(&self.written(word));
            if is_indirect(self.place.declaration, word) {
                self.add_indirect(&mut access, word);
            }
        }
        access
    }

    /// Writes what some words may do, beside what their names say.
    fn write_each<A: Allocator>(&self, writer: &mut ReportWriter<'_, A>, words: &WordSet) {
        let access = self.access_of(words);
        write_places(writer, "reads", &access.reads);
        write_places(writer, "writes", &access.writes);
        write_places(writer, "calls", &access.calls);
        write_places(writer, "jumps to", &access.jumps);
        write_places(writer, "returns to", &access.returns);
    }

    /// Writes which words may stand at the address, and what they do, unless they are many.
    fn write_varying<A: Allocator>(&self, writer: &mut ReportWriter<'_, A>) {
        let words = self.words_in(self.at);
        if words.is_all() {
            return writer.item("may be any word", &[]);
        }
        writer.item("may be {}", &[Words(&words)]);
        if words.count() <= MOST_WORDS {
            self.write_each(writer, &words);
        }
    }
}

impl<A: Allocator, D: Allocator, C: Allocator> Report<'_, A, D, C> {
    /// Whether an instruction of the tape writes through a pointer.
    pub(crate) fn writes_through(&self) -> bool {
        for index in 0..4096 {
            let at = Word::from_index(index);
            if let Some(word) = self.image.get(at) {
                if self.is_code(at) && refers_indirectly(word) && stores(self.declaration, word) {
                    return true;
                }
            }
        }
        false
    }

    /// The word of the tape at an address where no other may stand.
    fn fixed_word(&self, at: Word) -> Option<Word> {
        if self.declaration.is_variable(at) {
            return None;
        }
        self.image.get(at)
    }

    /// Writes the cell that the word of the tape writes by a direct reference, whatever is known.
    pub(crate) fn write_direct(&self, writer: &mut ReportWriter<'_, A>, at: Word) {
        let declaration = self.declaration;
        if let Some(word) = self.fixed_word(at) {
            if stores(declaration, word) && !is_indirect(declaration, word) {
                write_places(writer, "writes", &WordSet::one(target(word, at)));
            }
        }
    }

    /// Writes what the words at an address may do by what is known: the cells that they write, and where they go and what they
    /// read by indirect references.
    pub(crate) fn write_access(
        &self,
        writer: &mut ReportWriter<'_, A>,
        kind: &CellKind,
        known: &KnownFact,
        at: Word,
    ) {
        let spot = Spot {
            place: self.place_in(kind),
            known,
            at,
        };
        match self.fixed_word(at) {
            Some(word) if is_indirect(self.declaration, word) => {
                spot.write_each(writer, &WordSet::one(word));
            }
            Some(_) => {}
            None => spot.write_varying(writer),
        }
    }
}
