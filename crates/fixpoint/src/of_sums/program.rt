//! A program as the search by the rules of sums sees it.

ghost use Rattle.std.specs.Prelude.{◌≡◌};

use crate::of_sums::tested_links::tested_links;
use crate::program::{AnalysedProgram, add_asserted};
use crate::settings::SETTINGS;
use crate::widening::Limits;
use bin_tape::Image;
use declaration::Declaration;
use domain::Rules;
use facts::{Place, SumFact};
use instruct::{Format, Operation, refers_indirectly, refers_to_memory, target};
use processor::is_auto_index;
use std::alloc::Allocator;
use word12::Word;
use wordset::WordSet;

/// A program, the variables that it uses as pointers, those that it tests, those of which something is declared to hold, those to
/// which pointers lead that never change, the routines that look at their return word, the addresses from which the link may be
/// tested and the entries after whose return it may, and words at which sets may end.
#[derive(Drop)]
pub struct SumProgram<'a, D: Allocator> {
    pub base: AnalysedProgram<'a, D>,
    pub(crate) pointers: WordSet,
    pub(crate) tested: WordSet,
    pub(crate) asserted: WordSet,
    pub(crate) reached: WordSet,
    pub(crate) readers: WordSet,
    pub(crate) tested_links: WordSet,
    pub(crate) thresholds: WordSet,
}

/// Words at which sets may end, and their neighbours; and the ends of the numbers with and without a sign.
fn thresholds(limits: &Limits) -> WordSet {
    let one = Word::from_index(1);
    let mut words = limits.landmarks;
    words.insert(Word::ZERO);
    words.insert(one);
    words.insert(Word::from_index(0o3777));
    words.insert(Word::from_index(0o4000));
    words.insert(Word::from_index(0o7777));
    let after = words.shift(one);
    let before = words.shift(Word::from_index(0o7777));
    words.union(&after).union(&before)
}

/// Whether a word in the body of a routine looks at the cell that it names, if that is the routine's entry: it reads it, or
/// goes through it elsewhere than back.
fn looks_at(word: Word) -> bool {
    match Operation::of(word) {
        Operation::And | Operation::Tad => true,
        Operation::Isz | Operation::Dca | Operation::Jms => refers_indirectly(word),
        Operation::Jmp => false,
    }
}

/// What the instructions of a program do with cells: the variables that are pointers, those that are tested, those to which
/// pointers lead that never change, and the entries of the routines that look at their return word.
#[derive(Clone, Copy)]
struct Uses {
    pointers: WordSet,
    tested: WordSet,
    reached: WordSet,
    readers: WordSet,
}

/// What all memory references of a program do.
fn uses_of<D: Allocator>(base: &AnalysedProgram<'_, D>) -> Uses {
    let mut uses = Uses {
        pointers: WordSet::empty(),
        tested: WordSet::empty(),
        reached: WordSet::empty(),
        readers: WordSet::empty(),
    };
    for index in 0..4096usize {
        let at = Word::from_index(index);
        if let Some(word) = base.fixed_word(at) {
            if refers_to_memory(word) {
                uses.add(base, at, word);
                uses.add_reached(base, at, word);
            }
        }
    }
    uses
}

impl Uses {
    /// Adds what a memory reference does.
    fn add<D: Allocator>(&mut self, base: &AnalysedProgram<'_, D>, at: Word, word: Word) {
        let named = target(word, at);
        if base.declaration.is_variable(named) {
            if refers_indirectly(word) {
                self.pointers.insert(named);
            }
            if let Operation::Tad | Operation::And | Operation::Isz = Operation::of(word) {
                if !refers_indirectly(word) {
                    self.tested.insert(named);
                }
            }
        }
        if base.owner(at) == Some(named) && looks_at(word) {
            self.readers.insert(named);
        }
    }

    /// Adds the variable to which a memory reference leads through a pointer that never changes, if there is one.
    fn add_reached<D: Allocator>(&mut self, base: &AnalysedProgram<'_, D>, at: Word, word: Word) {
        if !refers_indirectly(word) {
            return;
        }
        if let Some(cell) = base.place_named(word, target(word, at)) {
            if base.declaration.is_variable(cell) && self.reached.count() < SETTINGS.most_reached {
                self.reached.insert(cell);
            }
        }
    }
}

impl<'a, D: Allocator> SumProgram<'a, D> {
    /// A tape's words and a declaration.
    pub fn of(image: &'a Image, declaration: &'a Declaration<D>) -> SumProgram<'a, D>
        ensures image { result.base.image.now ≡ image.now }
        ensures declaration { result.base.declaration.now ≡ declaration.now }
    {
        let base = AnalysedProgram::of(image, declaration, SETTINGS.most_runs);
        let thresholds = thresholds(&base.limits);
        let mut asserted = WordSet::empty();
        add_asserted(&mut asserted, declaration);
        let Uses {
            pointers,
            tested,
            reached,
            readers,
        } = uses_of(&base);
        let tested_links = tested_links(&base);
        SumProgram {
            base,
            pointers,
            tested,
            asserted,
            reached,
            readers,
            tested_links,
            thresholds,
        }
    }

    /// Where a fact of a body stands.
    pub(crate) fn place(&self, routine: &Option<Word>) -> Place<'_, D> {
        Place {
            image: self.base.image,
            declaration: self.base.declaration,
            routine: *routine,
            rules: Rules::OfSums,
        }
    }

    /// Whether the return word of a routine was incremented so often, if it is known how often, that the routine cannot return
    /// any more as it is declared to. It may go on to a halt, so it must be more often by two than for the last of its returns;
    /// and where calls may be abandoned it may go on in any case.
    pub(crate) fn is_past_returns(&self, routine: &Option<Word>, offset: Option<usize>) -> bool {
        let (Some(entry), Some(offset)) = (routine, offset) else {
            return false;
        };
        if !self.base.declaration.abandons().is_empty() {
            return false;
        }
        match self.last_offset(*entry) {
            None => false,
            Some(last) => offset > last.saturating_add(1),
        }
    }

    /// The greatest offset by which a routine is declared to return.
    fn last_offset(&self, entry: Word) -> Option<usize> {
        let mut last = None;
        for offset in 0..64usize {
            if self
                .base
                .declaration
                .has_offset(entry, Word::from_index(offset))
            {
                last = Some(offset);
            }
        }
        last
    }

    /// The entries of the routines with several returns.
    pub fn skipping(&self) -> WordSet {
        let mut found = WordSet::empty();
        for routine in self.base.declaration.routines() {
            if self.last_offset(routine.entry()).unwrap_or(0) > 0 {
                found.insert(routine.entry());
            }
        }
        found
    }

    /// The entry that the word at an address calls, if it calls one.
    fn entry_called_at(&self, at: Word) -> Option<Word> {
        let word = self.base.fixed_word(at)?;
        let Format::Reference(Operation::Jms) = Format::of(word) else {
            return None;
        };
        self.base.place_named(word, target(word, at))
    }

    /// The entries that the words in the body of a routine, or of main, call.
    pub fn called_in(&self, routine: &Option<Word>) -> WordSet {
        let mut found = WordSet::empty();
        for index in 0..4096usize {
            let at = Word::from_index(index);
            if self.base.has(routine, at) {
                if let Some(entry) = self.entry_called_at(at) {
                    found.insert(entry);
                }
            }
        }
        found
    }

    /// The routines that look at their return word.
    pub fn readers(&self) -> &WordSet {
        &self.readers
    }

    /// The addresses from which a run may come to a skip that tests the link, and the entries of the routines after whose return
    /// it may.
    pub fn tested_links(&self) -> &WordSet {
        &self.tested_links
    }

    /// The variables that are added, masked or counted by name, except for pointers.
    pub fn tested(&self) -> WordSet {
        self.tested.minus(&self.pointers)
    }

    /// Whether a word has a meaning, calls through no stepped pointer, does not return through the entry of another routine, and is
    /// no HLT where the program may not halt.
    pub(crate) fn may_be_met(&self, place: &Place<'_, D>, at: Word, word: Word) -> bool {
        let returned = place.returned_entry(at, word);
        place.is_supported(word)
            && place.halts_are_declared(at, word)
            && !place.steps_call_pointer(at, word)
            && (returned.is_none() || returned == place.routine)
    }

    /// Whether what a word writes and reads by a fact may be written and read.
    pub(crate) fn may_access<const C: usize, const R: usize>(
        &self,
        place: &Place<'_, D>,
        fact: &SumFact<C, R>,
        at: Word,
        word: Word,
    ) -> bool {
        place.writes_are_declared(fact, at, word)
            && place.entries_are_kept(fact, at, word)
            && place.reads_are_listed(fact, at, word)
    }

    /// The words that a pointer may hold where a word refers through it, so that it writes variables alone and reads what is
    /// listed.
    pub(crate) fn permitted(&self, routine: &Option<Word>, at: Word, word: Word) -> WordSet {
        let mut cells = WordSet::all();
        let declaration = self.base.declaration;
        if let Operation::Isz | Operation::Dca = Operation::of(word) {
            cells = *declaration.variables();
        }
        if let Operation::Isz | Operation::Tad | Operation::And = Operation::of(word) {
            if let Some(listed) = declaration.reads() {
                cells = cells.meet(&with_own(listed, routine));
            }
        }
        if is_auto_index(target(word, at)) {
            cells.shift(Word::from_index(0o7777))
        } else {
            cells
        }
    }
}

/// Some cells and the entry of a routine, if there is one.
fn with_own(cells: &WordSet, routine: &Option<Word>) -> WordSet {
    match routine {
        None => *cells,
        Some(entry) => cells.union(&WordSet::one(*entry)),
    }
}
