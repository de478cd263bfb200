//! What is analysed: a tape's words and a declaration.

ghost use Rattle.std.specs.Prelude.{◌≡◌};

use crate::settings::SETTINGS;
use crate::widening::Limits;
use bin_tape::Image;
use declaration::{Declaration, Subject};
use domain::Rules;
use facts::{Fact, Place};
use instruct::{Format, Operation, refers_indirectly, refers_to_memory, target};
use std::alloc::Allocator;
use word12::Word;
use wordset::WordSet;

/// What is analysed, the addresses of all bodies, those whose words may look at an entry, the cells that instructions name or
/// that stand in bodies, those that facts speak of at most, where their sets may end, and the rules by which facts are taken
/// further: those of equations, as certificates of versions 1 and 2 have them.
#[derive(Drop)]
pub struct AnalysedProgram<'a, D: Allocator> {
    pub image: &'a Image,
    pub declaration: &'a Declaration<D>,
    pub(crate) bodies: WordSet,
    pub(crate) lookers: WordSet,
    pub(crate) named: WordSet,
    pub(crate) tracked: WordSet,
    pub(crate) limits: Limits,
    pub(crate) rules: Rules,
}

/// A fact at an address in the body of a routine, if it is not main's, with the sites that are known of this routine. It is large,
/// so the same one serves all visits.
#[derive(Drop)]
pub(crate) struct AbstractState {
    pub(crate) at: Word,
    pub(crate) fact: Fact,
    pub(crate) routine: Option<Word>,
}

impl AbstractState {
    /// Before the first visit.
    pub(crate) fn first() -> AbstractState {
        AbstractState {
            at: Word::ZERO,
            fact: Fact::any(),
            routine: None,
        }
    }
}

/// Adds a cell to the tracked ones, if there is room.
fn add_cell(cells: &mut WordSet, cell: Word) {
    if cells.count() < SETTINGS.most_tracked {
        cells.insert(cell);
    }
}

impl<'a, D: Allocator> AnalysedProgram<'a, D> {
    /// A tape's words and a declaration, with sets of at most so many runs. The cells that facts speak
    /// of are the variables of which something is to hold, then those that instructions name, then those in
    /// bodies, then those on the tape; at most 64.
    pub fn of(
        image: &'a Image,
        declaration: &'a Declaration<D>,
        most_runs: usize,
    ) -> AnalysedProgram<'a, D>
        ensures image { result.image.now ≡ image.now }
        ensures declaration { result.declaration.now ≡ declaration.now }
    {
        let bodies = declaration.bodies();
        let mut named = WordSet::empty();
        add_asserted(&mut named, declaration);
        add_named(&mut named, image, declaration, &bodies);
        add_code(&mut named, declaration, &bodies);
        let mut tracked = named;
        add_loaded(&mut tracked, image, declaration);
        AnalysedProgram {
            image,
            declaration,
            bodies,
            lookers: lookers(image, declaration, &bodies),
            named,
            tracked,
            limits: Limits {
                counted: counted(image, &bodies),
                landmarks: landmarks(image, declaration, &bodies),
                most_runs,
            },
            rules: Rules::OfEquations,
        }
    }
}

/// Adds a subject, if it is a variable.
fn add_subject<D: Allocator>(cells: &mut WordSet, declaration: &Declaration<D>, subject: &Subject) {
    if let Subject::Cell(cell) = subject {
        if declaration.is_variable(*cell) {
            add_cell(cells, *cell);
        }
    }
}

/// Adds the variables of which something is declared to hold.
pub(crate) fn add_asserted<D: Allocator>(cells: &mut WordSet, declaration: &Declaration<D>) {
    for holding in declaration.holds() {
        add_subject(cells, declaration, holding.assertion().subject());
    }
    for returning in declaration.returns() {
        add_subject(cells, declaration, returning.assertion().subject());
    }
}

/// Adds the variables that the instructions of bodies name.
fn add_named<D: Allocator>(
    cells: &mut WordSet,
    image: &Image,
    declaration: &Declaration<D>,
    bodies: &WordSet,
) {
    for index in 0..4096usize {
        let at = Word::from_index(index);
        if let Some(word) = code_at(image, bodies, at) {
            let named = target(word, at);
            if refers_to_memory(word) && declaration.is_variable(named) {
                add_cell(cells, named);
            }
        }
    }
}

/// Adds the variables in bodies.
fn add_code<D: Allocator>(cells: &mut WordSet, declaration: &Declaration<D>, bodies: &WordSet) {
    for index in 0..4096usize {
        let at = Word::from_index(index);
        if declaration.is_variable(at) && bodies.contains(at) {
            add_cell(cells, at);
        }
    }
}

/// Adds the variables that the tape has words for.
fn add_loaded<D: Allocator>(cells: &mut WordSet, image: &Image, declaration: &Declaration<D>) {
    for index in 0..4096usize {
        let at = Word::from_index(index);
        if declaration.is_variable(at) && image.get(at).is_some() {
            add_cell(cells, at);
        }
    }
}

/// The addresses of bodies whose words may look at an entry: those that may be written, those that
/// refer indirectly, and those that name one.
fn lookers<D: Allocator>(image: &Image, declaration: &Declaration<D>, bodies: &WordSet) -> WordSet {
    let mut addresses = bodies.meet(declaration.variables());
    for index in 0..4096usize {
        let at = Word::from_index(index);
        if let Some(word) = code_at(image, bodies, at) {
            if refers_to_memory(word)
                && (refers_indirectly(word) || declaration.is_entry(target(word, at)))
            {
                addresses.insert(at);
            }
        }
    }
    addresses
}

/// The cells that ISZ counts by name.
fn counted(image: &Image, bodies: &WordSet) -> WordSet {
    let mut cells = WordSet::empty();
    for index in 0..4096usize {
        let at = Word::from_index(index);
        if let Some(word) = code_at(image, bodies, at) {
            if Format::of(word) == Format::Reference(Operation::Isz) && !refers_indirectly(word) {
                cells.insert(target(word, at));
            }
        }
    }
    cells
}

/// The ends of the words that are declared to hold somewhere.
fn asserted_ends<D: Allocator>(declaration: &Declaration<D>) -> WordSet {
    let mut words = WordSet::empty();
    for holding in declaration.holds() {
        words = words.union(&ends(holding.assertion().words()));
    }
    for returning in declaration.returns() {
        words = words.union(&ends(returning.assertion().words()));
    }
    words
}

/// Words at which sets may end: the ends of what may be written and of what is declared to hold, and the words that the tape puts
/// into cells outside of bodies to which an instruction refers, each with what makes it 0. What a program compares, counts and
/// points to is among these; a word of the tape to which no instruction refers is not, so it changes nothing.
fn landmarks<D: Allocator>(
    image: &Image,
    declaration: &Declaration<D>,
    bodies: &WordSet,
) -> WordSet {
    let mut words = ends(declaration.variables()).union(&asserted_ends(declaration));
    for cell in referred(image, declaration, bodies).minus(bodies).iter() {
        if let Some(word) = image.get(cell) {
            words.insert(word);
            words.insert(word.complement().increment());
        }
    }
    words
}

/// The cells to which an instruction of a body refers: the one that it names, and the one to which a pointer that
/// keeps its word leads.
fn referred<D: Allocator>(
    image: &Image,
    declaration: &Declaration<D>,
    bodies: &WordSet,
) -> WordSet {
    let mut cells = WordSet::empty();
    for index in 0..4096usize {
        let at = Word::from_index(index);
        if let Some(word) = code_at(image, bodies, at) {
            if refers_to_memory(word) {
                let named = target(word, at);
                cells.insert(named);
                if let Some(cell) = fixed_target(image, declaration, word, named) {
                    cells.insert(cell);
                }
            }
        }
    }
    cells
}

/// The cell that a memory reference refers to, which names a cell, if it is the same at all times.
fn fixed_target<D: Allocator>(
    image: &Image,
    declaration: &Declaration<D>,
    word: Word,
    named: Word,
) -> Option<Word> {
    if !refers_indirectly(word) {
        return Some(named);
    }
    if declaration.is_variable(named) || declaration.is_entry(named) {
        return None;
    }
    image.get(named)
}

/// The first and the last word of each run of a set, and the words next to these outside of the run.
fn ends(set: &WordSet) -> WordSet {
    let one = Word::ZERO.increment();
    let after = set.shift(one);
    let before = set.shift(one.complement().increment());
    let firsts = set.minus(&after).union(&before.minus(set));
    let lasts = set.minus(&before).union(&after.minus(set));
    firsts.union(&lasts)
}

/// The tape's word at an address of a body.
fn code_at(image: &Image, bodies: &WordSet, at: Word) -> Option<Word> {
    if !bodies.contains(at) {
        return None;
    }
    image.get(at)
}

impl<D: Allocator> AnalysedProgram<'_, D> {
    /// The tape's word at an address of a body, if it cannot be written.
    pub(crate) fn fixed_word(&self, at: Word) -> Option<Word> {
        if self.declaration.is_variable(at) {
            return None;
        }
        code_at(self.image, &self.bodies, at)
    }

    /// The cell that a memory reference refers to, which names a cell, if it is the same at all times.
    pub(crate) fn place_named(&self, word: Word, named: Word) -> Option<Word> {
        fixed_target(self.image, self.declaration, word, named)
    }

    /// The cells of the body of an entry.
    pub(crate) fn body_of(&self, entry: Word) -> WordSet {
        for routine in self.declaration.routines() {
            if routine.entry() == entry {
                return *routine.body();
            }
        }
        WordSet::empty()
    }

    /// The entry of the routine whose body has an address, if it is not main's.
    pub fn owner(&self, at: Word) -> Option<Word> {
        self.declaration.owner_of(at)?.entry()
    }

    /// Whether an address is in the body of a routine, or of main.
    pub(crate) fn has(&self, routine: &Option<Word>, at: Word) -> bool {
        match routine {
            None => self.declaration.in_main(at),
            Some(entry) => self.declaration.in_body(*entry, at),
        }
    }

    /// Where a fact of a body stands.
    pub(crate) fn place(&self, routine: &Option<Word>) -> Place<'_, D> {
        Place {
            image: self.image,
            declaration: self.declaration,
            routine: *routine,
            rules: self.rules,
        }
    }
}
