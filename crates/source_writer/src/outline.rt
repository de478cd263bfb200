//! What a source says of each cell, apart from its word.

ghost use Rattle.std.specs.Prelude.{◌≡◌};
ghost use Rattle.declaration.specs.DeclarationInCode.{meaning};

use crate::reach::Reach;
use bin_tape::Image;
use declaration::Declaration;
use instruct::{
    Instruction, Operation, Profile, decode, names_own_page, refers_indirectly, skips_on_flag,
    target,
};
use processor::is_auto_index;
use std::alloc::Allocator;
use word12::Word;
use wordset::WordSet;

/// How many symbols of its own a source may have.
const MOST_SYMBOLS: usize = 1024;

/// How a reference is written: by the location, or by the cell that it names.
#[derive(Clone, Copy)]
pub(crate) enum Operand {
    /// The reference's own cell.
    Here,
    /// The cell before it.
    Previous,
    /// This cell.
    Cell(Word),
}

/// What a data word is, as far as the code shows.
#[derive(Clone, Copy)]
pub(crate) enum Datum {
    /// A word.
    Plain,
    /// The address of a cell.
    AddressOf(Word),
    /// The address of the cell before this one, as an auto-index pointer has it at first.
    AddressBefore(Word),
}

/// The steps of the search for what needs a tag.
#[derive(Clone, Copy)]
enum Step {
    Pointers,
    Loads,
    Targets,
    Tables,
    Tags,
}

/// These steps in order.
const STEPS: [Step; 5] = [
    Step::Pointers,
    Step::Loads,
    Step::Targets,
    Step::Tables,
    Step::Tags,
];

/// The bodies, variables and halts of a declaration.
#[derive(Clone, Copy)]
pub(crate) struct DeclaredCells {
    pub(crate) main: WordSet,
    pub(crate) variables: WordSet,
    pub(crate) stops: WordSet,
    pub(crate) pauses: WordSet,
}

/// What a source says of each cell, apart from its word: which are code and which of these are entries of
/// routines, which have a tag, and which data words are addresses.
#[derive(Clone, Copy)]
pub(crate) struct Outline {
    pub(crate) start: Word,
    pub(crate) profile: Profile,
    pub(crate) code: WordSet,
    pub(crate) entries: WordSet,
    pub(crate) tagged: WordSet,
    /// Cells through which the code refers.
    pointers: WordSet,
    /// Cells whose word is stored in a pointer.
    loaded: WordSet,
    /// The same for auto-index pointers.
    loaded_before: WordSet,
    /// Cells whose address such a word is, and cells of tables of entries, which begin there.
    pointed: WordSet,
    tables: WordSet,
    pub(crate) declared: Option<DeclaredCells>,
}

impl Outline {
    /// That of a program, by where control is found to go from its start.
    pub(crate) fn of(image: &Image, start: Word, profile: Profile) -> Outline
        ensures { result.profile ≡ profile }
    {
        let reach = Reach::of(image, start, profile);
        let mut outline = Outline::new(start, profile);
        outline.code = reach.cells();
        outline.entries = reach.entries();
        outline.mark(image);
        // No mark changes it, and so it needs no proof.
        outline.profile = profile;
        outline
    }

    /// That of a program, by the bodies and entries of its declaration.
    pub(crate) fn declared<A: Allocator>(image: &Image, declaration: &Declaration<A>) -> Outline
        ensures { result.profile ≡ (meaning declaration.now).profile }
    {
        let mut outline = Outline::new(declaration.start(), declaration.profile());
        outline.code = declaration.bodies();
        outline.entries = declaration.entries();
        outline.declared = Some(DeclaredCells {
            main: *declaration.main(),
            variables: *declaration.variables(),
            stops: *declaration.stops(),
            pauses: *declaration.pauses(),
        });
        outline.mark(image);
        outline.profile = declaration.profile();
        outline
    }

    /// That of a program of which nothing is known: each cell is data.
    pub(crate) fn new(start: Word, profile: Profile) -> Outline
        ensures { result.profile ≡ profile }
    {
        Outline {
            start,
            profile,
            code: WordSet::empty(),
            entries: WordSet::empty(),
            tagged: WordSet::empty(),
            pointers: WordSet::empty(),
            loaded: WordSet::empty(),
            loaded_before: WordSet::empty(),
            pointed: WordSet::empty(),
            tables: WordSet::empty(),
            declared: None,
        }
    }

    /// Finds the pointers, what is stored in them, what they point to, and the cells that need a tag.
    fn mark(&mut self, image: &Image) {
        for step in &STEPS {
            for index in 0..4096usize {
                self.mark_cell(image, Word::from_index(index), *step);
            }
        }
        self.limit_tags();
    }

    /// Takes a step of the search at a cell.
    fn mark_cell(&mut self, image: &Image, at: Word, step: Step) {
        match step {
            Step::Pointers => self.mark_pointer(image, at),
            Step::Loads => self.mark_loaded(image, at),
            Step::Targets => self.mark_target(image, at),
            Step::Tables => self.mark_table(image, at),
            Step::Tags => self.mark_tag(image, at),
        }
    }

    /// Leaves out the tags for which there is no room.
    fn limit_tags(&mut self) {
        let mut kept = WordSet::empty();
        for _symbol in 0..MOST_SYMBOLS {
            if let Some(cell) = self.tagged.least() {
                self.tagged.remove(cell);
                kept.insert(cell);
            }
        }
        self.tagged = kept;
    }

    /// The word of a memory reference in the code that the assembler can spell, if one stands at a cell.
    pub(crate) fn reference(&self, image: &Image, at: Word) -> Option<Word> {
        if !self.code.contains(at) {
            return None;
        }
        let word = image.get(at)?;
        if decode(word, self.profile) == Instruction::Memory && is_spelled(word, at) {
            Some(word)
        } else {
            None
        }
    }

    /// How a reference at a cell is written.
    pub(crate) fn operand(&self, image: &Image, at: Word, word: Word) -> Operand {
        let cell = target(word, at);
        if Operation::of(word) != Operation::Jmp || refers_indirectly(word) {
            return Operand::Cell(cell);
        }
        if cell == at {
            return Operand::Here;
        }
        match image.get(cell) {
            Some(flag) if cell.increment() == at && skips_on_flag(flag, self.profile) => {
                Operand::Previous
            }
            _ => Operand::Cell(cell),
        }
    }

    fn mark_pointer(&mut self, image: &Image, at: Word) {
        if let Some(word) = self.reference(image, at) {
            let cell = target(word, at);
            if refers_indirectly(word) && !self.entries.contains(cell) {
                self.pointers.insert(cell);
            }
        }
    }

    /// Marks the cell whose word a TAD takes right before a DCA stores it in a pointer.
    fn mark_loaded(&mut self, image: &Image, at: Word) {
        let Some(word) = self.reference(image, at) else {
            return;
        };
        let next = at.increment();
        let Some(after) = self.reference(image, next) else {
            return;
        };
        if Operation::of(word) != Operation::Tad || Operation::of(after) != Operation::Dca {
            return;
        }
        if refers_indirectly(word) || refers_indirectly(after) {
            return;
        }
        let pointer = target(after, next);
        if !self.pointers.contains(pointer) {
            return;
        }
        if is_auto_index(pointer) {
            self.loaded_before.insert(target(word, at));
        } else {
            self.loaded.insert(target(word, at));
        }
    }

    /// The word at a cell that is no code, if it has one.
    fn data_word(&self, image: &Image, at: Word) -> Option<Word> {
        if self.code.contains(at) {
            None
        } else {
            image.get(at)
        }
    }

    /// Marks the cell to which the data word at a cell points.
    fn mark_target(&mut self, image: &Image, at: Word) {
        let Some(word) = self.data_word(image, at) else {
            return;
        };
        match self.datum(image, at, word) {
            Datum::AddressOf(cell) | Datum::AddressBefore(cell) => self.pointed.insert(cell),
            Datum::Plain => {}
        }
    }

    /// Marks a cell that has the address of an entry, where a table begins or goes on.
    fn mark_table(&mut self, image: &Image, at: Word) {
        let Some(word) = self.data_word(image, at) else {
            return;
        };
        let is_there = self.pointed.contains(at) || self.tables.contains(previous(at));
        if is_there && self.entries.contains(word) {
            self.tables.insert(at);
        }
    }

    /// What the data word at a cell is.
    pub(crate) fn datum(&self, image: &Image, at: Word, word: Word) -> Datum {
        let is_pointer = self.pointers.contains(at);
        let next = word.increment();
        let is_before = self.loaded_before.contains(at) || is_pointer && is_auto_index(at);
        if is_before && image.get(next).is_some() {
            return Datum::AddressBefore(next);
        }
        let is_address = self.loaded.contains(at) || is_pointer || self.tables.contains(at);
        if is_address && !is_before && image.get(word).is_some() {
            return Datum::AddressOf(word);
        }
        Datum::Plain
    }

    /// Tags the cell that the word at a cell names.
    fn mark_tag(&mut self, image: &Image, at: Word) {
        if let Some(word) = self.reference(image, at) {
            if let Operand::Cell(cell) = self.operand(image, at, word) {
                self.tagged.insert(cell);
            }
            return;
        }
        let Some(word) = self.data_word(image, at) else {
            return;
        };
        match self.datum(image, at, word) {
            Datum::AddressOf(cell) | Datum::AddressBefore(cell) => self.tagged.insert(cell),
            Datum::Plain => {}
        }
    }
}

/// The cell before a cell; that before 0000 is 7777.
pub(crate) fn previous(at: Word) -> Word {
    at.add(Word::from_index(0o7777))
}

/// Whether the assembler makes a reference at a cell this word: on page zero it sets no bit for the own
/// page.
fn is_spelled(word: Word, at: Word) -> bool {
    target(word, at).page() != Word::ZERO || !names_own_page(word)
}
