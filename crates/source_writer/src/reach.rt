//! Which cells control reaches, as far as the words of a tape tell.
//!
//! What a word alone tells is said by [`ControlEffect`]. A source shows which words are code and leaves open whose body they are
//! in, so all bodies are followed at once: every entry is taken for the one whose return word an instruction uses. Cells in which
//! the program stores are taken for data, and control goes on behind halts and texts where that looks right.

use bin_tape::Image;
use instruct::{Instruction, Operation, Profile, SkipCondition, decode};
use tape_walk::{ControlEffect, KnownCells, MemoryReference, PointSet, ProgramPoint, Traversal};
use word12::Word;
use wordset::WordSet;

/// How often a cell is visited at most, all cells taken together.
const MOST_VISITS: usize = 16_384;

/// Behind how many halts control is followed at most.
const MOST_HALTS: usize = 256;

/// How many characters a text behind a call has at most.
const MOST_TEXT: usize = 256;

/// By which offset a routine returns that increments its return word again and again.
const TEXT_OFFSET: usize = 7;

/// Where control was found to go.
#[derive(Clone, Copy)]
pub(crate) struct Reach {
    profile: Profile,
    known: KnownCells,
    points: Traversal,
    calls: PointSet,
    data: WordSet,
    halts: WordSet,
    /// Entries of routines that take a text from behind their call.
    texts: WordSet,
}

impl Reach {
    fn new(profile: Profile, texts: WordSet) -> Reach {
        Reach {
            profile,
            known: KnownCells::none(),
            points: Traversal::new(),
            calls: PointSet::empty(),
            data: WordSet::empty(),
            halts: WordSet::empty(),
            texts,
        }
    }

    /// Follows control from a start. A routine of which no return is found is taken to return behind its
    /// call. Behind a HLT control goes on where what stands there looks like an instruction. A routine that
    /// increments its return address again and again is taken to read a text behind its call.
    pub(crate) fn of(image: &Image, start: Word, profile: Profile) -> Reach {
        let reach = Reach::with_texts(image, start, profile, WordSet::empty());
        let texts = reach.known.returns.cells_with(TEXT_OFFSET);
        if texts.is_empty() {
            return reach;
        }
        Reach::with_texts(image, start, profile, texts)
    }

    /// The same, for routines of which these read a text.
    fn with_texts(image: &Image, start: Word, profile: Profile, texts: WordSet) -> Reach {
        let mut reach = Reach::new(profile, texts);
        reach.begin_at(image, start);
        reach.settle(image);
        reach.go_past_halts(image);
        reach
    }

    /// The cells that control reaches.
    pub(crate) fn cells(&self) -> WordSet {
        self.points.cells()
    }

    /// The cells that a JMS goes to.
    pub(crate) fn entries(&self) -> WordSet {
        self.known.entries
    }

    /// Goes on behind halts, one after another.
    fn go_past_halts(&mut self, image: &Image) {
        let mut tried = WordSet::empty();
        for _halt in 0..MOST_HALTS {
            let Some(halt) = self.halts.minus(&tried).least() else {
                return;
            };
            tried.insert(halt);
            let next = halt.increment();
            if self.is_likely(image, next) {
                self.begin_at(image, next);
                self.settle(image);
            }
        }
    }

    /// Whether a cell looks like an instruction. An AND is none: as this most characters, small numbers and empty cells read.
    fn is_likely(&self, image: &Image, at: Word) -> bool {
        match image.get(at) {
            None => false,
            Some(word) => {
                Operation::of(word) != Operation::And
                    && !self.data.contains(at)
                    && !self.known.entries.contains(at)
                    && decode(word, self.profile) != Instruction::Unsupported
            }
        }
    }

    /// Goes on until nothing waits, also behind calls of routines of which no return is found.
    fn settle(&mut self, image: &Image) {
        self.go_on(image);
        let lost = self.known.entries.minus(&self.known.returns.cells());
        if !lost.is_empty() {
            self.known.returns.insert_cells(&lost);
            self.points.wait(&self.calls);
            self.go_on(image);
        }
    }

    /// Visits what waits, and what it leads to.
    fn go_on(&mut self, image: &Image) {
        for _visit in 0..MOST_VISITS {
            let Some(here) = self.points.next() else {
                return;
            };
            self.visit(image, &here);
        }
    }

    /// Begins at a cell, where no return word has been incremented.
    fn begin_at(&mut self, image: &Image, at: Word) {
        self.meet(image, &ProgramPoint { at, offset: 0 });
    }

    /// Meets a point, if the tape has a word for its cell.
    fn meet(&mut self, image: &Image, point: &ProgramPoint) {
        if image.get(point.at).is_some() {
            self.points.meet(point);
        }
    }

    /// Goes on behind a cell whose word skips under this condition.
    fn advance(&mut self, image: &Image, here: &ProgramPoint, condition: SkipCondition) {
        if condition.may_go_on() {
            self.meet(image, &here.next());
        }
        if condition.may_skip() {
            self.meet(image, &here.past_next());
        }
    }

    fn visit(&mut self, image: &Image, here: &ProgramPoint) {
        let Some(word) = image.get(here.at) else {
            return;
        };
        match ControlEffect::of(word, here.at, self.profile) {
            ControlEffect::GoesOn(condition) => self.advance(image, here, condition),
            ControlEffect::Halts(_) => self.halts.insert(here.at),
            ControlEffect::Refers(reference) => self.refer(image, here, &reference),
            ControlEffect::Unsupported => {}
        }
    }

    /// Goes on from a memory reference.
    fn refer(&mut self, image: &Image, here: &ProgramPoint, reference: &MemoryReference) {
        match reference.operation {
            Operation::Jms => self.call(image, here, reference),
            Operation::Jmp => self.jump(image, here, reference),
            Operation::Isz if self.is_return_word(reference) => {
                self.meet(image, &here.next().incremented());
            }
            _ => {
                self.note_operand(reference);
                self.advance(image, here, reference.skip_condition());
            }
        }
    }

    /// Whether a memory reference goes to the return word of a routine, which it names.
    fn is_return_word(&self, reference: &MemoryReference) -> bool {
        !reference.is_indirect && self.known.entries.contains(reference.named)
    }

    /// Notes that a cell is named as an operand or as the pointer to one.
    fn note_operand(&mut self, reference: &MemoryReference) {
        self.data.insert(reference.named);
        let is_read = matches!(reference.operation, Operation::And | Operation::Tad);
        if !is_read && !reference.is_indirect {
            self.known.stored.insert(reference.named);
        }
    }

    /// Goes on from a call: at the routine, and where it is known to return.
    fn call(&mut self, image: &Image, here: &ProgramPoint, reference: &MemoryReference) {
        let entry = match self.known.address(image, reference) {
            Some(entry) if image.get(entry).is_some() => entry,
            _ => return self.meet(image, &here.next()),
        };
        self.known.entries.insert(entry);
        self.begin_at(image, entry.increment());
        self.calls.insert(here);
        if self.texts.contains(entry) {
            if let Some(end) = text_end(image, here.at) {
                self.meet(image, &here.to(end.increment()));
                return;
            }
        }
        let offsets = self.known.returns.offsets_of(entry);
        for offset in offsets.iter() {
            self.meet(image, &here.to(here.next().at.add(offset)));
        }
    }

    /// Goes on from a jump. One through the entry of a routine is its return, behind each of its calls.
    fn jump(&mut self, image: &Image, here: &ProgramPoint, reference: &MemoryReference) {
        if reference.is_indirect && self.known.entries.contains(reference.named) {
            if self.known.note_return(reference.named, here) {
                self.points.wait(&self.calls);
            }
            return;
        }
        if let Some(to) = self.known.address(image, reference) {
            self.meet(image, &here.to(to));
        }
    }
}

/// The word 0000 that ends a text behind a call, if there is one.
fn text_end(image: &Image, call: Word) -> Option<Word> {
    let mut at = call;
    for _character in 0..MOST_TEXT {
        at = at.increment();
        if image.get(at)? == Word::ZERO {
            return Some(at);
        }
    }
    None
}
