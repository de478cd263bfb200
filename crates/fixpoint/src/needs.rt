//! Which cells are needed at an address: those that the words from there on may look at before they
//! are written, and those of which something is declared to hold there. Only of these a quick search keeps what is known.

use crate::fault::SearchFault;
use crate::program::AnalysedProgram;
use crate::settings::SETTINGS;
use declaration::{Assertion, Subject};
use instruct::{Format, Operation, refers_indirectly, refers_to_memory, target};
use processor::is_auto_index;
use std::alloc::Allocator;
use std::collections::BTreeMap;
use word12::Word;
use wordset::WordSet;

/// Sets of cells by address; an empty one is not kept.
type Sets<A> = BTreeMap<usize, WordSet, A>;

/// The cells that are needed at each address of a body, and at each entry those that are needed when
/// its routine returns; at each entry, too, the cells that the routine's words name to write. Some
/// cells may be partners: where a routine writes one of them that is needed when it returns, all of
/// them that are needed then are needed in it too, as what is known of them may be how they differ.
/// Of some cells a routine tells when it returns if it looks at them, as it may have tested them.
#[derive(Drop)]
pub(crate) struct Needs<A: Allocator> {
    cells: Sets<A>,
    writes: Sets<A>,
    partners: WordSet,
    told: WordSet,
}

/// The set of an address.
fn set_at<A: Allocator>(sets: &Sets<A>, at: Word) -> WordSet {
    match sets.get(&at.index()) {
        None => WordSet::empty(),
        Some(set) => *set,
    }
}

/// Adds cells to the set of an address, and returns whether it grew.
fn add_at<A: Allocator + Copy>(
    sets: &mut Sets<A>,
    at: Word,
    cells: &WordSet,
) -> Result<bool, SearchFault> {
    let set = set_at(sets, at);
    if cells.is_subset(&set) {
        return Ok(false);
    }
    match sets.insert(at.index(), set.union(cells)) {
        Ok(_) => Ok(true),
        Err(_) => Err(SearchFault::NoMemory),
    }
}

/// A set with a cell, if there is one.
fn with(cells: &WordSet, cell: Option<Word>) -> WordSet {
    match cell {
        None => *cells,
        Some(cell) => cells.union(&WordSet::one(cell)),
    }
}

/// A set without a cell, if there is one.
fn without(cells: &WordSet, cell: Option<Word>) -> WordSet {
    match cell {
        None => *cells,
        Some(cell) => cells.minus(&WordSet::one(cell)),
    }
}

/// Some of the cells that are needed after a call, with all partners that are needed then if one is among them.
fn with_partners(after: &WordSet, cells: &WordSet, partners: &WordSet) -> WordSet {
    if cells.meet(partners).is_empty() {
        *cells
    } else {
        cells.union(&after.meet(partners))
    }
}

/// Whether some words in the format of a word skip by tests: those of devices and of groups 2 and 3. More cells than needed are
/// kept where the word itself does not skip.
fn has_skip_format(word: Word) -> bool {
    matches!(
        Format::of(word),
        Format::Device | Format::Group2 | Format::Group3
    )
}

/// The cells that a word names to write, and that the routine writes that it calls.
fn written_by<A: Allocator, D: Allocator>(
    program: &AnalysedProgram<'_, D>,
    at: Word,
    word: Word,
    writes: &Sets<A>,
) -> WordSet {
    let named = target(word, at);
    let place = program.place_named(word, named);
    let cells = match Operation::of(word) {
        Operation::Isz | Operation::Dca => with(&WordSet::empty(), place),
        Operation::Jms => match place {
            None => WordSet::empty(),
            Some(entry) => set_at(writes, entry),
        },
        _ => WordSet::empty(),
    };
    if refers_indirectly(word) && is_auto_index(named) {
        with(&cells, Some(named))
    } else {
        cells
    }
}

/// The cell that is the subject of an assertion, if a cell is.
fn subject_cell(assertion: &Assertion) -> WordSet {
    match assertion.subject() {
        Subject::Cell(cell) => WordSet::one(*cell),
        _ => WordSet::empty(),
    }
}

/// The cells of which something is declared to hold at an address.
fn asserted_at<D: Allocator>(program: &AnalysedProgram<'_, D>, at: Word) -> WordSet {
    let mut cells = WordSet::empty();
    for holding in program.declaration.holds() {
        if holding.places().contains(at) {
            cells = cells.union(&subject_cell(holding.assertion()));
        }
    }
    cells
}

/// The cells of which something is declared to hold when the routine of an entry returns.
pub(crate) fn returned_cells<D: Allocator>(
    program: &AnalysedProgram<'_, D>,
    entry: Word,
) -> WordSet {
    let mut cells = WordSet::empty();
    for returning in program.declaration.returns() {
        if returning.entry() == entry {
            cells = cells.union(&subject_cell(returning.assertion()));
        }
    }
    cells
}

impl<A: Allocator + Copy> Needs<A> {
    /// What the words of a program need, where some cells are partners, and routines that look at some cells tell of them.
    pub(crate) fn of<D: Allocator>(
        alloc: A,
        program: &AnalysedProgram<'_, D>,
        partners: &WordSet,
        told: &WordSet,
    ) -> Result<Needs<A>, SearchFault> {
        let mut needs = Needs {
            cells: BTreeMap::new(alloc),
            writes: BTreeMap::new(alloc),
            partners: *partners,
            told: *told,
        };
        needs.find_writes(program)?;
        needs.add_returned(program)?;
        needs.find_cells(program)?;
        Ok(needs)
    }

    /// Finds what routines write.
    fn find_writes<D: Allocator>(
        &mut self,
        program: &AnalysedProgram<'_, D>,
    ) -> Result<(), SearchFault> {
        for _round in 0..SETTINGS.most_rounds {
            if !self.add_writes(program)? {
                return Ok(());
            }
        }
        Ok(())
    }

    /// Adds what each routine writes, and returns whether something was added.
    fn add_writes<D: Allocator>(
        &mut self,
        program: &AnalysedProgram<'_, D>,
    ) -> Result<bool, SearchFault> {
        let mut grew = false;
        for routine in program.declaration.routines() {
            let cells = self.written_in(program, routine.body());
            if add_at(&mut self.writes, routine.entry(), &cells)? {
                grew = true;
            }
        }
        Ok(grew)
    }

    /// Adds to what is needed when routines return the cells of which something is to hold then.
    fn add_returned<D: Allocator>(
        &mut self,
        program: &AnalysedProgram<'_, D>,
    ) -> Result<(), SearchFault> {
        for returning in program.declaration.returns() {
            let cells = subject_cell(returning.assertion()).meet(&program.named);
            add_at(&mut self.cells, returning.entry(), &cells)?;
        }
        Ok(())
    }

    /// Finds what is needed at each address.
    fn find_cells<D: Allocator>(
        &mut self,
        program: &AnalysedProgram<'_, D>,
    ) -> Result<(), SearchFault> {
        for _round in 0..SETTINGS.most_rounds {
            if !self.add_cells(program)? {
                return Ok(());
            }
        }
        Ok(())
    }

    /// Adds what is needed at each address, from the last on, and returns whether something was
    /// added.
    fn add_cells<D: Allocator>(
        &mut self,
        program: &AnalysedProgram<'_, D>,
    ) -> Result<bool, SearchFault> {
        let mut grew = false;
        for more in 0..4096usize {
            let at = Word::from_index(4095 - more);
            if program.bodies.contains(at) {
                let cells = self.before(program, at)?.union(&asserted_at(program, at));
                let cells = cells.meet(&program.named);
                if add_at(&mut self.cells, at, &cells)? {
                    grew = true;
                }
            }
        }
        Ok(grew)
    }

    /// What is needed before the word at an address; all, where it may be written.
    fn before<D: Allocator>(
        &mut self,
        program: &AnalysedProgram<'_, D>,
        at: Word,
    ) -> Result<WordSet, SearchFault> {
        let Some(word) = program.fixed_word(at) else {
            return Ok(program.named);
        };
        if refers_to_memory(word) {
            self.before_reference(program, at, word)
        } else if has_skip_format(word) {
            Ok(self.after_skip(at))
        } else {
            Ok(self.at(at.increment()))
        }
    }

    /// What is needed before a memory reference.
    fn before_reference<D: Allocator>(
        &mut self,
        program: &AnalysedProgram<'_, D>,
        at: Word,
        word: Word,
    ) -> Result<WordSet, SearchFault> {
        let named = target(word, at);
        let place = program.place_named(word, named);
        let next = self.at(at.increment());
        let cells = match Operation::of(word) {
            Operation::And | Operation::Tad => with(&next, place),
            Operation::Isz => with(&self.after_skip(at), place),
            Operation::Dca => without(&next, place),
            Operation::Jms => self.before_call(program, at, place)?,
            Operation::Jmp => self.before_jump(program, named, place),
        };
        if refers_indirectly(word) {
            Ok(with(&cells, Some(named)))
        } else {
            Ok(cells)
        }
    }

    /// What is needed before a call; all, where it is not known what is called. What is needed after it
    /// and the routine writes is needed when the routine returns, and of some cells what it looks at.
    fn before_call<D: Allocator>(
        &mut self,
        program: &AnalysedProgram<'_, D>,
        at: Word,
        place: Option<Word>,
    ) -> Result<WordSet, SearchFault> {
        let Some(entry) = place else {
            for routine in program.declaration.routines() {
                self.before_call_of(program, at, routine.entry())?;
            }
            return Ok(program.named);
        };
        self.before_call_of(program, at, entry)
    }

    /// What is needed before a call of a known routine.
    fn before_call_of<D: Allocator>(
        &mut self,
        program: &AnalysedProgram<'_, D>,
        at: Word,
        entry: Word,
    ) -> Result<WordSet, SearchFault> {
        let after = self.after_returns(program, at, entry);
        let written = set_at(&self.writes, entry);
        let returned = with_partners(&after, &after.meet(&written), &self.partners);
        let seen = self.at(entry.increment()).meet(&self.told);
        add_at(&mut self.cells, entry, &returned.union(&after.meet(&seen)))?;
        let within = self.at(entry.increment());
        Ok(within.union(&after.minus(&written)))
    }
}

impl<A: Allocator> Needs<A> {
    /// The cells that are needed at an address.
    pub(crate) fn at(&self, at: Word) -> WordSet {
        set_at(&self.cells, at)
    }

    /// What the words of a body write.
    fn written_in<D: Allocator>(
        &self,
        program: &AnalysedProgram<'_, D>,
        body: &WordSet,
    ) -> WordSet {
        let mut cells = WordSet::empty();
        for index in 0..4096usize {
            let at = Word::from_index(index);
            if body.contains(at) {
                if let Some(word) = program.fixed_word(at) {
                    if refers_to_memory(word) {
                        cells = cells.union(&written_by(program, at, word, &self.writes));
                    }
                }
            }
        }
        cells
    }

    /// What is needed after a word that may skip.
    fn after_skip(&self, at: Word) -> WordSet {
        let next = at.increment();
        self.at(next).union(&self.at(next.increment()))
    }

    /// What is needed before a jump; all, where it is not known where it goes.
    fn before_jump<D: Allocator>(
        &self,
        program: &AnalysedProgram<'_, D>,
        named: Word,
        place: Option<Word>,
    ) -> WordSet {
        match place {
            Some(to) => self.at(to),
            None => {
                if program.declaration.is_entry(named) {
                    self.at(named)
                } else {
                    program.named
                }
            }
        }
    }

    /// What is needed where a call may return.
    fn after_returns<D: Allocator>(
        &self,
        program: &AnalysedProgram<'_, D>,
        at: Word,
        entry: Word,
    ) -> WordSet {
        let mut cells = WordSet::empty();
        for offset in 0..64usize {
            let more = Word::from_index(offset);
            if program.declaration.has_offset(entry, more) {
                cells = cells.union(&self.at(at.increment().add(more)));
            }
        }
        cells
    }
}
