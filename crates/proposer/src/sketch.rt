//! The parts of a declaration while it is widened, and their text.

use bin_tape::Image;
use control_flow::{CommentedTape, push_cells};
use declaration::{Declaration, Owner};
use instruct::Profile;
use peripherals::NoMemory;
use std::alloc::{AllocError, Allocator};
use word12::Word;
use wordset::WordSet;

/// A routine: its entry, its body, and the offsets by which it may return.
#[derive(Clone, Copy)]
struct SketchedRoutine {
    entry: Word,
    body: WordSet,
    returns: WordSet,
}

/// The parts of a declaration, to which more is added.
#[derive(Drop)]
pub(crate) struct Sketch<A: Allocator> {
    start: Word,
    profile: Profile,
    main: WordSet,
    routines: Vec<SketchedRoutine, A>,
    pub(crate) variables: WordSet,
    pub(crate) stops: WordSet,
    pub(crate) pauses: WordSet,
    /// The entries of the routines that may store in them.
    pub(crate) moves: WordSet,
    /// The places for which all open calls may be abandoned.
    pub(crate) abandons: WordSet,
}

/// The offsets by which the routine of an entry may return.
fn offsets_of<D: Allocator>(declaration: &Declaration<D>, entry: Word) -> WordSet {
    let mut offsets = WordSet::empty();
    for index in 0..64usize {
        let offset = Word::from_index(index);
        if declaration.has_offset(entry, offset) {
            offsets.insert(offset);
        }
    }
    offsets
}

impl<A: Allocator + Copy> Sketch<A> {
    /// The parts of a declaration.
    pub(crate) fn of<D: Allocator>(
        alloc: A,
        declaration: &Declaration<D>,
    ) -> Result<Sketch<A>, NoMemory> {
        let mut sketch = Sketch {
            start: declaration.start(),
            profile: declaration.profile(),
            main: *declaration.main(),
            routines: Vec::new(alloc),
            variables: *declaration.variables(),
            stops: *declaration.stops(),
            pauses: *declaration.pauses(),
            moves: *declaration.moves(),
            abandons: *declaration.abandons(),
        };
        for routine in declaration.routines() {
            let kept = SketchedRoutine {
                entry: routine.entry(),
                body: *routine.body(),
                returns: offsets_of(declaration, routine.entry()),
            };
            sketch.routines.push(kept).map_err(|_| NoMemory)?;
        }
        Ok(sketch)
    }

    /// The cells of all bodies.
    pub(crate) fn bodies(&self) -> WordSet {
        let mut cells = self.main;
        for routine in &self.routines {
            cells = cells.union(&routine.body);
        }
        cells
    }

    /// The entries of all routines.
    pub(crate) fn entries(&self) -> WordSet {
        let mut cells = WordSet::empty();
        for routine in &self.routines {
            cells.insert(routine.entry);
        }
        cells
    }

    /// The cells that may be added to a body: they are in none, and no entry.
    pub(crate) fn free(&self, cells: &WordSet) -> WordSet {
        cells.minus(&self.bodies()).minus(&self.entries())
    }

    /// Adds cells to a body; cells of a routine that is not there are not added.
    pub(crate) fn add_body(&mut self, owner: &Owner, cells: &WordSet) {
        match owner {
            Owner::Main => self.main = self.main.union(cells),
            Owner::Routine(entry) => {
                for routine in self.routines.iter_mut() {
                    if routine.entry == *entry {
                        routine.body = routine.body.union(cells);
                    }
                }
            }
        }
    }

    /// Adds an offset by which a routine may return.
    pub(crate) fn add_return(&mut self, entry: Word, offset: Word) {
        for routine in self.routines.iter_mut() {
            if routine.entry == entry {
                routine.returns.insert(offset);
            }
        }
    }

    /// Adds a routine that does not return yet.
    pub(crate) fn add_routine(&mut self, entry: Word, body: WordSet) -> Result<(), NoMemory> {
        let routine = SketchedRoutine {
            entry,
            body,
            returns: WordSet::empty(),
        };
        self.routines.push(routine).map_err(|_| NoMemory)
    }

    /// The text of what there is.
    pub(crate) fn text(&self, alloc: A, image: &Image) -> Result<Vec<u8, A>, AllocError> {
        let commented = CommentedTape {
            image,
            profile: self.profile,
        };
        let mut text = Vec::new(alloc);
        if self.profile == Profile::Pdp8E {
            text.extend_from_slice(b"profile 8e\n")?;
        }
        push_cells(&mut text, b"start", &WordSet::one(self.start))?;
        push_cells(&mut text, b"main", &self.main)?;
        for routine in &self.routines {
            commented.push_routine(&mut text, routine.entry, &routine.body, &routine.returns)?;
        }
        push_cells(&mut text, b"moves", &self.moves)?;
        push_cells(&mut text, b"abandon", &self.abandons)?;
        push_cells(&mut text, b"var", &self.variables)?;
        commented.push_halts(&mut text, b"stop", &self.stops)?;
        commented.push_halts(&mut text, b"pause", &self.pauses)?;
        Ok(text)
    }
}
