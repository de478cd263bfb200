//! What runs did, as far as each declaration that allows them has to say so.

use bin_tape::Image;
use declaration::{Declaration, Owner};
use instruct::Operation;
use peripherals::{Event, NoMemory};
use policy::Watcher;
use processor::DecodedInstruction;
use run_search::StepRecord;
use std::alloc::Allocator;
use word12::Word;
use wordset::WordSet;

/// What runs did, as far as each declaration that allows them has to say so.
#[derive(Drop)]
pub struct Evidence<A: Allocator> {
    /// By address the routine that ran when a step was first made from there.
    owners: Vec<Option<Owner>, A>,
    /// The cells from which steps were made.
    pub(crate) ran: WordSet,
    /// The cells to which a JMS went.
    pub(crate) called: WordSet,
    /// The cells that were written, but the running routine's own entry by an ISZ, and entries by a JMS.
    pub(crate) written: WordSet,
    /// The cells of which an instruction took the word.
    read: WordSet,
    /// The pauses after which CONTINUE was pressed.
    pub(crate) continued: WordSet,
    /// The halts after which it leads to what no declaration allows, if the operator goes on.
    pub(crate) stopped: WordSet,
    /// The address to which the last step led, if it was a JMP in a routine's body and no return.
    pub(crate) jumped: Option<Word>,
}

impl<A: Allocator + Copy> Evidence<A> {
    /// Nothing was seen yet.
    ///
    /// # Errors
    ///
    /// `NoMemory` where memory was refused.
    pub fn nothing(alloc: A) -> Result<Evidence<A>, NoMemory> {
        Ok(Evidence {
            owners: Vec::from_elem(alloc, None, 4096)?,
            ran: WordSet::empty(),
            called: WordSet::empty(),
            written: WordSet::empty(),
            read: WordSet::empty(),
            continued: WordSet::empty(),
            stopped: WordSet::empty(),
            jumped: None,
        })
    }

    /// The routine that ran when a step was first made from an address, if one was.
    pub(crate) fn owner(&self, at: Word) -> Option<Owner> {
        self.owners.get(at.index()).copied().flatten()
    }

    /// Whether the tape or a run has put a word into a cell.
    pub(crate) fn is_set(&self, image: &Image, at: Word) -> bool {
        image.get(at).is_some() || self.written.contains(at)
    }

    /// Whether a cell may hold any word when control comes to it: neither the tape nor a run has put a word there, and no
    /// instruction took the word there, which the program may have tested.
    pub(crate) fn holds_any_word(&self, image: &Image, at: Word) -> bool {
        !self.is_set(image, at) && !self.read.contains(at)
    }

    /// The cell that an event is about to execute though it may hold any word, if it does.
    pub(crate) fn unset_cell(
        &self,
        image: &Image,
        watcher: &Watcher<A>,
        event: Event,
    ) -> Option<Word> {
        let world = watcher.world();
        let at = world.cpu().pc;
        if event != Event::Step || world.halted_at().is_some() {
            return None;
        }
        self.holds_any_word(image, at).then_some(at)
    }

    /// Forgets what runs did: the halts after which they went on are stops from now on.
    pub(crate) fn forget_continued(&mut self) {
        for owner in self.owners.iter_mut() {
            *owner = None;
        }
        self.stopped = self.stopped.union(&self.continued);
        self.ran = WordSet::empty();
        self.called = WordSet::empty();
        self.written = WordSet::empty();
        self.read = WordSet::empty();
        self.continued = WordSet::empty();
        self.jumped = None;
    }

    /// A step is about to be made.
    pub(crate) fn sees(&mut self, sight: &StepRecord) {
        if let Some(owner) = self.owners.get_mut(sight.at.index()) {
            if owner.is_none() {
                *owner = Some(sight.owner);
            }
        }
        self.ran.insert(sight.at);
        if let Owner::Routine(entry) = sight.owner {
            self.called.insert(entry);
        }
        if let Some(cell) = sight.stored {
            self.written.insert(cell);
        }
        if let Some(cell) = sight.stepped {
            self.written.insert(cell);
        }
        self.jumped = sight.jumped;
    }

    /// The cells of which the next step of a machine that is watched takes the word.
    fn takes(&mut self, watcher: &Watcher<A>) {
        if let DecodedInstruction::Refers(reference) = watcher.world().cpu().fetch() {
            if reference.indirect {
                self.read.insert(reference.named);
            }
            if let Operation::And | Operation::Tad | Operation::Isz = reference.operation {
                self.read.insert(reference.place);
            }
        }
    }

    /// The routine that runs was called.
    pub(crate) fn runs(&mut self, watcher: &Watcher<A>) {
        if let Some(call) = watcher.calls().last() {
            self.called.insert(call.entry);
        }
    }

    /// An event is about to happen, which violates no rule.
    pub(crate) fn meets<D: Allocator>(
        &mut self,
        watcher: &Watcher<A>,
        declaration: &Declaration<D>,
        event: Event,
    ) {
        match (event, watcher.world().halted_at()) {
            (Event::Step, None) => {
                self.takes(watcher);
                self.sees(&StepRecord::of(watcher));
            }
            (Event::Continue, Some(at)) if declaration.is_pause(at) => self.continued.insert(at),
            _ => {}
        }
    }
}
