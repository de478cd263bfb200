//! What steps were seen to do in all runs of a search.

use declaration::Owner;
use instruct::Operation;
use peripherals::NoMemory;
use policy::Watcher;
use processor::{DecodedInstruction, Reference};
use std::alloc::Allocator;
use word12::Word;
use wordset::WordSet;

/// What steps were seen to do in all runs of a search.
#[derive(Drop)]
pub struct Record<A: Allocator> {
    /// By address the routine that ran when a step was first made from there.
    pub owners: Vec<Option<Owner>, A>,
    /// The addresses from which steps were made, by how far the running routine's return word had been
    /// incremented then: 0 in main, and where it was further up than 7.
    pub places: [WordSet; 8],
    /// The cells that a DCA, an ISZ or an indirect reference through an auto-index cell wrote, but not
    /// the running routine's own entry under an ISZ.
    pub written: WordSet,
    /// The address to which the last step led, if it was a JMP in a routine's body, but no JMP I through the routine's own entry.
    pub jumped: Option<Word>,
    /// How many runs were begun.
    pub runs: u32,
    /// How many steps were made.
    pub steps: u32,
}

/// What a step is about to do, as far as it is recorded.
#[derive(Clone, Copy)]
pub struct StepRecord {
    /// The address of the instruction.
    pub at: Word,
    /// The routine that runs.
    pub owner: Owner,
    /// How far its return word was incremented, modulo 4096: 0 in main.
    pub offset: Word,
    /// The cell in which a DCA or an ISZ stores, but not the running routine's own entry under an ISZ.
    pub stored: Option<Word>,
    /// The auto-index cell that an indirect reference steps.
    pub stepped: Option<Word>,
    /// The address to which a JMP in a routine's body leads, but not a JMP I through the routine's own entry.
    pub jumped: Option<Word>,
}

/// How far an address is behind another one, modulo 4096.
fn distance(to: Word, from: Word) -> Word {
    to.add(from.complement()).increment()
}

/// Whether a memory reference goes through the entry of the running routine.
fn goes_through(reference: &Reference, own: Option<Word>) -> bool {
    reference.indirect && own == Some(reference.named)
}

impl StepRecord {
    /// What the next step of a machine that is watched is about to do.
    pub fn of<A: Allocator>(watcher: &Watcher<A>) -> StepRecord {
        let cpu = watcher.world().cpu();
        let mut step_record = StepRecord {
            at: cpu.pc,
            owner: Owner::Main,
            offset: Word::ZERO,
            stored: None,
            stepped: None,
            jumped: None,
        };
        let mut own = None;
        if let Some(call) = watcher.calls().last() {
            step_record.owner = Owner::Routine(call.entry);
            own = Some(call.entry);
            step_record.offset = distance(cpu.memory.get(call.entry), call.after);
        }
        if let DecodedInstruction::Refers(reference) = cpu.fetch() {
            if reference.steps_pointer() {
                step_record.stepped = Some(reference.named);
            }
            let place = reference.place;
            match reference.operation {
                Operation::Dca => step_record.stored = Some(place),
                Operation::Isz if own != Some(place) => step_record.stored = Some(place),
                Operation::Jmp if own.is_some() && !goes_through(&reference, own) => {
                    step_record.jumped = Some(place);
                }
                _ => {}
            }
        }
        step_record
    }
}

impl<A: Allocator + Copy> Record<A> {
    /// Nothing was seen.
    pub(crate) fn nothing(alloc: A) -> Result<Record<A>, NoMemory> {
        Ok(Record {
            owners: Vec::from_elem(alloc, None, 4096)?,
            places: [WordSet::empty(); 8],
            written: WordSet::empty(),
            jumped: None,
            runs: 0,
            steps: 0,
        })
    }

    /// A run begins.
    pub(crate) fn begins(&mut self) {
        self.runs = self.runs.saturating_add(1);
        self.jumped = None;
    }

    /// A step is made.
    pub(crate) fn makes(&mut self, step_record: &StepRecord) {
        self.steps = self.steps.saturating_add(1);
        self.jumped = step_record.jumped;
        self.sees(step_record);
    }

    /// The routine that ran when a step was first made from an address, if one was.
    pub fn owner(&self, at: Word) -> Option<Owner> {
        self.owners.get(at.index()).copied().flatten()
    }

    /// Records what a step does, or is about to do.
    pub fn sees(&mut self, step_record: &StepRecord) {
        if let Some(owner) = self.owners.get_mut(step_record.at.index()) {
            if owner.is_none() {
                *owner = Some(step_record.owner);
            }
        }
        let offset = step_record.offset.index();
        let place = if offset < 8 { offset } else { 0 };
        if let Some(places) = self.places.get_mut(place) {
            places.insert(step_record.at);
        }
        if let Some(cell) = step_record.stored {
            self.written.insert(cell);
        }
        if let Some(cell) = step_record.stepped {
            self.written.insert(cell);
        }
    }
}
