//! How control goes on from a cell.
//!
//! What a word alone tells is said by [`ControlEffect`]. The declaration that is sought needs more than which cells are reached, so
//! the walk here goes through one body at a time: only the running routine's own entry has its return word, code is in one body
//! alone, and a cell that is stored in may hold any word.

use crate::body::BodyTraversal;
use crate::map::Map;
use crate::tape::Tape;
use declaration::Owner;
use instruct::{Operation, SkipCondition};
use processor::is_auto_index;
use tape_walk::{ControlEffect, MemoryReference, ProgramPoint};
use word12::Word;

impl Map {
    /// Goes on at a cell, if it may be in the body: it is on the tape or is stored in, no entry, and in
    /// no other body.
    pub(crate) fn go(
        &mut self,
        tape: &Tape<'_>,
        walk: &mut BodyTraversal,
        here: &ProgramPoint,
        to: Word,
    ) {
        let is_there = tape.get(to).is_some()
            || (self.known.stored.contains(to) && tape.may_be_code(to));
        let is_free = !self.known.entries.contains(to) && !self.round.code.contains(to);
        if is_there && is_free && tape.may_be_in(walk.owner, to) {
            walk.meet(&here.to(to));
        } else {
            self.round.astray.insert(here.at);
        }
    }

    /// Goes on behind a cell whose word skips under this condition.
    fn go_on(
        &mut self,
        tape: &Tape<'_>,
        walk: &mut BodyTraversal,
        here: &ProgramPoint,
        condition: SkipCondition,
    ) {
        if condition.may_go_on() {
            self.go(tape, walk, here, here.next().at);
        }
        if condition.may_skip() {
            self.go(tape, walk, here, here.past_next().at);
        }
    }

    /// Goes on from a cell. Where it is stored in, other words may stand there, and control may go on
    /// to the next cell.
    pub(crate) fn visit(&mut self, tape: &Tape<'_>, walk: &mut BodyTraversal, here: &ProgramPoint) {
        let changes = self.known.stored.contains(here.at);
        if changes {
            self.go_on(tape, walk, here, SkipCondition::Never);
        }
        let Some(word) = tape.get(here.at) else {
            return;
        };
        match ControlEffect::of(word, here.at, self.profile) {
            ControlEffect::Refers(reference) => self.refer(tape, walk, here, &reference),
            ControlEffect::Halts(condition) if !changes => {
                self.halt(tape, walk, here, condition);
            }
            ControlEffect::GoesOn(condition) | ControlEffect::Halts(condition) => {
                self.go_on(tape, walk, here, condition);
            }
            ControlEffect::Unsupported => {
                if !changes {
                    self.round.astray.insert(here.at);
                }
            }
        }
    }

    /// Goes on from a HLT, if it is a pause.
    fn halt(
        &mut self,
        tape: &Tape<'_>,
        walk: &mut BodyTraversal,
        here: &ProgramPoint,
        condition: SkipCondition,
    ) {
        self.round.halts.insert(here.at);
        if self.pauses.contains(here.at) {
            self.go_on(tape, walk, here, condition);
        }
    }

    /// Goes on from a memory reference.
    fn refer(
        &mut self,
        tape: &Tape<'_>,
        walk: &mut BodyTraversal,
        here: &ProgramPoint,
        reference: &MemoryReference,
    ) {
        let address = &self.address(tape, reference);
        match reference.operation {
            Operation::And | Operation::Tad => self.name(address),
            Operation::Dca => self.deposit(walk, reference, address),
            Operation::Isz => return self.count(tape, walk, here, reference, address),
            Operation::Jms => return self.call(tape, walk, here, address),
            Operation::Jmp => return self.jump(tape, walk, here, reference, address),
        }
        self.go_on(tape, walk, here, reference.skip_condition());
    }

    /// The address that a memory reference refers to, if the words tell. A pointer is named, and stored in if the reference steps it.
    fn address(&mut self, tape: &Tape<'_>, reference: &MemoryReference) -> Option<Word> {
        if reference.is_indirect {
            self.round.named.insert(reference.named);
        }
        if reference.steps_pointer() {
            self.known.stored.insert(reference.named);
        }
        self.known.address(tape.image, reference)
    }

    /// A cell is named as a datum.
    fn name(&mut self, address: &Option<Word>) {
        if let Some(cell) = address {
            self.round.named.insert(*cell);
        }
    }

    /// A cell is stored in.
    fn store(&mut self, address: &Option<Word>) {
        match address {
            None => self.round.stores_anywhere = true,
            Some(cell) => {
                self.round.named.insert(*cell);
                self.known.stored.insert(*cell);
            }
        }
    }

    /// A DCA stores. One that names the routine's own entry stores its return word, and no word tells which that is.
    fn deposit(
        &mut self,
        walk: &mut BodyTraversal,
        reference: &MemoryReference,
        address: &Option<Word>,
    ) {
        match address {
            Some(cell) if walk.is_own(*cell) && !reference.is_indirect => {
                self.round.moves.insert(*cell);
                walk.is_open = true;
            }
            _ => self.store(address),
        }
    }

    /// Goes on from ISZ. That of the routine's own entry increments the return word, and does not
    /// skip.
    fn count(
        &mut self,
        tape: &Tape<'_>,
        walk: &mut BodyTraversal,
        here: &ProgramPoint,
        reference: &MemoryReference,
        address: &Option<Word>,
    ) {
        if let Some(cell) = address {
            if walk.is_own(*cell) {
                return self.go_on(tape, walk, &here.incremented(), SkipCondition::Never);
            }
        }
        self.store(address);
        self.go_on(tape, walk, here, reference.skip_condition());
    }

    /// Goes on from JMS.
    fn call(
        &mut self,
        tape: &Tape<'_>,
        walk: &mut BodyTraversal,
        here: &ProgramPoint,
        address: &Option<Word>,
    ) {
        if let Some(entry) = address {
            self.enter(tape, walk, here, *entry);
            return;
        }
        self.round.calls.insert(here.at);
        let called = self.called;
        for entry in called.iter() {
            self.enter(tape, walk, here, entry);
        }
    }

    /// Goes on after a call of an entry, as far as it is known how the routine returns.
    fn enter(
        &mut self,
        tape: &Tape<'_>,
        walk: &mut BodyTraversal,
        here: &ProgramPoint,
        entry: Word,
    ) {
        if is_auto_index(entry) || entry == self.start || self.banned.contains(entry) {
            self.round.astray.insert(here.at);
            return;
        }
        self.known.entries.insert(entry);
        let offsets = self.offsets(tape, entry);
        for offset in offsets.iter() {
            self.go(tape, walk, here, here.next().at.add(offset));
        }
    }

    /// Goes on from JMP. An indirect one through the routine's own entry returns.
    fn jump(
        &mut self,
        tape: &Tape<'_>,
        walk: &mut BodyTraversal,
        here: &ProgramPoint,
        reference: &MemoryReference,
        address: &Option<Word>,
    ) {
        if reference.is_indirect && walk.is_own(reference.named) {
            self.known.note_return(reference.named, here);
            return;
        }
        match address {
            None => self.jump_by_table(tape, walk, here),
            Some(to) => self.jump_to(tape, walk, here, *to),
        }
    }

    /// Goes on at the target of a JMP. From a routine's body a JMP to a cell of main's abandons all open calls.
    fn jump_to(
        &mut self,
        tape: &Tape<'_>,
        walk: &mut BodyTraversal,
        here: &ProgramPoint,
        to: Word,
    ) {
        if walk.owner != Owner::Main && self.round.main.contains(to) {
            self.round.abandons.insert(to);
        } else {
            self.go(tape, walk, here, to);
        }
    }

    /// Goes on from JMP where it is not known where it goes.
    fn jump_by_table(&mut self, tape: &Tape<'_>, walk: &mut BodyTraversal, here: &ProgramPoint) {
        self.round.jumps.insert(here.at);
        let jumped = self.jumped;
        for to in jumped.iter() {
            self.go(tape, walk, here, to);
        }
    }
}
