//! Lines of cells that a memory reference writes or reads, though it may not.

use crate::violations::ViolatingStep;
use command_parts::message::{MessageWriter, Written};
use command_parts::sentence::Argument::{Address, Advised, Octal, Text};
use command_parts::sentence::push_sentence;
use instruct::Operation;
use processor::Reference;
use std::alloc::Allocator;
use word12::Word;

impl<D: Allocator> ViolatingStep<'_, D> {
    /// Adds what else a cell is that is not a variable, and what to declare if the program may write it. `moves` tells whether a
    /// DCA that names the cell does so.
    fn push_advice<L: MessageWriter>(&self, text: &mut L, cell: Word, moves: bool) -> Written {
        let template = if moves && self.is_own(cell) {
            " but the running routine's own entry; if this is intended, add `moves {}`\n"
        } else if self.declaration.is_entry(cell) {
            " but an entry\n"
        } else if self.declaration.owner_of(cell).is_some() {
            " but code; if this is intended, add `var {}`\n"
        } else {
            "; if this is intended, add `var {}`\n"
        };
        push_sentence(text, template, &[Advised(cell)])
    }

    /// Adds the line of what a cell holds, and of the word that would take its place.
    fn push_change<L: MessageWriter>(&self, text: &mut L, cell: Word, then: Word) -> Written {
        push_sentence(
            text,
            "{} holds {}, and would hold {} after the write\n",
            &[Address(cell), Octal(self.cpu.memory.get(cell)), Octal(then)],
        )
    }

    /// Adds the lines of a cell that is stored into.
    fn push_store<L: MessageWriter>(&self, text: &mut L, reference: &Reference) -> Written {
        let place = reference.place;
        let to = [Address(place)];
        push_sentence(text, "it stores into {}, which is not a variable", &to)?;
        let moves = matches!(reference.operation, Operation::Dca) && !reference.indirect;
        self.push_advice(text, place, moves)?;
        if reference.indirect {
            let pointer = [Address(reference.named)];
            push_sentence(text, "the address comes from the pointer {}\n", &pointer)?;
        }
        let then = match reference.operation {
            Operation::Isz => self.cpu.memory.get(place).increment(),
            _ => self.cpu.ac,
        };
        self.push_change(text, place, then)
    }

    /// Adds the lines of a cell that is written: the pointer that is incremented, or what is stored into; and of the
    /// words there before and after.
    pub(super) fn push_write<L: MessageWriter>(
        &self,
        text: &mut L,
        reference: &Reference,
    ) -> Written {
        let pointer = reference.named;
        if !reference.steps_pointer() || self.declaration.is_variable(pointer) {
            return self.push_store(text, reference);
        }
        push_sentence(
            text,
            "it increments the pointer {}, which is not a variable",
            &[Address(pointer)],
        )?;
        self.push_advice(text, pointer, false)?;
        self.push_change(text, pointer, self.cpu.memory.get(pointer).increment())
    }

    /// Adds the lines of a cell that is read and is not on the list, the pointer or the operand, and of its word.
    pub(super) fn push_read<L: MessageWriter>(
        &self,
        text: &mut L,
        reference: &Reference,
    ) -> Written {
        let may_load = self.declaration.may_read(reference.named) || self.is_own(reference.named);
        let (what, cell) = if reference.indirect && !may_load {
            ("the pointer ", reference.named)
        } else {
            ("", reference.place)
        };
        push_sentence(
            text,
            "it reads {}{}, which is not on the list of reads; if this is intended, add `read {}`\n{} holds {}\n",
            &[
                Text(what),
                Address(cell),
                Advised(cell),
                Address(cell),
                Octal(self.cpu.memory.get(cell)),
            ],
        )
    }
}
