//! Lines of a step that is not where control may be: outside a body, at no instruction, at no entry, or at no declared halt.

use crate::violations::ViolatingStep;
use crate::violations::returns::distance;
use command_parts::message::{MessageWriter, Written};
use command_parts::sentence::Argument::{Address, Advised, Octal, Text};
use command_parts::sentence::push_sentence;
use declaration::Owner;
use instruct::{Format, Operation, refers_indirectly, target};
use processor::is_auto_index;
use std::alloc::Allocator;
use word12::Word;

impl<D: Allocator> ViolatingStep<'_, D> {
    /// Whether control came by a JMP that is no return: a return ends one call, whatever is declared.
    fn came_by_jump(&self) -> bool {
        let Some(executed) = self.executed else {
            return false;
        };
        let is_return = refers_indirectly(executed.word)
            && self
                .declaration
                .is_entry(target(executed.word, executed.at));
        let is_jump = Format::of(executed.word) == Format::Reference(Operation::Jmp);
        is_jump && !is_return
    }

    /// Adds in whose body an address is, or what to declare if it is code of the running routine or, in main's body, the JMP to it
    /// is to end all calls.
    fn push_owner<L: MessageWriter>(&self, text: &mut L, at: Word) -> Written {
        let owner = self.declaration.owner_of(at);
        let (template, named) = match (&owner, &self.last) {
            (None, None) => ("; if it belongs there, add `main {}`\n", at),
            (None, Some(call)) => (
                "; if it belongs there, add it to the body of `sub {}`\n",
                call.entry,
            ),
            (Some(Owner::Main), _) if self.came_by_jump() => (
                ": it is in main's body; if this JMP is meant to end all calls, add `abandon {}`\n",
                at,
            ),
            (Some(Owner::Main), _) => (": it is in main's body\n", at),
            (Some(Owner::Routine(entry)), _) => (": it is in the body of `sub {}`\n", *entry),
        };
        push_sentence(text, template, &[Advised(named)])
    }

    /// Adds the line of an address that is not in the running routine's body, to which an instruction led.
    fn push_outside<L: MessageWriter>(&self, text: &mut L, at: Word) -> Written {
        let running = match &self.last {
            None => "main's",
            Some(_) => "the running routine's",
        };
        let arguments = [Address(at), Text(running)];
        push_sentence(text, "{} is not in {} body", &arguments)?;
        if self.declaration.is_entry(at) {
            return text.push_text(
                b": it is an entry, which holds a return address and must not be executed\n",
            );
        }
        self.push_owner(text, at)
    }

    /// Adds the line of a step that leaves the running routine's body, or is at no instruction.
    pub(super) fn push_stray<L: MessageWriter>(&self, text: &mut L) -> Written {
        let at = self.cpu.pc;
        let is_inside = match &self.last {
            None => self.declaration.in_main(at),
            Some(call) => self.declaration.in_body(call.entry, at),
        };
        if is_inside {
            return push_sentence(
                text,
                "the word {} is not an instruction of the declared machine\n",
                &[Octal(self.cpu.memory.get(at))],
            );
        }
        self.push_outside(text, at)
    }

    /// Adds the line of a JMS to an address that is not an entry, and what to declare if a routine begins there.
    pub(super) fn push_no_entry<L: MessageWriter>(&self, text: &mut L, place: Word) -> Written {
        let is_taken = self.declaration.owner_of(place).is_some()
            || self.declaration.is_variable(place);
        let template = if is_auto_index(place) {
            "it goes to {}, which is not an entry; no routine can begin at 0010 to 0017\n"
        } else if is_taken {
            "it goes to {}, which is not an entry; if a routine begins there, add `sub {} body .. returns ..`, and remove the entry from the body and the variables\n"
        } else {
            "it goes to {}, which is not an entry; if a routine begins there, add `sub {} body .. returns ..`\n"
        };
        push_sentence(text, template, &[Address(place), Advised(place)])
    }

    /// Adds the line of a HLT at an address where none is declared, and what to declare if it may stand there.
    pub(super) fn push_no_halt<L: MessageWriter>(&self, text: &mut L) -> Written {
        let at = self.cpu.pc;
        push_sentence(
            text,
            "{} is not a declared halt; if this halt is intended, add `stop {}`, or `pause {}` if the operator may continue\n",
            &[Address(at), Advised(at), Advised(at)],
        )
    }

    /// Adds the line of the routine that runs, and where it was called from.
    pub(super) fn push_running<L: MessageWriter>(&self, text: &mut L) -> Written {
        let Some(call) = self.last else {
            return push_sentence(text, "the main program is running\n", &[]);
        };
        let site = distance(call.after, Word::from_index(1));
        push_sentence(
            text,
            "the routine {} is running, called at {}\n",
            &[Address(call.entry), Address(site)],
        )
    }

    /// Adds the instruction from which control came, if there is one.
    pub(super) fn push_origin<L: MessageWriter>(&self, text: &mut L) -> Written {
        let Some(executed) = self.executed else {
            return Ok(());
        };
        text.push_text(b"control came from:\n")?;
        text.push_instruction(executed.at, Some(executed.word), self.declaration.profile())
    }
}
