//! Lines of an assertion that is false.

use crate::violations::ViolatingStep;
use crate::violations::returns::distance;
use command_parts::message::{MessageWriter, Written};
use command_parts::sentence::Argument::{Address, Octal, Text};
use command_parts::sentence::{Argument, push_sentence};
use declaration::{Assertion, Subject};
use policy::Call;
use std::alloc::Allocator;
use word12::Word;

/// Of what an assertion speaks.
fn name_of(subject: &Subject) -> Argument<'static> {
    match subject {
        Subject::Accumulator => Text("AC"),
        Subject::Link => Text("the link"),
        Subject::Mq => Text("MQ"),
        Subject::Cell(cell) => Address(*cell),
    }
}

impl<D: Allocator> ViolatingStep<'_, D> {
    /// The word that the subject of an assertion has.
    fn word_of(&self, subject: &Subject) -> Word {
        match subject {
            Subject::Accumulator => self.cpu.ac,
            Subject::Link => Word::from_index(usize::from(self.cpu.link.is_set())),
            Subject::Mq => self.cpu.mq,
            Subject::Cell(cell) => self.cpu.memory.get(*cell),
        }
    }

    /// Whether what is asserted is not so.
    fn is_denied(&self, assertion: &Assertion) -> bool {
        !assertion
            .words()
            .contains(self.word_of(assertion.subject()))
    }

    /// Adds the line of the subject of an assertion that is false, and of the word that it has.
    fn push_denied<L: MessageWriter>(&self, text: &mut L, assertion: &Assertion) -> Written {
        let subject = assertion.subject();
        push_sentence(
            text,
            "{} holds {}, which is not one of the words that the declaration allows\n",
            &[name_of(subject), Octal(self.word_of(subject))],
        )
    }

    /// Adds the line of the first thing that is declared to hold at the return from the last call and does not.
    fn push_unasserted_return<L: MessageWriter>(&self, text: &mut L, call: &Call) -> Written {
        let offset = distance(self.cpu.memory.get(call.entry), call.after);
        for returning in self.declaration.returns() {
            let applies = returning.entry() == call.entry && returning.offsets().contains(offset);
            if applies && self.is_denied(returning.assertion()) {
                let by = [Octal(offset)];
                push_sentence(text, "at a return with offset {}, ", &by)?;
                return self.push_denied(text, returning.assertion());
            }
        }
        Ok(())
    }

    /// Adds the line of the first thing that is declared to hold at the address, or at the return, and does not.
    pub(super) fn push_unasserted<L: MessageWriter>(&self, text: &mut L) -> Written {
        for holding in self.declaration.holds() {
            if holding.places().contains(self.cpu.pc) && self.is_denied(holding.assertion()) {
                return self.push_denied(text, holding.assertion());
            }
        }
        match &self.last {
            None => Ok(()),
            Some(call) => self.push_unasserted_return(text, call),
        }
    }
}
