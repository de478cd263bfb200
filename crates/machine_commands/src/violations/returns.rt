//! Lines of a return that does not go where its call may return.

use crate::violations::ViolatingStep;
use command_parts::message::{MessageWriter, Written};
use command_parts::sentence::Argument::{Address, Advised, Number, Octal};
use command_parts::sentence::push_sentence;
use policy::Call;
use std::alloc::Allocator;
use word12::Word;

/// How far an address is after another, modulo 4096.
pub(super) fn distance(to: Word, from: Word) -> Word {
    to.add(from.complement()).increment()
}

/// Adds what to declare of a return through the running routine's own entry, if it goes to one of the 64 addresses from
/// the call on: with the first eight the `sub` line may list the offset, with the others a `skips` line may.
fn push_offset_advice<L: MessageWriter>(
    text: &mut L,
    call: &Call,
    entry: Word,
    to: Word,
) -> Written {
    let offset = distance(to, call.after);
    if call.entry != entry || offset.value() > 63 {
        return Ok(());
    }
    let to = [Address(to)];
    push_sentence(text, "if a return to {} is intended, add ", &to)?;
    if offset.value() < 8 {
        let number = Number(offset.index());
        let arguments = [number, Advised(entry)];
        return push_sentence(text, "the offset {} to the line `sub {}`\n", &arguments);
    }
    let arguments = [Advised(entry), Octal(offset)];
    push_sentence(text, "`skips {} {}`\n", &arguments)
}

impl<D: Allocator> ViolatingStep<'_, D> {
    /// Adds the line of the addresses to which a call may return: those by the offsets that are declared of its routine.
    fn push_returns<L: MessageWriter>(&self, text: &mut L, call: &Call) -> Written {
        let entry = [Address(call.entry)];
        let mut is_one_told = false;
        for index in 0..64usize {
            let offset = Word::from_index(index);
            if !self.declaration.has_offset(call.entry, offset) {
                continue;
            }
            if is_one_told {
                text.push_text(b" or ")?;
            } else {
                push_sentence(text, "the routine {} is declared to return to ", &entry)?;
            }
            text.push_address(call.after.add(offset))?;
            is_one_told = true;
        }
        if is_one_told {
            return text.push_text(b"\n");
        }
        push_sentence(text, "no return is declared for the routine {}\n", &entry)
    }

    /// Adds the lines of a return through an entry, to the address in it: the call that it does not return from, and where
    /// that may return to.
    pub(super) fn push_return<L: MessageWriter>(&self, text: &mut L, entry: Word) -> Written {
        let to = self.cpu.memory.get(entry);
        push_sentence(
            text,
            "it goes to {}, which is the word in the entry {}",
            &[Address(to), Address(entry)],
        )?;
        let Some(call) = self.last else {
            return push_sentence(text, "; no call is open\n", &[]);
        };
        push_sentence(
            text,
            "; the last call is to {}, and its return address is {}\n",
            &[Address(call.entry), Address(call.after)],
        )?;
        self.push_returns(text, &call)?;
        push_offset_advice(text, &call, entry, to)
    }
}
