//! Which fact it is, where several stand at an address, and what tells it from the others.

use crate::verdicts::reason_context::{Distinction, ReasonContext};
use command_parts::message::{MessageWriter, Written};
use command_parts::sentence::Argument::{Address, Number, Octal};
use command_parts::sentence::push_sentence;

/// Adds what tells a fact from another at its address.
fn push_mark<L: MessageWriter>(text: &mut L, mark: &Distinction) -> Written {
    match mark {
        Distinction::CalledFrom(site) => {
            push_sentence(text, ", for the call from {}", &[Address(*site)])
        }
        Distinction::LinkClear => text.push_text(b", link 0"),
        Distinction::LinkSet => text.push_text(b", link 1"),
        Distinction::Accumulator(word) => push_sentence(text, ", AC = {}", &[Octal(*word)]),
        Distinction::Cell(cell, word) => {
            push_sentence(text, ", [{}] = {}", &[Address(*cell), Octal(*word)])
        }
    }
}

/// Adds which fact it is, where several stand at the address: its place among them, counted from 1, and all that tells it from others.
pub fn push_which<L: MessageWriter>(text: &mut L, telling: &ReasonContext) -> Written {
    let Some(index) = telling.place else {
        return Ok(());
    };
    if telling.count < 2 {
        return Ok(());
    }
    let place = [Number(index.saturating_add(1)), Number(telling.count)];
    push_sentence(text, "fact {} of {} at this address", &place)?;
    for mark in &telling.marks {
        if let Some(mark) = mark {
            push_mark(text, mark)?;
        }
    }
    text.push_text(b": ")
}
