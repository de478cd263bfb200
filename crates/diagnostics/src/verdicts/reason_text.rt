//! The words that say why a condition fails.

mod asked;
mod landing;
mod marks;
mod violation;

use crate::verdicts::reason_context::reason_context_of;
use crate::verdicts::reason_text::asked::asked_of;
use crate::verdicts::reason_text::landing::push_start;
use crate::verdicts::reason_text::marks::push_which;
use crate::verdicts::reason_text::violation::{push_denied, push_exit_line, push_violation};
use crate::verdicts::verdict::condition_name;
use bin_tape::Image;
use command_parts::message::{MessageWriter, Written};
use command_parts::sentence::Argument::{Address, Number, Offset, Text};
use command_parts::sentence::push_sentence;
use declaration::Declaration;
use domain::Rules;
use judge::{Claims, Refusal};
use reasons::Reason;
use std::alloc::Allocator;
use word12::Word;

/// Adds what a fact in the body of a routine lacks.
fn push_in_body<L: MessageWriter>(text: &mut L, entry: Word, lack: &str) -> Written {
    let arguments = [Address(entry), Text(lack)];
    push_sentence(
        text,
        "the fact is in the body of the routine {}{}",
        &arguments,
    )
}

/// Adds why a condition fails.
fn push_reason<L: MessageWriter>(text: &mut L, rules: &Rules, reason: &Reason) -> Written {
    match reason {
        Reason::AtStart(landing) => push_start(text, landing),
        Reason::LineAtNoEntry => {
            text.push_text(b"a routine or exit line names this address, which is not an entry")
        }
        Reason::InNoBody => {
            text.push_text(b"there is a fact at this address, which is not in any body")
        }
        Reason::OffsetInMain(_, offset) => push_sentence(
            text,
            "the fact is in main's body but has the offset {}",
            &[Offset(*offset)],
        ),
        Reason::SitesInMain(_) => text.push_text(b"the fact is in main's body but has sites"),
        Reason::NoOffset(_, entry) => push_in_body(text, *entry, " but has no offset"),
        Reason::NoSites(_, entry) => push_in_body(text, *entry, " but has no sites"),
        Reason::RoutineNotListed(entry) => {
            push_in_body(text, *entry, ", which has no routine line")
        }
        Reason::TooManyWords(_, count) => {
            push_sentence(text, "{} words are possible", &[Number(*count)])
        }
        Reason::ByWord(_, _, breach) => push_violation(text, rules, breach),
        Reason::ExitDeniesAssertion(offset, index, subject, word) => {
            text.push_text(b"when it returns with offset ")?;
            push_exit_line(text, rules, *offset, " by exit line ", *index)?;
            text.push_text(b", ")?;
            push_denied(text, subject, *word, "returns")
        }
    }
}

/// Adds why a verdict is no: the address with its word and its name, what the condition asks, and the reason, if one is given, with what
/// tells its fact from others. The word is the one that violates the condition, or else that of the tape.
pub fn push_why<L: MessageWriter, D: Allocator, C: Claims>(
    text: &mut L,
    image: &Image,
    declaration: &Declaration<D>,
    claims: &C,
    refusal: &Refusal,
    reason: &Option<Reason>,
) -> Written {
    let shown = match reason {
        Some(Reason::ByWord(_, word, _)) => Some(*word),
        _ => image.get(refusal.address),
    };
    text.push_instruction(refusal.address, shown, declaration.profile())?;
    let telling = reason_context_of(claims, refusal, reason);
    let name = condition_name(refusal.condition);
    let asked = asked_of(&telling.rules, refusal.condition);
    push_sentence(text, "{} requires: {}\n", &[Text(name), Text(asked)])?;
    let Some(reason) = reason else {
        return Ok(());
    };
    push_which(text, &telling)?;
    push_reason(text, &telling.rules, reason)?;
    text.push_text(b"\n")
}
