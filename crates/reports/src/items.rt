//! The items of a line: what each kind of them says.

use crate::known_fact::Subject;
use crate::writer::ReportWriter;
use command_parts::message::{MessageWriter, Written};
use command_parts::sentence::Argument::{Addresses, Cell, Offsets, Words};
use command_parts::sentence::push_sentence;
use diagnostics::sums::{push_chain, push_in, push_lost, push_relation, push_told};
use domain::{Chain, Relation, Sum};
use instruct::Profile;
use std::alloc::Allocator;
use word12::Word;
use wordset::WordSet;

/// What an item of a line says.
#[derive(Clone, Copy)]
pub(crate) enum Item<'a> {
    /// Which words a subject may be.
    Words(&'a Subject, &'a WordSet),
    /// An equation, and the words that are left to the name on its left.
    Equation(&'a Relation, &'a WordSet),
    /// By how much a term is more or less than another, or which words a sum may be.
    Relation(&'a Relation),
    /// That nothing is known about a sum any more.
    LostSum(&'a Sum),
    /// From which word the accumulator comes, by which steps.
    Chain(Profile, &'a Chain),
    /// That the accumulator does not come from a cell any more.
    LostChain(Word),
}

/// What the link may be.
fn link_text(links: &WordSet) -> &'static [u8] {
    match (
        links.contains(Word::ZERO),
        links.contains(Word::from_index(1)),
    ) {
        (true, true) => b"L any",
        (true, false) => b"L is 0",
        (false, true) => b"L is 1",
        (false, false) => b"L is neither",
    }
}

/// Adds which words a register, the link or a cell may hold, by how much the return word may have been incremented, or from where the
/// routine was called.
pub(crate) fn push_subject<L: MessageWriter>(
    text: &mut L,
    subject: &Subject,
    set: &WordSet,
) -> Written {
    match subject {
        Subject::Accumulator => text.push_text(b"AC")?,
        Subject::Mq => text.push_text(b"MQ")?,
        Subject::Cell(cell) => text.push_cell(*cell)?,
        Subject::Link => return text.push_text(link_text(set)),
        Subject::Offsets => return push_sentence(text, "return word up by {}", &[Offsets(set)]),
        Subject::Sites => return push_sentence(text, "called from {}", &[Addresses(set)]),
    }
    if set.is_all() {
        text.push_text(b" any")
    } else {
        push_in(text, set)
    }
}

/// Adds an equation, and the words that are left to the name on its left, where they are not all words.
fn push_equation<L: MessageWriter>(text: &mut L, equation: &Relation, left: &WordSet) -> Written {
    push_told(text, &equation.sum, &equation.set.only())?;
    if left.is_all() {
        return Ok(());
    }
    push_sentence(text, ", so {}", &[Words(left)])
}

/// Adds the text of an item.
fn push_item<L: MessageWriter>(text: &mut L, item: &Item<'_>) -> Written {
    match item {
        Item::Words(subject, set) => push_subject(text, subject, set),
        Item::Equation(equation, left) => push_equation(text, equation, left),
        Item::Relation(relation) => push_relation(text, relation),
        Item::LostSum(sum) => push_lost(text, sum),
        Item::Chain(profile, chain) => push_chain(text, *profile, chain),
        Item::LostChain(cell) => {
            push_sentence(text, "AC no longer comes from [{}]", &[Cell(*cell)])
        }
    }
}

/// Writes an item. One that is the same as on the line above is set apart, or left out.
pub(crate) fn write_item<A: Allocator>(
    writer: &mut ReportWriter<'_, A>,
    item: &Item<'_>,
    same: bool,
) {
    if !same {
        writer.separate();
        let _ = push_item(writer, item);
    } else if writer.shows_same() {
        writer.separate();
        writer.mark(b"<i>");
        let _ = push_item(writer, item);
        writer.mark(b"</i>");
    }
}
