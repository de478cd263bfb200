//! Sentences for people, each a template and what stands in it. They are tested and not proved.

use crate::message::{MessageWriter, Written};
use instruct::{Profile, name};
use itoa::Buffer;
use word12::{Link, Word};
use wordset::WordSet;

/// The most ranges of a set that are shown.
const MOST_RANGES: usize = 16;

/// What stands in a sentence where its template has `{}`.
#[derive(Clone, Copy)]
pub enum Argument<'a> {
    /// An address of the program.
    Address(Word),
    /// The address of a cell of which something is said: the same, but for a link to it.
    Cell(Word),
    /// An address within a line of a declaration that is advised.
    Advised(Word),
    /// A word that is not an address.
    Octal(Word),
    /// A link, as a digit.
    Digit(Link),
    /// A number, in decimal digits.
    Number(usize),
    /// An offset from a return address, in octal digits.
    Offset(usize),
    /// The name of a word as an instruction of a machine.
    Name(Word, Profile),
    /// A text.
    Text(&'a str),
    /// A text in bytes.
    Bytes(&'a [u8]),
    /// Words, by the first ranges of their set and how many more there are.
    Words(&'a WordSet),
    /// Addresses of the program, by the first ranges of their set and how many more there are.
    Addresses(&'a WordSet),
    /// Offsets from a return address, each of them.
    Offsets(&'a WordSet),
}

/// Adds a number in decimal digits.
fn push_number<L: MessageWriter>(text: &mut L, number: usize) -> Written {
    text.push_text(Buffer::new().format(number).as_bytes())
}

/// Adds a number in octal digits.
fn push_offset<L: MessageWriter>(text: &mut L, offset: usize) -> Written {
    if offset >= 8 {
        push_number(text, offset / 8)?;
    }
    push_number(text, offset % 8)
}

/// Adds a range of addresses or of other words.
fn push_range<L: MessageWriter>(
    text: &mut L,
    first: Word,
    last: Word,
    are_addresses: bool,
) -> Written {
    if are_addresses {
        text.push_address(first)?;
    } else {
        text.push_text(&first.to_octal())?;
    }
    if first == last {
        return Ok(());
    }
    text.push_text(b"-")?;
    if are_addresses {
        text.push_cell(last)
    } else {
        text.push_text(&last.to_octal())
    }
}

/// Adds the first ranges of a set of addresses or of other words, and how many more of them there are. Of an empty set a
/// dash is shown.
fn push_set<L: MessageWriter>(text: &mut L, set: &WordSet, are_addresses: bool) -> Written {
    let mut rest = *set;
    let mut shown = 0usize;
    for (first, last) in set.ranges() {
        if shown == MOST_RANGES {
            text.push_text(b" and ")?;
            push_number(text, rest.count())?;
            return text.push_text(b" more");
        }
        if shown > 0 {
            text.push_text(b",")?;
        }
        push_range(text, first, last, are_addresses)?;
        rest = rest.minus(&WordSet::range(first, last));
        shown = shown.saturating_add(1);
    }
    text.push_text(if shown == 0 { b"-" } else { b"" })
}

/// Adds each of some offsets; if there are none, a dash is shown.
fn push_offsets<L: MessageWriter>(text: &mut L, offsets: &WordSet) -> Written {
    let mut is_first = true;
    for offset in offsets.iter() {
        if !is_first {
            text.push_text(b",")?;
        }
        push_offset(text, offset.index())?;
        is_first = false;
    }
    text.push_text(if is_first { b"-" } else { b"" })
}

/// Adds what stands in a sentence.
///
/// # Errors
///
/// Memory was refused.
pub fn push_argument<L: MessageWriter>(text: &mut L, argument: &Argument<'_>) -> Written {
    match argument {
        Argument::Address(at) => text.push_address(*at),
        Argument::Cell(at) => text.push_cell(*at),
        Argument::Advised(at) => text.push_advised_address(*at),
        Argument::Octal(word) => text.push_text(&word.to_octal()),
        Argument::Digit(link) => push_number(text, usize::from(link.is_set())),
        Argument::Number(number) => push_number(text, *number),
        Argument::Offset(offset) => push_offset(text, *offset),
        Argument::Name(word, profile) => text.push_text(name(*word, *profile).as_str().as_bytes()),
        Argument::Text(words) => text.push_text(words.as_bytes()),
        Argument::Bytes(bytes) => text.push_text(bytes),
        Argument::Words(set) => push_set(text, set, false),
        Argument::Addresses(set) => push_set(text, set, true),
        Argument::Offsets(offsets) => push_offsets(text, offsets),
    }
}

/// Adds a sentence: a template with an argument in place of each `{}`.
///
/// # Errors
///
/// Memory was refused.
pub fn push_sentence<L: MessageWriter>(
    text: &mut L,
    template: &str,
    arguments: &[Argument<'_>],
) -> Written {
    let mut rest = template;
    for argument in arguments {
        let Some((before, behind)) = rest.split_once("{}") else {
            break;
        };
        text.push_text(before.as_bytes())?;
        push_argument(text, argument)?;
        rest = behind;
    }
    text.push_text(rest.as_bytes())
}
