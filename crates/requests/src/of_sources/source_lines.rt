//! Adds what a source says about addresses to texts for people. It is proved that the line of an answer comes first and
//! stays as it is; what comes below it is tested.

ghost use Rattle.std.specs.Prelude.{◌≡◌, ◌++◌, IfOk, None, OnOk};
ghost use Rattle.command_parts.specs.Messages.{BeginsWith, plain};

use crate::of_sources::assembled::AssembledSource;
use command_parts::message::{AddressMark, Message};
use itoa::Buffer;
use reports::reporting::{LinePlace, SourceNote};
use std::alloc::{AllocError, Global};
use word12::Word;

/// Adds what the source says about an instruction, as a line of its own.
fn push_source_line(
    alloc: Global,
    text: &mut Vec<u8>,
    at: Word,
    source: &AssembledSource,
) -> Result<(), AllocError> {
    let Some(note) = source.notes.at(at) else {
        return Ok(());
    };
    let LinePlace { part, line } = note.place;
    text.extend_from_slice(b"    ")?;
    if let Some(name) = source.names.get(part.saturating_sub(1)) {
        text.extend_from_slice(name.as_bytes())?;
    }
    text.push(b':')?;
    text.extend_from_slice(Buffer::new().format(line).as_bytes())?;
    text.extend_from_slice(b": ")?;
    if !note.label.is_empty() && after_tag(note).is_none() {
        text.extend_from_slice(note.label)?;
        text.extend_from_slice(b"  ")?;
    }
    text.extend_from_slice(note.text)?;
    text.extend_from_slice(b"\n")
}

/// What comes after the tag of a source's line, if the line begins with the tag that is the name of its address.
pub(crate) fn after_tag(note: SourceNote<'_>) -> Option<&[u8]> {
    note.text.strip_prefix(note.label)?.strip_prefix(b",")
}

/// Adds a piece of a text, and what the source says about its end: after an address, the source's name for it in
/// parentheses; in advice, that name in place of the address; and below an instruction, its line.
fn push_piece(
    alloc: Global,
    text: &mut Vec<u8>,
    piece: &[u8],
    mark: AddressMark,
    source: &AssembledSource,
) -> Result<(), AllocError> {
    match mark {
        AddressMark::Address(at) => {
            text.extend_from_slice(piece)?;
            let label = source.label(at);
            if label.is_empty() {
                return Ok(());
            }
            text.extend_from_slice(b" (")?;
            text.extend_from_slice(label)?;
            text.extend_from_slice(b")")
        }
        AddressMark::AdvisedAddress(at) => {
            let label = source.label(at);
            if label.is_empty() {
                return text.extend_from_slice(piece);
            }
            text.extend_from_slice(piece.get(..piece.len().saturating_sub(4)).unwrap_or(b""))?;
            text.extend_from_slice(label)
        }
        AddressMark::Instruction(at) => {
            text.extend_from_slice(piece)?;
            push_source_line(alloc, text, at, source)
        }
    }
}

/// A text for people with what the source says about its addresses.
fn with_source_lines(
    alloc: Global,
    source: &AssembledSource,
    message: &Message<Global>,
) -> Result<Vec<u8>, AllocError> {
    let bytes = message.as_bytes();
    let mut text = Vec::new(alloc);
    let mut done = 0;
    for placed in message.marks() {
        let piece = bytes.get(done..placed.place).unwrap_or(b"");
        push_piece(alloc, &mut text, piece, placed.mark, source)?;
        done = placed.place;
    }
    text.extend_from_slice(bytes.get(done..).unwrap_or(b""))?;
    Ok(text)
}

/// Adds a text for people, with what the source, if there is one, says about its addresses.
///
/// # Errors
///
/// `AllocError` if memory was refused.
pub fn push_details(
    alloc: Global,
    text: &mut Vec<u8>,
    source: Option<&AssembledSource>,
    details: &Message<Global>,
) -> Result<(), AllocError>
    // What the text had stays as it is.
    ensures front { OnOk result (BeginsWith text.old.items text.new.items) }
    // Without a source, the details are added unchanged.
    ensures whole { source.entry ≡ None →
        OnOk result (text.new.items ≡ text.old.items ++ plain details.now) }
{
    match source {
        Some(source) => text.extend_from_slice(&with_source_lines(alloc, source, details)?),
        None => text.extend_from_slice(details.as_bytes()),
    }
}

/// What is told of an answer: its line, and below it the details, with what the source, if there is one, says about
/// their addresses. The line reads the same with a source and without one.
///
/// # Errors
///
/// `AllocError` if memory was refused.
pub fn answer_text(
    alloc: Global,
    source: Option<&AssembledSource>,
    line: &[u8],
    details: &Message<Global>,
) -> Result<Vec<u8>, AllocError>
    ensures front { IfOk result (λ text. BeginsWith line.now text.items) }
    // Without a source, the details are unchanged too.
    ensures whole { source.entry ≡ None →
        IfOk result (λ text. text.items ≡ line.now ++ plain details.now) }
{
    let mut text = Vec::new(alloc);
    text.extend_from_slice(line)?;
    push_details(alloc, &mut text, source, details)?;
    Ok(text)
}
