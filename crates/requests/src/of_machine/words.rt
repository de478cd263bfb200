//! The words of a program, with what its source, if there is one, says about each.

use crate::of_sources::assembled::AssembledSource;
use crate::of_sources::source_lines::after_tag;
use bin_tape::Image;
use command_parts::text::push_place;
use instruct::Profile;
use machine_commands::long_trace::{Statements, push_full_name};
use reports::reporting::{SourceNote, SourceNotes};
use std::alloc::{AllocError, Allocator, Global};
use word12::Word;

/// Adds a piece after two spaces.
fn push_apart(text: &mut Vec<u8>, piece: &[u8]) -> Result<(), AllocError> {
    text.extend_from_slice(b"  ")?;
    text.extend_from_slice(piece)
}

/// Adds what the source says about a word: the last tag before it and, for the first word of a line, the line itself.
fn push_note(text: &mut Vec<u8>, note: SourceNote<'_>) -> Result<(), AllocError> {
    let is_tagged = note.is_first && after_tag(note).is_some();
    if !note.label.is_empty() && !is_tagged {
        push_apart(text, note.label)?;
    }
    if note.is_first {
        push_apart(text, note.text)?;
    }
    Ok(())
}

/// A line for each word of an image, in order of address: the address, the word, its name with a full address, and what
/// the source, if there is one, says about it.
pub(crate) fn words_of(
    alloc: Global,
    image: &Image,
    profile: Profile,
    notes: Option<&SourceNotes<Global>>,
) -> Result<Vec<u8>, AllocError> {
    let mut text = Vec::new(alloc);
    for index in 0..4096 {
        let at = Word::from_index(index);
        let Some(word) = image.get(at) else {
            continue;
        };
        push_place(&mut text, b"", at)?;
        push_place(&mut text, b" ", word)?;
        text.push(b' ')?;
        push_full_name(&mut text, at, word, profile)?;
        if let Some(note) = notes.and_then(|notes| notes.at(at)) {
            push_note(&mut text, note)?;
        }
        text.push(b'\n')?;
    }
    Ok(text)
}

/// Shows instructions as the source writes them. A word is shown so if it is the first of a line, and the program has
/// not changed it.
#[derive(Clone, Copy)]
pub(crate) struct SourceStatements<'s> {
    /// The source that was assembled.
    pub(crate) source: &'s AssembledSource,
    /// The machine that it is for.
    pub(crate) profile: Profile,
}

/// A line's text without the tag at its beginning.
fn without_tag(note: SourceNote<'_>) -> &[u8] {
    match after_tag(note) {
        Some(rest) => rest.trim_ascii_start(),
        None => note.text,
    }
}

impl Statements for SourceStatements<'_> {
    fn push_statement<A: Allocator>(
        &self,
        line: &mut Vec<u8, A>,
        at: Word,
        word: Word,
    ) -> Result<(), AllocError> {
        let label = self.source.label(at);
        if !label.is_empty() {
            line.extend_from_slice(b" ")?;
            line.extend_from_slice(label)?;
        }
        line.extend_from_slice(b"  ")?;
        let is_unchanged = self.source.numbered.program.image().get(at) == Some(word);
        match self.source.notes.at(at) {
            Some(note) if note.is_first && is_unchanged => line.extend_from_slice(without_tag(
                note,
            )),
            _ => push_full_name(line, at, word, self.profile),
        }
    }
}
