//! A source that was assembled, its declaration in numbers, and what the source says about its addresses.

use crate::hints::CommandFiles;
use crate::of_sources::numbering::{number_source, report_numbering_fault};
use crate::of_sources::reading::{
    DeclarationOrigin, DeclarationUse, SourceInput, byte_slices, read_source,
};
use crate::source_faults::visible_names;
use command_parts::status::{Fault, Status};
use command_parts::visible::visible_bytes;
use labels::{NumberedProgram, NumberingFault, declared_lines, name_declaration};
use pal_acts::{PlacedWord, SourcePlace};
use pal_asm::Program;
use reports::reporting::{LinePlace, SourceNotes};
use std::alloc::{AllocError, Global};
use std::rt::Files;
use word12::Word;

/// A source that was assembled, what it says about its addresses, and its declaration.
#[derive(Drop)]
pub struct AssembledSource {
    /// Its tape, its declaration in numbers, and its lines.
    pub numbered: NumberedProgram<Global>,
    /// What it says about each address.
    pub notes: SourceNotes<Global>,
    /// Its parts and its declaration with symbols, as they were read.
    pub given: SourceInput,
    /// The names of its parts, as they are shown.
    pub names: Vec<String>,
    /// Its declaration with symbols, as it is written for people.
    pub written: Vec<u8>,
    /// Its declaration in numbers, as it is written for people.
    pub shown: Vec<u8>,
}

impl AssembledSource {
    /// Whether there is a declaration; otherwise one is to be proposed.
    pub fn is_declared(&self) -> bool {
        self.given.origin != DeclarationOrigin::Proposed
    }

    /// The source's name for an address, or nothing if it has none.
    pub(crate) fn label(&self, at: Word) -> &[u8] {
        match self.notes.at(at) {
            Some(note) => note.label,
            None => b"",
        }
    }

    /// A declaration in numbers, written with the symbols of the source. A line of the declaration that was given stays
    /// as it was given where it means the same.
    ///
    /// # Errors
    ///
    /// Only `NoMemory`, since the source has no fault.
    pub fn with_symbols(&self, alloc: Global, numbers: &[u8]) -> Result<Vec<u8>, Fault> {
        let kept: &[u8] = if self.is_declared() {
            &self.written
        } else {
            &[]
        };
        let parts = byte_slices(alloc, &self.given.parts)?;
        match name_declaration(alloc, &parts, numbers, kept) {
            Ok(text) => Ok(text),
            Err(NumberingFault::Source(fault)) => Err(Fault::Source(fault)),
            Err(_) => Err(Fault::NoMemory),
        }
    }
}

/// Notes the next words that stand at this place, and returns the words after them.
fn note_words<'w>(
    notes: &mut SourceNotes<Global>,
    place: SourcePlace,
    words: &'w [PlacedWord],
) -> Result<&'w [PlacedWord], AllocError> {
    let mut rest = words;
    while let [word, more @ ..] = rest {
        if word.place != place {
            break;
        }
        notes.note(word.at)?;
        rest = more;
    }
    Ok(rest)
}

/// What a source says about its addresses, as it may be shown to people.
fn notes_of(alloc: Global, program: &Program<Global>) -> Result<SourceNotes<Global>, AllocError> {
    let mut notes = SourceNotes::new(alloc)?;
    let mut rest = program.words();
    for line in program.lines() {
        let SourcePlace { part, line: number } = line.place;
        let place = LinePlace { part, line: number };
        notes.next_line(place, visible_bytes(alloc, program.text(line))?.as_bytes())?;
        rest = note_words(&mut notes, line.place, rest)?;
    }
    Ok(notes)
}

/// A text without its empty lines, and without blanks around the others.
fn without_empty_lines(alloc: Global, text: &[u8]) -> Result<Vec<u8>, AllocError> {
    let mut kept = Vec::new(alloc);
    for line in text.split(|byte| *byte == b'\n') {
        let line = line.trim_ascii();
        if !line.is_empty() {
            kept.extend_from_slice(line)?;
            kept.extend_from_slice(b"\n")?;
        }
    }
    Ok(kept)
}

/// The declaration as it is written for people, with symbols and in numbers. A declaration from lines within a source
/// has an empty line for each other line of the source; these empty lines are left out. With symbols, a line that
/// leaves out its address still does so here.
fn readable_declarations(
    alloc: Global,
    given: &SourceInput,
    numbers: &[u8],
) -> Result<(Vec<u8>, Vec<u8>), AllocError> {
    if given.origin != DeclarationOrigin::Within {
        return Ok((given.text.to_vec(alloc)?, numbers.to_vec(alloc)?));
    }
    let parts = byte_slices(alloc, &given.parts)?;
    let written = without_empty_lines(alloc, &declared_lines(alloc, &parts)?)?;
    Ok((written, without_empty_lines(alloc, numbers)?))
}

/// A source that has no fault and whose parts have these names, with what it says about its addresses.
fn describe_source(
    alloc: Global,
    given: SourceInput,
    numbered: NumberedProgram<Global>,
    names: &[&str],
) -> Result<AssembledSource, AllocError> {
    let notes = notes_of(alloc, &numbered.program)?;
    let (written, shown) = readable_declarations(alloc, &given, &numbered.declaration)?;
    let names = visible_names(alloc, names)?;
    Ok(AssembledSource {
        numbered,
        notes,
        given,
        names,
        written,
        shown,
    })
}

/// Reads and assembles the source of a command, or returns the status of the problem that was reported. The parts are
/// opened and read in order, and then the declaration.
///
/// # Errors
///
/// As for `read_source`, and `EmptyImage` if the source assembles to no words.
#[inline(never)]
pub(crate) fn assemble_source<R: Files + Input + Eprint>(
    rt: &R,
    alloc: Global,
    files: &CommandFiles<'_, '_>,
    declared: DeclarationUse,
) -> Result<Result<AssembledSource, Status>, Fault> {
    let given = match read_source(rt, alloc, files, declared)? {
        Ok(given) => given,
        Err(status) => return Ok(Err(status)),
    };
    let numbered = match number_source(alloc, &given, declared) {
        Ok(numbered) => numbered,
        Err(fault) => return Ok(Err(report_numbering_fault(rt, alloc, fault, files, &given)?)),
    };
    Ok(Ok(describe_source(alloc, given, numbered, files.parts)?))
}
