//! The text of a declaration, with what it lacks of another declaration added.

use crate::completing::end_text;
use control_flow::{above_seven, push_cells_ending, push_low_offsets, push_skips};
use declaration::writing::{push_range, push_ranges};
use declaration::{Declaration, Offsets, Routine};
use diagnostics::verdicts::surplus_text::declared_offsets;
use std::alloc::{AllocError, Allocator};
use streams::text::{self, Words};
use word12::Word;
use wordset::WordSet;

/// The end of an added line.
const END_OF_ADDED: &[u8] = b" / added\n";

/// A declaration, and another one from which it gets what it lacks.
#[derive(Drop)]
struct Merging<'a, A: Allocator> {
    given: &'a Declaration<A>,
    proposed: &'a Declaration<A>,
    /// The cells of all bodies of the given declaration.
    bodies: WordSet,
    /// The entries of all its routines.
    entries: WordSet,
}

/// What is added to the line of a routine.
#[derive(Clone, Copy)]
struct Addition {
    body: WordSet,
    offsets: WordSet,
}

/// The routine of an entry, if there is one.
pub(crate) fn routine_of(routines: &[Routine], entry: Word) -> Option<&Routine> {
    routines.iter().find(|routine| routine.entry() == entry)
}

/// Offsets as a set.
pub(crate) fn set_of(offsets: &Offsets) -> WordSet {
    let mut set = WordSet::empty();
    for index in 0..8usize {
        let offset = Word::from_index(index);
        if offsets.contains(offset) {
            set.insert(offset);
        }
    }
    set
}

/// The entry on this line, if it is the line of a routine.
fn entry_on(line: &[u8]) -> Option<Word> {
    let mut words = Words::of(line);
    match words.next() {
        Some(first) if text::is(first, "sub") => match words.next() {
            Some(entry) => text::octal_word(entry),
            None => None,
        },
        _ => None,
    }
}

/// Ends an added line.
pub(crate) fn end_line<A: Allocator>(text: &mut Vec<u8, A>) -> Result<(), AllocError> {
    text.extend_from_slice(END_OF_ADDED)
}

/// Adds lines of a kind with the ranges of a set, if the set is not empty.
fn push_cells<A: Allocator>(
    text: &mut Vec<u8, A>,
    kind: &[u8],
    set: &WordSet,
) -> Result<(), AllocError> {
    push_cells_ending(text, kind, set, END_OF_ADDED)
}

/// Adds a line of a kind for each cell of a set.
fn push_halts<A: Allocator>(
    text: &mut Vec<u8, A>,
    kind: &[u8],
    set: &WordSet,
) -> Result<(), AllocError> {
    for at in set.iter() {
        text.extend_from_slice(kind)?;
        push_range(text, at, at)?;
        end_line(text)?;
    }
    Ok(())
}

/// Adds the line of a routine with this body and these offsets, without its end.
pub(crate) fn push_sub<A: Allocator>(
    text: &mut Vec<u8, A>,
    entry: Word,
    body: &WordSet,
    offsets: &WordSet,
) -> Result<(), AllocError> {
    text.extend_from_slice(b"sub")?;
    push_range(text, entry, entry)?;
    text.extend_from_slice(b" body")?;
    push_ranges(text, body)?;
    text.extend_from_slice(b" returns")?;
    push_low_offsets(text, offsets)
}

/// The words of a part of a line, without its comment, and what comes after them.
pub(crate) fn parted(part: &[u8]) -> (&[u8], &[u8]) {
    let front = match part.iter().position(|byte| *byte == b'/') {
        None => part,
        Some(end) => &part[..end],
    };
    let words = front.trim_ascii_end();
    match part.strip_prefix(words) {
        None => (part, &[]),
        Some(rest) => (words, rest),
    }
}

/// Adds the end of a routine's line, from the word `returns` on, with what is added to the line.
fn push_end<A: Allocator>(
    text: &mut Vec<u8, A>,
    end: &[u8],
    addition: &Addition,
) -> Result<(), AllocError> {
    let (words, rest) = parted(end);
    text.extend_from_slice(words)?;
    push_low_offsets(text, &addition.offsets)?;
    text.extend_from_slice(rest)?;
    text.extend_from_slice(b" / added")?;
    push_ranges(text, &addition.body)?;
    if addition.offsets.is_empty() {
        return Ok(());
    }
    text.extend_from_slice(b" returns")?;
    push_low_offsets(text, &addition.offsets)
}

/// Adds a routine's line with what is added to it. The first letter `r` in the line is that of `returns`.
fn push_extended<A: Allocator>(
    text: &mut Vec<u8, A>,
    line: &[u8],
    addition: &Addition,
) -> Result<(), AllocError> {
    let Some(at) = line.iter().position(|byte| *byte == b'r') else {
        return text.extend_from_slice(line);
    };
    let (words, rest) = parted(&line[..at]);
    text.extend_from_slice(words)?;
    push_ranges(text, &addition.body)?;
    text.extend_from_slice(rest)?;
    push_end(text, &line[at..], addition)
}

/// Adds a given line, without its line feed, and what is added to it.
fn push_line<A: Allocator>(
    text: &mut Vec<u8, A>,
    line: &[u8],
    addition: &Option<Addition>,
) -> Result<(), AllocError> {
    let Some(addition) = addition else {
        return text.extend_from_slice(line);
    };
    match line.split_last() {
        Some((b'\r', front)) => {
            push_extended(text, front, addition)?;
            text.extend_from_slice(b"\r")
        }
        _ => push_extended(text, line, addition),
    }
}

impl<'a, B: Allocator> Merging<'a, B> {
    /// The given declaration with what it lacks of the proposed one.
    fn of(given: &'a Declaration<B>, proposed: &'a Declaration<B>) -> Merging<'a, B> {
        Merging {
            given,
            proposed,
            bodies: given.bodies(),
            entries: given.entries(),
        }
    }

    /// The cells of a body that are in no given body and are no given entry.
    fn free(&self, body: &WordSet) -> WordSet {
        body.minus(&self.bodies).minus(&self.entries)
    }

    /// Whether a routine may be added: its entry has no other role, and its body has a free cell.
    fn admits(&self, routine: &Routine) -> bool {
        let entry = routine.entry();
        if self.entries.contains(entry) || self.bodies.contains(entry) {
            return false;
        }
        !self.given.is_variable(entry) && !self.free(routine.body()).is_empty()
    }

    /// The entries of all routines, including those that may be added.
    fn all_entries(&self) -> WordSet {
        let mut entries = self.entries;
        for routine in self.proposed.routines() {
            if self.admits(routine) {
                entries.insert(routine.entry());
            }
        }
        entries
    }

    /// The cells of all bodies, including those that may be added to the bodies of these routines.
    fn all_bodies(&self, entries: &WordSet) -> WordSet {
        let mut cells = self.bodies.union(&self.free(self.proposed.main()));
        for routine in self.proposed.routines() {
            if entries.contains(routine.entry()) {
                cells = cells.union(&self.free(routine.body()));
            }
        }
        cells
    }

    /// The variables that may be added. A cell of a body becomes a variable only if it is in a body of the other
    /// declaration too.
    fn added_variables(&self) -> WordSet {
        let kept = self
            .bodies
            .minus(&self.proposed.bodies())
            .union(&self.entries);
        let variables = self.proposed.variables();
        variables.minus(self.given.variables()).minus(&kept)
    }

    /// What is added to a line, if anything is.
    fn addition_to(&self, line: &[u8]) -> Option<Addition> {
        let entry = entry_on(line)?;
        if !self.given.is_entry(entry) {
            return None;
        }
        let other = routine_of(self.proposed.routines(), entry)?;
        let body = self.free(other.body());
        let offsets = set_of(&other.offsets()).minus(&declared_offsets(self.given, entry));
        if body.is_empty() && offsets.is_empty() {
            return None;
        }
        Some(Addition { body, offsets })
    }

    /// Adds the given lines, with what is added to them.
    fn push_given<A: Allocator>(
        &self,
        text: &mut Vec<u8, A>,
        bytes: &[u8],
    ) -> Result<(), AllocError> {
        for line in bytes.split(|byte| *byte == b'\n') {
            push_line(text, line, &self.addition_to(line))?;
            text.extend_from_slice(b"\n")?;
        }
        // There is no line after the last line feed.
        let _ = text.pop();
        end_text(text)
    }

    /// Adds the lines of the routines that may be added, with the free cells of their bodies.
    fn push_routines<A: Allocator>(&self, text: &mut Vec<u8, A>) -> Result<(), AllocError> {
        for routine in self.proposed.routines() {
            if self.admits(routine) {
                let body = self.free(routine.body());
                push_sub(text, routine.entry(), &body, &set_of(&routine.offsets()))?;
                end_line(text)?;
            }
        }
        Ok(())
    }

    /// Adds the lines with the offsets above 7 at which routines may return.
    fn push_all_skips<A: Allocator>(
        &self,
        text: &mut Vec<u8, A>,
        entries: &WordSet,
    ) -> Result<(), AllocError> {
        for entry in entries.iter() {
            let given = declared_offsets(self.given, entry);
            let lacking = declared_offsets(self.proposed, entry).minus(&given);
            let offsets = above_seven(&lacking);
            if !offsets.is_empty() {
                push_skips(text, entry, &offsets)?;
                end_line(text)?;
            }
        }
        Ok(())
    }

    /// Adds the lines that say at which other offsets routines may return, which of them may store in their entries,
    /// and for which places of main all calls may be abandoned.
    fn push_permissions<A: Allocator>(
        &self,
        text: &mut Vec<u8, A>,
        entries: &WordSet,
    ) -> Result<(), AllocError> {
        let (given, proposed) = (self.given, self.proposed);
        self.push_all_skips(text, entries)?;
        let moves = proposed.moves().minus(given.moves()).meet(entries);
        push_cells(text, b"moves", &moves)?;
        let main = self.free(proposed.main()).union(given.main());
        let abandons = proposed.abandons().minus(given.abandons()).meet(&main);
        push_cells(text, b"abandon", &abandons)
    }

    /// Adds the lines of the halts that may be added: each is in some body, and is not a halt yet.
    fn push_all_halts<A: Allocator>(
        &self,
        text: &mut Vec<u8, A>,
        entries: &WordSet,
    ) -> Result<(), AllocError> {
        let halts = self.given.stops().union(self.given.pauses());
        let open = self.all_bodies(entries).minus(&halts);
        push_halts(text, b"stop", &self.proposed.stops().meet(&open))?;
        push_halts(text, b"pause", &self.proposed.pauses().meet(&open))
    }

    /// Adds the lines of the cells that may be read and are not yet listed, if reads are listed.
    fn push_reads<A: Allocator>(&self, text: &mut Vec<u8, A>) -> Result<(), AllocError> {
        match (self.given.reads(), self.proposed.reads()) {
            (Some(listed), Some(cells)) => push_cells(text, b"read", &cells.minus(listed)),
            _ => Ok(()),
        }
    }
}

/// The text of a declaration, with what it lacks of another one: ranges and offsets are added to the lines of its
/// routines, and lines at the end, each marked by a comment. A cell that is in a body, or is an entry or a halt, stays
/// so.
pub(crate) fn merged<A: Allocator + Copy, B: Allocator>(
    alloc: A,
    bytes: &[u8],
    given: &Declaration<B>,
    proposed: &Declaration<B>,
) -> Result<Vec<u8, A>, AllocError> {
    let merging = Merging::of(given, proposed);
    let entries = merging.all_entries();
    let mut text = Vec::new(alloc);
    merging.push_given(&mut text, bytes)?;
    push_cells(&mut text, b"main", &merging.free(proposed.main()))?;
    merging.push_routines(&mut text)?;
    merging.push_permissions(&mut text, &entries)?;
    push_cells(&mut text, b"var", &merging.added_variables())?;
    merging.push_all_halts(&mut text, &entries)?;
    merging.push_reads(&mut text)?;
    Ok(text)
}
