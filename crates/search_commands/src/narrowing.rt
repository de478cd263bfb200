//! The text of a declaration without what a certificate shows to be unnecessary.

use crate::merging::{parted, push_sub, routine_of, set_of};
use crate::returning::push_spaced_digits;
use declaration::writing::{push_range, push_ranges};
use declaration::{Declaration, Routine};
use diagnostics::verdicts::surplus_text::{OFFSETS, Shown};
use std::alloc::{AllocError, Allocator};
use streams::text::{Words, is, octal_word};
use usage::{Register, Surplus, surplus_of};
use word12::Word;
use wordset::WordSet;

/// A program with its declaration and a certificate, and the parts of the declaration that are left out.
#[derive(Drop)]
struct Needless<'a, D: Allocator, C: Allocator> {
    shown: Shown<'a, D, C>,
    surplus: Surplus,
    /// The cells that are left out of bodies.
    cells: WordSet,
    /// The entries of the routines that are left out.
    entries: WordSet,
}

/// How the cells on a line are written.
#[derive(Clone, Copy, PartialEq, Eq)]
enum Spelling {
    /// As ranges. The line is left out with its last cell.
    Ranges,
    /// As ranges. The line stays even without a cell.
    RangesOrNone,
    /// One by one. The line is left out with its last cell.
    Addresses,
}

/// The places at which something is declared to hold.
fn asserted_places<D: Allocator>(declaration: &Declaration<D>) -> WordSet {
    let mut places = WordSet::empty();
    for holding in declaration.holds() {
        places = places.union(holding.places());
    }
    places
}

/// The entries of the routines that are left out: they are never called, their bodies lose all cells, and nothing is
/// declared to hold at their returns.
fn entries_without_use<D: Allocator>(
    declaration: &Declaration<D>,
    uncalled: &WordSet,
    cells: &WordSet,
) -> WordSet {
    let mut entries = WordSet::empty();
    for routine in declaration.routines() {
        let entry = routine.entry();
        let is_idle = uncalled.contains(entry) && routine.body().is_subset(cells);
        if is_idle
            && !declaration
                .returns()
                .iter()
                .any(|line| line.entry() == entry)
        {
            entries.insert(entry);
        }
    }
    entries
}

/// The cells that a word names, if it is an address or a range of addresses.
fn range_of(word: &[u8]) -> Option<WordSet> {
    let Some(at) = word.iter().position(|byte| *byte == b'-') else {
        return octal_word(word).map(WordSet::one);
    };
    let low = octal_word(word.get(..at)?)?;
    let high = octal_word(word.get(at.saturating_add(1)..)?)?;
    if low.value() > high.value() {
        return None;
    }
    Some(WordSet::range(low, high))
}

/// The cells that the words of a line name.
fn cells_of(rest: Words<'_>) -> WordSet {
    let mut words = rest;
    let mut cells = WordSet::empty();
    while let Some(word) = words.next() {
        if let Some(more) = range_of(word) {
            cells = cells.union(&more);
        }
    }
    cells
}

/// Adds each cell of a set, after a space.
fn push_each<A: Allocator>(text: &mut Vec<u8, A>, cells: &WordSet) -> Result<(), AllocError> {
    for at in cells.iter() {
        push_range(text, at, at)?;
    }
    Ok(())
}

/// Adds offsets as ranges, each after a space.
fn push_offset_ranges<A: Allocator>(
    text: &mut Vec<u8, A>,
    offsets: &WordSet,
) -> Result<(), AllocError> {
    for (first, last) in offsets.ranges() {
        push_spaced_digits(text, b" ", first)?;
        if first != last {
            push_spaced_digits(text, b"-", last)?;
        }
    }
    Ok(())
}

/// Adds a line unchanged.
fn push_whole<A: Allocator>(text: &mut Vec<u8, A>, line: &[u8]) -> Result<(), AllocError> {
    text.extend_from_slice(line)?;
    text.extend_from_slice(b"\n")
}

/// Adds a line of cells without those that are left out, or the line unchanged if it keeps all of them.
fn push_cells<A: Allocator>(
    text: &mut Vec<u8, A>,
    line: &[u8],
    gone: &WordSet,
    spelling: Spelling,
) -> Result<(), AllocError> {
    let (front, rest) = parted(line);
    let mut words = Words::of(front);
    let name = words.next().unwrap_or(b"");
    let listed = cells_of(words);
    let kept = listed.minus(gone);
    if kept == listed {
        return push_whole(text, line);
    }
    if kept.is_empty() && spelling != Spelling::RangesOrNone {
        return Ok(());
    }
    text.extend_from_slice(name)?;
    if spelling == Spelling::Addresses {
        push_each(text, &kept)?;
    } else {
        push_ranges(text, &kept)?;
    }
    push_whole(text, rest)
}

impl<'a, D: Allocator, C: Allocator> Needless<'a, D, C> {
    /// The parts that a certificate shows to be unnecessary. What is declared to hold stays, and so do the cells and
    /// the routines that it names.
    fn of(shown: Shown<'a, D, C>) -> Needless<'a, D, C> {
        let declaration = shown.declaration;
        let surplus = surplus_of(shown.image, declaration, shown.certificate);
        let cells = surplus.unexecuted.minus(&asserted_places(declaration));
        let entries = entries_without_use(declaration, &surplus.uncalled, &cells);
        Needless {
            shown,
            surplus,
            cells,
            entries,
        }
    }

    /// The offsets at which a routine never returns.
    fn idle_offsets(&self, entry: Word) -> WordSet {
        let mut offsets = WordSet::empty();
        for offset in 0..OFFSETS {
            let words = self.shown.returned(Register::Accumulator, entry, offset);
            if words.is_empty() {
                offsets.insert(Word::from_index(offset));
            }
        }
        offsets
    }

    /// What is kept of the body of a routine that stays: a body has at least one cell.
    fn kept_body(&self, routine: &Routine) -> WordSet {
        let kept = routine.body().minus(&self.cells);
        if kept.is_empty() {
            *routine.body()
        } else {
            kept
        }
    }

    /// Adds the line of a routine without what is left out.
    fn push_routine<A: Allocator>(
        &self,
        text: &mut Vec<u8, A>,
        line: &[u8],
        routine: &Routine,
    ) -> Result<(), AllocError> {
        let entry = routine.entry();
        if self.entries.contains(entry) {
            return Ok(());
        }
        let body = self.kept_body(routine);
        let listed = set_of(&routine.offsets());
        let offsets = listed.minus(&self.idle_offsets(entry));
        if body == *routine.body() && offsets == listed {
            return push_whole(text, line);
        }
        let (_, rest) = parted(line);
        push_sub(text, entry, &body, &offsets)?;
        push_whole(text, rest)
    }

    /// Adds the line of a routine, whose entry is the first word after `sub`.
    fn push_routine_line<A: Allocator>(
        &self,
        text: &mut Vec<u8, A>,
        line: &[u8],
        rest: Words<'_>,
    ) -> Result<(), AllocError> {
        let mut words = rest;
        let entry = words.next().and_then(octal_word);
        let routines = self.shown.declaration.routines();
        match entry.and_then(|entry| routine_of(routines, entry)) {
            Some(routine) => self.push_routine(text, line, routine),
            None => push_whole(text, line),
        }
    }

    /// Adds a line of further offsets without what is left out.
    fn push_further<A: Allocator>(
        &self,
        text: &mut Vec<u8, A>,
        line: &[u8],
        rest: Words<'_>,
    ) -> Result<(), AllocError> {
        let mut words = rest;
        let Some(entry) = words.next().and_then(octal_word) else {
            return push_whole(text, line);
        };
        let listed = cells_of(words);
        let kept = listed.minus(&self.idle_offsets(entry));
        if self.entries.contains(entry) || kept.is_empty() {
            return Ok(());
        }
        if kept == listed {
            return push_whole(text, line);
        }
        let (_, comment) = parted(line);
        text.extend_from_slice(b"skips")?;
        push_range(text, entry, entry)?;
        push_offset_ranges(text, &kept)?;
        push_whole(text, comment)
    }

    /// The cells that are left out of the lines with this name, and how the others are written; nothing if these lines
    /// are not of cells alone.
    fn gone_from(&self, name: &[u8]) -> Option<(WordSet, Spelling)> {
        let surplus = &self.surplus;
        if is(name, "main") {
            Some((self.cells, Spelling::Ranges))
        } else if is(name, "var") {
            Some((surplus.unwritten, Spelling::Ranges))
        } else if is(name, "read") {
            Some((surplus.unread, Spelling::RangesOrNone))
        } else if is(name, "stop") || is(name, "pause") {
            Some((surplus.unhalted, Spelling::Addresses))
        } else if is(name, "moves") {
            Some((surplus.unmoved.union(&self.entries), Spelling::Addresses))
        } else if is(name, "abandon") {
            Some((surplus.unabandoned, Spelling::Addresses))
        } else {
            None
        }
    }

    /// Adds a line without what is left out of it.
    fn push_line<A: Allocator>(
        &self,
        text: &mut Vec<u8, A>,
        line: &[u8],
    ) -> Result<(), AllocError> {
        let (front, _) = parted(line);
        let mut words = Words::of(front);
        let name = words.next().unwrap_or(b"");
        if let Some((gone, spelling)) = self.gone_from(name) {
            return push_cells(text, line, &gone, spelling);
        }
        if is(name, "sub") {
            return self.push_routine_line(text, line, words);
        }
        if is(name, "skips") {
            return self.push_further(text, line, words);
        }
        push_whole(text, line)
    }
}

/// The text of a declaration without what a certificate shows to be unnecessary.
pub(crate) fn narrowed<A: Allocator + Copy, D: Allocator, C: Allocator>(
    alloc: A,
    bytes: &[u8],
    shown: Shown<'_, D, C>,
) -> Result<Vec<u8, A>, AllocError> {
    let needless = Needless::of(shown);
    let mut text = Vec::new(alloc);
    for line in bytes.split(|byte| *byte == b'\n') {
        needless.push_line(&mut text, line)?;
    }
    // There is no line after the last line feed.
    let _ = text.pop();
    Ok(text)
}
