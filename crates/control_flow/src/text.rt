//! The text of a declaration.

ghost use Rattle.std.specs.Prelude.{◌≡◌, ◌++◌, ◌∷◌, OnOk};
ghost use Rattle.control_flow.specs.Texts.{offset_text, offsets_text};
ghost use Rattle.declaration.specs.Written.{StaysInFront};
ghost use Rattle.wordset.specs.Lanes.{words};
ghost use Rattle.wordset.specs.Words.{between, meet};

use crate::map::Map;
use crate::tape::Tape;
use bin_tape::Image;
use declaration::writing::{push_address, push_range, push_ranges};
use instruct::{Profile, name};
use std::alloc::{AllocError, Allocator};
use word12::Word;
use wordset::WordSet;

/// How many ranges a line has at most where there may be several of its kind: with a kind of five
/// letters it has 75 columns then.
const MOST_RANGES: usize = 7;

/// Begins a line after so many ranges, if there is none yet or the last is full, which then gets this end.
fn push_line_break<A: Allocator>(
    text: &mut Vec<u8, A>,
    kind: &[u8],
    ranges: usize,
    end: &[u8],
) -> Result<(), AllocError>
    ensures { OnOk result (StaysInFront text.old.items text.new.items) }
{
    if ranges % MOST_RANGES != 0 {
        return Ok(());
    }
    if ranges != 0 {
        text.extend_from_slice(end)?;
    }
    text.extend_from_slice(kind)
}

/// Adds lines of a kind with the ranges of a set, if it has a word.
pub fn push_cells<A: Allocator>(
    text: &mut Vec<u8, A>,
    kind: &[u8],
    set: &WordSet,
) -> Result<(), AllocError>
    ensures { OnOk result (StaysInFront text.old.items text.new.items) }
{
    push_cells_ending(text, kind, set, b"\n")
}

/// Adds lines of a kind with the ranges of a set, each with this end, if the set has a word.
pub fn push_cells_ending<A: Allocator>(
    text: &mut Vec<u8, A>,
    kind: &[u8],
    set: &WordSet,
    end: &[u8],
) -> Result<(), AllocError>
    ensures { OnOk result (StaysInFront text.old.items text.new.items) }
{
    let mut ranges = 0usize;
    for (first, last) in set.ranges() {
        push_line_break(text, kind, ranges, end)?;
        push_range(text, first, last)?;
        ranges = ranges.saturating_add(1);
    }
    if ranges != 0 {
        text.extend_from_slice(end)?;
    }
    Ok(())
}

/// Adds the lines of a list of cells that may be read; a list without a cell is a line too.
pub fn push_reads<A: Allocator>(text: &mut Vec<u8, A>, cells: &WordSet) -> Result<(), AllocError>
    ensures { OnOk result (StaysInFront text.old.items text.new.items) }
{
    if cells.is_empty() {
        return text.extend_from_slice(b"read\n");
    }
    push_cells(text, b"read", cells)
}

/// Adds the offsets of a set that are below 8, each after a space.
pub fn push_low_offsets<A: Allocator>(
    text: &mut Vec<u8, A>,
    offsets: &WordSet,
) -> Result<(), AllocError>
    ensures { OnOk result (StaysInFront text.old.items text.new.items) }
{
    for offset in 0..8usize {
        if offsets.contains(Word::from_index(offset)) {
            text.extend_from_slice(b" ")?;
            text.push(b'0' + offset as u8)?;
        }
    }
    Ok(())
}

/// Adds an offset in two octal digits, after a space.
fn push_offset<A: Allocator>(text: &mut Vec<u8, A>, offset: Word) -> Result<(), AllocError>
    ensures { OnOk result (text.new.items ≡ text.old.items ++ 32 ∷ offset_text offset) }
{
    text.extend_from_slice(b" ")?;
    let digits = offset.to_octal();
    text.extend_from_slice(&digits[2..])
}

/// Adds a range of offsets, after a space: its first offset, and the last where it is another one.
fn push_offsets<A: Allocator>(
    text: &mut Vec<u8, A>,
    first: Word,
    last: Word,
) -> Result<(), AllocError>
    ensures { OnOk result (text.new.items ≡ text.old.items ++ 32 ∷ offsets_text first last) }
{
    push_offset(text, first)?;
    if first == last {
        return Ok(());
    }
    text.extend_from_slice(b"-")?;
    let digits = last.to_octal();
    text.extend_from_slice(&digits[2..])
}

/// Adds the line with the offsets above 7 by which the routine of an entry may return, without its end.
pub fn push_skips<A: Allocator>(
    text: &mut Vec<u8, A>,
    entry: Word,
    offsets: &WordSet,
) -> Result<(), AllocError>
    ensures { OnOk result (StaysInFront text.old.items text.new.items) }
{
    text.extend_from_slice(b"skips")?;
    push_range(text, entry, entry)?;
    for (first, last) in offsets.ranges() {
        push_offsets(text, first, last)?;
    }
    Ok(())
}

/// The offsets of some that are above 7.
pub fn above_seven(offsets: &WordSet) -> WordSet
    ensures { words result ≡ meet (words offsets.now) (between 8 63) }
{
    offsets.meet(&WordSet::range(Word::from_index(8), Word::from_index(63)))
}

/// Adds a line with those offsets of a routine that are above 7, if there are any.
fn push_further<A: Allocator>(
    text: &mut Vec<u8, A>,
    entry: Word,
    offsets: &WordSet,
) -> Result<(), AllocError>
    ensures { OnOk result (StaysInFront text.old.items text.new.items) }
{
    let further = above_seven(offsets);
    if further.is_empty() {
        return Ok(());
    }
    push_skips(text, entry, &further)?;
    text.extend_from_slice(b"\n")
}

/// Begins the line of a routine: its entry and its body.
fn push_body<A: Allocator>(
    text: &mut Vec<u8, A>,
    entry: Word,
    body: &WordSet,
) -> Result<(), AllocError>
    ensures { OnOk result (StaysInFront text.old.items text.new.items) }
{
    text.extend_from_slice(b"sub")?;
    push_address(text, entry)?;
    text.extend_from_slice(b" body")?;
    push_ranges(text, body)
}

/// Goes on with the line of a routine: its offsets that are below 8.
fn push_returns<A: Allocator>(text: &mut Vec<u8, A>, offsets: &WordSet) -> Result<(), AllocError>
    ensures { OnOk result (StaysInFront text.old.items text.new.items) }
{
    text.extend_from_slice(b" returns")?;
    push_low_offsets(text, offsets)
}

/// A tape, and the machine for which comments name its words.
#[derive(Clone, Copy)]
pub struct CommentedTape<'a> {
    pub image: &'a Image,
    pub profile: Profile,
}

impl CommentedTape<'_> {
    /// Adds a line for each halt of a set, with the name of its word.
    pub fn push_halts<A: Allocator>(
        &self,
        text: &mut Vec<u8, A>,
        kind: &[u8],
        halts: &WordSet,
    ) -> Result<(), AllocError>
        ensures { OnOk result (StaysInFront text.old.items text.new.items) }
    {
        for at in halts.iter() {
            text.extend_from_slice(kind)?;
            push_address(text, at)?;
            self.push_remark(text, b" / ", at)?;
        }
        Ok(())
    }

    /// Adds the line of a routine, with the name of its first word, and a line with those of its offsets that are above 7, if
    /// there are any.
    pub fn push_routine<A: Allocator>(
        &self,
        text: &mut Vec<u8, A>,
        entry: Word,
        body: &WordSet,
        offsets: &WordSet,
    ) -> Result<(), AllocError>
        ensures { OnOk result (StaysInFront text.old.items text.new.items) }
    {
        push_body(text, entry, body)?;
        push_returns(text, offsets)?;
        self.push_remark(text, b" / begins with ", entry.increment())?;
        push_further(text, entry, offsets)
    }

    /// Ends a line with a comment that names the word at an address, if the tape has one.
    fn push_remark<A: Allocator>(
        &self,
        text: &mut Vec<u8, A>,
        before: &[u8],
        at: Word,
    ) -> Result<(), AllocError>
        ensures { OnOk result (StaysInFront text.old.items text.new.items) }
    {
        if let Some(word) = self.image.get(at) {
            text.extend_from_slice(before)?;
            text.extend_from_slice(name(word, self.profile).as_bytes())?;
        }
        text.extend_from_slice(b"\n")
    }
}

impl Map {
    /// The text of the declaration with these variables.
    pub fn text<A: Allocator>(
        &self,
        alloc: A,
        tape: &Tape<'_>,
        variables: &WordSet,
    ) -> Result<Vec<u8, A>, AllocError> {
        let mut text = Vec::new(alloc);
        if self.profile == Profile::Pdp8E {
            text.extend_from_slice(b"profile 8e\n")?;
        }
        push_cells(&mut text, b"start", &WordSet::one(self.start))?;
        let mut again = *self;
        again.forget();
        let main = again.follow_main(tape);
        push_cells(&mut text, b"main", &main)?;
        let entries = again.push_routines(&mut text, tape)?;
        push_cells(&mut text, b"moves", &again.round.moves.meet(&entries))?;
        let abandons = self.left.meet(&main).union(&again.round.abandons);
        push_cells(&mut text, b"abandon", &abandons)?;
        push_cells(&mut text, b"var", variables)?;
        let halts = self.round.halts.union(&self.halted);
        let stops = halts.minus(&self.pauses);
        let commented = self.commented(tape);
        commented.push_halts(&mut text, b"stop", &stops)?;
        let pauses = halts.meet(&self.pauses);
        commented.push_halts(&mut text, b"pause", &pauses)?;
        Ok(text)
    }

    /// The tape, with the words of this machine.
    fn commented<'a>(&self, tape: &Tape<'a>) -> CommentedTape<'a> {
        CommentedTape {
            image: tape.image,
            profile: self.profile,
        }
    }

    /// Adds the lines of each routine, whose bodies are followed again, and gives their entries.
    fn push_routines<A: Allocator>(
        &mut self,
        text: &mut Vec<u8, A>,
        tape: &Tape<'_>,
    ) -> Result<WordSet, AllocError> {
        let commented = self.commented(tape);
        let mut entries = WordSet::empty();
        let mut next = 0usize;
        while let Some(entry) = self.known.entries.first_from(next) {
            let body = self.follow_routine(tape, entry);
            if !body.is_empty() {
                commented.push_routine(text, entry, &body, &self.offsets(tape, entry))?;
                entries.insert(entry);
            }
            next = entry.index() + 1;
        }
        Ok(entries)
    }
}
