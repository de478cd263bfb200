//! What the source of a program says about its addresses.

use std::alloc::{AllocError, Allocator};
use word12::Word;

/// Where bytes stand among those of all notes.
#[derive(Clone, Copy)]
struct Span {
    from: usize,
    to: usize,
}

/// Where the note on an address stands.
#[derive(Clone, Copy)]
struct Entry {
    label: Span,
    line: usize,
    place: LinePlace,
    text: Span,
    is_first: bool,
}

/// Where a line of a source stands: its part, and the line in it, each from 1.
#[derive(Clone, Copy, PartialEq, Eq, Debug)]
pub struct LinePlace {
    /// The number of the part.
    pub part: usize,
    /// The number of the line in the part.
    pub line: usize,
}

/// What a source says about an address.
#[derive(Clone, Copy)]
pub struct SourceNote<'n> {
    /// The last label before the word, and how far after that its address is, such as `LOOP+2`; empty if there is no
    /// label, or if its address is a later one.
    pub label: &'n [u8],
    /// The number of the line, from 1, counted over all parts.
    pub line: usize,
    /// Its part, and its number there.
    pub place: LinePlace,
    /// The line's text.
    pub text: &'n [u8],
    /// Whether the word is the first one of its line.
    pub is_first: bool,
}

/// A note for each address to which a source gives a word.
#[derive(Drop)]
pub struct SourceNotes<A: Allocator> {
    bytes: Vec<u8, A>,
    /// One for each address.
    entries: Vec<Option<Entry>, A>,
    /// The last line: its number, its place, its text, and whether a word of it was noted.
    line: usize,
    place: LinePlace,
    text: Span,
    has_word: bool,
    /// The last label, and its address as soon as a word stands there.
    label: Vec<u8, A>,
    label_at: Option<Word>,
}

/// The label at the front of a line, or nothing.
fn label_of(text: &[u8]) -> &[u8] {
    for (place, byte) in text.iter().enumerate() {
        if *byte == b',' {
            return text.get(..place).unwrap_or(b"");
        }
        if !byte.is_ascii_alphanumeric() {
            return b"";
        }
    }
    b""
}

/// How far an address is after a label, in as many octal digits as it needs.
fn push_offset<A: Allocator>(bytes: &mut Vec<u8, A>, offset: Word) -> Result<(), AllocError> {
    if offset == Word::ZERO {
        return Ok(());
    }
    let skipped = match offset.value() {
        0..=0o7 => 3,
        0o10..=0o77 => 2,
        0o100..=0o777 => 1,
        _ => 0,
    };
    bytes.extend_from_slice(b"+")?;
    bytes.extend_from_slice(offset.to_octal().get(skipped..).unwrap_or(b""))
}

impl<A: Allocator + Copy> SourceNotes<A> {
    /// Notes on nothing yet: the lines of the source come next, in order, each with its words after it.
    ///
    /// # Errors
    ///
    /// Memory was refused.
    pub fn new(alloc: A) -> Result<SourceNotes<A>, AllocError> {
        Ok(SourceNotes {
            bytes: Vec::new(alloc),
            entries: Vec::from_elem(alloc, None, 4096)?,
            line: 0,
            place: LinePlace { part: 1, line: 0 },
            text: Span { from: 0, to: 0 },
            has_word: false,
            label: Vec::new(alloc),
            label_at: None,
        })
    }
}

impl<A: Allocator> SourceNotes<A> {
    /// Goes on to the next line, with its place and its text.
    ///
    /// # Errors
    ///
    /// Memory was refused.
    pub fn next_line(&mut self, place: LinePlace, text: &[u8]) -> Result<(), AllocError> {
        let from = self.bytes.len();
        self.bytes.extend_from_slice(text)?;
        self.line = self.line.saturating_add(1);
        self.place = place;
        self.text = Span {
            from,
            to: self.bytes.len(),
        };
        self.has_word = false;
        let label = label_of(text);
        if label.is_empty() {
            return Ok(());
        }
        self.label_at = None;
        self.label.clear();
        self.label.extend_from_slice(label)
    }

    /// Notes that the line gives this address a word; of several words for one address that on the last counts.
    ///
    /// # Errors
    ///
    /// Memory was refused.
    pub fn note(&mut self, at: Word) -> Result<(), AllocError> {
        let label_at = self.label_at.unwrap_or(at);
        self.label_at = Some(label_at);
        let from = self.bytes.len();
        if !self.label.is_empty() && label_at <= at {
            self.bytes.extend_from_slice(&self.label)?;
            push_offset(&mut self.bytes, at.add(label_at.complement().increment()))?;
        }
        let found = Entry {
            label: Span {
                from,
                to: self.bytes.len(),
            },
            line: self.line,
            place: self.place,
            text: self.text,
            is_first: !self.has_word,
        };
        self.has_word = true;
        if let Some(entry) = self.entries.get_mut(at.index()) {
            *entry = Some(found);
        }
        Ok(())
    }

    /// The bytes of a span.
    fn spanned(&self, span: &Span) -> &[u8] {
        self.bytes.get(span.from..span.to).unwrap_or(b"")
    }

    /// The label of an address; empty if the source gives it no word, or a word without a label.
    fn label(&self, at: Word) -> &[u8] {
        match self.entries.get(at.index()) {
            Some(Some(entry)) => self.spanned(&entry.label),
            _ => b"",
        }
    }

    /// The note on an address; none if the source gives it no word.
    pub fn at(&self, at: Word) -> Option<SourceNote<'_>> {
        let entry = self.entries.get(at.index()).copied().flatten()?;
        Some(SourceNote {
            label: self.spanned(&entry.label),
            line: entry.line,
            place: entry.place,
            text: self.spanned(&entry.text),
            is_first: entry.is_first,
        })
    }
}

/// The label that the notes, where there are some, give an address; empty where they give none.
pub(crate) fn label_in<A: Allocator>(notes: Option<&SourceNotes<A>>, at: Word) -> &[u8] {
    match notes {
        Some(notes) => notes.label(at),
        None => b"",
    }
}
