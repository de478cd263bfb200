//! Texts for people, in which each address of the program is known as one: whoever has the source can put its names
//! beside them without reading the text.

ghost use Rattle.std.specs.Prelude.{◌≡◌, ◌++◌, [], OnOk};

use crate::text::{push_dump_line, push_word};
use instruct::Profile;
use std::alloc::{AllocError, Allocator};
use word12::Word;

/// Whether something was written: it fails only where memory is refused.
pub type Written = Result<(), AllocError>;

/// Takes a text for people, piece by piece.
pub trait MessageWriter {
    /// Adds a piece in which nothing is an address of the program.
    fn push_text(&mut self, piece: &[u8]) -> Written;

    /// Adds an address of the program.
    fn push_address(&mut self, at: Word) -> Written;

    /// Adds the address of a cell of which something is said: the same, but for a link to it.
    fn push_cell(&mut self, at: Word) -> Written;

    /// Adds an address within a line of a declaration that is advised, where a symbol may stand in its place.
    fn push_advised_address(&mut self, at: Word) -> Written;

    /// Adds the line of an instruction, as `dump` writes it, if its address has a word.
    fn push_instruction(&mut self, at: Word, word: Option<Word>, profile: Profile) -> Written;
}

/// Bytes take a text as it reads without a source.
impl<A: Allocator> MessageWriter for Vec<u8, A> {
    fn push_text(&mut self, piece: &[u8]) -> Written {
        self.extend_from_slice(piece)
    }

    fn push_address(&mut self, at: Word) -> Written {
        push_word(self, at)
    }

    fn push_cell(&mut self, at: Word) -> Written {
        push_word(self, at)
    }

    fn push_advised_address(&mut self, at: Word) -> Written {
        push_word(self, at)
    }

    fn push_instruction(&mut self, at: Word, word: Option<Word>, profile: Profile) -> Written {
        push_dump_line(self, at, word, profile)
    }
}

/// What comes before a place of a text.
#[derive(Clone, Copy, PartialEq, Eq, Debug)]
pub enum AddressMark {
    /// The four digits of an address.
    Address(Word),
    /// The four digits of an address within a line of a declaration that is advised.
    AdvisedAddress(Word),
    /// The line of the instruction at this address.
    Instruction(Word),
}

/// A mark, and its place.
#[derive(Clone, Copy, PartialEq, Eq, Debug)]
pub struct PlacedMark {
    /// How many bytes of the text stand before it.
    pub place: usize,
    /// What they end with.
    pub mark: AddressMark,
}

/// A text for people, and where it has addresses of the program.
#[derive(Drop)]
pub struct Message<A: Allocator> {
    bytes: Vec<u8, A>,
    /// The marks, by rising places.
    marks: Vec<PlacedMark, A>,
}

/// Adds marks on a text that was put behind so many bytes.
fn push_marks<A: Allocator>(
    marks: &mut Vec<PlacedMark, A>,
    others: &[PlacedMark],
    before: usize,
) -> Written {
    for other in others {
        marks.push(PlacedMark {
            place: before.saturating_add(other.place),
            mark: other.mark,
        })?;
    }
    Ok(())
}

impl<A: Allocator + Copy> Message<A> {
    ghost use Rattle.command_parts.specs.Messages.{plain};

    /// A text that has nothing yet.
    pub fn new(alloc: A) -> Message<A>
        ensures { plain result ≡ [] }
    {
        Message {
            bytes: Vec::new(alloc),
            marks: Vec::new(alloc),
        }
    }
}

impl<A: Allocator> Message<A> {
    ghost use Rattle.command_parts.specs.Messages.{plain};

    /// The text as it reads without a source.
    pub fn as_bytes(&self) -> &[u8]
        ensures { result.now ≡ plain self.now }
    {
        &self.bytes
    }

    /// Where it has addresses of the program, by rising places.
    pub fn marks(&self) -> &[PlacedMark] {
        &self.marks
    }

    /// Whether it has nothing.
    pub fn is_empty(&self) -> bool {
        self.bytes.is_empty()
    }

    /// Marks what the text ends with.
    fn mark(&mut self, mark: AddressMark) -> Written {
        let place = self.bytes.len();
        self.marks.push(PlacedMark { place, mark })?;
        Ok(())
    }

    /// Adds lines in which nothing is an address of the program.
    ///
    /// # Errors
    ///
    /// Memory was refused.
    pub fn push_lines(&mut self, lines: &[u8]) -> Written
        ensures { OnOk result (plain self.new ≡ plain self.old ++ lines.now) }
    {
        self.bytes.extend_from_slice(lines)
    }

    /// Adds another text.
    ///
    /// # Errors
    ///
    /// Memory was refused.
    pub fn push_message(&mut self, other: &Message<A>) -> Written
        ensures { OnOk result (plain self.new ≡ plain self.old ++ plain other.now) }
    {
        let before = self.bytes.len();
        self.bytes.extend_from_slice(&other.bytes)?;
        push_marks(&mut self.marks, &other.marks, before)
    }
}

impl<A: Allocator> MessageWriter for Message<A> {
    fn push_text(&mut self, piece: &[u8]) -> Written {
        self.bytes.extend_from_slice(piece)
    }

    fn push_address(&mut self, at: Word) -> Written {
        push_word(&mut self.bytes, at)?;
        self.mark(AddressMark::Address(at))
    }

    fn push_cell(&mut self, at: Word) -> Written {
        push_word(&mut self.bytes, at)?;
        self.mark(AddressMark::Address(at))
    }

    fn push_advised_address(&mut self, at: Word) -> Written {
        push_word(&mut self.bytes, at)?;
        self.mark(AddressMark::AdvisedAddress(at))
    }

    fn push_instruction(&mut self, at: Word, word: Option<Word>, profile: Profile) -> Written {
        push_dump_line(&mut self.bytes, at, word, profile)?;
        if word.is_none() {
            return Ok(());
        }
        self.mark(AddressMark::Instruction(at))
    }
}
