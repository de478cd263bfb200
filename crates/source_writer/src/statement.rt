//! The statement of a cell.

use crate::outline::{Datum, Operand, Outline};
use bin_tape::Image;
use instruct::{Instruction, Operation, decode, name, refers_indirectly};
use std::alloc::{AllocError, Allocator};
use word12::Word;

/// What the assembler makes of `NOP`, the name of a word of group 2 without a bit: another word. And so it is
/// with `CLA`, the name of the word that has that bit alone.
const UNSPELLED: [u16; 2] = [0o7400, 0o7600];

impl Outline {
    /// Adds the symbol of a cell: `S` and its address for the entry of a routine, `L` for any other.
    pub(crate) fn push_symbol<A: Allocator>(
        &self,
        text: &mut Vec<u8, A>,
        cell: Word,
    ) -> Result<(), AllocError> {
        let letter = if self.entries.contains(cell) {
            b'S'
        } else {
            b'L'
        };
        text.push(letter)?;
        text.extend_from_slice(&cell.to_octal())
    }

    /// Adds the address of a cell, by its symbol if it has one.
    fn push_cell<A: Allocator>(&self, text: &mut Vec<u8, A>, cell: Word) -> Result<(), AllocError> {
        if self.tagged.contains(cell) {
            self.push_symbol(text, cell)
        } else {
            text.extend_from_slice(&cell.to_octal())
        }
    }

    /// Whether a word in the code is written by its name.
    pub(crate) fn is_named(&self, word: Word) -> bool {
        match decode(word, self.profile) {
            Instruction::Memory | Instruction::Unsupported => false,
            Instruction::Operate1 | Instruction::Operate3 | Instruction::Iot => true,
            Instruction::Operate2 => !UNSPELLED.contains(&word.value()),
        }
    }

    /// Adds the statement of a cell with this word.
    pub(crate) fn push_statement<A: Allocator>(
        &self,
        text: &mut Vec<u8, A>,
        image: &Image,
        at: Word,
        word: Word,
    ) -> Result<(), AllocError> {
        if self.reference(image, at).is_some() {
            self.push_reference(text, image, at, word)
        } else if !self.code.contains(at) {
            self.push_datum(text, image, at, word)
        } else if self.is_named(word) {
            text.extend_from_slice(name(word, self.profile).as_str().as_bytes())
        } else {
            text.extend_from_slice(&word.to_octal())
        }
    }

    /// Adds a memory reference.
    fn push_reference<A: Allocator>(
        &self,
        text: &mut Vec<u8, A>,
        image: &Image,
        at: Word,
        word: Word,
    ) -> Result<(), AllocError> {
        text.extend_from_slice(Operation::of(word).mnemonic().as_bytes())?;
        if refers_indirectly(word) {
            text.extend_from_slice(b" I")?;
        }
        text.extend_from_slice(b" ")?;
        match self.operand(image, at, word) {
            Operand::Here => text.extend_from_slice(b"."),
            Operand::Previous => text.extend_from_slice(b".-1"),
            Operand::Cell(cell) => self.push_cell(text, cell),
        }
    }

    /// Adds a data word.
    fn push_datum<A: Allocator>(
        &self,
        text: &mut Vec<u8, A>,
        image: &Image,
        at: Word,
        word: Word,
    ) -> Result<(), AllocError> {
        match self.datum(image, at, word) {
            Datum::Plain => text.extend_from_slice(&word.to_octal()),
            Datum::AddressOf(cell) => self.push_cell(text, cell),
            Datum::AddressBefore(cell) => {
                self.push_cell(text, cell)?;
                text.extend_from_slice(b"-1")
            }
        }
    }
}
