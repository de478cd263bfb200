//! The cells of the machine.

ghost use Rattle.std.specs.Prelude.{◌≡◌};
ghost use Rattle.processor.specs.Cells.{cell_of, updated, AreWords};

use std::marker::Model;
use word12::Word;

/// The memory of one field: 4096 cells, each of which holds a word.
///
/// Contracts see it through `cell_of`, as a map from addresses to words.
#[derive(Drop, Debug)]
pub struct Memory {
    cells: [Word; 4096],
}

impl Model for Memory {
    ghost use Rattle.std.specs.Prelude.{ℕ, List};
    ghost use Rattle.processor.specs.Cells.{AreWords, cell_of};

    ghost Value = { List ℕ };

    ghost view = { λ m. m.cells };

    ghost invariant = { λ m. AreWords (cell_of m.cells) };
}

impl Memory {
    /// A memory in which each cell is 0000.
    pub fn zero() -> Memory
        ensures { cell_of result ≡ (λ _. 0) }
    {
        Memory {
            cells: [Word::ZERO; 4096],
        }
    }

    /// A memory with the same words.
    pub fn duplicate(&self) -> Memory
        ensures { result ≡ self.now }
    {
        Memory { cells: self.cells }
    }

    /// The word in a cell.
    pub fn get(&self, address: Word) -> Word
        ensures { result ≡ cell_of self.now address }
    {
        self.cells[address.index()]
    }

    /// Stores a word in a cell; every other cell keeps its word.
    pub fn set(&mut self, address: Word, word: Word)
        ensures { cell_of self.new ≡ updated (cell_of self.old) address word }
    {
        self.cells[address.index()] = word;
    }

    /// Shows that each cell holds a word, which proofs about a borrowed memory need.
    pub fn are_words(&self)
        ensures { AreWords (cell_of self.now) }
    {
        let _cells = &self.cells;
    }
}
