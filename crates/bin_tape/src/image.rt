//! What a tape carries into memory.

ghost use Rattle.std.specs.Prelude.{◌≡◌, ◌≢◌, ℕ, Some, None, replicate, slice_set};
ghost use Rattle.bin_tape.specs.Image.{word_at, IsEmptyImage};

use std::marker::Model;
use word12::Word;

/// For each of the 4096 addresses, a word or none.
#[derive(Clone, Copy, PartialEq, Eq, Debug)]
pub struct Image {
    pub(crate) cells: [Option<Word>; 4096],
}

impl Model for Image {
    ghost use Rattle.std.specs.Prelude.{List, Option, ℕ};
    ghost use Rattle.bin_tape.specs.Image.{HoldsWords};

    ghost Value = { List (Option ℕ) };

    ghost view = { λ image. image.cells };

    ghost invariant = { λ image. HoldsWords image.cells };

    ghost inverse = { λ cells. record { cells = cells } };
}

impl Image {
    /// The image without any word.
    pub fn empty() -> Image
        ensures cells { result ≡ replicate 4096 None }
        ensures empty { IsEmptyImage result }
    {
        Image {
            cells: [None; 4096],
        }
    }

    /// The word at an address, if there is one.
    pub fn get(&self, at: Word) -> Option<Word>
        ensures { result ≡ word_at self.now at }
    {
        self.cells[at.index()]
    }

    /// Puts a word at an address, in place of the one that may be there.
    pub fn set(&mut self, at: Word, word: Word)
        ensures cells { self.new ≡ slice_set self.old at (Some word) }
        ensures here { word_at self.new at ≡ Some word }
        ensures others { (a : ℕ) → a ≢ at → word_at self.new a ≡ word_at self.old a }
    {
        let index = at.index();
        self.cells[index] = Some(word);
    }
}
