//! A set gone through range by range.

ghost use Rattle.std.specs.Prelude.{◌≡◌, ◌-◌, true};
ghost use Rattle.std.specs.Iterator.{at_most};
ghost use Rattle.wordset.specs.Words.{all_words, difference};
ghost use Rattle.wordset.specs.Lanes.{words};

use crate::WordSet;
use word12::Word;

/// The ranges of a set from some word on, in order, each by its first and its last word: all words
/// between them are in the set, and their neighbours are not.
#[derive(Clone, Copy, Debug)]
pub struct Ranges<'a> {
    set: &'a WordSet,
    others: WordSet,
    next: usize,
    ghost apart: { words others ≡ difference all_words (words set.now) },
}

impl WordSet {
    ghost use Rattle.wordset.specs.Ranging.{RangesFrom};

    /// The ranges of the set, in order.
    pub fn ranges(&self) -> Ranges<'_>
        ensures { RangesFrom self.now 0 result }
    {
        Ranges {
            set: self,
            others: WordSet::all().minus(self),
            next: 0,
        }
    }
}

impl<'a> Ranges<'a> {
    ghost use Rattle.wordset.specs.Ranging.{IsLastFrom};

    /// The last word of the range that begins with a word.
    fn last_from(&self, first: Word) -> Word
        requires { words self.now.set.now first ≡ true }
        ensures { IsLastFrom first (words self.now.set.now) result }
    {
        match self.others.first_from(first.index() + 1) {
            None => Word::from_index(0o7777),
            Some(end) => Word::from_index(end.index() - 1),
        }
    }
}

impl<'a> Iterator for Ranges<'a> {
    ghost use Rattle.wordset.specs.Ranging.{GivesRange};

    type Item = (Word, Word);

    ghost next_gives = { GivesRange };

    ghost remaining = { λ it. at_most (4096 - it.next) };

    fn next(&mut self) -> Option<(Word, Word)> {
        let first = self.set.first_from(self.next)?;
        let last = self.last_from(first);
        self.next = last.index() + 1;
        Some((first, last))
    }
}
