//! A set gone through word by word.

ghost use Rattle.std.specs.Prelude.{◌-◌};
ghost use Rattle.std.specs.Iterator.{at_most};

use crate::WordSet;
use word12::Word;

/// The words of a set from some word on, from the least to the greatest.
#[derive(Clone, Copy, Debug)]
pub struct Iter<'a> {
    set: &'a WordSet,
    next: usize,
}

impl WordSet {
    ghost use Rattle.wordset.specs.Iterating.{GoesFrom};

    /// The words of the set, from the least to the greatest.
    pub fn iter(&self) -> Iter<'_>
        ensures { GoesFrom self.now 0 result }
    {
        Iter { set: self, next: 0 }
    }
}

impl<'a> Iterator for Iter<'a> {
    ghost use Rattle.wordset.specs.Iterating.{GivesFirst};

    type Item = Word;

    ghost next_gives = { GivesFirst };

    ghost remaining = { λ it. at_most (4096 - it.next) };

    fn next(&mut self) -> Option<Word> {
        let word = self.set.first_from(self.next)?;
        self.next = word.index() + 1;
        Some(word)
    }
}
