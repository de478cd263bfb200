//! Words in a row: those from one word up to another.

ghost use Rattle.std.specs.Prelude.{◌≡◌, ◌↔◌, IsTrue};
ghost use Rattle.wordset.specs.Words.{IsWithin, between};
ghost use Rattle.wordset.specs.Lanes.{words};

use word12::Word;
use wordset::WordSet;

/// Whether words in a row are all within a set.
#[inline(never)]
pub(crate) fn is_range_within(first: Word, last: Word, set: &WordSet) -> bool
    ensures { IsTrue result ↔ IsWithin (between first last) (words set.now) }
{
    WordSet::range(first, last).is_subset(set)
}

/// Puts the words from one to another, both of them, into their place; none if the second is the lesser.
pub(crate) fn put_row(place: &mut WordSet, first: Word, last: Word)
    ensures { words place.new ≡ between first last }
{
    if first.index() == 0 && last.index() == 4095 {
        *place = WordSet::all();
    } else {
        *place = WordSet::empty();
        place.insert_range(first, last);
    }
}
