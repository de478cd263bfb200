//! The names that facts speak of.

ghost use Rattle.std.specs.Prelude.{◌≡◌};
ghost use Rattle.wordset.specs.Words.{minus};
ghost use Rattle.domain.specs.Locations.{same};
ghost use Rattle.domain.specs.LocationsInCode.{location_of};

use word12::Word;

/// What a set or a term of a fact speaks of.
///
/// Contracts see it as `location_of` gives it.
#[derive(Clone, Copy, PartialEq, Eq, Debug)]
pub enum Location {
    /// The accumulator.
    Accumulator,
    /// The cell of this address.
    Cell(Word),
}

/// Whether two names are one.
pub fn is_same_location(a: &Location, b: &Location) -> bool
    ensures { result ≡ same (location_of a.now) (location_of b.now) }
{
    match a {
        Location::Accumulator => match b {
            Location::Accumulator => true,
            Location::Cell(_) => false,
        },
        Location::Cell(x) => match b {
            Location::Accumulator => false,
            Location::Cell(y) => *x == *y,
        },
    }
}

/// The word that takes back what another adds.
pub fn negated(word: Word) -> Word
    ensures { result ≡ minus 0 word }
{
    word.complement().increment()
}
