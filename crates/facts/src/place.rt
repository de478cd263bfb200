//! Where a fact stands: the tape, the declaration, the running routine and the rules.

ghost use Rattle.std.specs.Prelude.{◌≡◌};
ghost use Rattle.wordset.specs.Lanes.{words};
ghost use Rattle.domain.specs.Locations.{is_routine};
ghost use Rattle.domain.specs.LocationsInCode.{location_of};
ghost use Rattle.domain.specs.FactInCode.{fact_in_code};
ghost use Rattle.domain.specs.Narrowing.{words_known};
ghost use Rattle.facts.specs.PlaceInCode.{place_in_code};

use bin_tape::Image;
use declaration::Declaration;
use domain::{Location, Rules, SumFact};
use std::alloc::Allocator;
use word12::Word;
use wordset::WordSet;

/// Where a fact stands, beside its address.
///
/// Contracts see it as `place_in_code` gives it.
#[derive(Drop)]
pub struct Place<'a, A: Allocator> {
    /// The tape's words.
    pub image: &'a Image,
    /// The program's declaration.
    pub declaration: &'a Declaration<A>,
    /// The entry of the routine whose body has the address; none in main.
    pub routine: Option<Word>,
    /// By which rules facts are taken further.
    pub rules: Rules,
}

impl<A: Allocator> Place<'_, A> {
    /// Whether a cell is the running routine's entry.
    pub fn is_own(&self, cell: Word) -> bool
        ensures { result ≡ is_routine (place_in_code self.now).routine cell }
    {
        match self.routine {
            None => false,
            Some(entry) => cell == entry,
        }
    }

    /// Puts the words that a name may hold, by a fact for which something is checked, into a place for
    /// them.
    pub fn put_words_known<const C: usize, const R: usize>(
        &self,
        fact: &SumFact<C, R>,
        name: &Location,
        place: &mut WordSet,
    )
        ensures { words place.new ≡
            words_known (place_in_code self.now) (fact_in_code fact.now) (location_of name.now) }
    {
        fact.put_words_by(&self.rules, self.image, name, place);
    }
}
