//! Parts of facts: the fact of one link alone, narrowed, which may be split further by the words of a name.

ghost use Rattle.std.specs.Prelude.{ℕ, ◌≡◌, ◌<◌, ◌≤◌, ◌↔◌, IsTrue, true, length, map};
ghost use Rattle.wordset.specs.Words.{all_words};
ghost use Rattle.wordset.specs.Lanes.{words};
ghost use Rattle.domain.specs.Locations as names;
ghost use Rattle.domain.specs.Locations.{Cell};
ghost use Rattle.domain.specs.LocationsInCode.{location_of};
ghost use Rattle.domain.specs.TrackedCells.{tracked};
ghost use Rattle.domain.specs.Adding.{is_void};
ghost use Rattle.domain.specs.CellsInCode.{cell_set_of};
ghost use Rattle.domain.specs.Facts as said;
ghost use Rattle.domain.specs.FactInCode.{fact_in_code};
ghost use Rattle.facts.specs.Entailment.{EntailsOne, met_at, with_one_link};
ghost use Rattle.facts.specs.Landing.{Takes, IsTakenWhole};
ghost use Rattle.facts.specs.PartInCode.{part_in_code};
ghost use Rattle.facts.specs.PlaceInCode.{place_in_code};

use crate::fact_sizes::{ChosenFact, Fact, MetFact, PartFact};
use crate::place::Place;
use crate::source::FactSource;
use domain::{CellSet, Location, SumFact};
use std::alloc::Allocator;
use transfer::NextFact;
use word12::Link;
use wordset::{Links, WordSet};

/// A narrowed fact of one link, with room for what is left of it by the words of a name.
pub trait FactPart {
    /// The fact that is meant.
    ghost part: { Self → said.Fact };

    /// Its sets have words alone, and of cells beyond the machine's memory it tells nothing.
    fn has_words(&self)
        ensures beyond { (a : ℕ) → 4096 ≤ a → (part self.now).set (Cell a) ≡ all_words }
        ensures words { (n : names.Location) (v : ℕ) → (part self.now).set n v ≡ true → v < 4096 };

    /// Whether no state satisfies it.
    fn is_none(&self) -> bool
        ensures { result ≡ is_void (part self.now) };

    /// Puts the words that a name may hold into a place for them.
    fn put_set_of(&self, name: &Location, place: &mut WordSet)
        ensures { words place.new ≡ (part self.now).set (location_of name.now) };

    /// Whether it entails one of some facts.
    fn entails_one<A: Allocator, F: FactSource>(
        &self,
        place: &Place<'_, A>,
        among: &F,
        given: &mut Fact,
    ) -> bool
        ensures { IsTrue result ↔ EntailsOne (place_in_code place.now) (part self.now) (F.facts among.now) };

    /// Whether what another fact's set of a name leaves of it entails that fact, or no state satisfies it.
    fn is_taken<A: Allocator>(
        &mut self,
        place: &Place<'_, A>,
        name: &Location,
        other: &Fact,
    ) -> bool
        ensures taken { IsTrue result ↔
            Takes (place_in_code place.now) (location_of name.now) (part self.old) (fact_in_code other.now) }
        ensures kept { part self.new ≡ part self.old };

    /// Whether it entails one of some facts when it is narrowed once more, or no state satisfies it then and there is one. This
    /// is what a split comes to by a cell of which none of them tells.
    fn is_taken_whole<A: Allocator, F: FactSource>(
        &mut self,
        place: &Place<'_, A>,
        among: &F,
        given: &mut Fact,
    ) -> bool
        ensures taken { IsTrue result ↔
            IsTakenWhole (place_in_code place.now) (part self.old) (F.facts among.now) }
        ensures kept { part self.new ≡ part self.old };
}

/// The fact of one link of an outcome, narrowed, with room for what is left of it by the words of a name.
///
/// Contracts see it as the fact that `part_in_code` gives.
#[derive(Drop)]
pub struct LinkPart {
    part: PartFact,
    chosen: ChosenFact,
    met: MetFact,
}

/// The proof needs each cell to be looked at, since each is a word.
fn look_at_cells(cells: &[CellSet])
    ensures { (a : ℕ) → 4096 ≤ a → tracked a (map cell_set_of cells.now) ≡ all_words }
{
    for entry in cells {
        let _index = entry.cell.index();
    }
}

/// Whether there is some fact.
pub(crate) fn has_facts<F: FactSource>(among: &F) -> bool
    ensures { IsTrue result ↔ (0 < length (F.facts among.now)) }
{
    among.len() > 0
}

/// Narrows a fact with one link alone; the fact itself is left as it was.
fn put_part<A: Allocator>(
    place: &Place<'_, A>,
    fact: &mut NextFact,
    link: Link,
    part: &mut PartFact,
)
    ensures part { fact_in_code part.new ≡ with_one_link (place_in_code place.now) link (fact_in_code fact.old) }
    ensures kept { fact_in_code fact.new ≡ fact_in_code fact.old }
{
    let links = fact.link();
    fact.set_link(Links::one(link));
    fact.is_within_room();
    part.narrow(place.image, fact);
    fact.set_link(links);
}

/// Narrows a part of a fact with a name's set met with that of another fact.
fn put_met<A: Allocator>(
    place: &Place<'_, A>,
    part: &PartFact,
    name: &Location,
    other: &Fact,
    chosen: &mut ChosenFact,
    met: &mut MetFact,
)
    ensures { fact_in_code met.new ≡
        met_at (place_in_code place.now) (location_of name.now) (fact_in_code part.now) (fact_in_code other.now) }
{
    let mut set = WordSet::all();
    part.put_set_of(name, &mut set);
    let mut others = WordSet::all();
    other.put_set_of(name, &mut others);
    part.is_within_room();
    chosen.copy_from(part);
    chosen.set_name(name, &set.meet(&others));
    chosen.is_within_room();
    met.narrow(place.image, chosen);
}

impl LinkPart {
    /// Room that nothing stands in.
    pub fn new() -> LinkPart {
        LinkPart {
            part: SumFact::any(),
            chosen: SumFact::any(),
            met: SumFact::any(),
        }
    }

    /// Lets it be the fact of one link of another, narrowed. That one is left as it was.
    pub fn take<A: Allocator>(&mut self, place: &Place<'_, A>, fact: &mut NextFact, link: Link)
        ensures part { part_in_code self.new ≡ with_one_link (place_in_code place.now) link (fact_in_code fact.old) }
        ensures kept { fact_in_code fact.new ≡ fact_in_code fact.old }
    {
        put_part(place, fact, link, &mut self.part);
    }

    /// The fact that it is.
    pub fn fact(&self) -> &PartFact
        ensures { fact_in_code result.now ≡ part_in_code self.now }
    {
        &self.part
    }
}

impl FactPart for LinkPart {
    ghost part = { part_in_code };

    fn has_words(&self) {
        look_at_cells(self.part.cells().as_slice());
    }

    fn is_none(&self) -> bool {
        self.part.is_void()
    }

    fn put_set_of(&self, name: &Location, place: &mut WordSet) {
        self.part.put_set_of(name, place);
    }

    fn entails_one<A: Allocator, F: FactSource>(
        &self,
        place: &Place<'_, A>,
        among: &F,
        given: &mut Fact,
    ) -> bool {
        place.entails_one(&self.part, among, given)
    }

    fn is_taken<A: Allocator>(
        &mut self,
        place: &Place<'_, A>,
        name: &Location,
        other: &Fact,
    ) -> bool {
        let LinkPart { part, chosen, met } = self;
        put_met(place, part, name, other, chosen, met);
        if met.is_void() {
            return true;
        }
        place.entails(met, other)
    }

    fn is_taken_whole<A: Allocator, F: FactSource>(
        &mut self,
        place: &Place<'_, A>,
        among: &F,
        given: &mut Fact,
    ) -> bool {
        let LinkPart { part, met, .. } = self;
        part.is_within_room();
        met.narrow(place.image, part);
        if met.is_void() {
            return has_facts(among);
        }
        place.entails_one(met, among, given)
    }
}
