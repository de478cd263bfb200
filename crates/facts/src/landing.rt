//! When a fact lands among several: whether one of them holds of each state of the fact.

ghost use Rattle.std.specs.Prelude.{ℕ, ◌≡◌, ◌<◌, ◌↔◌, ◌⊎◌, IsTrue, true, false, map};
ghost use Rattle.wordset.specs.Words.{all_words};
ghost use Rattle.wordset.specs.Lanes.{words};
ghost use Rattle.domain.specs.Locations.{Ac, Cell};
ghost use Rattle.domain.specs.LocationsInCode.{location_of};
ghost use Rattle.domain.specs.TrackedCells.{tracked};
ghost use Rattle.domain.specs.Adding.{is_void};
ghost use Rattle.domain.specs.CellsInCode.{cell_set_of};
ghost use Rattle.domain.specs.FactInCode.{fact_in_code};
ghost use Rattle.facts.specs.Entailment.{EntailsOne, IsSplit, PartLands, Lands, IsIdle};
ghost use Rattle.facts.specs.Landing.{TakesAt, IsSplitBy, AllowAll, LandsUnder, IsIdleUnder};
ghost use Rattle.facts.specs.PlaceInCode.{place_in_code};

use crate::fact_parts::{FactPart, LinkPart};
use crate::fact_sizes::Fact;
use crate::known_fact::KnownFact;
use crate::place::Place;
use crate::source::FactSource;
use domain::{CellSet, Location, Rules, SumFact};
use std::alloc::Allocator;
use transfer::NextFact;
use word12::Link;
use wordset::WordSet;

/// Room for asking whether a fact lands. What stands in it does not matter: the same serves for one fact after another.
#[derive(Drop)]
pub struct LandingWorkspace {
    given: Fact,
    part: LinkPart,
}

impl LandingWorkspace {
    /// Room that nothing stands in.
    pub fn new() -> LandingWorkspace {
        LandingWorkspace {
            given: SumFact::any(),
            part: LinkPart::new(),
        }
    }
}

/// Adds the cells of some entries to a set.
fn add_cells(cells: &[CellSet], told: &mut WordSet)
    ensures kept { (a : ℕ) → words told.old a ≡ true → words told.new a ≡ true }
    ensures told { (a : ℕ) → words told.new a ≡ false → tracked a (map cell_set_of cells.now) ≡ all_words }
{
    for entry in cells {
        told.insert(entry.cell);
    }
}

/// The cells of which some fact tells.
pub fn cells_told<F: FactSource>(among: &F, given: &mut Fact) -> WordSet
    ensures { (a : ℕ) → words result a ≡ false → AllowAll (Cell a) (F.facts among.now) }
{
    let mut told = WordSet::empty();
    for at in 0..among.len() {
        among.put(at, given);
        add_cells(given.cells().as_slice(), &mut told);
    }
    told
}

impl<A: Allocator> Place<'_, A> {
    /// Whether a fact entails one of some.
    pub fn entails_one<K: KnownFact, F: FactSource>(
        &self,
        fact: &K,
        among: &F,
        given: &mut Fact,
    ) -> bool
        ensures { IsTrue result ↔ EntailsOne (place_in_code self.now) (K.known fact.now) (F.facts among.now) }
    {
        for at in 0..among.len() {
            among.put(at, given);
            if self.entails(fact, given) {
                return true;
            }
        }
        false
    }

    /// Adds another fact's words of a name to those that are taken, if it takes what they leave of a part. It is not asked
    /// where each of them that the part may have is taken already.
    pub fn add_taken<P: FactPart>(
        &self,
        part: &mut P,
        name: &Location,
        other: &Fact,
        taken: &mut WordSet,
    )
        ensures taken { (v : ℕ) → v < 4096 → (P.part part.old).set (location_of name.now) v ≡ true →
            (words taken.new v ≡ true) ↔ ((words taken.old v ≡ true) ⊎
            TakesAt (place_in_code self.now) (location_of name.now) v (P.part part.old) (fact_in_code other.now)) }
        ensures kept { P.part part.new ≡ P.part part.old }
    {
        let mut set = WordSet::all();
        part.put_set_of(name, &mut set);
        let mut others = WordSet::all();
        other.put_set_of(name, &mut others);
        if set.meet(&others).is_subset(taken) {
            return;
        }
        if part.is_taken(self, name, other) {
            *taken = taken.union(&others);
        }
    }

    /// Whether a part is split among some facts by the words of a name.
    fn is_split_by<P: FactPart, F: FactSource>(
        &self,
        part: &mut P,
        name: &Location,
        among: &F,
        given: &mut Fact,
    ) -> bool
        ensures split { IsTrue result ↔
            IsSplitBy (place_in_code self.now) (location_of name.now) (P.part part.old) (F.facts among.now) }
        ensures kept { P.part part.new ≡ P.part part.old }
    {
        let mut taken = WordSet::empty();
        for at in 0..among.len() {
            among.put(at, given);
            self.add_taken(part, name, given, &mut taken);
        }
        let mut set = WordSet::all();
        part.put_set_of(name, &mut set);
        set.is_subset(&taken)
    }

    /// Whether a part is split among some facts by the words of one of some cells.
    fn is_split_by_some<P: FactPart, F: FactSource>(
        &self,
        part: &mut P,
        cells: &WordSet,
        among: &F,
        given: &mut Fact,
    ) -> bool
        ensures split { IsTrue result → IsSplit (place_in_code self.now) (P.part part.old) (F.facts among.now) }
        ensures left { result ≡ false → (x : ℕ) → x < 4096 → words cells.now x ≡ true →
            IsSplitBy (place_in_code self.now) (Cell x) (P.part part.old) (F.facts among.now) → ⊥ }
        ensures kept { P.part part.new ≡ P.part part.old }
    {
        for cell in cells.iter() {
            if self.is_split_by(part, &Location::Cell(cell), among, given) {
                return true;
            }
        }
        false
    }

    /// Whether a part is split among some facts by the words of a cell of which one of them tells.
    fn is_split_by_told<P: FactPart, F: FactSource>(
        &self,
        part: &mut P,
        among: &F,
        given: &mut Fact,
    ) -> bool
        ensures split { IsTrue result → IsSplit (place_in_code self.now) (P.part part.old) (F.facts among.now) }
        ensures left { result ≡ false → (x : ℕ) →
            IsSplitBy (place_in_code self.now) (Cell x) (P.part part.old) (F.facts among.now) → AllowAll (Cell x) (F.facts among.now) }
        ensures beyond { AllowAll (Cell 4096) (F.facts among.now) }
        ensures kept { P.part part.new ≡ P.part part.old }
    {
        let told = cells_told(among, given);
        self.is_split_by_some(part, &told, among, given)
    }

    /// Whether a part is split among some facts by a name: the accumulator, a cell of which one of them tells, or one of which
    /// none does. There is always one of those beyond the machine's memory, and it does not matter which it is.
    fn is_split<P: FactPart, F: FactSource>(
        &self,
        part: &mut P,
        among: &F,
        given: &mut Fact,
    ) -> bool
        requires { is_void (P.part part.old) ≡ false }
        ensures split { IsTrue result ↔ IsSplit (place_in_code self.now) (P.part part.old) (F.facts among.now) }
        ensures kept { P.part part.new ≡ P.part part.old }
    {
        part.has_words();
        if self.is_split_by(part, &Location::Accumulator, among, given) {
            return true;
        }
        if self.is_split_by_told(part, among, given) {
            return true;
        }
        part.is_taken_whole(self, among, given)
    }

    /// Whether a narrowed fact of one link lands among some facts.
    pub fn part_lands<P: FactPart, F: FactSource>(
        &self,
        part: &mut P,
        among: &F,
        given: &mut Fact,
    ) -> bool
        ensures lands { IsTrue result ↔ PartLands (place_in_code self.now) (P.part part.old) (F.facts among.now) }
        ensures kept { P.part part.new ≡ P.part part.old }
    {
        if part.is_none() {
            return true;
        }
        if part.entails_one(self, among, given) {
            return true;
        }
        self.is_split(part, among, given)
    }

    /// Whether a fact lands among some facts under a link, if it allows the link. The fact itself is left as it was.
    fn lands_under<F: FactSource>(
        &self,
        fact: &mut NextFact,
        link: Link,
        among: &F,
        rooms: &mut LandingWorkspace,
    ) -> bool
        ensures lands { IsTrue result ↔
            LandsUnder (place_in_code self.now) link (fact_in_code fact.old) (F.facts among.now) }
        ensures kept { fact_in_code fact.new ≡ fact_in_code fact.old }
    {
        if !fact.link().contains(link) {
            return true;
        }
        let LandingWorkspace { given, part } = rooms;
        part.take(self, fact, link);
        self.part_lands(part, among, given)
    }

    /// Whether a fact lands among some facts: by the rules of sums for each of its links alone, and by those of equations if it
    /// entails one of them. The fact itself is left as it was.
    pub fn lands<F: FactSource>(
        &self,
        fact: &mut NextFact,
        among: &F,
        rooms: &mut LandingWorkspace,
    ) -> bool
        ensures lands { IsTrue result ↔
            Lands (place_in_code self.now) (fact_in_code fact.old) (F.facts among.now) }
        ensures kept { fact_in_code fact.new ≡ fact_in_code fact.old }
    {
        match &self.rules {
            Rules::OfEquations => self.entails_one(fact, among, &mut rooms.given),
            Rules::OfSums => {
                if !self.lands_under(fact, Link::CLEAR, among, rooms) {
                    return false;
                }
                self.lands_under(fact, Link::SET, among, rooms)
            }
        }
    }

    /// Whether no state satisfies a fact under a link, if it allows the link. The fact itself is left as it was.
    fn is_idle_under(&self, fact: &mut NextFact, link: Link, rooms: &mut LandingWorkspace) -> bool
        ensures idle { IsTrue result ↔ IsIdleUnder (place_in_code self.now) link (fact_in_code fact.old) }
        ensures kept { fact_in_code fact.new ≡ fact_in_code fact.old }
    {
        if !fact.link().contains(link) {
            return true;
        }
        let LandingWorkspace { part, .. } = rooms;
        part.take(self, fact, link);
        part.is_none()
    }

    /// Whether nothing need be required of a fact: by the rules of sums, no state satisfies it under any link. The fact itself
    /// is left as it was.
    pub fn is_idle(&self, fact: &mut NextFact, rooms: &mut LandingWorkspace) -> bool
        ensures idle { IsTrue result ↔
            IsIdle (place_in_code self.now).rules (place_in_code self.now) (fact_in_code fact.old) }
        ensures kept { fact_in_code fact.new ≡ fact_in_code fact.old }
    {
        match &self.rules {
            Rules::OfEquations => false,
            Rules::OfSums => {
                if !self.is_idle_under(fact, Link::CLEAR, rooms) {
                    return false;
                }
                self.is_idle_under(fact, Link::SET, rooms)
            }
        }
    }
}
