//! What the lines of a declaration say together, and the rules that it keeps.

ghost use Rattle.std.specs.Prelude.{ℕ, Some, Ok, Err, ◌≡◌, ◌<◌, ◌≤◌, ◌+◌, ◌==◌, ◌↔◌, length, map, true, IsTrue, OnOk, IfOk, IfErr};
ghost use Rattle.std.specs.List.{list_any};
ghost use Rattle.wordset.specs.Words.{SameWords};
ghost use Rattle.wordset.specs.Lanes.{words};
ghost use Rattle.processor.specs.Machine.{is_auto_index};
ghost use Rattle.declaration.specs.Declaration.{IsDeclared};
ghost use Rattle.declaration.specs.DeclarationInCode.{meaning, routines_of, subroutine_of};
ghost use Rattle.declaration.specs.Text.{nothing_said, is_entry, overlaps, entry_in_index, halt_outside, misplaced, bodies_at, fault_of, whole};
ghost use Rattle.declaration.specs.Drafts.{gathered, said, Adds, IsRefused, KeepsRules, Counts, entries_at, kept_bodies, kept_entries, named_entries};

use super::coverage::Coverage;
use super::lines::{DeclarationLine, read_line};
use super::{
    Declaration, DeclarationFault, FurtherOffsets, PlaceAssertion, ReturnAssertion, Routine,
};
use instruct::Profile;
use std::alloc::Allocator;
use streams::taking::LineTaker;
use word12::Word;
use wordset::WordSet;

/// The most routines of a declaration.
const MOST_ROUTINES: usize = 64;

/// The most lines of further offsets.
const MOST_SKIPS: usize = 64;

/// The most assertions.
const MOST_ASSERTIONS: usize = 256;

/// What was said so far.
#[derive(Drop)]
pub struct Draft<A: Allocator> {
    start: Option<Word>,
    profile: Option<Profile>,
    main: WordSet,
    routines: Vec<Routine, A>,
    variables: WordSet,
    stops: WordSet,
    pauses: WordSet,
    reads: Option<WordSet>,
    skips: Vec<FurtherOffsets, A>,
    moves: WordSet,
    abandons: WordSet,
    holds: Vec<PlaceAssertion, A>,
    returns: Vec<ReturnAssertion, A>,
}

impl<A: Allocator> Draft<A> {
    /// Nothing was said yet.
    pub fn new(alloc: A) -> Draft<A>
    where
        A: Copy,
        ensures { gathered result ≡ nothing_said }
    {
        Draft {
            start: None,
            profile: None,
            main: WordSet::empty(),
            routines: Vec::new(alloc),
            variables: WordSet::empty(),
            stops: WordSet::empty(),
            pauses: WordSet::empty(),
            reads: None,
            skips: Vec::new(alloc),
            moves: WordSet::empty(),
            abandons: WordSet::empty(),
            holds: Vec::new(alloc),
            returns: Vec::new(alloc),
        }
    }

    /// Adds what the line of a number says, where it may follow.
    fn add(&mut self, line: &DeclarationLine, number: usize) -> Result<(), DeclarationFault>
        ensures added { OnOk result
            (Adds (gathered self.old) (Some (said line.now)) (gathered self.new)) }
        ensures refused { IfErr result
            (IsRefused (gathered self.old) number (Some (said line.now))) }
    {
        match line {
            DeclarationLine::Nothing => {}
            DeclarationLine::Start(at) => return self.add_start(*at, number),
            DeclarationLine::Main(set) => self.main = self.main.union(set),
            DeclarationLine::Sub(routine) => return self.add_routine(routine, number),
            DeclarationLine::Variables(set) => self.variables = self.variables.union(set),
            DeclarationLine::Stops(set) => self.stops = self.stops.union(set),
            DeclarationLine::Pauses(set) => self.pauses = self.pauses.union(set),
            DeclarationLine::Machine(profile) => return self.add_profile(*profile, number),
            DeclarationLine::Reads(set) => self.add_reads(set),
            DeclarationLine::Skips(skips) => return self.add_skips(skips, number),
            DeclarationLine::Moves(set) => self.moves = self.moves.union(set),
            DeclarationLine::Abandon(set) => self.abandons = self.abandons.union(set),
            DeclarationLine::Holds(holding) => return self.add_holding(holding, number),
            DeclarationLine::Returns(returning) => return self.add_returning(returning, number),
        }
        Ok(())
    }

    fn add_start(&mut self, at: Word, number: usize) -> Result<(), DeclarationFault>
        ensures added { OnOk result
            (Adds (gathered self.old) (Some (said (DeclarationLine.Start at))) (gathered self.new)) }
        ensures refused { IfErr result
            (IsRefused (gathered self.old) number (Some (said (DeclarationLine.Start at)))) }
    {
        if self.start.is_some() {
            return Err(DeclarationFault::TwoStarts(number));
        }
        self.start = Some(at);
        Ok(())
    }

    fn add_profile(&mut self, profile: Profile, number: usize) -> Result<(), DeclarationFault>
        ensures added { OnOk result
            (Adds (gathered self.old) (Some (said (DeclarationLine.Machine profile))) (gathered self.new)) }
        ensures refused { IfErr result
            (IsRefused (gathered self.old) number (Some (said (DeclarationLine.Machine profile)))) }
    {
        if self.profile.is_some() {
            return Err(DeclarationFault::TwoProfiles(number));
        }
        self.profile = Some(profile);
        Ok(())
    }

    fn add_routine(&mut self, routine: &Routine, number: usize) -> Result<(), DeclarationFault>
        ensures added { OnOk result
            (Adds (gathered self.old) (Some (said (DeclarationLine.Sub routine.now))) (gathered self.new)) }
        ensures refused { IfErr result
            (IsRefused (gathered self.old) number (Some (said (DeclarationLine.Sub routine.now)))) }
    {
        if self.routines.len() >= MOST_ROUTINES {
            return Err(DeclarationFault::TooMany);
        }
        match self.routines.push(*routine) {
            Ok(()) => Ok(()),
            Err(_) => Err(DeclarationFault::NoMemory),
        }
    }

    fn add_reads(&mut self, set: &WordSet)
        ensures { Adds (gathered self.old) (Some (said (DeclarationLine.Reads set.now))) (gathered self.new) }
    {
        let reads = match self.reads {
            Some(reads) => reads,
            None => WordSet::empty(),
        };
        self.reads = Some(reads.union(set));
    }

    fn add_skips(&mut self, skips: &FurtherOffsets, number: usize) -> Result<(), DeclarationFault>
        ensures added { OnOk result
            (Adds (gathered self.old) (Some (said (DeclarationLine.Skips skips.now))) (gathered self.new)) }
        ensures refused { IfErr result
            (IsRefused (gathered self.old) number (Some (said (DeclarationLine.Skips skips.now)))) }
    {
        if self.skips.len() >= MOST_SKIPS {
            return Err(DeclarationFault::TooMany);
        }
        match self.skips.push(*skips) {
            Ok(()) => Ok(()),
            Err(_) => Err(DeclarationFault::NoMemory),
        }
    }

    /// Whether there are as many assertions as there may be.
    fn has_all_assertions(&self) -> bool
        ensures { IsTrue result
            ↔ (256 ≤ length (gathered self.now).holds + length (gathered self.now).returns) }
    {
        self.holds.len() >= MOST_ASSERTIONS
            || self.returns.len() >= MOST_ASSERTIONS - self.holds.len()
    }

    fn add_holding(
        &mut self,
        holding: &PlaceAssertion,
        number: usize,
    ) -> Result<(), DeclarationFault>
        ensures added { OnOk result
            (Adds (gathered self.old) (Some (said (DeclarationLine.Holds holding.now))) (gathered self.new)) }
        ensures refused { IfErr result
            (IsRefused (gathered self.old) number (Some (said (DeclarationLine.Holds holding.now)))) }
    {
        if self.has_all_assertions() {
            return Err(DeclarationFault::TooMany);
        }
        match self.holds.push(*holding) {
            Ok(()) => Ok(()),
            Err(_) => Err(DeclarationFault::NoMemory),
        }
    }

    fn add_returning(
        &mut self,
        returning: &ReturnAssertion,
        number: usize,
    ) -> Result<(), DeclarationFault>
        ensures added { OnOk result
            (Adds (gathered self.old) (Some (said (DeclarationLine.Returns returning.now))) (gathered self.new)) }
        ensures refused { IfErr result
            (IsRefused (gathered self.old) number (Some (said (DeclarationLine.Returns returning.now)))) }
    {
        if self.has_all_assertions() {
            return Err(DeclarationFault::TooMany);
        }
        match self.returns.push(*returning) {
            Ok(()) => Ok(()),
            Err(_) => Err(DeclarationFault::NoMemory),
        }
    }

    /// The declaration, where all that was said keeps the rules.
    pub fn finish(self) -> Result<Declaration<A>, DeclarationFault>
        ensures found { IfOk result (λ d. whole (gathered self) ≡ Ok (meaning d)) }
        ensures declared { IfOk result (λ d. IsDeclared (meaning d)) }
        ensures routines { IfOk result (λ d.
            map subroutine_of (routines_of d) ≡ (gathered self).routines) }
        ensures broken { IfErr result (λ fault. whole (gathered self) ≡ Err fault) }
    {
        let Some(start) = self.start else {
            return Err(DeclarationFault::NoStart);
        };
        if let Err(fault) = self.keeps_rules(start) {
            return Err(fault);
        }
        Ok(Declaration {
            start,
            profile: self.profile.unwrap_or(Profile::Pdp8I),
            main: self.main,
            routines: self.routines,
            variables: self.variables,
            stops: self.stops,
            pauses: self.pauses,
            reads: self.reads,
            skips: self.skips,
            moves: self.moves,
            abandons: self.abandons,
            holds: self.holds,
            returns: self.returns,
        })
    }

    /// Looks for the first rule that is violated.
    fn keeps_rules(&self, start: Word) -> Result<(), DeclarationFault>
        ensures kept { OnOk result (KeepsRules (gathered self.now) start) }
        ensures fit { OnOk result
            ((e : ℕ) → is_entry (gathered self.now) e ≡ true → e < 4096) }
        ensures broken { IfErr result (λ fault. fault_of (gathered self.now) start ≡ Some fault) }
    {
        let bodies = bodies(&self.main, &self.routines);
        let entries = entries(&self.routines);
        if let Some(at) = self.overlaps(&bodies, &entries).first_from(0) {
            return Err(DeclarationFault::Overlap(at));
        }
        if let Some(at) = self.entries_in_index(&entries).first_from(0) {
            return Err(DeclarationFault::EntryInAutoIndex(at));
        }
        if !self.main.contains(start) {
            return Err(DeclarationFault::StartNotInMain);
        }
        if let Some(at) = self.halts_outside(&bodies).first_from(0) {
            return Err(DeclarationFault::HaltNotInBody(at));
        }
        if let Some(at) = self.misplaced(&bodies, &entries).first_from(0) {
            return Err(DeclarationFault::Misplaced(at));
        }
        Ok(())
    }

    /// The cells that overlap.
    fn overlaps(&self, bodies: &Coverage, entries: &Coverage) -> WordSet
        requires bodies { Counts bodies.now (bodies_at (gathered self.now)) }
        requires entries { Counts entries.now (entries_at (gathered self.now)) }
        ensures { SameWords (words result) (overlaps (gathered self.now)) }
    {
        bodies
            .twice
            .union(&entries.once.meet(&bodies.once))
            .union(&entries.once.meet(&self.variables))
            .union(&entries.twice)
            .union(&self.stops.meet(&self.pauses))
    }

    /// The entries that are auto-index cells.
    fn entries_in_index(&self, entries: &Coverage) -> WordSet
        requires { Counts entries.now (entries_at (gathered self.now)) }
        ensures { SameWords (words result) (entry_in_index (gathered self.now)) }
    {
        entries.once.meet(&index_cells())
    }

    /// The declared halts that are in no body.
    fn halts_outside(&self, bodies: &Coverage) -> WordSet
        requires { Counts bodies.now (bodies_at (gathered self.now)) }
        ensures { SameWords (words result) (halt_outside (gathered self.now)) }
    {
        self.stops.union(&self.pauses).minus(&bodies.once)
    }
}

impl<A: Allocator> Draft<A> {
    /// The cells of which something is said that they are not there for.
    fn misplaced(&self, bodies: &Coverage, entries: &Coverage) -> WordSet
        requires bodies { Counts bodies.now (bodies_at (gathered self.now)) }
        requires entries { Counts entries.now (entries_at (gathered self.now)) }
        ensures { SameWords (words result) (misplaced (gathered self.now)) }
    {
        let named = named_entries(&self.moves, &self.skips, &self.returns);
        let held = held_places(&self.holds);
        named
            .minus(&entries.once)
            .union(&self.abandons.minus(&self.main))
            .union(&held.minus(&bodies.once))
    }
}

impl<A: Allocator> LineTaker for Draft<A> {
    ghost use Rattle.declaration.specs.Lines.{line_of};

    type Fault = DeclarationFault;

    ghost takes = { λ old line new. Adds (gathered old) (line_of line) (gathered new) };

    ghost refuses = { λ old number line fault _.
        IsRefused (gathered old) number (line_of line) fault };

    fn take(&mut self, number: usize, line: &[u8]) -> Result<(), DeclarationFault> {
        match read_line(line) {
            Some(said) => self.add(&said, number),
            None => Err(DeclarationFault::BadLine(number)),
        }
    }
}

/// The cells of main's body and of those of some routines.
fn bodies(main: &WordSet, routines: &[Routine]) -> Coverage
    ensures { Counts result (kept_bodies main.now routines.now) }
{
    let mut bodies = Coverage::none();
    bodies.add(main);
    for routine in routines {
        bodies.add(&routine.body);
    }
    bodies
}

/// The entries of some routines.
fn entries(routines: &[Routine]) -> Coverage
    ensures { Counts result (kept_entries routines.now) }
{
    let mut entries = Coverage::none();
    for routine in routines {
        entries.add(&WordSet::one(routine.entry));
    }
    entries
}

/// The auto-index cells.
fn index_cells() -> WordSet
    ensures { SameWords (words result) is_auto_index }
{
    WordSet::range(Word::from_index(0o10), Word::from_index(0o17))
}

/// The cells that are named as entries.
fn named_entries(moves: &WordSet, skips: &[FurtherOffsets], returns: &[ReturnAssertion]) -> WordSet
    ensures { words result ≡ named_entries (words moves.now) skips.now returns.now }
{
    skipping_entries(skips)
        .union(moves)
        .union(&returning_entries(returns))
}

/// The entries of further offsets.
fn skipping_entries(skips: &[FurtherOffsets]) -> WordSet
    ensures { words result ≡ (λ a. list_any (λ s. s.entry == a) skips.now) }
{
    let mut entries = WordSet::empty();
    for skip in skips {
        entries.insert(skip.entry);
    }
    entries
}

/// The entries of what is to hold at returns.
fn returning_entries(returns: &[ReturnAssertion]) -> WordSet
    ensures { words result ≡ (λ a. list_any (λ r. r.entry == a) returns.now) }
{
    let mut entries = WordSet::empty();
    for returning in returns {
        entries.insert(returning.entry);
    }
    entries
}

/// The places at which something is to hold.
fn held_places(holds: &[PlaceAssertion]) -> WordSet
    ensures { words result ≡ (λ a. list_any (λ h. words h.places a) holds.now) }
{
    let mut places = WordSet::empty();
    for holding in holds {
        places = places.union(&holding.places);
    }
    places
}
