//! Declarations: as a text gives them, as they are kept, and their readers.
#![tactic(auto)]

ghost use Rattle.std.specs.Prelude.{◌≡◌, ◌≢◌, ◌⊎◌, ◌≤◌, ◌↔◌, ◌==◌, ◌||◌, length, map, IsTrue, true, false, IfSome, IfNone, IfOk, IfErr, IsErrOf, None, Some, Ok, is_some};
ghost use Rattle.std.specs.List.{find};
ghost use Rattle.std.specs.Option.{option_map};
ghost use Rattle.declaration.specs.Declaration.{Declaration as Declared, Routine as MainOrEntry, IsDeclared, IsListed};
ghost use Rattle.declaration.specs.Text.{Declares, Fails, ListsRoutines, contents, most_bytes};
ghost use Rattle.declaration.specs.Drafts.{gathered};
ghost use Rattle.declaration.specs.declared.DeclarationFault.{DeclarationFault};
ghost use Rattle.declaration.specs.declared.DeclarationFault.TheVariants.{NoMemory};
ghost use Rattle.wordset.specs.Lanes.{words};
ghost use Rattle.wordset.specs.Words.{SameWords};
ghost use Rattle.declaration.specs.DeclarationInCode.{offsets, offsets_of, subroutine_of, routine_of, routines_of, entries, in_routines, in_some_body, further_of, assertion_of, place_assertion_of, return_assertion_of, skips_of, further_offsets, meaning};

use crate::drafts::Draft;
use instruct::Profile;
use std::alloc::Allocator;
use std::marker::Model;
use streams::taking::take_lines;
use thiserror::Error;
use word12::Word;
use wordset::WordSet;

mod coverage;
mod drafts;
pub mod laws;
mod lines;
pub mod writing;

/// The most bytes of a declaration.
const MOST_BYTES: usize = 16_384;

/// Why a text is not a declaration.
#[derive(Clone, Copy, PartialEq, Eq, Debug, Error)]
pub enum DeclarationFault {
    /// The line of this number, counted from 1, is none of the lines that there are.
    #[error("BadLine {0}")]
    BadLine(usize),
    /// The line of this number gives a second start.
    #[error("TwoStarts {0}")]
    TwoStarts(usize),
    /// The line of this number gives a second machine.
    #[error("TwoProfiles {0}")]
    TwoProfiles(usize),
    /// No line gives the start.
    #[error("NoStart")]
    NoStart,
    /// The cell is in two bodies; or it is an entry, and in a body, a variable or another entry; or
    /// it is both a stop and a pause.
    #[error("Overlap {0}")]
    Overlap(Word),
    /// The entry is one of the cells 0010 to 0017, which an indirect reference steps.
    #[error("EntryInAutoIndex {0}")]
    EntryInAutoIndex(Word),
    /// The start is not in main's body.
    #[error("StartNotInMain")]
    StartNotInMain,
    /// The text has more than 16,384 bytes, or more than 64 `sub` lines, 64 `skips` lines or 256
    /// assertions.
    #[error("TooMany")]
    TooMany,
    /// The declared halt is in no body.
    #[error("HaltNotInBody {0}")]
    HaltNotInBody(Word),
    /// `skips`, `moves` or `returns` names the cell, which is not an entry; or `abandon` names it,
    /// and it is not in main's body; or something is to hold at it, and it is in no body.
    #[error("Misplaced {0}")]
    Misplaced(Word),
    /// A growth of a list of routines, of offsets or of assertions was refused.
    #[error("NoMemory")]
    NoMemory,
}

/// Some of the offsets 0 to 7, at which a routine may return.
#[derive(Clone, Copy, PartialEq, Eq, Debug)]
pub struct Offsets {
    declared: [bool; 8],
}

/// A routine: its entry, the cells of its body, and the offsets at which it may return.
///
/// Contracts see it as `subroutine_of` gives it.
#[derive(Clone, Copy, PartialEq, Eq, Debug)]
pub struct Routine {
    entry: Word,
    body: WordSet,
    offsets: Offsets,
}

/// Further offsets of a routine, none of them beyond 77.
///
/// Contracts see them as `further_of` gives them.
#[derive(Clone, Copy, PartialEq, Eq, Debug)]
pub struct FurtherOffsets {
    entry: Word,
    offsets: WordSet,
}

/// Of what an assertion speaks.
#[derive(Clone, Copy, PartialEq, Eq, Debug)]
pub enum Subject {
    /// The accumulator.
    Accumulator,
    /// The link, 0 or 1.
    Link,
    /// MQ.
    Mq,
    /// This cell.
    Cell(Word),
}

/// That the subject has one of some words.
///
/// Contracts see it as `assertion_of` gives it.
#[derive(Clone, Copy, PartialEq, Eq, Debug)]
pub struct Assertion {
    subject: Subject,
    words: WordSet,
}

/// What is to hold whenever control is at one of some places.
///
/// Contracts see it as `place_assertion_of` gives it.
#[derive(Clone, Copy, PartialEq, Eq, Debug)]
pub struct PlaceAssertion {
    places: WordSet,
    assertion: Assertion,
}

/// What is to hold whenever the routine of an entry returns by one of some offsets.
///
/// Contracts see it as `return_assertion_of` gives it.
#[derive(Clone, Copy, PartialEq, Eq, Debug)]
pub struct ReturnAssertion {
    entry: Word,
    offsets: WordSet,
    assertion: Assertion,
}

/// Whose body a cell is in.
#[derive(Clone, Copy, PartialEq, Eq, Debug)]
pub enum Owner {
    /// Main's.
    Main,
    /// That of the routine of this entry.
    Routine(Word),
}

impl Owner {
    /// The entry of the routine whose body it is, if it is not main's.
    pub fn entry(self) -> Option<Word>
        ensures { result ≡ routine_of self }
    {
        match self {
            Owner::Main => None,
            Owner::Routine(entry) => Some(entry),
        }
    }
}

/// What the author of a program promises of its runs: the start, the bodies of main and of the
/// routines, the variables, the declared halts, the machine, the cells that may be read, if they
/// are listed, the routines that may move their return word, the places for which all calls may be
/// abandoned, and what is to hold.
///
/// Contracts see it as `meaning` gives it.
#[derive(Drop)]
pub struct Declaration<A: Allocator> {
    start: Word,
    profile: Profile,
    main: WordSet,
    routines: Vec<Routine, A>,
    variables: WordSet,
    stops: WordSet,
    pauses: WordSet,
    reads: Option<WordSet>,
    skips: Vec<FurtherOffsets, A>,
    moves: WordSet,
    abandons: WordSet,
    holds: Vec<PlaceAssertion, A>,
    returns: Vec<ReturnAssertion, A>,
}

impl<A: Allocator> Model for Declaration<A> {
    ghost use Rattle.declaration.specs.Declaration.{IsDeclared};
    ghost use Rattle.declaration.specs.DeclarationInCode.{Kept, meaning};

    ghost Value = { Kept };

    ghost view = { λ d. record {
      start = d.start;
      profile = d.profile;
      main = d.main;
      routines = d.routines.items;
      variables = d.variables;
      stops = d.stops;
      pauses = d.pauses;
      reads = d.reads;
      skips = d.skips.items;
      moves = d.moves;
      abandons = d.abandons;
      holds = d.holds.items;
      returns = d.returns.items;
    } };

    // Each declaration keeps the overlap rules.
    ghost invariant = { λ d. IsDeclared (meaning (record {
      start = d.start;
      profile = d.profile;
      main = d.main;
      routines = d.routines.items;
      variables = d.variables;
      stops = d.stops;
      pauses = d.pauses;
      reads = d.reads;
      skips = d.skips.items;
      moves = d.moves;
      abandons = d.abandons;
      holds = d.holds.items;
      returns = d.returns.items;
    })) };
}

impl Offsets {
    /// Whether the offset is one of these.
    pub fn contains(&self, offset: Word) -> bool
        ensures { result ≡ offsets_of self.now offset }
    {
        let at = offset.index();
        at < 8 && self.declared[at]
    }
}

impl Routine {
    /// The cell in which a call keeps its return address, just before the routine.
    pub fn entry(&self) -> Word
        ensures { result ≡ (subroutine_of self.now).entry }
    {
        self.entry
    }

    /// The cells of the body.
    pub fn body(&self) -> &WordSet
        ensures { words result.now ≡ (subroutine_of self.now).body }
    {
        &self.body
    }

    /// The offsets from the address after a call at which the routine may return by its own line.
    /// `Declaration::has_offset` knows those of other lines too.
    pub fn offsets(&self) -> Offsets
        ensures { offsets_of result ≡ (subroutine_of self.now).offsets }
    {
        self.offsets
    }
}

impl FurtherOffsets {
    /// The routine's entry.
    pub fn entry(&self) -> Word
        ensures { result ≡ (further_of self.now).entry }
    {
        self.entry
    }

    /// The offsets.
    pub fn offsets(&self) -> &WordSet
        ensures { words result.now ≡ (further_of self.now).offsets }
    {
        &self.offsets
    }
}

impl Assertion {
    /// Of what it speaks.
    pub fn subject(&self) -> &Subject
        ensures { result.now ≡ (assertion_of self.now).subject }
    {
        &self.subject
    }

    /// The words of which the subject has one.
    pub fn words(&self) -> &WordSet
        ensures { words result.now ≡ (assertion_of self.now).words }
    {
        &self.words
    }
}

impl PlaceAssertion {
    /// The places.
    pub fn places(&self) -> &WordSet
        ensures { words result.now ≡ (place_assertion_of self.now).places }
    {
        &self.places
    }

    /// What is to hold there.
    pub fn assertion(&self) -> &Assertion
        ensures { assertion_of result.now ≡ (place_assertion_of self.now).assertion }
    {
        &self.assertion
    }
}

impl ReturnAssertion {
    /// The routine's entry.
    pub fn entry(&self) -> Word
        ensures { result ≡ (return_assertion_of self.now).entry }
    {
        self.entry
    }

    /// The offsets.
    pub fn offsets(&self) -> &WordSet
        ensures { words result.now ≡ (return_assertion_of self.now).offsets }
    {
        &self.offsets
    }

    /// What is to hold when the routine returns by one of them.
    pub fn assertion(&self) -> &Assertion
        ensures { assertion_of result.now ≡ (return_assertion_of self.now).assertion }
    {
        &self.assertion
    }
}

impl<A: Allocator> Declaration<A> {
    /// The declaration of a text.
    ///
    /// Each line is one of `start A`, `main R..`, `sub E body R.. returns d..`, `var R..`,
    /// `stop A..`, `pause A..`, `profile 8i` or `profile 8e`, `read R..`, `skips E R..`, `moves E..`,
    /// `abandon A..`, `holds A..` with an assertion, and `returns E d..` with one, or empty. A range
    /// `R` is an address `A` or two, `A-B`; an address is one to four octal digits, an offset `d` of
    /// a `sub` line one octal digit. There may be no offsets, and no ranges after `read`. Those of
    /// `skips` and `returns` are 0 to 77; `returns` without one means all. An assertion is `ac R..`,
    /// `mq R..`, `link 0`, `link 1` or `cell C R..`. Words stand between spaces and tabs, and a `/`
    /// begins a comment. Lines of one kind add to one another, but each `sub` line is a routine of
    /// its own, and there is one start and at most one machine, which is the 8/I without a line.
    ///
    /// # Errors
    ///
    /// `TooMany` first for a text of more than 16,384 bytes. Then, by the first line at which one
    /// of them is due, `BadLine`, `TwoStarts` or `TwoProfiles` with the line's number, `TooMany`
    /// for a 65th routine, a 65th `skips` line or a 257th assertion, or `NoMemory` where a growth
    /// was refused, in this order. Then `NoStart`, `Overlap`, `EntryInAutoIndex`, `StartNotInMain`,
    /// `HaltNotInBody` and `Misplaced`, in this order, with the least address that shows the fault.
    pub fn parse(alloc: A, text: &[u8]) -> Result<Declaration<A>, DeclarationFault>
    where
        A: Copy,
        ensures found { IfOk result (λ d. Declares text.now (meaning d)) }
        ensures declared { IfOk result (λ d. IsDeclared (meaning d)) }
        ensures routines { IfOk result (λ d. ListsRoutines text.now (routines_of d)) }
        ensures only { (d : Declared) → Declares text.now d
            → IfErr result (λ fault. fault ≡ NoMemory) }
        ensures refused { IfErr result (Fails text.now) }
        ensures exact { (fault : DeclarationFault) → Fails text.now fault → fault ≢ NoMemory
            → IsErrOf result fault ⊎ IsErrOf result NoMemory }
    {
        if text.len() > MOST_BYTES {
            return Err(DeclarationFault::TooMany);
        }
        parse_lines(alloc, text)
    }

    /// Shows that a declaration keeps the overlap rules, which proofs about a borrowed one need.
    pub fn is_declared(&self)
        ensures { IsDeclared (meaning self.now) }
    {
        let _start = &self.start;
    }

    /// Where the program starts.
    pub fn start(&self) -> Word
        ensures { result ≡ (meaning self.now).start }
    {
        self.start
    }

    /// The machine that is meant.
    pub fn profile(&self) -> Profile
        ensures { result ≡ (meaning self.now).profile }
    {
        self.profile
    }

    /// The cells of main's body.
    pub fn main(&self) -> &WordSet
        ensures { words result.now ≡ (meaning self.now).body None }
    {
        &self.main
    }

    /// The routines; after `parse` at most 64, in the order of their lines.
    pub fn routines(&self) -> &[Routine]
        ensures { result.now ≡ routines_of self.now }
    {
        &self.routines
    }

    /// The variable cells.
    pub fn variables(&self) -> &WordSet
        ensures { words result.now ≡ (meaning self.now).variable }
    {
        &self.variables
    }

    /// The declared halts that are stops.
    pub fn stops(&self) -> &WordSet
        ensures { words result.now ≡ (meaning self.now).stop }
    {
        &self.stops
    }

    /// The declared halts that are pauses.
    pub fn pauses(&self) -> &WordSet
        ensures { words result.now ≡ (meaning self.now).pause }
    {
        &self.pauses
    }

    /// The cells that may be read, if they are listed.
    pub fn reads(&self) -> Option<&WordSet>
        ensures { option_map (λ set. words set.now) result ≡ (meaning self.now).reads }
    {
        self.reads.as_ref()
    }

    /// The further offsets of routines, in the order of their lines.
    pub fn skips(&self) -> &[FurtherOffsets]
        ensures { result.now ≡ skips_of self.now }
    {
        &self.skips
    }

    /// The entries of the routines that may store in them.
    pub fn moves(&self) -> &WordSet
        ensures { words result.now ≡ (meaning self.now).moves }
    {
        &self.moves
    }

    /// The places for which all open calls may be abandoned.
    pub fn abandons(&self) -> &WordSet
        ensures { words result.now ≡ (meaning self.now).abandon }
    {
        &self.abandons
    }

    /// What is to hold at places, in the order of the lines.
    pub fn holds(&self) -> &[PlaceAssertion]
        ensures { map place_assertion_of result.now ≡ (meaning self.now).holds }
    {
        &self.holds
    }

    /// What is to hold at returns, in the order of the lines.
    pub fn returns(&self) -> &[ReturnAssertion]
        ensures { map return_assertion_of result.now ≡ (meaning self.now).returns }
    {
        &self.returns
    }

    /// Whether a cell is in main's body.
    pub fn in_main(&self, at: Word) -> bool
        ensures { result ≡ (meaning self.now).body None at }
    {
        self.main.contains(at)
    }

    /// Whether a cell is a routine's entry.
    pub fn is_entry(&self, at: Word) -> bool
        ensures { result ≡ (meaning self.now).entry at }
    {
        self.routines.iter().any(|routine| routine.entry == at)
    }

    /// Whether a cell is in the body of the routine of an entry.
    pub fn in_body(&self, entry: Word, at: Word) -> bool
        ensures { result ≡ (meaning self.now).body (Some entry) at }
    {
        self.routines.iter().any(|routine| routine.entry == entry && routine.body.contains(at))
    }

    /// The routine whose body has a cell, if there is one. No cell is in two bodies.
    pub fn owner_of(&self, at: Word) -> Option<Owner>
        ensures found { IfSome result (λ owner.
            (meaning self.now).body (routine_of owner) at ≡ true) }
        ensures none { IfNone result ((r : MainOrEntry) → (meaning self.now).body r at ≡ false) }
        ensures only { (r : MainOrEntry) → (meaning self.now).body r at ≡ true
            → option_map routine_of result ≡ Some r }
    {
        if self.main.contains(at) {
            return Some(Owner::Main);
        }
        routine_with(&self.routines, at)
    }

    /// Whether a cell is in the body of main or of a routine.
    pub fn in_body_of(&self, owner: Owner, at: Word) -> bool
        ensures { result ≡ (meaning self.now).body (routine_of owner) at }
    {
        match owner {
            Owner::Main => self.in_main(at),
            Owner::Routine(entry) => self.in_body(entry, at),
        }
    }

    /// The cells of all bodies, main's and the routines'.
    pub fn bodies(&self) -> WordSet
        ensures { SameWords (words result) (in_some_body self.now) }
    {
        bodies_of(&self.main, &self.routines)
    }

    /// The entries of all routines.
    pub fn entries(&self) -> WordSet
        ensures { SameWords (words result) (meaning self.now).entry }
    {
        entries_of(&self.routines)
    }

    /// Whether the routine of an entry may return at an offset.
    pub fn has_offset(&self, entry: Word, offset: Word) -> bool
        ensures { result ≡ (meaning self.now).offset entry offset }
    {
        self.lists_offset(entry, offset) || self.skips_by(entry, offset)
    }

    /// Whether a routine has an offset by its `sub` line.
    fn lists_offset(&self, entry: Word, offset: Word) -> bool
        ensures { result ≡ offsets (routines_of self.now) entry offset }
    {
        self.routines.iter().any(|routine| routine.entry == entry
            && routine.offsets.contains(offset))
    }

    /// Whether a routine has an offset by a `skips` line.
    fn skips_by(&self, entry: Word, offset: Word) -> bool
        ensures { result ≡ further_offsets (skips_of self.now) entry offset }
    {
        self.skips.iter().any(|skips| skips.entry == entry && skips.offsets.contains(offset))
    }

    /// Whether the routine of an entry may store in it.
    pub fn may_move(&self, entry: Word) -> bool
        ensures { result ≡ (meaning self.now).moves entry }
    {
        self.moves.contains(entry)
    }

    /// Whether all open calls may be abandoned for a place.
    pub fn is_abandon(&self, at: Word) -> bool
        ensures { result ≡ (meaning self.now).abandon at }
    {
        self.abandons.contains(at)
    }

    /// Whether a cell is a variable.
    pub fn is_variable(&self, at: Word) -> bool
        ensures { result ≡ (meaning self.now).variable at }
    {
        self.variables.contains(at)
    }

    /// Whether a cell is a declared halt that is a stop.
    pub fn is_stop(&self, at: Word) -> bool
        ensures { result ≡ (meaning self.now).stop at }
    {
        self.stops.contains(at)
    }

    /// Whether a cell is a declared halt that is a pause.
    pub fn is_pause(&self, at: Word) -> bool
        ensures { result ≡ (meaning self.now).pause at }
    {
        self.pauses.contains(at)
    }

    /// Whether there is a list of reads.
    pub fn reads_listed(&self) -> bool
        ensures { result ≡ is_some (meaning self.now).reads }
    {
        self.reads.is_some()
    }

    /// Whether a cell may be read: it is on the list of reads, or there is none.
    pub fn may_read(&self, at: Word) -> bool
        ensures { IsTrue result ↔ IsListed (meaning self.now).reads at }
    {
        match &self.reads {
            None => true,
            Some(cells) => cells.contains(at),
        }
    }
}

/// The cells of main's body and of those of some routines.
fn bodies_of(main: &WordSet, routines: &[Routine]) -> WordSet
    ensures { SameWords (words result) (λ a. words main.now a || in_routines routines.now a) }
{
    let mut cells = *main;
    for routine in routines {
        cells = cells.union(&routine.body);
    }
    cells
}

/// The entries of some routines.
fn entries_of(routines: &[Routine]) -> WordSet
    ensures { SameWords (words result) (entries routines.now) }
{
    let mut cells = WordSet::empty();
    for routine in routines {
        cells.insert(routine.entry);
    }
    cells
}

/// The first routine whose body has a cell.
fn routine_with(routines: &[Routine], at: Word) -> Option<Owner>
    ensures { option_map routine_of result
        ≡ option_map (λ r. Some r.entry) (find (λ r. words r.body at) routines.now) }
{
    routines
        .iter()
        .find(|routine| routine.body.contains(at))
        .map(|routine| Owner::Routine(routine.entry))
}

/// The declaration of a text that is not too long.
fn parse_lines<A: Allocator + Copy>(
    alloc: A,
    text: &[u8],
) -> Result<Declaration<A>, DeclarationFault>
    requires { length text.now ≤ most_bytes }
    ensures found { IfOk result (λ d. Declares text.now (meaning d)) }
    ensures declared { IfOk result (λ d. IsDeclared (meaning d)) }
    ensures routines { IfOk result (λ d. ListsRoutines text.now (routines_of d)) }
    ensures refused { IfErr result (Fails text.now) }
{
    match read_lines(alloc, text) {
        Ok(draft) => draft.finish(),
        Err(fault) => Err(fault),
    }
}

/// What the lines of a text that is not too long say together.
fn read_lines<A: Allocator + Copy>(alloc: A, text: &[u8]) -> Result<Draft<A>, DeclarationFault>
    requires { length text.now ≤ most_bytes }
    ensures found { IfOk result (λ draft. contents text.now ≡ Ok (gathered draft)) }
    ensures refused { IfErr result (Fails text.now) }
{
    let mut draft = Draft::new(alloc);
    match take_lines(&mut draft, text) {
        Ok(()) => Ok(draft),
        Err(fault) => Err(fault),
    }
}
