//! Lines packed: each set by its runs, and the runs of all sets in one list; the steps of all chains in another.

ghost use Rattle.std.specs.Prelude.{◌≡◌, ◌+◌, ◌<◌, ◌≤◌, List, [], ◌∷◌, ◌++◌, length, take, drop, get_or, true, IfOk, OnOk, OnErr, if◌then◌else◌};
ghost use Rattle.wordset.specs.Lanes.{words};
ghost use Rattle.domain.specs.Chains.{Operates};
ghost use Rattle.certificate_lines.specs.declared.runs.Run.{Run};
ghost use Rattle.domain.specs.declared.chains.Step.{Step};
ghost use Rattle.certificate_lines.specs.Lines.{End, is_detail, is_end, is_chain, has_details};
ghost use Rattle.certificate_lines.specs.LineOf.{is_step};
ghost use Rattle.certificate_lines.specs.Order.{detail_is_before};
ghost use Rattle.certificate_lines.specs.Packed.{said_at, said_lines, said_of, LiesWithin, IsNumbered, HasForm, run_count, step_count, claimed_line, sited_line};
ghost use Rattle.certificate_lines.specs.Found.{past, last_past, AreRising, from_place, begins_at, least_place};

pub mod load;
mod store;
pub mod sum;

use crate::RoutineClaim;
use crate::packed::store::{lay_all, lay_sited, pack};
use crate::packed::sum::PackedSum;
use crate::progress::{LAST_PLACE, place_of};
use crate::runs::{PackedRegisters, PackedRoutine, Run, RunCounts};
use arrayvec::ArrayVec;
use domain::{CellSet, Chain, Relation, ReturnOffsets, Step, SumFact};
use std::alloc::{AllocError, Allocator};
use std::marker::Model;
use word12::Word;
use wordset::{Links, WordSet};

/// What a fact of a certificate has room for: 64 cells and 32 sums.
pub type CertifiedFact = SumFact<64, 32>;

/// No line has more steps.
const MOST_STEPS: usize = 16;

/// The largest number that a line keeps of its first run or step.
const MOST_FIRST: usize = 4_294_967_295;

/// The steps of a line's chain.
pub type Steps = ArrayVec<Step, MOST_STEPS>;

/// What a line says of a fact, its sets packed: the sites, and then those of the registers.
#[derive(Clone, Copy)]
pub struct PackedFact {
    pub address: Word,
    pub sites: u16,
    pub registers: PackedRegisters,
    pub offsets: ReturnOffsets,
}

/// What a line says of an exit, its sets packed: the sites, and then those of the registers.
#[derive(Clone, Copy)]
pub struct PackedExit {
    pub entry: Word,
    pub offset: u8,
    pub sites: u16,
    pub registers: PackedRegisters,
}

/// A chain, and how many steps it has.
#[derive(Clone, Copy)]
pub struct PackedChain {
    pub cell: Word,
    pub more: Word,
    pub link: Links,
    pub count: u8,
}

/// What a line says, its sets packed: the runs of all of them come with it, in one list, and the steps of a chain in another.
#[derive(Clone, Copy)]
pub enum PackedLine {
    /// A routine.
    Routine(PackedRoutine),
    /// What holds at an address, and the offsets; the details follow.
    Fact(PackedFact),
    /// What holds when the routine of an entry returns by an offset; the details follow.
    Exit(PackedExit),
    /// A tracked cell of the fact or exit before, and how many runs its set has.
    Cell(Word, u16),
    /// A sum of the fact or exit before, and how many runs its set has.
    Sum(PackedSum, u16),
    /// A chain of the fact or exit before.
    Chain(PackedChain),
    /// The end.
    End,
}

/// A line that is added to those of a certificate: a routine of an entry, a fact at an address, what holds when the routine
/// of an entry returns by an offset, a tracked cell, a sum or a chain.
#[derive(Clone, Copy)]
pub enum Claim<'a> {
    Routine(Word, u8, &'a RoutineClaim),
    Fact(bool, Word, &'a CertifiedFact),
    Exit(bool, Word, u8, &'a CertifiedFact),
    Cell(&'a CellSet),
    Sum(&'a Relation, &'a PackedSum),
    Chain(&'a Chain),
}

/// A line, which one of all runs is the first of its own (of a chain, which of all steps), and the least place after it; a
/// detail has that of the line that it says more of. So lines are found by their places.
#[derive(Clone, Copy)]
pub struct StoredLine {
    first: u32,
    past: u32,
    line: PackedLine,
}

/// Whether a word is one of group 1 that does not rotate both ways.
pub fn is_step(word: Word) -> bool
    ensures { result ≡ is_step (Operates word) }
{
    let index = word.index();
    0o7000 <= index && index <= 0o7377 && !(index / 8 % 2 == 1 && index / 4 % 2 == 1)
}

/// How many runs two sets have.
fn in_both(sets: &RunCounts) -> usize
    ensures count { result ≡ sets.now.one + sets.now.other }
    ensures small { result < 131072 }
{
    usize::from(sets.one) + usize::from(sets.other)
}

impl PackedLine {
    /// Whether it says more of the line before.
    pub fn is_detail(&self) -> bool
        ensures { (runs : List Run) (steps : List Step) → result ≡ is_detail (said_at runs steps self.now) }
    {
        matches!(
            self,
            PackedLine::Cell(_, _) | PackedLine::Sum(_, _) | PackedLine::Chain(_)
        )
    }

    /// Whether it is the end.
    pub fn is_end(&self) -> bool
        ensures { (runs : List Run) (steps : List Step) → result ≡ is_end (said_at runs steps self.now) }
    {
        matches!(self, PackedLine::End)
    }

    /// Whether it is a fact or an exit.
    pub fn has_details(&self) -> bool
        ensures { (runs : List Run) (steps : List Step) → result ≡ has_details (said_at runs steps self.now) }
    {
        matches!(self, PackedLine::Fact(_) | PackedLine::Exit(_))
    }

    /// Whether it is a chain.
    pub fn is_chain(&self) -> bool
        ensures { (runs : List Run) (steps : List Step) → result ≡ is_chain (said_at runs steps self.now) }
    {
        matches!(self, PackedLine::Chain(_))
    }

    /// How many runs its sets have.
    fn run_count(&self) -> usize
        ensures { result ≡ run_count self.now }
    {
        match self {
            PackedLine::Routine(routine) => in_both(&routine.sets),
            PackedLine::Fact(fact) => usize::from(fact.sites) + in_both(&fact.registers.sets),
            PackedLine::Exit(exit) => usize::from(exit.sites) + in_both(&exit.registers.sets),
            PackedLine::Cell(_, count) => usize::from(*count),
            PackedLine::Sum(_, count) => usize::from(*count),
            _ => 0,
        }
    }

    /// How many steps it has.
    fn step_count(&self) -> usize
        ensures { result ≡ step_count self.now }
    {
        match self {
            PackedLine::Chain(chain) => usize::from(chain.count),
            _ => 0,
        }
    }

    /// Whether a detail is before another one: cells by their addresses, then sums, then chains by their cells.
    pub fn is_before(&self, other: &PackedLine) -> bool
        ensures { (runs runs' : List Run) (steps steps' : List Step) →
            result ≡ detail_is_before (said_at runs steps self.now) (said_at runs' steps' other.now) }
    {
        match self {
            PackedLine::Cell(cell, _) => match other {
                PackedLine::Cell(next, _) => cell.index() < next.index(),
                PackedLine::Sum(_, _) => true,
                PackedLine::Chain(_) => true,
                _ => false,
            },
            PackedLine::Sum(sum, _) => match other {
                PackedLine::Sum(next, _) => sum.is_before(next),
                PackedLine::Chain(_) => true,
                _ => false,
            },
            PackedLine::Chain(chain) => match other {
                PackedLine::Chain(next) => chain.cell.index() < next.cell.index(),
                _ => false,
            },
            _ => false,
        }
    }
}

/// Lines in their order, packed. The runs of all their sets lie in one list, and the steps of all their chains in another.
#[derive(Drop)]
pub struct PackedLines<A: Allocator> {
    list: Vec<StoredLine, A>,
    runs: Vec<Run, A>,
    steps: Vec<Step, A>,
}

impl<A: Allocator> Model for PackedLines<A> {
    ghost use Rattle.certificate_lines.specs.Packed.{Packed};
    ghost use Rattle.certificate_lines.specs.Found.{AreKept};

    ghost Value = { Packed };

    ghost view = { λ p. record { list = p.list.items; runs = p.runs.items; steps = p.steps.items } };

    // The runs of each set and the steps of each chain lie among those of all, and each line has the place after it.
    ghost invariant = { λ p. AreKept p.runs.items p.steps.items p.list.items };
}

/// A line as it is packed, with the runs and the steps from its own on.
#[derive(Clone, Copy)]
pub struct LineView<'x> {
    pub runs: &'x [Run],
    pub steps: &'x [Step],
    pub line: &'x PackedLine,
}

/// The runs from one on, or none if that lies past all.
pub fn runs_from(runs: &[Run], first: usize) -> &[Run]
    ensures { result.now ≡ drop first runs.now }
{
    &runs[first.min(runs.len())..]
}

/// The steps from one on, or none if that lies past all.
fn steps_from(steps: &[Step], first: usize) -> &[Step]
    ensures { result.now ≡ drop first steps.now }
{
    &steps[first.min(steps.len())..]
}

/// Which of all runs is the first of a line that is added, or of a chain which of all steps, where there are so many.
fn first_of(line: &PackedLine, run_count: usize, step_count: usize) -> usize
    ensures { (runs : List Run) (steps : List Step) → result ≡
        (if is_chain (said_at runs steps line.now) then step_count else run_count) }
{
    if line.is_chain() {
        step_count
    } else {
        run_count
    }
}

/// The number in 32 bits; refused where it does not fit.
fn brief(number: usize) -> Result<u32, AllocError>
    ensures { IfOk result (λ n. n ≡ number) }
{
    if number > MOST_FIRST {
        return Err(AllocError);
    }
    Ok(number as u32)
}

/// The least place after a line that is added to these.
fn past(list: &[StoredLine], line: &PackedLine) -> u32
    requires { IsNumbered line.now }
    ensures { (runs : List Run) (steps : List Step) → result ≡ past (last_past 0 list.now) (said_at runs steps line.now) }
{
    if !line.is_detail() {
        return place_of(line) as u32 + 1;
    }
    if list.is_empty() {
        return 0;
    }
    list[list.len() - 1].past
}

impl<A: Allocator + Copy> PackedLines<A> {
    /// No line.
    pub fn new(alloc: A) -> PackedLines<A>
        ensures { said_lines result ≡ [] }
    {
        PackedLines {
            list: Vec::new(alloc),
            runs: Vec::new(alloc),
            steps: Vec::new(alloc),
        }
    }
}

impl<A: Allocator> PackedLines<A> {
    /// How many there are.
    pub fn len(&self) -> usize
        ensures { result ≡ length (said_lines self.now) }
    {
        self.list.len()
    }

    /// The line at a place as it is packed, with its runs and steps.
    #[inline(always)]
    pub fn line(&self, at: usize) -> LineView<'_>
        requires { at < length (said_lines self.now) }
        ensures there { drop at (said_lines self.now) ≡ said_of result ∷ drop (at + 1) (said_lines self.now) }
        ensures within { LiesWithin (length result.runs.now) (length result.steps.now) result.line.now }
    {
        let kept = &self.list[at];
        LineView {
            runs: runs_from(&self.runs, kept.first as usize),
            steps: steps_from(&self.steps, kept.first as usize),
            line: &kept.line,
        }
    }

    /// Whether the line at a place says more of the line before.
    pub fn is_detail(&self, at: usize) -> bool
        requires { at < length (said_lines self.now) }
        ensures { result ≡ is_detail (get_or (said_lines self.now) at End) }
    {
        let kept = &self.list[at];
        kept.line.is_detail()
    }

    /// Adds a line that was read, or leaves what is said as it is.
    pub fn push(
        &mut self,
        line: &PackedLine,
        runs: &[Run],
        steps: &[Step],
    ) -> Result<(), AllocError>
        requires within { LiesWithin (length runs.now) (length steps.now) line.now }
        requires numbers { IsNumbered line.now }
        ensures added { OnOk result
            (said_lines self.new ≡ said_lines self.old ++ said_at runs.now steps.now line.now ∷ []) }
        ensures same { OnErr result (said_lines self.new ≡ said_lines self.old) }
    {
        let run_count = self.runs.len();
        let step_count = self.steps.len();
        let first = brief(first_of(line, run_count, step_count))?;
        let past = past(&self.list, line);
        lay_all(&mut self.runs, &mut self.steps, runs, steps)?;
        self.list.push(StoredLine {
            first,
            past,
            line: *line,
        })?;
        Ok(())
    }

    /// Adds the line of a claim, or leaves what is said as it is.
    pub fn claim(&mut self, claim: &Claim<'_>) -> Result<(), AllocError>
        requires { HasForm claim.now }
        ensures added { OnOk result
            (said_lines self.new ≡ said_lines self.old ++ claimed_line claim.now ∷ []) }
        ensures same { OnErr result (said_lines self.new ≡ said_lines self.old) }
    {
        let run_count = self.runs.len();
        let step_count = self.steps.len();
        let line = pack(&mut self.runs, &mut self.steps, claim)?;
        let first = brief(first_of(&line, run_count, step_count))?;
        let past = past(&self.list, &line);
        self.list.push(StoredLine { first, past, line })?;
        Ok(())
    }

    /// Adds a line that is kept elsewhere, a fact or an exit with these sites in place of its own; or leaves what is said as it
    /// is.
    pub fn push_sited(&mut self, lent: &LineView<'_>, sites: &WordSet) -> Result<(), AllocError>
        requires within { LiesWithin (length lent.now.runs.now) (length lent.now.steps.now) lent.now.line.now }
        requires numbers { IsNumbered lent.now.line.now }
        ensures added { OnOk result (said_lines self.new ≡
            said_lines self.old ++ sited_line (words sites.now) (said_of lent.now) ∷ []) }
        ensures same { OnErr result (said_lines self.new ≡ said_lines self.old) }
    {
        let run_count = self.runs.len();
        let step_count = self.steps.len();
        let line = lay_sited(&mut self.runs, &mut self.steps, lent, sites)?;
        let first = brief(first_of(&line, run_count, step_count))?;
        let past = past(&self.list, &line);
        self.list.push(StoredLine { first, past, line })?;
        Ok(())
    }

    /// Takes all but so many at the front away. Their runs and steps stay until all is dropped.
    pub fn truncate(&mut self, count: usize)
        ensures { said_lines self.new ≡ take count (said_lines self.old) }
    {
        self.list.truncate(count);
    }

    /// Where the first line stands that is at a place or after it, or past all.
    fn seek(&self, place: usize) -> usize
        requires order { AreRising 0 (said_lines self.now) }
        requires small { place ≤ 270336 }
        ensures within { result ≤ length (said_lines self.now) }
        ensures there { drop result (said_lines self.now) ≡ from_place place (said_lines self.now) }
    {
        let place = place as u32;
        self.list.partition_point(|kept| kept.past <= place)
    }

    /// Whether it is seen that the first line that is at a place or after it stands here.
    fn is_sought(&self, at: usize, place: usize) -> bool
        requires { AreRising 0 (said_lines self.now) }
        ensures { result ≡ true → drop at (said_lines self.now) ≡ from_place place (said_lines self.now) }
    {
        if at == 0 || at >= self.list.len() {
            return false;
        }
        let before = &self.list[at - 1];
        if before.past as usize > place {
            return false;
        }
        let kept = &self.list[at];
        place < kept.past as usize
    }

    /// Where the first line stands that is at a place or after it, or past all: it is looked first at one line.
    pub fn from(&self, near: usize, place: usize) -> usize
        requires order { AreRising 0 (said_lines self.now) }
        requires small { place ≤ 270336 }
        ensures { drop result (said_lines self.now) ≡ from_place place (said_lines self.now) }
    {
        if self.is_sought(near, place) {
            return near;
        }
        self.seek(place)
    }

    /// Whether the line here is one of a place.
    pub fn is_at(&self, at: usize, place: usize) -> bool
        requires { place ≤ 270336 }
        ensures { result ≡ begins_at place (drop at (said_lines self.now)) }
    {
        if at >= self.list.len() {
            return false;
        }
        let kept = &self.list[at];
        if kept.line.is_detail() {
            return false;
        }
        kept.past as usize == place + 1
    }

    /// The least place of a line from a number on, or that of the end, which is not kept. It is looked first at one line.
    pub fn next_place(&self, near: usize, from: usize) -> usize
        requires order { AreRising 0 (said_lines self.now) }
        requires small { from ≤ 270336 }
        ensures { result ≡ least_place (from_place from (said_lines self.now)) }
    {
        let at = self.from(near, from);
        if at >= self.list.len() {
            return LAST_PLACE;
        }
        let kept = &self.list[at];
        kept.past as usize - 1
    }
}
