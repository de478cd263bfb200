//! How a packed line is unpacked: what it says of a fact is written into a fact that is lent, and what it says of a
//! routine is given.

ghost use Rattle.std.specs.Prelude.{◌≡◌, ◌+◌, ◌<◌, ◌≤◌, [], ◌∷◌, ◌++◌, length, map, take, drop, get_or, true, false, is_some, IfSome};
ghost use Rattle.wordset.specs.Words.{nothing};
ghost use Rattle.wordset.specs.Links.{links_of};
ghost use Rattle.domain.specs.Locations.{Ac};
ghost use Rattle.domain.specs.InCode.{sum_of};
ghost use Rattle.domain.specs.ChainsInCode.{step_of, chain_of};
ghost use Rattle.domain.specs.Offsets.{offsets_in};
ghost use Rattle.domain.specs.CellsInCode.{cell_sets_of};
ghost use Rattle.domain.specs.FactInCode.{fact_in_code, names_words};
ghost use Rattle.certificate_lines.specs.Runs.{set_at, registers_at};
ghost use Rattle.certificate_lines.specs.Lines.{End, is_detail, has_details, is_routine};
ghost use Rattle.certificate_lines.specs.Reading.{fact_said};
ghost use Rattle.certificate_lines.specs.Packed.{packed_sum_of, said_of, said_lines, LiesWithin, LieWithin};
ghost use Rattle.certificate_lines.specs.Adding.{Adds, HasRoomFor};
ghost use Rattle.certificate_lines.specs.Found.{IsSaid, IsRoutineLine};

use crate::RoutineClaim;
use crate::packed::sum::PackedSum;
use crate::packed::{
    CertifiedFact, LineView, PackedChain, PackedLine, PackedLines, runs_from, steps_from,
};
use crate::runs::{PackedRegisters, Run, put_runs, set_in};
use domain::{Chain, ReturnOffsets, Step, Sum};
use std::alloc::Allocator;
use word12::Word;
use wordset::WordSet;

/// The lent fact's accumulator may hold the words of so many runs from here on. Most sets have one run.
fn put_accumulator(runs: &[Run], first: usize, count: usize, fact: &mut CertifiedFact)
    requires { first + count ≤ length runs.now }
    ensures fact { fact_in_code fact.new ≡ record (fact_in_code fact.old) { set = names_words (set_at runs.now first count) (cell_sets_of fact.old.cells) } }
    ensures cells { cell_sets_of fact.new.cells ≡ cell_sets_of fact.old.cells }
{
    if count == 1 {
        let run = runs[first];
        let last = run.last.index();
        prove!(last < 4096);
        fact.set_accumulator_row(run.first, run.last);
    } else {
        put_several_in_accumulator(runs, first, count, fact);
    }
}

/// The same of any count of runs; the room for their set is made here alone.
#[inline(never)]
fn put_several_in_accumulator(runs: &[Run], first: usize, count: usize, fact: &mut CertifiedFact)
    requires { first + count ≤ length runs.now }
    ensures fact { fact_in_code fact.new ≡ record (fact_in_code fact.old) { set = names_words (set_at runs.now first count) (cell_sets_of fact.old.cells) } }
    ensures cells { cell_sets_of fact.new.cells ≡ cell_sets_of fact.old.cells }
{
    fact.set_accumulator(&set_in(runs, first, count));
}

/// The lent fact's MQ may hold the words of so many runs from here on. Most sets have one run.
fn put_mq(runs: &[Run], first: usize, count: usize, fact: &mut CertifiedFact)
    requires { first + count ≤ length runs.now }
    ensures fact { fact_in_code fact.new ≡ record (fact_in_code fact.old) { mq = set_at runs.now first count } }
    ensures cells { cell_sets_of fact.new.cells ≡ cell_sets_of fact.old.cells }
{
    if count == 1 {
        let run = runs[first];
        let last = run.last.index();
        prove!(last < 4096);
        fact.set_mq_row(run.first, run.last);
    } else {
        put_several_in_mq(runs, first, count, fact);
    }
}

/// The same of any count of runs; the room for their set is made here alone.
#[inline(never)]
fn put_several_in_mq(runs: &[Run], first: usize, count: usize, fact: &mut CertifiedFact)
    requires { first + count ≤ length runs.now }
    ensures fact { fact_in_code fact.new ≡ record (fact_in_code fact.old) { mq = set_at runs.now first count } }
    ensures cells { cell_sets_of fact.new.cells ≡ cell_sets_of fact.old.cells }
{
    fact.set_mq(&set_in(runs, first, count));
}

/// The lent fact has the sites of so many runs at the front. Where there is none nothing is written.
fn put_sites(runs: &[Run], count: usize, fact: &mut CertifiedFact)
    requires none { (fact_in_code fact.old).sites ≡ nothing }
    requires within { count ≤ length runs.now }
    ensures fact { fact_in_code fact.new ≡ record (fact_in_code fact.old) { sites = set_at runs.now 0 count } }
    ensures cells { cell_sets_of fact.new.cells ≡ cell_sets_of fact.old.cells }
{
    if count == 0 {
        return;
    }
    if count == 1 {
        let run = runs[0];
        let last = run.last.index();
        prove!(last < 4096);
        fact.set_sites_row(run.first, run.last);
    } else {
        put_several_sites(runs, count, fact);
    }
}

/// The same of any count of runs; the room for their set is made here alone.
#[inline(never)]
fn put_several_sites(runs: &[Run], count: usize, fact: &mut CertifiedFact)
    requires within { count ≤ length runs.now }
    ensures fact { fact_in_code fact.new ≡ record (fact_in_code fact.old) { sites = set_at runs.now 0 count } }
    ensures cells { cell_sets_of fact.new.cells ≡ cell_sets_of fact.old.cells }
{
    fact.set_sites(&set_in(runs, 0, count));
}

/// The lent fact says what these sites, registers and offsets say, and nothing of any cell.
#[inline(never)]
fn begin(
    runs: &[Run],
    sites: u16,
    registers: &PackedRegisters,
    offsets: ReturnOffsets,
    fact: &mut CertifiedFact,
)
    requires { LieWithin (length runs.now) sites registers.now.sets }
    ensures fact { fact_in_code fact.new ≡
        fact_said (set_at runs.now 0 sites) (registers_at (drop sites runs.now) registers.now) (offsets_in offsets) [] }
    ensures cells { cell_sets_of fact.new.cells ≡ [] }
{
    let before = usize::from(sites);
    let one = usize::from(registers.sets.one);
    fact.forget();
    put_sites(runs, before, fact);
    put_accumulator(runs, before, one, fact);
    put_mq(runs, before + one, usize::from(registers.sets.other), fact);
    fact.set_link(registers.link);
    fact.set_offsets(offsets);
}

/// The lent fact tells of a cell more, which has so many of these runs. Most have one.
fn track(runs: &[Run], cell: Word, count: usize, fact: &mut CertifiedFact)
    requires within { count ≤ length runs.now }
    requires room { length (cell_sets_of fact.old.cells) < 64 }
    ensures fact { fact_in_code fact.new ≡ record (fact_in_code fact.old) {
      set = names_words ((fact_in_code fact.old).set Ac) (cell_sets_of fact.new.cells);
    } }
    ensures cells { cell_sets_of fact.new.cells ≡
        cell_sets_of fact.old.cells ++ record { address = cell; set = set_at runs.now 0 count } ∷ [] }
{
    if count == 1 {
        let run = runs[0];
        let last = run.last.index();
        prove!(last < 4096);
        fact.track_row(cell, run.first, run.last);
    } else {
        track_several(runs, cell, count, fact);
    }
}

/// The same of any count of runs; the room for their set is made here alone.
#[inline(never)]
fn track_several(runs: &[Run], cell: Word, count: usize, fact: &mut CertifiedFact)
    requires within { count ≤ length runs.now }
    requires room { length (cell_sets_of fact.old.cells) < 64 }
    ensures fact { fact_in_code fact.new ≡ record (fact_in_code fact.old) {
      set = names_words ((fact_in_code fact.old).set Ac) (cell_sets_of fact.new.cells);
    } }
    ensures cells { cell_sets_of fact.new.cells ≡
        cell_sets_of fact.old.cells ++ record { address = cell; set = set_at runs.now 0 count } ∷ [] }
{
    fact.track(cell, &set_in(runs, 0, count));
}

/// The lent fact tells of a sum more, whose set has so many of these runs. Many have one word.
fn relate(runs: &[Run], sum: &PackedSum, count: usize, fact: &mut CertifiedFact)
    requires within { count ≤ length runs.now }
    requires room { length (fact_in_code fact.old).relations < 32 }
    ensures fact { fact_in_code fact.new ≡ record (fact_in_code fact.old) {
      relations = (fact_in_code fact.old).relations ++ record { sum = packed_sum_of sum.now; set = set_at runs.now 0 count } ∷ [];
    } }
    ensures cells { cell_sets_of fact.new.cells ≡ cell_sets_of fact.old.cells }
{
    let sum = sum.unpacked();
    if count == 1 {
        let run = runs[0];
        let last = run.last.index();
        prove!(last < 4096);
        if run.first.index() == last {
            fact.relate_one(&sum, run.first);
            return;
        }
    }
    relate_several(runs, &sum, count, fact);
}

/// The same of any set; the room for it is made here alone.
#[inline(never)]
fn relate_several(runs: &[Run], sum: &Sum, count: usize, fact: &mut CertifiedFact)
    requires within { count ≤ length runs.now }
    requires room { length (fact_in_code fact.old).relations < 32 }
    ensures fact { fact_in_code fact.new ≡ record (fact_in_code fact.old) {
      relations = (fact_in_code fact.old).relations ++ record { sum = sum_of sum.now; set = set_at runs.now 0 count } ∷ [];
    } }
    ensures cells { cell_sets_of fact.new.cells ≡ cell_sets_of fact.old.cells }
{
    fact.relate(sum, &set_in(runs, 0, count));
}

/// Adds these steps to a chain.
fn push_steps(steps: &[Step], chain: &mut Chain)
    requires { length (chain_of chain.old).steps + length steps.now ≤ 17 }
    ensures { chain_of chain.new ≡ record (chain_of chain.old) {
      steps = (chain_of chain.old).steps ++ map step_of steps.now;
    } }
{
    for step in steps {
        chain.push(*step);
    }
}

/// The lent fact tells of a chain more, whose steps are the first of these.
fn chain(steps: &[Step], packed: &PackedChain, fact: &mut CertifiedFact)
    requires within { (packed.now.count ≤ length steps.now) × (packed.now.count ≤ 16) }
    requires room { length (fact_in_code fact.old).chains < 72 }
    ensures fact { fact_in_code fact.new ≡ record (fact_in_code fact.old) {
      chains = (fact_in_code fact.old).chains ++ record {
        cell = packed.now.cell;
        more = packed.now.more;
        link = links_of packed.now.link;
        steps = map step_of (take packed.now.count steps.now);
      } ∷ [];
    } }
    ensures cells { cell_sets_of fact.new.cells ≡ cell_sets_of fact.old.cells }
{
    let mut chain = Chain::begun(packed.cell, packed.more, packed.link);
    push_steps(&steps[..usize::from(packed.count)], &mut chain);
    fact.add_chain(&chain);
}

impl<A: Allocator> PackedLines<A> {
    /// Whether the line at a place is a detail, which the lent fact then says too: it is taken up where it is kept.
    pub fn add_to(&self, at: usize, fact: &mut CertifiedFact) -> bool
        requires within { at < length (said_lines self.now) }
        requires room { HasRoomFor fact.old (get_or (said_lines self.now) at End) }
        ensures detail { result ≡ is_detail (get_or (said_lines self.now) at End) }
        ensures says { Adds fact.old fact.new (get_or (said_lines self.now) at End) }
    {
        let kept = &self.list[at];
        let first = kept.first as usize;
        match &kept.line {
            PackedLine::Cell(cell, count) => {
                track(
                    runs_from(&self.runs, first),
                    *cell,
                    usize::from(*count),
                    fact,
                );
                true
            }
            PackedLine::Sum(sum, count) => {
                relate(runs_from(&self.runs, first), sum, usize::from(*count), fact);
                true
            }
            PackedLine::Chain(packed) => {
                chain(steps_from(&self.steps, first), packed, fact);
                true
            }
            _ => false,
        }
    }
}

/// Whether a line is a fact's or an exit's, which the lent fact then says except for its details; of an exit it has all
/// offsets.
pub fn begin_said(lent: &LineView<'_>, fact: &mut CertifiedFact) -> bool
    requires { LiesWithin (length lent.now.runs.now) (length lent.now.steps.now) lent.now.line.now }
    ensures there { result ≡ has_details (said_of lent.now) }
    ensures says { result ≡ true → IsSaid (said_of lent.now ∷ []) (fact_in_code fact.new) }
    ensures cells { result ≡ true → cell_sets_of fact.new.cells ≡ [] }
    ensures kept { result ≡ false → fact.new ≡ fact.old }
{
    match lent.line {
        PackedLine::Fact(said) => {
            begin(lent.runs, said.sites, &said.registers, said.offsets, fact);
            true
        }
        PackedLine::Exit(said) => {
            begin(
                lent.runs,
                said.sites,
                &said.registers,
                ReturnOffsets::all(),
                fact,
            );
            true
        }
        _ => false,
    }
}

/// What a line says of a routine, if it does.
#[inline(never)]
pub fn routine_of(lent: &LineView<'_>) -> Option<RoutineClaim>
    requires { LiesWithin (length lent.now.runs.now) (length lent.now.steps.now) lent.now.line.now }
    ensures there { is_some result ≡ is_routine (said_of lent.now) }
    ensures says { IfSome result (λ r. IsRoutineLine (said_of lent.now) r) }
{
    match lent.line {
        PackedLine::Routine(routine) => {
            let mut said = RoutineClaim {
                rank: usize::from(routine.rank),
                sites: WordSet::empty(),
                writes: WordSet::empty(),
            };
            let one = usize::from(routine.sets.one);
            let other = usize::from(routine.sets.other);
            put_runs(&lent.runs[0..one], &mut said.sites);
            put_runs(&lent.runs[one..one + other], &mut said.writes);
            Some(said)
        }
        _ => None,
    }
}
