//! How a line is packed: the runs of its sets and the steps of its chain are added to those of all lines.

ghost use Rattle.std.specs.Prelude.{◌≡◌, ◌+◌, ◌≤◌, List, ◌++◌, length, drop, IfOk, OnOk};
ghost use Rattle.wordset.specs.Lanes.{words};
ghost use Rattle.domain.specs.ChainsInCode.{chain_of};
ghost use Rattle.domain.specs.Brief.{brief_words};
ghost use Rattle.domain.specs.FactInCode.{fact_in_code};
ghost use Rattle.certificate_lines.specs.declared.runs.Run.{Run};
ghost use Rattle.certificate_lines.specs.Runs.{Begins, added, registers_at, AreWithin};
ghost use Rattle.certificate_lines.specs.declared.packed.PackedLine.TheVariants as packed;
ghost use Rattle.certificate_lines.specs.Lines.{ChainIs};
ghost use Rattle.certificate_lines.specs.Packed.{said_of, LiesWithin, LieWithin, IsNumbered, HasForm, claimed_line, sited_line, sites_if, registers_in_fact, IsPacked};

use crate::packed::{
    CertifiedFact, Claim, LineView, PackedChain, PackedExit, PackedFact, PackedLine, in_both,
};
use crate::runs::{PackedRegisters, PackedRoutine, Run, lay, lay_two};
use domain::{BriefSet, Chain, Step};
use std::alloc::{AllocError, Allocator};
use wordset::WordSet;

/// Adds the runs of a set that is kept in brief, and returns how many there are.
fn lay_brief<A: Allocator>(runs: &mut Vec<Run, A>, set: &BriefSet) -> Result<u16, AllocError>
    ensures front { Begins runs.old.items runs.new.items }
    ensures count { IfOk result (λ count. length runs.old.items + count ≡ length runs.new.items) }
    ensures laid { OnOk result (added runs.old.items runs.new.items ≡ brief_words set.now) }
{
    let mut place = WordSet::empty();
    set.put(&mut place);
    lay(runs, &place)
}

/// Adds the runs of the sites, where they are spelled.
fn lay_sites<A: Allocator>(
    runs: &mut Vec<Run, A>,
    with_sites: bool,
    fact: &CertifiedFact,
) -> Result<u16, AllocError>
    ensures front { Begins runs.old.items runs.new.items }
    ensures count { IfOk result (λ count. length runs.old.items + count ≡ length runs.new.items) }
    ensures laid { OnOk result (added runs.old.items runs.new.items ≡ sites_if with_sites (fact_in_code fact.now)) }
{
    if with_sites {
        lay_brief(runs, fact.sites())
    } else {
        Ok(0)
    }
}

/// Adds the runs of the accumulator's set and of MQ's.
fn lay_registers<A: Allocator>(
    runs: &mut Vec<Run, A>,
    fact: &CertifiedFact,
) -> Result<PackedRegisters, AllocError>
    ensures front { Begins runs.old.items runs.new.items }
    ensures within { IfOk result (λ packed.
        AreWithin (length (drop (length runs.old.items) runs.new.items)) packed.sets) }
    ensures laid { IfOk result (λ packed.
        registers_at (drop (length runs.old.items) runs.new.items) packed ≡
        registers_in_fact (fact_in_code fact.now)) }
{
    let sets = lay_two(runs, fact.accumulator(), fact.mq())?;
    Ok(PackedRegisters {
        sets,
        link: fact.link(),
    })
}

/// Adds the steps of a chain.
fn lay_steps<A: Allocator>(
    steps: &mut Vec<Step, A>,
    chain: &Chain,
) -> Result<PackedChain, AllocError>
    requires { length (chain_of chain.now).steps ≤ 16 }
    ensures front { Begins steps.old.items steps.new.items }
    ensures packed { IfOk result (λ c. (runs : List Run) →
        IsPacked runs (drop (length steps.old.items) steps.new.items) (packed.Chain c) (ChainIs (chain_of chain.now))) }
{
    let told = chain.steps();
    steps.extend_from_slice(told)?;
    Ok(PackedChain {
        cell: chain.cell(),
        more: chain.more(),
        link: chain.links(),
        count: told.len() as u8,
    })
}

/// The line packed, after its sets' runs and its steps were added.
pub fn pack<A: Allocator>(
    runs: &mut Vec<Run, A>,
    steps: &mut Vec<Step, A>,
    claim: &Claim<'_>,
) -> Result<PackedLine, AllocError>
    requires { HasForm claim.now }
    ensures runs { Begins runs.old.items runs.new.items }
    ensures steps { Begins steps.old.items steps.new.items }
    ensures numbers { IfOk result IsNumbered }
    ensures packed { IfOk result (λ l.
        IsPacked (drop (length runs.old.items) runs.new.items) (drop (length steps.old.items) steps.new.items)
        l (claimed_line claim.now)) }
{
    match claim {
        Claim::Routine(entry, rank, routine) => {
            let sets = lay_two(runs, &routine.sites, &routine.writes)?;
            Ok(PackedLine::Routine(PackedRoutine {
                entry: *entry,
                rank: *rank,
                sets,
            }))
        }
        Claim::Fact(with_sites, address, fact) => {
            let sites = lay_sites(runs, *with_sites, fact)?;
            let registers = lay_registers(runs, fact)?;
            Ok(PackedLine::Fact(PackedFact {
                address: *address,
                sites,
                registers,
                offsets: fact.offsets(),
            }))
        }
        Claim::Exit(with_sites, entry, offset, fact) => {
            let sites = lay_sites(runs, *with_sites, fact)?;
            let registers = lay_registers(runs, fact)?;
            Ok(PackedLine::Exit(PackedExit {
                entry: *entry,
                offset: *offset,
                sites,
                registers,
            }))
        }
        Claim::Cell(tracked) => Ok(PackedLine::Cell(tracked.cell, lay_brief(runs, &tracked.set)?)),
        Claim::Sum(relation, sum) => Ok(PackedLine::Sum(**sum, lay_brief(runs, &relation.set)?)),
        Claim::Chain(chain) => {
            let packed = lay_steps(steps, chain)?;
            Ok(PackedLine::Chain(packed))
        }
    }
}

/// Adds runs and steps behind others; where that is refused, some of them. Only a chain has steps.
pub fn lay_all<A: Allocator>(
    runs: &mut Vec<Run, A>,
    steps: &mut Vec<Step, A>,
    more: &[Run],
    further: &[Step],
) -> Result<(), AllocError>
    ensures runs { Begins runs.old.items runs.new.items }
    ensures steps { Begins steps.old.items steps.new.items }
    ensures whole { OnOk result ((runs.new.items ≡ runs.old.items ++ more.now) ×
        (steps.new.items ≡ steps.old.items ++ further.now)) }
{
    runs.extend_from_slice(more)?;
    if further.is_empty() {
        return Ok(());
    }
    steps.extend_from_slice(further)
}

/// Adds the runs and the steps of a line, the runs of these sites in place of a fact's or an exit's own, and gives the line
/// with them.
pub fn lay_sited<A: Allocator>(
    runs: &mut Vec<Run, A>,
    steps: &mut Vec<Step, A>,
    lent: &LineView<'_>,
    sites: &WordSet,
) -> Result<PackedLine, AllocError>
    requires within { LiesWithin (length lent.now.runs.now) (length lent.now.steps.now) lent.now.line.now }
    requires numbers { IsNumbered lent.now.line.now }
    ensures runs { Begins runs.old.items runs.new.items }
    ensures steps { Begins steps.old.items steps.new.items }
    ensures numbers { IfOk result IsNumbered }
    ensures packed { IfOk result (λ l.
        IsPacked (drop (length runs.old.items) runs.new.items) (drop (length steps.old.items) steps.new.items)
        l (sited_line (words sites.now) (said_of lent.now))) }
{
    match lent.line {
        PackedLine::Fact(fact) => {
            let count = lay(runs, sites)?;
            lay_registers_of(runs, lent.runs, fact.sites, &fact.registers)?;
            let mut sited = *fact;
            sited.sites = count;
            Ok(PackedLine::Fact(sited))
        }
        PackedLine::Exit(exit) => {
            let count = lay(runs, sites)?;
            lay_registers_of(runs, lent.runs, exit.sites, &exit.registers)?;
            let mut sited = *exit;
            sited.sites = count;
            Ok(PackedLine::Exit(sited))
        }
        PackedLine::Routine(_) => lay_same(runs, steps, lent),
        PackedLine::Cell(_, _) => lay_same(runs, steps, lent),
        PackedLine::Sum(_, _) => lay_same(runs, steps, lent),
        PackedLine::Chain(_) => lay_same(runs, steps, lent),
        PackedLine::End => lay_same(runs, steps, lent),
    }
}

/// Adds the runs and the steps of a line, and gives the line.
fn lay_same<A: Allocator>(
    runs: &mut Vec<Run, A>,
    steps: &mut Vec<Step, A>,
    lent: &LineView<'_>,
) -> Result<PackedLine, AllocError>
    requires within { LiesWithin (length lent.now.runs.now) (length lent.now.steps.now) lent.now.line.now }
    requires numbers { IsNumbered lent.now.line.now }
    ensures runs { Begins runs.old.items runs.new.items }
    ensures steps { Begins steps.old.items steps.new.items }
    ensures numbers { IfOk result IsNumbered }
    ensures packed { IfOk result (λ l.
        IsPacked (drop (length runs.old.items) runs.new.items) (drop (length steps.old.items) steps.new.items)
        l (said_of lent.now)) }
{
    let run_count = lent.line.run_count();
    let step_count = lent.line.step_count();
    lay_all(
        runs,
        steps,
        &lent.runs[..run_count],
        &lent.steps[..step_count],
    )?;
    Ok(*lent.line)
}

/// Adds the runs of registers that lie behind those of so many sites.
fn lay_registers_of<A: Allocator>(
    runs: &mut Vec<Run, A>,
    own: &[Run],
    sites: u16,
    registers: &PackedRegisters,
) -> Result<(), AllocError>
    requires { LieWithin (length own.now) sites registers.now.sets }
    ensures front { Begins runs.old.items runs.new.items }
    ensures within { OnOk result (AreWithin (length (drop (length runs.old.items) runs.new.items)) registers.now.sets) }
    ensures laid { OnOk result (registers_at (drop (length runs.old.items) runs.new.items) registers.now ≡
        registers_at (drop sites own.now) registers.now) }
{
    let first = usize::from(sites);
    let last = first + in_both(&registers.sets);
    runs.extend_from_slice(&own[first..last])?;
    Ok(())
}
