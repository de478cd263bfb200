//! The lines of a certificate as they are kept, and what is found in them.

ghost use Rattle.std.specs.Prelude.{◌≡◌, ◌+◌, ◌<◌, ◌≤◌, List, [], ◌∷◌, ◌++◌, length, map, drop, get_or, slice_range, true, false, is_some, is_ok, Some, None, IfSome, OnOk, OnErr, if◌then◌else◌};
ghost use Rattle.domain.specs.InCode.{sum_of};
ghost use Rattle.domain.specs.ChainsInCode.{chain_of};
ghost use Rattle.domain.specs.CellsInCode.{cell_set_of};
ghost use Rattle.domain.specs.RelationsInCode.{relation_of};
ghost use Rattle.domain.specs.FactInCode.{fact_in_code};
ghost use Rattle.certificate_lines.specs.Runs.{Begins};
ghost use Rattle.certificate_lines.specs.RisingLists.{Each};
ghost use Rattle.certificate_lines.specs.LineOf.{is_relation};
ghost use Rattle.certificate_lines.specs.Lines.{Line as SaidLine, CellIs, SumIs, ChainIs, is_end, is_routine, has_details};
ghost use Rattle.certificate_lines.specs.Reading.{cells_under, relations_under, chains_under};
ghost use Rattle.certificate_lines.specs.Packed.{said_at, said_lines, LiesWithin, IsNumbered, HasForm, claimed_line};
ghost use Rattle.certificate_lines.specs.Adding.{AddsAll, HasRoomUnder};
ghost use Rattle.certificate_lines.specs.declared.Version.{Version as Spelled};
ghost use Rattle.certificate_lines.specs.Found.{Keeps, unended, FitUnder, first_with_details, behind_details, begins, IsSaid, BeginsRoutine, IsWhole};
ghost use Rattle.certificate_lines.specs.Written.{facts_lines};
ghost use Rattle.certificate_lines.specs.Made.{details_of, AreDetails};

use crate::RoutineClaim;
use crate::packed::load::{begin_said, routine_of};
use crate::packed::sum::packed_sum;
use crate::packed::{CertifiedFact, Claim, PackedLine, PackedLines};
use crate::progress::FIRST_FACT;
use crate::runs::Run;
use domain::{CellSet, Chain, Relation, Step};
use std::alloc::{AllocError, Allocator};
use word12::Word;

impl<A: Allocator> PackedLines<A> {
    /// Keeps a line more, whose runs and steps these are; the end is known without it.
    pub fn keep(
        &mut self,
        line: &PackedLine,
        runs: &[Run],
        steps: &[Step],
    ) -> Result<(), AllocError>
        requires within { LiesWithin (length runs.now) (length steps.now) line.now }
        requires numbers { IsNumbered line.now }
        ensures kept { (before : List SaidLine) → Keeps self.old before →
            OnOk result (Keeps self.new (unended (said_at runs.now steps.now line.now ∷ before))) }
        ensures refused { OnErr result (is_end (said_at runs.now steps.now line.now) ≡ false) }
    {
        if line.is_end() {
            return Ok(());
        }
        self.push(line, runs, steps)
    }

    /// Keeps the line of a claim with the details of a fact: all of them, or none.
    pub fn keep_all(&mut self, head: &Claim<'_>, fact: &CertifiedFact) -> Result<(), AllocError>
        requires head { HasForm head.now }
        requires details { AreDetails fact.now }
        ensures { said_lines self.new ≡ (if is_ok result
            then said_lines self.old ++ (claimed_line head.now ∷ details_of fact.now)
            else said_lines self.old) }
    {
        let count = self.len();
        match push_all(self, head, fact) {
            Ok(()) => Ok(()),
            Err(refused) => {
                self.truncate(count);
                Err(refused)
            }
        }
    }
}

/// Adds a line and those of the details of a fact; where that is refused, some of them.
fn push_all<A: Allocator>(
    lines: &mut PackedLines<A>,
    head: &Claim<'_>,
    fact: &CertifiedFact,
) -> Result<(), AllocError>
    requires head { HasForm head.now }
    requires details { AreDetails fact.now }
    ensures whole { OnOk result (said_lines lines.new ≡
        said_lines lines.old ++ (claimed_line head.now ∷ details_of fact.now)) }
    ensures front { Begins (said_lines lines.old) (said_lines lines.new) }
{
    lines.claim(head)?;
    push_cells(lines, fact.told_cells())?;
    push_relations(lines, fact.relations().as_slice())?;
    push_chains(lines, fact.chains())
}

/// Adds the lines of cells; where that is refused, some of them.
fn push_cells<A: Allocator>(lines: &mut PackedLines<A>, cells: &[CellSet]) -> Result<(), AllocError>
    ensures whole { OnOk result (said_lines lines.new ≡ said_lines lines.old ++ map CellIs (map cell_set_of cells.now)) }
    ensures front { Begins (said_lines lines.old) (said_lines lines.new) }
{
    for cell in cells {
        lines.claim(&Claim::Cell(cell))?;
    }
    Ok(())
}

/// Adds the lines of relations; where that is refused, some of them.
fn push_relations<A: Allocator>(
    lines: &mut PackedLines<A>,
    relations: &[Relation],
) -> Result<(), AllocError>
    requires { Each (λ r. is_relation r.sum ≡ true) (map relation_of relations.now) }
    ensures whole { OnOk result (said_lines lines.new ≡ said_lines lines.old ++ map SumIs (map relation_of relations.now)) }
    ensures front { Begins (said_lines lines.old) (said_lines lines.new) }
{
    for relation in relations {
        push_relation(lines, relation)?;
    }
    Ok(())
}

/// Adds the line of a relation, or leaves what is said as it is.
fn push_relation<A: Allocator>(
    lines: &mut PackedLines<A>,
    relation: &Relation,
) -> Result<(), AllocError>
    requires { is_relation (sum_of relation.now.sum) ≡ true }
    ensures added { OnOk result (said_lines lines.new ≡ said_lines lines.old ++ SumIs (relation_of relation.now) ∷ []) }
    ensures same { OnErr result (said_lines lines.new ≡ said_lines lines.old) }
{
    match packed_sum(&relation.sum) {
        Some(sum) => lines.claim(&Claim::Sum(relation, &sum)),
        None => Ok(()),
    }
}

/// Adds the lines of chains; where that is refused, some of them.
fn push_chains<A: Allocator>(lines: &mut PackedLines<A>, chains: &[Chain]) -> Result<(), AllocError>
    requires { Each (λ c. length c.steps ≤ 16) (map chain_of chains.now) }
    ensures whole { OnOk result (said_lines lines.new ≡ said_lines lines.old ++ map ChainIs (map chain_of chains.now)) }
    ensures front { Begins (said_lines lines.old) (said_lines lines.new) }
{
    for chain in chains {
        lines.claim(&Claim::Chain(chain))?;
    }
    Ok(())
}

/// Adds the details from a line on to a fact, up to the first line that is none, and returns where that
/// stands.
fn add_details<A: Allocator>(
    fact: &mut CertifiedFact,
    lines: &PackedLines<A>,
    start: usize,
) -> usize
    requires within { start ≤ length (said_lines lines.now) }
    requires room { HasRoomUnder fact.old (cells_under (drop start (said_lines lines.now)))
        (relations_under (drop start (said_lines lines.now))) (chains_under (drop start (said_lines lines.now))) }
    ensures says { AddsAll fact.old fact.new (cells_under (drop start (said_lines lines.now)))
        (relations_under (drop start (said_lines lines.now))) (chains_under (drop start (said_lines lines.now))) }
    ensures end { drop result (said_lines lines.now) ≡ behind_details (drop start (said_lines lines.now)) }
{
    for at in start..lines.len() {
        if !lines.add_to(at, fact) {
            return at;
        }
    }
    lines.len()
}

/// Where the line stands of the fact with a number among those at an address, the first of which has number 0; past all lines
/// where there are fewer.
pub fn fact_line<A: Allocator>(lines: &PackedLines<A>, at: Word, number: usize) -> usize
    requires { (v : Spelled) × IsWhole v lines.now }
    ensures { first_with_details (drop result (said_lines lines.now)) ≡
        get_or (facts_lines (said_lines lines.now) at) number [] }
{
    let place = FIRST_FACT + at.index();
    let mut line = lines.from(0, place);
    for _passed in 0..number {
        if !lines.is_at(line, place) {
            return lines.len();
        }
        line = behind(lines, line);
    }
    if lines.is_at(line, place) {
        line
    } else {
        lines.len()
    }
}

/// Where the lines end of which the one at a place is the first, and its details are the others; there are none past the
/// last line.
pub fn end_of<A: Allocator>(lines: &PackedLines<A>, start: usize) -> usize
    ensures within { result ≤ length (said_lines lines.now) }
    ensures is { slice_range (said_lines lines.now) start result ≡
        first_with_details (drop start (said_lines lines.now)) }
{
    let count = lines.len();
    if start >= count {
        return count;
    }
    for at in start + 1..count {
        if !lines.is_detail(at) {
            return at;
        }
    }
    count
}

/// Where the lines begin that come behind the one at a place and its details.
pub fn behind<A: Allocator>(lines: &PackedLines<A>, start: usize) -> usize
    ensures after { start < length (said_lines lines.now) → start < result }
    ensures is { drop result (said_lines lines.now) ≡
        behind_details (drop (start + 1) (said_lines lines.now)) }
{
    let count = lines.len();
    if start >= count {
        return count;
    }
    for at in start + 1..count {
        if !lines.is_detail(at) {
            return at;
        }
    }
    count
}

/// What the line at a place says of a routine, if there is one and it does.
pub fn first_routine<A: Allocator>(lines: &PackedLines<A>, start: usize) -> Option<RoutineClaim>
    ensures there { is_some result ≡ begins is_routine (drop start (said_lines lines.now)) }
    ensures says { IfSome result (λ r. BeginsRoutine (drop start (said_lines lines.now)) r) }
{
    if start >= lines.len() {
        return None;
    }
    routine_of(&lines.line(start))
}

/// Where the lines end of a fact or an exit at a place, which the lent fact then says; of an exit it has all offsets.
pub fn first_said<A: Allocator>(
    lines: &PackedLines<A>,
    start: usize,
    fact: &mut CertifiedFact,
) -> Option<usize>
    requires fit { FitUnder (drop (start + 1) (said_lines lines.now)) }
    ensures there { is_some result ≡ begins has_details (drop start (said_lines lines.now)) }
    ensures says { IfSome result (λ end. IsSaid (drop start (said_lines lines.now)) (fact_in_code fact.new)) }
    ensures end { IfSome result (λ end. drop end (said_lines lines.now) ≡
        behind_details (drop (start + 1) (said_lines lines.now))) }
    ensures kept { result ≡ None → fact.new ≡ fact.old }
{
    if start >= lines.len() {
        return None;
    }
    if !begin_said(&lines.line(start), fact) {
        return None;
    }
    Some(add_details(fact, lines, start + 1))
}
