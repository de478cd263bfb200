//! The lines of a certificate after the first one, in all versions.

ghost use Rattle.std.specs.Prelude.{ℕ, ◌≡◌, ◌+◌, ◌<◌, ◌≤◌, ◌↔◌, List, [], ◌++◌, length, drop, true, false, codes, is_some, Some, IfSome, IsTrue};
ghost use Rattle.wordset.specs.Words.{Words, has_some};
ghost use Rattle.domain.specs.LocationsInCode.{location_of};
ghost use Rattle.domain.specs.TrackedCells.{TrackedCell as Tracked};
ghost use Rattle.domain.specs.Chains.{Chain as SaidChain};
ghost use Rattle.domain.specs.Facts.{Relation};
ghost use Rattle.domain.specs.Offsets.{offsets_in};
ghost use Rattle.certificate_lines.specs.FieldSpelling.{RoutineLine as SaidRoutine, Registers as SaidRegisters, set_text, routine_line, cell_line};
ghost use Rattle.certificate_lines.specs.RisingLists.{EndsBefore, place_of_name};
ghost use Rattle.certificate_lines.specs.FieldsLeft.{left, WasFirst, EndsField};
ghost use Rattle.certificate_lines.specs.Runs.{Begins, added, registers_at};
ghost use Rattle.certificate_lines.specs.declared.runs.Run.{Run};
ghost use Rattle.domain.specs.declared.chains.Step.{Step};
ghost use Rattle.certificate_lines.specs.declared.Version.{Version as Spelled};
ghost use Rattle.certificate_lines.specs.declared.Version.TheVariants as spelled;
ghost use Rattle.certificate_lines.specs.Lines.{is_of_sums, Line as SaidLine, RoutineIs, FactIs, ExitIs, CellIs, SumIs, ChainIs, End};
ghost use Rattle.certificate_lines.specs.Spelling.{sites_text, mq_text, words_text, offsets_line, offset_text, equation_line, relation_line, chain_line, line_text};
ghost use Rattle.certificate_lines.specs.LineOf.{has_registers, most_offsets, has_form};
ghost use Rattle.certificate_lines.specs.Laws.{SitesFit, MqFits, RegistersFit, LineFits};
ghost use Rattle.certificate_lines.specs.Line.{Spells};
ghost use Rattle.certificate_lines.specs.Packed.{said_at, LiesWithin, IsNumbered};

use crate::Version;
use crate::fields::Fields;
use crate::packed::sum::equation;
use crate::packed::{PackedChain, PackedExit, PackedFact, PackedLine, Steps};
use crate::runs::{PackedRegisters, PackedRoutine, RunCounts, Runs};
use domain::{Location, ReturnOffsets};
use word12::Word;

/// Adds the runs of the sites of a fact or an exit, of which versions 1 and 2 say nothing.
fn read_sites(fields: &mut Fields<'_>, version: Version, runs: &mut Runs) -> u16
    ensures front { Begins runs.old.items runs.new.items }
    ensures count { length runs.old.items + result ≡ length runs.new.items }
    ensures fits { IfSome (left fields.new) (λ rest.
        SitesFit version (added runs.old.items runs.new.items)) }
    ensures read { WasFirst fields.old fields.new
        (sites_text version (added runs.old.items runs.new.items)) }
    ensures only { (s : Words) (rest : List ℕ) → length runs.old.items ≤ 4096 → EndsField rest →
        left fields.old ≡ Some (sites_text version s ++ rest) →
        (left fields.new ≡ Some rest) × (length runs.new.items ≤ length runs.old.items + 2048) }
{
    match version {
        Version::One => 0,
        Version::Two => 0,
        Version::Three => {
            fields.skip(b" sites ");
            fields.set(runs)
        }
    }
}

/// Adds the runs of what MQ may hold, where it is written.
fn read_told_mq(fields: &mut Fields<'_>, runs: &mut Runs) -> u16
    ensures front { Begins runs.old.items runs.new.items }
    ensures count { length runs.old.items + result ≡ length runs.new.items }
    ensures some { IfSome (left fields.new) (λ rest.
        has_some (added runs.old.items runs.new.items) ≡ true) }
    ensures read { WasFirst fields.old fields.new
        (codes " mq " ++ set_text (added runs.old.items runs.new.items)) }
    ensures only { (s : Words) (rest : List ℕ) → length runs.old.items ≤ 4096 →
        has_some s ≡ true → EndsField rest →
        left fields.old ≡ Some (codes " mq " ++ set_text s ++ rest) → left fields.new ≡ Some rest }
{
    fields.skip(b" mq ");
    fields.some_set(runs)
}

/// Adds the run or runs of what MQ may hold: in version 1 any word, and nothing stands for that.
fn read_mq(fields: &mut Fields<'_>, version: Version, runs: &mut Runs) -> u16
    ensures front { Begins runs.old.items runs.new.items }
    ensures count { length runs.old.items + result ≡ length runs.new.items }
    ensures some { IfSome (left fields.new) (λ rest.
        has_some (added runs.old.items runs.new.items) ≡ true) }
    ensures fits { IfSome (left fields.new) (λ rest.
        MqFits version (added runs.old.items runs.new.items)) }
    ensures read { WasFirst fields.old fields.new
        (mq_text version (added runs.old.items runs.new.items)) }
    ensures only { (s : Words) (rest : List ℕ) → length runs.old.items ≤ 4096 →
        has_some s ≡ true → EndsField rest →
        left fields.old ≡ Some (mq_text version s ++ rest) → left fields.new ≡ Some rest }
{
    match version {
        Version::One => fields.all(runs),
        Version::Two => read_told_mq(fields, runs),
        Version::Three => read_told_mq(fields, runs),
    }
}

/// The sets of a fact or of an exit, whose runs are added.
fn read_registers(fields: &mut Fields<'_>, version: Version, runs: &mut Runs) -> PackedRegisters
    ensures front { Begins runs.old.items runs.new.items }
    ensures within { length runs.old.items + (result.sets.one + result.sets.other) ≡ length runs.new.items }
    ensures form { IfSome (left fields.new) (λ rest.
        has_registers version (registers_at (drop (length runs.old.items) runs.new.items) result) ≡ true) }
    ensures fits { IfSome (left fields.new) (λ rest.
        RegistersFit version (registers_at (drop (length runs.old.items) runs.new.items) result)) }
    ensures read { WasFirst fields.old fields.new
        (words_text version (registers_at (drop (length runs.old.items) runs.new.items) result)) }
    ensures only { (r : SaidRegisters) (rest : List ℕ) → length runs.old.items ≤ 2048 →
        has_registers version r ≡ true → EndsField rest →
        left fields.old ≡ Some (words_text version r ++ rest) →
        left fields.new ≡ Some rest }
{
    fields.skip(b" ac ");
    let one = fields.some_set(runs);
    let other = read_mq(fields, version, runs);
    fields.skip(b" link ");
    let link = fields.links();
    PackedRegisters {
        sets: RunCounts { one, other },
        link,
    }
}

/// The offsets of a fact.
fn read_offsets(fields: &mut Fields<'_>, version: Version) -> ReturnOffsets
    ensures ends { EndsBefore (most_offsets version) (offsets_in result) }
    ensures read { WasFirst fields.old fields.new (offsets_line version (offsets_in result)) }
    ensures only { (s : Words) (rest : List ℕ) → EndsBefore (most_offsets version) s → EndsField rest →
        left fields.old ≡ Some (offsets_line version s ++ rest) → left fields.new ≡ Some rest }
{
    match version {
        Version::One => fields.digit_offsets(),
        Version::Two => fields.digit_offsets(),
        Version::Three => fields.offset_set(),
    }
}

/// The offset of an exit: one digit in versions 1 and 2, two in version 3.
fn read_offset(fields: &mut Fields<'_>, version: Version) -> usize
    ensures small { result < most_offsets version }
    ensures read { WasFirst fields.old fields.new (offset_text version result) }
    ensures only { (o : ℕ) (rest : List ℕ) → o < most_offsets version →
        left fields.old ≡ Some (offset_text version o ++ rest) →
        (result ≡ o) × (left fields.new ≡ Some rest) }
{
    match version {
        Version::One => fields.digit(),
        Version::Two => fields.digit(),
        Version::Three => fields.rank(),
    }
}

/// The line of a routine.
fn read_routine(line: &[u8], runs: &mut Runs) -> Option<PackedLine>
    requires runs { runs.old.items ≡ [] }
    ensures within { (m : ℕ) → IfSome result (LiesWithin (length runs.new.items) m) }
    ensures numbers { IfSome result IsNumbered }
    ensures read { (version : Spelled) (steps : List Step) →
        IfSome result (λ l. Spells version (said_at runs.new.items steps l) line.now) }
    ensures only { (version : Spelled) (r : SaidRoutine) → has_form version (RoutineIs r) ≡ true →
        line.now ≡ routine_line r → is_some result ≡ true }
{
    let mut fields = Fields::of(line);
    fields.skip(b"routine ");
    let entry = fields.word();
    fields.skip(b" rank ");
    let rank = fields.rank() as u8;
    fields.skip(b" sites ");
    let one = fields.set(runs);
    fields.skip(b" writes ");
    let other = fields.set(runs);
    if fields.is_done() {
        Some(PackedLine::Routine(PackedRoutine {
            entry,
            rank,
            sets: RunCounts { one, other },
        }))
    } else {
        None
    }
}

/// The line of a fact.
fn read_fact(version: Version, line: &[u8], runs: &mut Runs) -> Option<PackedLine>
    requires runs { runs.old.items ≡ [] }
    ensures within { (m : ℕ) → IfSome result (LiesWithin (length runs.new.items) m) }
    ensures numbers { IfSome result IsNumbered }
    ensures read { (steps : List Step) → IfSome result (λ l. Spells version (said_at runs.new.items steps l) line.now) }
    ensures only { (a : ℕ) (s : Words) (r : SaidRegisters) (o : Words) →
        has_form version (FactIs a s r o) ≡ true → LineFits version (FactIs a s r o) →
        line.now ≡ line_text version (FactIs a s r o) → is_some result ≡ true }
{
    let mut fields = Fields::of(line);
    fields.skip(b"fact ");
    let address = fields.word();
    let sites = read_sites(&mut fields, version, runs);
    let registers = read_registers(&mut fields, version, runs);
    fields.skip(b" offsets ");
    let offsets = read_offsets(&mut fields, version);
    if fields.is_done() {
        Some(PackedLine::Fact(PackedFact {
            address,
            sites,
            registers,
            offsets,
        }))
    } else {
        None
    }
}

/// The line of an exit.
fn read_exit(version: Version, line: &[u8], runs: &mut Runs) -> Option<PackedLine>
    requires runs { runs.old.items ≡ [] }
    ensures within { (m : ℕ) → IfSome result (LiesWithin (length runs.new.items) m) }
    ensures numbers { IfSome result IsNumbered }
    ensures read { (steps : List Step) → IfSome result (λ l. Spells version (said_at runs.new.items steps l) line.now) }
    ensures only { (e o : ℕ) (s : Words) (r : SaidRegisters) →
        has_form version (ExitIs e o s r) ≡ true → LineFits version (ExitIs e o s r) →
        line.now ≡ line_text version (ExitIs e o s r) → is_some result ≡ true }
{
    let mut fields = Fields::of(line);
    fields.skip(b"exit ");
    let entry = fields.word();
    fields.skip(b" ");
    let offset = read_offset(&mut fields, version) as u8;
    let sites = read_sites(&mut fields, version, runs);
    let registers = read_registers(&mut fields, version, runs);
    if fields.is_done() {
        Some(PackedLine::Exit(PackedExit {
            entry,
            offset,
            sites,
            registers,
        }))
    } else {
        None
    }
}

/// The line of a tracked cell.
fn read_cell(line: &[u8], runs: &mut Runs) -> Option<PackedLine>
    requires runs { runs.old.items ≡ [] }
    ensures within { (m : ℕ) → IfSome result (LiesWithin (length runs.new.items) m) }
    ensures numbers { IfSome result IsNumbered }
    ensures read { (version : Spelled) (steps : List Step) →
        IfSome result (λ l. Spells version (said_at runs.new.items steps l) line.now) }
    ensures only { (version : Spelled) (t : Tracked) → has_form version (CellIs t) ≡ true →
        line.now ≡ cell_line t → is_some result ≡ true }
{
    let mut fields = Fields::of(line);
    fields.skip(b"cell ");
    let cell = fields.word();
    fields.skip(b" ");
    let count = fields.some_set(runs);
    if fields.is_done() {
        Some(PackedLine::Cell(cell, count))
    } else {
        None
    }
}

/// The line of an equation, which versions 1 and 2 have: a sum of two names, the second taken away, with one word.
fn read_equation(line: &[u8], runs: &mut Runs) -> Option<PackedLine>
    requires runs { runs.old.items ≡ [] }
    ensures within { (m : ℕ) → IfSome result (LiesWithin (length runs.new.items) m) }
    ensures numbers { IfSome result IsNumbered }
    ensures read { (version : Spelled) (steps : List Step) → is_of_sums version ≡ false →
        IfSome result (λ l. Spells version (said_at runs.new.items steps l) line.now) }
    ensures only { (version : Spelled) (r : Relation) → is_of_sums version ≡ false →
        has_form version (SumIs r) ≡ true → LineFits version (SumIs r) →
        line.now ≡ equation_line r → is_some result ≡ true }
{
    let mut fields = Fields::of(line);
    fields.skip(b"equal ");
    let left = fields.name();
    fields.skip(b" ");
    let right = fields.word();
    fields.skip(b" ");
    let more = fields.word();
    let count = fields.one(more, runs);
    if !fields.is_done() {
        return None;
    }
    if !is_before(&left, right) {
        return None;
    }
    Some(PackedLine::Sum(equation(left, right), count))
}

/// The line of a sum, which version 3 has.
fn read_sum(line: &[u8], runs: &mut Runs) -> Option<PackedLine>
    requires runs { runs.old.items ≡ [] }
    ensures within { (m : ℕ) → IfSome result (LiesWithin (length runs.new.items) m) }
    ensures numbers { IfSome result IsNumbered }
    ensures read { (steps : List Step) → IfSome result (λ l. Spells spelled.Three (said_at runs.new.items steps l) line.now) }
    ensures only { (r : Relation) → has_form spelled.Three (SumIs r) ≡ true →
        line.now ≡ relation_line spelled.Three r → is_some result ≡ true }
{
    let mut fields = Fields::of(line);
    fields.skip(b"sum ");
    let sum = fields.sum();
    let count = fields.some_set(runs);
    if fields.is_done() {
        Some(PackedLine::Sum(sum, count))
    } else {
        None
    }
}

/// The line of a chain, which version 3 has.
fn read_chain(line: &[u8], steps: &mut Steps) -> Option<PackedLine>
    requires steps { steps.old.items ≡ [] }
    ensures within { (n : ℕ) → IfSome result (LiesWithin n (length steps.new.items)) }
    ensures numbers { IfSome result IsNumbered }
    ensures read { (runs : List Run) → IfSome result (λ l. Spells spelled.Three (said_at runs steps.new.items l) line.now) }
    ensures only { (c : SaidChain) → has_form spelled.Three (ChainIs c) ≡ true →
        line.now ≡ chain_line c → is_some result ≡ true }
{
    let mut fields = Fields::of(line);
    fields.skip(b"func ");
    let cell = fields.word();
    fields.skip(b" ");
    let more = fields.word();
    fields.skip(b" link ");
    let link = fields.links();
    let count = fields.steps(steps);
    if fields.is_done() {
        Some(PackedLine::Chain(PackedChain {
            cell,
            more,
            link,
            count,
        }))
    } else {
        None
    }
}

/// The line of the end.
fn read_end(line: &[u8]) -> Option<PackedLine>
    ensures within { (n m : ℕ) → IfSome result (LiesWithin n m) }
    ensures numbers { IfSome result IsNumbered }
    ensures read { (version : Spelled) (runs : List Run) (steps : List Step) →
        IfSome result (λ l. Spells version (said_at runs steps l) line.now) }
    ensures only { line.now ≡ codes "end" → is_some result ≡ true }
{
    let mut fields = Fields::of(line);
    fields.skip(b"end");
    if fields.is_done() {
        Some(PackedLine::End)
    } else {
        None
    }
}

/// What a line says that versions 1 and 2 alone have, or version 3 alone.
fn read_detail(
    version: Version,
    line: &[u8],
    runs: &mut Runs,
    steps: &mut Steps,
) -> Option<PackedLine>
    requires runs { runs.old.items ≡ [] }
    requires steps { steps.old.items ≡ [] }
    ensures within { IfSome result (LiesWithin (length runs.new.items) (length steps.new.items)) }
    ensures numbers { IfSome result IsNumbered }
    ensures read { IfSome result (λ l. Spells version (said_at runs.new.items steps.new.items l) line.now) }
    ensures relation { (r : Relation) → has_form version (SumIs r) ≡ true → LineFits version (SumIs r) →
        line.now ≡ line_text version (SumIs r) → is_some result ≡ true }
    ensures chain { (c : SaidChain) → has_form version (ChainIs c) ≡ true → LineFits version (ChainIs c) →
        line.now ≡ line_text version (ChainIs c) → is_some result ≡ true }
{
    match version {
        Version::One => read_equation(line, runs),
        Version::Two => read_equation(line, runs),
        Version::Three => match line {
            [b's', ..] => read_sum(line, runs),
            _ => read_chain(line, steps),
        },
    }
}

/// What a line says, if it is one of the lines that there are; the runs of its sets and the steps of a chain are added.
/// It is given without its line feed.
pub fn read_line(
    version: Version,
    line: &[u8],
    runs: &mut Runs,
    steps: &mut Steps,
) -> Option<PackedLine>
    requires runs { runs.old.items ≡ [] }
    requires steps { steps.old.items ≡ [] }
    ensures within { IfSome result (LiesWithin (length runs.new.items) (length steps.new.items)) }
    ensures numbers { IfSome result IsNumbered }
    ensures read { IfSome result (λ l. Spells version (said_at runs.new.items steps.new.items l) line.now) }
    ensures only { (l : SaidLine) → has_form version l ≡ true → LineFits version l →
        line.now ≡ line_text version l → is_some result ≡ true }
{
    match line {
        [b'r', ..] => read_routine(line, runs),
        [b'f', b'a', ..] => read_fact(version, line, runs),
        [b'c', ..] => read_cell(line, runs),
        [b'e', b'x', ..] => read_exit(version, line, runs),
        [b'e', b'n', ..] => read_end(line),
        _ => read_detail(version, line, runs, steps),
    }
}

/// Whether a name comes before a cell: the accumulator before all cells, a cell before those of
/// greater address.
fn is_before(name: &Location, cell: Word) -> bool
    ensures { IsTrue result ↔ (place_of_name (location_of name.now) < cell + 1) }
{
    match name {
        Location::Accumulator => true,
        Location::Cell(address) => *address < cell,
    }
}
