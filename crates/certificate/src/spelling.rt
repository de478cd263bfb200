//! The text of a line in all versions.

ghost use Rattle.std.specs.Prelude.{◌≡◌, ◌<◌, ◌≤◌, ◌+◌, ◌==◌, ◌&&◌, List, [], ◌++◌, length, map, take, drop, flat_map, codes, if◌then◌else◌, OnOk, OnErr, is_err, true, false, slice_range};
ghost use Rattle.std.specs.Io.KnownBytes.{Appends};
ghost use Rattle.streams.specs.Bytes.{AppendsFront};
ghost use Rattle.wordset.specs.Words.{some_below, only};
ghost use Rattle.wordset.specs.Links.{links_of};
ghost use Rattle.domain.specs.InCode.{term_of, summand_of};
ghost use Rattle.domain.specs.ChainsInCode.{step_of};
ghost use Rattle.domain.specs.Offsets.{offsets_in};
ghost use Rattle.certificate_lines.specs.FieldSpelling.{begins, ends, mark, offset_set_text, offsets_text, set_text, rank_text, ended};
ghost use Rattle.certificate_lines.specs.RisingLists.{Each};
ghost use Rattle.certificate_lines.specs.LineText.{Adds};
ghost use Rattle.certificate_lines.specs.Runs.{set_of_runs, set_at, registers_at, AreWithin};
ghost use Rattle.domain.specs.declared.chains.Step.{Step};
ghost use Rattle.certificate_lines.specs.declared.packed.PackedLine.TheVariants as packed;
ghost use Rattle.certificate_lines.specs.Spelling.{offsets_line, offset_text, sites_text, mq_text, words_text, term_text, coefficient_text, further_text, sum_text, equation_line, relation_line, step_text, chain_line, line_text, version_text, word_text};
ghost use Rattle.certificate_lines.specs.LineOf.{most_offsets};
ghost use Rattle.certificate_lines.specs.Fields.{third_text};
ghost use Rattle.certificate_lines.specs.Packed.{packed_sum_of, said_at, said_of, said_lines, LiesWithin, LieWithin};
ghost use Rattle.certificate_lines.specs.Found.{IsLine};
ghost use Rattle.certificate_lines.specs.Spelled.{all_ended};

use crate::line_text::LineText;
use certificate_lines::{
    LineView, PackedChain, PackedExit, PackedFact, PackedLine, PackedLines, PackedRegisters,
    PackedSum, Run, Version, runs_from, set_of,
};
use domain::{ReturnOffsets, Step, Summand, Term, is_sign, negated};
use std::alloc::Allocator;
use streams::{ByteSink, Failed, put};
use word12::Word;

/// Whether an offset is among some, and whether the one before it is.
fn is_inside(offsets: ReturnOffsets, offset: usize) -> bool
    ensures { result ≡ offsets_in offsets offset }
{
    offset < 64 && offsets.contains(offset)
}

/// Whether one of the offsets is below another.
fn has_below(offsets: ReturnOffsets, limit: usize) -> bool
    requires { limit ≤ 64 }
    ensures { result ≡ some_below limit (offsets_in offsets) }
{
    for offset in 0..limit {
        if offsets.contains(offset) {
            return true;
        }
    }
    false
}

/// Whether a run of offsets begins at one.
fn is_first(offsets: ReturnOffsets, offset: usize) -> bool
    requires { offset < 64 }
    ensures { result ≡ begins (offsets_in offsets) offset }
{
    if !offsets.contains(offset) {
        return false;
    }
    if offset == 0 {
        return true;
    }
    !offsets.contains(offset - 1)
}

/// Whether a run of offsets ends at one.
fn is_last(offsets: ReturnOffsets, offset: usize) -> bool
    requires { offset < 64 }
    ensures { result ≡ ends (offsets_in offsets) offset }
{
    if !offsets.contains(offset) {
        return false;
    }
    !is_inside(offsets, offset + 1)
}

impl LineText {
    /// Adds a comma, where it is wanted.
    fn comma_if(&mut self, is_wanted: bool)
        ensures { Adds self.old.bytes.items self.new.bytes.items (if is_wanted then codes "," else []) }
    {
        if is_wanted {
            self.push(b',');
        }
    }

    /// Adds the first offset of a run, after a comma if another run came before.
    fn first_offset(&mut self, offsets: ReturnOffsets, offset: usize)
        requires { offset < 64 }
        ensures { Adds self.old.bytes.items self.new.bytes.items
            ((if some_below offset (offsets_in offsets) then codes "," else []) ++ rank_text offset) }
    {
        self.comma_if(has_below(offsets, offset));
        self.rank(offset);
    }

    /// Adds what is written at an offset in a set of offsets: where a run begins its first one, after a comma if another came
    /// before; where one ends that has more its last one, after a dash.
    fn offset_mark(&mut self, offsets: ReturnOffsets, offset: usize)
        requires { offset < 64 }
        ensures { Adds self.old.bytes.items self.new.bytes.items (mark rank_text (offsets_in offsets) offset) }
    {
        if is_first(offsets, offset) {
            self.first_offset(offsets, offset);
            return;
        }
        if !is_last(offsets, offset) {
            return;
        }
        self.push(b'-');
        self.rank(offset);
    }

    /// Adds a set of offsets by its runs, `-` where there are none.
    fn offset_set(&mut self, offsets: ReturnOffsets)
        ensures { Adds self.old.bytes.items self.new.bytes.items (offset_set_text (offsets_in offsets)) }
    {
        if offsets.is_empty() {
            self.push(b'-');
            return;
        }
        for offset in 0..64usize {
            self.offset_mark(offsets, offset);
        }
    }

    /// Adds the offsets' digits in rising order, `-` where there are none.
    fn offset_digits(&mut self, offsets: ReturnOffsets)
        ensures { Adds self.old.bytes.items self.new.bytes.items (offsets_text (offsets_in offsets)) }
    {
        if !has_below(offsets, 8) {
            self.push(b'-');
            return;
        }
        for offset in 0..8usize {
            self.digit_if(offset, offsets.contains(offset));
        }
    }

    /// Adds the offsets of a fact.
    fn told_offsets(&mut self, version: Version, offsets: ReturnOffsets)
        ensures { Adds self.old.bytes.items self.new.bytes.items (offsets_line version (offsets_in offsets)) }
    {
        match version {
            Version::One => self.offset_digits(offsets),
            Version::Two => self.offset_digits(offsets),
            Version::Three => self.offset_set(offsets),
        }
    }

    /// Adds the offset of an exit.
    fn told_offset(&mut self, version: Version, offset: usize)
        requires { offset < most_offsets version }
        ensures { Adds self.old.bytes.items self.new.bytes.items (offset_text version offset) }
    {
        match version {
            Version::One => self.digit(offset),
            Version::Two => self.digit(offset),
            Version::Three => self.rank(offset),
        }
    }

    /// Adds a term: `AC`, a cell, or a cell and a number in brackets.
    fn term(&mut self, term: &Term)
        ensures { Adds self.old.bytes.items self.new.bytes.items (term_text (term_of term.now)) }
    {
        match term {
            Term::Holding(name) => self.name(name),
            Term::Behind { cell, more } => {
                self.push(b'[');
                self.word(*cell);
                self.push(b'+');
                self.word(*more);
                self.push(b']');
            }
        }
    }

    /// Adds a coefficient: `+` for 1, `-` for minus one, else four digits.
    fn coefficient(&mut self, coefficient: Word)
        ensures { Adds self.old.bytes.items self.new.bytes.items (coefficient_text coefficient) }
    {
        if !is_sign(coefficient) {
            self.word(coefficient);
            return;
        }
        if coefficient.index() == 1 {
            self.push(b'+');
            return;
        }
        self.push(b'-');
    }

    /// Adds a term after the first one with its coefficient, each after a space.
    fn summand(&mut self, summand: &Summand)
        ensures { Adds self.old.bytes.items self.new.bytes.items (further_text (summand_of summand.now)) }
    {
        self.push(b' ');
        self.coefficient(summand.coefficient);
        self.push(b' ');
        self.term(&summand.term);
    }

    /// Adds the third term of a sum, if it has one: a cell with minus the coefficient of the second.
    fn third(&mut self, coefficient: Word, third: &Option<Word>)
        ensures { Adds self.old.bytes.items self.new.bytes.items (third_text coefficient third.now) }
    {
        match third {
            None => {}
            Some(cell) => {
                self.push(b' ');
                self.coefficient(negated(coefficient));
                self.push(b' ');
                self.word(*cell);
            }
        }
    }

    /// Adds a sum.
    fn sum(&mut self, sum: &PackedSum)
        ensures { Adds self.old.bytes.items self.new.bytes.items (sum_text (packed_sum_of sum.now)) }
    {
        self.name(&sum.first);
        self.summand(&sum.second);
        self.third(sum.second.coefficient, &sum.third);
    }

    /// Adds the one word of a set by its runs, and nothing if it has none or several.
    fn only_word(&mut self, runs: &[Run])
        ensures { Adds self.old.bytes.items self.new.bytes.items (word_text (only (set_of_runs runs.now))) }
    {
        match set_of(runs).only() {
            None => {}
            Some(word) => self.word(word),
        }
    }

    /// Adds the line of a sum as versions 1 and 2 have it: its two names and the one word of its set.
    fn told_equation(&mut self, runs: &[Run], sum: &PackedSum, count: u16)
        requires { count ≤ length runs.now }
        ensures { Adds self.old.bytes.items self.new.bytes.items (equation_line (record { sum = packed_sum_of sum.now; set = set_at runs.now 0 count })) }
    {
        self.text(b"equal ");
        self.name(&sum.first);
        self.text(b" ");
        self.term(&sum.second.term);
        self.text(b" ");
        self.only_word(&runs[..usize::from(count)]);
    }

    /// Adds the line of a sum as version 3 has it.
    fn told_sum(&mut self, runs: &[Run], sum: &PackedSum, count: u16)
        requires { count ≤ length runs.now }
        ensures { Adds self.old.bytes.items self.new.bytes.items
            (codes "sum " ++ sum_text (packed_sum_of sum.now) ++ codes " in " ++ set_text (set_at runs.now 0 count)) }
    {
        self.text(b"sum ");
        self.sum(sum);
        self.text(b" in ");
        self.set_in(runs, 0, count);
    }

    /// Adds the line of a relation.
    fn relation(&mut self, version: Version, runs: &[Run], sum: &PackedSum, count: u16)
        requires { count ≤ length runs.now }
        ensures { Adds self.old.bytes.items self.new.bytes.items (relation_line version (record { sum = packed_sum_of sum.now; set = set_at runs.now 0 count })) }
    {
        match version {
            Version::One => self.told_equation(runs, sum, count),
            Version::Two => self.told_equation(runs, sum, count),
            Version::Three => self.told_sum(runs, sum, count),
        }
    }

    /// Adds a step after a space.
    fn step(&mut self, step: &Step)
        ensures { Adds self.old.bytes.items self.new.bytes.items (step_text (step_of step.now)) }
    {
        match step {
            Step::Operates(word) => {
                self.text(b" ");
                self.word(*word);
            }
            Step::Ands(word) => {
                self.text(b" AND ");
                self.word(*word);
            }
            Step::Adds(word) => {
                self.text(b" TAD ");
                self.word(*word);
            }
        }
    }

    /// Adds steps, each after a space.
    fn steps(&mut self, steps: &[Step])
        ensures { Adds self.old.bytes.items self.new.bytes.items (flat_map step_text (map step_of steps.now)) }
    {
        for step in steps {
            self.step(step);
        }
    }

    /// Adds the line of a chain.
    fn chain(&mut self, steps: &[Step], chain: &PackedChain)
        requires { chain.now.count ≤ length steps.now }
        ensures { Adds self.old.bytes.items self.new.bytes.items (chain_line (record {
          cell = chain.now.cell;
          more = chain.now.more;
          link = links_of chain.now.link;
          steps = map step_of (take chain.now.count steps.now);
        })) }
    {
        self.text(b"func ");
        self.word(chain.cell);
        self.text(b" ");
        self.word(chain.more);
        self.text(b" link ");
        self.links(chain.link);
        self.steps(&steps[..usize::from(chain.count)]);
    }

    /// Adds the sites of a fact or an exit, of which versions 1 and 2 say nothing.
    fn sites(&mut self, version: Version, runs: &[Run], sites: u16)
        requires { sites ≤ length runs.now }
        ensures { Adds self.old.bytes.items self.new.bytes.items (sites_text version (set_at runs.now 0 sites)) }
    {
        match version {
            Version::One => {}
            Version::Two => {}
            Version::Three => {
                self.text(b" sites ");
                self.set_in(runs, 0, sites);
            }
        }
    }

    /// Adds what MQ may hold.
    fn written_mq(&mut self, runs: &[Run], registers: &PackedRegisters)
        requires { AreWithin (length runs.now) registers.now.sets }
        ensures { Adds self.old.bytes.items self.new.bytes.items
            (codes " mq " ++ set_text (registers_at runs.now registers.now).mq) }
    {
        self.text(b" mq ");
        self.set_in(runs, registers.sets.one, registers.sets.other);
    }

    /// Adds what MQ may hold, of which version 1 says nothing.
    fn told_mq(&mut self, version: Version, runs: &[Run], registers: &PackedRegisters)
        requires { AreWithin (length runs.now) registers.now.sets }
        ensures { Adds self.old.bytes.items self.new.bytes.items (mq_text version (registers_at runs.now registers.now).mq) }
    {
        match version {
            Version::One => {}
            Version::Two => self.written_mq(runs, registers),
            Version::Three => self.written_mq(runs, registers),
        }
    }

    /// Adds the sites and the sets of a fact or of an exit.
    fn told(&mut self, version: Version, runs: &[Run], sites: u16, registers: &PackedRegisters)
        requires { LieWithin (length runs.now) sites registers.now.sets }
        ensures { Adds self.old.bytes.items self.new.bytes.items
            (sites_text version (set_at runs.now 0 sites) ++
            words_text version (registers_at (drop sites runs.now) registers.now)) }
    {
        self.sites(version, runs, sites);
        let runs = runs_from(runs, usize::from(sites));
        self.text(b" ac ");
        self.set_in(runs, 0, registers.sets.one);
        self.told_mq(version, runs, registers);
        self.text(b" link ");
        self.links(registers.link);
    }

    /// Adds the line of a fact.
    fn told_fact(&mut self, version: Version, runs: &[Run], fact: &PackedFact)
        requires { LieWithin (length runs.now) fact.now.sites fact.now.registers.sets }
        ensures { (steps : List Step) → Adds self.old.bytes.items self.new.bytes.items
            (line_text version (said_at runs.now steps (packed.Fact fact.now))) }
    {
        self.text(b"fact ");
        self.word(fact.address);
        self.told(version, runs, fact.sites, &fact.registers);
        self.text(b" offsets ");
        self.told_offsets(version, fact.offsets);
    }

    /// Adds the line of an exit.
    fn told_exit(&mut self, version: Version, runs: &[Run], exit: &PackedExit)
        requires within { LieWithin (length runs.now) exit.now.sites exit.now.registers.sets }
        requires offset { exit.now.offset < most_offsets version }
        ensures { (steps : List Step) → Adds self.old.bytes.items self.new.bytes.items
            (line_text version (said_at runs.now steps (packed.Exit exit.now))) }
    {
        self.text(b"exit ");
        self.word(exit.entry);
        self.text(b" ");
        self.told_offset(version, usize::from(exit.offset));
        self.told(version, runs, exit.sites, &exit.registers);
    }

    /// Adds a line.
    fn told_line(&mut self, version: Version, lent: &LineView<'_>)
        requires within { LiesWithin (length lent.now.runs.now) (length lent.now.steps.now) lent.now.line.now }
        requires form { IsLine version (said_of lent.now) }
        ensures { Adds self.old.bytes.items self.new.bytes.items (line_text version (said_of lent.now)) }
    {
        match lent.line {
            PackedLine::Routine(routine) => self.routine(lent.runs, routine),
            PackedLine::Fact(fact) => self.told_fact(version, lent.runs, fact),
            PackedLine::Exit(exit) => self.told_exit(version, lent.runs, exit),
            PackedLine::Cell(cell, count) => self.cell(lent.runs, *cell, *count),
            PackedLine::Sum(sum, count) => self.relation(version, lent.runs, sum, *count),
            PackedLine::Chain(chain) => self.chain(lent.steps, chain),
            PackedLine::End => self.text(b"end"),
        }
    }

    /// Makes it the text of this line with its line feed.
    fn put_told(&mut self, version: Version, lent: &LineView<'_>)
        requires within { LiesWithin (length lent.now.runs.now) (length lent.now.steps.now) lent.now.line.now }
        requires form { IsLine version (said_of lent.now) }
        ensures { self.new.bytes.items ≡ ended (line_text version (said_of lent.now)) }
    {
        self.clear();
        self.told_line(version, lent);
        self.push(b'\n');
    }
}

/// The first line with its line feed.
fn first_line(version: Version) -> &'static [u8]
    ensures { result.now ≡ ended (version_text version) }
{
    match version {
        Version::One => b"PDP8-CERTIFICATE 1\n",
        Version::Two => b"PDP8-CERTIFICATE 2\n",
        Version::Three => b"PDP8-CERTIFICATE 3\n",
    }
}

/// Writes the lines from a place on, up to the one at another place.
pub fn put_lines<A: Allocator, W: ByteSink>(
    sink: &mut W,
    version: Version,
    lines: &PackedLines<A>,
    start: usize,
    end: usize,
) -> Result<(), Failed>
    requires unmarked { W.mark sink.old ≡ false }
    requires within { end ≤ length (said_lines lines.now) }
    requires form { Each (IsLine version) (said_lines lines.now) }
    ensures whole { OnOk result (Appends (W.taken sink.old) (W.taken sink.new)
        (all_ended version (slice_range (said_lines lines.now) start end))) }
    ensures front { OnErr result (AppendsFront (W.taken sink.old) (W.taken sink.new)
        (all_ended version (slice_range (said_lines lines.now) start end))) }
    ensures marks { W.mark sink.new ≡ is_err result }
{
    let mut text = LineText::new();
    for at in start..end {
        text.put_told(version, &lines.line(at));
        if let Err(failed) = put(sink, text.as_bytes()) {
            return Err(failed);
        }
    }
    Ok(())
}

/// Writes a certificate's text: its first line, these lines and the end.
pub fn put_text<A: Allocator, W: ByteSink>(
    sink: &mut W,
    version: Version,
    lines: &PackedLines<A>,
) -> Result<(), Failed>
    requires unmarked { W.mark sink.old ≡ false }
    requires form { Each (IsLine version) (said_lines lines.now) }
    ensures whole { OnOk result (Appends (W.taken sink.old) (W.taken sink.new)
        (ended (version_text version) ++ all_ended version (said_lines lines.now) ++
        ended (codes "end"))) }
    ensures front { OnErr result (AppendsFront (W.taken sink.old) (W.taken sink.new)
        (ended (version_text version) ++ all_ended version (said_lines lines.now) ++
        ended (codes "end"))) }
    ensures marks { W.mark sink.new ≡ is_err result }
{
    put(sink, first_line(version))?;
    put_lines(sink, version, lines, 0, lines.len())?;
    put(sink, b"end\n")
}
