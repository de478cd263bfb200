//! The lines of a certificate, one after another, in all versions.

ghost use Rattle.std.specs.Prelude.{◌≡◌, ◌+◌, ◌<◌, ◌≤◌, ◌^◌, List, [], ◌∷◌, length, true, false, IfOk};
ghost use Rattle.certificate_lines.specs.declared.runs.Run.{Run};
ghost use Rattle.domain.specs.declared.chains.Step.{Step};
ghost use Rattle.certificate_lines.specs.Lines.{Line as SaidLine, is_detail};
ghost use Rattle.certificate_lines.specs.Order.{may_stand, place_of_head, comes_in_order, has_room, may_be_level, heads, follows_newest};
ghost use Rattle.certificate_lines.specs.Progress.{Tracks, TracksOthers, Fits, Takes};
ghost use Rattle.certificate_lines.specs.Packed.{said_at, LiesWithin, IsNumbered};

use crate::line::read_line;
use crate::packed::{PackedLine, Steps};
use crate::runs::Runs;
use crate::{CertificateFault, Version};

/// The place of a fact at 0000; those of routines are their entries.
pub const FIRST_FACT: usize = 4096;

/// The place of an exit of 0000 by the offset 0.
pub const FIRST_EXIT: usize = 8192;

/// The place of the end.
pub const LAST_PLACE: usize = 270_336;

/// What is kept of the lines that were read.
#[derive(Clone, Copy)]
pub struct Progress {
    /// The version of the text.
    pub version: Version,
    /// The number of the next line, counted from 1.
    pub number: usize,
    /// Whether the end was read.
    pub ended: bool,
    takes_details: bool,
    next_head: usize,
    last_detail: Option<PackedLine>,
    routines: usize,
    cells: usize,
    sums: usize,
    chains: usize,
}

/// The place of a line among those that are no details, which have the end's.
pub fn place_of(line: &PackedLine) -> usize
    requires { IsNumbered line.now }
    ensures same { (runs : List Run) (steps : List Step) → result ≡ place_of_head (said_at runs steps line.now) }
    ensures small { result ≤ 270336 }
{
    match line {
        PackedLine::Routine(routine) => routine.entry.index(),
        PackedLine::Fact(fact) => FIRST_FACT + fact.address.index(),
        PackedLine::Exit(exit) => FIRST_EXIT + 64 * exit.entry.index() + usize::from(exit.offset),
        _ => LAST_PLACE,
    }
}

impl Progress {
    /// After the first line.
    pub fn start(version: Version) -> Progress
        ensures lines { Tracks result [] }
        ensures version { result.version ≡ version }
    {
        Progress {
            version,
            number: 2,
            ended: false,
            takes_details: false,
            next_head: 0,
            last_detail: None,
            routines: 0,
            cells: 0,
            sums: 0,
            chains: 0,
        }
    }

    /// Whether a line may stand here.
    fn may_stand(&self, line: &PackedLine) -> bool
        ensures { (runs : List Run) (steps : List Step) (before : List SaidLine) → Tracks self.now before → result ≡
            may_stand before (said_at runs steps line.now) }
    {
        !self.ended && (!line.is_detail() || self.takes_details)
    }

    /// Whether there is room for a line.
    fn has_room(&self, line: &PackedLine) -> bool
        ensures room { (runs : List Run) (steps : List Step) (before : List SaidLine) → Tracks self.now before → result ≡
            has_room before (said_at runs steps line.now) }
        ensures fits { result ≡ true → Fits self.now (said_at [] [] line.now) }
    {
        match line {
            PackedLine::Routine(_) => self.routines < 64,
            PackedLine::Cell(_, _) => self.cells < 64,
            PackedLine::Sum(_, _) => self.sums < 32,
            PackedLine::Chain(_) => self.chains < 4,
            _ => true,
        }
    }

    /// Whether several lines of this kind may stand at one place.
    fn may_be_level(&self, line: &PackedLine) -> bool
        ensures { (runs : List Run) (steps : List Step) → result ≡ may_be_level self.now.version (said_at runs steps line.now) }
    {
        match self.version {
            Version::One | Version::Two => false,
            Version::Three => line.has_details(),
        }
    }

    /// Whether a line that is no detail comes in order.
    fn is_next_head(&self, line: &PackedLine) -> bool
        requires numbers { IsNumbered line.now }
        requires head { is_detail (said_at [] [] line.now) ≡ false }
        ensures { (runs : List Run) (steps : List Step) (before : List SaidLine) → Tracks self.now before →
            result ≡ follows_newest self.now.version (said_at runs steps line.now) (heads before) }
    {
        let place = place_of(line);
        let is_level = self.may_be_level(line);
        self.next_head <= place || self.next_head == place + 1 && is_level
    }

    /// Whether a line comes in order.
    fn is_next(&self, line: &PackedLine) -> bool
        requires numbers { IsNumbered line.now }
        ensures { (runs : List Run) (steps : List Step) (before : List SaidLine) → Tracks self.now before →
            result ≡ comes_in_order self.now.version before (said_at runs steps line.now) }
    {
        if !line.is_detail() {
            return self.is_next_head(line);
        }
        match &self.last_detail {
            None => true,
            Some(last) => last.is_before(line),
        }
    }

    /// Keeps what a line says for those after it.
    fn add(&mut self, line: &PackedLine)
        requires number { self.old.number < 2 ^ 32 }
        requires numbers { IsNumbered line.now }
        requires fits { Fits self.old (said_at [] [] line.now) }
        ensures version { self.new.version ≡ self.old.version }
        ensures number { self.new.number ≡ self.old.number + 1 }
        ensures lines { (runs : List Run) (steps : List Step) (before : List SaidLine) → Tracks self.old before →
            Tracks self.new (said_at runs steps line.now ∷ before) }
    {
        self.number += 1;
        match line {
            PackedLine::Cell(_, _) => self.cells += 1,
            PackedLine::Sum(_, _) => self.sums += 1,
            PackedLine::Chain(_) => self.chains += 1,
            _ => {
                self.add_head(line);
                return;
            }
        }
        self.last_detail = Some(*line);
    }

    /// The same of a line that is not a detail.
    fn add_head(&mut self, line: &PackedLine)
        requires head { is_detail (said_at [] [] line.now) ≡ false }
        requires numbers { IsNumbered line.now }
        requires fits { Fits self.old (said_at [] [] line.now) }
        ensures version { self.new.version ≡ self.old.version }
        ensures number { self.new.number ≡ self.old.number }
        ensures lines { (runs : List Run) (steps : List Step) (before : List SaidLine) → TracksOthers self.old before →
            TracksOthers self.new (said_at runs steps line.now ∷ before) }
    {
        self.next_head = place_of(line) + 1;
        self.last_detail = None;
        self.cells = 0;
        self.sums = 0;
        self.chains = 0;
        match line {
            PackedLine::Routine(_) => self.routines += 1,
            PackedLine::Fact(_) | PackedLine::Exit(_) => self.takes_details = true,
            _ => self.ended = true,
        }
    }

    /// Takes the next line; the runs of its sets and the steps of a chain are added.
    pub fn accept(
        &mut self,
        bytes: &[u8],
        runs: &mut Runs,
        steps: &mut Steps,
    ) -> Result<PackedLine, CertificateFault>
        requires number { self.old.number < 2 ^ 32 }
        requires runs { runs.old.items ≡ [] }
        requires steps { steps.old.items ≡ [] }
        ensures version { self.new.version ≡ self.old.version }
        ensures number { self.new.number ≤ self.old.number + 1 }
        ensures within { IfOk result (LiesWithin (length runs.new.items) (length steps.new.items)) }
        ensures numbers { IfOk result IsNumbered }
        ensures lines { (before : List SaidLine) → Tracks self.old before →
            Takes self.old.version before bytes.now self.new runs.new.items steps.new.items result }
    {
        let Some(line) = read_line(self.version, bytes, runs, steps) else {
            return Err(CertificateFault::BadLine(self.number));
        };
        if !self.may_stand(&line) {
            return Err(CertificateFault::BadLine(self.number));
        }
        if !self.is_next(&line) {
            return Err(CertificateFault::Order(self.number));
        }
        if !self.has_room(&line) {
            return Err(CertificateFault::TooMany);
        }
        self.add(&line);
        Ok(line)
    }
}
