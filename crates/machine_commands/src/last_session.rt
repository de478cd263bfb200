//! The last instructions of a run with an operator, or of a session at the teletype. Which lines these are is tested and
//! not proved.

ghost use Rattle.std.specs.Prelude.{◌≡◌, ◌<◌, ◌||◌, ◌⊎◌, false, true, None, Some, IfOk, IfErr};
ghost use Rattle.command_parts.specs.Faults.{fails_to_read, fails_to_write};
ghost use Rattle.machine_commands.specs.Session.{IsHeldFault, WritesAll, taken};
ghost use Rattle.machine_commands.specs.StoppedSession.{IsHeldToStop};

use crate::interrupted::OperatorPresence;
use crate::last::{last_lines, lines_in};
use crate::running::status_of;
use crate::schedule::Scheduler;
use crate::session::{Outputs, leaving, operate};
use crate::summary::{closing_of, parting};
use bin_tape::Image;
use command_parts::options::{RunOptions, Stops, SummaryForm};
use command_parts::status::{Fault, Status};
use peripherals::{Start, World};
use std::alloc::{AllocError, Allocator};
use std::mem;
use streams::{ByteSink, Failed, put};

/// The last lines of a trace: so many at least, and at most twice as many, or all where there are fewer.
#[derive(Drop)]
struct LastLines<A: Allocator> {
    /// How many are wanted.
    most: u32,
    /// So many lines before those of `newer`, or none.
    older: Vec<u8, A>,
    /// The newest lines.
    newer: Vec<u8, A>,
    /// How many lines `newer` has.
    count: usize,
    /// Memory was refused for a line.
    refused: bool,
}

impl<A: Allocator + Copy> LastLines<A> {
    /// No lines yet, of which so many are wanted.
    fn new(alloc: A, most: u32) -> LastLines<A> {
        LastLines {
            most,
            older: Vec::new(alloc),
            newer: Vec::new(alloc),
            count: 0,
            refused: false,
        }
    }

    /// Adds the lines that are wanted to a text.
    fn push_to(&self, text: &mut Vec<u8, A>, alloc: A) -> Result<(), AllocError> {
        if self.refused {
            return Err(AllocError);
        }
        let mut lines = Vec::new(alloc);
        lines.extend_from_slice(&self.older)?;
        lines.extend_from_slice(&self.newer)?;
        text.extend_from_slice(last_lines(&lines, self.most))
    }
}

impl<A: Allocator> LastLines<A> {
    /// Adds a piece of the trace.
    fn add(&mut self, piece: &[u8]) {
        if self.count >= self.most as usize {
            mem::swap(&mut self.older, &mut self.newer);
            self.newer.clear();
            self.count = 0;
        }
        self.count = self.count.saturating_add(lines_in(piece));
        if self.newer.extend_from_slice(piece).is_err() {
            self.refused = true;
        }
    }
}

impl<A: Allocator> ByteSink for LastLines<A> {
    ghost taken = { λ sink. None };

    ghost mark = { λ sink. false };

    fn write(&mut self, piece: &[u8]) -> Result<usize, Failed> {
        self.add(piece);
        Ok(piece.len())
    }

    fn failed(&self) -> bool {
        false
    }
}

/// The lines of the last instructions, on a line of their own where the summary is to stand apart.
fn lines_of<A: Allocator + Copy, B: Allocator>(
    alloc: A,
    kept: &LastLines<A>,
    form: &SummaryForm<'_>,
    world: &World<B>,
) -> Result<Vec<u8, A>, AllocError> {
    let mut text = Vec::new(alloc);
    text.extend_from_slice(parting(form.apart, world.printed()))?;
    kept.push_to(&mut text, alloc)?;
    Ok(text)
}

/// The same form of a summary, behind lines that end.
fn behind<'n>(form: &SummaryForm<'n>) -> SummaryForm<'n>
    ensures apart { result.apart ≡ false }
    ensures seen { result.seen ≡ form.now.seen }
    ensures saved { result.saved_in ≡ form.now.saved_in }
{
    SummaryForm {
        apart: false,
        seen: form.seen,
        saved_in: form.saved_in,
    }
}

/// Runs an image by a schedule up to where it is stopped, and writes what was punched in the end, even if the run
/// broke off, the lines of the last instructions, and the summary.
pub(crate) fn run_with_last<
    A: Allocator + Copy,
    S: Scheduler + OperatorPresence,
    W: ByteSink,
    T: ByteSink,
    P: ByteSink,
>(
    alloc: A,
    image: &Image,
    schedule: &mut S,
    stops: &Stops,
    most: u32,
    options: RunOptions,
    form: SummaryForm<'_>,
    out: &mut Outputs<W, T, P>,
) -> Result<Status, Fault>
    requires writable { W.mark out.old.report ≡ false }
    requires typable { T.mark out.old.teletype ≡ false }
    requires punchable { P.mark out.old.punch ≡ false }
    requires readable { S.unread schedule.old ≡ false }
    requires few { S.steps_to_come schedule.old < 18446744073709551616 }
    ensures run { IfOk result (λ status.
        WritesAll (λ text printed punched.
        IsHeldToStop (S.brings schedule.old) options stops.now (Some most) form.entry (S.left schedule.new) image.now
        text printed punched status)
        (taken (W.taken out.old.report) (T.taken out.old.teletype) (P.taken out.old.punch))
        (taken (W.taken out.new.report) (T.taken out.new.teletype) (P.taken out.new.punch))) }
    ensures faults { IfErr result IsHeldFault }
    ensures marks { (W.mark out.new.report || T.mark out.new.teletype) || P.mark out.new.punch
        ≡ fails_to_write result }
    ensures reads { fails_to_read result ≡ true → S.unread schedule.new ≡ true }
    ensures read_told { S.unread schedule.new ≡ true →
        (fails_to_read result ≡ true) ⊎ (P.mark out.new.punch ≡ true) }
{
    let mut world = World::load(alloc, image, options.start, &Start::zero(), options.profile);
    let Outputs {
        report,
        teletype,
        punch,
    } = out;
    let mut kept = LastLines::new(alloc, most);
    let ran = operate(&mut world, schedule, stops, true, &mut kept, teletype);
    put(punch, world.punched())?;
    let came = ran?;
    let outcome = leaving(schedule.has_left(), came, &world);
    let lines = lines_of(alloc, &kept, &form, &world)?;
    let text = closing_of(alloc, &outcome, &world, &behind(&form), &options.show)?;
    put(report, &lines)?;
    put(report, &text)?;
    Ok(status_of(outcome.end))
}
