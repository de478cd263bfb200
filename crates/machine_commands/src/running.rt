//! The commands that read a tape: its run and its words.

ghost use Rattle.std.specs.Prelude.{◌≡◌, ◌||◌, ◌⊎◌, true, false, None, Err, IfOk, IfErr, OnOk, OnErr};
ghost use Rattle.command_parts.specs.Dumping.{IsDump};
ghost use Rattle.command_parts.specs.Faults.{is_fault_of_tape, fails_to_read, fails_to_write, IsEventRunFault, IsRunFault, IsTapeFault};
ghost use Rattle.machine_commands.specs.Course.{ends_at_halt, events_in};
ghost use Rattle.command_parts.specs.Inputs.{HasCome, TakesAtMost, TakesTape, input};
ghost use Rattle.machine_commands.specs.Running.{IsEventRun, IsPartOf, IsPartOfEventRun, IsPartOfRoundRun, IsRoundRun, IsRunTold, IsTraceToOutput, IsTraceOfEvents, IsTraceOfRounds, status_of};
ghost use Rattle.command_parts.specs.Writes.{FrontOf, Writes, WritesNothingOr};
ghost use Rattle.command_parts.specs.declared.status.Fault.TheVariants.{NoMemory};
ghost use Rattle.command_parts.specs.declared.status.Status.TheVariants.{Done};

use crate::follow::{Course, End, follow};
use crate::stopping::told;
use crate::summary::summary_of;
use bin_tape::Image;
use command_parts::inputs::{events_from, tape_from};
pub use command_parts::options::RunOptions;
use command_parts::status::{Fault, Status};
use command_parts::text::dump_of;
use instruct::Profile;
use peripherals::{Start, World};
use std::alloc::Allocator;
use streams::{ByteSink, ByteSource, put};

/// A run that is stuck at an unsupported word is refused.
pub(crate) fn status_of(end: End) -> Status
    ensures { result ≡ status_of end }
{
    match end {
        End::Unsupported(_) => Status::Refused,
        End::Halted(_) | End::Bound(_) | End::Stopped(_) | End::Interrupted(_) => Status::Done,
    }
}

/// Lets an image's machine go through a course, which may be the part before a step that stops the run, and writes the
/// trace, if it is requested, the summary, and the cells that are to be shown.
pub(crate) fn run_course<A: Allocator + Copy, W: ByteSink>(
    alloc: A,
    image: &Image,
    options: RunOptions,
    course: &Course<'_>,
    stopped: bool,
    out: &mut W,
) -> Result<Status, Fault>
    requires { W.mark out.old ≡ false }
    ensures run { IfOk result (λ status. Writes
        (λ text. IsRunTold options None stopped (ends_at_halt course.now) (events_in course.now) image.now
        text status)
        (W.taken out.old) (W.taken out.new)) }
    ensures faults { IfErr result IsRunFault }
    ensures front { W.mark out.new ≡ true → FrontOf
        (IsPartOf options stopped (ends_at_halt course.now) (events_in course.now) image.now)
        (W.taken out.old) (W.taken out.new) }
    ensures nothing { OnErr result (W.mark out.new ≡ false → options.trace ≡ false →
        W.taken out.new ≡ W.taken out.old) }
    ensures traced { OnErr result (W.mark out.new ≡ false → options.trace ≡ true → Writes
        (IsTraceToOutput options (ends_at_halt course.now) (events_in course.now) image.now)
        (W.taken out.old) (W.taken out.new)) }
    ensures marks { W.mark out.new ≡ fails_to_write result }
{
    let mut world = World::load(alloc, image, options.start, &Start::zero(), options.profile);
    let ran = follow(&mut world, out, options.trace, course)?;
    let outcome = told(stopped, &ran, &world);
    let text = summary_of(alloc, &outcome, &world, &options.show)?;
    put(out, &text)?;
    Ok(status_of(outcome.end))
}

/// Runs a tape in rounds of an instruction, a completion of the printer and one of the punch, and
/// writes the summary, before it the trace if it is requested, and after it the cells that are to be
/// shown. The run ends early at a halt and at an unsupported word; the latter's status is `Refused`.
///
/// # Errors
///
/// The tape's fault; `Device` where a read or a write failed, after which a prefix of the text went
/// out; `NoMemory`.
pub fn run<A: Allocator + Copy, R: ByteSource, W: ByteSink>(
    alloc: A,
    tape: &mut R,
    options: RunOptions,
    out: &mut W,
) -> Result<Status, Fault>
    requires readable { R.mark tape.old ≡ false }
    requires writable { W.mark out.old ≡ false }
    // What is written is that of the run that follows from the tape by the rounds.
    ensures run { IfOk result (λ status. Writes
        (λ text. IsRoundRun options (R.remaining tape.old) text status)
        (W.taken out.old) (W.taken out.new)) }
    // A fault of the tape is the first fault of its bytes; any other comes after a good tape.
    ensures faults { IfErr result (IsTapeFault
        (input (R.mark tape.new) (R.remaining tape.old) (R.remaining tape.new))) }
    // If a write failed, a prefix of that went out, under a trace at least of its first lines,
    ensures front { W.mark out.new ≡ true →
        FrontOf (IsPartOfRoundRun options (R.remaining tape.old))
        (W.taken out.old) (W.taken out.new) }
    // and any other fault leaves the output as it was; under a trace the whole lines may be there of
    // the run, or of its instructions before one that prints or punches.
    ensures nothing { OnErr result (W.mark out.new ≡ false → options.trace ≡ false →
        W.taken out.new ≡ W.taken out.old) }
    ensures traced { OnErr result (W.mark out.new ≡ false → options.trace ≡ true →
        WritesNothingOr (IsTraceOfRounds options (R.remaining tape.old))
        (W.taken out.old) (W.taken out.new)) }
    // Reading a tape takes no memory, so where memory was refused those lines are there.
    ensures traced_whole { result ≡ Err NoMemory → options.trace ≡ true →
        Writes (IsTraceOfRounds options (R.remaining tape.old))
        (W.taken out.old) (W.taken out.new) }
    // A write failed if and only if the answer says so, and so did a read.
    ensures marks { W.mark out.new ≡ fails_to_write result }
    ensures reads { R.mark tape.new ≡ fails_to_read result }
    // The tape is not read past its limit.
    ensures takes_tape { TakesTape (R.remaining tape.old) (R.remaining tape.new) }
{
    let image = tape_from(tape)?;
    let course = Course::Rounds(options.rounds);
    run_course(alloc, &image, options, &course, false, out)
}

/// Runs a tape by the events of a text in place of rounds, and writes as [`run`] does. The run ends
/// early at an unsupported word alone; `rounds` of the options is not looked at.
///
/// # Errors
///
/// As for [`run`], and the text's fault. The tape is read and, if it has a fault, refused first.
#[tactic(auto, using(crate::proofs::UnreadLemmas::takes_no_text))]
pub fn run_events<A: Allocator + Copy, R: ByteSource, E: ByteSource, W: ByteSink>(
    alloc: A,
    tape: &mut R,
    text: &mut E,
    options: RunOptions,
    out: &mut W,
) -> Result<Status, Fault>
    requires readable { R.mark tape.old ≡ false }
    requires text_readable { E.mark text.old ≡ false }
    requires writable { W.mark out.old ≡ false }
    ensures run { IfOk result (λ status. Writes
        (λ written. IsEventRun options (R.remaining tape.old) (E.remaining text.old) written status)
        (W.taken out.old) (W.taken out.new)) }
    ensures faults { IfErr result (IsEventRunFault
        (input (R.mark tape.new) (R.remaining tape.old) (R.remaining tape.new))
        (input (E.mark text.new) (E.remaining text.old) (E.remaining text.new))) }
    ensures front { W.mark out.new ≡ true →
        FrontOf (IsPartOfEventRun options (R.remaining tape.old) (E.remaining text.old))
        (W.taken out.old) (W.taken out.new) }
    ensures nothing { OnErr result (W.mark out.new ≡ false → options.trace ≡ false →
        W.taken out.new ≡ W.taken out.old) }
    ensures traced { OnErr result (W.mark out.new ≡ false → options.trace ≡ true →
        WritesNothingOr (IsTraceOfEvents options (R.remaining tape.old) (E.remaining text.old))
        (W.taken out.old) (W.taken out.new)) }
    // Where memory was refused those lines are there, unless it may have been wanted for the text.
    ensures traced_whole { result ≡ Err NoMemory → options.trace ≡ true →
        HasCome (input (E.mark text.new) (E.remaining text.old) (E.remaining text.new))
        ⊎ Writes (IsTraceOfEvents options (R.remaining tape.old) (E.remaining text.old))
        (W.taken out.old) (W.taken out.new) }
    ensures marks { W.mark out.new ≡ fails_to_write result }
    ensures reads { R.mark tape.new || E.mark text.new ≡ fails_to_read result }
    // The text is not read after a tape that is refused, or whose read failed.
    ensures unread { IfErr result (λ fault. is_fault_of_tape fault ≡ true → text.new ≡ text.old) }
    ensures unread_after_failure { R.mark tape.new ≡ true → text.new ≡ text.old }
    // No input is read past its limit.
    ensures takes_tape { TakesTape (R.remaining tape.old) (R.remaining tape.new) }
    ensures takes_events { TakesAtMost 65537 (E.remaining text.old) (E.remaining text.new) }
{
    let image = tape_from(tape)?;
    let list = events_from(alloc, text)?;
    run_course(alloc, &image, options, &Course::Listed(&list), false, out)
}

/// Writes a line for each word of a tape, in rising order of the addresses: the address, the word
/// and its name.
///
/// # Errors
///
/// As for [`run`].
pub fn dump<A: Allocator + Copy, R: ByteSource, W: ByteSink>(
    alloc: A,
    tape: &mut R,
    profile: Profile,
    out: &mut W,
) -> Result<Status, Fault>
    requires readable { R.mark tape.old ≡ false }
    requires writable { W.mark out.old ≡ false }
    ensures done { IfOk result (λ status. status ≡ Done) }
    ensures dump { OnOk result (Writes (IsDump profile (R.remaining tape.old))
        (W.taken out.old) (W.taken out.new)) }
    ensures faults { IfErr result (IsTapeFault
        (input (R.mark tape.new) (R.remaining tape.old) (R.remaining tape.new))) }
    ensures front { W.mark out.new ≡ true → FrontOf (IsDump profile (R.remaining tape.old))
        (W.taken out.old) (W.taken out.new) }
    ensures nothing { OnErr result (W.mark out.new ≡ false → W.taken out.new ≡ W.taken out.old) }
    ensures marks { W.mark out.new ≡ fails_to_write result }
    ensures reads { R.mark tape.new ≡ fails_to_read result }
    // The tape is not read past its limit.
    ensures takes_tape { TakesTape (R.remaining tape.old) (R.remaining tape.new) }
{
    let image = tape_from(tape)?;
    let text = dump_of(alloc, &image, profile)?;
    put(out, &text)?;
    Ok(Status::Done)
}
