//! A run with an operator: frames in the reader, keys to strike, the teletype and the punch.

ghost use Rattle.std.specs.Prelude.{◌≡◌, ◌<◌, ◌≤◌, ◌+◌, ◌||◌, ◌⊎◌, ◌%◌, [], ◌∷◌, false, true, None, drop, get_or, is_err, map, IfSome, IfOk, IfErr, OnOk};
ghost use Rattle.std.specs.Io.KnownBytes.{Appends};
ghost use Rattle.streams.specs.Bytes.{Gave};
ghost use Rattle.peripherals.specs.World.{view, profile_of};
ghost use Rattle.command_parts.specs.Faults.{is_fault_of_tape, fails_to_read, fails_to_write, IsRunFault, IsSessionFault};
ghost use Rattle.command_parts.specs.Inputs.{AreFirst, TakesAtMost, TakesTape, input};
ghost use Rattle.machine_commands.specs.Session.{IsHeldFault, WritesAll, character, taken};
ghost use Rattle.machine_commands.specs.SessionParts.{Played, is_step, steps_in};
ghost use Rattle.machine_commands.specs.StoppedSession.{leaving, IsHeldToStop, IsSessionToStop};
ghost use Rattle.machine_commands.specs.StoppedParts.{OperatedToStop, Passes};

use crate::follow::{End, RunOutcome, advance, end_of};
use crate::interrupted::OperatorPresence;
use crate::last_session::run_with_last;
use crate::running::status_of;
use crate::schedule::Scheduler;
use crate::stops::{stops_before, visits_with};
use crate::summary::closing_of;
use bin_tape::Image;
use command_parts::inputs::{bytes_from, tape_from};
use command_parts::options::{RunOptions, Stops};
pub use command_parts::options::{SessionOptions, SummaryForm};
use command_parts::status::{Fault, Status};
use peripherals::{Event, Operator, Seen, Start, World};
use std::alloc::Allocator;
use streams::{ByteSink, ByteSource, Failed, put};

/// Where a session writes to.
#[derive(Drop)]
pub struct Outputs<W, T, P> {
    /// Takes the trace and the summary.
    pub report: W,
    /// Takes the characters that are printed.
    pub teletype: T,
    /// Takes the bytes that are punched.
    pub punch: P,
}

/// Types the byte that was printed after so many others, if there is one.
#[inline(always)]
fn type_from<T: ByteSink>(bytes: &[u8], from: usize, teletype: &mut T) -> Result<(), Failed>
    requires unmarked { T.mark teletype.old ≡ false }
    ensures whole { OnOk result (Appends (T.taken teletype.old) (T.taken teletype.new)
        (map character (drop from bytes.now))) }
    ensures marks { T.mark teletype.new ≡ is_err result }
{
    for index in from..bytes.len() {
        put(teletype, &character_at(bytes, index))?;
    }
    Ok(())
}

/// Whether an event is a step of the machine.
fn is_step(event: &Event) -> bool
    ensures { result ≡ is_step event.now }
{
    matches!(event, Event::Step)
}

/// The character of the byte with this index.
fn character_at(bytes: &[u8], index: usize) -> [u8; 1]
    ensures { result ≡ (get_or bytes.now index 0 % 128) ∷ [] }
{
    match bytes.get(index) {
        Some(byte) => [*byte % 128],
        None => [0],
    }
}

/// Applies one event, adds its line to the trace if one is requested, and types what it printed.
#[inline(always)]
pub(crate) fn apply_event<A: Allocator, W: ByteSink, T: ByteSink>(
    world: &mut World<A>,
    report: &mut W,
    teletype: &mut T,
    trace: bool,
    event: Event,
) -> Result<Seen, Fault>
    requires writable { W.mark report.old ≡ false }
    requires typable { T.mark teletype.old ≡ false }
    ensures played { IfOk result (λ seen.
        Played (profile_of world.old) trace (view world.old) event seen (view world.new)
        (W.taken report.old) (W.taken report.new)
        (T.taken teletype.old) (T.taken teletype.new)) }
    ensures profile { profile_of world.new ≡ profile_of world.old }
    ensures faults { IfErr result IsRunFault }
    ensures marks { W.mark report.new || T.mark teletype.new ≡ fails_to_write result }
{
    let before = world.printed().len();
    let seen = advance(world, report, trace, event)?;
    type_from(world.printed(), before, teletype)?;
    Ok(seen)
}

/// How many steps came to the address, with an event, where so many came to it before; none if the event stops
/// the run.
pub(crate) fn visits_past<A: Allocator>(
    stops: &Stops,
    visits: usize,
    world: &World<A>,
    event: &Event,
) -> Option<usize>
    requires { visits + steps_in event.now < 18446744073709551616 }
    ensures passes { Passes stops.now (profile_of world.now) visits (view world.now) event.now result }
    ensures few { IfSome result (λ more. more ≤ visits + steps_in event.now) }
{
    if !is_step(event) {
        return Some(visits);
    }
    if stops_before(stops, visits, world, event) {
        return None;
    }
    Some(visits_with(stops, visits, world, event))
}

/// Lets happen what a schedule brings, up to the step before which the run is stopped. The run ends early at a
/// halt and at an unsupported word.
pub(crate) fn operate<A: Allocator, S: Scheduler, W: ByteSink, T: ByteSink>(
    world: &mut World<A>,
    schedule: &mut S,
    stops: &Stops,
    trace: bool,
    report: &mut W,
    teletype: &mut T,
) -> Result<RunOutcome, Fault>
    requires writable { W.mark report.old ≡ false }
    requires typable { T.mark teletype.old ≡ false }
    requires readable { S.unread schedule.old ≡ false }
    requires few { S.steps_to_come schedule.old < 18446744073709551616 }
    requires unprinted { (view world.old).devices.printer.output ≡ [] }
    ensures ran { IfOk result (λ outcome.
        OperatedToStop (S.brings schedule.old (profile_of world.old) (view world.old)) false stops.now
        (profile_of world.old) trace (view world.old) outcome
        (view world.new) (W.taken report.old) (W.taken report.new)
        (T.taken teletype.old) (T.taken teletype.new)) }
    ensures faults { IfErr result IsHeldFault }
    ensures marks { W.mark report.new || T.mark teletype.new ≡ fails_to_write result }
    ensures reads { S.unread schedule.new ≡ fails_to_read result }
{
    let mut steps = 0;
    let mut visits = 0;
    while let Some(event) = schedule.next_event(world)? {
        let Some(more) = visits_past(stops, visits, world, &event) else {
            return Ok(RunOutcome {
                steps,
                end: End::Stopped(world.cpu().pc),
            });
        };
        visits = more;
        match apply_event(world, report, teletype, trace, event)? {
            Seen::Ran => {
                steps += 1;
                schedule.complete_devices(world);
            }
            Seen::Halted => {
                return Ok(RunOutcome {
                    steps: steps + 1,
                    end: end_of(world),
                });
            }
            Seen::Unsupported(_) => {
                return Ok(RunOutcome {
                    steps,
                    end: End::Unsupported(world.cpu().pc),
                });
            }
            Seen::NotEnabled => {}
            Seen::Changed => {}
        }
    }
    Ok(RunOutcome {
        steps,
        end: end_of(world),
    })
}

/// How a run is said to have ended that a key interrupted, or did not.
pub(crate) fn leaving<A: Allocator>(left: bool, ran: RunOutcome, world: &World<A>) -> RunOutcome
    ensures steps { result.steps ≡ ran.steps }
    ensures end { result.end ≡ leaving left ran.end (view world.now) }
{
    if !left {
        return ran;
    }
    RunOutcome {
        steps: ran.steps,
        end: End::Interrupted(world.cpu().pc),
    }
}

/// Runs an image by a schedule up to where it is stopped, and writes what was punched in the end, even if the run
/// broke off, and the summary in this form.
fn run_reported<
    A: Allocator + Copy,
    S: Scheduler + OperatorPresence,
    W: ByteSink,
    T: ByteSink,
    P: ByteSink,
>(
    alloc: A,
    image: &Image,
    schedule: &mut S,
    stops: &Stops,
    options: RunOptions,
    form: SummaryForm<'_>,
    out: &mut Outputs<W, T, P>,
) -> Result<Status, Fault>
    requires writable { W.mark out.old.report ≡ false }
    requires typable { T.mark out.old.teletype ≡ false }
    requires punchable { P.mark out.old.punch ≡ false }
    requires readable { S.unread schedule.old ≡ false }
    requires few { S.steps_to_come schedule.old < 18446744073709551616 }
    ensures run { IfOk result (λ status.
        WritesAll (λ text printed punched.
        IsHeldToStop (S.brings schedule.old) options stops.now None form.entry (S.left schedule.new) image.now
        text printed punched status)
        (taken (W.taken out.old.report) (T.taken out.old.teletype) (P.taken out.old.punch))
        (taken (W.taken out.new.report) (T.taken out.new.teletype) (P.taken out.new.punch))) }
    ensures faults { IfErr result IsHeldFault }
    ensures marks { (W.mark out.new.report || T.mark out.new.teletype) || P.mark out.new.punch
        ≡ fails_to_write result }
    ensures reads { fails_to_read result ≡ true → S.unread schedule.new ≡ true }
    ensures read_told { S.unread schedule.new ≡ true →
        (fails_to_read result ≡ true) ⊎ (P.mark out.new.punch ≡ true) }
{
    let mut world = World::load(alloc, image, options.start, &Start::zero(), options.profile);
    let Outputs {
        report,
        teletype,
        punch,
    } = out;
    let ran = operate(&mut world, schedule, stops, options.trace, report, teletype);
    put(punch, world.punched())?;
    let came = ran?;
    let outcome = leaving(schedule.has_left(), came, &world);
    let text = closing_of(alloc, &outcome, &world, &form, &options.show)?;
    put(report, &text)?;
    Ok(status_of(outcome.end))
}

/// Runs an image by a schedule up to where it is stopped, and writes what was punched in the end, even if the run
/// broke off, the lines of the last instructions, if so many or all are requested, and the summary in this form.
pub(crate) fn run_scheduled<
    A: Allocator + Copy,
    S: Scheduler + OperatorPresence,
    W: ByteSink,
    T: ByteSink,
    P: ByteSink,
>(
    alloc: A,
    image: &Image,
    schedule: &mut S,
    stops: &Stops,
    last: Option<u32>,
    options: RunOptions,
    form: SummaryForm<'_>,
    out: &mut Outputs<W, T, P>,
) -> Result<Status, Fault>
    requires writable { W.mark out.old.report ≡ false }
    requires typable { T.mark out.old.teletype ≡ false }
    requires punchable { P.mark out.old.punch ≡ false }
    requires readable { S.unread schedule.old ≡ false }
    requires few { S.steps_to_come schedule.old < 18446744073709551616 }
    ensures run { IfOk result (λ status.
        WritesAll (λ text printed punched.
        IsHeldToStop (S.brings schedule.old) options stops.now last form.entry (S.left schedule.new) image.now
        text printed punched status)
        (taken (W.taken out.old.report) (T.taken out.old.teletype) (P.taken out.old.punch))
        (taken (W.taken out.new.report) (T.taken out.new.teletype) (P.taken out.new.punch))) }
    ensures faults { IfErr result IsHeldFault }
    ensures marks { (W.mark out.new.report || T.mark out.new.teletype) || P.mark out.new.punch
        ≡ fails_to_write result }
    ensures reads { fails_to_read result ≡ true → S.unread schedule.new ≡ true }
    ensures read_told { S.unread schedule.new ≡ true →
        (fails_to_read result ≡ true) ⊎ (P.mark out.new.punch ≡ true) }
{
    match last {
        None => run_reported(alloc, image, schedule, stops, options, form, out),
        Some(most) => run_with_last(alloc, image, schedule, stops, most, options, form, out),
    }
}

/// Shows that rounds are few.
fn are_few(rounds: u32)
    ensures { rounds < 18446744073709551616 }
{}

/// Runs a tape with an operator: the frames of one source are in the reader, the bytes of another are
/// the keys, and both are read before the run, as many bytes as there are rounds. What is printed is
/// typed as characters, what is punched is written as it is, and the trace, if it is requested, and
/// the summary, in the form that is requested, are the report. The run ends early as that of `run`, and
/// before the first step that is to stop it; the summary then says where that is, and shows the machine as
/// it was there. Nothing stops a run with [`crate::stopping::no_stops`]. Where `last` is given, the report has the lines
/// of the last instructions, so many or all, in place of a trace; which lines these are is tested and not proved.
///
/// # Errors
///
/// The tape's fault; `Device` where a read or a write failed; `NoMemory`. What went out before a write
/// failed is tested and not proved.
#[tactic(auto, using(crate::proofs::UnreadLemmas::takes_no_text))]
pub fn run_session<
    A: Allocator + Copy,
    R: ByteSource,
    F: ByteSource,
    K: ByteSource,
    W: ByteSink,
    T: ByteSink,
    P: ByteSink,
>(
    alloc: A,
    tape: &mut R,
    reader: &mut F,
    keys: &mut K,
    options: SessionOptions,
    stops: &Stops,
    last: Option<u32>,
    form: SummaryForm<'_>,
    out: &mut Outputs<W, T, P>,
) -> Result<Status, Fault>
    requires readable { R.mark tape.old ≡ false }
    requires reader_readable { F.mark reader.old ≡ false }
    requires keys_readable { K.mark keys.old ≡ false }
    requires writable { W.mark out.old.report ≡ false }
    requires typable { T.mark out.old.teletype ≡ false }
    requires punchable { P.mark out.old.punch ≡ false }
    // What is written, typed and punched is that of the run of the events that come, up to the first step that stops
    // it, behind the lines of the last instructions where these are requested.
    ensures run { IfOk result (λ status.
        WritesAll (IsSessionToStop options stops.now last form.entry (R.remaining tape.old)
        (F.remaining reader.old) (K.remaining keys.old) status)
        (taken (W.taken out.old.report) (T.taken out.old.teletype) (P.taken out.old.punch))
        (taken (W.taken out.new.report) (T.taken out.new.teletype) (P.taken out.new.punch))) }
    ensures faults { IfErr result (IsSessionFault options.run.rounds
        (input (R.mark tape.new) (R.remaining tape.old) (R.remaining tape.new))
        (input (F.mark reader.new) (F.remaining reader.old) (F.remaining reader.new))
        (input (K.mark keys.new) (K.remaining keys.old) (K.remaining keys.new))) }
    // Nothing is written where the tape is refused or a read failed.
    ensures nothing { IfErr result (λ fault. is_fault_of_tape fault ≡ true → out.new ≡ out.old) }
    ensures nothing_after_failure { fails_to_read result ≡ true → out.new ≡ out.old }
    // A write failed if and only if the answer says so, and so did a read.
    ensures marks { (W.mark out.new.report || T.mark out.new.teletype) || P.mark out.new.punch
        ≡ fails_to_write result }
    ensures reads { (R.mark tape.new || F.mark reader.new) || K.mark keys.new
        ≡ fails_to_read result }
    // No input is read after one that is refused, or whose read failed.
    ensures unread { IfErr result (λ fault. is_fault_of_tape fault ≡ true →
        (reader.new ≡ reader.old) × (keys.new ≡ keys.old)) }
    ensures unread_after_failure { R.mark tape.new ≡ true →
        (reader.new ≡ reader.old) × (keys.new ≡ keys.old) }
    ensures keys_unread_after_failure { F.mark reader.new ≡ true → keys.new ≡ keys.old }
    // No key is read before the frames have come whole.
    ensures keys_unread { (keys.new ≡ keys.old)
        ⊎ Gave (F.remaining reader.old) (F.remaining reader.new)
        (λ given. AreFirst options.run.rounds (F.remaining reader.old) given) }
    // The tape is not read past its limit, and of frames and keys no more are taken than there are
    // rounds.
    ensures takes_tape { TakesTape (R.remaining tape.old) (R.remaining tape.new) }
    ensures takes_frames { TakesAtMost options.run.rounds
        (F.remaining reader.old) (F.remaining reader.new) }
    ensures takes_keys { TakesAtMost options.run.rounds
        (K.remaining keys.old) (K.remaining keys.new) }
{
    let image = tape_from(tape)?;
    let frames = bytes_from(alloc, reader, options.run.rounds)?;
    let struck = bytes_from(alloc, keys, options.run.rounds)?;
    let mut operator = Operator::new(
        options.switches,
        options.run.rounds,
        &frames,
        &struck,
        options.mark,
    );
    are_few(options.run.rounds);
    run_scheduled(
        alloc,
        &image,
        &mut operator,
        stops,
        last,
        options.run,
        form,
        out,
    )
}
