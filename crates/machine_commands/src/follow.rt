//! Driving a world by events, in rounds or from a list.

ghost use Rattle.std.specs.Prelude.{◌≡◌, ◌<◌, true, false, get_or, length, IfOk, IfErr, OnErr, OnOk};
ghost use Rattle.std.specs.Io.KnownBytes.{Appends};
ghost use Rattle.streams.specs.Bytes.{AppendsFront};
ghost use Rattle.peripherals.specs.Events.{Happens};
ghost use Rattle.peripherals.specs.EventOutcomes.{puts_out, seen_of};
ghost use Rattle.peripherals.specs.World.{view, profile_of};
ghost use Rattle.command_parts.specs.Faults.{IsRunFault, fails_to_write};
ghost use Rattle.machine_commands.specs.Follows.{end_of};
ghost use Rattle.machine_commands.specs.Course.{Ran, RanIntoLine, RanToOutput, ends_at_halt, event_of_round, events_in};
ghost use Rattle.machine_commands.specs.Trace.{trace_of, traced};

use crate::trace::put_trace;
use command_parts::status::Fault;
use peripherals::{Event, Seen, World};
use std::alloc::Allocator;
use streams::ByteSink;
use word12::Word;

/// How a run ended, and where.
#[derive(Clone, Copy, PartialEq, Eq, Debug)]
pub enum End {
    /// At the HLT with this address.
    Halted(Word),
    /// At an unsupported word with this address, which changed nothing.
    Unsupported(Word),
    /// The rounds or the events were used up, and the program counter has this address.
    Bound(Word),
    /// The run was stopped as it was asked to be, before the instruction at this address.
    Stopped(Word),
    /// The key that interrupts a session was struck, and the program counter has this address.
    Interrupted(Word),
}

/// How far a run came.
#[derive(Clone, Copy, PartialEq, Eq, Debug)]
pub struct RunOutcome {
    /// How many instructions were carried out.
    pub steps: u64,
    /// How the run ended.
    pub end: End,
}

/// What happens in a run, one event after the other.
#[derive(Clone, Copy, Debug)]
pub enum Course<'e> {
    /// So many rounds: an instruction is tried, then the printer and the punch get done. A halt ends
    /// the run.
    Rounds(u32),
    /// These events. The run goes on after a halt.
    Listed(&'e [Event]),
}

impl Course<'_> {
    /// How many events there are.
    #[tactic(auto, using(crate::proofs::FollowLemmas::rounds_length))]
    pub fn len(&self) -> usize
        ensures { result ≡ length (events_in self.now) }
    {
        match self {
            Course::Rounds(count) => *count as usize * 3,
            Course::Listed(events) => events.len(),
        }
    }

    /// The event with this index.
    #[tactic(auto, using(crate::proofs::FollowLemmas::rounds_at))]
    pub fn event(&self, index: usize) -> Event
        requires { index < length (events_in self.now) }
        ensures { result ≡ get_or (events_in self.now) index Event.Step }
    {
        match self {
            Course::Rounds(_) => event_of_round(index % 3),
            Course::Listed(events) => match events.get(index) {
                Some(event) => *event,
                None => Event::Step,
            },
        }
    }

    /// A halt ends the run.
    pub fn ends_at_halt(&self) -> bool
        ensures { result ≡ ends_at_halt self.now }
    {
        matches!(self, Course::Rounds(_))
    }
}

/// The events of a round, by their index in it.
fn event_of_round(index: usize) -> Event
    ensures { result ≡ event_of_round index }
{
    match index {
        0 => Event::Step,
        1 => Event::PrinterDone,
        _ => Event::PunchDone,
    }
}

/// The end of a run that is not stuck.
pub(crate) fn end_of<A: Allocator>(world: &World<A>) -> End
    ensures { result ≡ end_of (view world.now) }
{
    match world.halted_at() {
        Some(at) => End::Halted(at),
        None => End::Bound(world.cpu().pc),
    }
}

/// Applies one event. A trace has a line for each instruction that was carried out.
#[inline(always)]
pub(crate) fn advance<A: Allocator, W: ByteSink>(
    world: &mut World<A>,
    out: &mut W,
    trace: bool,
    event: Event,
) -> Result<Seen, Fault>
    requires unmarked { W.mark out.old ≡ false }
    ensures happens { OnOk result
        (Happens (profile_of world.old) (view world.old) event (view world.new)) }
    ensures seen { IfOk result (λ seen.
        seen ≡ seen_of (profile_of world.old) (view world.old) event) }
    ensures wrote { OnOk result (Appends (W.taken out.old) (W.taken out.new)
        (traced trace (trace_of (profile_of world.old) (view world.old) event (view world.new)))) }
    ensures profile { profile_of world.new ≡ profile_of world.old }
    ensures faults { IfErr result IsRunFault }
    ensures marks { W.mark out.new ≡ fails_to_write result }
    ensures asked { W.mark out.new ≡ true → trace ≡ true }
    ensures broke { W.mark out.new ≡ true →
        Happens (profile_of world.old) (view world.old) event (view world.new) }
    ensures front { W.mark out.new ≡ true → AppendsFront (W.taken out.old) (W.taken out.new)
        (trace_of (profile_of world.old) (view world.old) event (view world.new)) }
    ensures silent { trace ≡ false → out.new ≡ out.old }
    ensures kept { OnErr result (W.mark out.new ≡ false → W.taken out.new ≡ W.taken out.old) }
    ensures unchanged { OnErr result (W.mark out.new ≡ false → view world.new ≡ view world.old) }
    // Memory is refused only for what is printed or punched.
    ensures wants { OnErr result (W.mark out.new ≡ false →
        puts_out (view world.old) event ≡ true) }
{
    if !trace {
        return Ok(world.apply(event)?);
    }
    let at = world.cpu().pc;
    let word = world.cpu().memory.get(at);
    let seen = world.apply(event)?;
    put_trace(out, &seen, at, word, world.cpu())?;
    Ok(seen)
}

/// Lets a world go through a course. The run ends early at an unsupported word, and at a halt where
/// the course says so.
pub fn follow<A: Allocator, W: ByteSink>(
    world: &mut World<A>,
    out: &mut W,
    trace: bool,
    course: &Course<'_>,
) -> Result<RunOutcome, Fault>
    requires unmarked { W.mark out.old ≡ false }
    ensures ran { IfOk result (λ outcome. Ran (profile_of world.old) (ends_at_halt course.now) trace
        (events_in course.now) (view world.old) outcome (view world.new)
        (W.taken out.old) (W.taken out.new)) }
    ensures profile { profile_of world.new ≡ profile_of world.old }
    ensures faults { IfErr result IsRunFault }
    ensures marks { W.mark out.new ≡ fails_to_write result }
    ensures asked { W.mark out.new ≡ true → trace ≡ true }
    ensures silent { trace ≡ false → out.new ≡ out.old }
    // If memory was refused, that was before an event that prints or punches: those before it led to
    // the world, and their whole lines went out.
    ensures refused { OnErr result (W.mark out.new ≡ false → RanToOutput
        (profile_of world.old) (ends_at_halt course.now) trace (events_in course.now)
        (view world.old) (view world.new) (W.taken out.old) (W.taken out.new)) }
    // If a line was not written whole, the world is the one after its event, and the whole lines of
    // the events before it went out.
    ensures broke { W.mark out.new ≡ true → RanIntoLine
        (profile_of world.old) (ends_at_halt course.now) (events_in course.now)
        (view world.old) (view world.new) (W.taken out.old) (W.taken out.new) }
{
    let mut steps = 0;
    for index in 0..course.len() {
        match advance(world, out, trace, course.event(index))? {
            Seen::Ran => steps += 1,
            Seen::Halted if course.ends_at_halt() => {
                return Ok(RunOutcome {
                    steps: steps + 1,
                    end: end_of(world),
                });
            }
            Seen::Halted => steps += 1,
            Seen::Unsupported(_) => {
                return Ok(RunOutcome {
                    steps,
                    end: End::Unsupported(world.cpu().pc),
                });
            }
            Seen::NotEnabled => {}
            Seen::Changed => {}
        }
    }
    Ok(RunOutcome {
        steps,
        end: end_of(world),
    })
}
