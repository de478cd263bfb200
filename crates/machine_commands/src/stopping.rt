//! The run of an image up to where it is stopped.

ghost use Rattle.std.specs.Prelude.{◌≡◌, ◌<◌, ◌/◌, ◌*◌, ◌&&◌, ◌++◌, true, false, None, Some, get_or, is_none, length, take, IfOk, IfErr, OnErr};
ghost use Rattle.wordset.specs.Lanes.{words};
ghost use Rattle.wordset.specs.Words.{nothing};
ghost use Rattle.command_parts.specs.Faults.{fails_to_write, IsRunFault};
ghost use Rattle.command_parts.specs.Writes.{Writes};
ghost use Rattle.peripherals.specs.World.{view, profile_of};
ghost use Rattle.peripherals.specs.declared.Event.{Event};
ghost use Rattle.machine_commands.specs.Course.{ends_at_halt, events_in};
ghost use Rattle.machine_commands.specs.Follows.{Follows};
ghost use Rattle.machine_commands.specs.Last.{IsCut, last_lines, told};
ghost use Rattle.machine_commands.specs.Running.{IsRunTold, fresh};
ghost use Rattle.machine_commands.specs.Stopping.{IsRunWithStops};
ghost use Rattle.machine_commands.specs.Stops.{IsStop};
ghost use Rattle.machine_commands.specs.Summary.{closing};

use crate::follow::{Course, End, RunOutcome, follow};
use crate::last::last_lines;
use crate::running::{run_course, status_of};
use crate::stops::stop_in;
use crate::summary::push_closing;
use bin_tape::Image;
use command_parts::options::{RunOptions, Stops, SummaryForm};
use command_parts::status::{Fault, Status};
use command_parts::text_sink::TextSink;
use peripherals::{NoMemory, Start, World};
use std::alloc::{AllocError, Allocator};
use streams::{ByteSink, put};
use wordset::WordSet;

/// What never stops a run.
pub fn no_stops() -> Stops
    ensures place { result.place ≡ None }
    ensures written { words result.written ≡ nothing }
    ensures read { words result.read ≡ nothing }
{
    Stops {
        place: None,
        times: 1,
        written: WordSet::empty(),
        read: WordSet::empty(),
    }
}

/// How many whole rounds come before an event of some rounds.
fn rounds_before(rounds: u32, count: usize) -> u32
    requires { count < rounds * 3 }
    ensures { result ≡ count / 3 }
{
    rounds.min((count / 3) as u32)
}

/// The first events of a course, so many. Of rounds these are whole rounds.
#[tactic(auto, using(crate::proofs::StoppingLemmas::first_rounds, crate::proofs::FollowLemmas::rounds_length))]
fn first<'e>(course: &Course<'e>, count: usize) -> Course<'e>
    requires within { count < length (events_in course.now) }
    requires step { get_or (events_in course.now) count Event.Step ≡ Event.Step }
    ensures events { events_in result ≡ take count (events_in course.now) }
    ensures ends { ends_at_halt result ≡ ends_at_halt course.now }
{
    match course {
        Course::Rounds(rounds) => Course::Rounds(rounds_before(*rounds, count)),
        Course::Listed(events) => Course::Listed(&events[..count]),
    }
}

/// After how many events of a course the run of an image is stopped; none if it is not.
fn stop_of<A: Allocator + Copy>(
    alloc: A,
    image: &Image,
    options: &RunOptions,
    stops: &Stops,
    course: &Course<'_>,
) -> Result<Option<usize>, NoMemory>
    ensures { IfOk result (IsStop stops.now options.now.profile (ends_at_halt course.now)
        (events_in course.now) (fresh image.now options.now.start)) }
{
    let mut world = World::load(alloc, image, options.start, &Start::zero(), options.profile);
    stop_in(&mut world, course, stops)
}

/// What comes of a course before its run is stopped, or all of it.
#[derive(Clone, Copy)]
pub(crate) struct CoursePrefix<'e> {
    pub(crate) course: Course<'e>,
    stopped: bool,
}

/// The part of a course up to where the run of an image is stopped.
pub(crate) fn cut_of<'e, A: Allocator + Copy>(
    alloc: A,
    image: &Image,
    options: &RunOptions,
    stops: &Stops,
    course: &Course<'e>,
) -> Result<CoursePrefix<'e>, NoMemory>
    ensures cut { IfOk result (λ cut. IsCut stops.now options.now (ends_at_halt course.now)
        (events_in course.now) (events_in cut.course) (fresh image.now options.now.start) cut.stopped) }
    ensures ends { IfOk result (λ cut. ends_at_halt cut.course ≡ ends_at_halt course.now) }
{
    match stop_of(alloc, image, options, stops, course) {
        Ok(Some(count)) => Ok(CoursePrefix {
            course: first(course, count),
            stopped: true,
        }),
        Ok(None) => Ok(CoursePrefix {
            course: *course,
            stopped: false,
        }),
        Err(NoMemory) => Err(NoMemory),
    }
}

/// How a run is said to have ended.
pub(crate) fn told<A: Allocator>(stopped: bool, ran: &RunOutcome, world: &World<A>) -> RunOutcome
    ensures steps { result.steps ≡ ran.now.steps }
    ensures end { result.end ≡ told stopped ran.now.end (view world.now) }
{
    RunOutcome {
        steps: ran.steps,
        end: if stopped {
            End::Stopped(world.cpu().pc)
        } else {
            ran.end
        },
    }
}

/// The last lines of a trace, the summary and the cells that are to be shown.
fn last_text<A: Allocator, B: Allocator>(
    alloc: A,
    trace: &[u8],
    most: u32,
    outcome: &RunOutcome,
    world: &World<B>,
    show: &WordSet,
) -> Result<Vec<u8, A>, AllocError>
    ensures { IfOk result (λ text. text.items ≡ last_lines most trace.now
        ++ closing (words show.now) outcome.now.end (view world.now) outcome.now.steps) }
{
    let mut text = Vec::new(alloc);
    text.extend_from_slice(last_lines(trace, most))?;
    push_closing(&mut text, &SummaryForm::WHOLE, outcome, world, show)?;
    Ok(text)
}

/// How far a run came, and its trace.
#[derive(Drop)]
struct TracedRun<A: Allocator> {
    outcome: RunOutcome,
    lines: Vec<u8, A>,
}

/// Lets a world go through a course, and keeps the trace.
fn traced_run<A: Allocator, B: Allocator>(
    alloc: A,
    world: &mut World<B>,
    course: &Course<'_>,
) -> Result<TracedRun<A>, NoMemory>
    ensures { IfOk result (λ run. Follows (profile_of world.old) (ends_at_halt course.now)
        (events_in course.now) (view world.old) run.lines.items run.outcome.steps run.outcome.end
        (view world.new)) }
{
    let mut trace = TextSink::new(alloc);
    let Ok(outcome) = follow(world, &mut trace, true, course) else {
        return Err(NoMemory);
    };
    Ok(TracedRun {
        outcome,
        lines: trace.into_text(),
    })
}

/// Lets an image's machine go through a course, which may be the part before a step that stops the run, and writes the
/// last lines of its trace, the summary, and the cells that are to be shown.
fn run_with_last<A: Allocator + Copy, W: ByteSink>(
    alloc: A,
    image: &Image,
    options: &RunOptions,
    most: u32,
    course: &Course<'_>,
    stopped: bool,
    out: &mut W,
) -> Result<Status, Fault>
    requires { W.mark out.old ≡ false }
    ensures run { IfOk result (λ status. Writes
        (λ text. IsRunTold options.now (Some most) stopped (ends_at_halt course.now) (events_in course.now)
        image.now text status)
        (W.taken out.old) (W.taken out.new)) }
    ensures faults { IfErr result IsRunFault }
    ensures nothing { OnErr result (W.mark out.new ≡ false → W.taken out.new ≡ W.taken out.old) }
    ensures marks { W.mark out.new ≡ fails_to_write result }
{
    let mut world = World::load(alloc, image, options.start, &Start::zero(), options.profile);
    let run = traced_run(alloc, &mut world, course)?;
    let outcome = told(stopped, &run.outcome, &world);
    let text = last_text(alloc, &run.lines, most, &outcome, &world, &options.show)?;
    put(out, &text)?;
    Ok(status_of(outcome.end))
}

/// Runs an image up to the step before which it is stopped, and writes the summary, before it the trace if it is
/// requested, or the lines of its last instructions if so many or all are requested, and after it the cells that are to
/// be shown. The summary then says where the run was stopped, and shows the machine as it was there. A run that nothing
/// stops ends as [`crate::running::run`] says; how far that goes is up to the course, and `rounds` of the options is not
/// looked at.
///
/// # Errors
///
/// `Device` where a write failed; what went out before that is tested and not proved. `NoMemory`, where last
/// instructions are requested even if the trace of the whole run has no room.
pub fn run_with_stops<A: Allocator + Copy, W: ByteSink>(
    alloc: A,
    image: &Image,
    options: &RunOptions,
    stops: &Stops,
    last: Option<u32>,
    course: &Course<'_>,
    out: &mut W,
) -> Result<Status, Fault>
    requires { W.mark out.old ≡ false }
    // What is written is that of the run of the course, up to the first step that stops it.
    ensures run { IfOk result (λ status. Writes
        (λ text. IsRunWithStops options.now stops.now last (ends_at_halt course.now) (events_in course.now)
        image.now text status)
        (W.taken out.old) (W.taken out.new)) }
    ensures faults { IfErr result IsRunFault }
    // A fault that is not that of a write leaves the output as it was, unless there is a trace.
    ensures nothing { OnErr result (W.mark out.new ≡ false →
        (is_none last && options.now.trace) ≡ false → W.taken out.new ≡ W.taken out.old) }
    // A write failed if and only if the answer says so.
    ensures marks { W.mark out.new ≡ fails_to_write result }
{
    let cut = cut_of(alloc, image, options, stops, course)?;
    match last {
        None => run_course(alloc, image, *options, &cut.course, cut.stopped, out),
        Some(most) => run_with_last(alloc, image, options, most, &cut.course, cut.stopped, out),
    }
}
