//! A declared run, in which a CONTINUE counts at a pause alone: its trace, and where it is stopped.

ghost use Rattle.std.specs.Prelude.{◌≡◌, ◌++◌, ◌+◌, ◌<◌, ◌≤◌, false, true, Some, is_some, IfOk, OnOk};
ghost use Rattle.peripherals.specs.EventOutcomes.{seen_of};
ghost use Rattle.peripherals.specs.World.{view, profile_of};
ghost use Rattle.declaration.specs.DeclarationInCode.{meaning};
ghost use Rattle.policy.specs.Runs.{HappensDeclared};
ghost use Rattle.machine_commands.specs.DeclaredRun.{Traces, IsDeclaredCut, IsDeclaredStop, IsLinesBefore, is_continue, last_of, stopped_line, up_to};
ghost use Rattle.policy.specs.WatchedSteps.{waits};
ghost use Rattle.machine_commands.specs.Follows.{counted};
ghost use Rattle.machine_commands.specs.Running.{fresh};
ghost use Rattle.machine_commands.specs.Trace.{trace_of};

use crate::follow::{End, RunOutcome, advance};
use crate::last::last_lines;
use crate::session::visits_past;
use crate::shown_cells::{first, happening};
use crate::summary::push_state;
use bin_tape::Image;
use command_parts::options::Stops;
use command_parts::text_sink::TextSink;
use declaration::Declaration;
use peripherals::{Event, NoMemory, Seen, Start, World};
use policy::Watched;
use std::alloc::{AllocError, Allocator};
use streams::ByteSink;

/// Whether the machine is halted, and not at a declared pause.
pub(crate) fn waits<A: Allocator, D: Allocator>(
    world: &World<A>,
    declaration: &Declaration<D>,
) -> bool
    ensures { result ≡ waits (meaning declaration.now) (view world.now).halted_at }
{
    match world.halted_at() {
        None => false,
        Some(at) => !declaration.is_pause(at),
    }
}

/// Whether an event is the CONTINUE of the operator.
pub(crate) fn is_continue(event: &Event) -> bool
    ensures { result ≡ is_continue event.now }
{
    matches!(event, Event::Continue)
}

/// How many instructions were carried out by what was seen.
fn counted(seen: &Seen) -> usize
    ensures { result ≡ counted seen.now }
{
    match seen {
        Seen::Ran | Seen::Halted => 1,
        _ => 0,
    }
}

/// Applies one event of a declared run, and keeps its line if it carried out an instruction. Tells how many
/// instructions it carried out.
fn go<A: Allocator, B: Allocator, D: Allocator>(
    world: &mut World<B>,
    declaration: &Declaration<D>,
    trace: &mut TextSink<A>,
    event: Event,
) -> Result<usize, NoMemory>
    requires profile { profile_of world.old ≡ (meaning declaration.now).profile }
    requires room { trace.old.failed ≡ false }
    ensures happens { OnOk result
        (HappensDeclared (meaning declaration.now) (view world.old) event (view world.new)) }
    ensures counts { IfOk result (λ steps.
        steps ≡ counted (seen_of (meaning declaration.now).profile (view world.old) event)) }
    ensures line { OnOk result (trace.new.text.items ≡ trace.old.text.items ++
        trace_of (meaning declaration.now).profile (view world.old) event (view world.new)) }
    ensures few { IfOk result (λ steps. steps ≤ 1) }
    ensures profile { profile_of world.new ≡ profile_of world.old }
    ensures room { OnOk result (trace.new.failed ≡ false) }
{
    if is_continue(&event) {
        if waits(world, declaration) {
            return Ok(0);
        }
    }
    match advance(world, trace, true, event) {
        Ok(seen) => Ok(counted(&seen)),
        Err(_) => Err(NoMemory),
    }
}

/// How many instructions a declared run carried out, and its trace.
#[derive(Drop)]
struct DeclaredTrace<A: Allocator> {
    steps: usize,
    lines: Vec<u8, A>,
}

/// Lets a world go through the events of a declared run, and keeps the trace.
fn go_through<A: Allocator, B: Allocator, D: Allocator>(
    alloc: A,
    world: &mut World<B>,
    declaration: &Declaration<D>,
    events: &[Event],
) -> Result<DeclaredTrace<A>, NoMemory>
    requires { profile_of world.old ≡ (meaning declaration.now).profile }
    ensures goes { IfOk result (λ run. Traces (meaning declaration.now) events.now (view world.old)
        run.lines.items run.steps (view world.new)) }
{
    let mut trace = TextSink::new(alloc);
    let mut steps = 0;
    for index in 0..events.len() {
        let event = events[index];
        steps += go(world, declaration, &mut trace, event)?;
    }
    let TextSink { text, .. } = trace;
    Ok(DeclaredTrace { steps, lines: text })
}

/// Applies one event of a declared run.
fn happen<B: Allocator, D: Allocator>(
    world: &mut World<B>,
    declaration: &Declaration<D>,
    event: Event,
) -> Result<(), NoMemory>
    requires profile { profile_of world.old ≡ (meaning declaration.now).profile }
    ensures happens { OnOk result
        (HappensDeclared (meaning declaration.now) (view world.old) event (view world.new)) }
    ensures profile { profile_of world.new ≡ profile_of world.old }
{
    if is_continue(&event) {
        if waits(world, declaration) {
            return Ok(());
        }
    }
    match world.apply(event) {
        Ok(_) => Ok(()),
        Err(NoMemory) => Err(NoMemory),
    }
}

/// After how many events a declared run is stopped; none if it is not.
fn declared_stop_of<A: Allocator + Copy, D: Allocator>(
    alloc: A,
    image: &Image,
    declaration: &Declaration<D>,
    stops: &Stops,
    events: &[Event],
) -> Result<Option<usize>, NoMemory>
    ensures { IfOk result (IsDeclaredStop stops.now (meaning declaration.now) events.now
        (fresh image.now (meaning declaration.now).start)) }
{
    let start = Start::zero();
    let mut world = World::load(
        alloc,
        image,
        declaration.start(),
        &start,
        declaration.profile(),
    );
    let mut visits = 0;
    for index in 0..events.len() {
        let event = events[index];
        let Some(more) = visits_past(stops, visits, &world, &event) else {
            return Ok(Some(index));
        };
        visits = more;
        happen(&mut world, declaration, event)?;
    }
    Ok(None)
}

/// The events of a declared run up to where it is stopped, or all of them.
#[derive(Clone, Copy)]
pub(crate) struct EventPrefix<'e> {
    pub(crate) events: &'e [Event],
    pub(crate) stopped: bool,
}

/// The events up to one, or all of them.
fn up_to(events: &[Event], stop: Option<usize>) -> &[Event]
    ensures { result.now ≡ up_to stop events.now }
{
    match stop {
        None => events,
        Some(count) => first(events, count),
    }
}

/// The part of the events of a declared run up to where it is stopped.
pub(crate) fn declared_cut<'e, A: Allocator + Copy, D: Allocator>(
    alloc: A,
    image: &Image,
    declaration: &Declaration<D>,
    stops: &Stops,
    events: &'e [Event],
) -> Result<EventPrefix<'e>, NoMemory>
    ensures { IfOk result (λ cut. IsDeclaredCut stops.now (meaning declaration.now) image.now events.now
        cut.events.now cut.stopped) }
{
    let stop = declared_stop_of(alloc, image, declaration, stops, events)?;
    Ok(EventPrefix {
        events: up_to(events, stop),
        stopped: stop.is_some(),
    })
}

/// Adds the last lines of a trace, so many, if any are requested.
fn push_last<A: Allocator>(
    text: &mut Vec<u8, A>,
    last: Option<u32>,
    lines: &[u8],
) -> Result<(), AllocError>
    ensures { OnOk result (text.new.items ≡ text.old.items ++ last_of last lines.now) }
{
    match last {
        None => Ok(()),
        Some(most) => text.extend_from_slice(last_lines(lines, most)),
    }
}

/// Adds the line that says where a run was stopped, if it was and violated no rule before.
fn push_stopped<A: Allocator, B: Allocator>(
    text: &mut Vec<u8, A>,
    stopped: bool,
    watched: Watched,
    world: &World<B>,
    steps: usize,
) -> Result<(), AllocError>
    ensures { OnOk result (text.new.items ≡ text.old.items
        ++ stopped_line stopped watched (view world.now) steps) }
{
    if !stopped {
        return Ok(());
    }
    match watched {
        Watched::Clean => {
            let outcome = RunOutcome {
                steps: steps as u64,
                end: End::Stopped(world.cpu().pc),
            };
            push_state(text, &outcome, world)
        }
        Watched::Broken { .. } => Ok(()),
    }
}

/// What comes before what is told of a watched run: the lines of its last instructions, and where it was stopped.
pub(crate) fn lines_before<A: Allocator + Copy, D: Allocator>(
    alloc: A,
    image: &Image,
    declaration: &Declaration<D>,
    cut: &EventPrefix<'_>,
    last: Option<u32>,
) -> Result<Vec<u8, A>, NoMemory>
    ensures { IfOk result (λ text. IsLinesBefore image.now (meaning declaration.now) cut.now.events.now
        cut.now.stopped last text.items) }
{
    let start = Start::zero();
    let watched = policy::watch(alloc, image, declaration, &start, cut.events)?;
    let mut world = World::load(
        alloc,
        image,
        declaration.start(),
        &start,
        declaration.profile(),
    );
    let run = go_through(
        alloc,
        &mut world,
        declaration,
        happening(watched, cut.events),
    )?;
    let mut text = Vec::new(alloc);
    push_last(&mut text, last, &run.lines)?;
    push_stopped(&mut text, cut.stopped, watched, &world, run.steps)?;
    Ok(text)
}
