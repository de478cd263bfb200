//! What is told of a watched run up to where it is stopped, with its last instructions.

ghost use Rattle.std.specs.Prelude.{◌≡◌, None, IfOk, IfErr};
ghost use Rattle.wordset.specs.Lanes.{words};
ghost use Rattle.declaration.specs.DeclarationInCode.{meaning};
ghost use Rattle.peripherals.specs.Operator.{plan_of};
ghost use Rattle.peripherals.specs.World.{profile_of, view};
ghost use Rattle.command_parts.specs.Answers.{IsMemoryFault};
ghost use Rattle.command_parts.specs.Messages.{plain};
ghost use Rattle.machine_commands.specs.Continued.{IsLine, IsWatch, came_by};
ghost use Rattle.machine_commands.specs.Session.{plan_for};
ghost use Rattle.machine_commands.specs.StoppedWatch.{IsPlanToStop, IsWatchToStop};

use crate::continuing::{continued_events_of, how_far_line};
use crate::declared_run::{declared_cut, lines_before};
use crate::messages::{RunMessage, watched_line, watched_status, why_of};
use crate::progress::{AvailableInput, offered_by};
use crate::shown_cells::shown_of;
use bin_tape::Image;
use command_parts::options::{SessionOptions, Stops};
use command_parts::status::Fault;
use declaration::Declaration;
use peripherals::{Event, NoMemory, Operator, Start, World};
use policy::Watched;
use std::alloc::Allocator;
use wordset::WordSet;

/// How a watched run is told.
#[derive(Clone, Copy)]
pub struct WatchOptions<'s> {
    /// Where the run is stopped.
    pub stops: &'s Stops,
    /// How many of its last instructions are shown, if that is requested.
    pub last: Option<u32>,
    /// Whether it is said what violates a rule, or how far the run got.
    pub explained: bool,
    /// The cells whose words are shown when the run is over.
    pub show: &'s WordSet,
}

/// The line of a watched run: what was seen; or, with a number of times that the operator may press CONTINUE, how far the
/// run went, or the rule that is violated.
fn line_of<A: Allocator + Copy, D: Allocator>(
    alloc: A,
    image: &Image,
    declaration: &Declaration<D>,
    events: &[Event],
    watched: Watched,
    continues: Option<u32>,
) -> Result<Vec<u8, A>, NoMemory>
    ensures { IfOk result (λ text. IsLine continues image.now (meaning declaration.now) events.now watched
        text.items) }
{
    match continues {
        None => Ok(watched_line(alloc, watched)?),
        Some(times) => how_far_line(alloc, image, declaration, events, watched, times),
    }
}

/// What is told of the run of some events, by what there was to come: its line, and below it, if it is to be explained, how far
/// the run came or what the step is about to do that violates a rule, and the cells that are to be shown.
pub(crate) fn watch_of<A: Allocator + Copy, D: Allocator>(
    alloc: A,
    image: &Image,
    declaration: &Declaration<D>,
    events: &[Event],
    offered: AvailableInput,
    continues: Option<u32>,
    telling: &WatchOptions<'_>,
) -> Result<RunMessage<A>, Fault>
    ensures told { IfOk result (λ run. IsWatch continues telling.now.explained
        (words telling.now.show.now) image.now (meaning declaration.now) events.now run.status
        run.lines.items (plain run.details)) }
    ensures faults { IfErr result IsMemoryFault }
{
    let (explained, show) = (telling.explained, telling.show);
    let watched = policy::watch(alloc, image, declaration, &Start::zero(), events)?;
    let lines = line_of(alloc, image, declaration, events, watched, continues)?;
    let mut details = why_of(
        alloc,
        image,
        declaration,
        events,
        offered,
        watched,
        explained,
    )?;
    let shown = shown_of(alloc, image, declaration, events, watched, show)?;
    details.push_lines(&shown)?;
    let status = watched_status(watched);
    Ok(RunMessage {
        lines,
        details,
        status,
    })
}

/// What is told of the run of some events up to where it is stopped.
fn told_to_stop<A: Allocator + Copy, D: Allocator>(
    alloc: A,
    image: &Image,
    declaration: &Declaration<D>,
    events: &[Event],
    offered: AvailableInput,
    continues: Option<u32>,
    telling: &WatchOptions<'_>,
) -> Result<RunMessage<A>, Fault>
    ensures told { IfOk result (λ run. IsWatchToStop continues telling.now.stops.now telling.now.last
        telling.now.explained (words telling.now.show.now) image.now (meaning declaration.now) events.now
        run.status run.lines.items (plain run.details)) }
    ensures faults { IfErr result IsMemoryFault }
{
    let cut = declared_cut(alloc, image, declaration, telling.stops, events)?;
    let mut lines = lines_before(alloc, image, declaration, &cut, telling.last)?;
    let seen = watch_of(
        alloc,
        image,
        declaration,
        cut.events,
        offered,
        continues,
        telling,
    )?;
    lines.extend_from_slice(&seen.lines)?;
    Ok(RunMessage {
        lines,
        details: seen.details,
        status: seen.status,
    })
}

/// What `watch` tells of a list of events, up to where their run is stopped: the lines of the last instructions, if
/// so many are requested, the line that says where it was stopped, and what it tells of the events up to there.
///
/// # Errors
///
/// `NoMemory`.
#[inline(never)]
pub fn watch_message_to_stop<A: Allocator + Copy, D: Allocator>(
    alloc: A,
    image: &Image,
    declaration: &Declaration<D>,
    events: &[Event],
    telling: &WatchOptions<'_>,
) -> Result<RunMessage<A>, Fault>
    ensures told { IfOk result (λ run. IsWatchToStop None telling.now.stops.now telling.now.last
        telling.now.explained (words telling.now.show.now) image.now (meaning declaration.now) events.now
        run.status run.lines.items (plain run.details)) }
    ensures faults { IfErr result IsMemoryFault }
{
    let offered = offered_by(events);
    told_to_stop(alloc, image, declaration, events, offered, None, telling)
}

/// The events that an operator brings from here on, who presses CONTINUE at declared pauses if there is a number of
/// times.
fn events_that_come<A: Allocator + Copy, B: Allocator, D: Allocator>(
    alloc: A,
    world: &mut World<B>,
    operator: &mut Operator<'_>,
    declaration: &Declaration<D>,
    continues: Option<u32>,
) -> Result<Vec<Event, A>, NoMemory>
    requires first { operator.old.last ≡ None }
    requires profile { profile_of world.old ≡ (meaning declaration.now).profile }
    ensures come { IfOk result (λ events. came_by continues (plan_of operator.old)
        (meaning declaration.now) (view world.old) events.items) }
{
    match continues {
        None => continued_events_of(alloc, world, operator, declaration, 0),
        Some(times) => continued_events_of(alloc, world, operator, declaration, times),
    }
}

/// What `watch` tells of a run with an operator, by the frames in the reader and the keys to strike, up to where it is
/// stopped. With a number of times the operator presses CONTINUE at declared pauses, at most so many times.
///
/// # Errors
///
/// `NoMemory`.
#[inline(never)]
pub fn watch_session_message_to_stop<A: Allocator + Copy, D: Allocator>(
    alloc: A,
    image: &Image,
    declaration: &Declaration<D>,
    frames: &[u8],
    keys: &[u8],
    options: &SessionOptions,
    continues: Option<u32>,
    telling: &WatchOptions<'_>,
) -> Result<RunMessage<A>, Fault>
    ensures told { IfOk result (λ run. IsPlanToStop continues
        (plan_for options.now frames.now keys.now) telling.now.stops.now telling.now.last
        telling.now.explained (words telling.now.show.now) image.now (meaning declaration.now)
        run.status run.lines.items (plain run.details)) }
    ensures faults { IfErr result IsMemoryFault }
{
    let (rounds, mark) = (options.run.rounds, options.mark);
    let mut operator = Operator::new(options.switches, rounds, frames, keys, mark);
    let start = Start::zero();
    let mut world = World::load(
        alloc,
        image,
        declaration.start(),
        &start,
        declaration.profile(),
    );
    let offered = AvailableInput {
        frames: frames.len(),
        keys: keys.len(),
    };
    let events = events_that_come(alloc, &mut world, &mut operator, declaration, continues)?;
    told_to_stop(
        alloc,
        image,
        declaration,
        &events,
        offered,
        continues,
        telling,
    )
}
