//! A run that goes on at declared pauses, and how far it went.

ghost use Rattle.std.specs.Prelude.{◌≡◌, ◌≤◌, None, Some, IfOk, true, false};
ghost use Rattle.peripherals.specs.Operator.{plan_of};
ghost use Rattle.peripherals.specs.World.{view, profile_of};
ghost use Rattle.declaration.specs.DeclarationInCode.{meaning};
ghost use Rattle.machine_commands.specs.Continued.{ComesOn, IsAtPause, IsLine, press_of, presses, went_text};
ghost use Rattle.machine_commands.specs.ContinuedParts.{IsPressed};
ghost use Rattle.machine_commands.specs.Schedule.{first_place};

use crate::messages::watched_line;
use crate::schedule::{ends, keep};
use bin_tape::Image;
use command_parts::text::push_place;
use declaration::Declaration;
use itoa::Buffer;
use peripherals::{Event, NoMemory, Operator, Start, World};
use policy::{Watched, run_declared};
use std::alloc::{AllocError, Allocator};

/// Whether the machine is halted at a declared pause.
fn is_at_pause<B: Allocator, D: Allocator>(world: &World<B>, declaration: &Declaration<D>) -> bool
    ensures yes { result ≡ true → IsAtPause (meaning declaration.now) (view world.now) }
    ensures no { result ≡ false → IsAtPause (meaning declaration.now) (view world.now) → ⊥ }
{
    match world.halted_at() {
        Some(at) => declaration.is_pause(at),
        None => false,
    }
}

/// Presses CONTINUE if the machine is halted at a declared pause and a press is left. Tells whether it was pressed.
fn press<A: Allocator, B: Allocator, D: Allocator>(
    world: &mut World<B>,
    declaration: &Declaration<D>,
    left: &mut u32,
    events: &mut Vec<Event, A>,
) -> Result<bool, NoMemory>
    requires profile { profile_of world.old ≡ (meaning declaration.now).profile }
    ensures pressed { IfOk result (λ pressed. IsPressed (meaning declaration.now) pressed
        left.old left.new (view world.old) (view world.new) events.old.items events.new.items) }
    ensures profile { profile_of world.new ≡ profile_of world.old }
{
    if *left == 0 {
        return Ok(false);
    }
    if !is_at_pause(world, declaration) {
        return Ok(false);
    }
    world.apply(Event::Continue)?;
    keep(events, &Event::Continue)?;
    *left -= 1;
    Ok(true)
}

/// The events that come with an operator who presses CONTINUE at declared pauses, at most so many times. They end early at
/// another halt and at an unsupported word.
pub(crate) fn continued_events_of<A: Allocator, B: Allocator, D: Allocator>(
    alloc: A,
    world: &mut World<B>,
    operator: &mut Operator<'_>,
    declaration: &Declaration<D>,
    continues: u32,
) -> Result<Vec<Event, A>, NoMemory>
    requires first { operator.old.last ≡ None }
    requires profile { profile_of world.old ≡ (meaning declaration.now).profile }
    ensures come { IfOk result (λ events. ComesOn (meaning declaration.now) continues
        (first_place (plan_of operator.old)) (view world.old) events.items) }
{
    let mut events = Vec::new(alloc);
    let mut left = continues;
    while let Some(event) = operator.next(world) {
        let seen = world.apply(event)?;
        keep(&mut events, &event)?;
        if ends(&seen) {
            let goes_on = press(world, declaration, &mut left, &mut events)?;
            if !goes_on {
                return Ok(events);
            }
        }
    }
    Ok(events)
}

/// How often CONTINUE is pressed by an event.
fn press_of(event: &Event) -> usize
    ensures presses { result ≡ press_of event.now }
    ensures once { result ≤ 1 }
{
    match event {
        Event::Continue => 1,
        _ => 0,
    }
}

/// How many of some events are CONTINUE.
fn presses(events: &[Event]) -> usize
    ensures { result ≡ presses events.now }
{
    let mut count = 0;
    for index in 0..events.len() {
        count += press_of(&events[index]);
    }
    count
}

/// The line that says how far a run went in which every step is legal.
fn went_line<A: Allocator, B: Allocator>(
    alloc: A,
    passed: usize,
    most: u32,
    world: &World<B>,
) -> Result<Vec<u8, A>, AllocError>
    ensures { IfOk result (λ text. text.items ≡ went_text passed most (view world.now)) }
{
    let mut text = Vec::new(alloc);
    text.extend_from_slice(b"clean: pauses passed ")?;
    text.extend_from_slice(Buffer::new().format(passed).as_bytes())?;
    text.extend_from_slice(b" of ")?;
    text.extend_from_slice(Buffer::new().format(most).as_bytes())?;
    text.extend_from_slice(b", ")?;
    match world.halted_at() {
        Some(at) => push_place(&mut text, b"halted at ", at)?,
        None => push_place(&mut text, b"the next instruction is at ", world.cpu().pc)?,
    }
    text.extend_from_slice(b"\n")?;
    Ok(text)
}

/// The line of a run that goes on at declared pauses: how far it went, or the rule that is
/// violated.
pub(crate) fn how_far_line<A: Allocator + Copy, D: Allocator>(
    alloc: A,
    image: &Image,
    declaration: &Declaration<D>,
    events: &[Event],
    watched: Watched,
    continues: u32,
) -> Result<Vec<u8, A>, NoMemory>
    ensures { IfOk result (λ text. IsLine (Some continues) image.now (meaning declaration.now) events.now watched
        text.items) }
{
    match watched {
        Watched::Clean => {
            let start = Start::zero();
            let world = run_declared(alloc, image, declaration, &start, events)?;
            Ok(went_line(alloc, presses(events), continues, &world)?)
        }
        Watched::Broken { .. } => Ok(watched_line(alloc, watched)?),
    }
}
