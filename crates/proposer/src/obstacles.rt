//! Whether an obstacle is one, as far as the run that meets it and the tape show that.

ghost use Rattle.std.specs.Prelude.{◌≡◌, take, true, IfOk};
ghost use Rattle.declaration.specs.DeclarationInCode.{meaning};
ghost use Rattle.peripherals.specs.World.{profile_of, view};
ghost use Rattle.proposer.specs.Obstacles.{IsObstacle, IsUnsupported, MeetsUnsupported};

use crate::learning::Obstacle;
use bin_tape::Image;
use declaration::Declaration;
use peripherals::{Event, NoMemory, Start, World};
use policy::run_declared;
use processor::{DecodedInstruction, is_auto_index};
use std::alloc::Allocator;
use word12::Word;

/// Whether a machine is about to execute the word at an address, and does not support it.
fn is_unsupported<A: Allocator>(world: &World<A>, at: Word) -> bool
    ensures { result ≡ true → IsUnsupported (profile_of world.now) (view world.now).state at }
{
    let cpu = world.cpu();
    match cpu.fetch() {
        DecodedInstruction::Unsupported(_) => cpu.pc == at,
        _ => false,
    }
}

/// The first of some events, so many.
fn first(events: &[Event], count: usize) -> &[Event]
    ensures { result.now ≡ take count events.now }
{
    if count < events.len() {
        &events[..count]
    } else {
        events
    }
}

/// Whether the events before the last one lead to a machine that is about to execute the word at an address, and does not
/// support it.
fn meets_unsupported<A: Allocator + Copy, D: Allocator>(
    alloc: A,
    image: &Image,
    declaration: &Declaration<D>,
    events: &[Event],
    at: Word,
) -> Result<bool, NoMemory>
    ensures { IfOk result (λ meets. meets ≡ true →
        MeetsUnsupported image.now (meaning declaration.now) events.now at) }
{
    let before = first(events, events.len().saturating_sub(1));
    let world = run_declared(alloc, image, declaration, &Start::zero(), before)?;
    Ok(is_unsupported(&world, at))
}

/// Whether an obstacle that a run meets by its last event is one, as far as the run and the tape show that.
pub(crate) fn is_obstacle<A: Allocator + Copy, D: Allocator>(
    alloc: A,
    image: &Image,
    declaration: &Declaration<D>,
    events: &[Event],
    obstacle: &Obstacle,
) -> Result<bool, NoMemory>
    ensures { IfOk result (λ is. is ≡ true →
        IsObstacle image.now (meaning declaration.now) events.now obstacle.now) }
{
    match obstacle {
        Obstacle::Unsupported(at) => meets_unsupported(alloc, image, declaration, events, *at),
        Obstacle::Unset(at) => Ok(image.get(*at).is_none()),
        Obstacle::CallsPointer(at) => Ok(is_auto_index(*at)),
        Obstacle::RunsEntry(_) => Ok(true),
        Obstacle::Shared(_) => Ok(true),
        Obstacle::CallsBody(_) => Ok(true),
        Obstacle::CallsVariable(_) => Ok(true),
        Obstacle::StoresInEntry(_) => Ok(true),
        Obstacle::ReturnsForAnother(_) => Ok(true),
        Obstacle::ReturnsFar(_) => Ok(true),
    }
}
