//! Declared runs: the world to which a list of events leads from the declared start.

ghost use Rattle.std.specs.Prelude.{◌≡◌, IsTrue, IfOk, OnOk, OnErr};
ghost use Rattle.peripherals.specs.Events.{IsLoaded};
ghost use Rattle.peripherals.specs.Loading.{image_of};
ghost use Rattle.peripherals.specs.EventOutcomes.{puts_out};
ghost use Rattle.peripherals.specs.World.{view, profile_of};
ghost use Rattle.declaration.specs.DeclarationInCode.{meaning};
ghost use Rattle.policy.specs.Runs.{HappensDeclared};
ghost use Rattle.policy.specs.Watching.{begun, LeadsTo, StepPutsOut};
ghost use Rattle.policy.specs.WatchedSteps.{waits};

use bin_tape::Image;
use declaration::Declaration;
use peripherals::{Event, NoMemory, Start, World};
use std::alloc::Allocator;

/// Whether the machine is halted, and not at a pause.
pub(crate) fn waits<A: Allocator, D: Allocator>(
    world: &World<A>,
    declaration: &Declaration<D>,
) -> bool
    ensures { result ≡ waits (meaning declaration.now) (view world.now).halted_at }
{
    match world.halted_at() {
        None => false,
        Some(at) => !declaration.is_pause(at),
    }
}

/// Applies one event as in a declared run, in which a CONTINUE is enabled at a pause alone.
fn happen<A: Allocator, D: Allocator>(
    world: &mut World<A>,
    declaration: &Declaration<D>,
    event: Event,
) -> Result<(), NoMemory>
    requires { profile_of world.old ≡ (meaning declaration.now).profile }
    ensures happens { OnOk result
        (HappensDeclared (meaning declaration.now) (view world.old) event (view world.new)) }
    ensures profile { profile_of world.new ≡ (meaning declaration.now).profile }
    ensures only_output { OnErr result (IsTrue (puts_out (view world.old) event)) }
{
    if matches!(event, Event::Continue) {
        if waits(world, declaration) {
            return Ok(());
        }
    }
    match world.apply(event) {
        Ok(_) => Ok(()),
        Err(NoMemory) => Err(NoMemory),
    }
}

/// Applies the events one after the other.
fn happen_all<A: Allocator, D: Allocator>(
    world: &mut World<A>,
    declaration: &Declaration<D>,
    events: &[Event],
) -> Result<(), NoMemory>
    requires { profile_of world.old ≡ (meaning declaration.now).profile }
    ensures run { OnOk result
        (LeadsTo (meaning declaration.now) events.now (view world.old) (view world.new)) }
    ensures profile { profile_of world.new ≡ (meaning declaration.now).profile }
    ensures only_output { OnErr result
        (StepPutsOut (meaning declaration.now) events.now (view world.old)) }
{
    for index in 0..events.len() {
        match happen(world, declaration, events[index]) {
            Ok(()) => {}
            Err(NoMemory) => return Err(NoMemory),
        }
    }
    Ok(())
}

/// The world after the declared run of a tape's program by a list of events. The run begins at the
/// declared start, on the declared machine, with the tape's words over the given start. A CONTINUE
/// is enabled at a pause alone. No rule is asked: see `watch` for that.
///
/// # Errors
///
/// `NoMemory` where room for a byte that is printed or punched was refused.
pub fn run_declared<A: Allocator + Copy, D: Allocator>(
    alloc: A,
    image: &Image,
    declaration: &Declaration<D>,
    start: &Start,
    events: &[Event],
) -> Result<World<A>, NoMemory>
    ensures run { let d = meaning declaration.now in IfOk result (λ world.
        LeadsTo d events.now (begun (image_of image.now) d start.now) (view world)) }
    // The world is on the declared machine.
    ensures profile { let d = meaning declaration.now in IfOk result (λ world.
        profile_of world ≡ d.profile) }
    // It begins in a world into which the tape is loaded.
    ensures loaded { let d = meaning declaration.now in
        IsLoaded (image_of image.now) d.start (begun (image_of image.now) d start.now) }
    // Only a step that prints or punches can be refused.
    ensures only_output { let d = meaning declaration.now in OnErr result
        (StepPutsOut d events.now (begun (image_of image.now) d start.now)) }
{
    let mut world = World::load(
        alloc,
        image,
        declaration.start(),
        start,
        declaration.profile(),
    );
    match happen_all(&mut world, declaration, events) {
        Ok(()) => Ok(world),
        Err(NoMemory) => Err(NoMemory),
    }
}
