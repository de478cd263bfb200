//! The cells that are shown when a watched run is over.

ghost use Rattle.std.specs.Prelude.{◌≡◌, take, IfOk};
ghost use Rattle.wordset.specs.Lanes.{words};
ghost use Rattle.declaration.specs.DeclarationInCode.{meaning};
ghost use Rattle.machine_commands.specs.WatchText.{CellsAfter, IsShown, happening};

use crate::summary::push_shown;
use bin_tape::Image;
use declaration::Declaration;
use peripherals::{Event, NoMemory, Start};
use policy::{Watched, run_declared};
use std::alloc::Allocator;
use wordset::WordSet;

/// The first of some events, so many.
pub(crate) fn first(events: &[Event], count: usize) -> &[Event]
    ensures { result.now ≡ take count events.now }
{
    if count < events.len() {
        &events[..count]
    } else {
        events
    }
}

/// The events of a watched run that happen: all of them, or those before the one that violates a
/// rule.
pub(crate) fn happening<'a>(watched: Watched, events: &'a [Event]) -> &'a [Event]
    ensures { result.now ≡ happening watched events.now }
{
    match watched {
        Watched::Clean => events,
        Watched::Broken { event, .. } => first(events, event),
    }
}

/// The cells that are to be shown, with their words after some events of a declared run.
fn cells_after<A: Allocator + Copy, D: Allocator>(
    alloc: A,
    image: &Image,
    declaration: &Declaration<D>,
    events: &[Event],
    show: &WordSet,
) -> Result<Vec<u8, A>, NoMemory>
    ensures { IfOk result (λ text.
        CellsAfter (words show.now) image.now (meaning declaration.now) events.now text.items) }
{
    let start = Start::zero();
    let world = run_declared(alloc, image, declaration, &start, events)?;
    let mut text = Vec::new(alloc);
    push_shown(&mut text, show, &world)?;
    Ok(text)
}

/// The lines of the cells that are to be shown when a watched run is over, if there are any.
pub(crate) fn shown_of<A: Allocator + Copy, D: Allocator>(
    alloc: A,
    image: &Image,
    declaration: &Declaration<D>,
    events: &[Event],
    watched: Watched,
    show: &WordSet,
) -> Result<Vec<u8, A>, NoMemory>
    ensures { IfOk result (λ text. IsShown (words show.now) image.now (meaning declaration.now)
        events.now watched text.items) }
{
    if show.is_empty() {
        return Ok(Vec::new(alloc));
    }
    cells_after(alloc, image, declaration, happening(watched, events), show)
}
