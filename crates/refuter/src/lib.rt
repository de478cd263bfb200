//! Looks for a run that violates a declaration.
//!
//! The text of what a search finds is read again and watched once more: so what is given does not rest on
//! how it was found.
#![tactic(auto)]

ghost use Rattle.std.specs.Prelude.{◌≡◌, ◌≤◌, ◌<◌, IfOk, IfSome, IfNone, true, false};
ghost use Rattle.declaration.specs.DeclarationInCode.{meaning};
ghost use Rattle.peripherals.specs.Loading.{image_of};
ghost use Rattle.refuter.specs.Witnesses.{Breaks, IsSpelled, IsLast};

pub mod laws;

use bin_tape::Image;
use declaration::Declaration;
use peripherals::{Event, EventsFault, NoMemory, Start, events};
use policy::{Rule, Watched, watch};
use run_search::{ActiveRun, DeclaredProgram, RunSearch};
use std::alloc::Allocator;
use turns::{GuessFault, Turns};

/// A run that violates a declaration: its events, their text, and which event violates which rule.
#[derive(Drop)]
pub struct Witness<A: Allocator> {
    /// The events, of which the last one violates the rule.
    pub events: Vec<Event, A>,
    /// Their text.
    pub text: Vec<u8, A>,
    /// The place of the step that violates the rule, from 0.
    pub event: usize,
    /// The least rule that it violates.
    pub rule: Rule,
}

/// The witness of a text, if it is read as a list of events of which the last one is the first to
/// violate a rule.
fn read_again<A: Allocator + Copy, D: Allocator>(
    alloc: A,
    image: &Image,
    declaration: &Declaration<D>,
    text: Vec<u8, A>,
) -> Result<Option<Witness<A>>, NoMemory>
    ensures broken { IfOk result (λ found.
        IfSome found (Breaks (image_of image.now) (meaning declaration.now))) }
    ensures spelled { IfOk result (λ found. IfSome found IsSpelled) }
    ensures last { IfOk result (λ found. IfSome found IsLast) }
{
    let events = match events(alloc, &text) {
        Ok(events) => events,
        Err(EventsFault::NoMemory) => return Err(NoMemory),
        Err(EventsFault::BadLine(_) | EventsFault::TooMany) => return Ok(None),
    };
    match watch(alloc, image, declaration, &Start::zero(), &events) {
        Err(NoMemory) => Err(NoMemory),
        Ok(Watched::Clean) => Ok(None),
        Ok(Watched::Broken { event, rule }) => {
            if event.checked_add(1) == Some(events.len()) {
                Ok(Some(Witness {
                    events,
                    text,
                    event,
                    rule,
                }))
            } else {
                Ok(None)
            }
        }
    }
}

/// Takes a turn, if none was taken since so many were. False if none is left.
fn takes_one(before: u32, turns: &mut Turns) -> Result<bool, NoMemory>
    requires rises { before ≤ turns.old.spent }
    ensures taken { IfOk result (λ taken. taken ≡ true → before < turns.new.spent) }
    ensures spent { IfOk result (λ taken. taken ≡ false → turns.new.spent ≡ turns.new.limit) }
    ensures limit { turns.new.limit ≡ turns.old.limit }
    ensures rises { turns.old.spent ≤ turns.new.spent }
    ensures within { turns.new.spent ≤ turns.new.limit }
{
    turns.are_within();
    if turns.spent() > before {
        return Ok(true);
    }
    match turns.take() {
        Ok(()) => Ok(true),
        Err(GuessFault::TurnsSpent) => Ok(false),
        // No other fault comes.
        Err(_) => Err(NoMemory),
    }
}

/// One run of a search, and the witness of it if it violates a rule.
fn try_once<A: Allocator + Copy, D: Allocator>(
    alloc: A,
    search: &mut RunSearch<A>,
    trial: &mut ActiveRun<A>,
    image: &Image,
    declaration: &Declaration<D>,
    turns: &mut Turns,
) -> Result<Option<Witness<A>>, NoMemory>
    ensures broken { IfOk result (λ found.
        IfSome found (Breaks (image_of image.now) (meaning declaration.now))) }
    ensures spelled { IfOk result (λ found. IfSome found IsSpelled) }
    ensures last { IfOk result (λ found. IfSome found IsLast) }
    ensures limit { turns.new.limit ≡ turns.old.limit }
    ensures rises { turns.old.spent ≤ turns.new.spent }
    ensures within { turns.new.spent ≤ turns.new.limit }
{
    let program = DeclaredProgram { image, declaration };
    match search.try_run(&program, trial, turns)? {
        Some(text) => read_again(alloc, image, declaration, text),
        None => Ok(None),
    }
}

/// Looks for a run that violates a declaration, from the declared start with all registers, and all
/// cells that are not on the tape, 0. The same seed gives the same run. That one is found is not
/// promised.
///
/// A turn is a step of a machine that is watched, while it is looked for one and while what was found is
/// made shorter; the last look at it takes none. What is found ends with the step that violates the
/// rule, and has a text that is short enough to be read again.
///
/// # Errors
///
/// `NoMemory` where a growth was refused.
pub fn refute_within<A: Allocator + Copy, D: Allocator>(
    alloc: A,
    image: &Image,
    declaration: &Declaration<D>,
    seed: u64,
    turns: &mut Turns,
) -> Result<Option<Witness<A>>, NoMemory>
    // What is given is a run that violates the declaration, by the event and the rule that are
    // told;
    ensures broken { IfOk result (λ found.
        IfSome found (Breaks (image_of image.now) (meaning declaration.now))) }
    // its text is read as its events,
    ensures spelled { IfOk result (λ found. IfSome found IsSpelled) }
    // and none stands behind the one that is told.
    ensures last { IfOk result (λ found. IfSome found IsLast) }
    // Where none is given all turns are spent.
    ensures spent { IfOk result (λ found. IfNone found (turns.new.spent ≡ turns.new.limit)) }
    ensures limit { turns.new.limit ≡ turns.old.limit }
    ensures rises { turns.old.spent ≤ turns.new.spent }
    ensures within { turns.new.spent ≤ turns.new.limit }
{
    turns.are_within();
    let program = DeclaredProgram { image, declaration };
    let mut search = RunSearch::new(alloc, &program, seed)?;
    let mut trial = ActiveRun::new(alloc, &program);
    while turns.spent() < turns.limit() {
        let before = turns.spent();
        if let Some(witness) = try_once(
            alloc,
            &mut search,
            &mut trial,
            image,
            declaration,
            turns,
        )? {
            return Ok(Some(witness));
        }
        if !takes_one(before, turns)? {
            return Ok(None);
        }
    }
    Ok(None)
}
