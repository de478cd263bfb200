//! Makes a run that violates a rule shorter: what is not needed is taken out, first half of it, then
//! a quarter, and so on down to each input and each event by itself.

ghost use Rattle.std.specs.Prelude.{◌≡◌, ◌≤◌};
ghost use Rattle.declaration.specs.DeclarationInCode.{meaning};
ghost use Rattle.peripherals.specs.World.{profile_of};

use crate::corpus::start_of;
use crate::plan::{Plan, Purpose};
use crate::running::Input;
use crate::script::{Script, ScriptPart};
use crate::search::{ActiveRun, DeclaredProgram, RunSearch, ViolatingRun};
use declaration::Declaration;
use peripherals::NoMemory;
use policy::Watcher;
use std::alloc::Allocator;
use turns::{StepVerdict, Turns, take_step};

/// The most steps that are made to shorten a run.
const MOST_STEPS: u32 = 2_000_000;

/// How often a length is halved at most.
const HALVINGS: usize = 20;

/// A run that violates a rule, with as few inputs and events as were found in so many steps.
pub(crate) fn shortened<A: Allocator + Copy, D: Allocator>(
    alloc: A,
    search: &mut RunSearch<A>,
    program: &DeclaredProgram<'_, D>,
    trial: &mut ActiveRun<A>,
    found: ViolatingRun<A>,
    turns: &mut Turns,
) -> Result<Script<A>, NoMemory>
    ensures limit { turns.new.limit ≡ turns.old.limit }
    ensures rises { turns.old.spent ≤ turns.new.spent }
    ensures within { turns.new.spent ≤ turns.new.limit }
{
    turns.are_within();
    let last = turns.spent().saturating_add(MOST_STEPS);
    let plan = Plan::of(
        alloc,
        Purpose::Repeat,
        0,
        without(alloc, &found.inputs, 0, 0)?,
    );
    let mut best = found;
    if let Some(prompt) = search.follow(program, plan, trial, turns)? {
        best = prompt;
        halve_inputs(alloc, search, program, trial, &mut best, last, turns)?;
    }
    let ViolatingRun { mut script, .. } = best;
    halve_events(alloc, program, &mut script, last, turns)?;
    Ok(script)
}

/// The values of the inputs without so many from a place on.
fn without<A: Allocator>(
    alloc: A,
    inputs: &[Input],
    place: usize,
    size: usize,
) -> Result<Vec<u16, A>, NoMemory> {
    let mut values = Vec::new(alloc);
    for index in 0..inputs.len() {
        if index < place || index - place >= size {
            values.push(inputs[index].value).map_err(|_| NoMemory)?;
        }
    }
    Ok(values)
}

/// Takes inputs out, fewer and fewer at a time. All come as soon as they are requested.
fn halve_inputs<A: Allocator + Copy, D: Allocator>(
    alloc: A,
    search: &mut RunSearch<A>,
    program: &DeclaredProgram<'_, D>,
    trial: &mut ActiveRun<A>,
    found: &mut ViolatingRun<A>,
    last: u32,
    turns: &mut Turns,
) -> Result<(), NoMemory>
    ensures limit { turns.new.limit ≡ turns.old.limit }
    ensures rises { turns.old.spent ≤ turns.new.spent }
    ensures within { turns.new.spent ≤ turns.new.limit }
{
    turns.are_within();
    let mut size = found.inputs.len();
    for _halving in 0..HALVINGS {
        size = size.saturating_add(1) / 2;
        take_out_inputs(alloc, search, program, trial, found, size, last, turns)?;
        if size <= 1 {
            break;
        }
    }
    Ok(())
}

/// Takes inputs out, so many at a time, wherever a rule is violated without them.
fn take_out_inputs<A: Allocator + Copy, D: Allocator>(
    alloc: A,
    search: &mut RunSearch<A>,
    program: &DeclaredProgram<'_, D>,
    trial: &mut ActiveRun<A>,
    found: &mut ViolatingRun<A>,
    size: usize,
    last: u32,
    turns: &mut Turns,
) -> Result<(), NoMemory>
    ensures limit { turns.new.limit ≡ turns.old.limit }
    ensures rises { turns.old.spent ≤ turns.new.spent }
    ensures within { turns.new.spent ≤ turns.new.limit }
{
    turns.are_within();
    let mut place = 0usize;
    for _try in 0..found.inputs.len() {
        if place >= found.inputs.len() || turns.spent() >= last {
            break;
        }
        let given = without(alloc, &found.inputs, place, size)?;
        let plan = Plan::of(alloc, Purpose::Repeat, 0, given);
        match search.follow(program, plan, trial, turns)? {
            Some(shorter) => *found = shorter,
            None => place = place.saturating_add(size),
        }
    }
    Ok(())
}

/// Takes events that are no steps out, fewer and fewer at a time. All others stay where they are.
fn halve_events<A: Allocator + Copy, D: Allocator>(
    alloc: A,
    program: &DeclaredProgram<'_, D>,
    script: &mut Script<A>,
    last: u32,
    turns: &mut Turns,
) -> Result<(), NoMemory>
    ensures limit { turns.new.limit ≡ turns.old.limit }
    ensures rises { turns.old.spent ≤ turns.new.spent }
    ensures within { turns.new.spent ≤ turns.new.limit }
{
    turns.are_within();
    let mut size = script.parts().len();
    for _halving in 0..HALVINGS {
        size = size.saturating_add(1) / 2;
        take_out_events(alloc, program, script, size, last, turns)?;
        if size <= 1 {
            break;
        }
    }
    Ok(())
}

/// Takes events that are no steps out, so many at a time, wherever a rule is violated without them.
fn take_out_events<A: Allocator + Copy, D: Allocator>(
    alloc: A,
    program: &DeclaredProgram<'_, D>,
    script: &mut Script<A>,
    size: usize,
    last: u32,
    turns: &mut Turns,
) -> Result<(), NoMemory>
    ensures limit { turns.new.limit ≡ turns.old.limit }
    ensures rises { turns.old.spent ≤ turns.new.spent }
    ensures within { turns.new.spent ≤ turns.new.limit }
{
    turns.are_within();
    let mut place = 0usize;
    for _try in 0..script.parts().len() {
        if place >= script.parts().len() || turns.spent() >= last {
            break;
        }
        match replayed(alloc, program, script, place, size, turns)? {
            Some(shorter) => *script = shorter,
            None => place = place.saturating_add(size),
        }
    }
    Ok(())
}

/// A script without so many events from a place on, up to the step that violates a rule, if one
/// does.
fn replayed<A: Allocator + Copy, D: Allocator>(
    alloc: A,
    program: &DeclaredProgram<'_, D>,
    script: &Script<A>,
    place: usize,
    size: usize,
    turns: &mut Turns,
) -> Result<Option<Script<A>>, NoMemory>
    ensures limit { turns.new.limit ≡ turns.old.limit }
    ensures rises { turns.old.spent ≤ turns.new.spent }
    ensures within { turns.new.spent ≤ turns.new.limit }
{
    turns.are_within();
    let declaration = program.declaration;
    let mut watcher = start_of(alloc, program);
    let mut played = Script::new(alloc);
    let parts = script.parts();
    for index in 0..parts.len() {
        let ScriptPart { steps, event } = parts[index];
        if breaks(&mut watcher, declaration, steps, &mut played, turns)? {
            return Ok(Some(played));
        }
        if index < place || index - place >= size {
            played.add(&event)?;
            watcher.next(declaration, event)?;
        }
    }
    if breaks(
        &mut watcher,
        declaration,
        script.last_steps(),
        &mut played,
        turns,
    )? {
        return Ok(Some(played));
    }
    Ok(None)
}

/// Makes so many steps, up to one that violates a rule. True if one does.
fn breaks<A: Allocator + Copy, D: Allocator>(
    watcher: &mut Watcher<A>,
    declaration: &Declaration<D>,
    steps: u32,
    played: &mut Script<A>,
    turns: &mut Turns,
) -> Result<bool, NoMemory>
    requires profile { profile_of watcher.old.world ≡ (meaning declaration.now).profile }
    ensures profile { profile_of watcher.new.world ≡ (meaning declaration.now).profile }
    ensures limit { turns.new.limit ≡ turns.old.limit }
    ensures rises { turns.old.spent ≤ turns.new.spent }
    ensures within { turns.new.spent ≤ turns.new.limit }
{
    turns.are_within();
    for _step in 0..steps {
        match take_step(watcher, declaration, turns)? {
            StepVerdict::Kept => played.add_step(),
            StepVerdict::NoTurn => return Ok(false),
            StepVerdict::Broke => {
                played.add_step();
                return Ok(true);
            }
        }
    }
    Ok(false)
}
