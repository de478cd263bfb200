//! Watching a run: whether each of its steps keeps the rules.

ghost use Rattle.std.specs.Prelude.{◌≡◌, ℕ, ◌<◌, None, Some, [], IfOk, OnOk, OnErr};
ghost use Rattle.processor.specs.Runs.{Image as Words};
ghost use Rattle.processor.specs.Fetch.{fetched};
ghost use Rattle.peripherals.specs.declared.Event.{Event};
ghost use Rattle.peripherals.specs.Events.{Happens, IsLoaded};
ghost use Rattle.peripherals.specs.Loading.{image_of};
ghost use Rattle.peripherals.specs.World.{view, profile_of};
ghost use Rattle.policy.specs.declared.rules.Rule.{Rule};
ghost use Rattle.declaration.specs.Declaration.{IsDeclared};
ghost use Rattle.policy.specs.Calls.{calls_after};
ghost use Rattle.policy.specs.Rules.{KeepsCode};
ghost use Rattle.policy.specs.Runs.{IsSafe};
ghost use Rattle.declaration.specs.DeclarationInCode.{meaning};
ghost use Rattle.policy.specs.OpenCalls.{open_calls, machine_of, calls_of};
ghost use Rattle.policy.specs.Decided.{is_call, followed, IsCall};
ghost use Rattle.policy.specs.Watching.{IsClean, BreaksAt, Tells, begun};
ghost use Rattle.policy.specs.WatchedSteps.{Watches, TakesMemory, GrowsAt, Grows, Passes, LegalStepTakesMemory};

use crate::legality::{Call, is_abandon, is_return, legal_instruction};
use crate::rules::Rule;
use crate::runs::waits;
use bin_tape::Image;
use declaration::Declaration;
use instruct::Operation;
use peripherals::{Event, NoMemory, Start, World};
use processor::{DecodedInstruction, Reference};
use std::alloc::Allocator;
use word12::Word;

/// What a watched run shows.
#[derive(Clone, Copy, PartialEq, Eq, Debug)]
pub enum Watched {
    /// Each step that was enabled kept the rules.
    Clean,
    /// A step violated a rule.
    Broken {
        /// The place of the first such step in the list of events, from 0.
        event: usize,
        /// The least rule that it broke.
        rule: Rule,
    },
}

/// A machine that is watched: its world, and beside it the calls that have not returned, the last call
/// last.
///
/// It takes one event after the other, and tells the rule that a step would break. `watch` does so
/// with a list of events.
#[derive(Drop)]
pub struct Watcher<A: Allocator> {
    world: World<A>,
    calls: Vec<Call, A>,
}

/// Whether a memory reference is a JMS into an entry.
#[inline(always)]
fn is_call<D: Allocator>(declaration: &Declaration<D>, reference: &Reference) -> bool
    ensures { result ≡ is_call (meaning declaration.now) reference.now }
{
    matches!(reference.operation, Operation::Jms) && declaration.is_entry(reference.place)
}

/// Puts a call on the call stack, or takes the last one or all away, by what an instruction does.
///
/// # Errors
///
/// `NoMemory` where room for the call was refused.
#[inline(always)]
pub fn follow_calls<A: Allocator, D: Allocator>(
    calls: &mut Vec<Call, A>,
    declaration: &Declaration<D>,
    instruction: &DecodedInstruction,
    after: Word,
) -> Result<(), NoMemory>
    ensures calls { OnOk result (open_calls calls.new.items
        ≡ followed (meaning declaration.now) instruction.now after (open_calls calls.old.items)) }
    ensures only_calls { OnErr result (IsCall (meaning declaration.now) instruction.now) }
{
    match instruction {
        DecodedInstruction::Refers(reference) => {
            if is_call(declaration, reference) {
                let entry = reference.place;
                return match calls.push(Call { entry, after }) {
                    Ok(()) => Ok(()),
                    Err(_) => Err(NoMemory),
                };
            }
            if is_return(declaration, reference) {
                calls.pop();
                return Ok(());
            }
            if is_abandon(declaration, reference) {
                calls.clear();
            }
            Ok(())
        }
        _ => Ok(()),
    }
}

impl<A: Allocator> Watcher<A> {
    /// Watches a declared run from its begin: the tape's words lie over the given start, the machine
    /// stands at the declared start, and no call is open. It takes no memory.
    pub fn new<D: Allocator>(
        alloc: A,
        image: &Image,
        declaration: &Declaration<D>,
        start: &Start,
    ) -> Watcher<A>
    where
        A: Copy,
        ensures machine { machine_of result
            ≡ begun (image_of image.now) (meaning declaration.now) start.now }
        // The instruction table's runs begin there.
        ensures loaded { IsLoaded (image_of image.now) (meaning declaration.now).start
            (machine_of result) }
        ensures calls { calls_of result ≡ [] }
        ensures profile { profile_of result.world ≡ (meaning declaration.now).profile }
    {
        Watcher {
            world: World::load(
                alloc,
                image,
                declaration.start(),
                start,
                declaration.profile(),
            ),
            calls: Vec::new(alloc),
        }
    }

    /// Watches a run on from a world, in which these calls are open, the last call last.
    pub fn resume(world: World<A>, calls: Vec<Call, A>) -> Watcher<A>
        ensures machine { machine_of result ≡ view world }
        ensures calls { calls_of result ≡ open_calls calls.items }
        ensures profile { profile_of result.world ≡ profile_of world }
    {
        Watcher { world, calls }
    }

    /// The machine and its devices.
    pub fn world(&self) -> &World<A>
        ensures machine { view result.now ≡ machine_of self.now }
        ensures profile { profile_of result.now ≡ profile_of self.now.world }
    {
        &self.world
    }

    /// The calls that have not returned, the last call last.
    pub fn calls(&self) -> &[Call]
        ensures { open_calls result.now ≡ calls_of self.now }
    {
        &self.calls
    }

    /// Carries out the next instruction, which was fetched, and follows it with the call stack.
    #[inline(always)]
    fn carry_out<D: Allocator>(
        &mut self,
        declaration: &Declaration<D>,
        instruction: &DecodedInstruction,
    ) -> Result<(), NoMemory>
        requires runs { (machine_of self.old).halted_at ≡ None }
        requires profile { profile_of self.old.world ≡ (meaning declaration.now).profile }
        requires fetched { instruction.now
            ≡ fetched (meaning declaration.now).profile (machine_of self.old).state }
        ensures happens { OnOk result (Happens (meaning declaration.now).profile
            (machine_of self.old) Event.Step (machine_of self.new)) }
        ensures calls { let machine = machine_of self.old in
            OnOk result (calls_of self.new
            ≡ calls_after (meaning declaration.now) machine.state (calls_of self.old)) }
        ensures profile { profile_of self.new.world ≡ (meaning declaration.now).profile }
        ensures unchanged { OnErr result (machine_of self.new ≡ machine_of self.old) }
        ensures only_growth { OnErr result
            (TakesMemory (meaning declaration.now) (machine_of self.old)) }
    {
        let after = self.world.cpu().pc.increment();
        match follow_calls(&mut self.calls, declaration, instruction, after) {
            Err(NoMemory) => Err(NoMemory),
            Ok(()) => {
                match self.world.step(instruction) {
                    Ok(_) => Ok(()),
                    Err(NoMemory) => Err(NoMemory),
                }
            }
        }
    }

    /// Tries the next instruction of a machine that runs. It is carried out where it violates no
    /// rule.
    #[inline(always)]
    fn try_instruction<D: Allocator>(
        &mut self,
        declaration: &Declaration<D>,
    ) -> Result<Option<Rule>, NoMemory>
        requires runs { (machine_of self.old).halted_at ≡ None }
        requires profile { profile_of self.old.world ≡ (meaning declaration.now).profile }
        ensures watches { IfOk result (Watches (meaning declaration.now)
            (machine_of self.old) (calls_of self.old) Event.Step
            (machine_of self.new) (calls_of self.new)) }
        ensures machine_kept { IfOk result (λ told. (rule : Rule) → told ≡ Some rule
            → machine_of self.new ≡ machine_of self.old) }
        ensures calls_kept { IfOk result (λ told. (rule : Rule) → told ≡ Some rule
            → calls_of self.new ≡ calls_of self.old) }
        ensures unchanged { OnErr result (machine_of self.new ≡ machine_of self.old) }
        ensures profile { profile_of self.new.world ≡ (meaning declaration.now).profile }
        ensures only_growth { OnErr result
            (GrowsAt (meaning declaration.now) (machine_of self.old) (calls_of self.old)) }
    {
        match legal_instruction(declaration, self.world.cpu(), &self.calls) {
            Err(rule) => Ok(Some(rule)),
            Ok(instruction) => {
                match self.carry_out(declaration, &instruction) {
                    Ok(()) => Ok(None),
                    Err(NoMemory) => Err(NoMemory),
                }
            }
        }
    }

    /// Tries the next instruction, as `next` does at a step: while the machine runs it is carried out where
    /// it violates no rule.
    ///
    /// # Errors
    ///
    /// `NoMemory` as `next`.
    #[inline(always)]
    pub fn step<D: Allocator>(
        &mut self,
        declaration: &Declaration<D>,
    ) -> Result<Option<Rule>, NoMemory>
        requires profile { profile_of self.old.world ≡ (meaning declaration.now).profile }
        ensures watches { IfOk result (Watches (meaning declaration.now)
            (machine_of self.old) (calls_of self.old) Event.Step
            (machine_of self.new) (calls_of self.new)) }
        ensures machine_kept { IfOk result (λ told. (rule : Rule) → told ≡ Some rule
            → machine_of self.new ≡ machine_of self.old) }
        ensures calls_kept { IfOk result (λ told. (rule : Rule) → told ≡ Some rule
            → calls_of self.new ≡ calls_of self.old) }
        ensures unchanged { OnErr result (machine_of self.new ≡ machine_of self.old) }
        ensures profile { profile_of self.new.world ≡ (meaning declaration.now).profile }
        ensures only_growth { OnErr result
            (GrowsAt (meaning declaration.now) (machine_of self.old) (calls_of self.old)) }
    {
        match self.world.halted_at() {
            None => self.try_instruction(declaration),
            Some(_) => Ok(None),
        }
    }

    /// Applies an event that is no step and no CONTINUE at a stop.
    #[inline(always)]
    fn pass<D: Allocator>(
        &mut self,
        declaration: &Declaration<D>,
        event: Event,
    ) -> Result<Option<Rule>, NoMemory>
        requires passes { Passes (meaning declaration.now) (machine_of self.old) event }
        requires profile { profile_of self.old.world ≡ (meaning declaration.now).profile }
        ensures watches { IfOk result (Watches (meaning declaration.now)
            (machine_of self.old) (calls_of self.old) event
            (machine_of self.new) (calls_of self.new)) }
        ensures none { IfOk result (λ told. told ≡ None) }
        ensures unchanged { OnErr result (machine_of self.new ≡ machine_of self.old) }
        ensures profile { profile_of self.new.world ≡ (meaning declaration.now).profile }
        ensures only_growth { OnErr result
            (Grows (meaning declaration.now) (machine_of self.old) (calls_of self.old) event) }
    {
        match self.world.apply(event) {
            Ok(_) => Ok(None),
            Err(NoMemory) => Err(NoMemory),
        }
    }

    /// Takes one event: it happens as in a declared run, or it is a step that violates a rule, which is
    /// told and not carried out. The declaration is the same for all events.
    ///
    /// # Errors
    ///
    /// `NoMemory` where room for a call on the call stack, or for a byte that is printed or punched,
    /// was refused. The machine is as before; the call stack may have the call.
    #[inline(always)]
    pub fn next<D: Allocator>(
        &mut self,
        declaration: &Declaration<D>,
        event: Event,
    ) -> Result<Option<Rule>, NoMemory>
        requires profile { profile_of self.old.world ≡ (meaning declaration.now).profile }
        ensures watches { IfOk result (Watches (meaning declaration.now)
            (machine_of self.old) (calls_of self.old) event
            (machine_of self.new) (calls_of self.new)) }
        // A step that violates a rule is not carried out, nor is one whose memory was refused.
        ensures machine_kept { IfOk result (λ told. (rule : Rule) → told ≡ Some rule
            → machine_of self.new ≡ machine_of self.old) }
        ensures calls_kept { IfOk result (λ told. (rule : Rule) → told ≡ Some rule
            → calls_of self.new ≡ calls_of self.old) }
        ensures unchanged { OnErr result (machine_of self.new ≡ machine_of self.old) }
        ensures profile { profile_of self.new.world ≡ (meaning declaration.now).profile }
        ensures only_growth { OnErr result
            (Grows (meaning declaration.now) (machine_of self.old) (calls_of self.old) event) }
    {
        match event {
            Event::Step => self.step(declaration),
            Event::Continue => {
                if waits(&self.world, declaration) {
                    Ok(None)
                } else {
                    self.pass(declaration, event)
                }
            }
            Event::Key(_)
            | Event::PrinterDone
            | Event::ReaderDone(_)
            | Event::PunchDone
            | Event::Switches(_) => self.pass(declaration, event),
        }
    }
}

/// Takes the events one after the other, up to the first step that violates a rule.
fn watch_events<A: Allocator, D: Allocator>(
    watcher: &mut Watcher<A>,
    declaration: &Declaration<D>,
    events: &[Event],
) -> Result<Watched, NoMemory>
    requires profile { profile_of watcher.old.world ≡ (meaning declaration.now).profile }
    requires no_calls { calls_of watcher.old ≡ [] }
    ensures tells { let d = meaning declaration.now in let first = machine_of watcher.old in
        IfOk result (λ told. (image : Words) → KeepsCode image d first.state.memory
        → Tells image d events.now first told) }
    ensures only_growth { let d = meaning declaration.now in let first = machine_of watcher.old in
        OnErr result ((image : Words) → KeepsCode image d first.state.memory
        → LegalStepTakesMemory image d events.now first) }
{
    declaration.is_declared();
    for index in 0..events.len() {
        match watcher.next(declaration, events[index]) {
            Ok(None) => {}
            Ok(Some(rule)) => return Ok(Watched::Broken { event: index, rule }),
            Err(NoMemory) => return Err(NoMemory),
        }
    }
    Ok(Watched::Clean)
}

/// Watches the declared run of a tape's program by a list of events: whether each step that is
/// enabled keeps the rules of the declaration.
///
/// The run begins at the declared start, on the declared machine, with the tape's words over the
/// given start. A CONTINUE is enabled at a pause alone. A step at a word that is not supported
/// violates the first rule. After the step that is told no event is looked at.
///
/// # Errors
///
/// `NoMemory` where room for a call on the call stack, or for a byte that is printed or punched,
/// was refused.
pub fn watch<A: Allocator + Copy, D: Allocator>(
    alloc: A,
    image: &Image,
    declaration: &Declaration<D>,
    start: &Start,
    events: &[Event],
) -> Result<Watched, NoMemory>
    // It tells the truth, and all of it.
    ensures clean { let words = image_of image.now in let d = meaning declaration.now in
        IfOk result (λ told. told ≡ Watched.Clean
        → IsClean words d events.now (begun words d start.now)) }
    ensures broken { let words = image_of image.now in let d = meaning declaration.now in
        IfOk result (λ told. (event : ℕ) (rule : Rule) → told ≡ Watched.Broken event rule
        → BreaksAt words d events.now (begun words d start.now) event rule) }
    ensures only_clean { let words = image_of image.now in let d = meaning declaration.now in
        IfOk result (λ told. IsClean words d events.now (begun words d start.now)
        → told ≡ Watched.Clean) }
    ensures only_broken { let words = image_of image.now in let d = meaning declaration.now in
        IfOk result (λ told. (event : ℕ) (rule : Rule)
        → BreaksAt words d events.now (begun words d start.now) event rule
        → told ≡ Watched.Broken event rule) }
    // Of a safe program it tells nothing else.
    ensures safe { IfOk result (λ told.
        IsSafe (image_of image.now) (meaning declaration.now) → told ≡ Watched.Clean) }
    // Only a legal step that prints, punches or calls a routine can be refused; none was illegal.
    ensures only_growth { let words = image_of image.now in let d = meaning declaration.now in
        OnErr result (LegalStepTakesMemory words d events.now (begun words d start.now)) }
{
    let mut watcher = Watcher::new(alloc, image, declaration, start);
    watch_events(&mut watcher, declaration, events)
}
