//! One run: the operator gives what the program asks for, the devices get done, and the machine makes
//! step after step until one violates a rule.

ghost use Rattle.std.specs.Prelude.{◌≡◌, ◌≤◌};
ghost use Rattle.declaration.specs.DeclarationInCode.{meaning};
ghost use Rattle.peripherals.specs.World.{profile_of};

use crate::input_request::InputRequest;
use crate::plan::{Plan, Purpose};
use crate::random::Random;
use crate::script::{Script, ScriptLength};
use crate::timing::Timing;
use declaration::Declaration;
use peripherals::{Event, NoMemory};
use policy::Watcher;
use std::alloc::Allocator;
use turns::{StepVerdict, Turns, take_step};
use word12::Word;

/// After this many events without an input, a completion or a store a short run is over: the program waits.
const MOST_IDLE: u32 = 400;

/// After this many events without an input and without anything new a run is over. A run in which no key is struck is
/// over after this many events without an input, a completion or a store.
const MOST_QUIET: u32 = 30_000;

/// An input that was given.
#[derive(Clone, Copy)]
pub(crate) struct Input {
    pub(crate) ask: InputRequest,
    pub(crate) value: u16,
}

/// How a run goes on.
#[derive(Clone, Copy, PartialEq, Eq)]
pub(crate) enum Progress {
    /// It goes on.
    GoesOn,
    /// It is over, and violated no rule.
    Over,
    /// The next step violates a rule, and is not made.
    Broken,
}

/// What is new in a run since the program asked for an input.
#[derive(Clone, Copy)]
pub(crate) struct Novelty {
    /// Whether anything is.
    pub(crate) is_any: bool,
    /// Whether a step is new.
    pub(crate) is_step: bool,
    /// The address at which it was seen.
    pub(crate) place: Word,
}

impl Novelty {
    /// Nothing is new.
    pub(crate) const NONE: Novelty = Novelty {
        is_any: false,
        is_step: false,
        place: Word::ZERO,
    };
}

/// What happened in a run so far.
#[derive(Drop)]
pub(crate) struct Run<A: Allocator> {
    purpose: Purpose,
    /// The kept state from which the script goes on.
    pub(crate) base: usize,
    /// The events since, without the last steps: so many events from the start are in it.
    pub(crate) script: Script<A>,
    written: u32,
    /// How long all is from the start.
    pub(crate) extent: ScriptLength,
    /// The inputs that were given, and how many of them came before the kept state.
    pub(crate) inputs: Vec<Input, A>,
    pub(crate) before_base: usize,
    pub(crate) timing: Timing,
    pub(crate) novelty: Novelty,
    /// Whether the state in which the program asks next may be kept: not that from which the run goes on.
    pub(crate) has_asked: bool,
    /// How many events there were when something last happened, when something was last new or asked for,
    /// and when something was last new.
    stirred: u32,
    last_asked: u32,
    last_new: u32,
    /// Up to so many events it is certain that the run goes on.
    certain: u32,
    /// After so many events without anything new the run is over when an input is requested.
    most_stale: u32,
}

/// 400 steps, or twice, four times .. as many, each half as likely as the one before.
fn patience(random: &mut Random) -> u32 {
    let mut steps = 400u32;
    for _ in 0..7 {
        if random.once_in(2) {
            return steps;
        }
        steps = steps.saturating_mul(2);
    }
    steps
}

impl<A: Allocator + Copy> Run<A> {
    /// A run that has not begun.
    pub(crate) fn new(
        alloc: A,
        plan: &Plan<A>,
        extent: ScriptLength,
        random: &mut Random,
    ) -> Run<A> {
        let timing = match plan.purpose {
            Purpose::Plain | Purpose::Repeat => Timing::prompt(),
            Purpose::Explore => Timing::by_chance(random, true),
            Purpose::Extend => {
                let jitter = random.once_in(4);
                Timing::by_chance(random, jitter)
            }
        };
        let most_stale = match plan.purpose {
            Purpose::Extend => patience(random),
            Purpose::Plain | Purpose::Explore | Purpose::Repeat => u32::MAX,
        };
        Run {
            most_stale,
            ..Run::of(alloc, plan, extent, timing)
        }
    }

    /// A run of a pace that has not begun, and is as long as it gets inputs.
    pub(crate) fn of(alloc: A, plan: &Plan<A>, extent: ScriptLength, timing: Timing) -> Run<A> {
        Run {
            purpose: plan.purpose,
            base: plan.base,
            script: Script::new(alloc),
            written: extent.events,
            extent,
            inputs: Vec::new(alloc),
            before_base: 0,
            timing,
            novelty: Novelty::NONE,
            has_asked: plan.base == 0,
            stirred: extent.events,
            last_asked: extent.events,
            last_new: extent.events,
            certain: 0,
            most_stale: u32::MAX,
        }
    }

    /// Takes the events since the kept state out.
    pub(crate) fn take_script(&mut self, alloc: A) -> Script<A> {
        self.write_steps();
        std::mem::replace(&mut self.script, Script::new(alloc))
    }

    /// Adds the inputs that were given behind the kept state to others.
    pub(crate) fn add_inputs(&self, inputs: &mut Vec<Input, A>) -> Result<(), NoMemory> {
        for input in self.inputs.iter().skip(self.before_base) {
            inputs.push(*input).map_err(|_| NoMemory)?;
        }
        Ok(())
    }

    /// Something happened.
    pub(crate) fn note_activity(&mut self) {
        self.stirred = self.extent.events;
    }

    /// Something new is seen.
    pub(crate) fn sees_new(&mut self) {
        self.stirred = self.extent.events;
        self.last_asked = self.extent.events;
    }

    /// The program asks for an input. False if the run is over, since nothing was new for long.
    pub(crate) fn is_asked(&mut self) -> bool {
        self.has_asked = true;
        if self.novelty.is_any {
            self.last_new = self.extent.events;
        }
        self.novelty = Novelty::NONE;
        self.since(self.last_new) <= self.most_stale && self.extent.is_short()
    }

    /// Gives the machine an event that is no step.
    fn give<D: Allocator>(
        &mut self,
        watcher: &mut Watcher<A>,
        declaration: &Declaration<D>,
        event: Event,
    ) -> Result<(), NoMemory>
        requires profile { profile_of watcher.old.world ≡ (meaning declaration.now).profile }
        ensures profile { profile_of watcher.new.world ≡ (meaning declaration.now).profile }
    {
        let steps = self.since(self.written);
        self.write_steps();
        self.script.add(&event)?;
        self.extent.add(steps, &event);
        self.written = self.extent.events;
        self.note_activity();
        watcher.next(declaration, event)?;
        Ok(())
    }

    /// Gives the machine an input that it asks for.
    pub(crate) fn answer<D: Allocator>(
        &mut self,
        watcher: &mut Watcher<A>,
        declaration: &Declaration<D>,
        input: Input,
    ) -> Result<(), NoMemory>
        requires profile { profile_of watcher.old.world ≡ (meaning declaration.now).profile }
        ensures profile { profile_of watcher.new.world ≡ (meaning declaration.now).profile }
    {
        self.inputs.push(input).map_err(|_| NoMemory)?;
        self.sees_new();
        let word = Word::from_index((input.value & 0o7777) as usize);
        let event = match input.ask {
            InputRequest::Key => Event::Key(word.low_byte()),
            InputRequest::Frame => Event::ReaderDone(word.low_byte()),
            InputRequest::Switches => Event::Switches(word),
        };
        if matches!(input.ask, InputRequest::Switches) && watcher.world().panel().switches == word {
            return Ok(());
        }
        self.give(watcher, declaration, event)
    }

    /// Lets the printer and the punch get done, if it is time.
    #[inline(always)]
    pub(crate) fn complete<D: Allocator>(
        &mut self,
        watcher: &mut Watcher<A>,
        declaration: &Declaration<D>,
        random: &mut Random,
    ) -> Result<(), NoMemory>
        requires profile { profile_of watcher.old.world ≡ (meaning declaration.now).profile }
        ensures profile { profile_of watcher.new.world ≡ (meaning declaration.now).profile }
    {
        let panel = watcher.world().panel();
        if panel.printer.busy && self.timing.ends_printing(random) {
            self.give(watcher, declaration, Event::PrinterDone)?;
        }
        if panel.punch.busy && self.timing.ends_punching(random) {
            self.give(watcher, declaration, Event::PunchDone)?;
        }
        Ok(())
    }

    /// Makes a step, and presses CONTINUE behind one that halts at a pause.
    #[inline(always)]
    pub(crate) fn step<D: Allocator>(
        &mut self,
        watcher: &mut Watcher<A>,
        declaration: &Declaration<D>,
        turns: &mut Turns,
    ) -> Result<Progress, NoMemory>
        requires profile { profile_of watcher.old.world ≡ (meaning declaration.now).profile }
        ensures profile { profile_of watcher.new.world ≡ (meaning declaration.now).profile }
        ensures limit { turns.new.limit ≡ turns.old.limit }
        ensures rises { turns.old.spent ≤ turns.new.spent }
        ensures within { turns.new.spent ≤ turns.new.limit }
    {
        match take_step(watcher, declaration, turns)? {
            StepVerdict::NoTurn => return Ok(Progress::Over),
            StepVerdict::Broke => return Ok(Progress::Broken),
            StepVerdict::Kept => self.extent.step(),
        }
        match watcher.world().halted_at() {
            None => Ok(self.goes_on(watcher)),
            Some(at) if declaration.is_stop(at) => Ok(Progress::Over),
            Some(_) => {
                self.give(watcher, declaration, Event::Continue)?;
                Ok(Progress::GoesOn)
            }
        }
    }

    /// Puts the last steps into the script.
    pub(crate) fn write_steps(&mut self) {
        let steps = self.since(self.written);
        self.script.add_steps(steps);
        self.written = self.extent.events;
    }

    /// How many events there were since there were so many.
    fn since(&self, events: u32) -> u32 {
        self.extent.events.saturating_sub(events)
    }

    /// Whether the run goes on, by how long nothing has happened.
    #[inline(always)]
    fn goes_on(&mut self, watcher: &Watcher<A>) -> Progress {
        if self.extent.events <= self.certain {
            Progress::GoesOn
        } else {
            self.still_goes_on(watcher)
        }
    }

    /// Whether the run goes on, and up to how many events that is certain then.
    #[inline(never)]
    fn still_goes_on(&mut self, watcher: &Watcher<A>) -> Progress {
        let last = self.last_notable();
        if self.since(last) > MOST_QUIET || self.waits(watcher) {
            return Progress::Over;
        }
        let quiet = last.saturating_add(MOST_QUIET);
        let idle = self.stirred.saturating_add(MOST_IDLE);
        self.certain = if self.purpose.is_long() || quiet < idle {
            quiet
        } else {
            idle
        };
        Progress::GoesOn
    }

    /// How many events there were when the run last had a reason to go on: something was new or asked for, or, in a
    /// run in which no key is struck, something happened.
    fn last_notable(&self) -> u32 {
        match self.purpose {
            Purpose::Plain => self.stirred,
            Purpose::Explore | Purpose::Extend | Purpose::Repeat => self.last_asked,
        }
    }

    /// Whether nothing has happened for long, and no completion is still to come.
    fn waits(&self, watcher: &Watcher<A>) -> bool {
        if self.since(self.stirred) <= MOST_IDLE || self.purpose.is_long() {
            return false;
        }
        let panel = watcher.world().panel();
        !(self.timing.gets_done() && (panel.printer.busy || panel.punch.busy))
    }
}
