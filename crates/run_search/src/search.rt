//! The search: run after run, until one violates a rule.

ghost use Rattle.std.specs.Prelude.{◌≡◌, ◌≤◌, IfOk, OnOk};
ghost use Rattle.declaration.specs.DeclarationInCode.{meaning};
ghost use Rattle.peripherals.specs.World.{profile_of};

use crate::assertions::asserted_places;
use crate::corpus::{Corpus, InputSuffix, start_of};
use crate::coverage::Coverage;
use crate::dictionary::Dictionary;
use crate::failed_tests::FailedTests;
use crate::feedback::{Feedback, looks};
use crate::plan::{Plan, Purpose};
use crate::random::Random;
use crate::record::{Record, StepRecord};
use crate::running::{Input, Progress, Run};
use crate::script::{Script, ScriptLength};
use crate::shorten::shortened;
use crate::timing::Timing;
use bin_tape::Image;
use declaration::Declaration;
use peripherals::NoMemory;
use policy::Watcher;
use std::alloc::Allocator;
use turns::Turns;
use wordset::WordSet;

/// Steps before the first lesson from failed tests.
const FIRST_LESSON: u32 = 200_000;

/// A search with fewer turns than this is a short one.
const SHORT_SEARCH: u32 = 100_000;

/// In a short search a long run takes at most one of so many turns, so that shorter runs come too.
const LONG_PART: u32 = 16;

/// So many steps a long run may make in any search.
const LEAST_LONG: u32 = 1000;

/// The most steps that a long run makes in a search with so many turns.
fn most_of_long_run(limit: u32) -> u32 {
    if limit < SHORT_SEARCH {
        (limit / LONG_PART).max(LEAST_LONG)
    } else {
        u32::MAX
    }
}

/// A program with its declaration.
#[derive(Drop)]
pub struct DeclaredProgram<'a, D: Allocator> {
    /// What is on its tape.
    pub image: &'a Image,
    /// What it may do.
    pub declaration: &'a Declaration<D>,
}

/// A search for a run that violates a rule, with what it learned so far.
#[derive(Drop)]
pub struct RunSearch<A: Allocator> {
    pub(crate) alloc: A,
    pub(crate) random: Random,
    pub(crate) dictionary: Dictionary<A>,
    /// What is worth a look at each of the 4096 words.
    pub(crate) looks: [Feedback; 4096],
    /// The places at which something is declared to hold, there or when control returns from there.
    pub(crate) asserted: WordSet,
    pub(crate) seen: Coverage<A>,
    pub(crate) corpus: Corpus<A>,
    pub(crate) failed_tests: FailedTests<A>,
    pub(crate) record: Record<A>,
    /// Whether what steps do is recorded: that takes time.
    pub(crate) records: bool,
    /// The steps that were made, and one for each run without a step.
    pub(crate) clock: u32,
    /// What it was when the last run began.
    pub(crate) begun: u32,
    /// The steps of long runs.
    pub(crate) roamed: u32,
    /// How many runs without a key were begun at the start.
    pub(crate) plain: usize,
    /// Whether one of them asked for a frame or for the switches.
    pub(crate) asks_without_keys: bool,
    /// The step from which on the next lesson is due.
    pub(crate) lesson: u32,
}

/// A run that violated a rule: its events, and its inputs.
#[derive(Drop)]
pub(crate) struct ViolatingRun<A: Allocator> {
    pub(crate) script: Script<A>,
    pub(crate) inputs: Vec<Input, A>,
}

/// A run that can go on.
#[derive(Drop)]
pub struct ActiveRun<A: Allocator> {
    /// The machine, and the calls that have not returned.
    pub watcher: Watcher<A>,
    pub(crate) run: Run<A>,
    pub(crate) plan: Plan<A>,
    /// Whether the next step was tried before, and violated a rule: what it asks for is given.
    is_tried: bool,
    /// How many more steps it makes at most.
    left: u32,
}

impl<A: Allocator + Copy> ActiveRun<A> {
    /// A run that makes no step: to be lent to a search, which begins it anew.
    pub fn new<D: Allocator>(alloc: A, program: &DeclaredProgram<'_, D>) -> ActiveRun<A>
        ensures profile { profile_of result.watcher.world
            ≡ (meaning program.now.declaration.now).profile }
    {
        let plan = Plan::of(alloc, Purpose::Repeat, 0, Vec::new(alloc));
        ActiveRun {
            watcher: start_of(alloc, program),
            run: Run::of(alloc, &plan, ScriptLength::NONE, Timing::prompt()),
            plan,
            is_tried: false,
            left: 0,
        }
    }
}

impl<A: Allocator + Copy> RunSearch<A> {
    /// Before the first run. The same seed gives the same runs.
    ///
    /// # Errors
    ///
    /// `NoMemory` where memory was refused.
    pub fn new<D: Allocator>(
        alloc: A,
        program: &DeclaredProgram<'_, D>,
        seed: u64,
    ) -> Result<RunSearch<A>, NoMemory> {
        Ok(RunSearch {
            alloc,
            random: Random::new(seed),
            dictionary: Dictionary::of(alloc, program.image)?,
            looks: looks(program.declaration.profile()),
            asserted: asserted_places(program.image, program.declaration),
            seen: Coverage::nothing(alloc)?,
            corpus: Corpus::new(alloc, program)?,
            failed_tests: FailedTests::none(alloc)?,
            record: Record::nothing(alloc)?,
            records: false,
            clock: 0,
            begun: 0,
            roamed: 0,
            plain: 0,
            asks_without_keys: false,
            lesson: FIRST_LESSON,
        })
    }

    /// A search before its first run that records what steps do.
    ///
    /// # Errors
    ///
    /// `NoMemory` where memory was refused.
    pub fn recording<D: Allocator>(
        alloc: A,
        program: &DeclaredProgram<'_, D>,
        seed: u64,
    ) -> Result<RunSearch<A>, NoMemory> {
        let mut search = RunSearch::new(alloc, program, seed)?;
        search.records = true;
        Ok(search)
    }

    /// One run, for which a trial is lent: it is begun anew. If the run violates a rule, what is told are
    /// its events as a text, without those that are not needed, as far as that was found out. A turn is
    /// taken for each step.
    ///
    /// # Errors
    ///
    /// `NoMemory` where a growth was refused.
    pub fn try_run<D: Allocator>(
        &mut self,
        program: &DeclaredProgram<'_, D>,
        trial: &mut ActiveRun<A>,
        turns: &mut Turns,
    ) -> Result<Option<Vec<u8, A>>, NoMemory>
        ensures limit { turns.new.limit ≡ turns.old.limit }
        ensures rises { turns.old.spent ≤ turns.new.spent }
        ensures within { turns.new.spent ≤ turns.new.limit }
    {
        let Some(found) = self.round(program, trial, turns)? else {
            return Ok(None);
        };
        let script = shortened(self.alloc, self, program, trial, found, turns)?;
        Ok(Some(script.text(self.alloc)?))
    }

    /// One run, up to a step that violates a rule.
    fn round<D: Allocator>(
        &mut self,
        program: &DeclaredProgram<'_, D>,
        trial: &mut ActiveRun<A>,
        turns: &mut Turns,
    ) -> Result<Option<ViolatingRun<A>>, NoMemory>
        ensures limit { turns.new.limit ≡ turns.old.limit }
        ensures rises { turns.old.spent ≤ turns.new.spent }
        ensures within { turns.new.spent ≤ turns.new.limit }
    {
        turns.are_within();
        let plan = self.next_plan()?;
        self.follow(program, plan, trial, turns)
    }

    /// Begins a run, which makes no step yet. The same seed begins the same runs, as long as all steps
    /// of those before kept the rules.
    ///
    /// # Errors
    ///
    /// `NoMemory` where a growth was refused.
    pub fn begin<D: Allocator>(
        &mut self,
        program: &DeclaredProgram<'_, D>,
    ) -> Result<ActiveRun<A>, NoMemory>
        ensures profile { IfOk result (λ trial. profile_of trial.watcher.world
            ≡ (meaning program.now.declaration.now).profile) }
    {
        let plan = self.next_plan()?;
        let mut trial = ActiveRun::new(self.alloc, program);
        self.restart(program, plan, &mut trial)?;
        Ok(trial)
    }

    /// Begins a trial anew, by a plan.
    fn restart<D: Allocator>(
        &mut self,
        program: &DeclaredProgram<'_, D>,
        plan: Plan<A>,
        trial: &mut ActiveRun<A>,
    ) -> Result<(), NoMemory>
        ensures profile { OnOk result (profile_of trial.new.watcher.world
            ≡ (meaning program.now.declaration.now).profile) }
    {
        self.corpus.restore(program, plan.base, &mut trial.watcher)?;
        let extent = self.corpus.extent(plan.base);
        trial.run = Run::new(self.alloc, &plan, extent, &mut self.random);
        trial.plan = plan;
        trial.is_tried = false;
        trial.left = trial.plan.purpose.most_steps();
        Ok(())
    }

    /// Runs by a plan, until a rule is violated or the run is over.
    pub(crate) fn follow<D: Allocator>(
        &mut self,
        program: &DeclaredProgram<'_, D>,
        plan: Plan<A>,
        trial: &mut ActiveRun<A>,
        turns: &mut Turns,
    ) -> Result<Option<ViolatingRun<A>>, NoMemory>
        ensures limit { turns.new.limit ≡ turns.old.limit }
        ensures rises { turns.old.spent ≤ turns.new.spent }
        ensures within { turns.new.spent ≤ turns.new.limit }
    {
        turns.are_within();
        self.restart(program, plan, trial)?;
        if trial.plan.purpose.is_long() {
            trial.left = trial.left.min(most_of_long_run(turns.limit()));
        }
        if !self.go_on(program, trial, turns)? {
            return Ok(None);
        }
        Ok(Some(self.found(&mut trial.run)?))
    }

    /// Makes the steps of a run. True if the next one violates a rule: it is not made, and where the run
    /// goes on later, by a declaration that allows more, it is tried again. False if the run is over, or
    /// all turns are spent. A turn is taken for each step, and for one that violates a rule.
    ///
    /// # Errors
    ///
    /// `NoMemory` where a growth was refused.
    pub fn go_on<D: Allocator>(
        &mut self,
        program: &DeclaredProgram<'_, D>,
        trial: &mut ActiveRun<A>,
        turns: &mut Turns,
    ) -> Result<bool, NoMemory>
        requires profile { profile_of trial.old.watcher.world
            ≡ (meaning program.now.declaration.now).profile }
        ensures profile { profile_of trial.new.watcher.world
            ≡ (meaning program.now.declaration.now).profile }
        ensures limit { turns.new.limit ≡ turns.old.limit }
        ensures rises { turns.old.spent ≤ turns.new.spent }
        ensures within { turns.new.spent ≤ turns.new.limit }
    {
        turns.are_within();
        let before = turns.spent();
        let breaks = self.make_steps(program, trial, turns)?;
        trial.is_tried = breaks;
        let spent = turns.spent().saturating_sub(before);
        let made = spent.saturating_sub(breaks as u32);
        trial.left = trial.left.saturating_sub(made);
        self.count(&trial.plan, made);
        Ok(breaks)
    }

    /// Counts the steps that a run made.
    fn count(&mut self, plan: &Plan<A>, made: u32) {
        if plan.purpose != Purpose::Repeat {
            self.clock = self.clock.saturating_add(made);
        }
        if plan.purpose.is_long() {
            self.roamed = self.roamed.saturating_add(made);
        }
    }

    /// Makes the steps of a run. True if the next one violates a rule.
    fn make_steps<D: Allocator>(
        &mut self,
        program: &DeclaredProgram<'_, D>,
        trial: &mut ActiveRun<A>,
        turns: &mut Turns,
    ) -> Result<bool, NoMemory>
        requires profile { profile_of trial.old.watcher.world
            ≡ (meaning program.now.declaration.now).profile }
        ensures profile { profile_of trial.new.watcher.world
            ≡ (meaning program.now.declaration.now).profile }
        ensures limit { turns.new.limit ≡ turns.old.limit }
        ensures rises { turns.old.spent ≤ turns.new.spent }
        ensures within { turns.new.spent ≤ turns.new.limit }
    {
        turns.are_within();
        // What a step that was tried before asks for is given.
        let mut is_prepared = trial.is_tried;
        for _step in 0..trial.left {
            match self.advance(program, trial, is_prepared, turns)? {
                Progress::GoesOn => is_prepared = false,
                Progress::Over => return Ok(false),
                Progress::Broken => return Ok(true),
            }
        }
        Ok(false)
    }

    /// What steps were seen to do in all runs so far, apart from those that only violate a rule once
    /// more; nothing but how many runs there were, where that is not recorded.
    pub fn record(&self) -> &Record<A> {
        &self.record
    }

    /// Records a step that is about to be made.
    pub fn sees(&mut self, step_record: &StepRecord) {
        self.record.sees(step_record);
    }

    /// The whole of a run that violated a rule, from the start.
    fn found(&self, run: &mut Run<A>) -> Result<ViolatingRun<A>, NoMemory> {
        run.write_steps();
        let mut script = self.corpus.script(run.base)?;
        script.append(&run.script)?;
        script.add_step();
        let InputSuffix { mut inputs, .. } = self.corpus.tail(run.base, usize::MAX)?;
        run.add_inputs(&mut inputs)?;
        Ok(ViolatingRun { script, inputs })
    }
}
