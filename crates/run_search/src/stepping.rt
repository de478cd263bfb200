//! One step of a run: what it asks for is given, devices get done, and what is new is noted.

ghost use Rattle.std.specs.Prelude.{◌≡◌, ◌≤◌};
ghost use Rattle.declaration.specs.DeclarationInCode.{meaning};
ghost use Rattle.peripherals.specs.World.{profile_of};

use crate::assertions::{NextReturn, asserted_word, beyond_assertion};
use crate::corpus::InputSuffix;
use crate::failed_tests::FailedTest;
use crate::feedback::Feedback;
use crate::input_request::InputRequest;
use crate::plan::{Plan, Purpose};
use crate::record::StepRecord;
use crate::running::{Input, Progress, Run};
use crate::search::{ActiveRun, DeclaredProgram, RunSearch};
use declaration::{Assertion, Declaration};
use instruct::target;
use peripherals::NoMemory;
use policy::Watcher;
use processor::{Cpu, effective_address};
use std::alloc::Allocator;
use turns::Turns;
use word12::Word;

/// What is seen before a step.
#[derive(Clone, Copy)]
struct StepObservation {
    at: Word,
    ac: Word,
    look: Feedback,
    /// The address that an indirect reference uses, or the cell that a direct one stores in.
    place: Word,
}

impl<A: Allocator + Copy> RunSearch<A> {
    /// Makes the next step of a run, for which all may be prepared.
    #[inline(always)]
    pub(crate) fn advance<D: Allocator>(
        &mut self,
        program: &DeclaredProgram<'_, D>,
        trial: &mut ActiveRun<A>,
        is_prepared: bool,
        turns: &mut Turns,
    ) -> Result<Progress, NoMemory>
        requires profile { profile_of trial.old.watcher.world
            ≡ (meaning program.now.declaration.now).profile }
        ensures profile { profile_of trial.new.watcher.world
            ≡ (meaning program.now.declaration.now).profile }
        ensures limit { turns.new.limit ≡ turns.old.limit }
        ensures rises { turns.old.spent ≤ turns.new.spent }
        ensures within { turns.new.spent ≤ turns.new.limit }
    {
        turns.are_within();
        let observation = self.glance(&trial.watcher);
        if !is_prepared && !self.prepare(program, trial, observation.look)? {
            return Ok(Progress::Over);
        }
        if self.records {
            return self.step_recorded(program, trial, turns);
        }
        self.step(program, trial, &observation, turns)
    }

    /// Gives what the next step asks for, and lets devices get done. False if the run is over.
    #[inline(always)]
    fn prepare<D: Allocator>(
        &mut self,
        program: &DeclaredProgram<'_, D>,
        trial: &mut ActiveRun<A>,
        look: Feedback,
    ) -> Result<bool, NoMemory>
        requires profile { profile_of trial.old.watcher.world
            ≡ (meaning program.now.declaration.now).profile }
        ensures profile { profile_of trial.new.watcher.world
            ≡ (meaning program.now.declaration.now).profile }
    {
        if let Feedback::Asks(ask) = look {
            if !self.answer(program, trial, ask)? {
                return Ok(false);
            }
        }
        let ActiveRun { watcher, run, .. } = trial;
        run.complete(watcher, program.declaration, &mut self.random)?;
        Ok(true)
    }

    /// Gives what the next step asks for, if it comes now. False if the run is over.
    #[inline(never)]
    fn answer<D: Allocator>(
        &mut self,
        program: &DeclaredProgram<'_, D>,
        trial: &mut ActiveRun<A>,
        ask: InputRequest,
    ) -> Result<bool, NoMemory>
        requires profile { profile_of trial.old.watcher.world
            ≡ (meaning program.now.declaration.now).profile }
        ensures profile { profile_of trial.new.watcher.world
            ≡ (meaning program.now.declaration.now).profile }
    {
        let ActiveRun {
            watcher,
            run,
            plan,
            ..
        } = trial;
        if !self.comes(watcher, run, plan, ask) {
            return Ok(true);
        }
        self.keep(watcher, run, ask)?;
        if !run.is_asked() {
            return Ok(false);
        }
        let number = run.inputs.len();
        let Some(value) = plan.input(number, ask, &self.dictionary, &mut self.random) else {
            return Ok(false);
        };
        run.timing.gave_input(&mut self.random);
        run.answer(watcher, program.declaration, Input { ask, value })?;
        Ok(true)
    }

    /// Whether an input that the next step asks for comes now.
    fn comes(
        &mut self,
        watcher: &Watcher<A>,
        run: &mut Run<A>,
        plan: &Plan<A>,
        ask: InputRequest,
    ) -> bool {
        if !ask.is_wanted(&watcher.world().panel()) {
            return false;
        }
        if plan.purpose == Purpose::Plain {
            return self.comes_without_keys(ask);
        }
        if matches!(ask, InputRequest::Switches) {
            return true;
        }
        let looks_away = plan.purpose == Purpose::Explore && self.random.once_in(8);
        run.timing.gives_input() && !looks_away
    }

    /// Whether an input comes in a run in which no key is struck.
    fn comes_without_keys(&mut self, ask: InputRequest) -> bool {
        let comes = !matches!(ask, InputRequest::Key);
        self.asks_without_keys |= comes;
        comes
    }

    /// Keeps the state in which an input is requested, if something new was seen.
    fn keep(
        &mut self,
        watcher: &Watcher<A>,
        run: &mut Run<A>,
        ask: InputRequest,
    ) -> Result<(), NoMemory> {
        if !run.novelty.is_any
            || !run.has_asked
            || !self.corpus.has_room()
            || !run.extent.is_short()
        {
            return Ok(());
        }
        let place = if run.novelty.is_step {
            None
        } else {
            Some(run.novelty.place)
        };
        let mut tail = InputSuffix {
            base: run.base,
            inputs: Vec::new(self.alloc),
        };
        run.add_inputs(&mut tail.inputs)?;
        let script = run.take_script(self.alloc);
        run.before_base = run.inputs.len();
        run.base = self
            .corpus
            .keep(watcher, tail, script, run.extent, ask, place)?;
        Ok(())
    }

    /// What is to be seen before the next step of a machine that is watched.
    #[inline(always)]
    fn glance(&self, watcher: &Watcher<A>) -> StepObservation {
        let cpu = watcher.world().cpu();
        let word = cpu.memory.get(cpu.pc);
        let look = self.looks[word.index()];
        let place = match look {
            Feedback::Address | Feedback::StoredIndirectly => {
                effective_address(&cpu.memory, word, cpu.pc)
            }
            Feedback::Stored => target(word, cpu.pc),
            _ => Word::ZERO,
        };
        StepObservation {
            at: cpu.pc,
            ac: cpu.ac,
            look,
            place,
        }
    }

    /// Makes a step, and notes what is new.
    #[inline(always)]
    fn step<D: Allocator>(
        &mut self,
        program: &DeclaredProgram<'_, D>,
        trial: &mut ActiveRun<A>,
        observation: &StepObservation,
        turns: &mut Turns,
    ) -> Result<Progress, NoMemory>
        requires profile { profile_of trial.old.watcher.world
            ≡ (meaning program.now.declaration.now).profile }
        ensures profile { profile_of trial.new.watcher.world
            ≡ (meaning program.now.declaration.now).profile }
        ensures limit { turns.new.limit ≡ turns.old.limit }
        ensures rises { turns.old.spent ≤ turns.new.spent }
        ensures within { turns.new.spent ≤ turns.new.limit }
    {
        let progress = trial
            .run
            .step(&mut trial.watcher, program.declaration, turns)?;
        if progress != Progress::GoesOn {
            return Ok(progress);
        }
        if observation.look.is_store() {
            trial.run.note_activity();
        }
        if trial.plan.purpose != Purpose::Repeat {
            self.note(&trial.watcher, &mut trial.run, &trial.plan, observation)?;
            if self.asserted.contains(trial.watcher.world().cpu().pc) {
                let ActiveRun {
                    watcher,
                    run,
                    plan,
                    ..
                } = trial;
                self.note_assertions(program.declaration, watcher, run, plan)?;
            }
        }
        Ok(progress)
    }

    /// Makes a step, and records what it does, if it is made.
    #[inline(never)]
    fn step_recorded<D: Allocator>(
        &mut self,
        program: &DeclaredProgram<'_, D>,
        trial: &mut ActiveRun<A>,
        turns: &mut Turns,
    ) -> Result<Progress, NoMemory>
        requires profile { profile_of trial.old.watcher.world
            ≡ (meaning program.now.declaration.now).profile }
        ensures profile { profile_of trial.new.watcher.world
            ≡ (meaning program.now.declaration.now).profile }
        ensures limit { turns.new.limit ≡ turns.old.limit }
        ensures rises { turns.old.spent ≤ turns.new.spent }
        ensures within { turns.new.spent ≤ turns.new.limit }
    {
        let step_record = StepRecord::of(&trial.watcher);
        let observation = self.glance(&trial.watcher);
        let before = turns.spent();
        let progress = self.step(program, trial, &observation, turns)?;
        let is_made = turns.spent() != before && progress != Progress::Broken;
        if is_made && trial.plan.purpose != Purpose::Repeat {
            self.record.makes(&step_record);
        }
        Ok(progress)
    }

    /// Notes what is new after a step.
    #[inline(always)]
    fn note(
        &mut self,
        watcher: &Watcher<A>,
        run: &mut Run<A>,
        plan: &Plan<A>,
        observation: &StepObservation,
    ) -> Result<(), NoMemory> {
        let cpu = watcher.world().cpu();
        if self.seen.sees_step(observation.at, cpu.pc) {
            run.novelty.is_any = true;
            run.novelty.is_step = true;
            run.sees_new();
        }
        match observation.look {
            Feedback::Nothing | Feedback::Asks(_) => {}
            Feedback::Address | Feedback::StoredIndirectly => {
                self.note_value(run, observation.at, observation.place);
            }
            Feedback::Stored => self.note_value(
                run,
                observation.at,
                cpu.memory.get(observation.place),
            ),
            Feedback::Zero | Feedback::Sign => {
                if observation.ac != Word::ZERO {
                    let miss = FailedTest {
                        at: observation.at,
                        ac: observation.ac.value(),
                        is_for_zero: observation.look == Feedback::Zero,
                    };
                    self.note_miss(run, plan, miss)?;
                }
            }
        }
        Ok(())
    }

    /// Notes the words of which something is declared to hold before the next step, and how far they are from words that are not
    /// declared.
    #[inline(never)]
    fn note_assertions<D: Allocator>(
        &mut self,
        declaration: &Declaration<D>,
        watcher: &Watcher<A>,
        run: &mut Run<A>,
        plan: &Plan<A>,
    ) -> Result<(), NoMemory> {
        let cpu = watcher.world().cpu();
        for holding in declaration.holds() {
            if holding.places().contains(cpu.pc) {
                self.note_assertion(holding.assertion(), cpu, run, plan)?;
            }
        }
        match NextReturn::of(declaration, cpu, watcher.calls()) {
            Some(next) => self.note_return(declaration, cpu, &next, run, plan),
            None => Ok(()),
        }
    }

    /// Notes how far what is declared to hold at the return that comes next is from being false.
    fn note_return<D: Allocator>(
        &mut self,
        declaration: &Declaration<D>,
        cpu: &Cpu,
        next: &NextReturn,
        run: &mut Run<A>,
        plan: &Plan<A>,
    ) -> Result<(), NoMemory> {
        for returning in declaration.returns() {
            if next.is_among(returning.entry(), returning.offsets()) {
                self.note_assertion(returning.assertion(), cpu, run, plan)?;
            }
        }
        Ok(())
    }

    /// Notes the word of which an assertion speaks, and how far it is from one that is not asserted.
    fn note_assertion(
        &mut self,
        assertion: &Assertion,
        cpu: &Cpu,
        run: &mut Run<A>,
        plan: &Plan<A>,
    ) -> Result<(), NoMemory> {
        let word = asserted_word(assertion, cpu);
        self.note_value(run, cpu.pc, word);
        let Some(beyond) = beyond_assertion(assertion, word) else {
            return Ok(());
        };
        let miss = FailedTest {
            at: cpu.pc,
            ac: beyond,
            is_for_zero: true,
        };
        self.note_miss(run, plan, miss)
    }

    /// Notes an address that was used or a word that was stored.
    fn note_value(&mut self, run: &mut Run<A>, at: Word, value: Word) {
        if self.seen.sees_value(at, value) {
            if !run.novelty.is_any || self.seen.count(at) < self.seen.count(run.novelty.place) {
                run.novelty.place = at;
            }
            run.novelty.is_any = true;
            run.sees_new();
        }
    }

    /// Notes a test that failed.
    #[inline(never)]
    fn note_miss(
        &mut self,
        run: &mut Run<A>,
        plan: &Plan<A>,
        miss: FailedTest,
    ) -> Result<(), NoMemory> {
        if self.seen.sees_distance(miss.at, miss.distance()) {
            if !run.novelty.is_any {
                run.novelty.place = miss.at;
            }
            run.novelty.is_any = true;
        }
        if !miss.hints() {
            return Ok(());
        }
        let goal = plan.goal;
        self.failed_tests.miss(
            &self.corpus,
            run,
            miss,
            goal,
            &mut self.dictionary,
            &mut self.random,
        )
    }
}
