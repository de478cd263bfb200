//! What runs are seen to do. The search for a run that violates a declaration drives the tape, and
//! the declaration by which it is watched is widened wherever a step breaks it, as far as one can be.

ghost use Rattle.std.specs.Prelude.{◌≡◌};
ghost use Rattle.declaration.specs.DeclarationInCode.{meaning};
ghost use Rattle.peripherals.specs.World.{profile_of};

use crate::ObservedRuns;
use crate::map::Map;
use crate::tape::{SeenReturn, Tape, Visit, Visits};
use crate::variables::VariableSelection;
use bin_tape::Image;
use declaration::{Declaration, DeclarationFault, Owner};
use instruct::{Instruction, Operation, decode, halts, refers_indirectly, target};
use peripherals::NoMemory;
use policy::Watcher;
use processor::{effective_address, is_auto_index};
use run_search::{ActiveRun, DeclaredProgram, Record, RunSearch, StepRecord};
use std::alloc::Allocator;
use tape_walk::ProgramPoint;
use turns::Turns;
use word12::Word;
use wordset::WordSet;

/// How many steps are tried at most in all runs, with those that violate a declaration.
const MOST_STEPS: u32 = 3_000_000;

/// How many runs are made at most: a tape on which each is short has shown by then what it does.
const MOST_RUNS: u32 = 20_000;

/// How often the declaration is widened at most.
const MOST_LESSONS: u32 = 1024;

/// How often a step is tried again at most for which it was widened.
const MOST_STALLS: u32 = 4;

/// With which seed runs are made: that of `refute`.
const SEED: u64 = 1;

/// What runs were seen to do.
#[derive(Drop)]
pub struct Findings<A: Allocator> {
    /// The program's control, with what was seen of it.
    pub map: Map,
    /// From where steps were made.
    pub(crate) places: Vec<Visit, A>,
    pub(crate) owners: Vec<Option<Owner>, A>,
    pub(crate) returns: Vec<SeenReturn, A>,
    /// The cells that were written, and those in which an instruction of a body stores by name.
    pub variables: WordSet,
    pub(crate) seen: ObservedRuns,
}

impl<A: Allocator> Findings<A> {
    /// A tape, with what the runs were seen to do.
    pub fn tape<'a>(&'a self, image: &'a Image) -> Tape<'a>
        ensures { result.image.now ≡ image.now }
    {
        Tape {
            image,
            visits: Some(Visits {
                places: &self.places,
                owners: &self.owners,
                returns: &self.returns,
                seen: self.seen,
            }),
        }
    }
}

/// What a step teaches that violates a declaration.
#[derive(Clone, Copy, PartialEq, Eq)]
enum Refinement {
    /// Nothing.
    Nothing,
    /// What a declaration has to allow.
    New,
    /// That no declaration allows it beside what was seen before.
    Never,
}

impl Refinement {
    /// What both teach.
    fn and(self, other: Refinement) -> Refinement {
        match (self, other) {
            (Refinement::Never, _) | (_, Refinement::Never) => Refinement::Never,
            (Refinement::Nothing, Refinement::Nothing) => Refinement::Nothing,
            _ => Refinement::New,
        }
    }
}

/// What is learned so far.
#[derive(Drop)]
struct Exploration<A: Allocator> {
    alloc: A,
    map: Map,
    places: Vec<Visit, A>,
    /// The returns by offsets of which the words do not tell.
    returns: Vec<SeenReturn, A>,
    /// The entries to which a JMS was seen to go.
    called: WordSet,
    /// The declaration by which runs are watched. All cells that are no code may change.
    declaration: Declaration<A>,
    lessons: u32,
    /// Whether what was learned cannot be declared.
    is_undeclarable: bool,
}

/// What runs of a tape's program are seen to do, beside what its words tell; none if that cannot be
/// declared.
pub fn explore_runs<A: Allocator + Copy>(
    alloc: A,
    image: &Image,
    map: &Map,
) -> Result<Option<Findings<A>>, NoMemory> {
    let tape = Tape::of(image);
    let Some(declaration) = declared(alloc, &tape, map)? else {
        return Ok(None);
    };
    let program = DeclaredProgram {
        image,
        declaration: &declaration,
    };
    let mut search = RunSearch::recording(alloc, &program, SEED)?;
    let mut survey = Exploration {
        alloc,
        map: *map,
        places: Vec::new(alloc),
        returns: Vec::new(alloc),
        called: WordSet::empty(),
        declaration,
        lessons: 0,
        is_undeclarable: false,
    };
    let mut turns = Turns::new(MOST_STEPS);
    for _run in 0..MOST_RUNS {
        if turns.spent() >= turns.limit() || survey.is_undeclarable {
            break;
        }
        survey.run(image, &mut search, &mut turns)?;
    }
    survey.finish(image, &search)
}

/// The runs of a record.
fn seen_in<A: Allocator>(record: &Record<A>) -> ObservedRuns {
    ObservedRuns {
        runs: record.runs,
        steps: record.steps,
    }
}

/// The declaration of a map, in which all cells that are no code may change; none if it cannot be
/// declared.
fn declared<A: Allocator + Copy>(
    alloc: A,
    tape: &Tape<'_>,
    map: &Map,
) -> Result<Option<Declaration<A>>, NoMemory> {
    let text = map.text(
        alloc,
        tape,
        &map.variables(tape.image, VariableSelection::Data),
    )?;
    match Declaration::parse(alloc, &text) {
        Ok(found) => Ok(Some(found)),
        Err(DeclarationFault::NoMemory) => Err(NoMemory),
        Err(_) => Ok(None),
    }
}

impl<A: Allocator + Copy> Exploration<A> {
    /// One run, in which the declaration is widened where a step breaks it, as long as one can be.
    fn run(
        &mut self,
        image: &Image,
        search: &mut RunSearch<A>,
        turns: &mut Turns,
    ) -> Result<(), NoMemory> {
        let before = turns.spent();
        let program = DeclaredProgram {
            image,
            declaration: &self.declaration,
        };
        let mut trial = search.begin(&program)?;
        let mut last = before;
        let mut stalls = 0u32;
        for _lesson in 0..MOST_LESSONS {
            if stalls >= MOST_STALLS || !self.goes_on(image, search, &mut trial, turns)? {
                break;
            }
            let is_stalled = turns.spent() <= last.saturating_add(1);
            stalls = if is_stalled {
                stalls.saturating_add(1)
            } else {
                0
            };
            last = turns.spent();
        }
        if turns.spent() == before {
            match turns.take() {
                Ok(()) | Err(_) => {}
            }
        }
        Ok(())
    }

    /// Goes on with a run up to a step that violates the declaration, which is widened then. False if the
    /// run is over.
    fn goes_on(
        &mut self,
        image: &Image,
        search: &mut RunSearch<A>,
        trial: &mut ActiveRun<A>,
        turns: &mut Turns,
    ) -> Result<bool, NoMemory>
        requires profile { profile_of trial.old.watcher.world
            ≡ (meaning self.old.declaration).profile }
        ensures profile { profile_of trial.new.watcher.world
            ≡ (meaning self.new.declaration).profile }
    {
        let program = DeclaredProgram {
            image,
            declaration: &self.declaration,
        };
        if !search.go_on(&program, trial, turns)? {
            return Ok(false);
        }
        self.learns(image, search, &trial.watcher)
    }

    /// Learns of a step that violates the declaration. False if no declaration allows it.
    fn learns(
        &mut self,
        image: &Image,
        search: &mut RunSearch<A>,
        watcher: &Watcher<A>,
    ) -> Result<bool, NoMemory>
        ensures profile { (meaning self.new.declaration).profile
            ≡ (meaning self.old.declaration).profile }
    {
        if self.lessons >= MOST_LESSONS {
            return Ok(false);
        }
        let sight = StepRecord::of(watcher);
        self.collect(search.record())?;
        if self.lesson(image, search.record(), watcher, &sight) != Refinement::New {
            return Ok(false);
        }
        self.take_return(watcher, &sight)?;
        self.lessons = self.lessons.saturating_add(1);
        search.sees(&sight);
        self.collect(search.record())?;
        self.widen(image, search.record())
    }

    /// Keeps the next step, if it is a return by an offset that is not declared.
    fn take_return(&mut self, watcher: &Watcher<A>, sight: &StepRecord) -> Result<(), NoMemory>
        ensures declaration { self.new.declaration ≡ self.old.declaration }
    {
        let word = watcher.world().cpu().memory.get(sight.at);
        if Operation::of(word) != Operation::Jmp || !refers_indirectly(word) {
            return Ok(());
        }
        let entry = target(word, sight.at);
        let offset = sight.offset;
        if sight.owner != Owner::Routine(entry) || self.declaration.has_offset(entry, offset) {
            return Ok(());
        }
        self.returns
            .push(SeenReturn { entry, offset })
            .map_err(|_| NoMemory)
    }

    /// Collects from where steps were made, and which routines ran.
    fn collect(&mut self, record: &Record<A>) -> Result<(), NoMemory>
        ensures declaration { self.new.declaration ≡ self.old.declaration }
    {
        self.places.clear();
        for offset in 0..8usize {
            self.collect_from(record, &record.places[offset], offset)?;
        }
        Ok(())
    }

    /// Collects the steps that were made from some places while the return word was incremented so
    /// far.
    fn collect_from(
        &mut self,
        record: &Record<A>,
        places: &WordSet,
        offset: usize,
    ) -> Result<(), NoMemory>
        ensures declaration { self.new.declaration ≡ self.old.declaration }
    {
        for at in places.iter() {
            if let Some(owner) = record.owner(at) {
                let entry = owner.entry();
                if let Some(called) = entry {
                    self.called.insert(called);
                }
                let spot = ProgramPoint { at, offset };
                self.places
                    .push(Visit { entry, spot })
                    .map_err(|_| NoMemory)?;
            }
        }
        Ok(())
    }

    /// Widens the declaration by what was learned. False if that cannot be declared.
    fn widen<'x>(&mut self, image: &'x Image, record: &'x Record<A>) -> Result<bool, NoMemory>
        ensures profile { (meaning self.new.declaration).profile
            ≡ (meaning self.old.declaration).profile }
    {
        let decided = self.map.round.halts;
        let mut ran = WordSet::empty();
        for places in &record.places {
            ran = ran.union(places);
        }
        let map = &mut self.map;
        map.banned = map.banned.union(&ran).union(&record.written);
        map.banned = map.banned.minus(&self.called);
        map.known.entries = map.known.entries.union(&self.called).minus(&map.banned);
        map.known.stored = map.known.stored.union(&record.written);
        let tape = Tape {
            image,
            visits: Some(Visits {
                places: &self.places,
                owners: &record.owners,
                returns: &self.returns,
                seen: seen_in(record),
            }),
        };
        map.settle(&tape);
        map.try_halts(&tape, &decided);
        match declared(self.alloc, &tape, &self.map)? {
            Some(declaration) if declaration.profile() == self.declaration.profile() => {
                self.declaration = declaration;
                Ok(true)
            }
            _ => {
                self.is_undeclarable = true;
                Ok(false)
            }
        }
    }

    /// What a step teaches that violates the declaration; it is taken into the map.
    fn lesson(
        &mut self,
        image: &Image,
        record: &Record<A>,
        watcher: &Watcher<A>,
        sight: &StepRecord,
    ) -> Refinement
        ensures declaration { self.new.declaration ≡ self.old.declaration }
    {
        if self.leaves_for_main(record, sight) {
            self.map.left.insert(sight.at);
            return Refinement::New;
        }
        let lesson = self.lesson_of_place(image, record, sight);
        if lesson == Refinement::Never {
            return lesson;
        }
        let cpu = watcher.world().cpu();
        let word = cpu.memory.get(cpu.pc);
        let further = match decode(word, self.map.profile) {
            Instruction::Memory => self.lesson_of_reference(record, watcher, sight, word),
            Instruction::Operate2 if halts(word) => self.lesson_of_halt(sight.at),
            Instruction::Unsupported => Refinement::Never,
            _ => Refinement::Nothing,
        };
        lesson.and(further)
    }

    /// Whether a routine has jumped to a cell of main, for which calls are not abandoned so far.
    fn leaves_for_main(&self, record: &Record<A>, sight: &StepRecord) -> bool {
        record.jumped == Some(sight.at)
            && self.declaration.in_main(sight.at)
            && !self.declaration.abandons().contains(sight.at)
    }

    /// What is learned of the place of a step: that it is in the running routine's body.
    fn lesson_of_place(&self, image: &Image, record: &Record<A>, sight: &StepRecord) -> Refinement {
        let at = sight.at;
        if self.declaration.owner_of(at) == Some(sight.owner) {
            return Refinement::Nothing;
        }
        let is_there = image.get(at).is_some() || record.written.contains(at);
        let is_free = match record.owner(at) {
            None => true,
            Some(owner) => owner == sight.owner,
        };
        if is_there && is_free && !self.called.contains(at) {
            Refinement::New
        } else {
            Refinement::Never
        }
    }

    /// What is learned of a HLT: that it stands there.
    fn lesson_of_halt(&mut self, at: Word) -> Refinement
        ensures declaration { self.new.declaration ≡ self.old.declaration }
    {
        if self.declaration.is_stop(at) || self.declaration.is_pause(at) {
            return Refinement::Nothing;
        }
        self.map.halted.insert(at);
        Refinement::New
    }

    /// What is learned of a memory reference.
    fn lesson_of_reference(
        &mut self,
        record: &Record<A>,
        watcher: &Watcher<A>,
        sight: &StepRecord,
        word: Word,
    ) -> Refinement
        ensures declaration { self.new.declaration ≡ self.old.declaration }
    {
        let mut lesson = Refinement::Nothing;
        if let Some(cell) = sight.stored {
            lesson = lesson.and(self.lesson_of_store(cell));
        }
        if let Some(cell) = sight.stepped {
            lesson = lesson.and(self.lesson_of_store(cell));
        }
        let memory = &watcher.world().cpu().memory;
        let further = match Operation::of(word) {
            Operation::Jms => {
                let entry = effective_address(memory, word, sight.at);
                self.lesson_of_call(record, sight.at, entry)
            }
            Operation::Jmp if refers_indirectly(word) => {
                self.lesson_of_return(sight, target(word, sight.at))
            }
            _ => Refinement::Nothing,
        };
        lesson.and(further)
    }

    /// What is learned of a cell that is written: that it may change.
    fn lesson_of_store(&mut self, cell: Word) -> Refinement
        ensures declaration { self.new.declaration ≡ self.old.declaration }
    {
        if self.declaration.is_variable(cell) {
            return Refinement::Nothing;
        }
        if self.declaration.is_entry(cell) {
            if self.called.contains(cell) {
                return Refinement::Never;
            }
            self.map.banned.insert(cell);
        }
        self.map.known.stored.insert(cell);
        Refinement::New
    }

    /// What is learned of a JMS: that it goes to an entry.
    fn lesson_of_call(&mut self, record: &Record<A>, at: Word, entry: Word) -> Refinement
        ensures declaration { self.new.declaration ≡ self.old.declaration }
    {
        if self.declaration.is_entry(entry) {
            return Refinement::Nothing;
        }
        let is_free = record.owner(entry).is_none() && !record.written.contains(entry);
        if !is_free || is_auto_index(entry) || entry == self.map.start || entry == at {
            return Refinement::Never;
        }
        self.called.insert(entry);
        Refinement::New
    }

    /// What is learned of a JMP through a cell: how far after its call a routine returns.
    fn lesson_of_return(&mut self, sight: &StepRecord, named: Word) -> Refinement
        ensures declaration { self.new.declaration ≡ self.old.declaration }
    {
        if !self.declaration.is_entry(named) {
            return Refinement::Nothing;
        }
        if sight.owner == Owner::Routine(named) {
            return self.lesson_of_offset(named, sight.offset);
        }
        if self.called.contains(named) {
            return Refinement::Never;
        }
        self.map.banned.insert(named);
        Refinement::New
    }

    /// What is learned of how far after its call a routine returns.
    fn lesson_of_offset(&self, entry: Word, offset: Word) -> Refinement {
        if self.declaration.has_offset(entry, offset) {
            Refinement::Nothing
        } else if offset.index() < 64 {
            Refinement::New
        } else {
            Refinement::Never
        }
    }

    /// What was seen in all; none if it cannot be declared.
    fn finish(
        mut self,
        image: &Image,
        search: &RunSearch<A>,
    ) -> Result<Option<Findings<A>>, NoMemory> {
        let record = search.record();
        self.collect(record)?;
        if self.is_undeclarable || !self.widen(image, record)? {
            return Ok(None);
        }
        let owners = Vec::from_slice(self.alloc, &record.owners)?;
        let Exploration {
            map,
            places,
            returns,
            ..
        } = self;
        Ok(Some(Findings {
            map,
            places,
            owners,
            returns,
            variables: map
                .known
                .stored
                .union(&record.written)
                .minus(&map.known.entries),
            seen: seen_in(record),
        }))
    }
}
