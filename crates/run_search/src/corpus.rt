//! The tree of kept states: those in which a program asks for an input after something new was seen.

ghost use Rattle.std.specs.Prelude.{◌≡◌, OnOk};
ghost use Rattle.declaration.specs.DeclarationInCode.{meaning};
ghost use Rattle.peripherals.specs.World.{profile_of};

use crate::input_request::InputRequest;
use crate::random::Random;
use crate::running::Input;
use crate::script::{Script, ScriptLength};
use crate::search::DeclaredProgram;
use peripherals::{NoMemory, Panel, Start, World};
use policy::{Call, Watcher};
use processor::{Cpu, Memory};
use std::alloc::Allocator;
use word12::{Link, Word};

/// The most bytes that kept states take, as they are reckoned.
const MOST_BYTES: usize = 50_000_000;

/// The bytes of a kept state apart from its lists, about.
const BYTES_OF_STATE: usize = 300;

/// A cell, and the word that it holds.
#[derive(Clone, Copy)]
struct Change {
    cell: Word,
    word: Word,
}

/// A machine, apart from the cells that are as they were at the start.
#[derive(Drop)]
struct Snapshot<A: Allocator> {
    ac: Word,
    link: Link,
    mq: Word,
    pc: Word,
    panel: Panel,
    changes: Vec<Change, A>,
    calls: Vec<Call, A>,
}

/// A kept state.
#[derive(Drop)]
struct CorpusEntry<A: Allocator> {
    /// The kept state that the run came from.
    parent: usize,
    /// What happened since.
    script: Script<A>,
    inputs: Vec<Input, A>,
    /// How long all is from the start.
    extent: ScriptLength,
    machine: Snapshot<A>,
    /// What the program asks for.
    ask: InputRequest,
    /// How often a run began here with the value whose turn it was.
    tries: usize,
}

/// States that were kept for something new at one address, or for a new step.
#[derive(Drop)]
struct Group<A: Allocator> {
    states: Vec<usize, A>,
}

/// Some inputs, and the kept state from which they lead on.
#[derive(Drop)]
pub(crate) struct InputSuffix<A: Allocator> {
    pub(crate) base: usize,
    pub(crate) inputs: Vec<Input, A>,
}

/// The corpus: a tree of kept states, whose root, of number 0, is the start.
#[derive(Drop)]
pub(crate) struct Corpus<A: Allocator> {
    alloc: A,
    /// The memory at the start.
    tape: Memory,
    states: Vec<CorpusEntry<A>, A>,
    /// The states by what was new; the first group is of those for a new step.
    groups: Vec<Group<A>, A>,
    /// The group of each address, if it has one.
    group_of: Vec<Option<usize>, A>,
    bytes: usize,
}

/// The cells of a memory whose words are others than in another one.
fn changes<A: Allocator>(
    alloc: A,
    memory: &Memory,
    before: &Memory,
) -> Result<Vec<Change, A>, NoMemory> {
    let mut changes = Vec::new(alloc);
    for index in 0..4096usize {
        let cell = Word::from_index(index);
        let word = memory.get(cell);
        if word != before.get(cell) {
            changes.push(Change { cell, word }).map_err(|_| NoMemory)?;
        }
    }
    Ok(changes)
}

/// The machine that a watcher watches.
fn take_snapshot<A: Allocator + Copy>(
    alloc: A,
    watcher: &Watcher<A>,
    tape: &Memory,
) -> Result<Snapshot<A>, NoMemory> {
    let cpu = watcher.world().cpu();
    Ok(Snapshot {
        ac: cpu.ac,
        link: cpu.link,
        mq: cpu.mq,
        pc: cpu.pc,
        panel: watcher.world().panel(),
        changes: changes(alloc, &cpu.memory, tape)?,
        calls: Vec::from_slice(alloc, watcher.calls())?,
    })
}

/// The machine that is watched from the start on.
pub(crate) fn start_of<A: Allocator + Copy, D: Allocator>(
    alloc: A,
    program: &DeclaredProgram<'_, D>,
) -> Watcher<A>
    ensures profile { profile_of result.world ≡ (meaning program.now.declaration.now).profile }
{
    Watcher::new(alloc, program.image, program.declaration, &Start::zero())
}

impl<A: Allocator + Copy> Corpus<A> {
    /// The tree with the start alone.
    pub(crate) fn new<D: Allocator>(
        alloc: A,
        program: &DeclaredProgram<'_, D>,
    ) -> Result<Corpus<A>, NoMemory> {
        let watcher = start_of(alloc, program);
        let mut corpus = Corpus {
            alloc,
            tape: watcher.world().cpu().memory.duplicate(),
            states: Vec::new(alloc),
            groups: Vec::new(alloc),
            group_of: Vec::from_elem(alloc, None, 4096)?,
            bytes: 0,
        };
        corpus
            .groups
            .push(Group {
                states: Vec::new(alloc),
            })
            .map_err(|_| NoMemory)?;
        let tail = InputSuffix {
            base: 0,
            inputs: Vec::new(alloc),
        };
        corpus.keep(
            &watcher,
            tail,
            Script::new(alloc),
            ScriptLength::NONE,
            InputRequest::Key,
            None,
        )?;
        Ok(corpus)
    }

    /// Whether one more state may be kept.
    pub(crate) fn has_room(&self) -> bool {
        self.bytes < MOST_BYTES
    }

    /// Keeps the state of a machine, to which inputs and events led from another kept state: for something
    /// new at an address, or for a new step. Gives its number.
    pub(crate) fn keep(
        &mut self,
        watcher: &Watcher<A>,
        tail: InputSuffix<A>,
        script: Script<A>,
        extent: ScriptLength,
        ask: InputRequest,
        place: Option<Word>,
    ) -> Result<usize, NoMemory> {
        let machine = take_snapshot(self.alloc, watcher, &self.tape)?;
        let number = self.states.len();
        self.bytes = self
            .bytes
            .saturating_add(BYTES_OF_STATE)
            .saturating_add(script.parts().len().saturating_mul(12))
            .saturating_add(tail.inputs.len().saturating_mul(6))
            .saturating_add(machine.changes.len().saturating_mul(4))
            .saturating_add(machine.calls.len().saturating_mul(4));
        let InputSuffix { base, inputs } = tail;
        let kept = CorpusEntry {
            parent: base,
            script,
            inputs,
            extent,
            machine,
            ask,
            tries: 0,
        };
        self.states.push(kept).map_err(|_| NoMemory)?;
        self.put_in_group(number, place)?;
        Ok(number)
    }

    /// Puts a state into the group of an address, or into the first one.
    fn put_in_group(&mut self, number: usize, place: Option<Word>) -> Result<(), NoMemory> {
        let group = match place {
            None => 0,
            Some(at) => self.group_at(at)?,
        };
        match self.groups.get_mut(group) {
            Some(group) => group.states.push(number).map_err(|_| NoMemory),
            None => Ok(()),
        }
    }

    /// The group of an address, which is made where there is none.
    fn group_at(&mut self, at: Word) -> Result<usize, NoMemory> {
        if let Some(Some(group)) = self.group_of.get(at.index()) {
            return Ok(*group);
        }
        let group = self.groups.len();
        let states = Vec::new(self.alloc);
        self.groups.push(Group { states }).map_err(|_| NoMemory)?;
        if let Some(place) = self.group_of.get_mut(at.index()) {
            *place = Some(group);
        }
        Ok(group)
    }

    /// Puts a machine that is watched into a kept state.
    pub(crate) fn restore<D: Allocator>(
        &self,
        program: &DeclaredProgram<'_, D>,
        number: usize,
        watcher: &mut Watcher<A>,
    ) -> Result<(), NoMemory>
        ensures profile { OnOk result (profile_of watcher.new.world
            ≡ (meaning program.now.declaration.now).profile) }
    {
        let Some(kept) = self.states.get(number) else {
            *watcher = start_of(self.alloc, program);
            return Ok(());
        };
        let machine = &kept.machine;
        let calls = Vec::from_slice(self.alloc, &machine.calls)?;
        let cpu = Cpu {
            memory: self.memory(machine),
            ac: machine.ac,
            link: machine.link,
            mq: machine.mq,
            pc: machine.pc,
            profile: program.declaration.profile(),
        };
        *watcher = Watcher::resume(World::of(self.alloc, cpu, machine.panel, None), calls);
        Ok(())
    }

    /// The memory of a kept machine.
    #[inline(always)]
    fn memory(&self, machine: &Snapshot<A>) -> Memory {
        let mut memory = self.tape.duplicate();
        for change in &machine.changes {
            memory.set(change.cell, change.word);
        }
        memory
    }

    /// A run begins at a kept state. Gives how many began there before.
    pub(crate) fn tries(&mut self, number: usize) -> usize {
        let Some(kept) = self.states.get_mut(number) else {
            return 0;
        };
        let before = kept.tries;
        kept.tries = before.saturating_add(1);
        before
    }

    /// How long the way from the start to a kept state is.
    pub(crate) fn extent(&self, number: usize) -> ScriptLength {
        match self.states.get(number) {
            Some(kept) => kept.extent,
            None => ScriptLength::NONE,
        }
    }

    /// What the program asks for in a kept state.
    pub(crate) fn ask(&self, number: usize) -> InputRequest {
        match self.states.get(number) {
            Some(kept) => kept.ask,
            None => InputRequest::Key,
        }
    }

    /// The kept states on the way to one, from it back, until they have so many inputs.
    fn way_back(&self, number: usize, least: usize) -> Result<Vec<usize, A>, NoMemory> {
        let mut way = Vec::new(self.alloc);
        let mut at = number;
        let mut count = 0usize;
        for _ in 0..self.states.len() {
            if at == 0 || count >= least {
                break;
            }
            way.push(at).map_err(|_| NoMemory)?;
            if let Some(kept) = self.states.get(at) {
                count = count.saturating_add(kept.inputs.len());
                at = kept.parent;
            }
        }
        Ok(way)
    }

    /// The last inputs before a kept state, so many at least, and the kept state before them.
    pub(crate) fn tail(&self, number: usize, least: usize) -> Result<InputSuffix<A>, NoMemory> {
        let way = self.way_back(number, least)?;
        let mut tail = InputSuffix {
            base: number,
            inputs: Vec::new(self.alloc),
        };
        if let Some(last) = way.last() {
            if let Some(kept) = self.states.get(*last) {
                tail.base = kept.parent;
            }
        }
        for at in way.iter().rev() {
            if let Some(kept) = self.states.get(*at) {
                tail.inputs.extend_from_slice(&kept.inputs)?;
            }
        }
        Ok(tail)
    }

    /// All events from the start to a kept state.
    pub(crate) fn script(&self, number: usize) -> Result<Script<A>, NoMemory> {
        let way = self.way_back(number, usize::MAX)?;
        let mut script = Script::new(self.alloc);
        for at in way.iter().rev() {
            if let Some(kept) = self.states.get(*at) {
                script.append(&kept.script)?;
            }
        }
        Ok(script)
    }

    /// A kept state from which to go on: a late one, a late one of those with a new step, or mostly one of
    /// a group by chance, so that addresses at which little is new have their share.
    pub(crate) fn pick(&self, random: &mut Random) -> usize {
        match random.below(8) {
            0 => late(random, self.states.len(), 16),
            1 => self.pick_late_in_group(random, 0, 8),
            _ => {
                let group = random.below(self.groups.len());
                if random.once_in(2) {
                    self.pick_late_in_group(random, group, 4)
                } else {
                    self.pick_in_group(random, group)
                }
            }
        }
    }

    /// One of the last so many states of a group.
    fn pick_late_in_group(&self, random: &mut Random, group: usize, most: usize) -> usize {
        match self.groups.get(group) {
            Some(group) => {
                let place = late(random, group.states.len(), most);
                group.states.get(place).copied().unwrap_or(0)
            }
            None => 0,
        }
    }

    /// Of four states of a group by chance, the one from which the fewest runs began.
    fn pick_in_group(&self, random: &mut Random, group: usize) -> usize {
        let Some(group) = self.groups.get(group) else {
            return 0;
        };
        let mut best = 0usize;
        let mut fewest = usize::MAX;
        for _ in 0..4 {
            let place = random.below(group.states.len());
            let number = group.states.get(place).copied().unwrap_or(0);
            let tries = self.states.get(number).map_or(0, |kept| kept.tries);
            if tries < fewest {
                best = number;
                fewest = tries;
            }
        }
        best
    }
}

/// One of the last so many places of a list of a length.
fn late(random: &mut Random, length: usize, most: usize) -> usize {
    let back = random.below(length.min(most));
    length.saturating_sub(1).saturating_sub(back)
}
