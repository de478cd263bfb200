//! What a step teaches that violates a declaration.

use crate::evidence::Evidence;
use crate::sketch::Sketch;
use bin_tape::Image;
use control_flow::{Map, Tape, VariableSelection};
use declaration::{Declaration, DeclarationFault, Owner, Routine};
use instruct::{Instruction, Operation, Profile, decode, halts, refers_indirectly, target};
use peripherals::NoMemory;
use policy::Watcher;
use processor::{effective_address, is_auto_index};
use run_search::StepRecord;
use std::alloc::Allocator;
use word12::Word;
use wordset::WordSet;

/// Why no declaration allows what runs did; each with the address at which it is seen.
#[derive(Clone, Copy, PartialEq, Eq, Debug)]
pub enum Obstacle {
    /// Control comes to a word that neither of the two machines supports.
    Unsupported(Word),
    /// Control comes to a cell into which neither the tape nor the program has put a word, and the word of which no
    /// instruction took before.
    Unset(Word),
    /// Control comes to a cell in which a JMS keeps a return address: an entry is in no body.
    RunsEntry(Word),
    /// A JMS goes to the cell in front of this one, which another routine executes, or main: it can be in one body alone.
    Shared(Word),
    /// A JMS goes to a cell that is executed: an entry is in no body.
    CallsBody(Word),
    /// A JMS goes to a cell that the program stores in: an entry is not a variable.
    CallsVariable(Word),
    /// A JMS goes to an auto-index cell.
    CallsPointer(Word),
    /// The program stores in a cell in which a JMS keeps a return address: an entry is not a
    /// variable.
    StoresInEntry(Word),
    /// A return goes by the return address of another call than the last one.
    ReturnsForAnother(Word),
    /// A routine returns to none of the 64 cells after its call.
    ReturnsFar(Word),
}

/// What a step teaches that violates a declaration.
#[derive(Clone, Copy, PartialEq, Eq)]
pub(crate) enum Refinement {
    /// Nothing.
    Nothing,
    /// What a wider declaration allows.
    New,
    /// That a declaration that allows it says less elsewhere.
    Unclear,
    /// That no declaration allows it.
    Never(Obstacle),
}

impl Refinement {
    /// What both teach; the first obstacle is told.
    fn and(self, other: Refinement) -> Refinement {
        match (self, other) {
            (Refinement::Never(obstacle), _) => Refinement::Never(obstacle),
            (_, Refinement::Never(obstacle)) => Refinement::Never(obstacle),
            (Refinement::Unclear, _) | (_, Refinement::Unclear) => Refinement::Unclear,
            (Refinement::Nothing, Refinement::Nothing) => Refinement::Nothing,
            _ => Refinement::New,
        }
    }
}

/// What a program may do that starts at an address, by the words of its tape; none if that cannot be declared.
fn by_words<A: Allocator + Copy>(
    alloc: A,
    image: &Image,
    at: Word,
    profile: Profile,
) -> Result<Option<Declaration<A>>, NoMemory> {
    let tape = Tape::of(image);
    let map = Map::of(&tape, at, profile);
    let text = map.text(
        alloc,
        &tape,
        &map.variables(image, VariableSelection::Stored),
    )?;
    match Declaration::parse(alloc, &text) {
        Ok(found) => Ok(Some(found)),
        Err(DeclarationFault::NoMemory) => Err(NoMemory),
        Err(_) => Ok(None),
    }
}

/// Adds to a routine what its words tell, or adds the routine, if its entry has no other role.
fn add_routine<A: Allocator + Copy>(
    sketch: &mut Sketch<A>,
    evidence: &Evidence<A>,
    routine: &Routine,
) -> Result<(), NoMemory> {
    let entry = routine.entry();
    let body = sketch.free(routine.body()).minus(&evidence.called);
    if sketch.entries().contains(entry) {
        sketch.add_body(&Owner::Routine(entry), &body);
    } else {
        let taken = sketch.bodies().union(&sketch.variables);
        let taken = taken.union(&evidence.ran).union(&evidence.written);
        if taken.contains(entry) || body.is_empty() {
            return Ok(());
        }
        let mut body = body;
        body.remove(entry);
        sketch.add_routine(entry, body)?;
    }
    for index in 0..8usize {
        let offset = Word::from_index(index);
        if routine.offsets().contains(offset) {
            sketch.add_return(entry, offset);
        }
    }
    Ok(())
}

/// Adds halts that are in bodies: those that have to be stops, and the others as they are.
fn add_halts<A: Allocator + Copy>(
    sketch: &mut Sketch<A>,
    evidence: &Evidence<A>,
    stops: &WordSet,
    pauses: &WordSet,
) {
    let declared = sketch.stops.union(&sketch.pauses);
    let open = sketch.bodies().minus(&declared);
    let pauses = pauses.meet(&open);
    let stops = stops.meet(&open);
    sketch.stops = sketch
        .stops
        .union(&stops)
        .union(&pauses.meet(&evidence.stopped));
    sketch.pauses = sketch.pauses.union(&pauses.minus(&sketch.stops));
}

/// Adds what the words tell of the code at an address, which is in the body of this routine.
fn add_code<A: Allocator + Copy>(
    alloc: A,
    image: &Image,
    sketch: &mut Sketch<A>,
    evidence: &Evidence<A>,
    owner: &Owner,
    at: Word,
    profile: Profile,
) -> Result<(), NoMemory> {
    sketch.add_body(owner, &WordSet::one(at));
    let Some(found) = by_words(alloc, image, at, profile)? else {
        return Ok(());
    };
    let entries = found_entries(&found);
    let body = sketch
        .free(found.main())
        .minus(&evidence.called)
        .minus(&entries);
    sketch.add_body(owner, &body);
    for routine in found.routines() {
        add_routine(sketch, evidence, routine)?;
    }
    let moves = found.moves().meet(&sketch.entries());
    sketch.moves = sketch.moves.union(&moves);
    let variables = found.variables().minus(&sketch.entries());
    sketch.variables = sketch.variables.union(&variables);
    add_halts(sketch, evidence, found.stops(), found.pauses());
    Ok(())
}

/// The entries of a declaration.
fn found_entries<A: Allocator>(declaration: &Declaration<A>) -> WordSet {
    let mut cells = WordSet::empty();
    for routine in declaration.routines() {
        cells.insert(routine.entry());
    }
    cells
}

/// The cells that instructions of some bodies name.
fn named_by(image: &Image, bodies: &WordSet, profile: Profile) -> WordSet {
    let mut cells = WordSet::empty();
    for at in bodies.iter() {
        if let Some(word) = image.get(at) {
            if decode(word, profile) == Instruction::Memory {
                cells.insert(target(word, at));
            }
        }
    }
    cells
}

/// The cells around one, up and down, as far as they are among these.
fn row_around(cells: &WordSet, cell: Word) -> WordSet {
    let top = Word::ZERO.complement();
    let mut row = WordSet::one(cell);
    let mut low = cell;
    let mut high = cell;
    for _cell in 0..4096usize {
        let below = low.add(top);
        if low != Word::ZERO && cells.contains(below) {
            low = below;
            row.insert(low);
        }
        let above = high.increment();
        if high != top && cells.contains(above) {
            high = above;
            row.insert(high);
        }
    }
    row
}

/// The buffer that has a cell: the cells around it of which the tape has words, or has none, as of this one, and which no
/// instruction names and that have no other role.
fn buffer_of<A: Allocator + Copy>(
    image: &Image,
    sketch: &Sketch<A>,
    cell: Word,
    profile: Profile,
) -> WordSet {
    let bodies = sketch.bodies();
    let mut cells = WordSet::empty();
    let is_there = image.get(cell).is_some();
    for index in 0..4096usize {
        let at = Word::from_index(index);
        if image.get(at).is_some() == is_there && !is_auto_index(at) {
            cells.insert(at);
        }
    }
    let cells = cells.minus(&bodies).minus(&sketch.entries());
    let cells = cells.minus(&named_by(image, &bodies, profile));
    if cells.contains(cell) {
        row_around(&cells, cell)
    } else {
        WordSet::one(cell)
    }
}

/// Whether a routine has jumped to a cell of main, for which calls are not abandoned so far.
fn leaves_for_main<A: Allocator + Copy, D: Allocator>(
    declaration: &Declaration<D>,
    evidence: &Evidence<A>,
    sight: &StepRecord,
) -> bool {
    evidence.jumped == Some(sight.at)
        && declaration.in_main(sight.at)
        && !declaration.abandons().contains(sight.at)
}

/// Whether neither of the two machines supports a word.
fn is_unsupported(word: Word) -> bool {
    decode(word, Profile::Pdp8I) == Instruction::Unsupported
        && decode(word, Profile::Pdp8E) == Instruction::Unsupported
}

/// What is learned of the place of a step: that it is in the running routine's body. If the cell was executed before while another
/// routine ran, or main, nothing is learned, since calls may have been abandoned in between.
fn lesson_of_place<A: Allocator + Copy, D: Allocator>(
    image: &Image,
    declaration: &Declaration<D>,
    evidence: &Evidence<A>,
    sight: &StepRecord,
    word: Word,
) -> Refinement {
    let at = sight.at;
    if evidence.called.contains(at) {
        return Refinement::Never(Obstacle::RunsEntry(at));
    }
    if evidence.holds_any_word(image, at) {
        return Refinement::Never(Obstacle::Unset(at));
    }
    if is_unsupported(word) {
        return Refinement::Never(Obstacle::Unsupported(at));
    }
    if !evidence.is_set(image, at)
        || decode(word, declaration.profile()) == Instruction::Unsupported
    {
        return Refinement::Unclear;
    }
    match evidence.owner(at) {
        Some(owner) if owner != sight.owner => return Refinement::Unclear,
        _ => {}
    }
    match declaration.owner_of(at) {
        Some(owner) if owner == sight.owner => Refinement::Nothing,
        Some(_) => Refinement::Unclear,
        None if declaration.is_entry(at) => Refinement::Unclear,
        None => Refinement::New,
    }
}

/// Whether a word stores in the entry of the running routine, which it names: that may be declared.
fn moves_entry(sight: &StepRecord, word: Word, cell: Word) -> bool {
    sight.owner == Owner::Routine(cell)
        && Operation::of(word) == Operation::Dca
        && !refers_indirectly(word)
}

/// What is learned of a cell that is written: that it may change.
fn lesson_of_store<A: Allocator + Copy, D: Allocator>(
    declaration: &Declaration<D>,
    evidence: &Evidence<A>,
    cell: Word,
) -> Refinement {
    if declaration.is_variable(cell) {
        return Refinement::Nothing;
    }
    if evidence.called.contains(cell) {
        return Refinement::Never(Obstacle::StoresInEntry(cell));
    }
    if declaration.is_entry(cell) {
        return Refinement::Unclear;
    }
    Refinement::New
}

/// What is learned of a JMS: that it goes to an entry.
fn lesson_of_call<A: Allocator + Copy, D: Allocator>(
    declaration: &Declaration<D>,
    evidence: &Evidence<A>,
    at: Word,
    entry: Word,
) -> Refinement {
    if declaration.is_entry(entry) {
        return Refinement::Nothing;
    }
    if is_auto_index(entry) {
        return Refinement::Never(Obstacle::CallsPointer(entry));
    }
    if evidence.ran.contains(entry) || entry == at || entry == declaration.start() {
        return Refinement::Never(Obstacle::CallsBody(entry));
    }
    if evidence.written.contains(entry) {
        return Refinement::Never(Obstacle::CallsVariable(entry));
    }
    let first = entry.increment();
    if evidence.called.contains(first) {
        return Refinement::Never(Obstacle::RunsEntry(first));
    }
    if evidence.ran.contains(first) {
        return Refinement::Never(Obstacle::Shared(first));
    }
    let is_taken = declaration.owner_of(entry).is_some() || declaration.is_variable(entry);
    if is_taken || declaration.owner_of(first).is_some() || declaration.is_entry(first) {
        return Refinement::Unclear;
    }
    Refinement::New
}

/// What is learned of a JMP through a cell: how far after its call a routine returns.
fn lesson_of_return<A: Allocator + Copy, D: Allocator>(
    declaration: &Declaration<D>,
    evidence: &Evidence<A>,
    sight: &StepRecord,
    named: Word,
) -> Refinement {
    if !declaration.is_entry(named) {
        return Refinement::Nothing;
    }
    if sight.owner == Owner::Routine(named) {
        if declaration.has_offset(named, sight.offset) {
            return Refinement::Nothing;
        }
        return match sight.offset.index() {
            0..=63 => Refinement::New,
            _ => Refinement::Never(Obstacle::ReturnsFar(sight.at)),
        };
    }
    if evidence.called.contains(named) {
        Refinement::Never(Obstacle::ReturnsForAnother(sight.at))
    } else {
        Refinement::Unclear
    }
}

/// Learns of the cell in which an instruction stores.
fn learn_store<A: Allocator + Copy, D: Allocator>(
    image: &Image,
    declaration: &Declaration<D>,
    evidence: &Evidence<A>,
    sketch: &mut Sketch<A>,
    sight: &StepRecord,
    word: Word,
    cell: Word,
) -> Refinement {
    if moves_entry(sight, word, cell) {
        if declaration.may_move(cell) {
            return Refinement::Nothing;
        }
        sketch.moves.insert(cell);
        return Refinement::New;
    }
    let lesson = lesson_of_store(declaration, evidence, cell);
    if lesson == Refinement::New {
        let cells = if refers_indirectly(word) {
            buffer_of(image, sketch, cell, declaration.profile())
        } else {
            WordSet::one(cell)
        };
        sketch.variables = sketch.variables.union(&cells);
    }
    lesson
}

/// Learns of the cells that a step writes.
fn learn_stores<A: Allocator + Copy, D: Allocator>(
    image: &Image,
    declaration: &Declaration<D>,
    evidence: &Evidence<A>,
    sketch: &mut Sketch<A>,
    sight: &StepRecord,
    word: Word,
) -> Refinement {
    let mut lesson = Refinement::Nothing;
    if let Some(cell) = sight.stepped {
        let further = lesson_of_store(declaration, evidence, cell);
        if further == Refinement::New {
            sketch.variables.insert(cell);
        }
        lesson = lesson.and(further);
    }
    if let Some(cell) = sight.stored {
        let further = learn_store(image, declaration, evidence, sketch, sight, word, cell);
        lesson = lesson.and(further);
    }
    lesson
}

/// Learns of a JMS.
fn learn_call<A: Allocator + Copy, D: Allocator>(
    alloc: A,
    image: &Image,
    declaration: &Declaration<D>,
    evidence: &Evidence<A>,
    sketch: &mut Sketch<A>,
    at: Word,
    entry: Word,
) -> Result<Refinement, NoMemory> {
    let lesson = lesson_of_call(declaration, evidence, at, entry);
    if lesson == Refinement::New && !sketch.entries().contains(entry) {
        let first = entry.increment();
        sketch.add_routine(entry, WordSet::one(first))?;
        let profile = declaration.profile();
        add_code(
            alloc,
            image,
            sketch,
            evidence,
            &Owner::Routine(entry),
            first,
            profile,
        )?;
    }
    Ok(lesson)
}

/// Learns of a memory reference.
fn learn_reference<A: Allocator + Copy, D: Allocator>(
    alloc: A,
    image: &Image,
    declaration: &Declaration<D>,
    evidence: &Evidence<A>,
    sketch: &mut Sketch<A>,
    watcher: &Watcher<A>,
    sight: &StepRecord,
    word: Word,
) -> Result<Refinement, NoMemory> {
    let lesson = learn_stores(image, declaration, evidence, sketch, sight, word);
    let memory = &watcher.world().cpu().memory;
    let further = match Operation::of(word) {
        Operation::Jms => {
            let entry = effective_address(memory, word, sight.at);
            learn_call(alloc, image, declaration, evidence, sketch, sight.at, entry)?
        }
        Operation::Jmp if refers_indirectly(word) => {
            let named = target(word, sight.at);
            let lesson = lesson_of_return(declaration, evidence, sight, named);
            if lesson == Refinement::New {
                sketch.add_return(named, sight.offset);
            }
            lesson
        }
        _ => Refinement::Nothing,
    };
    Ok(lesson.and(further))
}

/// Learns of a HLT: it is a pause where the word after it is in the same body, and else a stop.
fn learn_halt<A: Allocator + Copy, D: Allocator>(
    declaration: &Declaration<D>,
    evidence: &Evidence<A>,
    sketch: &mut Sketch<A>,
    sight: &StepRecord,
) -> Refinement {
    let at = sight.at;
    if declaration.is_stop(at) || declaration.is_pause(at) {
        return Refinement::Nothing;
    }
    if declaration.owner_of(at.increment()) == Some(sight.owner) && !evidence.stopped.contains(at) {
        sketch.pauses.insert(at);
        sketch.stops.remove(at);
    } else {
        sketch.stops.insert(at);
        sketch.pauses.remove(at);
    }
    Refinement::New
}

/// Learns of the next step of a machine that is watched, which violates the declaration; what a wider one has to allow
/// goes into the sketch of this one.
pub(crate) fn learn<A: Allocator + Copy, D: Allocator>(
    alloc: A,
    image: &Image,
    declaration: &Declaration<D>,
    evidence: &Evidence<A>,
    sketch: &mut Sketch<A>,
    watcher: &Watcher<A>,
) -> Result<Refinement, NoMemory> {
    let sight = StepRecord::of(watcher);
    let word = watcher.world().cpu().memory.get(sight.at);
    if leaves_for_main(declaration, evidence, &sight) {
        sketch.abandons.insert(sight.at);
        return Ok(Refinement::New);
    }
    let profile = declaration.profile();
    let lesson = lesson_of_place(image, declaration, evidence, &sight, word);
    match lesson {
        Refinement::Never(_) | Refinement::Unclear => return Ok(lesson),
        Refinement::Nothing => {}
        Refinement::New => {
            add_code(
                alloc,
                image,
                sketch,
                evidence,
                &sight.owner,
                sight.at,
                profile,
            )?;
        }
    }
    let further = match decode(word, profile) {
        Instruction::Memory => {
            learn_reference(
                alloc,
                image,
                declaration,
                evidence,
                sketch,
                watcher,
                &sight,
                word,
            )?
        }
        Instruction::Operate2 if halts(word) => learn_halt(declaration, evidence, sketch, &sight),
        _ => Refinement::Nothing,
    };
    Ok(lesson.and(further))
}
