//! Facts as the first search keeps them: what is known, and what a fact and something else that is known say both.

use crate::fault::SearchFault;
use crate::incoming_fact::{IncomingFact, brief, has_word};
use crate::invariant::{Case, CellInvariant, Invariant};
use crate::settings::Pace;
use crate::sums::{difference, is_left_of, speaks_only_of};
use crate::widening::Limits;
use domain::{Location, Relation, ReturnOffsets, Sum, Term, product};
use facts::KnownFact;
use std::alloc::Allocator;
use word12::Word;
use wordset::WordSet;

/// A name with one word before and another after.
#[derive(Clone, Copy)]
struct WordChange {
    name: Location,
    before: Word,
    after: Word,
}

/// How much more one word is than another.
fn more_than(a: Word, b: Word) -> Word {
    a.add(b.complement().increment())
}

/// The relation that two moved names keep, if they differ by the same before and after.
fn kept_between(left: &WordChange, right: &WordChange) -> Option<Relation> {
    let Location::Cell(cell) = right.name else {
        return None;
    };
    if !is_left_of(&left.name, cell) {
        return None;
    }
    let more = more_than(left.before, right.before);
    if more_than(left.after, right.after) != more {
        return None;
    }
    Some(difference(left.name, cell, more))
}

/// The words that are left to a name by one step along the relations, or all of its words where the relations contradict;
/// filled where they are ragged.
fn left_to<F: KnownFact>(known: &IncomingFact<'_, F>, name: &Location, limits: &Limits) -> WordSet {
    let narrowed = known.narrowed(name);
    if narrowed.is_empty() {
        limits.with_few_runs(&known.set(name))
    } else {
        limits.with_few_runs(&narrowed)
    }
}

/// The offsets of both.
pub(crate) fn joined_offsets(a: ReturnOffsets, b: ReturnOffsets) -> ReturnOffsets {
    if b.is_subset(a) {
        return a;
    }
    let mut offsets = a;
    for offset in 0..64usize {
        if b.contains(offset) {
            offsets.insert(offset);
        }
    }
    offsets
}

/// What became of cells: whether one has more words, and whether one may hold any word now.
#[derive(Clone, Copy)]
struct Growth {
    grew: bool,
    lost: bool,
}

/// Adds a name if it had one word and has another now.
fn add_moved<A: Allocator, F: KnownFact>(
    moved: &mut Vec<WordChange, A>,
    name: Location,
    old: Option<Word>,
    known: &IncomingFact<'_, F>,
) -> Result<(), SearchFault> {
    let Some(before) = old else {
        return Ok(());
    };
    let Some(after) = known.narrowed(&name).only() else {
        return Ok(());
    };
    let Ok(()) = moved.push(WordChange {
        name,
        before,
        after,
    }) else {
        return Err(SearchFault::NoMemory);
    };
    Ok(())
}

/// Joins the words that a cell may hold now to those of its line, and returns whether it may hold any word
/// then.
fn grow<F: KnownFact>(
    line: &mut CellInvariant,
    known: &IncomingFact<'_, F>,
    limits: &Limits,
    pace: &Pace,
) -> bool {
    let cell = line.told.cell;
    let mut old = WordSet::all();
    line.told.set.put(&mut old);
    let set = old.union(&left_to(known, &Location::Cell(cell), limits));
    let growths = line.growths.saturating_add(1);
    let counted = limits.counted.contains(cell);
    let wide = limits.widened(pace, &old, &set, growths, counted);
    line.told.set = brief(&wide);
    line.growths = growths;
    wide.is_all()
}

/// Joins to each line the words that its cell may hold now, and gathers the cells that moved.
fn grow_all<A: Allocator, F: KnownFact>(
    cells: &mut [CellInvariant],
    known: &IncomingFact<'_, F>,
    limits: &Limits,
    pace: &Pace,
    moved: &mut Vec<WordChange, A>,
) -> Result<Growth, SearchFault> {
    let mut growth = Growth {
        grew: false,
        lost: false,
    };
    for line in cells {
        if known.is_within(line.told.cell, &line.told.set) {
            continue;
        }
        let name = Location::Cell(line.told.cell);
        add_moved(moved, name, line.told.set.only(), known)?;
        growth.grew = true;
        if grow(line, known, limits, pace) {
            growth.lost = true;
        }
    }
    Ok(growth)
}

impl<A: Allocator + Copy> Invariant<A> {
    /// What comes to an instruction, without cells and relations.
    pub(crate) fn without_incoming_cells<F: KnownFact>(
        alloc: A,
        at: Word,
        case: Case,
        known: &IncomingFact<'_, F>,
        limits: &Limits,
    ) -> Invariant<A> {
        let mut kept = Invariant::without_cells(alloc, at, case, known.fact);
        kept.sites = WordSet::empty();
        kept.ac = left_to(known, &Location::Accumulator, limits);
        kept.mq = limits.with_few_runs(known.mq());
        kept.offsets = known.offsets;
        kept
    }

    /// What comes to an instruction, of the tracked cells alone.
    pub(crate) fn of_incoming<F: KnownFact>(
        alloc: A,
        at: Word,
        case: Case,
        tracked: &WordSet,
        known: &IncomingFact<'_, F>,
        limits: &Limits,
    ) -> Result<Invariant<A>, SearchFault> {
        let mut kept = Invariant::without_incoming_cells(alloc, at, case, known, limits);
        for cell in tracked.iter() {
            kept.track(cell, &left_to(known, &Location::Cell(cell), limits))?;
        }
        for relation in known.relations() {
            if speaks_only_of(tracked, &relation.sum) && kept.wants(relation) {
                kept.add_relation(relation)?;
            }
        }
        Ok(kept)
    }

    /// Joins something else that comes to the instruction: what both say is left. Tells whether less is said than
    /// before.
    pub(crate) fn join_incoming<F: KnownFact>(
        &mut self,
        alloc: A,
        known: &IncomingFact<'_, F>,
        limits: &Limits,
        pace: &Pace,
    ) -> Result<bool, SearchFault> {
        let mut moved = Vec::new(alloc);
        let dropped = self.drop_relations(alloc, known)?;
        self.add_shown(known)?;
        let registers = self.join_incoming_registers(known, limits, pace, &mut moved)?;
        let growth = grow_all(&mut self.cells, known, limits, pace, &mut moved)?;
        if growth.lost {
            self.drop_cells(alloc)?;
        }
        self.add_kept(&moved)?;
        Ok(dropped || registers || growth.grew)
    }

    /// Drops the relations that are not known, and returns whether there was one.
    fn drop_relations<F: KnownFact>(
        &mut self,
        alloc: A,
        known: &IncomingFact<'_, F>,
    ) -> Result<bool, SearchFault> {
        if self.knows_all(known) {
            return Ok(false);
        }
        let mut left = Vec::new(alloc);
        for relation in &self.relations {
            if known.knows(&relation.told) {
                let Ok(()) = left.push(*relation) else {
                    return Err(SearchFault::NoMemory);
                };
            }
        }
        self.relations = left;
        Ok(true)
    }

    /// Drops the cells that may hold any word.
    fn drop_cells(&mut self, alloc: A) -> Result<(), SearchFault> {
        let mut left = Vec::new(alloc);
        let all = WordSet::all();
        for line in &self.cells {
            if !line.told.set.has_all(&all) {
                let Ok(()) = left.push(*line) else {
                    return Err(SearchFault::NoMemory);
                };
            }
        }
        self.cells = left;
        Ok(())
    }
}

impl<A: Allocator> Invariant<A> {
    /// Whether a relation says something: it can be fulfilled, and not each of its names has one word.
    fn wants(&self, relation: &Relation) -> bool {
        !relation.set.is_empty() && self.value_of(&relation.sum).is_none()
    }

    /// Adds a relation, if there is room and none of its sum.
    fn add_relation(&mut self, relation: &Relation) -> Result<(), SearchFault> {
        if self.relates(&relation.sum) {
            return Ok(());
        }
        self.push_relation(*relation, 0)
    }

    /// The one word that a name may hold, if there is only one.
    fn only(&self, name: &Location) -> Option<Word> {
        match name {
            Location::Accumulator => self.ac.only(),
            Location::Cell(cell) => match self.line_of(*cell) {
                None => None,
                Some(line) => line.told.set.only(),
            },
        }
    }

    /// The word of a sum, where each of the names whose words it adds may hold one word alone.
    fn value_of(&self, sum: &Sum) -> Option<Word> {
        let mut value = Word::ZERO;
        for summand in sum.summands() {
            let Term::Holding(name) = summand.term else {
                return None;
            };
            let Some(word) = self.only(&name) else {
                return None;
            };
            value = value.add(product(summand.coefficient, word));
        }
        Some(value)
    }

    /// Whether each name of a relation has one word, and these fulfil it.
    fn shows(&self, relation: &Relation) -> bool {
        match self.value_of(&relation.sum) {
            None => false,
            Some(value) => has_word(&relation.set, value),
        }
    }

    /// Whether all relations are known.
    fn knows_all<F: KnownFact>(&self, known: &IncomingFact<'_, F>) -> bool {
        for relation in &self.relations {
            if !known.knows(&relation.told) {
                return false;
            }
        }
        true
    }

    /// Joins the registers and the offsets, and returns whether one grew.
    fn join_incoming_registers<F: KnownFact>(
        &mut self,
        known: &IncomingFact<'_, F>,
        limits: &Limits,
        pace: &Pace,
        moved: &mut Vec<WordChange, A>,
    ) -> Result<bool, SearchFault> {
        let grew = !self.covers_incoming_registers(known);
        self.mq = limits.with_few_runs(&self.mq.union(known.mq()));
        self.link = self.link.union(known.link());
        self.offsets = joined_offsets(self.offsets, known.offsets);
        if known.has_accumulator_within(&self.ac) {
            return Ok(grew);
        }
        add_moved(moved, Location::Accumulator, self.ac.only(), known)?;
        let set = self
            .ac
            .union(&left_to(known, &Location::Accumulator, limits));
        self.growths = self.growths.saturating_add(1);
        self.ac = limits.widened(pace, &self.ac, &set, self.growths, false);
        Ok(true)
    }

    /// Whether MQ, the link and the offsets have no others.
    fn covers_incoming_registers<F: KnownFact>(&self, known: &IncomingFact<'_, F>) -> bool {
        known.mq().is_subset(&self.mq)
            && known.link().is_subset(self.link)
            && known.offsets.is_subset(self.offsets)
    }

    /// Whether a name has no other words now than those that it has.
    fn stays<F: KnownFact>(&self, name: &Location, known: &IncomingFact<'_, F>) -> bool {
        match name {
            Location::Accumulator => known.has_accumulator_within(&self.ac),
            Location::Cell(cell) => match self.line_of(*cell) {
                None => true,
                Some(line) => known.is_within(*cell, &line.told.set),
            },
        }
    }

    /// Adds those relations that are known now and that the words before fulfil, where not all of their names keep their one
    /// word.
    fn add_shown<F: KnownFact>(&mut self, known: &IncomingFact<'_, F>) -> Result<(), SearchFault> {
        for relation in known.relations() {
            if self.shows(relation) && !self.keeps_all(relation, known) {
                self.add_relation(relation)?;
            }
        }
        Ok(())
    }

    /// Whether no name of a relation has other words now than those that it has.
    fn keeps_all<F: KnownFact>(&self, relation: &Relation, known: &IncomingFact<'_, F>) -> bool {
        for summand in relation.sum.summands() {
            if !self.stays(&summand.term.name(), known) {
                return false;
            }
        }
        true
    }

    /// Adds the relations between names that moved by the same.
    fn add_kept(&mut self, moved: &[WordChange]) -> Result<(), SearchFault> {
        for left in moved {
            self.add_kept_of(left, moved)?;
        }
        Ok(())
    }

    /// Adds the relations between one name that moved and others that moved by the same.
    fn add_kept_of(&mut self, left: &WordChange, moved: &[WordChange]) -> Result<(), SearchFault> {
        for right in moved {
            if let Some(relation) = kept_between(left, right) {
                self.add_relation(&relation)?;
            }
        }
        Ok(())
    }
}
