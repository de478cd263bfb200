//! Where the distance between a pointer and another cell is lost, though a loop keeps it on another way.

ghost use Rattle.std.specs.Prelude.{◌<◌, length};
ghost use Rattle.certificate_lines.specs.CertificateInCode.{claims};
ghost use Rattle.domain.specs.FactInCode.{fact_in_code};
ghost use Rattle.judge.specs.Shapes.{HasShape};

use crate::bounds::draft_facts::is_difference_of;
use crate::bounds::losses::{stores_through_pointer, successors_of_call};
use bin_tape::Image;
use certificate::Certificate;
use declaration::Declaration;
use domain::{Location, Relation as SumRelation, Sum, negated};
use facts::{Fact, NarrowedFact};
use judge::{Body, Case, Claims, place_of, put_asked, put_sites};
use std::alloc::{AllocError, Allocator};
use transfer::{FactOutcome, NextFact, OutcomeKind, Outcomes};
use word12::Word;
use wordset::WordSet;

/// How many places a walk looks at, at most.
const MOST_STANDS: usize = 16384;

/// A pointer, another cell, and how much more the pointer's word is than that of the cell, modulo 4096.
#[derive(Clone, Copy)]
pub(crate) struct Relation {
    pub(crate) pointer: Word,
    pub(crate) cell: Word,
    pub(crate) more: Word,
}

/// How much more a pointer's word is than that of a cell by a relation, if it tells that.
fn distance_by(relation: &SumRelation, pointer: Word, cell: Word) -> Option<Word> {
    let (high, low) = (Location::Cell(pointer), Location::Cell(cell));
    let more = relation.set.only()?;
    if is_difference_of(&relation.sum, &high, &low) {
        return Some(more);
    }
    is_difference_of(&relation.sum, &low, &high).then_some(negated(more))
}

/// The word that a name holds by what is known, if it is one.
fn only_word(image: &Image, fact: &NextFact, name: &Location) -> Option<Word> {
    let mut words = WordSet::empty();
    fact.put_narrowed(image, name, &mut words);
    words.only()
}

/// How much more a pointer's word is than that of a cell, if that is known.
fn distance_in(image: &Image, fact: &NextFact, pointer: Word, cell: Word) -> Option<Word> {
    for relation in fact.relations().as_slice() {
        let distance = distance_by(relation, pointer, cell);
        if distance.is_some() {
            return distance;
        }
    }
    let high = only_word(image, fact, &Location::Cell(pointer))?;
    let low = only_word(image, fact, &Location::Cell(cell))?;
    Some(high.add(negated(low)))
}

/// Room for a fact as a draft has it, for the same fact as it is asked, for its body, and for what comes of a word.
#[derive(Drop)]
struct LoopWorkspace {
    claimed: Fact,
    asked: NarrowedFact,
    body: Body,
    outcomes: Outcomes,
}

impl LoopWorkspace {
    /// Room that nothing stands in.
    fn new() -> LoopWorkspace {
        LoopWorkspace {
            claimed: Fact::any(),
            asked: NarrowedFact::any(),
            body: Body::main(),
            outcomes: Outcomes::new(),
        }
    }
}

/// Where a walk is, and what it knows there.
#[derive(Clone, Copy)]
struct LoopState {
    /// The address.
    at: Word,
    /// The distance, if it is known.
    distance: Option<Word>,
    /// The first instruction after which the distance was not the one that held at the head, if it is not.
    lost_at: Option<Word>,
    /// Whether the distance changed on the way and came back.
    restored: bool,
}

/// A walk through a loop, from its head and back to it.
#[derive(Drop)]
struct LoopTraversal<'x, A: Allocator, D: Allocator, C: Allocator> {
    case: &'x Case<'x, D, Certificate<C>>,
    relation: Relation,
    head: Word,
    stands: Vec<LoopState, A>,
    /// Whether a way through the loop changes the distance and restores it.
    is_kept: bool,
    /// The instruction at which another way loses it.
    lost_at: Option<Word>,
}

impl<A: Allocator, D: Allocator, C: Allocator> LoopTraversal<'_, A, D, C> {
    /// Goes on at an address.
    fn continue_at(&mut self, next: LoopState) -> Result<(), AllocError> {
        if next.at == self.head {
            self.is_kept = self.is_kept || (next.restored && next.lost_at.is_none());
            if self.lost_at.is_none() {
                self.lost_at = next.lost_at;
            }
            return Ok(());
        }
        let is_new = !self.stands.iter().any(|other| {
            other.at == next.at
                && other.restored == next.restored
                && other.lost_at.is_some() == next.lost_at.is_some()
        });
        if is_new && self.stands.len() < MOST_STANDS {
            self.stands.push(next)?;
        }
        Ok(())
    }

    /// What is known behind an instruction, by the distance there.
    fn behind(&self, from: &LoopState, distance: &Option<Word>, to: Word) -> LoopState {
        let holds = *distance == Some(self.relation.more);
        let lost_at = match (holds, from.lost_at) {
            (true, _) => None,
            (false, None) => Some(from.at),
            (false, lost_at) => lost_at,
        };
        LoopState {
            at: to,
            distance: *distance,
            lost_at,
            restored: from.restored || (holds && from.lost_at.is_some()),
        }
    }

    /// Goes on from a place to wherever the word there leads, by each fact of a draft there.
    fn step(&mut self, from: &LoopState, rooms: &mut LoopWorkspace) -> Result<(), AllocError> {
        let case = self.case;
        let Some(word) = case.image.get(from.at) else {
            return Ok(());
        };
        let known = from.distance.map(|more| Relation {
            more,
            ..self.relation
        });
        for index in 0..case.claims.count_facts(from.at, 0) {
            if put_outcomes(case, from.at, word, index, &known, rooms) {
                self.follow_each(from, word, &rooms.outcomes)?;
            }
        }
        Ok(())
    }

    /// Goes on with each outcome of a word.
    fn follow_each(
        &mut self,
        from: &LoopState,
        word: Word,
        outcomes: &Outcomes,
    ) -> Result<(), AllocError> {
        for outcome in each_of(outcomes) {
            self.follow(from, word, outcome)?;
        }
        Ok(())
    }

    /// Goes on with one outcome of a word.
    fn follow(
        &mut self,
        from: &LoopState,
        word: Word,
        outcome: &FactOutcome,
    ) -> Result<(), AllocError> {
        let mut targets = WordSet::empty();
        outcome.targets.put(&mut targets);
        match outcome.kind {
            OutcomeKind::Goes if stores_through_pointer(word) => {
                self.spread(from, &from.distance, &targets)
            }
            OutcomeKind::Goes => {
                let (pointer, cell) = (self.relation.pointer, self.relation.cell);
                let distance = distance_in(self.case.image, &outcome.fact, pointer, cell);
                self.spread(from, &distance, &targets)
            }
            OutcomeKind::Calls => self.call(from, &targets),
            OutcomeKind::Returns | OutcomeKind::Nothing => Ok(()),
        }
    }

    /// Goes on at each of these addresses.
    fn spread(
        &mut self,
        from: &LoopState,
        distance: &Option<Word>,
        targets: &WordSet,
    ) -> Result<(), AllocError> {
        for to in targets.iter() {
            let next = self.behind(from, distance, to);
            self.continue_at(next)?;
        }
        Ok(())
    }

    /// Goes on behind a call of each of these entries, which loses the distance if the routine may write one of the two cells.
    fn call(&mut self, from: &LoopState, entries: &WordSet) -> Result<(), AllocError> {
        for entry in entries.iter() {
            let Some(routine) = self.case.claims.routine(entry) else {
                continue;
            };
            let is_written = routine.writes.contains(self.relation.pointer)
                || routine.writes.contains(self.relation.cell);
            let distance = if is_written { None } else { from.distance };
            let places = successors_of_call(self.case.declaration, entry, from.at);
            self.spread(from, &distance, &places)?;
        }
        Ok(())
    }
}

/// The outcomes of a word, one by one.
fn each_of(outcomes: &Outcomes) -> [&FactOutcome; 4] {
    [
        &outcomes.first,
        &outcomes.second,
        &outcomes.third,
        &outcomes.fourth,
    ]
}

/// Adds a relation, if one is known, to a fact, if there is room.
fn relate(fact: &mut Fact, known: &Option<Relation>)
    ensures { HasShape (fact_in_code fact.old) → HasShape (fact_in_code fact.new) }
{
    let Some(known) = known else {
        return;
    };
    if fact.relations().is_full() {
        return;
    }
    let sum = Sum::difference(Location::Cell(known.pointer), Location::Cell(known.cell));
    fact.relate_one(&sum, known.more);
}

/// Whether the fact at this place of those at an address of a body is asked, with a relation that is known; then the outcomes of a word
/// there stand in the room for them.
fn put_outcomes<D: Allocator, C: Allocator>(
    case: &Case<'_, D, Certificate<C>>,
    at: Word,
    word: Word,
    index: usize,
    known: &Option<Relation>,
    rooms: &mut LoopWorkspace,
) -> bool
    requires { index < length ((claims case.now.claims.now).facts at) }
{
    let LoopWorkspace {
        claimed,
        asked,
        body,
        outcomes,
    } = rooms;
    *body = Body::main();
    if !case.finds_body(at, body) {
        return false;
    }
    let rules = case.claims.rules();
    let _line = case.claims.put_fact(at, 0, index, claimed);
    put_sites(&rules, &body.claim.sites, claimed);
    relate(claimed, known);
    if !put_asked(&rules, case.image, claimed, asked) {
        return false;
    }
    let place = place_of(case.image, case.declaration, &body.routine, rules);
    place.put_outcomes(asked, at, word, outcomes);
    true
}

/// The instruction at which a loop with this head loses a relation that holds when it is entered, if another way
/// through the loop changes both cells and keeps the relation.
fn lost_in_loop<A: Allocator + Copy, D: Allocator, C: Allocator>(
    alloc: A,
    case: &Case<'_, D, Certificate<C>>,
    head: Word,
    relation: &Relation,
    rooms: &mut LoopWorkspace,
) -> Result<Option<Word>, AllocError> {
    let mut walk = LoopTraversal {
        case,
        relation: *relation,
        head,
        stands: Vec::new(alloc),
        is_kept: false,
        lost_at: None,
    };
    let first = LoopState {
        at: head,
        distance: Some(relation.more),
        lost_at: None,
        restored: false,
    };
    walk.step(&first, rooms)?;
    for index in 0..MOST_STANDS {
        let Some(next) = walk.stands.get(index).copied() else {
            break;
        };
        walk.step(&next, rooms)?;
    }
    Ok(if walk.is_kept { walk.lost_at } else { None })
}

/// The relations between a pointer and a variable that are known where a loop is entered with this fact.
fn relations_of<A: Allocator, D: Allocator>(
    alloc: A,
    image: &Image,
    declaration: &Declaration<D>,
    pointer: Word,
    fact: &NextFact,
) -> Result<Vec<Relation, A>, AllocError> {
    let mut relations = Vec::new(alloc);
    let others = declaration.variables().minus(&WordSet::one(pointer));
    for cell in others.iter() {
        if let Some(more) = distance_in(image, fact, pointer, cell) {
            relations.push(Relation {
                pointer,
                cell,
                more,
            })?;
        }
    }
    Ok(relations)
}

/// The fact of the first outcome that goes on at the head of a loop.
fn fact_entering<'x>(outcomes: &'x Outcomes, head: Word) -> Option<&'x NextFact> {
    for outcome in each_of(outcomes) {
        let mut targets = WordSet::empty();
        outcome.targets.put(&mut targets);
        if outcome.kind == OutcomeKind::Goes && targets.contains(head) {
            return Some(&outcome.fact);
        }
    }
    None
}

/// The relations between a pointer and a variable that are known where a loop is entered from an instruction, by the first fact of a
/// draft there.
fn relations_entering<A: Allocator, D: Allocator, C: Allocator>(
    alloc: A,
    case: &Case<'_, D, Certificate<C>>,
    pointer: Word,
    from: Word,
    head: Word,
    rooms: &mut LoopWorkspace,
) -> Result<Vec<Relation, A>, AllocError> {
    let Some(word) = case.image.get(from) else {
        return Ok(Vec::new(alloc));
    };
    if case.claims.count_facts(from, 0) == 0 || !put_outcomes(case, from, word, 0, &None, rooms) {
        return Ok(Vec::new(alloc));
    }
    match fact_entering(&rooms.outcomes, head) {
        None => Ok(Vec::new(alloc)),
        Some(fact) => relations_of(alloc, case.image, case.declaration, pointer, fact),
    }
}

/// A relation between a pointer and a variable that holds when a loop is entered from an instruction, and the
/// instruction at which the loop loses it.
#[inline(never)]
pub(crate) fn lost_relation<A: Allocator + Copy, D: Allocator, C: Allocator>(
    alloc: A,
    case: &Case<'_, D, Certificate<C>>,
    pointer: Word,
    from: Word,
    head: Word,
) -> Result<Option<(Relation, Word)>, AllocError> {
    let mut rooms = Box::new(alloc, LoopWorkspace::new())?;
    let relations = relations_entering(alloc, case, pointer, from, head, &mut rooms)?;
    for relation in relations.iter() {
        if let Some(at) = lost_in_loop(alloc, case, head, relation, &mut rooms)? {
            return Ok(Some((*relation, at)));
        }
    }
    Ok(None)
}
