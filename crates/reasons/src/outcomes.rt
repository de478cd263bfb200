//! Where a run goes on after a word and does not land.

ghost use Rattle.judge.specs.Shapes.{IsRoomy};

use crate::filter::ReasonFilter;
use crate::landing::what_is_left;
use crate::violation::{LandingFailure, Violation};
use crate::workspace::{RemainderWorkspace, WordWorkspace};
use domain::ReturnOffsets;
use judge::{AddressFacts, Claims, NarrowedPoint, place_of};
use std::alloc::Allocator;
use transfer::{FactOutcome, NextFact, OutcomeKind, Outcomes};
use word12::Word;
use wordset::WordSet;

/// Why what is known does not land at an address of a routine's body, with the sites of that routine, if it does not. It stays as
/// it is. At an address that is not in the body it does not land, unless no state satisfies it.
pub(crate) fn misses<A: Allocator, C: Claims>(
    point: &NarrowedPoint<'_, A, C>,
    sought: ReasonFilter,
    owner: &Option<Word>,
    sites: &WordSet,
    at: Word,
    known: &mut NextFact,
    rooms: &mut RemainderWorkspace,
) -> Option<LandingFailure> {
    let RemainderWorkspace {
        landing,
        part,
        given,
    } = rooms;
    let rules = point.place.rules;
    let place = place_of(point.place.image, point.place.declaration, owner, rules);
    if !point.is_inside(owner, at) {
        return (!place.is_idle(known, landing)).then_some(LandingFailure::OtherBody);
    }
    if !sought.counts_lines() {
        return None;
    }
    let among = AddressFacts {
        claims: point.claims,
        at,
        sites,
        near: point.near,
    };
    if place.lands(known, &among, landing) {
        return None;
    }
    Some(what_is_left(&place, known, &among, part, given))
}

/// The first of some addresses of a routine's body at which what is known does not land, and why. It stays as it is.
fn misses_at<A: Allocator, C: Claims>(
    point: &NarrowedPoint<'_, A, C>,
    sought: ReasonFilter,
    owner: &Option<Word>,
    sites: &WordSet,
    addresses: &WordSet,
    known: &mut NextFact,
    rooms: &mut RemainderWorkspace,
) -> Option<(Word, LandingFailure)> {
    for at in addresses.iter() {
        if let Some(landing) = misses(point, sought, owner, sites, at, known, rooms) {
            return Some((at, landing));
        }
    }
    None
}

/// The first address at which an outcome goes on and does not land, and why: in main's body, as one of main's facts, where all
/// calls are abandoned for the address; else in the same body.
fn outcome_misses<A: Allocator, C: Claims>(
    point: &NarrowedPoint<'_, A, C>,
    sought: ReasonFilter,
    abandoned: &WordSet,
    outcome: &mut FactOutcome,
    rooms: &mut RemainderWorkspace,
) -> Option<(Word, LandingFailure)> {
    match &outcome.kind {
        OutcomeKind::Nothing | OutcomeKind::Calls | OutcomeKind::Returns => return None,
        OutcomeKind::Goes => {}
    }
    let mut targets = WordSet::empty();
    outcome.targets.put(&mut targets);
    let owner = &point.place.routine;
    let sites = &point.body.claim.sites;
    let here = targets.minus(abandoned);
    let known = &mut outcome.fact;
    if let Some(found) = misses_at(point, sought, owner, sites, &here, known, rooms) {
        return Some(found);
    }
    let none = WordSet::empty();
    known.set_sites(&none);
    known.set_offsets(ReturnOffsets::none());
    let in_main = targets.meet(abandoned);
    misses_at(point, sought, &None, &none, &in_main, known, rooms)
}

/// The same of all of some outcomes.
fn some_miss<A: Allocator, C: Claims>(
    point: &NarrowedPoint<'_, A, C>,
    sought: ReasonFilter,
    abandoned: &WordSet,
    outcomes: &mut Outcomes,
    rooms: &mut RemainderWorkspace,
) -> Option<(Word, LandingFailure)> {
    if let Some(found) = outcome_misses(point, sought, abandoned, &mut outcomes.first, rooms) {
        return Some(found);
    }
    if let Some(found) = outcome_misses(point, sought, abandoned, &mut outcomes.second, rooms) {
        return Some(found);
    }
    if let Some(found) = outcome_misses(point, sought, abandoned, &mut outcomes.third, rooms) {
        return Some(found);
    }
    outcome_misses(point, sought, abandoned, &mut outcomes.fourth, rooms)
}

/// Whether a word is a JMP, and no return.
fn only_jumps<A: Allocator, C: Claims>(point: &NarrowedPoint<'_, A, C>, word: Word) -> bool {
    point.place.is_jump(word) && point.place.returned_entry(point.at, word).is_none()
}

/// The addresses for which the running routine abandons all open calls by a word: where it is not main and the word is a JMP
/// and no return, they are the declared ones, and else there are none.
fn abandoned_by<A: Allocator, C: Claims>(point: &NarrowedPoint<'_, A, C>, word: Word) -> WordSet {
    if point.place.routine.is_some() && only_jumps(point, word) {
        return *point.place.declaration.abandons();
    }
    WordSet::empty()
}

/// Where a word goes on and does not land. That it does not land outside the running routine's body is told of a JMP to main's
/// body in words of its own.
pub(crate) fn goes_on<A: Allocator, C: Claims, M: Allocator>(
    point: &NarrowedPoint<'_, A, C>,
    sought: ReasonFilter,
    word: Word,
    rooms: &mut WordWorkspace<M>,
) -> Option<Violation>
    requires { IsRoomy point.now.fact.now }
{
    let WordWorkspace { outcomes, left, .. } = rooms;
    point
        .place
        .put_outcomes(point.fact, point.at, word, outcomes);
    let abandoned = abandoned_by(point, word);
    let (at, landing) = some_miss(point, sought, &abandoned, outcomes, left)?;
    let is_outside = matches!(landing, LandingFailure::OtherBody);
    if is_outside && only_jumps(point, word) && point.is_inside(&None, at) {
        return Some(Violation::JumpsToMain(at));
    }
    Some(Violation::GoesOn(at, landing))
}
