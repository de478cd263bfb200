//! What a call violates.

ghost use Rattle.std.specs.Prelude.{◌<◌};

use crate::filter::ReasonFilter;
use crate::outcomes::misses;
use crate::violation::{CallViolation, LandingFailure, Violation};
use crate::workspace::WordWorkspace;
use domain::{ReturnOffsets, Rules};
use facts::{Condition, FactSource};
use judge::{Claims, NarrowedPoint, OffsetExits, RoutineClaim};
use std::alloc::Allocator;
use word12::Word;
use wordset::WordSet;

/// The last address that may be a site of a call by the rules.
fn last_site(rules: &Rules) -> usize {
    match rules {
        Rules::OfEquations => 0o7767,
        Rules::OfSums => 0o7776,
    }
}

/// A call that the rules on what may be called forbid.
pub(crate) fn calls_wrongly<A: Allocator, C: Claims, M: Allocator>(
    point: &NarrowedPoint<'_, A, C>,
    sought: ReasonFilter,
    word: Word,
    rooms: &mut WordWorkspace<M>,
) -> Option<Violation> {
    if point.place.steps_call_pointer(point.at, word) {
        return Some(Violation::CallsThroughIndex);
    }
    first_call(point, sought, Condition::V7, word, rooms)
}

/// The first call of a word that violates a condition on calls.
pub(crate) fn first_call<A: Allocator, C: Claims, M: Allocator>(
    point: &NarrowedPoint<'_, A, C>,
    sought: ReasonFilter,
    condition: Condition,
    word: Word,
    rooms: &mut WordWorkspace<M>,
) -> Option<Violation> {
    let mut callees = WordSet::empty();
    point
        .place
        .put_called(point.fact, point.at, word, &mut callees);
    for entry in callees.iter() {
        if let Some(breach) = call_breaks(point, sought, condition, entry, rooms) {
            return Some(Violation::Calls(entry, breach));
        }
    }
    None
}

/// What a call of an entry breaks of a condition.
fn call_breaks<A: Allocator, C: Claims, M: Allocator>(
    point: &NarrowedPoint<'_, A, C>,
    sought: ReasonFilter,
    condition: Condition,
    entry: Word,
    rooms: &mut WordWorkspace<M>,
) -> Option<CallViolation> {
    match condition {
        Condition::V7 => may_not_call(point, sought, entry),
        Condition::V8 => is_not_covered(point, sought, entry),
        Condition::V9 => is_no_site(point, sought, entry),
        Condition::V10 => does_not_enter(point, sought, entry, rooms),
        Condition::V11 => does_not_return(point, sought, entry, rooms),
        _ => None,
    }
}

/// Why an address may not be called.
fn may_not_call<A: Allocator, C: Claims>(
    point: &NarrowedPoint<'_, A, C>,
    sought: ReasonFilter,
    entry: Word,
) -> Option<CallViolation> {
    if !point.place.declaration.is_entry(entry) {
        return Some(CallViolation::NoEntry);
    }
    if sought.counts_lines() && point.claims.routine(entry).is_none() {
        return Some(CallViolation::NotListed);
    }
    is_not_lower(point, entry)
}

/// Why the rank of a listed callee is not lower than that of the running routine, if that is listed.
fn is_not_lower<A: Allocator, C: Claims>(
    point: &NarrowedPoint<'_, A, C>,
    entry: Word,
) -> Option<CallViolation> {
    let callee = point.claims.routine(entry)?;
    let running = point.place.routine?;
    let own = point.claims.routine(running)?;
    if callee.rank < own.rank {
        return None;
    }
    Some(CallViolation::NotLower(callee.rank, own.rank))
}

/// What of a callee the running routine's written set does not cover.
fn is_not_covered<A: Allocator, C: Claims>(
    point: &NarrowedPoint<'_, A, C>,
    sought: ReasonFilter,
    entry: Word,
) -> Option<CallViolation> {
    if !sought.counts_lines() {
        return None;
    }
    let running = point.place.routine?;
    let caller = point.claimed(running);
    let callee = point.claimed(entry);
    if callee.writes.contains(running) {
        return Some(CallViolation::WritesCaller);
    }
    if !caller.writes.contains(entry) {
        return Some(CallViolation::EntryNotWritten);
    }
    let more = callee.writes.minus(&caller.writes);
    more.first_from(0).map(CallViolation::Writes)
}

/// Why an entry may not be called from the address.
fn is_no_site<A: Allocator, C: Claims>(
    point: &NarrowedPoint<'_, A, C>,
    sought: ReasonFilter,
    entry: Word,
) -> Option<CallViolation> {
    if point.at.index() > last_site(&point.place.rules) {
        return Some(CallViolation::TooHigh);
    }
    if !sought.counts_lines() || point.claimed(entry).sites.contains(point.at) {
        return None;
    }
    Some(CallViolation::NoSite)
}

/// Why a call does not land at the address after an entry.
fn does_not_enter<A: Allocator, C: Claims, M: Allocator>(
    point: &NarrowedPoint<'_, A, C>,
    sought: ReasonFilter,
    entry: Word,
    rooms: &mut WordWorkspace<M>,
) -> Option<CallViolation> {
    let WordWorkspace { next, left, .. } = rooms;
    point.fact.is_within_room();
    next.copy_from(point.fact);
    next.set_sites(&WordSet::one(point.at));
    let mut offsets = ReturnOffsets::none();
    offsets.insert(0);
    next.set_offsets(offsets);
    let sites = point.claimed(entry).sites;
    let owner = Some(entry);
    let failure = misses(point, sought, &owner, &sites, entry.increment(), next, left)?;
    Some(CallViolation::Enters(failure))
}

/// Why the run does not land after a return that is claimed of an entry.
fn does_not_return<A: Allocator, C: Claims, M: Allocator>(
    point: &NarrowedPoint<'_, A, C>,
    sought: ReasonFilter,
    entry: Word,
    rooms: &mut WordWorkspace<M>,
) -> Option<CallViolation> {
    let callee = point.claimed(entry);
    for offset in 0..64usize {
        if let Some(breach) = does_not_return_by(point, sought, entry, offset, &callee, rooms) {
            return Some(breach);
        }
    }
    None
}

/// Why the run does not land after a return by an offset, with the first of the exits for it with which it does not.
fn does_not_return_by<A: Allocator, C: Claims, M: Allocator>(
    point: &NarrowedPoint<'_, A, C>,
    sought: ReasonFilter,
    entry: Word,
    offset: usize,
    callee: &RoutineClaim,
    rooms: &mut WordWorkspace<M>,
) -> Option<CallViolation>
    requires { offset < 64 }
{
    let exits = OffsetExits {
        claims: point.claims,
        entry,
        offset,
        sites: &callee.sites,
    };
    for index in 0..exits.len() {
        exits.put(index, &mut rooms.exit);
        if let Some(landing) = misses_with(point, sought, offset, &callee.writes, rooms) {
            return Some(CallViolation::Returns(offset, index, landing));
        }
    }
    None
}

/// Why the run does not land after a return by an offset with what the exit at hand says, if the address is one of its sites.
fn misses_with<A: Allocator, C: Claims, M: Allocator>(
    point: &NarrowedPoint<'_, A, C>,
    sought: ReasonFilter,
    offset: usize,
    written: &WordSet,
    rooms: &mut WordWorkspace<M>,
) -> Option<LandingFailure>
    requires { offset < 64 }
{
    let WordWorkspace {
        exit,
        next,
        left,
        ..
    } = rooms;
    let mut sites = WordSet::empty();
    exit.sites().put(&mut sites);
    if !sites.contains(point.at) {
        return None;
    }
    point.fact.is_within_room();
    exit.is_within_room();
    next.take_joined(&point.place.rules, point.fact, exit, written);
    let at = point.at.increment().add(Word::from_index(offset));
    let owner = &point.place.routine;
    misses(
        point,
        sought,
        owner,
        &point.body.claim.sites,
        at,
        next,
        left,
    )
}
