//! What a return violates.

ghost use Rattle.std.specs.Prelude.{◌<◌};

use crate::filter::ReasonFilter;
use crate::landing::what_is_left;
use crate::violation::{LandingFailure, ReturnViolation, Violation};
use crate::workspace::{RemainderWorkspace, WordWorkspace};
use judge::{Claims, NarrowedPoint, OffsetExits};
use std::alloc::Allocator;
use word12::Word;

/// A return that violates the rules on returns.
pub(crate) fn returns_wrongly<A: Allocator, C: Claims, M: Allocator>(
    point: &NarrowedPoint<'_, A, C>,
    sought: ReasonFilter,
    word: Word,
    rooms: &mut WordWorkspace<M>,
) -> Option<Violation> {
    let entry = point.place.returned_entry(point.at, word)?;
    let breach = return_breaks(point, sought, entry, rooms)?;
    Some(Violation::Returns(entry, breach))
}

/// What a return through an entry violates.
fn return_breaks<A: Allocator, C: Claims, M: Allocator>(
    point: &NarrowedPoint<'_, A, C>,
    sought: ReasonFilter,
    entry: Word,
    rooms: &mut WordWorkspace<M>,
) -> Option<ReturnViolation> {
    if !point.is_own(entry) {
        return Some(ReturnViolation::OtherRoutine);
    }
    for offset in 0..64usize {
        if let Some(breach) = returns_by(point, sought, entry, offset, rooms) {
            return Some(breach);
        }
    }
    None
}

/// What a return through the running routine's entry by an offset breaks, if the fact has the offset.
fn returns_by<A: Allocator, C: Claims, M: Allocator>(
    point: &NarrowedPoint<'_, A, C>,
    sought: ReasonFilter,
    entry: Word,
    offset: usize,
    rooms: &mut WordWorkspace<M>,
) -> Option<ReturnViolation>
    requires { offset < 64 }
{
    if !point.fact.offsets().contains(offset) {
        return None;
    }
    let declaration = point.place.declaration;
    if !declaration.has_offset(entry, Word::from_index(offset)) {
        return Some(ReturnViolation::NotDeclared(offset));
    }
    if !sought.counts_lines() {
        return None;
    }
    let failure = misses_exits(point, entry, offset, rooms)?;
    Some(ReturnViolation::NotAllowed(offset, failure))
}

/// Why the fact does not land among the exits of the running routine for an offset, if it does not.
fn misses_exits<A: Allocator, C: Claims, M: Allocator>(
    point: &NarrowedPoint<'_, A, C>,
    entry: Word,
    offset: usize,
    rooms: &mut WordWorkspace<M>,
) -> Option<LandingFailure>
    requires { offset < 64 }
{
    let WordWorkspace { next, left, .. } = rooms;
    let RemainderWorkspace {
        landing,
        part,
        given,
    } = &mut **left;
    point.fact.is_within_room();
    next.copy_from(point.fact);
    let exits = OffsetExits {
        claims: point.claims,
        entry,
        offset,
        sites: &point.body.claim.sites,
    };
    if point.place.lands(next, &exits, landing) {
        return None;
    }
    Some(what_is_left(&point.place, next, &exits, part, given))
}
