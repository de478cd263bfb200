//! Why the fact of all starts does not land at the start.

use crate::landing::{one_excludes, why_part_fails};
use crate::reason::Reason;
use crate::violation::LandingFailure;
use domain::Rules;
use facts::{Fact, FactSource, Place, StartFact, start_part};
use judge::{AddressFacts, Case, Claims, place_of};
use std::alloc::Allocator;
use word12::Link;
use wordset::{Links, WordSet};

/// Why the fact of all starts does not land among some facts with a link, if it does not.
fn why_under<A: Allocator, F: FactSource>(
    place: &Place<'_, A>,
    link: Link,
    among: &F,
    given: &mut Fact,
) -> Option<LandingFailure> {
    if place.starts_land_under(link, among, given) {
        return None;
    }
    let fact = StartFact::new(place.image, Links::one(link));
    if let Some(gap) = one_excludes(place, &fact, among, given) {
        return Some(LandingFailure::ExcludedUnder(link, gap));
    }
    let mut part = start_part(place.image, link);
    Some(why_part_fails(place, &mut part, link, among, given))
}

/// Why the fact of all starts does not land among some facts by the rules of sums.
fn why_links<A: Allocator, F: FactSource>(
    place: &Place<'_, A>,
    among: &F,
    given: &mut Fact,
) -> LandingFailure {
    if let Some(found) = why_under(place, Link::CLEAR, among, given) {
        return found;
    }
    match why_under(place, Link::SET, among, given) {
        None => LandingFailure::NotEntailed,
        Some(found) => found,
    }
}

/// What one of some facts excludes of the fact of all starts, by the rules of equations.
fn why_not_entailed<A: Allocator, F: FactSource>(
    place: &Place<'_, A>,
    among: &F,
    given: &mut Fact,
) -> LandingFailure {
    let fact = StartFact::new(place.image, Links::both());
    match one_excludes(place, &fact, among, given) {
        None => LandingFailure::NotEntailed,
        Some(gap) => LandingFailure::Excluded(gap),
    }
}

/// Why no fact at the start holds of every start, if none does.
pub(crate) fn why_start<A: Allocator, C: Claims>(
    case: &Case<'_, A, C>,
    given: &mut Fact,
) -> Option<Reason> {
    let place = place_of(case.image, case.declaration, &None, case.claims.rules());
    let among = AddressFacts {
        claims: case.claims,
        at: case.declaration.start(),
        sites: &WordSet::empty(),
        near: 0,
    };
    if place.starts_land(&among, given) {
        return None;
    }
    if among.len() == 0 {
        return Some(Reason::AtStart(LandingFailure::NoFact));
    }
    let failure = match &place.rules {
        Rules::OfSums => why_links(&place, &among, given),
        Rules::OfEquations => why_not_entailed(&place, &among, given),
    };
    Some(Reason::AtStart(failure))
}
