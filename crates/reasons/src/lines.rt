//! Why the lines at an address are not where they may be.

use crate::reason::Reason;
use declaration::Owner;
use domain::{ReturnOffsets, Rules};
use facts::Fact;
use judge::{Case, Claims};
use std::alloc::Allocator;
use word12::Word;

/// The first offset of some.
fn first_offset(offsets: ReturnOffsets) -> Option<usize> {
    for offset in 0..64usize {
        if offsets.contains(offset) {
            return Some(offset);
        }
    }
    None
}

/// Why the fact at this place of those at an address of main's body may not stand there.
fn why_not_of_main(index: usize, fact: &Fact) -> Option<Reason> {
    if let Some(offset) = first_offset(fact.offsets()) {
        return Some(Reason::OffsetInMain(index, offset));
    }
    if fact.sites().is_empty() {
        return None;
    }
    Some(Reason::SitesInMain(index))
}

/// Why the fact at this place of those at an address of the body of the routine of an entry may not stand there.
fn why_not_of_routine(rules: Rules, entry: Word, index: usize, fact: &Fact) -> Option<Reason> {
    if fact.offsets().is_empty() {
        return Some(Reason::NoOffset(index, entry));
    }
    if !fact.sites().is_empty() {
        return None;
    }
    match rules {
        Rules::OfEquations => None,
        Rules::OfSums => Some(Reason::NoSites(index, entry)),
    }
}

/// Why some fact at an address of a body may not stand there.
fn why_not_of_body<A: Allocator, C: Claims>(
    case: &Case<'_, A, C>,
    owner: &Owner,
    at: Word,
    given: &mut Fact,
) -> Option<Reason> {
    for index in 0..case.claims.count_facts(at, 0) {
        let _line = case.claims.put_fact(at, 0, index, given);
        let found = match owner {
            Owner::Main => why_not_of_main(index, given),
            Owner::Routine(entry) => why_not_of_routine(case.claims.rules(), *entry, index, given),
        };
        if found.is_some() {
            return found;
        }
    }
    None
}

/// Why the lines at an address are not where they may be.
pub(crate) fn why_placed<A: Allocator, C: Claims>(
    case: &Case<'_, A, C>,
    at: Word,
    given: &mut Fact,
) -> Option<Reason> {
    if case.claims.names(at) && !case.declaration.is_entry(at) {
        return Some(Reason::LineAtNoEntry);
    }
    if case.claims.count_facts(at, 0) == 0 {
        return None;
    }
    let Some(owner) = case.declaration.owner_of(at) else {
        return Some(Reason::InNoBody);
    };
    if let Owner::Routine(entry) = owner {
        if case.claims.routine(entry).is_none() {
            return Some(Reason::RoutineNotListed(entry));
        }
    }
    why_not_of_body(case, &owner, at, given)
}
