//! Why a fact does not land among others.

use crate::counterexample::{Counterexample, gap_between};
use crate::violation::LandingFailure;
use domain::{Location, Rules};
use facts::{Fact, FactPart, FactSource, KnownFact, LinkPart, Place, cells_told};
use std::alloc::Allocator;
use transfer::NextFact;
use word12::{Link, Word};
use wordset::WordSet;

/// What the one fact there excludes, if there is one and no other.
pub(crate) fn one_excludes<A: Allocator, K: KnownFact, F: FactSource>(
    place: &Place<'_, A>,
    fact: &K,
    among: &F,
    given: &mut Fact,
) -> Option<Counterexample> {
    if among.len() != 1 {
        return None;
    }
    among.put(0, given);
    gap_between(place, fact, given)
}

/// The least word of a name that a part may have and that none of some facts takes. If it is told to be looked for of a name of
/// which they take some words alone, there is none if they take none.
fn word_left<A: Allocator, P: FactPart, F: FactSource>(
    place: &Place<'_, A>,
    part: &mut P,
    name: &Location,
    needs_some: bool,
    among: &F,
    given: &mut Fact,
) -> Option<Word> {
    let mut taken = WordSet::empty();
    for at in 0..among.len() {
        among.put(at, given);
        place.add_taken(part, name, given, &mut taken);
    }
    if needs_some && taken.is_empty() {
        return None;
    }
    let mut possible = WordSet::all();
    part.put_set_of(name, &mut possible);
    possible.minus(&taken).first_from(0)
}

/// A word of a name that a part may have and that none of some facts takes: of a cell of which they take some words, or else of
/// the accumulator.
fn name_left<A: Allocator, P: FactPart, F: FactSource>(
    place: &Place<'_, A>,
    part: &mut P,
    among: &F,
    given: &mut Fact,
) -> Option<(Location, Word)> {
    let told = cells_told(among, given);
    for cell in told.iter() {
        let name = Location::Cell(cell);
        if let Some(word) = word_left(place, part, &name, true, among, given) {
            return Some((name, word));
        }
    }
    let name = Location::Accumulator;
    let word = word_left(place, part, &name, false, among, given)?;
    Some((name, word))
}

/// Why a part of a fact with one link does not land among several facts, where it does not.
pub(crate) fn why_part_fails<A: Allocator, P: FactPart, F: FactSource>(
    place: &Place<'_, A>,
    part: &mut P,
    link: Link,
    among: &F,
    given: &mut Fact,
) -> LandingFailure {
    match name_left(place, part, among, given) {
        None => LandingFailure::NotEntailed,
        Some((name, word)) => LandingFailure::NotTaken(link, name, word),
    }
}

/// Why a fact does not land among some facts with a link, if it allows the link and does not. The fact itself is left as it was.
fn why_under<A: Allocator, F: FactSource>(
    place: &Place<'_, A>,
    fact: &mut NextFact,
    link: Link,
    among: &F,
    part: &mut LinkPart,
    given: &mut Fact,
) -> Option<LandingFailure> {
    if !fact.link().contains(link) {
        return None;
    }
    part.take(place, fact, link);
    if place.part_lands(part, among, given) {
        return None;
    }
    if let Some(gap) = one_excludes(place, part.fact(), among, given) {
        return Some(LandingFailure::ExcludedUnder(link, gap));
    }
    Some(why_part_fails(place, part, link, among, given))
}

/// Why a fact does not land among some facts by the rules of sums: of the links the first with which it does not. The fact itself is
/// left as it was.
fn why_links<A: Allocator, F: FactSource>(
    place: &Place<'_, A>,
    fact: &mut NextFact,
    among: &F,
    part: &mut LinkPart,
    given: &mut Fact,
) -> LandingFailure {
    if let Some(found) = why_under(place, fact, Link::CLEAR, among, part, given) {
        return found;
    }
    match why_under(place, fact, Link::SET, among, part, given) {
        None => LandingFailure::NotEntailed,
        Some(found) => found,
    }
}

/// What of a fact none of some facts allows, where it does not land among them. The fact itself is left as it was.
pub(crate) fn what_is_left<A: Allocator, F: FactSource>(
    place: &Place<'_, A>,
    fact: &mut NextFact,
    among: &F,
    part: &mut LinkPart,
    given: &mut Fact,
) -> LandingFailure {
    if among.len() == 0 {
        return LandingFailure::NoFact;
    }
    match &place.rules {
        Rules::OfSums => why_links(place, fact, among, part, given),
        Rules::OfEquations => match one_excludes(place, fact, among, given) {
            None => LandingFailure::NotEntailed,
            Some(gap) => LandingFailure::Excluded(gap),
        },
    }
}
