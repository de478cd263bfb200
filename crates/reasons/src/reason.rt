//! Why a condition fails.

ghost use Rattle.std.specs.Prelude.{◌≡◌, ◌<◌, length};

use crate::filter::ReasonFilter;
use crate::lines::why_placed;
use crate::start::why_start;
use crate::violation::{LandingFailure, Violation};
use crate::words::first_violation;
use crate::workspace::ReasonWorkspace;
use bin_tape::Image;
use declaration::{Declaration, Owner, Subject};
use facts::{Condition, NarrowedFact, Place};
use judge::{
    Body, Case, Claims, NarrowedPoint, Point, Refusal, RoutineClaim, place_of, put_asked, put_sites,
};
use std::alloc::Allocator;
use word12::Word;
use wordset::WordSet;

/// Why a condition fails. A fact is told by its place among those at the address, as the certificate has them.
#[derive(Clone, Copy, Debug)]
pub enum Reason {
    /// V1: no fact at the start holds of every start, for this reason.
    AtStart(LandingFailure),
    /// V2: a routine or exit line has the address, which is not an entry.
    LineAtNoEntry,
    /// V2: a fact has the address, which is in no body.
    InNoBody,
    /// V2: this fact is in main's body, and has this offset.
    OffsetInMain(usize, usize),
    /// V2: this fact is in main's body, and has sites.
    SitesInMain(usize),
    /// V2: this fact is in the body of the routine of this entry, and has no offset.
    NoOffset(usize, Word),
    /// V2: this fact is in the body of the routine of this entry, and has no sites.
    NoSites(usize, Word),
    /// V2: a fact is in the body of the routine of this entry, which has no routine line.
    RoutineNotListed(Word),
    /// V3: by this fact so many words are possible, which are more than 64.
    TooManyWords(usize, usize),
    /// By this fact this word is possible, and breaks this.
    ByWord(usize, Word, Violation),
    /// V16: by the exit for this offset at this place among those for it the subject may have this word, which is not among
    /// those that it is declared to have when the routine returns so.
    ExitDeniesAssertion(usize, usize, Subject, Word),
}

/// What is claimed of the routine of an entry, and nothing if it is not listed.
fn claimed_routine<C: Claims>(claims: &C, entry: Word) -> RoutineClaim {
    match claims.routine(entry) {
        Some(routine) => routine,
        None => RoutineClaim {
            rank: 0,
            sites: WordSet::empty(),
            writes: WordSet::empty(),
        },
    }
}

/// The body that has an address, with what is claimed of its routine, which need not be listed.
fn body_of<A: Allocator, C: Claims>(case: &Case<'_, A, C>, at: Word) -> Option<Body> {
    match case.declaration.owner_of(at)? {
        Owner::Main => Some(Body::main()),
        Owner::Routine(entry) => Some(Body {
            routine: Some(entry),
            claim: claimed_routine(case.claims, entry),
        }),
    }
}

/// Why a condition on words fails at an address, of the first fact there of which it does, by a reason of those that are looked
/// for.
pub(crate) fn why_words<A: Allocator, C: Claims, M: Allocator>(
    case: &Case<'_, A, C>,
    sought: ReasonFilter,
    condition: Condition,
    at: Word,
    rooms: &mut ReasonWorkspace<M>,
) -> Option<Reason> {
    let body = body_of(case, at)?;
    for index in 0..case.claims.count_facts(at, 0) {
        if let Some(reason) = why_fact(case, sought, &body, condition, at, index, rooms) {
            return Some(reason);
        }
    }
    None
}

/// A fact for which conditions are checked at an address of a body.
fn point_of<'x, A: Allocator, C: Claims>(
    image: &'x Image,
    declaration: &'x Declaration<A>,
    claims: &'x C,
    body: &'x Body,
    at: Word,
    fact: &'x NarrowedFact,
) -> NarrowedPoint<'x, A, C>
    ensures { result.fact.now ≡ fact.now }
{
    Point {
        claims,
        place: place_of(image, declaration, &body.routine, claims.rules()),
        body,
        at,
        fact,
        following: None,
        near: 0,
    }
}

/// The same of the fact at this place of those at an address of a body.
fn why_fact<A: Allocator, C: Claims, M: Allocator>(
    case: &Case<'_, A, C>,
    sought: ReasonFilter,
    body: &Body,
    condition: Condition,
    at: Word,
    index: usize,
    rooms: &mut ReasonWorkspace<M>,
) -> Option<Reason>
    requires { index < length ((C.claims case.now.claims.now).facts at) }
{
    let ReasonWorkspace {
        claimed,
        fact,
        word,
    } = rooms;
    let rules = case.claims.rules();
    let _line = case.claims.put_fact(at, 0, index, claimed);
    put_sites(&rules, &body.claim.sites, claimed);
    if !put_asked(&rules, case.image, claimed, fact) {
        return None;
    }
    let point = point_of(case.image, case.declaration, case.claims, body, at, fact);
    first_violation(&point, sought, index, condition, word)
}

/// The subject of the first assertion that is made of returns of a routine by this offset and need not hold by an exit, and a word
/// that it may have by the exit and that is not asserted.
fn first_return_denied<A: Allocator>(
    place: &Place<'_, A>,
    exit: &NarrowedFact,
    entry: Word,
    offset: Word,
) -> Option<(Subject, Word)> {
    for returning in place.declaration.returns() {
        if returning.entry() != entry || !returning.offsets().contains(offset) {
            continue;
        }
        let assertion = returning.assertion();
        if let Some(word) = place.denied_word(exit, assertion) {
            return Some((*assertion.subject(), word));
        }
    }
    None
}

/// Why what is to hold when a routine returns by an offset need not hold, by the first exit for the offset by which it need not.
fn why_exits_by<A: Allocator, C: Claims, M: Allocator>(
    case: &Case<'_, A, C>,
    entry: Word,
    offset: usize,
    rooms: &mut ReasonWorkspace<M>,
) -> Option<Reason>
    requires { offset < 64 }
{
    let ReasonWorkspace { claimed, fact, .. } = rooms;
    let rules = case.claims.rules();
    let sites = claimed_routine(case.claims, entry).sites;
    let place = place_of(case.image, case.declaration, &Some(entry), rules);
    for index in 0..case.claims.count_exits(entry, offset) {
        case.claims.put_exit(entry, offset, index, claimed);
        put_sites(&rules, &sites, claimed);
        if !put_asked(&rules, case.image, claimed, fact) {
            continue;
        }
        let by = Word::from_index(offset);
        if let Some((subject, word)) = first_return_denied(&place, fact, entry, by) {
            return Some(Reason::ExitDeniesAssertion(offset, index, subject, word));
        }
    }
    None
}

/// Why what is declared to hold at an address need not hold there, or when the routine of this entry returns. No such reason is of
/// lines.
pub(crate) fn why_not_held<A: Allocator, C: Claims, M: Allocator>(
    case: &Case<'_, A, C>,
    at: Word,
    rooms: &mut ReasonWorkspace<M>,
) -> Option<Reason> {
    if let Some(reason) = why_words(case, ReasonFilter::Any, Condition::V16, at, rooms) {
        return Some(reason);
    }
    for offset in 0..64usize {
        if let Some(reason) = why_exits_by(case, at, offset, rooms) {
            return Some(reason);
        }
    }
    None
}

/// Why a condition fails at an address: what is possible there by a tape's words, a declaration and what
/// is claimed, and breaks it. The room is lent, so no memory is taken, and none can be refused.
pub fn why<A: Allocator, C: Claims, M: Allocator>(
    image: &Image,
    declaration: &Declaration<A>,
    claims: &C,
    refusal: &Refusal,
    rooms: &mut ReasonWorkspace<M>,
) -> Option<Reason> {
    let case = Case {
        image,
        declaration,
        claims,
    };
    let at = refusal.address;
    match refusal.condition {
        Condition::V1 if at != declaration.start() => None,
        Condition::V1 => why_start(&case, &mut rooms.claimed),
        Condition::V2 => why_placed(&case, at, &mut rooms.claimed),
        Condition::V16 => why_not_held(&case, at, rooms),
        condition => why_words(&case, ReasonFilter::Any, condition, at, rooms),
    }
}
