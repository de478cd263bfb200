//! What a possible word violates by a fact.

ghost use Rattle.judge.specs.Shapes.{IsRoomy};

use crate::calls::{calls_wrongly, first_call};
use crate::entries::writes_entry;
use crate::filter::ReasonFilter;
use crate::outcomes::goes_on;
use crate::reason::Reason;
use crate::returns::returns_wrongly;
use crate::violation::Violation;
use crate::workspace::WordWorkspace;
use facts::Condition;
use judge::{Claims, NarrowedPoint};
use std::alloc::Allocator;
use word12::Word;
use wordset::WordSet;

/// The most words that may be possible by one fact.
const MOST_WORDS: usize = 64;

/// The first possible word that violates a condition by a fact, which is the one at this place of those at the address, and what
/// it violates; or how many words are possible, where they are too many.
pub(crate) fn first_violation<A: Allocator, C: Claims, M: Allocator>(
    point: &NarrowedPoint<'_, A, C>,
    sought: ReasonFilter,
    index: usize,
    condition: Condition,
    rooms: &mut WordWorkspace<M>,
) -> Option<Reason>
    requires { IsRoomy point.now.fact.now }
{
    let mut possible = WordSet::all();
    point
        .place
        .put_possible(point.fact, point.at, &mut possible);
    let count = possible.count();
    if matches!(condition, Condition::V3) && count > MOST_WORDS {
        return Some(Reason::TooManyWords(index, count));
    }
    for word in possible.iter() {
        if let Some(breach) = violation(point, sought, condition, word, rooms) {
            return Some(Reason::ByWord(index, word, breach));
        }
    }
    None
}

/// What a word breaks of a condition.
fn violation<A: Allocator, C: Claims, M: Allocator>(
    point: &NarrowedPoint<'_, A, C>,
    sought: ReasonFilter,
    condition: Condition,
    word: Word,
    rooms: &mut WordWorkspace<M>,
) -> Option<Violation>
    requires { IsRoomy point.now.fact.now }
{
    let place = &point.place;
    match condition {
        Condition::V1 | Condition::V2 => None,
        Condition::V3 => (!place.is_supported(word)).then_some(Violation::NotSupported),
        Condition::V4 => goes_on(point, sought, word, rooms),
        Condition::V5 => writes_undeclared(point, word),
        Condition::V6 => writes_unlisted(point, sought, word),
        Condition::V7 => calls_wrongly(point, sought, word, rooms),
        Condition::V8 | Condition::V9 | Condition::V10 | Condition::V11 => {
            first_call(point, sought, condition, word, rooms)
        }
        Condition::V12 => returns_wrongly(point, sought, word, rooms),
        Condition::V13 => {
            (!place.halts_are_declared(point.at, word)).then_some(Violation::HaltsUndeclared)
        }
        Condition::V14 => writes_entry(point, word),
        Condition::V15 => reads_unlisted(point, word),
        Condition::V16 => denies_assertion(point),
    }
}

/// The cells that a word may write.
pub(crate) fn written<A: Allocator, C: Claims>(
    point: &NarrowedPoint<'_, A, C>,
    word: Word,
) -> WordSet {
    let mut cells = WordSet::empty();
    point
        .place
        .put_writes(point.fact, point.at, word, &mut cells);
    cells
}

/// A cell that a word may write and that is neither a variable nor an entry.
fn writes_undeclared<A: Allocator, C: Claims>(
    point: &NarrowedPoint<'_, A, C>,
    word: Word,
) -> Option<Violation> {
    let rest = written(point, word).minus(point.place.declaration.variables());
    for cell in rest.iter() {
        if !point.place.declaration.is_entry(cell) {
            return Some(Violation::WritesUndeclared(cell));
        }
    }
    None
}

/// A cell that a word may write and the running routine may not.
fn writes_unlisted<A: Allocator, C: Claims>(
    point: &NarrowedPoint<'_, A, C>,
    sought: ReasonFilter,
    word: Word,
) -> Option<Violation> {
    if !sought.counts_lines() {
        return None;
    }
    let entry = point.place.routine?;
    let listed = point.body.claim.writes.union(&WordSet::one(entry));
    let rest = written(point, word).minus(&listed);
    rest.first_from(0).map(Violation::WritesUnlisted)
}

/// A cell that a word may read and that is not on the list of reads, nor the running routine's
/// entry.
fn reads_unlisted<A: Allocator, C: Claims>(
    point: &NarrowedPoint<'_, A, C>,
    word: Word,
) -> Option<Violation> {
    let listed = point.place.declaration.reads()?;
    let mut read = WordSet::empty();
    point.place.put_reads(point.fact, point.at, word, &mut read);
    let mut rest = read.minus(listed);
    if let Some(entry) = point.place.routine {
        rest = rest.minus(&WordSet::one(entry));
    }
    rest.first_from(0).map(Violation::ReadsUnlisted)
}

/// The first subject of which something is asserted here that need not hold, whatever word is executed, and a word that it may have
/// and that is not asserted.
fn denies_assertion<A: Allocator, C: Claims>(point: &NarrowedPoint<'_, A, C>) -> Option<Violation> {
    for holding in point.place.declaration.holds() {
        if !holding.places().contains(point.at) {
            continue;
        }
        let assertion = holding.assertion();
        if let Some(denied) = point.place.denied_word(point.fact, assertion) {
            return Some(Violation::DeniesAssertion(*assertion.subject(), denied));
        }
    }
    None
}
