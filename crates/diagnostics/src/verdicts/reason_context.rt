//! How the fact by which a condition fails is told from the others at its address.

ghost use Rattle.std.specs.Prelude.{◌<◌, length};

use domain::{Location, Rules};
use facts::Fact;
use judge::{Claims, Refusal};
use reasons::Reason;
use word12::{Link, Word};
use wordset::WordSet;

/// What may tell a fact from another one at its address.
#[derive(Clone, Copy, Debug)]
pub enum Distinction {
    /// The running routine was called from this address alone.
    CalledFrom(Word),
    /// The link is 0.
    LinkClear,
    /// The link is 1.
    LinkSet,
    /// The accumulator holds this word alone.
    Accumulator(Word),
    /// This cell, the first, holds this word alone.
    Cell(Word, Word),
}

/// How a reason is told: by which rules, and which fact it is of how many at the address. Each mark is so of that fact, and not so
/// of some other one there.
#[derive(Clone, Copy, Debug)]
pub struct ReasonContext {
    /// The rules by which the certificate is judged.
    pub rules: Rules,
    /// How many facts stand at the address.
    pub count: usize,
    /// The place of the fact among them, if the reason is one fact's.
    pub place: Option<usize>,
    /// What tells it from others there, as far as these do: from where the running routine was called, what the link is, and what the
    /// accumulator and a cell hold.
    pub marks: [Option<Distinction>; 4],
}

/// The place, among those at its address, of the fact of which a reason speaks, if there is a reason and it speaks of one.
pub(crate) fn place_of(reason: &Option<Reason>) -> Option<usize> {
    match reason {
        Some(
            Reason::OffsetInMain(index, _)
            | Reason::SitesInMain(index)
            | Reason::NoOffset(index, _)
            | Reason::NoSites(index, _)
            | Reason::TooManyWords(index, _)
            | Reason::ByWord(index, _, _),
        ) => Some(*index),
        Some(
            Reason::AtStart(_)
            | Reason::LineAtNoEntry
            | Reason::InNoBody
            | Reason::RoutineNotListed(_)
            | Reason::ExitDeniesAssertion(..),
        )
        | None => None,
    }
}

/// Whether a fact has a word alone for a cell.
fn holds_alone(fact: &Fact, cell: Word, word: Word) -> bool {
    let mut set = WordSet::all();
    fact.put_set_of(&Location::Cell(cell), &mut set);
    set.only() == Some(word)
}

/// Whether a fact has a mark.
fn has_mark(fact: &Fact, mark: &Distinction) -> bool {
    match mark {
        Distinction::CalledFrom(site) => fact.sites().only() == Some(*site),
        Distinction::LinkClear => fact.link().contains(Link::CLEAR)
            && !fact.link().contains(Link::SET),
        Distinction::LinkSet => fact.link().contains(Link::SET)
            && !fact.link().contains(Link::CLEAR),
        Distinction::Accumulator(word) => fact.accumulator().only() == Some(*word),
        Distinction::Cell(cell, word) => holds_alone(fact, *cell, *word),
    }
}

/// A mark, if there is one that a fact has and some fact at the address does not.
fn told<C: Claims>(
    claims: &C,
    at: Word,
    fact: &Fact,
    mark: Option<Distinction>,
    given: &mut Fact,
) -> Option<Distinction> {
    let mark = mark?;
    if !has_mark(fact, &mark) {
        return None;
    }
    for index in 0..claims.count_facts(at, 0) {
        let _line = claims.put_fact(at, 0, index, given);
        if !has_mark(given, &mark) {
            return Some(mark);
        }
    }
    None
}

/// The first cell and the word that a fact says it holds, where that tells the fact from others at its address.
fn cell_mark<C: Claims>(
    claims: &C,
    at: Word,
    fact: &Fact,
    given: &mut Fact,
) -> Option<Distinction> {
    for entry in fact.told_cells() {
        let mark = entry
            .set
            .only()
            .map(|word| Distinction::Cell(entry.cell, word));
        let found = told(claims, at, fact, mark, given);
        if found.is_some() {
            return found;
        }
    }
    None
}

/// What tells the fact at this place from others at its address.
#[inline(never)]
fn marks_of<C: Claims>(claims: &C, at: Word, index: usize) -> [Option<Distinction>; 4]
    requires { index < length ((C.claims claims.now).facts at) }
{
    let mut fact = Fact::any();
    let mut given = Fact::any();
    let _line = claims.put_fact(at, 0, index, &mut fact);
    let site = fact.sites().only().map(Distinction::CalledFrom);
    let link = if fact.link().contains(Link::CLEAR) {
        Distinction::LinkClear
    } else {
        Distinction::LinkSet
    };
    let accumulator = fact.accumulator().only().map(Distinction::Accumulator);
    [
        told(claims, at, &fact, site, &mut given),
        told(claims, at, &fact, Some(link), &mut given),
        told(claims, at, &fact, accumulator, &mut given),
        cell_mark(claims, at, &fact, &mut given),
    ]
}

/// How the reason of a refusal is told: by which rules, how many facts stand at its address, and what tells the one by which the
/// condition fails from the others there.
pub(crate) fn reason_context_of<C: Claims>(
    claims: &C,
    refusal: &Refusal,
    reason: &Option<Reason>,
) -> ReasonContext {
    let at = refusal.address;
    let count = claims.count_facts(at, 0);
    let place = place_of(reason);
    let marks = match place {
        Some(index) if count > 1 && index < count => marks_of(claims, at, index),
        _ => [None; 4],
    };
    ReasonContext {
        rules: claims.rules(),
        count,
        place,
        marks,
    }
}
