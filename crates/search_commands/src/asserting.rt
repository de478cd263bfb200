//! Whether a declaration keeps what another one requires to hold at addresses and at returns.

ghost use Rattle.std.specs.Prelude.{◌≡◌, ◌++◌, ◌↔◌, IsTrue, List, map};
ghost use Rattle.wordset.specs.Lanes.{words};
ghost use Rattle.declaration.specs.Declaration.{ReturnAssertion as RequiredAtReturns};
ghost use Rattle.declaration.specs.DeclarationInCode.{assertion_of, meaning, place_assertion_of, return_assertion_of};
ghost use Rattle.search_commands.specs.Refining.{KeepsAssertions};

use declaration::{Assertion, Declaration, PlaceAssertion, ReturnAssertion, Subject};
use std::alloc::Allocator;
use wordset::WordSet;

/// Whether two sets have the same words.
fn is_same_set(a: &WordSet, b: &WordSet) -> bool
    ensures { IsTrue result ↔ (words a.now ≡ words b.now) }
{
    if !a.is_subset(b) {
        return false;
    }
    b.is_subset(a)
}

/// Whether two subjects are the same.
fn is_same_subject(a: &Subject, b: &Subject) -> bool
    ensures { IsTrue result ↔ (a.now ≡ b.now) }
{
    match a {
        Subject::Accumulator => matches!(b, Subject::Accumulator),
        Subject::Link => matches!(b, Subject::Link),
        Subject::Mq => matches!(b, Subject::Mq),
        Subject::Cell(at) => match b {
            Subject::Cell(other) => *at == *other,
            _ => false,
        },
    }
}

/// Whether two assertions are about the same subject and leave it the same words.
fn is_same_assertion(a: &Assertion, b: &Assertion) -> bool
    ensures { IsTrue result ↔ (assertion_of a.now ≡ assertion_of b.now) }
{
    if !is_same_subject(a.subject(), b.subject()) {
        return false;
    }
    is_same_set(a.words(), b.words())
}

/// Whether two assertions about places are the same.
fn is_same_at_places(a: &PlaceAssertion, b: &PlaceAssertion) -> bool
    ensures { IsTrue result ↔ (place_assertion_of a.now ≡ place_assertion_of b.now) }
{
    if !is_same_set(a.places(), b.places()) {
        return false;
    }
    is_same_assertion(a.assertion(), b.assertion())
}

/// Whether two assertions about returns are the same.
fn is_same_at_returns(a: &ReturnAssertion, b: &ReturnAssertion) -> bool
    ensures { IsTrue result ↔ (return_assertion_of a.now ≡ return_assertion_of b.now) }
{
    if a.entry() != b.entry() {
        return false;
    }
    if !is_same_set(a.offsets(), b.offsets()) {
        return false;
    }
    is_same_assertion(a.assertion(), b.assertion())
}

/// Whether two lists of assertions about places are the same.
#[tactic(auto, using(crate::proofs::AssertingLemmas::all_agree, crate::proofs::AssertingLemmas::same_lengths))]
fn are_same(left: &[PlaceAssertion], right: &[PlaceAssertion]) -> bool
    ensures { IsTrue result ↔ (map place_assertion_of left.now ≡ map place_assertion_of right.now) }
{
    if left.len() != right.len() {
        return false;
    }
    for (line, other) in left.iter().zip(right) {
        if !is_same_at_places(line, other) {
            return false;
        }
    }
    true
}

/// Whether a list of assertions about returns begins with those of another list.
#[tactic(auto, using(crate::proofs::AssertingLemmas::no_shorter))]
fn begins_with(lines: &[ReturnAssertion], first: &[ReturnAssertion]) -> bool
    ensures { IsTrue result ↔ ((others : List RequiredAtReturns) ×
        (map return_assertion_of lines.now ≡ map return_assertion_of first.now ++ others)) }
{
    if lines.len() < first.len() {
        return false;
    }
    for (line, other) in lines.iter().zip(first) {
        if !is_same_at_returns(line, other) {
            return false;
        }
    }
    true
}

/// Whether a declaration requires the same to hold at addresses as another one, and at returns first what that one requires
/// there.
pub(crate) fn keeps_assertions<A: Allocator, B: Allocator>(
    given: &Declaration<A>,
    less: &Declaration<B>,
) -> bool
    ensures { IsTrue result ↔ KeepsAssertions (meaning given.now) (meaning less.now) }
{
    if !are_same(less.holds(), given.holds()) {
        return false;
    }
    begins_with(less.returns(), given.returns())
}
