//! Outcomes of a word and whether they entail a fact, over and over.

ghost use Rattle.judge.specs.Shapes.{IsRoomy};

use bin_tape::Image;
use certificate::Certificate;
use declaration::Declaration;
use facts::{Fact, NarrowedFact, Place};
use judge::{Claims, put_asked};
use std::alloc::{AllocError, Allocator};
use transfer::{OutcomeKind, Outcomes};
use word12::Word;

/// TAD of the cell 0010.
const TAD: usize = 0o1010;

/// Where the fact stands of which is asked. The one that its outcomes are to entail stands at the next address.
const START: usize = 0o200;

/// Room for both facts, for what is asked of the first one and for its outcomes.
#[derive(Drop)]
pub struct EntailmentWorkspace {
    fact: Fact,
    asked: NarrowedFact,
    next: Fact,
    outcomes: Outcomes,
}

impl EntailmentWorkspace {
    /// Room that nothing stands in, kept by an allocator.
    pub fn boxed<A: Allocator>(alloc: A) -> Result<Box<EntailmentWorkspace, A>, AllocError> {
        Ok(Box::new(
            alloc,
            EntailmentWorkspace {
                fact: Fact::any(),
                asked: NarrowedFact::any(),
                next: Fact::any(),
                outcomes: Outcomes::new(),
            },
        )?)
    }
}

/// Whether the first outcome of TAD at an address goes on and entails a fact, as a number.
fn hit<A: Allocator>(
    place: &Place<'_, A>,
    asked: &NarrowedFact,
    at: Word,
    next: &Fact,
    outcomes: &mut Outcomes,
) -> u64
    requires { IsRoomy asked.now }
{
    place.put_outcomes(asked, at, Word::from_index(TAD), outcomes);
    match &outcomes.first.kind {
        OutcomeKind::Goes => {
            if place.entails(&outcomes.first.fact, next) {
                1
            } else {
                0
            }
        }
        _ => 0,
    }
}

/// How many of so many outcomes entail a fact.
fn hits<A: Allocator>(
    place: &Place<'_, A>,
    asked: &NarrowedFact,
    next: &Fact,
    times: u32,
    outcomes: &mut Outcomes,
) -> u64
    requires { IsRoomy asked.now }
{
    let mut hits = 0u64;
    let mut at = Word::from_index(START);
    for _ in 0..times {
        hits = hits.wrapping_add(hit(place, asked, at, next, outcomes));
        at = at.increment();
    }
    hits
}

/// How many of so many outcomes of TAD of the cell 0010 at 0200 entail what a certificate says at 0201; none if it says
/// nothing at one of the two.
#[inline(never)]
pub fn entailed<A: Allocator, B: Allocator>(
    image: &Image,
    declaration: &Declaration<A>,
    certificate: &Certificate<B>,
    times: u32,
    rooms: &mut EntailmentWorkspace,
) -> Option<u64> {
    let EntailmentWorkspace {
        fact,
        asked,
        next,
        outcomes,
    } = rooms;
    let first = Word::from_index(START);
    let second = first.increment();
    if certificate.count_facts(first, 0) == 0 {
        return None;
    }
    if certificate.count_facts(second, 0) == 0 {
        return None;
    }
    let _line = certificate.put_fact(first, 0, 0, fact);
    let _next_line = certificate.put_fact(second, 0, 0, next);
    let rules = certificate.rules();
    if !put_asked(&rules, image, fact, asked) {
        return None;
    }
    let place = Place {
        image,
        declaration,
        routine: None,
        rules,
    };
    Some(hits(&place, asked, next, times, outcomes))
}
