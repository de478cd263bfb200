//! A fact for which conditions are checked at an address of a body, and room for what it is compared
//! with.

ghost use Rattle.std.specs.Prelude.{◌≡◌, ◌≤◌, true, IfSome};
ghost use Rattle.wordset.specs.Lanes.{words};
ghost use Rattle.judge.specs.Bodies.{Tells};
ghost use Rattle.judge.specs.Caches.{StandsAhead};
ghost use Rattle.judge.specs.Judged.{judged};
ghost use Rattle.judge.specs.Shapes.{IsRoomy};
ghost use Rattle.judge.specs.Points.{IsPoint, case_of};

use crate::body::Body;
use crate::cache::FactCache;
use crate::claims::Claims;
use bin_tape::Image;
use declaration::Declaration;
use domain::{Rules, SumFact};
use facts::{Fact, LandingWorkspace, Place};
use std::alloc::{AllocError, Allocator};
use transfer::{NextFact, Outcomes};
use word12::Word;

/// Room for further facts, with which the one at an address is compared or which come of it. The large ones have memory of
/// their own: they are made there, and not on the stack first.
#[derive(Drop)]
pub struct ComparisonWorkspace<M: Allocator> {
    pub exit: Fact,
    pub next: NextFact,
    pub outcomes: Box<Outcomes, M>,
    pub landing: Box<LandingWorkspace, M>,
}

/// Room for outcomes, in memory that an allocator gives.
///
/// # Errors
///
/// `AllocError` where it was refused.
#[inline(never)]
pub(crate) fn boxed_outcomes<M: Allocator>(memory: M) -> Result<Box<Outcomes, M>, AllocError> {
    Ok(Box::new(memory, Outcomes::new())?)
}

/// Room for asking where a fact lands, in memory that an allocator gives.
///
/// # Errors
///
/// `AllocError` where it was refused.
#[inline(never)]
pub(crate) fn boxed_landing<M: Allocator>(
    memory: M,
) -> Result<Box<LandingWorkspace, M>, AllocError> {
    Ok(Box::new(memory, LandingWorkspace::new())?)
}

/// A fact for which conditions are checked at an address of a body: by the rules of equations as it is claimed, and by those
/// of sums narrowed, which has more room.
#[derive(Drop)]
pub struct Point<'a, A: Allocator, C: Claims, const K: usize, const S: usize> {
    pub claims: &'a C,
    pub place: Place<'a, A>,
    pub body: &'a Body,
    pub at: Word,
    pub fact: &'a SumFact<K, S>,
    /// What is kept of the fact at the next address, if something is.
    pub following: Option<&'a FactCache>,
    /// The line at which facts at other addresses are looked for first.
    pub near: usize,
}

/// A point whose fact has room for being narrowed, by whichever rules.
pub type NarrowedPoint<'a, A, C> = Point<'a, A, C, 132, 68>;

/// The place of the facts in a routine's body.
pub fn place_of<'a, A: Allocator>(
    image: &'a Image,
    declaration: &'a Declaration<A>,
    routine: &Option<Word>,
    rules: Rules,
) -> Place<'a, A>
    ensures image { result.image.now ≡ image.now }
    ensures declaration { result.declaration.now ≡ declaration.now }
    ensures routine { result.routine ≡ routine.now }
    ensures rules { result.rules ≡ rules }
{
    Place {
        image,
        declaration,
        routine: *routine,
        rules,
    }
}

impl<'a, A: Allocator, C: Claims, const K: usize, const S: usize> Point<'a, A, C, K, S> {
    /// The fact at an address of a body.
    pub fn of(
        image: &'a Image,
        declaration: &'a Declaration<A>,
        claims: &'a C,
        body: &'a Body,
        at: Word,
        fact: &'a SumFact<K, S>,
        following: Option<&'a FactCache>,
        near: usize,
    ) -> Point<'a, A, C, K, S>
        requires stands { (judged image.now declaration.now (C.claims claims.now)).declaration.body
            body.now.routine at ≡ true }
        requires tells { Tells (C.claims claims.now) body.now }
        requires roomy { IsRoomy fact.now }
        requires cells { K ≤ 132 }
        requires relations { S ≤ 68 }
        requires ahead { IfSome following (λ f.
            StandsAhead (C.claims claims.now) (words body.now.claim.sites) f.now) }
        ensures point { IsPoint C.claims result }
        ensures case { case_of C.claims result ≡
            judged image.now declaration.now (C.claims claims.now) }
        ensures at { result.at ≡ at }
        ensures routine { result.place.routine ≡ body.now.routine }
        ensures fact { result.fact.now ≡ fact.now }
    {
        let place = place_of(image, declaration, &body.routine, claims.rules());
        Point {
            claims,
            place,
            body,
            at,
            fact,
            following,
            near,
        }
    }
}
