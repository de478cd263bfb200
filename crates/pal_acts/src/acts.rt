//! What a source does, in order.

ghost use Rattle.std.specs.Prelude.{◌≡◌, ◌<◌, [], ◌∷◌, ◌++◌, OnOk, IfOk, Some, List, length, take, slice_get};
ghost use Rattle.pal_acts.specs.declared.act.SignedTerm.{SignedTerm as Joined};
ghost use Rattle.pal_acts.specs.Acts.{placed, shown};

use crate::act::{Act, SignedTerm, SourcePlace};
use std::alloc::{AllocError, Allocator};
use std::marker::Model;

/// An act, where it stands, and the terms of its expression; none if it has no expression.
#[derive(Clone, Copy)]
pub struct SourceAct<'t> {
    pub place: SourcePlace,
    pub act: Act,
    pub terms: &'t [SignedTerm],
}

/// Where the terms of an expression lie among those of all: from `first` up to the one before
/// `last`.
#[derive(Clone, Copy)]
struct Span {
    first: usize,
    last: usize,
}

/// An act as it is kept.
#[derive(Clone, Copy)]
struct StoredAct {
    place: SourcePlace,
    act: Act,
    span: Span,
}

/// The acts of a source in the order in which faults are looked for. The terms of all expressions
/// lie in one list.
#[derive(Drop)]
pub struct Acts<A: Allocator> {
    list: Vec<StoredAct, A>,
    terms: Vec<SignedTerm, A>,
}

impl<A: Allocator> Model for Acts<A> {
    ghost use Rattle.std.specs.Prelude.{List, length};
    ghost use Rattle.std.specs.List.{AllByRecursion};
    ghost use Rattle.pal_acts.specs.Acts.{PlacedAct, acts_in};
    ghost use Rattle.pal_acts.specs.ActsInCode.{LiesWithin};

    ghost Value = { List PlacedAct };

    ghost view = { λ acts. acts_in acts.terms.items acts.list.items };

    // Each expression lies among the terms.
    ghost invariant = { λ acts. AllByRecursion (LiesWithin (length acts.terms.items))
        acts.list.items };
}

/// Adds the terms of an expression, and returns where they lie.
fn lay<A: Allocator>(
    terms: &mut Vec<SignedTerm, A>,
    expression: &[SignedTerm],
) -> Result<Span, AllocError>
    ensures kept { (more : List Joined) × (terms.new.items ≡ terms.old.items ++ more) }
    ensures laid { OnOk result (terms.new.items ≡ terms.old.items ++ expression.now) }
    ensures first { IfOk result (λ span. span.first ≡ length terms.old.items) }
    ensures last { IfOk result (λ span. span.last ≡ length terms.new.items) }
{
    let first = terms.len();
    terms.extend_from_slice(expression)?;
    Ok(Span {
        first,
        last: terms.len(),
    })
}

impl<A: Allocator + Copy> Acts<A> {
    /// No acts.
    pub fn new(alloc: A) -> Self
        ensures { result ≡ [] }
    {
        Acts {
            list: Vec::new(alloc),
            terms: Vec::new(alloc),
        }
    }
}

impl<A: Allocator> Acts<A> {
    /// How many there are.
    pub fn len(&self) -> usize
        ensures { result ≡ length self.now }
    {
        self.list.len()
    }

    /// The act at this place in the list, counted from 0; there must be one.
    pub fn get(&self, at: usize) -> SourceAct<'_>
        requires { at < length self.now }
        ensures { slice_get self.now at ≡ Some (shown result) }
    {
        let kept = self.list[at];
        SourceAct {
            place: kept.place,
            act: kept.act,
            terms: &self.terms[kept.span.first..kept.span.last],
        }
    }

    /// Keeps one act more, after the others.
    ///
    /// # Errors
    ///
    /// Memory was refused.
    #[inline(always)]
    pub fn keep(
        &mut self,
        place: SourcePlace,
        act: Act,
        terms: &[SignedTerm],
    ) -> Result<(), AllocError>
        ensures kept { OnOk result (self.new ≡ self.old ++ placed place terms.now act ∷ []) }
    {
        let span = lay(&mut self.terms, terms)?;
        self.list.push(StoredAct { place, act, span })?;
        Ok(())
    }

    /// Forgets all but so many at the front.
    pub fn truncate(&mut self, count: usize)
        ensures { self.new ≡ take count self.old }
    {
        self.list.truncate(count);
    }
}
