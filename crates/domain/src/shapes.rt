//! The sums of which relations may speak, and how any sum is spelled as one of them.

ghost use Rattle.std.specs.Prelude.{◌≡◌, ◌∷◌, []};
ghost use Rattle.domain.specs.Locations.{Ac};
ghost use Rattle.domain.specs.LocationsInCode.{location_of};
ghost use Rattle.domain.specs.Terms as said;
ghost use Rattle.domain.specs.Shapes.{is_cell, is_name, may_be_second, is_pair, is_triple, has_shape, spelled};
ghost use Rattle.domain.specs.InCode.{term_of, summand_of, sum_of};
ghost use Rattle.domain.specs.Spelling.{spelled_of};

use crate::location::{Location, is_same_location};
use crate::terms::{Sum, Summand, Term, is_sign};
use word12::Word;

/// How a sum is spelled: as a sum of one of the shapes, with the sign by which that is multiplied to make the sum.
///
/// Contracts see it as `spelled_of` gives it.
#[derive(Clone, Copy, Drop)]
pub struct SpelledSum {
    /// The sum of one of the shapes.
    pub sum: Sum,
    /// 1 or 7777.
    pub sign: Word,
}

/// Whether a term is what a cell holds.
fn is_cell(term: &Term) -> bool
    ensures { result ≡ is_cell (term_of term.now) }
{
    match term {
        Term::Holding(name) => match name {
            Location::Accumulator => false,
            Location::Cell(_) => true,
        },
        Term::Behind { .. } => false,
    }
}

/// Whether a term is a name.
fn is_name(term: &Term) -> bool
    ensures { result ≡ is_name (term_of term.now) }
{
    match term {
        Term::Holding(_) => true,
        Term::Behind { .. } => false,
    }
}

/// Whether a term may stand behind a name in a sum of two: a cell with any coefficient; or with a sign what stands behind a
/// cell, which is not the name itself.
fn may_be_second(first: &Location, coefficient: Word, term: &Term) -> bool
    ensures { result ≡ may_be_second (location_of first.now) coefficient (term_of term.now) }
{
    match term {
        Term::Holding(_) => is_cell(term),
        Term::Behind { cell, .. } => {
            is_sign(coefficient) && !is_same_location(first, &Location::Cell(*cell))
        }
    }
}

/// Whether two summands are a sum of one of the shapes except for the first coefficient.
fn is_pair(first: &Term, second: &Summand) -> bool
    ensures { result ≡ is_pair (term_of first.now) (summand_of second.now) }
{
    match first {
        Term::Holding(name) => may_be_second(name, second.coefficient, &second.term),
        Term::Behind { .. } => false,
    }
}

/// Whether three summands are the accumulator and the difference of two cells, except for the first
/// coefficient.
fn is_triple(first: &Term, second: &Summand, third: &Summand) -> bool
    ensures { result ≡ is_triple (term_of first.now) (summand_of second.now) (summand_of third.now) }
{
    match first {
        Term::Holding(name) => match name {
            Location::Accumulator => are_apart(second, third),
            Location::Cell(_) => false,
        },
        Term::Behind { .. } => false,
    }
}

/// Whether two summands are the difference of two cells.
fn are_apart(second: &Summand, third: &Summand) -> bool
    ensures { result ≡ is_triple (said.Holding Ac) (summand_of second.now) (summand_of third.now) }
{
    let s = second.coefficient.index();
    let t = third.coefficient.index();
    is_cell(&second.term) && is_cell(&third.term) && (s == 1 && t == 4095 || s == 4095 && t == 1)
}

/// Whether one summand is a sum of one of the shapes.
fn is_shape_of_one(first: &Summand) -> bool
    ensures { result ≡ has_shape (summand_of first.now ∷ []) }
{
    first.coefficient.index() == 1 && is_name(&first.term)
}

/// Whether two summands are a sum of one of the shapes.
fn is_shape_of_two(first: &Summand, second: &Summand) -> bool
    ensures { result ≡ has_shape (summand_of first.now ∷ summand_of second.now ∷ []) }
{
    first.coefficient.index() == 1 && is_pair(&first.term, second)
}

/// Whether three summands are a sum of one of the shapes.
fn is_shape_of_three(first: &Summand, second: &Summand, third: &Summand) -> bool
    ensures { result ≡ has_shape (summand_of first.now ∷ summand_of second.now ∷ summand_of third.now ∷ []) }
{
    first.coefficient.index() == 1 && is_triple(&first.term, second, third)
}

/// Whether an arranged sum has one of the shapes of which relations may speak: x; x + c·y; x + [y + k] or x - [y + k];
/// AC + y - z or AC - y + z, where x is the accumulator or a cell, and y and z are cells.
pub fn has_shape(sum: &Sum) -> bool
    ensures { result ≡ has_shape (sum_of sum.now) }
{
    let len = sum.len();
    if len == 1 {
        return is_shape_of_one(&sum.get(0));
    }
    if len == 2 {
        return is_shape_of_two(&sum.get(0), &sum.get(1));
    }
    if len == 3 {
        return is_shape_of_three(&sum.get(0), &sum.get(1), &sum.get(2));
    }
    false
}

/// How any sum of terms is spelled, if it says the same as a sum of one of the shapes.
pub fn spelled(sum: &Sum) -> Option<SpelledSum>
    ensures { spelled_of result ≡ spelled (sum_of sum.now) }
{
    let arranged = sum.arranged();
    if has_shape(&arranged) {
        return Some(SpelledSum {
            sum: arranged,
            sign: Word::from_index(1),
        });
    }
    let negated = arranged.multiplied(Word::from_index(0o7777));
    if has_shape(&negated) {
        return Some(SpelledSum {
            sum: negated,
            sign: Word::from_index(0o7777),
        });
    }
    None
}
