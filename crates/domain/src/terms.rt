//! Terms and sums of them: what relations speak of.

ghost use Rattle.std.specs.Prelude.{◌≡◌, ◌<◌, ◌≤◌, ◌+◌, ◌*◌, ◌%◌, ◌==◌, ◌++◌, [], ◌∷◌, length, map, drop, filter, not, ℕ};
ghost use Rattle.domain.specs.Terms.{same_term, term_is_before, name_is_before, name_of_term, is_sign, same_sum};
ghost use Rattle.domain.specs.LocationsInCode.{location_of};

use crate::location::{Location, is_same_location};
use crate::names::Names;
use std::alloc::AllocError;
use word12::Word;

/// A term of a sum.
///
/// Contracts see it as `term_of` gives it.
#[derive(Clone, Copy, PartialEq, Eq, Debug)]
pub enum Term {
    /// What the accumulator or a cell holds.
    Holding(Location),
    /// The word that stood at the start of the run in the cell whose address is the word of a cell plus a number.
    Behind {
        /// The cell that holds the address.
        cell: Word,
        /// The number that is added to its word.
        more: Word,
    },
}

/// A term with its coefficient, the number by which its word is multiplied.
///
/// Contracts see it as `summand_of` gives it.
#[derive(Clone, Copy, PartialEq, Eq, Debug)]
pub struct Summand {
    /// The coefficient. 7777 stands for minus one.
    pub coefficient: Word,
    /// The term.
    pub term: Term,
}

/// A sum of at most four terms, each with its coefficient. A sum of no terms is 0.
///
/// Contracts see it as `sum_of` gives it.
#[derive(Debug)]
pub struct Sum {
    summands: [Summand; 4],
    count: usize,
    ghost few: { count ≤ 4 },
    ghost long: { length summands ≡ 4 },
}

impl Clone for Sum {
    fn clone(&self) -> Result<Self, AllocError> {
        Ok(*self)
    }
}

impl Copy for Sum {}

/// A term without a coefficient that matters, for places that nothing stands in.
const NOTHING: Summand = Summand {
    coefficient: Word::ZERO,
    term: Term::Holding(Location::Accumulator),
};

/// The product of two words modulo 4096.
#[tactic(auto, using(crate::proofs::ProductLemmas::fits))]
pub fn product(a: Word, b: Word) -> Word
    ensures { result ≡ (a * b) % 4096 }
{
    Word::from_index(a.index() * b.index() % 4096)
}

/// Whether a coefficient is 1 or 7777.
pub fn is_sign(coefficient: Word) -> bool
    ensures { result ≡ is_sign coefficient }
{
    coefficient.index() == 1 || coefficient.index() == 4095
}

/// Whether a name stands before another: the accumulator stands before all cells, and a cell before those of greater
/// addresses.
fn is_name_before(a: &Location, b: &Location) -> bool
    ensures { result ≡ name_is_before (location_of a.now) (location_of b.now) }
{
    match a {
        Location::Accumulator => match b {
            Location::Accumulator => false,
            Location::Cell(_) => true,
        },
        Location::Cell(x) => match b {
            Location::Accumulator => false,
            Location::Cell(y) => x.index() < y.index(),
        },
    }
}

impl Term {
    ghost use Rattle.domain.specs.InCode.{term_of};

    /// The name of which the term speaks: that which holds its word, or the cell that holds the address of its word.
    pub fn name(&self) -> Location
        ensures { location_of result ≡ name_of_term (term_of self.now) }
    {
        match self {
            Term::Holding(name) => *name,
            Term::Behind { cell, .. } => Location::Cell(*cell),
        }
    }

    /// Whether two terms are one.
    pub fn is_same(&self, other: &Term) -> bool
        ensures { result ≡ same_term (term_of self.now) (term_of other.now) }
    {
        match self {
            Term::Holding(n) => match other {
                Term::Holding(m) => is_same_location(n, m),
                Term::Behind { .. } => false,
            },
            Term::Behind { cell: x, more: k } => match other {
                Term::Holding(_) => false,
                Term::Behind { cell: y, more: l } => *x == *y && *k == *l,
            },
        }
    }

    /// Whether a term stands before another in a sum: what names hold, by name, and then what stands behind a cell, by the
    /// cell and the number that is added.
    pub fn is_before(&self, other: &Term) -> bool
        ensures { result ≡ term_is_before (term_of self.now) (term_of other.now) }
    {
        match self {
            Term::Holding(n) => match other {
                Term::Holding(m) => is_name_before(n, m),
                Term::Behind { .. } => true,
            },
            Term::Behind { cell: x, more: k } => match other {
                Term::Holding(_) => false,
                Term::Behind { cell: y, more: l } => {
                    x.index() < y.index() || *x == *y && k.index() < l.index()
                }
            },
        }
    }
}

impl Sum {
    ghost use Rattle.domain.specs.InCode.{term_of, summand_of, summand_at, same_summand, sum_of};
    ghost use Rattle.domain.specs.Naming.{names_of};
    ghost use Rattle.domain.specs.Terms.{with_coefficient, with_summand, collected, arranged, multiplied, without_term, coefficient_in, sum_of_name, difference_of, speaks_of};

    /// The sum of no terms.
    pub fn zero() -> Sum
        ensures { sum_of result ≡ [] }
    {
        Sum {
            summands: [NOTHING; 4],
            count: 0,
        }
    }

    /// How many terms it has.
    pub fn len(&self) -> usize
        ensures count { result ≡ length (sum_of self.now) }
        ensures few { result ≤ 4 }
    {
        self.count
    }

    /// Its terms with their coefficients.
    pub fn summands(&self) -> &[Summand]
        ensures { map summand_of result.now ≡ sum_of self.now }
    {
        &self.summands[..self.count]
    }

    /// The one at a place.
    pub fn get(&self, at: usize) -> Summand
        requires { at < length (sum_of self.now) }
        ensures { summand_of result ≡ summand_at (sum_of self.now) at }
    {
        self.summands[at]
    }

    /// Adds a term behind the others.
    pub fn push(&mut self, summand: Summand)
        requires { length (sum_of self.old) < 4 }
        ensures { sum_of self.new ≡ sum_of self.old ++ summand_of summand ∷ [] }
    {
        self.summands[self.count] = summand;
        self.count += 1;
    }

    /// Adds a term behind the others, unless its coefficient is 0.
    fn push_unless_zero(&mut self, summand: Summand)
        requires { length (sum_of self.old) < 4 }
        ensures { sum_of self.new ≡ sum_of self.old ++ with_coefficient summand.coefficient (term_of summand.term) [] }
    {
        if summand.coefficient.index() != 0 {
            self.push(summand);
        }
    }

    /// Adds the terms of another sum from a place on.
    pub fn push_from(&mut self, other: &Sum, start: usize)
        requires { length (sum_of self.old) + length (drop start (sum_of other.now)) ≤ 4 }
        ensures { sum_of self.new ≡ sum_of self.old ++ drop start (sum_of other.now) }
    {
        for at in start..other.len() {
            self.push(other.get(at));
        }
    }

    /// The sum of one name.
    pub fn of_name(name: Location) -> Sum
        ensures { sum_of result ≡ sum_of_name (location_of name) }
    {
        let mut sum = Sum::zero();
        sum.push(Summand {
            coefficient: Word::ZERO.increment(),
            term: Term::Holding(name),
        });
        sum
    }

    /// One name less another.
    pub fn difference(x: Location, y: Location) -> Sum
        ensures { sum_of result ≡ difference_of (location_of x) (location_of y) }
    {
        let mut sum = Sum::of_name(x);
        sum.push(Summand {
            coefficient: Word::ZERO.complement(),
            term: Term::Holding(y),
        });
        sum
    }

    /// A sum whose terms are in order, with one term more: where it has the term already, it gets both coefficients
    /// together.
    fn with_summand(&self, summand: &Summand) -> Sum
        requires { length (sum_of self.now) < 4 }
        ensures sum { sum_of result ≡ with_summand summand.now.coefficient (term_of summand.now.term) (sum_of self.now) }
        ensures few { length (sum_of result) ≤ length (sum_of self.now) + 1 }
    {
        // The proof needs the coefficient to be a word.
        let _index = summand.coefficient.index();
        let mut sum = Sum::zero();
        for at in 0..self.len() {
            let other = self.get(at);
            if summand.term.is_same(&other.term) {
                sum.push_unless_zero(Summand {
                    coefficient: summand.coefficient.add(other.coefficient),
                    term: summand.term,
                });
                sum.push_from(self, at + 1);
                return sum;
            }
            if summand.term.is_before(&other.term) {
                sum.push_unless_zero(*summand);
                sum.push_from(self, at);
                return sum;
            }
            sum.push(other);
        }
        sum.push_unless_zero(*summand);
        sum
    }

    /// The sum with each term once, in the order of terms, and without those of coefficient 0.
    pub fn collected(&self) -> Sum
        ensures sum { sum_of result ≡ collected (sum_of self.now) }
        ensures few { length (sum_of result) ≤ length (sum_of self.now) }
    {
        let mut sum = Sum::zero();
        let len = self.len();
        for done in 0..len {
            sum = sum.with_summand(&self.get(len - 1 - done));
        }
        sum
    }

    /// Adds those terms of another sum whose coefficients are signs.
    fn push_signed(&mut self, other: &Sum)
        requires { length (sum_of self.old) + length (filter (λ s. is_sign s.coefficient) (sum_of other.now)) ≤ 4 }
        ensures { sum_of self.new ≡ sum_of self.old ++ filter (λ s. is_sign s.coefficient) (sum_of other.now) }
    {
        for at in 0..other.len() {
            let summand = other.get(at);
            if is_sign(summand.coefficient) {
                self.push(summand);
            }
        }
    }

    /// Adds those terms of another sum whose coefficients are no signs.
    fn push_unsigned(&mut self, other: &Sum)
        requires { length (sum_of self.old) + length (filter (λ s. not (is_sign s.coefficient)) (sum_of other.now)) ≤ 4 }
        ensures { sum_of self.new ≡ sum_of self.old ++ filter (λ s. not (is_sign s.coefficient)) (sum_of other.now) }
    {
        for at in 0..other.len() {
            let summand = other.get(at);
            if !is_sign(summand.coefficient) {
                self.push(summand);
            }
        }
    }

    /// The sum as it is kept: its terms are collected, and one whose coefficient is not a sign comes behind those with a
    /// sign.
    pub fn arranged(&self) -> Sum
        ensures sum { sum_of result ≡ arranged (sum_of self.now) }
        ensures few { length (sum_of result) ≤ length (sum_of self.now) }
    {
        let collected = self.collected();
        let mut sum = Sum::zero();
        sum.push_signed(&collected);
        sum.push_unsigned(&collected);
        sum
    }

    /// The sum, each term multiplied by a number.
    pub fn multiplied(&self, c: Word) -> Sum
        ensures { sum_of result ≡ multiplied c (sum_of self.now) }
    {
        let mut sum = Sum::zero();
        for at in 0..self.len() {
            let summand = self.get(at);
            sum.push(Summand {
                coefficient: product(c, summand.coefficient),
                term: summand.term,
            });
        }
        sum
    }

    /// The sum without a term.
    pub fn without_term(&self, term: &Term) -> Sum
        ensures sum { sum_of result ≡ without_term (term_of term.now) (sum_of self.now) }
        ensures few { length (sum_of result) ≤ length (sum_of self.now) }
    {
        let mut sum = Sum::zero();
        for at in 0..self.len() {
            let summand = self.get(at);
            if !term.is_same(&summand.term) {
                sum.push(summand);
            }
        }
        sum
    }

    /// What the coefficient of a term is: all its coefficients together, and 0 where the sum does not have the term.
    pub fn coefficient_of(&self, term: &Term) -> Word
        ensures { result ≡ coefficient_in (term_of term.now) (sum_of self.now) }
    {
        let mut coefficient = Word::ZERO;
        let len = self.len();
        for done in 0..len {
            let summand = self.get(len - 1 - done);
            if term.is_same(&summand.term) {
                coefficient = summand.coefficient.add(coefficient);
            }
        }
        coefficient
    }

    /// Whether the terms at a place of two sums are one, with one coefficient.
    fn is_same_at(&self, other: &Sum, at: usize) -> bool
        requires here { at < length (sum_of self.now) }
        requires there { at < length (sum_of other.now) }
        ensures { result ≡ same_summand (summand_at (sum_of self.now) at) (summand_at (sum_of other.now) at) }
    {
        let summand = self.get(at);
        let also = other.get(at);
        summand.coefficient == also.coefficient && summand.term.is_same(&also.term)
    }

    /// Whether two sums are the same, summand by summand.
    pub fn is_same(&self, other: &Sum) -> bool
        ensures { result ≡ same_sum (sum_of self.now) (sum_of other.now) }
    {
        if self.len() != other.len() {
            return false;
        }
        for at in 0..self.len() {
            if !self.is_same_at(other, at) {
                return false;
            }
        }
        true
    }

    /// Whether the sum speaks of one of some names.
    pub fn speaks_of(&self, names: &Names<'_>) -> bool
        ensures { result ≡ speaks_of (names_of names.now) (sum_of self.now) }
    {
        for at in 0..self.len() {
            if names.contains(&self.get(at).term.name()) {
                return true;
            }
        }
        false
    }
}
