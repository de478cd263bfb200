//! Sums of two or three terms in brief, and their order.

ghost use Rattle.std.specs.Prelude.{ℕ, ◌≡◌, true, is_some, IfSome};
ghost use Rattle.domain.specs.Locations.{Cell as SaidCell};
ghost use Rattle.domain.specs.LocationsInCode.{location_of};
ghost use Rattle.domain.specs.Terms.{difference_of, Holding};
ghost use Rattle.std.specs.List.{list_all};
ghost use Rattle.domain.specs.InCode.{summand_of, sum_of};
ghost use Rattle.certificate_lines.specs.LineOf.{is_term, is_summand, is_relation};
ghost use Rattle.certificate_lines.specs.Order.{sum_is_before};
ghost use Rattle.certificate_lines.specs.Packed.{third_terms, packed_sum_of};

use domain::{Location, Sum, Summand, Term, has_shape, negated};
use word12::Word;

/// A sum of two or three terms: a name, a term with its coefficient, and perhaps a cell that has minus that coefficient.
#[derive(Clone, Copy)]
pub struct PackedSum {
    pub first: Location,
    pub second: Summand,
    pub third: Option<Word>,
}

/// The sum of a name less a cell.
pub fn equation(left: Location, right: Word) -> PackedSum
    ensures { packed_sum_of result ≡ difference_of (location_of left) (SaidCell right) }
{
    PackedSum {
        first: left,
        second: Summand {
            coefficient: Word::from_index(4095),
            term: Term::Holding(Location::Cell(right)),
        },
        third: None,
    }
}

/// Whether the number of a name is a word.
fn is_small_name(name: &Location) -> bool
    ensures { result ≡ is_term (Holding (location_of name.now)) }
{
    match name {
        Location::Accumulator => true,
        Location::Cell(cell) => cell.index() < 4096,
    }
}

/// Whether the numbers of a term with its coefficient are words.
fn is_small(summand: &Summand) -> bool
    ensures { result ≡ is_summand (summand_of summand.now) }
{
    if summand.coefficient.index() >= 4096 {
        return false;
    }
    match &summand.term {
        Term::Holding(name) => is_small_name(name),
        Term::Behind { cell, more } => cell.index() < 4096 && more.index() < 4096,
    }
}

/// Whether the numbers of a sum are words.
fn is_sum_of_words(packed: &PackedSum) -> bool
    ensures { result ≡ list_all is_summand (packed_sum_of packed.now) }
{
    let first = Summand {
        coefficient: Word::from_index(1),
        term: Term::Holding(packed.first),
    };
    if !is_small(&first) {
        return false;
    }
    if !is_small(&packed.second) {
        return false;
    }
    match packed.third {
        None => true,
        Some(cell) => is_small(&Summand {
            coefficient: negated(packed.second.coefficient),
            term: Term::Holding(Location::Cell(cell)),
        }),
    }
}

/// Whether a sum is of one of the shapes and as it is kept.
pub fn is_relation(packed: &PackedSum) -> bool
    ensures { result ≡ is_relation (packed_sum_of packed.now) }
{
    if !is_sum_of_words(packed) {
        return false;
    }
    let sum = packed.unpacked();
    if !has_shape(&sum) {
        return false;
    }
    sum.arranged().is_same(&sum)
}

/// The sum packed, where it has two terms or three that are as they are kept.
pub fn packed_sum(sum: &Sum) -> Option<PackedSum>
    ensures kept { is_relation (sum_of sum.now) ≡ true → is_some result ≡ true }
    ensures same { is_relation (sum_of sum.now) ≡ true → IfSome result (λ p. packed_sum_of p ≡ sum_of sum.now) }
{
    let len = sum.len();
    if len < 2 {
        return None;
    }
    let head = sum.get(0);
    let first = head.term.name();
    let second = sum.get(1);
    if len == 2 {
        return Some(PackedSum {
            first,
            second,
            third: None,
        });
    }
    let last = sum.get(2);
    match last.term.name() {
        Location::Cell(cell) => Some(PackedSum {
            first,
            second,
            third: Some(cell),
        }),
        Location::Accumulator => None,
    }
}

impl PackedSum {
    /// The sum.
    pub fn unpacked(&self) -> Sum
        ensures { sum_of result ≡ packed_sum_of self.now }
    {
        let mut sum = Sum::of_name(self.first);
        sum.push(self.second);
        if let Some(cell) = self.third {
            sum.push(Summand {
                coefficient: negated(self.second.coefficient),
                term: Term::Holding(Location::Cell(cell)),
            });
        }
        sum
    }

    /// Whether it comes before another: they are compared term by term, first by the term and then by its coefficient.
    pub fn is_before(&self, other: &PackedSum) -> bool
        ensures { result ≡ sum_is_before (packed_sum_of self.now) (packed_sum_of other.now) }
    {
        let first = Term::Holding(self.first);
        let also = Term::Holding(other.first);
        if !first.is_same(&also) {
            return first.is_before(&also);
        }
        if !self.second.term.is_same(&other.second.term) {
            return self.second.term.is_before(&other.second.term);
        }
        let mine = self.second.coefficient.index();
        let its = other.second.coefficient.index();
        if mine != its {
            return mine < its;
        }
        is_third_before(&self.third, &other.third)
    }
}

/// Whether a third term comes before another of the same coefficient; none comes before all.
fn is_third_before(third: &Option<Word>, other: &Option<Word>) -> bool
    ensures { (c : ℕ) → result ≡ sum_is_before (third_terms c third.now) (third_terms c other.now) }
{
    match other {
        None => false,
        Some(cell) => match third {
            None => true,
            Some(own) => own.index() < cell.index(),
        },
    }
}
