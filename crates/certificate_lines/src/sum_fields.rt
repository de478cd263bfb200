//! The fields that version 3 adds, each with one spelling.

ghost use Rattle.std.specs.Prelude.{ℕ, ◌≡◌, ◌<◌, ◌≤◌, ◌==◌, List, [], ◌∷◌, ◌++◌, length, map, take, flat_map, Option, codes, true, Some, None, IfSome};
ghost use Rattle.wordset.specs.Words.{Words, some_below};
ghost use Rattle.domain.specs.InCode.{term_of, summand_of};
ghost use Rattle.domain.specs.ChainsInCode.{step_of};
ghost use Rattle.domain.specs.Offsets.{offsets_in};
ghost use Rattle.domain.specs.Terms as said;
ghost use Rattle.domain.specs.Chains.{Step as SaidStep};
ghost use Rattle.certificate_lines.specs.RisingLists.{EndsBefore};
ghost use Rattle.certificate_lines.specs.FieldSpelling.{marks, rank_text, offset_set_text};
ghost use Rattle.certificate_lines.specs.FieldsLeft.{left, WasFirst, run_text, NoDash, EndsField};
ghost use Rattle.certificate_lines.specs.Fields.{with_run, third_text, step_rest, AreSteps};
ghost use Rattle.certificate_lines.specs.Spelling.{term_text, coefficient_text, further_text, sum_text, step_text};
ghost use Rattle.certificate_lines.specs.LineOf.{is_term, is_relation, is_step};
ghost use Rattle.certificate_lines.specs.Packed.{third_terms, packed_sum_of};

use crate::fields::Fields;
use crate::packed::sum::{PackedSum, is_relation};
use crate::packed::{Steps, is_step};
use domain::{Location, ReturnOffsets, Step, Summand, Term, is_sign, negated};
use word12::Word;

/// Puts the offsets from one to another in, both of them.
fn insert_run(found: &mut ReturnOffsets, first: usize, last: usize)
    requires order { first ≤ last }
    requires small { last < 64 }
    ensures { (v : ℕ) → offsets_in found.new v ≡ with_run first last (offsets_in found.old) v }
{
    for offset in first..last + 1 {
        found.insert(offset);
    }
}

/// The cell of a term that has minus this coefficient, if it is what a cell holds.
fn opposite_cell(third: &Summand, coefficient: Word) -> Option<Word>
    ensures is { IfSome result (λ z. summand_of third.now ∷ [] ≡ third_terms coefficient (Some z)) }
    ensures only { (z : ℕ) → summand_of third.now ∷ [] ≡ third_terms coefficient (Some z) → result ≡ Some z }
{
    match third.term {
        Term::Holding(name) => match name {
            Location::Cell(cell) => {
                if third.coefficient == negated(coefficient) {
                    Some(cell)
                } else {
                    None
                }
            }
            Location::Accumulator => None,
        },
        Term::Behind { .. } => None,
    }
}

impl<'a> Fields<'a> {
    /// A run of offsets from `from` on: its first one and its last one, of two digits each.
    fn offset_run(&mut self, from: usize) -> (usize, usize)
        ensures small { result.1 < 64 }
        ensures rising { result.0 ≤ result.1 }
        ensures read { WasFirst self.old self.new (run_text rank_text result.0 result.1) }
        ensures order { IfSome (left self.new) (λ rest. (from ≤ result.0) × (result.0 ≤ result.1)) }
        ensures only { (low high : ℕ) (rest : List ℕ) → from ≤ low → low ≤ high → high < 64 →
            NoDash rest →
            left self.old ≡ Some (run_text rank_text low high ++ rest) →
            (result.0 ≡ low) × (result.1 ≡ high) × (left self.new ≡ Some rest) }
    {
        let low = self.rank();
        if low < from {
            self.fail();
        }
        if !self.takes(b'-') {
            return (low, low);
        }
        let high = self.rank();
        if high <= low {
            self.fail();
            return (low, low);
        }
        (low, high)
    }

    /// The runs of a set of offsets with one at least, of two digits each.
    fn offset_runs(&mut self) -> ReturnOffsets
        ensures read { IfSome (left self.new) (λ rest.
            (some_below 64 (offsets_in result) ≡ true) ×
            (left self.old ≡ Some (marks rank_text 64 (offsets_in result) ++ rest))) }
        ensures only { (s : Words) (rest : List ℕ) → some_below 64 s ≡ true → EndsBefore 64 s → EndsField rest →
            left self.old ≡ Some (marks rank_text 64 s ++ rest) →
            left self.new ≡ Some rest }
    {
        let mut found = ReturnOffsets::none();
        let mut next = 0;
        loop {
            let (first, last) = self.offset_run(next);
            insert_run(&mut found, first, last);
            next = last + 2;
            if !self.takes(b',') {
                return found;
            }
        }
    }

    /// The offsets of a fact in version 3: their runs, `-` where there are none.
    pub fn offset_set(&mut self) -> ReturnOffsets
        ensures read { WasFirst self.old self.new (offset_set_text (offsets_in result)) }
        ensures only { (s : Words) (rest : List ℕ) → EndsBefore 64 s → EndsField rest → left self.old ≡
            Some (offset_set_text s ++ rest) → left self.new ≡ Some rest }
    {
        if self.takes(b'-') {
            return ReturnOffsets::none();
        }
        self.offset_runs()
    }

    /// A term: `AC`, a cell, or a cell and a number in brackets.
    pub fn term(&mut self) -> Term
        ensures read { WasFirst self.old self.new (term_text (term_of result)) }
        ensures only { (t : said.Term) (rest : List ℕ) → is_term t ≡ true → left self.old ≡
            Some (term_text t ++ rest) →
            (term_of result ≡ t) × (left self.new ≡ Some rest) }
    {
        if !self.takes(b'[') {
            return Term::Holding(self.name());
        }
        let cell = self.word();
        self.skip(b"+");
        let more = self.word();
        self.skip(b"]");
        Term::Behind { cell, more }
    }

    /// A coefficient: `+` for 1, `-` for minus one, else four digits.
    pub fn coefficient(&mut self) -> Word
        ensures read { WasFirst self.old self.new (coefficient_text result) }
        ensures only { (c : ℕ) (rest : List ℕ) → c < 4096 → left self.old ≡
            Some (coefficient_text c ++ rest) →
            (result ≡ c) × (left self.new ≡ Some rest) }
    {
        if self.takes(b'+') {
            return Word::from_index(1);
        }
        if self.takes(b'-') {
            return Word::from_index(4095);
        }
        let coefficient = self.word();
        if is_sign(coefficient) {
            self.fail();
            return coefficient;
        }
        coefficient
    }

    /// A term after the first one with its coefficient, each after a space.
    fn summand(&mut self) -> Summand
        ensures read { WasFirst self.old self.new (further_text (summand_of result)) }
        ensures only { (s : said.Summand) (rest : List ℕ) → is_term s.term ≡ true → s.coefficient < 4096 →
            left self.old ≡ Some (further_text s ++ rest) →
            (summand_of result ≡ s) × (left self.new ≡ Some rest) }
    {
        self.skip(b" ");
        let coefficient = self.coefficient();
        self.skip(b" ");
        let term = self.term();
        Summand { coefficient, term }
    }

    /// The third term of a sum, if it has one, and ` in `: a cell with minus the coefficient of the second.
    fn third(&mut self, second: &Summand) -> Option<Word>
        ensures read { WasFirst self.old self.new (third_text second.now.coefficient result ++ codes " in ") }
        ensures only { (cell : Option ℕ) (rest : List ℕ) → IfSome cell (λ z. z < 4096) →
            left self.old ≡ Some (third_text second.now.coefficient cell ++ codes " in " ++ rest) →
            (result ≡ cell) × (left self.new ≡ Some rest) }
    {
        if self.takes_text(b" in ") {
            return None;
        }
        let third = self.summand();
        self.skip(b" in ");
        match opposite_cell(&third, second.coefficient) {
            Some(cell) => Some(cell),
            None => {
                self.fail();
                None
            }
        }
    }

    /// A sum of two or three terms, and ` in `.
    fn told_sum(&mut self) -> PackedSum
        ensures read { WasFirst self.old self.new (sum_text (packed_sum_of result) ++ codes " in ") }
        ensures only { (s : said.Sum) (rest : List ℕ) → is_relation s ≡ true →
            left self.old ≡ Some (sum_text s ++ codes " in " ++ rest) →
            (packed_sum_of result ≡ s) × (left self.new ≡ Some rest) }
    {
        let first = self.name();
        let second = self.summand();
        let third = self.third(&second);
        PackedSum {
            first,
            second,
            third,
        }
    }

    /// A sum of two or three terms, as it is kept, and ` in `.
    pub fn sum(&mut self) -> PackedSum
        ensures form { IfSome (left self.new) (λ rest. is_relation (packed_sum_of result) ≡ true) }
        ensures read { WasFirst self.old self.new (sum_text (packed_sum_of result) ++ codes " in ") }
        ensures only { (s : said.Sum) (rest : List ℕ) → is_relation s ≡ true →
            left self.old ≡ Some (sum_text s ++ codes " in " ++ rest) →
            (packed_sum_of result ≡ s) × (left self.new ≡ Some rest) }
    {
        let sum = self.told_sum();
        if !is_relation(&sum) {
            self.fail();
            return sum;
        }
        sum
    }

    /// A step after its space.
    fn step(&mut self) -> Step
        ensures form { IfSome (left self.new) (λ rest. is_step (step_of result) ≡ true) }
        ensures read { WasFirst self.old self.new (step_rest (step_of result)) }
        ensures only { (p : SaidStep) (rest : List ℕ) → is_step p ≡ true → left self.old ≡
            Some (step_rest p ++ rest) →
            (step_of result ≡ p) × (left self.new ≡ Some rest) }
    {
        if self.takes_text(b"AND ") {
            return Step::Ands(self.word());
        }
        if self.takes_text(b"TAD ") {
            return Step::Adds(self.word());
        }
        let word = self.word();
        if !is_step(word) {
            self.fail();
            return Step::Operates(word);
        }
        Step::Operates(word)
    }

    /// Adds 1 to 16 steps, up to the end of the line, and returns how many there are.
    pub fn steps(&mut self, steps: &mut Steps) -> u8
        requires { steps.old.items ≡ [] }
        ensures count { result ≤ length steps.new.items }
        ensures form { IfSome (left self.new) (λ rest. AreSteps (map step_of (take result steps.new.items))) }
        ensures read { IfSome (left self.new) (λ rest.
            left self.old ≡ Some (flat_map step_text (map step_of (take result steps.new.items)) ++ rest)) }
        ensures only { (ps : List SaidStep) → AreSteps ps → left self.old ≡ Some (flat_map step_text ps) →
            left self.new ≡ Some [] }
    {
        while self.takes(b' ') {
            let step = self.step();
            let Ok(()) = steps.try_push(step) else {
                self.fail();
                return 0;
            };
        }
        if steps.is_empty() {
            self.fail();
            return 0;
        }
        steps.len() as u8
    }
}
