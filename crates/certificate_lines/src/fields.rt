//! The fields of a line, each with one spelling.

ghost use Rattle.std.specs.Prelude.{ℕ, ◌≡◌, ◌+◌, ◌<◌, ◌≤◌, ◌↔◌, List, [], ◌∷◌, ◌++◌, length, IsTrue, true, false, Some, None, IfSome};
ghost use Rattle.word12.specs.Words.{octal_text};
ghost use Rattle.std.specs.Option.{IsSomeAnd};
ghost use Rattle.wordset.specs.Words.{Words, all_words, one, some_below, has_some};
ghost use Rattle.wordset.specs.Links.{links_of};
ghost use Rattle.domain.specs.Locations.{Location as Named};
ghost use Rattle.domain.specs.LocationsInCode.{location_of};
ghost use Rattle.domain.specs.Offsets.{offsets_in};
ghost use Rattle.certificate_lines.specs.FieldSpelling.{marks, set_text, digits, offsets_text, name_text, rank_text};
ghost use Rattle.certificate_lines.specs.RisingLists.{place_of_name, EndsBefore};
ghost use Rattle.certificate_lines.specs.Runs.{Begins, added};
ghost use Rattle.certificate_lines.specs.FieldsLeft.{left, WasFirst, run_text, NoDash, EndsField};

use crate::runs::{Run, Runs};
use domain::{Location, ReturnOffsets};
use word12::Word;
use wordset::Links;

/// A line from some field on, or nothing once a field did not read.
#[derive(Clone, Copy, Debug)]
pub struct Fields<'a> {
    rest: &'a [u8],
    reads: bool,
}

impl<'a> Fields<'a> {
    /// The fields of a line.
    pub fn of(line: &'a [u8]) -> Fields<'a>
        ensures { left result ≡ Some line.now }
    {
        Fields {
            rest: line,
            reads: true,
        }
    }

    /// Whether all fields read and nothing is left.
    pub fn is_done(&self) -> bool
        ensures { IsTrue result ↔ (left self.now ≡ Some []) }
    {
        self.reads && self.rest.is_empty()
    }

    /// A field did not read.
    pub fn fail(&mut self)
        ensures { left self.new ≡ None }
    {
        self.reads = false;
    }

    /// Takes a byte, if it is the next one.
    pub fn takes(&mut self, byte: u8) -> bool
        ensures taken { result ≡ true → IsSomeAnd (left self.new)
            (λ rest. left self.old ≡ Some (byte ∷ rest)) }
        ensures kept { result ≡ false → left self.new ≡ left self.old }
        ensures only { (rest : List ℕ) → left self.old ≡ Some (byte ∷ rest) →
            (result ≡ true) × (left self.new ≡ Some rest) }
    {
        if !self.reads {
            return false;
        }
        match self.rest.split_first() {
            Some((first, rest)) if *first == byte => {
                self.rest = rest;
                true
            }
            _ => false,
        }
    }

    /// Takes some text, if it is next.
    pub fn takes_text(&mut self, text: &[u8]) -> bool
        ensures taken { result ≡ true → IsSomeAnd (left self.new) (λ rest. left self.old ≡ Some (text.now ++ rest)) }
        ensures kept { result ≡ false → left self.new ≡ left self.old }
        ensures only { (rest : List ℕ) → left self.old ≡ Some (text.now ++ rest) →
            (result ≡ true) × (left self.new ≡ Some rest) }
    {
        if !self.reads {
            return false;
        }
        match self.rest.strip_prefix(text) {
            Some(rest) => {
                self.rest = rest;
                true
            }
            None => false,
        }
    }

    /// An octal digit.
    pub fn digit(&mut self) -> usize
        ensures small { result < 8 }
        ensures read { WasFirst self.old self.new ((48 + result) ∷ []) }
        ensures only { (d : ℕ) (rest : List ℕ) → d < 8 → left self.old ≡ Some ((48 + d) ∷ rest) →
            (result ≡ d) × (left self.new ≡ Some rest) }
    {
        match self.rest.split_first() {
            Some((first, rest)) if is_digit(*first) => {
                self.rest = rest;
                digit_of(*first)
            }
            _ => {
                self.fail();
                0
            }
        }
    }

    /// A word of four octal digits.
    pub fn word(&mut self) -> Word
        ensures read { WasFirst self.old self.new (octal_text result) }
        ensures only { (w : ℕ) (rest : List ℕ) → w < 4096 → left self.old ≡
            Some (octal_text w ++ rest) →
            (result ≡ w) × (left self.new ≡ Some rest) }
    {
        match self.rest {
            [first, second, third, fourth, rest @ ..]
                if is_digit(*first) && is_digit(*second) && is_digit(*third) && is_digit(*fourth) =>
                {
                    self.rest = rest;
                    let high = 8 * digit_of(*first) + digit_of(*second);
                    let low = 8 * digit_of(*third) + digit_of(*fourth);
                    Word::from_index(64 * high + low)
                }
            _ => {
                self.fail();
                Word::ZERO
            }
        }
    }

    /// Some text as it stands here.
    pub fn skip(&mut self, text: &[u8])
        ensures read { WasFirst self.old self.new text.now }
        ensures only { (rest : List ℕ) → left self.old ≡ Some (text.now ++ rest) → left self.new ≡
            Some rest }
    {
        match self.rest.strip_prefix(text) {
            Some(rest) => self.rest = rest,
            None => self.fail(),
        }
    }

    /// A run of a set's words from `from` on: its first word and its last one.
    fn run(&mut self, from: usize) -> (Word, Word)
        ensures read { WasFirst self.old self.new (run_text octal_text result.0 result.1) }
        ensures order { IfSome (left self.new) (λ rest. (from ≤ result.0) × (result.0 ≤ result.1)) }
        ensures only { (low high : ℕ) (rest : List ℕ) → from ≤ low → low ≤ high → high < 4096 →
            NoDash rest →
            left self.old ≡ Some (run_text octal_text low high ++ rest) →
            (result.0 ≡ low) × (result.1 ≡ high) × (left self.new ≡ Some rest) }
    {
        let low = self.word();
        if low.index() < from {
            self.fail();
        }
        if !self.takes(b'-') {
            return (low, low);
        }
        let high = self.word();
        if high <= low {
            self.fail();
        }
        (low, high)
    }

    /// Adds the maximal runs of a set with a word, unless there are more than there is room for.
    fn runs(&mut self, runs: &mut Runs)
        ensures front { Begins runs.old.items runs.new.items }
        ensures read { IfSome (left self.new) (λ rest.
            (has_some (added runs.old.items runs.new.items) ≡ true) ×
            (left self.old ≡ Some (marks octal_text 4096 (added runs.old.items runs.new.items) ++ rest))) }
        ensures only { (s : Words) (rest : List ℕ) → length runs.old.items ≤ 4096 →
            has_some s ≡ true → EndsField rest →
            left self.old ≡ Some (marks octal_text 4096 s ++ rest) →
            (left self.new ≡ Some rest) × (length runs.new.items ≤ length runs.old.items + 2048) }
    {
        let mut next = 0;
        loop {
            let (first, last) = self.run(next);
            let Ok(()) = runs.try_push(Run { first, last }) else {
                self.fail();
                return;
            };
            next = last.index() + 2;
            if !self.takes(b',') {
                return;
            }
        }
    }

    /// Adds the runs of a set that is not empty, and returns how many there are.
    pub fn some_set(&mut self, runs: &mut Runs) -> u16
        ensures front { Begins runs.old.items runs.new.items }
        ensures count { length runs.old.items + result ≡ length runs.new.items }
        ensures some { IfSome (left self.new) (λ rest.
            has_some (added runs.old.items runs.new.items) ≡ true) }
        ensures read { WasFirst self.old self.new
            (set_text (added runs.old.items runs.new.items)) }
        ensures only { (s : Words) (rest : List ℕ) → length runs.old.items ≤ 4096 →
            has_some s ≡ true → EndsField rest →
            left self.old ≡ Some (set_text s ++ rest) →
            (left self.new ≡ Some rest) × (length runs.new.items ≤ length runs.old.items + 2048) }
    {
        let before = runs.len();
        self.runs(runs);
        (runs.len() - before) as u16
    }

    /// Adds the runs of a set of words, `-` for the empty one, and returns how many there are.
    pub fn set(&mut self, runs: &mut Runs) -> u16
        ensures front { Begins runs.old.items runs.new.items }
        ensures count { length runs.old.items + result ≡ length runs.new.items }
        ensures read { WasFirst self.old self.new
            (set_text (added runs.old.items runs.new.items)) }
        ensures only { (s : Words) (rest : List ℕ) → length runs.old.items ≤ 4096 →
            EndsField rest →
            left self.old ≡ Some (set_text s ++ rest) →
            (left self.new ≡ Some rest) × (length runs.new.items ≤ length runs.old.items + 2048) }
    {
        if self.takes(b'-') {
            return 0;
        }
        self.some_set(runs)
    }

    /// Adds the run of all words, of which nothing is written.
    pub fn all(&mut self, runs: &mut Runs) -> u16
        ensures front { Begins runs.old.items runs.new.items }
        ensures count { length runs.old.items + result ≡ length runs.new.items }
        ensures read { IfSome (left self.new) (λ rest. (left self.old ≡ Some rest) ×
            (added runs.old.items runs.new.items ≡ all_words)) }
        ensures only { length runs.old.items ≤ 4096 → left self.new ≡ left self.old }
    {
        let first = Word::from_index(0);
        let last = Word::from_index(4095);
        match runs.try_push(Run { first, last }) {
            Ok(()) => 1,
            Err(_) => {
                self.fail();
                0
            }
        }
    }

    /// Adds the run of one word.
    pub fn one(&mut self, word: Word, runs: &mut Runs) -> u16
        ensures front { Begins runs.old.items runs.new.items }
        ensures count { length runs.old.items + result ≡ length runs.new.items }
        ensures read { IfSome (left self.new) (λ rest. (left self.old ≡ Some rest) ×
            (added runs.old.items runs.new.items ≡ one word)) }
        ensures only { length runs.old.items ≤ 4096 → left self.new ≡ left self.old }
    {
        let index = word.index();
        prove!(index < 4096);
        match runs.try_push(Run {
            first: word,
            last: word,
        }) {
            Ok(()) => 1,
            Err(_) => {
                self.fail();
                0
            }
        }
    }

    /// Some of the digits below `count`, in rising order.
    fn digits(&mut self, count: usize) -> ReturnOffsets
        requires { count ≤ 8 }
        ensures read { WasFirst self.old self.new (digits count (offsets_in result)) }
        ensures ends { EndsBefore count (offsets_in result) }
        ensures only { (s : Words) (rest : List ℕ) → EndsField rest → left self.old ≡
            Some (digits count s ++ rest) →
            ((v : ℕ) → v < count → offsets_in result v ≡ s v) × (left self.new ≡ Some rest) }
    {
        let mut found = ReturnOffsets::none();
        for digit in 0..count {
            if self.takes(b'0' + digit as u8) {
                found.insert(digit);
            }
        }
        found
    }

    /// Links: `0`, `1` or `01`.
    pub fn links(&mut self) -> Links
        ensures some { IfSome (left self.new) (λ rest. some_below 2 (links_of result) ≡ true) }
        ensures read { WasFirst self.old self.new (digits 2 (links_of result)) }
        ensures only { (s : Words) (rest : List ℕ) → some_below 2 s ≡ true → EndsField rest →
            left self.old ≡ Some (digits 2 s ++ rest) → left self.new ≡ Some rest }
    {
        let links = links_among(self.digits(2));
        if links.is_empty() {
            self.fail();
        }
        links
    }

    /// The offsets of a fact in versions 1 and 2: their digits, `-` where there are none.
    pub fn digit_offsets(&mut self) -> ReturnOffsets
        ensures ends { EndsBefore 8 (offsets_in result) }
        ensures read { WasFirst self.old self.new (offsets_text (offsets_in result)) }
        ensures only { (s : Words) (rest : List ℕ) → EndsField rest → left self.old ≡
            Some (offsets_text s ++ rest) → left self.new ≡ Some rest }
    {
        if self.takes(b'-') {
            return ReturnOffsets::none();
        }
        let offsets = self.digits(8);
        if offsets.is_empty() {
            self.fail();
        }
        offsets
    }

    /// A rank, of two octal digits.
    pub fn rank(&mut self) -> usize
        ensures small { result < 64 }
        ensures read { WasFirst self.old self.new (rank_text result) }
        ensures only { (n : ℕ) (rest : List ℕ) → n < 64 → left self.old ≡
            Some (rank_text n ++ rest) →
            (result ≡ n) × (left self.new ≡ Some rest) }
    {
        let first = self.digit();
        let second = self.digit();
        8 * first + second
    }

    /// `AC` or a cell's address.
    pub fn name(&mut self) -> Location
        ensures read { WasFirst self.old self.new (name_text (location_of result)) }
        ensures only { (n : Named) (rest : List ℕ) → place_of_name n < 4097 → left self.old ≡
            Some (name_text n ++ rest) →
            (location_of result ≡ n) × (left self.new ≡ Some rest) }
    {
        if self.takes(b'A') {
            self.skip(b"C");
            return Location::Accumulator;
        }
        Location::Cell(self.word())
    }
}

/// Whether a byte is an octal digit.
fn is_digit(byte: u8) -> bool
    ensures { IsTrue result ↔ ((48 ≤ byte) × (byte < 56)) }
{
    b'0' <= byte && byte < b'8'
}

/// The number that an octal digit stands for.
fn digit_of(byte: u8) -> usize
    requires low { 48 ≤ byte }
    requires high { byte < 56 }
    ensures { 48 + result ≡ byte }
{
    usize::from(byte - b'0')
}

/// The links of which the numbers are among these digits.
fn links_among(digits: ReturnOffsets) -> Links
    ensures { (k : ℕ) → k < 2 → links_of result k ≡ offsets_in digits k }
{
    Links {
        clear: digits.contains(0),
        set: digits.contains(1),
    }
}
