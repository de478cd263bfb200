//! The text of the parts of a line.

ghost use Rattle.std.specs.Prelude.{◌≡◌, ◌<◌, ◌≤◌, [], ◌∷◌, ◌+◌, ◌==◌, length, if◌then◌else◌};
ghost use Rattle.word12.specs.Words.{octal_text};
ghost use Rattle.wordset.specs.Lanes.{words};
ghost use Rattle.wordset.specs.Links.{links_of};
ghost use Rattle.domain.specs.LocationsInCode.{location_of};
ghost use Rattle.certificate_lines.specs.FieldSpelling.{marks, set_text, digits, name_text, rank_text, routine_line, cell_line};
ghost use Rattle.certificate_lines.specs.FieldsLeft.{run_text};
ghost use Rattle.certificate_lines.specs.LineText.{Adds};
ghost use Rattle.certificate_lines.specs.Runs.{set_of_runs, set_at, routine_at, AreWithin, StandApart};

use arrayvec::ArrayVec;
use certificate_lines::{PackedRoutine, Run, last_before, set_of, stand_apart};
use domain::Location;
use word12::Word;
use wordset::{Links, WordSet};

/// No line has more bytes, its line feed included.
const MOST: usize = 49_153;

/// The text of a line as far as it is written.
#[derive(Drop)]
pub struct LineText {
    bytes: ArrayVec<u8, MOST>,
}

impl LineText {
    /// No text.
    pub fn new() -> LineText
        ensures { result.bytes.items ≡ [] }
    {
        LineText {
            bytes: ArrayVec::new(),
        }
    }

    /// Its bytes.
    pub fn as_bytes(&self) -> &[u8]
        ensures { result.now ≡ self.now.bytes.items }
    {
        self.bytes.as_slice()
    }

    /// Takes all text away.
    pub fn clear(&mut self)
        ensures { self.new.bytes.items ≡ [] }
    {
        self.bytes.clear();
    }

    /// Adds as much of a text as there is room for.
    #[inline(always)]
    pub fn text(&mut self, text: &[u8])
        ensures { Adds self.old.bytes.items self.new.bytes.items text.now }
    {
        let count = text.len().min(self.bytes.remaining_capacity());
        match self.bytes.try_extend_from_slice(&text[..count]) {
            Ok(()) => {}
            Err(_) => {}
        }
    }

    /// Adds a byte.
    pub fn push(&mut self, byte: u8)
        ensures adds { Adds self.old.bytes.items self.new.bytes.items (byte ∷ []) }
        ensures fits { length self.new.bytes.items ≤ 49153 }
    {
        if !self.bytes.is_full() {
            self.bytes.push(byte);
        }
    }

    /// Adds an octal digit.
    pub fn digit(&mut self, digit: usize)
        requires { digit < 8 }
        ensures { Adds self.old.bytes.items self.new.bytes.items ((48 + digit) ∷ []) }
    {
        self.push(b'0' + digit as u8);
    }

    /// Adds a word as four octal digits.
    pub fn word(&mut self, word: Word)
        ensures { Adds self.old.bytes.items self.new.bytes.items (octal_text word) }
    {
        self.text(&word.to_octal());
    }

    /// Adds a run of words: its first one, and its last one where that is another.
    fn run(&mut self, low: Word, high: Word)
        ensures { Adds self.old.bytes.items self.new.bytes.items (run_text octal_text low high) }
    {
        self.word(low);
        if low != high {
            self.push(b'-');
            self.word(high);
        }
    }

    /// Adds a comma, but not at the beginning.
    fn comma(&mut self, from: usize)
        ensures { Adds self.old.bytes.items self.new.bytes.items
            (if from == 0 then [] else 44 ∷ []) }
    {
        if from > 0 {
            self.push(b',');
        }
    }

    /// Adds the words of runs that stand apart.
    fn runs(&mut self, runs: &[Run])
        requires { StandApart 0 runs.now }
        ensures { Adds self.old.bytes.items self.new.bytes.items
            (marks octal_text 4096 (set_of_runs runs.now)) }
    {
        let mut next = 0;
        for run in runs {
            self.comma(next);
            self.run(run.first, run.last);
            next = run.last.index() + 2;
        }
    }

    /// Adds a set by its maximal runs, which are looked for.
    #[inline(never)]
    fn words(&mut self, set: &WordSet)
        ensures { Adds self.old.bytes.items self.new.bytes.items (marks octal_text 4096 (words set.now)) }
    {
        let others = WordSet::all().minus(set);
        let mut next = 0;
        while let Some(low) = set.first_from(next) {
            self.comma(next);
            let high = last_before(&others, low);
            self.run(low, high);
            next = high.index() + 2;
        }
    }

    /// Adds the set of which these are runs. They are its maximal ones, unless two of them touch.
    fn set(&mut self, runs: &[Run])
        ensures { Adds self.old.bytes.items self.new.bytes.items
            (set_text (set_of_runs runs.now)) }
    {
        if !runs.is_empty() && stand_apart(runs) {
            self.runs(runs);
            return;
        }
        let set = set_of(runs);
        if set.is_empty() {
            self.push(b'-');
        } else {
            self.words(&set);
        }
    }

    /// Adds the set of so many runs from a place on.
    pub fn set_in(&mut self, runs: &[Run], first: u16, count: u16)
        requires { first + count ≤ length runs.now }
        ensures { Adds self.old.bytes.items self.new.bytes.items
            (set_text (set_at runs.now first count)) }
    {
        let first = usize::from(first);
        self.set(&runs[first..first + usize::from(count)]);
    }

    /// Adds an octal digit, where it is wanted.
    pub fn digit_if(&mut self, digit: usize, is_wanted: bool)
        requires { digit < 8 }
        ensures { Adds self.old.bytes.items self.new.bytes.items
            (if is_wanted then (48 + digit) ∷ [] else []) }
    {
        if is_wanted {
            self.digit(digit);
        }
    }

    /// Adds links: `0`, `1` or `01`.
    pub fn links(&mut self, links: Links)
        ensures { Adds self.old.bytes.items self.new.bytes.items (digits 2 (links_of links)) }
    {
        self.digit_if(0, links.clear);
        self.digit_if(1, links.set);
    }

    /// Adds a name: `AC` or a cell's address.
    pub fn name(&mut self, name: &Location)
        ensures { Adds self.old.bytes.items self.new.bytes.items (name_text (location_of name.now)) }
    {
        match name {
            Location::Accumulator => self.text(b"AC"),
            Location::Cell(cell) => self.word(*cell),
        }
    }

    /// Adds a rank as two octal digits.
    pub fn rank(&mut self, rank: usize)
        requires { rank < 64 }
        ensures { Adds self.old.bytes.items self.new.bytes.items (rank_text rank) }
    {
        self.digit(rank / 8);
        self.digit(rank % 8);
    }

    /// Adds the line of a routine.
    pub fn routine(&mut self, runs: &[Run], routine: &PackedRoutine)
        requires within { AreWithin (length runs.now) routine.now.sets }
        requires rank { routine.now.rank < 64 }
        ensures { Adds self.old.bytes.items self.new.bytes.items
            (routine_line (routine_at runs.now routine.now)) }
    {
        self.text(b"routine ");
        self.word(routine.entry);
        self.text(b" rank ");
        self.rank(usize::from(routine.rank));
        self.text(b" sites ");
        self.set_in(runs, 0, routine.sets.one);
        self.text(b" writes ");
        self.set_in(runs, routine.sets.one, routine.sets.other);
    }

    /// Adds the line of a tracked cell.
    pub fn cell(&mut self, runs: &[Run], cell: Word, count: u16)
        requires { count ≤ length runs.now }
        ensures { Adds self.old.bytes.items self.new.bytes.items
            (cell_line (record { address = cell; set = set_at runs.now 0 count })) }
    {
        self.text(b"cell ");
        self.word(cell);
        self.text(b" ");
        self.set_in(runs, 0, count);
    }
}
