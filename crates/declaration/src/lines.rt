//! What the lines of a declaration say.

ghost use Rattle.std.specs.Prelude.{◌≡◌, ◌<◌, ◌==◌, ◌||◌, [], ◌∷◌, codes, IfSome, OnSome};
ghost use Rattle.streams.specs.Text.{octal_word};
ghost use Rattle.std.specs.List.{after_first, before_first, find, position};
ghost use Rattle.std.specs.Option.{option_map};
ghost use Rattle.streams.specs.TextLeft.{words_left};
ghost use Rattle.wordset.specs.Lanes.{words};
ghost use Rattle.wordset.specs.Words.{one};
ghost use Rattle.declaration.specs.DeclarationInCode.{offsets_of, assertion_of};
ghost use Rattle.declaration.specs.Lines.{is_dash, range_of, address_of, offset_of, all_of, some_of, span, is_returns, body_read, start_line, sub_line, profile_line, further_line, skips_line, every_offset, if_offsets, holds_line, returns_line, is_subject, offsets_named, assertion_in, named_assertion, asserted, link_of, cell_assertion, line_by, line_of};
ghost use Rattle.declaration.specs.Drafts.{cells_read, ranges_before, cells_before, said};

use super::{
    Assertion, FurtherOffsets, Offsets, PlaceAssertion, ReturnAssertion, Routine, Subject,
};
use instruct::Profile;
use streams::text::{self, Words};
use word12::Word;
use wordset::WordSet;

/// What a line says.
#[derive(Clone, Copy)]
pub enum DeclarationLine {
    Nothing,
    Start(Word),
    Main(WordSet),
    Sub(Routine),
    Variables(WordSet),
    Stops(WordSet),
    Pauses(WordSet),
    Machine(Profile),
    Reads(WordSet),
    Skips(FurtherOffsets),
    Moves(WordSet),
    Abandon(WordSet),
    Holds(PlaceAssertion),
    Returns(ReturnAssertion),
}

/// What a word of a list of cells may be.
#[derive(Clone, Copy)]
enum Form {
    /// An address, or two with a dash between them.
    Range,
    /// An address.
    Address,
}

/// What a line says, if it is not bad.
pub fn read_line(line: &[u8]) -> Option<DeclarationLine>
    ensures { option_map said result ≡ line_of line.now }
{
    let mut words = Words::of(line);
    match words.next() {
        None => Some(DeclarationLine::Nothing),
        Some(name) => named_line(name, words),
    }
}

/// What a line of this first word says.
fn named_line(name: &[u8], rest: Words<'_>) -> Option<DeclarationLine>
    ensures { option_map said result ≡ line_by (name.now ∷ words_left rest.entry) }
{
    if text::is(name, "start") {
        start_line(rest)
    } else if text::is(name, "main") {
        some_cells(Form::Range, rest).map(DeclarationLine::Main)
    } else if text::is(name, "sub") {
        sub_line(rest)
    } else if text::is(name, "var") {
        some_cells(Form::Range, rest).map(DeclarationLine::Variables)
    } else if text::is(name, "stop") {
        some_cells(Form::Address, rest).map(DeclarationLine::Stops)
    } else if text::is(name, "pause") {
        some_cells(Form::Address, rest).map(DeclarationLine::Pauses)
    } else if text::is(name, "profile") {
        profile_line(rest)
    } else if text::is(name, "read") {
        all_cells(Form::Range, rest).map(DeclarationLine::Reads)
    } else {
        further_line(name, rest)
    }
}

/// What a line of another first word says: on how routines return, or on what is to hold.
fn further_line(name: &[u8], rest: Words<'_>) -> Option<DeclarationLine>
    ensures { option_map said result ≡ further_line name.now (words_left rest.entry) }
{
    if text::is(name, "skips") {
        skips_line(rest)
    } else if text::is(name, "moves") {
        some_cells(Form::Address, rest).map(DeclarationLine::Moves)
    } else if text::is(name, "abandon") {
        some_cells(Form::Address, rest).map(DeclarationLine::Abandon)
    } else if text::is(name, "holds") {
        holds_line(rest)
    } else if text::is(name, "returns") {
        returns_line(rest)
    } else {
        None
    }
}

/// The start of a line of one word.
fn start_line(rest: Words<'_>) -> Option<DeclarationLine>
    ensures { option_map said result ≡ start_line (words_left rest.entry) }
{
    let mut words = rest;
    let Some(word) = words.next() else {
        return None;
    };
    match words.next() {
        None => text::octal_word(word).map(DeclarationLine::Start),
        Some(_) => None,
    }
}

/// The machine of a line of one word.
fn profile_line(rest: Words<'_>) -> Option<DeclarationLine>
    ensures { option_map said result ≡ profile_line (words_left rest.entry) }
{
    let mut words = rest;
    let Some(word) = words.next() else {
        return None;
    };
    match words.next() {
        None => profile(word),
        Some(_) => None,
    }
}

/// The machine of this name.
fn profile(word: &[u8]) -> Option<DeclarationLine>
    ensures { option_map said result ≡ profile_line (word.now ∷ []) }
{
    if text::is(word, "8i") {
        Some(DeclarationLine::Machine(Profile::Pdp8I))
    } else if text::is(word, "8e") {
        Some(DeclarationLine::Machine(Profile::Pdp8E))
    } else {
        None
    }
}

/// A routine: its entry, the word `body`, ranges, the word `returns`, and offsets.
fn sub_line(rest: Words<'_>) -> Option<DeclarationLine>
    ensures { option_map said result ≡ sub_line (words_left rest.entry) }
{
    let mut words = rest;
    let Some(entry) = words.next() else {
        return None;
    };
    let Some(word) = words.next() else {
        return None;
    };
    if !text::is(word, "body") {
        return None;
    }
    routine(entry, words)
}

/// The routine of an entry and of what follows the word `body`.
fn routine(entry: &[u8], rest: Words<'_>) -> Option<DeclarationLine>
    ensures { option_map said result
        ≡ sub_line (entry.now ∷ codes "body" ∷ words_left rest.entry) }
{
    let mut words = rest;
    let Some(entry) = text::octal_word(entry) else {
        return None;
    };
    let Some(body) = body(&mut words) else {
        return None;
    };
    let Some(offsets) = offsets(words) else {
        return None;
    };
    Some(DeclarationLine::Sub(Routine {
        entry,
        body,
        offsets,
    }))
}

/// The cells of ranges, one or more, up to the word `returns`, which is taken too.
fn body(rest: &mut Words<'_>) -> Option<WordSet>
    ensures cells { option_map words result ≡ body_read (words_left rest.old) }
    ensures rest { OnSome result
        (words_left rest.new ≡ after_first is_returns (words_left rest.old)) }
{
    let mut ahead = *rest;
    match ahead.next() {
        Some(first) if !text::is(first, "returns") => body_cells(rest),
        _ => None,
    }
}

/// The cells of ranges, of which there may be none, up to the word `returns`, which is taken too.
fn body_cells(rest: &mut Words<'_>) -> Option<WordSet>
    ensures cells { option_map words result ≡ ranges_before (words_left rest.old) }
    ensures rest { OnSome result
        (words_left rest.new ≡ after_first is_returns (words_left rest.old)) }
{
    let mut set = WordSet::empty();
    while let Some(word) = rest.next() {
        if text::is(word, "returns") {
            return Some(set);
        }
        match range(word) {
            Some(more) => set = set.union(&more),
            None => return None,
        }
    }
    None
}

/// The offsets, each one octal digit.
fn offsets(rest: Words<'_>) -> Option<Offsets>
    ensures { option_map offsets_of result ≡ all_of offset_of (words_left rest.entry) }
{
    let mut words = rest;
    let mut offsets = Offsets {
        declared: [false; 8],
    };
    while let Some(word) = words.next() {
        match offset(word) {
            Some(at) => offsets.insert(at),
            None => return None,
        }
    }
    Some(offsets)
}

/// The offset of one octal digit.
fn offset(word: &[u8]) -> Option<Word>
    ensures value { option_map one result ≡ offset_of word.now }
    ensures small { IfSome result (λ at. at < 8) }
{
    if word.len() == 1 {
        text::octal_word(word)
    } else {
        None
    }
}

impl Offsets {
    /// Puts an offset in.
    fn insert(&mut self, offset: Word)
        requires { offset < 8 }
        ensures { offsets_of self.new ≡ (λ o. offsets_of self.old o || offset == o) }
    {
        self.declared[offset.index()] = true;
    }
}

/// The cells of words, one or more.
fn some_cells(form: Form, rest: Words<'_>) -> Option<WordSet>
    ensures { option_map words result ≡ some_of (cells_read form) (words_left rest.entry) }
{
    let mut ahead = rest;
    match ahead.next() {
        Some(_) => all_cells(form, rest),
        None => None,
    }
}

/// The cells of words, of which there may be none.
fn all_cells(form: Form, rest: Words<'_>) -> Option<WordSet>
    ensures { option_map words result ≡ all_of (cells_read form) (words_left rest.entry) }
{
    let mut words = rest;
    let mut set = WordSet::empty();
    while let Some(word) = words.next() {
        match form.cells(word) {
            Some(more) => set = set.union(&more),
            None => return None,
        }
    }
    Some(set)
}

impl Form {
    /// The cells of a word of this form.
    fn cells(self, word: &[u8]) -> Option<WordSet>
        ensures { option_map words result ≡ cells_read self word.now }
    {
        match self {
            Form::Range => range(word),
            Form::Address => address(word),
        }
    }
}

/// The cell of an address.
fn address(word: &[u8]) -> Option<WordSet>
    ensures { option_map words result ≡ address_of word.now }
{
    text::octal_word(word).map(WordSet::one)
}

/// The cells of an address, or from one address to another, which is not below it.
fn range(word: &[u8]) -> Option<WordSet>
    ensures { option_map words result ≡ range_of word.now }
{
    match place_of_dash(word) {
        None => address(word),
        Some(at) => span(&word[..at], &word[at + 1..]),
    }
}

/// The first place of a dash.
fn place_of_dash(word: &[u8]) -> Option<usize>
    ensures { result ≡ position is_dash word.now }
{
    word.iter().position(|byte| *byte == b'-')
}

/// The cells from one address to another.
fn span(low: &[u8], high: &[u8]) -> Option<WordSet>
    ensures { option_map words result ≡ span (octal_word low.now) (octal_word high.now) }
{
    let Some(low) = text::octal_word(low) else {
        return None;
    };
    let Some(high) = text::octal_word(high) else {
        return None;
    };
    if low.value() <= high.value() {
        Some(WordSet::range(low, high))
    } else {
        None
    }
}

/// Further offsets: an entry and ranges of offsets.
fn skips_line(rest: Words<'_>) -> Option<DeclarationLine>
    ensures { option_map said result ≡ skips_line (words_left rest.entry) }
{
    let mut words = rest;
    let Some(word) = words.next() else {
        return None;
    };
    let Some(entry) = text::octal_word(word) else {
        return None;
    };
    let Some(set) = some_cells(Form::Range, words) else {
        return None;
    };
    let Some(offsets) = if_offsets(&set) else {
        return None;
    };
    Some(DeclarationLine::Skips(FurtherOffsets { entry, offsets }))
}

/// All offsets, 0 to 77.
fn every_offset() -> WordSet
    ensures { words result ≡ every_offset }
{
    WordSet::range(Word::from_index(0), Word::from_index(0o77))
}

/// The set, if each of its words is an offset.
fn if_offsets(set: &WordSet) -> Option<WordSet>
    ensures { option_map words result ≡ if_offsets (Some (words set.now)) }
{
    if set.minus(&every_offset()).is_empty() {
        Some(*set)
    } else {
        None
    }
}

/// What is to hold at places: addresses and an assertion.
fn holds_line(rest: Words<'_>) -> Option<DeclarationLine>
    ensures { option_map said result ≡ holds_line (words_left rest.entry) }
{
    let Some(places) = places(rest) else {
        return None;
    };
    let Some(assertion) = assertion(rest) else {
        return None;
    };
    Some(DeclarationLine::Holds(PlaceAssertion { places, assertion }))
}

/// What is to hold at returns: an entry, offsets and an assertion.
fn returns_line(rest: Words<'_>) -> Option<DeclarationLine>
    ensures { option_map said result ≡ returns_line (words_left rest.entry) }
{
    let mut words = rest;
    let Some(word) = words.next() else {
        return None;
    };
    let Some(entry) = text::octal_word(word) else {
        return None;
    };
    let Some(offsets) = returned_by(words) else {
        return None;
    };
    let Some(assertion) = assertion(words) else {
        return None;
    };
    Some(DeclarationLine::Returns(ReturnAssertion {
        entry,
        offsets,
        assertion,
    }))
}

/// Whether a word names the subject of an assertion.
fn is_subject(word: &[u8]) -> bool
    ensures { result ≡ is_subject word.now }
{
    text::is(word, "ac") || text::is(word, "mq") || text::is(word, "link") || text::is(word, "cell")
}

/// The cells of addresses, one or more, up to the name of a subject.
fn places(rest: Words<'_>) -> Option<WordSet>
    ensures { option_map words result
        ≡ some_of address_of (before_first is_subject (words_left rest.entry)) }
{
    let mut ahead = rest;
    match ahead.next() {
        Some(first) if !is_subject(first) => cells_before(rest),
        _ => None,
    }
}

/// The offsets up to the name of a subject; all where there is none.
fn returned_by(rest: Words<'_>) -> Option<WordSet>
    ensures { option_map words result
        ≡ offsets_named (before_first is_subject (words_left rest.entry)) }
{
    let mut ahead = rest;
    match ahead.next() {
        Some(first) if !is_subject(first) => offsets_before(rest),
        _ => Some(every_offset()),
    }
}

/// The offsets up to the name of a subject, each of them one.
fn offsets_before(rest: Words<'_>) -> Option<WordSet>
    ensures { option_map words result ≡ if_offsets (cells_before (words_left rest.entry)) }
{
    let Some(set) = cells_before(rest) else {
        return None;
    };
    if_offsets(&set)
}

/// The cells of addresses, of which there may be none, up to the name of a subject.
fn cells_before(rest: Words<'_>) -> Option<WordSet>
    ensures { option_map words result ≡ cells_before (words_left rest.entry) }
{
    let mut words = rest;
    let mut set = WordSet::empty();
    while let Some(word) = words.next() {
        if is_subject(word) {
            return Some(set);
        }
        match address(word) {
            Some(more) => set = set.union(&more),
            None => return None,
        }
    }
    Some(set)
}

/// The assertion from the name of its subject on.
fn assertion(rest: Words<'_>) -> Option<Assertion>
    ensures { option_map assertion_of result ≡ assertion_in (words_left rest.entry) }
{
    let mut words = rest;
    match subject_name(&mut words) {
        Some(name) => named_assertion(name, words),
        None => None,
    }
}

/// The first word that names a subject, which is taken, with those before it.
fn subject_name<'x>(rest: &mut Words<'x>) -> Option<&'x [u8]>
    ensures name { option_map (λ name. name.now) result ≡ find is_subject (words_left rest.old) }
    ensures rest { words_left rest.new ≡ after_first is_subject (words_left rest.old) }
{
    while let Some(word) = rest.next() {
        if is_subject(word) {
            return Some(word);
        }
    }
    None
}

/// The assertion on the subject of a name.
fn named_assertion(name: &[u8], rest: Words<'_>) -> Option<Assertion>
    ensures { option_map assertion_of result
        ≡ named_assertion name.now (words_left rest.entry) }
{
    if text::is(name, "ac") {
        asserted(Subject::Accumulator, some_cells(Form::Range, rest))
    } else if text::is(name, "mq") {
        asserted(Subject::Mq, some_cells(Form::Range, rest))
    } else if text::is(name, "link") {
        asserted(Subject::Link, link(rest))
    } else if text::is(name, "cell") {
        cell_assertion(rest)
    } else {
        None
    }
}

/// The assertion on a subject, if its words read.
fn asserted(subject: Subject, set: Option<WordSet>) -> Option<Assertion>
    ensures { option_map assertion_of result ≡ asserted subject (option_map words set) }
{
    match set {
        Some(words) => Some(Assertion { subject, words }),
        None => None,
    }
}

/// The link of a line of one word, `0` or `1`.
fn link(rest: Words<'_>) -> Option<WordSet>
    ensures { option_map words result ≡ link_of (words_left rest.entry) }
{
    let mut words = rest;
    let Some(word) = words.next() else {
        return None;
    };
    match words.next() {
        None => bit(word),
        Some(_) => None,
    }
}

/// The set of the bit that a word spells.
fn bit(word: &[u8]) -> Option<WordSet>
    ensures { option_map words result ≡ link_of (word.now ∷ []) }
{
    if text::is(word, "0") {
        Some(WordSet::one(Word::from_index(0)))
    } else if text::is(word, "1") {
        Some(WordSet::one(Word::from_index(1)))
    } else {
        None
    }
}

/// The assertion on a cell: its address and ranges.
fn cell_assertion(rest: Words<'_>) -> Option<Assertion>
    ensures { option_map assertion_of result ≡ cell_assertion (words_left rest.entry) }
{
    let mut words = rest;
    let Some(word) = words.next() else {
        return None;
    };
    let Some(cell) = text::octal_word(word) else {
        return None;
    };
    asserted(Subject::Cell(cell), some_cells(Form::Range, words))
}
