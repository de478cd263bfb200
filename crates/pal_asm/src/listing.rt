//! The listing of a source.

ghost use Rattle.std.specs.Prelude.{◌≡◌, ◌<◌, ◌++◌, [], codes, length, OnOk, IfOk};
ghost use Rattle.std.specs.List.{AllByRecursion};
ghost use Rattle.pal_text.specs.Characters.{characters};
ghost use Rattle.pal_text.specs.Order.{IsLineWithin};
ghost use Rattle.pal_asm.specs.Listings.{is_no_text, is_at, without_front, word_text, words_text, line_text, symbol_text, symbols_text};
ghost use Rattle.pal_asm.specs.Programs.{symbols_in, words_in};
ghost use Rattle.pal_asm.specs.Sources.{text_lines};
ghost use Rattle.pal_asm.specs.SourceInCode.{lines_in, lines_of_fronts, is_before, skip, next_at, after_those, turns_text};

use crate::part_text::PartText;
use pal_acts::{Name, PlacedWord, SourcePlace, SymbolTable, Translation};
use pal_text::characters::is_character_code;
use pal_text::{Line, lines_of};
use std::alloc::{AllocError, Allocator};
use word12::Word;

/// A line of a source: where it stands, and its bytes without those that end it.
#[derive(Clone, Copy)]
pub(crate) struct ListedLine<'s> {
    pub(crate) place: SourcePlace,
    pub(crate) bytes: &'s [u8],
}

/// A line of a program: its place in the source, and where it begins in the listing.
#[derive(Clone, Copy)]
pub struct ProgramLine {
    /// The part and the line in it, each from 1.
    pub place: SourcePlace,
    start: usize,
}

/// How many characters stand in front of the text of a line: an address and a word, each with two spaces after it.
const TEXT_COLUMN: usize = 12;

impl ProgramLine {
    /// The text of a line of this listing, without blanks at its ends.
    pub(crate) fn text_in<'l>(&self, listing: &'l [u8]) -> &'l [u8] {
        let rest = listing.get(self.start..).unwrap_or(b"");
        let line = rest.split(|byte| *byte == b'\n').next().unwrap_or(b"");
        line.get(TEXT_COLUMN..).unwrap_or(b"").trim_ascii()
    }
}

/// Keeps the lines of a part.
fn keep_lines<'s, A: Allocator + Copy>(
    front: &PartText<'s>,
    lines: &[Line],
    kept: &mut Vec<ListedLine<'s>, A>,
) -> Result<(), AllocError>
    requires { AllByRecursion (IsLineWithin (length front.now.bytes.now)) lines.now }
    ensures { OnOk result (lines_in kept.new.items ≡ lines_in kept.old.items ++
        text_lines front.now.number 1 front.now.bytes.now lines.now) }
{
    for (at, line) in lines.iter().enumerate() {
        kept.push(ListedLine {
            place: SourcePlace {
                part: front.number,
                line: at + 1,
            },
            bytes: &front.bytes[line.start..line.end],
        })?;
    }
    Ok(())
}

/// Keeps the lines of parts.
fn keep_fronts<'s, A: Allocator + Copy>(
    alloc: A,
    fronts: &[PartText<'s>],
    kept: &mut Vec<ListedLine<'s>, A>,
) -> Result<(), AllocError>
    requires { kept.old.items ≡ [] }
    ensures { OnOk result (lines_in kept.new.items ≡ lines_of_fronts fronts.now) }
{
    for front in fronts {
        let lines = lines_of(alloc, front.bytes)?;
        keep_lines(front, &lines, kept)?;
    }
    Ok(())
}

/// The lines of parts.
fn listed_lines<'s, A: Allocator + Copy>(
    alloc: A,
    fronts: &[PartText<'s>],
) -> Result<Vec<ListedLine<'s>, A>, AllocError>
    ensures { IfOk result (λ lines. lines_in lines.items ≡ lines_of_fronts fronts.now) }
{
    let mut kept = Vec::new(alloc);
    keep_fronts(alloc, fronts, &mut kept)?;
    Ok(kept)
}

/// Adds an address and its word.
fn push_word<A: Allocator>(text: &mut Vec<u8, A>, word: PlacedWord) -> Result<(), AllocError>
    ensures { OnOk result (text.new.items ≡ text.old.items ++ word_text word) }
{
    text.extend_from_slice(&word.at.to_octal())?;
    text.extend_from_slice(b"  ")?;
    text.extend_from_slice(&word.word.to_octal())
}

fn stands_at(place: SourcePlace, word: PlacedWord) -> bool
    ensures { result ≡ is_at place word }
{
    word.place == place
}

fn stands_before(place: SourcePlace, word: PlacedWord) -> bool
    ensures { result ≡ is_before place word }
{
    word.place.part < place.part || (word.place.part == place.part && word.place.line < place.line)
}

/// The words from the first one on that is not before this place.
fn from_place(place: SourcePlace, words: &[PlacedWord]) -> &[PlacedWord]
    ensures { result.now ≡ skip place words.now }
{
    let mut rest = words;
    while let [word, more @ ..] = rest {
        if !stands_before(place, *word) {
            break;
        }
        rest = more;
    }
    rest
}

/// Adds the words that come next and stand at this place, and tells those after them.
fn push_words<'w, A: Allocator>(
    text: &mut Vec<u8, A>,
    place: SourcePlace,
    words: &'w [PlacedWord],
) -> Result<&'w [PlacedWord], AllocError>
    ensures rest { IfOk result (λ rest. rest.now ≡ after_those place words.now) }
    ensures text { OnOk result (text.new.items ≡ text.old.items ++
        words_text (next_at place words.now)) }
{
    let mut rest = words;
    while let [word, more @ ..] = rest {
        if !stands_at(place, *word) {
            break;
        }
        push_word(text, *word)?;
        text.extend_from_slice(b"\n")?;
        rest = more;
    }
    Ok(rest)
}

/// Whether a byte at the front of a line is not listed.
fn is_dropped(byte: u8) -> bool
    ensures { result ≡ is_no_text byte }
{
    let code = byte % 0o200;
    !is_character_code(code) || code == b' ' || code == b'\t'
}

/// The bytes of a line from the first one on that is listed.
fn from_text(bytes: &[u8]) -> &[u8]
    ensures text { characters result.now ≡ without_front (characters bytes.now) }
    ensures begins { 0 < length result.now → 0 < length (characters result.now) }
{
    let mut rest = bytes;
    while let [first, more @ ..] = rest {
        if !is_dropped(*first) {
            break;
        }
        rest = more;
    }
    rest
}

/// Adds the characters of some bytes: without channel 8, and without bytes that are ignored.
///
/// # Errors
///
/// Memory was refused.
pub fn push_characters<A: Allocator>(text: &mut Vec<u8, A>, bytes: &[u8]) -> Result<(), AllocError>
    ensures { OnOk result (text.new.items ≡ text.old.items ++ characters bytes.now) }
{
    for byte in bytes {
        let code = *byte % 0o200;
        if is_character_code(code) {
            text.push(code)?;
        }
    }
    Ok(())
}

/// Adds a line without a word: nothing if it has no text.
fn push_text<A: Allocator>(text: &mut Vec<u8, A>, shown: &[u8]) -> Result<(), AllocError>
    requires { 0 < length shown.now → 0 < length (characters shown.now) }
    ensures { OnOk result (text.new.items ≡ text.old.items ++ line_text [] (characters shown.now)) }
{
    if shown.is_empty() {
        return text.extend_from_slice(b"\n");
    }
    text.extend_from_slice(b"            ")?;
    push_characters(text, shown)?;
    text.extend_from_slice(b"\n")
}

/// Adds a line with its first word and its text.
fn push_first<A: Allocator>(
    text: &mut Vec<u8, A>,
    word: PlacedWord,
    shown: &[u8],
) -> Result<(), AllocError>
    ensures { OnOk result (text.new.items ≡ text.old.items ++ word_text word ++ codes "  " ++
        characters shown.now ++ codes "\n") }
{
    push_word(text, word)?;
    text.extend_from_slice(b"  ")?;
    push_characters(text, shown)?;
    text.extend_from_slice(b"\n")
}

/// Adds a line with its words, and tells the words after those.
fn push_line<'w, A: Allocator>(
    text: &mut Vec<u8, A>,
    line: ListedLine<'_>,
    words: &'w [PlacedWord],
) -> Result<&'w [PlacedWord], AllocError>
    ensures rest { IfOk result (λ rest. rest.now ≡ after_those line.entry.place words.now) }
    ensures text { OnOk result (text.new.items ≡ text.old.items ++
        line_text (next_at line.entry.place words.now)
        (without_front (characters line.entry.bytes.now))) }
{
    let shown = from_text(line.bytes);
    match words {
        [word, more @ ..] if stands_at(line.place, *word) => {
            push_first(text, *word, shown)?;
            push_words(text, line.place, more)
        }
        _ => {
            push_text(text, shown)?;
            Ok(words)
        }
    }
}

/// Adds lines, each with the words that stand on it, and keeps where they begin. The words are in order.
fn push_lines<A: Allocator>(
    text: &mut Vec<u8, A>,
    starts: &mut Vec<ProgramLine, A>,
    lines: &[ListedLine<'_>],
    words: &[PlacedWord],
) -> Result<(), AllocError>
    ensures { OnOk result (text.new.items ≡ text.old.items ++
        turns_text (lines_in lines.now) words.now) }
{
    let mut rest = words;
    for line in lines {
        starts.push(ProgramLine {
            place: line.place,
            start: text.len(),
        })?;
        rest = push_line(text, *line, from_place(line.place, rest))?;
    }
    Ok(())
}

/// Adds a symbol with its value.
fn push_symbol<A: Allocator>(
    text: &mut Vec<u8, A>,
    name: Name,
    value: Word,
) -> Result<(), AllocError>
    ensures { OnOk result (text.new.items ≡ text.old.items ++ symbol_text name value) }
{
    text.extend_from_slice(&name.letters)?;
    text.extend_from_slice(b"  ")?;
    text.extend_from_slice(&value.to_octal())?;
    text.extend_from_slice(b"\n")
}

/// Adds symbols with their values.
fn push_symbols<A: Allocator + Copy>(
    text: &mut Vec<u8, A>,
    own: &SymbolTable<A>,
) -> Result<(), AllocError>
    ensures { OnOk result (text.new.items ≡ text.old.items ++ symbols_text own.now.entries) }
{
    for at in 0..own.len() {
        if let Some((name, value)) = own.get_index(at) {
            push_symbol(text, *name, *value)?;
        }
    }
    Ok(())
}

/// The listing of these parts, which mean this, and where its lines begin.
pub(crate) fn make_listing<A: Allocator + Copy>(
    alloc: A,
    fronts: &[PartText<'_>],
    translation: &Translation<A>,
    starts: &mut Vec<ProgramLine, A>,
) -> Result<Vec<u8, A>, AllocError>
    ensures { IfOk result (λ text. text.items ≡
        turns_text (lines_of_fronts fronts.now) (words_in translation.now) ++ codes "\n" ++
        symbols_text (symbols_in translation.now)) }
{
    let lines = listed_lines(alloc, fronts)?;
    let mut text = Vec::new(alloc);
    push_lines(&mut text, starts, &lines, &translation.words)?;
    text.extend_from_slice(b"\n")?;
    push_symbols(&mut text, &translation.own)?;
    Ok(text)
}
