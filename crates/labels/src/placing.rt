//! A declaration with symbols, in numbers.

ghost use Rattle.std.specs.Prelude.{◌≡◌, ◌++◌, ◌≤◌, ◌<◌, ◌+◌, ◌∷◌, length, Ok, Err, OnOk, IfOk, IfErr};
ghost use Rattle.std.specs.List.{list_any, position, position_or_len, slice_split};
ghost use Rattle.std.specs.Str.Lines.{strip_carriage_return};
ghost use Rattle.streams.specs.Text.{is_slash};
ghost use Rattle.streams.specs.TextLeft.{words_left};
ghost use Rattle.labels.specs.Addresses.{is_capital};
ghost use Rattle.labels.specs.Lines.{IsPlaceFault, comment, is_feed, length_behind, lines_behind, placed_all, placed_body, placed_by, placed_line, placed_lines, placed_text, placed_word, placed_words, prefixed, return_of, said, spaced};

use crate::address::{cells_of, is_capital};
use crate::fault::PlaceFault;
use pal_acts::SymbolTable;
use std::alloc::{AllocError, Allocator};
use streams::text::Words;

/// The most bytes of a declaration.
const MOST_BYTES: usize = 16_384;

/// Whether a text has a capital letter.
fn has_capital(text: &[u8]) -> bool
    ensures { result ≡ list_any is_capital text.now }
{
    text.iter().any(|byte| is_capital(*byte))
}

/// Adds a word of the line of this number, in numbers.
fn place_word<A: Allocator, S: Allocator + Copy>(
    own: &SymbolTable<S>,
    number: usize,
    word: &[u8],
    out: &mut Vec<u8, A>,
) -> Result<(), PlaceFault>
    ensures placed { OnOk result (prefixed out.old.items
        (placed_word own.now.entries number word.now) ≡ Ok out.new.items) }
    ensures refused { IfErr result
        (IsPlaceFault (placed_word own.now.entries number word.now)) }
{
    if !has_capital(word) {
        out.extend_from_slice(word)?;
        return Ok(());
    }
    match cells_of(own, word) {
        Ok(cells) => {
            cells.push_to(out)?;
            Ok(())
        }
        Err(flaw) => Err(flaw.on_line(number)),
    }
}

/// Adds words of the line of this number, each after a space.
fn place_words<A: Allocator, S: Allocator + Copy>(
    own: &SymbolTable<S>,
    number: usize,
    words: Words<'_>,
    out: &mut Vec<u8, A>,
) -> Result<(), PlaceFault>
    ensures placed { OnOk result (prefixed out.old.items
        (placed_words own.now.entries number (words_left words.entry)) ≡ Ok out.new.items) }
    ensures refused { IfErr result
        (IsPlaceFault (placed_words own.now.entries number (words_left words.entry))) }
{
    let mut rest = words;
    while let Some(word) = rest.next() {
        out.extend_from_slice(b" ")?;
        place_word(own, number, word, out)?;
    }
    Ok(())
}

/// Adds a comment after a space, if there is one.
pub(crate) fn push_comment<A: Allocator>(
    comment: &[u8],
    out: &mut Vec<u8, A>,
) -> Result<(), AllocError>
    ensures { OnOk result (out.new.items ≡ out.old.items ++ spaced comment.now) }
{
    if comment.is_empty() {
        return Ok(());
    }
    out.push(b' ')?;
    out.extend_from_slice(comment)
}

/// Adds a line with these words and this comment.
fn place_by<A: Allocator, S: Allocator + Copy>(
    own: &SymbolTable<S>,
    number: usize,
    words: Words<'_>,
    comment: &[u8],
    out: &mut Vec<u8, A>,
) -> Result<(), PlaceFault>
    ensures placed { OnOk result (prefixed out.old.items
        (placed_by own.now.entries number (words_left words.entry) comment.now) ≡
        Ok out.new.items) }
    ensures refused { IfErr result
        (IsPlaceFault (placed_by own.now.entries number (words_left words.entry) comment.now)) }
{
    let mut rest = words;
    if let Some(name) = rest.next() {
        out.extend_from_slice(name)?;
        place_words(own, number, rest, out)?;
    }
    push_comment(comment, out)?;
    Ok(())
}

/// The first place of a slash.
fn place_of_slash(line: &[u8]) -> Option<usize>
    ensures { result ≡ position is_slash line.now }
{
    line.iter().position(|byte| *byte == b'/')
}

/// How many bytes a line has before its comment.
#[tactic(auto, using(crate::proofs::Places::places))]
fn said_len(line: &[u8]) -> usize
    ensures { result ≡ position_or_len is_slash line.now }
{
    place_of_slash(line).unwrap_or(line.len())
}

/// What a line says, before its comment.
#[tactic(auto, using(crate::proofs::Places::position_or_len_le))]
pub(crate) fn said_of(line: &[u8]) -> &[u8]
    ensures { result.now ≡ said line.now }
{
    &line[..said_len(line)]
}

/// The comment of a line.
#[tactic(auto, using(crate::proofs::Places::position_or_len_le))]
pub(crate) fn comment_of(line: &[u8]) -> &[u8]
    ensures { result.now ≡ comment line.now }
{
    &line[said_len(line)..]
}

/// A line without the carriage return at its end, if it has one.
pub(crate) fn without_return(line: &[u8]) -> &[u8]
    ensures { result.now ≡ strip_carriage_return line.now }
{
    match line.split_last() {
        Some((b'\r', front)) => front,
        _ => line,
    }
}

/// The carriage return at the end of a line, if it has one.
pub(crate) fn return_of(line: &[u8]) -> &[u8]
    ensures { result.now ≡ return_of line.now }
{
    match line.split_last() {
        Some((b'\r', _)) => b"\r",
        _ => b"",
    }
}

/// Adds the line of this number, in numbers, by what comes before its end and by its end.
fn place_body<A: Allocator, S: Allocator + Copy>(
    own: &SymbolTable<S>,
    number: usize,
    body: &[u8],
    after: &[u8],
    out: &mut Vec<u8, A>,
) -> Result<(), PlaceFault>
    ensures placed { OnOk result (prefixed out.old.items
        (placed_body own.now.entries number body.now after.now) ≡ Ok out.new.items) }
    ensures refused { IfErr result
        (IsPlaceFault (placed_body own.now.entries number body.now after.now)) }
{
    place_by(own, number, Words::of(said_of(body)), comment_of(body), out)?;
    out.extend_from_slice(after)?;
    Ok(())
}

/// Adds the line of this number, in numbers.
fn place_line<A: Allocator, S: Allocator + Copy>(
    own: &SymbolTable<S>,
    number: usize,
    line: &[u8],
    out: &mut Vec<u8, A>,
) -> Result<(), PlaceFault>
    ensures placed { OnOk result (prefixed out.old.items
        (placed_line own.now.entries number line.now) ≡ Ok out.new.items) }
    ensures refused { IfErr result
        (IsPlaceFault (placed_line own.now.entries number line.now)) }
{
    if !has_capital(said_of(line)) {
        out.extend_from_slice(line)?;
        return Ok(());
    }
    place_body(own, number, without_return(line), return_of(line), out)
}

/// The first place of a line feed.
fn place_of_feed(text: &[u8]) -> Option<usize>
    ensures { result ≡ position is_feed text.now }
{
    text.iter().position(|byte| *byte == b'\n')
}

/// A line, and what stands behind its line feed, if it has one.
#[derive(Clone, Copy)]
struct FirstLine<'a> {
    line: &'a [u8],
    rest: Option<&'a [u8]>,
}

/// The first line of a text, and the text after it.
fn split_first_line(text: &[u8]) -> FirstLine<'_>
    ensures lines { slice_split is_feed text.now ≡
        result.line.now ∷ lines_behind result.rest }
    ensures shorter { length_behind result.rest ≤ length text.now }
{
    match place_of_feed(text) {
        Some(end) => FirstLine {
            line: &text[..end],
            rest: Some(&text[end + 1..]),
        },
        None => FirstLine {
            line: text,
            rest: None,
        },
    }
}

/// Adds the lines behind the one of this number, each after a line feed.
fn place_lines<A: Allocator, S: Allocator + Copy>(
    own: &SymbolTable<S>,
    before: usize,
    behind: Option<&[u8]>,
    out: &mut Vec<u8, A>,
) -> Result<(), PlaceFault>
    requires { before + length_behind behind ≤ 65536 }
    ensures placed { OnOk result (prefixed out.old.items
        (placed_lines own.now.entries (before + 1) (lines_behind behind.entry)) ≡ Ok out.new.items) }
    ensures refused { IfErr result
        (IsPlaceFault (placed_lines own.now.entries (before + 1) (lines_behind behind.entry))) }
{
    let mut rest = behind;
    let mut number = before;
    while let Some(text) = rest {
        let cut = split_first_line(text);
        number += 1;
        out.extend_from_slice(b"\n")?;
        place_line(own, number, cut.line, out)?;
        rest = cut.rest;
    }
    Ok(())
}

/// Writes a declaration that is not too long in numbers.
fn place_all<A: Allocator, S: Allocator + Copy>(
    alloc: A,
    text: &[u8],
    own: &SymbolTable<S>,
) -> Result<Vec<u8, A>, PlaceFault>
    requires { length text.now ≤ 16384 }
    ensures placed { IfOk result (λ out.
        placed_all own.now.entries (slice_split is_feed text.now) ≡ Ok out.items) }
    ensures refused { IfErr result
        (IsPlaceFault (placed_all own.now.entries (slice_split is_feed text.now))) }
{
    let mut out = Vec::new(alloc);
    let cut = split_first_line(text);
    place_line(own, 1, cut.line, &mut out)?;
    place_lines(own, 1, cut.rest, &mut out)?;
    Ok(out)
}

/// Writes a declaration with symbols in numbers: each word with a capital letter behind the first word
/// of its line is an address or a range, by the symbols of a source, and is written in octal digits. An
/// address is one to four octal digits, or a symbol, which `+` or `-` and a number may follow. Lines stay
/// lines, and one without a symbol stays as it is.
///
/// # Errors
///
/// `TooMany` first for a text of more than 16,384 bytes. Then that of the first line that has one: of its
/// first word that is neither an address nor a range `BadLine`, that has a symbol without a value
/// `NoSymbol`, whose address is outside memory `PastMemory`, and whose range runs backwards `Backwards`.
/// `NoMemory` where memory was refused.
pub fn place<A: Allocator, S: Allocator + Copy>(
    alloc: A,
    text: &[u8],
    own: &SymbolTable<S>,
) -> Result<Vec<u8, A>, PlaceFault>
    ensures placed { IfOk result (λ out. placed_text own.now.entries text.now ≡ Ok out.items) }
    ensures refused { IfErr result (IsPlaceFault (placed_text own.now.entries text.now)) }
    // A text that is too long is told before memory is requested.
    ensures sized { 16384 < length text.now → result ≡ Err PlaceFault.TooMany }
{
    if text.len() > MOST_BYTES {
        return Err(PlaceFault::TooMany);
    }
    place_all(alloc, text, own)
}
