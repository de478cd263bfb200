//! Lines of a declaration beside a statement of a source, which may leave out its address.

ghost use Rattle.std.specs.Prelude.{◌≡◌, ◌++◌, ◌∷◌, OnOk, Some, None};
ghost use Rattle.std.specs.List.{list_all, list_any};
ghost use Rattle.declaration.specs.Lines.{is_dash, is_subject};
ghost use Rattle.streams.specs.Text.{words_of};
ghost use Rattle.streams.specs.TextLeft.{words_left};
ghost use Rattle.word12.specs.Words.{octal_text};
ghost use Rattle.labels.specs.Addresses.{is_digit};
ghost use Rattle.labels.specs.Lines.{comment, said, spaced};
ghost use Rattle.labels.specs.Located.{address_on, are_offsets, is_of_range, is_offset, lacks_address, lacks_by, lacks_some, located, spaced_words, with_address};

use crate::address::is_digit;
use crate::placing::{comment_of, push_comment, said_of};
use pal_acts::{PlacedWord, SourcePlace};
use std::alloc::{AllocError, Allocator};
use streams::text::{self, Lines, Words};
use word12::Word;

/// Whether a byte is a dash.
fn is_dash(byte: u8) -> bool
    ensures { result ≡ is_dash byte }
{
    byte == b'-'
}

/// Whether a word is an offset, and no entry: one digit or two.
fn is_offset(word: &[u8]) -> bool
    ensures { result ≡ is_offset word.now }
{
    word.len() < 3 && word.iter().all(|byte| is_digit(*byte))
}

/// Whether a word has a dash.
fn has_dash(word: &[u8]) -> bool
    ensures { result ≡ list_any is_dash word.now }
{
    word.iter().any(|byte| is_dash(*byte))
}

/// Whether a byte is a digit or a dash.
fn is_of_range(byte: u8) -> bool
    ensures { result ≡ is_of_range byte }
{
    is_digit(byte) || is_dash(byte)
}

/// Whether a word is digits and dashes.
fn is_range(word: &[u8]) -> bool
    ensures { result ≡ list_all is_of_range word.now }
{
    word.iter().all(|byte| is_of_range(*byte))
}

/// Whether a word is one offset, or a range of them.
fn are_offsets(word: &[u8]) -> bool
    ensures { result ≡ are_offsets word.now }
{
    is_offset(word) || (has_dash(word) && is_range(word))
}

/// Whether a word names the subject of an assertion.
fn is_subject(word: &[u8]) -> bool
    ensures { result ≡ is_subject word.now }
{
    text::is(word, "ac") || text::is(word, "mq") || text::is(word, "link") || text::is(word, "cell")
}

/// Whether a line that is its name alone leaves out its address.
fn lacks_behind(name: &[u8]) -> bool
    ensures { result ≡ lacks_by name.now None }
{
    text::is(name, "moves") || text::is(name, "abandon")
}

/// Whether a word behind the name of a line stands where an address is to be.
fn lacks_before(name: &[u8], word: &[u8]) -> bool
    ensures { result ≡ lacks_by name.now (Some word.now) }
{
    if text::is(name, "holds") {
        is_subject(word)
    } else if text::is(name, "returns") {
        is_subject(word) || is_offset(word)
    } else {
        text::is(name, "skips") && are_offsets(word)
    }
}

/// Whether a line, without its comment, leaves out its address.
fn lacks_address(line: &[u8]) -> bool
    ensures { result ≡ lacks_address (words_of line.now) }
{
    let mut words = Words::of(line);
    let Some(name) = words.next() else {
        return false;
    };
    match words.next() {
        Some(word) => lacks_before(name, word),
        None => lacks_behind(name),
    }
}

/// Whether a line of a text leaves out its address.
pub(crate) fn lacks_some(text: &[u8]) -> bool
    ensures { result ≡ lacks_some text.now }
{
    let mut lines = Lines::of(text);
    while let Some(line) = lines.next() {
        if lacks_address(line) {
            return true;
        }
    }
    false
}

/// Adds words, each after a space.
fn push_words<A: Allocator>(words: Words<'_>, text: &mut Vec<u8, A>) -> Result<(), AllocError>
    ensures { OnOk result (text.new.items ≡
        text.old.items ++ spaced_words (words_left words.entry)) }
{
    let mut rest = words;
    while let Some(word) = rest.next() {
        text.push(b' ')?;
        text.extend_from_slice(word)?;
    }
    Ok(())
}

/// Adds the name of a line, an address, words and a comment, each after a space but the first.
fn push_addressed<A: Allocator>(
    name: &[u8],
    at: Word,
    words: Words<'_>,
    comment: &[u8],
    text: &mut Vec<u8, A>,
) -> Result<(), AllocError>
    ensures { OnOk result (text.new.items ≡ text.old.items ++
        (name.now ++ 32 ∷ octal_text at ++ spaced_words (words_left words.entry) ++
        spaced comment.now)) }
{
    text.extend_from_slice(name)?;
    text.push(b' ')?;
    text.extend_from_slice(&at.to_octal())?;
    push_words(words, text)?;
    push_comment(comment, text)
}

/// Adds a line with an address behind its name.
fn push_with_address<A: Allocator>(
    at: Word,
    line: &[u8],
    text: &mut Vec<u8, A>,
) -> Result<(), AllocError>
    ensures { OnOk result (text.new.items ≡ text.old.items ++
        with_address at (words_of (said line.now)) (comment line.now)) }
{
    let mut words = Words::of(said_of(line));
    match words.next() {
        Some(name) => push_addressed(name, at, words, comment_of(line), text),
        None => push_comment(comment_of(line), text),
    }
}

/// Adds a line beside a statement with this address, if there is a statement: with the address, where the line leaves it
/// out.
pub(crate) fn push_located<A: Allocator>(
    at: Option<Word>,
    line: &[u8],
    text: &mut Vec<u8, A>,
) -> Result<(), AllocError>
    ensures { OnOk result (text.new.items ≡ text.old.items ++ located at line.now) }
{
    let Some(at) = at else {
        return text.extend_from_slice(line);
    };
    if lacks_address(said_of(line)) {
        push_with_address(at, line, text)
    } else {
        text.extend_from_slice(line)
    }
}

/// The address of the first of these words that stands at a place, if there is one.
pub(crate) fn address_on(words: &[PlacedWord], place: SourcePlace) -> Option<Word>
    ensures { result ≡ address_on words.now place }
{
    words
        .iter()
        .find(|word| word.place.part == place.part && word.place.line == place.line)
        .map(|word| word.at)
}
