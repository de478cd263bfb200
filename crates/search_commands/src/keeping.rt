//! Whether a text keeps the lines of another text that something is added to.

ghost use Rattle.std.specs.Prelude.{◌≡◌, ◌<◌, ◌+◌, ℕ, List, ◌∷◌, ◌++◌, IfSome, Some, true, length};
ghost use Rattle.std.specs.List.{list_all, position};
ghost use Rattle.std.specs.Str.{bytes_eq};
ghost use Rattle.std.specs.Str.Lines.{strip_carriage_return};
ghost use Rattle.search_commands.specs.Keeping.{AreAdded, Grows, HasLine, IsAdded, IsCommentOrEnd, IsMark, IsRoutineLine, KeepsLine, KeepsLines, ends_word, first_line, is_end, is_feed, is_spaced, is_spelling, mark, other_lines};

use streams::text::{Words, is};

/// The comment that marks what is added.
const MARK: &[u8] = b" / added";

/// The word in this comment that comes before offsets.
const RETURNS: &[u8] = b"returns";

/// A prefix of a text, and what follows it.
#[derive(Clone, Copy)]
struct Parted<'a> {
    front: &'a [u8],
    rest: &'a [u8],
}

/// The first line of a text and what follows it, if the line ends with a line feed.
fn front_line<'a>(text: &'a [u8]) -> Option<Parted<'a>>
    ensures has { IfSome result (λ it. HasLine text.now) }
    ensures line { IfSome result (λ it. it.front.now ≡ first_line text.now) }
    ensures rest { IfSome result (λ it. it.rest.now ≡ other_lines text.now) }
    ensures shorter { IfSome result (λ it. length it.rest.now < length text.now) }
{
    let end = feed_in(text)?;
    Some(Parted {
        front: &text[..end],
        rest: &text[end + 1..],
    })
}

/// The index of the first line feed of a text.
fn feed_in(text: &[u8]) -> Option<usize>
    ensures { result ≡ position is_feed text.now }
{
    text.iter().position(|byte| *byte == b'\n')
}

/// A line without the carriage return at its end, if it has one.
fn without_return(line: &[u8]) -> &[u8]
    ensures { result.now ≡ strip_carriage_return line.now }
{
    match line.split_last() {
        Some((b'\r', front)) => front,
        _ => line,
    }
}

/// Whether ranges and offsets are spelled with this byte.
fn is_spelling(byte: u8) -> bool
    ensures { result ≡ is_spelling byte }
{
    byte.is_ascii_digit() || byte == b'-'
}

/// Whether a word is spelled like a range or an offset.
fn are_spelling(word: &[u8]) -> bool
    ensures { result ≡ list_all is_spelling word.now }
{
    word.iter().all(|byte| is_spelling(*byte))
}

/// Whether a row of ranges and offsets is spelled with this byte.
fn is_spaced(byte: u8) -> bool
    ensures { result ≡ is_spaced byte }
{
    is_spelling(byte) || byte == b' '
}

/// Whether a text is a row of ranges and offsets.
fn are_spaced(text: &[u8]) -> bool
    ensures { result ≡ list_all is_spaced text.now }
{
    text.iter().all(|byte| is_spaced(*byte))
}

/// Whether a byte ends a word.
fn is_end(byte: u8) -> bool
    ensures { result ≡ is_end byte }
{
    byte == b' ' || byte == b'\t' || byte == b'/'
}

/// Whether a word that comes before this text has ended.
fn ends_word(text: &[u8]) -> bool
    ensures { result ≡ ends_word text.now }
{
    match text {
        [first, ..] => is_end(*first),
        [] => true,
    }
}

/// A text, parted at this index if it has one.
fn parted_at(text: &[u8], end: Option<usize>) -> Parted<'_>
    ensures { text.now ≡ result.front.now ++ result.rest.now }
{
    match end {
        Some(end) if end < text.len() => Parted {
            front: &text[..end],
            rest: &text[end..],
        },
        _ => Parted {
            front: text,
            rest: &[],
        },
    }
}

/// The first word of a text, and what follows it.
fn first_word(text: &[u8]) -> Parted<'_>
    ensures { text.now ≡ result.front.now ++ result.rest.now }
{
    parted_at(text, text.iter().position(|byte| is_end(*byte)))
}

/// The ranges and offsets at the beginning of a text, and what follows them.
fn first_ranges(text: &[u8]) -> Parted<'_>
    ensures { text.now ≡ result.front.now ++ result.rest.now }
{
    parted_at(text, text.iter().position(|byte| !is_spaced(*byte)))
}

/// Whether a text that comes after the beginning of the marking comment names ranges, and perhaps offsets after the
/// word `returns`.
fn are_named(text: &[u8]) -> bool
    ensures { result ≡ true → IsMark (mark ++ text.now) }
{
    let named = first_ranges(text);
    if !are_spaced(named.front) {
        return false;
    }
    match named.rest.strip_prefix(RETURNS) {
        Some(offsets) => are_spaced(offsets),
        None => named.rest.is_empty(),
    }
}

/// Whether a text is the comment that marks what is added and names it.
fn is_mark(text: &[u8]) -> bool
    ensures { result ≡ true → IsMark text.now }
{
    match text.strip_prefix(MARK) {
        Some(named) => are_named(named),
        None => false,
    }
}

/// Whether two texts are the same.
fn is_same(left: &[u8], right: &[u8]) -> bool
    ensures { result ≡ bytes_eq left.now right.now }
{
    left == right
}

/// Whether nothing is left of a line except perhaps its comment.
fn is_comment_or_end(left: &[u8]) -> bool
    ensures { result ≡ true → IsCommentOrEnd left.now }
{
    match left.split_first() {
        Some((first, _)) => *first == b'/',
        None => true,
    }
}

/// Whether a line ends here: nothing is left of it but its comment, which is unchanged, followed by the comment that
/// marks what is added.
fn ends_here(left: &[u8], rest: &[u8]) -> bool
    ensures { result ≡ true → Grows left.now rest.now }
{
    if !is_comment_or_end(left) {
        return false;
    }
    match rest.strip_prefix(left) {
        Some(tail) => is_mark(tail),
        None => false,
    }
}

/// What is left of a line, and of the line that it has grown to.
#[derive(Clone, Copy)]
struct Growth<'a> {
    old: &'a [u8],
    new: &'a [u8],
}

/// Whether the next word of a line, after a space, is this one.
fn has_next(line: &[u8], word: &[u8]) -> bool {
    match line {
        [b' ', others @ ..] => first_word(others).front == word,
        _ => false,
    }
}

/// What is left after a range or an offset that was inserted after a space, if the word is not simply the next word of
/// the line.
fn behind_put<'a>(old: &'a [u8], new: &'a [u8]) -> Option<Growth<'a>>
    ensures grows { IfSome result (λ left.
        Grows left.old.now left.new.now → Grows old.now new.now) }
    ensures shorter { IfSome result (λ left. length left.new.now < length new.now) }
{
    let Some(others) = new.strip_prefix(b" ") else {
        return None;
    };
    let word = first_word(others);
    if !are_spelling(word.front) {
        return None;
    }
    if !ends_word(old) {
        return None;
    }
    if has_next(old, word.front) {
        return None;
    }
    Some(Growth {
        old,
        new: word.rest,
    })
}

/// What is left after a byte that is in both lines.
fn behind_same<'a>(old: &'a [u8], new: &'a [u8]) -> Option<Growth<'a>>
    ensures grows { IfSome result (λ left.
        Grows left.old.now left.new.now → Grows old.now new.now) }
    ensures shorter { IfSome result (λ left. length left.new.now < length new.now) }
{
    let Some((first, others)) = old.split_first() else {
        return None;
    };
    let Some((byte, more)) = new.split_first() else {
        return None;
    };
    if *byte == b'/' {
        return None;
    }
    if *first == *byte {
        return Some(Growth {
            old: others,
            new: more,
        });
    }
    None
}

/// What is left after the next piece of a line that has grown.
fn behind_piece<'a>(old: &'a [u8], new: &'a [u8]) -> Option<Growth<'a>>
    ensures grows { IfSome result (λ left.
        Grows left.old.now left.new.now → Grows old.now new.now) }
    ensures shorter { IfSome result (λ left. length left.new.now < length new.now) }
{
    match behind_put(old, new) {
        Some(left) => Some(left),
        None => behind_same(old, new),
    }
}

/// Whether the second line is the first one with ranges and offsets inserted and a mark after them.
fn grows(old: &[u8], new: &[u8]) -> bool
    ensures { result ≡ true → Grows old.now new.now }
{
    let mut left = old;
    let mut rest = new;
    while let Some(behind) = behind_piece(left, rest) {
        if ends_here(left, rest) {
            return true;
        }
        left = behind.old;
        rest = behind.new;
    }
    ends_here(left, rest)
}

/// Whether a line is that of a routine: its first word is `sub`.
fn is_routine_line(line: &[u8]) -> bool
    ensures { result ≡ true → IsRoutineLine line.now }
{
    let mut words = Words::of(line);
    match words.next() {
        Some(first) => is(first, "sub"),
        None => false,
    }
}

/// Whether a line is kept: it is unchanged, or is the line of a routine and has grown.
fn keeps_line(old: &[u8], new: &[u8]) -> bool
    ensures { result ≡ true → KeepsLine old.now new.now }
{
    if is_same(old, new) {
        return true;
    }
    if !is_routine_line(old) {
        return false;
    }
    grows(without_return(old), without_return(new))
}

/// Whether a line ends with the comment that marks what is added.
fn ends_marked(line: &[u8]) -> bool
    ensures { result ≡ true → (front : List ℕ) × (line.now ≡ front ++ mark) }
{
    line.ends_with(MARK)
}

/// Whether a line is a comment.
fn is_comment(line: &[u8]) -> bool
    ensures { result ≡ true → (rest : List ℕ) × (line.now ≡ 47 ∷ rest) }
{
    match line {
        [first, ..] => *first == b'/',
        [] => false,
    }
}

/// Whether a line is an added line: it ends with the comment that marks it, or is a comment.
fn is_added(line: &[u8]) -> bool
    ensures { result ≡ true → IsAdded line.now }
{
    if ends_marked(line) {
        return true;
    }
    is_comment(line)
}

/// Whether each line of a text is an added line.
fn are_added(text: &[u8]) -> bool
    ensures { result ≡ true → AreAdded text.now }
{
    let mut rest = text;
    while !rest.is_empty() {
        let Some(it) = front_line(rest) else {
            return false;
        };
        if !is_added(it.front) {
            return false;
        }
        rest = it.rest;
    }
    true
}

/// Whether the last line of a text is kept, and all lines after it are added lines.
fn keeps_last(old: &[u8], new: &[u8], rest: &[u8]) -> bool
    ensures kept { result ≡ true → KeepsLine old.now new.now }
    ensures added { result ≡ true → AreAdded rest.now }
{
    if !keeps_line(old, new) {
        return false;
    }
    are_added(rest)
}

/// Whether a text has the lines of another one, each of them unchanged or grown, and after them only added lines.
pub(crate) fn keeps_lines(given: &[u8], text: &[u8]) -> bool
    ensures { result ≡ true → KeepsLines given.now text.now }
{
    if is_same(given, text) {
        return true;
    }
    let mut left = given;
    let mut rest = text;
    while !left.is_empty() {
        let Some(new) = front_line(rest) else {
            return false;
        };
        let Some(old) = front_line(left) else {
            return keeps_last(left, new.front, new.rest);
        };
        if !keeps_line(old.front, new.front) {
            return false;
        }
        left = old.rest;
        rest = new.rest;
    }
    are_added(rest)
}
