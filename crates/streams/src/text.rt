//! The lines of a text, the words of a line, and the numbers that words spell.

ghost use Rattle.std.specs.Prelude.{◌≡◌, ◌≤◌, ◌==◌, true, drop};
ghost use Rattle.std.specs.Iterator.{YieldsFirstRef, item_count};
ghost use Rattle.std.specs.List.{before_first, position, position_or_len, list_all};
ghost use Rattle.std.specs.Option.{SomeIff};
ghost use Rattle.std.specs.Char.{is_ascii_digit};
ghost use Rattle.std.specs.Str.Parse.{digits_value};
ghost use Rattle.std.specs.Str.{bytes_eq};
ghost use Rattle.std.specs.Str.Lines.{strip_carriage_return};
ghost use Rattle.streams.specs.Text.{text_lines, words_of, is_slash, is_blank, is_other, octal_word, octal_byte, decimal_between};

use word12::Word;

/// The lines of a text from some line on, each without its end and its comment.
#[derive(Clone, Copy, Debug)]
pub struct Lines<'a> {
    rest: &'a [u8],
}

/// The words of a line from some word on.
#[derive(Clone, Copy, Debug)]
pub struct Words<'a> {
    rest: &'a [u8],
}

impl<'a> Lines<'a> {
    ghost use Rattle.streams.specs.TextLeft.{lines_left};

    /// The lines of a text, in order. A line ends with a line feed, before which a carriage return
    /// is dropped; the last line may lack the line feed. A `/` begins a comment, which is dropped
    /// too.
    pub fn of(text: &'a [u8]) -> Lines<'a>
        ensures { lines_left result ≡ text_lines text.now }
    {
        Lines { rest: text }
    }
}

impl<'a> Words<'a> {
    ghost use Rattle.streams.specs.TextLeft.{words_left};

    /// The words of a line, in order: what stands between spaces and tabs.
    pub fn of(line: &'a [u8]) -> Words<'a>
        ensures { words_left result ≡ words_of line.now }
    {
        Words { rest: line }
    }
}

impl<'a> Iterator for Lines<'a> {
    ghost use Rattle.streams.specs.TextLeft.{lines_left};

    type Item = &'a [u8];

    ghost next_gives = { YieldsFirstRef lines_left };

    ghost remaining = { item_count lines_left };

    fn next(&mut self) -> Option<&'a [u8]> {
        if self.rest.is_empty() {
            return None;
        }
        let line = match place_of(self.rest, b'\n') {
            Some(end) => {
                let line = without_return(&self.rest[..end]);
                self.rest = &self.rest[end + 1..];
                line
            }
            None => {
                let line = self.rest;
                self.rest = &[];
                line
            }
        };
        Some(without_comment(line))
    }
}

impl<'a> Iterator for Words<'a> {
    ghost use Rattle.streams.specs.TextLeft.{words_left};

    type Item = &'a [u8];

    ghost next_gives = { YieldsFirstRef words_left };

    ghost remaining = { item_count words_left };

    fn next(&mut self) -> Option<&'a [u8]> {
        let rest = without_blanks(self.rest);
        let (word, rest) = rest.split_at(word_len(rest));
        self.rest = rest;
        if word.is_empty() { None } else { Some(word) }
    }
}

/// Whether a word is this one.
pub fn is(word: &[u8], name: &str) -> bool
    ensures { result ≡ bytes_eq word.now name.now }
{
    word == name.as_bytes()
}

/// Whether a byte separates words: a space or a tab.
fn is_blank(byte: u8) -> bool
    ensures { result ≡ is_blank byte }
{
    byte == b' ' || byte == b'\t'
}

/// A text without the blanks at its front.
fn without_blanks(text: &[u8]) -> &[u8]
    ensures { result.now ≡ drop (position_or_len is_other text.now) text.now }
{
    match place_of_other(text) {
        Some(start) => &text[start..],
        None => &[],
    }
}

/// How many bytes a text has before its first blank.
#[tactic(auto, using(crate::proofs::TextLemmas::places))]
fn word_len(text: &[u8]) -> usize
    ensures { result ≡ position_or_len is_blank text.now }
{
    place_of_blank(text).unwrap_or(text.len())
}

/// The first place of something else than a blank.
fn place_of_other(text: &[u8]) -> Option<usize>
    ensures { result ≡ position is_other text.now }
{
    text.iter().position(|byte| !is_blank(*byte))
}

/// The first place of a blank.
fn place_of_blank(text: &[u8]) -> Option<usize>
    ensures { result ≡ position is_blank text.now }
{
    text.iter().position(|byte| is_blank(*byte))
}

/// The first place of a byte.
fn place_of(text: &[u8], byte: u8) -> Option<usize>
    ensures { result ≡ position (λ c. c == byte) text.now }
{
    text.iter().position(|other| *other == byte)
}

/// A line without the carriage return at its end, if it has one.
fn without_return(line: &[u8]) -> &[u8]
    ensures { result.now ≡ strip_carriage_return line.now }
{
    match line.split_last() {
        Some((b'\r', front)) => front,
        _ => line,
    }
}

/// What comes before the first `/` of a line.
fn without_comment(line: &[u8]) -> &[u8]
    ensures { result.now ≡ before_first is_slash line.now }
{
    let end = place_of(line, b'/').unwrap_or(line.len());
    &line[..end]
}

/// The machine word that one to four octal digits spell.
pub fn octal_word(digits: &[u8]) -> Option<Word>
    ensures { result ≡ octal_word digits.now }
{
    if digits.len() > 4 {
        return None;
    }
    Word::from_octal(digits).ok()
}

/// The byte that one to three octal digits up to 377 spell.
pub fn octal_byte(digits: &[u8]) -> Option<u8>
    ensures { result ≡ octal_byte digits.now }
{
    if digits.len() > 3 {
        return None;
    }
    match Word::from_octal(digits) {
        Ok(word) => u8::try_from(word.value()).ok(),
        Err(_) => None,
    }
}

/// The number from `least` to `most` that decimal digits spell, without a sign; leading zeros are
/// taken.
pub fn decimal_between(least: u32, most: u32, digits: &[u8]) -> Option<u32>
    requires { most ≤ 100000000 }
    ensures { result ≡ decimal_between least most digits.now }
{
    if digits.is_empty() || !is_decimal(digits) {
        return None;
    }
    let value = decimal_up_to(most, digits)?;
    if value < least { None } else { Some(value) }
}

/// Whether a text has decimal digits alone.
fn is_decimal(text: &[u8]) -> bool
    ensures { result ≡ list_all is_ascii_digit text.now }
{
    text.iter().all(|digit| digit.is_ascii_digit())
}

/// The number that decimal digits spell, if it is at most `most`.
fn decimal_up_to(most: u32, digits: &[u8]) -> Option<u32>
    requires bounded { most ≤ 100000000 }
    requires decimal { list_all is_ascii_digit digits.now ≡ true }
    ensures { SomeIff result (digits_value 10 digits.now ≤ most) (digits_value 10 digits.now) }
{
    let mut value = 0;
    for digit in digits {
        value = value * 10 + u32::from(*digit - b'0');
        if value > most {
            return None;
        }
    }
    Some(value)
}
