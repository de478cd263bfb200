//! A declaration in numbers, with the symbols of a source.

ghost use Rattle.std.specs.Prelude.{◌≡◌, ◌⊎◌, true, IfOk, IfErr};
ghost use Rattle.pal_asm.specs.Sources.{texts};
ghost use Rattle.labels.specs.Names.{IsNamed, IsReadBack};
ghost use Rattle.labels.specs.Within.{machine};
ghost use Rattle.labels.specs.Programs.{IsSourceFault};

use crate::address::{Cells, cells_of};
use crate::fault::PlaceFault;
use crate::placing::{comment_of, place, push_comment, return_of, said_of, without_return};
use crate::program::{NumberingFault, translation_of};
use crate::within::{machine_of, reads_on, reads_on_after};
use pal_acts::SymbolTable;
use pal_text::{Name, Token, TokenKind, statements};
use std::alloc::{AllocError, Allocator};
use streams::text::{self, Words};
use word12::Word;

/// How far behind a tag an address is named by it at most.
const REACH: usize = 0o77;

/// A tag of a source, and its address.
#[derive(Clone, Copy)]
pub(crate) struct Tag {
    name: Name,
    at: usize,
}

/// A symbol, and how many cells behind its value an address is.
#[derive(Clone, Copy)]
pub(crate) struct Spelling {
    name: Name,
    behind: usize,
}

/// The symbols of a source, and its tags.
#[derive(Clone, Copy)]
struct SourceNames<'t, S: Allocator + Copy> {
    own: &'t SymbolTable<S>,
    tags: &'t [Tag],
}

/// Adds the tag that these bytes spell, if they are a symbol of the source.
fn push_tag<A: Allocator, S: Allocator + Copy>(
    own: &SymbolTable<S>,
    bytes: &[u8],
    tags: &mut Vec<Tag, A>,
) -> Result<(), AllocError> {
    let name = Name::new(bytes);
    if let Some(value) = own.get(&name) {
        let at = value.index();
        tags.push(Tag { name, at })?;
    }
    Ok(())
}

/// Adds the tags among the tokens of a part: what comes before a comma.
fn push_tags<A: Allocator, S: Allocator + Copy>(
    own: &SymbolTable<S>,
    source: &[u8],
    tokens: &[Token],
    tags: &mut Vec<Tag, A>,
) -> Result<(), AllocError> {
    let mut before: &[u8] = &[];
    for token in tokens {
        if token.kind == TokenKind::Comma {
            push_tag(own, before, tags)?;
        }
        before = source.get(token.start..token.end).unwrap_or(b"");
    }
    Ok(())
}

/// Adds the tags of a part, and says whether the part after it is read.
fn push_part_tags<A: Allocator + Copy, S: Allocator + Copy>(
    alloc: A,
    own: &SymbolTable<S>,
    source: &[u8],
    tags: &mut Vec<Tag, A>,
) -> Result<bool, AllocError> {
    match statements(alloc, source) {
        Ok(part) => {
            push_tags(own, source, &part.tokens, tags)?;
            Ok(reads_on(part.ending))
        }
        Err(fault) => reads_on_after(fault),
    }
}

/// The tags of a source, in their order.
pub(crate) fn tags_of<A: Allocator + Copy, S: Allocator + Copy>(
    alloc: A,
    own: &SymbolTable<S>,
    parts: &[&[u8]],
) -> Result<Vec<Tag, A>, AllocError> {
    let mut tags = Vec::new(alloc);
    for source in parts {
        let on = push_part_tags(alloc, own, source, &mut tags)?;
        if !on {
            return Ok(tags);
        }
    }
    Ok(tags)
}

/// An address by the last tag at it or before it, of several there the first, if one is near enough.
pub(crate) fn by_tag(tags: &[Tag], at: usize) -> Option<Spelling> {
    let mut found = None;
    let mut least = REACH.saturating_add(1);
    for tag in tags {
        let behind = at.saturating_sub(tag.at);
        if tag.at <= at && behind < least {
            found = Some(Spelling {
                name: tag.name,
                behind,
            });
            least = behind;
        }
    }
    found
}

/// An address by the first symbol that has it as its value.
fn by_value<S: Allocator + Copy>(own: &SymbolTable<S>, at: usize) -> Option<Spelling> {
    for index in 0..own.len() {
        if let Some((name, value)) = own.get_index(index) {
            if value.index() == at {
                return Some(Spelling {
                    name: *name,
                    behind: 0,
                });
            }
        }
    }
    None
}

/// Adds `+` and a number below 100 in octal digits.
fn push_behind<A: Allocator>(behind: usize, text: &mut Vec<u8, A>) -> Result<(), AllocError> {
    let number = if behind < 4096 { behind } else { 0 };
    let [_, _, tens, ones] = Word::from_index(number).to_octal();
    text.push(b'+')?;
    if tens != b'0' {
        text.push(tens)?;
    }
    text.push(ones)?;
    Ok(())
}

/// Adds a symbol and how far after it an address is, even if it is the symbol's own if that is asked.
pub(crate) fn push_spelling<A: Allocator>(
    spelling: &Spelling,
    with_zero: bool,
    text: &mut Vec<u8, A>,
) -> Result<(), AllocError> {
    text.extend_from_slice(spelling.name.letters.trim_ascii_end())?;
    if spelling.behind == 0 && !with_zero {
        return Ok(());
    }
    push_behind(spelling.behind, text)
}

/// Adds an address as it is spelled, or in digits.
fn push_address<A: Allocator>(
    spelling: &Option<Spelling>,
    at: Word,
    with_zero: bool,
    text: &mut Vec<u8, A>,
) -> Result<(), AllocError> {
    match spelling {
        Some(spelling) => push_spelling(spelling, with_zero, text),
        None => text.extend_from_slice(&at.to_octal()),
    }
}

/// Which of the words that follow in a line are addresses.
#[derive(Clone, Copy, PartialEq, Eq, Debug)]
enum Addresses {
    /// All.
    All,
    /// The next one alone.
    Next,
    /// None.
    None,
}

/// Which words are addresses behind the name of a line. Offsets follow the entry of `skips` and of `returns`.
fn addresses_behind_name(name: &[u8]) -> Addresses {
    if text::is(name, "skips") || text::is(name, "returns") {
        Addresses::Next
    } else {
        Addresses::All
    }
}

/// Whether words or offsets follow a word, and no addresses.
fn ends_addresses(word: &[u8]) -> bool {
    text::is(word, "returns")
        || text::is(word, "ac")
        || text::is(word, "mq")
        || text::is(word, "link")
}

/// Which words are addresses behind a word of a line. The word behind `cell` is one, and what that cell holds is none.
fn addresses_behind(word: &[u8], before: Addresses) -> Addresses {
    if text::is(word, "cell") {
        Addresses::Next
    } else if ends_addresses(word) || before == Addresses::Next {
        Addresses::None
    } else {
        before
    }
}

impl<S: Allocator + Copy> SourceNames<'_, S> {
    /// An address by a tag, or else by another symbol that has it as its value.
    fn spelling_of(&self, at: Word) -> Option<Spelling> {
        match by_tag(self.tags, at.index()) {
            Some(found) => Some(found),
            None => by_value(self.own, at.index()),
        }
    }

    /// Adds cells. Before the digits of the last address of a range its first one ends with a number, since `-` would
    /// subtract behind a symbol.
    fn push_cells<A: Allocator>(
        &self,
        cells: &Cells,
        text: &mut Vec<u8, A>,
    ) -> Result<(), AllocError> {
        match cells {
            Cells::One(at) => push_address(&self.spelling_of(*at), *at, false, text),
            Cells::Range(low, high) => {
                let last = self.spelling_of(*high);
                push_address(&self.spelling_of(*low), *low, last.is_none(), text)?;
                text.push(b'-')?;
                push_address(&last, *high, false, text)
            }
        }
    }

    /// Adds a word; one that is as long as an address of four digits or as a range of two, and is one, with symbols.
    fn name_word<A: Allocator>(
        &self,
        word: &[u8],
        text: &mut Vec<u8, A>,
    ) -> Result<(), AllocError> {
        if !matches!(word.len(), 4 | 9) {
            return text.extend_from_slice(word);
        }
        match cells_of(self.own, word) {
            Ok(cells) => self.push_cells(&cells, text),
            Err(_) => text.extend_from_slice(word),
        }
    }

    /// Adds the words of a line behind its first one, of which these are addresses.
    fn name_words<A: Allocator>(
        &self,
        words: Words<'_>,
        addresses: Addresses,
        text: &mut Vec<u8, A>,
    ) -> Result<(), AllocError> {
        let mut rest = words;
        let mut addresses = addresses;
        while let Some(word) = rest.next() {
            text.push(b' ')?;
            if addresses == Addresses::None {
                text.extend_from_slice(word)?;
            } else {
                self.name_word(word, text)?;
            }
            addresses = addresses_behind(word, addresses);
        }
        Ok(())
    }

    /// Adds a line with symbols in place of its addresses.
    fn name_line<A: Allocator>(
        &self,
        line: &[u8],
        text: &mut Vec<u8, A>,
    ) -> Result<(), AllocError> {
        let body = without_return(line);
        let mut rest = Words::of(said_of(body));
        if let Some(name) = rest.next() {
            text.extend_from_slice(name)?;
            self.name_words(rest, addresses_behind_name(name), text)?;
        }
        push_comment(comment_of(body), text)?;
        text.extend_from_slice(return_of(line))
    }

    /// Adds a line as somebody wrote it, if that is read back as this one; else with symbols; or in numbers where
    /// the one with symbols is not read back either.
    fn push_line<A: Allocator + Copy>(
        &self,
        alloc: A,
        line: &[u8],
        written: &[u8],
        text: &mut Vec<u8, A>,
    ) -> Result<(), AllocError> {
        if reads_back(alloc, self.own, written, line)? {
            return text.extend_from_slice(written);
        }
        let mut named = Vec::new(alloc);
        self.name_line(line, &mut named)?;
        if reads_back(alloc, self.own, &named, line)? {
            text.extend_from_slice(&named)
        } else {
            text.extend_from_slice(line)
        }
    }

    /// A declaration in numbers with symbols, line by line; a line that was written with symbols stays so.
    fn name_lines<A: Allocator + Copy>(
        &self,
        alloc: A,
        numbers: &[u8],
        written: &[u8],
    ) -> Result<Vec<u8, A>, AllocError> {
        let mut text = Vec::new(alloc);
        let mut written_lines = written.split(|byte| *byte == b'\n');
        for line in numbers.split(|byte| *byte == b'\n') {
            self.push_line(alloc, line, written_lines.next().unwrap_or(b""), &mut text)?;
            text.push(b'\n')?;
        }
        // There is no line after the last line feed.
        let _ = text.pop();
        Ok(text)
    }
}

/// Whether two texts are the same.
fn is_same(left: &[u8], right: &[u8]) -> bool
    ensures { result ≡ true → left.now ≡ right.now }
{
    left == right
}

/// Whether a text with symbols is these numbers where it is placed, and names the same machine.
fn reads_back<A: Allocator + Copy, S: Allocator + Copy>(
    alloc: A,
    own: &SymbolTable<S>,
    text: &[u8],
    numbers: &[u8],
) -> Result<bool, AllocError>
    ensures { IfOk result (λ yes. yes ≡ true →
        IsReadBack own.now.entries numbers.now text.now) }
{
    match place(alloc, text, own) {
        Ok(placed) => Ok(is_same(&placed, numbers) && machine_of(text) == machine_of(numbers)),
        Err(PlaceFault::NoMemory) => Err(AllocError),
        Err(_) => Ok(false),
    }
}

/// The same bytes once more.
fn copy_of<A: Allocator>(alloc: A, bytes: &[u8]) -> Result<Vec<u8, A>, AllocError>
    ensures { IfOk result (λ text. text.items ≡ bytes.now) }
{
    let mut text = Vec::new(alloc);
    text.extend_from_slice(bytes)?;
    Ok(text)
}

/// A declaration in numbers with the symbols of a source, or the numbers.
fn named_by<A: Allocator + Copy, S: Allocator + Copy>(
    alloc: A,
    parts: &[&[u8]],
    own: &SymbolTable<S>,
    numbers: &[u8],
    written: &[u8],
) -> Result<Vec<u8, A>, AllocError>
    ensures { IfOk result (λ text. (text.items ≡ numbers.now) ⊎
        IsReadBack own.now.entries numbers.now text.items) }
{
    let tags = tags_of(alloc, own, parts)?;
    let names = SourceNames { own, tags: &tags };
    let text = names.name_lines(alloc, numbers, written)?;
    if reads_back(alloc, own, &text, numbers)? {
        return Ok(text);
    }
    copy_of(alloc, numbers)
}

/// Writes a declaration in numbers with the symbols of a source: an address with a tag as that tag, the
/// first of several; an address at most 77 cells behind a tag as the last tag before it, `+` and a number;
/// another one that an assignment gives a symbol as that symbol. Ranges are written by their two addresses.
/// Comments stay, and what is not four digits or a range of them, offsets, and the words that a subject is to have. A line that
/// would not be read back byte by byte stays in numbers, and so does the whole where it would not, as where
/// it has more than 16,384 bytes with symbols. A line of `written`, the text that somebody wrote and of which
/// each line has its line in the numbers, stays as it is where it means that line. Which names are taken, and
/// which lines stay, is only tested.
///
/// # Errors
///
/// `Source` with the one fault of the source, which is assembled for the machine that the declaration
/// names; `NoMemory`.
pub fn name_declaration<A: Allocator + Copy>(
    alloc: A,
    parts: &[&[u8]],
    numbers: &[u8],
    written: &[u8],
) -> Result<Vec<u8, A>, NumberingFault>
    // What is given is placed as the numbers, byte by byte, by the symbols that the source means; or it is
    // the numbers.
    ensures named { IfOk result (λ text. IsNamed (texts parts.now) numbers.now text.items) }
    // A fault is that of the source, or of memory.
    ensures refused { IfErr result (IsSourceFault (machine numbers.now) (texts parts.now)) }
{
    let translation = translation_of(alloc, parts, numbers)?;
    match named_by(alloc, parts, translation.symbols(), numbers, written) {
        Ok(text) => Ok(text),
        Err(_) => Err(NumberingFault::NoMemory),
    }
}
