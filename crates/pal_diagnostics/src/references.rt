//! What is wrong when a value is needed, or an address is out of reach.

use crate::examination::Examination;
use crate::findings::Finding;
use crate::lines::{Written, bytes_between, push_characters};
use crate::meanings::terms_of;
use crate::pieces::{bytes_of, name_of, tokens_from};
use crate::statement::Act;
use pal_text::{Token, TokenKind};
use std::alloc::{AllocError, Allocator};
use word12::Word;

/// What follows an operation: the address, and whether I and Z come before it.
#[derive(Clone, Copy)]
struct Reference<'t> {
    is_indirect: bool,
    is_on_page_zero: bool,
    address: &'t [Token],
}

/// Whether a token is this symbol.
fn is_symbol(bytes: &[u8], token: Token, letters: [u8; 6]) -> bool {
    token.kind == TokenKind::Symbol && name_of(bytes, token).letters == letters
}

/// What follows an operation, given these tokens after it.
fn reference_of<'t>(bytes: &[u8], tokens: &'t [Token]) -> Reference<'t> {
    let mut found = Reference {
        is_indirect: false,
        is_on_page_zero: false,
        address: tokens,
    };
    for _ in 0..2 {
        let [space, mark, rest @ ..] = found.address else {
            break;
        };
        if space.kind != TokenKind::Space {
            break;
        }
        if !found.is_indirect && is_symbol(bytes, *mark, *b"I     ") {
            found.is_indirect = true;
        } else if !found.is_on_page_zero && is_symbol(bytes, *mark, *b"Z     ") {
            found.is_on_page_zero = true;
        } else {
            break;
        }
        found.address = rest;
    }
    found
}

/// The tokens of an address without a space at the beginning.
fn without_space(tokens: &[Token]) -> &[Token] {
    match tokens {
        [first, rest @ ..] if first.kind == TokenKind::Space => rest,
        _ => tokens,
    }
}

/// Adds the page of an address, and the first and the last address on it.
fn push_page<A: Allocator>(text: &mut String<A>, at: Word) -> Written {
    let page = at.page().value();
    let first = Word::ZERO.in_page_of(at);
    let last = Word::from_index(0o177).in_page_of(at);
    write!(text, "page {page:o} ({first}-{last})")
}

/// The bytes that these tokens take up: where they begin, and where they end.
fn span_of(tokens: &[Token]) -> (usize, usize) {
    match tokens {
        [] => (0, 0),
        [only] => (only.start, only.end),
        [first, .., last] => (first.start, last.end),
    }
}

/// Adds an address: as it is written, unless it is written as a number, then its value and the page that it is on.
fn push_address<A: Allocator>(
    text: &mut String<A>,
    bytes: &[u8],
    address: &[Token],
    value: Word,
) -> Written {
    let is_number = matches!(address, [only] if only.kind == TokenKind::Number);
    if !is_number {
        let (start, end) = span_of(address);
        push_characters(text, bytes_between(bytes, start, end))?;
        text.push_str(" is ")?;
    }
    write!(text, "{value}")?;
    text.push_str(if is_number { " is on " } else { ", on " })?;
    push_page(text, value)
}

/// What to change in a reference that cannot reach its address, but for the operation at the end, if it is to be added.
fn advice_of(reference: &Reference<'_>, is_same_page: bool) -> (&'static str, bool) {
    if reference.is_on_page_zero && is_same_page {
        ("remove Z: the address is on the page of this word", false)
    } else if reference.is_indirect {
        (
            "a statement with I uses a word on this page or on page zero: write a word there that holds the address",
            false,
        )
    } else {
        (
            "on this page, write a word that holds that address, give it a tag, and refer to the tag with I, as in ",
            true,
        )
    }
}

impl<A: Allocator + Copy> Examination<'_, A> {
    /// The finding about a symbol that has no value when one is needed.
    fn about_undefined(&self, token: Token) -> Result<Finding<A>, AllocError> {
        let name = name_of(self.bytes(), token);
        let mut found = self.finding(token, " has no value", "")?;
        if let Some(occurrence) = self.known.occurrence(&name) {
            found.wrong.push_str(" yet")?;
            self.push_defined(&mut found.advice, occurrence)?;
            found.advice.push_str(", must come before an origin or an assignment that uses it")?;
        } else {
            self.push_undefined_advice(&mut found.advice, &name)?;
        }
        Ok(found)
    }

    /// Adds the findings about the symbols of the statement that have no value when one is needed.
    pub(crate) fn put_undefined(&self, findings: &mut Vec<Finding<A>, A>) -> Written {
        let is_word = self.faulty.act() == Act::Other;
        let meanings = if is_word { self.known } else { self.before };
        for token in self.faulty.operand() {
            let name = name_of(self.bytes(), *token);
            if token.kind == TokenKind::Symbol && meanings.symbols.get(&name).is_none() {
                findings.push(self.about_undefined(*token)?)?;
            }
        }
        Ok(())
    }

    /// The finding about a reference that cannot reach its address.
    pub(crate) fn about_reference(&self) -> Result<Option<Finding<A>>, AllocError> {
        let bytes = self.bytes();
        let reference = reference_of(bytes, tokens_from(self.faulty.body(), 1));
        let address = without_space(reference.address);
        let here = self.before.here;
        let terms = terms_of(self.alloc, self.before.is_decimal, bytes, address)?;
        let Some(value) = self.known.symbols.value(here, &terms) else {
            return Ok(None);
        };
        let (start, end) = span_of(address);
        let (advice, is_open) = advice_of(&reference, value.page() == here.page());
        let mut found = Finding::new(self.alloc, start, end, "", advice)?;
        push_address(&mut found.wrong, bytes, address, value)?;
        if reference.is_on_page_zero {
            found.wrong.push_str(", but Z requires page zero")?;
        } else {
            write!(found.wrong, ", but this word is at {here}, on ")?;
            push_page(&mut found.wrong, here)?;
        }
        if is_open {
            if let [operation, ..] = self.faulty.body() {
                push_characters(&mut found.advice, bytes_of(bytes, *operation))?;
            }
            found.advice.push_str(" I TAG")?;
        }
        Ok(Some(found))
    }
}
