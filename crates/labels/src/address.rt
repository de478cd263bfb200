//! What a word of a declaration says in numbers: an address, or a range.

ghost use Rattle.std.specs.Prelude.{◌≡◌, ◌++◌, Ok, Err, OnOk, IfOk, IfErr};
ghost use Rattle.std.specs.List.{position, position_or_len};
ghost use Rattle.labels.specs.Addresses.{is_capital, is_digit, is_sign, begins_number, ends_name, name_of, after_name, value_of, moved, offset, with_offset, address_of, span, cells_of, cells_text};

use crate::fault::AddressFault;
use pal_acts::SymbolTable;
use pal_text::Name;
use std::alloc::{AllocError, Allocator};
use streams::text;
use word12::Word;

/// The cells that a word names.
#[derive(Clone, Copy, PartialEq, Eq, Debug)]
pub enum Cells {
    /// One.
    One(Word),
    /// From one to another, both included.
    Range(Word, Word),
}

/// An address at the front of a text, and what comes after it.
#[derive(Clone, Copy)]
struct AddressPrefix<'a> {
    at: Word,
    rest: &'a [u8],
}

/// Whether a byte is a capital letter.
pub(crate) fn is_capital(byte: u8) -> bool
    ensures { result ≡ is_capital byte }
{
    matches!(byte, b'A'..=b'Z')
}

/// Whether a byte is a digit.
pub(crate) fn is_digit(byte: u8) -> bool
    ensures { result ≡ is_digit byte }
{
    matches!(byte, b'0'..=b'9')
}

/// Whether a byte is no part of a symbol or a number.
fn ends_name(byte: u8) -> bool
    ensures { result ≡ ends_name byte }
{
    !is_capital(byte) && !is_digit(byte)
}

/// The first place of a byte that is no part of a symbol or a number.
fn place_of_end(text: &[u8]) -> Option<usize>
    ensures { result ≡ position ends_name text.now }
{
    text.iter().position(|byte| ends_name(*byte))
}

/// How many letters and digits stand at the front of a text.
#[tactic(auto, using(crate::proofs::Places::places))]
fn name_len(text: &[u8]) -> usize
    ensures { result ≡ position_or_len ends_name text.now }
{
    place_of_end(text).unwrap_or(text.len())
}

/// The letters and digits at the front of a text.
#[tactic(auto, using(crate::proofs::Places::position_or_len_le))]
fn name_of(text: &[u8]) -> &[u8]
    ensures { result.now ≡ name_of text.now }
{
    &text[..name_len(text)]
}

/// What comes after the letters and digits at the front of a text.
#[tactic(auto, using(crate::proofs::Places::position_or_len_le))]
fn after_name(text: &[u8]) -> &[u8]
    ensures { result.now ≡ after_name text.now }
{
    &text[name_len(text)..]
}

/// The value of the symbol with these bytes.
fn value_of<A: Allocator + Copy>(own: &SymbolTable<A>, bytes: &[u8]) -> Result<Word, AddressFault>
    ensures { result ≡ value_of own.now.entries bytes.now }
{
    match own.get(&Name::new(bytes)) {
        Some(value) => Ok(*value),
        None => Err(AddressFault::Symbol),
    }
}

/// The address so many cells above an address, or below it.
fn moved(at: Word, below: bool, count: Word) -> Result<Word, AddressFault>
    ensures { result ≡ moved at below count }
{
    let (at, count) = (at.value(), count.value());
    let to = if below {
        if at < count {
            return Err(AddressFault::Memory);
        }
        at - count
    } else {
        at + count
    };
    match Word::new(to) {
        Some(word) => Ok(word),
        None => Err(AddressFault::Memory),
    }
}

/// An address moved by the number at the front of a text.
fn offset(at: Word, below: bool, number: &[u8]) -> Result<AddressPrefix<'_>, AddressFault>
    ensures found { IfOk result (λ front.
        offset at below number.now ≡ Ok (front.at, front.rest.now)) }
    ensures refused { IfErr result (λ flaw. offset at below number.now ≡ Err flaw) }
{
    let Some(count) = text::octal_word(name_of(number)) else {
        return Err(AddressFault::Form);
    };
    match moved(at, below, count) {
        Ok(at) => Ok(AddressPrefix {
            at,
            rest: after_name(number),
        }),
        Err(flaw) => Err(flaw),
    }
}

/// Whether a byte is `+` or `-`.
fn is_sign(byte: u8) -> bool
    ensures { result ≡ is_sign byte }
{
    byte == b'+' || byte == b'-'
}

/// A symbol's address, moved where a sign and a digit follow it.
fn with_offset(at: Word, rest: &[u8]) -> Result<AddressPrefix<'_>, AddressFault>
    ensures found { IfOk result (λ front.
        with_offset at rest.now ≡ Ok (front.at, front.rest.now)) }
    ensures refused { IfErr result (λ flaw. with_offset at rest.now ≡ Err flaw) }
{
    match rest {
        [sign, number @ ..] if is_sign(*sign) && begins_number(number) => {
            offset(at, *sign == b'-', number)
        }
        _ => Ok(AddressPrefix { at, rest }),
    }
}

/// Whether a text begins with a digit.
fn begins_number(text: &[u8]) -> bool
    ensures { result ≡ begins_number text.now }
{
    match text {
        [first, ..] => is_digit(*first),
        [] => false,
    }
}

/// The address at the front of a text.
fn front_of<'a, A: Allocator + Copy>(
    own: &SymbolTable<A>,
    text: &'a [u8],
) -> Result<AddressPrefix<'a>, AddressFault>
    ensures found { IfOk result (λ front.
        address_of own.now.entries text.now ≡ Ok (front.at, front.rest.now)) }
    ensures refused { IfErr result (λ flaw. address_of own.now.entries text.now ≡ Err flaw) }
{
    let name = name_of(text);
    let rest = after_name(text);
    match name {
        [] => Err(AddressFault::Form),
        [first, ..] if is_capital(*first) => match value_of(own, name) {
            Ok(at) => with_offset(at, rest),
            Err(flaw) => Err(flaw),
        },
        _ => match text::octal_word(name) {
            Some(at) => Ok(AddressPrefix { at, rest }),
            None => Err(AddressFault::Form),
        },
    }
}

/// The cells from an address to the one that is spelled next.
fn span<A: Allocator + Copy>(
    own: &SymbolTable<A>,
    low: Word,
    text: &[u8],
) -> Result<Cells, AddressFault>
    ensures { result ≡ span low (address_of own.now.entries text.now) }
{
    match front_of(own, text) {
        Ok(high) => {
            if !high.rest.is_empty() {
                Err(AddressFault::Form)
            } else if high.at.value() < low.value() {
                Err(AddressFault::Order)
            } else {
                Ok(Cells::Range(low, high.at))
            }
        }
        Err(flaw) => Err(flaw),
    }
}

/// The cells of a word: an address or a range.
///
/// # Errors
///
/// What is wrong with the word.
pub fn cells_of<A: Allocator + Copy>(
    own: &SymbolTable<A>,
    word: &[u8],
) -> Result<Cells, AddressFault>
    ensures { result ≡ cells_of own.now.entries word.now }
{
    match front_of(own, word) {
        Ok(low) => match low.rest {
            [] => Ok(Cells::One(low.at)),
            [b'-', rest @ ..] => span(own, low.at, rest),
            _ => Err(AddressFault::Form),
        },
        Err(flaw) => Err(flaw),
    }
}

impl Cells {
    /// Adds the cells to a text, as a declaration spells them.
    ///
    /// # Errors
    ///
    /// Where memory was refused.
    pub fn push_to<A: Allocator>(self, text: &mut Vec<u8, A>) -> Result<(), AllocError>
        ensures { OnOk result (text.new.items ≡ text.old.items ++ cells_text self) }
    {
        match self {
            Cells::One(at) => text.extend_from_slice(&at.to_octal()),
            Cells::Range(low, high) => {
                text.extend_from_slice(&low.to_octal())?;
                text.push(b'-')?;
                text.extend_from_slice(&high.to_octal())
            }
        }
    }
}
