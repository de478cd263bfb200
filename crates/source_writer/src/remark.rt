//! The comment of a cell.

use crate::outline::{Datum, DeclaredCells, Outline, previous};
use bin_tape::Image;
use instruct::{Instruction, Operation, decode, name};
use std::alloc::{AllocError, Allocator};
use word12::Word;

/// How many words in a row must be characters to be shown as such.
const LEAST_CHARACTERS: usize = 3;

/// How many characters are shown together at most.
const MOST_CHARACTERS: usize = 40;

/// The least word that is shown as a negative number too, where the code names it.
const LEAST_NAMED_NEGATIVE: usize = 0o7401;

/// The same where it does not.
const LEAST_NEGATIVE: usize = 0o7701;

/// Behind how many words at most a call is looked for whose arguments they are.
const MOST_ARGUMENTS: usize = 7;

/// The code of the character that a word is, with channel 8 or without it; of a control character with it.
fn character(word: Word) -> Option<u8> {
    let code = word.low_byte() & 0o177;
    let is_control = word.index() >= 0o200 && control_name(code).is_some();
    let is_printed = code >= b' ' && code <= b'_';
    if word.index() < 0o400 && (is_control || is_printed) {
        Some(code)
    } else {
        None
    }
}

/// The name of a control character that stands in messages.
fn control_name(code: u8) -> Option<&'static str> {
    match code {
        0o7 => Some("BEL"),
        0o12 => Some("LF"),
        0o15 => Some("CR"),
        _ => None,
    }
}

/// The code of the character that a word by itself is, with channel 8. The round number 0300 is none.
fn lone_character(word: Word) -> Option<u8> {
    if word.index() >= 0o200 && word.index() != 0o300 {
        character(word)
    } else {
        None
    }
}

/// Adds a part of a comment, where it applies, with a comma behind the part before.
fn push_if<A: Allocator>(
    remark: &mut Vec<u8, A>,
    applies: bool,
    part: &[u8],
) -> Result<(), AllocError> {
    if !applies {
        return Ok(());
    }
    if !remark.is_empty() {
        remark.extend_from_slice(b", ")?;
    }
    remark.extend_from_slice(part)
}

/// Adds what a declaration says of a cell.
fn push_declared<A: Allocator>(
    remark: &mut Vec<u8, A>,
    declared: &DeclaredCells,
    at: Word,
) -> Result<(), AllocError> {
    push_if(remark, declared.stops.contains(at), b"stop")?;
    push_if(remark, declared.pauses.contains(at), b"pause")?;
    push_if(remark, declared.variables.contains(at), b"variable")
}

/// Adds a character: a control character by its name, any other between quotes.
fn push_character<A: Allocator>(remark: &mut Vec<u8, A>, code: u8) -> Result<(), AllocError> {
    if let Some(control) = control_name(code) {
        return remark.extend_from_slice(control.as_bytes());
    }
    remark.push(b'"')?;
    remark.push(code)?;
    remark.push(b'"')?;
    Ok(())
}

/// Adds that a word is the negative of a character, if it is.
fn push_minus<A: Allocator>(remark: &mut Vec<u8, A>, word: Word) -> Result<(), AllocError> {
    let Some(code) = lone_character(word.complement().increment()) else {
        return Ok(());
    };
    push_if(remark, true, b"minus ")?;
    push_character(remark, code)
}

/// Adds a negative number.
fn push_negative<A: Allocator>(remark: &mut Vec<u8, A>, word: Word) -> Result<(), AllocError> {
    let [_, high, middle, low] = word.complement().increment().to_octal();
    push_if(remark, true, b"-")?;
    if word.index() <= 0o7700 {
        remark.push(high)?;
    }
    if word.index() <= 0o7770 {
        remark.push(middle)?;
    }
    remark.push(low)?;
    Ok(())
}

impl Outline {
    /// The character of a data word at a cell, if it is one.
    fn character_at(&self, image: &Image, at: Word) -> Option<u8> {
        if self.code.contains(at) || self.entries.contains(at) {
            return None;
        }
        match image.get(at) {
            None => None,
            Some(word) => character(word),
        }
    }

    /// Whether a cell has a character that stands in a row with the one before it. A tag begins a new row.
    fn goes_on(&self, image: &Image, at: Word) -> bool {
        !self.tagged.contains(at)
            && self.character_at(image, at).is_some()
            && self.character_at(image, previous(at)).is_some()
    }

    /// How many characters stand in a row from a cell with one on, as far as so many cells.
    fn characters_from(&self, image: &Image, at: Word, most: usize) -> usize {
        let mut to = at;
        for count in 1..most {
            to = to.increment();
            if !self.goes_on(image, to) {
                return count;
            }
        }
        most
    }

    /// The first of the characters in a row of which one stands at a cell, no more than two cells back.
    fn first_character(&self, image: &Image, at: Word) -> Word {
        if !self.goes_on(image, at) {
            return at;
        }
        let before = previous(at);
        if !self.goes_on(image, before) {
            return before;
        }
        previous(before)
    }

    /// The printed character of a cell, if it has one.
    fn printed_at(&self, image: &Image, at: Word) -> Option<u8> {
        let code = self.character_at(image, at)?;
        if control_name(code).is_none() {
            Some(code)
        } else {
            None
        }
    }

    /// Adds the printed characters in a row from a cell on, between quotes.
    fn push_quoted<A: Allocator>(
        &self,
        remark: &mut Vec<u8, A>,
        image: &Image,
        at: Word,
        first: u8,
    ) -> Result<(), AllocError> {
        remark.push(b'"')?;
        remark.push(first)?;
        let mut to = at;
        for _character in 1..MOST_CHARACTERS {
            to = to.increment();
            match self.printed_at(image, to) {
                Some(code) if self.goes_on(image, to) => remark.push(code)?,
                _ => break,
            }
        }
        remark.push(b'"')?;
        Ok(())
    }

    /// Adds a character in a row: with the first one all that are printed together with it.
    fn push_in_row<A: Allocator>(
        &self,
        remark: &mut Vec<u8, A>,
        image: &Image,
        at: Word,
        code: u8,
    ) -> Result<(), AllocError> {
        push_if(remark, true, b"")?;
        let is_printed = control_name(code).is_none();
        let follows = self.goes_on(image, at) && self.printed_at(image, previous(at)).is_some();
        if is_printed && !follows {
            return self.push_quoted(remark, image, at, code);
        }
        if is_printed && code != b' ' {
            remark.push(code)?;
            return Ok(());
        }
        push_character(remark, code)
    }

    /// Whether a cell is data right behind a call.
    fn is_argument(&self, image: &Image, at: Word) -> bool {
        let mut from = at;
        for _word in 0..MOST_ARGUMENTS {
            from = previous(from);
            if self.code.contains(from) {
                return match self.reference(image, from) {
                    Some(word) => Operation::of(word) == Operation::Jms,
                    None => false,
                };
            }
        }
        false
    }

    /// Adds what a data word may be: a negative number, a character among others, or one by itself that the
    /// code names or that is an argument.
    fn push_data_remark<A: Allocator>(
        &self,
        remark: &mut Vec<u8, A>,
        image: &Image,
        at: Word,
        word: Word,
    ) -> Result<(), AllocError> {
        let is_named = self.tagged.contains(at);
        if is_named && word.index() >= LEAST_NAMED_NEGATIVE {
            push_negative(remark, word)?;
            return push_minus(remark, word);
        }
        if word.index() >= LEAST_NEGATIVE {
            return push_negative(remark, word);
        }
        let Some(code) = self.character_at(image, at) else {
            return Ok(());
        };
        let first = self.first_character(image, at);
        if self.characters_from(image, first, LEAST_CHARACTERS) >= LEAST_CHARACTERS {
            return self.push_in_row(remark, image, at, code);
        }
        let is_plain = matches!(self.datum(image, at, word), Datum::Plain);
        let is_lone = is_plain && lone_character(word).is_some();
        if is_lone && (is_named || self.is_argument(image, at)) {
            push_if(remark, true, b"")?;
            return push_character(remark, code);
        }
        Ok(())
    }

    /// Adds the comment of a cell with this word, if there is something to say of it.
    pub(crate) fn push_remark<A: Allocator>(
        &self,
        remark: &mut Vec<u8, A>,
        image: &Image,
        at: Word,
        word: Word,
    ) -> Result<(), AllocError> {
        push_if(remark, at == self.start, b"start")?;
        if let Some(declared) = &self.declared {
            push_declared(remark, declared, at)?;
        }
        if !self.code.contains(at) {
            return self.push_data_remark(remark, image, at, word);
        }
        let is_octal = self.reference(image, at).is_none() && !self.is_named(word);
        let is_instruction = decode(word, self.profile) != Instruction::Unsupported;
        push_if(
            remark,
            is_octal && is_instruction,
            name(word, self.profile).as_str().as_bytes(),
        )
    }
}
