//! What is wrong with a statement, and what to change.

use crate::examination::Examination;
use crate::forms::{FaultText, UNFINISHED, about, end_of_small, misplaced};
use crate::lines::{Written, bytes_between, push_characters};
use crate::meanings::number_of;
use crate::pieces::{bytes_of, tokens_from, told_kind};
use pal_acts::FaultCode;
use pal_text::{Token, TokenKind};
use std::alloc::{AllocError, Allocator};

/// A finding about a fault: which bytes of its part are marked, what is wrong, and what to change.
#[derive(Drop)]
pub(crate) struct Finding<A: Allocator> {
    pub(crate) start: usize,
    pub(crate) end: usize,
    pub(crate) wrong: String<A>,
    pub(crate) advice: String<A>,
}

impl<A: Allocator + Copy> Finding<A> {
    /// The finding about these bytes that consists of these texts.
    pub(crate) fn new(
        alloc: A,
        start: usize,
        end: usize,
        wrong: &str,
        advice: &str,
    ) -> Result<Finding<A>, AllocError> {
        Ok(Finding {
            start,
            end,
            wrong: String::from_str(alloc, wrong)?,
            advice: String::from_str(alloc, advice)?,
        })
    }
}

/// The code of the character at this place, or of a space if there is none.
fn code_at(bytes: &[u8], at: usize) -> u8 {
    bytes.get(at).copied().unwrap_or(b' ') % 0o200
}

/// Adds bytes as they are named in a sentence.
fn push_named<A: Allocator>(
    text: &mut String<A>,
    bytes: &[u8],
    start: usize,
    end: usize,
) -> Written {
    let code = code_at(bytes, start);
    match code {
        b' ' | b'\t' => text.push_str("the space"),
        0..=0o37 => write!(text, "the character {code:03o}"),
        _ => push_characters(text, bytes_between(bytes, start, end)),
    }
}

/// Whether a part begins with a byte order mark, which some editors put before a text. In a copy of a part, the second
/// of its three bytes may have become the end of a line.
pub(crate) fn has_order_mark(bytes: &[u8]) -> bool {
    matches!(bytes, [0o357, 0o273 | b'\r', 0o277, ..])
}

impl<A: Allocator + Copy> Examination<'_, A> {
    /// The finding that these texts give about these bytes.
    fn finding_by(
        &self,
        start: usize,
        end: usize,
        words: FaultText,
    ) -> Result<Finding<A>, AllocError> {
        let mut found = Finding::new(self.alloc, start, end, "", words.advice)?;
        push_named(&mut found.wrong, self.bytes(), start, end)?;
        found.wrong.push(' ')?;
        found.wrong.push_str(words.wrong)?;
        Ok(found)
    }

    /// The finding about a statement that has no valid form: about the token at this place among its tokens or, if there
    /// is none, about the last token, which needs another after it.
    fn about_form(&self, at: usize) -> Result<Option<Finding<A>>, AllocError> {
        let (bytes, tokens) = (self.bytes(), &self.faulty.tokens);
        if let Some(token) = tokens.get(at) {
            if token.start == 0 && has_order_mark(bytes) {
                return Ok(Some(Finding::new(
                    self.alloc,
                    0,
                    3,
                    "there is a byte order mark at the beginning of the source",
                    "save the file as ASCII, or as UTF-8 without a byte order mark",
                )?));
            }
            let words = about(told_kind(bytes, *token), code_at(bytes, token.start));
            let end = end_of_small(bytes, tokens_from(tokens, at), token.end);
            return Ok(Some(self.finding_by(token.start, end, words)?));
        }
        match tokens.last() {
            Some(last) => Ok(Some(self.finding_by(last.start, last.end, UNFINISHED)?)),
            None => Ok(None),
        }
    }

    /// The finding about digits that are not octal.
    fn about_digits(&self, token: Token) -> Result<Finding<A>, AllocError> {
        let mut found = self.finding(
            token,
            " is not octal",
            "numbers are octal until a DECIMAL statement: write ",
        )?;
        match number_of(true, bytes_of(self.bytes(), token)) {
            Ok(word) => {
                let value = word.value();
                write!(found.advice, "{value:o}")?;
            }
            Err(_) => found.advice.push_str("digits up to 7")?,
        }
        found
            .advice
            .push_str(", or put a DECIMAL statement before the number")?;
        Ok(found)
    }

    /// The finding about the first token of the statement that looks like a number but is not a valid one.
    fn about_number(&self) -> Result<Option<Finding<A>>, AllocError> {
        let is_decimal = self.before.is_decimal;
        for token in &self.faulty.tokens {
            if token.kind == TokenKind::Number {
                match number_of(is_decimal, bytes_of(self.bytes(), *token)) {
                    Ok(_) => {}
                    Err(FaultCode::NumberTooLarge) => {
                        return Ok(Some(self.finding(
                            *token,
                            if is_decimal {
                                " is above 4095"
                            } else {
                                " is above 7777"
                            },
                            "a word has twelve bits: write a number that fits",
                        )?));
                    }
                    Err(_) => return Ok(Some(self.about_digits(*token)?)),
                }
            }
        }
        Ok(None)
    }

    /// The finding about a statement with the fault IC or NB.
    pub(crate) fn about_text(&self) -> Result<Option<Finding<A>>, AllocError> {
        match misplaced(self.bytes(), &self.faulty.tokens) {
            Some(at) => self.about_form(at),
            None => self.about_number(),
        }
    }

    /// The finding about PAUSE in the last part.
    pub(crate) fn about_pause(&self) -> Result<Option<Finding<A>>, AllocError> {
        let [token, ..] = self.faulty.body() else {
            return Ok(None);
        };
        Ok(Some(Finding::new(
            self.alloc,
            token.start,
            token.end,
            "PAUSE says that another part follows, but none does",
            "write $ in its place or remove it, or name the part that follows as another SOURCE",
        )?))
    }
}
