//! The statement that has a fault.

use crate::copies::statement_end;
use crate::pieces::{count_front_tokens, count_tag_tokens, name_of, tokens_from, tokens_in};
use crate::symbols::moves_location;
use pal_acts::{FaultCode, SourcePlace};
use pal_asm::PalFault;
use pal_text::{Line, Token, TokenKind, lines_of};
use std::alloc::{AllocError, Allocator};

/// A statement that has a fault: the code of the fault; the number of its part, counted from 0; its part and its line
/// in the copies, counted from 1; where it begins and ends in its part; and its tokens.
#[derive(Drop)]
pub(crate) struct FaultyStatement<A: Allocator> {
    pub(crate) code: FaultCode,
    pub(crate) part: usize,
    pub(crate) place: SourcePlace,
    pub(crate) start: usize,
    pub(crate) end: usize,
    pub(crate) tokens: Vec<Token, A>,
}

/// What a statement with a fault does after its tags.
#[derive(Clone, Copy, PartialEq, Eq)]
pub(crate) enum Act {
    /// Nothing.
    Nothing,
    /// It sets the location.
    SetsLocation,
    /// It gives a symbol a value.
    Assigns,
    /// Anything else: a word, a directive, or something without a valid form.
    Other,
}

impl<A: Allocator> FaultyStatement<A> {
    /// The tags, each a symbol and a comma.
    pub(crate) fn tags(&self) -> &[Token] {
        self.tokens
            .get(..count_tag_tokens(&self.tokens))
            .unwrap_or(&[])
    }

    /// What comes after the tags.
    pub(crate) fn body(&self) -> &[Token] {
        tokens_from(&self.tokens, count_tag_tokens(&self.tokens))
    }

    /// The expression after the tags, with what comes after it.
    pub(crate) fn operand(&self) -> &[Token] {
        let body = self.body();
        tokens_from(body, count_front_tokens(body))
    }

    /// Whether locations are unknown without it: it is an origin, or a word of another assembler that sets the
    /// location.
    pub(crate) fn loses_location(&self, bytes: &[u8]) -> bool {
        match self.body() {
            [first, ..] => {
                first.kind == TokenKind::Star
                    || (first.kind == TokenKind::Symbol && moves_location(&name_of(bytes, *first)))
            }
            [] => false,
        }
    }

    /// What it does after its tags.
    pub(crate) fn act(&self) -> Act {
        let body = self.body();
        match body {
            [] => Act::Nothing,
            [first, ..] if first.kind == TokenKind::Star => Act::SetsLocation,
            _ if count_front_tokens(body) == 2 => Act::Assigns,
            _ => Act::Other,
        }
    }
}

/// The statement that has this fault, in a copy of its part.
pub(crate) fn faulty_of<A: Allocator + Copy>(
    alloc: A,
    bytes: &[u8],
    fault: PalFault,
) -> Result<FaultyStatement<A>, AllocError> {
    let lines = lines_of(alloc, bytes)?;
    let after = Line {
        start: bytes.len(),
        end: bytes.len(),
    };
    let index = fault.line.saturating_sub(1);
    let line = lines.get(index).copied().unwrap_or(after);
    let end = statement_end(bytes, line);
    Ok(FaultyStatement {
        code: fault.code,
        part: fault.part.saturating_sub(1),
        place: SourcePlace {
            part: fault.part,
            line: fault.line,
        },
        start: line.start,
        end,
        tokens: tokens_in(alloc, bytes, line.start, end)?,
    })
}
