//! What is not allowed in a statement.

use crate::pieces::{count_front_tokens, count_tag_tokens, tokens_from, told_kind};
use pal_text::{Token, TokenKind};

/// The text about a token: what is wrong, which follows the token itself, and what to change.
#[derive(Clone, Copy)]
pub(crate) struct FaultText {
    pub(crate) wrong: &'static str,
    pub(crate) advice: &'static str,
}

/// Whether a token of this kind is a term.
fn is_term(kind: TokenKind) -> bool {
    matches!(
        kind,
        TokenKind::Symbol | TokenKind::Number | TokenKind::Here
    )
}

/// Whether a token of this kind is a directive, which is a statement by itself.
fn is_direction(kind: TokenKind) -> bool {
    matches!(
        kind,
        TokenKind::Decimal | TokenKind::Octal | TokenKind::Pause
    )
}

/// The index of the first of these tokens that does not belong in an expression; their number, if the expression is
/// incomplete at its end; nothing if it is complete.
fn misplaced_in_expression(bytes: &[u8], tokens: &[Token]) -> Option<usize> {
    let mut wants_term = true;
    for (at, token) in tokens.iter().enumerate() {
        let kind = told_kind(bytes, *token);
        let fits = match kind {
            TokenKind::Plus | TokenKind::Minus => !wants_term || at == 0,
            TokenKind::Space => !wants_term,
            _ => is_term(kind) && wants_term,
        };
        if !fits {
            return Some(at);
        }
        wants_term = !is_term(kind);
    }
    if wants_term { Some(tokens.len()) } else { None }
}

/// The index of the first token of a statement that does not belong in it; the number of tokens, if the statement is
/// incomplete at its end; nothing if it has a valid form.
pub(crate) fn misplaced(bytes: &[u8], tokens: &[Token]) -> Option<usize> {
    let tags = count_tag_tokens(tokens);
    let body = tokens_from(tokens, tags);
    match body {
        [] => return None,
        [only] if is_direction(told_kind(bytes, *only)) => return None,
        _ => {}
    }
    let front = tags.saturating_add(count_front_tokens(body));
    let at = misplaced_in_expression(bytes, tokens_from(tokens, front))?;
    Some(front.saturating_add(at))
}

/// The text about a character that means nothing.
fn about_character(code: u8) -> FaultText {
    match code {
        b'a'..=b'z' => FaultText {
            wrong: "contains a letter that is not in upper case",
            advice: "letters must be in upper case, except in comments",
        },
        b'(' | b')' | b'[' | b']' => FaultText {
            wrong: "is not allowed: this assembler has no literals",
            advice: "write the word on a line of its own with a tag, and refer to the tag",
        },
        b'"' | b'\'' => FaultText {
            wrong: "is not allowed: this assembler does not support characters in quotes",
            advice: "write the code of each character as a word, such as 301 for A with channel 8",
        },
        b'<' | b'>' => FaultText {
            wrong: "is not allowed: this assembler has no macros and no conditional assembly",
            advice: "write out the statements",
        },
        b'!' => FaultText {
            wrong: "is not allowed",
            advice: "for an inclusive OR, write a space between two terms",
        },
        _ => FaultText {
            wrong: "is not allowed",
            advice: "remove it; a comment begins with /",
        },
    }
}

/// The text about a token of this kind that does not belong where it is; for a character, by its code.
pub(crate) fn about(kind: TokenKind, code: u8) -> FaultText {
    match kind {
        TokenKind::Mixed => FaultText {
            wrong: "begins with a digit but contains a letter",
            advice: "a number has only digits, and a symbol begins with a letter",
        },
        TokenKind::Decimal | TokenKind::Octal | TokenKind::Pause => FaultText {
            wrong: "is not a term",
            advice: "make it a statement of its own, after ; or on a line of its own",
        },
        TokenKind::Space => FaultText {
            wrong: "is not allowed here",
            advice: "remove it",
        },
        TokenKind::Comma => FaultText {
            wrong: "is not allowed here",
            advice: "a tag is a symbol and a comma, before everything else in its statement",
        },
        TokenKind::Equals => FaultText {
            wrong: "is not allowed here",
            advice: "an assignment is a symbol, = and its value, and nothing else",
        },
        TokenKind::Star => FaultText {
            wrong: "is not allowed here",
            advice: "* sets the location, and only tags may come before it; there is no multiplication",
        },
        TokenKind::Plus | TokenKind::Minus => FaultText {
            wrong: "has no term before it",
            advice: "write a term between the two signs, or remove one of them",
        },
        TokenKind::Symbol | TokenKind::Number | TokenKind::Here => FaultText {
            wrong: "follows the term before it with nothing between them",
            advice: "write a space, + or - between two terms",
        },
        TokenKind::Other | TokenKind::End | TokenKind::Dollar => about_character(code),
    }
}

/// The text about a last token that a term is missing after.
pub(crate) const UNFINISHED: FaultText = FaultText {
    wrong: "has no term after it",
    advice: "write a number or a symbol there, or remove it",
};

/// Whether a token begins with a lower-case letter.
fn is_small(bytes: &[u8], token: Token) -> bool {
    bytes
        .get(token.start)
        .is_some_and(|byte| (*byte % 0o200).is_ascii_lowercase())
}

/// Where the lower-case word at the beginning of these tokens ends; `first`, the end of the first token, if they begin
/// with none.
pub(crate) fn end_of_small(bytes: &[u8], tokens: &[Token], first: usize) -> usize {
    let mut end = first;
    for token in tokens {
        if !is_small(bytes, *token) || token.start > end {
            break;
        }
        end = token.end;
    }
    end
}
