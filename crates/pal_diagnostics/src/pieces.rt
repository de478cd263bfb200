//! The tokens of a statement, even if the statement has no valid form.

use crate::lines::bytes_between;
use pal_text::characters::is_character_code;
use pal_text::{Name, Token, TokenKind};
use std::alloc::{AllocError, Allocator};

/// The kind of token that a character is by itself.
fn kind_of(code: u8) -> TokenKind {
    match code {
        b'A'..=b'Z' => TokenKind::Symbol,
        b'0'..=b'9' => TokenKind::Number,
        b'.' => TokenKind::Here,
        b' ' | b'\t' => TokenKind::Space,
        b',' => TokenKind::Comma,
        b'=' => TokenKind::Equals,
        b'+' => TokenKind::Plus,
        b'-' => TokenKind::Minus,
        b'*' => TokenKind::Star,
        _ => TokenKind::Other,
    }
}

/// Whether a space next to a token of this kind is ignored.
fn absorbs_spaces(kind: TokenKind) -> bool {
    matches!(
        kind,
        TokenKind::Comma | TokenKind::Equals | TokenKind::Plus | TokenKind::Minus
    )
}

/// The kind of token that a token of this kind becomes with a character of the other kind after it, if the two are one
/// token.
fn longer(kind: TokenKind, next: TokenKind) -> Option<TokenKind> {
    match (kind, next) {
        (TokenKind::Symbol, TokenKind::Symbol | TokenKind::Number) => Some(TokenKind::Symbol),
        (TokenKind::Number, TokenKind::Number) => Some(TokenKind::Number),
        (TokenKind::Number, TokenKind::Symbol) => Some(TokenKind::Mixed),
        (TokenKind::Mixed, TokenKind::Symbol | TokenKind::Number) => Some(TokenKind::Mixed),
        (TokenKind::Space, TokenKind::Space) => Some(TokenKind::Space),
        _ => None,
    }
}

/// The single token that two neighbours make, if they do not stay two tokens.
fn join(last: Token, next: Token) -> Option<Token> {
    if let Some(kind) = longer(last.kind, next.kind) {
        return Some(Token {
            kind,
            line: last.line,
            start: last.start,
            end: next.end,
        });
    }
    if next.kind == TokenKind::Space && absorbs_spaces(last.kind) {
        Some(last)
    } else if last.kind == TokenKind::Space && absorbs_spaces(next.kind) {
        Some(next)
    } else {
        None
    }
}

/// Adds a character to the tokens before it, joining it to the last one if the two are one token.
fn add<A: Allocator>(tokens: &mut Vec<Token, A>, next: Token) -> Result<(), AllocError> {
    let Some(last) = tokens.pop() else {
        if next.kind != TokenKind::Space {
            tokens.push(next)?;
        }
        return Ok(());
    };
    match join(last, next) {
        Some(one) => tokens.push(one)?,
        None => {
            tokens.push(last)?;
            tokens.push(next)?;
        }
    }
    Ok(())
}

/// The tokens of the statement from `start` up to, but not including, `end`.
pub(crate) fn tokens_in<A: Allocator>(
    alloc: A,
    bytes: &[u8],
    start: usize,
    end: usize,
) -> Result<Vec<Token, A>, AllocError> {
    let mut tokens = Vec::new(alloc);
    for (index, byte) in bytes_between(bytes, start, end).iter().enumerate() {
        let code = *byte % 0o200;
        if is_character_code(code) {
            let at = start.saturating_add(index);
            let next = Token {
                kind: kind_of(code),
                line: 1,
                start: at,
                end: at.saturating_add(1),
            };
            add(&mut tokens, next)?;
        }
    }
    if matches!(tokens.last(), Some(last) if last.kind == TokenKind::Space) {
        tokens.pop();
    }
    Ok(tokens)
}

/// The kind of a token; a symbol has the kind that its name gives it.
pub(crate) fn told_kind(bytes: &[u8], token: Token) -> TokenKind {
    match token.kind {
        TokenKind::Symbol => name_of(bytes, token).kind(),
        kind => kind,
    }
}

/// The bytes of a token.
pub(crate) fn bytes_of(bytes: &[u8], token: Token) -> &[u8] {
    bytes_between(bytes, token.start, token.end)
}

/// The name of the symbol that a token is.
pub(crate) fn name_of(bytes: &[u8], token: Token) -> Name {
    Name::new(bytes_of(bytes, token))
}

/// The tokens from this index on.
pub(crate) fn tokens_from(tokens: &[Token], at: usize) -> &[Token] {
    tokens.get(at..).unwrap_or(&[])
}

/// How many tokens the tags at the beginning of a statement have; each tag is a symbol and a comma.
pub(crate) fn count_tag_tokens(tokens: &[Token]) -> usize {
    let mut count = 0usize;
    for (at, token) in tokens.iter().enumerate() {
        match token.kind {
            TokenKind::Symbol if at % 2 == 0 => {}
            TokenKind::Comma if at % 2 == 1 => count = at + 1,
            _ => break,
        }
    }
    count
}

/// How many tokens come before the expression of a statement without tags: a star, or a symbol and `=`.
pub(crate) fn count_front_tokens(body: &[Token]) -> usize {
    match body {
        [first, ..] if first.kind == TokenKind::Star => 1,
        [first, second, ..]
            if first.kind == TokenKind::Symbol && second.kind == TokenKind::Equals => 2,
        _ => 0,
    }
}
