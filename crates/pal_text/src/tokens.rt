//! The tokens of a part.

ghost use Rattle.std.specs.Prelude.{◌≡◌, false, List, [], ◌∷◌, ◌++◌, reverse, OnOk, OnErr};
ghost use Rattle.pal_text.specs.Tokens.{kind_of, is_space, absorbs, longer};
ghost use Rattle.pal_text.specs.Adding.{joined, added};
ghost use Rattle.pal_text.specs.declared.tokens.Token.{Token as Tokened};

use std::alloc::{AllocError, Allocator};

/// What a token is.
#[derive(Clone, Copy, PartialEq, Eq, Debug)]
pub enum TokenKind {
    /// A letter, and letters and digits after it.
    Symbol,
    /// The symbol DECIMAL.
    Decimal,
    /// The symbol OCTAL.
    Octal,
    /// The symbol PAUSE.
    Pause,
    /// Digits.
    Number,
    /// A digit, and letters and digits after it with a letter among them.
    Mixed,
    /// `.`
    Here,
    /// Spaces that join two terms.
    Space,
    /// `,`
    Comma,
    /// `=`
    Equals,
    /// `+`
    Plus,
    /// `-`
    Minus,
    /// `*`
    Star,
    /// The end of a statement: `;`, a line's end, or the end of the part.
    End,
    /// `$`
    Dollar,
    /// Any other character.
    Other,
}

/// A token: what it is, its line, counted from 1, and where it stands in the part: from the byte
/// at `start` up to the one before `end`.
#[derive(Clone, Copy)]
pub struct Token {
    pub kind: TokenKind,
    pub line: usize,
    pub start: usize,
    pub end: usize,
}

pub(crate) fn kind_for(code: u8) -> TokenKind
    ensures { result ≡ kind_of code }
{
    match code {
        b'A'..=b'Z' => TokenKind::Symbol,
        b'0'..=b'9' => TokenKind::Number,
        b'.' => TokenKind::Here,
        b' ' => TokenKind::Space,
        b',' => TokenKind::Comma,
        b'=' => TokenKind::Equals,
        b'+' => TokenKind::Plus,
        b'-' => TokenKind::Minus,
        b'*' => TokenKind::Star,
        b';' => TokenKind::End,
        b'$' => TokenKind::Dollar,
        _ => TokenKind::Other,
    }
}

pub(crate) fn is_a_space(kind: TokenKind) -> bool
    ensures { result ≡ is_space kind }
{
    matches!(kind, TokenKind::Space)
}

/// Whether a space beside a token of this kind does not count.
fn absorbs_spaces(kind: TokenKind) -> bool
    ensures { result ≡ absorbs kind }
{
    matches!(
        kind,
        TokenKind::Comma
            | TokenKind::Equals
            | TokenKind::Plus
            | TokenKind::Minus
            | TokenKind::End
            | TokenKind::Dollar
    )
}

/// The kind of a token with one more character, where the character goes onto it.
fn longer_kind(kind: TokenKind, next: TokenKind) -> Option<TokenKind>
    ensures { result ≡ longer kind next }
{
    match kind {
        TokenKind::Symbol => match next {
            TokenKind::Symbol | TokenKind::Number => Some(TokenKind::Symbol),
            _ => None,
        },
        TokenKind::Number => match next {
            TokenKind::Number => Some(TokenKind::Number),
            TokenKind::Symbol => Some(TokenKind::Mixed),
            _ => None,
        },
        TokenKind::Mixed => match next {
            TokenKind::Symbol | TokenKind::Number => Some(TokenKind::Mixed),
            _ => None,
        },
        TokenKind::Space => match next {
            TokenKind::Space => Some(TokenKind::Space),
            _ => None,
        },
        _ => None,
    }
}

/// The one token that two neighbours make, where the second does not stand after the first.
fn join(last: Token, next: Token) -> Option<Token>
    ensures { result ≡ joined last next }
{
    if let Some(kind) = longer_kind(last.kind, next.kind) {
        return Some(Token {
            kind,
            line: last.line,
            start: last.start,
            end: next.end,
        });
    }
    if is_a_space(next.kind) && absorbs_spaces(last.kind) {
        Some(last)
    } else if is_a_space(last.kind) && absorbs_spaces(next.kind) {
        Some(next)
    } else {
        None
    }
}

/// Adds a token of its own.
fn append<A: Allocator>(out: &mut Vec<Token, A>, next: Token) -> Result<(), AllocError>
    ensures { OnOk result (out.new.items ≡ out.old.items ++ next ∷ []) }
{
    out.push(next)?;
    Ok(())
}

/// Adds a character. A space that would be the first token wants no memory.
pub(crate) fn add<A: Allocator>(out: &mut Vec<Token, A>, next: Token) -> Result<(), AllocError>
    ensures added { OnOk result ((ts : List Tokened) → out.old.items ≡ reverse ts →
        out.new.items ≡ reverse (added next ts)) }
    ensures refused { OnErr result (out.old.items ≡ [] → is_space next.kind ≡ false) }
{
    let count = out.len();
    if count == 0 {
        return if is_a_space(next.kind) {
            Ok(())
        } else {
            append(out, next)
        };
    }
    match join(out[count - 1], next) {
        Some(one) => {
            out[count - 1] = one;
            Ok(())
        }
        None => append(out, next),
    }
}
