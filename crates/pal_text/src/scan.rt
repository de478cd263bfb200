//! The tokens of a statement, read from the bytes.

ghost use Rattle.std.specs.Prelude.{◌≡◌, ◌≤◌, ◌<◌, ◌+◌, false, true, [], length, reverse, OnErr, IfOk, Some};
ghost use Rattle.pal_text.specs.declared.tokens.TokenKind.TheVariants.{Symbol};
ghost use Rattle.pal_text.specs.Tokens.{is_letter, longer};
ghost use Rattle.pal_text.specs.Adding.{tokens};
ghost use Rattle.pal_text.specs.Characters.{code, line, returned, in_comment};
ghost use Rattle.pal_text.specs.Readers.{HasToken};
ghost use Rattle.pal_text.specs.Scan.{trimmed, mark, next_place, brings, is_line_code, front, IsStop, IsQuiet, IsOutside, IsPlaceIn, IsOwn, is_word, IsRun, IsOnward};

use crate::characters::{FORM_FEED, NULL, RUBOUT};
use crate::tokens::{Token, TokenKind, add, is_a_space, kind_for};
use std::alloc::{AllocError, Allocator};

/// Where a statement begins: at this byte, on this line, counted from 1. `returned` says whether
/// only ignored bytes and line feeds stand between here and a carriage return.
#[derive(Clone, Copy)]
pub(crate) struct Place {
    pub(crate) at: usize,
    pub(crate) line: usize,
    pub(crate) returned: bool,
}

/// What a code brings to a statement outside a comment.
#[derive(Clone, Copy)]
pub(crate) enum CodeEffect {
    /// Nothing.
    Nothing,
    /// A line feed: nothing after a carriage return, and else the statement's end.
    Feed,
    /// The statement's end.
    End,
    /// The front of a comment.
    Comment,
    /// One character of a token of this kind.
    One(TokenKind),
}

/// A token of letters and digits as far as it was read: its kind and end, and the place of the
/// next byte.
#[derive(Clone, Copy)]
pub(crate) struct Run {
    pub(crate) kind: TokenKind,
    pub(crate) end: usize,
    pub(crate) at: usize,
}

/// Whether a code is a letter.
fn is_letter(code: u8) -> bool
    ensures { result ≡ is_letter code }
{
    matches!(code, b'A'..=b'Z')
}

/// What this code brings. Most codes are letters, so they are tested first.
#[inline(always)]
fn effect_of_code(code: u8) -> CodeEffect
    ensures { result ≡ brings code }
{
    if is_letter(code) {
        return CodeEffect::One(TokenKind::Symbol);
    }
    match code {
        NULL | FORM_FEED | RUBOUT => CodeEffect::Nothing,
        b'\r' | b';' | b'$' => CodeEffect::End,
        b'\n' => CodeEffect::Feed,
        b'/' => CodeEffect::Comment,
        b'0'..=b'9' => CodeEffect::One(TokenKind::Number),
        b'\t' | b' ' => CodeEffect::One(TokenKind::Space),
        b'.' => CodeEffect::One(TokenKind::Here),
        b',' => CodeEffect::One(TokenKind::Comma),
        b'=' => CodeEffect::One(TokenKind::Equals),
        b'+' => CodeEffect::One(TokenKind::Plus),
        b'-' => CodeEffect::One(TokenKind::Minus),
        b'*' => CodeEffect::One(TokenKind::Star),
        _ => CodeEffect::One(TokenKind::Other),
    }
}

/// Whether this is a carriage return or a line feed.
fn is_line_end(code: u8) -> bool
    ensures { result ≡ is_line_code code }
{
    matches!(code, b'\r' | b'\n')
}

/// Where a comment ends: the next line end, or the end of the part.
fn comment_end(source: &[u8], from: usize) -> usize
    requires inside { from ≤ length source.now }
    requires comment { in_comment (front source.now from) ≡ true }
    requires returned { returned (front source.now from) ≡ false }
    ensures quiet { IsQuiet source.now from result }
    ensures stop { IsStop source.now result }
{
    let mut at = from;
    while at < source.len() && !is_line_end(source[at] % 0o200) {
        at += 1;
    }
    at
}

/// Whether a letter or a digit may go onto a token of this kind.
fn goes_on(kind: TokenKind) -> bool
    ensures { result ≡ is_word kind }
{
    matches!(
        kind,
        TokenKind::Symbol | TokenKind::Number | TokenKind::Mixed
    )
}

/// The kind of a token of letters and digits with one more letter.
fn with_letter(kind: TokenKind) -> TokenKind
    requires { is_word kind ≡ true }
    ensures { longer kind Symbol ≡ Some result }
{
    match kind {
        TokenKind::Number => TokenKind::Mixed,
        _ => kind,
    }
}

/// Reads on while a token of letters and digits goes on.
fn run_on(source: &[u8], kind: TokenKind, end: usize, from: usize) -> Run
    requires outside { IsOutside source.now from }
    requires word { is_word kind ≡ true }
    ensures { IsRun source.now kind end from result }
{
    let mut run = Run {
        kind,
        end,
        at: from,
    };
    while run.at < source.len() {
        match effect_of_code(source[run.at] % 0o200) {
            CodeEffect::One(TokenKind::Symbol) => {
                run.kind = with_letter(run.kind);
                run.end = run.at + 1;
            }
            CodeEffect::One(TokenKind::Number) => run.end = run.at + 1,
            CodeEffect::Nothing => {}
            _ => return run,
        }
        run.at += 1;
    }
    run
}

/// Reads on where the last token is one of letters and digits; the place of the next byte.
fn finish_run<A: Allocator>(source: &[u8], out: &mut Vec<Token, A>, at: usize) -> usize
    requires { IsOutside source.now at }
    ensures { IsOnward source.now at result out.old.items out.new.items }
{
    let count = out.len();
    if count == 0 {
        return at;
    }
    let last = out[count - 1];
    if !goes_on(last.kind) {
        return at;
    }
    let run = run_on(source, last.kind, last.end, at);
    out[count - 1] = Token {
        kind: run.kind,
        line: last.line,
        start: last.start,
        end: run.end,
    };
    run.at
}

/// Reads the tokens of the statement at a place; where it ends, by a byte there or with the part.
/// Memory is wanted only for a token.
pub(crate) fn read_own<A: Allocator>(
    source: &[u8],
    place: &Place,
    out: &mut Vec<Token, A>,
) -> Result<usize, AllocError>
    requires place { IsPlaceIn source.now place.now }
    requires empty { out.old.items ≡ [] }
    ensures own { IfOk result (λ stop. IsOwn source.now place.now stop out.new.items) }
    ensures stop { IfOk result (IsStop source.now) }
    ensures refused { OnErr result (HasToken source.now
        (length (tokens (front source.now place.now.at)))) }
{
    let mut returned = place.returned;
    let mut at = place.at;
    while at < source.len() {
        match effect_of_code(source[at] % 0o200) {
            CodeEffect::Nothing => at += 1,
            CodeEffect::Feed => {
                if !returned {
                    return Ok(at);
                }
                at += 1;
            }
            CodeEffect::End => return Ok(at),
            CodeEffect::Comment => return Ok(comment_end(source, at + 1)),
            CodeEffect::One(kind) => {
                let next = Token {
                    kind,
                    line: place.line,
                    start: at,
                    end: at + 1,
                };
                add(out, next)?;
                at = finish_run(source, out, at + 1);
                returned = false;
            }
        }
    }
    Ok(at)
}

/// Takes a space off the end of these tokens.
pub(crate) fn drop_space<A: Allocator>(out: &mut Vec<Token, A>)
    ensures { reverse out.new.items ≡ trimmed (reverse out.old.items) }
{
    let count = out.len();
    if count > 0 && is_a_space(out[count - 1].kind) {
        out.truncate(count - 1);
    }
}

/// The token that ends a statement on this line, at this place.
pub(crate) fn mark_at(source: &[u8], line: usize, at: usize) -> Token
    requires { at ≤ length source.now }
    ensures { result ≡ mark source.now line at }
{
    if at == source.len() {
        return Token {
            kind: TokenKind::End,
            line,
            start: at,
            end: at,
        };
    }
    let code = source[at] % 0o200;
    let kind = if is_line_end(code) {
        TokenKind::End
    } else {
        kind_for(code)
    };
    Token {
        kind,
        line,
        start: at,
        end: at + 1,
    }
}

/// Where the next statement begins, after one that ends on this line, by the byte at this place.
pub(crate) fn place_after(source: &[u8], line: usize, at: usize) -> Place
    requires inside { at < length source.now }
    requires small { line ≤ 65536 + 1 }
    ensures { result ≡ next_place source.now line at }
{
    let code = source[at] % 0o200;
    Place {
        at: at + 1,
        line: if is_line_end(code) { line + 1 } else { line },
        returned: code == b'\r',
    }
}
