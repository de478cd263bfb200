//! Expressions, by their tokens.

ghost use Rattle.std.specs.Prelude.{◌≡◌, length, IfOk};
ghost use Rattle.std.specs.List.{AllByRecursion};
ghost use Rattle.pal_text.specs.Names.{IsWithin};
ghost use Rattle.pal_text.specs.Grammar.{is_joiner};
ghost use Rattle.pal_asm.specs.Numbers.{base};
ghost use Rattle.pal_asm.specs.Expressions.{sign_of, term, expression, name_of};
ghost use Rattle.pal_asm.specs.SourceInCode.{read_of};

use crate::number::{Radix, number_of};
use pal_acts::{ExpressionTerm, FaultCode, Sign, SignedTerm};
use pal_text::{Name, Token, TokenKind};
use std::alloc::{AllocError, Allocator};

fn joins_terms(kind: TokenKind) -> bool
    ensures { result ≡ is_joiner kind }
{
    matches!(kind, TokenKind::Space | TokenKind::Plus | TokenKind::Minus)
}

fn sign(kind: TokenKind) -> Sign
    ensures { result ≡ sign_of kind }
{
    match kind {
        TokenKind::Plus => Sign::Plus,
        TokenKind::Minus => Sign::Minus,
        _ => Sign::Or,
    }
}

/// The name of a symbol's token.
pub(crate) fn name(source: &[u8], token: Token) -> Name
    requires { IsWithin (length source.now) token }
    ensures { result ≡ name_of source.now token }
{
    Name::new(&source[token.start..token.end])
}

/// The term of a token.
fn term_of(radix: Radix, source: &[u8], token: Token) -> Result<ExpressionTerm, FaultCode>
    requires { IsWithin (length source.now) token }
    ensures { result ≡ term (base radix) source.now token }
{
    match token.kind {
        TokenKind::Number => match number_of(radix, &source[token.start..token.end]) {
            Ok(word) => Ok(ExpressionTerm::Number(word)),
            Err(code) => Err(code),
        },
        TokenKind::Here => Ok(ExpressionTerm::Here),
        _ => Ok(ExpressionTerm::Symbol(name(source, token))),
    }
}

/// Reads an expression with the terms of these tokens into `joins`, or tells what is wrong with
/// the first bad number.
pub(crate) fn read_expression<A: Allocator>(
    radix: Radix,
    source: &[u8],
    tokens: &[Token],
    joins: &mut Vec<SignedTerm, A>,
) -> Result<Result<(), FaultCode>, AllocError>
    requires { AllByRecursion (IsWithin (length source.now)) tokens.now }
    ensures { IfOk result (λ read. read_of joins.new.items read ≡
        expression (base radix) source.now tokens.now) }
{
    joins.clear();
    let mut joined_by = Sign::Or;
    for token in tokens {
        if joins_terms(token.kind) {
            joined_by = sign(token.kind);
        } else {
            match term_of(radix, source, *token) {
                Ok(term) => joins.push(SignedTerm {
                    sign: joined_by,
                    term,
                })?,
                Err(code) => return Ok(Err(code)),
            }
            joined_by = Sign::Or;
        }
    }
    Ok(Ok(()))
}
