//! What the tokens of a statement are: its tags, and then what it does.

ghost use Rattle.std.specs.Prelude.{◌≡◌};
ghost use Rattle.pal_text.specs.Tokens.{is_sign};
ghost use Rattle.pal_text.specs.Grammar.{is_term, is_joiner, is_name, is_terms, is_expression};
ghost use Rattle.pal_text.specs.Reading.{is_tag, is_star, is_equals, single, if_expression, body, shape};

use crate::tokens::{Token, TokenKind};

/// What a statement does after its tags.
#[derive(Clone, Copy, PartialEq, Eq, Debug)]
pub enum Form {
    /// Nothing.
    Empty,
    /// `*e`
    Origin,
    /// `symbol=e`
    Assign,
    /// DECIMAL
    Decimal,
    /// OCTAL
    Octal,
    /// PAUSE
    Pause,
    /// A word, by an expression.
    Word,
}

/// What a statement is: so many tags, and then this.
#[derive(Clone, Copy)]
pub struct Shape {
    pub tags: usize,
    pub form: Form,
}

fn term(kind: TokenKind) -> bool
    ensures { result ≡ is_term kind }
{
    matches!(
        kind,
        TokenKind::Symbol | TokenKind::Number | TokenKind::Here
    )
}

fn joiner(kind: TokenKind) -> bool
    ensures { result ≡ is_joiner kind }
{
    matches!(kind, TokenKind::Space | TokenKind::Plus | TokenKind::Minus)
}

fn sign(kind: TokenKind) -> bool
    ensures { result ≡ is_sign kind }
{
    matches!(kind, TokenKind::Plus | TokenKind::Minus)
}

fn star(kind: TokenKind) -> bool
    ensures { result ≡ is_star kind }
{
    matches!(kind, TokenKind::Star)
}

fn equals(kind: TokenKind) -> bool
    ensures { result ≡ is_equals kind }
{
    matches!(kind, TokenKind::Equals)
}

fn named(kind: TokenKind) -> bool
    ensures { result ≡ is_name kind }
{
    matches!(
        kind,
        TokenKind::Symbol | TokenKind::Decimal | TokenKind::Octal | TokenKind::Pause
    )
}

fn tag(first: TokenKind, second: TokenKind) -> bool
    ensures { result ≡ is_tag first second }
{
    named(first) && matches!(second, TokenKind::Comma)
}

/// Whether these are terms with a joiner between each two.
fn terms(tokens: &[Token]) -> bool
    ensures { result ≡ is_terms tokens.now }
{
    let mut rest = tokens;
    while let [first, second, more @ ..] = rest {
        if !term(first.kind) || !joiner(second.kind) {
            return false;
        }
        rest = more;
    }
    match rest {
        [last] => term(last.kind),
        _ => false,
    }
}

/// Whether these are an expression: terms, after a sign or without one.
fn expression(tokens: &[Token]) -> bool
    ensures { result ≡ is_expression tokens.now }
{
    match tokens {
        [first, rest @ ..] if sign(first.kind) => terms(rest),
        _ => terms(tokens),
    }
}

fn single_form(kind: TokenKind) -> Option<Form>
    ensures { result ≡ single kind }
{
    match kind {
        TokenKind::Symbol | TokenKind::Number | TokenKind::Here => Some(Form::Word),
        TokenKind::Decimal => Some(Form::Decimal),
        TokenKind::Octal => Some(Form::Octal),
        TokenKind::Pause => Some(Form::Pause),
        _ => None,
    }
}

/// This form, where these tokens are an expression.
fn if_expression(tokens: &[Token], form: Form) -> Option<Form>
    ensures { result ≡ if_expression tokens.now form }
{
    if expression(tokens) { Some(form) } else { None }
}

/// What these tokens do, which stand after the tags.
fn body_of(tokens: &[Token]) -> Option<Form>
    ensures { result ≡ body tokens.now }
{
    match tokens {
        [] => Some(Form::Empty),
        [only] => single_form(only.kind),
        [first, rest @ ..] if star(first.kind) => if_expression(rest, Form::Origin),
        [first, second, rest @ ..] if named(first.kind) && equals(second.kind) => {
            if_expression(rest, Form::Assign)
        }
        _ => if_expression(tokens, Form::Word),
    }
}

/// What the tokens of a statement are; none if they are no statement.
pub(crate) fn shape_of(tokens: &[Token]) -> Option<Shape>
    ensures { result ≡ shape 0 tokens.now }
{
    let mut tags = 0;
    let mut rest = tokens;
    while let [first, second, more @ ..] = rest {
        if !tag(first.kind, second.kind) {
            break;
        }
        tags += 1;
        rest = more;
    }
    let form = body_of(rest)?;
    Some(Shape { tags, form })
}
