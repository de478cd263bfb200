//! What a statement does.

ghost use Rattle.std.specs.Prelude.{◌≡◌, ◌++◌, OnOk, length, map};
ghost use Rattle.std.specs.List.{AllByRecursion};
ghost use Rattle.pal_text.specs.Names.{IsWithin};
ghost use Rattle.pal_asm.specs.Numbers.{base};
ghost use Rattle.pal_acts.specs.Acts.{place};
ghost use Rattle.pal_asm.specs.Acts.{tag_by, tag_act, statement_acts};
ghost use Rattle.pal_asm.specs.SourceInCode.{Says, names_in, after_tags, operand_by, assign_acts, body_by};

use crate::expression::{name, read_expression};
use crate::number::Radix;
use pal_acts::{Act, Acts, FaultCode, SignedTerm, SourcePlace};
use pal_text::{Form, Statement, Token, TokenKind};
use std::alloc::{AllocError, Allocator};

/// A part of a source: its number, whether it is the last one, and its bytes.
#[derive(Clone, Copy)]
pub(crate) struct NumberedPart<'s> {
    pub(crate) number: usize,
    pub(crate) last: bool,
    pub(crate) source: &'s [u8],
}

/// What a tag does: DECIMAL, OCTAL and PAUSE cannot be given a value.
fn tag_of(source: &[u8], token: Token) -> Act
    requires { IsWithin (length source.now) token }
    ensures { result ≡ tag_by source.now token token.kind }
{
    match token.kind {
        TokenKind::Symbol => Act::Tag(name(source, token)),
        _ => Act::Wrong(FaultCode::DuplicateTag),
    }
}

/// The tokens of a statement after so many tags, each of which has a comma after it.
fn without_tags(count: usize, tokens: &[Token]) -> &[Token]
    ensures { result.now ≡ after_tags count tokens.now }
{
    let mut left = count;
    let mut rest = tokens;
    while let [_, _, more @ ..] = rest {
        if left == 0 {
            break;
        }
        left -= 1;
        rest = more;
    }
    rest
}

/// Keeps so many tags, each of which has a comma after it.
fn keep_tags<A: Allocator>(
    source: &[u8],
    place: SourcePlace,
    count: usize,
    tokens: &[Token],
    acts: &mut Acts<A>,
) -> Result<(), AllocError>
    requires { AllByRecursion (IsWithin (length source.now)) tokens.now }
    ensures { OnOk result (acts.new ≡ acts.old ++ map (tag_act place source.now)
        (names_in count tokens.now)) }
{
    let mut left = count;
    let mut rest = tokens;
    while let [name, _, more @ ..] = rest {
        if left == 0 {
            break;
        }
        acts.keep(place, tag_of(source, *name), &[])?;
        left -= 1;
        rest = more;
    }
    Ok(())
}

/// The expression of a statement by its tokens after the tags.
fn operand_of(form: Form, tokens: &[Token]) -> &[Token]
    ensures { result.now ≡ operand_by form tokens.now }
{
    match (form, tokens) {
        (Form::Origin, [_, rest @ ..]) | (Form::Assign, [_, _, rest @ ..]) => rest,
        (Form::Word, _) => tokens,
        _ => &[],
    }
}

/// Keeps an assignment; one to DECIMAL, OCTAL or PAUSE is an act of its own.
fn keep_assignment<A: Allocator>(
    source: &[u8],
    place: SourcePlace,
    tokens: &[Token],
    joins: &[SignedTerm],
    acts: &mut Acts<A>,
) -> Result<(), AllocError>
    requires { AllByRecursion (IsWithin (length source.now)) tokens.now }
    ensures { OnOk result (acts.new ≡ acts.old ++ assign_acts place source.now tokens.now
        joins.now) }
{
    match tokens {
        [] => Ok(()),
        [first, ..] if first.kind == TokenKind::Symbol => {
            acts.keep(place, Act::Assign(name(source, *first)), joins)
        }
        [_, ..] => acts.keep(place, Act::AssignDirection, joins),
    }
}

/// Keeps what a statement does after its tags.
fn keep_body<A: Allocator>(
    part: &NumberedPart<'_>,
    place: SourcePlace,
    tokens: &[Token],
    form: Form,
    joins: &[SignedTerm],
    acts: &mut Acts<A>,
) -> Result<(), AllocError>
    requires { AllByRecursion (IsWithin (length part.now.source.now)) tokens.now }
    ensures { OnOk result (acts.new ≡ acts.old ++ body_by place part.now.last
        part.now.source.now tokens.now form joins.now) }
{
    match form {
        Form::Origin => acts.keep(place, Act::Origin, joins),
        Form::Assign => keep_assignment(part.source, place, tokens, joins, acts),
        Form::Word => acts.keep(place, Act::Word, joins),
        Form::Pause if part.last => acts.keep(place, Act::LastPause, &[]),
        _ => Ok(()),
    }
}

/// Keeps what a statement of a part with these tokens does. The terms of its expression are laid
/// in `joins` first.
pub(crate) fn keep_statement<A: Allocator>(
    part: &NumberedPart<'_>,
    radix: Radix,
    tokens: &[Token],
    statement: Statement,
    joins: &mut Vec<SignedTerm, A>,
    acts: &mut Acts<A>,
) -> Result<(), AllocError>
    requires within { AllByRecursion (IsWithin (length part.now.source.now)) tokens.now }
    requires says { Says tokens.now statement }
    ensures { OnOk result ((says : Says tokens.now statement) → acts.new ≡ acts.old ++
        statement_acts (place part.now.number statement.line) (base radix) part.now.last
        part.now.source.now says.names says.said) }
{
    let place = SourcePlace {
        part: part.number,
        line: statement.line,
    };
    let body = without_tags(statement.tags, tokens);
    match read_expression(radix, part.source, operand_of(statement.form, body), joins)? {
        Ok(()) => {
            keep_tags(part.source, place, statement.tags, tokens, acts)?;
            keep_body(part, place, body, statement.form, joins, acts)
        }
        Err(code) => acts.keep(place, Act::Wrong(code), &[]),
    }
}
