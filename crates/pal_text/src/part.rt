//! A part of a source, read.

ghost use Rattle.std.specs.Prelude.{◌≡◌, ◌⊎◌, ◌↔◌, ◌≤◌, ◌<◌, ◌+◌, ◌++◌, ◌∷◌, [], length, reverse, take, slice_range, IfOk, OnOk, IfErr, MatchResult, Err, None, ℕ, List};
ghost use Rattle.std.specs.List.{AllByRecursion};
ghost use Rattle.pal_text.specs.Order.{IsOrdered, IsPlaced, IsLineWithin};
ghost use Rattle.pal_text.specs.Names.{IsWithin, bytes_of, part_tokens};
ghost use Rattle.pal_text.specs.Lines.{all_lines};
ghost use Rattle.pal_text.specs.ReadParts.{tokens_in};
ghost use Rattle.pal_text.specs.Faults.{fault_of};
ghost use Rattle.pal_text.specs.Statements.{closed, pieces, Stand};
ghost use Rattle.pal_text.specs.Parts.{IsPart, IsIllegal, IsFault, past};
ghost use Rattle.pal_text.specs.declared.tokens.Token.{Token as Tokened};
ghost use Rattle.pal_text.specs.declared.statement.Statement.{Statement as Stated};
ghost use Rattle.pal_text.specs.declared.statement.Ending.{Ending as Ended};
ghost use Rattle.pal_text.specs.declared.lines.Line.{Line as Lined};

use crate::fault::{StatementFault, TextFault};
use crate::lines::{Line, lines_of};
use crate::reader::{DelimitedStatement, PartItem, StatementReader};
use crate::statement::{Ending, PartEnd, Statement};
use crate::tokens::Token;
use std::alloc::{AllocError, Allocator};

/// How many bytes a part may have.
pub const LONGEST: usize = 65_536;

/// A part of a source: its bytes, the statements up to the one by which it ends, the tokens up to
/// the one that ends that statement, the lines up to there, what ends the part, and after how many
/// of its bytes.
#[derive(Drop)]
pub struct Part<'s, A: Allocator + Copy> {
    pub source: &'s [u8],
    pub tokens: Vec<Token, A>,
    pub statements: Vec<Statement, A>,
    pub lines: Vec<Line, A>,
    pub ending: Ending,
    pub stop: usize,
}

impl<'s, A: Allocator + Copy> Part<'s, A> {
    /// The bytes of a token, as a slice of the source. The token must stand within the part's
    /// bytes, as each of the part's own does.
    pub fn bytes(&self, token: Token) -> &'s [u8]
        requires { IsWithin (length self.now.source.now) token }
        ensures { result.now ≡ bytes_of self.now.source.now token }
    {
        &self.source[token.start..token.end]
    }

    /// The tokens of a statement: each of its tags and a comma, and then what it does. The
    /// statement must stand within the part's tokens, as each of the part's own does.
    pub fn tokens_of(&self, statement: Statement) -> &[Token]
        requires { IsPlaced self.now.tokens.items statement }
        ensures { result.now ≡ slice_range self.now.tokens.items statement.first statement.last }
    {
        &self.tokens[statement.first..statement.last]
    }

    /// The bytes of a line, as a slice of the source. The line must stand within the part's bytes,
    /// as each of the part's own does.
    pub fn line_bytes(&self, line: Line) -> &'s [u8]
        requires { IsLineWithin (length self.now.source.now) line }
        ensures { result.now ≡ slice_range self.now.source.now line.start line.end }
    {
        &self.source[line.start..line.end]
    }
}

/// Keeps a statement, its tokens and the one that ends it.
fn keep<A: Allocator>(
    tokens: &mut Vec<Token, A>,
    statements: &mut Vec<Statement, A>,
    own: &[Token],
    found: &DelimitedStatement,
) -> Result<(), AllocError>
    ensures tokens { OnOk result (tokens.new.items ≡ tokens.old.items ++ own.now ++
        found.now.mark ∷ []) }
    ensures statements { OnOk result (statements.new.items ≡ statements.old.items ++
        found.now.statement ∷ []) }
{
    tokens.extend_from_slice(own)?;
    tokens.push(found.mark)?;
    statements.push(found.statement)?;
    Ok(())
}

/// Gathers what a reader at the front of a part reads: each statement, its tokens and the one that
/// ends it, up to where the part ends.
fn gather<A: Allocator + Copy>(
    reader: &mut StatementReader<'_, A>,
    tokens: &mut Vec<Token, A>,
    statements: &mut Vec<Statement, A>,
) -> Result<PartEnd, StatementFault>
    requires front { (reader.old.count ≡ 0) × (reader.old.close ≡ None) }
    requires empty { (tokens.old.items ≡ []) × (statements.old.items ≡ []) }
    ensures closes { IfOk result (λ close. Stand (part_tokens reader.old.source)
        (length reader.old.source) (pieces 0 0 (part_tokens reader.old.source))
        statements.new.items close) }
    ensures stop { IfOk result (λ close. close.stop ≤ length reader.old.source) }
    ensures tokens { OnOk result (tokens.new.items ≡
        take (past 0 statements.new.items) (part_tokens reader.old.source)) }
    ensures placed { OnOk result (AllByRecursion (IsPlaced tokens.new.items)
        statements.new.items) }
    ensures fault { IfErr result (λ fault. IsFault reader.old.source (fault_of fault)) }
{
    loop {
        match reader.read_next()? {
            PartItem::Statement(found) => {
                if keep(tokens, statements, reader.tokens(), &found).is_err() {
                    return Err(StatementFault::NoMemory);
                }
            }
            PartItem::End(close) => return Ok(close),
        }
    }
}

/// Reads a part that is not too long.
fn read_part<'s, A: Allocator + Copy>(alloc: A, source: &'s [u8]) -> Result<Part<'s, A>, TextFault>
    requires { length source.now ≤ 65536 }
    ensures source { IfOk result (λ part. part.source.now ≡ source.now) }
    ensures part { IfOk result (λ part. IsPart source.now (tokens_in part) part.statements.items
        part.lines.items part.ending) }
    ensures lines { IfOk result (λ part. part.lines.items ≡ all_lines (take part.stop source.now)) }
    ensures tokens { IfOk result (λ part. part.tokens.items ≡
        take (past 0 part.statements.items) (part_tokens source.now)) }
    ensures placed { IfOk result (λ part. AllByRecursion (IsPlaced part.tokens.items)
        part.statements.items) }
    ensures stop { IfOk result (λ part. part.stop ≤ length source.now) }
    ensures closes { IfOk result (λ part. Stand (part_tokens source.now) (length source.now)
        (pieces 0 0 (part_tokens source.now)) part.statements.items
        (closed part.ending part.stop)) }
    ensures fault { IfErr result (IsFault source.now) }
{
    let mut reader = StatementReader::new(alloc, source);
    let mut tokens = Vec::new(alloc);
    let mut statements = Vec::new(alloc);
    let close = gather(&mut reader, &mut tokens, &mut statements)?;
    let Ok(lines) = lines_of(alloc, &source[..close.stop]) else {
        return Err(TextFault::NoMemory);
    };
    Ok(Part {
        source,
        tokens,
        statements,
        lines,
        ending: close.ending,
        stop: close.stop,
    })
}

/// Reads a part of a source: its statements up to `$`, PAUSE or its last byte. Where each of them
/// ends and what it may be, a `StatementReader` says.
///
/// # Errors
///
/// `TooLong` before anything else where the part has more than 65,536 bytes, `Illegal` with the
/// line of the first statement that has no form, and `NoMemory` where memory was refused.
pub fn statements<'s, A: Allocator + Copy>(
    alloc: A,
    source: &'s [u8],
) -> Result<Part<'s, A>, TextFault>
    ensures source { IfOk result (λ part. part.source.now ≡ source.now) }
    ensures part { IfOk result (λ part. IsPart source.now (tokens_in part) part.statements.items
        part.lines.items part.ending) }
    ensures lines { IfOk result (λ part. part.lines.items ≡ all_lines (take part.stop source.now)) }
    ensures tokens { IfOk result (λ part. part.tokens.items ≡
        take (past 0 part.statements.items) (tokens_in part)) }
    ensures stop { IfOk result (λ part. part.stop ≤ length source.now) }
    ensures closes { IfOk result (λ part. Stand (part_tokens source.now) (length source.now)
        (pieces 0 0 (part_tokens source.now)) part.statements.items
        (closed part.ending part.stop)) }
    ensures in_order { IfOk result (λ part. IsOrdered (length source.now)
        (reverse part.tokens.items)) }
    ensures within { IfOk result (λ part. AllByRecursion (IsWithin (length source.now))
        part.tokens.items) }
    ensures placed { IfOk result (λ part. AllByRecursion (IsPlaced part.tokens.items)
        part.statements.items) }
    ensures lines_within { IfOk result (λ part. AllByRecursion (IsLineWithin (length source.now))
        part.lines.items) }
    ensures too_long { (result ≡ Err TextFault.TooLong) ↔ (65536 < length source.now) }
    ensures part_told { (tokens : List Tokened) (told : List Stated) (lines : List Lined)
        (ending : Ended) → IsPart source.now tokens told lines ending →
        MatchResult result (λ part. (tokens_in part ≡ tokens) × (part.statements.items ≡ told) ×
        (part.lines.items ≡ lines) × (part.ending ≡ ending)) (λ fault.
        (fault ≡ TextFault.TooLong) ⊎ (fault ≡ TextFault.NoMemory)) }
    ensures illegal_told { (line : ℕ) → IsIllegal source.now line →
        MatchResult result (λ _. ⊥) (λ fault. (fault ≡ TextFault.Illegal line) ⊎
        ((fault ≡ TextFault.TooLong) ⊎ (fault ≡ TextFault.NoMemory))) }
    ensures illegal { (line : ℕ) → result ≡ Err (TextFault.Illegal line) →
        IsIllegal source.now line }
{
    if source.len() > LONGEST {
        return Err(TextFault::TooLong);
    }
    read_part(alloc, source)
}
