//! The statements of a part, read one after another.

ghost use Rattle.std.specs.Prelude.{◌≡◌, ◌≢◌, ◌≤◌, ◌<◌, ◌+◌, length, Ok, Some, None, IfOk, OnOk, IfErr, []};
ghost use Rattle.std.specs.List.{AllByRecursion};
ghost use Rattle.pal_text.specs.Names.{IsWithin};
ghost use Rattle.pal_text.specs.Adding.{tokens};
ghost use Rattle.pal_text.specs.Scan.{front, next_place, IsPlaceIn, stands_by, StandsAt};
ghost use Rattle.pal_text.specs.Progress.{ended_at};
ghost use Rattle.pal_text.specs.Readers.{rest, IsNext, Finds, StopsAt, BreaksNext};
ghost use Rattle.pal_text.specs.declared.statement.PartEnd.{PartEnd as Closed};
ghost use Rattle.pal_text.specs.declared.reader.PartItem.TheVariants.{End};

use crate::fault::StatementFault;
use crate::grammar::shape_of;
use crate::names::name_tokens;
use crate::scan::{Place, drop_space, mark_at, place_after, read_own};
use crate::statement::{PartEnd, Statement, close_of};
use crate::tokens::Token;
use std::alloc::Allocator;
use std::marker::Model;

/// A statement that was read, and the token that ends it.
#[derive(Clone, Copy)]
pub struct DelimitedStatement {
    pub statement: Statement,
    pub mark: Token,
}

/// What comes next in a part.
#[derive(Clone, Copy)]
pub enum PartItem {
    /// A statement.
    Statement(DelimitedStatement),
    /// No statement: the part has ended so.
    End(PartEnd),
}

/// Where a reader stands: where the next statement begins, or how the part has ended.
#[derive(Clone, Copy)]
enum ReaderState {
    Begins(Place),
    Ended(PartEnd),
}

/// A statement that was read, and where the reader stands after it.
#[derive(Clone, Copy)]
struct Step {
    found: DelimitedStatement,
    next: ReaderState,
}

/// Where a reader stands after a statement that ends on this line, at this place, and by which the
/// part ends so, if it does.
fn standing_after(source: &[u8], close: Option<PartEnd>, line: usize, at: usize) -> ReaderState
    requires inside { close ≡ None → at < length source.now }
    requires small { line ≤ 65536 + 1 }
    ensures { result ≡ stands_by close (next_place source.now line at) }
{
    match close {
        Some(close) => ReaderState::Ended(close),
        None => ReaderState::Begins(place_after(source, line, at)),
    }
}

/// Reads the statement at a place, before which so many tokens stand.
fn read_statement<A: Allocator>(
    source: &[u8],
    place: &Place,
    count: usize,
    own: &mut Vec<Token, A>,
) -> Result<Step, StatementFault>
    requires size { length source.now ≤ 65536 }
    requires place { IsPlaceIn source.now place.now }
    requires count { count ≡ length (tokens (front source.now place.now.at)) }
    requires empty { own.old.items ≡ [] }
    ensures found { IfOk result (λ step. IsNext source.now count step.found own.new.items
        (step.found.statement.last + 1) (ended_at step.next)) }
    ensures standing { IfOk result (λ step. StandsAt source.now (step.found.statement.last + 1)
        step.next) }
    ensures within { OnOk result (AllByRecursion (IsWithin (length source.now)) own.new.items) }
    ensures small { IfOk result (λ step. step.found.statement.last ≤ 65536) }
    ensures fault { IfErr result (StopsAt source.now count) }
{
    let Ok(stop) = read_own(source, place, own) else {
        return Err(StatementFault::NoMemory);
    };
    drop_space(own);
    name_tokens(source, own);
    let mark = mark_at(source, place.line, stop);
    let Some(shape) = shape_of(own) else {
        return Err(StatementFault::Illegal(mark.line));
    };
    let last = count + own.len();
    let statement = Statement {
        line: mark.line,
        first: count,
        last,
        tags: shape.tags,
        form: shape.form,
    };
    let close = close_of(source.len(), own, mark, shape.form);
    let next = standing_after(source, close, place.line, stop);
    Ok(Step {
        found: DelimitedStatement { statement, mark },
        next,
    })
}

/// A reader of the statements of a part, one after another. A statement goes up to `;`, `$`, the
/// end of a line or of the part; from `/` up to the end of the line stands a comment. It is tags,
/// each a name and a comma, and then what a `Form` names. The part ends after the statement PAUSE,
/// after `$` or at its last byte. The reader holds the tokens of one statement at a time, and goes
/// over the bytes once.
#[derive(Drop)]
pub struct StatementReader<'s, A: Allocator + Copy> {
    source: &'s [u8],
    standing: ReaderState,
    count: usize,
    tokens: Vec<Token, A>,
}

impl<'s, A: Allocator + Copy> Model for StatementReader<'s, A> {
    ghost use Rattle.std.specs.Prelude.{length, ◌≤◌};
    ghost use Rattle.pal_text.specs.Progress.{Progress, ended_at};

    ghost Value = { Progress };

    ghost use Rattle.pal_text.specs.Scan.{StandsAt};

    ghost view = { λ reader. record {
      source = reader.source.now;
      count = reader.count;
      own = reader.tokens.items;
      close = ended_at reader.standing;
    } };

    // The next statement begins after as many tokens as were counted.
    ghost invariant = { λ reader. (length reader.source.now ≤ 65536) ×
        StandsAt reader.source.now reader.count reader.standing };
}

impl<'s, A: Allocator + Copy> StatementReader<'s, A> {
    /// A reader at the front of a part, which must have at most 65,536 bytes.
    pub fn new(alloc: A, source: &'s [u8]) -> Self
        requires { length source.now ≤ 65536 }
        ensures source { result.source ≡ source.now }
        ensures count { result.count ≡ 0 }
        ensures own { result.own ≡ [] }
        ensures close { result.close ≡ None }
    {
        StatementReader {
            source,
            standing: ReaderState::Begins(Place {
                at: 0,
                line: 1,
                returned: false,
            }),
            count: 0,
            tokens: Vec::new(alloc),
        }
    }

    /// The tokens of the statement that was read last, without the one that ends it. There are
    /// none before the first read, after a fault, and where there was no statement left.
    pub fn tokens(&self) -> &[Token]
        ensures { result.now ≡ self.now.own }
    {
        &self.tokens
    }

    /// Reads the next statement, or tells how the part has ended, however often it is asked.
    ///
    /// # Errors
    ///
    /// `Illegal` with the line of the next statement where that has no form, and `NoMemory` where
    /// memory was refused, which is wanted only if the statement has a token. The next read then
    /// begins at the same statement.
    pub fn read_next(&mut self) -> Result<PartItem, StatementFault>
        ensures source { self.new.source ≡ self.old.source }
        ensures found { IfOk result (λ next. Finds self.old next self.new) }
        // Where the part has ended it says so, and nothing else, so also whenever it is asked again,
        ensures over { (close : Closed) → self.old.close ≡ Some close → result ≡ Ok (End close) }
        // and where it has not, a statement is left or a fault.
        ensures open { self.old.close ≡ None → rest self.old.source self.old.count ≢ [] }
        ensures within { OnOk result (AllByRecursion (IsWithin (length self.old.source))
            self.new.own) }
        ensures fault { IfErr result (BreaksNext self.old) }
        ensures stays { IfErr result (λ _. (self.new.count ≡ self.old.count) ×
            (self.new.close ≡ self.old.close)) }
        ensures cleared { IfErr result (λ _. self.new.own ≡ []) }
    {
        self.tokens.clear();
        let place = match self.standing {
            ReaderState::Begins(place) => place,
            ReaderState::Ended(close) => return Ok(PartItem::End(close)),
        };
        match read_statement(self.source, &place, self.count, &mut self.tokens) {
            Ok(step) => {
                self.standing = step.next;
                self.count = step.found.statement.last + 1;
                Ok(PartItem::Statement(step.found))
            }
            Err(fault) => {
                self.tokens.clear();
                Err(fault)
            }
        }
    }
}
