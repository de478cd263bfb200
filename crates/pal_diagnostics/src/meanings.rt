//! The values of symbols, and where they got them.

use crate::pieces::{bytes_of, name_of, tokens_from};
use indexmap::IndexMap;
use pal_acts::{
    ExpressionTerm, FaultCode, Name, Sign, SignedTerm, SourcePlace, SymbolTable, Symbols,
};
use pal_text::{Ending, Form, TextFault, Token, TokenKind, statements};
use std::alloc::{AllocError, Allocator};
use word12::Word;

/// Where a symbol occurs: the number of its part, counted from 0, and its token.
#[derive(Clone, Copy)]
pub(crate) struct Occurrence {
    pub(crate) part: usize,
    pub(crate) token: Token,
}

/// What is known before a statement: the symbols with their values, where each of the source's own symbols got its
/// value, the location, and whether numbers are decimal.
#[derive(Drop)]
pub(crate) struct Meanings<'p, A: Allocator + Copy> {
    pub(crate) symbols: Symbols<'p, A>,
    pub(crate) occurrences: Vec<Occurrence, A>,
    pub(crate) here: Word,
    pub(crate) is_decimal: bool,
}

/// A place after all statements.
pub(crate) const NOWHERE: SourcePlace = SourcePlace {
    part: usize::MAX,
    line: 0,
};

/// The word that these digits stand for.
///
/// # Errors
///
/// `IllegalCharacter` if a digit is not one of the radix, and otherwise `NumberTooLarge` if the number is above 4095.
pub(crate) fn number_of(is_decimal: bool, digits: &[u8]) -> Result<Word, FaultCode> {
    let base = if is_decimal { 10 } else { 8 };
    let mut value = 0usize;
    for byte in digits {
        let code = *byte % 0o200;
        if code.is_ascii_digit() {
            let digit = usize::from(code.saturating_sub(b'0'));
            if digit >= base {
                return Err(FaultCode::IllegalCharacter);
            }
            value = value.saturating_mul(base).saturating_add(digit);
        }
    }
    if value < 4096 {
        Ok(Word::from_index(value))
    } else {
        Err(FaultCode::NumberTooLarge)
    }
}

/// The term of a token.
fn term_of(is_decimal: bool, bytes: &[u8], token: Token) -> ExpressionTerm {
    match token.kind {
        TokenKind::Number => ExpressionTerm::Number(number_of(
            is_decimal,
            bytes_of(bytes, token),
        ).unwrap_or(Word::ZERO)),
        TokenKind::Here => ExpressionTerm::Here,
        _ => ExpressionTerm::Symbol(name_of(bytes, token)),
    }
}

/// The terms of an expression. A number that is not valid counts as 0.
pub(crate) fn terms_of<A: Allocator>(
    alloc: A,
    is_decimal: bool,
    bytes: &[u8],
    tokens: &[Token],
) -> Result<Vec<SignedTerm, A>, AllocError> {
    let mut terms = Vec::new(alloc);
    let mut sign = Sign::Or;
    for token in tokens {
        match token.kind {
            TokenKind::Plus => sign = Sign::Plus,
            TokenKind::Minus => sign = Sign::Minus,
            TokenKind::Space => sign = Sign::Or,
            _ => {
                let term = term_of(is_decimal, bytes, *token);
                terms.push(SignedTerm { sign, term })?;
                sign = Sign::Or;
            }
        }
    }
    Ok(terms)
}

impl<'p, A: Allocator + Copy> Meanings<'p, A> {
    /// What is known before the first statement.
    fn new(alloc: A, permanent: &'p SymbolTable<A>) -> Self {
        Meanings {
            symbols: Symbols {
                permanent,
                own: IndexMap::new(alloc),
            },
            occurrences: Vec::new(alloc),
            here: Word::from_index(0o200),
            is_decimal: false,
        }
    }

    /// Where a symbol of the source's own got its value.
    pub(crate) fn occurrence(&self, name: &Name) -> Option<Occurrence> {
        let index = self.symbols.own.get_index_of(name)?;
        self.occurrences.get(index).copied()
    }

    /// The value of an expression, if each symbol in it has one.
    pub(crate) fn value<B: Allocator>(
        &self,
        alloc: B,
        bytes: &[u8],
        tokens: &[Token],
    ) -> Result<Option<Word>, AllocError> {
        let terms = terms_of(alloc, self.is_decimal, bytes, tokens)?;
        Ok(self.symbols.value(self.here, &terms))
    }

    /// Gives the symbol of a token a value, if it has none.
    fn define(
        &mut self,
        bytes: &[u8],
        occurrence: Occurrence,
        value: Word,
    ) -> Result<(), AllocError> {
        let name = name_of(bytes, occurrence.token);
        if self.symbols.get(&name).is_none() {
            self.symbols.own.insert(name, value)?;
            self.occurrences.push(occurrence)?;
        }
        Ok(())
    }

    /// Applies the tags of a statement: they define their symbols.
    fn take_tags(&mut self, part: usize, bytes: &[u8], tags: &[Token]) -> Result<(), AllocError> {
        let here = self.here;
        for token in tags {
            if token.kind == TokenKind::Symbol {
                let token = *token;
                self.define(bytes, Occurrence { part, token }, here)?;
            }
        }
        Ok(())
    }

    /// Applies what a statement does after its tags.
    fn take_body<B: Allocator>(
        &mut self,
        alloc: B,
        part: usize,
        bytes: &[u8],
        body: &[Token],
        form: Form,
    ) -> Result<(), AllocError> {
        match (form, body) {
            (Form::Origin, [_, operand @ ..]) => {
                if let Some(origin) = self.value(alloc, bytes, operand)? {
                    self.here = origin;
                }
            }
            (Form::Assign, [token, _, operand @ ..]) => {
                if let Some(value) = self.value(alloc, bytes, operand)? {
                    let token = *token;
                    self.define(bytes, Occurrence { part, token }, value)?;
                }
            }
            (Form::Word, _) => self.here = self.here.increment(),
            (Form::Decimal, _) => self.is_decimal = true,
            (Form::Octal, _) => self.is_decimal = false,
            _ => {}
        }
        Ok(())
    }

    /// Applies the statements of a part, up to the one at this place, and returns whether the next part is to be read.
    fn take_part(
        &mut self,
        alloc: A,
        part: usize,
        bytes: &[u8],
        stop: SourcePlace,
    ) -> Result<bool, AllocError> {
        let read = match statements(alloc, bytes) {
            Ok(read) => read,
            Err(TextFault::NoMemory) => return Err(AllocError),
            Err(_) => return Ok(false),
        };
        for statement in &read.statements {
            if stop.part == part.saturating_add(1) && stop.line == statement.line {
                return Ok(false);
            }
            let tokens = tokens_from(&read.tokens, statement.first);
            let count = statement.last.saturating_sub(statement.first);
            let own = tokens.get(..count).unwrap_or(tokens);
            let tags = statement.tags.saturating_mul(2).min(own.len());
            let (tags, body) = own.split_at(tags);
            self.take_tags(part, bytes, tags)?;
            self.take_body(alloc, part, bytes, body, statement.form)?;
        }
        Ok(read.ending != Ending::Dollar)
    }
}

/// What is known before the statement at this place, which is the place of a fault: a part and a line of its copy, both
/// counted from 1.
pub(crate) fn meanings_before<'p, A: Allocator + Copy>(
    alloc: A,
    permanent: &'p SymbolTable<A>,
    copies: &[Vec<u8, A>],
    stop: SourcePlace,
) -> Result<Meanings<'p, A>, AllocError> {
    let mut meanings = Meanings::new(alloc, permanent);
    for (part, copy) in copies.iter().enumerate() {
        if !meanings.take_part(alloc, part, copy, stop)? {
            break;
        }
    }
    Ok(meanings)
}
