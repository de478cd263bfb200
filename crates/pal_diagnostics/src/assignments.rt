//! What is wrong when a symbol is given a value.

use crate::examination::Examination;
use crate::findings::Finding;
use crate::lines::{Written, count_characters, push_characters};
use crate::meanings::Occurrence;
use crate::pieces::{bytes_of, name_of};
use crate::symbols::letters_of;
use pal_acts::Name;
use pal_text::{Token, TokenKind};
use std::alloc::{AllocError, Allocator};
use word12::Word;

/// The directive that a name stands for, if it stands for one.
fn direction_of(name: &Name) -> Option<&'static str> {
    match name.kind() {
        TokenKind::Decimal => Some("DECIMAL"),
        TokenKind::Octal => Some("OCTAL"),
        TokenKind::Pause => Some("PAUSE"),
        _ => None,
    }
}

impl<A: Allocator + Copy> Examination<'_, A> {
    /// Adds what to do about a symbol that is given another value; `one` is where it got its first value, and `other`
    /// where it is given the second.
    fn push_other_advice(
        &self,
        text: &mut String<A>,
        one: Occurrence,
        other: Occurrence,
    ) -> Written {
        let (first, second) = (self.written(one), self.written(other));
        if first == second {
            text.push_str("it got that value on ")?;
            self.push_line_of(text, one)?;
            return text.push_str(
                "; a symbol has only one value in the whole source: use another symbol",
            );
        }
        let name = Name::new(first);
        let letters = letters_of(&name);
        text.push_str("only the first six characters of a symbol count, so ")?;
        push_characters(text, first)?;
        text.push_str(" and ")?;
        push_characters(text, second)?;
        write!(text, " are both {letters}, defined on ")?;
        self.push_line_of(text, one)?;
        text.push_str(": use symbols that differ in the first six")
    }

    /// The finding about a symbol that has the value `had` and is given another one, `value`.
    fn about_other_value(
        &self,
        token: Token,
        had: Word,
        value: Word,
    ) -> Result<Finding<A>, AllocError> {
        let mut found = self.finding(token, "", "")?;
        match self.before.occurrence(&name_of(self.bytes(), token)) {
            Some(first) => {
                write!(
                    found.wrong,
                    " already has the value {had}, and would be {value} here"
                )?;
                self.push_other_advice(&mut found.advice, first, self.occurrence(token))?;
            }
            None => {
                write!(
                    found.wrong,
                    " is a permanent symbol with the value {had}, and would be {value} here"
                )?;
                found.advice.push_str("use another symbol")?;
            }
        }
        Ok(found)
    }

    /// The finding about DECIMAL, OCTAL or PAUSE in a place where a symbol is given a value.
    fn about_direction(
        &self,
        token: Token,
        direction: &'static str,
    ) -> Result<Finding<A>, AllocError> {
        let mut found = self.finding(token, " cannot be a symbol", "")?;
        if count_characters(bytes_of(self.bytes(), token)) > direction.len() {
            write!(
                found.advice,
                "only the first six characters of a symbol count, so this one is the same as {direction}: "
            )?;
        }
        found.advice.push_str("use another symbol")?;
        Ok(found)
    }

    /// The finding about a symbol that is given this value, if it cannot be.
    fn about_given(&self, token: Token, value: Word) -> Result<Option<Finding<A>>, AllocError> {
        let name = name_of(self.bytes(), token);
        if let Some(direction) = direction_of(&name) {
            return Ok(Some(self.about_direction(token, direction)?));
        }
        match self.before.symbols.get(&name) {
            Some(had) if had != value => Ok(Some(self.about_other_value(token, had, value)?)),
            _ => Ok(None),
        }
    }

    /// The finding about the first tag of the statement whose symbol has another value.
    pub(crate) fn about_tags(&self) -> Result<Option<Finding<A>>, AllocError> {
        for token in self.faulty.tags() {
            if token.kind == TokenKind::Symbol {
                let found = self.about_given(*token, self.before.here)?;
                if found.is_some() {
                    return Ok(found);
                }
            }
        }
        Ok(None)
    }

    /// The finding about an assignment to a symbol that has another value.
    pub(crate) fn about_assignment(&self) -> Result<Option<Finding<A>>, AllocError> {
        let [token, ..] = self.faulty.body() else {
            return Ok(None);
        };
        match self
            .before
            .value(self.alloc, self.bytes(), self.faulty.operand())?
        {
            Some(value) => self.about_given(*token, value),
            None => Ok(None),
        }
    }

    /// The finding about the first symbol of the statement that the table has no room for: the first beyond the limit of
    /// 1024.
    pub(crate) fn about_room(&self) -> Result<Option<Finding<A>>, AllocError> {
        for token in &self.faulty.tokens {
            let name = name_of(self.bytes(), *token);
            if token.kind == TokenKind::Symbol && self.before.symbols.get(&name).is_none() {
                return Ok(Some(self.finding(
                    *token,
                    " would be the 1025th symbol",
                    "a source has at most 1024 symbols of its own: refer to nearby cells with .+1 or .-1",
                )?));
            }
        }
        Ok(None)
    }
}
