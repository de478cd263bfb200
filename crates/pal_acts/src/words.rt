//! The word that an expression is.

ghost use Rattle.std.specs.Prelude.{◌≡◌};
ghost use Rattle.pal_acts.specs.Values.{has, term_value, known};
ghost use Rattle.pal_acts.specs.Words.{is_one_of, is_mark, references, marks, addressed, reference, word_value};
ghost use Rattle.pal_acts.specs.Steps.{marks_in};

use crate::act::{ExpressionTerm, Name, Sign, SignedTerm};
use crate::fault_code::FaultCode;
use crate::symbols::Symbols;
use std::alloc::Allocator;
use word12::Word;

/// The mark of an indirect reference.
const INDIRECT: Name = Name {
    letters: *b"I     ",
};

/// The mark of a reference to page zero.
const ZERO_PAGE: Name = Name {
    letters: *b"Z     ",
};

/// These six operations take an address.
const AND: Name = Name {
    letters: *b"AND   ",
};

const TAD: Name = Name {
    letters: *b"TAD   ",
};

const ISZ: Name = Name {
    letters: *b"ISZ   ",
};

const DCA: Name = Name {
    letters: *b"DCA   ",
};

const JMS: Name = Name {
    letters: *b"JMS   ",
};

const JMP: Name = Name {
    letters: *b"JMP   ",
};

/// What follows an operation that takes an address: I and Z, and then the address.
#[derive(Clone, Copy)]
struct AddressOperand<'t> {
    indirect: bool,
    zero: bool,
    address: &'t [SignedTerm],
}

/// Whether a name is that of an operation that takes an address. Its first letter leaves one that it
/// can be, or two.
#[inline(always)]
fn takes_address(name: Name) -> bool
    ensures { result ≡ has references name }
{
    match name.letters[0] {
        b'A' => name == AND,
        b'T' => name == TAD,
        b'I' => name == ISZ,
        b'D' => name == DCA,
        b'J' => name == JMS || name == JMP,
        _ => false,
    }
}

/// Whether a term begins an expression or follows a space, and is this symbol.
#[inline(always)]
fn is_mark(mark: Name, join: &SignedTerm) -> bool
    ensures { result ≡ is_mark mark join.now }
{
    match (join.sign, join.term) {
        (Sign::Or, ExpressionTerm::Symbol(name)) => name == mark,
        _ => false,
    }
}

#[inline(always)]
fn refers(join: &SignedTerm) -> bool
    ensures { result ≡ is_one_of references join.now.sign join.now.term }
{
    match (join.sign, join.term) {
        (Sign::Or, ExpressionTerm::Symbol(name)) => takes_address(name),
        _ => false,
    }
}

/// What follows an operation: I and Z, each at most once, and then the address.
#[inline(always)]
fn marks_of<'t>(joins: &'t [SignedTerm]) -> AddressOperand<'t>
    ensures { marks_in result ≡ marks joins.now }
{
    let mut found = AddressOperand {
        indirect: false,
        zero: false,
        address: joins,
    };
    while let [first, rest @ ..] = found.address {
        if !found.indirect && is_mark(INDIRECT, first) {
            found.indirect = true;
        } else if !found.zero && is_mark(ZERO_PAGE, first) {
            found.zero = true;
        } else {
            break;
        }
        found.address = rest;
    }
    found
}

/// An operation with the address that it refers to.
fn address_in(base: Word, zero: bool, here: Word, address: Word) -> Result<Word, FaultCode>
    ensures { result ≡ addressed base zero here address }
{
    if address.value() < 0o200 {
        Ok(base.or(address))
    } else if zero {
        Err(FaultCode::IllegalReference)
    } else if address.page() == here.page() {
        Ok(base.or(Word::from_index(0o200)).or(address.place()))
    } else {
        Err(FaultCode::IllegalReference)
    }
}

impl<'p, A: Allocator + Copy> Symbols<'p, A> {
    /// The word of an operation that takes an address, with what follows it.
    #[inline(always)]
    fn reference(
        &self,
        here: Word,
        operation: &ExpressionTerm,
        rest: &[SignedTerm],
    ) -> Result<Word, FaultCode>
        ensures { result ≡ reference (known self.now.permanent.now.entries self.now.own.entries)
            here (term_value (known self.now.permanent.now.entries self.now.own.entries) here
            operation.now) (marks rest.now) }
    {
        let Some(operation) = self.term(here, operation) else {
            return Err(FaultCode::Undefined);
        };
        let marks = marks_of(rest);
        let Some(address) = self.value(here, marks.address) else {
            return Err(FaultCode::Undefined);
        };
        let base = if marks.indirect {
            operation.or(Word::from_index(0o400))
        } else {
            operation
        };
        address_in(base, marks.zero, here, address)
    }

    /// The word that an expression is at a location.
    ///
    /// # Errors
    ///
    /// `Undefined` where a symbol has no value, and `IllegalReference` where an operation that takes
    /// an address cannot name the one that follows it.
    #[inline(always)]
    pub fn word(&self, here: Word, joins: &[SignedTerm]) -> Result<Word, FaultCode>
        ensures { result ≡ word_value (known self.now.permanent.now.entries self.now.own.entries)
            here joins.now }
    {
        match joins {
            [first, rest @ ..] if refers(first) => self.reference(here, &first.term, rest),
            _ => self.value(here, joins).ok_or(FaultCode::Undefined),
        }
    }
}
