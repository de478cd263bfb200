//! The symbols of a source and their values.

ghost use Rattle.std.specs.Prelude.{◌≡◌, Ok, [], OnOk, IfErr};
ghost use Rattle.pal_acts.specs.Values.{known, term_value, value, joined};
ghost use Rattle.pal_acts.specs.Meaning.{location_after, given, taken};
ghost use Rattle.pal_acts.specs.Steps.{IsFault};

use crate::act::{Act, ExpressionTerm, Name, Sign, SignedTerm};
use crate::fault_code::FaultCode;
use indexmap::IndexMap;
use std::alloc::Allocator;
use std::hash::{BuildHasherDefault, FoldHasher};
use word12::Word;

/// How many symbols a source may have beside the permanent ones.
pub const MOST_SYMBOLS: usize = 1024;

/// Why an act is refused.
#[derive(Clone, Copy)]
pub(crate) enum Refusal {
    Fault(FaultCode),
    NoMemory,
}

/// Symbols with their values, in the order in which they were put in.
pub type SymbolTable<A> = IndexMap<Name, Word, BuildHasherDefault<FoldHasher>, A>;

fn join(sign: Sign, left: Word, right: Word) -> Word
    ensures { result ≡ joined sign left right }
{
    match sign {
        Sign::Plus => left.add(right),
        Sign::Minus => left.add(right.complement()).increment(),
        Sign::Or => left.or(right),
    }
}

/// The permanent symbols, and a source's own in the order of their definition.
#[derive(Drop)]
pub struct Symbols<'p, A: Allocator + Copy> {
    pub permanent: &'p SymbolTable<A>,
    pub own: SymbolTable<A>,
}

impl<'p, A: Allocator + Copy> Symbols<'p, A> {
    pub(crate) fn new(alloc: A, permanent: &'p SymbolTable<A>) -> Self
        ensures permanent { result.permanent.now.entries ≡ permanent.now.entries }
        ensures none { result.own.entries ≡ [] }
    {
        Symbols {
            permanent,
            own: IndexMap::new(alloc),
        }
    }

    /// The value of a symbol, if it has one; a permanent one keeps its own.
    #[inline(always)]
    pub fn get(&self, name: &Name) -> Option<Word>
        ensures { result ≡ known self.now.permanent.now.entries self.now.own.entries name.now }
    {
        match self.permanent.get(name) {
            Some(value) => Some(*value),
            None => self.own.get(name).copied(),
        }
    }

    /// The value of a term at a location, if it has one.
    #[inline(always)]
    pub(crate) fn term(&self, here: Word, term: &ExpressionTerm) -> Option<Word>
        ensures { result ≡ term_value (known self.now.permanent.now.entries self.now.own.entries)
            here term.now }
    {
        match term {
            ExpressionTerm::Number(word) => Some(*word),
            ExpressionTerm::Symbol(name) => self.get(name),
            ExpressionTerm::Here => Some(here),
        }
    }

    /// The value of an expression at a location; none if a symbol has none.
    #[inline(always)]
    pub fn value(&self, here: Word, joins: &[SignedTerm]) -> Option<Word>
        ensures { result ≡ value (known self.now.permanent.now.entries self.now.own.entries) here
            joins.now }
    {
        let mut sum = Word::ZERO;
        for item in joins {
            sum = join(item.sign, sum, self.term(here, &item.term)?);
        }
        Some(sum)
    }

    /// Gives a name a value. If it has another, that is the fault `other`.
    #[inline(always)]
    fn give(&mut self, name: Name, value: Word, other: FaultCode) -> Result<(), Refusal>
        ensures given { OnOk result (given other 1024 self.old.own.entries name
            (known self.old.permanent.now.entries self.old.own.entries name) value ≡
            Ok self.new.own.entries) }
        ensures refused { IfErr result (IsFault (given other 1024 self.old.own.entries name
            (known self.old.permanent.now.entries self.old.own.entries name) value)) }
        ensures permanent { self.new.permanent ≡ self.old.permanent }
    {
        match self.get(&name) {
            Some(old) => {
                if old == value {
                    Ok(())
                } else {
                    Err(Refusal::Fault(other))
                }
            }
            None => {
                if self.own.len() >= MOST_SYMBOLS {
                    return Err(Refusal::Fault(FaultCode::TableFull));
                }
                match self.own.insert(name, value) {
                    Ok(_) => Ok(()),
                    Err(_) => Err(Refusal::NoMemory),
                }
            }
        }
    }

    /// Takes the next act, at the current location; its word is not looked at.
    pub(crate) fn act(
        &mut self,
        here: &mut Word,
        act: Act,
        terms: &[SignedTerm],
    ) -> Result<(), Refusal>
        ensures taken { OnOk result (taken self.old.permanent.now.entries 1024
            self.old.own.entries here.old terms.now act ≡ Ok self.new.own.entries) }
        ensures location { OnOk result (here.new ≡ location_after
            (known self.old.permanent.now.entries self.old.own.entries) here.old terms.now act) }
        ensures refused { IfErr result (IsFault (taken self.old.permanent.now.entries 1024
            self.old.own.entries here.old terms.now act)) }
        ensures permanent { self.new.permanent ≡ self.old.permanent }
    {
        match act {
            Act::Wrong(code) => Err(Refusal::Fault(code)),
            Act::LastPause => Err(Refusal::Fault(FaultCode::PauseInLastPart)),
            Act::Tag(name) => self.give(name, *here, FaultCode::DuplicateTag),
            Act::Origin => match self.value(*here, terms) {
                Some(origin) => {
                    *here = origin;
                    Ok(())
                }
                None => Err(Refusal::Fault(FaultCode::Undefined)),
            },
            Act::Assign(name) => match self.value(*here, terms) {
                Some(value) => self.give(name, value, FaultCode::Redefined),
                None => Err(Refusal::Fault(FaultCode::Undefined)),
            },
            Act::AssignDirection => match self.value(*here, terms) {
                Some(_) => Err(Refusal::Fault(FaultCode::Redefined)),
                None => Err(Refusal::Fault(FaultCode::Undefined)),
            },
            Act::Word => {
                *here = here.increment();
                Ok(())
            }
        }
    }
}
