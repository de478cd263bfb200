//! What a source is made of.

use crate::fault_code::FaultCode;
pub use pal_text::Name;
use word12::Word;

/// How a term joins what comes before it.
#[derive(Clone, Copy)]
pub enum Sign {
    /// The sum, modulo 4096.
    Plus,
    /// The difference, modulo 4096.
    Minus,
    /// The bitwise inclusive or, as a space says it. An unsigned first term is joined so to 0.
    Or,
}

/// A term of an expression.
#[derive(Clone, Copy)]
pub enum ExpressionTerm {
    /// A number.
    Number(Word),
    /// A symbol, by its name.
    Symbol(Name),
    /// The current location.
    Here,
}

/// A term, and how it joins what comes before it; an expression is a list of these.
#[derive(Clone, Copy)]
pub struct SignedTerm {
    pub sign: Sign,
    pub term: ExpressionTerm,
}

/// One thing that a source does. The terms of its expression stand beside it.
#[derive(Clone, Copy)]
pub enum Act {
    /// It is wrong by itself: a form, a digit, a number, or DECIMAL, OCTAL or PAUSE as a tag.
    Wrong(FaultCode),
    /// `symbol,`: the symbol gets the current location.
    Tag(Name),
    /// `*e`: the location becomes the value of the expression.
    Origin,
    /// `symbol=e`: the symbol gets the value of the expression.
    Assign(Name),
    /// `DECIMAL=e`, `OCTAL=e` or `PAUSE=e`: these cannot be given a value, which is told after the
    /// symbols of the expression were looked at.
    AssignDirection,
    /// A word, which goes to the current location.
    Word,
    /// The last part ends by PAUSE.
    LastPause,
}

/// The part and the line where something stands, counted from 1.
#[derive(Clone, Copy, PartialEq, Eq, Debug)]
pub struct SourcePlace {
    pub part: usize,
    pub line: usize,
}

/// A word that a source puts into memory: where its statement stands, its address and its value.
#[derive(Clone, Copy, PartialEq, Eq, Debug)]
pub struct PlacedWord {
    pub place: SourcePlace,
    pub at: Word,
    pub word: Word,
}
