//! The faults of a source.

use thiserror::Error;

/// A fault of a source, by its code.
#[derive(Clone, Copy, PartialEq, Eq, Debug, Error)]
pub enum FaultCode {
    /// An illegal character, or a place where the grammar has none for what stands there.
    #[error("IC")]
    IllegalCharacter,
    /// An assignment of another value to a symbol that has one.
    #[error("RD")]
    Redefined,
    /// A tag whose symbol has another value.
    #[error("DT")]
    DuplicateTag,
    /// A symbol that has no value.
    #[error("UA")]
    Undefined,
    /// A reference to an address that the word cannot name.
    #[error("IR")]
    IllegalReference,
    /// A 1,025th symbol of the user.
    #[error("ST")]
    TableFull,
    /// A number above 4095.
    #[error("NB")]
    NumberTooLarge,
    /// PAUSE in the last part.
    #[error("PA")]
    PauseInLastPart,
    /// A part of more than 65,536 bytes, or a number of parts outside 1 to 16.
    #[error("TL")]
    TooLong,
}
