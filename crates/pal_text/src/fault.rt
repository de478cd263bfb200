//! Why a part is refused.

ghost use Rattle.std.specs.Prelude.{◌≡◌};
ghost use Rattle.pal_text.specs.Faults.{fault_of};

use thiserror::Error;

/// Why the next statement of a part is not read.
#[derive(Clone, Copy, PartialEq, Eq, Debug, Error)]
pub enum StatementFault {
    /// The statement is on this line, counted from 1, and has no form.
    #[error("Illegal {0}")]
    Illegal(usize),
    /// Memory was refused.
    #[error("NoMemory")]
    NoMemory,
}

/// Why a part is refused.
#[derive(Clone, Copy, PartialEq, Eq, Debug, Error)]
pub enum TextFault {
    /// The first statement that has no form is on this line, counted from 1.
    #[error("Illegal {0}")]
    Illegal(usize),
    /// The part has more than 65,536 bytes.
    #[error("TooLong")]
    TooLong,
    /// Memory was refused.
    #[error("NoMemory")]
    NoMemory,
}

impl From<StatementFault> for TextFault {
    ghost from_gives = { λ fault result. result ≡ fault_of fault };

    fn from(fault: StatementFault) -> TextFault {
        match fault {
            StatementFault::Illegal(line) => TextFault::Illegal(line),
            StatementFault::NoMemory => TextFault::NoMemory,
        }
    }
}
