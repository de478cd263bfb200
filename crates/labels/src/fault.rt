//! Why a declaration with symbols has none in numbers.

ghost use Rattle.std.specs.Prelude.{◌≡◌};
ghost use Rattle.labels.specs.Lines.{fault_at};

use std::alloc::AllocError;
use thiserror::Error;

/// Why a declaration with symbols has none in numbers. The lines count from 1.
#[derive(Clone, Copy, PartialEq, Eq, Debug, Error)]
pub enum PlaceFault {
    /// A word with a capital letter on this line is neither an address nor a range.
    #[error("BadLine {0}")]
    BadLine(usize),
    /// The source does not define a symbol on this line.
    #[error("NoSymbol {0}")]
    NoSymbol(usize),
    /// An address on this line is below 0000 or above 7777.
    #[error("PastMemory {0}")]
    PastMemory(usize),
    /// A range on this line ends below its first address.
    #[error("Backwards {0}")]
    Backwards(usize),
    /// The text has more than 16,384 bytes.
    #[error("TooMany")]
    TooMany,
    /// Memory was refused.
    #[error("NoMemory")]
    NoMemory,
}

/// Why a word is neither an address nor a range.
#[derive(Clone, Copy, PartialEq, Eq, Debug)]
pub enum AddressFault {
    /// It is neither an address nor a range.
    Form,
    /// The source does not define the symbol.
    Symbol,
    /// An address is below 0000 or above 7777.
    Memory,
    /// A range ends below its first address.
    Order,
}

impl AddressFault {
    /// A flaw as the fault of a line.
    pub(crate) fn on_line(self, number: usize) -> PlaceFault
        ensures { result ≡ fault_at number self }
    {
        match self {
            AddressFault::Form => PlaceFault::BadLine(number),
            AddressFault::Symbol => PlaceFault::NoSymbol(number),
            AddressFault::Memory => PlaceFault::PastMemory(number),
            AddressFault::Order => PlaceFault::Backwards(number),
        }
    }
}

impl From<AllocError> for PlaceFault {
    ghost use Rattle.labels.specs.declared.fault.PlaceFault.TheVariants.{NoMemory};

    ghost from_gives = { λ _ result. result ≡ NoMemory };

    fn from(_: AllocError) -> PlaceFault {
        PlaceFault::NoMemory
    }
}
