//! Why a source is refused.

use pal_acts::FaultCode;
use thiserror::Error;

/// The fault of a source: its code, and the part and the line where it stands, counted from 1.
/// The faults of sizes stand at line 0, and that of the number of parts at part 0.
#[derive(Clone, Copy, PartialEq, Eq, Debug, Error)]
#[error("{code} {part} {line}")]
pub struct PalFault {
    pub code: FaultCode,
    pub part: usize,
    pub line: usize,
}

/// Why a source is refused.
#[derive(Clone, Copy, PartialEq, Eq, Debug, Error)]
pub enum AssembleFault {
    /// The source has a fault.
    #[error("{0}")]
    Source(PalFault),
    /// Memory was refused.
    #[error("NoMemory")]
    NoMemory,
}
