//! Faults that calls of several crates answer.

use std::alloc::AllocError;
use thiserror::Error;

/// The memory that a call asked for was refused.
#[derive(Clone, Copy, PartialEq, Eq, Debug, Error)]
#[error("NoMemory")]
pub struct NoMemory;

impl From<AllocError> for NoMemory {
    fn from(_: AllocError) -> NoMemory {
        NoMemory
    }
}

/// A write of a text failed or took nothing.
#[derive(Clone, Copy, PartialEq, Eq, Debug, Error)]
#[error("WriteFault")]
pub struct WriteFault;
