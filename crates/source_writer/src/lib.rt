//! The writer of sources: from the image of a tape to a PAL III source that means exactly that image.
//!
//! [`source_of`] and [`declared_source_of`] write what a reader wants to see, have the assembler read it
//! back, and give it only if it means the image.
#![tactic(auto)]

mod choice;
mod outline;
mod pretty;
mod promise;
mod reach;
mod remark;
mod statement;

pub use choice::{declared_source_of, source_of};
