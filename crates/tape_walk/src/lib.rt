//! A walk over the words of a tape: where control goes from each of them, as far as the words alone tell.
//!
//! The writer of sources and the finder of declarations go through a program in the same way: from a cell to those to which its
//! word leads, counting by how far the running routine's return word was incremented on the way there, and noting which routines
//! return and in which cells the program stores. This crate has what both do. They differ in the order in which they go through
//! bodies, in what they take for code, and in what else they note; that is in their own crates.
#![tactic(auto)]

mod effect;
mod known;
mod points;
mod traversal;

pub use effect::{ControlEffect, MemoryReference};
pub use known::KnownCells;
pub use points::{PointSet, ProgramPoint};
pub use traversal::Traversal;
