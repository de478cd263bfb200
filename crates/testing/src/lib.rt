//! Doubles for tests: an allocator that refuses one request, and sources and sinks over memory that
//! can be made to fail.
#![tactic(auto)]

pub mod memory;
pub mod refusing;

pub use memory::{MemorySink, MemorySource};
pub use refusing::Refusing;
