//! The commands that assemble and list a source, with a table of its symbols if that is requested, and the command that
//! writes a source for a tape.
#![tactic(auto)]

pub mod assembling;
pub mod cross;
mod crossing;
pub mod mentions;
mod sources;
pub mod sourcing;
