//! Declarations with the symbols of a source: their places in numbers, declarations in numbers with
//! symbols, and the lines of a declaration that stand within a source.
#![tactic(auto)]

pub mod address;
pub mod fault;
pub mod laws;
mod located;
pub mod naming;
pub mod placing;
pub mod program;
pub mod tags;
pub mod within;

pub use fault::PlaceFault;
pub use naming::name_declaration;
pub use placing::place;
pub use program::{NumberedProgram, NumberingFault, number};
pub use tags::Tags;
pub use within::{declaration_within, declared_lines, machine_of};
