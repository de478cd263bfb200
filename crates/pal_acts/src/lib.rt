//! What the acts of a PAL III source mean: its symbols and its image, or its first fault.
//!
//! A source is a list of acts, each with its place, in the order in which faults are looked for:
//! tags, origins, assignments, words, and what is wrong by itself. [`assemble`] gives the one
//! meaning of such a list with its words, or its one fault. How a text becomes acts is not looked at
//! here.
#![tactic(auto)]

pub mod act;
pub mod acts;
pub mod assembly;
pub mod fault_code;
pub mod permanent;
pub mod symbols;
mod words;

pub use act::{Act, ExpressionTerm, Name, PlacedWord, Sign, SignedTerm, SourcePlace};
pub use acts::{Acts, SourceAct};
pub use assembly::{ActsFault, Translation, assemble};
pub use fault_code::FaultCode;
pub use permanent::permanent_table;
pub use symbols::{SymbolTable, Symbols};
