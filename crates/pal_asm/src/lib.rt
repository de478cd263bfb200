//! The assembler: from the parts of a PAL III source to its image, its symbols and its listing.
//!
//! A source is a list of parts, and each part is a list of bytes. [`assemble`] gives what the
//! source means, or its one fault with the part and the line where it stands; [`translate`] does so
//! without the listing.
#![tactic(auto)]

mod expression;
pub mod fault;
pub mod laws;
mod listing;
pub mod number;
mod part_text;
pub mod program;
mod reading;
mod sizes;
mod statement;
pub mod translation;

pub use fault::{AssembleFault, PalFault};
pub use listing::{ProgramLine, push_characters};
pub use pal_acts::{FaultCode, SymbolTable};
pub use program::{Program, assemble};
pub use streams::WriteFault;
pub use translation::{Translation, translate};
