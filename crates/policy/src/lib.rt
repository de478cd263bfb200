//! Declarations: what a program promises of its runs, the rules that follow, and the safe programs.
#![tactic(auto)]

pub mod laws;
mod legality;
mod rules;
mod runs;
mod watcher;

pub use declaration::{Declaration, DeclarationFault, Offsets, Owner, Routine};
pub use legality::{Call, legal_instruction};
pub use rules::Rule;
pub use runs::run_declared;
pub use watcher::{Watched, Watcher, follow_calls, watch};
