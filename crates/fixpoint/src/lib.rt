//! The search for what is known at each address: on from the start by what each instruction makes of a fact, with sets that are
//! widened where they grow, until nothing grows. In the words of abstract interpretation what it ends at is a fixpoint. What
//! it finds is only a guess, which `judge` tests.
#![tactic(auto)]

mod certificates;
mod fault;
mod incoming_fact;
mod invariant;
mod joining;
mod needs;
mod of_sums;
mod outcomes;
mod program;
mod ranks;
mod search;
mod settings;
mod sums;
mod table;
mod text;
mod widening;
mod workspace;

pub use fault::SearchFault;
pub use of_sums::{Split, SumProgram, SumSearch};
pub use program::AnalysedProgram;
pub use search::Search;
pub use settings::{PATIENCES, Patience, SETTINGS, Settings};
