//! Transfer functions: what the operations of a word make of a fact, and the outcomes of a word.
#![tactic(auto)]

mod additions;
mod carrying;
mod fact_sizes;
mod operations;
mod outcomes;
mod sets;
mod skipping;
mod stores;

pub use additions::{put_added, put_added_under};
pub use fact_sizes::{NextFact, SteppedFact, TestedFact};
pub use operations::{put_all_operated, put_branch, put_operated_under};
pub use outcomes::{FactOutcome, OutcomeKind, Outcomes, is_alive};
pub use sets::{has_some, named_if, put_one, single_target, word_of};
pub use stores::{put_begun_longer, put_copied, put_stored};
