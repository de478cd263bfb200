//! What is said to people about inputs, verdicts and searches, beside the fixed lines.
#![tactic(auto)]

pub mod bounds;
pub mod inputs;
pub mod sums;
pub mod verdicts;
