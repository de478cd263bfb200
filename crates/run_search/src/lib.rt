//! A search for a run that violates a declaration.
//!
//! An operator by chance gives what a program asks for, and the machine is watched, until a step violates
//! a rule. Nothing is promised of what is found: who uses it watches it once more.
#![tactic(auto)]

mod assertions;
mod bits;
mod candidates;
mod corpus;
mod coverage;
mod dictionary;
mod failed_tests;
mod feedback;
mod hints;
mod input_request;
mod plan;
mod planning;
mod random;
mod record;
mod running;
mod script;
mod search;
mod shorten;
mod stepping;
mod timing;

pub use record::{Record, StepRecord};
pub use search::{ActiveRun, DeclaredProgram, RunSearch};
