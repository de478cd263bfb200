//! Why a condition on a certificate fails: the cell, the word, the set, the link, the sum, the chain, the
//! rank, the site or the offset that breaks it. What is told is tested and not proved, and no verdict rests on it.
#![tactic(auto)]

mod calls;
mod counterexample;
mod entries;
mod filter;
mod landing;
mod lines;
mod outcomes;
mod reason;
mod returns;
mod start;
mod stuck;
mod violation;
mod words;
mod workspace;

pub use counterexample::Counterexample;
pub use reason::{Reason, why};
pub use stuck::why_stuck;
pub use violation::{CallViolation, LandingFailure, ReturnViolation, Violation};
pub use workspace::ReasonWorkspace;
