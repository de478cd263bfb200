//! The search by the rules of sums: for facts that certificates of version 3 can say, several of them at an address where they
//! are distinguished.

mod candidates;
mod invariants;
mod merging;
mod program;
mod returning;
mod search;
mod splits;
mod steps;
mod tested_links;
mod workspace;

pub use program::SumProgram;
pub use search::SumSearch;
pub use splits::Split;
