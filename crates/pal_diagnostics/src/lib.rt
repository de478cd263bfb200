//! Messages about the faults of a source: for each of them the file, the line and the column, what is wrong, the line
//! with a mark below the token, and what to change. This is tested, not proved.
#![tactic(auto)]

mod assignments;
mod copies;
mod examination;
mod faults;
mod findings;
mod forms;
mod lines;
mod meanings;
mod pieces;
mod references;
mod statement;
mod symbols;

pub use faults::push_faults;
