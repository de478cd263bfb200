//! How control goes through the program of a tape, from its words and from runs: what its routines are, where their bodies end,
//! and which cells it may change; and the text of a declaration that says so. Nothing is promised of what is found here:
//! who reads the text judges it.
#![tactic(auto)]

mod body;
mod exploration;
mod map;
mod steps;
mod tape;
mod text;
mod trials;
mod variables;

pub use exploration::{Findings, explore_runs};
pub use map::Map;
pub use tape::Tape;
pub use text::{
    CommentedTape, above_seven, push_cells, push_cells_ending, push_low_offsets, push_reads,
    push_skips,
};
pub use variables::VariableSelection;

/// The runs in which it was seen what a program does.
#[derive(Clone, Copy, PartialEq, Eq, Debug)]
pub struct ObservedRuns {
    /// How many there were.
    pub runs: u32,
    /// How many steps they made in all.
    pub steps: u32,
}
