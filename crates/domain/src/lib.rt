//! Facts: what is known of a running program whenever the program counter is at an address. In the words of abstract
//! interpretation this is the domain: sets of words, relations between sums of words, chains, the sites of calls, and offsets of a return word.
#![tactic(auto)]

mod brief;
mod cell_sets;
mod chains;
mod fact_lines;
pub mod laws;
mod lengths;
mod location;
mod names;
mod narrowing;
mod queries;
mod relations;
mod return_offsets;
mod rows;
mod sets;
mod shapes;
mod sum_fact;
mod sum_moves;
mod sum_parts;
mod taking;
mod terms;

pub use brief::BriefSet;
pub use cell_sets::{CellSet, CellSets};
pub use chains::{Chain, Step};
pub use location::{Location, is_same_location, negated};
pub use names::Names;
pub use narrowing::ChainWords;
pub use relations::{Relation, Relations};
pub use return_offsets::ReturnOffsets;
pub use sets::{at_start, differences, keep_divided, keep_pointing, times};
pub use shapes::{SpelledSum, has_shape, spelled};
pub use sum_fact::{Rules, SumFact};
pub use terms::{Sum, Summand, Term, is_sign, product};
