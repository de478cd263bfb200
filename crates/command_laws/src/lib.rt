//! Laws about what the commands of the program `pdp8` write.
#![tactic(auto)]

pub mod laws;
