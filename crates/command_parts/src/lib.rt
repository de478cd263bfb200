//! What the commands share: what they read, the lines that several write, how they fail and how they end.
#![tactic(auto)]

pub mod inputs;
pub mod message;
pub mod options;
pub mod outcome;
pub mod programs;
pub mod sentence;
pub mod status;
pub mod text;
pub mod text_sink;
pub mod visible;
