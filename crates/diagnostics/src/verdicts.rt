//! What the commands on certificates share: how a certificate is read, the line of a verdict, and why it is no.

pub mod certificates;
pub mod explanation;
pub mod messages;
mod reason_context;
pub mod reason_text;
pub mod surplus_text;
pub mod verdict;
