//! Tests of what commands answer when memory is refused or a read or a write fails: each request, each read and each
//! write in turn. The whole program is tested in the same way, with a runtime whose files and streams fail.
//! crates/README.md says which commands are left out.
#![tactic(auto)]

#[cfg(test)]
mod failing;
#[cfg(test)]
mod faults;
#[cfg(test)]
mod fixtures;
#[cfg(test)]
mod program;
#[cfg(test)]
mod runtime;
