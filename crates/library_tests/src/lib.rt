//! What the libraries answer where memory, a read or a write fails: each request, each read and each write in turn. And
//! their calls that no command makes, once.
#![tactic(auto)]

#[cfg(test)]
mod calls;
#[cfg(test)]
mod fixtures;
#[cfg(test)]
mod interrupts;
#[cfg(test)]
mod readers;
#[cfg(test)]
mod requests;
#[cfg(test)]
mod sets;
#[cfg(test)]
mod worlds;
#[cfg(test)]
mod writers;
