//! Which parts of a declaration the facts of a certificate use, and what routines return with by them. Both are tested and not
//! proved: a declaration that is narrowed by them is judged again.
#![tactic(auto)]

mod returns;
mod unused;
mod uses;
mod words;

pub use returns::{Register, returned};
pub use unused::{Surplus, surplus_of};
pub use uses::{Use, used};
