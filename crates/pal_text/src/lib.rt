//! The text of a PAL III source: its characters, lines, tokens and statements.
//!
//! A source is read part by part. A part is a list of bytes; a [`StatementReader`] gives its statements one
//! after another, and [`statements`] all of them with their tokens and the lines of the part, or the
//! first fault of its form. What numbers and symbols are worth is not looked at here.
#![tactic(auto)]

pub mod characters;
pub mod fault;
pub mod grammar;
pub mod laws;
pub mod lines;
pub mod names;
pub mod part;
pub mod reader;
mod scan;
pub mod statement;
pub mod tokens;

pub use fault::{StatementFault, TextFault};
pub use grammar::Form;
pub use lines::{Line, lines_of};
pub use names::Name;
pub use part::{LONGEST, Part, statements};
pub use reader::{DelimitedStatement, PartItem, StatementReader};
pub use statement::{Ending, PartEnd, Statement};
pub use tokens::{Token, TokenKind};
