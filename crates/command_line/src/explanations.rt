//! What is said about each condition, rule and fault, which are named by codes: what it requires or means, and what to do.
//! `tests/explanations.py` makes the texts from the pages. Nothing is proved of them.

mod conditions;
mod other_faults;
mod program_faults;
mod rules;

use crate::explanations::conditions::conditions;
use crate::explanations::other_faults::other_faults;
use crate::explanations::program_faults::program_faults;
use crate::explanations::rules::rules;
use std::alloc::{AllocError, Allocator};

/// The column in which the list of codes says what they mean.
const COLUMN: usize = 18;

/// What a code stands for.
#[derive(Clone, Copy)]
pub(crate) enum Subject {
    /// A condition or a rule with this name.
    Asked(&'static str),
    /// A fault, with an example of its line, without `pdp8: `.
    Fault(&'static str),
}

/// What is said about a code.
#[derive(Clone, Copy)]
pub(crate) struct Explanation {
    /// The code. Several faults may have the same code.
    pub(crate) code: &'static str,
    /// What it stands for.
    pub(crate) subject: Subject,
    /// What it requires, or what the fault means.
    pub(crate) meaning: &'static str,
    /// What to do.
    pub(crate) advice: &'static str,
}

impl Explanation {
    /// Adds the line that says what it is, and the beginning of the next line.
    fn push_subject<A: Allocator>(&self, text: &mut String<A>) -> Result<(), AllocError> {
        match self.subject {
            Subject::Asked(name) => {
                text.push_str(self.code)?;
                text.push_str(": ")?;
                text.push_str(name)?;
                text.push_str("\nrequired: ")
            }
            Subject::Fault(line) => {
                text.push_str(line)?;
                text.push_str("\nmeaning: ")
            }
        }
    }

    /// Adds everything that is said about it.
    fn push_whole<A: Allocator>(&self, text: &mut String<A>) -> Result<(), AllocError> {
        self.push_subject(text)?;
        text.push_str(self.meaning)?;
        text.push_str("\nwhat to do: ")?;
        text.push_str(self.advice)?;
        text.push_str("\n")
    }

    /// Adds what it means and what to do, one line for each.
    fn push_advice<A: Allocator>(&self, text: &mut String<A>) -> Result<(), AllocError> {
        text.push_str(self.meaning)?;
        text.push_str("\nwhat to do: ")?;
        text.push_str(self.advice)?;
        text.push_str("\n")
    }

    /// Adds its line in the list of codes.
    fn push_listed<A: Allocator>(&self, text: &mut String<A>) -> Result<(), AllocError> {
        text.push_str(self.code)?;
        for _ in self.code.len()..COLUMN {
            text.push(' ')?;
        }
        match self.subject {
            Subject::Asked(name) => text.push_str(name)?,
            Subject::Fault(_) => text.push_str(self.meaning)?,
        }
        text.push_str("\n")
    }
}

/// Whether a code is meant by a word as it stands in an answer: `rule 2` is rule2.
fn is_spaced(code: &[u8], given: &[u8]) -> bool {
    code.len() == 5
        && given.len() == 6
        && given[4] == b' '
        && given[5] == code[4]
        && given[..4].eq_ignore_ascii_case(&code[..4])
}

/// Whether a code is meant, in capital or small letters.
fn is_meant(code: &str, given: &str) -> bool {
    code.eq_ignore_ascii_case(given) || is_spaced(code.as_bytes(), given.as_bytes())
}

/// The tables: of the conditions, of the rules, and of the faults.
fn tables() -> [&'static [Explanation]; 4] {
    [conditions(), rules(), program_faults(), other_faults()]
}

/// Adds what a table says about a code, and returns whether this table or an earlier one says anything about it.
fn push_from<A: Allocator>(
    text: &mut String<A>,
    table: &[Explanation],
    code: &str,
    is_known_before: bool,
) -> Result<bool, AllocError> {
    let mut is_known = is_known_before;
    for explanation in table {
        if is_meant(explanation.code, code) {
            if is_known {
                text.push_str("\n")?;
            }
            explanation.push_whole(text)?;
            is_known = true;
        }
    }
    Ok(is_known)
}

/// Adds what a table advises about a code.
fn push_advice_from<A: Allocator>(
    text: &mut String<A>,
    table: &[Explanation],
    code: &str,
) -> Result<(), AllocError> {
    for explanation in table {
        if *explanation.code == *code {
            explanation.push_advice(text)?;
        }
    }
    Ok(())
}

/// Adds the lines of a table in the list of codes.
fn push_table<A: Allocator>(text: &mut String<A>, table: &[Explanation]) -> Result<(), AllocError> {
    for explanation in table {
        explanation.push_listed(text)?;
    }
    Ok(())
}

/// Adds what is said about a code, such as `V5`, `rule2` or `IR`. If several faults have the code, all of them are
/// explained, with an empty line between two. Case is ignored. Tells whether the code is in the list.
///
/// # Errors
///
/// `AllocError` if memory was refused.
pub fn push_explanations<A: Allocator>(
    text: &mut String<A>,
    code: &str,
) -> Result<bool, AllocError> {
    let mut is_known = false;
    for table in tables() {
        is_known = push_from(text, table, code, is_known)?;
    }
    Ok(is_known)
}

/// Adds what the fault with a code such as `TurnsSpent` means, and what to do. It is for faults that are not in a
/// line of a file. If no fault has the code, it adds nothing.
///
/// # Errors
///
/// `AllocError` if memory was refused.
pub fn push_advice<A: Allocator>(text: &mut String<A>, code: &str) -> Result<(), AllocError> {
    push_advice_from(text, program_faults(), code)?;
    push_advice_from(text, other_faults(), code)
}

/// Adds the list of codes, one line for each: conditions, rules and faults.
///
/// # Errors
///
/// `AllocError` if memory was refused.
pub fn push_codes<A: Allocator>(text: &mut String<A>) -> Result<(), AllocError> {
    text.push_str(
        "`pdp8 explain CODE` says what a condition or a rule requires, or what a fault means, and what to do about it. The codes are:\n",
    )?;
    for table in tables() {
        push_table(text, table)?;
    }
    Ok(())
}
