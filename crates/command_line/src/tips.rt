//! Tips below an error of the command line that would lead astray. This is tested, not proved.

use crate::commands::is_option;
use std::alloc::{AllocError, Allocator};
use strsim::osa_distance;

/// What a tip begins with.
const TIP: &str = "  tip: ";

/// What a tip begins with that proposes an option.
const SIMILAR: &str = "  tip: a similar argument exists: ";

/// From how many characters on, with its dashes, an option counts as long.
const LONG: usize = 10;

/// How many letters of a misspelt option are changed, left out, added or swapped at most. Two letters of a short one make
/// another word of it: `--stop` does not stand for `--steps`.
fn most_edits(given: &str) -> usize {
    if given.len() < LONG { 1 } else { 2 }
}

/// What stands between the first two quotes of a text.
fn quoted(text: &str) -> &str {
    text.split('\'').nth(1).unwrap_or("")
}

/// Whether a line of an error is a tip for what was not meant: any tip below the option of another command, which is not misspelt, and one for
/// an option that is spelt quite differently.
///
/// # Errors
///
/// Memory was refused.
pub fn is_wrong_tip<A: Allocator + Copy>(
    alloc: A,
    error: &str,
    line: &str,
) -> Result<bool, AllocError> {
    let given = quoted(error);
    if line.starts_with(TIP) && is_option(given) {
        return Ok(true);
    }
    if !line.starts_with(SIMILAR) {
        return Ok(false);
    }
    Ok(osa_distance(alloc, given, quoted(line))? > most_edits(given))
}
