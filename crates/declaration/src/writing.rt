//! Pieces of the text of a declaration.

ghost use Rattle.std.specs.Prelude.{◌≡◌, ◌++◌, ◌∷◌, OnOk};
ghost use Rattle.word12.specs.Words.{octal_text};
ghost use Rattle.declaration.specs.Written.{StaysInFront, range_text};

use std::alloc::{AllocError, Allocator};
use word12::Word;
use wordset::WordSet;

/// Adds an address in octal, after a space.
///
/// # Errors
///
/// Memory was refused.
pub fn push_address<A: Allocator>(text: &mut Vec<u8, A>, at: Word) -> Result<(), AllocError>
    ensures { OnOk result (text.new.items ≡ text.old.items ++ 32 ∷ octal_text at) }
{
    text.extend_from_slice(b" ")?;
    text.extend_from_slice(&at.to_octal())
}

/// Adds a range of addresses, after a space: its first address, and the last where it is another one.
///
/// # Errors
///
/// Memory was refused.
pub fn push_range<A: Allocator>(
    text: &mut Vec<u8, A>,
    first: Word,
    last: Word,
) -> Result<(), AllocError>
    ensures { OnOk result (text.new.items ≡ text.old.items ++ 32 ∷ range_text first last) }
{
    push_address(text, first)?;
    if first == last {
        return Ok(());
    }
    text.extend_from_slice(b"-")?;
    text.extend_from_slice(&last.to_octal())
}

/// Adds the ranges of a set, each after a space.
///
/// # Errors
///
/// Memory was refused.
pub fn push_ranges<A: Allocator>(text: &mut Vec<u8, A>, set: &WordSet) -> Result<(), AllocError>
    ensures { OnOk result (StaysInFront text.old.items text.new.items) }
{
    for (first, last) in set.ranges() {
        push_range(text, first, last)?;
    }
    Ok(())
}
