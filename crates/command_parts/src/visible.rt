//! Names and lines of files as they may stand in what is told to people: a control character of theirs could hide or
//! repaint what a terminal shows.

ghost use Rattle.std.specs.Prelude.{◌≡◌, IfOk};
ghost use Rattle.std.specs.Str.{chars};
ghost use Rattle.std.specs.Str.Lossy.{utf8_lossy};
ghost use Rattle.std.specs.String.{string_bytes};
ghost use Rattle.command_parts.specs.Visible.{visible_character, visible_text};

use std::alloc::{AllocError, Allocator};

/// A character as it is shown: a question mark for a control character other than a tab.
fn visible_character(character: char) -> char
    ensures { result ≡ visible_character character }
{
    if character.is_control() && character != '\t' {
        '?'
    } else {
        character
    }
}

/// A name, or a line without its end, as it is shown: a question mark stands for each control character other than a
/// tab.
///
/// # Errors
///
/// Memory was refused.
pub fn visible_text<A: Allocator>(alloc: A, text: &str) -> Result<String<A>, AllocError>
    ensures { IfOk result (λ shown. string_bytes shown ≡ visible_text text.now) }
{
    text.chars().map(visible_character).collect(alloc)
}

/// The same of bytes: what is no UTF-8 is shown as U+FFFD.
///
/// # Errors
///
/// Memory was refused.
pub fn visible_bytes<A: Allocator + Copy>(alloc: A, bytes: &[u8]) -> Result<String<A>, AllocError>
    ensures { IfOk result (λ shown. string_bytes shown ≡ visible_text (utf8_lossy bytes.now)) }
{
    let text = String::from_utf8_lossy(alloc, bytes)?;
    visible_text(alloc, &text)
}
