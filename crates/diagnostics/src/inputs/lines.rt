//! The lines of a text.

use crate::inputs::FaultyFile;
use command_parts::message::Written;
use std::alloc::Allocator;

/// The most characters of a line that are shown.
const MOST_SHOWN: usize = 100;

/// A line of a text by its number, from 1, without its end.
pub(crate) fn line_of(bytes: &[u8], number: usize) -> &[u8] {
    let line = bytes
        .split(|byte| *byte == b'\n')
        .nth(number.saturating_sub(1))
        .unwrap_or(b"");
    line.strip_suffix(b"\r").unwrap_or(line)
}

/// The first word of a line, up to a space, a tab or a slash.
pub(crate) fn first_word(line: &[u8]) -> &[u8] {
    line.split(|byte| matches!(*byte, b' ' | b'\t' | b'/'))
        .find(|word| !word.is_empty())
        .unwrap_or(b"")
}

/// Adds a line of a file, with the file's name and its number before it. A byte of the line that is no character is shown as a question
/// mark.
///
/// # Errors
///
/// Memory was refused.
pub fn push_numbered<A: Allocator>(
    text: &mut String<A>,
    file: &FaultyFile<'_>,
    number: usize,
) -> Written {
    let name = file.name;
    write!(text, "{name}:{number}: ")?;
    for byte in line_of(file.bytes, number).iter().take(MOST_SHOWN) {
        let is_shown = matches!(*byte, b' '..=b'~' | b'\t');
        let shown = if is_shown { *byte as char } else { '?' };
        text.push(shown)?;
    }
    text.push('\n')
}
