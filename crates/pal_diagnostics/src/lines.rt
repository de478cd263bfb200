//! Lines of a part, and the marks below them.

use pal_text::characters::is_character_code;
use pal_text::{Line, lines_of};
use std::alloc::{AllocError, Allocator};

/// The maximum length, in bytes, of a line that is shown.
const LONGEST_SHOWN: usize = 200;

/// Whether something was added to a text: it fails only where memory is refused.
pub(crate) type Written = Result<(), AllocError>;

/// A line and its number, counted from 1.
#[derive(Clone, Copy)]
pub(crate) struct NumberedLine {
    pub(crate) number: usize,
    pub(crate) line: Line,
}

/// The bytes from `start` up to, but not including, `end`, or none if there are not that many.
pub(crate) fn bytes_between(bytes: &[u8], start: usize, end: usize) -> &[u8] {
    bytes.get(start..end).unwrap_or(b"")
}

/// The line of a part that the byte at this place is on.
pub(crate) fn line_at<A: Allocator>(
    alloc: A,
    part: &[u8],
    at: usize,
) -> Result<NumberedLine, AllocError> {
    let lines = lines_of(alloc, part)?;
    let mut found = NumberedLine {
        number: 1,
        line: Line { start: 0, end: 0 },
    };
    for (index, line) in lines.iter().enumerate() {
        if line.start <= at {
            found = NumberedLine {
                number: index + 1,
                line: *line,
            };
        }
    }
    Ok(found)
}

/// How many characters these bytes stand for.
pub(crate) fn count_characters(bytes: &[u8]) -> usize {
    bytes
        .iter()
        .filter(|byte| is_character_code(**byte % 0o200))
        .count()
}

/// Adds the characters that these bytes stand for, or a question mark for one that cannot be shown.
pub(crate) fn push_characters<A: Allocator>(text: &mut String<A>, bytes: &[u8]) -> Written {
    for byte in bytes {
        let code = *byte % 0o200;
        if code == b'\t' || (b' ' <= code && code <= b'~') {
            text.push(char::from(code))?;
        } else if is_character_code(code) {
            text.push('?')?;
        }
    }
    Ok(())
}

/// Adds, for each byte, a blank as wide as its character.
fn push_blanks<A: Allocator>(text: &mut String<A>, bytes: &[u8]) -> Written {
    for byte in bytes {
        let code = *byte % 0o200;
        if code == b'\t' {
            text.push('\t')?;
        } else if is_character_code(code) {
            text.push(' ')?;
        }
    }
    Ok(())
}

/// Adds a line of a part, and below it a mark under the bytes from `start` up to, but not including, `end`. A line that
/// is too long to be shown is left out.
pub(crate) fn push_marked<A: Allocator>(
    text: &mut String<A>,
    part: &[u8],
    line: Line,
    start: usize,
    end: usize,
) -> Written {
    let shown = bytes_between(part, line.start, line.end);
    if shown.len() > LONGEST_SHOWN {
        return Ok(());
    }
    push_characters(text, shown)?;
    text.push('\n')?;
    push_blanks(text, bytes_between(part, line.start, start))?;
    let width = count_characters(bytes_between(part, start, end.min(line.end)));
    for _ in 0..width.max(1) {
        text.push('^')?;
    }
    text.push('\n')
}
