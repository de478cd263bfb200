//! Messages about lines of a source that have `/:` and that its declaration does not contain.

ghost use Rattle.std.specs.Prelude.{◌≤◌, length, IfOk};

use crate::of_sources::reading::DeclarationOrigin;
use pal_text::characters::is_character_code;
use pal_text::{Ending, TextFault, statements};
use std::alloc::{AllocError, Global};

/// How a line of a source has `/:`.
#[derive(Clone, Copy, PartialEq, Eq)]
enum Mark {
    /// It has none.
    Absent,
    /// It has one, which begins its comment.
    Front,
    /// It has one that does not begin its comment.
    Behind,
}

/// How a line of a source has `/:`.
fn mark_of(line: &[u8]) -> Mark {
    let mut mark = Mark::Absent;
    let mut in_comment = false;
    let mut slash = Mark::Absent;
    for byte in line {
        let code = *byte % 0o200;
        if code == b':' && slash != Mark::Absent {
            mark = slash;
        }
        if code == b'/' {
            slash = if in_comment {
                Mark::Behind
            } else {
                Mark::Front
            };
            in_comment = true;
        } else if is_character_code(code) {
            slash = Mark::Absent;
        }
    }
    mark
}

/// How many lines of a text have `/:` in a comment.
fn count_marked(text: &[u8]) -> usize {
    text.split(|byte| matches!(*byte % 0o200, b'\n' | b'\r'))
        .filter(|line| mark_of(line) != Mark::Absent)
        .count()
}

/// How many lines of a text have a `/:` that does not begin the comment.
fn count_behind(text: &[u8]) -> usize {
    text.split(|byte| matches!(*byte % 0o200, b'\n' | b'\r'))
        .filter(|line| mark_of(line) == Mark::Behind)
        .count()
}

/// Says on standard error how many lines with `/:` are ignored, and why, if there are any.
fn tell_ignored<R: Eprint>(rt: &R, count: usize, reason: &str) {
    let _ = match count {
        0 => return,
        1 => eprintln!(rt; "1 line with /: is ignored: {reason}"),
        _ => eprintln!(rt; "{count} lines with /: are ignored: {reason}"),
    };
}

/// How many bytes of a part are read, and whether the part after it is read as well. A part with a fault is refused, so
/// of such a part nothing is ignored.
fn read_of(alloc: Global, part: &[u8]) -> Result<(usize, bool), AllocError>
    ensures { IfOk result (λ read. read.0 ≤ length part.now) }
{
    match statements(alloc, part) {
        Ok(found) => Ok((found.stop, found.ending != Ending::Dollar)),
        Err(TextFault::NoMemory) => Err(AllocError),
        Err(_) => Ok((part.len(), true)),
    }
}

/// Says on standard error how many lines with `/:` are ignored, and why: another declaration is given, the lines come
/// after the end of a part, or `/:` does not begin their comments.
///
/// # Errors
///
/// `AllocError` if memory was refused.
pub(crate) fn report_ignored_lines<R: Eprint>(
    rt: &R,
    alloc: Global,
    parts: &[Vec<u8>],
    origin: DeclarationOrigin,
) -> Result<(), AllocError> {
    let mut is_read = origin != DeclarationOrigin::File;
    let reason = if is_read {
        "what comes after $ or PAUSE is not read"
    } else {
        "the operand DECLARATION replaces them"
    };
    let (mut unread, mut behind) = (0usize, 0usize);
    for part in parts {
        let (stop, goes_on) = if is_read {
            read_of(alloc, part)?
        } else {
            (0, false)
        };
        unread = unread.saturating_add(count_marked(&part[stop..]));
        behind = behind.saturating_add(count_behind(&part[..stop]));
        is_read = goes_on;
    }
    tell_ignored(rt, unread, reason);
    tell_ignored(rt, behind, "only a /: that begins its comment counts");
    Ok(())
}
