//! Copies of the parts of a source, from which statements can be left out.

use instruct::Profile;
use pal_asm::{AssembleFault, PalFault, translate};
use pal_text::Line;
use std::alloc::{AllocError, Allocator};

/// A copy of a part in which each statement has a line of its own: a `;` between two statements is replaced by the end
/// of a line. Every byte keeps its place.
fn copy_of<A: Allocator>(alloc: A, part: &[u8]) -> Result<Vec<u8, A>, AllocError> {
    let mut copy = Vec::new(alloc);
    let mut in_comment = false;
    for byte in part {
        let code = *byte % 0o200;
        if code == b'\r' || code == b'\n' {
            in_comment = false;
        } else if code == b'/' {
            in_comment = true;
        }
        let separates = code == b';' && !in_comment;
        copy.push(if separates { b'\r' } else { *byte })?;
    }
    Ok(copy)
}

/// Copies of the parts, with one statement on each line.
pub(crate) fn copies_of<A: Allocator + Copy>(
    alloc: A,
    parts: &[&[u8]],
) -> Result<Vec<Vec<u8, A>, A>, AllocError> {
    let mut copies = Vec::new(alloc);
    for part in parts {
        let copy = copy_of(alloc, part)?;
        copies.push(copy)?;
    }
    Ok(copies)
}

/// The first fault of a source with these parts. Its line is a line of the copy.
pub(crate) fn first_fault<A: Allocator + Copy>(
    alloc: A,
    copies: &[Vec<u8, A>],
    profile: Profile,
) -> Result<Option<PalFault>, AllocError> {
    let mut parts = Vec::new(alloc);
    for copy in copies {
        parts.push(copy.as_slice())?;
    }
    match translate(alloc, &parts, profile) {
        Ok(_) => Ok(None),
        Err(AssembleFault::Source(fault)) => Ok(Some(fault)),
        Err(AssembleFault::NoMemory) => Err(AllocError),
    }
}

/// Where the statement on a line ends: at a comment, at `$`, or at the end of the line.
pub(crate) fn statement_end(bytes: &[u8], line: Line) -> usize {
    for (at, byte) in bytes.iter().enumerate() {
        let code = *byte % 0o200;
        if line.start <= at && at < line.end && (code == b'/' || code == b'$') {
            return at;
        }
    }
    line.end
}

/// Overwrites the bytes from `start` up to, but not including, `end` with spaces, except that the first of them becomes
/// `first`.
pub(crate) fn replace(bytes: &mut [u8], start: usize, end: usize, first: u8) {
    for (at, byte) in bytes.iter_mut().enumerate() {
        if start <= at && at < end {
            *byte = if at == start { first } else { b' ' };
        }
    }
}
