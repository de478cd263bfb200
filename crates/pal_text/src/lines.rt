//! The lines of a part.

ghost use Rattle.std.specs.Prelude.{◌≡◌, ◌≢◌, [], IfOk, OnOk, OnErr};
ghost use Rattle.pal_text.specs.Lines.{all_lines};

use crate::characters::{Meaning, meaning_of, returned_after};
use std::alloc::{AllocError, Allocator};

/// A line of a part: the bytes from `start` up to the one before `end`, without those that end
/// the line.
#[derive(Clone, Copy)]
pub struct Line {
    pub start: usize,
    pub end: usize,
}

/// Puts the lines of these bytes into an empty list.
fn put_lines<A: Allocator>(out: &mut Vec<Line, A>, bytes: &[u8]) -> Result<(), AllocError>
    requires { out.old.items ≡ [] }
    ensures lines { OnOk result (out.new.items ≡ all_lines bytes.now) }
    ensures refused { OnErr result (all_lines bytes.now ≢ []) }
{
    let mut start = 0;
    let mut begun = false;
    let mut returned = false;
    for (at, byte) in bytes.iter().enumerate() {
        match meaning_of(returned, *byte) {
            Meaning::LineEnd => {
                out.push(Line { start, end: at })?;
                start = at + 1;
                begun = false;
            }
            Meaning::Character(_) => begun = true,
            Meaning::Ignored => {}
        }
        returned = returned_after(returned, *byte);
    }
    if begun {
        out.push(Line {
            start,
            end: bytes.len(),
        })?;
    }
    Ok(())
}

/// The lines of these bytes in order. What comes after the last line's end is one only if a byte of
/// it is not ignored.
///
/// # Errors
///
/// Where memory was refused, which is wanted only if there is a line.
pub fn lines_of<A: Allocator>(alloc: A, bytes: &[u8]) -> Result<Vec<Line, A>, AllocError>
    ensures lines { IfOk result (λ out. out.items ≡ all_lines bytes.now) }
    ensures refused { OnErr result (all_lines bytes.now ≢ []) }
{
    let mut out = Vec::new(alloc);
    put_lines(&mut out, bytes)?;
    Ok(out)
}
