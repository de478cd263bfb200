//! A program judged, over and over.

use bin_tape::{Image, read_tape};
use certificate::Certificate;
use declaration::Declaration;
use judge::{JudgeWorkspace, judge};
use std::alloc::Allocator;

/// How often of so many times a judge accepts a program.
#[inline(never)]
pub fn accepted<A: Allocator>(
    image: &Image,
    declaration: &Declaration<A>,
    certificate: &Certificate<A>,
    times: u16,
    rooms: &mut JudgeWorkspace<A>,
) -> u64 {
    let mut count = 0u64;
    for _ in 0..times {
        if judge(image, declaration, certificate, rooms).is_ok() {
            count = count.wrapping_add(1);
        }
    }
    count
}

/// How often of so many times a judge accepts a tape, a declaration and a certificate that stand one after another, the
/// first two with so many bytes; none if they have more than there are.
pub fn accepted_of<A: Allocator + Copy>(
    alloc: A,
    bytes: &[u8],
    tape: usize,
    declaration: usize,
    times: u16,
) -> anyhow::Result<Option<u64>> {
    if bytes.len() < tape {
        return Ok(None);
    }
    let (tape, rest) = bytes.split_at(tape);
    if rest.len() < declaration {
        return Ok(None);
    }
    let (declared, claimed) = rest.split_at(declaration);
    let image = read_tape(tape)?;
    let declaration = Declaration::parse(alloc, declared)?;
    let certificate = Certificate::parse(alloc, claimed)?;
    let mut rooms = JudgeWorkspace::boxed(alloc)?;
    Ok(Some(accepted(&image, &declaration, &certificate, times, &mut rooms)))
}
