//! The listing of a program, with a table of its symbols.

ghost use Rattle.std.specs.Prelude.{◌≡◌, false, true, IfOk};
ghost use Rattle.pal_asm.specs.Programs.{listing_of};
ghost use Rattle.source_commands.specs.AssembleText.{HasTable};

use crate::cross::{PlaceNames, table_of};
use crate::mentions::mentions_of;
use command_parts::text_sink::TextSink;
use labels::Tags;
use pal_asm::Program;
use std::alloc::{AllocError, Allocator};

/// The listing of a program.
fn listing_of<A: Allocator + Copy>(alloc: A, program: &Program<A>) -> Result<Vec<u8, A>, AllocError>
    ensures { IfOk result (λ text. text.items ≡ listing_of program.now) }
{
    let mut sink = TextSink::new(alloc);
    match program.write_listing(&mut sink) {
        Ok(()) => Ok(sink.into_text()),
        Err(_) => Err(AllocError),
    }
}

/// The table of the symbols of a program.
#[inline(never)]
fn program_table<A: Allocator + Copy>(
    alloc: A,
    parts: &[&[u8]],
    program: &Program<A>,
) -> Result<Vec<u8, A>, AllocError> {
    let own = program.symbols();
    let mentions = mentions_of(alloc, own, parts, program.words())?;
    let tags = Tags::of(alloc, own, parts)?;
    let places = PlaceNames {
        own,
        tags: &tags,
        parts: parts.len(),
    };
    table_of(alloc, &places, &mentions)
}

/// The text that is written for a program that was assembled from these parts: its listing and, if that is requested, an
/// empty line and the table of its symbols.
#[inline(never)]
pub(crate) fn text_of<A: Allocator + Copy>(
    alloc: A,
    parts: &[&[u8]],
    program: &Program<A>,
    crossed: bool,
) -> Result<Vec<u8, A>, AllocError>
    ensures plain { IfOk result (λ text. crossed ≡ false → text.items ≡ listing_of program.now) }
    ensures crossed { IfOk result (λ text. crossed ≡ true →
        HasTable (listing_of program.now) text.items) }
{
    let mut text = listing_of(alloc, program)?;
    if !crossed {
        return Ok(text);
    }
    let table = program_table(alloc, parts, program)?;
    text.extend_from_slice(b"\n")?;
    text.extend_from_slice(&table)?;
    Ok(text)
}
