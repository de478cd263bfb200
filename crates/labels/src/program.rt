//! A source and its declaration as a tape and a declaration in numbers.

ghost use Rattle.std.specs.Prelude.{◌≡◌, ℕ, List, Some, IfOk, IfErr, MatchResult};
ghost use Rattle.bin_tape.specs.Image.{IsEmptyImage};
ghost use Rattle.bin_tape.specs.Written.{written_tape};
ghost use Rattle.pal_acts.specs.Permanent.{permanent_symbols};
ghost use Rattle.pal_asm.specs.Sources.{texts, Means};
ghost use Rattle.pal_asm.specs.Programs.{symbols_in, image_in, symbols_of, image_of};
ghost use Rattle.labels.specs.Within.{machine};
ghost use Rattle.labels.specs.Programs.{IsEmptyFault, IsNumbered, IsNumberingFault, IsSourceFault, placing_fault};

use crate::fault::PlaceFault;
use crate::placing::place;
use crate::within::machine_of;
use bin_tape::{Image, WriteTapeFault, write_tape};
use pal_asm::{AssembleFault, PalFault, Program, Translation, assemble, translate};
use std::alloc::Allocator;
use streams::{ByteSink, Failed};

/// A program's tape, its declaration in numbers, and what its source means, with its listing.
#[derive(Drop)]
pub struct NumberedProgram<A: Allocator + Copy> {
    /// The tape's frames.
    pub tape: Vec<u8, A>,
    /// The declaration's text.
    pub declaration: Vec<u8, A>,
    /// What the source means.
    pub program: Program<A>,
}

/// Why a source and its declaration are refused.
#[derive(Clone, Copy, PartialEq, Eq, Debug)]
pub enum NumberingFault {
    /// The source has this fault.
    Source(PalFault),
    /// The source is assembled to no word, so there is no tape.
    EmptyImage,
    /// The declaration has this fault.
    Placing(PlaceFault),
    /// Memory was refused.
    NoMemory,
}

/// Takes the frames of a tape, and fails where memory is refused.
#[derive(Drop)]
struct TapeSink<A: Allocator> {
    frames: Vec<u8, A>,
    failed: bool,
}

impl<A: Allocator> ByteSink for TapeSink<A> {
    ghost taken = { λ sink. Some sink.frames.items };

    ghost mark = { λ sink. sink.failed };

    fn write(&mut self, piece: &[u8]) -> Result<usize, Failed> {
        match self.frames.extend_from_slice(piece) {
            Ok(()) => Ok(piece.len()),
            Err(_) => {
                self.failed = true;
                Err(Failed)
            }
        }
    }

    fn failed(&self) -> bool {
        self.failed
    }
}

/// The tape of an image.
#[inline(never)]
fn tape_of<A: Allocator>(alloc: A, image: &Image) -> Result<Vec<u8, A>, NumberingFault>
    ensures written { IfOk result (λ tape. tape.items ≡ written_tape image.now) }
    ensures has_word { IfOk result (λ tape. IsEmptyImage image.now → ⊥) }
    ensures refused { IfErr result (IsEmptyFault image.now) }
{
    let mut sink = TapeSink {
        frames: Vec::new(alloc),
        failed: false,
    };
    match write_tape(image, &mut sink) {
        Ok(()) => {
            let TapeSink { frames, .. } = sink;
            Ok(frames)
        }
        Err(WriteTapeFault::EmptyImage) => Err(NumberingFault::EmptyImage),
        Err(WriteTapeFault::WriteFault) => Err(NumberingFault::NoMemory),
    }
}

/// What the parts of a source mean, for the machine that its declaration names.
pub(crate) fn translation_of<A: Allocator + Copy>(
    alloc: A,
    parts: &[&[u8]],
    declaration: &[u8],
) -> Result<Translation<A>, NumberingFault>
    ensures means { IfOk result (λ translation. Means
        (permanent_symbols (machine declaration.now)) (texts parts.now)
        (symbols_in translation) (image_in translation)) }
    ensures refused { IfErr result (IsSourceFault (machine declaration.now) (texts parts.now)) }
{
    match translate(alloc, parts, machine_of(declaration)) {
        Ok(translation) => Ok(translation),
        Err(AssembleFault::Source(fault)) => Err(NumberingFault::Source(fault)),
        Err(AssembleFault::NoMemory) => Err(NumberingFault::NoMemory),
    }
}

/// The same with a listing.
fn program_of<A: Allocator + Copy>(
    alloc: A,
    parts: &[&[u8]],
    declaration: &[u8],
) -> Result<Program<A>, NumberingFault>
    ensures means { IfOk result (λ program. Means
        (permanent_symbols (machine declaration.now)) (texts parts.now)
        (symbols_of program) (image_of program)) }
    ensures refused { IfErr result (IsSourceFault (machine declaration.now) (texts parts.now)) }
{
    match assemble(alloc, parts, machine_of(declaration)) {
        Ok(program) => Ok(program),
        Err(AssembleFault::Source(fault)) => Err(NumberingFault::Source(fault)),
        Err(AssembleFault::NoMemory) => Err(NumberingFault::NoMemory),
    }
}

/// What a fault of a declaration is for a source and its declaration.
fn placing_fault(fault: PlaceFault) -> NumberingFault
    ensures { result ≡ placing_fault fault }
{
    match fault {
        PlaceFault::NoMemory => NumberingFault::NoMemory,
        other => NumberingFault::Placing(other),
    }
}

/// The tape that a source means, and its declaration in numbers, or why there are none.
fn numbered_of<A: Allocator + Copy>(
    alloc: A,
    parts: &[&[u8]],
    declaration: &[u8],
) -> Result<NumberedProgram<A>, NumberingFault>
    ensures numbered { IfOk result (λ numbered. IsNumbered (texts parts.now) declaration.now
        numbered.tape.items numbered.declaration.items) }
    ensures refused { IfErr result (IsNumberingFault (texts parts.now) declaration.now) }
{
    let program = program_of(alloc, parts, declaration)?;
    let tape = tape_of(alloc, program.image())?;
    match place(alloc, declaration, program.symbols()) {
        Ok(declaration) => Ok(NumberedProgram {
            tape,
            declaration,
            program,
        }),
        Err(fault) => Err(placing_fault(fault)),
    }
}

/// The tape that a source means, and its declaration with the source's symbols in numbers. The source is
/// assembled for the machine that the declaration names.
///
/// # Errors
///
/// `Source` with the one fault of the source; `EmptyImage` where it has no word; `Placing` with the fault
/// of the declaration as it is placed, in this order; `NoMemory`.
pub fn number<A: Allocator + Copy>(
    alloc: A,
    parts: &[&[u8]],
    declaration: &[u8],
) -> Result<NumberedProgram<A>, NumberingFault>
    // The tape is the one that is written of the image that the source means, and the declaration the one
    // that its symbols place.
    ensures numbered { IfOk result (λ numbered. IsNumbered (texts parts.now) declaration.now
        numbered.tape.items numbered.declaration.items) }
    // A fault is that of the source, or else that it has no word, or else of the declaration with the
    // source's symbols.
    ensures refused { IfErr result (IsNumberingFault (texts parts.now) declaration.now) }
    // Parts and a declaration that have an answer are answered by no other, and by no fault.
    ensures meant { (tape numbers : List ℕ) →
        IsNumbered (texts parts.now) declaration.now tape numbers →
        MatchResult result (λ numbered. (numbered.tape.items ≡ tape) ×
        (numbered.declaration.items ≡ numbers)) (λ fault. fault ≡ NumberingFault.NoMemory) }
{
    numbered_of(alloc, parts, declaration)
}
