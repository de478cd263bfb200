//! The command that writes a source for a tape.

ghost use Rattle.std.specs.Prelude.{◌≡◌, ◌⊎◌, false, Ok, IfOk};
ghost use Rattle.command_parts.specs.Writes.{Writes};
ghost use Rattle.command_parts.specs.declared.status.Status.TheVariants.{Done, Refused};
ghost use Rattle.source_commands.specs.WrittenSource.{IsDeclaredSource, IsTapeSource};

use command_parts::inputs::{declaration_from, tape_from};
use command_parts::status::{Fault, Status};
use instruct::Profile;
use source_writer::{declared_source_of, source_of};
use std::alloc::Allocator;
use streams::{ByteSink, ByteSource, put};
use word12::Word;

/// Writes a source for a tape, whose program starts at the given address and is for the given machine. `assemble` makes
/// the same words from it. It is refused, and nothing is written, if the assembler reads no text that was tried as the
/// tape's words.
///
/// # Errors
///
/// The fault of the tape, and then nothing is written; `Device` if a read failed, or if a write failed after a prefix
/// of the source had gone out; `NoMemory` if memory was refused.
pub fn source<A: Allocator + Copy, R: ByteSource, W: ByteSink>(
    alloc: A,
    tape: &mut R,
    start: Word,
    profile: Profile,
    out: &mut W,
) -> Result<Status, Fault>
    requires readable { R.mark tape.old ≡ false }
    requires writable { W.mark out.old ≡ false }
    // If it is done, what is written is a source that means exactly the tape's image. Otherwise it is
    // refused, and nothing is written.
    ensures done { IfOk result (λ status. (status ≡ Done) ⊎ (status ≡ Refused)) }
    ensures source { result ≡ Ok Done → Writes (IsTapeSource profile (R.remaining tape.old))
        (W.taken out.old) (W.taken out.new) }
    ensures refused { result ≡ Ok Refused → W.taken out.new ≡ W.taken out.old }
{
    let image = tape_from(tape)?;
    let Some(text) = source_of(alloc, &image, start, profile)? else {
        return Ok(Status::Refused);
    };
    put(out, &text)?;
    Ok(Status::Done)
}

/// Writes a source for a tape, whose program has a declaration. `assemble` makes the same words from it, for the
/// declared machine. It is refused as [`source`] is.
///
/// # Errors
///
/// The fault of the tape or of the declaration: each of them is read and, if it has a fault, refused before the next is
/// read, and then nothing is written; `Device` if a read failed, or if a write failed after a prefix of the source had
/// gone out; `NoMemory` if memory was refused.
pub fn declared_source<A: Allocator + Copy, R: ByteSource, D: ByteSource, W: ByteSink>(
    alloc: A,
    tape: &mut R,
    declaration: &mut D,
    out: &mut W,
) -> Result<Status, Fault>
    requires readable { R.mark tape.old ≡ false }
    requires declaration_readable { D.mark declaration.old ≡ false }
    requires writable { W.mark out.old ≡ false }
    // If it is done, what is written is a source that means exactly the tape's image. Else it is refused,
    // and nothing is written.
    ensures done { IfOk result (λ status. (status ≡ Done) ⊎ (status ≡ Refused)) }
    ensures source { result ≡ Ok Done → Writes
        (IsDeclaredSource (R.remaining tape.old) (D.remaining declaration.old))
        (W.taken out.old) (W.taken out.new) }
    ensures refused { result ≡ Ok Refused → W.taken out.new ≡ W.taken out.old }
{
    let image = tape_from(tape)?;
    let promised = declaration_from(alloc, declaration)?;
    let Some(text) = declared_source_of(alloc, &image, &promised)? else {
        return Ok(Status::Refused);
    };
    put(out, &text)?;
    Ok(Status::Done)
}
