//! The commands that assemble a source.

ghost use Rattle.std.specs.Prelude.{◌≡◌, false, true, map, IfOk, IfErr, OnOk, OnErr};
ghost use Rattle.std.specs.List.{AllByRecursion};
ghost use Rattle.pal_acts.specs.Permanent.{permanent_symbols};
ghost use Rattle.pal_asm.specs.Listings.{Lists};
ghost use Rattle.pal_asm.specs.Programs.{symbols_of, image_of, listing_of, symbols_in, image_in};
ghost use Rattle.pal_asm.specs.Sources.{texts, Means};
ghost use Rattle.source_commands.specs.AssembleText.{IsAssembled, IsAssemblyFault, IsListFault, IsListed, IsSourceFault};
ghost use Rattle.command_parts.specs.Faults.{fails_to_write};
ghost use Rattle.source_commands.specs.SourceTexts.{ReadsParts};
ghost use Rattle.command_parts.specs.Writes.{FrontOf, Writes};
ghost use Rattle.command_parts.specs.declared.status.Status.TheVariants.{Done};

use crate::crossing::text_of;
use crate::sources::{byte_slices, read_parts};
use bin_tape::laws::written_tapes_read_back;
use bin_tape::{WriteTapeFault, write_tape};
use command_parts::status::{DeviceFault, Fault, Status};
use instruct::Profile;
use pal_asm::{AssembleFault, Program, Translation};
use pal_diagnostics::push_faults;
use std::alloc::{AllocError, Allocator};
use streams::{ByteSink, ByteSource, put};

/// Adds the lines about the faults of a source to `told`, if the names of its parts are given.
fn tell_faults<A: Allocator + Copy>(
    alloc: A,
    parts: &[&[u8]],
    profile: Profile,
    names: Option<&[&str]>,
    told: &mut String<A>,
) -> Result<(), AllocError> {
    match names {
        Some(names) => push_faults(alloc, told, names, parts, profile),
        None => Ok(()),
    }
}

/// Translates the parts of a source into what they mean.
fn translation_of<A: Allocator + Copy>(
    alloc: A,
    parts: &[&[u8]],
    profile: Profile,
    names: Option<&[&str]>,
    told: &mut String<A>,
) -> Result<Translation<A>, Fault>
    ensures found { IfOk result (λ translation. Means (permanent_symbols profile) (texts parts.now)
        (symbols_in translation) (image_in translation)) }
    ensures faults { IfErr result (IsAssemblyFault profile (texts parts.now)) }
{
    match pal_asm::translate(alloc, parts, profile) {
        Ok(translation) => Ok(translation),
        Err(AssembleFault::Source(fault)) => {
            tell_faults(alloc, parts, profile, names, told)?;
            Err(Fault::Source(fault))
        }
        Err(AssembleFault::NoMemory) => Err(Fault::NoMemory),
    }
}

/// Assembles the parts of a source, with its listing.
#[inline(never)]
fn program_of<A: Allocator + Copy>(
    alloc: A,
    parts: &[&[u8]],
    profile: Profile,
    names: Option<&[&str]>,
    told: &mut String<A>,
) -> Result<Program<A>, Fault>
    ensures found { IfOk result (λ program. Means (permanent_symbols profile) (texts parts.now)
        (symbols_of program) (image_of program)) }
    ensures listed { IfOk result (λ program. Lists (permanent_symbols profile) (texts parts.now)
        (symbols_of program) (listing_of program)) }
    ensures faults { IfErr result (IsAssemblyFault profile (texts parts.now)) }
{
    match pal_asm::assemble(alloc, parts, profile) {
        Ok(program) => Ok(program),
        Err(AssembleFault::Source(fault)) => {
            tell_faults(alloc, parts, profile, names, told)?;
            Err(Fault::Source(fault))
        }
        Err(AssembleFault::NoMemory) => Err(Fault::NoMemory),
    }
}

/// Assembles a source of one or more parts, in order, and writes its tape. If the names of the parts are given and the
/// source is refused, except for its size, lines about all its faults are added to `told`: for each fault its place,
/// what is wrong, and what to change. These lines are tested, not proved.
///
/// # Errors
///
/// `Source` with the first fault of the source: a wrong number of parts is reported before any part is read, a part
/// that is too long before the next is read, and any other fault once all parts are read; `EmptyImage` if the source
/// has no words, and then nothing is written; `Device` if a read failed, or if a write failed after a prefix of the
/// tape had gone out; `NoMemory` if memory was refused.
#[inline(never)]
pub fn assemble<A: Allocator + Copy, R: ByteSource, W: ByteSink>(
    alloc: A,
    sources: &mut [R],
    profile: Profile,
    names: Option<&[&str]>,
    told: &mut String<A>,
    out: &mut W,
) -> Result<Status, Fault>
    requires readable { AllByRecursion (λ source. R.mark source ≡ false) sources.old }
    requires writable { W.mark out.old ≡ false }
    // What is written is the tape of the image that the source means.
    ensures done { IfOk result (λ status. status ≡ Done) }
    ensures tape { OnOk result (Writes (IsAssembled profile (map R.remaining sources.old))
        (W.taken out.old) (W.taken out.new)) }
    // A fault of the source is its only fault. A failed read is reported only if the number of sources is valid and
    // those before the failed one are not too long.
    ensures faults { IfErr result (IsSourceFault profile (map R.mark sources.new)
        (map R.remaining sources.old) (map R.remaining sources.new)) }
    // If a write failed, a prefix of that tape went out,
    ensures front { W.mark out.new ≡ true →
        FrontOf (IsAssembled profile (map R.remaining sources.old))
        (W.taken out.old) (W.taken out.new) }
    // and any other fault leaves the output as it was.
    ensures nothing { OnErr result (W.mark out.new ≡ false → W.taken out.new ≡ W.taken out.old) }
    // A write failed if and only if the answer says so.
    ensures marks { W.mark out.new ≡ fails_to_write result }
    ensures order { ReadsParts R.mark R.remaining sources.old sources.new result }
{
    let parts = read_parts(alloc, sources)?;
    let slices = byte_slices(alloc, &parts)?;
    let translation = translation_of(alloc, &slices, profile, names, told)?;
    written_tapes_read_back(translation.image());
    match write_tape(translation.image(), out) {
        Ok(()) => Ok(Status::Done),
        Err(WriteTapeFault::EmptyImage) => Err(Fault::EmptyImage),
        Err(WriteTapeFault::WriteFault) => Err(Fault::Device(DeviceFault::Write)),
    }
}

/// Assembles a source of one or more parts, in order, and writes its listing or, if it is to be crossed, its listing, an
/// empty line, and a table of its symbols with what the statements do with each.
///
/// # Errors
///
/// As for [`assemble`], except that a source without words has a listing too.
#[inline(never)]
pub fn list<A: Allocator + Copy, R: ByteSource, W: ByteSink>(
    alloc: A,
    sources: &mut [R],
    profile: Profile,
    crossed: bool,
    names: Option<&[&str]>,
    told: &mut String<A>,
    out: &mut W,
) -> Result<Status, Fault>
    requires readable { AllByRecursion (λ source. R.mark source ≡ false) sources.old }
    requires writable { W.mark out.old ≡ false }
    ensures done { IfOk result (λ status. status ≡ Done) }
    ensures listing { OnOk result (Writes (IsListed crossed profile (map R.remaining sources.old))
        (W.taken out.old) (W.taken out.new)) }
    ensures faults { IfErr result (IsListFault profile (map R.mark sources.new)
        (map R.remaining sources.old) (map R.remaining sources.new)) }
    ensures front { W.mark out.new ≡ true →
        FrontOf (IsListed crossed profile (map R.remaining sources.old))
        (W.taken out.old) (W.taken out.new) }
    ensures nothing { OnErr result (W.mark out.new ≡ false → W.taken out.new ≡ W.taken out.old) }
    ensures marks { W.mark out.new ≡ fails_to_write result }
    ensures order { ReadsParts R.mark R.remaining sources.old sources.new result }
{
    let parts = read_parts(alloc, sources)?;
    let slices = byte_slices(alloc, &parts)?;
    let program = program_of(alloc, &slices, profile, names, told)?;
    let text = text_of(alloc, &slices, &program, crossed)?;
    match put(out, &text) {
        Ok(()) => Ok(Status::Done),
        Err(_) => Err(Fault::Device(DeviceFault::Write)),
    }
}
