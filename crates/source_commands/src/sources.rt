//! Reads the parts of a source.

ghost use Rattle.std.specs.Prelude.{◌≡◌, false, length, map, IfOk, IfErr, IfSome};
ghost use Rattle.std.specs.List.{AllByRecursion};
ghost use Rattle.std.specs.Io.KnownBytes.{IsAtEnd};
ghost use Rattle.pal_acts.specs.declared.fault_code.FaultCode.TheVariants.{TooLong};
ghost use Rattle.pal_asm.specs.Sources.{fault_at, texts};
ghost use Rattle.command_parts.specs.declared.status.Fault.TheVariants.{Source};
ghost use Rattle.command_parts.specs.Faults.{fails_to_read};
ghost use Rattle.command_parts.specs.Inputs.{TakesAtMost};
ghost use Rattle.source_commands.specs.SourceTexts.{AreRead, IsShort, IsPartFault, ArePartsFault, ReadsParts, is_bad_number};

use command_parts::status::Fault;
use pal_asm::{FaultCode, PalFault};
use std::alloc::{AllocError, Allocator};
use streams::{ByteSource, read_at_most};

/// The maximum number of parts that a source may have.
const MOST_PARTS: usize = 16;

/// One byte more than a part may have, so that a longer one is seen to be too long.
const MOST_PART: usize = 65_537;

/// Whether there are no parts, or too many.
fn is_bad_number(count: usize) -> bool
    ensures { result ≡ is_bad_number count }
{
    count == 0 || count > MOST_PARTS
}

/// The fault of the part with this number, which is too long; number 0 stands for a wrong number of parts.
fn too_long(part: usize) -> Fault
    ensures { result ≡ Source (fault_at TooLong part 0) }
{
    Fault::Source(PalFault {
        code: FaultCode::TooLong,
        part,
        line: 0,
    })
}

/// Reads the part with this number from its source.
fn read_part<A: Allocator, R: ByteSource>(
    alloc: A,
    source: &mut R,
    number: usize,
) -> Result<Vec<u8, A>, Fault>
    requires { R.mark source.old ≡ false }
    ensures read { IfOk result (λ part.
        IfSome (R.remaining source.old) (λ bytes. part.items ≡ bytes)) }
    ensures fits { IfOk result (λ part. IsShort part.items) }
    ensures faults { IfErr result
        (IsPartFault number (R.remaining source.old) (R.remaining source.new)) }
    ensures marks { R.mark source.new ≡ fails_to_read result }
    ensures takes { TakesAtMost 65537 (R.remaining source.old) (R.remaining source.new) }
    // A part that is read is read to its end.
    ensures ended { IfOk result (λ _.
        IfSome (R.remaining source.old) (λ _. IsAtEnd (R.remaining source.new))) }
{
    let part = read_at_most(alloc, source, MOST_PART)?;
    if part.len() >= MOST_PART {
        return Err(too_long(number));
    }
    Ok(part)
}

/// Reads the parts of a source, in order, up to the first that is too long or whose read fails. The number of parts is
/// checked before the first is read.
#[tactic(auto, using(crate::proofs::SourceLemmas::none_taken))]
pub(crate) fn read_parts<A: Allocator + Copy, R: ByteSource>(
    alloc: A,
    sources: &mut [R],
) -> Result<Vec<Vec<u8, A>, A>, Fault>
    requires { AllByRecursion (λ source. R.mark source ≡ false) sources.old }
    ensures number { IfOk result (λ _. is_bad_number (length sources.old) ≡ false) }
    ensures read { IfOk result (λ parts. AreRead
        (map R.remaining sources.old) (map (λ part. part.items) parts.items)) }
    ensures faults { IfErr result (ArePartsFault (map R.mark sources.new)
        (map R.remaining sources.old) (map R.remaining sources.new)) }
    ensures order { ReadsParts R.mark R.remaining sources.old sources.new result }
{
    if is_bad_number(sources.len()) {
        return Err(too_long(0));
    }
    let mut parts = Vec::new(alloc);
    for source in sources.iter_mut() {
        match read_part(alloc, source, parts.len() + 1) {
            Ok(part) => {
                if parts.push(part).is_err() {
                    return Err(Fault::NoMemory);
                }
            }
            Err(fault) => return Err(fault),
        }
    }
    Ok(parts)
}

/// The bytes of the parts, as slices.
pub(crate) fn byte_slices<'t, A: Allocator + Copy>(
    alloc: A,
    parts: &'t [Vec<u8, A>],
) -> Result<Vec<&'t [u8], A>, AllocError>
    ensures { IfOk result (λ slices. texts slices.items ≡ map (λ part. part.items) parts.now) }
{
    let mut slices = Vec::new(alloc);
    for part in parts {
        slices.push(part.as_slice())?;
    }
    Ok(slices)
}
