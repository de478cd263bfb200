//! What a source means, without its listing.

ghost use Rattle.std.specs.Prelude.{◌≡◌, IfOk, IfErr, Some, None, Err};
ghost use Rattle.pal_acts.specs.Permanent.{permanent_symbols};
ghost use Rattle.pal_acts.specs.Sources.{IsSource, all_words};
ghost use Rattle.pal_acts.specs.Values.{known};
ghost use Rattle.pal_asm.specs.declared.fault.PalFault.{PalFault as Faulty};
ghost use Rattle.pal_asm.specs.Sources.{texts, size_fault, Means, Refuses};
ghost use Rattle.pal_asm.specs.Programs.{symbols_in, image_in, words_in};
ghost use Rattle.pal_asm.specs.SourceInCode.{fault_of, RefusesActs};

use crate::fault::{AssembleFault, PalFault};
use crate::reading::read_source;
use crate::sizes::fault_of_sizes;
use instruct::Profile;
pub use pal_acts::Translation;
use pal_acts::{Acts, ActsFault};
use std::alloc::Allocator;

/// A refusal of acts as that of their source.
fn fault_of(refused: ActsFault) -> AssembleFault
    ensures { result ≡ fault_of refused }
{
    match refused {
        ActsFault::Fault(place, code) => AssembleFault::Source(PalFault {
            code,
            part: place.part,
            line: place.line,
        }),
        ActsFault::NoMemory => AssembleFault::NoMemory,
    }
}

/// What acts mean under the permanent symbols of a profile, or their fault at its place.
pub(crate) fn translate_acts<A: Allocator + Copy>(
    alloc: A,
    acts: &Acts<A>,
    profile: Profile,
) -> Result<Translation<A>, AssembleFault>
    ensures found { IfOk result (λ found. IsSource (permanent_symbols profile) 1024 acts.now
        (symbols_in found) (image_in found)) }
    ensures words { IfOk result (λ found. words_in found ≡
        all_words (known (permanent_symbols profile) (symbols_in found)) acts.now) }
    ensures refused { IfErr result (RefusesActs (permanent_symbols profile) acts.now) }
{
    match pal_acts::assemble(alloc, acts, profile) {
        Ok(found) => Ok(found),
        Err(refused) => Err(fault_of(refused)),
    }
}

/// What a source means whose parts are not too many or too long, or its fault.
fn translate_parts<A: Allocator + Copy>(
    alloc: A,
    parts: &[&[u8]],
    profile: Profile,
) -> Result<Translation<A>, AssembleFault>
    requires { size_fault (texts parts.now) ≡ None }
    ensures meaning { IfOk result (λ translation. Means (permanent_symbols profile)
        (texts parts.now) (symbols_in translation) (image_in translation)) }
    ensures refused { IfErr result (Refuses (permanent_symbols profile) (texts parts.now)) }
{
    let Ok(reading) = read_source(alloc, parts) else {
        return Err(AssembleFault::NoMemory);
    };
    translate_acts(alloc, &reading.acts, profile)
}

/// Translates a source as [`assemble`](crate::assemble) does, without a listing. That it has no
/// other answer is a law, [`sources_have_one_answer`](crate::laws::sources_have_one_answer).
///
/// # Errors
///
/// As of `assemble`.
pub fn translate<A: Allocator + Copy>(
    alloc: A,
    parts: &[&[u8]],
    profile: Profile,
) -> Result<Translation<A>, AssembleFault>
    ensures meaning { IfOk result (λ translation. Means (permanent_symbols profile)
        (texts parts.now) (symbols_in translation) (image_in translation)) }
    ensures refused { IfErr result (Refuses (permanent_symbols profile) (texts parts.now)) }
    // What is wrong with the sizes is told without memory.
    ensures sized { (fault : Faulty) → size_fault (texts parts.now) ≡ Some fault → result ≡
        Err (AssembleFault.Source fault) }
{
    match fault_of_sizes(parts) {
        Some(fault) => Err(AssembleFault::Source(fault)),
        None => translate_parts(alloc, parts, profile),
    }
}
