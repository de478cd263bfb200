//! The image, the symbols and the listing of a source.

ghost use Rattle.std.specs.Prelude.{◌≡◌, ◌++◌, ◌⊎◌, codes, false, is_err, IfOk, IfErr, OnOk, OnErr, MatchResult, ℕ, List, Option, Some, None, Err};
ghost use Rattle.pal_text.specs.declared.names.Name.{Name as Named};
ghost use Rattle.std.specs.Io.KnownBytes.{Appends};
ghost use Rattle.streams.specs.Bytes.{AppendsFront};
ghost use Rattle.pal_acts.specs.Permanent.{permanent_symbols};
ghost use Rattle.pal_asm.specs.declared.fault.PalFault.{PalFault as Faulty};
ghost use Rattle.pal_asm.specs.Sources.{texts, size_fault, Means, HasWords, IsFault, Refuses};
ghost use Rattle.pal_asm.specs.Listings.{symbols_text, Lists};
ghost use Rattle.pal_asm.specs.Programs.{symbols_in, words_in, symbols_of, image_of, words_of, listing_of};
ghost use Rattle.pal_asm.specs.SourceInCode.{lines_of_fronts, turns_text};

use crate::fault::AssembleFault;
use crate::listing::{ProgramLine, make_listing};
use crate::part_text::PartText;
use crate::reading::read_source;
use crate::sizes::fault_of_sizes;
use crate::translation::{Translation, translate_acts};
use bin_tape::Image;
use instruct::Profile;
use pal_acts::{PlacedWord, SymbolTable};
use std::alloc::Allocator;
use streams::{ByteSink, WriteFault, put};

/// What a source means, its listing, and where its lines are in the listing.
#[derive(Drop)]
pub struct Program<A: Allocator + Copy> {
    translation: Translation<A>,
    listing: Vec<u8, A>,
    lines: Vec<ProgramLine, A>,
}

impl<A: Allocator + Copy> Program<A> {
    /// The words of the program, each at its address.
    pub fn image(&self) -> &Image
        ensures { result.now ≡ image_of self.now }
    {
        &self.translation.image
    }

    /// The symbols that the source defines with their values, in the order of their definition.
    pub fn symbols(&self) -> &SymbolTable<A>
        ensures { result.now.entries ≡ symbols_of self.now }
    {
        &self.translation.own
    }

    /// The words with their places, in the order of the source; of several for one address the last one counts.
    pub fn words(&self) -> &[PlacedWord]
        ensures { result.now ≡ words_of self.now }
    {
        &self.translation.words
    }

    /// The lines of all parts, in order. This is tested, not proved.
    pub fn lines(&self) -> &[ProgramLine] {
        &self.lines
    }

    /// The text of a line as the listing has it, without blanks at its ends. This is tested, not proved.
    pub fn text(&self, line: &ProgramLine) -> &[u8] {
        line.text_in(&self.listing)
    }

    /// Writes the listing: each line of the source beside its first word in octal, the further
    /// words of a line on lines of their own, an empty line, and the symbols with their values.
    /// The sink has met no failure yet.
    ///
    /// # Errors
    ///
    /// `WriteFault` where a write failed or took nothing, which the mark shows; a prefix of the
    /// listing went out before it.
    pub fn write_listing<W: ByteSink>(&self, sink: &mut W) -> Result<(), WriteFault>
        requires unmarked { W.mark sink.old ≡ false }
        ensures whole { OnOk result (Appends (W.taken sink.old) (W.taken sink.new)
            (listing_of self.now)) }
        ensures front { OnErr result (AppendsFront (W.taken sink.old) (W.taken sink.new)
            (listing_of self.now)) }
        ensures marks { W.mark sink.new ≡ is_err result }
    {
        match put(sink, &self.listing) {
            Ok(()) => Ok(()),
            Err(_) => Err(WriteFault),
        }
    }
}

/// A program, by what was translated and the bytes of the parts that were read.
fn program_of<A: Allocator + Copy>(
    alloc: A,
    translation: Translation<A>,
    fronts: &[PartText<'_>],
) -> Result<Program<A>, AssembleFault>
    ensures translation { IfOk result (λ program. program.translation ≡ translation) }
    ensures listing { IfOk result (λ program. listing_of program ≡
        turns_text (lines_of_fronts fronts.now) (words_in translation) ++ codes "\n" ++
        symbols_text (symbols_in translation)) }
    ensures memory { IfErr result (λ fault. fault ≡ AssembleFault.NoMemory) }
{
    let mut lines = Vec::new(alloc);
    match make_listing(alloc, fronts, &translation, &mut lines) {
        Ok(listing) => Ok(Program {
            translation,
            listing,
            lines,
        }),
        Err(_) => Err(AssembleFault::NoMemory),
    }
}

/// What a source means whose parts are not too many or too long, with its listing, or its fault.
fn assemble_parts<A: Allocator + Copy>(
    alloc: A,
    parts: &[&[u8]],
    profile: Profile,
) -> Result<Program<A>, AssembleFault>
    requires { size_fault (texts parts.now) ≡ None }
    ensures meaning { IfOk result (λ program. Means (permanent_symbols profile) (texts parts.now)
        (symbols_of program) (image_of program)) }
    ensures words { IfOk result (λ program. HasWords (permanent_symbols profile)
        (texts parts.now) (symbols_of program) (words_of program)) }
    ensures listed { IfOk result (λ program. Lists (permanent_symbols profile) (texts parts.now)
        (symbols_of program) (listing_of program)) }
    ensures refused { IfErr result (Refuses (permanent_symbols profile) (texts parts.now)) }
{
    let Ok(reading) = read_source(alloc, parts) else {
        return Err(AssembleFault::NoMemory);
    };
    match translate_acts(alloc, &reading.acts, profile) {
        Ok(found) => program_of(alloc, found, &reading.fronts),
        Err(fault) => Err(fault),
    }
}

/// What a source means under the permanent symbols of a profile, with its listing.
fn assemble_for<A: Allocator + Copy>(
    alloc: A,
    parts: &[&[u8]],
    profile: Profile,
) -> Result<Program<A>, AssembleFault>
    ensures meaning { IfOk result (λ program. Means (permanent_symbols profile) (texts parts.now)
        (symbols_of program) (image_of program)) }
    ensures words { IfOk result (λ program. HasWords (permanent_symbols profile)
        (texts parts.now) (symbols_of program) (words_of program)) }
    ensures listed { IfOk result (λ program. Lists (permanent_symbols profile) (texts parts.now)
        (symbols_of program) (listing_of program)) }
    ensures refused { IfErr result (Refuses (permanent_symbols profile) (texts parts.now)) }
    ensures sized { (fault : Faulty) → size_fault (texts parts.now) ≡ Some fault → result ≡
        Err (AssembleFault.Source fault) }
{
    match fault_of_sizes(parts) {
        Some(fault) => Err(AssembleFault::Source(fault)),
        None => assemble_parts(alloc, parts, profile),
    }
}

/// Assembles a source: its parts one after another, up to `$` or the end of the last one.
///
/// # Errors
///
/// `Source` with the one fault of the source, at its part and its line. That there are no parts or
/// more than 16, or that a part has more than 65,536 bytes, is told before anything else.
/// `NoMemory` where memory was refused.
pub fn assemble<A: Allocator + Copy>(
    alloc: A,
    parts: &[&[u8]],
    profile: Profile,
) -> Result<Program<A>, AssembleFault>
    ensures meaning { IfOk result (λ program. Means (permanent_symbols profile) (texts parts.now)
        (symbols_of program) (image_of program)) }
    ensures words { IfOk result (λ program. HasWords (permanent_symbols profile)
        (texts parts.now) (symbols_of program) (words_of program)) }
    ensures listed { IfOk result (λ program. Lists (permanent_symbols profile) (texts parts.now)
        (symbols_of program) (listing_of program)) }
    ensures refused { IfErr result (Refuses (permanent_symbols profile) (texts parts.now)) }
    // A source that has a meaning is answered by no fault.
    ensures meant { (own : List (Named × ℕ)) (image : List (Option ℕ)) →
        Means (permanent_symbols profile) (texts parts.now) own image →
        MatchResult result (λ program. (symbols_of program ≡ own) × (image_of program ≡ image))
        (λ refused. refused ≡ AssembleFault.NoMemory) }
    // A source that has a fault is answered by no other, and by no meaning.
    ensures faulty { (fault : Faulty) → IsFault (permanent_symbols profile) (texts parts.now)
        fault → MatchResult result (λ program. ⊥) (λ refused.
        (refused ≡ AssembleFault.Source fault) ⊎ (refused ≡ AssembleFault.NoMemory)) }
    // What is wrong with the sizes is told without memory.
    ensures sized { (fault : Faulty) → size_fault (texts parts.now) ≡ Some fault → result ≡
        Err (AssembleFault.Source fault) }
{
    assemble_for(alloc, parts, profile)
}
