//! The meaning of a source, or its first fault.

ghost use Rattle.std.specs.Prelude.{◌≡◌, [], Some, Err, reverse, IfOk, IfErr, OnOk};
ghost use Rattle.pal_acts.specs.Acts.{shown};
ghost use Rattle.pal_acts.specs.Values.{known};
ghost use Rattle.pal_acts.specs.Meaning.{location_after, Defines};
ghost use Rattle.pal_acts.specs.Words.{word_of};
ghost use Rattle.pal_acts.specs.Permanent.{permanent_symbols};
ghost use Rattle.pal_acts.specs.Sources.{IsSource, IsImage, Encodes, all_words};
ghost use Rattle.pal_acts.specs.Faults.{Refuses};
ghost use Rattle.pal_acts.specs.Steps.{StopsBy, FindsBy, BreaksBy, Codes, Keeps};

use crate::act::{Act, PlacedWord, SourcePlace};
use crate::acts::{Acts, SourceAct};
use crate::fault_code::FaultCode;
use crate::permanent::permanent_table;
use crate::symbols::{Refusal, SymbolTable, Symbols};
use bin_tape::Image;
use instruct::Profile;
use std::alloc::Allocator;
use word12::Word;

/// Why a source is refused.
#[derive(Clone, Copy, PartialEq, Eq)]
pub enum ActsFault {
    /// An act at this place has this fault, the first of the source.
    Fault(SourcePlace, FaultCode),
    /// Memory was refused.
    NoMemory,
}

/// What a source means: its own symbols, its image, and its words.
#[derive(Drop)]
pub struct Translation<A: Allocator + Copy> {
    pub own: SymbolTable<A>,
    pub image: Image,
    pub words: Vec<PlacedWord, A>,
}

impl<A: Allocator + Copy> Translation<A> {
    /// The words of the program, each at its address.
    pub fn image(&self) -> &Image
        ensures { result.now ≡ self.now.image }
    {
        &self.image
    }

    /// The symbols that the source defines with their values, in the order of their definition.
    pub fn symbols(&self) -> &SymbolTable<A>
        ensures { result.now.entries ≡ self.now.own.entries }
    {
        &self.own
    }

    /// The words with their places, in the order of the source; of several for one address the last one counts.
    pub fn words(&self) -> &[PlacedWord]
        ensures { result.now ≡ self.now.words.items }
    {
        &self.words
    }
}

/// Takes acts one after another into symbols of which there are none yet but the permanent ones.
fn take_acts<A: Allocator + Copy>(
    symbols: &mut Symbols<'_, A>,
    acts: &Acts<A>,
) -> Result<(), ActsFault>
    requires { symbols.old.own.entries ≡ [] }
    ensures symbols { OnOk result (Defines symbols.old.permanent.now.entries 1024
        (reverse acts.now) symbols.new.own.entries) }
    ensures permanent { symbols.new.permanent.now.entries ≡ symbols.old.permanent.now.entries }
    ensures refused { IfErr result (StopsBy symbols.old.permanent.now.entries 1024 acts.now) }
{
    let mut here = Word::from_index(0o200);
    for at in 0..acts.len() {
        let next = acts.get(at);
        match symbols.act(&mut here, next.act, next.terms) {
            Ok(()) => {}
            Err(Refusal::Fault(code)) => return Err(ActsFault::Fault(next.place, code)),
            Err(Refusal::NoMemory) => return Err(ActsFault::NoMemory),
        }
    }
    Ok(())
}

/// The symbols of a source.
fn define<'p, A: Allocator + Copy>(
    alloc: A,
    permanent: &'p SymbolTable<A>,
    acts: &Acts<A>,
) -> Result<Symbols<'p, A>, ActsFault>
    ensures symbols { IfOk result (λ s. Defines permanent.now.entries 1024 (reverse acts.now)
        s.own.entries) }
    ensures permanent { IfOk result (λ s. s.permanent.now.entries ≡ permanent.now.entries) }
    ensures refused { IfErr result (StopsBy permanent.now.entries 1024 acts.now) }
{
    let mut symbols = Symbols::new(alloc, permanent);
    take_acts(&mut symbols, acts)?;
    Ok(symbols)
}

/// The word of an act at this location, if it has one. The location becomes that of the next act.
#[inline(always)]
fn code<A: Allocator + Copy>(
    symbols: &Symbols<'_, A>,
    next: SourceAct<'_>,
    here: &mut Word,
) -> Result<Option<PlacedWord>, FaultCode>
    ensures codes { IfOk result (Codes (known symbols.now.permanent.now.entries
        symbols.now.own.entries) here.old (shown next.entry)) }
    ensures moves { OnOk result (here.new ≡ location_after
        (known symbols.now.permanent.now.entries symbols.now.own.entries) here.old
        next.entry.terms.now next.entry.act) }
    ensures refused { IfErr result (λ code.
        word_of (known symbols.now.permanent.now.entries symbols.now.own.entries) here.old
        next.entry.terms.now next.entry.act ≡ Some (Err code)) }
{
    match next.act {
        Act::Word => {
            let at = *here;
            let word = symbols.word(at, next.terms)?;
            *here = at.increment();
            Ok(Some(PlacedWord {
                place: next.place,
                at,
                word,
            }))
        }
        Act::Origin => {
            *here = match symbols.value(*here, next.terms) {
                Some(origin) => origin,
                None => Word::ZERO,
            };
            Ok(None)
        }
        _ => Ok(None),
    }
}

/// Keeps the word of an act, if it has one, after others.
fn keep<A: Allocator + Copy>(
    symbols: &Symbols<'_, A>,
    next: SourceAct<'_>,
    kept: &mut Vec<PlacedWord, A>,
    here: &mut Word,
) -> Result<(), ActsFault>
    ensures keeps { OnOk result (Keeps (known symbols.now.permanent.now.entries
        symbols.now.own.entries) (shown next.entry) kept.old.items here.old kept.new.items
        here.new) }
    ensures refused { IfErr result (BreaksBy (known symbols.now.permanent.now.entries
        symbols.now.own.entries) here.old (shown next.entry)) }
{
    match code(symbols, next, here) {
        Ok(Some(found)) => match kept.push(found) {
            Ok(()) => Ok(()),
            Err(_) => Err(ActsFault::NoMemory),
        },
        Ok(None) => Ok(()),
        Err(code) => Err(ActsFault::Fault(next.place, code)),
    }
}

/// Keeps the words of acts whose symbols these are in an empty list, up to the first fault of a
/// word.
fn keep_all<A: Allocator + Copy>(
    symbols: &Symbols<'_, A>,
    acts: &Acts<A>,
    kept: &mut Vec<PlacedWord, A>,
) -> Result<(), ActsFault>
    requires { kept.old.items ≡ [] }
    ensures encodes { OnOk result (Encodes (known symbols.now.permanent.now.entries
        symbols.now.own.entries) (reverse acts.now)) }
    ensures words { OnOk result (kept.new.items ≡
        all_words (known symbols.now.permanent.now.entries symbols.now.own.entries) acts.now) }
    ensures refused { IfErr result (FindsBy (known symbols.now.permanent.now.entries
        symbols.now.own.entries) acts.now) }
{
    let mut here = Word::from_index(0o200);
    for at in 0..acts.len() {
        keep(symbols, acts.get(at), kept, &mut here)?;
    }
    Ok(())
}

/// The words of acts whose symbols these are, or the first fault of a word.
fn keep_words<A: Allocator + Copy>(
    alloc: A,
    symbols: &Symbols<'_, A>,
    acts: &Acts<A>,
) -> Result<Vec<PlacedWord, A>, ActsFault>
    ensures encodes { OnOk result (Encodes (known symbols.now.permanent.now.entries
        symbols.now.own.entries) (reverse acts.now)) }
    ensures words { IfOk result (λ kept. kept.items ≡
        all_words (known symbols.now.permanent.now.entries symbols.now.own.entries) acts.now) }
    ensures refused { IfErr result (FindsBy (known symbols.now.permanent.now.entries
        symbols.now.own.entries) acts.now) }
{
    let mut kept = Vec::new(alloc);
    keep_all(symbols, acts, &mut kept)?;
    Ok(kept)
}

/// The image of words that are in order.
fn image_of(found: &[PlacedWord]) -> Image
    ensures { IsImage (reverse found.now) result }
{
    let mut image = Image::empty();
    for word in found {
        image.set(word.at, word.word);
    }
    image
}

/// What a source means whose permanent symbols these are, or its first fault.
fn assemble_with<A: Allocator + Copy>(
    alloc: A,
    permanent: &SymbolTable<A>,
    acts: &Acts<A>,
) -> Result<Translation<A>, ActsFault>
    ensures found { IfOk result (λ found. IsSource permanent.now.entries 1024 acts.now
        found.own.entries found.image) }
    ensures words { IfOk result (λ found. found.words.items ≡
        all_words (known permanent.now.entries found.own.entries) acts.now) }
    ensures refused { IfErr result (Refuses permanent.now.entries 1024 acts.now) }
{
    let symbols = define(alloc, permanent, acts)?;
    let words = keep_words(alloc, &symbols, acts)?;
    let image = image_of(&words);
    let Symbols { own, .. } = symbols;
    Ok(Translation { own, image, words })
}

/// What a source means under the permanent symbols of a profile. The words are those of the image
/// and those that later ones replace, each at its place in the source.
///
/// # Errors
///
/// `Fault` with the first fault of the source and the place of its act: first those of what the acts define, in
/// order, and where there is none those of words. `NoMemory` where memory was refused.
pub fn assemble<A: Allocator + Copy>(
    alloc: A,
    acts: &Acts<A>,
    profile: Profile,
) -> Result<Translation<A>, ActsFault>
    ensures found { IfOk result (λ found. IsSource (permanent_symbols profile) 1024 acts.now
        found.own.entries found.image) }
    ensures words { IfOk result (λ found. found.words.items ≡
        all_words (known (permanent_symbols profile) found.own.entries) acts.now) }
    ensures refused { IfErr result (Refuses (permanent_symbols profile) 1024 acts.now) }
{
    let Ok(permanent) = permanent_table(alloc, profile) else {
        return Err(ActsFault::NoMemory);
    };
    assemble_with(alloc, &permanent, acts)
}
