//! The source that is given: the one that reads best among those that mean the image.

ghost use Rattle.std.specs.Prelude.{◌≡◌, IfOk, IfSome, true};
ghost use Rattle.declaration.specs.DeclarationInCode.{meaning};
ghost use Rattle.source_writer.specs.Meaning.{IsSourceOf};

use crate::outline::Outline;
use crate::pretty::pretty_source;
use crate::promise::push_promise;
use bin_tape::Image;
use declaration::Declaration;
use instruct::Profile;
use pal_asm::{AssembleFault, translate};
use std::alloc::{AllocError, Allocator};
use word12::Word;

/// Whether the assembler reads exactly this image in a text.
fn means<A: Allocator + Copy>(
    alloc: A,
    image: &Image,
    text: &[u8],
    profile: Profile,
) -> Result<bool, AllocError>
    ensures { IfOk result (λ found. found ≡ true → IsSourceOf profile image.now text.now) }
{
    match translate(alloc, &[text], profile) {
        Ok(translation) => Ok(*translation.image() == *image),
        Err(AssembleFault::Source(_)) => Ok(false),
        Err(AssembleFault::NoMemory) => Err(AllocError),
    }
}

/// The source of an image as an outline shows it, with comments or without them, if it means the image.
fn source_as<A: Allocator + Copy>(
    alloc: A,
    image: &Image,
    outline: &Outline,
    comments: Option<&[u8]>,
) -> Result<Option<Vec<u8, A>>, AllocError>
    ensures { IfOk result (λ found. IfSome found (λ text.
        IsSourceOf outline.now.profile image.now text.items)) }
{
    let text = pretty_source(alloc, image, outline, comments)?;
    if means(alloc, image, &text, outline.profile)? {
        Ok(Some(text))
    } else {
        Ok(None)
    }
}

/// The source of an image as an outline shows it: with comments, of which these are on the whole program; where that is
/// too long, without them; and where this is too long as well, as octal words alone, which are never too long.
fn source_by<A: Allocator + Copy>(
    alloc: A,
    image: &Image,
    outline: &Outline,
    comments: &[u8],
) -> Result<Option<Vec<u8, A>>, AllocError>
    ensures { IfOk result (λ found. IfSome found (λ text.
        IsSourceOf outline.now.profile image.now text.items)) }
{
    if let Some(commented) = source_as(alloc, image, outline, Some(comments))? {
        return Ok(Some(commented));
    }
    if let Some(bare) = source_as(alloc, image, outline, None)? {
        return Ok(Some(bare));
    }
    let words = Outline::new(outline.start, outline.profile);
    source_as(alloc, image, &words, None)
}

/// A source of an image, for a machine and a program that starts here: where control is found to go words
/// are written as instructions, and as data elsewhere. However it is written, it means this image. There is none only if
/// the assembler reads no text that was tried as this image.
///
/// # Errors
///
/// Memory was refused.
pub fn source_of<A: Allocator + Copy>(
    alloc: A,
    image: &Image,
    start: Word,
    profile: Profile,
) -> Result<Option<Vec<u8, A>>, AllocError>
    ensures { IfOk result (λ found. IfSome found (λ text.
        IsSourceOf profile image.now text.items)) }
{
    source_by(alloc, image, &Outline::of(image, start, profile), b"")
}

/// A source of an image, for a program with this declaration: the words of its bodies are written as
/// instructions. It means this image on the declared machine. Comments that begin with `/:` say in its first lines
/// what is declared. There is none only if the assembler reads no text that was tried as this image.
///
/// # Errors
///
/// Memory was refused.
pub fn declared_source_of<A: Allocator + Copy, D: Allocator>(
    alloc: A,
    image: &Image,
    declaration: &Declaration<D>,
) -> Result<Option<Vec<u8, A>>, AllocError>
    ensures { IfOk result (λ found. IfSome found (λ text.
        IsSourceOf (meaning declaration.now).profile image.now text.items)) }
{
    let mut comments = Vec::new(alloc);
    push_promise(&mut comments, declaration)?;
    source_by(
        alloc,
        image,
        &Outline::declared(image, declaration),
        &comments,
    )
}
