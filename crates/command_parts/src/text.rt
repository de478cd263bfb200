//! Words, places and lines of a dump, as commands write them.

ghost use Rattle.std.specs.Prelude.{◌≡◌, ◌++◌, OnOk, IfOk};
ghost use Rattle.word12.specs.Words.{octal_text};
ghost use Rattle.command_parts.specs.Dumping.{dump_line, dump_text};

use bin_tape::Image;
use instruct::{Profile, name};
use std::alloc::{AllocError, Allocator};
use word12::Word;

/// Adds the four octal digits of a word.
pub fn push_word<A: Allocator>(text: &mut Vec<u8, A>, word: Word) -> Result<(), AllocError>
    ensures { OnOk result (text.new.items ≡ text.old.items ++ octal_text word) }
{
    text.extend_from_slice(&word.to_octal())
}

/// Adds a name and the address that it stands for.
pub fn push_place<A: Allocator>(
    text: &mut Vec<u8, A>,
    name: &[u8],
    at: Word,
) -> Result<(), AllocError>
    ensures { OnOk result (text.new.items ≡ text.old.items ++ (name.now ++ octal_text at)) }
{
    text.extend_from_slice(name)?;
    push_word(text, at)
}

/// Adds the line of an address that has a word.
pub fn push_dump_line<A: Allocator>(
    text: &mut Vec<u8, A>,
    at: Word,
    word: Option<Word>,
    profile: Profile,
) -> Result<(), AllocError>
    ensures { OnOk result (text.new.items ≡ text.old.items ++ dump_line profile at word) }
{
    let Some(word) = word else {
        return Ok(());
    };
    push_word(text, at)?;
    text.extend_from_slice(b" ")?;
    push_word(text, word)?;
    text.extend_from_slice(b" ")?;
    text.extend_from_slice(name(word, profile).as_str().as_bytes())?;
    text.extend_from_slice(b"\n")
}

/// The text of an image, a line for each word.
#[tactic(auto, using(crate::proofs::TextLemmas::dump_steps))]
pub fn dump_of<A: Allocator>(
    alloc: A,
    image: &Image,
    profile: Profile,
) -> Result<Vec<u8, A>, AllocError>
    ensures { IfOk result (λ text. text.items ≡ dump_text profile image.now) }
{
    let mut text = Vec::new(alloc);
    for index in 0..4096 {
        let at = Word::from_index(index);
        push_dump_line(&mut text, at, image.get(at), profile)?;
    }
    Ok(text)
}
