//! The lines of a declaration that stand within a source, and the machine that a declaration names.

ghost use Rattle.std.specs.Prelude.{◌≡◌, [], ◌∷◌, ◌++◌, length, IfOk, OnOk};
ghost use Rattle.std.specs.List.{AllByRecursion, after_first, position};
ghost use Rattle.streams.specs.Text.{words_of};
ghost use Rattle.pal_text.specs.Characters.{characters};
ghost use Rattle.pal_text.specs.Order.{IsLineWithin};
ghost use Rattle.pal_asm.specs.Sources.{texts};
ghost use Rattle.labels.specs.Located.{located};
ghost use Rattle.labels.specs.Within.{Adds, Declared, DeclaredWithin, after_colon, declared_part, is_8e, is_slash_code, machine, reads_on, reads_on_after};

use crate::located::{address_on, lacks_some, push_located};
use instruct::Profile;
use pal_acts::{PlacedWord, SourcePlace};
use pal_asm::{AssembleFault, assemble, push_characters};
use pal_text::{Ending, Line, TextFault, statements};
use std::alloc::{AllocError, Allocator};
use streams::text::{self, Lines, Words};
use word12::Word;

/// Whether a line names the 8/E.
fn is_8e(line: &[u8]) -> bool
    ensures { result ≡ is_8e (words_of line.now) }
{
    let mut words = Words::of(line);
    let Some(name) = words.next() else {
        return false;
    };
    let Some(machine) = words.next() else {
        return false;
    };
    match words.next() {
        None => text::is(name, "profile") && text::is(machine, "8e"),
        Some(_) => false,
    }
}

/// The machine that a declaration names: the 8/E where a line is `profile 8e`, else the 8/I.
pub fn machine_of(declaration: &[u8]) -> Profile
    ensures { result ≡ machine declaration.now }
{
    let mut lines = Lines::of(declaration);
    while let Some(line) = lines.next() {
        if is_8e(line) {
            return Profile::Pdp8E;
        }
    }
    Profile::Pdp8I
}

/// The first place of a slash in a source's line.
fn place_of_slash(line: &[u8]) -> Option<usize>
    ensures { result ≡ position is_slash_code line.now }
{
    line.iter().position(|byte| *byte % 0o200 == b'/')
}

/// The comment of a source's line, without its `/`.
fn comment_of(line: &[u8]) -> &[u8]
    ensures { result.now ≡ after_first is_slash_code line.now }
{
    match place_of_slash(line) {
        Some(end) => &line[end + 1..],
        None => &[],
    }
}

/// What the characters of a comment say to a declaration: what follows a colon at their front.
fn after_colon(comment: &[u8]) -> &[u8]
    ensures { result.now ≡ after_colon comment.now }
{
    match comment {
        [b':', more @ ..] => more,
        _ => &[],
    }
}

/// Adds the line of a declaration that a line of a source holds beside a statement with this address, if there is a
/// statement; it is empty where that holds none.
fn push_declared<A: Allocator + Copy>(
    alloc: A,
    text: &mut Vec<u8, A>,
    line: &[u8],
    at: Option<Word>,
) -> Result<(), AllocError>
    ensures { OnOk result (text.new.items ≡ text.old.items ++
        (located at (after_colon (characters (after_first is_slash_code line.now))) ++ 10 ∷ [])) }
{
    let mut comment = Vec::new(alloc);
    push_characters(&mut comment, comment_of(line))?;
    push_located(at, after_colon(&comment), text)?;
    text.extend_from_slice(b"\n")
}

/// A part of a source, with its number, from 1.
#[derive(Clone, Copy)]
struct NumberedPart<'a> {
    number: usize,
    source: &'a [u8],
}

/// Adds a line for each of these lines of a part, with the addresses of these words.
fn push_lines<A: Allocator + Copy>(
    alloc: A,
    text: &mut Vec<u8, A>,
    part: &NumberedPart<'_>,
    lines: &[Line],
    words: &[PlacedWord],
) -> Result<(), AllocError>
    requires { AllByRecursion (IsLineWithin (length part.now.source.now)) lines.now }
    ensures { OnOk result (text.new.items ≡ text.old.items ++
        declared_part words.now part.now.number 1 part.now.source.now lines.now) }
{
    for (at, line) in lines.iter().enumerate() {
        let place = SourcePlace {
            part: part.number,
            line: at + 1,
        };
        push_declared(
            alloc,
            text,
            &part.source[line.start..line.end],
            address_on(words, place),
        )?;
    }
    Ok(())
}

/// Whether the part behind one that ends so is read.
pub(crate) fn reads_on(ending: Ending) -> bool
    ensures { result ≡ reads_on ending }
{
    match ending {
        Ending::Dollar => false,
        Ending::Pause => true,
        Ending::Bytes => true,
    }
}

/// Whether the part behind one with this fault is read: it is not.
pub(crate) fn reads_on_after(fault: TextFault) -> Result<bool, AllocError>
    ensures { result ≡ reads_on_after fault }
{
    match fault {
        TextFault::Illegal(_) => Ok(false),
        TextFault::TooLong => Ok(false),
        TextFault::NoMemory => Err(AllocError),
    }
}

/// Adds what a part declares with the addresses of these words, and says whether the part after it is read.
fn push_part<A: Allocator + Copy>(
    alloc: A,
    text: &mut Vec<u8, A>,
    part: &NumberedPart<'_>,
    words: &[PlacedWord],
) -> Result<bool, AllocError>
    ensures { IfOk result (λ on. Adds words.now part.now.number part.now.source.now on
        text.old.items text.new.items) }
{
    match statements(alloc, part.source) {
        Ok(found) => {
            push_lines(alloc, text, part, &found.lines, words)?;
            Ok(reads_on(found.ending))
        }
        Err(fault) => reads_on_after(fault),
    }
}

/// The declaration that stands within a source, with the addresses of these words.
fn lines_with<A: Allocator + Copy>(
    alloc: A,
    parts: &[&[u8]],
    words: &[PlacedWord],
) -> Result<Vec<u8, A>, AllocError>
    ensures { IfOk result (λ text. Declared words.now 1 (texts parts.now) text.items) }
{
    let mut text = Vec::new(alloc);
    for (at, source) in parts.iter().enumerate() {
        let part = NumberedPart {
            number: at + 1,
            source,
        };
        let on = push_part(alloc, &mut text, &part, words)?;
        if !on {
            return Ok(text);
        }
    }
    Ok(text)
}

/// The lines of a declaration that stand within a source: for each line of the source a line, which has what
/// follows the `/:` with which a comment begins, and is empty where there is no such comment. So a line has
/// the number that it has in the source, counted on from part to part. What comes after `$` or PAUSE is not
/// looked at, nor is a part that has no form, nor any part after it.
///
/// # Errors
///
/// Where memory was refused.
pub fn declared_lines<A: Allocator + Copy>(
    alloc: A,
    parts: &[&[u8]],
) -> Result<Vec<u8, A>, AllocError>
    ensures { IfOk result (λ text. Declared [] 1 (texts parts.now) text.items) }
{
    lines_with(alloc, parts, &[])
}

/// The declaration that stands within a source: its lines as `declared_lines` gives them, but one beside a statement
/// may leave out its address, and then has that of the first word of the statement. So `holds` may be followed by
/// its assertion, `returns` by that or by offsets of one or two digits, `skips` by such offsets, and `moves` and
/// `abandon` by nothing. For this the source is assembled, if a line leaves out its address; where the source has a
/// fault such lines stay as they are.
///
/// # Errors
///
/// Where memory was refused.
pub fn declaration_within<A: Allocator + Copy>(
    alloc: A,
    parts: &[&[u8]],
) -> Result<Vec<u8, A>, AllocError>
    ensures { IfOk result (λ text. DeclaredWithin (texts parts.now) text.items) }
{
    let text = declared_lines(alloc, parts)?;
    if !lacks_some(&text) {
        return Ok(text);
    }
    match assemble(alloc, parts, machine_of(&text)) {
        Ok(program) => lines_with(alloc, parts, program.words()),
        Err(AssembleFault::Source(_)) => Ok(text),
        Err(AssembleFault::NoMemory) => Err(AllocError),
    }
}
