//! The line of a verdict.

ghost use Rattle.std.specs.Prelude.{◌≡◌, ◌+◌, ◌++◌, ◌&&◌, nat_lt, codes, decimal, length, OnOk, IfOk};
ghost use Rattle.wordset.specs.Words.{SameWords, meet, some_below};
ghost use Rattle.wordset.specs.Lanes.{words};
ghost use Rattle.declaration.specs.DeclarationInCode.{meaning};
ghost use Rattle.diagnostics.specs.CheckText.{condition_text, counted, in_bodies, is_halt, more_text, no_text, reads_text, verdict_status, verdict_text, widened_text, yes_text};

use command_parts::status::Status;
use declaration::Declaration;
use itoa::Buffer;
use judge::{Condition, Refusal};
use std::alloc::{AllocError, Allocator};
use word12::Word;
use wordset::WordSet;

/// The name of a condition.
pub fn condition_name(condition: Condition) -> &'static str
    ensures { result.now ≡ condition_text condition }
{
    match condition {
        Condition::V1 => "V1",
        Condition::V2 => "V2",
        Condition::V3 => "V3",
        Condition::V4 => "V4",
        Condition::V5 => "V5",
        Condition::V6 => "V6",
        Condition::V7 => "V7",
        Condition::V8 => "V8",
        Condition::V9 => "V9",
        Condition::V10 => "V10",
        Condition::V11 => "V11",
        Condition::V12 => "V12",
        Condition::V13 => "V13",
        Condition::V14 => "V14",
        Condition::V15 => "V15",
        Condition::V16 => "V16",
    }
}

/// The line for a condition that fails.
fn no_line<A: Allocator>(alloc: A, refusal: Refusal) -> Result<Vec<u8, A>, AllocError>
    ensures { IfOk result (λ text. text.items ≡ no_text refusal) }
{
    let mut text = Vec::new(alloc);
    text.extend_from_slice(b"no: ")?;
    text.extend_from_slice(condition_name(refusal.condition).as_bytes())?;
    text.extend_from_slice(b" at ")?;
    text.extend_from_slice(&refusal.address.to_octal())?;
    text.extend_from_slice(b"\n")?;
    Ok(text)
}

/// The cells of all bodies.
fn cells_of_bodies<D: Allocator>(declaration: &Declaration<D>) -> WordSet
    ensures { SameWords (words result) (in_bodies (meaning declaration.now)) }
{
    declaration.is_declared();
    declaration.bodies()
}

/// The declared halts.
fn halts_of<D: Allocator>(declaration: &Declaration<D>) -> WordSet
    ensures { SameWords (words result) (is_halt (meaning declaration.now)) }
{
    declaration.stops().union(declaration.pauses())
}

/// Adds a number, and what there are so many of.
fn push_number<A: Allocator>(
    text: &mut Vec<u8, A>,
    number: usize,
    name: &[u8],
) -> Result<(), AllocError>
    ensures { OnOk result (text.new.items ≡ text.old.items ++ (decimal number ++ name.now)) }
{
    let mut digits = Buffer::new();
    text.extend_from_slice(digits.format(number).as_bytes())?;
    text.extend_from_slice(name)
}

/// Adds how many cells a set has, and what they are.
fn push_count<A: Allocator>(
    text: &mut Vec<u8, A>,
    cells: &WordSet,
    name: &[u8],
) -> Result<(), AllocError>
    ensures { OnOk result
        (text.new.items ≡ text.old.items ++ counted (words cells.now) name.now) }
{
    push_number(text, cells.count(), name)
}

/// Adds how many cells are in bodies, how many are variables, how many entries there are and how many
/// declared halts.
fn push_counts<A: Allocator, D: Allocator>(
    text: &mut Vec<u8, A>,
    declaration: &Declaration<D>,
) -> Result<(), AllocError>
    ensures { let d = meaning declaration.now in OnOk result (text.new.items ≡ text.old.items
        ++ counted (in_bodies d) (codes " body cells, ")
        ++ counted d.variable (codes " variable cells, ")
        ++ counted d.entry (codes " entries, ") ++ counted (is_halt d) (codes " halts")) }
{
    push_count(text, &cells_of_bodies(declaration), b" body cells, ")?;
    push_count(text, declaration.variables(), b" variable cells, ")?;
    push_count(text, &declaration.entries(), b" entries, ")?;
    push_count(text, &halts_of(declaration), b" halts")
}

/// Adds how many cells may be read, where they are listed.
fn push_reads<A: Allocator, D: Allocator>(
    text: &mut Vec<u8, A>,
    declaration: &Declaration<D>,
) -> Result<(), AllocError>
    ensures { OnOk result
        (text.new.items ≡ text.old.items ++ reads_text (meaning declaration.now).reads) }
{
    let Some(cells) = declaration.reads() else {
        return Ok(());
    };
    text.extend_from_slice(b", ")?;
    push_count(text, cells, b" read cells")
}

/// Adds how many there are of something, after a comma, with its name for one and for more, if there are any.
fn push_more<A: Allocator>(
    text: &mut Vec<u8, A>,
    count: usize,
    one: &[u8],
    more: &[u8],
) -> Result<(), AllocError>
    ensures { OnOk result
        (text.new.items ≡ text.old.items ++ more_text count one.now more.now) }
{
    if count == 0 {
        return Ok(());
    }
    text.extend_from_slice(b", ")?;
    push_number(text, count, if count == 1 { one } else { more })
}

/// Adds how many lines declare what is to hold, if some do.
fn push_assertions<A: Allocator, D: Allocator>(
    text: &mut Vec<u8, A>,
    declaration: &Declaration<D>,
) -> Result<(), AllocError>
    ensures { let d = meaning declaration.now in OnOk result (text.new.items ≡ text.old.items
        ++ more_text (length d.holds + length d.returns) (codes " assertions") (codes " assertions")) }
{
    let at_places = declaration.holds().len();
    let at_returns = declaration.returns().len();
    push_more(text, at_places + at_returns, b" assertions", b" assertions")
}

/// Whether a routine may return by an offset above 7.
fn is_skipping<D: Allocator>(declaration: &Declaration<D>, entry: Word) -> bool
    ensures { result
        ≡ some_below 64 (λ o. nat_lt 7 o && (meaning declaration.now).offset entry o) }
{
    for offset in 8..64usize {
        if declaration.has_offset(entry, Word::from_index(offset)) {
            return true;
        }
    }
    false
}

/// Those of the routines of these entries that may return by offsets above 7.
fn skipping<D: Allocator>(declaration: &Declaration<D>, entries: &WordSet) -> WordSet
    ensures { words result ≡ meet (words entries.now)
        (λ e. some_below 64 (λ o. nat_lt 7 o && (meaning declaration.now).offset e o)) }
{
    let mut found = WordSet::empty();
    for entry in entries.iter() {
        if is_skipping(declaration, entry) {
            found.insert(entry);
        }
    }
    found
}

/// Adds for how many addresses calls may be abandoned, how many routines may store their return word, and how many may
/// return by offsets above 7.
fn push_widened<A: Allocator, D: Allocator>(
    text: &mut Vec<u8, A>,
    declaration: &Declaration<D>,
) -> Result<(), AllocError>
    ensures { OnOk result
        (text.new.items ≡ text.old.items ++ widened_text (meaning declaration.now)) }
{
    let abandons = declaration.abandons().count();
    push_more(text, abandons, b" abandon place", b" abandon places")?;
    let moves = declaration.moves().count();
    push_more(text, moves, b" moved return", b" moved returns")?;
    let entries = declaration.entries();
    let skips = skipping(declaration, &entries).count();
    push_more(text, skips, b" skip", b" skips")
}

/// The line of a program that is safe.
fn yes_line<A: Allocator, D: Allocator>(
    alloc: A,
    declaration: &Declaration<D>,
) -> Result<Vec<u8, A>, AllocError>
    ensures { IfOk result (λ text. text.items ≡ yes_text (meaning declaration.now)) }
{
    let mut text = Vec::new(alloc);
    text.extend_from_slice(b"yes: ")?;
    push_counts(&mut text, declaration)?;
    push_reads(&mut text, declaration)?;
    push_assertions(&mut text, declaration)?;
    push_widened(&mut text, declaration)?;
    text.extend_from_slice(b"\n")?;
    Ok(text)
}

/// The line of a verdict.
pub fn verdict_line<A: Allocator, D: Allocator>(
    alloc: A,
    declaration: &Declaration<D>,
    verdict: &Result<(), Refusal>,
) -> Result<Vec<u8, A>, AllocError>
    ensures { IfOk result (λ text.
        text.items ≡ verdict_text (meaning declaration.now) verdict.now) }
{
    match verdict {
        Ok(()) => yes_line(alloc, declaration),
        Err(refusal) => no_line(alloc, *refusal),
    }
}

/// A program that is not certified is refused.
pub fn verdict_status(verdict: &Result<(), Refusal>) -> Status
    ensures { result ≡ verdict_status verdict.now }
{
    match verdict {
        Ok(()) => Status::Done,
        Err(_) => Status::Refused,
    }
}
