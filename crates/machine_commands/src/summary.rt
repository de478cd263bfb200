//! The summary of a run.

ghost use Rattle.std.specs.Prelude.{◌≡◌, false, ◌++◌, codes, decimal, map, OnOk, IfOk};
ghost use Rattle.wordset.specs.Lanes.{words};
ghost use Rattle.processor.specs.Cells.{cell_of};
ghost use Rattle.processor.specs.Steps.{state_of};
ghost use Rattle.peripherals.specs.World.{view};
ghost use Rattle.machine_commands.specs.Session.{character, leaves_open, parting, summary_where};
ghost use Rattle.machine_commands.specs.Trace.{link_text};
ghost use Rattle.machine_commands.specs.Summary.{end_text, registers_text, state_line, byte_text, bytes_text, output_line, cell_line, cells_below, cells_text, closing, closing_as, frames_word, printed_line, punched_line, saved_line, summary_as};

use crate::follow::{End, RunOutcome};
use command_parts::options::SummaryForm;
use command_parts::text::{push_place, push_word};
use itoa::Buffer;
use peripherals::World;
use processor::{Cpu, Memory};
use std::alloc::{AllocError, Allocator};
use word12::{Link, Word};
use wordset::WordSet;

/// Adds how a run ended, and where.
fn push_end<A: Allocator>(text: &mut Vec<u8, A>, end: End) -> Result<(), AllocError>
    ensures { OnOk result (text.new.items ≡ text.old.items ++ end_text end) }
{
    match end {
        End::Unsupported(at) => push_place(text, b"UNSUPPORTED ", at),
        End::Halted(at) => push_place(text, b"HALT ", at),
        End::Bound(at) => push_place(text, b"BOUND ", at),
        End::Stopped(at) => push_place(text, b"STOPPED ", at),
        End::Interrupted(at) => push_place(text, b"INTERRUPTED ", at),
    }
}

/// Adds the link after its name.
fn push_link<A: Allocator>(text: &mut Vec<u8, A>, link: Link) -> Result<(), AllocError>
    ensures { OnOk result (text.new.items ≡ text.old.items ++ (codes " L=" ++ link_text link)) }
{
    text.extend_from_slice(if link.is_set() { b" L=1" } else { b" L=0" })
}

/// Adds the accumulator, the link and the program counter.
fn push_registers<A: Allocator>(text: &mut Vec<u8, A>, cpu: &Cpu) -> Result<(), AllocError>
    ensures { OnOk result (text.new.items ≡ text.old.items ++ registers_text (state_of cpu.now)) }
{
    text.extend_from_slice(b" AC=")?;
    push_word(text, cpu.ac)?;
    push_link(text, cpu.link)?;
    text.extend_from_slice(b" PC=")?;
    push_word(text, cpu.pc)
}

/// Adds how many instructions were carried out.
fn push_steps<A: Allocator>(text: &mut Vec<u8, A>, steps: u64) -> Result<(), AllocError>
    ensures { OnOk result
        (text.new.items ≡ text.old.items ++ (codes " STEPS=" ++ decimal steps ++ codes "\n")) }
{
    let mut digits = Buffer::new();
    text.extend_from_slice(b" STEPS=")?;
    text.extend_from_slice(digits.format(steps).as_bytes())?;
    text.extend_from_slice(b"\n")
}

/// Adds the first line of a summary.
pub(crate) fn push_state<A: Allocator, B: Allocator>(
    text: &mut Vec<u8, A>,
    outcome: &RunOutcome,
    world: &World<B>,
) -> Result<(), AllocError>
    ensures { OnOk result
        (text.new.items ≡ text.old.items
        ++ state_line outcome.now.end (view world.now) outcome.now.steps) }
{
    push_end(text, outcome.end)?;
    push_registers(text, world.cpu())?;
    push_steps(text, outcome.steps)
}

/// The three octal digits of a byte, after a space.
fn spaced_octal(byte: u8) -> [u8; 4]
    ensures { result ≡ byte_text byte }
{
    [
        b' ',
        b'0' + (byte >> 6),
        b'0' + (byte >> 3 & 7),
        b'0' + (byte & 7),
    ]
}

/// Adds the bytes that a device put out.
#[tactic(auto, using(crate::proofs::SummaryLemmas::next_byte))]
fn push_bytes<A: Allocator>(text: &mut Vec<u8, A>, bytes: &[u8]) -> Result<(), AllocError>
    ensures { OnOk result (text.new.items ≡ text.old.items ++ bytes_text bytes.now) }
{
    for byte in bytes {
        text.extend_from_slice(&spaced_octal(*byte))?;
    }
    Ok(())
}

/// Adds the line of a device that put out anything.
fn push_output<A: Allocator>(
    text: &mut Vec<u8, A>,
    name: &[u8],
    bytes: &[u8],
) -> Result<(), AllocError>
    ensures { OnOk result (text.new.items ≡ text.old.items ++ output_line name.now bytes.now) }
{
    if bytes.is_empty() {
        return Ok(());
    }
    text.extend_from_slice(name)?;
    push_bytes(text, bytes)?;
    text.extend_from_slice(b"\n")
}

/// Adds the line of a cell, if it is to be shown.
fn push_cell<A: Allocator>(
    text: &mut Vec<u8, A>,
    show: &WordSet,
    memory: &Memory,
    at: Word,
) -> Result<(), AllocError>
    ensures { OnOk result (text.new.items ≡ text.old.items
        ++ cell_line (words show.now at) at (cell_of memory.now at)) }
{
    if !show.contains(at) {
        return Ok(());
    }
    push_word(text, at)?;
    text.extend_from_slice(b" ")?;
    push_word(text, memory.get(at))?;
    text.extend_from_slice(b"\n")
}

/// Adds the lines of the cells that are to be shown, by rising address, with their words in a memory.
#[tactic(auto, using(crate::proofs::SummaryLemmas::cells_steps))]
fn push_cells<A: Allocator>(
    text: &mut Vec<u8, A>,
    show: &WordSet,
    memory: &Memory,
) -> Result<(), AllocError>
    ensures { OnOk result (text.new.items ≡ text.old.items
        ++ cells_below (words show.now) (cell_of memory.now) 4096) }
{
    for index in 0..4096 {
        push_cell(text, show, memory, Word::from_index(index))?;
    }
    Ok(())
}

/// The memory of a world.
fn memory_of<B: Allocator>(world: &World<B>) -> &Memory
    ensures { cell_of result.now ≡ (view world.now).state.memory }
{
    &world.cpu().memory
}

/// Adds the lines of the cells that are to be shown, with their words in a world.
pub(crate) fn push_shown<A: Allocator, B: Allocator>(
    text: &mut Vec<u8, A>,
    show: &WordSet,
    world: &World<B>,
) -> Result<(), AllocError>
    ensures { OnOk result (text.new.items ≡ text.old.items
        ++ cells_text (words show.now) (view world.now)) }
{
    push_cells(text, show, memory_of(world))
}

/// Whether bytes that were printed leave a line open: the last one is not a line feed.
#[tactic(auto, using(crate::proofs::SummaryLemmas::open_last))]
fn leaves_open(printed: &[u8]) -> bool
    ensures { result ≡ leaves_open (map character printed.now) }
{
    if printed.is_empty() {
        return false;
    }
    printed[printed.len() - 1] % 128 != b'\n'
}

/// What comes before a summary that is to stand apart: the end of an open line.
pub(crate) fn parting(apart: bool, printed: &[u8]) -> &'static [u8]
    ensures { result.now ≡ parting apart (map character printed.now) }
{
    if !apart {
        return b"";
    }
    if leaves_open(printed) { b"\n" } else { b"" }
}

/// Adds a number in decimal digits.
fn push_decimal<A: Allocator>(text: &mut Vec<u8, A>, number: usize) -> Result<(), AllocError>
    ensures { OnOk result (text.new.items ≡ text.old.items ++ decimal number) }
{
    let mut digits = Buffer::new();
    text.extend_from_slice(digits.format(number).as_bytes())
}

/// The word for so many frames.
fn frames_word(count: usize) -> &'static [u8]
    ensures { result.now ≡ frames_word count }
{
    if count == 1 {
        b" frame to "
    } else {
        b" frames to "
    }
}

/// Adds how many frames were punched into the file with this name, if any were.
fn push_saved<A: Allocator>(
    text: &mut Vec<u8, A>,
    name: &str,
    bytes: &[u8],
) -> Result<(), AllocError>
    ensures { OnOk result (text.new.items ≡ text.old.items ++ saved_line name.now bytes.now) }
{
    if bytes.is_empty() {
        return Ok(());
    }
    text.extend_from_slice(b"PUNCHED ")?;
    push_decimal(text, bytes.len())?;
    text.extend_from_slice(frames_word(bytes.len()))?;
    text.extend_from_slice(name.as_bytes())?;
    text.extend_from_slice(b"\n")
}

/// Adds the line of what was punched, into a file or not.
fn push_punched<A: Allocator>(
    text: &mut Vec<u8, A>,
    saved_in: Option<&str>,
    bytes: &[u8],
) -> Result<(), AllocError>
    ensures { OnOk result (text.new.items ≡ text.old.items ++ punched_line saved_in.entry bytes.now) }
{
    match saved_in {
        None => push_output(text, b"PUNCHED", bytes),
        Some(name) => push_saved(text, name, bytes),
    }
}

/// Adds the line of what was printed, unless it was seen.
fn push_printed<A: Allocator>(
    text: &mut Vec<u8, A>,
    seen: bool,
    bytes: &[u8],
) -> Result<(), AllocError>
    ensures { OnOk result (text.new.items ≡ text.old.items ++ printed_line seen bytes.now) }
{
    if seen {
        Ok(())
    } else {
        push_output(text, b"PRINTED", bytes)
    }
}

/// Adds the summary of a run in a form.
fn push_summary<A: Allocator, B: Allocator>(
    text: &mut Vec<u8, A>,
    form: &SummaryForm<'_>,
    outcome: &RunOutcome,
    world: &World<B>,
) -> Result<(), AllocError>
    ensures { OnOk result (text.new.items ≡ text.old.items
        ++ summary_as form.now outcome.now.end (view world.now) outcome.now.steps) }
{
    push_state(text, outcome, world)?;
    push_printed(text, form.seen, world.printed())?;
    push_punched(text, form.saved_in, world.punched())
}

/// Adds the summary of a run in a form, and after it the cells that are to be shown.
pub(crate) fn push_closing<A: Allocator, B: Allocator>(
    text: &mut Vec<u8, A>,
    form: &SummaryForm<'_>,
    outcome: &RunOutcome,
    world: &World<B>,
    show: &WordSet,
) -> Result<(), AllocError>
    ensures { OnOk result (text.new.items ≡ text.old.items ++ closing_as form.now
        (words show.now) outcome.now.end (view world.now) outcome.now.steps) }
{
    push_summary(text, form, outcome, world)?;
    push_shown(text, show, world)
}

/// The end of a report: the summary, on a line of its own where it is to stand apart, and the cells that
/// are to be shown.
pub(crate) fn closing_of<A: Allocator, B: Allocator>(
    alloc: A,
    outcome: &RunOutcome,
    world: &World<B>,
    form: &SummaryForm<'_>,
    show: &WordSet,
) -> Result<Vec<u8, A>, AllocError>
    ensures { IfOk result (λ text. text.items ≡ summary_where (words show.now) form.now
        outcome.now.end (view world.now) outcome.now.steps) }
{
    let mut text = Vec::new(alloc);
    text.extend_from_slice(parting(form.apart, world.printed()))?;
    push_closing(&mut text, form, outcome, world, show)?;
    Ok(text)
}

/// The summary of a run, and after it the cells that are to be shown.
pub fn summary_of<A: Allocator, B: Allocator>(
    alloc: A,
    outcome: &RunOutcome,
    world: &World<B>,
    show: &WordSet,
) -> Result<Vec<u8, A>, AllocError>
    ensures { IfOk result (λ text. text.items
        ≡ closing (words show.now) outcome.now.end (view world.now) outcome.now.steps) }
{
    closing_of(alloc, outcome, world, &SummaryForm::WHOLE, show)
}
