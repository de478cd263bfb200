//! The long trace of a run: what each instruction is, and what it read and wrote. The lines are tested and not proved.

ghost use Rattle.std.specs.Prelude.{◌≡◌, true, false, IfOk, IfErr, OnOk};
ghost use Rattle.command_parts.specs.Faults.{fails_to_write, IsRunFault};
ghost use Rattle.command_parts.specs.Writes.{Writes};
ghost use Rattle.machine_commands.specs.Course.{ends_at_halt, events_in};
ghost use Rattle.machine_commands.specs.LongTrace.{IsRunBehind, Appended};

use crate::follow::Course;
use crate::stopping::{cut_of, run_with_stops};
use crate::stops::goes_on;
use bin_tape::Image;
use command_parts::options::{RunOptions, Stops};
use command_parts::status::{Fault, Status};
use command_parts::text::{push_place, push_word};
use instruct::{Operation, Profile, name, refers_to_memory, target};
use peripherals::{Seen, Start, World};
use processor::{Cpu, DecodedInstruction, Reference};
use std::alloc::{AllocError, Allocator};
use streams::{ByteSink, put};
use word12::Word;

/// How many characters of a memory reference's name say where its cell is.
const PLACE_LENGTH: usize = 4;

/// Says how instructions read.
pub trait Statements {
    /// Adds how the word at an address reads, and before it what that address is called, if it has a name.
    ///
    /// # Errors
    ///
    /// Memory was refused.
    fn push_statement<A: Allocator>(
        &self,
        line: &mut Vec<u8, A>,
        at: Word,
        word: Word,
    ) -> Result<(), AllocError>;
}

/// Adds the name of the word at an address; of a memory reference with the whole address that it names.
pub fn push_full_name<A: Allocator>(
    text: &mut Vec<u8, A>,
    at: Word,
    word: Word,
    profile: Profile,
) -> Result<(), AllocError> {
    let found = name(word, profile);
    let spelled = found.as_str().as_bytes();
    if !refers_to_memory(word) {
        return text.extend_from_slice(spelled);
    }
    let front = spelled.len().saturating_sub(PLACE_LENGTH);
    text.extend_from_slice(spelled.get(..front).unwrap_or(spelled))?;
    push_word(text, target(word, at))
}

/// Instructions read as their names, with whole addresses.
#[derive(Clone, Copy)]
pub struct MnemonicStatements {
    /// The machine that has these names.
    pub profile: Profile,
}

impl Statements for MnemonicStatements {
    fn push_statement<A: Allocator>(
        &self,
        line: &mut Vec<u8, A>,
        at: Word,
        word: Word,
    ) -> Result<(), AllocError> {
        line.extend_from_slice(b"  ")?;
        push_full_name(line, at, word, self.profile)
    }
}

/// A cell that an instruction uses, its word before, and whether it is written.
#[derive(Clone, Copy)]
struct Access {
    cell: Word,
    before: Word,
    is_write: bool,
}

/// How an instruction uses a cell.
fn use_of(cpu: &Cpu, cell: Word, is_write: bool) -> Option<Access> {
    Some(Access {
        cell,
        before: cpu.memory.get(cell),
        is_write,
    })
}

/// How a memory reference uses its pointer, if it has one.
fn pointer_access(cpu: &Cpu, reference: &Reference) -> Option<Access> {
    if !reference.indirect {
        return None;
    }
    use_of(cpu, reference.named, reference.steps_pointer())
}

/// How a memory reference uses the cell at its effective address, if it does.
fn operand_access(cpu: &Cpu, reference: &Reference) -> Option<Access> {
    match reference.operation {
        Operation::And | Operation::Tad => use_of(cpu, reference.place, false),
        Operation::Isz | Operation::Dca | Operation::Jms => use_of(cpu, reference.place, true),
        Operation::Jmp => None,
    }
}

/// An instruction that is about to be carried out: where it stands, its word, and the cells that it uses.
#[derive(Clone, Copy)]
struct NextInstruction {
    at: Word,
    word: Word,
    pointer: Option<Access>,
    operand: Option<Access>,
}

/// The instruction that is about to be carried out.
fn instruction_at(cpu: &Cpu) -> NextInstruction {
    let (at, word) = (cpu.pc, cpu.memory.get(cpu.pc));
    match cpu.fetch() {
        DecodedInstruction::Refers(reference) => NextInstruction {
            at,
            word,
            pointer: pointer_access(cpu, &reference),
            operand: operand_access(cpu, &reference),
        },
        _ => NextInstruction {
            at,
            word,
            pointer: None,
            operand: None,
        },
    }
}

/// Adds the words of a cell that an instruction used, behind a gap.
fn push_access<A: Allocator>(
    line: &mut Vec<u8, A>,
    used: Access,
    cpu: &Cpu,
    gap: &[u8],
) -> Result<(), AllocError> {
    push_place(line, gap, used.cell)?;
    push_place(line, b": ", used.before)?;
    if used.is_write {
        push_place(line, b" -> ", cpu.memory.get(used.cell))?;
    }
    Ok(())
}

/// Adds the words of the cells that an instruction used.
fn push_accesses<A: Allocator>(
    line: &mut Vec<u8, A>,
    came: &NextInstruction,
    cpu: &Cpu,
) -> Result<(), AllocError> {
    if let Some(used) = came.pointer {
        push_access(line, used, cpu, b"   ")?;
    }
    if let Some(used) = came.operand {
        let gap = if came.pointer.is_some() {
            b"  ".as_slice()
        } else {
            b"   ".as_slice()
        };
        push_access(line, used, cpu, gap)?;
    }
    Ok(())
}

/// Adds the registers.
fn push_registers<A: Allocator>(line: &mut Vec<u8, A>, cpu: &Cpu) -> Result<(), AllocError> {
    push_place(line, b"   AC=", cpu.ac)?;
    line.extend_from_slice(if cpu.link.is_set() { b" L=1" } else { b" L=0" })?;
    if cpu.profile == Profile::Pdp8E {
        push_place(line, b" MQ=", cpu.mq)?;
    }
    Ok(())
}

/// The line of an instruction that was carried out.
fn line_of<A: Allocator, N: Statements>(
    alloc: A,
    came: &NextInstruction,
    cpu: &Cpu,
    statements: &N,
) -> Result<Vec<u8, A>, AllocError> {
    let mut line = Vec::new(alloc);
    push_word(&mut line, came.at)?;
    statements.push_statement(&mut line, came.at, came.word)?;
    push_accesses(&mut line, came, cpu)?;
    push_registers(&mut line, cpu)?;
    line.extend_from_slice(b"\n")?;
    Ok(line)
}

/// Writes the line of an instruction, if one was carried out.
#[tactic(auto, using(crate::proofs::LongTraceLemmas::some_none, crate::proofs::LongTraceLemmas::some_one))]
fn put_line<A: Allocator, N: Statements, W: ByteSink>(
    alloc: A,
    seen: &Seen,
    came: &NextInstruction,
    cpu: &Cpu,
    statements: &N,
    out: &mut W,
) -> Result<(), Fault>
    requires { W.mark out.old ≡ false }
    ensures wrote { OnOk result (Appended (W.taken out.old) (W.taken out.new)) }
    ensures faults { IfErr result IsRunFault }
    ensures marks { W.mark out.new ≡ fails_to_write result }
{
    if !matches!(seen, Seen::Ran | Seen::Halted) {
        return Ok(());
    }
    let line = line_of(alloc, came, cpu, statements)?;
    put(out, &line)?;
    Ok(())
}

/// Writes the lines of the instructions that a world carries out in a course.
fn put_lines<A: Allocator + Copy, N: Statements, W: ByteSink>(
    alloc: A,
    world: &mut World<A>,
    course: &Course<'_>,
    statements: &N,
    out: &mut W,
) -> Result<(), Fault>
    requires { W.mark out.old ≡ false }
    ensures wrote { OnOk result (Appended (W.taken out.old) (W.taken out.new)) }
    ensures faults { IfErr result IsRunFault }
    ensures marks { W.mark out.new ≡ fails_to_write result }
{
    for index in 0..course.len() {
        let came = instruction_at(world.cpu());
        let seen = world.apply(course.event(index))?;
        put_line(alloc, &seen, &came, world.cpu(), statements, out)?;
        if !goes_on(course.ends_at_halt(), &seen) {
            return Ok(());
        }
    }
    Ok(())
}

/// Runs an image up to where it is stopped, as [`run_with_stops`] does without a trace, and writes the long trace before
/// that. The lines of the trace are tested and not proved.
///
/// # Errors
///
/// `Device` where a write failed; `NoMemory`.
pub fn run_with_long_trace<A: Allocator + Copy, N: Statements, W: ByteSink>(
    alloc: A,
    image: &Image,
    options: &RunOptions,
    stops: &Stops,
    course: &Course<'_>,
    statements: &N,
    out: &mut W,
) -> Result<Status, Fault>
    requires { W.mark out.old ≡ false }
    // Behind the lines of the trace that of the run of the course is written, up to the first step that stops it.
    ensures run { IfOk result (λ status. Writes
        (λ text. IsRunBehind options.now stops.now (ends_at_halt course.now) (events_in course.now)
        image.now text status)
        (W.taken out.old) (W.taken out.new)) }
    ensures faults { IfErr result IsRunFault }
    // A write failed if and only if the answer says so.
    ensures marks { W.mark out.new ≡ fails_to_write result }
{
    let cut = cut_of(alloc, image, options, stops, course)?;
    let mut world = World::load(alloc, image, options.start, &Start::zero(), options.profile);
    put_lines(alloc, &mut world, &cut.course, statements, out)?;
    let quiet = RunOptions {
        trace: false,
        ..*options
    };
    run_with_stops(alloc, image, &quiet, stops, None, course, out)
}
