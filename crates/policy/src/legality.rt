//! Whether the next step keeps the rules.

ghost use Rattle.std.specs.Prelude.{◌≡◌, ◌||◌, IfOk, OnOk, IfErr, map, [], ◌∷◌};
ghost use Rattle.wordset.specs.Words.{minus};
ghost use Rattle.processor.specs.Cells.{cell_of};
ghost use Rattle.processor.specs.Fetch.{fetched};
ghost use Rattle.processor.specs.Runs.{Image};
ghost use Rattle.processor.specs.Steps.{state_of};
ghost use Rattle.policy.specs.Calls.{current};
ghost use Rattle.policy.specs.Rules.{KeepsCode, IsLegal, word_of};
ghost use Rattle.declaration.specs.DeclarationInCode.{meaning, assertion_of, place_assertion_of, return_assertion_of};
ghost use Rattle.policy.specs.Watching.{IsLeastBroken};
ghost use Rattle.policy.specs.OpenCalls.{open_calls};
ghost use Rattle.policy.specs.Decided.{is_abandon, is_own, may_write_own, may_write, writes, calls_entry, finds_call, is_return, returns, may_load, reads, broken_by_reference, broken_by, is_so, each_holds, each_holds_by, holds_at_return, returns_hold, assertions_hold};

use crate::rules::Rule;
use declaration::{Assertion, Declaration, PlaceAssertion, ReturnAssertion, Subject};
use instruct::{Operation, halts};
use processor::{Cpu, DecodedInstruction, Memory, Reference};
use std::alloc::Allocator;
use word12::{Link, Word};

/// A call that has not returned: the entry, and the address after the JMS.
#[derive(Clone, Copy, PartialEq, Eq, Debug)]
pub struct Call {
    pub entry: Word,
    pub after: Word,
}

/// Whether a cell is the running routine's own entry.
#[inline(always)]
fn is_own(calls: &[Call], cell: Word) -> bool
    ensures { result ≡ is_own (current (open_calls calls.now)) cell }
{
    match calls.last() {
        None => false,
        Some(call) => call.entry == cell,
    }
}

/// Whether the program counter is in the running routine's body.
#[inline(always)]
fn in_body<A: Allocator>(declaration: &Declaration<A>, calls: &[Call], pc: Word) -> bool
    ensures { result ≡ (meaning declaration.now).body (current (open_calls calls.now)) pc }
{
    match calls.last() {
        None => declaration.in_main(pc),
        Some(call) => declaration.in_body(call.entry, pc),
    }
}

/// Whether a memory reference, direct or indirect, may write its routine's own entry, which is this
/// cell.
#[inline(always)]
fn may_write_own<A: Allocator>(
    declaration: &Declaration<A>,
    operation: Operation,
    indirect: bool,
    cell: Word,
) -> bool
    ensures { result ≡ may_write_own (meaning declaration.now) operation indirect cell }
{
    match operation {
        Operation::Isz => true,
        Operation::Dca => !indirect && declaration.may_move(cell),
        _ => false,
    }
}

/// Whether a memory reference may write a cell: a variable, or under ISZ and some DCAs the own entry.
#[inline(always)]
fn may_write<A: Allocator>(
    declaration: &Declaration<A>,
    operation: Operation,
    indirect: bool,
    calls: &[Call],
    cell: Word,
) -> bool
    ensures { result ≡ may_write (meaning declaration.now) operation indirect
        (current (open_calls calls.now)) cell }
{
    declaration.is_variable(cell)
        || (may_write_own(declaration, operation, indirect, cell) && is_own(calls, cell))
}

/// Whether the pointer that is stepped and the cell that is stored in may be written.
#[inline(always)]
fn writes<A: Allocator>(declaration: &Declaration<A>, reference: &Reference, calls: &[Call]) -> bool
    ensures { result
        ≡ writes (meaning declaration.now) reference.now (current (open_calls calls.now)) }
{
    if reference.steps_pointer()
        && !may_write(
            declaration,
            reference.operation,
            reference.indirect,
            calls,
            reference.named,
        )
    {
        return false;
    }
    match reference.operation {
        Operation::Isz | Operation::Dca => may_write(
            declaration,
            reference.operation,
            reference.indirect,
            calls,
            reference.place,
        ),
        _ => true,
    }
}

/// Whether a JMS goes to an entry.
#[inline(always)]
fn calls_entry<A: Allocator>(declaration: &Declaration<A>, reference: &Reference) -> bool
    ensures { result ≡ calls_entry (meaning declaration.now) reference.now }
{
    match reference.operation {
        Operation::Jms => declaration.is_entry(reference.place),
        _ => true,
    }
}

/// How far an address is after another, modulo 4096.
#[inline(always)]
fn distance(to: Word, from: Word) -> Word
    ensures { result ≡ minus to from }
{
    to.add(from.complement()).increment()
}

/// Whether the last call is one of an entry, in which there is the address of a declared place
/// after that call.
#[inline(always)]
fn finds_call<A: Allocator>(
    declaration: &Declaration<A>,
    entry: Word,
    word: Word,
    calls: &[Call],
) -> bool
    ensures { result ≡ finds_call (meaning declaration.now) entry word (open_calls calls.now) }
{
    match calls.last() {
        None => false,
        Some(call) => {
            let offset = distance(word, call.after);
            call.entry == entry && (offset.value() < 64 && declaration.has_offset(entry, offset))
        }
    }
}

/// Whether a memory reference is a JMP I through an entry.
#[inline(always)]
pub fn is_return<A: Allocator>(declaration: &Declaration<A>, reference: &Reference) -> bool
    ensures { result ≡ is_return (meaning declaration.now) reference.now }
{
    matches!(reference.operation, Operation::Jmp)
        && (reference.indirect && declaration.is_entry(reference.named))
}

/// Whether a JMP I through an entry returns from its own routine's last call.
#[inline(always)]
fn returns<A: Allocator>(
    declaration: &Declaration<A>,
    reference: &Reference,
    memory: &Memory,
    calls: &[Call],
) -> bool
    ensures { result ≡ returns (meaning declaration.now) reference.now
        (cell_of memory.now) (open_calls calls.now) }
{
    if is_return(declaration, reference) {
        finds_call(
            declaration,
            reference.named,
            memory.get(reference.named),
            calls,
        )
    } else {
        true
    }
}

/// Whether a cell may be read: it is on the list of reads, if there is one, or is the own entry.
#[inline(always)]
fn may_load<A: Allocator>(declaration: &Declaration<A>, calls: &[Call], cell: Word) -> bool
    ensures { result ≡ may_load (meaning declaration.now) (current (open_calls calls.now)) cell }
{
    declaration.may_read(cell) || is_own(calls, cell)
}

/// Whether the pointer and the operand may be read.
#[inline(always)]
fn reads<A: Allocator>(declaration: &Declaration<A>, reference: &Reference, calls: &[Call]) -> bool
    ensures { result
        ≡ reads (meaning declaration.now) reference.now (current (open_calls calls.now)) }
{
    if !declaration.reads_listed() {
        return true;
    }
    if reference.indirect && !may_load(declaration, calls, reference.named) {
        return false;
    }
    match reference.operation {
        Operation::And | Operation::Tad | Operation::Isz => {
            may_load(declaration, calls, reference.place)
        }
        _ => true,
    }
}

/// The least rule on memory references that one violates.
#[inline(always)]
fn broken_by_reference<A: Allocator>(
    declaration: &Declaration<A>,
    reference: &Reference,
    memory: &Memory,
    calls: &[Call],
) -> Option<Rule>
    ensures { let listed = open_calls calls.now in
        result ≡ broken_by_reference (meaning declaration.now) reference.now (current listed)
        (cell_of memory.now) listed }
{
    if !writes(declaration, reference, calls) {
        return Some(Rule::WritesDeclared);
    }
    if !calls_entry(declaration, reference) {
        return Some(Rule::CallsEntries);
    }
    if !returns(declaration, reference, memory, calls) {
        return Some(Rule::ReturnsToItsCall);
    }
    if !reads(declaration, reference, calls) {
        return Some(Rule::ReadsListed);
    }
    None
}

/// Whether a HLT stands at a declared halt.
#[inline(always)]
fn is_halt<A: Allocator>(declaration: &Declaration<A>, pc: Word) -> bool
    ensures { result ≡ ((meaning declaration.now).stop pc || (meaning declaration.now).pause pc) }
{
    declaration.is_stop(pc) || declaration.is_pause(pc)
}

/// The least rule that an instruction in the running routine's body violates, where fixed code is as
/// it was.
#[inline(always)]
fn broken_by<A: Allocator>(
    declaration: &Declaration<A>,
    instruction: &DecodedInstruction,
    cpu: &Cpu,
    calls: &[Call],
) -> Option<Rule>
    ensures { let listed = open_calls calls.now in
        result ≡ broken_by (meaning declaration.now) instruction.now cpu.now.pc (current listed)
        (cell_of cpu.now.memory) listed }
{
    match instruction {
        DecodedInstruction::Refers(reference) => {
            broken_by_reference(declaration, reference, &cpu.memory, calls)
        }
        DecodedInstruction::Operate2(word) => {
            if halts(*word) && !is_halt(declaration, cpu.pc) {
                Some(Rule::HaltsDeclared)
            } else {
                None
            }
        }
        DecodedInstruction::Operate1(_)
        | DecodedInstruction::Operate3(_)
        | DecodedInstruction::Device(_) => None,
        DecodedInstruction::Unsupported(_) => Some(Rule::StaysInBody),
    }
}

/// The word of which an assertion speaks.
fn word_of(subject: &Subject, cpu: &Cpu) -> Word
    ensures { result ≡ word_of subject.now (state_of cpu.now) }
{
    match subject {
        Subject::Accumulator => cpu.ac,
        Subject::Link => bit_of(cpu.link),
        Subject::Mq => cpu.mq,
        Subject::Cell(cell) => cpu.memory.get(*cell),
    }
}

/// A link as a word.
fn bit_of(link: Link) -> Word
    ensures { result ≡ link }
{
    if link.is_set() {
        Word::from_index(1)
    } else {
        Word::from_index(0)
    }
}

/// Whether what is asserted is so.
fn is_so(assertion: &Assertion, cpu: &Cpu) -> bool
    ensures { result ≡ is_so (assertion_of assertion.now) (state_of cpu.now) }
{
    assertion
        .words()
        .contains(word_of(assertion.subject(), cpu))
}

/// Whether what is to hold at the program counter is so.
fn each_holds(holds: &[PlaceAssertion], cpu: &Cpu) -> bool
    ensures { result ≡ each_holds (map place_assertion_of holds.now) (state_of cpu.now) }
{
    for holding in holds {
        if !holds_here(holding, cpu) {
            return false;
        }
    }
    true
}

/// Whether one assertion about addresses is so, if it speaks of the program counter.
fn holds_here(holding: &PlaceAssertion, cpu: &Cpu) -> bool
    ensures { result ≡ each_holds (place_assertion_of holding.now ∷ []) (state_of cpu.now) }
{
    !holding.places().contains(cpu.pc) || is_so(holding.assertion(), cpu)
}

/// Whether what is to hold when the routine of an entry returns by an offset is so.
fn each_holds_by(returns: &[ReturnAssertion], entry: Word, offset: Word, cpu: &Cpu) -> bool
    ensures { result
        ≡ each_holds_by (map return_assertion_of returns.now) entry offset (state_of cpu.now) }
{
    for returning in returns {
        if !holds_by(returning, entry, offset, cpu) {
            return false;
        }
    }
    true
}

/// Whether one assertion about returns is so, if it speaks of a return of this routine by this offset.
fn holds_by(returning: &ReturnAssertion, entry: Word, offset: Word, cpu: &Cpu) -> bool
    ensures { result
        ≡ each_holds_by (return_assertion_of returning.now ∷ []) entry offset (state_of cpu.now) }
{
    if returning.entry() == entry && returning.offsets().contains(offset) {
        return is_so(returning.assertion(), cpu);
    }
    true
}

/// Whether what is to hold at a return through an entry is so.
fn holds_at_return<A: Allocator>(
    declaration: &Declaration<A>,
    entry: Word,
    cpu: &Cpu,
    calls: &[Call],
) -> bool
    ensures { result
        ≡ holds_at_return (meaning declaration.now) entry (state_of cpu.now) (open_calls calls.now) }
{
    match calls.last() {
        None => true,
        Some(call) => {
            if call.entry == entry {
                let offset = distance(cpu.memory.get(entry), call.after);
                return each_holds_by(declaration.returns(), entry, offset, cpu);
            }
            true
        }
    }
}

/// Whether what is to hold at an instruction is so, if it is a return.
fn returns_hold<A: Allocator>(
    declaration: &Declaration<A>,
    instruction: &DecodedInstruction,
    cpu: &Cpu,
    calls: &[Call],
) -> bool
    ensures { result ≡ returns_hold (meaning declaration.now) instruction.now
        (state_of cpu.now) (open_calls calls.now) }
{
    match instruction {
        DecodedInstruction::Refers(reference) => {
            if is_return(declaration, reference) {
                return holds_at_return(declaration, reference.named, cpu, calls);
            }
            true
        }
        _ => true,
    }
}

/// Whether all that is asserted is so.
#[inline(always)]
fn assertions_hold<A: Allocator>(
    declaration: &Declaration<A>,
    instruction: &DecodedInstruction,
    cpu: &Cpu,
    calls: &[Call],
) -> bool
    ensures { result ≡ assertions_hold (meaning declaration.now) instruction.now
        (state_of cpu.now) (open_calls calls.now) }
{
    each_holds(declaration.holds(), cpu) && returns_hold(declaration, instruction, cpu, calls)
}

/// The instruction at the program counter, where a step keeps all rules; else the lowest-numbered
/// rule that it violates.
///
/// It does not look whether fixed code is as the tape had it: its caller knows that it is.
#[inline(always)]
pub fn legal_instruction<A: Allocator>(
    declaration: &Declaration<A>,
    cpu: &Cpu,
    calls: &[Call],
) -> Result<DecodedInstruction, Rule>
    requires { cpu.now.profile ≡ (meaning declaration.now).profile }
    ensures fetched { IfOk result (λ instruction.
        instruction ≡ fetched (meaning declaration.now).profile (state_of cpu.now)) }
    ensures legal { let d = meaning declaration.now in
        (image : Image) → KeepsCode image d (cell_of cpu.now.memory)
        → OnOk result (IsLegal image d (state_of cpu.now) (open_calls calls.now)) }
    ensures broken { let d = meaning declaration.now in
        (image : Image) → KeepsCode image d (cell_of cpu.now.memory)
        → IfErr result (λ rule.
        IsLeastBroken image d (state_of cpu.now) (open_calls calls.now) rule) }
{
    cpu.memory.are_words();
    if !in_body(declaration, calls, cpu.pc) {
        return Err(Rule::StaysInBody);
    }
    let instruction = cpu.fetch();
    match broken_by(declaration, &instruction, cpu, calls) {
        Some(rule) => Err(rule),
        None => {
            if assertions_hold(declaration, &instruction, cpu, calls) {
                Ok(instruction)
            } else {
                Err(Rule::AssertionsHold)
            }
        }
    }
}

/// Whether a memory reference is a JMP to a place for which calls may be abandoned.
#[inline(always)]
pub fn is_abandon<A: Allocator>(declaration: &Declaration<A>, reference: &Reference) -> bool
    ensures { result ≡ is_abandon (meaning declaration.now) reference.now }
{
    matches!(reference.operation, Operation::Jmp) && declaration.is_abandon(reference.place)
}
