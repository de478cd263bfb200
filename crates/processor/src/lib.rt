//! The processor: one whole instruction at a time.
//!
//! `Cpu::step` carries out the instruction at the program counter as the handbook's table says.
//! What the table leaves to the devices and the switches it asks of a `Bus`.
#![tactic(auto)]

mod fetch;
pub mod laws;
mod memory;

ghost use Rattle.std.specs.Prelude.{ℕ, ◌≡◌, ◌+◌, ◌/◌, ◌%◌, IsSome, true};
ghost use Rattle.instruct.specs.declared.Instruction.TheVariants.{Operate1, Operate2, Operate3};
ghost use Rattle.instruct.specs.declared.Profile.TheVariants.{Pdp8E};
ghost use Rattle.instruct.specs.Bits.{is_indirect, named_cell};
ghost use Rattle.instruct.specs.declared.Operation.TheVariants as operation;
ghost use Rattle.instruct.specs.Instructions.{kind_of, device_action};
ghost use Rattle.processor.specs.Cells.{cell_of};
ghost use Rattle.processor.specs.Fetch.{IsPlaced, fetched, refers_by};
ghost use Rattle.processor.specs.Machine.{Answer, next_pc, seen, place, is_auto_index, Does};
ghost use Rattle.processor.specs.Steps.{state_of, word_at_pc, instruction_at_pc, meaning_at_pc, LeadsTo, switches_told, answer_taken, Happened, BusAfter, DeviceAnswers};

pub use fetch::{DecodedInstruction, Reference};
use instruct::{
    Operation, Profile, halts, operate1, operate2, operate3, refers_indirectly, skips, target,
};
pub use memory::Memory;
use word12::{Link, Word};

/// The processor of a PDP-8, with its memory.
#[derive(Drop, Debug)]
pub struct Cpu {
    /// The cells.
    pub memory: Memory,
    /// The accumulator.
    pub ac: Word,
    /// The link, which a carry out of the accumulator complements.
    pub link: Link,
    /// The multiplier quotient register, which only the 8/E's words use here.
    pub mq: Word,
    /// The address of the next instruction.
    pub pc: Word,
    /// Whose instructions the processor has.
    pub profile: Profile,
}

/// What a device word makes of the accumulator, and whether it skips.
#[derive(Clone, Copy, PartialEq, Eq, Debug)]
pub struct IotAnswer {
    /// The accumulator after the word.
    pub ac: Word,
    /// Whether the next instruction is skipped.
    pub skip: bool,
}

/// What a step did.
#[derive(Clone, Copy, PartialEq, Eq, Debug)]
pub enum Outcome {
    /// The instruction was carried out.
    Ran,
    /// It was carried out and halts the machine; the program counter has moved on.
    Halted,
    /// The word at the program counter is not supported; nothing changed.
    Unsupported(Word),
}

/// What the processor is connected to: the devices and the switches.
pub trait Bus {
    /// What it answers to a device word.
    ghost answer_to: { Self → ℕ → Answer };

    /// What the switches show.
    ghost switch_word: { Self → ℕ };

    /// What a device word, by the accumulator before it, makes of it.
    ghost goes_on: { Self → ℕ → ℕ → Self → Type 0 };

    /// Carries out a device word. The answer is one that the instruction table allows for the word
    /// and some flag or byte.
    fn iot(&mut self, word: Word, ac: Word) -> IotAnswer
        requires { IsSome (device_action Pdp8E word) }
        ensures table { DeviceAnswers (device_action Pdp8E word) ac (answer_to self.old word)
            result.ac result.skip }
        ensures device { goes_on self.old word ac self.new };

    /// What the switches show.
    fn switches(&self) -> Word
        ensures { result ≡ switch_word self.now };
}

/// Whether a cell is one of 0010 to 0017, the auto-index cells.
pub fn is_auto_index(address: Word) -> bool
    ensures { result ≡ is_auto_index address }
{
    (0o10..=0o17).contains(&address.value())
}

/// The effective address of the memory reference `word` at an address, with the memory as it is
/// before it: the cell that the word names, or where it is indirect the word in that cell, counted
/// up first in an auto-index cell.
pub fn effective_address(memory: &Memory, word: Word, at: Word) -> Word
    ensures { result ≡ place (is_indirect word) (named_cell word at) (cell_of memory.now) }
{
    let named = target(word, at);
    if !refers_indirectly(word) {
        return named;
    }
    let pointer = memory.get(named);
    if is_auto_index(named) {
        pointer.increment()
    } else {
        pointer
    }
}

/// Counts up the pointer of a memory reference through an auto-index cell.
#[inline(always)]
fn step_pointer(memory: &mut Memory, reference: &Reference)
    requires { IsPlaced (cell_of memory.old) reference.now }
    ensures { cell_of memory.new ≡
        seen reference.now.indirect reference.now.named (cell_of memory.old) }
{
    if reference.steps_pointer() {
        memory.set(reference.named, reference.place);
    }
}

/// The link after a sum, whose carry complements it.
fn carried(link: Link, left: Word, right: Word) -> Link
    ensures { result ≡ (link + (left + right) / 4096) % 2 }
{
    if left.carries(right) {
        link.complement()
    } else {
        link
    }
}

/// The address of the instruction after the next one.
///
/// Not inlined, so that a skip stays a branch: the host then guesses it, in place of waiting for
/// the count or the test before it can fetch the next instruction.
#[inline(never)]
fn address_past_next(pc: Word) -> Word
    ensures { result ≡ next_pc pc true }
{
    pc.increment().increment()
}

/// The address of the next instruction, or where one skips, of the one after it.
fn next_address(pc: Word, skip: bool) -> Word
    ensures { result ≡ next_pc pc skip }
{
    if skip {
        address_past_next(pc)
    } else {
        pc.increment()
    }
}

impl Cpu {
    /// AND: the bitwise and with the operand.
    #[inline(always)]
    fn and(&mut self, reference: &Reference)
        requires { IsPlaced (cell_of self.old.memory) reference.now }
        ensures does { LeadsTo (refers_by operation.And reference.now) self.old self.new }
        ensures profile { self.new.profile ≡ self.old.profile }
    {
        step_pointer(&mut self.memory, reference);
        self.ac = self.ac.and(self.memory.get(reference.place));
        self.pc = self.pc.increment();
    }

    /// TAD: the sum with the operand; a carry complements the link.
    #[inline(always)]
    fn add(&mut self, reference: &Reference)
        requires { IsPlaced (cell_of self.old.memory) reference.now }
        ensures does { LeadsTo (refers_by operation.Tad reference.now) self.old self.new }
        ensures profile { self.new.profile ≡ self.old.profile }
    {
        step_pointer(&mut self.memory, reference);
        let operand = self.memory.get(reference.place);
        self.link = carried(self.link, self.ac, operand);
        self.ac = self.ac.add(operand);
        self.pc = self.pc.increment();
    }

    /// ISZ: increments the operand, and skips where it becomes 0000.
    #[inline(always)]
    fn count(&mut self, reference: &Reference)
        requires { IsPlaced (cell_of self.old.memory) reference.now }
        ensures does { LeadsTo (refers_by operation.Isz reference.now) self.old self.new }
        ensures profile { self.new.profile ≡ self.old.profile }
    {
        step_pointer(&mut self.memory, reference);
        let counted = self.memory.get(reference.place).increment();
        self.memory.set(reference.place, counted);
        self.pc = next_address(self.pc, counted == Word::ZERO);
    }

    /// DCA: stores the accumulator and clears it.
    #[inline(always)]
    fn deposit(&mut self, reference: &Reference)
        requires { IsPlaced (cell_of self.old.memory) reference.now }
        ensures does { LeadsTo (refers_by operation.Dca reference.now) self.old self.new }
        ensures profile { self.new.profile ≡ self.old.profile }
    {
        step_pointer(&mut self.memory, reference);
        self.memory.set(reference.place, self.ac);
        self.ac = Word::ZERO;
        self.pc = self.pc.increment();
    }

    /// JMS: stores the return address and goes on after it.
    #[inline(always)]
    fn call(&mut self, reference: &Reference)
        requires { IsPlaced (cell_of self.old.memory) reference.now }
        ensures does { LeadsTo (refers_by operation.Jms reference.now) self.old self.new }
        ensures profile { self.new.profile ≡ self.old.profile }
    {
        step_pointer(&mut self.memory, reference);
        let back = self.pc.increment();
        self.memory.set(reference.place, back);
        self.pc = reference.place.increment();
    }

    /// JMP: goes on at the effective address.
    #[inline(always)]
    fn jump(&mut self, reference: &Reference)
        requires { IsPlaced (cell_of self.old.memory) reference.now }
        ensures does { LeadsTo (refers_by operation.Jmp reference.now) self.old self.new }
        ensures profile { self.new.profile ≡ self.old.profile }
    {
        step_pointer(&mut self.memory, reference);
        self.pc = reference.place;
    }

    /// A memory reference.
    #[inline(always)]
    fn refer(&mut self, reference: &Reference)
        requires { IsPlaced (cell_of self.old.memory) reference.now }
        ensures does { LeadsTo (refers_by reference.now.operation reference.now) self.old self.new }
        ensures profile { self.new.profile ≡ self.old.profile }
    {
        match reference.operation {
            Operation::And => self.and(reference),
            Operation::Tad => self.add(reference),
            Operation::Isz => self.count(reference),
            Operation::Dca => self.deposit(reference),
            Operation::Jms => self.call(reference),
            Operation::Jmp => self.jump(reference),
        }
    }

    /// A word of group 1.
    #[inline(never)]
    fn operate_first(&mut self, word: Word)
        requires { kind_of (meaning_at_pc self.old word) ≡ Operate1 }
        ensures does { LeadsTo (meaning_at_pc self.old word) self.old self.new }
        ensures profile { self.new.profile ≡ self.old.profile }
    {
        let (ac, link) = operate1(word, self.ac, self.link);
        self.ac = ac;
        self.link = link;
        self.pc = self.pc.increment();
    }

    /// A word of group 2.
    #[inline(never)]
    fn operate_second(&mut self, word: Word, switches: Word)
        requires { kind_of (meaning_at_pc self.old word) ≡ Operate2 }
        ensures does { Does (meaning_at_pc self.old word) (state_of self.old)
            (switches_told word switches) (state_of self.new) }
        ensures profile { self.new.profile ≡ self.old.profile }
    {
        self.pc = next_address(self.pc, skips(word, self.ac, self.link));
        self.ac = operate2(word, self.ac, switches);
    }

    /// A word of group 3.
    #[inline(never)]
    fn operate_third(&mut self, word: Word)
        requires { kind_of (meaning_at_pc self.old word) ≡ Operate3 }
        ensures does { LeadsTo (meaning_at_pc self.old word) self.old self.new }
        ensures profile { self.new.profile ≡ self.old.profile }
    {
        let (ac, mq) = operate3(word, self.ac, self.mq);
        self.ac = ac;
        self.mq = mq;
        self.pc = self.pc.increment();
    }

    /// Takes what the devices answered to a device word.
    fn take(&mut self, answer: IotAnswer)
        ensures taken { state_of self.new ≡ record (state_of self.old) {
          ac = answer.ac;
          pc = next_pc self.old.pc answer.skip;
        } }
        ensures profile { self.new.profile ≡ self.old.profile }
    {
        self.pc = next_address(self.pc, answer.skip);
        self.ac = answer.ac;
    }

    /// Carries out the instruction at the program counter.
    ///
    /// A word that the machine of this profile does not have changes nothing and is given back in
    /// `Unsupported`. After `Halted` the program counter has moved on: the next step is what
    /// CONTINUE leads to.
    #[inline(always)]
    pub fn step<B: Bus>(&mut self, bus: &mut B) -> Outcome
        // By the table, with the answer that the bus gave.
        ensures happened { Happened result self.old.profile (state_of self.old)
            (answer_taken (instruction_at_pc self.old)
            (B.answer_to bus.old (word_at_pc self.old)) (B.switch_word bus.old))
            (state_of self.new) }
        ensures profile { self.new.profile ≡ self.old.profile }
        // The bus changes at a device word alone.
        ensures bus { BusAfter (instruction_at_pc self.old)
            (B.goes_on bus.old (word_at_pc self.old) self.old.ac bus.new)
            (bus.new ≡ bus.old) }
    {
        let instruction = self.fetch();
        self.execute(&instruction, bus)
    }

    /// Carries out the instruction at the program counter, as `fetch` gives it. It does what `step`
    /// does.
    #[inline(always)]
    pub fn execute<B: Bus>(&mut self, instruction: &DecodedInstruction, bus: &mut B) -> Outcome
        requires { instruction.now ≡ fetched self.old.profile (state_of self.old) }
        ensures happened { Happened result self.old.profile (state_of self.old)
            (answer_taken (instruction_at_pc self.old)
            (B.answer_to bus.old (word_at_pc self.old)) (B.switch_word bus.old))
            (state_of self.new) }
        ensures profile { self.new.profile ≡ self.old.profile }
        ensures bus { BusAfter (instruction_at_pc self.old)
            (B.goes_on bus.old (word_at_pc self.old) self.old.ac bus.new)
            (bus.new ≡ bus.old) }
    {
        match instruction {
            DecodedInstruction::Refers(reference) => {
                self.refer(reference);
                Outcome::Ran
            }
            DecodedInstruction::Operate1(word) => {
                self.operate_first(*word);
                Outcome::Ran
            }
            DecodedInstruction::Operate2(word) => {
                self.operate_second(*word, bus.switches());
                if halts(*word) {
                    Outcome::Halted
                } else {
                    Outcome::Ran
                }
            }
            DecodedInstruction::Operate3(word) => {
                self.operate_third(*word);
                Outcome::Ran
            }
            DecodedInstruction::Device(word) => {
                let answer = bus.iot(*word, self.ac);
                self.take(answer);
                Outcome::Ran
            }
            DecodedInstruction::Unsupported(word) => Outcome::Unsupported(*word),
        }
    }
}
