//! The instruction words: what each of the 4096 words means on a PDP-8/I or a PDP-8/E.
//!
//! The table is that of DEC's Small Computer Handbook, basic instructions, with the words of the
//! teletype and of the high-speed reader and punch. Words that the handbook leaves to chance (both
//! rotates, group 3 of the 8/I) and device words of other devices are unsupported.
#![tactic(auto)]

mod accumulator;
mod bits;
mod devices;
pub mod laws;
mod microinstructions;
mod naming;
mod operate;

ghost use Rattle.std.specs.Prelude.{ℕ, ◌≡◌, ◌/◌};
ghost use Rattle.instruct.specs.declared.Profile.{Profile};
ghost use Rattle.instruct.specs.declared.Instruction.TheVariants.{Memory};
ghost use Rattle.instruct.specs.Bits.{has_bit, named_cell, is_indirect};
ghost use Rattle.instruct.specs.Instructions.{format_of, instruction_of, is_group2, is_operate, kind_of, meaning_of, operation_of, reference_at, refers_to_memory, device_action, device_meaning, operate_meaning, group3_meaning, is_group1};

use crate::bits::{Group1, Group2, ReferenceBits};
use crate::operate::MqOperation;
pub use accumulator::{replaces_accumulator, skips_always, tests_accumulator};
use bitflags::Flags;
pub use devices::{DeviceOperation, skips_on_flag};
pub use microinstructions::{
    SkipCondition, clears, clears_link, complements, increments, is_reversed, moves_bits,
    reads_switches, rotates, tests_link, tests_sign, tests_zero,
};
pub use naming::name;
pub use operate::{halts, operate1, operate2, operate3, skips};
use word12::Word;

/// Which machine's instructions are meant.
#[derive(Clone, Copy, PartialEq, Eq, Debug)]
pub enum Profile {
    /// The PDP-8/I, basic instructions.
    Pdp8I,
    /// The PDP-8/E: those, the MQ register's words, BSW, KCF and TFL.
    Pdp8E,
}

/// The kinds of instruction.
#[derive(Clone, Copy, PartialEq, Eq, Debug)]
pub enum Instruction {
    /// AND, TAD, ISZ, DCA, JMS or JMP.
    Memory,
    /// Group 1: clears, complements, IAC and rotates.
    Operate1,
    /// Group 2: skips, CLA, OSR and HLT.
    Operate2,
    /// Group 3: the MQ register's words of the 8/E.
    Operate3,
    /// A word of the teletype, the reader or the punch, or IOF.
    Iot,
    /// A word that the machine of this profile does not have here.
    Unsupported,
}

/// The formats of words, which say what the bits of a word stand for. They are the same on each machine; which words of a format
/// have a meaning is another question, which [`decode`] answers.
#[derive(Clone, Copy, PartialEq, Eq, Debug)]
pub enum Format {
    /// A memory reference.
    Reference(Operation),
    /// A device word.
    Device,
    /// An operate word of group 1.
    Group1,
    /// An operate word of group 2.
    Group2,
    /// An operate word of group 3.
    Group3,
}

impl Format {
    /// The format of a word.
    #[tactic(auto, using(crate::proofs::Tests::bit_tests))]
    pub fn of(word: Word) -> Format
        ensures { result ≡ format_of word }
    {
        let bits = Group2(word.value());
        match operation_code(word) {
            0..=5 => Format::Reference(Operation::of(word)),
            6 => Format::Device,
            _ if !bits.contains(Group2::NOT_GROUP1) => Format::Group1,
            _ if !bits.contains(Group2::GROUP3) => Format::Group2,
            _ => Format::Group3,
        }
    }

    /// Whether words of this format are operate words.
    pub fn is_operate(self) -> bool
        ensures { result ≡ is_operate self }
    {
        matches!(self, Format::Group1 | Format::Group2 | Format::Group3)
    }

    /// Whether words of this format are operate words of group 2: the skips, CLA, OSR and HLT.
    pub fn is_group2(self) -> bool
        ensures { result ≡ is_group2 self }
    {
        self == Format::Group2
    }
}

/// The operations of memory references.
#[derive(Clone, Copy, PartialEq, Eq, Debug)]
pub enum Operation {
    /// The bitwise and with the operand.
    And,
    /// The sum with the operand, whose carry complements the link.
    Tad,
    /// The operand counts up, and the next instruction is skipped where it becomes 0000.
    Isz,
    /// The accumulator is stored and cleared.
    Dca,
    /// The return address is stored, and the routine after it goes on.
    Jms,
    /// The program goes on at the effective address.
    Jmp,
}

impl Operation {
    /// The operation of a memory reference. Words from 6000 on, which refer to no memory, count as
    /// JMP.
    #[inline(always)]
    #[tactic(auto, using(crate::proofs::KindLemmas::reference_meaning))]
    pub fn of(word: Word) -> Operation
        ensures code { result ≡ operation_of word }
        // With the indirect bit and the named cell it is the meaning of the word.
        ensures meaning { (profile : Profile) → (at : ℕ) →
            kind_of (meaning_of profile at word) ≡ Memory →
            meaning_of profile at word ≡ reference_at result word at }
    {
        match operation_code(word) {
            0 => Operation::And,
            1 => Operation::Tad,
            2 => Operation::Isz,
            3 => Operation::Dca,
            4 => Operation::Jms,
            _ => Operation::Jmp,
        }
    }
}

/// The kind of a word on a machine of a profile.
#[tactic(auto, using(crate::proofs::KindLemmas::kinds), unfolding(crate::specs::Instructions::instruction_of))]
pub fn decode(word: Word, profile: Profile) -> Instruction
    // The kind does not depend on where the word stands.
    ensures meaning { (at : ℕ) → result ≡ kind_of (meaning_of profile at word) }
    ensures kind { result ≡ instruction_of profile word }
{
    match operation_code(word) {
        0..=5 => Instruction::Memory,
        6 => decode_device(word, profile),
        _ => decode_operate(word, profile),
    }
}

/// Bits 0 to 2 of a word, which say what kind of instruction it is.
#[inline(always)]
fn operation_code(word: Word) -> u16
    ensures { result ≡ word / 512 }
{
    word.value() >> 9
}

fn decode_device(word: Word, profile: Profile) -> Instruction
    ensures { result ≡ kind_of (device_meaning (device_action profile word)) }
{
    match DeviceOperation::of(word, profile) {
        Some(_) => Instruction::Iot,
        None => Instruction::Unsupported,
    }
}

#[tactic(auto, using(crate::proofs::Tests::bit_tests))]
fn decode_operate(word: Word, profile: Profile) -> Instruction
    ensures { result ≡ kind_of (operate_meaning profile word) }
{
    let bits = Group2(word.value());
    if !bits.contains(Group2::NOT_GROUP1) {
        if is_group_1(Group1(word.value()), profile) {
            Instruction::Operate1
        } else {
            Instruction::Unsupported
        }
    } else if !bits.contains(Group2::GROUP3) {
        Instruction::Operate2
    } else {
        decode_group3(word, profile)
    }
}

fn decode_group3(word: Word, profile: Profile) -> Instruction
    ensures { result ≡ kind_of (group3_meaning profile word) }
{
    match profile {
        Profile::Pdp8I => Instruction::Unsupported,
        Profile::Pdp8E => match MqOperation::of(word) {
            Some(_) => Instruction::Operate3,
            None => Instruction::Unsupported,
        },
    }
}

#[tactic(auto, using(crate::proofs::Tests::bit_tests))]
fn is_group_1(bits: Group1, profile: Profile) -> bool
    ensures { result ≡ is_group1 profile bits.0 }
{
    if bits.contains(Group1::RAR) {
        !bits.contains(Group1::RAL)
    } else if bits.contains(Group1::RAL) {
        true
    } else {
        !bits.contains(Group1::TWICE) || profile == Profile::Pdp8E
    }
}

/// Whether a word is a memory reference, on each machine.
pub fn refers_to_memory(word: Word) -> bool
    ensures { result ≡ refers_to_memory word }
{
    word.value() < 0o6000
}

/// The cell that a memory reference at an address names, before any indirection: the low seven
/// bits of the word, on the word's own page where 0200 is set, else on page zero.
pub fn target(word: Word, at: Word) -> Word
    ensures { result ≡ named_cell word at }
{
    if names_own_page(word) {
        word.in_page_of(at)
    } else {
        word.place()
    }
}

/// Whether a memory reference names a cell of its own page: 0200 is set. Otherwise it names one of page zero.
#[tactic(auto, using(crate::proofs::Tests::bit_tests))]
pub fn names_own_page(word: Word) -> bool
    ensures { result ≡ has_bit 7 word }
{
    ReferenceBits(word.value()).contains(ReferenceBits::CURRENT_PAGE)
}

/// Whether a memory reference is indirect: it takes its address from the cell that it names.
#[tactic(auto, using(crate::proofs::Tests::bit_tests))]
pub fn refers_indirectly(word: Word) -> bool
    ensures { result ≡ is_indirect word }
{
    ReferenceBits(word.value()).contains(ReferenceBits::INDIRECT)
}
