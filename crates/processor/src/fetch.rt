//! The fetch of an instruction: the word at the program counter is decoded, and the effective address
//! of a memory reference is worked out.

ghost use Rattle.std.specs.Prelude.{◌≡◌};
ghost use Rattle.instruct.specs.declared.Instruction.TheVariants.{Memory as RefersToMemory};
ghost use Rattle.instruct.specs.Instructions.{kind_of, meaning_of};
ghost use Rattle.processor.specs.Cells.{cell_of};
ghost use Rattle.processor.specs.Fetch.{decoded, fetched};
ghost use Rattle.processor.specs.Machine.{steps_pointer};
ghost use Rattle.processor.specs.Steps.{state_of};

use crate::memory::Memory;
use crate::{Cpu, effective_address, is_auto_index};
use instruct::{Instruction, Operation, Profile, decode, refers_indirectly, target};
use word12::Word;

/// A memory reference.
#[derive(Clone, Copy, PartialEq, Eq, Debug)]
pub struct Reference {
    /// The cell that it names.
    pub named: Word,
    /// The effective address. A pointer in an auto-index cell is incremented first.
    pub place: Word,
    /// What is done there.
    pub operation: Operation,
    /// Whether the named cell holds a pointer.
    pub indirect: bool,
}

/// An instruction that was fetched. A word that refers to no memory stands for itself.
#[derive(Clone, Copy, PartialEq, Eq, Debug)]
pub enum DecodedInstruction {
    /// It refers to memory.
    Refers(Reference),
    /// A word of group 1.
    Operate1(Word),
    /// A word of group 2.
    Operate2(Word),
    /// A word of group 3.
    Operate3(Word),
    /// A device word.
    Device(Word),
    /// The word is not supported.
    Unsupported(Word),
}

impl Reference {
    /// Whether it increments its pointer, which is in an auto-index cell.
    #[inline(always)]
    pub fn steps_pointer(&self) -> bool
        ensures { result ≡ steps_pointer self.now.indirect self.now.named }
    {
        self.indirect && is_auto_index(self.named)
    }
}

/// The memory reference of a word at an address.
#[inline(always)]
fn refer(memory: &Memory, word: Word, at: Word, profile: Profile) -> DecodedInstruction
    requires { kind_of (meaning_of profile at word) ≡ RefersToMemory }
    ensures { result ≡ decoded (meaning_of profile at word) word (cell_of memory.now) }
{
    DecodedInstruction::Refers(Reference {
        named: target(word, at),
        place: effective_address(memory, word, at),
        operation: Operation::of(word),
        indirect: refers_indirectly(word),
    })
}

impl Cpu {
    /// The instruction at the program counter, on the machine of this profile.
    #[inline(always)]
    pub fn fetch(&self) -> DecodedInstruction
        ensures { result ≡ fetched self.now.profile (state_of self.now) }
    {
        let word = self.memory.get(self.pc);
        match decode(word, self.profile) {
            Instruction::Memory => refer(&self.memory, word, self.pc, self.profile),
            Instruction::Operate1 => DecodedInstruction::Operate1(word),
            Instruction::Operate2 => DecodedInstruction::Operate2(word),
            Instruction::Operate3 => DecodedInstruction::Operate3(word),
            Instruction::Iot => DecodedInstruction::Device(word),
            Instruction::Unsupported => DecodedInstruction::Unsupported(word),
        }
    }
}
