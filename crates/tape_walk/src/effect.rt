//! What a word does to control, as far as the word alone tells.

ghost use Rattle.std.specs.Prelude.{◌≡◌};
ghost use Rattle.processor.specs.Machine.{steps_pointer};
ghost use Rattle.tape_walk.specs.Effects.{condition_of, device_condition, effect_of, effect_of_group2, reference_of};

use instruct::{
    Instruction, Operation, Profile, SkipCondition, decode, halts, refers_indirectly,
    skips_on_flag, target,
};
use processor::is_auto_index;
use word12::Word;

/// A memory reference, without the words in memory.
#[derive(Clone, Copy, PartialEq, Eq, Debug)]
pub struct MemoryReference {
    /// What it does.
    pub operation: Operation,
    /// The cell that it names.
    pub named: Word,
    /// Whether that cell holds a pointer.
    pub is_indirect: bool,
}

/// What a word does to control.
#[derive(Clone, Copy, PartialEq, Eq, Debug)]
pub enum ControlEffect {
    /// Control goes on behind it, and may skip a word there.
    GoesOn(SkipCondition),
    /// It halts. Where the operator lets the machine go on, control goes on behind it, and may skip a word there.
    Halts(SkipCondition),
    /// It refers to memory.
    Refers(MemoryReference),
    /// The machine does not have it.
    Unsupported,
}

impl MemoryReference {
    /// The memory reference that a word is at an address.
    pub fn of(word: Word, at: Word) -> MemoryReference
        ensures { result ≡ reference_of word at }
    {
        MemoryReference {
            operation: Operation::of(word),
            named: target(word, at),
            is_indirect: refers_indirectly(word),
        }
    }

    /// Whether it increments its pointer first.
    pub fn steps_pointer(&self) -> bool
        ensures { result ≡ steps_pointer self.now.is_indirect self.now.named }
    {
        self.is_indirect && is_auto_index(self.named)
    }

    /// When it skips: ISZ alone may.
    pub fn skip_condition(&self) -> SkipCondition
        ensures { result ≡ condition_of self.now.operation }
    {
        match self.operation {
            Operation::Isz => SkipCondition::Sometimes,
            _ => SkipCondition::Never,
        }
    }
}

impl ControlEffect {
    /// What a word at an address does to control on a machine of a profile.
    #[tactic(auto, unfolding(crate::specs::Effects::effect_of))]
    pub fn of(word: Word, at: Word, profile: Profile) -> ControlEffect
        ensures { result ≡ effect_of profile word at }
    {
        match decode(word, profile) {
            Instruction::Memory => ControlEffect::Refers(MemoryReference::of(word, at)),
            Instruction::Operate1 | Instruction::Operate3 => {
                ControlEffect::GoesOn(SkipCondition::Never)
            }
            Instruction::Operate2 => effect_of_group2(word),
            Instruction::Iot => ControlEffect::GoesOn(device_condition(word, profile)),
            Instruction::Unsupported => ControlEffect::Unsupported,
        }
    }
}

/// What a word of group 2 does to control.
fn effect_of_group2(word: Word) -> ControlEffect
    ensures { result ≡ effect_of_group2 word }
{
    let condition = SkipCondition::of_tests(word);
    if halts(word) {
        ControlEffect::Halts(condition)
    } else {
        ControlEffect::GoesOn(condition)
    }
}

/// When a device word skips.
fn device_condition(word: Word, profile: Profile) -> SkipCondition
    ensures { result ≡ device_condition profile word }
{
    if skips_on_flag(word, profile) {
        SkipCondition::Sometimes
    } else {
        SkipCondition::Never
    }
}
