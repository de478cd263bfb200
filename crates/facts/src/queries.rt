//! What is asked of one word at an address of a body, whatever the fact there says.

ghost use Rattle.std.specs.Prelude.{ℕ, ◌≡◌, ◌↔◌, IsTrue};
ghost use Rattle.instruct.specs.declared.Instruction.TheVariants.{Memory, Operate2};
ghost use Rattle.instruct.specs.Instructions.{kind_of};
ghost use Rattle.policy.specs.Rules.{IsSupported, HaltsDeclared};
ghost use Rattle.facts.specs.Instructions.{is_call, is_jump, calls_through_index, returned_through};
ghost use Rattle.facts.specs.PlaceInCode.{place_in_code, meaning_in};

use crate::instructions::{is_jmp, is_jms, steps_pointer};
use crate::place::Place;
use instruct::{Instruction, decode, halts, refers_indirectly, target};
use std::alloc::Allocator;
use word12::Word;

impl<A: Allocator> Place<'_, A> {
    /// Whether a word is a memory reference.
    pub(crate) fn is_reference(&self, word: Word) -> bool
        ensures { (at : ℕ) → IsTrue result ↔ (kind_of (meaning_in (place_in_code self.now) at word) ≡ Memory) }
    {
        matches!(
            decode(word, self.declaration.profile()),
            Instruction::Memory
        )
    }

    /// Whether a word is of group 2.
    fn is_group_2(&self, word: Word) -> bool
        ensures { (at : ℕ) → IsTrue result ↔ (kind_of (meaning_in (place_in_code self.now) at word) ≡ Operate2) }
    {
        matches!(
            decode(word, self.declaration.profile()),
            Instruction::Operate2
        )
    }

    /// Whether a word has a meaning on the machine that is declared.
    pub fn is_supported(&self, word: Word) -> bool
        ensures { (at : ℕ) → IsTrue result ↔ IsSupported (meaning_in (place_in_code self.now) at word) }
    {
        !matches!(
            decode(word, self.declaration.profile()),
            Instruction::Unsupported
        )
    }

    /// Whether a word stands at a declared halt if it is a HLT.
    pub fn halts_are_declared(&self, at: Word, word: Word) -> bool
        ensures { IsTrue result ↔ HaltsDeclared (place_in_code self.now).declaration
            (meaning_in (place_in_code self.now) at word) at }
    {
        if !self.is_group_2(word) {
            return true;
        }
        if !halts(word) {
            return true;
        }
        self.declaration.is_stop(at) || self.declaration.is_pause(at)
    }

    /// Whether a word is a JMS.
    pub fn is_call(&self, word: Word) -> bool
        ensures { (at : ℕ) → result ≡ is_call (meaning_in (place_in_code self.now) at word) }
    {
        if !self.is_reference(word) {
            return false;
        }
        is_jms(word)
    }

    /// Whether a word is a JMP.
    pub fn is_jump(&self, word: Word) -> bool
        ensures { (at : ℕ) → result ≡ is_jump (meaning_in (place_in_code self.now) at word) }
    {
        if !self.is_reference(word) {
            return false;
        }
        is_jmp(word)
    }

    /// Whether a word is a JMS through an auto-index cell, which it steps first.
    pub fn steps_call_pointer(&self, at: Word, word: Word) -> bool
        ensures { result ≡ calls_through_index (meaning_in (place_in_code self.now) at word) }
    {
        if !self.is_call(word) {
            return false;
        }
        steps_pointer(refers_indirectly(word), target(word, at))
    }

    /// The entry through which a word returns: that of a JMP I through one.
    pub fn returned_entry(&self, at: Word, word: Word) -> Option<Word>
        ensures { result ≡ returned_through (place_in_code self.now).declaration
            (meaning_in (place_in_code self.now) at word) }
    {
        if !self.is_reference(word) {
            return None;
        }
        if !is_jmp(word) {
            return None;
        }
        let named = target(word, at);
        if !refers_indirectly(word) {
            return None;
        }
        if self.declaration.is_entry(named) {
            Some(named)
        } else {
            None
        }
    }
}
