//! What single bits of an operate word ask for. Each function reads its bit of any word; it is meant for words of the groups
//! that it names.

ghost use Rattle.std.specs.Prelude.{◌≡◌, ◌||◌};
ghost use Rattle.instruct.specs.Bits.{has_bit};
ghost use Rattle.instruct.specs.Operates.{reads_switches_of};
ghost use Rattle.instruct.specs.Skips.{may_go_on, may_skip, skip_condition_of};

use crate::bits::{Group1, Group2};
use bitflags::Flags;
use word12::Word;

/// Whether an operate word clears the accumulator: it has CLA, which each group has.
#[tactic(auto, using(crate::proofs::Tests::bit_tests))]
pub fn clears(word: Word) -> bool
    ensures { result ≡ has_bit 7 word }
{
    Group1(word.value()).contains(Group1::CLA)
}

/// Whether a word of group 1 clears the link: it has CLL.
#[tactic(auto, using(crate::proofs::Tests::bit_tests))]
pub fn clears_link(word: Word) -> bool
    ensures { result ≡ has_bit 6 word }
{
    Group1(word.value()).contains(Group1::CLL)
}

/// Whether a word of group 1 complements the accumulator: it has CMA.
#[tactic(auto, using(crate::proofs::Tests::bit_tests))]
pub fn complements(word: Word) -> bool
    ensures { result ≡ has_bit 5 word }
{
    Group1(word.value()).contains(Group1::CMA)
}

/// Whether a word of group 1 increments the accumulator: it has IAC.
#[tactic(auto, using(crate::proofs::Tests::bit_tests))]
pub fn increments(word: Word) -> bool
    ensures { result ≡ has_bit 0 word }
{
    Group1(word.value()).contains(Group1::IAC)
}

/// Whether a word of group 1 rotates the accumulator and the link.
#[tactic(auto, using(crate::proofs::Tests::bit_tests))]
pub fn rotates(word: Word) -> bool
    ensures { result ≡ (has_bit 3 word || has_bit 2 word) }
{
    let bits = Group1(word.value());
    bits.contains(Group1::RAR) || bits.contains(Group1::RAL)
}

/// Whether a word of group 1 has a rotation or BSW, by which the bits of the accumulator change their places.
#[tactic(auto, using(crate::proofs::Tests::bit_tests))]
pub fn moves_bits(word: Word) -> bool
    ensures { result ≡ (has_bit 3 word || (has_bit 2 word || has_bit 1 word)) }
{
    let bits = Group1(word.value());
    bits.contains(Group1::RAR) || bits.contains(Group1::RAL) || bits.contains(Group1::TWICE)
}

/// Whether a word of group 2 ors the switches into the accumulator: it has OSR.
#[tactic(auto, using(crate::proofs::Tests::bit_tests))]
pub fn reads_switches(word: Word) -> bool
    ensures { result ≡ reads_switches_of word }
{
    Group2(word.value()).contains(Group2::OSR)
}

/// Whether a word of group 2 tests the sign of the accumulator: it has SMA, or SPA where it is reversed.
#[tactic(auto, using(crate::proofs::Tests::bit_tests))]
pub fn tests_sign(word: Word) -> bool
    ensures { result ≡ has_bit 6 word }
{
    Group2(word.value()).contains(Group2::SMA)
}

/// Whether a word of group 2 tests the accumulator for 0000: it has SZA, or SNA where it is reversed.
#[tactic(auto, using(crate::proofs::Tests::bit_tests))]
pub fn tests_zero(word: Word) -> bool
    ensures { result ≡ has_bit 5 word }
{
    Group2(word.value()).contains(Group2::SZA)
}

/// Whether a word of group 2 tests the link: it has SNL, or SZL where it is reversed.
#[tactic(auto, using(crate::proofs::Tests::bit_tests))]
pub fn tests_link(word: Word) -> bool
    ensures { result ≡ has_bit 4 word }
{
    Group2(word.value()).contains(Group2::SNL)
}

/// Whether a word of group 2 skips where none of its tests holds.
#[tactic(auto, using(crate::proofs::Tests::bit_tests))]
pub fn is_reversed(word: Word) -> bool
    ensures { result ≡ has_bit 3 word }
{
    Group2(word.value()).contains(Group2::REVERSE)
}

/// When a word skips the next instruction.
#[derive(Clone, Copy, PartialEq, Eq, Debug)]
pub enum SkipCondition {
    /// It does not.
    Never,
    /// It depends on the accumulator, the link, a cell or a flag.
    Sometimes,
    /// In any case.
    Always,
}

impl SkipCondition {
    /// When a word of group 2 skips, whatever the accumulator and the link are.
    pub fn of_tests(word: Word) -> SkipCondition
        ensures { result ≡ skip_condition_of word }
    {
        if tests_sign(word) || tests_zero(word) || tests_link(word) {
            SkipCondition::Sometimes
        } else if is_reversed(word) {
            SkipCondition::Always
        } else {
            SkipCondition::Never
        }
    }

    /// Whether the next instruction may be carried out.
    pub fn may_go_on(self) -> bool
        ensures { result ≡ may_go_on self }
    {
        self != SkipCondition::Always
    }

    /// Whether the next instruction may be skipped.
    pub fn may_skip(self) -> bool
        ensures { result ≡ may_skip self }
    {
        self != SkipCondition::Never
    }
}
