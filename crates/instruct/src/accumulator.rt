//! What words do to the accumulator: which ones test it, and which ones replace it, whatever it held.

ghost use Rattle.std.specs.Prelude.{◌≡◌};
ghost use Rattle.instruct.specs.Accumulator.{replaces_accumulator, replaces_by_reference, skips_always, tests_accumulator};

use crate::devices::replaces_by_device;
use crate::microinstructions::{SkipCondition, clears, tests_sign, tests_zero};
use crate::operate::replaces_by_mq;
use crate::{Format, Operation, Profile};
use word12::Word;

/// Whether a word is of group 2 and tests the accumulator, by SMA or SZA, or by SPA or SNA.
pub fn tests_accumulator(word: Word) -> bool
    ensures { result ≡ tests_accumulator word }
{
    Format::of(word).is_group2() && (tests_sign(word) || tests_zero(word))
}

/// Whether a word is of group 2 and skips the next instruction in any case, as SKP does.
pub fn skips_always(word: Word) -> bool
    ensures { result ≡ skips_always word }
{
    Format::of(word).is_group2() && !SkipCondition::of_tests(word).may_go_on()
}

/// Whether a memory reference of an operation replaces the accumulator: only DCA does, which clears it.
fn replaces_by_reference(operation: Operation) -> bool
    ensures { result ≡ replaces_by_reference operation }
{
    operation == Operation::Dca
}

/// Whether the accumulator after a word does not depend on the accumulator before it, on a machine of a profile: the word clears the
/// accumulator or puts a byte or MQ in its place.
pub fn replaces_accumulator(word: Word, profile: Profile) -> bool
    ensures { result ≡ replaces_accumulator profile word }
{
    match Format::of(word) {
        Format::Reference(operation) => replaces_by_reference(operation),
        Format::Device => replaces_by_device(word, profile),
        Format::Group1 | Format::Group2 => clears(word),
        Format::Group3 => replaces_by_mq(word),
    }
}
