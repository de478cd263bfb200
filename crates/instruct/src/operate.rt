//! What the operate words make of the accumulator, the link and MQ.

ghost use Rattle.std.specs.Prelude.{◌≡◌, ◌≤◌, length, Some};
ghost use Rattle.std.specs.Option.{option_map};
ghost use Rattle.instruct.specs.Accumulator.{replaces_by_mq};
ghost use Rattle.instruct.specs.Group3.{mq_operate_as};
ghost use Rattle.instruct.specs.Names.{group3_name};
ghost use Rattle.instruct.specs.Operates.{operate1_of, any_test_holds, skips_of, operate2_of, mq_operate_of, mq_operate, operate3_of, cleared, complemented, counted, rotated, is_halt};

use crate::bits::{Group1, Group2};
use bitflags::Flags;
use word12::{Link, Word};

#[tactic(auto, using(crate::proofs::Tests::bit_tests))]
fn clear(bits: Group1, ac: Word, link: Link) -> (Word, Link)
    ensures { result ≡ cleared bits.0 (ac, link) }
{
    let ac = if bits.contains(Group1::CLA) {
        Word::ZERO
    } else {
        ac
    };
    let link = if bits.contains(Group1::CLL) {
        Link::CLEAR
    } else {
        link
    };
    (ac, link)
}

#[tactic(auto, using(crate::proofs::Tests::bit_tests))]
fn complement(bits: Group1, ac: Word, link: Link) -> (Word, Link)
    ensures { result ≡ complemented bits.0 (ac, link) }
{
    let ac = if bits.contains(Group1::CMA) {
        ac.complement()
    } else {
        ac
    };
    let link = if bits.contains(Group1::CML) {
        link.complement()
    } else {
        link
    };
    (ac, link)
}

#[tactic(auto, using(crate::proofs::Tests::bit_tests))]
fn count(bits: Group1, ac: Word, link: Link) -> (Word, Link)
    ensures { result ≡ counted bits.0 (ac, link) }
{
    if !bits.contains(Group1::IAC) {
        return (ac, link);
    }
    let link = if ac.value() == 0o7777 {
        link.complement()
    } else {
        link
    };
    (ac.increment(), link)
}

#[tactic(auto, using(crate::proofs::Tests::bit_tests))]
fn rotate(bits: Group1, ac: Word, link: Link) -> (Word, Link)
    ensures { result ≡ rotated bits.0 (ac, link) }
{
    if bits.contains(Group1::RAR) {
        let (ac, link) = ac.rotate_right(link);
        if bits.contains(Group1::TWICE) {
            ac.rotate_right(link)
        } else {
            (ac, link)
        }
    } else if bits.contains(Group1::RAL) {
        let (ac, link) = ac.rotate_left(link);
        if bits.contains(Group1::TWICE) {
            ac.rotate_left(link)
        } else {
            (ac, link)
        }
    } else if bits.contains(Group1::TWICE) {
        (ac.exchange_halves(), link)
    } else {
        (ac, link)
    }
}

/// The accumulator and the link after a word of group 1.
///
/// The order is the machine's: CLA and CLL, CMA and CML, IAC, then the rotate or BSW. IAC on 7777
/// gives 0000 and complements the link; rotates go through the link. It is meant for words that
/// `decode` calls `Operate1`; of another word it reads the same bits.
pub fn operate1(word: Word, ac: Word, link: Link) -> (Word, Link)
    ensures { result ≡ operate1_of word (ac, link) }
{
    let bits = Group1(word.value());
    let (ac, link) = clear(bits, ac, link);
    let (ac, link) = complement(bits, ac, link);
    let (ac, link) = count(bits, ac, link);
    rotate(bits, ac, link)
}

#[tactic(auto, using(crate::proofs::Tests::bit_tests))]
fn passes_any_test(bits: Group2, ac: Word, link: Link) -> bool
    ensures { result ≡ any_test_holds bits.0 ac link }
{
    bits.contains(Group2::SMA) && ac.is_negative()
        || bits.contains(Group2::SZA) && ac == Word::ZERO
        || bits.contains(Group2::SNL) && link.is_set()
}

/// Whether a word of group 2 skips the next instruction, by the accumulator and the link before
/// it.
///
/// SMA tests for a negative accumulator, SZA for 0000, SNL for a link of 1. The word skips where a
/// chosen test holds, or with the reverse bit (0010) where none does.
#[tactic(auto, using(crate::proofs::Tests::bit_tests))]
pub fn skips(word: Word, ac: Word, link: Link) -> bool
    ensures { result ≡ skips_of word ac link }
{
    let bits = Group2(word.value());
    let passes = passes_any_test(bits, ac, link);
    if bits.contains(Group2::REVERSE) {
        !passes
    } else {
        passes
    }
}

/// The accumulator after a word of group 2: first CLA, then OSR, which ors the switches in.
#[tactic(auto, using(crate::proofs::Tests::bit_tests))]
pub fn operate2(word: Word, ac: Word, switches: Word) -> Word
    ensures { result ≡ operate2_of word ac switches }
{
    let bits = Group2(word.value());
    let kept = if bits.contains(Group2::CLA) {
        Word::ZERO
    } else {
        ac
    };
    if bits.contains(Group2::OSR) {
        kept.or(switches)
    } else {
        kept
    }
}

/// The operations of group 3, which only the 8/E has here.
#[derive(Clone, Copy, PartialEq, Eq, Debug)]
pub(crate) enum MqOperation {
    /// MQL 7421: MQ takes the accumulator, which is cleared.
    Mql,
    /// MQA 7501: MQ is ored into the accumulator.
    Mqa,
    /// SWP 7521: the accumulator and MQ are exchanged.
    Swp,
    /// CAM 7621: both are cleared.
    Cam,
    /// CLA MQA 7701: the accumulator takes MQ.
    ClaMqa,
    /// CLA SWP 7721: the accumulator takes MQ, which is cleared.
    ClaSwp,
}

impl MqOperation {
    /// The operation of a word of group 3, or none if it has none.
    pub(crate) fn of(word: Word) -> Option<MqOperation>
        ensures { option_map mq_operate_as result ≡ mq_operate_of word }
    {
        match word.value() {
            0o7421 => Some(MqOperation::Mql),
            0o7501 => Some(MqOperation::Mqa),
            0o7521 => Some(MqOperation::Swp),
            0o7621 => Some(MqOperation::Cam),
            0o7701 => Some(MqOperation::ClaMqa),
            0o7721 => Some(MqOperation::ClaSwp),
            _ => None,
        }
    }

    /// The handbook's name of the word, of at most 7 characters.
    pub(crate) fn mnemonic(self) -> &'static str
        ensures name { result.now ≡ group3_name (mq_operate_as self) }
        ensures short { length result.now ≤ 7 }
    {
        match self {
            MqOperation::Mql => "MQL",
            MqOperation::Mqa => "MQA",
            MqOperation::Swp => "SWP",
            MqOperation::Cam => "CAM",
            MqOperation::ClaMqa => "CLA MQA",
            MqOperation::ClaSwp => "CLA SWP",
        }
    }

    /// Whether the operation clears the accumulator or replaces it by MQ: each one does but MQA, which ors MQ into it.
    fn replaces_accumulator(self) -> bool
        ensures { result ≡ replaces_by_mq (Some (mq_operate_as self)) }
    {
        self != MqOperation::Mqa
    }

    /// The accumulator and MQ, in this order, after the operation.
    fn results(self, ac: Word, mq: Word) -> (Word, Word)
        ensures { result ≡ mq_operate (mq_operate_as self) (ac, mq) }
    {
        match self {
            MqOperation::Mql => (Word::ZERO, ac),
            MqOperation::Mqa => (ac.or(mq), mq),
            MqOperation::Swp => (mq, ac),
            MqOperation::Cam => (Word::ZERO, Word::ZERO),
            MqOperation::ClaMqa => (mq, mq),
            MqOperation::ClaSwp => (mq, Word::ZERO),
        }
    }
}

/// The accumulator and MQ, in this order, after one of the words of group 3 that the 8/E has here.
/// Any other word leaves both.
pub fn operate3(word: Word, ac: Word, mq: Word) -> (Word, Word)
    ensures { result ≡ operate3_of word (ac, mq) }
{
    match MqOperation::of(word) {
        Some(operation) => operation.results(ac, mq),
        None => (ac, mq),
    }
}

/// Whether a word of group 3 clears the accumulator or replaces it by MQ.
pub(crate) fn replaces_by_mq(word: Word) -> bool
    ensures { result ≡ replaces_by_mq (mq_operate_of word) }
{
    match MqOperation::of(word) {
        Some(operation) => operation.replaces_accumulator(),
        None => false,
    }
}

/// Whether a word of group 2 halts the machine after it.
#[tactic(auto, using(crate::proofs::Tests::bit_tests))]
pub fn halts(word: Word) -> bool
    ensures { result ≡ is_halt word }
{
    Group2(word.value()).contains(Group2::HLT)
}
