//! The names of the words.

ghost use Rattle.std.specs.Prelude.{ℕ, ◌≡◌, ◌+◌, ◌≤◌, ◌==◌, if◌then◌else◌, List, [], ◌∷◌, ◌++◌, length, codes, IfSome, option_to_list};
ghost use Rattle.std.specs.Option.{option_copied};
ghost use Rattle.instruct.specs.Bits.{has_bit};
ghost use Rattle.instruct.specs.declared.Profile.TheVariants.{Pdp8E};
ghost use Rattle.instruct.specs.declared.Instruction.TheVariants.{Operate3, Iot};
ghost use Rattle.instruct.specs.Devices.{device_operation};
ghost use Rattle.instruct.specs.Operates.{mq_operate_of};
ghost use Rattle.instruct.specs.Instructions.{instruction_of};
ghost use Rattle.instruct.specs.Names.{name_of, mnemonic, memory_name, named_if, spaced, rotate_names, group1_names, test_names, group2_names, group3_name_if, device_name_if, IsSpaced, Adds};

use crate::bits::{Group1, Group2};
use crate::operate::MqOperation;
use crate::{
    DeviceOperation, Instruction, Operation, Profile, decode, names_own_page, refers_indirectly,
};
use arrayvec::ArrayString;
use bitflags::Flags;
use word12::Word;

/// The name of a word on a machine of a profile, in at most 32 characters.
///
/// A memory reference is its mnemonic, ` I` if it is indirect, then ` Z` for page zero or ` C` for
/// the current page with the place in three octal digits, as `TAD I Z010`. An operate word is the
/// names of its bits with a space between two (`NOP` where there are none), a device word is the
/// handbook's mnemonic, and an unsupported word is `?`.
#[tactic(auto, unfolding(crate::specs::Names::name_of))]
pub fn name(word: Word, profile: Profile) -> ArrayString<32>
    ensures { result.bytes ≡ name_of profile word }
{
    match decode(word, profile) {
        Instruction::Memory => name_memory(word),
        Instruction::Operate1 => name_group1(Group1(word.value())),
        Instruction::Operate2 => name_group2(Group2(word.value())),
        Instruction::Operate3 => text_of(name_group3(word)),
        Instruction::Iot => text_of(name_device(word, profile)),
        Instruction::Unsupported => text_of("?"),
    }
}

fn text_of(name: &str) -> ArrayString<32>
    requires { length name.now ≤ 7 }
    ensures { result.bytes ≡ name.now }
{
    let mut text = ArrayString::new();
    text.push_str(name);
    text
}

impl Operation {
    /// The handbook's name of the operation, of 3 characters.
    pub fn mnemonic(self) -> &'static str
        ensures name { result.now ≡ mnemonic self }
        ensures short { length result.now ≡ 3 }
    {
        match self {
            Operation::And => "AND",
            Operation::Tad => "TAD",
            Operation::Isz => "ISZ",
            Operation::Dca => "DCA",
            Operation::Jms => "JMS",
            Operation::Jmp => "JMP",
        }
    }
}

fn name_memory(word: Word) -> ArrayString<32>
    ensures { result.bytes ≡ memory_name word }
{
    let mut text = text_of(Operation::of(word).mnemonic());
    if refers_indirectly(word) {
        text.push_str(" I");
    }
    text.push_str(name_page(word));
    let [_, high, middle, low] = word.place().to_octal();
    text.push(char::from(high));
    text.push(char::from(middle));
    text.push(char::from(low));
    text
}

fn name_page(word: Word) -> &'static str
    ensures name { result.now ≡ (if has_bit 7 word then codes " C" else codes " Z") }
    ensures short { length result.now ≡ 2 }
{
    if names_own_page(word) { " C" } else { " Z" }
}

/// Adds a name, with a space before it where it is not the first.
fn push_name(text: &mut ArrayString<32>, name: &str)
    requires room { length text.old.bytes ≤ 28 }
    requires three { length name.now ≡ 3 }
    ensures names { Adds (name.now ∷ []) text.old.bytes text.new.bytes }
    ensures length { length text.new.bytes ≤ length text.old.bytes + 4 }
{
    if text.is_empty() {
        text.push_str(name);
    } else {
        text.push(' ');
        text.push_str(name);
    }
}

/// Adds a name that applies.
fn push_if(text: &mut ArrayString<32>, applies: bool, name: &str)
    requires room { length text.old.bytes ≤ 28 }
    requires three { length name.now ≡ 3 }
    ensures names { Adds (named_if applies name.now) text.old.bytes text.new.bytes }
    ensures length { length text.new.bytes ≤ length text.old.bytes + 4 }
{
    if applies {
        push_name(text, name);
    }
}

/// Adds a name where there is none.
fn push_if_empty(text: &mut ArrayString<32>, name: &str)
    requires three { length name.now ≡ 3 }
    ensures { text.new.bytes ≡ (if length text.old.bytes == 0 then name.now else text.old.bytes) }
{
    if text.is_empty() {
        text.push_str(name);
    }
}

#[tactic(auto, using(crate::proofs::Tests::bit_tests))]
fn name_rotate(bits: Group1) -> Option<&'static str>
    ensures names { option_to_list (option_copied result) ≡ rotate_names bits.0 }
    ensures three { IfSome result (λ name. length name.now ≡ 3) }
{
    let twice = bits.contains(Group1::TWICE);
    if bits.contains(Group1::RAR) {
        Some(if twice { "RTR" } else { "RAR" })
    } else if bits.contains(Group1::RAL) {
        Some(if twice { "RTL" } else { "RAL" })
    } else if twice {
        Some("BSW")
    } else {
        None
    }
}

fn push_rotate(text: &mut ArrayString<32>, bits: Group1)
    requires room { length text.old.bytes ≤ 28 }
    ensures names { Adds (rotate_names bits.0) text.old.bytes text.new.bytes }
    ensures length { length text.new.bytes ≤ length text.old.bytes + 4 }
{
    if let Some(rotate) = name_rotate(bits) {
        push_name(text, rotate);
    }
}

fn name_group1(bits: Group1) -> ArrayString<32>
    ensures { result.bytes ≡ spaced (group1_names bits.0) }
{
    let mut text = ArrayString::new();
    push_if(&mut text, bits.contains(Group1::CLA), "CLA");
    push_if(&mut text, bits.contains(Group1::CLL), "CLL");
    push_if(&mut text, bits.contains(Group1::CMA), "CMA");
    push_if(&mut text, bits.contains(Group1::CML), "CML");
    push_if(&mut text, bits.contains(Group1::IAC), "IAC");
    push_rotate(&mut text, bits);
    push_if_empty(&mut text, "NOP");
    text
}

fn name_tests(bits: Group2) -> ArrayString<32>
    ensures names { IsSpaced (test_names bits.0) result.bytes }
    ensures length { length result.bytes ≤ 12 }
{
    let mut text = ArrayString::new();
    if bits.contains(Group2::REVERSE) {
        push_if(&mut text, bits.contains(Group2::SMA), "SPA");
        push_if(&mut text, bits.contains(Group2::SZA), "SNA");
        push_if(&mut text, bits.contains(Group2::SNL), "SZL");
        push_if_empty(&mut text, "SKP");
    } else {
        push_if(&mut text, bits.contains(Group2::SMA), "SMA");
        push_if(&mut text, bits.contains(Group2::SZA), "SZA");
        push_if(&mut text, bits.contains(Group2::SNL), "SNL");
    }
    text
}

fn name_group2(bits: Group2) -> ArrayString<32>
    ensures { result.bytes ≡ spaced (group2_names bits.0) }
{
    let mut text = name_tests(bits);
    push_if(&mut text, bits.contains(Group2::CLA), "CLA");
    push_if(&mut text, bits.contains(Group2::OSR), "OSR");
    push_if(&mut text, bits.contains(Group2::HLT), "HLT");
    push_if_empty(&mut text, "NOP");
    text
}

fn name_group3(word: Word) -> &'static str
    ensures name { result.now ≡ group3_name_if (mq_operate_of word) }
    ensures short { length result.now ≤ 7 }
{
    match MqOperation::of(word) {
        Some(operation) => operation.mnemonic(),
        None => "?",
    }
}

fn name_device(word: Word, profile: Profile) -> &'static str
    ensures name { result.now ≡ device_name_if (device_operation profile word) }
    ensures short { length result.now ≤ 7 }
{
    match DeviceOperation::of(word, profile) {
        Some(operation) => operation.mnemonic(),
        None => "?",
    }
}
