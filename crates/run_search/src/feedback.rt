//! What is worth a look before a step, by the word that is carried out.

use crate::input_request::InputRequest;
use instruct::{
    Instruction, Operation, Profile, decode, refers_indirectly, tests_sign, tests_zero,
};
use word12::Word;

/// What is worth a look.
#[derive(Clone, Copy, PartialEq, Eq)]
pub(crate) enum Feedback {
    /// Nothing.
    Nothing,
    /// Whether the word asks for an input.
    Asks(InputRequest),
    /// The address that an indirect reference uses.
    Address,
    /// The address that an indirect DCA or ISZ uses.
    StoredIndirectly,
    /// The word that a DCA or an ISZ leaves in the cell that it names.
    Stored,
    /// How far the accumulator is from 0 at a test of it for 0.
    Zero,
    /// How far the accumulator is from 0 at a test of its sign.
    Sign,
}

impl Feedback {
    /// Whether a DCA or an ISZ is carried out.
    pub(crate) fn is_store(self) -> bool {
        matches!(self, Feedback::Stored | Feedback::StoredIndirectly)
    }

    /// What is worth a look at a word.
    fn at(word: Word, profile: Profile) -> Feedback {
        if let Some(ask) = InputRequest::by(word, profile) {
            return Feedback::Asks(ask);
        }
        match decode(word, profile) {
            Instruction::Memory => look_at_reference(word),
            Instruction::Operate2 => look_at_test(word),
            _ => Feedback::Nothing,
        }
    }
}

/// What is worth a look at a memory reference.
fn look_at_reference(word: Word) -> Feedback {
    let is_indirect = refers_indirectly(word);
    match Operation::of(word) {
        Operation::Isz | Operation::Dca if is_indirect => Feedback::StoredIndirectly,
        Operation::Isz | Operation::Dca => Feedback::Stored,
        _ if is_indirect => Feedback::Address,
        _ => Feedback::Nothing,
    }
}

/// What is worth a look at a word of group 2.
fn look_at_test(word: Word) -> Feedback {
    if tests_zero(word) {
        Feedback::Zero
    } else if tests_sign(word) {
        Feedback::Sign
    } else {
        Feedback::Nothing
    }
}

/// What is worth a look at each of the 4096 words.
pub(crate) fn looks(profile: Profile) -> [Feedback; 4096] {
    let mut looks = [Feedback::Nothing; 4096];
    for index in 0..4096usize {
        looks[index] = Feedback::at(Word::from_index(index), profile);
    }
    looks
}
