//! What a program asks the operator for.

use instruct::{DeviceOperation, Instruction, Profile, decode, reads_switches};
use peripherals::Panel;
use word12::Word;

/// An input for which a program waits, or which it is about to take.
#[derive(Clone, Copy, PartialEq, Eq)]
pub(crate) enum InputRequest {
    /// A key: the program looks whether one was struck, and none was.
    Key,
    /// A frame: the program looks whether the reader has got one, and it has not.
    Frame,
    /// The switches, which the program is about to read.
    Switches,
}

impl InputRequest {
    /// The input that a word asks for, if it asks for one.
    pub(crate) fn by(word: Word, profile: Profile) -> Option<InputRequest> {
        match decode(word, profile) {
            Instruction::Iot => asked_of_device(word, profile),
            Instruction::Operate2 if reads_switches(word) => Some(InputRequest::Switches),
            _ => None,
        }
    }

    /// Whether the input is wanted, by what stands in the devices.
    pub(crate) fn is_wanted(self, panel: &Panel) -> bool {
        match self {
            InputRequest::Key => !panel.keyboard.flag,
            InputRequest::Frame => panel.reader.fetching,
            InputRequest::Switches => true,
        }
    }
}

/// The input that a device word asks for.
fn asked_of_device(word: Word, profile: Profile) -> Option<InputRequest> {
    match DeviceOperation::of(word, profile) {
        Some(
            DeviceOperation::SkipOnKeyboardFlag
            | DeviceOperation::ReadKeyboardBuffer
            | DeviceOperation::TakeKeyboardByte,
        ) => Some(InputRequest::Key),
        Some(DeviceOperation::SkipOnReaderFlag) => Some(InputRequest::Frame),
        _ => None,
    }
}
