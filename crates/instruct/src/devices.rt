//! The device words: those of the teletype, of the high-speed reader and punch, and IOF.

ghost use Rattle.std.specs.Prelude.{◌≡◌, ◌≤◌, length, IfSome, Some};
ghost use Rattle.instruct.specs.Accumulator.{replaces_by_device};
ghost use Rattle.instruct.specs.Devices.{device_operation, word_of};
ghost use Rattle.instruct.specs.Instructions.{device_action, processor_action};
ghost use Rattle.instruct.specs.Names.{device_name};
ghost use Rattle.instruct.specs.Skips.{is_skip};

use crate::Profile;
use word12::Word;

/// What a device word does, a word each.
#[derive(Clone, Copy, PartialEq, Eq, Debug)]
pub enum DeviceOperation {
    /// IOF 6002: interrupts stay off.
    DisableInterrupts,
    /// RSF 6011: skip if the reader's flag is set.
    SkipOnReaderFlag,
    /// RRB 6012: or the reader's buffer into the accumulator and clear the reader's flag.
    ReadReaderBuffer,
    /// RFC 6014: clear the reader's flag and buffer and fetch the next frame.
    FetchReaderFrame,
    /// RRB RFC 6016: RRB, then RFC.
    ReadReaderBufferAndFetchFrame,
    /// PSF 6021: skip if the punch's flag is set.
    SkipOnPunchFlag,
    /// PCF 6022: clear the punch's flag.
    ClearPunchFlag,
    /// PPC 6024: punch the low eight bits of the accumulator.
    Punch,
    /// PLS 6026: PCF, then PPC.
    ClearPunchFlagAndPunch,
    /// KSF 6031: skip if the keyboard's flag is set.
    SkipOnKeyboardFlag,
    /// KCC 6032: clear the accumulator and the keyboard's flag.
    ClearKeyboardFlagAndAccumulator,
    /// KRS 6034: or the keyboard's buffer into the accumulator.
    ReadKeyboardBuffer,
    /// KRB 6036: KCC, then KRS.
    TakeKeyboardByte,
    /// TSF 6041: skip if the printer's flag is set.
    SkipOnPrinterFlag,
    /// TCF 6042: clear the printer's flag.
    ClearPrinterFlag,
    /// TPC 6044: print the low eight bits of the accumulator.
    Print,
    /// TLS 6046: TCF, then TPC.
    ClearPrinterFlagAndPrint,
    /// KCF 6030: clear the keyboard's flag; of the 8/E.
    ClearKeyboardFlag,
    /// TFL 6040: set the printer's flag; of the 8/E.
    SetPrinterFlag,
}

impl DeviceOperation {
    /// What a word does as a device word on a machine of a profile, or none if it is not one.
    #[tactic(auto, unfolding(crate::specs::Devices::device_operation))]
    pub fn of(word: Word, profile: Profile) -> Option<DeviceOperation>
        ensures exact { result ≡ device_operation profile word }
        ensures word { IfSome result (λ operation. word ≡ word_of operation) }
    {
        match word.value() {
            0o6002 => Some(DeviceOperation::DisableInterrupts),
            0o6011 => Some(DeviceOperation::SkipOnReaderFlag),
            0o6012 => Some(DeviceOperation::ReadReaderBuffer),
            0o6014 => Some(DeviceOperation::FetchReaderFrame),
            0o6016 => Some(DeviceOperation::ReadReaderBufferAndFetchFrame),
            0o6021 => Some(DeviceOperation::SkipOnPunchFlag),
            0o6022 => Some(DeviceOperation::ClearPunchFlag),
            0o6024 => Some(DeviceOperation::Punch),
            0o6026 => Some(DeviceOperation::ClearPunchFlagAndPunch),
            0o6031 => Some(DeviceOperation::SkipOnKeyboardFlag),
            0o6032 => Some(DeviceOperation::ClearKeyboardFlagAndAccumulator),
            0o6034 => Some(DeviceOperation::ReadKeyboardBuffer),
            0o6036 => Some(DeviceOperation::TakeKeyboardByte),
            0o6041 => Some(DeviceOperation::SkipOnPrinterFlag),
            0o6042 => Some(DeviceOperation::ClearPrinterFlag),
            0o6044 => Some(DeviceOperation::Print),
            0o6046 => Some(DeviceOperation::ClearPrinterFlagAndPrint),
            0o6030 if profile == Profile::Pdp8E => Some(DeviceOperation::ClearKeyboardFlag),
            0o6040 if profile == Profile::Pdp8E => Some(DeviceOperation::SetPrinterFlag),
            _ => None,
        }
    }

    /// Whether the operation skips where a flag is set.
    pub fn skips_on_flag(self) -> bool
        ensures { result ≡ is_skip (Some (processor_action self)) }
    {
        matches!(
            self,
            DeviceOperation::SkipOnReaderFlag
                | DeviceOperation::SkipOnPunchFlag
                | DeviceOperation::SkipOnKeyboardFlag
                | DeviceOperation::SkipOnPrinterFlag
        )
    }

    /// Whether the operation clears the accumulator or replaces it by a byte.
    fn replaces_accumulator(self) -> bool
        ensures { result ≡ replaces_by_device (Some (processor_action self)) }
    {
        matches!(
            self,
            DeviceOperation::ClearKeyboardFlagAndAccumulator | DeviceOperation::TakeKeyboardByte
        )
    }

    /// The handbook's name of the word, of at most 7 characters.
    pub fn mnemonic(self) -> &'static str
        ensures name { result.now ≡ device_name self }
        ensures short { length result.now ≤ 7 }
    {
        match self {
            DeviceOperation::DisableInterrupts => "IOF",
            DeviceOperation::SkipOnReaderFlag => "RSF",
            DeviceOperation::ReadReaderBuffer => "RRB",
            DeviceOperation::FetchReaderFrame => "RFC",
            DeviceOperation::ReadReaderBufferAndFetchFrame => "RRB RFC",
            DeviceOperation::SkipOnPunchFlag => "PSF",
            DeviceOperation::ClearPunchFlag => "PCF",
            DeviceOperation::Punch => "PPC",
            DeviceOperation::ClearPunchFlagAndPunch => "PLS",
            DeviceOperation::SkipOnKeyboardFlag => "KSF",
            DeviceOperation::ClearKeyboardFlagAndAccumulator => "KCC",
            DeviceOperation::ReadKeyboardBuffer => "KRS",
            DeviceOperation::TakeKeyboardByte => "KRB",
            DeviceOperation::SkipOnPrinterFlag => "TSF",
            DeviceOperation::ClearPrinterFlag => "TCF",
            DeviceOperation::Print => "TPC",
            DeviceOperation::ClearPrinterFlagAndPrint => "TLS",
            DeviceOperation::ClearKeyboardFlag => "KCF",
            DeviceOperation::SetPrinterFlag => "TFL",
        }
    }
}

/// Whether a device word clears the accumulator or replaces it by a byte, on a machine of a profile.
pub(crate) fn replaces_by_device(word: Word, profile: Profile) -> bool
    ensures { result ≡ replaces_by_device (device_action profile word) }
{
    match DeviceOperation::of(word, profile) {
        Some(operation) => operation.replaces_accumulator(),
        None => false,
    }
}

/// Whether a word skips where a flag is set, as a device word on a machine of a profile.
pub fn skips_on_flag(word: Word, profile: Profile) -> bool
    ensures { result ≡ is_skip (device_action profile word) }
{
    match DeviceOperation::of(word, profile) {
        Some(operation) => operation.skips_on_flag(),
        None => false,
    }
}
