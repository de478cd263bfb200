//! The keyboard, the printer, the reader, the punch and the switches, as the processor meets them
//! during one instruction.

ghost use Rattle.std.specs.Prelude.{ℕ, ◌≡◌, true, false, if◌then◌else◌};
ghost use Rattle.instruct.specs.Devices.{word_of};
ghost use Rattle.instruct.specs.Instructions.{processor_action};
ghost use Rattle.processor.specs.Machine.{Answers};
ghost use Rattle.peripherals.specs.declared.Seen.TheVariants.{Changed, NotEnabled};
ghost use Rattle.peripherals.specs.World.{panel_answer, GoesOn};

use crate::Seen;
use instruct::{DeviceOperation, Profile};
use processor::{Bus, IotAnswer};
use word12::Word;

/// The keyboard: its flag, and the byte of the last key.
#[derive(Clone, Copy, PartialEq, Eq, Debug)]
pub struct Keyboard {
    /// A key was struck and has not been taken.
    pub flag: bool,
    /// The byte of the last key.
    pub buffer: u8,
}

/// The tape reader.
#[derive(Clone, Copy, PartialEq, Eq, Debug)]
pub struct Reader {
    /// A frame has come and has not been taken.
    pub flag: bool,
    /// The byte of the last frame.
    pub buffer: u8,
    /// A frame was requested and has not come.
    pub fetching: bool,
}

/// The state of a printer or a punch, apart from what it has put out.
#[derive(Clone, Copy, PartialEq, Eq, Debug)]
pub struct OutputDevice {
    /// The device is ready for a byte, as far as the program was told.
    pub flag: bool,
    /// A byte is under way.
    pub busy: bool,
}

/// The devices and the switches.
#[derive(Clone, Copy, PartialEq, Eq, Debug)]
pub struct Panel {
    /// The teletype's keyboard.
    pub keyboard: Keyboard,
    /// The teletype's printer.
    pub printer: OutputDevice,
    /// The high-speed reader.
    pub reader: Reader,
    /// The high-speed punch.
    pub punch: OutputDevice,
    /// What the switches show.
    pub switches: Word,
}

impl Panel {
    /// All flags are clear, buffers and switches are 0, and nothing is under way.
    pub const IDLE: Panel = Panel {
        keyboard: Keyboard {
            flag: false,
            buffer: 0,
        },
        printer: OutputDevice {
            flag: false,
            busy: false,
        },
        reader: Reader {
            flag: false,
            buffer: 0,
            fetching: false,
        },
        punch: OutputDevice {
            flag: false,
            busy: false,
        },
        switches: Word::ZERO,
    };

    /// What a device word makes of the devices, the bytes put out apart.
    #[tactic(auto, unfolding(crate::specs::Devices::devices_after))]
    fn go_on(&mut self, operation: DeviceOperation)
        ensures { (ac : ℕ) → GoesOn self.old (word_of operation) ac self.new }
    {
        match operation {
            DeviceOperation::ReadReaderBuffer => self.reader.flag = false,
            DeviceOperation::FetchReaderFrame | DeviceOperation::ReadReaderBufferAndFetchFrame => {
                self.reader.fetch()
            }
            DeviceOperation::ClearPunchFlag => self.punch.flag = false,
            DeviceOperation::Punch => self.punch.busy = true,
            DeviceOperation::ClearPunchFlagAndPunch => self.punch.begin(),
            DeviceOperation::ClearKeyboardFlag
            | DeviceOperation::ClearKeyboardFlagAndAccumulator
            | DeviceOperation::TakeKeyboardByte => self.keyboard.flag = false,
            DeviceOperation::SetPrinterFlag => self.printer.flag = true,
            DeviceOperation::ClearPrinterFlag => self.printer.flag = false,
            DeviceOperation::Print => self.printer.busy = true,
            DeviceOperation::ClearPrinterFlagAndPrint => self.printer.begin(),
            DeviceOperation::DisableInterrupts
            | DeviceOperation::SkipOnReaderFlag
            | DeviceOperation::SkipOnPunchFlag
            | DeviceOperation::SkipOnKeyboardFlag
            | DeviceOperation::ReadKeyboardBuffer
            | DeviceOperation::SkipOnPrinterFlag => {}
        }
    }

    /// What a device word makes of the accumulator and whether it skips.
    fn answer(&self, operation: DeviceOperation, ac: Word) -> IotAnswer
        ensures { Answers (processor_action operation) ac (panel_answer self.now (word_of operation))
            result.ac result.skip }
    {
        let (ac, skip) = match operation {
            DeviceOperation::SkipOnReaderFlag => (ac, self.reader.flag),
            DeviceOperation::SkipOnPunchFlag => (ac, self.punch.flag),
            DeviceOperation::SkipOnKeyboardFlag => (ac, self.keyboard.flag),
            DeviceOperation::SkipOnPrinterFlag => (ac, self.printer.flag),
            DeviceOperation::ReadReaderBuffer | DeviceOperation::ReadReaderBufferAndFetchFrame => {
                (ac.or(Word::from_byte(self.reader.buffer)), false)
            }
            DeviceOperation::ReadKeyboardBuffer => {
                (ac.or(Word::from_byte(self.keyboard.buffer)), false)
            }
            DeviceOperation::TakeKeyboardByte => (Word::from_byte(self.keyboard.buffer), false),
            DeviceOperation::ClearKeyboardFlagAndAccumulator => (Word::ZERO, false),
            _ => (ac, false),
        };
        IotAnswer { ac, skip }
    }
}

impl OutputDevice {
    /// The flag is cleared and a byte is under way.
    fn begin(&mut self)
        ensures { self.new ≡ record { flag = false; busy = true } }
    {
        *self = OutputDevice {
            flag: false,
            busy: true,
        };
    }

    /// The device gets done with its byte, if it was busy.
    pub(crate) fn finish(&mut self) -> Seen
        ensures seen { result ≡ (if self.old.busy then Changed else NotEnabled) }
        ensures after { self.new ≡
            (if self.old.busy then record { flag = true; busy = false } else self.old) }
    {
        if !self.busy {
            return Seen::NotEnabled;
        }
        *self = OutputDevice {
            flag: true,
            busy: false,
        };
        Seen::Changed
    }
}

impl Reader {
    /// The byte is dropped and the next frame is requested.
    fn fetch(&mut self)
        ensures { self.new ≡ record { flag = false; buffer = 0; fetching = true } }
    {
        *self = Reader {
            flag: false,
            buffer: 0,
            fetching: true,
        };
    }

    /// The reader gets a frame, if it waits for one.
    pub(crate) fn receive(&mut self, byte: u8) -> Seen
        ensures seen { result ≡ (if self.old.fetching then Changed else NotEnabled) }
        ensures after { self.new ≡ (if self.old.fetching
            then record { flag = true; buffer = byte; fetching = false } else self.old) }
    {
        if !self.fetching {
            return Seen::NotEnabled;
        }
        *self = Reader {
            flag: true,
            buffer: byte,
            fetching: false,
        };
        Seen::Changed
    }
}

impl Bus for Panel {
    ghost use Rattle.peripherals.specs.World.{panel_answer, GoesOn};

    ghost answer_to = { panel_answer };

    ghost switch_word = { λ panel. panel.switches };

    ghost goes_on = { GoesOn };

    #[inline(never)]
    fn iot(&mut self, word: Word, ac: Word) -> IotAnswer {
        let Some(operation) = DeviceOperation::of(word, Profile::Pdp8E) else {
            return IotAnswer { ac, skip: false };
        };
        let answer = self.answer(operation, ac);
        self.go_on(operation);
        answer
    }

    fn switches(&self) -> Word {
        self.switches
    }
}
