//! The words that a tape is made of.

ghost use Rattle.std.specs.Prelude.{◌≡◌, ◌<◌};
ghost use Rattle.bin_tape.specs.Tape.{frames};
ghost use Rattle.bin_tape.specs.Reading.{word_of};

use word12::Word;

/// A word on a tape.
#[derive(Clone, Copy, PartialEq, Eq, Debug)]
pub enum TapeWord {
    /// Where the data words after it go: its first frame has the bit 0100.
    Origin(Word),
    /// A word to be stored, or the checksum.
    Data(Word),
}

impl TapeWord {
    /// The two frames of the word, each with six of its bits, the high ones first.
    pub fn frames(self) -> [u8; 2]
        ensures { result ≡ frames self }
    {
        match self {
            TapeWord::Origin(value) => [0o100 + value.high_half(), value.low_half()],
            TapeWord::Data(value) => [value.high_half(), value.low_half()],
        }
    }

    /// The word of two frames that stand where a word may.
    pub(crate) fn of_frames(first: u8, second: u8) -> TapeWord
        requires { second < 64 }
        ensures { result ≡ word_of first second }
    {
        let value = Word::from_halves(first % 0o100, second);
        if first < 0o100 {
            TapeWord::Data(value)
        } else {
            TapeWord::Origin(value)
        }
    }
}
