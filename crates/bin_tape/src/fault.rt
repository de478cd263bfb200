//! Why a tape is not read.

use thiserror::Error;
use word12::Word;

/// Why a list of frames is not read as a tape. Places count frames from 0.
#[derive(Clone, Copy, PartialEq, Eq, Debug, Error)]
pub enum TapeFault {
    /// As many frames as are looked at brought no answer, and another follows.
    #[error("TooLong")]
    TooLong,
    /// The input ended before any word, outside a rubout.
    #[error("NoWord")]
    NoWord,
    /// A data word stands where no word came before.
    #[error("NoOrigin")]
    NoOrigin,
    /// The frame at this place means nothing there.
    #[error("BadFrame {0}")]
    BadFrame(usize),
    /// The frame at this place chooses another field than 0.
    #[error("WrongField {0}")]
    WrongField(usize),
    /// The input ended in a word, in a rubout, or after a word without a trailer.
    #[error("Truncated")]
    Truncated,
    /// The last word before the trailer is an origin.
    #[error("NoChecksum")]
    NoChecksum,
    /// The checksum that was read, and the sum that was counted, which differs from it.
    #[error("Checksum {0} {1}")]
    Checksum(Word, Word),
    /// A read failed before the frames brought an answer.
    #[error("ReadFault")]
    ReadFault,
}

/// Why a tape is not written, or not to its end.
#[derive(Clone, Copy, PartialEq, Eq, Debug, Error)]
pub enum WriteTapeFault {
    /// The image has no word.
    #[error("EmptyImage")]
    EmptyImage,
    /// A write failed or took nothing, after a prefix of the tape went out.
    #[error("WriteFault")]
    WriteFault,
}
