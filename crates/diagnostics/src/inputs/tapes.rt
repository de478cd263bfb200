//! What is said about a tape that is refused.

use crate::inputs::FaultText;
use bin_tape::TapeFault;

/// What is said about a fault of a tape.
pub(crate) fn told_of_tape(fault: TapeFault) -> FaultText {
    match fault {
        TapeFault::TooLong => FaultText::File(
            "its first 65536 frames have no trailer (a frame 200) after the last word",
        ),
        TapeFault::NoWord => FaultText::File(
            "it ends before any word: is it a tape in the format of the Binary Loader?",
        ),
        TapeFault::NoOrigin => FaultText::File(
            "a data word comes first; the first word must say where the next ones go, and its first frame must be from 100 to 177",
        ),
        TapeFault::BadFrame(place) => FaultText::Frame(
            place,
            "a word is two frames, from 000 to 177 and then from 000 to 077; before the first word, 200 is leader; after a word, 200 ends the tape; 300 may stand between words; frames between two rubouts (377) are skipped",
        ),
        TapeFault::WrongField(place) => FaultText::Frame(
            place,
            "it selects a field of memory other than 0, and there is only field 0",
        ),
        TapeFault::Truncated => FaultText::File(
            "it ends within a word, or after a rubout (377) that no second rubout follows, or it has no trailer (a frame 200) after the checksum",
        ),
        TapeFault::NoChecksum => FaultText::File(
            "its last word is an origin, not a checksum: is the tape complete?",
        ),
        TapeFault::Checksum(read, counted) => FaultText::Checksum(
            read,
            counted,
            "a frame was misread, lost or duplicated, or it is a RIM tape, which has no checksum",
        ),
        TapeFault::ReadFault => FaultText::Nothing,
    }
}
