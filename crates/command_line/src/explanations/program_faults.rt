//! The faults of tapes and sources. `tests/explanations.py` makes this file from the pages.

use crate::explanations::{Explanation, Subject};

/// What is said about each of them, in the order of the pages.
static PROGRAM_FAULTS: [Explanation; 18] = [
    Explanation {
        code: "NoWord",
        subject: Subject::Fault("tape: NoWord"),
        meaning: "the tape ends before any word",
        advice: "check the file: it is not a tape in the format of the Binary\nLoader, or its beginning is missing",
    },
    Explanation {
        code: "NoOrigin",
        subject: Subject::Fault("tape: NoOrigin"),
        meaning: "a data word comes before any origin",
        advice: "check the file: it is not a tape in the format of the Binary\nLoader, or its beginning is missing",
    },
    Explanation {
        code: "BadFrame",
        subject: Subject::Fault("tape: BadFrame 2"),
        meaning: "a frame is not allowed where it stands (the number is its position on the tape)",
        advice: "a frame was misread, lost or duplicated: read the tape again; do\nnot correct the checksum by hand",
    },
    Explanation {
        code: "WrongField",
        subject: Subject::Fault("tape: WrongField 1"),
        meaning: "a frame selects a field other than 0 (the number is its position on the tape)",
        advice: "use a tape that loads only field 0, because `pdp8` has no other\nfield",
    },
    Explanation {
        code: "Truncated",
        subject: Subject::Fault("tape: Truncated"),
        meaning: "the tape ends within a word, or after a rubout that no second rubout follows, or without a trailer",
        advice: "the reading of the tape stopped too early: read the tape again, up\nto and including the trailer",
    },
    Explanation {
        code: "NoChecksum",
        subject: Subject::Fault("tape: NoChecksum"),
        meaning: "the last word before the trailer is an origin",
        advice: "a frame was misread, lost or duplicated: read the tape again; do\nnot correct the checksum by hand",
    },
    Explanation {
        code: "Checksum",
        subject: Subject::Fault("tape: Checksum 0201 0200"),
        meaning: "the checksum on the tape (the first number) is not the checksum of its words (the second number)",
        advice: "a frame was misread, lost or duplicated: read the tape again; do\nnot correct the checksum by hand. If the tape is a RIM tape, it has no\nchecksum, and its last word was taken for one: add a checksum (docs/FORMATS.md)",
    },
    Explanation {
        code: "TooLong",
        subject: Subject::Fault("tape: TooLong"),
        meaning: "the tape has more than 65,536 frames, and the first 65,536 contain neither a trailer nor a fault",
        advice: "check the file: it is not a tape in the format of the Binary\nLoader, or its trailer is missing",
    },
    Explanation {
        code: "EmptyImage",
        subject: Subject::Fault("tape: EmptyImage"),
        meaning: "the source generates no word, so there is no tape to write",
        advice: "check that this is the right source, and that `$` does not come too\nearly",
    },
    Explanation {
        code: "IC",
        subject: Subject::Fault("source: IC 1 2"),
        meaning: "a character or a form that the language does not have (the two numbers are the part and the line)",
        advice: "in the part and the line that the fault names, remove or rewrite\nwhat the language (docs/PAL.md) does not have, such as macros, parentheses,\ntexts in quotes and lower-case letters",
    },
    Explanation {
        code: "RD",
        subject: Subject::Fault("source: RD 1 2"),
        meaning: "a symbol that has a value is given another value",
        advice: "give the second symbol another name, or the same value",
    },
    Explanation {
        code: "DT",
        subject: Subject::Fault("source: DT 1 2"),
        meaning: "a tag whose symbol already has another value",
        advice: "use a tag only once, and do not use the name of an instruction, or\na symbol to which `=` gives another value, as a tag",
    },
    Explanation {
        code: "UA",
        subject: Subject::Fault("source: UA 1 2"),
        meaning: "a symbol without a value",
        advice: "define the symbol, and define it before any line that uses it for a\nvalue or an origin; if it is not one of your own symbols, the source may need\nsomething that this assembler leaves out (docs/PAL.md). For MQL and similar\ninstructions of the PDP-8/E, use `--profile 8e`, or the line `profile 8e` if\nthere is a declaration",
    },
    Explanation {
        code: "IR",
        subject: Subject::Fault("source: IR 1 2"),
        meaning: "an address that is neither on page zero nor on the instruction's page, or an address after Z that is not on page zero",
        advice: "if the cell is on another page, put its address into a cell of this\npage and refer to it with `I`; if Z stands before an address on the page of the\ninstruction, remove Z",
    },
    Explanation {
        code: "NB",
        subject: Subject::Fault("source: NB 1 2"),
        meaning: "a number above 7777, or above 4095 under DECIMAL",
        advice: "write a number that fits in twelve bits: at most 7777, or at most\n4095 under DECIMAL",
    },
    Explanation {
        code: "PA",
        subject: Subject::Fault("source: PA 1 2"),
        meaning: "PAUSE in the last part",
        advice: "also name the part that follows, or remove PAUSE",
    },
    Explanation {
        code: "ST",
        subject: Subject::Fault("source: ST 1 2"),
        meaning: "the source has more than 1,024 user symbols",
        advice: "use at most 1,024 user symbols",
    },
    Explanation {
        code: "TL",
        subject: Subject::Fault("source: TL 1 0"),
        meaning: "a part has more than 65,536 bytes, or, with `0 0`, there are more than 16 parts",
        advice: "split the source into at most 16 parts, each of at most 65,536\nbytes",
    },
];

/// What is said about the program faults.
pub(crate) fn program_faults() -> &'static [Explanation] {
    &PROGRAM_FAULTS
}
