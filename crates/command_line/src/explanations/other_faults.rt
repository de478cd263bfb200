//! The faults of other files, of searches, of devices and of memory. `tests/explanations.py` makes this file from the pages.

use crate::explanations::{Explanation, Subject};

/// What is said about each of them, in the order of the pages.
static OTHER_FAULTS: [Explanation; 26] = [
    Explanation {
        code: "BadLine",
        subject: Subject::Fault("declaration: BadLine 2"),
        meaning: "the line is not a line of a declaration",
        advice: "write the line in one of the forms that a declaration has\n(docs/DECLARATIONS.md): addresses are in octal, ranges ascend, and letters are\nin lower case; the offsets of a `sub` line are 0 to 7, and those of a `returns`\nline 0 to 77, listed one by one and not as ranges; after `link` comes 0 or 1",
    },
    Explanation {
        code: "TwoStarts",
        subject: Subject::Fault("declaration: TwoStarts 3"),
        meaning: "the line is a second `start`",
        advice: "write one `start` line and at most one `profile` line",
    },
    Explanation {
        code: "TwoProfiles",
        subject: Subject::Fault("declaration: TwoProfiles 3"),
        meaning: "the line is a second `profile`",
        advice: "write one `start` line and at most one `profile` line",
    },
    Explanation {
        code: "NoStart",
        subject: Subject::Fault("declaration: NoStart"),
        meaning: "there is no `start` line",
        advice: "write one `start` line and at most one `profile` line",
    },
    Explanation {
        code: "Overlap",
        subject: Subject::Fault("declaration: Overlap 0200"),
        meaning: "the cell has two roles that exclude each other (docs/DECLARATIONS.md)",
        advice: "remove one of the roles that clash (docs/DECLARATIONS.md); a cell\nof code that changes may be in a body and be a variable too",
    },
    Explanation {
        code: "EntryInAutoIndex",
        subject: Subject::Fault("declaration: EntryInAutoIndex 0010"),
        meaning: "the entry is one of the cells 0010 to 0017",
        advice: "move the routine: the cells 0010 to 0017 change when they are used\nas pointers",
    },
    Explanation {
        code: "StartNotInMain",
        subject: Subject::Fault("declaration: StartNotInMain"),
        meaning: "the start is not in main's body",
        advice: "add the start to a `main` line",
    },
    Explanation {
        code: "HaltNotInBody",
        subject: Subject::Fault("declaration: HaltNotInBody 0204"),
        meaning: "the stop or pause is not in any body",
        advice: "add the address to a `main` line, or to the body of its routine",
    },
    Explanation {
        code: "Misplaced",
        subject: Subject::Fault("declaration: Misplaced 0204"),
        meaning: "a line names an address that it must not name: `skips`, `moves` and `returns` may name only entries, `abandon` only cells of main's body, and `holds` only cells of bodies",
        advice: "correct the address, or declare the routine or the body to which it\nbelongs",
    },
    Explanation {
        code: "TooMany",
        subject: Subject::Fault("declaration: TooMany"),
        meaning: "the declaration has more than 64 `sub` lines, more than 64 `skips` lines, more than 256 `holds` and `returns` lines together, or more than 16,384 bytes",
        advice: "use at most 64 `sub` lines, at most 64 `skips` lines, at most 256\n`holds` and `returns` lines together, and at most 16,384 bytes",
    },
    Explanation {
        code: "NoSymbol",
        subject: Subject::Fault("declaration: NoSymbol 2"),
        meaning: "a symbol on the line has no value in the source",
        advice: "use a symbol of the source, or octal digits",
    },
    Explanation {
        code: "PastMemory",
        subject: Subject::Fault("declaration: PastMemory 2"),
        meaning: "an address on the line is below 0000 or above 7777",
        advice: "name a cell from 0000 to 7777",
    },
    Explanation {
        code: "Backwards",
        subject: Subject::Fault("declaration: Backwards 2"),
        meaning: "on the line, a range with a symbol ends below its first address",
        advice: "put the lower address of the range first",
    },
    Explanation {
        code: "BadLine",
        subject: Subject::Fault("events: BadLine 2"),
        meaning: "the line is not an event",
        advice: "write the line in one of the forms that a list of events has\n(docs/FORMATS.md)",
    },
    Explanation {
        code: "TooMany",
        subject: Subject::Fault("events: TooMany"),
        meaning: "there are more than 1,000,000 events, or more than 65,536 bytes",
        advice: "use at most 1,000,000 events and at most 65,536 bytes",
    },
    Explanation {
        code: "Version",
        subject: Subject::Fault("certificate: Version"),
        meaning: "the first line has an unknown version",
        advice: "the first line must be `PDP8-CERTIFICATE 1`, `2` or `3`; if the\nfile is empty, a `guess` without `-o` may have found nothing",
    },
    Explanation {
        code: "BadLine",
        subject: Subject::Fault("certificate: BadLine 2"),
        meaning: "the line is not allowed there, is not spelled as required, does not end with a line feed, or is missing",
        advice: "write each line in the one spelling that is allowed: `0000-0001`,\nnot `0000,0001`, with one space between words and no carriage return; the last\nline must be `end`",
    },
    Explanation {
        code: "Order",
        subject: Subject::Fault("certificate: Order 9"),
        meaning: "the line is out of order, or is a duplicate",
        advice: "write routine lines first, then facts, then exits, each in\nascending order of address, and nothing twice; below a fact or an exit, `cell`\nlines come before `equal` or `sum` lines, and `func` lines come last",
    },
    Explanation {
        code: "TooMany",
        subject: Subject::Fault("certificate: TooMany"),
        meaning: "the certificate has more than 64 routines or more than 1,048,576 bytes, or one of its facts or exits has more than 64 `cell` lines, more than 32 `equal` or `sum` lines, or more than 4 `func` lines",
        advice: "use at most 64 routines and at most 1,048,576 bytes, and below each\nfact or exit at most 64 `cell` lines, 32 `equal` or `sum` lines and 4 `func`\nlines; leave out lines that are not needed",
    },
    Explanation {
        code: "Stuck",
        subject: Subject::Fault("guess: Stuck 0203"),
        meaning: "no certificate was found; usually a condition of `check` fails at this address, given what the search has found; if calls form a cycle, this is the lowest address of a call in the cycle",
        advice: "add `--why`: it usually names the condition that cannot be shown\nthere, and says what violates it",
    },
    Explanation {
        code: "TurnsSpent",
        subject: Subject::Fault("guess: TurnsSpent"),
        meaning: "the limit of 2,000,000 turns was reached; a turn is one look at what an instruction may do",
        advice: "declare fewer variables; mask words (`AND`) before they are stored;\nor search for a run: use `refute` with more `--steps`",
    },
    Explanation {
        code: "Undeclarable",
        subject: Subject::Fault("declare: Undeclarable TooMany"),
        meaning: "the proposal is not a valid declaration; the name of its fault follows",
        advice: "write the declaration by hand; the name after `Undeclarable` says\nwhat is wrong with the proposal",
    },
    Explanation {
        code: "Mismatch",
        subject: Subject::Fault("declare: Mismatch"),
        meaning: "the proposal does not have the start, the machine or the list of reads that was requested; no program is known for which this happens",
        advice: "write the declaration by hand",
    },
    Explanation {
        code: "ReadFault",
        subject: Subject::Fault("device: ReadFault"),
        meaning: "an input cannot be opened or read",
        advice: "check the name of the file and its permissions; if the input is a\nfile, the line below the fault names it",
    },
    Explanation {
        code: "WriteFault",
        subject: Subject::Fault("device: WriteFault"),
        meaning: "an output cannot be created or written, or a pipe was closed, for example by `head`",
        advice: "check the name of the file, its permissions and the room on the\ndisk; the line below the fault names the file, or both files if there are two\noutputs",
    },
    Explanation {
        code: "NoMemory",
        subject: Subject::Fault("memory: NoMemory"),
        meaning: "memory was refused",
        advice: "give `pdp8` more memory",
    },
];

/// What is said about the other faults.
pub(crate) fn other_faults() -> &'static [Explanation] {
    &OTHER_FAULTS
}
