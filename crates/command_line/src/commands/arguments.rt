//! The operands and options that several commands have, as help shows them.

use crate::table::{Argument, Form};

pub(crate) const TAPE_OR_SOURCE: Argument = Argument {
    name: "TAPE",
    form: Form::OperandOrSource,
    help: "the tape, or - for standard input; left out with --source",
};

pub(crate) const DECLARATION_OR_SOURCE: Argument = Argument {
    name: "DECLARATION",
    form: Form::OperandOrSource,
    help: "the declaration, or - for standard input; with --source it may be left out: the /: lines of the source are then the declaration",
};

pub(crate) const CERTIFICATE_OR_SOURCE: Argument = Argument {
    name: "CERTIFICATE",
    form: Form::OperandOrSource,
    help: "the certificate, or - for standard input",
};

pub(crate) const PARTS: Argument = Argument {
    name: "source",
    form: Form::Values("SOURCE"),
    help: "a part of the source that is used in place of the tape; repeat the option for each part",
};

pub(crate) const OTHER_SOURCES: Argument = Argument {
    name: "SOURCE",
    form: Form::OtherOperands,
    help: "the parts of the source, in order; one of them may be - for standard input",
};

pub(crate) const OUTPUT: Argument = Argument {
    name: "output",
    form: Form::Value("OUT"),
    help: "where the result goes, or - for standard output; OUT is then not an operand. The file is created or replaced when there is a result; otherwise nothing happens to it",
};

pub(crate) const PROFILE: Argument = Argument {
    name: "profile",
    form: Form::Value("P"),
    help: "the machine, 8i or 8e; 8i by default",
};

pub(crate) const START: Argument = Argument {
    name: "start",
    form: Form::Value("A"),
    help: "the octal address of the first instruction, 0200 by default; leading zeros are allowed",
};

pub(crate) const ROUNDS: Argument = Argument {
    name: "steps",
    form: Form::Value("N"),
    help: "the maximum number of rounds (a round is one instruction and what the devices do after it); 100000 by default",
};

pub(crate) const READER: Argument = Argument {
    name: "reader",
    form: Form::Value("FILE"),
    help: "the file whose bytes are the frames in the high-speed reader, or - for standard input",
};

pub(crate) const PUNCH: Argument = Argument {
    name: "punch",
    form: Form::Value("FILE"),
    help: "where the punched bytes go when the run is over",
};

pub(crate) const KEYS: Argument = Argument {
    name: "keys",
    form: Form::Value("FILE"),
    help: "the file whose bytes are the keys that are struck, or - for standard input",
};

pub(crate) const MARK: Argument = Argument {
    name: "mark",
    form: Form::Flag,
    help: "sets channel 8 of each key",
};

pub(crate) const SWITCHES: Argument = Argument {
    name: "switches",
    form: Form::Value("W"),
    help: "the octal word that the switches show, 0000 by default; leading zeros are allowed",
};

pub(crate) const SHOW: Argument = Argument {
    name: "show",
    form: Form::Values("R"),
    help: "writes these cells when the run is over: octal addresses or ranges, such as 0324 or 0400-0417, with spaces between them; the option may be repeated. With --source, symbols may be used as well, such as COUNT or LIST+2",
};

pub(crate) const UNTIL: Argument = Argument {
    name: "until",
    form: Form::Value("PLACE"),
    help: "stops the run before the instruction at this octal address, or with --source at a symbol such as LOOP or LOOP+2; PLACE,N stops it when the run gets there for the Nth time",
};

pub(crate) const UNTIL_WRITE: Argument = Argument {
    name: "until-write",
    form: Form::Values("R"),
    help: "stops the run before an instruction that writes one of these cells; R is written as for --show",
};

pub(crate) const UNTIL_READ: Argument = Argument {
    name: "until-read",
    form: Form::Values("R"),
    help: "stops the run before an instruction that reads one of these cells as a pointer or an operand; R is written as for --show",
};

pub(crate) const LAST: Argument = Argument {
    name: "last",
    form: Form::Value("N"),
    help: "writes a line for each of the last N instructions that are executed, before the summary",
};

pub(crate) const SEARCH_STEPS: Argument = Argument {
    name: "steps",
    form: Form::Value("N"),
    help: "the maximum number of steps of the search for a run that violates the declaration; 20000000 by default",
};

pub(crate) const SEED: Argument = Argument {
    name: "seed",
    form: Form::Value("S"),
    help: "the seed of the random numbers; 1 by default",
};

pub(crate) const WHY_SOURCE: Argument = Argument {
    name: "why",
    form: Form::Flag,
    help: "after a fault, writes the faults that are found, at most twenty, with their lines and what to change",
};

pub(crate) const WHY_INPUT: Argument = Argument {
    name: "why",
    form: Form::Flag,
    help: "if an input is refused, says what is wrong with it",
};

pub(crate) const WHY_RUN: Argument = Argument {
    name: "why",
    form: Form::Flag,
    help: "if an input is refused, says what is wrong with it; if the run ends at a word that the machine does not support, says what the word may be",
};
