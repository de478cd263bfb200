//! The commands of `pdp8`, as help shows them.

mod arguments;

use crate::commands::arguments::{
    CERTIFICATE_OR_SOURCE, DECLARATION_OR_SOURCE, KEYS, LAST, MARK, OTHER_SOURCES, OUTPUT, PARTS,
    PROFILE, PUNCH, READER, ROUNDS, SEARCH_STEPS, SEED, SHOW, START, SWITCHES, TAPE_OR_SOURCE,
    UNTIL, UNTIL_READ, UNTIL_WRITE, WHY_INPUT, WHY_RUN, WHY_SOURCE,
};
use crate::table::{Argument, Entry, Form};
use clap::Command;
use std::alloc::{AllocError, Global};

/// What `--version` prints after the program's name.
const VERSION: &str = "1.1";

/// The text below the list of commands.
const STATUSES: &str = "Exit status:
  0  done
  1  an input was refused, a run violated a rule or reached an unsupported word, a condition failed, no certificate was found, or verify answered no or not known
  2  the command line is wrong, or a file would be replaced without --force
  3  a file or a stream could not be opened, read or written
  4  memory was refused

Files are opened in the order of the operands; an OUT that is given by -o is created when there is a result. The operand - stands for standard input or, as OUT, for standard output.

Example:
  pdp8 assemble -o hello.bin hello.pal && pdp8 run hello.bin";

/// The commands with their arguments, in the order of the list.
const COMMANDS: [Entry; 16] = [
    Entry {
        name: "verify",
        usage: "pdp8 verify [OPTIONS] <TAPE> [DECLARATION]",
        about: "Says whether a program complies with its declaration: yes, no or not known",
        after_help: "Without DECLARATION, and without /: lines in the source, a declaration is proposed; --start and --profile then say where the program starts and which machine it is for. If there is a declaration, it says where the program starts and which machine it is for.\n\nExamples:\n  pdp8 verify hello.bin hello.declaration\n  pdp8 verify --source hello.pal --save new",
        arguments: &[
            TAPE_OR_SOURCE,
            Argument {
                name: "DECLARATION",
                form: Form::OptionalOperand,
                help: "the declaration, or - for standard input; by default the /: lines of the source, or if there are none, a declaration that pdp8 proposes",
            },
            PARTS,
            START,
            PROFILE,
            SEARCH_STEPS,
            SEED,
            Argument {
                name: "save",
                form: Form::Value("NAME"),
                help: "saves what is found as NAME.declaration, NAME.certificate or NAME.events",
            },
            Argument {
                name: "force",
                form: Form::Flag,
                help: "with --save, also replaces files that this command did not write",
            },
            Argument {
                name: "why",
                form: Form::Flag,
                help: "also says why; after a yes, says what the declaration lists but the certificate does not need",
            },
        ],
    },
    Entry {
        name: "run",
        usage: "pdp8 run [OPTIONS] <TAPE>",
        about: "Runs a tape, and writes where the run ended and what was printed and punched",
        after_help: "Examples:\n  pdp8 run hello.bin --start 200 --trace\n  pdp8 run --source hello.pal --until TYPE+2 --show LEFT",
        arguments: &[
            TAPE_OR_SOURCE,
            PARTS,
            START,
            ROUNDS,
            Argument {
                name: "events",
                form: Form::Value("FILE"),
                help: "a file of events, or - for standard input: these events are the whole run, and there are no rounds",
            },
            Argument {
                name: "trace",
                form: Form::Flag,
                help: "writes a line for each instruction that is executed",
            },
            Argument {
                name: "trace-long",
                form: Form::Flag,
                help: "writes a longer line for each instruction that is executed: the instruction (with --source, its label and its statement) and the cells that it read and wrote",
            },
            PROFILE,
            READER,
            PUNCH,
            KEYS,
            MARK,
            Argument {
                name: "teletype",
                form: Form::Flag,
                help: "what is printed goes to standard output, and everything else to standard error",
            },
            SWITCHES,
            UNTIL,
            UNTIL_WRITE,
            UNTIL_READ,
            LAST,
            SHOW,
            WHY_RUN,
        ],
    },
    Entry {
        name: "teletype",
        usage: "pdp8 teletype [OPTIONS] <TAPE>",
        about: "Runs a tape with you at the teletype: what the program prints appears at once, and the program gets a key when it asks for one",
        after_help: "Keys come from standard input, what is printed goes to standard output, and the summary goes to standard error. The session ends at a halt, at an unsupported word, and where --until, --until-write or --until-read stops it. It also ends when the program asks for a key, if none is left or if the next one is the key of --interrupt.\n\nExample:\n  pdp8 teletype echo.bin",
        arguments: &[
            Argument {
                name: "TAPE",
                form: Form::OperandOrSource,
                help: "the tape; left out with --source. Standard input is the keyboard",
            },
            PARTS,
            START,
            PROFILE,
            Argument {
                name: "reader",
                form: Form::Value("FILE"),
                help: "the file whose bytes are the frames in the high-speed reader; standard input is the keyboard",
            },
            PUNCH,
            SWITCHES,
            MARK,
            Argument {
                name: "raw",
                form: Form::Flag,
                help: "sends each byte to the program unchanged: a line feed does not become a carriage return, and channel 8 is not set",
            },
            Argument {
                name: "interrupt",
                form: Form::Value("K"),
                help: "the key that ends the session if it is the next one when the program asks for a key: an octal number, such as 5 for ^E, or off for none. By default it is ^E at a terminal without --raw; otherwise there is none",
            },
            UNTIL,
            UNTIL_WRITE,
            UNTIL_READ,
            LAST,
            SHOW,
            WHY_RUN,
        ],
    },
    Entry {
        name: "dump",
        usage: "pdp8 dump [OPTIONS] <TAPE>",
        about: "Writes each word on a tape, with its address and what it is as an instruction",
        after_help: "With --source, each line ends with the place of the word in the source, such as LOOP or LOOP+2, and, if the word is the first one of its line in the source, with that line.\n\nExamples:\n  pdp8 dump hello.bin\n  pdp8 dump --source hello.pal",
        arguments: &[
            TAPE_OR_SOURCE,
            PARTS,
            Argument {
                name: "full",
                form: Form::Flag,
                help: "writes each memory reference with the whole address that it names, such as JMP 0202; with --source this is done anyway",
            },
            PROFILE,
            WHY_INPUT,
        ],
    },
    Entry {
        name: "assemble",
        usage: "pdp8 assemble [OPTIONS] [-o] <OUT> <SOURCE>...",
        about: "Assembles a PAL III source and writes its tape",
        after_help: "Without -o, OUT comes first, and is emptied before a source is read, even if the source is then refused.\n\nExample:\n  pdp8 assemble -o hello.bin hello.pal",
        arguments: &[
            Argument {
                name: "OUT",
                form: Form::OutBeforeSources,
                help: "where the tape goes, or - for standard output; the file is emptied first. With -o, OUT is not an operand, and the first operand is the first part of the source",
            },
            OTHER_SOURCES,
            OUTPUT,
            PROFILE,
            WHY_SOURCE,
        ],
    },
    Entry {
        name: "list",
        usage: "pdp8 list [OPTIONS] <SOURCE>...",
        about: "Assembles a PAL III source and writes its listing",
        after_help: "Examples:\n  pdp8 list hello.pal\n  pdp8 list --cross hello.pal",
        arguments: &[
            Argument {
                name: "SOURCE",
                form: Form::Operands,
                help: "the parts of the source, in order; one of them may be - for standard input",
            },
            Argument {
                name: "cross",
                form: Form::Flag,
                help: "after the listing, writes a table of the symbols, with the places where each is defined and used",
            },
            PROFILE,
            WHY_SOURCE,
        ],
    },
    Entry {
        name: "source",
        usage: "pdp8 source [OPTIONS] <TAPE> [-o] <OUT>",
        about: "Writes a PAL III source for a tape; assemble makes the same words from it",
        after_help: "OUT stays as it was if there is nothing to write. Without --force, a file that this command did not write is kept as well. Without a declaration, the code is found by following the control flow from the start. With one, the declaration says what is code, where the program starts and which machine it is for.\n\nExample:\n  pdp8 source hello.bin -o found.pal",
        arguments: &[
            Argument {
                name: "TAPE",
                form: Form::Operand,
                help: "the tape, or - for standard input",
            },
            Argument {
                name: "OUT",
                form: Form::ResultOperand,
                help: "where the source goes, or - for standard output",
            },
            OUTPUT,
            START,
            Argument {
                name: "declaration",
                form: Form::Value("FILE"),
                help: "a declaration, or - for standard input: the bodies that it names are the code",
            },
            PROFILE,
            Argument {
                name: "force",
                form: Form::Flag,
                help: "also replaces a file that this command did not write",
            },
            WHY_INPUT,
        ],
    },
    Entry {
        name: "watch",
        usage: "pdp8 watch [OPTIONS] <TAPE> <DECLARATION> [EVENTS]",
        about: "Says whether a run complies with the declaration, and if not, which rule it violates first and where",
        after_help: "Examples:\n  pdp8 watch hello.bin hello.declaration hello.events\n  pdp8 watch --source hello.pal hello.declaration hello.events",
        arguments: &[
            TAPE_OR_SOURCE,
            DECLARATION_OR_SOURCE,
            Argument {
                name: "EVENTS",
                form: Form::OptionalOperand,
                help: "the events that happen, or - for standard input; left out if options such as --keys or --steps say what happens",
            },
            PARTS,
            READER,
            KEYS,
            MARK,
            SWITCHES,
            ROUNDS,
            Argument {
                name: "continue",
                form: Form::Value("N"),
                help: "presses CONTINUE at declared pauses, at most N times, and writes how far the run got",
            },
            UNTIL,
            UNTIL_WRITE,
            UNTIL_READ,
            Argument {
                name: "last",
                form: Form::Value("N"),
                help: "writes a line for each of the last N instructions before the verdict; if a rule is violated, these are the instructions before the one that violates it",
            },
            SHOW,
            Argument {
                name: "why",
                form: Form::Flag,
                help: "if a rule is violated, writes what the step is about to do; if the answer is clean, writes how far the run got",
            },
        ],
    },
    Entry {
        name: "check",
        usage: "pdp8 check [OPTIONS] <TAPE> <DECLARATION> <CERTIFICATE>",
        about: "Says whether a certificate shows that no run of the program violates the declaration",
        after_help: "Examples:\n  pdp8 check hello.bin hello.declaration hello.certificate --why\n  pdp8 check --source hello.pal hello.declaration hello.certificate --why",
        arguments: &[
            TAPE_OR_SOURCE,
            DECLARATION_OR_SOURCE,
            CERTIFICATE_OR_SOURCE,
            PARTS,
            Argument {
                name: "why",
                form: Form::Flag,
                help: "after a no, also says what the condition requires and what violates it; after a yes, says what the declaration lists but the certificate does not need",
            },
        ],
    },
    Entry {
        name: "report",
        usage: "pdp8 report [OPTIONS] <TAPE> <DECLARATION> <CERTIFICATE> [-o] <OUT>",
        about: "Writes what a certificate says as a page of HTML: verdict, memory, routines, listing",
        after_help: "An existing OUT stays as it was if there is nothing to write. The verdict and the status are those of check.\n\nExamples:\n  pdp8 report hello.bin hello.declaration hello.certificate -o hello.html\n  pdp8 report --source hello.pal hello.declaration hello.certificate -o hello.html",
        arguments: &[
            TAPE_OR_SOURCE,
            DECLARATION_OR_SOURCE,
            CERTIFICATE_OR_SOURCE,
            Argument {
                name: "OUT",
                form: Form::ResultOrSource,
                help: "where the report goes, or - for standard output. With --source, give OUT with -o",
            },
            OUTPUT,
            PARTS,
            Argument {
                name: "text",
                form: Form::Flag,
                help: "writes only the verdict and the listing, as plain text",
            },
            WHY_INPUT,
        ],
    },
    Entry {
        name: "declare",
        usage: "pdp8 declare [OPTIONS] <TAPE> [-o] <OUT>",
        about: "Proposes a declaration, which says what the program of a tape may do",
        after_help: "An existing OUT stays as it was if there is nothing to write. If no certificate is found, the declaration is still written, and the status is 1; if there is room, comments in it say why.\n\nExamples:\n  pdp8 declare hello.bin -o new.declaration\n  pdp8 declare --source hello.pal -o new.declaration",
        arguments: &[
            TAPE_OR_SOURCE,
            Argument {
                name: "OUT",
                form: Form::ResultOrSource,
                help: "where the declaration goes, or - for standard output. With --source, give OUT with -o",
            },
            OUTPUT,
            PARTS,
            Argument {
                name: "from",
                form: Form::Value("FILE"),
                help: "a declaration, or - for standard input: keeps its lines (but see --tight), adds what is missing, and uses its start and machine",
            },
            START,
            Argument {
                name: "reads",
                form: Form::Flag,
                help: "also lists the cells that the program may read",
            },
            Argument {
                name: "tight",
                form: Form::Flag,
                help: "leaves out what a certificate shows to be unnecessary, and says on standard error what was left out",
            },
            Argument {
                name: "exits",
                form: Form::Flag,
                help: "adds, for each routine, what AC and the link are shown to hold when it returns",
            },
            PROFILE,
            WHY_INPUT,
        ],
    },
    Entry {
        name: "guess",
        usage: "pdp8 guess [OPTIONS] <TAPE> <DECLARATION> [-o] <OUT>",
        about: "Searches for a certificate that shows that no run violates a declaration",
        after_help: "Without --source, the operand OUT is emptied before an input is read; with --source, it is emptied after the source and the declaration are read. OUT stays empty if nothing is found. With --source and without DECLARATION, give OUT with -o. If a certificate is found, no run violates the declaration: this is proved, under the premises in docs/THEOREM.md.\n\nExamples:\n  pdp8 guess hello.bin hello.declaration -o new.certificate\n  pdp8 guess --source hello.pal hello.declaration -o new.certificate",
        arguments: &[
            TAPE_OR_SOURCE,
            DECLARATION_OR_SOURCE,
            Argument {
                name: "OUT",
                form: Form::ResultOrSource,
                help: "where the certificate goes, or - for standard output; the text below says when the file is emptied",
            },
            OUTPUT,
            PARTS,
            Argument {
                name: "certificate",
                form: Form::Value("V"),
                help: "the version of the certificate: 1, 2 or 3; by default 1 for an 8i or 2 for an 8e, and 3 if none of that version is found",
            },
            Argument {
                name: "report",
                form: Form::Value("FILE"),
                help: "if the search is stuck, writes to FILE what it had found, as a page of HTML",
            },
            Argument {
                name: "why",
                form: Form::Flag,
                help: "if the search is stuck, writes which condition cannot be shown, what it requires and what violates it, as far as this is found",
            },
        ],
    },
    Entry {
        name: "refute",
        usage: "pdp8 refute [OPTIONS] <TAPE> <DECLARATION> [-o] <OUT>",
        about: "Searches for a run that violates a declaration, and writes its events",
        after_help: "An existing OUT stays as it was if nothing is found. With --source and without DECLARATION, give OUT with -o. With the same inputs and options, the same seed gives the same answer.\n\nExamples:\n  pdp8 refute hello.bin hello.declaration -o found.events --why\n  pdp8 refute --source hello.pal hello.declaration -o found.events --why",
        arguments: &[
            TAPE_OR_SOURCE,
            DECLARATION_OR_SOURCE,
            Argument {
                name: "OUT",
                form: Form::ResultOrSource,
                help: "where the events go, or - for standard output",
            },
            OUTPUT,
            PARTS,
            SEARCH_STEPS,
            SEED,
            Argument {
                name: "why",
                form: Form::Flag,
                help: "if a rule is violated, writes what the step is about to do",
            },
        ],
    },
    Entry {
        name: "place",
        usage: "pdp8 place [OPTIONS] [-o] <OUT> <SOURCE>...",
        about: "Writes a declaration with the symbols of a source replaced by their addresses",
        after_help: "Without -o, OUT comes first. With or without -o, an existing OUT stays as it was if an input is refused or if there is no declaration.\n\nExample:\n  pdp8 place -o numbers.declaration --declaration symbols.declaration my.pal",
        arguments: &[
            Argument {
                name: "OUT",
                form: Form::OutBeforeSources,
                help: "where the declaration goes, or - for standard output. With -o, OUT is not an operand, and the first operand is the first part of the source",
            },
            OTHER_SOURCES,
            OUTPUT,
            Argument {
                name: "declaration",
                form: Form::Value("FILE"),
                help: "the declaration, which may use the symbols of the source, or - for standard input; by default the /: lines of the source",
            },
            WHY_SOURCE,
        ],
    },
    Entry {
        name: "migrate",
        usage: "pdp8 migrate [OPTIONS] <CERTIFICATE> [-o] <OUT>",
        about: "Converts a certificate to version 2, which says what MQ may hold, or to version 3",
        after_help: "The operand OUT is emptied before the certificate is read, even if the certificate is then refused. In version 3, each fact in a routine also names the calls of this routine for which it holds. A certificate of a later version than the one asked for is written unchanged.\n\nExamples:\n  pdp8 migrate hello.certificate -o hello-2.certificate\n  pdp8 migrate --certificate 3 --declaration hello.declaration hello.certificate -o hello-3.certificate",
        arguments: &[
            Argument {
                name: "CERTIFICATE",
                form: Form::Operand,
                help: "the certificate, or - for standard input",
            },
            Argument {
                name: "OUT",
                form: Form::ResultOperand,
                help: "where the certificate goes, or - for standard output; the file is emptied first",
            },
            OUTPUT,
            Argument {
                name: "certificate",
                form: Form::Value("V"),
                help: "the version to write, 2 or 3; 2 by default. Version 3 needs the option --declaration",
            },
            Argument {
                name: "declaration",
                form: Form::Value("FILE"),
                help: "the declaration, or - for standard input: it says which routine each address belongs to; only version 3 needs it",
            },
            WHY_INPUT,
        ],
    },
    Entry {
        name: "explain",
        usage: "pdp8 explain [CODE] [NUMBER]",
        about: "Writes what a condition, a rule or a fault means, and what to do",
        after_help: "Without CODE it lists the codes. In `no: V5 at 0210`, `broken: event 50 rule 2` and `pdp8: source: IR 1 2` the codes are V5, rule 2 and IR.\n\nExample:\n  pdp8 explain V5",
        arguments: &[
            Argument {
                name: "CODE",
                form: Form::OptionalOperand,
                help: "a condition such as V5, a rule such as rule2 or rule 2, or the name of a fault such as IR or BadLine",
            },
            Argument {
                name: "NUMBER",
                form: Form::OptionalOperand,
                help: "the number of a rule, if CODE is rule",
            },
        ],
    },
];

/// The program with all its commands.
pub(crate) fn command<'a>(alloc: Global) -> Result<Command<'a>, AllocError> {
    let mut program = Command::new(alloc, "pdp8")
        .bin_name("pdp8")?
        .about("A workbench for PDP-8 paper tapes")
        .version(VERSION)
        .override_usage("pdp8 [COMMAND]")
        .after_help(STATUSES)
        .subcommand_required(true);
    for entry in &COMMANDS {
        program = program.subcommand(entry.built(alloc)?)?;
    }
    Ok(program)
}

/// Whether some command has an option of this name, which is given with its dashes.
pub(crate) fn is_option(name: &str) -> bool {
    let Some(word) = name.strip_prefix("--") else {
        return false;
    };
    COMMANDS.iter().any(|entry| entry.arguments.iter().any(|argument| argument.name == word))
}
