//! The conditions on a certificate. `tests/explanations.py` makes this file from the pages.

use crate::explanations::{Explanation, Subject};

/// What is said about each of them, in the order of the pages.
static CONDITIONS: [Explanation; 16] = [
    Explanation {
        code: "V1",
        subject: Subject::Asked(
            "the fact at the start address holds in every state in which a run may start",
        ),
        meaning: "there is a fact at the start, and it allows every state in which a\nrun may start",
        advice: "At the start, AC, the link, MQ and cells without a word on the tape\nmay hold anything: `pdp8` does not rely on a START key that clears AC and the\nlink. If the program needs 0 in AC and the link, let it clear them with `CLA\nCLL`. The fact at the start is about the state before that instruction, so it\nshould say `ac 0000-7777 link 01`.",
    },
    Explanation {
        code: "V2",
        subject: Subject::Asked("each line of the certificate is at an allowed address"),
        meaning: "each fact is at an address in a body, with offsets if the body is a\nroutine's and without offsets if it is main's; each routine line and each exit\nline names an entry",
        advice: "Remove the line if it is not needed, or declare the cell that it\nnames as part of a body or as an entry. A fact in a routine's body needs at\nleast one offset and, in version 3, at least one site; the routine needs its\nown `routine` line. A fact in main's body has no offsets and no sites.",
    },
    Explanation {
        code: "V3",
        subject: Subject::Asked("each word that the cell may hold is an instruction"),
        meaning: "at most 64 words are possible in the cell, and the machine implements\neach of them",
        advice: "A word of the PDP-8/E (docs/MACHINE.md), such as MQL, needs the\nline `profile 8e`. V3 also fails at a cell that is not on the tape and into\nwhich nothing is stored, because such a cell may hold any word. Does the\nprogram run past its end, or jump to a monitor or loader? If the program\nchanges the cell, mask the word with AND before it is stored, so that few words\nare possible.",
    },
    Explanation {
        code: "V4",
        subject: Subject::Asked(
            "wherever the run may continue, there is a fact that allows every possible state",
        ),
        meaning: "at each address where the run may continue, there is a fact in the\nsame body (in main's body if all calls are abandoned), and it allows every\npossible state",
        advice: "If the address is outside the body, the program runs on past its\nlast instruction, or it jumps into data or into a routine. End it with HLT or\nJMP, or declare more cells as the body. If a routine jumps to the main program\nand thereby ends all open calls, add an `abandon` line. If the address is in\nthe body, the fact at that address is missing, or it claims more than the\ncertificate shows: run `guess` again, or write a fact that claims less. A fact\nin a loop must hold in every iteration of the loop. In version 3 an address may\nhave several facts. The states with link 0 and those with link 1 are then\nconsidered separately. For each of these two groups, either one of the facts\nmust allow every possible state, or the facts must divide the states by the\nword in AC or by the word in one cell. Suppose that the facts divide the states\nby the word in AC. Then each word that AC may hold must be allowed for AC by\nsome fact. Of the possible states of the group, this fact must allow each one\nin which AC holds a word that this fact allows for AC. If the facts divide the\nstates by the word in a cell, the same must be true of that cell.",
    },
    Explanation {
        code: "V5",
        subject: Subject::Asked("what may be written is declared"),
        meaning: "each cell that the instruction may write, except the cell in which a\nJMS stores its return address, is a variable or an entry",
        advice: "Declare the cell, as in `var 0213`, if it is meant to change. An\ninstruction that stores through a pointer may write each cell whose address the\npointer may hold. An indirect reference through one of the cells 0010 to 0017\nincrements that cell, so it also writes it. Bound a pointer that may run too\nfar: count the words of the table with ISZ, or compare the pointer with the end\nof the table before the pointer is used.",
    },
    Explanation {
        code: "V6",
        subject: Subject::Asked("what a routine writes is in its written set"),
        meaning: "each cell that the instruction may write, except the cell in which a\nJMS stores its return address, is in the routine's written set or is the\nroutine's entry",
        advice: "Add the cell to the routine's line, as in `writes 0213`. After a\ncall, the callers then know about that cell only what the exit line says. This\ncondition does not apply to instructions of the main program.",
    },
    Explanation {
        code: "V7",
        subject: Subject::Asked(
            "a JMS calls a listed entry, and a routine calls only entries of lower rank",
        ),
        meaning: "a JMS calls only entries that have a routine line, and never through\nan auto-index cell; in a routine, it calls only entries of lower rank",
        advice: "Declare the routine, as in `sub 0206 body 0207-0211 returns 0`. The\npointer of an indirect JMS must be outside 0010 to 0017, and must never hold\nanything but the address of an entry. In a routine, the callee must have a\nlower rank; main may call any routine. So calls that form a cycle (recursion)\ncannot be certified: such a call overwrites a return address that is still\nneeded. Break the cycle; `Stuck` gives the lowest address of a call that is\npart of it.",
    },
    Explanation {
        code: "V8",
        subject: Subject::Asked("the caller's written set includes what its callee writes"),
        meaning: "the caller's written set contains the callee's entry and every cell\nof the callee's written set; the callee's written set does not contain the\ncaller's entry",
        advice: "Add the callee's entry and every cell of the callee's written set\nto the caller's line, as in `writes 0206,0213`. This condition does not apply\nto instructions of the main program.",
    },
    Explanation {
        code: "V9",
        subject: Subject::Asked("each call is a listed site"),
        meaning: "the callee's routine line lists the address of the JMS as a site, and\nthis address is at most 7767",
        advice: "Add the address of the call to the callee's line, as in `sites\n0204`. Move a JMS that is above 7767, because its return address plus an offset\ncould exceed 7777. For a certificate of version 3 the limit is 7776, because V9\nthen guards only the return address itself, and V14 guards the return address\nplus an offset.",
    },
    Explanation {
        code: "V10",
        subject: Subject::Asked("what the caller knows is enough for the callee"),
        meaning: "the fact at the callee's first instruction allows every possible\nstate",
        advice: "The fact at the routine's first instruction must claim only what is\ntrue at each call of the routine: make the fact claim less, or clear the\naccumulator before the call. The cell after the entry must be in the routine's\nbody. In version 3 there may be several facts at the first instruction, and V4\nsays what they must allow.",
    },
    Explanation {
        code: "V11",
        subject: Subject::Asked("what the exit says is enough for the caller"),
        meaning: "the fact at each return address allows every possible state",
        advice: "The condition is checked for each exit line of the callee. The\nexit, together with what the caller knew about cells that the callee does not\nwrite, must entail the fact at the return address, which must be in the\ncaller's own body. Say in the exit what holds when the routine returns, or make\nthe fact at the return address claim less. If the return address is outside the\nbody, declare the cells after the JMS as code, or correct the return offset. If\nthese cells are text that the routine reads, V12 says what to do. In version 3\nthe condition is checked only for those exit lines that have the call among\ntheir sites, and V4 says what the facts at the return address must allow.",
    },
    Explanation {
        code: "V12",
        subject: Subject::Asked("a return uses the routine's own entry and a declared offset"),
        meaning: "a routine returns only through its own entry and only by declared\noffsets, and its exit lines allow every possible state",
        advice: "Declare the offset, as in `returns 0 1`, or let the routine\nincrement its return word (with ISZ of its entry) only as often as is declared.\nReturn only through the routine's own entry. In a certificate each offset needs\nits exit line, and the fact at the return must entail what this line says. In\nversion 3 an offset may have several exit lines. What V4 says about several\nfacts then applies to them. Offsets of a `sub` line are 0 to 7, and a `skips`\nline declares others up to 77. With a `skips` line, a routine may read the text\nafter the JMS that called it, word by word up to a zero, and then return to the\nword after the zero. Such a routine can get a certificate of version 3, with a\nfact for each offset, if no text has more than 63 words, including the zero. If\na text is longer, there is no certificate: let the word after the JMS hold the\naddress of the text (`returns 1`), or put that address into AC.",
    },
    Explanation {
        code: "V13",
        subject: Subject::Asked("a HLT is declared"),
        meaning: "a HLT is at an address in a `stop` or `pause` line",
        advice: "Declare the HLT, as in `stop 0202`, or as in `pause 0202` if the\noperator may press CONTINUE there; in that case what follows must be in the\nbody.",
    },
    Explanation {
        code: "V14",
        subject: Subject::Asked("return words are not overwritten"),
        meaning: "no instruction writes an entry, with three exceptions: a JMS stores\nits return address there, an ISZ may increment the entry of its own routine,\nand a DCA may store in the entry of its own routine if a `moves` line names\nthis entry",
        advice: "The entry of a routine holds its return word, that is, the address\nto which it will return. A routine must not increment the return word of its\ncaller to make the caller skip. Let the routine itself return with a skip\ninstead, and let the caller increment its own return word after that. An ISZ\nmay increment the entry of its own routine, up to offset 7 (in version 3 up to\n77), if it cannot store anywhere else. A routine that computes its return word\nand stores it with DCA needs a `moves` line. This DCA must name the entry\ndirectly, not through a pointer, and each word that AC may hold there must be 0\nto 77 above the return address of each call of the routine. A routine that\nreturns through a copy of its return word in another cell gets no certificate,\nbecause such a return violates rule 1; the only exception is a return to an\naddress of an `abandon` line.",
    },
    Explanation {
        code: "V15",
        subject: Subject::Asked("what may be read is listed"),
        meaning: "if reads are listed, each cell that the instruction may read is on\nthe list or is the routine's own entry",
        advice: "List the cell, as in `read 0212`, or leave out all `read` lines:\nthen any cell may be read. Bound a pointer as for V5.",
    },
    Explanation {
        code: "V16",
        subject: Subject::Asked("what the declaration says in `holds` and `returns` lines is true"),
        meaning: "every `holds` line about the address is true, and so is every\n`returns` line about the routine whose entry is there",
        advice: "A `holds` line names the words that AC, the link, MQ or a cell may\nhold, and the fact at its address must exclude all other words. For a `returns`\nline, the routine's exit lines for the offsets that the line names must exclude\nall other words. If every run complies with the line, the certificate says too\nlittle: add an `equal` or `sum` line or, in version 3, a fact for each case.\nOtherwise name more words in the line, or correct the program.",
    },
];

/// What is said about the conditions.
pub(crate) fn conditions() -> &'static [Explanation] {
    &CONDITIONS
}
