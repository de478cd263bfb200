//! The rules for the steps of a run. `tests/explanations.py` makes this file from the pages.

use crate::explanations::{Explanation, Subject};

/// What is said about each of them, in the order of the pages.
static RULES: [Explanation; 8] = [
    Explanation {
        code: "rule1",
        subject: Subject::Asked("control stays in the body"),
        meaning: "The program counter is in the body of the running routine, and the\ndeclared machine supports the word there.\nexample of a violation: HLT is missing, and execution runs on into data",
        advice: "end with HLT or JMP; return with `JMP I`; declare all code; add\n`profile 8e` if the program uses instructions of the PDP-8/E; add an `abandon`\nline for a JMP from a routine to the main program",
    },
    Explanation {
        code: "rule2",
        subject: Subject::Asked("only declared cells are written"),
        meaning: "Each cell that the step writes, except the cell in which a JMS stores\nits return address, is a variable or the running routine's own entry. That\nentry may be written only by an ISZ or, if a `moves` line names the entry, by a\nDCA that names it directly, not through a pointer.\nexample of a violation: a pointer in 0010 to 0017 begins one word too high,\nbecause it is incremented before it is used",
        advice: "add a `var` line for what is meant to change, including such a\npointer; for other cells see V5 and V14",
    },
    Explanation {
        code: "rule3",
        subject: Subject::Asked("a JMS goes to an entry"),
        meaning: "A JMS goes to an entry.\nexample of a violation: `JMS I TYPE` goes to the address that TYPE's entry\nhappens to hold",
        advice: "write `JMS TYPE`; declare a `sub` line for each routine; in a table\nof routines, give the addresses of the entries, not of the first instructions",
    },
    Explanation {
        code: "rule4",
        subject: Subject::Asked("a return goes back to its call"),
        meaning: "If a JMP I goes through an entry, the last open call is to this\nentry, and the JMP I goes to that call's return address plus a declared offset.\nexample of a violation: `JMP I TYPE` in a routine other than TYPE",
        advice: "return through the routine's own entry; declare each offset (those\nabove 7 in a `skips` line); do not call a routine again before it has returned",
    },
    Explanation {
        code: "rule5",
        subject: Subject::Asked("a HLT is declared"),
        meaning: "A HLT is at a declared stop or pause.\nexample of a violation: the program executes a HLT when the punch is not ready\nyet",
        advice: "add a `stop` or `pause` line, or remove the HLT",
    },
    Explanation {
        code: "rule6",
        subject: Subject::Asked("fixed code does not change"),
        meaning: "Each cell of a body that is on the tape and is not a variable holds\nthe tape's word.",
        advice: "a run violates this rule only after it has violated another; if a\ncell of a body is meant to change, declare it as a `var` too",
    },
    Explanation {
        code: "rule7",
        subject: Subject::Asked("only listed cells are read"),
        meaning: "If reads are listed, each cell that the step reads is on the list or\nis the running routine's own entry.\nexample of a violation: the count is one too large, and the word after the\ntable is read",
        advice: "add a `read` line, or bound the pointer as for V5",
    },
    Explanation {
        code: "rule8",
        subject: Subject::Asked("what is declared to hold does hold"),
        meaning: "Before the step, every `holds` line about its address is true. Before\na JMP I through the entry of the last call, a second thing is required: every\n`returns` line about this entry and about the offset of this return is true.\nThe offset is the distance from the return address of this call to the word in\nthe entry.\nexample of a violation: a routine that should return with 0 in AC returns with\nthe word that it read",
        advice: "correct the program, or add to the line the words that were found",
    },
];

/// What is said about the rules.
pub(crate) fn rules() -> &'static [Explanation] {
    &RULES
}
