//! What each condition asks, by the rules.

use domain::Rules;
use judge::Condition;

/// What a condition asks by the rules of equations.
fn asked(condition: Condition) -> &'static str {
    match condition {
        Condition::V1 =>
            "there is a fact at the start, and it allows every state in which a run may start",
        Condition::V2 =>
            "each fact is at an address in a body, with offsets if the body is a routine's and without offsets if it is main's; each routine line and each exit line names an entry",
        Condition::V3 =>
            "at most 64 words are possible in the cell, and the machine implements each of them",
        Condition::V4 =>
            "at each address where the run may continue, there is a fact in the same body (in main's body if all calls are abandoned), and it allows every possible state",
        Condition::V5 =>
            "each cell that the instruction may write, except the cell in which a JMS stores its return address, is a variable or an entry",
        Condition::V6 =>
            "each cell that the instruction may write, except the cell in which a JMS stores its return address, is in the routine's written set or is the routine's entry",
        Condition::V7 =>
            "a JMS calls only entries that have a routine line, and never through an auto-index cell; in a routine, it calls only entries of lower rank",
        Condition::V8 =>
            "the caller's written set contains the callee's entry and every cell of the callee's written set; the callee's written set does not contain the caller's entry",
        Condition::V9 =>
            "the callee's routine line lists the address of the JMS as a site, and this address is at most 7767",
        Condition::V10 => "the fact at the callee's first instruction allows every possible state",
        Condition::V11 => "the fact at each return address allows every possible state",
        Condition::V12 =>
            "a routine returns only through its own entry and only by declared offsets, and its exit lines allow every possible state",
        Condition::V13 => "a HLT is at an address in a `stop` or `pause` line",
        Condition::V14 =>
            "no instruction writes an entry, with three exceptions: a JMS stores its return address there, an ISZ may increment the entry of its own routine, and a DCA may store in the entry of its own routine if a `moves` line names this entry",
        Condition::V15 =>
            "if reads are listed, each cell that the instruction may read is on the list or is the routine's own entry",
        Condition::V16 =>
            "every `holds` line about the address is true, and so is every `returns` line about the routine whose entry is there",
    }
}

/// What a condition asks by the rules of sums: of most the same as by those of equations.
fn sums_asked(condition: Condition) -> &'static str {
    match condition {
        Condition::V1 => "the facts at the start allow every state in which a run may start",
        Condition::V2 =>
            "each fact is at an address in a body, with sites and offsets if the body is a routine's and without them if it is main's; each routine line and each exit line names an entry",
        Condition::V4 =>
            "at each address where the run may continue, there are facts in the same body (in main's body if all calls are abandoned), and they allow every possible state",
        Condition::V9 =>
            "the callee's routine line lists the address of the JMS as a site, and this address is at most 7776",
        Condition::V10 => "the facts at the callee's first instruction allow every possible state",
        Condition::V11 => "the facts at each return address allow every possible state",
        _ => asked(condition),
    }
}

/// What a condition asks, by the rules.
pub fn asked_of(rules: &Rules, condition: Condition) -> &'static str {
    match rules {
        Rules::OfEquations => asked(condition),
        Rules::OfSums => sums_asked(condition),
    }
}
