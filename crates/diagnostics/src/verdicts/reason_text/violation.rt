//! What a word violates: a write, a call, a return, or where it goes on.

use crate::verdicts::reason_text::landing::{push_exit, push_landing};
use command_parts::message::{MessageWriter, Written};
use command_parts::sentence::Argument::{Address, Advised, Digit, Number, Octal, Offset, Text};
use command_parts::sentence::push_sentence;
use declaration::Subject;
use domain::Rules;
use reasons::{CallViolation, ReturnViolation, Violation};
use word12::{Link, Word};

/// Adds an offset, and by the rules of sums the number of its exit line, counted from 1, behind a few words.
pub fn push_exit_line<L: MessageWriter>(
    text: &mut L,
    rules: &Rules,
    offset: usize,
    between: &str,
    index: usize,
) -> Written {
    let template = match rules {
        Rules::OfEquations => "{}",
        Rules::OfSums => "{}{}{}",
    };
    let number = index.saturating_add(1);
    push_sentence(
        text,
        template,
        &[Offset(offset), Text(between), Number(number)],
    )
}

/// What is wrong with a call, up to the cell or the two ranks of which this is said, or up to why the run does not land.
fn said_of_call(rules: &Rules, breach: &CallViolation) -> &'static str {
    match breach {
        CallViolation::NoEntry => ", which is not an entry",
        CallViolation::NotListed => ", which has no routine line",
        CallViolation::NotLower(..) => ", whose rank {} is not below the caller's rank {}",
        CallViolation::Writes(_) =>
            ", which may write {}, a cell that the caller's written set does not contain",
        CallViolation::EntryNotWritten => ", which the caller's written set does not contain",
        CallViolation::WritesCaller => ", which may write the caller's entry",
        CallViolation::NoSite => ", whose routine line does not list this address as a site",
        CallViolation::TooHigh => match rules {
            Rules::OfEquations => " from an address above 7767",
            Rules::OfSums => " from an address above 7776",
        },
        CallViolation::Enters(_) => " and continues after the entry: ",
        CallViolation::Returns(..) => ", which returns with offset ",
    }
}

/// Adds what a call violates.
fn push_call<L: MessageWriter>(text: &mut L, rules: &Rules, breach: &CallViolation) -> Written {
    let said = said_of_call(rules, breach);
    match breach {
        CallViolation::NotLower(rank, own) => {
            push_sentence(text, said, &[Number(*rank), Number(*own)])
        }
        CallViolation::Writes(cell) => push_sentence(text, said, &[Address(*cell)]),
        CallViolation::Enters(landing) => {
            text.push_text(said.as_bytes())?;
            push_landing(text, landing)
        }
        CallViolation::Returns(offset, index, landing) => {
            text.push_text(said.as_bytes())?;
            push_exit_line(text, rules, *offset, ", according to exit line ", *index)?;
            text.push_text(b": ")?;
            push_landing(text, landing)
        }
        _ => text.push_text(said.as_bytes()),
    }
}

/// Adds what a return through an entry violates. An offset above 7 is declared by a `skips` line alone.
fn push_return<L: MessageWriter>(text: &mut L, entry: Word, breach: &ReturnViolation) -> Written {
    match breach {
        ReturnViolation::OtherRoutine => {
            text.push_text(b", which is not the entry of its own routine")
        }
        ReturnViolation::NotDeclared(offset) => {
            let template = if *offset < 8 {
                " with offset {}, which is not declared"
            } else {
                " with offset {}, which is not declared: add `skips {} {}`"
            };
            push_sentence(
                text,
                template,
                &[Offset(*offset), Advised(entry), Offset(*offset)],
            )
        }
        ReturnViolation::NotAllowed(offset, landing) => {
            push_sentence(text, " with offset {}", &[Offset(*offset)])?;
            push_exit(text, landing)
        }
    }
}

/// Adds that the subject of an assertion may have a word that a line of this name excludes.
pub fn push_denied<L: MessageWriter>(
    text: &mut L,
    subject: &Subject,
    word: Word,
    line: &str,
) -> Written {
    let link = if word == Word::ZERO {
        Link::CLEAR
    } else {
        Link::SET
    };
    let (name, held) = match subject {
        Subject::Accumulator => (Text("AC"), Octal(word)),
        Subject::Link => (Text("the link"), Digit(link)),
        Subject::Mq => (Text("MQ"), Octal(word)),
        Subject::Cell(cell) => (Address(*cell), Octal(word)),
    };
    push_sentence(
        text,
        "{} may be {}, which a `{}` line excludes",
        &[name, held, Text(line)],
    )
}

/// What a word violates, up to the address of which this is said, or up to what is wrong with a call, a return or the
/// place where the run goes on.
fn said_of(rules: &Rules, breach: &Violation) -> &'static str {
    match breach {
        Violation::NotSupported => "the machine does not implement this word",
        Violation::WritesUndeclared(_) =>
            "it may write {}, which is neither a variable nor an entry",
        Violation::WritesEntry(_) => "it may write {}, which is an entry",
        Violation::CountsTooFar(_) => match rules {
            Rules::OfEquations => "it may increment {}, the routine's own entry, past offset 7",
            Rules::OfSums =>
                "it may increment {}, the routine's own entry, past offset 77 or past 7777",
        },
        Violation::StoresInOwn(_) => "it may write {}, the routine's own entry: add `moves {}`",
        Violation::MovesTooFar(..) =>
            "it may store the word {} in {}, but the word there must be the return address of the call at {} plus 0 to 77",
        Violation::WritesUnlisted(_) =>
            "it may write {}, which is not in the routine's written set",
        Violation::HaltsUndeclared => "it halts, and no halt is declared there",
        Violation::CallsThroughIndex => "it calls through an auto-index cell",
        Violation::Calls(..) => "the JMS calls {}",
        Violation::Returns(..) => "it returns through {}",
        Violation::GoesOn(..) => "the run may continue at {}, and ",
        Violation::JumpsToMain(_) =>
            "the run may continue at {}, which is in main's body: add `abandon {}`",
        Violation::ReadsUnlisted(_) => "it may read {}, which is not on the list of reads",
        Violation::DeniesAssertion(..) => "",
    }
}

/// Adds what a word violates.
pub fn push_violation<L: MessageWriter>(
    text: &mut L,
    rules: &Rules,
    breach: &Violation,
) -> Written {
    let said = said_of(rules, breach);
    match breach {
        Violation::NotSupported | Violation::HaltsUndeclared | Violation::CallsThroughIndex => {
            text.push_text(said.as_bytes())
        }
        Violation::WritesUndeclared(at)
        | Violation::WritesEntry(at)
        | Violation::CountsTooFar(at)
        | Violation::StoresInOwn(at)
        | Violation::WritesUnlisted(at)
        | Violation::JumpsToMain(at)
        | Violation::ReadsUnlisted(at) => push_sentence(text, said, &[Address(*at), Advised(*at)]),
        Violation::MovesTooFar(entry, word, site) => {
            push_sentence(text, said, &[Octal(*word), Address(*entry), Address(*site)])
        }
        Violation::Calls(entry, call) => {
            push_sentence(text, said, &[Address(*entry)])?;
            push_call(text, rules, call)
        }
        Violation::Returns(entry, back) => {
            push_sentence(text, said, &[Address(*entry)])?;
            push_return(text, *entry, back)
        }
        Violation::GoesOn(at, landing) => {
            push_sentence(text, said, &[Address(*at)])?;
            push_landing(text, landing)
        }
        Violation::DeniesAssertion(subject, word) => push_denied(text, subject, *word, "holds"),
    }
}
