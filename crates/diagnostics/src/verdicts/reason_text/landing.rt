//! Why a run does not land, and what is possible where it does not.

use crate::sums::{push_sum_may_be, push_told};
use command_parts::message::{MessageWriter, Written};
use command_parts::sentence::Argument::{Address, Digit, Octal, Offset, Text};
use command_parts::sentence::push_sentence;
use domain::Location;
use reasons::{Counterexample, LandingFailure};
use word12::{Link, Word};

/// Adds what is possible, or of an equation, what it says.
fn push_gap<L: MessageWriter>(text: &mut L, gap: &Counterexample) -> Written {
    match gap {
        Counterexample::Accumulator(word) => push_sentence(text, "AC may be {}", &[Octal(*word)]),
        Counterexample::Mq(word) => push_sentence(text, "MQ may be {}", &[Octal(*word)]),
        Counterexample::Link(link) => push_sentence(text, "the link may be {}", &[Digit(*link)]),
        Counterexample::Site(site) => push_sentence(
            text,
            "the routine may have been called from {}",
            &[Address(*site)],
        ),
        Counterexample::Offset(offset) => push_sentence(
            text,
            "the return word may be the return address plus {}",
            &[Offset(*offset)],
        ),
        Counterexample::Cell(cell, word) => push_may_hold(text, &Location::Cell(*cell), *word),
        Counterexample::Sum(sum, word) => push_sum_may_be(text, sum, *word),
        Counterexample::Equation(sum, word) => push_told(text, sum, word),
        Counterexample::Chain(cell, word, ac, link) => push_sentence(
            text,
            "while the cell {} holds {}, AC may be {} with the link {}",
            &[Address(*cell), Octal(*word), Octal(*ac), Digit(*link)],
        ),
    }
}

/// Adds what is possible, and that the fact or the exit line of this name excludes it; or that an equation which it requires may be
/// false.
fn push_excluded<L: MessageWriter>(text: &mut L, gap: &Counterexample, one: &str) -> Written {
    if matches!(gap, Counterexample::Equation(..)) {
        push_sentence(text, "{} requires ", &[Text(one)])?;
        push_gap(text, gap)?;
        return text.push_text(b", and this may be false");
    }
    push_gap(text, gap)?;
    push_sentence(text, ", which {} excludes", &[Text(one)])
}

/// Adds a word that a name may hold.
fn push_may_hold<L: MessageWriter>(text: &mut L, name: &Location, word: Word) -> Written {
    match name {
        Location::Accumulator => push_sentence(text, "AC may be {}", &[Octal(word)]),
        Location::Cell(cell) => push_sentence(
            text,
            "the cell {} may hold {}",
            &[Address(*cell), Octal(word)],
        ),
    }
}

/// Adds that something is so if the link is this one.
fn push_link<L: MessageWriter>(text: &mut L, link: Link) -> Written {
    push_sentence(text, "if the link is {}, ", &[Digit(link)])
}

/// Adds what is possible though the facts or the exit lines, of which one and all are called so, exclude it.
fn push_possible<L: MessageWriter>(
    text: &mut L,
    landing: &LandingFailure,
    one: &str,
    all: &str,
) -> Written {
    match landing {
        LandingFailure::NoFact | LandingFailure::OtherBody => Ok(()),
        LandingFailure::Excluded(gap) => push_excluded(text, gap, one),
        LandingFailure::ExcludedUnder(link, gap) => {
            push_link(text, *link)?;
            push_excluded(text, gap, one)
        }
        LandingFailure::NotTaken(link, name, word) => {
            push_link(text, *link)?;
            push_may_hold(text, name, *word)?;
            push_sentence(text, ", which none of {} allows", &[Text(all)])
        }
        LandingFailure::NotEntailed => {
            push_sentence(text, "none of {} allows all that is possible", &[Text(all)])
        }
    }
}

/// Adds why a run does not land.
pub fn push_landing<L: MessageWriter>(text: &mut L, landing: &LandingFailure) -> Written {
    match landing {
        LandingFailure::NoFact => text.push_text(b"there is no fact at the address reached"),
        LandingFailure::OtherBody => text.push_text(b"the address reached is not in the body"),
        _ => push_possible(text, landing, "the fact there", "the facts there"),
    }
}

/// Adds why what is possible at a return is not among what the exit lines allow.
pub fn push_exit<L: MessageWriter>(text: &mut L, landing: &LandingFailure) -> Written {
    match landing {
        LandingFailure::NoFact => text.push_text(b", which has no exit line"),
        LandingFailure::OtherBody => text.push_text(b", which is not in the body"),
        _ => {
            text.push_text(b": ")?;
            push_possible(text, landing, "the exit line", "the exit lines")
        }
    }
}

/// Adds why the facts at the start do not allow every start.
pub fn push_start<L: MessageWriter>(text: &mut L, landing: &LandingFailure) -> Written {
    if matches!(landing, LandingFailure::NoFact) {
        return text.push_text(b"there is no fact at this address");
    }
    text.push_text(b"at the start, ")?;
    push_landing(text, landing)
}
