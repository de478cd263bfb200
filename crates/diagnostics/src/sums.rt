//! Sums, relations and chains in words, for messages and for reports.

use command_parts::message::{MessageWriter, Written};
use command_parts::sentence::Argument::{Cell, Name, Octal, Text, Words};
use command_parts::sentence::push_sentence;
use domain::{Chain, Location, Relation, Step, Sum, Term, is_sign, negated};
use instruct::Profile;
use word12::{Link, Word};
use wordset::WordSet;

/// The least word that is said as less and not as more.
const HALF: usize = 0o4000;

/// The greatest word.
const TOP: usize = 0o7777;

/// How far one term is from another, where there are words for that.
#[derive(Clone, Copy)]
enum Distance {
    /// They are the same.
    Nothing,
    /// The first is more by one of these words.
    More(WordSet),
    /// The first is less by one of these words.
    Less(WordSet),
    /// The first is at most so much less and at most so much more.
    Around(Word, Word),
}

/// Adds AC, or the address of a cell in brackets, for the word in it.
fn push_name<L: MessageWriter>(text: &mut L, name: &Location) -> Written {
    match name {
        Location::Accumulator => text.push_text(b"AC"),
        Location::Cell(cell) => push_sentence(text, "[{}]", &[Cell(*cell)]),
    }
}

/// Adds a number that is added to a word, or taken away from it, with a template for each of the two, and nothing for 0.
fn push_added<L: MessageWriter>(text: &mut L, plus: &str, minus: &str, more: Word) -> Written {
    if more.index() >= HALF {
        push_sentence(text, minus, &[Octal(negated(more))])
    } else if more.index() > 0 {
        push_sentence(text, plus, &[Octal(more)])
    } else {
        Ok(())
    }
}

/// Adds the cell from whose address another one is so far.
fn push_cell_behind<L: MessageWriter>(text: &mut L, cell: Word, more: Word) -> Written {
    push_sentence(text, "[{}]", &[Cell(cell)])?;
    push_added(text, "+{}", "-{}", more)
}

/// Adds a term: a name, or the word that stood at the start at an address.
fn push_term<L: MessageWriter>(text: &mut L, term: &Term) -> Written {
    match term {
        Term::Holding(name) => push_name(text, name),
        Term::Behind { cell, more } => {
            text.push_text(b"the word at ")?;
            push_cell_behind(text, *cell, *more)
        }
    }
}

/// What stands before a term of a sum for the sign of its coefficient; behind another one there is always something.
fn sign_of(coefficient: Word, is_first: bool) -> &'static [u8] {
    match (is_first, coefficient.index() == TOP) {
        (true, true) => b"-",
        (true, false) => b"",
        (false, true) => b" - ",
        (false, false) => b" + ",
    }
}

/// Adds a sum: its terms with their signs, and with their coefficients where the sign does not say all.
fn push_sum<L: MessageWriter>(text: &mut L, sum: &Sum) -> Written {
    for (place, summand) in sum.summands().iter().enumerate() {
        text.push_text(sign_of(summand.coefficient, place == 0))?;
        if !is_sign(summand.coefficient) {
            push_sentence(text, "{} * ", &[Octal(summand.coefficient)])?;
        }
        push_term(text, &summand.term)?;
    }
    Ok(())
}

/// The terms of a sum that is one term less another.
fn difference_of(sum: &Sum) -> Option<(Term, Term)> {
    let [first, second] = sum.summands() else {
        return None;
    };
    let is_difference = first.coefficient.index() == 1 && second.coefficient.index() == TOP;
    is_difference.then_some((first.term, second.term))
}

/// Adds that a sum may be a word. Of a difference it is said by how much the one term may be more than the other.
pub fn push_sum_may_be<L: MessageWriter>(text: &mut L, sum: &Sum, word: Word) -> Written {
    let Some((first, second)) = difference_of(sum) else {
        push_sum(text, sum)?;
        return push_sentence(text, " may be {}", &[Octal(word)]);
    };
    push_term(text, &first)?;
    if word == Word::ZERO {
        text.push_text(b" may equal ")?;
    } else {
        push_added(text, " may be {} more than ", " may be {} less than ", word)?;
    }
    push_term(text, &second)
}

/// Adds what is said of a sum: the sum itself, or which word it is, if that is told. Of a difference it is said what its first term is.
pub fn push_told<L: MessageWriter>(text: &mut L, sum: &Sum, word: &Option<Word>) -> Written {
    let Some(word) = word else {
        return push_sum(text, sum);
    };
    let Some((first, second)) = difference_of(sum) else {
        push_sum(text, sum)?;
        return push_sentence(text, " = {}", &[Octal(*word)]);
    };
    push_term(text, &first)?;
    text.push_text(b" = ")?;
    push_term(text, &second)?;
    push_added(text, " + {}", " - {}", *word)
}

/// How far a term is from another one to which one of these words is added.
fn distance_of(set: &WordSet) -> Option<Distance> {
    let zero = WordSet::one(Word::ZERO);
    let below = set.meet(&WordSet::range(Word::from_index(HALF), Word::from_index(TOP)));
    let above = set.minus(&below);
    if *set == zero {
        return Some(Distance::Nothing);
    }
    if below.is_empty() {
        return Some(Distance::More(*set));
    }
    if above.minus(&zero).is_empty() {
        let taken_away = set.complements().shift(Word::ZERO.increment());
        return Some(Distance::Less(taken_away));
    }
    let (least, greatest) = (below.least()?, above.greatest()?);
    let is_around_zero = below == WordSet::range(least, Word::from_index(TOP))
        && above == WordSet::range(Word::ZERO, greatest);
    is_around_zero.then_some(Distance::Around(negated(least), greatest))
}

/// Adds by which of some words a term is more or less than another.
fn push_amount<L: MessageWriter>(text: &mut L, set: &WordSet, than: &str) -> Written {
    if let (Some(first), Some(last)) = (set.least(), set.greatest()) {
        if first != last && *set == WordSet::range(first, last) {
            return push_sentence(
                text,
                " is {} to {}{}",
                &[Octal(first), Octal(last), Text(than)],
            );
        }
    }
    push_sentence(text, " is {}{}", &[Words(set), Text(than)])
}

/// Adds what stands between two terms that are so far apart.
fn push_distance<L: MessageWriter>(text: &mut L, distance: &Distance) -> Written {
    match distance {
        Distance::Nothing => text.push_text(b" = "),
        Distance::More(set) => push_amount(text, set, " more than "),
        Distance::Less(set) => push_amount(text, set, " less than "),
        Distance::Around(less, more) => push_sentence(
            text,
            " is {} less to {} more than ",
            &[Octal(*less), Octal(*more)],
        ),
    }
}

/// Adds the words that something may be, after its name.
pub fn push_in<L: MessageWriter>(text: &mut L, set: &WordSet) -> Written {
    let is_one = set.only().is_some();
    push_sentence(
        text,
        if is_one { " is {}" } else { " in {}" },
        &[Words(set)],
    )
}

/// Adds a relation: of a difference by how much the one term is more or less than the other, where there are words for that.
pub fn push_relation<L: MessageWriter>(text: &mut L, relation: &Relation) -> Written {
    let mut set = WordSet::empty();
    relation.set.put(&mut set);
    match (difference_of(&relation.sum), distance_of(&set)) {
        (Some((first, second)), Some(distance)) => {
            push_term(text, &first)?;
            push_distance(text, &distance)?;
            push_term(text, &second)
        }
        _ => {
            push_sum(text, &relation.sum)?;
            push_in(text, &set)
        }
    }
}

/// Adds that nothing is known about a sum any more; of a difference that its terms are unrelated.
pub fn push_lost<L: MessageWriter>(text: &mut L, sum: &Sum) -> Written {
    let Some((first, second)) = difference_of(sum) else {
        push_sum(text, sum)?;
        return text.push_text(b" any");
    };
    push_term(text, &first)?;
    text.push_text(b" and ")?;
    push_term(text, &second)?;
    text.push_text(b" unrelated")
}

/// Adds the steps of a chain.
fn push_steps<L: MessageWriter>(text: &mut L, profile: Profile, steps: &[Step]) -> Written {
    for (place, step) in steps.iter().enumerate() {
        text.push_text(if place == 0 { b" by " } else { b", " })?;
        match step {
            Step::Operates(word) => push_sentence(text, "{}", &[Name(*word, profile)])?,
            Step::Ands(word) => push_sentence(text, "AND {}", &[Octal(*word)])?,
            Step::Adds(word) => push_sentence(text, "TAD {}", &[Octal(*word)])?,
        }
    }
    Ok(())
}

/// Adds a chain: from which word the accumulator comes, by which steps. The link matters if there are other steps than AND,
/// or if not every link stands at the beginning.
pub fn push_chain<L: MessageWriter>(text: &mut L, profile: Profile, chain: &Chain) -> Written {
    let links = chain.links();
    let begun_with = match (links.contains(Link::CLEAR), links.contains(Link::SET)) {
        (true, true) => " and any L",
        (true, false) => " and L 0",
        (false, true) => " and L 1",
        (false, false) => " and no L",
    };
    let has_any = links.contains(Link::CLEAR) && links.contains(Link::SET);
    let has_other = chain
        .steps()
        .iter()
        .any(|step| !matches!(step, Step::Ands(_)));
    let (front, behind) = if has_any && !has_other {
        ("AC comes from ", "")
    } else {
        ("AC and L come from ", begun_with)
    };
    text.push_text(front.as_bytes())?;
    push_cell_behind(text, chain.cell(), chain.more())?;
    text.push_text(behind.as_bytes())?;
    push_steps(text, profile, chain.steps())
}
