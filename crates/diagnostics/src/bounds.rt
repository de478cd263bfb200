//! What is said about a pointer where a search for a certificate is stuck: the words that it may hold there, those that would be
//! enough, and the last place where fewer were known. All of this is tested, not proved.

mod draft_facts;
mod losses;
mod relations;
mod sufficient;

use crate::bounds::draft_facts::DraftFacts;
use crate::bounds::losses::{PrecisionLoss, loss_at, may_go_on};
use crate::bounds::relations::lost_relation;
use crate::bounds::sufficient::{sufficient_words, test_of_pointer};
use bin_tape::Image;
use certificate::Certificate;
use command_parts::message::{MessageWriter, Written};
use command_parts::sentence::Argument::{Address, Name, Octal, Text, Words};
use command_parts::sentence::{Argument, push_sentence};
use declaration::Declaration;
use domain::Location;
use instruct::{refers_indirectly, refers_to_memory, target};
use judge::{Case, Claims};
use std::alloc::{AllocError, Allocator};
use word12::Word;
use wordset::WordSet;

/// How many addresses there are.
const ADDRESSES: usize = 4096;

/// The variable by which the instruction at an address refers to memory, if it does, except for a
/// return.
fn pointer_at<D: Allocator>(image: &Image, declaration: &Declaration<D>, at: Word) -> Option<Word> {
    let word = image.get(at)?;
    let named = target(word, at);
    if refers_to_memory(word) && refers_indirectly(word) && declaration.is_variable(named) {
        return Some(named);
    }
    None
}

/// Where the bound of a pointer was lost: behind an instruction, on the way to an address, and why.
#[derive(Clone, Copy)]
struct LostBound {
    from: Word,
    to: Word,
    loss: PrecisionLoss,
}

/// Looks at the addresses from which a run may come to this one: gives the first where the bound of the
/// pointer is lost, and adds the others to the list.
fn step_back<A: Allocator, D: Allocator, C: Allocator>(
    seen: &mut Vec<Word, A>,
    case: &Case<'_, D, Certificate<C>>,
    known: &mut DraftFacts<'_, C>,
    pointer: Word,
    here: Word,
) -> Result<Option<LostBound>, AllocError> {
    if !known.has_fact(here) {
        return Ok(None);
    }
    for index in 0..ADDRESSES {
        let from = Word::from_index(index);
        let Some(word) = case.image.get(from) else {
            continue;
        };
        if !may_go_on(case.declaration, from, word, here) || !known.has_fact(from) {
            continue;
        }
        if let Some(loss) = loss_at(known, from, word, here, pointer) {
            return Ok(Some(LostBound {
                from,
                to: here,
                loss,
            }));
        }
        if !seen.iter().any(|other| *other == from) {
            seen.push(from)?;
        }
    }
    Ok(None)
}

/// The last place before an address where fewer words of a pointer were known, or where a test said nothing
/// of it, and why the bound was lost there.
fn lost_before<A: Allocator + Copy, D: Allocator, C: Allocator>(
    alloc: A,
    case: &Case<'_, D, Certificate<C>>,
    known: &mut DraftFacts<'_, C>,
    pointer: Word,
    at: Word,
) -> Result<Option<LostBound>, AllocError> {
    let mut seen = Vec::new(alloc);
    seen.push(at)?;
    for index in 0..ADDRESSES {
        let Some(here) = seen.get(index).copied() else {
            return Ok(None);
        };
        let found = step_back(&mut seen, case, known, pointer, here)?;
        if found.is_some() {
            return Ok(found);
        }
    }
    Ok(None)
}

/// Adds what is said about the pointer of the instruction at which a search is stuck, by the draft of what it found:
/// the words that it may hold there, and where its bound was lost. If the instruction uses no variable, or the draft
/// has no fact there, nothing is added.
///
/// # Errors
///
/// Memory was refused.
pub fn push_bound<A: Allocator + Copy, L: MessageWriter, D: Allocator, C: Allocator>(
    alloc: A,
    text: &mut L,
    image: &Image,
    declaration: &Declaration<D>,
    draft: &Certificate<C>,
    at: Word,
) -> Written {
    let Some(pointer) = pointer_at(image, declaration, at) else {
        return Ok(());
    };
    if draft.count_facts(at, 0) == 0 {
        return Ok(());
    }
    let mut known = DraftFacts::of(image, draft);
    let case = Case {
        image,
        declaration,
        claims: draft,
    };
    let held = known.words_at(at, &Location::Cell(pointer));
    push_sentence(
        text,
        "the pointer {} may hold {} there\n",
        &[Address(pointer), Words(&held)],
    )?;
    push_sufficient(text, &case, at, pointer, &held)?;
    push_lost(alloc, text, &case, &mut known, pointer, at)
}

/// Adds which of the words that a pointer may hold would be enough for the instruction at an address, if they are fewer, and which skip
/// in the same body tests a sum with it, or that there is none. No words are enough where the pointer itself may not be read.
fn push_sufficient<L: MessageWriter, D: Allocator, C: Allocator>(
    text: &mut L,
    case: &Case<'_, D, Certificate<C>>,
    at: Word,
    pointer: Word,
    held: &WordSet,
) -> Written {
    if !case.declaration.may_read(pointer) {
        return Ok(());
    }
    let Some(word) = case.image.get(at) else {
        return Ok(());
    };
    let sufficient = sufficient_words(case.declaration, at, word).meet(held);
    if sufficient.is_empty() || held.is_subset(&sufficient) {
        return Ok(());
    }
    push_sentence(
        text,
        "for this instruction, it would be enough if the pointer held only {}\n",
        &[Words(&sufficient)],
    )?;
    match test_of_pointer(case.image, case.declaration, at, pointer) {
        Some(test) => push_sentence(
            text,
            "the skip at {} {} tests a sum that contains the pointer, and could show that the pointer holds only the words that would be enough\n",
            &[Address(test), name_at(case, test)],
        ),
        None => text.push_text(
            b"no skip in this body tests a sum that contains the pointer; a test or a mask before this instruction could show that the pointer holds only the words that would be enough\n",
        ),
    }
}

/// The name of the word at an address.
fn name_at<D: Allocator, C: Allocator>(
    case: &Case<'_, D, Certificate<C>>,
    at: Word,
) -> Argument<'static> {
    match case.image.get(at) {
        Some(word) => Name(word, case.declaration.profile()),
        None => Text(""),
    }
}

/// Adds where the bound of a pointer was lost before an address, if it was, and why: where paths meet, the relation that a loop loses, if
/// there is one.
fn push_lost<A: Allocator + Copy, L: MessageWriter, D: Allocator, C: Allocator>(
    alloc: A,
    text: &mut L,
    case: &Case<'_, D, Certificate<C>>,
    known: &mut DraftFacts<'_, C>,
    pointer: Word,
    at: Word,
) -> Written {
    let Some(lost) = lost_before(alloc, case, known, pointer, at)? else {
        return Ok(());
    };
    let found = match lost.loss {
        PrecisionLoss::Meeting => lost_relation(alloc, case, pointer, lost.from, lost.to)?,
        _ => None,
    };
    match found {
        Some((relation, at)) => push_sentence(
            text,
            "the word in {} is the word in {} plus {}; this is known up to {} {}, and lost there\n",
            &[
                Address(pointer),
                Address(relation.cell),
                Octal(relation.more),
                Address(at),
                name_at(case, at),
            ],
        ),
        None => push_sentence(
            text,
            "the bound of {} was lost at {} {}: {}\n",
            &[
                Address(pointer),
                Address(lost.from),
                name_at(case, lost.from),
                Text(lost.loss.told()),
            ],
        ),
    }
}
