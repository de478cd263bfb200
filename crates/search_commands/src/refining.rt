//! What `declare` makes of a declaration for which a certificate is found: it leaves out what is unnecessary, and adds
//! what routines return with.

ghost use Rattle.std.specs.Prelude.{ℕ, List, Option, IfOk, IfErr, IfSome};
ghost use Rattle.command_parts.specs.Answers.{IsMemoryFault};
ghost use Rattle.declaration.specs.DeclarationInCode.{meaning};
ghost use Rattle.declaration.specs.Text.{Declares};
ghost use Rattle.search_commands.specs.Keeping.{KeepsLines};
ghost use Rattle.search_commands.specs.Refining.{IsRefined};
ghost use Rattle.search_commands.specs.SearchFaults.{IsRefineFault};

use crate::adding::is_no_wider;
use crate::asserting::keeps_assertions;
use crate::completing::end_text;
use crate::declaring::copy_of;
use crate::keeping::keeps_lines;
use crate::narrowing::narrowed;
use crate::returning::push_all_returns;
use crate::verifying::certificate_for;
use bin_tape::Image;
use command_parts::message::{Message, MessageWriter, Written};
use command_parts::status::Fault;
use declaration::{Declaration, DeclarationFault};
use diagnostics::verdicts::surplus_text::{
    Shown, declared_offsets, push_cells, push_routine_offsets,
};
use std::alloc::{AllocError, Allocator};
use wordset::WordSet;

/// The message if nothing is left out because no certificate is found.
const NOT_SHOWN: &[u8] =
    b"--tight leaves nothing out: no certificate is found for the declaration\n";

/// The message if nothing is left out because no certificate is found for what would remain.
const NOT_SHOWN_NARROWER: &[u8] =
    b"--tight leaves nothing out: without the parts that are not needed, no certificate is found for the declaration\n";

/// The message if nothing is unnecessary except what is declared to hold.
const ALL_NEEDED: &[u8] =
    b"--tight leaves nothing out: everything that it could leave out is needed by the certificate or named by a `holds` or `returns` line\n";

/// The message if no return is added because no certificate is found.
const NO_RETURNS_SHOWN: &[u8] =
    b"--exits adds nothing: no certificate is found for the declaration\n";

/// The message if there is no return to add.
const NO_RETURNS: &[u8] =
    b"--exits adds nothing: the declaration already says everything that is shown about AC and the link at the returns of routines\n";

/// The message if returns cannot be added.
const TOO_MANY_RETURNS: &[u8] =
    b"--exits adds nothing: the declaration would become too long, or no certificate is found for it\n";

/// A declaration that was changed or kept, and the message about that.
#[derive(Drop)]
pub struct Refinement<A: Allocator> {
    /// The text of the declaration.
    pub text: Vec<u8, A>,
    /// The message on standard error.
    pub told: Message<A>,
}

/// What a text declares, if that is no wider than what a given text declares and requires the same to hold, and a
/// certificate is found for it.
fn shown_no_wider<A: Allocator + Copy, D: Allocator>(
    alloc: A,
    image: &Image,
    text: &[u8],
    given: &Declaration<D>,
    written: &[u8],
) -> Result<Option<Declaration<A>>, Fault>
    requires { Declares text.now (meaning given.now) }
    ensures refined { IfOk result (λ found. IfSome found (λ less.
        IsRefined image.now text.now written.now)) }
    ensures faults { IfErr result IsMemoryFault }
{
    match Declaration::parse(alloc, written) {
        Ok(less) => {
            if !keeps_assertions(given, &less) {
                return Ok(None);
            }
            if !is_no_wider(given, &less) {
                return Ok(None);
            }
            match certificate_for(alloc, image, &less)? {
                Ok(_certificate) => Ok(Some(less)),
                Err(_) => Ok(None),
            }
        }
        Err(DeclarationFault::NoMemory) => Err(Fault::NoMemory),
        Err(_) => Ok(None),
    }
}

/// The given text, and why it is not changed.
#[tactic(auto, using(crate::proofs::RefiningLemmas::same_text_is_refined, crate::proofs::RefiningLemmas::same_text_keeps))]
fn unchanged<A: Allocator + Copy>(alloc: A, text: &[u8], why: &[u8]) -> Result<Refinement<A>, Fault>
    ensures refined { (image : List (Option ℕ)) →
        IfOk result (λ refined. IsRefined image text.now refined.text.items) }
    ensures keeps { IfOk result (λ refined. KeepsLines text.now refined.text.items) }
    ensures faults { IfErr result IsMemoryFault }
{
    let text = copy_of(alloc, text)?;
    let mut told = Message::new(alloc);
    told.push_text(why)?;
    Ok(Refinement { text, told })
}

/// The cells on the list of reads, or no cells if there is no list.
fn reads_of<D: Allocator>(declaration: &Declaration<D>) -> WordSet {
    match declaration.reads() {
        Some(cells) => *cells,
        None => WordSet::empty(),
    }
}

/// Adds the offsets that are left out of routines that stay.
fn push_lost_offsets<L: MessageWriter, A: Allocator, B: Allocator>(
    told: &mut L,
    given: &Declaration<A>,
    less: &Declaration<B>,
) -> Written {
    for routine in less.routines() {
        let entry = routine.entry();
        let offsets = declared_offsets(given, entry).minus(&declared_offsets(less, entry));
        push_routine_offsets(
            told,
            "--tight leaves out offsets by which the routine",
            entry,
            &offsets,
        )?;
    }
    Ok(())
}

/// The cells, other than those of bodies and entries, that one declaration lists for a use and another one does not.
fn lost_uses<A: Allocator, B: Allocator>(
    given: &Declaration<A>,
    less: &Declaration<B>,
) -> [(&'static str, WordSet); 5] {
    let halts = given.stops().union(given.pauses());
    let kept_halts = less.stops().union(less.pauses());
    [
        (
            "--tight leaves out variables that no instruction writes",
            given.variables().minus(less.variables()),
        ),
        (
            "--tight leaves out listed reads that are not needed",
            reads_of(given).minus(&reads_of(less)),
        ),
        (
            "--tight leaves out stops and pauses at which no run halts",
            halts.minus(&kept_halts),
        ),
        (
            "--tight leaves out addresses in `abandon` lines at which no call is abandoned",
            given.abandons().minus(less.abandons()),
        ),
        (
            "--tight leaves out routines in `moves` lines that do not store their return word",
            given.moves().minus(less.moves()),
        ),
    ]
}

/// Adds what one declaration has and another one lacks.
fn push_lost<L: MessageWriter, A: Allocator, B: Allocator>(
    told: &mut L,
    given: &Declaration<A>,
    less: &Declaration<B>,
) -> Written {
    let lost_bodies = (
        "--tight leaves out body cells that no run reaches",
        given.bodies().minus(&less.bodies()),
    );
    let lost_routines = (
        "--tight leaves out routines that are never called",
        given.entries().minus(&less.entries()),
    );
    push_cells(told, &[lost_bodies, lost_routines])?;
    push_lost_offsets(told, given, less)?;
    push_cells(told, &lost_uses(given, less))
}

/// The message about a declaration from which something, or nothing, was left out.
fn told_of<A: Allocator + Copy, D: Allocator, E: Allocator>(
    alloc: A,
    given: &Declaration<D>,
    less: &Declaration<E>,
) -> Result<Message<A>, AllocError> {
    let mut told = Message::new(alloc);
    push_lost(&mut told, given, less)?;
    if told.is_empty() {
        told.push_text(ALL_NEEDED)?;
    }
    Ok(told)
}

/// The text of a declaration without what a certificate shows to be unnecessary, if a certificate is found for the
/// declaration and another for what remains of it; otherwise the text unchanged. What is declared to hold stays. The
/// message says what is left out.
///
/// # Errors
///
/// `Declared` if the text does not declare a program; `NoMemory` if memory was refused.
pub fn tightened<A: Allocator + Copy>(
    alloc: A,
    image: &Image,
    text: &[u8],
) -> Result<Refinement<A>, Fault>
    ensures refined { IfOk result (λ refined. IsRefined image.now text.now refined.text.items) }
    ensures faults { IfErr result (IsRefineFault text.now) }
{
    let given = Declaration::parse(alloc, text)?;
    let Ok(certificate) = certificate_for(alloc, image, &given)? else {
        return unchanged(alloc, text, NOT_SHOWN);
    };
    let shown = Shown {
        image,
        declaration: &given,
        certificate: &certificate,
    };
    let less = narrowed(alloc, text, shown)?;
    let Some(left) = shown_no_wider(alloc, image, text, &given, &less)? else {
        return unchanged(alloc, text, NOT_SHOWN_NARROWER);
    };
    let told = told_of(alloc, &given, &left)?;
    Ok(Refinement { text: less, told })
}

/// A text, followed by the lines that say what routines return with.
fn text_with_returns<A: Allocator + Copy, D: Allocator, C: Allocator>(
    alloc: A,
    text: &[u8],
    shown: &Shown<'_, D, C>,
) -> Result<Vec<u8, A>, AllocError> {
    let mut more = copy_of(alloc, text)?;
    end_text(&mut more)?;
    push_all_returns(&mut more, shown)?;
    Ok(more)
}

/// The text of a declaration, followed by a line for each return of a routine that says which words AC may hold
/// according to a certificate, and a line that says what the link may be, if a certificate is found for the declaration
/// and another for what is written; otherwise the text unchanged. The message says why nothing is added.
///
/// # Errors
///
/// `Declared` if the text does not declare a program; `NoMemory` if memory was refused.
pub fn with_returns<A: Allocator + Copy>(
    alloc: A,
    image: &Image,
    text: &[u8],
) -> Result<Refinement<A>, Fault>
    ensures refined { IfOk result (λ refined. IsRefined image.now text.now refined.text.items) }
    ensures keeps { IfOk result (λ refined. KeepsLines text.now refined.text.items) }
    ensures faults { IfErr result (IsRefineFault text.now) }
{
    let given = Declaration::parse(alloc, text)?;
    let Ok(certificate) = certificate_for(alloc, image, &given)? else {
        return unchanged(alloc, text, NO_RETURNS_SHOWN);
    };
    let shown = Shown {
        image,
        declaration: &given,
        certificate: &certificate,
    };
    let more = text_with_returns(alloc, text, &shown)?;
    if more.len() <= text.len().saturating_add(1) {
        return unchanged(alloc, text, NO_RETURNS);
    }
    if !keeps_lines(text, &more) {
        return unchanged(alloc, text, TOO_MANY_RETURNS);
    }
    match shown_no_wider(alloc, image, text, &given, &more)? {
        None => unchanged(alloc, text, TOO_MANY_RETURNS),
        Some(_) => Ok(Refinement {
            text: more,
            told: Message::new(alloc),
        }),
    }
}
