//! Whether a program complies with its declaration, and why. The addresses in these messages are marked, for readers
//! who have the source of the program. The commands write the same as plain text. The lines that say why are tested, not
//! proved.

ghost use Rattle.std.specs.Prelude.{◌≡◌, false, [], None, IfOk, IfErr};
ghost use Rattle.declaration.specs.DeclarationInCode.{meaning};
ghost use Rattle.analyser.specs.Attempts.{IsAcceptedIfFound, claimed_by};
ghost use Rattle.certificate.specs.Exact.{AreLines};
ghost use Rattle.certificate_lines.specs.CertificateInCode.{meaning as lines_of};
ghost use Rattle.command_parts.specs.Answers.{IsMemoryFault};
ghost use Rattle.command_parts.specs.Faults.{fails_to_write};
ghost use Rattle.command_parts.specs.Messages.{plain};
ghost use Rattle.search_commands.specs.SearchFaults.{IsProposeFault};
ghost use Rattle.search_commands.specs.VerifyText.{IsAnswer, IsProposedAnswerOf, IsVerifiedOf, answer_text, lack_text, no_text, proposed_text};

use crate::stuck::draft_message;
use crate::verifying::{
    Answer, InconclusiveReason, MOST_TURNS, ProposalAnswer, RefuteOptions, VerifyOptions,
    inconclusive_reason_of,
};
use crate::widening::{FinalProposal, reason_line, settle};
use analyser::{Attempt, GuessFault, guess_or_draft};
use bin_tape::Image;
use certificate::Certificate;
use command_parts::message::Message;
use command_parts::status::Fault;
use command_parts::text::push_place;
use declaration::Declaration;
use diagnostics::verdicts::surplus_text::surplus_message;
use diagnostics::verdicts::verdict::verdict_line;
use itoa::Buffer;
use machine_commands::violations::violation_lines;
use policy::Rule;
use proposer::propose;
use refuter::refute_within;
use std::alloc::{AllocError, Allocator};
use turns::Turns;
use word12::Word;

/// An answer, and what the search for a certificate had found when it got stuck, if that is known.
#[derive(Drop)]
struct AnswerWithDraft<A: Allocator> {
    answer: Answer<A>,
    draft: Option<Certificate<A>>,
}

/// An answer, its line, and the reasons for it.
#[derive(Drop)]
pub struct AnswerMessage<A: Allocator> {
    /// Whether the program complies with its declaration.
    pub answer: Answer<A>,
    /// The line of the answer.
    pub line: Vec<u8, A>,
    /// The lines that say why, if that is requested.
    pub why: Message<A>,
    /// What the search had found when it got stuck, if that is the answer and it is to be explained.
    pub draft: Option<Certificate<A>>,
}

/// An answer about a proposed declaration, its line, and the reasons for it.
#[derive(Drop)]
pub struct ProposalMessage<A: Allocator> {
    /// The declaration, and whether the program complies with it.
    pub proposed: ProposalAnswer<A>,
    /// The line of the answer.
    pub line: Vec<u8, A>,
    /// The lines that say why, if that is requested.
    pub why: Message<A>,
}

/// Searches for a run that violates a declaration for which no certificate was found, and keeps what the search for a
/// certificate had found, if that is known.
fn answer_on<A: Allocator + Copy, D: Allocator>(
    alloc: A,
    image: &Image,
    declaration: &Declaration<D>,
    options: &RefuteOptions,
    lack: InconclusiveReason,
    draft: Option<Certificate<A>>,
) -> Result<AnswerWithDraft<A>, Fault>
    ensures answer { IfOk result (λ found.
        IsAnswer image.now (meaning declaration.now) found.answer) }
    ensures faults { IfErr result IsMemoryFault }
{
    let mut turns = Turns::new(options.steps);
    let seed = u64::from(options.seed);
    match refute_within(alloc, image, declaration, seed, &mut turns)? {
        Some(found) => Ok(AnswerWithDraft {
            answer: Answer::No(found),
            draft: None,
        }),
        None => Ok(AnswerWithDraft {
            answer: Answer::NotKnown(lack),
            draft,
        }),
    }
}

/// The answer after a search for a certificate that came to this result.
fn answer_by_attempt<A: Allocator + Copy, D: Allocator>(
    alloc: A,
    image: &Image,
    declaration: &Declaration<D>,
    options: &RefuteOptions,
    attempt: Attempt<A>,
) -> Result<AnswerWithDraft<A>, Fault>
    requires accepted { IsAcceptedIfFound image.now declaration.now attempt }
    requires lines { AreLines (lines_of (claimed_by attempt)) }
    ensures answer { IfOk result (λ found.
        IsAnswer image.now (meaning declaration.now) found.answer) }
    ensures faults { IfErr result IsMemoryFault }
{
    match attempt {
        Attempt::Found(certificate) => Ok(AnswerWithDraft {
            answer: Answer::Yes(certificate),
            draft: None,
        }),
        Attempt::Stuck(at, draft) => {
            let lack = InconclusiveReason::Stuck(at);
            answer_on(alloc, image, declaration, options, lack, Some(draft))
        }
    }
}

/// The answer about a given declaration, with the draft of a search that is stuck. Only one search for a certificate is
/// made; if it finds none, a run that violates the declaration is searched for.
fn answer_of<A: Allocator + Copy, D: Allocator>(
    alloc: A,
    image: &Image,
    declaration: &Declaration<D>,
    options: &RefuteOptions,
) -> Result<AnswerWithDraft<A>, Fault>
    ensures answer { IfOk result (λ found.
        IsAnswer image.now (meaning declaration.now) found.answer) }
    ensures faults { IfErr result IsMemoryFault }
{
    match guess_or_draft(alloc, image, declaration) {
        Ok(attempt) => answer_by_attempt(alloc, image, declaration, options, attempt),
        Err(fault) => {
            let lack = inconclusive_reason_of(fault)?;
            answer_on(alloc, image, declaration, options, lack, None)
        }
    }
}

/// The line that says why the answer is not known.
fn lack_line<A: Allocator>(alloc: A, lack: InconclusiveReason) -> Result<Vec<u8, A>, AllocError>
    ensures { IfOk result (λ text. text.items ≡ lack_text lack) }
{
    let mut text = Vec::new(alloc);
    match lack {
        InconclusiveReason::Stuck(at) => push_place(&mut text, b"not known: stuck at ", at)?,
        InconclusiveReason::TurnsSpent => text.extend_from_slice(b"not known: turns spent")?,
    }
    text.extend_from_slice(b"\n")?;
    Ok(text)
}

/// The line about a run that violates the declaration.
fn no_line<A: Allocator>(alloc: A, event: usize, rule: Rule) -> Result<Vec<u8, A>, AllocError>
    ensures { IfOk result (λ text. text.items ≡ no_text event rule) }
{
    let mut text = Vec::new(alloc);
    text.extend_from_slice(b"no: event ")?;
    text.extend_from_slice(Buffer::new().format(event).as_bytes())?;
    text.extend_from_slice(b" rule ")?;
    text.extend_from_slice(Buffer::new().format(rule.number()).as_bytes())?;
    text.extend_from_slice(b"\n")?;
    Ok(text)
}

/// The line of an answer.
fn answer_line<A: Allocator + Copy, D: Allocator>(
    alloc: A,
    declaration: &Declaration<D>,
    answer: &Answer<A>,
) -> Result<Vec<u8, A>, AllocError>
    ensures { IfOk result (λ text.
        text.items ≡ answer_text (meaning declaration.now) answer.now) }
{
    match answer {
        Answer::Yes(_) => verdict_line(alloc, declaration, &Ok(())),
        Answer::No(found) => no_line(alloc, found.event, found.rule),
        Answer::NotKnown(lack) => lack_line(alloc, *lack),
    }
}

/// The line of an answer about a proposed declaration, made from the line of the same answer about a given one.
fn proposed_line<A: Allocator + Copy>(
    alloc: A,
    answer: &Answer<A>,
    line: &[u8],
) -> Result<Vec<u8, A>, AllocError>
    ensures { IfOk result (λ text. text.items ≡ proposed_text answer.now line.now) }
{
    let mut text = Vec::new(alloc);
    match answer {
        Answer::Yes(_) => {
            text.extend_from_slice(b"yes, of the declaration proposed")?;
            text.extend_from_slice(line.get(3..).unwrap_or(b""))?;
        }
        _ => text.extend_from_slice(line)?,
    }
    Ok(text)
}

/// What the search for a certificate lacks that is stuck at this address: the lines of `guess --why` after its first one,
/// from the draft if that is known, and otherwise from another search.
fn stuck_message<A: Allocator + Copy, D: Allocator>(
    alloc: A,
    image: &Image,
    declaration: &Declaration<D>,
    draft: &Option<Certificate<A>>,
    at: Word,
) -> Result<Message<A>, AllocError> {
    if let Some(known) = draft {
        return draft_message(alloc, image, declaration, known, at);
    }
    match &guess_or_draft(alloc, image, declaration) {
        Ok(Attempt::Stuck(place, found)) if *place == at => {
            draft_message(alloc, image, declaration, found, at)
        }
        Err(GuessFault::NoMemory) => Err(AllocError),
        _ => Ok(Message::new(alloc)),
    }
}

/// The lines after an answer that say why: after a yes, what in the declaration is wider than the certificate needs,
/// and what routines return with; otherwise what the step that violates a rule is about to do, or what the search for a
/// certificate lacks.
fn why_message<A: Allocator + Copy, D: Allocator>(
    alloc: A,
    image: &Image,
    declaration: &Declaration<D>,
    answer: &Answer<A>,
    draft: &Option<Certificate<A>>,
) -> Result<Message<A>, Fault>
    ensures faults { IfErr result IsMemoryFault }
{
    let text = match answer {
        Answer::Yes(certificate) => surplus_message(alloc, image, declaration, certificate)?,
        Answer::No(run) => {
            violation_lines(alloc, image, declaration, &run.events, run.event, run.rule)?
        }
        Answer::NotKnown(InconclusiveReason::Stuck(at)) => {
            stuck_message(alloc, image, declaration, draft, *at)?
        }
        Answer::NotKnown(InconclusiveReason::TurnsSpent) => Message::new(alloc),
    };
    Ok(text)
}

/// An answer with its line and, if that is requested, the reasons for it.
fn message_of<A: Allocator + Copy, D: Allocator>(
    alloc: A,
    image: &Image,
    declaration: &Declaration<D>,
    found: AnswerWithDraft<A>,
    explained: bool,
) -> Result<AnswerMessage<A>, Fault>
    requires { IsAnswer image.now (meaning declaration.now) found.answer }
    ensures told { IfOk result (λ told.
        IsVerifiedOf image.now (meaning declaration.now) told.answer told.line.items) }
    ensures same { IfOk result (λ told. told.answer ≡ found.answer) }
    ensures plain { IfOk result (λ told. explained ≡ false → plain told.why ≡ []) }
    ensures faults { IfErr result IsMemoryFault }
{
    let AnswerWithDraft { answer, draft } = found;
    let line = answer_line(alloc, declaration, &answer)?;
    if !explained {
        return Ok(AnswerMessage {
            answer,
            line,
            why: Message::new(alloc),
            draft: None,
        });
    }
    let why = why_message(alloc, image, declaration, &answer, &draft)?;
    Ok(AnswerMessage {
        answer,
        line,
        why,
        draft,
    })
}

/// Says whether a program complies with its declaration, and why, if that is requested.
///
/// # Errors
///
/// `NoMemory` if memory was refused.
#[inline(never)]
pub fn verify_message<A: Allocator + Copy, D: Allocator>(
    alloc: A,
    image: &Image,
    declaration: &Declaration<D>,
    options: &RefuteOptions,
) -> Result<AnswerMessage<A>, Fault>
    // The answer is true for the image and the declaration, and the line is that of the answer.
    ensures told { IfOk result (λ told.
        IsVerifiedOf image.now (meaning declaration.now) told.answer told.line.items) }
    // The answer is explained only if that is requested.
    ensures plain { IfOk result (λ told. options.now.explained ≡ false → plain told.why ≡ []) }
    ensures faults { IfErr result IsMemoryFault }
{
    let found = answer_of(alloc, image, declaration, options)?;
    message_of(alloc, image, declaration, found, options.explained)
}

/// Says whether a program complies with the declaration that is proposed for it, and why, if that is requested.
///
/// # Errors
///
/// `Declare` if what is found cannot be declared; `NoMemory` if memory was refused.
#[inline(never)]
pub fn verify_proposed_message<A: Allocator + Copy>(
    alloc: A,
    image: &Image,
    options: &VerifyOptions,
) -> Result<ProposalMessage<A>, Fault>
    // The text declares a program with that start, on that machine; the answer is true for it, and its line comes first.
    ensures told { IfOk result (λ told.
        IsProposedAnswerOf options.now image.now told.proposed told.line.items) }
    // The answer is explained only if that is requested.
    ensures plain { IfOk result (λ told.
        options.now.search.explained ≡ false → plain told.why ≡ []) }
    ensures faults { IfErr result IsProposeFault }
    ensures unwritten { fails_to_write result ≡ false }
{
    let mut turns = Turns::new(MOST_TURNS);
    let proposal = propose(alloc, image, options.start, options.profile, &mut turns)?;
    let last = settle(alloc, image, proposal, &options.search, &mut turns)?;
    let FinalProposal {
        declaration,
        text,
        answer,
        obstacle,
    } = last;
    let found = AnswerWithDraft {
        answer,
        draft: None,
    };
    let told = message_of(alloc, image, &declaration, found, options.search.explained)?;
    let AnswerMessage {
        answer,
        line,
        why,
        ..
    } = told;
    let mut line = proposed_line(alloc, &answer, &line)?;
    let reason = reason_line(alloc, &obstacle)?;
    line.extend_from_slice(&reason)?;
    Ok(ProposalMessage {
        proposed: ProposalAnswer {
            text,
            answer,
            obstacle,
        },
        line,
        why,
    })
}
