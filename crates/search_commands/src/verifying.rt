//! Answers to the question whether a program complies with its declaration.

ghost use Rattle.std.specs.Prelude.{◌≡◌, IfErr, IfOk};
ghost use Rattle.command_parts.specs.Answers.{IsMemoryFault};
ghost use Rattle.declaration.specs.DeclarationInCode.{meaning};
ghost use Rattle.peripherals.specs.Loading.{image_of};
ghost use Rattle.policy.specs.Runs.{IsSafe};
ghost use Rattle.search_commands.specs.VerifyText.{answer_status};

use analyser::{GuessFault, guess};
use bin_tape::Image;
use certificate::Certificate;
pub use command_parts::options::{RefuteOptions, VerifyOptions};
use command_parts::status::{Fault, Status};
use declaration::Declaration;
use proposer::Obstacle;
use refuter::Witness;
use std::alloc::Allocator;
use word12::Word;

/// The maximum number of turns for a proposal.
pub(crate) const MOST_TURNS: u32 = 2_000_000;

/// Why it is not known whether a program complies with its declaration.
#[derive(Clone, Copy, PartialEq, Eq, Debug)]
pub enum InconclusiveReason {
    /// The search for a certificate is stuck at an instruction that the judge would refuse.
    Stuck(Word),
    /// The search for a certificate reached its limit of turns.
    TurnsSpent,
}

/// Whether a program complies with its declaration, and what shows it.
#[derive(Drop)]
pub enum Answer<A: Allocator> {
    /// It does: every condition holds for this certificate.
    Yes(Certificate<A>),
    /// It does not: this run violates the declaration.
    No(Witness<A>),
    /// Neither a certificate nor such a run was found.
    NotKnown(InconclusiveReason),
}

/// An answer, and the text of the declaration that was proposed for the tape.
#[derive(Drop)]
pub struct ProposalAnswer<A: Allocator> {
    /// The declaration's text.
    pub text: Vec<u8, A>,
    /// Whether the program complies with it.
    pub answer: Answer<A>,
    /// After a no, the reason why no declaration allows what the run does.
    pub obstacle: Option<Obstacle>,
}

/// The status of an answer: only a yes is done.
pub fn answer_status<A: Allocator>(answer: &Answer<A>) -> Status
    ensures { result ≡ answer_status answer.now }
{
    match answer {
        Answer::Yes(_) => Status::Done,
        Answer::No(_) | Answer::NotKnown(_) => Status::Refused,
    }
}

/// Why the answer is not known if no certificate was found. Refused memory is a fault instead.
pub(crate) fn inconclusive_reason_of(fault: GuessFault) -> Result<InconclusiveReason, Fault>
    ensures { IfErr result IsMemoryFault }
{
    match fault {
        GuessFault::Stuck(at) => Ok(InconclusiveReason::Stuck(at)),
        GuessFault::TurnsSpent => Ok(InconclusiveReason::TurnsSpent),
        GuessFault::NoMemory => Err(Fault::NoMemory),
    }
}

/// A certificate for a program and its declaration, or why none is found.
pub(crate) fn certificate_for<A: Allocator + Copy, D: Allocator>(
    alloc: A,
    image: &Image,
    declaration: &Declaration<D>,
) -> Result<Result<Certificate<A>, InconclusiveReason>, Fault>
    ensures shown { IfOk result (λ found. IfOk found (λ _.
        IsSafe (image_of image.now) (meaning declaration.now))) }
    ensures faults { IfErr result IsMemoryFault }
{
    match guess(alloc, image, declaration) {
        Ok(certificate) => Ok(Ok(certificate)),
        Err(fault) => Ok(Err(inconclusive_reason_of(fault)?)),
    }
}
