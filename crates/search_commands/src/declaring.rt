//! Proposes a declaration.

ghost use Rattle.std.specs.Prelude.{◌≡◌, None, false, true, IfOk, IfErr};
ghost use Rattle.command_parts.specs.Faults.{fails_to_write};
ghost use Rattle.search_commands.specs.DeclareText.{IsBare, IsProposalOf};
ghost use Rattle.search_commands.specs.SearchFaults.{IsProposeFault};
ghost use Rattle.declaration.specs.DeclarationInCode.{meaning};
ghost use Rattle.declaration.specs.Text.{Declares};
ghost use Rattle.proposer.specs.Proposals.{Fits, IsListed, IsShown, IsTold};

use crate::verifying::InconclusiveReason;
use bin_tape::Image;
pub use command_parts::options::DeclareOptions;
use command_parts::outcome::CommandResult;
use command_parts::sentence::Argument::{Address, Number};
use command_parts::sentence::push_sentence;
use command_parts::status::{Fault, Status};
use declaration::{Declaration, DeclarationFault};
use proposer::{ObservedRuns, Proposal, Verdict, propose, propose_with_reads};
use std::alloc::{AllocError, Allocator};
use turns::{ProposeFault, Turns};
use wordset::WordSet;

/// The maximum number of turns for a proposal.
pub(crate) const MOST_TURNS: u32 = 300_000;

/// Adds a comment for each address at which control is not followed.
fn push_unfollowed<A: Allocator>(
    text: &mut Vec<u8, A>,
    addresses: &WordSet,
) -> Result<(), AllocError> {
    for at in addresses.iter() {
        let place = [Address(at)];
        push_sentence(
            text,
            "/ It is not known where the program goes on at {}.\n",
            &place,
        )?;
    }
    Ok(())
}

/// Adds a comment that says why no certificate is found.
fn push_inconclusive_reason<A: Allocator>(
    text: &mut Vec<u8, A>,
    lack: InconclusiveReason,
) -> Result<(), AllocError> {
    match lack {
        InconclusiveReason::Stuck(at) => push_sentence(
            text,
            "/ No certificate is found: stuck at {}.\n",
            &[Address(at)],
        ),
        InconclusiveReason::TurnsSpent => {
            text.extend_from_slice(b"/ No certificate is found within the limit of turns.\n")
        }
    }
}

/// Adds a comment that says in which runs the behaviour of the program was seen, if it was.
fn push_seen<A: Allocator>(
    text: &mut Vec<u8, A>,
    seen: Option<ObservedRuns>,
) -> Result<(), AllocError> {
    let Some(seen) = seen else {
        return Ok(());
    };
    push_sentence(
        text,
        "/ Seen in {} runs of {} steps in all, but not proved.\n",
        &[Number(seen.runs as usize), Number(seen.steps as usize)],
    )
}

/// Adds comments that say why no certificate is found, in which runs the behaviour of the program was seen, and at which
/// addresses control is not followed.
pub(crate) fn push_remarks<A: Allocator>(
    text: &mut Vec<u8, A>,
    lack: InconclusiveReason,
    seen: Option<ObservedRuns>,
    unfollowed: &WordSet,
) -> Result<(), AllocError> {
    push_inconclusive_reason(text, lack)?;
    push_seen(text, seen)?;
    push_unfollowed(text, unfollowed)
}

/// The proposal for a tape's words, with a list of reads if one is requested.
pub(crate) fn proposal_for<A: Allocator + Copy>(
    alloc: A,
    image: &Image,
    options: &DeclareOptions,
    turns: &mut Turns,
) -> Result<Proposal<A>, ProposeFault>
    ensures fits { IfOk result (Fits options.now.start options.now.profile) }
    ensures shown { IfOk result (λ p. IsShown image.now p.declaration p.verdict) }
    ensures listed { options.now.reads ≡ true →
        IfOk result (λ p. IsListed p.declaration p.verdict) }
    ensures unlisted { options.now.reads ≡ false →
        IfOk result (λ p. (meaning p.declaration).reads ≡ None) }
    ensures faults { IfErr result IsTold }
{
    if options.reads {
        propose_with_reads(alloc, image, options.start, options.profile, turns)
    } else {
        propose(alloc, image, options.start, options.profile, turns)
    }
}

/// A copy of a text.
pub(crate) fn copy_of<A: Allocator>(alloc: A, text: &[u8]) -> Result<Vec<u8, A>, AllocError>
    ensures { IfOk result (λ copy. copy.items ≡ text.now) }
{
    let mut copy = Vec::new(alloc);
    copy.extend_from_slice(text)?;
    Ok(copy)
}

/// Why there is no certificate, if the verdict is without one.
fn lack_of<A: Allocator>(verdict: &Verdict<A>) -> Option<InconclusiveReason> {
    match verdict {
        Verdict::Safe(_) => None,
        Verdict::Stuck(at) => Some(InconclusiveReason::Stuck(*at)),
        Verdict::TurnsSpent => Some(InconclusiveReason::TurnsSpent),
    }
}

/// Comments that say what is missing, followed by the text of a proposal.
fn remarks_and_text<A: Allocator + Copy>(
    alloc: A,
    proposal: &Proposal<A>,
) -> Result<Vec<u8, A>, AllocError> {
    let mut text = Vec::new(alloc);
    if let Some(lack) = lack_of(&proposal.verdict) {
        push_remarks(&mut text, lack, proposal.seen, &proposal.unfollowed)?;
    }
    text.extend_from_slice(&proposal.text)?;
    Ok(text)
}

/// Whether a text declares a program with the requested start and machine, without a list of reads.
fn declares_for<A: Allocator + Copy>(
    alloc: A,
    text: &[u8],
    options: &DeclareOptions,
) -> Result<bool, Fault>
    ensures declares { IfOk result (λ yes. yes ≡ true → IsBare options.now text.now) }
    ensures faults { IfErr result IsProposeFault }
    ensures unwritten { fails_to_write result ≡ false }
{
    match Declaration::parse(alloc, text) {
        Ok(found) => {
            if found.reads_listed() || found.start() != options.start {
                return Ok(false);
            }
            Ok(found.profile() == options.profile)
        }
        Err(DeclarationFault::NoMemory) => Err(Fault::NoMemory),
        Err(_) => Ok(false),
    }
}

/// The text of a proposal without a list of reads, with the comments before it if there is room for them.
fn remarked<A: Allocator + Copy>(
    alloc: A,
    proposal: &Proposal<A>,
    options: &DeclareOptions,
) -> Result<Vec<u8, A>, Fault>
    requires text { Declares proposal.now.text.items (meaning proposal.now.declaration) }
    requires start { (meaning proposal.now.declaration).start ≡ options.now.start }
    requires profile { (meaning proposal.now.declaration).profile ≡ options.now.profile }
    requires unlisted { (meaning proposal.now.declaration).reads ≡ None }
    ensures declares { IfOk result (λ text. IsBare options.now text.items) }
    ensures faults { IfErr result IsProposeFault }
    ensures unwritten { fails_to_write result ≡ false }
{
    let text = remarks_and_text(alloc, proposal)?;
    if declares_for(alloc, &text, options)? {
        return Ok(text);
    }
    Ok(copy_of(alloc, &proposal.text)?)
}

/// Proposes what the program of a tape may do, from its words, its start and the machine alone: the text of a declaration.
/// The status `Done` means that no run of the program violates the declaration. Otherwise the status is `Refused`: no
/// certificate that would show this is found, and comments before the text say why, if there is room for them. What the
/// comments say is tested, not proved.
///
/// # Errors
///
/// `Declare` if what is found cannot be declared; `NoMemory` if memory was refused.
pub fn proposed<A: Allocator + Copy>(
    alloc: A,
    image: &Image,
    options: &DeclareOptions,
) -> Result<CommandResult<A>, Fault>
    // The text declares a program with that start, on that machine. If the command is done, the program is safe, and
    // there is a list of reads if one was requested. Otherwise there is no list.
    ensures proposal { IfOk result (λ told.
        IsProposalOf options.now image.now told.status told.text.items) }
    ensures faults { IfErr result IsProposeFault }
    ensures unwritten { fails_to_write result ≡ false }
{
    let mut turns = Turns::new(MOST_TURNS);
    let proposal = proposal_for(alloc, image, options, &mut turns)?;
    if let Verdict::Safe(_) = &proposal.verdict {
        let Proposal { text, .. } = proposal;
        let status = Status::Done;
        return Ok(CommandResult { text, status });
    }
    let text = remarked(alloc, &proposal, options)?;
    let status = Status::Refused;
    Ok(CommandResult { text, status })
}
