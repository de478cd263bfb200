//! The answer for a tape alone: the proposal is widened as long as runs leave it.

ghost use Rattle.std.specs.Prelude.{◌≡◌, [], false, None, IfOk, IfErr};
ghost use Rattle.command_parts.specs.Faults.{fails_to_write};
ghost use Rattle.declaration.specs.DeclarationInCode.{meaning};
ghost use Rattle.declaration.specs.Text.{Declares};
ghost use Rattle.proposer.specs.Proposals.{IsShown};
ghost use Rattle.search_commands.specs.SearchFaults.{IsProposeFault};
ghost use Rattle.search_commands.specs.VerifyText.{HasReason, IsAnswer};
ghost use Rattle.search_commands.specs.WidenedSearch.{IsEnded, IsNext, IsSettled};

use crate::verifying::{Answer, InconclusiveReason, RefuteOptions};
use bin_tape::Image;
use command_parts::sentence::Argument::{Address, Text};
use command_parts::sentence::push_sentence;
use command_parts::status::Fault;
use declaration::Declaration;
use proposer::{Evidence, Obstacle, Proposal, Verdict, Widening, widened};
use refuter::{Witness, refute_within};
use std::alloc::{AllocError, Allocator};
use turns::Turns;
use word12::Word;

/// How many times a proposal is widened at most.
const MOST_WIDENINGS: usize = 256;

/// The declaration that is finally proposed, its text, whether the program complies with it and, after a no, why no
/// declaration allows what the run does.
#[derive(Drop)]
pub(crate) struct FinalProposal<A: Allocator> {
    pub(crate) declaration: Declaration<A>,
    pub(crate) text: Vec<u8, A>,
    pub(crate) answer: Answer<A>,
    pub(crate) obstacle: Option<Obstacle>,
}

/// How the search for a run that leaves a proposal ended.
#[derive(Drop)]
enum Ending<A: Allocator> {
    /// No run was found that shows how to widen the proposal, or there is a certificate.
    Open,
    /// This run was found, and no declaration allows what it does.
    Broken(Witness<A>, Obstacle),
}

/// The next step after a proposal.
#[derive(Drop)]
enum WideningStep<A: Allocator> {
    Wider(Proposal<A>),
    Ended(Ending<A>),
}

/// The answer that a verdict alone gives.
fn answer_by<A: Allocator>(
    image: &Image,
    declaration: &Declaration<A>,
    verdict: Verdict<A>,
) -> Answer<A>
    requires { IsShown image.now declaration.now verdict }
    ensures answer { IsAnswer image.now (meaning declaration.now) result }
    ensures open { HasReason image.now (meaning declaration.now) result None }
{
    let (_image, _declaration) = (image, declaration);
    match verdict {
        Verdict::Safe(certificate) => Answer::Yes(certificate),
        Verdict::Stuck(at) => Answer::NotKnown(InconclusiveReason::Stuck(at)),
        Verdict::TurnsSpent => Answer::NotKnown(InconclusiveReason::TurnsSpent),
    }
}

/// What is finally said about a proposal.
fn conclude<A: Allocator>(
    image: &Image,
    proposal: Proposal<A>,
    ending: Ending<A>,
) -> FinalProposal<A>
    requires shown { IsShown image.now proposal.declaration proposal.verdict }
    requires text { Declares proposal.text.items (meaning proposal.declaration) }
    requires ended { IsEnded image.now proposal.declaration ending }
    ensures settled { IsSettled image.now proposal.declaration result }
{
    let Proposal {
        declaration,
        text,
        verdict,
        ..
    } = proposal;
    match ending {
        Ending::Open => {
            let answer = answer_by(image, &declaration, verdict);
            FinalProposal {
                declaration,
                text,
                answer,
                obstacle: None,
            }
        }
        Ending::Broken(witness, obstacle) => FinalProposal {
            declaration,
            text,
            answer: Answer::No(witness),
            obstacle: Some(obstacle),
        },
    }
}

/// The next step after a proposal that a run leaves.
fn after_run<A: Allocator + Copy>(
    alloc: A,
    image: &Image,
    proposal: &Proposal<A>,
    evidence: &mut Evidence<A>,
    witness: Witness<A>,
    turns: &mut Turns,
) -> Result<WideningStep<A>, Fault>
    requires { IsAnswer image.now (meaning proposal.now.declaration) (Answer.No witness) }
    ensures next { IfOk result (IsNext image.now proposal.now.declaration) }
    ensures faults { IfErr result IsProposeFault }
    ensures unwritten { fails_to_write result ≡ false }
{
    match widened(alloc, image, proposal, evidence, &witness.events, turns)? {
        Widening::Wider(wider) => Ok(WideningStep::Wider(wider)),
        Widening::Never(obstacle) => Ok(WideningStep::Ended(Ending::Broken(witness, obstacle))),
        Widening::Unclear => Ok(WideningStep::Ended(Ending::Open)),
    }
}

/// Searches for a run that leaves a proposal without a certificate, and widens the proposal by what that run does.
fn next_after<A: Allocator + Copy>(
    alloc: A,
    image: &Image,
    proposal: &Proposal<A>,
    evidence: &mut Evidence<A>,
    seed: u64,
    steps: &mut Turns,
    turns: &mut Turns,
) -> Result<WideningStep<A>, Fault>
    ensures next { IfOk result (IsNext image.now proposal.now.declaration) }
    ensures faults { IfErr result IsProposeFault }
    ensures unwritten { fails_to_write result ≡ false }
{
    if let Verdict::Safe(_) = &proposal.verdict {
        return Ok(WideningStep::Ended(Ending::Open));
    }
    match refute_within(alloc, image, &proposal.declaration, seed, steps)? {
        Some(witness) => after_run(alloc, image, proposal, evidence, witness, turns),
        None => Ok(WideningStep::Ended(Ending::Open)),
    }
}

/// Widens a proposal as long as runs leave it, within the limit of steps, and says what is known about the last one.
#[tactic(auto, using(crate::proofs::WidenedLemmas::settled_before))]
pub(crate) fn settle<A: Allocator + Copy>(
    alloc: A,
    image: &Image,
    proposal: Proposal<A>,
    options: &RefuteOptions,
    turns: &mut Turns,
) -> Result<FinalProposal<A>, Fault>
    requires shown { IsShown image.now proposal.declaration proposal.verdict }
    requires text { Declares proposal.text.items (meaning proposal.declaration) }
    ensures settled { IfOk result (IsSettled image.now proposal.declaration) }
    ensures faults { IfErr result IsProposeFault }
    ensures unwritten { fails_to_write result ≡ false }
{
    let mut proposal = proposal;
    let mut evidence = Evidence::nothing(alloc)?;
    let mut steps = Turns::new(options.steps);
    let seed = u64::from(options.seed);
    for _widening in 0..MOST_WIDENINGS {
        let next = next_after(
            alloc,
            image,
            &proposal,
            &mut evidence,
            seed,
            &mut steps,
            turns,
        )?;
        match next {
            WideningStep::Wider(wider) => proposal = wider,
            WideningStep::Ended(ending) => return Ok(conclude(image, proposal, ending)),
        }
    }
    Ok(conclude(image, proposal, Ending::Open))
}

/// What a run does that no declaration allows, and the address at which that is seen.
fn words_of(obstacle: &Obstacle) -> (&'static str, Word) {
    match obstacle {
        Obstacle::Unsupported(at) => ("the machine does not support the word at ", *at),
        Obstacle::Unset(at) => (
            "control reaches a cell that has no word from the tape or the program, at ",
            *at,
        ),
        Obstacle::RunsEntry(at) => ("control reaches the word that a JMS stores at ", *at),
        Obstacle::Shared(at) => ("two routines execute the word at ", *at),
        Obstacle::CallsBody(at) => ("a JMS stores into the code at ", *at),
        Obstacle::CallsVariable(at) => ("instructions other than JMS also store at ", *at),
        Obstacle::CallsPointer(at) => ("a JMS stores into the auto-index cell ", *at),
        Obstacle::StoresInEntry(at) => ("instructions other than JMS also store at ", *at),
        Obstacle::ReturnsForAnother(at) => (
            "a routine other than the one called last returns through the JMP at ",
            *at,
        ),
        Obstacle::ReturnsFar(at) => (
            "a routine returns to an address outside the 64 words after its call, through the JMP at ",
            *at,
        ),
    }
}

/// The line that says why no declaration allows what a run does; nothing if there is no reason.
pub(crate) fn reason_line<A: Allocator>(
    alloc: A,
    obstacle: &Option<Obstacle>,
) -> Result<Vec<u8, A>, AllocError>
    ensures { IfOk result (λ text. obstacle.now ≡ None → text.items ≡ []) }
{
    let mut text = Vec::new(alloc);
    let Some(found) = obstacle else {
        return Ok(text);
    };
    let (words, at) = words_of(found);
    let by = [Text(words), Address(at)];
    push_sentence(
        &mut text,
        "no declaration allows what the runs do: {}{}\n",
        &by,
    )?;
    Ok(text)
}
