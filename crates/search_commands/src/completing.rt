//! Adds what is missing to a declaration.

ghost use Rattle.std.specs.Prelude.{◌≡◌, false, IfSome, IfOk, IfErr, ℕ, List, Option};
ghost use Rattle.command_parts.specs.Answers.{IsMemoryFault};
ghost use Rattle.command_parts.specs.Faults.{IsDeclarationInputFault};
ghost use Rattle.command_parts.specs.Inputs.{HasDeclaration, input};
ghost use Rattle.search_commands.specs.CompleteText.{Completes, CompletesBy, IsExtensionBy, IsFit};
ghost use Rattle.search_commands.specs.SearchFaults.{IsProposeFault};
ghost use Rattle.declaration.specs.DeclarationInCode.{meaning};
ghost use Rattle.declaration.specs.Text.{Declares};

use crate::adding::{adds_only, is_no_wider};
use crate::declaring::{MOST_TURNS, copy_of, proposal_for, push_remarks};
use crate::keeping::keeps_lines;
use crate::merging::merged;
use crate::verifying::{InconclusiveReason, certificate_for};
use bin_tape::Image;
use command_parts::options::DeclareOptions;
use command_parts::outcome::CommandResult;
use command_parts::status::{Fault, Status};
use declaration::{Declaration, DeclarationFault};
use proposer::{ObservedRuns, Proposal};
use std::alloc::{AllocError, Allocator};
use streams::{ByteSource, read_at_most};
use turns::Turns;
use wordset::WordSet;

/// One byte more than the text of a declaration may have, so that a longer text is seen to be too long.
const MOST_BYTES: usize = 16_385;

/// A declaration and its text.
#[derive(Drop)]
pub struct ParsedDeclaration<A: Allocator> {
    /// The text.
    pub text: Vec<u8, A>,
    /// What it declares.
    pub declaration: Declaration<A>,
}

/// Reads a declaration, and keeps its text.
///
/// # Errors
///
/// The fault of the declaration; `Device` if a read failed; `NoMemory` if memory was refused.
pub fn given_from<A: Allocator + Copy, R: ByteSource>(
    alloc: A,
    source: &mut R,
) -> Result<ParsedDeclaration<A>, Fault>
    requires { R.mark source.old ≡ false }
    ensures declares { IfOk result (λ given.
        HasDeclaration (R.remaining source.old) (meaning given.declaration)) }
    ensures text { IfOk result (λ given.
        Declares given.text.items (meaning given.declaration)) }
    ensures whole { IfOk result (λ given.
        IfSome (R.remaining source.old) (λ bytes. bytes ≡ given.text.items)) }
    ensures faults { IfErr result (IsDeclarationInputFault
        (input (R.mark source.new) (R.remaining source.old) (R.remaining source.new))) }
{
    let text = read_at_most(alloc, source, MOST_BYTES)?;
    match Declaration::parse(alloc, &text) {
        Ok(declaration) => Ok(ParsedDeclaration { text, declaration }),
        Err(fault) => Err(Fault::from(fault)),
    }
}

/// What a text declares, if it keeps the lines of a given declaration and extends that declaration by what is proposed
/// and by nothing else.
fn extension<A: Allocator + Copy, D: Allocator>(
    alloc: A,
    bytes: &[u8],
    given: &Declaration<D>,
    proposed: &Declaration<D>,
    text: &[u8],
) -> Result<Option<Declaration<A>>, Fault>
    ensures extends { IfOk result (λ found. IfSome found (λ d. IsExtensionBy bytes.now
        (meaning given.now) (meaning proposed.now) (meaning d) text.now)) }
    ensures faults { IfErr result IsMemoryFault }
{
    if !keeps_lines(bytes, text) {
        return Ok(None);
    }
    match Declaration::parse(alloc, text) {
        Ok(more) => {
            if !is_no_wider(&more, given) {
                return Ok(None);
            }
            if !adds_only(given, proposed, &more) {
                return Ok(None);
            }
            Ok(Some(more))
        }
        Err(DeclarationFault::NoMemory) => Err(Fault::NoMemory),
        Err(_) => Ok(None),
    }
}

/// Ends the last line of a text with a line feed, if it lacks one.
pub(crate) fn end_text<A: Allocator>(text: &mut Vec<u8, A>) -> Result<(), AllocError> {
    match text.last() {
        None | Some(b'\n') => Ok(()),
        Some(_) => text.extend_from_slice(b"\n"),
    }
}

/// A text, followed by comments that say what is missing and, if what is written depends on what the program was seen
/// to do, in which runs that was seen.
fn with_remarks<A: Allocator + Copy>(
    alloc: A,
    text: &[u8],
    lack: InconclusiveReason,
    seen: Option<ObservedRuns>,
    unfollowed: &WordSet,
) -> Result<Vec<u8, A>, AllocError> {
    let mut more = copy_of(alloc, text)?;
    end_text(&mut more)?;
    push_remarks(&mut more, lack, seen, unfollowed)?;
    Ok(more)
}

/// What is written for a text that extends a declaration if no certificate is found: the text, with comments after it if
/// there is room for them.
fn lacking<A: Allocator + Copy>(
    alloc: A,
    given: &ParsedDeclaration<A>,
    proposal: &Proposal<A>,
    text: &[u8],
    lack: InconclusiveReason,
    seen: Option<ObservedRuns>,
) -> Result<CommandResult<A>, Fault>
    requires { IsFit given.now.text.items (meaning given.now.declaration)
        (meaning proposal.now.declaration) text.now }
    ensures completes { (image : List (Option ℕ)) → IfOk result (λ c. CompletesBy
        given.now.text.items image (meaning given.now.declaration)
        (meaning proposal.now.declaration) c.status c.text.items) }
    ensures faults { IfErr result IsMemoryFault }
{
    let status = Status::Refused;
    let more = with_remarks(alloc, text, lack, seen, &proposal.unfollowed)?;
    let bytes = given.text.as_slice();
    match extension(
        alloc,
        bytes,
        &given.declaration,
        &proposal.declaration,
        &more,
    )? {
        Some(_found) => Ok(CommandResult { text: more, status }),
        None => {
            let text = copy_of(alloc, text)?;
            Ok(CommandResult { text, status })
        }
    }
}

/// The text that completes a declaration for which no certificate is found, with what is proposed for the tape. If
/// nothing is added, nothing depends on what runs did.
fn completed<A: Allocator + Copy>(
    alloc: A,
    image: &Image,
    given: &ParsedDeclaration<A>,
    lack: InconclusiveReason,
    proposal: &Proposal<A>,
) -> Result<CommandResult<A>, Fault>
    requires { Declares given.now.text.items (meaning given.now.declaration) }
    ensures completes { IfOk result (λ c. CompletesBy given.now.text.items image.now
        (meaning given.now.declaration) (meaning proposal.now.declaration) c.status c.text.items) }
    ensures faults { IfErr result IsMemoryFault }
{
    let bytes = given.text.as_slice();
    let declared = &given.declaration;
    let proposed = &proposal.declaration;
    let text = merged(alloc, bytes, declared, proposed)?;
    let Some(more) = extension(alloc, bytes, declared, proposed, &text)? else {
        return lacking(alloc, given, proposal, bytes, lack, None);
    };
    match certificate_for(alloc, image, &more)? {
        Ok(_certificate) => Ok(CommandResult {
            text,
            status: Status::Done,
        }),
        Err(lack) => lacking(alloc, given, proposal, &text, lack, proposal.seen),
    }
}

/// Adds to a declaration what it lacks according to the words of the tape. What it said before is kept: each line stays
/// unchanged, except that the line of a routine may get ranges and offsets, with a comment that names them; other lines
/// come at the end, each with the comment `/ added`. A declaration for which a certificate is found is returned
/// unchanged. The status `Done` means that no run of the program violates what is written. Otherwise the status is
/// `Refused`: no certificate that would show this is found, and comments after the text say why, if there is room for
/// them. What is added is what `declare` proposes for the tape, the start and the machine, except for what has another
/// role already; cells that may be read are added too, if reads are listed and `reads` is set. Which cells these are, and
/// what the comments say, is tested, not proved.
///
/// # Errors
///
/// `Declare` if what is found cannot be declared; `NoMemory` if memory was refused.
pub fn complete<A: Allocator + Copy>(
    alloc: A,
    image: &Image,
    given: ParsedDeclaration<A>,
    reads: bool,
) -> Result<CommandResult<A>, Fault>
    requires { Declares given.text.items (meaning given.declaration) }
    // What is written declares a program, extends the given declaration, and keeps its lines in their order, after which
    // there are only comments and lines that end with `/ added`. Unless that is requested, no reads are added to a list.
    // If the command is done, no run of the program violates what is written.
    ensures completes { IfOk result (λ told. Completes given.text.items reads image.now
        (meaning given.declaration) told.status told.text.items) }
    ensures faults { IfErr result IsProposeFault }
{
    match certificate_for(alloc, image, &given.declaration)? {
        Ok(_certificate) => {
            let ParsedDeclaration { text, .. } = given;
            let status = Status::Done;
            Ok(CommandResult { text, status })
        }
        Err(lack) => {
            let options = DeclareOptions {
                start: given.declaration.start(),
                profile: given.declaration.profile(),
                reads: reads && given.declaration.reads_listed(),
            };
            let mut turns = Turns::new(MOST_TURNS);
            let proposal = proposal_for(alloc, image, &options, &mut turns)?;
            completed(alloc, image, &given, lack, &proposal)
        }
    }
}
