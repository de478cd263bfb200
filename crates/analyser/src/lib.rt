//! Guesses at why a program is safe: certificates, which `judge` then tests.
#![tactic(auto)]

ghost use Rattle.std.specs.Prelude.{◌≡◌, ◌≢◌, ◌≤◌, IfErr, IfOk};
ghost use Rattle.declaration.specs.DeclarationInCode.{meaning as declared};
ghost use Rattle.certificate_lines.specs.CertificateInCode.{meaning};
ghost use Rattle.certificate.specs.Exact.{AreLines};
ghost use Rattle.certificate_lines.specs.declared.Version.TheVariants.{Three};
ghost use Rattle.turns.specs.Counts.{IsSpentUp};
ghost use Rattle.turns.specs.declared.GuessFault.TheVariants.{TurnsSpent};
ghost use Rattle.analyser.specs.Accepted.{Finds, IsAccepted};
ghost use Rattle.analyser.specs.Attempts.{HasVersion, HasVersionFor, IsAcceptedIfFound, IsDraftIfStuck, claimed_by};
ghost use Rattle.analyser.specs.Versions.{IsVersionFor, version_of};

mod draft;
mod sums;

use crate::draft::{Draft, is_draft};
use crate::sums::found_by_sums;
use bin_tape::Image;
use certificate::Certificate;
use certificate_lines::Version;
use declaration::Declaration;
use fixpoint::{AnalysedProgram, PATIENCES, Patience, SETTINGS, Search, SearchFault};
use instruct::Profile;
use judge::{JudgeWorkspace, judge};
use std::alloc::Allocator;
pub use turns::{GuessFault, Turns};
use word12::Word;

/// The turns that `guess` has.
const MOST_TURNS: u32 = 2_000_000;

/// What a search came to.
#[derive(Drop)]
pub enum Attempt<A: Allocator> {
    /// This certificate is found, which the judge accepts.
    Found(Certificate<A>),
    /// At this address an instruction was met that the judge would refuse. The draft has what was
    /// found until then, and lacks what was not come to.
    Stuck(Word, Certificate<A>),
}

/// The version of the certificates for a machine.
fn version_of(profile: Profile) -> Version
    ensures { result ≡ version_of profile }
{
    match profile {
        Profile::Pdp8I => Version::One,
        Profile::Pdp8E => Version::Two,
    }
}

/// A certificate, if the judge accepts it; else it becomes the lent draft.
fn accepted<A: Allocator + Copy, D: Allocator>(
    alloc: A,
    image: &Image,
    declaration: &Declaration<D>,
    certificate: Certificate<A>,
    draft: &mut Option<Draft<A>>,
) -> Result<Certificate<A>, GuessFault>
    ensures same { IfOk result (λ c. c ≡ certificate) }
    ensures accepted { IfOk result (IsAccepted image.now declaration.now) }
    ensures left { IfErr result (λ fault. fault ≢ TurnsSpent) }
{
    let Ok(mut rooms) = JudgeWorkspace::boxed(alloc) else {
        return Err(GuessFault::NoMemory);
    };
    match judge(image, declaration, &certificate, &mut rooms) {
        Ok(()) => Ok(certificate),
        Err(refusal) => {
            let at = refusal.address;
            *draft = Some(Draft { at, certificate });
            Err(GuessFault::Stuck(at))
        }
    }
}

/// Searches in one way, and gives the certificate of what was found.
fn found_with<A: Allocator + Copy, D: Allocator>(
    alloc: A,
    search: &mut Search<A>,
    program: &AnalysedProgram<'_, D>,
    version: Version,
    patience: &Patience,
    turns: &mut Turns,
) -> Result<Certificate<A>, GuessFault>
    ensures { Finds program.now.image.now program.now.declaration.now version turns.old turns.new
        result }
{
    search.run_with(program, patience, turns)?;
    match search.finish(program, version) {
        Ok(certificate) => {
            let mut refused = None;
            let (image, declaration) = (program.image, program.declaration);
            accepted(alloc, image, declaration, certificate, &mut refused)
        }
        Err(halt) => Err(halt.fault()),
    }
}

/// Searches, first quickly, and more and more patiently where no certificate is found that the judge accepts; gives the certificate
/// of what was found.
fn found_by<A: Allocator + Copy, D: Allocator>(
    alloc: A,
    search: &mut Search<A>,
    program: &AnalysedProgram<'_, D>,
    version: Version,
    turns: &mut Turns,
) -> Result<Certificate<A>, GuessFault>
    ensures { Finds program.now.image.now program.now.declaration.now version turns.old turns.new
        result }
{
    turns.are_within();
    let mut stuck = program.declaration.start();
    for patience in &PATIENCES {
        let found = found_with(alloc, search, program, version, patience, turns);
        let Err(GuessFault::Stuck(at)) = &found else {
            return found;
        };
        stuck = *at;
    }
    Err(GuessFault::Stuck(stuck))
}

/// Searches, and gives the certificate of what was found. If a text is too long to be read again and no other is found, one more
/// search fills all sets.
fn found_within<A: Allocator + Copy, D: Allocator>(
    alloc: A,
    search: &mut Search<A>,
    program: &AnalysedProgram<'_, D>,
    version: Version,
    turns: &mut Turns,
) -> Result<Certificate<A>, GuessFault>
    ensures { Finds program.now.image.now program.now.declaration.now version turns.old turns.new
        result }
{
    turns.are_within();
    let found = found_by(alloc, search, program, version, turns);
    let Err(GuessFault::Stuck(_)) = &found else {
        return found;
    };
    if !search.has_long_text() {
        return found;
    }
    let filled = AnalysedProgram::of(program.image, program.declaration, SETTINGS.fewest_runs);
    found_by(alloc, search, &filled, version, turns)
}

/// Where a search is stuck: where its draft is, if there is one, else where the first search is.
fn stuck_at<A: Allocator>(draft: &Option<Draft<A>>, first: Word) -> Word {
    match draft {
        Some(found) => found.at,
        None => first,
    }
}

/// What a search found, or where it is stuck a certificate of version 3, if one is found; else where the search for that one has
/// its draft, or where the first search is stuck.
fn or_by_sums<A: Allocator + Copy, D: Allocator>(
    alloc: A,
    image: &Image,
    declaration: &Declaration<D>,
    found: Result<Certificate<A>, GuessFault>,
    draft: &mut Option<Draft<A>>,
    turns: &mut Turns,
) -> Result<Certificate<A>, GuessFault>
    requires lines { IfOk found (λ c. AreLines (meaning c)) }
    requires version { IfOk found (λ c. (meaning c).version ≡
        version_of (declared declaration.now).profile) }
    requires accepted { IfOk found (IsAccepted image.now declaration.now) }
    requires spent { IfErr found (IsSpentUp turns.old) }
    ensures lines { IfOk result (λ c. AreLines (meaning c)) }
    ensures version { IfOk result (λ c. IsVersionFor
        (declared declaration.now).profile (meaning c).version) }
    ensures accepted { IfOk result (IsAccepted image.now declaration.now) }
    ensures limit { turns.new.limit ≡ turns.old.limit }
    ensures rises { turns.old.spent ≤ turns.new.spent }
    ensures within { turns.new.spent ≤ turns.new.limit }
    ensures spent { IfErr result (IsSpentUp turns.new) }
{
    turns.are_within();
    let Err(GuessFault::Stuck(at)) = &found else {
        return found;
    };
    match found_by_sums(alloc, image, declaration, draft, turns) {
        Ok(certificate) => Ok(certificate),
        Err(GuessFault::NoMemory) => Err(GuessFault::NoMemory),
        Err(_) => Err(GuessFault::Stuck(stuck_at(draft, *at))),
    }
}

/// The draft of a search for version 3 that found nothing.
fn drafted_by_sums<A: Allocator, D: Allocator>(
    image: &Image,
    declaration: &Declaration<D>,
    draft: Draft<A>,
) -> Result<Attempt<A>, GuessFault>
    ensures lines { IfOk result (λ a. AreLines (meaning (claimed_by a))) }
    ensures version { IfOk result (λ a. (meaning (claimed_by a)).version ≡ Three) }
    ensures accepted { IfOk result (IsAcceptedIfFound image.now declaration.now) }
    ensures draft { IfOk result (IsDraftIfStuck (declared declaration.now)) }
    ensures left { IfErr result (λ fault. fault ≢ TurnsSpent) }
{
    let _words = image;
    let Draft { at, certificate } = draft;
    certificate.is_certificate();
    match certificate.version() {
        Version::Three if is_draft(declaration, &certificate, at) => {
            Ok(Attempt::Stuck(at, certificate))
        }
        _ => Err(GuessFault::Stuck(at)),
    }
}

/// The draft of a search that found nothing, if it is stuck and there is one; else its fault.
fn drafted_by<A: Allocator + Copy, D: Allocator>(
    search: &mut Search<A>,
    program: &AnalysedProgram<'_, D>,
    version: Version,
    fault: &GuessFault,
) -> Result<Attempt<A>, GuessFault>
    ensures lines { IfOk result (λ a. AreLines (meaning (claimed_by a))) }
    ensures version { IfOk result (λ a. (meaning (claimed_by a)).version ≡ version) }
    ensures accepted { IfOk result
        (IsAcceptedIfFound program.now.image.now program.now.declaration.now) }
    ensures draft { IfOk result (IsDraftIfStuck (declared program.now.declaration.now)) }
    ensures spent { IfErr result (λ f. f ≡ TurnsSpent → fault.now ≡ TurnsSpent) }
{
    let GuessFault::Stuck(at) = fault else {
        return Err(*fault);
    };
    match search.draft(program, version) {
        Ok(draft) if is_draft(program.declaration, &draft, *at) => Ok(Attempt::Stuck(*at, draft)),
        Ok(_) | Err(SearchFault::Stuck(_)) => Err(*fault),
        Err(SearchFault::NoMemory) => Err(GuessFault::NoMemory),
    }
}

/// Looks for facts, exits and written sets that show a tape's words safe under a declaration. What is found
/// is a certificate that the judge accepts, of version 1 for a PDP-8/I and of version 2 for a PDP-8/E, or of
/// version 3 where none of these is found: no run of the program violates the declaration. That one is found
/// is not promised. A turn is one `post`, taken right before it.
///
/// # Errors
///
/// `TurnsSpent` with all turns spent; `Stuck` at an instruction that the judge would refuse, at the
/// least of the calls that go round in a circle, or where the judge refuses what was found; and
/// `NoMemory`.
pub fn guess_within<A: Allocator + Copy, D: Allocator>(
    alloc: A,
    image: &Image,
    declaration: &Declaration<D>,
    turns: &mut Turns,
) -> Result<Certificate<A>, GuessFault>
    // The judge accepts it, so the program is safe.
    ensures accepted { IfOk result (IsAccepted image.now declaration.now) }
    ensures lines { IfOk result (λ c. AreLines (meaning c)) }
    ensures version { IfOk result (λ c. IsVersionFor
        (declared declaration.now).profile (meaning c).version) }
    ensures limit { turns.new.limit ≡ turns.old.limit }
    ensures rises { turns.old.spent ≤ turns.new.spent }
    ensures within { turns.new.spent ≤ turns.new.limit }
    ensures spent { IfErr result (IsSpentUp turns.new) }
{
    turns.are_within();
    let program = AnalysedProgram::of(image, declaration, SETTINGS.most_runs);
    let mut search = Search::new(alloc);
    let version = version_of(declaration.profile());
    let found = found_within(alloc, &mut search, &program, version, turns);
    let mut draft = None;
    or_by_sums(alloc, image, declaration, found, &mut draft, turns)
}

/// Looks for a guess within 2,000,000 turns, and returns how many were taken.
///
/// # Errors
///
/// As `guess_within`.
pub fn guess_counted<A: Allocator + Copy, D: Allocator>(
    alloc: A,
    image: &Image,
    declaration: &Declaration<D>,
) -> (Result<Certificate<A>, GuessFault>, Turns)
    // The judge accepts it, so the program is safe.
    ensures accepted { IfOk result.0 (IsAccepted image.now declaration.now) }
    ensures lines { IfOk result.0 (λ c. AreLines (meaning c)) }
    ensures version { IfOk result.0 (λ c. IsVersionFor
        (declared declaration.now).profile (meaning c).version) }
    // There are 2,000,000 turns, and only if all are spent is it told that they are.
    ensures limit { result.1.limit ≡ 2000000 }
    ensures within { result.1.spent ≤ result.1.limit }
    ensures spent { IfErr result.0 (IsSpentUp result.1) }
{
    let mut turns = Turns::new(MOST_TURNS);
    let found = guess_within(alloc, image, declaration, &mut turns);
    (found, turns)
}

/// Looks for a guess within 2,000,000 turns, as `guess_counted` does.
///
/// # Errors
///
/// As `guess_within`.
pub fn guess<A: Allocator + Copy, D: Allocator>(
    alloc: A,
    image: &Image,
    declaration: &Declaration<D>,
) -> Result<Certificate<A>, GuessFault>
    // The judge accepts it, so the program is safe.
    ensures accepted { IfOk result (IsAccepted image.now declaration.now) }
    ensures lines { IfOk result (λ c. AreLines (meaning c)) }
    ensures version { IfOk result (λ c. IsVersionFor
        (declared declaration.now).profile (meaning c).version) }
{
    let (found, _turns) = guess_counted(alloc, image, declaration);
    found
}

/// Looks for a guess as `guess_within` does, and gives a draft of one where it is stuck: a certificate
/// of what was found until then, which says what is known where it is stuck.
///
/// # Errors
///
/// As `guess_within`, and `Stuck` where there is no draft, which no clause excludes.
pub fn guess_or_draft_within<A: Allocator + Copy, D: Allocator>(
    alloc: A,
    image: &Image,
    declaration: &Declaration<D>,
    turns: &mut Turns,
) -> Result<Attempt<A>, GuessFault>
    // The judge accepts what is found.
    ensures accepted { IfOk result (IsAcceptedIfFound image.now declaration.now) }
    // A draft's facts stand in bodies and its routine and exit lines at entries, and it has a fact
    // where it is stuck, or an exit of the routine of this entry.
    ensures draft { IfOk result (IsDraftIfStuck (declared declaration.now)) }
    ensures lines { IfOk result (λ a. AreLines (meaning (claimed_by a))) }
    ensures version { IfOk result (HasVersionFor
        (declared declaration.now).profile) }
    ensures limit { turns.new.limit ≡ turns.old.limit }
    ensures rises { turns.old.spent ≤ turns.new.spent }
    ensures within { turns.new.spent ≤ turns.new.limit }
    ensures spent { IfErr result (IsSpentUp turns.new) }
{
    turns.are_within();
    let program = AnalysedProgram::of(image, declaration, SETTINGS.most_runs);
    let mut search = Search::new(alloc);
    let version = version_of(declaration.profile());
    let found = found_within(alloc, &mut search, &program, version, turns);
    let mut draft = None;
    match or_by_sums(alloc, image, declaration, found, &mut draft, turns) {
        Ok(certificate) => Ok(Attempt::Found(certificate)),
        Err(GuessFault::NoMemory) => Err(GuessFault::NoMemory),
        Err(fault) => match draft {
            Some(found) => drafted_by_sums(image, declaration, found),
            None => drafted_by(&mut search, &program, version, &fault),
        },
    }
}

/// Looks for a guess, or a draft of one, within 2,000,000 turns, and returns how many were taken.
///
/// # Errors
///
/// As `guess_or_draft_within`.
pub fn guess_or_draft_counted<A: Allocator + Copy, D: Allocator>(
    alloc: A,
    image: &Image,
    declaration: &Declaration<D>,
) -> (Result<Attempt<A>, GuessFault>, Turns)
    // The judge accepts what is found.
    ensures accepted { IfOk result.0 (IsAcceptedIfFound image.now declaration.now) }
    // A draft's facts stand in bodies and its routine and exit lines at entries, and it has a fact
    // where it is stuck, or an exit of the routine of this entry.
    ensures draft { IfOk result.0 (IsDraftIfStuck (declared declaration.now)) }
    ensures lines { IfOk result.0 (λ a. AreLines (meaning (claimed_by a))) }
    ensures version { IfOk result.0 (HasVersionFor
        (declared declaration.now).profile) }
    // There are 2,000,000 turns, and only if all are spent is it told that they are.
    ensures limit { result.1.limit ≡ 2000000 }
    ensures within { result.1.spent ≤ result.1.limit }
    ensures spent { IfErr result.0 (IsSpentUp result.1) }
{
    let mut turns = Turns::new(MOST_TURNS);
    let attempt = guess_or_draft_within(alloc, image, declaration, &mut turns);
    (attempt, turns)
}

/// Looks for a guess, or a draft of one, within 2,000,000 turns, as `guess_or_draft_counted` does.
///
/// # Errors
///
/// As `guess_or_draft_within`.
pub fn guess_or_draft<A: Allocator + Copy, D: Allocator>(
    alloc: A,
    image: &Image,
    declaration: &Declaration<D>,
) -> Result<Attempt<A>, GuessFault>
    // The judge accepts what is found.
    ensures accepted { IfOk result (IsAcceptedIfFound image.now declaration.now) }
    // A draft's facts stand in bodies and its routine and exit lines at entries, and it has a fact
    // where it is stuck, or an exit of the routine of this entry.
    ensures draft { IfOk result (IsDraftIfStuck (declared declaration.now)) }
    ensures lines { IfOk result (λ a. AreLines (meaning (claimed_by a))) }
    ensures version { IfOk result (HasVersionFor
        (declared declaration.now).profile) }
{
    let (attempt, _turns) = guess_or_draft_counted(alloc, image, declaration);
    attempt
}

/// Looks for a certificate of one version within 2,000,000 turns.
///
/// # Errors
///
/// As `guess_within`.
pub fn guess_version<A: Allocator + Copy, D: Allocator>(
    alloc: A,
    image: &Image,
    declaration: &Declaration<D>,
    version: Version,
) -> Result<Certificate<A>, GuessFault>
    // The judge accepts it, so the program is safe.
    ensures accepted { IfOk result (IsAccepted image.now declaration.now) }
    ensures lines { IfOk result (λ c. AreLines (meaning c)) }
    ensures version { IfOk result (λ c. (meaning c).version ≡ version) }
{
    let mut turns = Turns::new(MOST_TURNS);
    if version == Version::Three {
        let mut draft = None;
        return found_by_sums(alloc, image, declaration, &mut draft, &mut turns);
    }
    let program = AnalysedProgram::of(image, declaration, SETTINGS.most_runs);
    let mut search = Search::new(alloc);
    found_within(alloc, &mut search, &program, version, &mut turns)
}

/// Looks for a certificate of version 1 or 2, or for the draft of one where the search is stuck.
fn found_or_drafted<A: Allocator + Copy, D: Allocator>(
    alloc: A,
    image: &Image,
    declaration: &Declaration<D>,
    version: Version,
    turns: &mut Turns,
) -> Result<Attempt<A>, GuessFault>
    ensures accepted { IfOk result (IsAcceptedIfFound image.now declaration.now) }
    ensures draft { IfOk result (IsDraftIfStuck (declared declaration.now)) }
    ensures lines { IfOk result (λ a. AreLines (meaning (claimed_by a))) }
    ensures version { IfOk result (λ a. (meaning (claimed_by a)).version ≡ version) }
{
    let program = AnalysedProgram::of(image, declaration, SETTINGS.most_runs);
    let mut search = Search::new(alloc);
    match found_within(alloc, &mut search, &program, version, turns) {
        Ok(certificate) => Ok(Attempt::Found(certificate)),
        Err(fault) => drafted_by(&mut search, &program, version, &fault),
    }
}

/// Looks for a certificate of one version as `guess_version` does, and gives a draft of one where it is stuck.
///
/// # Errors
///
/// As `guess_or_draft_within`.
pub fn guess_version_or_draft<A: Allocator + Copy, D: Allocator>(
    alloc: A,
    image: &Image,
    declaration: &Declaration<D>,
    version: Version,
) -> Result<Attempt<A>, GuessFault>
    // The judge accepts what is found.
    ensures accepted { IfOk result (IsAcceptedIfFound image.now declaration.now) }
    // A draft's facts stand in bodies and its routine and exit lines at entries, and it has a fact
    // where it is stuck, or an exit of the routine of this entry.
    ensures draft { IfOk result (IsDraftIfStuck (declared declaration.now)) }
    ensures lines { IfOk result (λ a. AreLines (meaning (claimed_by a))) }
    ensures version { IfOk result (HasVersion (declared declaration.now).profile version) }
{
    let mut turns = Turns::new(MOST_TURNS);
    if version != Version::Three {
        return found_or_drafted(alloc, image, declaration, version, &mut turns);
    }
    let mut draft = None;
    match found_by_sums(alloc, image, declaration, &mut draft, &mut turns) {
        Ok(certificate) => Ok(Attempt::Found(certificate)),
        Err(GuessFault::NoMemory) => Err(GuessFault::NoMemory),
        Err(fault) => match draft {
            Some(found) => drafted_by_sums(image, declaration, found),
            None => Err(fault),
        },
    }
}
