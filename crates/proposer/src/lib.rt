//! Proposes declarations: what a program may do, from its tape and its start alone.
#![tactic(auto)]

ghost use Rattle.std.specs.Prelude.{ℕ, ◌≡◌, ◌≢◌, ◌≤◌, List, Option, IfOk, IfErr, None, is_some, true};
ghost use Rattle.analyser.specs.Versions.{IsVersionFor};
ghost use Rattle.turns.specs.declared.GuessFault.TheVariants as guess_fault;
ghost use Rattle.certificate_lines.specs.CertificateInCode as certified;
ghost use Rattle.certificate.specs.Exact.{AreLines};
ghost use Rattle.declaration.specs.DeclarationInCode.{Kept, meaning, routines_of};
ghost use Rattle.declaration.specs.Text.{Declares, ListsRoutines};
ghost use Rattle.judge.specs.Judged.{judged};
ghost use Rattle.proposer.specs.declared.Verdict.TheVariants.{TurnsSpent};
ghost use Rattle.proposer.specs.Proposals.{Fits, IsListed, IsShown, IsSpentUp, IsTold, is_safe};

mod evidence;
mod learning;
mod obstacles;
mod sketch;
mod variables;
mod widening;
mod width;

use crate::variables::{fewer_variables, read};
use analyser::guess_within;
use bin_tape::Image;
use certificate::Certificate;
pub use control_flow::ObservedRuns;
use control_flow::{Findings, Map, Tape, VariableSelection, explore_runs, push_reads};
use declaration::{Declaration, DeclarationFault};
pub use evidence::Evidence;
use instruct::Profile;
use judge::{JudgeWorkspace, judge};
pub use learning::Obstacle;
use std::alloc::Allocator;
pub use turns::{GuessFault, ProposeFault, Turns};
pub use widening::{Widening, widened};
pub use width::{is_alike, keeps_cells};
use word12::Word;
use wordset::WordSet;

/// How often the variables are cut down at most.
const MOST_CUTS: usize = 16;

/// What is known of a proposed declaration.
#[derive(Drop)]
pub enum Verdict<A: Allocator> {
    /// No run of the program breaks it, as this certificate shows, which the judge accepts.
    Safe(Certificate<A>),
    /// No certificate is found: at this address an instruction was met that the judge would refuse.
    Stuck(Word),
    /// No certificate is found with all turns that there were.
    TurnsSpent,
}

/// A proposed declaration, its text, and what is known of it.
#[derive(Drop)]
pub struct Proposal<A: Allocator> {
    /// The declaration.
    pub declaration: Declaration<A>,
    /// Its text.
    pub text: Vec<u8, A>,
    /// The addresses at which control goes where it is not known, or to what cannot be in the body, or
    /// where an unsupported word stands. There the declaration stops short.
    pub unfollowed: WordSet,
    /// In which runs it was seen what the program does, if it was.
    pub seen: Option<ObservedRuns>,
    /// What is known of the declaration.
    pub verdict: Verdict<A>,
}

/// Proposes what a program may do, from a tape's words, the start and the machine alone.
///
/// Control is followed from the start: a JMS names a routine, whose body is what is reached from behind its entry; a
/// JMP I through its own entry returns, by as much as ISZ counted the entry up on the way. A HLT is a pause where what
/// comes after it is code, else a stop. A pointer that no instruction stores in is taken to keep its word; another may
/// hold each word of a table behind which there is code. The variables are first the cells that instructions store in
/// by name, or all that may be data; and then, where a certificate is found, only those that some step may write by the
/// facts of a certificate.
///
/// # Errors
///
/// `Undeclarable` where what was found violates a limit or a rule of declarations, as one of more than 64 routines;
/// `Mismatch` where it is not what was asked, or no certificate shows that fewer variables are enough; and `NoMemory`. That no certificate is found is no error: the verdict
/// tells it.
pub fn propose<A: Allocator + Copy>(
    alloc: A,
    image: &Image,
    start: Word,
    profile: Profile,
    turns: &mut Turns,
) -> Result<Proposal<A>, ProposeFault>
    ensures fits { IfOk result (Fits start profile) }
    ensures shown { IfOk result (λ p. IsShown image.now p.declaration p.verdict) }
    ensures unlisted { IfOk result (λ p. (meaning p.declaration).reads ≡ None) }
    ensures spent { IfOk result (λ p. IsSpentUp turns.new p.verdict) }
    ensures faults { IfErr result IsTold }
    ensures limit { turns.new.limit ≡ turns.old.limit }
    ensures rises { turns.old.spent ≤ turns.new.spent }
    ensures within { turns.new.spent ≤ turns.new.limit }
{
    let tape = Tape::of(image);
    let map = Map::of(&tape, start, profile);
    let proposal = broadened(alloc, &tape, &map, turns)?;
    if proposal.is_safe() {
        return cut_down(alloc, &tape, &map, proposal, turns);
    }
    match explore_runs(alloc, image, &map) {
        Ok(None) => Ok(proposal),
        Ok(Some(mut found)) => {
            // No run changes these, and so it needs no proof.
            found.map.start = start;
            found.map.profile = profile;
            by_runs(alloc, image, proposal, &found, turns)
        }
        Err(_) => Err(ProposeFault::NoMemory),
    }
}

/// The proposal by what runs were seen to do; another one where that cannot be declared.
fn by_runs<'x, A: Allocator + Copy>(
    alloc: A,
    image: &'x Image,
    proposal: Proposal<A>,
    found: &'x Findings<A>,
    turns: &mut Turns,
) -> Result<Proposal<A>, ProposeFault>
    requires fits { Fits found.now.map.start found.now.map.profile proposal }
    requires shown { IsShown image.now proposal.declaration proposal.verdict }
    requires unlisted { (meaning proposal.declaration).reads ≡ None }
    requires spent { IsSpentUp turns.old proposal.verdict }
    ensures fits { IfOk result (Fits found.now.map.start found.now.map.profile) }
    ensures shown { IfOk result (λ p. IsShown image.now p.declaration p.verdict) }
    ensures unlisted { IfOk result (λ p. (meaning p.declaration).reads ≡ None) }
    ensures spent { IfOk result (λ p. IsSpentUp turns.new p.verdict) }
    ensures faults { IfErr result IsTold }
    ensures limit { turns.new.limit ≡ turns.old.limit }
    ensures rises { turns.old.spent ≤ turns.new.spent }
    ensures within { turns.new.spent ≤ turns.new.limit }
{
    turns.are_within();
    let tape = found.tape(image);
    match attempt(alloc, &tape, &found.map, &found.variables, turns) {
        Ok(seen) => cut_down(alloc, &tape, &found.map, seen, turns),
        Err(ProposeFault::NoMemory) => Err(ProposeFault::NoMemory),
        Err(_) => Ok(proposal),
    }
}

/// Proposes what a program may do as [`propose`] does, and lists the cells that it may read by the facts
/// of the certificate, if one is found.
///
/// # Errors
///
/// Those of `propose`.
pub fn propose_with_reads<A: Allocator + Copy>(
    alloc: A,
    image: &Image,
    start: Word,
    profile: Profile,
    turns: &mut Turns,
) -> Result<Proposal<A>, ProposeFault>
    ensures fits { IfOk result (Fits start profile) }
    ensures shown { IfOk result (λ p. IsShown image.now p.declaration p.verdict) }
    // Where a certificate is found that the judge accepts there is a list of reads, and where none is
    // found there is none.
    ensures listed { IfOk result (λ p. IsListed p.declaration p.verdict) }
    ensures spent { IfOk result (λ p. IsSpentUp turns.new p.verdict) }
    ensures faults { IfErr result IsTold }
    ensures limit { turns.new.limit ≡ turns.old.limit }
    ensures rises { turns.old.spent ≤ turns.new.spent }
    ensures within { turns.new.spent ≤ turns.new.limit }
{
    let proposal = propose(alloc, image, start, profile, turns)?;
    let Proposal {
        declaration,
        mut text,
        unfollowed,
        seen,
        verdict,
    } = proposal;
    match verdict {
        Verdict::Safe(certificate) => {
            let cells = read(image, &declaration, &certificate);
            let listing = relisted(alloc, &mut text, &cells, start, profile)?;
            listing.is_declared();
            let verdict = accepted(alloc, image, &listing, certificate)?;
            Ok(Proposal {
                declaration: listing,
                text,
                unfollowed,
                seen,
                verdict,
            })
        }
        verdict => Ok(Proposal {
            declaration,
            text,
            unfollowed,
            seen,
            verdict,
        }),
    }
}

/// Adds a list of reads to a declaration's text, and gives what it declares then.
fn relisted<A: Allocator + Copy>(
    alloc: A,
    text: &mut Vec<u8, A>,
    cells: &WordSet,
    start: Word,
    profile: Profile,
) -> Result<Declaration<A>, ProposeFault>
    ensures start { IfOk result (λ d. (meaning d).start ≡ start) }
    ensures profile { IfOk result (λ d. (meaning d).profile ≡ profile) }
    ensures text { IfOk result (λ d. Declares text.new.items (meaning d)) }
    ensures routines { IfOk result (λ d. ListsRoutines text.new.items (routines_of d)) }
    ensures listed { IfOk result (λ d. is_some (meaning d).reads ≡ true) }
    ensures faults { IfErr result IsTold }
{
    let Ok(()) = push_reads(text, cells) else {
        return Err(ProposeFault::NoMemory);
    };
    match Declaration::parse(alloc, text) {
        Ok(declaration) if is_asked(&declaration, start, profile) && declaration.reads_listed() => {
            Ok(declaration)
        }
        Ok(_) => Err(ProposeFault::Mismatch),
        Err(fault) => Err(refused(fault)),
    }
}

/// The proposal with the fewest variables of those that may be enough, or with the most.
fn broadened<A: Allocator + Copy>(
    alloc: A,
    tape: &Tape<'_>,
    map: &Map,
    turns: &mut Turns,
) -> Result<Proposal<A>, ProposeFault>
    ensures fits { IfOk result (Fits map.now.start map.now.profile) }
    ensures shown { IfOk result (λ p. IsShown tape.now.image.now p.declaration p.verdict) }
    ensures unlisted { IfOk result (λ p. (meaning p.declaration).reads ≡ None) }
    ensures spent { IfOk result (λ p. IsSpentUp turns.new p.verdict) }
    ensures faults { IfErr result IsTold }
    ensures limit { turns.new.limit ≡ turns.old.limit }
    ensures rises { turns.old.spent ≤ turns.new.spent }
    ensures within { turns.new.spent ≤ turns.new.limit }
{
    if !map.stores_anywhere() {
        let cells = map.variables(tape.image, VariableSelection::Stored);
        let proposal = attempt(alloc, tape, map, &cells, turns)?;
        if !proposal.is_stuck() || !map.changes_code() {
            return Ok(proposal);
        }
    }
    let cells = map.variables(tape.image, VariableSelection::Tables);
    let proposal = attempt(alloc, tape, map, &cells, turns)?;
    if !proposal.is_stuck() {
        return Ok(proposal);
    }
    let cells = map.variables(tape.image, VariableSelection::Data);
    attempt(alloc, tape, map, &cells, turns)
}

/// A proposal with only those variables that some step may write by the facts of its certificate: of one that is found for
/// them or, if none is found, of the one that there is.
fn cut_down<A: Allocator + Copy>(
    alloc: A,
    tape: &Tape<'_>,
    map: &Map,
    proposal: Proposal<A>,
    turns: &mut Turns,
) -> Result<Proposal<A>, ProposeFault>
    requires fits { Fits map.now.start map.now.profile proposal }
    requires shown { IsShown tape.now.image.now proposal.declaration proposal.verdict }
    requires unlisted { (meaning proposal.declaration).reads ≡ None }
    requires spent { IsSpentUp turns.old proposal.verdict }
    ensures fits { IfOk result (Fits map.now.start map.now.profile) }
    ensures shown { IfOk result (λ p. IsShown tape.now.image.now p.declaration p.verdict) }
    // Of a proposal with a certificate one with a certificate is made, also where turns run out.
    ensures safe { IfOk result (λ p. is_safe proposal.verdict ≡ true → is_safe p.verdict ≡ true) }
    ensures unlisted { IfOk result (λ p. (meaning p.declaration).reads ≡ None) }
    ensures spent { IfOk result (λ p. IsSpentUp turns.new p.verdict) }
    ensures faults { IfErr result IsTold }
    ensures limit { turns.new.limit ≡ turns.old.limit }
    ensures rises { turns.old.spent ≤ turns.new.spent }
    ensures within { turns.new.spent ≤ turns.new.limit }
{
    turns.are_within();
    let mut proposal = proposal;
    for _cut in 0..MOST_CUTS {
        let Some(cells) = proposal.spare(tape.image) else {
            return Ok(proposal);
        };
        proposal = tightened(alloc, tape, map, &cells, proposal, turns)?;
    }
    match proposal.spare(tape.image) {
        None => Ok(proposal),
        Some(_) => Err(ProposeFault::Mismatch),
    }
}

/// The proposal with these variables: with a certificate that is found for them or, if none is found, with that of another
/// proposal.
fn tightened<A: Allocator + Copy>(
    alloc: A,
    tape: &Tape<'_>,
    map: &Map,
    variables: &WordSet,
    given: Proposal<A>,
    turns: &mut Turns,
) -> Result<Proposal<A>, ProposeFault>
    requires profile { (meaning given.declaration).profile ≡ map.now.profile }
    requires shown { IsShown tape.now.image.now given.declaration given.verdict }
    ensures fits { IfOk result (Fits map.now.start map.now.profile) }
    ensures shown { IfOk result (λ p. IsShown tape.now.image.now p.declaration p.verdict) }
    ensures safe { IfOk result (λ p. is_safe p.verdict ≡ true) }
    ensures unlisted { IfOk result (λ p. (meaning p.declaration).reads ≡ None) }
    ensures spent { IfOk result (λ p. IsSpentUp turns.new p.verdict) }
    ensures faults { IfErr result IsTold }
    ensures limit { turns.new.limit ≡ turns.old.limit }
    ensures rises { turns.old.spent ≤ turns.new.spent }
    ensures within { turns.new.spent ≤ turns.new.limit }
{
    let tighter = attempt(alloc, tape, map, variables, turns)?;
    if tighter.is_safe() {
        return Ok(tighter);
    }
    narrowed(alloc, tape, map, variables, given)
}

/// The proposal with these variables and with the certificate of another one, which the judge has to accept for it.
fn narrowed<A: Allocator + Copy>(
    alloc: A,
    tape: &Tape<'_>,
    map: &Map,
    variables: &WordSet,
    given: Proposal<A>,
) -> Result<Proposal<A>, ProposeFault>
    requires profile { (meaning given.declaration).profile ≡ map.now.profile }
    requires shown { IsShown tape.now.image.now given.declaration given.verdict }
    ensures fits { IfOk result (Fits map.now.start map.now.profile) }
    ensures shown { IfOk result (λ p. IsShown tape.now.image.now p.declaration p.verdict) }
    ensures safe { IfOk result (λ p. is_safe p.verdict ≡ true) }
    ensures unlisted { IfOk result (λ p. (meaning p.declaration).reads ≡ None) }
    ensures spent { IfOk result (λ p. p.verdict ≢ TurnsSpent) }
    ensures faults { IfErr result IsTold }
{
    let Ok(text) = map.text(alloc, tape, variables) else {
        return Err(ProposeFault::NoMemory);
    };
    let declaration = declared_by(alloc, &text, map)?;
    declaration.is_declared();
    let verdict = verdict_by(alloc, tape.image, &declaration, given)?;
    Ok(Proposal {
        declaration,
        text,
        unfollowed: map.unfollowed(),
        seen: tape.seen(),
        verdict,
    })
}

/// What a text declares that was written for a map.
fn declared_by<A: Allocator + Copy>(
    alloc: A,
    text: &[u8],
    map: &Map,
) -> Result<Declaration<A>, ProposeFault>
    ensures start { IfOk result (λ d. (meaning d).start ≡ map.now.start) }
    ensures profile { IfOk result (λ d. (meaning d).profile ≡ map.now.profile) }
    ensures text { IfOk result (λ d. Declares text.now (meaning d)) }
    ensures routines { IfOk result (λ d. ListsRoutines text.now (routines_of d)) }
    ensures unlisted { IfOk result (λ d. (meaning d).reads ≡ None) }
    ensures faults { IfErr result IsTold }
{
    match Declaration::parse(alloc, text) {
        Ok(declaration) => {
            if !is_asked(&declaration, map.start, map.profile) || declaration.reads_listed() {
                return Err(ProposeFault::Mismatch);
            }
            Ok(declaration)
        }
        Err(fault) => Err(refused(fault)),
    }
}

/// The verdict with the certificate of a proposal for the same machine, if it has one, where the judge accepts it for this
/// declaration.
fn verdict_by<A: Allocator + Copy>(
    alloc: A,
    image: &Image,
    declaration: &Declaration<A>,
    given: Proposal<A>,
) -> Result<Verdict<A>, ProposeFault>
    requires profile { (meaning given.declaration).profile ≡ (meaning declaration.now).profile }
    requires shown { IsShown image.now given.declaration given.verdict }
    ensures shown { IfOk result (IsShown image.now declaration.now) }
    ensures safe { IfOk result (λ v. is_safe v ≡ true) }
    ensures spent { IfOk result (λ v. v ≢ TurnsSpent) }
    ensures faults { IfErr result IsTold }
{
    let Proposal { verdict, .. } = given;
    match verdict {
        Verdict::Safe(certificate) => accepted(alloc, image, declaration, certificate),
        Verdict::Stuck(_) | Verdict::TurnsSpent => Err(ProposeFault::Mismatch),
    }
}

/// The proposal with these variables.
fn attempt<A: Allocator + Copy>(
    alloc: A,
    tape: &Tape<'_>,
    map: &Map,
    variables: &WordSet,
    turns: &mut Turns,
) -> Result<Proposal<A>, ProposeFault>
    ensures fits { IfOk result (Fits map.now.start map.now.profile) }
    ensures shown { IfOk result (λ p. IsShown tape.now.image.now p.declaration p.verdict) }
    ensures unlisted { IfOk result (λ p. (meaning p.declaration).reads ≡ None) }
    ensures spent { IfOk result (λ p. IsSpentUp turns.new p.verdict) }
    ensures faults { IfErr result IsTold }
    ensures limit { turns.new.limit ≡ turns.old.limit }
    ensures rises { turns.old.spent ≤ turns.new.spent }
    ensures within { turns.new.spent ≤ turns.new.limit }
{
    let _spent = turns.spent();
    let Ok(text) = map.text(alloc, tape, variables) else {
        return Err(ProposeFault::NoMemory);
    };
    match Declaration::parse(alloc, &text) {
        Ok(declaration) => proposed(alloc, tape, map, text, declaration, turns),
        Err(fault) => Err(refused(fault)),
    }
}

/// Whether a declaration has the start and is for the machine that were asked.
fn is_asked<A: Allocator>(declaration: &Declaration<A>, start: Word, profile: Profile) -> bool
    ensures start { result ≡ true → (meaning declaration.now).start ≡ start }
    ensures profile { result ≡ true → (meaning declaration.now).profile ≡ profile }
{
    declaration.start() == start && declaration.profile() == profile
}

/// The proposal with this text, which declares this.
fn proposed<A: Allocator + Copy>(
    alloc: A,
    tape: &Tape<'_>,
    map: &Map,
    text: Vec<u8, A>,
    declaration: Declaration<A>,
    turns: &mut Turns,
) -> Result<Proposal<A>, ProposeFault>
    requires text { Declares text.items (meaning declaration) }
    requires routines { ListsRoutines text.items (routines_of declaration) }
    ensures fits { IfOk result (Fits map.now.start map.now.profile) }
    ensures shown { IfOk result (λ p. IsShown tape.now.image.now p.declaration p.verdict) }
    ensures unlisted { IfOk result (λ p. (meaning p.declaration).reads ≡ None) }
    ensures spent { IfOk result (λ p. IsSpentUp turns.new p.verdict) }
    ensures faults { IfErr result IsTold }
    ensures limit { turns.new.limit ≡ turns.old.limit }
    ensures rises { turns.old.spent ≤ turns.new.spent }
    ensures within { turns.new.spent ≤ turns.new.limit }
{
    let _spent = turns.spent();
    declaration.is_declared();
    if !is_asked(&declaration, map.start, map.profile) || declaration.reads_listed() {
        return Err(ProposeFault::Mismatch);
    }
    let verdict = judged(alloc, tape.image, &declaration, turns)?;
    Ok(Proposal {
        declaration,
        text,
        unfollowed: map.unfollowed(),
        seen: tape.seen(),
        verdict,
    })
}

/// The fault of a declaration, as it is told.
fn refused(fault: DeclarationFault) -> ProposeFault
    ensures { IsTold result }
{
    match fault {
        DeclarationFault::NoMemory => ProposeFault::NoMemory,
        fault => ProposeFault::Undeclarable(fault),
    }
}

/// What is known of a declaration.
fn judged<A: Allocator + Copy>(
    alloc: A,
    image: &Image,
    declaration: &Declaration<A>,
    turns: &mut Turns,
) -> Result<Verdict<A>, ProposeFault>
    ensures shown { IfOk result (IsShown image.now declaration.now) }
    ensures spent { IfOk result (IsSpentUp turns.new) }
    ensures faults { IfErr result IsTold }
    ensures limit { turns.new.limit ≡ turns.old.limit }
    ensures rises { turns.old.spent ≤ turns.new.spent }
    ensures within { turns.new.spent ≤ turns.new.limit }
{
    match guess_within(alloc, image, declaration, turns) {
        Ok(certificate) => Ok(Verdict::Safe(certificate)),
        Err(fault) => unfound(fault),
    }
}

/// The verdict with a certificate, where the judge accepts it.
fn accepted<A: Allocator + Copy>(
    alloc: A,
    image: &Image,
    declaration: &Declaration<A>,
    certificate: Certificate<A>,
) -> Result<Verdict<A>, ProposeFault>
    requires lines { AreLines (certified.meaning certificate) }
    requires version { IsVersionFor (meaning declaration.now).profile
        (certified.meaning certificate).version }
    ensures shown { IfOk result (IsShown image.now declaration.now) }
    ensures listed { (d : Kept) → is_some (meaning d).reads ≡ true → IfOk result (IsListed d) }
    ensures safe { IfOk result (λ v. is_safe v ≡ true) }
    ensures spent { IfOk result (λ v. v ≢ TurnsSpent) }
    ensures faults { IfErr result IsTold }
{
    let Ok(mut rooms) = JudgeWorkspace::boxed(alloc) else {
        return Err(ProposeFault::NoMemory);
    };
    match judge(image, declaration, &certificate, &mut rooms) {
        Ok(()) => Ok(Verdict::Safe(certificate)),
        Err(_) => Err(ProposeFault::Mismatch),
    }
}

/// What is known where no certificate is found.
fn unfound<A: Allocator>(fault: GuessFault) -> Result<Verdict<A>, ProposeFault>
    ensures shown { (image : List (Option ℕ)) → (d : Kept) → IfOk result (IsShown image d) }
    ensures spent { IfOk result (λ v. v ≡ TurnsSpent → fault ≡ guess_fault.TurnsSpent) }
    ensures faults { IfErr result IsTold }
{
    match fault {
        GuessFault::Stuck(at) => Ok(Verdict::Stuck(at)),
        GuessFault::TurnsSpent => Ok(Verdict::TurnsSpent),
        GuessFault::NoMemory => Err(ProposeFault::NoMemory),
    }
}

impl<A: Allocator> Proposal<A> {
    /// Whether a certificate is found that the judge accepts.
    fn is_safe(&self) -> bool
        ensures { result ≡ is_safe self.now.verdict }
    {
        matches!(&self.verdict, Verdict::Safe(_))
    }

    /// Whether no certificate is found, though turns are left.
    fn is_stuck(&self) -> bool {
        matches!(&self.verdict, Verdict::Stuck(_))
    }

    /// The variables that some step may write by the facts of the certificate, if there is one and those are not all.
    fn spare(&self, image: &Image) -> Option<WordSet> {
        match &self.verdict {
            Verdict::Safe(certificate) => fewer_variables(image, &self.declaration, certificate),
            Verdict::Stuck(_) | Verdict::TurnsSpent => None,
        }
    }
}
