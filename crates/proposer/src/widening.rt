//! Widens a proposal that a run leaves.

ghost use Rattle.std.specs.Prelude.{◌≡◌, ◌≤◌, IfOk, IfErr, IfSome};
ghost use Rattle.declaration.specs.DeclarationInCode.{meaning};
ghost use Rattle.peripherals.specs.World.{profile_of};
ghost use Rattle.proposer.specs.Proposals.{IsTold};
ghost use Rattle.proposer.specs.Widenings.{HasProfile, IsDrafted, IsTaught, IsWidened, Supersedes};

use crate::evidence::Evidence;
use crate::learning::{Obstacle, Refinement, learn};
use crate::obstacles::is_obstacle;
use crate::sketch::Sketch;
use crate::width::is_as_wide;
use crate::{MOST_CUTS, Proposal, judged};
use bin_tape::Image;
use declaration::{Declaration, DeclarationFault};
use peripherals::{Event, NoMemory, Start};
use policy::Watcher;
use run_search::StepRecord;
use std::alloc::Allocator;
use turns::{ProposeFault, Turns};
use wordset::WordSet;

/// How many steps a run makes at most by itself behind the one that left a proposal.
const MOST_STEPS: u32 = 30_000;

/// What comes of a run that leaves a proposal.
#[derive(Drop)]
pub enum Widening<A: Allocator> {
    /// This one is wider.
    Wider(Proposal<A>),
    /// No declaration allows what runs did.
    Never(Obstacle),
    /// A declaration that allows it, if there is one, says less elsewhere than the proposal.
    Unclear,
}

/// A declaration and its text.
#[derive(Drop)]
struct WrittenDeclaration<A: Allocator> {
    declaration: Declaration<A>,
    text: Vec<u8, A>,
}

/// What is declared after a step of a run, and whether the run goes on.
#[derive(Drop)]
struct DeclarationStep<A: Allocator> {
    draft: WrittenDeclaration<A>,
    goes_on: bool,
}

/// What a step taught.
#[derive(Drop)]
enum RefinementResult<A: Allocator> {
    More(WrittenDeclaration<A>),
    Never(Obstacle),
    Unclear,
}

/// What a sketch says, if it can be declared.
fn draft_of<A: Allocator + Copy>(
    alloc: A,
    image: &Image,
    sketch: &Sketch<A>,
) -> Result<Option<WrittenDeclaration<A>>, NoMemory>
    ensures drafted { IfOk result (λ found. IfSome found IsDrafted) }
{
    let text = sketch.text(alloc, image)?;
    match Declaration::parse(alloc, &text) {
        Ok(declaration) => Ok(Some(WrittenDeclaration { declaration, text })),
        Err(DeclarationFault::NoMemory) => Err(NoMemory),
        Err(_) => Ok(None),
    }
}

/// What the next step of a machine that is watched teaches, which violates a declaration.
fn teach<A: Allocator + Copy>(
    alloc: A,
    image: &Image,
    declaration: &Declaration<A>,
    evidence: &Evidence<A>,
    watcher: &Watcher<A>,
) -> Result<RefinementResult<A>, NoMemory>
    ensures drafted { IfOk result IsTaught }
    ensures profile { IfOk result (HasProfile (meaning declaration.now).profile) }
{
    let mut sketch = Sketch::of(alloc, declaration)?;
    match learn(alloc, image, declaration, evidence, &mut sketch, watcher)? {
        Refinement::Never(obstacle) => return Ok(RefinementResult::Never(obstacle)),
        Refinement::Nothing | Refinement::Unclear => return Ok(RefinementResult::Unclear),
        Refinement::New => {}
    }
    match draft_of(alloc, image, &sketch)? {
        Some(found) if found.declaration.profile() == declaration.profile() => {
            Ok(RefinementResult::More(found))
        }
        _ => Ok(RefinementResult::Unclear),
    }
}

/// Lets the printer and the punch get done.
fn complete<A: Allocator + Copy>(
    watcher: &mut Watcher<A>,
    declaration: &Declaration<A>,
) -> Result<(), NoMemory>
    requires profile { profile_of watcher.old.world ≡ (meaning declaration.now).profile }
    ensures profile { profile_of watcher.new.world ≡ (meaning declaration.now).profile }
{
    let panel = watcher.world().panel();
    if panel.printer.busy {
        watcher.next(declaration, Event::PrinterDone)?;
    }
    if panel.punch.busy {
        watcher.next(declaration, Event::PunchDone)?;
    }
    Ok(())
}

/// What a step teaches by which a run leaves a declaration, and whether the run may go on.
fn widened_by_step<A: Allocator + Copy>(
    alloc: A,
    image: &Image,
    current: WrittenDeclaration<A>,
    evidence: &Evidence<A>,
    watcher: &Watcher<A>,
) -> Result<DeclarationStep<A>, NoMemory>
    requires drafted { IsDrafted current }
    ensures drafted { IfOk result (λ advanced. IsDrafted advanced.draft) }
    ensures profile { IfOk result (λ advanced. (meaning advanced.draft.declaration).profile ≡
        (meaning current.declaration).profile) }
{
    match teach(alloc, image, &current.declaration, evidence, watcher)? {
        RefinementResult::More(next) => Ok(DeclarationStep {
            draft: next,
            goes_on: true,
        }),
        RefinementResult::Never(_) | RefinementResult::Unclear => Ok(DeclarationStep {
            draft: current,
            goes_on: false,
        }),
    }
}

/// Makes a step of a run that nobody touches, or widens the declaration if the step would leave it.
fn advance<A: Allocator + Copy>(
    alloc: A,
    image: &Image,
    current: WrittenDeclaration<A>,
    evidence: &mut Evidence<A>,
    watcher: &mut Watcher<A>,
) -> Result<DeclarationStep<A>, NoMemory>
    requires drafted { IsDrafted current }
    requires profile { profile_of watcher.old.world ≡ (meaning current.declaration).profile }
    ensures drafted { IfOk result (λ advanced. IsDrafted advanced.draft) }
    ensures profile { IfOk result (λ advanced. profile_of watcher.new.world ≡
        (meaning advanced.draft.declaration).profile) }
{
    if watcher.world().halted_at().is_some() {
        return Ok(DeclarationStep {
            draft: current,
            goes_on: false,
        });
    }
    let sight = StepRecord::of(watcher);
    if watcher.step(&current.declaration)?.is_some() {
        return widened_by_step(alloc, image, current, evidence, watcher);
    }
    evidence.sees(&sight);
    complete(watcher, &current.declaration)?;
    Ok(DeclarationStep {
        draft: current,
        goes_on: true,
    })
}

/// Goes on with a run that nobody touches, and widens the declaration wherever it is left.
fn run_on<A: Allocator + Copy>(
    alloc: A,
    image: &Image,
    first: WrittenDeclaration<A>,
    evidence: &mut Evidence<A>,
    watcher: &mut Watcher<A>,
) -> Result<WrittenDeclaration<A>, NoMemory>
    requires drafted { IsDrafted first }
    requires profile { profile_of watcher.old.world ≡ (meaning first.declaration).profile }
    ensures drafted { IfOk result IsDrafted }
{
    let mut current = first;
    for _step in 0..MOST_STEPS {
        let advanced = advance(alloc, image, current, evidence, watcher)?;
        current = advanced.draft;
        if !advanced.goes_on {
            return Ok(current);
        }
    }
    Ok(current)
}

/// What a run teaches that leaves a declaration by its last event.
fn taught_by_run<A: Allocator + Copy>(
    alloc: A,
    image: &Image,
    declaration: &Declaration<A>,
    evidence: &mut Evidence<A>,
    events: &[Event],
) -> Result<RefinementResult<A>, NoMemory>
    ensures drafted { IfOk result IsTaught }
{
    let mut watcher = Watcher::new(alloc, image, declaration, &Start::zero());
    let Some((_, before)) = events.split_last() else {
        return Ok(RefinementResult::Unclear);
    };
    for event in before {
        if let Some(at) = evidence.unset_cell(image, &watcher, *event) {
            return Ok(RefinementResult::Never(Obstacle::Unset(at)));
        }
        evidence.meets(&watcher, declaration, *event);
        if watcher.next(declaration, *event)?.is_some() {
            return Ok(RefinementResult::Unclear);
        }
    }
    evidence.runs(&watcher);
    match teach(alloc, image, declaration, evidence, &watcher)? {
        RefinementResult::More(first) => {
            Ok(RefinementResult::More(run_on(alloc, image, first, evidence, &mut watcher)?))
        }
        taught => Ok(taught),
    }
}

/// The declaration in which the pauses after which runs went on are stops; none if there is none.
fn stopped<A: Allocator + Copy>(
    alloc: A,
    image: &Image,
    declaration: &Declaration<A>,
    evidence: &mut Evidence<A>,
) -> Result<Option<WrittenDeclaration<A>>, NoMemory>
    ensures drafted { IfOk result (λ found. IfSome found IsDrafted) }
{
    let halts = evidence.continued.meet(declaration.pauses());
    if halts.is_empty() {
        return Ok(None);
    }
    evidence.forget_continued();
    let mut sketch = Sketch::of(alloc, declaration)?;
    sketch.pauses = sketch.pauses.minus(&halts);
    sketch.stops = sketch.stops.union(&halts);
    draft_of(alloc, image, &sketch)
}

/// What a run teaches that leaves a declaration by its last event; where no declaration is found that allows it, and runs went on
/// after pauses, these are stops.
fn taught_at_last<A: Allocator + Copy>(
    alloc: A,
    image: &Image,
    declaration: &Declaration<A>,
    evidence: &mut Evidence<A>,
    events: &[Event],
) -> Result<RefinementResult<A>, NoMemory>
    ensures drafted { IfOk result IsTaught }
{
    let taught = taught_by_run(alloc, image, declaration, evidence, events)?;
    if let RefinementResult::More(_) = &taught {
        return Ok(taught);
    }
    match stopped(alloc, image, declaration, evidence)? {
        Some(draft) => Ok(RefinementResult::More(draft)),
        None => Ok(taught),
    }
}

/// The proposal that says this in the place of another one, and whether a certificate is found for it.
fn proposed_after<A: Allocator + Copy>(
    alloc: A,
    image: &Image,
    given: &Proposal<A>,
    drafted: WrittenDeclaration<A>,
    turns: &mut Turns,
) -> Result<Option<Proposal<A>>, ProposeFault>
    requires drafted { IsDrafted drafted }
    ensures wider { IfOk result (λ found. IfSome found (Supersedes image.now given.now.declaration)) }
    ensures faults { IfErr result IsTold }
    ensures limit { turns.new.limit ≡ turns.old.limit }
    ensures rises { turns.old.spent ≤ turns.new.spent }
    ensures within { turns.new.spent ≤ turns.new.limit }
{
    turns.are_within();
    let WrittenDeclaration { declaration, text } = drafted;
    declaration.is_declared();
    if !is_as_wide(&given.declaration, &declaration) {
        return Ok(None);
    }
    let verdict = judged(alloc, image, &declaration, turns)?;
    Ok(Some(Proposal {
        declaration,
        text,
        unfollowed: given.unfollowed,
        seen: given.seen,
        verdict,
    }))
}

/// That no declaration allows what runs did, if that is so as far as it is looked at.
fn never<A: Allocator + Copy>(
    alloc: A,
    image: &Image,
    declaration: &Declaration<A>,
    events: &[Event],
    obstacle: Obstacle,
) -> Result<Widening<A>, ProposeFault>
    ensures wider { IfOk result (IsWidened image.now declaration.now events.now) }
    ensures faults { IfErr result IsTold }
{
    match is_obstacle(alloc, image, declaration, events, &obstacle) {
        Ok(true) => Ok(Widening::Never(obstacle)),
        Ok(false) => Ok(Widening::Unclear),
        Err(NoMemory) => Err(ProposeFault::NoMemory),
    }
}

/// A proposal with these variables, if a certificate is found for it.
fn with_variables<A: Allocator + Copy>(
    alloc: A,
    image: &Image,
    given: &Proposal<A>,
    variables: &WordSet,
    turns: &mut Turns,
) -> Result<Option<Proposal<A>>, ProposeFault>
    ensures wider { IfOk result (λ found. IfSome found (Supersedes image.now given.now.declaration)) }
    ensures faults { IfErr result IsTold }
    ensures limit { turns.new.limit ≡ turns.old.limit }
    ensures rises { turns.old.spent ≤ turns.new.spent }
    ensures within { turns.new.spent ≤ turns.new.limit }
{
    turns.are_within();
    let Ok(mut sketch) = Sketch::of(alloc, &given.declaration) else {
        return Err(ProposeFault::NoMemory);
    };
    sketch.variables = *variables;
    let Ok(found) = draft_of(alloc, image, &sketch) else {
        return Err(ProposeFault::NoMemory);
    };
    let Some(draft) = found else {
        return Ok(None);
    };
    match proposed_after(alloc, image, given, draft, turns)? {
        Some(found) if found.is_safe() => Ok(Some(found)),
        _ => Ok(None),
    }
}

/// A proposal with more variables, if a certificate is found for that, and with as few of them as its facts then show to be
/// enough.
fn with_data<A: Allocator + Copy>(
    alloc: A,
    image: &Image,
    given: &Proposal<A>,
    turns: &mut Turns,
) -> Result<Option<Proposal<A>>, ProposeFault>
    ensures wider { IfOk result (λ found. IfSome found (Supersedes image.now given.now.declaration)) }
    ensures faults { IfErr result IsTold }
    ensures limit { turns.new.limit ≡ turns.old.limit }
    ensures rises { turns.old.spent ≤ turns.new.spent }
    ensures within { turns.new.spent ≤ turns.new.limit }
{
    turns.are_within();
    let Ok(sketch) = Sketch::of(alloc, &given.declaration) else {
        return Err(ProposeFault::NoMemory);
    };
    let least = *given.declaration.variables();
    let data = WordSet::all()
        .minus(&sketch.bodies())
        .minus(&sketch.entries());
    let Some(found) = with_variables(alloc, image, given, &least.union(&data), turns)? else {
        return Ok(None);
    };
    let mut proposal = found;
    for _cut in 0..MOST_CUTS {
        let Some(cells) = proposal.spare(image) else {
            break;
        };
        let cells = cells.union(&least);
        if cells == *proposal.declaration.variables() {
            break;
        }
        match with_variables(alloc, image, given, &cells, turns)? {
            Some(tighter) => proposal = tighter,
            None => break,
        }
    }
    Ok(Some(proposal))
}

/// Widens a proposal that a run leaves by its last event, as far as what the run and those before it did teaches: a body
/// by what is executed, and by where that leads by its words; the variables by what is written, by a pointer the whole
/// buffer; routines, returns and halts; a routine that stores in its entry by a DCA, and a cell of main to which a routine jumps. A
/// pause behind which it leads to what no declaration is found for becomes a stop. A certificate is looked for at once.
///
/// # Errors
///
/// `NoMemory` where memory was refused.
pub fn widened<A: Allocator + Copy>(
    alloc: A,
    image: &Image,
    given: &Proposal<A>,
    evidence: &mut Evidence<A>,
    events: &[Event],
    turns: &mut Turns,
) -> Result<Widening<A>, ProposeFault>
    // The declaration of a wider proposal is as wide as the given one, and its certificate, if there is one,
    // shows that no run of the program breaks it. What no declaration allows is so, as far as it is said what
    // that means.
    ensures wider { IfOk result (IsWidened image.now given.now.declaration events.now) }
    ensures faults { IfErr result IsTold }
    ensures limit { turns.new.limit ≡ turns.old.limit }
    ensures rises { turns.old.spent ≤ turns.new.spent }
    ensures within { turns.new.spent ≤ turns.new.limit }
{
    turns.are_within();
    let Ok(taught) = taught_at_last(alloc, image, &given.declaration, evidence, events) else {
        return Err(ProposeFault::NoMemory);
    };
    let draft = match taught {
        RefinementResult::More(draft) => draft,
        RefinementResult::Unclear => return Ok(Widening::Unclear),
        RefinementResult::Never(obstacle) => {
            return never(alloc, image, &given.declaration, events, obstacle);
        }
    };
    let Some(wider) = proposed_after(alloc, image, given, draft, turns)? else {
        return Ok(Widening::Unclear);
    };
    if !wider.is_stuck() {
        return Ok(Widening::Wider(wider));
    }
    match with_data(alloc, image, &wider, turns)? {
        Some(shown) => Ok(Widening::Wider(shown)),
        None => Ok(Widening::Wider(wider)),
    }
}
