//! A step of a machine that is watched, for which a turn is taken.

ghost use Rattle.std.specs.Prelude.{◌≡◌, ◌≢◌, ◌≤◌, ◌+◌, IfOk};
ghost use Rattle.declaration.specs.DeclarationInCode.{meaning};
ghost use Rattle.peripherals.specs.declared.Event.{Event};
ghost use Rattle.peripherals.specs.World.{profile_of};
ghost use Rattle.policy.specs.OpenCalls.{machine_of, calls_of};
ghost use Rattle.policy.specs.WatchedSteps.{Goes};
ghost use Rattle.turns.specs.declared.stepping.StepVerdict.TheVariants.{Kept, NoTurn};

use crate::Turns;
use declaration::Declaration;
use peripherals::NoMemory;
use policy::Watcher;
use std::alloc::Allocator;

/// What came of a step.
#[derive(Clone, Copy, PartialEq, Eq)]
pub enum StepVerdict {
    /// It was made, and kept the rules.
    Kept,
    /// It was tried, and violates a rule.
    Broke,
    /// All turns are spent: it was not tried.
    NoTurn,
}

/// Takes a turn, and then tries a step of a machine that is watched. No other function of the search
/// does so.
#[inline(always)]
pub fn take_step<A: Allocator, D: Allocator>(
    watcher: &mut Watcher<A>,
    declaration: &Declaration<D>,
    turns: &mut Turns,
) -> Result<StepVerdict, NoMemory>
    requires profile { profile_of watcher.old.world ≡ (meaning declaration.now).profile }
    ensures profile { profile_of watcher.new.world ≡ (meaning declaration.now).profile }
    // If it is told that the step was made, it was.
    ensures made { IfOk result (λ stepped. stepped ≡ Kept → Goes (meaning declaration.now)
        (machine_of watcher.old) (calls_of watcher.old) Event.Step
        (machine_of watcher.new) (calls_of watcher.new)) }
    ensures counted { IfOk result (λ stepped. stepped ≢ NoTurn
        → turns.new.spent ≡ turns.old.spent + 1) }
    ensures limit { turns.new.limit ≡ turns.old.limit }
    ensures rises { turns.old.spent ≤ turns.new.spent }
    ensures within { turns.new.spent ≤ turns.new.limit }
{
    if turns.take().is_err() {
        return Ok(StepVerdict::NoTurn);
    }
    match watcher.step(declaration) {
        Ok(None) => Ok(StepVerdict::Kept),
        Ok(Some(_)) => Ok(StepVerdict::Broke),
        Err(NoMemory) => Err(NoMemory),
    }
}
