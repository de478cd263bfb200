//! Laws over the definitions alone. Each is the contract of a function that does nothing.

ghost use Rattle.machine_commands.specs.StopLaws.{SessionsWithoutStops, StoppedIsNotNever, StoppedRunsAreFronts, StopsAreOne, TypedWithoutStops};

/// A run that is stopped is the run without stops up to there, and there is one place where it is stopped.
pub fn stopped_runs_are_fronts()
    ensures fronts { StoppedRunsAreFronts }
    ensures one { StopsAreOne }
    ensures never { StoppedIsNotNever }
{}

/// A run with an operator, or a session at the teletype, that has no stops and that no key interrupts is the plain one: all
/// that comes is told, and nothing is said to have stopped it.
pub fn unstopped_sessions_are_plain()
    ensures sessions { SessionsWithoutStops }
    ensures typed { TypedWithoutStops }
{}
