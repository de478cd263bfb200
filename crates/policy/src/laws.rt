//! Laws over the definitions alone. Each is the contract of a function that does nothing.

ghost use Rattle.policy.specs.Laws.{CodeIsKept, DeclaredEventsAreRuns, RunIsOne, SafeInRunsIsSafe, StepsKeepCode, VerdictIsOne};
ghost use Rattle.policy.specs.Rules.{UnassertedHolds, UnlistedReadsAreKept};

/// If a declaration lists no reads, each step keeps the rule on reads.
pub fn unlisted_reads_are_kept()
    ensures { UnlistedReadsAreKept }
{}

/// If a declaration asserts nothing, each step keeps the rule on assertions.
pub fn unasserted_holds()
    ensures { UnassertedHolds }
{}

/// A list of events leads a declared run to one world, and one thing is told of it.
pub fn verdicts_are_one()
    ensures run { RunIsOne }
    ensures told { VerdictIsOne }
{}

/// A step that keeps the rules on the body, on writes and on calls changes no code. So the rule on
/// code is never the one that is told of a loaded program.
pub fn code_is_kept()
    ensures steps { StepsKeepCode }
    ensures told { CodeIsKept }
{}

/// The events of a declared run that leave the machine running are a declared run of the
/// instruction table. So a program that is safe in these runs is safe.
pub fn declared_events_are_runs()
    ensures runs { DeclaredEventsAreRuns }
    ensures safe { SafeInRunsIsSafe }
{}
