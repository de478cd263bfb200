//! Laws over the definitions alone. Each is the contract of a function that does nothing.

ghost use Rattle.refuter.specs.Laws.{BrokenIsUnsafe};

/// A program of which a run violates the declaration is not safe. So where a search gives a run, no certificate
/// is accepted, and where one is accepted, no search gives a run.
pub fn broken_programs_are_unsafe()
    ensures { BrokenIsUnsafe }
{}
