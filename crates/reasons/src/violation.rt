//! What a possible word violates.

use crate::counterexample::Counterexample;
use declaration::Subject;
use domain::Location;
use word12::{Link, Word};

/// Why a fact does not land at an address, or among the exits of a routine.
#[derive(Clone, Copy, Debug)]
pub enum LandingFailure {
    /// No fact is there, or no exit.
    NoFact,
    /// The address is not in the body.
    OtherBody,
    /// There is one, and it excludes this.
    Excluded(Counterexample),
    /// There is one, and with this link it excludes this.
    ExcludedUnder(Link, Counterexample),
    /// There are several, and with this link none of them is left for this word of a name.
    NotTaken(Link, Location, Word),
    /// None of them allows all that is possible.
    NotEntailed,
}

/// What a call of an entry violates.
#[derive(Clone, Copy, Debug)]
pub enum CallViolation {
    /// V7: the address called is not an entry.
    NoEntry,
    /// V7: the entry has no routine line.
    NotListed,
    /// V7: its rank, the first, is not below that of the calling routine, the second.
    NotLower(usize, usize),
    /// V8: it may write this cell, which is not in the written set of the calling routine.
    Writes(Word),
    /// V8: the entry is not in the written set of the calling routine.
    EntryNotWritten,
    /// V8: the entry of the calling routine is in its written set.
    WritesCaller,
    /// V9: the address is not a listed site of the entry.
    NoSite,
    /// V9: the address is past the last that may be a site.
    TooHigh,
    /// V10: the fact does not land at the address after the entry.
    Enters(LandingFailure),
    /// V11: after a return by this offset with the exit at this place among those for the offset the fact
    /// does not land.
    Returns(usize, usize, LandingFailure),
}

/// What a return through an entry violates.
#[derive(Clone, Copy, Debug)]
pub enum ReturnViolation {
    /// The entry is not that of the running routine.
    OtherRoutine,
    /// The offset is possible and is not declared.
    NotDeclared(usize),
    /// The offset is possible, and the fact does not land among the exits for it.
    NotAllowed(usize, LandingFailure),
}

/// What a possible word violates.
#[derive(Clone, Copy, Debug)]
pub enum Violation {
    /// V3: it is not supported.
    NotSupported,
    /// V5: it may write this cell, which is neither a variable nor an entry.
    WritesUndeclared(Word),
    /// V14: it may write this entry.
    WritesEntry(Word),
    /// V14: it is an ISZ of this entry, the running routine's own, whose word may not be incremented once
    /// more.
    CountsTooFar(Word),
    /// V14: it is a DCA into this entry, the running routine's own, in which the routine is not declared to store.
    StoresInOwn(Word),
    /// V14: it is a DCA into this entry, the running routine's own, in which the routine may store. It may store this word, the
    /// second, which is not 0 to 77 past the return address of the call from this address, the third.
    MovesTooFar(Word, Word, Word),
    /// V6: it may write this cell, which is not in the written set of the running routine, nor its
    /// entry.
    WritesUnlisted(Word),
    /// V13: it halts where no halt is declared.
    HaltsUndeclared,
    /// V7: it calls through an auto-index cell.
    CallsThroughIndex,
    /// V7 to V11: it calls this address, and that call breaks this.
    Calls(Word, CallViolation),
    /// V12: it returns through this entry, and that return breaks this.
    Returns(Word, ReturnViolation),
    /// V4: the run may go on at this address, and does not land there.
    GoesOn(Word, LandingFailure),
    /// V4: it is a JMP from a routine's body to this address of main's, for which no calls are abandoned.
    JumpsToMain(Word),
    /// V15: it may read this cell, which is not on the list of reads, nor the entry of the running
    /// routine.
    ReadsUnlisted(Word),
    /// V16: this subject may have this word, which is not among those that it is declared to have here.
    DeniesAssertion(Subject, Word),
}
