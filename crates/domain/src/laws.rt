//! Laws over the definitions alone. Each is the contract of a function that does nothing.

ghost use Rattle.domain.specs.Laws.{AddedIsSo, AddingKeeps, AllAddedIsSo, AllMovedIsSo, AskedHolds, ChainsAreCounted, CountedHolds, CountedUpIsSo, FreeStaysTrue, GivenIsSo, JoinedFactHolds, JoinedKeeps, KnownIsSo, LongerIsSo, MovedIsSo, NarrowedHolds, NarrowedIsSo, SaidIsSo, SpelledIsSo, SumsAreKept, TakingHolds, VoidNeverHolds, WeaklyUpdatedHolds};

/// A sum keeps its word, however it is collected, arranged and spelled.
pub fn sums_are_kept()
    ensures sums { SumsAreKept }
    ensures spelled { SpelledIsSo }
{}

/// What a fact gives for a sum, and all that it says of it, is so wherever the fact holds.
pub fn said_is_so()
    ensures given { GivenIsSo }
    ensures said { SaidIsSo }
{}

/// Relations that are true may be added to a fact that holds.
pub fn added_is_so()
    ensures keeps { AddingKeeps }
    ensures added { AddedIsSo }
    ensures all { AllAddedIsSo }
{}

/// Narrowing loses no state.
pub fn narrowed_holds()
    ensures is_so { NarrowedIsSo }
    ensures holds { NarrowedHolds }
    ensures asked { AskedHolds }
    ensures known { KnownIsSo }
{}

/// No state satisfies a fact of which a set is empty.
pub fn void_never_holds()
    ensures { VoidNeverHolds }
{}

/// Where a name took a new word, or one of several cells did, the fact of this holds.
pub fn taken_holds()
    ensures free { FreeStaysTrue }
    ensures taking { TakingHolds }
    ensures one_of_several { WeaklyUpdatedHolds }
{}

/// Where a cell went up by a number, relations and chains that move with it stay true.
pub fn counted_holds()
    ensures relation { MovedIsSo }
    ensures relations { AllMovedIsSo }
    ensures chains { ChainsAreCounted }
    ensures counted { CountedHolds }
{}

/// If a step made the accumulator and the link, each chain is true with this step more.
pub fn longer_is_so()
    ensures { LongerIsSo }
{}

/// What is joined after a call holds at the return.
pub fn joined_holds()
    ensures holds { JoinedFactHolds }
    ensures keeps { JoinedKeeps }
{}

/// A return word that went up by one is known by the offsets that are incremented.
pub fn counted_up_is_so()
    ensures { CountedUpIsSo }
{}
