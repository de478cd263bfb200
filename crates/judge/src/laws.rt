//! Laws over the definitions alone. Each is the contract of a function that does nothing.

ghost use Rattle.judge.specs.Laws.{FactsHoldInEvents, FactsHoldInRuns, FirstIsOne, TextsMakeOneCase};

/// The facts of a valid certificate are true: wherever a declared run may go on, one of the facts
/// there holds.
pub fn facts_hold()
    ensures runs { FactsHoldInRuns }
    ensures events { FactsHoldInEvents }
{}

/// No two conditions fail first, and none does at two addresses.
pub fn first_is_one()
    ensures { FirstIsOne }
{}

/// The bytes of a tape, a declaration and a certificate are judged in one way, whatever parts they
/// are read as. So where the text of a certificate of which every condition holds is read, it is
/// accepted.
pub fn texts_are_judged_alike()
    ensures { TextsMakeOneCase }
{}
