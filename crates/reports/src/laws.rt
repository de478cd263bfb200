//! Laws over the definitions alone. Each is the contract of a function that does nothing.

ghost use Rattle.reports.specs.Laws.{IsNeverReachedInEvents, IsNeverReachedInRuns};

use judge::laws::facts_hold;

/// If a certificate is valid and has no fact at an address, no run of the declared program comes there. So a report of
/// such a certificate may say that the address is never reached.
pub fn addresses_without_facts_are_never_reached()
    ensures runs { IsNeverReachedInRuns }
    ensures events { IsNeverReachedInEvents }
{
    facts_hold();
}
