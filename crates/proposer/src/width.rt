//! Whether one declaration is as wide as another one.

ghost use Rattle.std.specs.Prelude.{ℕ, ◌≡◌, ◌<◌, true};
ghost use Rattle.declaration.specs.Declaration.{Routine};
ghost use Rattle.declaration.specs.DeclarationInCode.{meaning};
ghost use Rattle.wordset.specs.Words.{IsWithin, union};
ghost use Rattle.proposer.specs.Widths.{IsAsWide, KeepsCell};

use declaration::{Declaration, Owner};
use std::alloc::Allocator;
use word12::Word;

/// Whether the body that has a cell still has it.
fn keeps_body<A: Allocator, B: Allocator>(
    given: &Declaration<A>,
    more: &Declaration<B>,
    at: Word,
) -> bool
    ensures { result ≡ true → (r : Routine) →
        (meaning given.now).body r at ≡ true → (meaning more.now).body r at ≡ true }
{
    let Some(owner) = given.owner_of(at) else {
        return true;
    };
    match owner {
        Owner::Main => more.in_main(at),
        Owner::Routine(entry) => more.in_body(entry, at),
    }
}

/// Whether the routine of an entry may return at each offset at which it might.
fn keeps_offsets<A: Allocator, B: Allocator>(
    given: &Declaration<A>,
    more: &Declaration<B>,
    entry: Word,
) -> bool
    ensures { result ≡ true → (o : ℕ) → o < 64 →
        (meaning given.now).offset entry o ≡ true → (meaning more.now).offset entry o ≡ true }
{
    for index in 0..64usize {
        let offset = Word::from_index(index);
        if given.has_offset(entry, offset) && !more.has_offset(entry, offset) {
            return false;
        }
    }
    true
}

/// Whether one declaration says of a cell what another one says.
fn keeps_cell<A: Allocator, B: Allocator>(
    given: &Declaration<A>,
    more: &Declaration<B>,
    at: Word,
) -> bool
    ensures { result ≡ true → KeepsCell (meaning given.now) (meaning more.now) at }
{
    if given.is_entry(at) && !more.is_entry(at) {
        return false;
    }
    if !keeps_body(given, more, at) {
        return false;
    }
    keeps_offsets(given, more, at)
}

/// Whether one declaration says of each cell what another one says of it: the cell stays in its body, an entry stays an entry,
/// and its routine may still return at each of its offsets. More may be said.
pub fn keeps_cells<A: Allocator, B: Allocator>(
    given: &Declaration<A>,
    more: &Declaration<B>,
) -> bool
    ensures { result ≡ true → (a : ℕ) → a < 4096 →
        KeepsCell (meaning given.now) (meaning more.now) a }
{
    for index in 0..4096usize {
        if !keeps_cell(given, more, Word::from_index(index)) {
            return false;
        }
    }
    true
}

/// Whether two declarations have the same start and are for the same machine.
pub fn is_alike<A: Allocator, B: Allocator>(given: &Declaration<A>, more: &Declaration<B>) -> bool
    ensures start { result ≡ true → (meaning more.now).start ≡ (meaning given.now).start }
    ensures profile { result ≡ true → (meaning more.now).profile ≡ (meaning given.now).profile }
{
    more.start() == given.start() && more.profile() == given.profile()
}

/// Whether each variable is still a variable, and each halt is still a halt.
fn keeps_sets<A: Allocator, B: Allocator>(given: &Declaration<A>, more: &Declaration<B>) -> bool
    ensures variables { result ≡ true →
        IsWithin (meaning given.now).variable (meaning more.now).variable }
    ensures stops { result ≡ true → IsWithin (meaning given.now).stop
        (union (meaning more.now).stop (meaning more.now).pause) }
    ensures pauses { result ≡ true → IsWithin (meaning given.now).pause
        (union (meaning more.now).stop (meaning more.now).pause) }
{
    let halts = more.stops().union(more.pauses());
    given.variables().is_subset(more.variables())
        && given.stops().is_subset(&halts)
        && given.pauses().is_subset(&halts)
}

/// Whether each routine that may store in its entry still may, and calls may still be abandoned for each place for which they
/// might.
fn keeps_permissions<A: Allocator, B: Allocator>(
    given: &Declaration<A>,
    more: &Declaration<B>,
) -> bool
    ensures moves { result ≡ true → IsWithin (meaning given.now).moves (meaning more.now).moves }
    ensures abandon { result ≡ true →
        IsWithin (meaning given.now).abandon (meaning more.now).abandon }
{
    given.moves().is_subset(more.moves()) && given.abandons().is_subset(more.abandons())
}

/// Whether the second declaration is as wide as the first.
pub(crate) fn is_as_wide<A: Allocator, B: Allocator>(
    given: &Declaration<A>,
    more: &Declaration<B>,
) -> bool
    ensures { result ≡ true → IsAsWide (meaning given.now) (meaning more.now) }
{
    if !is_alike(given, more) {
        return false;
    }
    if !keeps_sets(given, more) {
        return false;
    }
    if !keeps_permissions(given, more) {
        return false;
    }
    if more.reads_listed() {
        return false;
    }
    keeps_cells(given, more)
}
