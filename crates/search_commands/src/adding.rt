//! Whether nothing is allowed beyond a declaration except what is proposed, and whether one declaration is no wider than
//! another one.

ghost use Rattle.std.specs.Prelude.{ℕ, ◌≡◌, ◌<◌, ◌↔◌, ◌||◌, IsTrue, true};
ghost use Rattle.declaration.specs.Declaration.{Routine};
ghost use Rattle.declaration.specs.DeclarationInCode.{meaning};
ghost use Rattle.search_commands.specs.Adding.{AddsOnly, AddsToCell, IsNoWider, lists};

use declaration::{Declaration, Owner};
use std::alloc::Allocator;
use word12::Word;

/// Whether something that is true in the last declaration is true in one of the other two.
fn is_known(more: bool, given: bool, proposed: bool) -> bool
    ensures { IsTrue result ↔ (more ≡ true → given || proposed ≡ true) }
{
    !more || given || proposed
}

/// Whether a cell is in the same body in one of two other declarations, if it is in a body at all.
fn body_is_known<A: Allocator, B: Allocator, C: Allocator>(
    given: &Declaration<A>,
    proposed: &Declaration<B>,
    more: &Declaration<C>,
    at: Word,
) -> bool
    ensures { IsTrue result ↔ ((r : Routine) → (meaning more.now).body r at ≡ true →
        (meaning given.now).body r at || (meaning proposed.now).body r at ≡ true) }
{
    let Some(owner) = more.owner_of(at) else {
        return true;
    };
    match owner {
        Owner::Main => given.in_main(at) || proposed.in_main(at),
        Owner::Routine(entry) => given.in_body(entry, at) || proposed.in_body(entry, at),
    }
}

/// Whether each offset at which the routine of an entry may return is one at which it may return in one of two other
/// declarations.
fn offsets_are_known<A: Allocator, B: Allocator, C: Allocator>(
    given: &Declaration<A>,
    proposed: &Declaration<B>,
    more: &Declaration<C>,
    entry: Word,
) -> bool
    ensures { IsTrue result ↔ ((o : ℕ) → o < 64 → (meaning more.now).offset entry o ≡ true →
        (meaning given.now).offset entry o || (meaning proposed.now).offset entry o ≡ true) }
{
    for index in 0..64usize {
        let offset = Word::from_index(index);
        if !is_known(
            more.has_offset(entry, offset),
            given.has_offset(entry, offset),
            proposed.has_offset(entry, offset),
        ) {
            return false;
        }
    }
    true
}

/// Whether a cell is on a list of reads, if there is one.
fn is_listed<A: Allocator>(declaration: &Declaration<A>, at: Word) -> bool
    ensures { result ≡ lists (meaning declaration.now).reads at }
{
    match declaration.reads() {
        None => false,
        Some(cells) => cells.contains(at),
    }
}

/// Whether everything that is allowed for a cell is allowed in one of two other declarations.
fn adds_to_cell<A: Allocator, B: Allocator, C: Allocator>(
    given: &Declaration<A>,
    proposed: &Declaration<B>,
    more: &Declaration<C>,
    at: Word,
) -> bool
    ensures { IsTrue result ↔
        AddsToCell (meaning given.now) (meaning proposed.now) (meaning more.now) at }
{
    if !body_is_known(given, proposed, more, at) {
        return false;
    }
    if !offsets_are_known(given, proposed, more, at) {
        return false;
    }
    if !is_known(more.is_entry(at), given.is_entry(at), proposed.is_entry(at)) {
        return false;
    }
    if !is_known(
        more.is_variable(at),
        given.is_variable(at),
        proposed.is_variable(at),
    ) {
        return false;
    }
    if !is_known(more.is_stop(at), given.is_stop(at), proposed.is_stop(at)) {
        return false;
    }
    if !is_known(more.is_pause(at), given.is_pause(at), proposed.is_pause(at)) {
        return false;
    }
    if !is_known(more.may_move(at), given.may_move(at), proposed.may_move(at)) {
        return false;
    }
    if !is_known(
        more.is_abandon(at),
        given.is_abandon(at),
        proposed.is_abandon(at),
    ) {
        return false;
    }
    is_known(
        is_listed(more, at),
        is_listed(given, at),
        is_listed(proposed, at),
    )
}

/// Whether everything that the last declaration allows is allowed by one of the other two.
pub(crate) fn adds_only<A: Allocator, B: Allocator, C: Allocator>(
    given: &Declaration<A>,
    proposed: &Declaration<B>,
    more: &Declaration<C>,
) -> bool
    ensures { IsTrue result ↔
        AddsOnly (meaning given.now) (meaning proposed.now) (meaning more.now) }
{
    for index in 0..4096usize {
        if !adds_to_cell(given, proposed, more, Word::from_index(index)) {
            return false;
        }
    }
    true
}

/// Whether the second declaration is no wider than the first: it has the same start and machine, lists reads exactly if
/// the first one does, and allows nothing that the first one does not allow.
pub(crate) fn is_no_wider<A: Allocator, B: Allocator>(
    given: &Declaration<A>,
    less: &Declaration<B>,
) -> bool
    ensures { IsTrue result ↔ IsNoWider (meaning given.now) (meaning less.now) }
{
    if less.start() != given.start() {
        return false;
    }
    if less.profile() != given.profile() {
        return false;
    }
    if less.reads_listed() != given.reads_listed() {
        return false;
    }
    adds_only(given, given, less)
}
