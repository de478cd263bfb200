//! Whether what a draft says is where it may be.

ghost use Rattle.std.specs.Prelude.{◌≡◌, ◌||◌, true};
ghost use Rattle.declaration.specs.DeclarationInCode.{meaning as declared};
ghost use Rattle.certificate_lines.specs.Certificate.{has_any, has_exits};
ghost use Rattle.certificate_lines.specs.CertificateInCode.{claims};
ghost use Rattle.analyser.specs.Attempts.{IsDraft, IsInSomeBody, StandsRight};

use certificate::Certificate;
use declaration::Declaration;
use std::alloc::Allocator;
use word12::Word;

/// A certificate that the judge refuses, and the address at which it does.
#[derive(Drop)]
pub(crate) struct Draft<A: Allocator> {
    pub(crate) at: Word,
    pub(crate) certificate: Certificate<A>,
}

/// Whether there is a fact at an address.
#[tactic(auto, using(crate::proofs::DraftLemmas::any_skipped))]
fn has_fact<A: Allocator>(draft: &Certificate<A>, at: Word) -> bool
    ensures { result ≡ has_any ((claims draft.now).facts at) }
{
    let mut line = draft.facts_from(at, 0);
    draft.skip_fact(at, &mut line)
}

/// Whether the facts at an address, if there are any, are in some body.
fn facts_stand_right<A: Allocator, D: Allocator>(
    declaration: &Declaration<D>,
    draft: &Certificate<A>,
    at: Word,
) -> bool
    ensures { result ≡ true → has_any ((claims draft.now).facts at) ≡ true →
        IsInSomeBody (declared declaration.now) at }
{
    if declaration.owner_of(at).is_some() {
        return true;
    }
    !has_fact(draft, at)
}

/// Whether the lines of an address are where they may be.
#[tactic(auto, using(crate::proofs::DraftLemmas::entry_right))]
fn stands_right<A: Allocator, D: Allocator>(
    declaration: &Declaration<D>,
    draft: &Certificate<A>,
    at: Word,
) -> bool
    ensures { result ≡ true → StandsRight (declared declaration.now) (claims draft.now) at }
{
    if !facts_stand_right(declaration, draft, at) {
        return false;
    }
    if declaration.is_entry(at) {
        return true;
    }
    !draft.names(at)
}

/// Whether there is an exit of the routine of an entry.
fn has_exit<A: Allocator>(draft: &Certificate<A>, entry: Word) -> bool
    ensures { result ≡ true → has_exits (claims draft.now) entry ≡ true }
{
    match draft.next_offset(entry, 0) {
        Some(_) => true,
        None => false,
    }
}

/// Whether there is a fact at an address, or an exit of the routine whose entry it is.
#[tactic(auto, using(crate::proofs::DraftLemmas::there_is_fact, crate::proofs::DraftLemmas::there_is_exit))]
fn has_any_at<A: Allocator>(draft: &Certificate<A>, at: Word) -> bool
    ensures { result ≡ true →
        (has_any ((claims draft.now).facts at) || has_exits (claims draft.now) at) ≡ true }
{
    if has_fact(draft, at) {
        return true;
    }
    has_exit(draft, at)
}

/// Whether all lines are where they may be, and there is a fact where the draft is stuck, or an exit.
pub(crate) fn is_draft<A: Allocator, D: Allocator>(
    declaration: &Declaration<D>,
    draft: &Certificate<A>,
    stuck: Word,
) -> bool
    ensures { result ≡ true → IsDraft (declared declaration.now) stuck (claims draft.now) }
{
    for index in 0..4096usize {
        if !stands_right(declaration, draft, Word::from_index(index)) {
            return false;
        }
    }
    has_any_at(draft, stuck)
}
