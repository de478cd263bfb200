//! The judgement: every condition holds, or one fails before all others.

ghost use Rattle.std.specs.Prelude.{◌≡◌, ◌↔◌, Some, IsTrue, MatchResult, OnOk};
ghost use Rattle.peripherals.specs.Loading.{image_of};
ghost use Rattle.declaration.specs.DeclarationInCode.{meaning};
ghost use Rattle.policy.specs.Runs.{IsSafe};
ghost use Rattle.judge.specs.Conditions.{IsValid, IsFirst};
ghost use Rattle.judge.specs.Judged.{judged};

use crate::body::Body;
use crate::case::{Case, JudgeWorkspace};
use crate::claims::Claims;
use bin_tape::Image;
use declaration::Declaration;
use facts::Condition;
use std::alloc::Allocator;
use thiserror::Error;
use word12::Word;

/// Why a certificate is refused: the first condition that fails, and where.
#[derive(Clone, Copy, PartialEq, Eq, Debug, Error)]
#[error("{condition:?} at {address}")]
pub struct Refusal {
    /// The condition that fails.
    pub condition: Condition,
    /// The address at which it was asked.
    pub address: Word,
}

/// Judges what is claimed of a tape's words under a declaration: `Ok` where every condition holds,
/// and then the program keeps its declaration in every declared run.
///
/// # Errors
///
/// The first condition that fails, and where. V1 is asked first, at the start; then, by rising
/// address, at each address that a routine, fact or exit line has, the others in the order V2, V3,
/// V5, V14, V6, V13, V7, V8, V9, V10, V12, V11, V4, V15, V16, each of all facts at the address, and V16 also
/// of the exits of the entry there. A refusal says that the claims do not show the program safe, not that it is unsafe.
///
/// Facts are put into the rooms that are lent, whatever stands there. No memory is taken, so none can be refused.
pub fn judge<A: Allocator, C: Claims, M: Allocator>(
    image: &Image,
    declaration: &Declaration<A>,
    claims: &C,
    rooms: &mut JudgeWorkspace<M>,
) -> Result<(), Refusal>
    ensures exact { let j = judged image.now declaration.now (C.claims claims.now) in
        MatchResult result (λ _. IsValid j) (λ r. IsFirst j r.condition r.address) }
    ensures safe { OnOk result (IsSafe (image_of image.now) (meaning declaration.now)) }
{
    declaration.is_declared();
    let case = Case {
        image,
        declaration,
        claims,
    };
    rooms.even.forget();
    rooms.odd.forget();
    if !case.starts_well(rooms) {
        return Err(Refusal {
            condition: Condition::V1,
            address: declaration.start(),
        });
    }
    let mut body = Body::main();
    let mut near = 0usize;
    let mut next = 0usize;
    let mut named = claims.next_named(0);
    while let Some(address) = claims.next_claimed(next, near) {
        let is_named = is_of(&named, address);
        if let Err(condition) = case.check_at(address, is_named, &mut near, &mut body, rooms) {
            return Err(Refusal { condition, address });
        }
        next = address.index() + 1;
        if is_named {
            named = claims.next_named(next);
        }
    }
    Ok(())
}

/// Whether it is this entry.
fn is_of(entry: &Option<Word>, at: Word) -> bool
    ensures { IsTrue result ↔ entry.now ≡ Some at }
{
    match entry {
        None => false,
        Some(entry) => *entry == at,
    }
}
