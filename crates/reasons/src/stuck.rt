//! Why a search for a certificate is stuck at an address, by a draft of what it found until then.

use crate::filter::ReasonFilter;
use crate::reason::{Reason, why_not_held, why_words};
use crate::workspace::ReasonWorkspace;
use bin_tape::Image;
use declaration::Declaration;
use facts::Condition;
use judge::{Case, Claims, Refusal};
use std::alloc::Allocator;
use word12::Word;

/// The conditions in the order in which they are asked: first those that a word violates by itself, then those on calls and returns, then
/// those on where a run goes on, and last what is declared to hold. The four others fail by lines alone.
const ORDER: [Condition; 12] = [
    Condition::V3,
    Condition::V5,
    Condition::V14,
    Condition::V13,
    Condition::V15,
    Condition::V7,
    Condition::V9,
    Condition::V12,
    Condition::V4,
    Condition::V10,
    Condition::V11,
    Condition::V16,
];

/// Why a search is stuck at an address, by a draft of what it found until then: the first condition that fails there, and why. It
/// is not told that lines are missing or too narrow, since a draft lacks what the search has not come to. Of a call it is told that
/// its rank is not lower, since a draft has ranks as far as there are any. The room is lent, so no memory is taken, and none can be
/// refused.
pub fn why_stuck<A: Allocator, C: Claims, M: Allocator>(
    image: &Image,
    declaration: &Declaration<A>,
    claims: &C,
    at: Word,
    rooms: &mut ReasonWorkspace<M>,
) -> Option<(Refusal, Reason)> {
    let case = Case {
        image,
        declaration,
        claims,
    };
    for condition in &ORDER {
        let found = match condition {
            Condition::V16 => why_not_held(&case, at, rooms),
            _ => why_words(&case, ReasonFilter::NotOfLines, *condition, at, rooms),
        };
        if let Some(reason) = found {
            let refusal = Refusal {
                condition: *condition,
                address: at,
            };
            return Some((refusal, reason));
        }
    }
    None
}
