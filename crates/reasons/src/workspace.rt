//! Room for facts that are made on the way to a reason. What stands in it does not matter: the same serves for one question after
//! another.

use domain::SumFact;
use facts::{Fact, LandingWorkspace, LinkPart, NarrowedFact};
use std::alloc::{AllocError, Allocator};
use std::boxed::Box;
use transfer::{NextFact, Outcomes};

/// Room for finding out what of a fact is left where it lands.
#[derive(Drop)]
pub(crate) struct RemainderWorkspace {
    pub(crate) landing: LandingWorkspace,
    pub(crate) part: LinkPart,
    pub(crate) given: Fact,
}

/// Room for what comes of a word, and for finding out where it does not land. The latter has memory of its own, since no room of
/// some megabytes may be made on the stack.
#[derive(Drop)]
pub(crate) struct WordWorkspace<A: Allocator> {
    pub(crate) exit: Fact,
    pub(crate) next: NextFact,
    pub(crate) outcomes: Outcomes,
    pub(crate) left: Box<RemainderWorkspace, A>,
}

/// Room for finding out why a condition fails: for a fact as it is claimed, for the same fact as it is asked, and for what
/// comes of it.
#[derive(Drop)]
pub struct ReasonWorkspace<A: Allocator> {
    pub(crate) claimed: Fact,
    pub(crate) fact: NarrowedFact,
    pub(crate) word: WordWorkspace<A>,
}

/// Room for finding out what of a fact is left, in memory that an allocator gives.
#[inline(never)]
fn boxed_left<A: Allocator>(alloc: A) -> Result<Box<RemainderWorkspace, A>, AllocError> {
    Ok(Box::new(
        alloc,
        RemainderWorkspace {
            landing: LandingWorkspace::new(),
            part: LinkPart::new(),
            given: SumFact::any(),
        },
    )?)
}

impl<A: Allocator + Copy> ReasonWorkspace<A> {
    /// Room that nothing stands in, in memory that an allocator gives.
    ///
    /// # Errors
    ///
    /// Memory was refused.
    #[inline(never)]
    pub fn boxed(alloc: A) -> Result<Box<ReasonWorkspace<A>, A>, AllocError> {
        let left = boxed_left(alloc)?;
        Ok(Box::new(
            alloc,
            ReasonWorkspace {
                claimed: SumFact::any(),
                fact: SumFact::any(),
                word: WordWorkspace {
                    exit: SumFact::any(),
                    next: SumFact::any(),
                    outcomes: Outcomes::new(),
                    left,
                },
            },
        )?)
    }
}
