//! Room that is lent to each step of a search.

use crate::fault::SearchFault;
use domain::{Rules, SumFact};
use facts::Fact;
use std::alloc::Allocator;
use transfer::Outcomes;
use wordset::WordSet;

/// Room for what holds after a call: what is told of the cells and relations of two facts.
pub(crate) type JoinedFact = SumFact<128, 64>;

/// Room for an exit, and for what holds after a call that returns by it.
#[derive(Drop)]
pub(crate) struct ReturnWorkspace {
    pub(crate) exit: Fact,
    pub(crate) joined: JoinedFact,
}

/// Room for the outcomes of a word, and for what holds after a call. It has more than a megabyte, so it lies on the heap.
#[derive(Drop)]
pub(crate) struct Workspace {
    pub(crate) outcomes: Outcomes,
    pub(crate) returns: ReturnWorkspace,
}

impl Workspace {
    /// Room before the first step.
    pub(crate) fn boxed<A: Allocator>(alloc: A) -> Result<Box<Workspace, A>, SearchFault> {
        let rooms = Workspace {
            outcomes: Outcomes::new(),
            returns: ReturnWorkspace::new(),
        };
        match Box::new(alloc, rooms) {
            Ok(rooms) => Ok(rooms),
            Err(_) => Err(SearchFault::NoMemory),
        }
    }
}

impl ReturnWorkspace {
    /// Room before the first call.
    pub(crate) fn new() -> ReturnWorkspace {
        ReturnWorkspace {
            exit: Fact::any(),
            joined: JoinedFact::any(),
        }
    }

    /// Joins what holds at a call with the exit, where the routine writes some cells.
    pub(crate) fn join(&mut self, rules: &Rules, call: &Fact, written: &WordSet) {
        call.is_within_room();
        self.exit.is_within_room();
        self.joined.take_joined(rules, call, &self.exit, written);
    }
}
