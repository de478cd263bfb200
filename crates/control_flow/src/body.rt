//! A body while it is followed.

use declaration::Owner;
use tape_walk::{ProgramPoint, Traversal};
use word12::Word;
use wordset::WordSet;

/// A body while it is followed: whose it is, whether its words do not tell by which offsets its routine returns, and the points that
/// were met.
#[derive(Drop)]
pub(crate) struct BodyTraversal {
    pub(crate) owner: Owner,
    pub(crate) is_open: bool,
    points: Traversal,
}

impl BodyTraversal {
    /// Nothing was met yet.
    pub(crate) fn new(owner: Owner) -> BodyTraversal {
        BodyTraversal {
            owner,
            is_open: false,
            points: Traversal::new(),
        }
    }

    /// Whether a cell is the routine's entry.
    pub(crate) fn is_own(&self, cell: Word) -> bool {
        self.owner == Owner::Routine(cell)
    }

    /// Meets a point, from which to go on if it was not met. If the return word was incremented by more than 7, this is most likely
    /// done in a loop.
    pub(crate) fn meet(&mut self, point: &ProgramPoint) {
        if !point.is_counted() {
            self.is_open = true;
        }
        self.points.meet(point);
    }

    /// The next point from which to go on.
    pub(crate) fn next(&mut self) -> Option<ProgramPoint> {
        self.points.next()
    }

    /// The cells that were met.
    pub(crate) fn cells(&self) -> WordSet {
        self.points.cells()
    }
}
