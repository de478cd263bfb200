//! Code while it is followed.

ghost use Rattle.std.specs.Prelude.{◌≡◌, ◌&&◌, ◌||◌, false, not, MatchOption, IfSome};
ghost use Rattle.wordset.specs.Lanes.{words};
ghost use Rattle.wordset.specs.Words.{SameWords};
ghost use Rattle.tape_walk.specs.Points.{HasJust, HasNone, IsFirst, LacksOnly, has, has_cell, is_at};

use crate::points::{PointSet, ProgramPoint};
use wordset::WordSet;

/// The points that were met, and those of them from which to go on.
#[derive(Clone, Copy)]
pub struct Traversal {
    met: PointSet,
    waiting: PointSet,
}

impl Traversal {
    /// Nothing was met yet.
    pub fn new() -> Traversal
        ensures met { HasJust result.met (λ offset at. false) }
        ensures waiting { HasJust result.waiting (λ offset at. false) }
    {
        Traversal {
            met: PointSet::empty(),
            waiting: PointSet::empty(),
        }
    }

    /// Meets a point, from which to go on if it was not met before. Points with offsets above 7 are left out.
    pub fn meet(&mut self, point: &ProgramPoint)
        ensures met { HasJust self.new.met (λ offset at. has self.old.met offset at || is_at point.now offset at) }
        ensures waiting { HasJust self.new.waiting (λ offset at.
            has self.old.waiting offset at || (is_at point.now offset at && not (has self.old.met offset at))) }
    {
        if self.met.insert(point) {
            self.waiting.insert(point);
        }
    }

    /// Lets points wait again, whether or not they were met before.
    pub fn wait(&mut self, points: &PointSet)
        ensures met { self.new.met ≡ self.old.met }
        ensures waiting { HasJust self.new.waiting (λ offset at.
            has self.old.waiting offset at || has points.now offset at) }
    {
        self.waiting.insert_all(points);
    }

    /// The next point from which to go on.
    pub fn next(&mut self) -> Option<ProgramPoint>
        ensures met { self.new.met ≡ self.old.met }
        ensures first { MatchOption result
            (HasNone self.old.waiting)
            (λ point. IsFirst self.old.waiting point) }
        ensures others { IfSome result (λ point. LacksOnly self.old.waiting self.new.waiting point) }
    {
        self.waiting.take_first()
    }

    /// The cells that were met.
    pub fn cells(&self) -> WordSet
        ensures { SameWords (words result) (has_cell self.now.met) }
    {
        self.met.cells()
    }
}
