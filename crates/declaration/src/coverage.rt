//! Sets of cells, in the words of declarations.

ghost use Rattle.std.specs.Prelude.{ℕ, ◌+◌, if◌then◌else◌};
ghost use Rattle.wordset.specs.Lanes.{words};
ghost use Rattle.declaration.specs.Drafts.{Counts};

use wordset::WordSet;

/// The cells that are in one or more of some sets, and those that are in two or more.
#[derive(Clone, Copy)]
pub struct Coverage {
    pub once: WordSet,
    pub twice: WordSet,
}

impl Coverage {
    /// Of no sets.
    pub fn none() -> Coverage
        ensures { Counts result (λ _. 0) }
    {
        Coverage {
            once: WordSet::empty(),
            twice: WordSet::empty(),
        }
    }

    /// Of one set more.
    pub fn add(&mut self, set: &WordSet)
        ensures { (number : ℕ → ℕ) → Counts self.old number
            → Counts self.new (λ a. number a + (if words set.now a then 1 else 0)) }
    {
        self.twice = self.twice.union(&self.once.meet(set));
        self.once = self.once.union(set);
    }
}
