//! Chains: what a run of instructions made of the word that is in a cell.

ghost use Rattle.std.specs.Prelude.{◌≡◌, ◌<◌, ◌≤◌, ◌↔◌, ◌++◌, ◌∷◌, [], IsTrue, length, map, take, ℕ};
ghost use Rattle.wordset.specs.Links.{links_of};
ghost use Rattle.domain.specs.Chains as said;
ghost use Rattle.domain.specs.Chains.{after_step, after_steps, gives, longer, after_count};

use crate::location::negated;
use instruct::operate1;
use std::alloc::AllocError;
use word12::{Link, Word};
use wordset::Links;

/// A step of a chain.
///
/// Contracts see it as `step_of` gives it.
#[derive(Clone, Copy, PartialEq, Eq, Debug)]
pub enum Step {
    /// A word of group 1.
    Operates(Word),
    /// An AND of a word.
    Ands(Word),
    /// A TAD of a word.
    Adds(Word),
}

impl Default for Step {
    fn default() -> Self {
        Step::Operates(Word::ZERO)
    }
}

/// The most steps that a chain has: one more than a text may give it, since an instruction adds one.
pub const MOST_STEPS: usize = 17;

/// A chain: the accumulator and the link are what the steps make of the word of a cell plus a number, and of one of some
/// links.
///
/// Contracts see it as `chain_of` gives it.
pub struct Chain {
    cell: Word,
    more: Word,
    links: Links,
    steps: [Step; 17],
    count: usize,
    ghost few: { count ≤ 17 },
    ghost long: { length steps ≡ 17 },
}

impl Clone for Chain {
    fn clone(&self) -> Result<Self, AllocError> {
        Ok(*self)
    }
}

impl Copy for Chain {}

impl Default for Chain {
    fn default() -> Self {
        Chain::begun(Word::ZERO, Word::ZERO, Links::none())
    }
}

/// The sum of two words, and the link after it: a carry complements the link.
fn added(ac: Word, link: Link, word: Word) -> (Word, Link)
    ensures { result ≡ after_step (said.Adds word) (ac, link) }
{
    let after = if ac.carries(word) {
        link.complement()
    } else {
        link
    };
    (ac.add(word), after)
}

impl Step {
    ghost use Rattle.domain.specs.ChainsInCode.{step_of};

    /// What the step makes of the accumulator and the link.
    pub fn after(&self, ac: Word, link: Link) -> (Word, Link)
        ensures { result ≡ after_step (step_of self.now) (ac, link) }
    {
        match self {
            Step::Operates(word) => operate1(*word, ac, link),
            Step::Ands(word) => (ac.and(*word), link),
            Step::Adds(word) => added(ac, link, *word),
        }
    }
}

impl Chain {
    ghost use Rattle.domain.specs.ChainsInCode.{step_of, chain_of, gives_from};

    /// A chain of no steps.
    pub fn begun(cell: Word, more: Word, links: Links) -> Chain
        ensures { chain_of result ≡ record { cell = cell; more = more; link = links_of links; steps = [] } }
    {
        Chain {
            cell,
            more,
            links,
            steps: [Step::Operates(Word::ZERO); 17],
            count: 0,
        }
    }

    /// The cell with whose word it begins.
    pub fn cell(&self) -> Word
        ensures { result ≡ (chain_of self.now).cell }
    {
        self.cell
    }

    /// The number that is added to the cell's word.
    pub fn more(&self) -> Word
        ensures { result ≡ (chain_of self.now).more }
    {
        self.more
    }

    /// The links with which it begins.
    pub fn links(&self) -> Links
        ensures { links_of result ≡ (chain_of self.now).link }
    {
        self.links
    }

    /// Its steps, in order.
    pub fn steps(&self) -> &[Step]
        ensures steps { map step_of result.now ≡ (chain_of self.now).steps }
        ensures few { length result.now ≤ 17 }
    {
        &self.steps[..self.count]
    }

    /// Adds a step behind the others.
    pub fn push(&mut self, step: Step)
        requires { length (chain_of self.old).steps < 17 }
        ensures { chain_of self.new ≡ longer (step_of step) (chain_of self.old) }
    {
        self.steps[self.count] = step;
        self.count += 1;
    }

    /// Lets it begin with what is left after a number was added to the word of a cell: with so much less, if the cell is
    /// its own.
    pub fn count_up(&mut self, cell: Word, by: Word)
        ensures { chain_of self.new ≡ after_count cell by (chain_of self.old) }
    {
        if self.cell == cell {
            self.more = self.more.add(negated(by));
        }
    }

    /// What its steps make of an accumulator and a link.
    pub fn after_steps(&self, ac: Word, link: Link) -> (Word, Link)
        ensures { result ≡ after_steps (chain_of self.now).steps (ac, link) }
    {
        let mut now = (ac, link);
        for step in self.steps() {
            now = step.after(now.0, now.1);
        }
        now
    }

    /// Whether it makes an accumulator and a link of a word of its cell and of a link with which it may begin.
    fn gives_from(&self, first: Link, word: Word, ac: Word, link: Link) -> bool
        ensures { result ≡ gives_from (chain_of self.now) first word ac link }
    {
        if !self.links.contains(first) {
            return false;
        }
        let (made, after) = self.after_steps(word.add(self.more), first);
        made == ac && after == link
    }

    /// Whether it gives an accumulator and a link of a word of its cell.
    pub fn gives(&self, word: Word, ac: Word, link: Link) -> bool
        ensures { result ≡ gives (chain_of self.now) word ac link }
    {
        self.gives_from(Link::SET, word, ac, link) || self.gives_from(Link::CLEAR, word, ac, link)
    }
}
