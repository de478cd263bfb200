//! The outcomes of a word, and which of them may come about.

ghost use Rattle.std.specs.Prelude.{◌≡◌, ◌&&◌, []};
ghost use Rattle.wordset.specs.Words.{Words, has_some, has_link, one};
ghost use Rattle.wordset.specs.Lanes.{words};
ghost use Rattle.wordset.specs.Links.{links_of};
ghost use Rattle.domain.specs.FactInCode.{fact_in_code, rules_of};
ghost use Rattle.transfer.specs.Outcomes.{given, is_alive};
ghost use Rattle.transfer.specs.Outcomes as said;
ghost use Rattle.transfer.specs.OutcomesInCode.{outcome_in, outcomes_in};

use crate::fact_sizes::{NextFact, SteppedFact, TestedFact};
use crate::sets::has_some;
use domain::{BriefSet, Rules, SumFact};
use word12::Word;
use wordset::{Links, WordSet};

/// What comes of a word.
#[derive(Clone, Copy, PartialEq, Eq, Debug)]
pub enum OutcomeKind {
    /// Nothing: there is no such outcome.
    Nothing,
    /// The run goes on at one of the targets.
    Goes,
    /// One of the targets, which are entries, is called.
    Calls,
    /// The running routine returns.
    Returns,
}

/// An outcome, or room for one.
///
/// Contracts see it as the list that `outcome_in` gives: the outcome, or nothing.
#[derive(Drop)]
pub struct FactOutcome {
    /// What comes.
    pub kind: OutcomeKind,
    /// The addresses where the run goes on, or the entries that are called.
    pub targets: BriefSet,
    /// The fact that holds then.
    pub fact: NextFact,
}

/// The outcomes of a word: at most four, with room for what is known on the way to them.
///
/// Contracts see them as the list that `outcomes_in` gives.
#[derive(Drop)]
pub struct Outcomes {
    /// The first.
    pub first: FactOutcome,
    /// The second.
    pub second: FactOutcome,
    /// The third.
    pub third: FactOutcome,
    /// The fourth.
    pub fourth: FactOutcome,
    /// Room for the fact after the pointer of a reference was incremented.
    pub stepped: SteppedFact,
    /// Room for the fact that is narrowed after a test of a skip.
    pub tested: TestedFact,
}

/// Whether there are targets, words of the accumulator before and after, words of MQ, links, and words of the cell that changed.
fn are_some(
    reached: bool,
    held: &WordSet,
    ac: &WordSet,
    mq: &WordSet,
    links: Links,
    changed: bool,
) -> bool
    ensures { result ≡ (reached && (has_some (words held.now) && (has_some (words ac.now) &&
        (has_some (words mq.now) && (has_link (links_of links) && changed))))) }
{
    reached && has_some(held) && has_some(ac) && has_some(mq) && !links.is_empty() && changed
}

/// Whether an outcome may come about: there are targets, and by the rules of equations the old and the new words of the
/// accumulator, those of MQ, the links and the words of the cell that changed are not none.
pub fn is_alive<const C: usize, const R: usize>(
    rules: &Rules,
    reached: bool,
    held: &WordSet,
    changed: bool,
    after: &SumFact<C, R>,
) -> bool
    ensures { (p c : Words) → reached ≡ has_some p → changed ≡ has_some c →
        result ≡ is_alive (rules_of rules.now) p (words held.now) c (fact_in_code after.now) }
{
    match rules {
        Rules::OfSums => reached,
        Rules::OfEquations => are_some(
            reached,
            held,
            after.accumulator(),
            after.mq(),
            after.link(),
            changed,
        ),
    }
}

impl FactOutcome {
    /// Room for an outcome.
    pub fn nothing() -> FactOutcome
        ensures { outcome_in result ≡ [] }
    {
        FactOutcome {
            kind: OutcomeKind::Nothing,
            targets: BriefSet::none(),
            fact: NextFact::any(),
        }
    }

    /// Takes the outcome away.
    pub fn clear(&mut self)
        ensures { outcome_in self.new ≡ [] }
    {
        self.kind = OutcomeKind::Nothing;
    }

    /// Lets the run go on at an address with the fact that stands here, where that comes about.
    pub fn go_to(&mut self, comes: bool, next: Word)
        ensures { outcome_in self.new ≡ given comes (said.Goes (one next) (fact_in_code self.old.fact)) }
    {
        if !comes {
            self.clear();
            return;
        }
        self.kind = OutcomeKind::Goes;
        self.targets.set_one(next);
    }

    /// Lets the run go on at an address with the fact that stands here, where that is chosen and comes about.
    pub fn go_to_if(&mut self, chosen: bool, comes: bool, next: Word)
        ensures { outcome_in self.new ≡
            given (chosen && comes) (said.Goes (one next) (fact_in_code self.old.fact)) }
    {
        if !chosen {
            self.clear();
            return;
        }
        self.go_to(comes, next);
    }

    /// Lets the run go on at one of some addresses with the fact that stands here, where that comes about.
    pub fn go_to_one_of(&mut self, comes: bool, targets: &WordSet)
        ensures { outcome_in self.new ≡ given comes (said.Goes (words targets.now) (fact_in_code self.old.fact)) }
    {
        if !comes {
            self.clear();
            return;
        }
        self.kind = OutcomeKind::Goes;
        self.targets.set(targets);
    }

    /// Lets the run call one of some entries with the fact that stands here, where that comes about.
    pub fn call_one_of(&mut self, comes: bool, targets: &WordSet)
        ensures { outcome_in self.new ≡ given comes (said.CallsTo (words targets.now) (fact_in_code self.old.fact)) }
    {
        if !comes {
            self.clear();
            return;
        }
        self.kind = OutcomeKind::Calls;
        self.targets.set(targets);
    }

    /// Lets the running routine return with the fact that stands here, where that comes about.
    pub fn go_back(&mut self, comes: bool)
        ensures { outcome_in self.new ≡ given comes (said.Returns (fact_in_code self.old.fact)) }
    {
        if !comes {
            self.clear();
            return;
        }
        self.kind = OutcomeKind::Returns;
    }
}

impl Outcomes {
    /// Room for the outcomes of a word.
    pub fn new() -> Outcomes
        ensures { outcomes_in result ≡ [] }
    {
        Outcomes {
            first: FactOutcome::nothing(),
            second: FactOutcome::nothing(),
            third: FactOutcome::nothing(),
            fourth: FactOutcome::nothing(),
            stepped: SteppedFact::any(),
            tested: TestedFact::any(),
        }
    }

    /// Takes all outcomes away.
    pub fn clear(&mut self)
        ensures { outcomes_in self.new ≡ [] }
    {
        self.first.clear();
        self.second.clear();
        self.third.clear();
        self.fourth.clear();
    }
}
