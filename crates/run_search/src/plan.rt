//! Which inputs a run gets.

use crate::dictionary::Dictionary;
use crate::hints::{Goal, Hint};
use crate::input_request::InputRequest;
use crate::random::Random;
use std::alloc::Allocator;

/// The most steps of one run.
const MOST_STEPS: u32 = 300_000;

/// The most steps of a run in which no key is struck.
const MOST_PLAIN_STEPS: u32 = 1_000_000;

/// What a run is for.
#[derive(Clone, Copy, PartialEq, Eq)]
pub(crate) enum Purpose {
    /// A long run from the start in which no key is struck.
    Plain,
    /// A long run by chance.
    Explore,
    /// To find something new, from a kept state on.
    Extend,
    /// To violate a rule once more with other inputs; nothing is kept and nothing learned.
    Repeat,
}

/// A run: where it begins, and its inputs. Some are given, and then come so many more, which are taken
/// from a few values if there are any.
#[derive(Drop)]
pub(crate) struct Plan<A: Allocator> {
    pub(crate) purpose: Purpose,
    /// The kept state from which it goes on.
    pub(crate) base: usize,
    pub(crate) given: Vec<u16, A>,
    pub(crate) more: usize,
    pub(crate) few: Vec<u16, A>,
    /// Whether the few values are taken in turn, and not by chance.
    pub(crate) in_turn: bool,
    /// The test that it is to bring nearer to 0.
    pub(crate) goal: Option<Goal>,
}

impl Purpose {
    /// The most steps of a run for this purpose.
    pub(crate) fn most_steps(self) -> u32 {
        match self {
            Purpose::Plain => MOST_PLAIN_STEPS,
            Purpose::Explore | Purpose::Extend | Purpose::Repeat => MOST_STEPS,
        }
    }

    /// Whether a run for this purpose is a long one, which goes on while nothing new is seen.
    pub(crate) fn is_long(self) -> bool {
        matches!(self, Purpose::Plain | Purpose::Explore)
    }
}

impl<A: Allocator + Copy> Plan<A> {
    /// These inputs, and no more.
    pub(crate) fn of(alloc: A, purpose: Purpose, base: usize, given: Vec<u16, A>) -> Plan<A> {
        Plan {
            purpose,
            base,
            given,
            more: 0,
            few: Vec::new(alloc),
            in_turn: false,
            goal: None,
        }
    }

    /// To follow a hint, and then some inputs more.
    pub(crate) fn by_hint(alloc: A, hint: Hint<A>, more: usize) -> Plan<A> {
        let Hint {
            base,
            inputs,
            goal,
            ..
        } = hint;
        let mut plan = Plan::of(alloc, Purpose::Extend, base, inputs);
        plan.goal = Some(goal);
        plan.more = more;
        plan
    }

    /// The input of a number, from 0; none behind the last one.
    pub(crate) fn input(
        &self,
        number: usize,
        ask: InputRequest,
        dictionary: &Dictionary<A>,
        random: &mut Random,
    ) -> Option<u16> {
        if let Some(value) = self.given.get(number) {
            return Some(*value);
        }
        let after = number.saturating_sub(self.given.len());
        if after >= self.more {
            return None;
        }
        if self.in_turn && !self.few.is_empty() {
            return self.few.get(after % self.few.len()).copied();
        }
        match random.pick(&self.few) {
            Some(value) => Some(value),
            None => Some(dictionary.value(random, ask)),
        }
    }
}
