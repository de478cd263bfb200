//! What to run next: a run without a key, a long run, a hint, or a run from a kept state with other inputs.

use crate::input_request::InputRequest;
use crate::plan::{Plan, Purpose};
use crate::running::Input;
use crate::search::RunSearch;
use peripherals::NoMemory;
use std::alloc::Allocator;

/// What each of the first runs, in which no key is struck, gives as every frame and as the switches; values by
/// chance where none is named.
const PLAIN_VALUES: [Option<u16>; 5] = [Some(0), None, Some(0o7777), Some(1), Some(0o4000)];

/// After this many steps some long runs from kept states go without a key.
const FIRST_PLAIN_FROM_STATES: u32 = 2_000_000;

/// The most inputs in which a change is tried.
const MOST_CHANGED: usize = 400;

impl<A: Allocator + Copy> RunSearch<A> {
    /// What to run next. The first runs go without a key; then a quarter of all steps goes to long runs, and the
    /// others go to short runs from kept states.
    pub(crate) fn next_plan(&mut self) -> Result<Plan<A>, NoMemory> {
        if self.clock == self.begun && self.record.runs > 0 {
            self.clock = self.clock.saturating_add(1);
        }
        self.begun = self.clock;
        self.record.begins();
        if let Some(value) = self.next_plain_value() {
            self.plain = self.plain.saturating_add(1);
            return self.plan_plain(0, value);
        }
        if self.roamed <= self.clock / 4 {
            return self.plan_long();
        }
        if self.clock > self.lesson {
            self.lesson = self.clock.saturating_add(self.clock / 4);
            self.failed_tests.candidates.teach(&mut self.dictionary)?;
        }
        self.plan()
    }

    /// What the next run without a key gives as every frame and as the switches, if there is to be another one:
    /// a second one makes sense only if the program asked for one of these.
    fn next_plain_value(&self) -> Option<Option<u16>> {
        if self.plain > 0 && !self.asks_without_keys {
            return None;
        }
        PLAIN_VALUES.get(self.plain).copied()
    }

    /// A long run from a kept state in which no key is struck, and every frame and the switches are this value, or
    /// values by chance.
    fn plan_plain(&mut self, state: usize, value: Option<u16>) -> Result<Plan<A>, NoMemory> {
        let given = Vec::new(self.alloc);
        let mut plan = Plan::of(self.alloc, Purpose::Plain, state, given);
        plan.more = usize::MAX;
        plan.in_turn = true;
        if let Some(value) = value {
            plan.few.push(value).map_err(|_| NoMemory)?;
        }
        Ok(plan)
    }

    /// A long run: in one of four cases it goes on from a kept state, in the others it begins at the start. In a search
    /// that has made many steps some of those from kept states go without a key.
    fn plan_long(&mut self) -> Result<Plan<A>, NoMemory> {
        if !self.random.once_in(4) {
            return self.plan_roaming(0);
        }
        let state = self.corpus.pick(&mut self.random);
        if self.clock > FIRST_PLAIN_FROM_STATES && self.random.once_in(4) {
            return self.plan_plain(state, None);
        }
        self.plan_roaming(state)
    }

    /// A long run from a kept state, mostly with the same few inputs.
    fn plan_roaming(&mut self, state: usize) -> Result<Plan<A>, NoMemory> {
        let given = Vec::new(self.alloc);
        let mut plan = Plan::of(self.alloc, Purpose::Explore, state, given);
        plan.more = 20usize << (self.random.below(8) & 7);
        if !self.random.once_in(3) {
            plan.few = self.dictionary.few(self.alloc, &mut self.random)?;
        }
        Ok(plan)
    }

    /// What to try next: a hint that came nearer, another hint, or a run from a kept state.
    fn plan(&mut self) -> Result<Plan<A>, NoMemory> {
        if !self.random.once_in(4) {
            if let Some(hint) = self.failed_tests.hints.pop_nearer() {
                return Ok(Plan::by_hint(self.alloc, hint, 1));
            }
        }
        if self.random.once_in(2) {
            if let Some(hint) = self.failed_tests.hints.pop(&mut self.random) {
                let more = self.random.below(3);
                return Ok(Plan::by_hint(self.alloc, hint, more));
            }
        }
        self.plan_growing()
    }

    /// A run from a kept state.
    fn plan_growing(&mut self) -> Result<Plan<A>, NoMemory> {
        let state = self.corpus.pick(&mut self.random);
        let mut plan = match self.random.below(8) {
            0 => self.plan_again(state)?,
            1 => self.plan_repeated(state)?,
            2 | 3 => self.plan_few(state)?,
            _ => self.plan_other(state)?,
        };
        plan.more = self.how_many_more(plan.in_turn);
        if plan.given.is_empty() {
            plan.more = plan.more.max(1);
        }
        Ok(plan)
    }

    /// How many inputs come behind those that are given: mostly a few.
    fn how_many_more(&mut self, in_turn: bool) -> usize {
        match self.random.below(8) {
            0 | 1 | 2 | 3 => self.random.below(3),
            4 | 5 => self.random.below(8),
            6 => self.random.below(32),
            _ if in_turn => self.random.below(600),
            _ => self.random.below(100),
        }
    }

    /// A run with one more input than led to a kept state, or with some of the last ones changed.
    fn plan_other(&mut self, state: usize) -> Result<Plan<A>, NoMemory> {
        if state != 0 && self.random.once_in(3) {
            self.plan_changed(state)
        } else {
            self.plan_next(state)
        }
    }

    /// A run with an input more, or with some of the last ones changed, after which come a few values again and again.
    fn plan_few(&mut self, state: usize) -> Result<Plan<A>, NoMemory> {
        let mut plan = self.plan_other(state)?;
        plan.few = self.dictionary.few(self.alloc, &mut self.random)?;
        Ok(plan)
    }

    /// A run from a kept state with one input: each byte in turn, and every other time one by chance.
    fn plan_next(&mut self, state: usize) -> Result<Plan<A>, NoMemory> {
        let tries = self.corpus.tries(state);
        let ask = self.corpus.ask(state);
        let mask: usize = match ask {
            InputRequest::Key | InputRequest::Frame => 0o377,
            InputRequest::Switches => 0o7777,
        };
        let value = if tries & 1 == 0 && tries / 2 <= mask {
            let turn = (tries / 2)
                .wrapping_mul(167)
                .wrapping_add(state.wrapping_mul(61));
            (turn & mask & 0o7777) as u16
        } else {
            self.dictionary.value(&mut self.random, ask)
        };
        let mut given = Vec::new(self.alloc);
        given.push(value).map_err(|_| NoMemory)?;
        Ok(Plan::of(self.alloc, Purpose::Extend, state, given))
    }

    /// A run in which some of the last inputs before a kept state are others.
    fn plan_changed(&mut self, state: usize) -> Result<Plan<A>, NoMemory> {
        let least = 1 + self.random.below(12);
        let tail = self.corpus.tail(state, least)?;
        if tail.inputs.len() >= MOST_CHANGED {
            return self.plan_next(state);
        }
        let ask = self.corpus.ask(state);
        let mut given = values(self.alloc, &tail.inputs)?;
        self.change(&mut given, ask)?;
        if self.random.once_in(2) {
            self.change(&mut given, ask)?;
        }
        Ok(Plan::of(self.alloc, Purpose::Extend, tail.base, given))
    }

    /// Changes one of some inputs, takes it out, or puts one in.
    fn change(&mut self, inputs: &mut Vec<u16, A>, ask: InputRequest) -> Result<(), NoMemory> {
        let value = self.dictionary.value(&mut self.random, ask);
        let place = self.random.below(inputs.len().saturating_add(1));
        let kind = self.random.below(5);
        if kind == 2 && place < inputs.len() {
            inputs.remove(place);
            return Ok(());
        }
        if let Some(input) = inputs.get_mut(place) {
            if kind == 4 {
                let off = (self.random.below(8) & 7) as u16;
                *input = moved(*input, off, self.random.once_in(2));
                return Ok(());
            }
            if kind < 2 {
                *input = value;
                return Ok(());
            }
        }
        if place <= inputs.len() {
            inputs.insert(place, value).map_err(|_| NoMemory)?;
        }
        Ok(())
    }

    /// A run with an input more, or with some of the last ones changed, after which comes one value again and again.
    fn plan_repeated(&mut self, state: usize) -> Result<Plan<A>, NoMemory> {
        let mut plan = self.plan_other(state)?;
        let ask = self.corpus.ask(state);
        let any = self.dictionary.value(&mut self.random, ask);
        let last = plan.given.last().copied();
        let value = if self.random.once_in(2) {
            any
        } else {
            last.unwrap_or(any)
        };
        plan.few.push(value).map_err(|_| NoMemory)?;
        plan.in_turn = true;
        Ok(plan)
    }

    /// A run from a kept state with the last few inputs before it again and again; any where none led to it.
    fn plan_again(&mut self, state: usize) -> Result<Plan<A>, NoMemory> {
        let count = 1 + self.random.below(5);
        let tail = self.corpus.tail(state, count)?;
        let skipped = tail.inputs.len().saturating_sub(count);
        let mut plan = Plan::of(self.alloc, Purpose::Extend, state, Vec::new(self.alloc));
        plan.few = values(self.alloc, tail.inputs.get(skipped..).unwrap_or(&[]))?;
        plan.in_turn = true;
        Ok(plan)
    }
}

/// The values of some inputs.
fn values<A: Allocator>(alloc: A, inputs: &[Input]) -> Result<Vec<u16, A>, NoMemory> {
    let mut values = Vec::new(alloc);
    for input in inputs {
        values.push(input.value).map_err(|_| NoMemory)?;
    }
    Ok(values)
}

/// A value that is 1 to 8 greater or less.
fn moved(value: u16, off: u16, is_less: bool) -> u16 {
    let moved = if is_less {
        value.wrapping_sub(off).wrapping_sub(1)
    } else {
        value.wrapping_add(off).wrapping_add(1)
    };
    moved & 0o7777
}
