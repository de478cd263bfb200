//! Hints from failed tests: a test that sees the accumulator at d, and wants 0, hints at each of the last
//! inputs less d or more d.

use crate::candidates::{CandidateSource, InputCandidates, Interest, MOST_BACK};
use crate::corpus::{Corpus, InputSuffix};
use crate::dictionary::Dictionary;
use crate::hints::{Goal, Hint, Hints};
use crate::input_request::InputRequest;
use crate::random::Random;
use crate::running::Run;
use peripherals::NoMemory;
use std::alloc::Allocator;
use word12::Word;

/// The most inputs behind a kept state with which a test is looked at.
const MOST_INPUTS: usize = 16;

/// Of the inputs so many of the last ones tell one hint from another.
const MARKED: usize = 6;

/// A distance that is so small is followed in any case.
const NEAR: u16 = 8;

/// A test of the accumulator that found it not 0.
#[derive(Clone, Copy)]
pub(crate) struct FailedTest {
    pub(crate) at: Word,
    pub(crate) ac: u16,
    /// Whether it is for 0, and not for the sign.
    pub(crate) is_for_zero: bool,
}

impl FailedTest {
    /// How far the accumulator is from 0.
    pub(crate) fn distance(&self) -> u16 {
        self.ac.min(4096u16.saturating_sub(self.ac))
    }

    /// Whether hints are taken from it.
    pub(crate) fn hints(&self) -> bool {
        self.is_for_zero || self.distance() < 256
    }
}

/// The last inputs before a test: those behind the run's kept state, and before them some that led to it
/// from another one.
#[derive(Drop)]
struct RecentInputs<A: Allocator> {
    far: InputSuffix<A>,
    /// How many of the inputs are before the run's kept state.
    before: usize,
    near_base: usize,
}

impl<A: Allocator + Copy> RecentInputs<A> {
    /// The last inputs of a run, so many at least if there are.
    fn of(corpus: &Corpus<A>, run: &Run<A>, least: usize) -> Result<RecentInputs<A>, NoMemory> {
        let own = run.inputs.len().saturating_sub(run.before_base);
        let mut far = corpus.tail(run.base, least.saturating_sub(own))?;
        let before = far.inputs.len();
        run.add_inputs(&mut far.inputs)?;
        Ok(RecentInputs {
            far,
            before,
            near_base: run.base,
        })
    }

    /// The place of the input so many back, from 1.
    fn place(&self, back: usize) -> Option<usize> {
        self.far.inputs.len().checked_sub(back)
    }

    /// Where a run with another input at a place begins: the number of its first input, and the kept state.
    fn start(&self, place: usize) -> (usize, usize) {
        if place < self.before {
            (0, self.far.base)
        } else {
            (self.before, self.near_base)
        }
    }

    /// Whether the input at a place is the only one behind the kept state.
    fn is_direct(&self, place: usize) -> bool {
        place >= self.before && self.far.inputs.len().saturating_sub(self.before) == 1
    }

    /// What tells the hint at a value in a place from others.
    fn mark(&self, place: usize, value: u16) -> u64 {
        let (first, base) = self.start(place);
        let length = self.far.inputs.len();
        let mut mark = value as u64;
        for index in first.max(length.saturating_sub(MARKED))..length {
            if index != place {
                let other = self.far.inputs.get(index).map_or(0, |input| input.value);
                mark = mark.wrapping_mul(0x9E37_79B9_7F4A_7C15) ^ (other as u64);
            }
        }
        let back = length.saturating_sub(place) as u64;
        mark = (mark ^ ((base as u64) << 32)).wrapping_add(back);
        mark = mark.wrapping_mul(0xD6E8_FEB8_6659_FD93);
        (mark ^ (mark >> 29)).wrapping_mul(0x9E37_79B9_7F4A_7C15)
    }

    /// The hint at a value in a place.
    fn hint(&self, alloc: A, place: usize, value: u16, goal: Goal) -> Result<Hint<A>, NoMemory> {
        let (first, base) = self.start(place);
        let mut inputs = Vec::new(alloc);
        for index in first..self.far.inputs.len() {
            let given = self.far.inputs.get(index).map_or(0, |input| input.value);
            let input = if index == place { value } else { given };
            inputs.push(input).map_err(|_| NoMemory)?;
        }
        Ok(Hint {
            base,
            inputs,
            goal,
            is_direct: self.is_direct(place),
        })
    }
}

/// The hints and candidates of failed tests.
#[derive(Drop)]
pub(crate) struct FailedTests<A: Allocator> {
    alloc: A,
    pub(crate) hints: Hints<A>,
    pub(crate) candidates: InputCandidates<A>,
}

impl<A: Allocator + Copy> FailedTests<A> {
    /// None yet.
    pub(crate) fn none(alloc: A) -> Result<FailedTests<A>, NoMemory> {
        Ok(FailedTests {
            alloc,
            hints: Hints::none(alloc)?,
            candidates: InputCandidates::new(alloc)?,
        })
    }

    /// A test failed in a run.
    pub(crate) fn miss(
        &mut self,
        corpus: &Corpus<A>,
        run: &Run<A>,
        miss: FailedTest,
        goal: Option<Goal>,
        dictionary: &mut Dictionary<A>,
        random: &mut Random,
    ) -> Result<(), NoMemory> {
        let own = run.inputs.len().saturating_sub(run.before_base);
        if own == 0 || own > MOST_INPUTS {
            return Ok(());
        }
        let interest = self.candidates.meet(miss.at, random)?;
        let is_full = interest == Interest::Full;
        if own > 1 && !is_full {
            return Ok(());
        }
        let most = if miss.is_for_zero && is_full {
            MOST_BACK
        } else {
            1
        };
        let last = RecentInputs::of(corpus, run, most)?;
        let aim = FailedTestTrace {
            miss,
            is_full,
            goal,
            last,
        };
        for back in 1..most + 1 {
            aim.look_back(back, self, dictionary, random)?;
        }
        Ok(())
    }
}

/// A failed test with the inputs before it.
#[derive(Drop)]
struct FailedTestTrace<A: Allocator> {
    miss: FailedTest,
    is_full: bool,
    /// The goal of the run.
    goal: Option<Goal>,
    last: RecentInputs<A>,
}

/// The greatest value of an input.
fn greatest(ask: InputRequest) -> u16 {
    match ask {
        InputRequest::Key | InputRequest::Frame => 0o377,
        InputRequest::Switches => 0o7777,
    }
}

impl<A: Allocator + Copy> FailedTestTrace<A> {
    /// Takes the hints at the input so many back.
    fn look_back(
        &self,
        back: usize,
        failed_tests: &mut FailedTests<A>,
        dictionary: &mut Dictionary<A>,
        random: &mut Random,
    ) -> Result<(), NoMemory> {
        let Some(place) = self.last.place(back) else {
            return Ok(());
        };
        let Some(input) = self.last.far.inputs.get(place).copied() else {
            return Ok(());
        };
        let ac = self.miss.ac;
        for (is_sum, target) in [
            (false, input.value.wrapping_sub(ac)),
            (true, input.value.wrapping_add(ac)),
        ] {
            let target = target & 0o7777;
            let top = greatest(input.ask);
            if back == 1 || target <= top {
                let pointer = CandidateSource {
                    back,
                    is_sum,
                    input: input.value,
                    value: target & top,
                };
                self.count(&pointer, input.ask, failed_tests, dictionary)?;
                self.follow(place, &pointer, failed_tests, random)?;
            }
        }
        self.follow_digits(place, input.value, failed_tests)
    }

    /// Counts a hint.
    fn count(
        &self,
        pointer: &CandidateSource,
        ask: InputRequest,
        failed_tests: &mut FailedTests<A>,
        dictionary: &mut Dictionary<A>,
    ) -> Result<(), NoMemory> {
        if !self.is_full {
            return Ok(());
        }
        match ask {
            InputRequest::Key | InputRequest::Frame => failed_tests
                .candidates
                .add_byte_candidate(self.miss.at, pointer),
            InputRequest::Switches => {
                if pointer.back == 1
                    && failed_tests
                        .candidates
                        .add_word_candidate(self.miss.at, pointer)?
                {
                    dictionary.learn_word(pointer.value)?;
                }
            }
        }
        Ok(())
    }

    /// Lets a hint wait: where it is not known to be a good one, once in sixteen times.
    fn follow(
        &self,
        place: usize,
        pointer: &CandidateSource,
        failed_tests: &mut FailedTests<A>,
        random: &mut Random,
    ) -> Result<(), NoMemory> {
        if pointer.value == pointer.input {
            return Ok(());
        }
        let is_sure = self.miss.distance() <= NEAR
            || failed_tests.candidates.is_good(self.miss.at, pointer);
        if is_sure || random.once_in(16) {
            return self.push(place, pointer.value, failed_tests);
        }
        Ok(())
    }

    /// Where the input was a digit of a number, lets the digits wait that are off by the distance in eights
    /// or tens.
    fn follow_digits(
        &self,
        place: usize,
        digit: u16,
        failed_tests: &mut FailedTests<A>,
    ) -> Result<(), NoMemory> {
        if !self.miss.is_for_zero || !is_digit(digit) {
            return Ok(());
        }
        let distance = self.miss.distance();
        for weight in [8u16, 64, 512, 10, 100] {
            let off = distance / weight;
            if off != 0 && off < 10 {
                self.follow_digit(place, digit.wrapping_sub(off), failed_tests)?;
                self.follow_digit(place, digit.wrapping_add(off), failed_tests)?;
            }
        }
        Ok(())
    }

    /// Lets the hint at a value in a place wait, if it is a digit.
    fn follow_digit(
        &self,
        place: usize,
        value: u16,
        failed_tests: &mut FailedTests<A>,
    ) -> Result<(), NoMemory> {
        if is_digit(value) {
            self.push(place, value, failed_tests)?;
        }
        Ok(())
    }

    /// Lets the hint at a value in a place wait, if it is new: where the run came nearer to its goal, before
    /// all others.
    fn push(
        &self,
        place: usize,
        value: u16,
        failed_tests: &mut FailedTests<A>,
    ) -> Result<(), NoMemory> {
        if !failed_tests.hints.is_new(self.last.mark(place, value)) {
            return Ok(());
        }
        let goal = Goal {
            at: self.miss.at,
            distance: self.miss.distance(),
        };
        let hint = self.last.hint(failed_tests.alloc, place, value, goal)?;
        if self.came_nearer() {
            failed_tests.hints.push_nearer(hint);
            return Ok(());
        }
        failed_tests.hints.push(hint)
    }

    /// Whether the test is the run's goal, and nearer to 0 than before.
    fn came_nearer(&self) -> bool {
        match self.goal {
            Some(goal) => goal.at == self.miss.at && self.miss.distance() < goal.distance,
            None => false,
        }
    }
}

/// Whether a value is a digit with channel 8.
fn is_digit(value: u16) -> bool {
    (0o260..=0o271).contains(&value)
}
