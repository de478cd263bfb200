//! Sets of words packed: each by its runs, and the runs of all sets in one list.

ghost use Rattle.std.specs.Prelude.{◌≡◌, ◌+◌, ◌<◌, ◌≤◌, length, drop, true, false, IfOk, OnOk};
ghost use Rattle.wordset.specs.Words.{between, union};
ghost use Rattle.wordset.specs.Lanes.{words};
ghost use Rattle.certificate_lines.specs.declared.runs.Run.{Run};
ghost use Rattle.certificate_lines.specs.LineText.{IsLastOf};
ghost use Rattle.certificate_lines.specs.Runs.{Begins, set_of_runs, added, set_at, StandApart, AreLaid};

use arrayvec::ArrayVec;
use std::alloc::{AllocError, Allocator};
use std::marker::Model;
use word12::Word;
use wordset::{Links, WordSet};

/// Words in a row: the first and the last one.
#[derive(Clone, Copy)]
pub struct Run {
    pub first: Word,
    pub last: Word,
}

impl Default for Run {
    // The word 0000 alone.
    ghost is_default = { λ it. it ≡ record { first = 0; last = 0 } };

    fn default() -> Self {
        Run {
            first: Word::ZERO,
            last: Word::ZERO,
        }
    }
}

/// How many runs each of two sets has; those of the one lie before those of the other.
#[derive(Clone, Copy)]
pub struct RunCounts {
    pub one: u16,
    pub other: u16,
}

/// What a line says of a routine, its sets packed: the sites, and then the written cells.
#[derive(Clone, Copy)]
pub struct PackedRoutine {
    pub entry: Word,
    pub rank: u8,
    pub sets: RunCounts,
}

/// The words that the accumulator and then those that MQ may hold, packed, and the links.
#[derive(Clone, Copy)]
pub struct PackedRegisters {
    pub sets: RunCounts,
    pub link: Links,
}

/// No line has more runs: each of three sets has at most 2048.
const MOST_RUNS: usize = 6144;

/// The runs of a line's sets.
pub type Runs = ArrayVec<Run, MOST_RUNS>;

/// The last word of the run that begins at a word, by the words that are not in the set.
pub fn last_before(others: &WordSet, low: Word) -> Word
    requires { words others.now low ≡ false }
    ensures { IsLastOf (words others.now) low result }
{
    match others.first_from(low.index()) {
        Some(after) => Word::from_index(after.index() - 1),
        None => Word::from_index(4095),
    }
}

/// Adds the runs of a set in rising order, of which there are at most 4096; where that is refused,
/// some of them.
fn push_runs<A: Allocator>(runs: &mut Vec<Run, A>, set: &WordSet) -> Result<(), AllocError>
    ensures front { Begins runs.old.items runs.new.items }
    ensures few { OnOk result (length runs.new.items ≤ length runs.old.items + 4096) }
    ensures whole { OnOk result (added runs.old.items runs.new.items ≡ words set.now) }
{
    let others = WordSet::all().minus(set);
    let mut next = 0;
    while let Some(first) = set.first_from(next) {
        let last = last_before(&others, first);
        runs.push(Run { first, last })?;
        next = last.index() + 2;
    }
    Ok(())
}

/// Adds the runs of a set, and returns how many there are.
pub fn lay<A: Allocator>(runs: &mut Vec<Run, A>, set: &WordSet) -> Result<u16, AllocError>
    ensures front { Begins runs.old.items runs.new.items }
    ensures count { IfOk result (λ count.
        length runs.old.items + count ≡ length runs.new.items) }
    ensures laid { OnOk result (added runs.old.items runs.new.items ≡ words set.now) }
{
    let first = runs.len();
    push_runs(runs, set)?;
    Ok((runs.len() - first) as u16)
}

/// Adds the runs of two sets, and returns how many there are.
pub fn lay_two<A: Allocator>(
    runs: &mut Vec<Run, A>,
    one: &WordSet,
    other: &WordSet,
) -> Result<RunCounts, AllocError>
    ensures front { Begins runs.old.items runs.new.items }
    ensures laid { IfOk result (λ sets. AreLaid
        (drop (length runs.old.items) runs.new.items) sets (words one.now) (words other.now)) }
{
    let one = lay(runs, one)?;
    let other = lay(runs, other)?;
    Ok(RunCounts { one, other })
}

/// Whether each of these runs has a word, and between it and the one before lies another word.
pub fn stand_apart(runs: &[Run]) -> bool
    ensures { result ≡ true → StandApart 0 runs.now }
{
    let mut next = 0;
    for run in runs {
        let first = run.first.index();
        let last = run.last.index();
        if first < next || last < first {
            return false;
        }
        next = last + 2;
    }
    true
}

/// The set of which these are runs.
pub fn set_of(runs: &[Run]) -> WordSet
    ensures { words result ≡ set_of_runs runs.now }
{
    let mut set = WordSet::empty();
    put_runs(runs, &mut set);
    set
}

/// Adds the words of a run to a set: quick for one word.
fn insert_run(run: &Run, place: &mut WordSet)
    ensures { words place.new ≡ union (words place.old) (between run.now.first run.now.last) }
{
    if run.first == run.last {
        place.insert(run.first);
        return;
    }
    place.insert_range(run.first, run.last);
}

/// Puts the set of which these are runs into its place, of any count of runs.
#[inline(never)]
pub fn put_runs(runs: &[Run], place: &mut WordSet)
    ensures { words place.new ≡ set_of_runs runs.now }
{
    *place = WordSet::empty();
    for run in runs {
        insert_run(run, place);
    }
}

/// The set of which so many runs from here on are.
pub fn set_in(runs: &[Run], first: usize, count: usize) -> WordSet
    requires { first + count ≤ length runs.now }
    ensures { words result ≡ set_at runs.now first count }
{
    set_of(&runs[first..first + count])
}
