//! How sets that go on growing are made ones that do not: on to the next words at which sets may end.

use crate::settings::Pace;
use word12::Word;
use wordset::WordSet;

/// The cells that ISZ counts by name, words at which sets may end (the program's constants, and
/// the ends of what may be written and read), and how many runs a set may have.
#[derive(Clone, Copy)]
pub(crate) struct Limits {
    pub(crate) counted: WordSet,
    pub(crate) landmarks: WordSet,
    pub(crate) most_runs: usize,
}

impl Limits {
    /// A set, filled where it has too many runs.
    pub(crate) fn with_few_runs(&self, set: &WordSet) -> WordSet {
        let after = set.shift(Word::ZERO.increment());
        if set.minus(&after).count() > self.most_runs {
            filled(set)
        } else {
            *set
        }
    }

    /// A set that grew out of another so often in the first search.
    pub(crate) fn widened(
        &self,
        pace: &Pace,
        old: &WordSet,
        set: &WordSet,
        growths: u32,
        counted: bool,
    ) -> WordSet {
        let smooth = self.with_few_runs(set);
        let is_count = counted && growths >= pace.count && growths < pace.end_of_count;
        if is_count && is_negative(&smooth) {
            return up_to_the_end(&smooth);
        }
        if growths >= pace.all {
            return WordSet::all();
        }
        if growths >= pace.landmarks {
            return to_landmarks(old, &smooth, &self.landmarks);
        }
        smooth
    }
}

/// From the least word of a set to its greatest.
fn filled(set: &WordSet) -> WordSet {
    match set.least() {
        None => *set,
        Some(low) => match set.greatest() {
            None => *set,
            Some(high) => WordSet::range(low, high),
        },
    }
}

/// From the least word of a set to 7777.
fn up_to_the_end(set: &WordSet) -> WordSet {
    match set.least() {
        None => *set,
        Some(low) => WordSet::range(low, Word::ZERO.complement()),
    }
}

/// Whether a set has words from 4000 on alone.
fn is_negative(set: &WordSet) -> bool {
    set.least().is_some_and(|low| low.is_negative())
}

/// The least boundary from a word on, or 7777.
fn boundary_from(boundaries: &WordSet, word: Word) -> Word {
    match boundaries.first_from(word.index()) {
        None => Word::ZERO.complement(),
        Some(found) => found,
    }
}

/// The greatest boundary up to a word, if there is one.
fn boundary_up_to(boundaries: &WordSet, word: Word) -> Option<Word> {
    boundaries
        .meet(&WordSet::range(Word::ZERO, word))
        .greatest()
}

/// A set that grew out of another, on to the next landmarks where it grew.
fn to_landmarks(old: &WordSet, set: &WordSet, landmarks: &WordSet) -> WordSet {
    let Some(low) = set.least() else {
        return *set;
    };
    let Some(high) = set.greatest() else {
        return *set;
    };
    let from = if old.least() == Some(low) {
        low
    } else {
        boundary_up_to(landmarks, low).unwrap_or(Word::ZERO)
    };
    let to = if old.greatest() == Some(high) {
        high
    } else {
        boundary_from(landmarks, high)
    };
    WordSet::range(from, to)
}

/// By how much a set is turned so that it begins behind its longest gap: the first word there.
fn behind_longest_gap(set: &WordSet) -> Word {
    let Some(first) = set.least() else {
        return Word::ZERO;
    };
    let Some(last) = set.greatest() else {
        return Word::ZERO;
    };
    let mut longest = first.index() + 4096 - last.index();
    let mut start = first;
    let mut before = last;
    for (low, high) in set.ranges() {
        if low.index() > before.index() {
            let gap = low.index() - before.index();
            if gap > longest {
                longest = gap;
                start = low;
            }
        }
        before = high;
    }
    start
}

/// The words above a word.
fn above(word: Word) -> WordSet {
    WordSet::all().minus(&WordSet::range(Word::ZERO, word))
}

/// The words of a set from a word on.
fn from_on(set: &WordSet, word: Word) -> WordSet {
    set.meet(&WordSet::range(word, Word::from_index(0o7777)))
}

/// A set that grew out of one that begins with 0 and ends with a word: what is new before the longest gap went on upwards, and
/// what is new after it came from above.
fn beyond(top: Word, grown: &WordSet, new: &WordSet, thresholds: &WordSet) -> WordSet {
    let start = behind_longest_gap(grown);
    let down = if start > top {
        from_on(new, start)
    } else {
        WordSet::empty()
    };
    let mut set = *grown;
    if let Some(last) = new.minus(&down).greatest() {
        set.insert_range(top, boundary_from(thresholds, last));
    }
    if let Some(first) = down.least() {
        let from = boundary_up_to(&thresholds.meet(&above(top)), first).unwrap_or(first);
        set.insert_range(from, Word::from_index(0o7777));
    }
    set
}

/// A set that grew out of another, on to the next thresholds where it grew, counted from the start of the longest gap, so that a
/// count of negative numbers ends at 0.
pub(crate) fn to_thresholds(old: &WordSet, grown: &WordSet, thresholds: &WordSet) -> WordSet {
    let start = behind_longest_gap(old);
    let back = start.complement().increment();
    let turned = old.shift(back);
    let more = grown.shift(back);
    let Some(top) = turned.greatest() else {
        return *grown;
    };
    let new = more.minus(&turned).meet(&above(top));
    let wide = if new.is_empty() {
        more.union(&WordSet::range(Word::ZERO, top))
    } else {
        beyond(top, &more, &new, &thresholds.shift(back))
    };
    wide.shift(start)
}
