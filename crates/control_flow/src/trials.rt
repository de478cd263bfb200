//! What is tried: whether there is code after a HLT, or where a word of a table leads.

use crate::map::Map;
use crate::tape::Tape;
use bin_tape::Image;
use word12::Word;
use wordset::WordSet;

/// How many halts, and how many words of tables, are tried.
const MOST_TRIALS: usize = 256;

/// The cells that the tape has words for.
pub(crate) fn loaded(image: &Image) -> WordSet {
    let mut cells = WordSet::empty();
    for index in 0..4096usize {
        let at = Word::from_index(index);
        if image.get(at).is_some() {
            cells.insert(at);
        }
    }
    cells
}

impl Map {
    /// Goes on after each halt behind which there is code: what comes there leads to no cell that
    /// cannot be in the body, and to none that is named as a datum. Some halts are as they are.
    pub(crate) fn try_halts(&mut self, tape: &Tape<'_>, decided: &WordSet) {
        let mut tried = *decided;
        for _trial in 0..MOST_TRIALS {
            let Some(halt) = self.round.halts.minus(&tried).least() else {
                return;
            };
            tried.insert(halt);
            let mut trial = *self;
            trial.pauses.insert(halt);
            trial.settle(tape);
            if trial.is_code_beside(self) {
                *self = trial;
            }
        }
    }

    /// Goes on by JMS and JMP words of which it is not known where they go, to each word of a table
    /// behind which there is code.
    pub(crate) fn try_tables(&mut self, tape: &Tape<'_>) {
        let words = self.table_words(tape);
        let mut next = 0usize;
        for _trial in 0..MOST_TRIALS {
            let Some(to) = words.first_from(next) else {
                return;
            };
            self.try_target(tape, to);
            next = to.index() + 1;
        }
    }

    /// Goes on by such words to an address, if there is code.
    fn try_target(&mut self, tape: &Tape<'_>, to: Word) {
        if !self.round.calls.is_empty() {
            let mut trial = *self;
            trial.called.insert(to);
            trial.settle(tape);
            if trial.is_code_beside(self) && trial.stays_as(self) {
                *self = trial;
                return;
            }
        }
        if !self.round.jumps.is_empty() {
            let mut trial = *self;
            trial.jumped.insert(to);
            trial.settle(tape);
            if trial.is_code_beside(self) {
                *self = trial;
            }
        }
    }

    /// The words of cells that are no code and that no instruction names, where they are addresses of
    /// cells on the tape.
    fn table_words(&self, tape: &Tape<'_>) -> WordSet {
        let all = loaded(tape.image);
        let cells = all
            .minus(&self.round.code)
            .minus(&self.round.named)
            .minus(&self.known.entries);
        let mut words = WordSet::empty();
        for cell in cells.iter() {
            if let Some(word) = tape.get(cell) {
                words.insert(word);
            }
        }
        words.meet(&all)
    }

    /// Whether routines jump to no other cells of main than before.
    fn stays_as(&self, before: &Map) -> bool {
        self.round.abandons.is_subset(&before.round.abandons)
    }

    /// Whether what is found beside what was found before is code.
    fn is_code_beside(&self, before: &Map) -> bool {
        self.round.astray.is_subset(&before.round.astray)
            && self
                .round
                .code
                .minus(&before.round.code)
                .meet(&self.round.named)
                .is_empty()
    }
}
