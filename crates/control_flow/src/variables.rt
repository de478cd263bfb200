//! Which cells a program may change.

use crate::map::Map;
use crate::trials::loaded;
use bin_tape::Image;
use wordset::WordSet;

/// Which cells are taken for variables, beside those that instructions store in by name.
#[derive(Clone, Copy)]
pub enum VariableSelection {
    /// None.
    Stored,
    /// Those that are no code and that no instruction names, and those without a word on the tape.
    Tables,
    /// All that are no code.
    Data,
}

impl Map {
    /// The cells that are taken for variables.
    pub fn variables(&self, image: &Image, breadth: VariableSelection) -> WordSet {
        let data = WordSet::all().minus(&self.round.code);
        let more = match breadth {
            VariableSelection::Stored => WordSet::empty(),
            VariableSelection::Tables => data.minus(&loaded(image).meet(&self.round.named)),
            VariableSelection::Data => data,
        };
        self.known.stored.union(&more).minus(&self.known.entries)
    }
}
