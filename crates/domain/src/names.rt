//! Sets of names, of which relations may go.

ghost use Rattle.std.specs.Prelude.{◌≡◌, not};
ghost use Rattle.wordset.specs.Lanes.{words};
ghost use Rattle.domain.specs.Locations.{has_cell, is_outside};
ghost use Rattle.domain.specs.LocationsInCode.{location_of};
ghost use Rattle.domain.specs.Moves.{cells_of};

use crate::location::{Location, is_same_location};
use word12::Word;
use wordset::WordSet;

/// Some names.
///
/// Contracts see them as `names_of` gives them.
#[derive(Drop)]
pub enum Names<'a> {
    /// One name.
    One(Location),
    /// The cells of a set.
    Cells(&'a WordSet),
    /// The accumulator, and the cells of a set: what a call may change.
    Changing(&'a WordSet),
}

/// Whether a set has a cell.
#[tactic(auto, using(crate::proofs::NameLemmas::has_cell_words))]
fn has_cell(cells: &WordSet, cell: Word) -> bool
    ensures { result ≡ has_cell (words cells.now) cell }
{
    cells.contains(cell)
}

/// Whether a name is one of the cells of a set.
fn is_cell_of(cells: &WordSet, name: &Location) -> bool
    ensures { result ≡ cells_of (words cells.now) (location_of name.now) }
{
    match name {
        Location::Accumulator => false,
        Location::Cell(cell) => has_cell(cells, *cell),
    }
}

/// Whether a name is the accumulator or one of the cells of a set.
fn is_changing(cells: &WordSet, name: &Location) -> bool
    ensures { result ≡ not (is_outside (words cells.now) (location_of name.now)) }
{
    match name {
        Location::Accumulator => true,
        Location::Cell(cell) => has_cell(cells, *cell),
    }
}

impl Names<'_> {
    ghost use Rattle.domain.specs.Naming.{names_of};

    /// Whether a name is one of them.
    pub fn contains(&self, name: &Location) -> bool
        ensures { result ≡ names_of self.now (location_of name.now) }
    {
        match self {
            Names::One(one) => is_same_location(name, one),
            Names::Cells(cells) => is_cell_of(cells, name),
            Names::Changing(cells) => is_changing(cells, name),
        }
    }
}
