//! Room for facts.
//!
//! A fact of a certificate has at most 64 cells, 32 relations and 4 chains. A narrowed fact has at most two cells and one
//! relation more for each relation, and one of each for each chain.

use domain::SumFact;

/// Room for a fact of a certificate.
pub type Fact = SumFact<64, 32>;

/// Room for the fact for which things are checked: one of a certificate, narrowed by the rules of sums, and as it stands by
/// those of equations.
pub type NarrowedFact = SumFact<132, 68>;

/// Room for a part of an outcome: the fact of one link, narrowed.
pub type PartFact = SumFact<632, 352>;

/// Room for a part with the set of one of its names met with that of another fact.
pub type ChosenFact = SumFact<633, 352>;

/// Room for such a fact, narrowed.
pub type MetFact = SumFact<1409, 776>;
