//! Room for the facts of outcomes and for those on the way to them.
//!
//! A fact for which things are checked has at most 132 cells and 68 relations: one of a certificate, narrowed by the rules of
//! sums.

use domain::SumFact;

/// Room for a fact for which things are checked, after the pointer of a reference was incremented.
pub type SteppedFact = SumFact<133, 68>;

/// Room for a fact that is narrowed once more, after the test of a skip.
pub type TestedFact = SumFact<273, 140>;

/// Room for the fact of an outcome.
pub type NextFact = SumFact<278, 140>;
