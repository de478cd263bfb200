//! How many cells, relations and chains a fact tells of.

ghost use Rattle.std.specs.Prelude.{◌≤◌, length};
ghost use Rattle.domain.specs.CellsInCode.{cell_sets_of};
ghost use Rattle.domain.specs.RelationsInCode.{relations_of};

use crate::sum_fact::SumFact;

impl<const C: usize, const R: usize> SumFact<C, R> {
    /// The proof of what narrows a fact needs that no more is told than there is room for.
    pub fn is_within_room(&self)
        ensures cells { length (cell_sets_of self.now.cells) ≤ C }
        ensures relations { length (relations_of self.now.relations) ≤ R }
        ensures chains { length self.now.chains.items ≤ 72 }
    {
        let _cells = self.cells.len();
        let _relations = self.relations.len();
        let _chains = self.chains.as_slice();
    }
}
