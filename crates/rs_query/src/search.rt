ghost use Rattle.std.specs.Prelude.{◌≡◌, ◌≤◌, IfOk, length};
ghost use Rattle.std.specs.List.{AllByRecursion};
ghost use Rattle.rs_query.specs.Pieces.{IsSearch, combinations_between, with_range};
ghost use Rattle.rs_query.specs.Tables.{HasRows, all_entries, size_of};
ghost use Rattle.rs_query.specs.WellFormed.{IsBlock};

use crate::block::Block;
use crate::step::Step;
use rs_catalog::Snapshot;
use rs_value::Memory;
use std::alloc::Global;

/// A search for the combinations of a block that can be made in pieces, so that all of them needn't be in memory at once. What it
/// takes to find rows of equal cells is made once for all pieces.
#[derive(Drop)]
pub struct Search {
    steps: Vec<Step>,
}

impl Search {
    /// A search that begins at the first entry.
    ///
    /// # Errors
    ///
    /// - `Memory`: at any call.
    pub fn start(alloc: Global, catalog: &Snapshot<'_>, block: &Block) -> Result<Search, Memory>
        requires { IsBlock catalog.now block.now }
        ensures { IfOk result (IsSearch catalog.now block.now) }
    {
        let steps = block.steps(alloc, catalog, 1, &[0; 6])?;
        Ok(Search { steps })
    }

    /// The combinations whose first entry's row comes behind one row, and at or before another one, in lexicographic order.
    ///
    /// # Errors
    ///
    /// - `Memory`: at any call. The search can go on.
    pub fn between(
        &mut self,
        alloc: Global,
        catalog: &Snapshot<'_>,
        block: &Block,
        above: u32,
        last: u32,
    ) -> Result<Vec<[u32; 6]>, Memory>
        requires block { IsBlock catalog.now block.now }
        requires search { IsSearch catalog.now block.now self.old }
        requires last { last ≤ size_of catalog.now block.now 1 }
        ensures search { IsSearch catalog.now block.now self.new }
        ensures value { IfOk result (λ rows. rows.items ≡ combinations_between catalog.now block.now above last) }
        ensures each { IfOk result (λ rows. AllByRecursion (HasRows catalog.now block.now (all_entries block.now)) rows.items) }
    {
        let mut found = Vec::new(alloc);
        if !block.holds_of_all(catalog) {
            return Ok(found);
        }
        self.set_range(above, last);
        block.extend(catalog, &self.steps, 0, [0; 6], &mut found)?;
        found.sort_unstable();
        Ok(found)
    }

    /// Has the first step look at the rows behind one, up to another one.
    fn set_range(&mut self, above: u32, last: u32)
        requires { 1 ≤ length self.old.steps.items }
        ensures { self.new.steps.items ≡ with_range above last self.old.steps.items }
    {
        self.steps[0].above = above;
        self.steps[0].last = last;
    }
}
