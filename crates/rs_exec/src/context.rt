//! What the nodes of one query share.

ghost use Rattle.std.specs.Prelude.{◌≡◌, IfOk};
ghost use Rattle.rs_query.specs.Blocks.{block_in};
ghost use Rattle.rs_exec.specs.OutputValues.{CanPutOut, values_for};

use rs_catalog::Snapshot;
use rs_filter::project;
use rs_query::{Block, Query, block_in};
use rs_rank::RankRow;
use rs_value::{Memory, Value};
use std::alloc::Global;

/// What the nodes of one query share: the query, what is seen of the catalogue, and where memory comes from. Its nodes see all rows
/// of its tables there.
#[derive(Clone, Copy)]
pub(crate) struct QueryContext<'a> {
    pub(crate) alloc: Global,
    pub(crate) catalog: &'a Snapshot<'a>,
    pub(crate) query: &'a Query,
}

impl<'a> QueryContext<'a> {
    /// The block of this number. A query of one block has it alone.
    pub(crate) fn block(&self, number: u8) -> &'a Block
        ensures { result.now ≡ block_in self.now.query.now number }
    {
        block_in(self.query, number)
    }

    /// The values of the output columns of a row, which are those of its block.
    pub(crate) fn outputs(&self, row: &RankRow) -> Result<Vec<Value>, Memory>
        requires { CanPutOut self.now.catalog.now self.now.query.now row.now }
        ensures { IfOk result (λ values. values.items ≡ values_for self.now.catalog.now self.now.query.now row.now) }
    {
        project(self.alloc, self.catalog, self.block(row.ids.block), row)
    }
}
