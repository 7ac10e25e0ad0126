ghost use Rattle.std.specs.Prelude.{◌≡◌, IfOk, true};
ghost use Rattle.rs_query.specs.Meaning.{AreInside, all_hold, is_inside, outputs_of};
ghost use Rattle.rs_query.specs.Tables.{HasRows};
ghost use Rattle.rs_query.specs.WellFormed.{IsBlock, entries_mask};

use rs_catalog::Snapshot;
use rs_query::Block;
use rs_rank::RankRow;
use rs_value::{Memory, Value};
use std::alloc::Global;

/// Whether every conjunct in a mask holds of a row. The first conjunct has the lowest bit, and the row has all entries of which
/// these conjuncts speak. It takes no memory.
pub fn passes(catalog: &Snapshot<'_>, block: &Block, conjuncts: u32, row: &RankRow) -> bool
    requires block { IsBlock catalog.now block.now }
    requires inside { AreInside conjuncts row.now.ids.mask block.now.conjuncts }
    requires rows { HasRows catalog.now block.now row.now.ids.mask row.now.ids.rows }
    ensures { result ≡ all_hold catalog.now block.now conjuncts row.now.ids.rows block.now.conjuncts }
{
    block.holds(catalog, conjuncts, &row.ids)
}

/// The values of the output columns of a row, which has all entries of these columns.
///
/// # Errors
///
/// - `Memory`: at any call.
pub fn project(
    alloc: Global,
    catalog: &Snapshot<'_>,
    block: &Block,
    row: &RankRow,
) -> Result<Vec<Value>, Memory>
    requires block { IsBlock catalog.now block.now }
    requires inside { is_inside (entries_mask block.now.items) row.now.ids.mask ≡ true }
    requires rows { HasRows catalog.now block.now row.now.ids.mask row.now.ids.rows }
    ensures { IfOk result (λ values. values.items ≡ outputs_of catalog.now block.now row.now.ids.rows) }
{
    block.outputs(alloc, catalog, &row.ids)
}
