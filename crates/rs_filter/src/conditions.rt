ghost use Rattle.std.specs.Prelude.{◌≡◌, ◌≤◌, IfOk, length};
ghost use Rattle.rs_filter.specs.Conditions.{conditions_of, equated_columns};
ghost use Rattle.rs_filter.specs.Matching.{conjuncts_across};
ghost use Rattle.rs_query.specs.WellFormed.{IsBlock};

use crate::join_values::{equated_across, is_equi_join};
use rs_catalog::Snapshot;
use rs_query::{Block, sizes_of};
use rs_rank::union;
use rs_value::{List, Memory};
use std::alloc::Global;

/// What a join of two sides of a block looks at: facts of the block and of its tables, which are worked out once. The conjuncts that
/// speak of one side alone are those of the sides.
#[derive(Debug, Drop)]
pub struct JoinConditions {
    /// The masks of the entries of the sides.
    pub left: u8,
    pub right: u8,
    /// How many rows the table of each entry has.
    pub sizes: [u32; 6],
    /// The mask of the conjuncts that speak of both sides.
    pub across: u32,
    /// The columns that these equate, in their order, that of the left side first.
    pub columns: List<((u8, u8), (u8, u8))>,
    /// Whether each of them equates two. Then rows of the two sides that have equal join values match.
    pub exact: bool,
}

impl JoinConditions {
    /// Those of a join of sides that have the entries of these masks.
    ///
    /// # Errors
    ///
    /// - `Memory`: at any call.
    pub fn new(
        alloc: Global,
        catalog: &Snapshot<'_>,
        block: &Block,
        left: u8,
        right: u8,
    ) -> Result<JoinConditions, Memory>
        requires { IsBlock catalog.now block.now }
        ensures { IfOk result (λ conditions. conditions ≡ conditions_of catalog.now block.now left right) }
    {
        let columns = equated_columns(alloc, catalog, block, left, right)?;
        Ok(JoinConditions {
            left,
            right,
            sizes: sizes_of(catalog, block),
            across: across(block, left, right),
            columns: List::of(columns),
            exact: is_equi_join(catalog, block, left, right),
        })
    }
}

/// The columns that conjuncts equate across the sides, in the order of the conjuncts.
fn equated_columns(
    alloc: Global,
    catalog: &Snapshot<'_>,
    block: &Block,
    left: u8,
    right: u8,
) -> Result<Vec<((u8, u8), (u8, u8))>, Memory>
    requires { IsBlock catalog.now block.now }
    ensures { IfOk result (λ columns. columns.items ≡ equated_columns left right block.now.conjuncts) }
{
    let mut columns = Vec::new(alloc);
    for conjunct in block.conjuncts.items() {
        if let Some(pair) = equated_across(catalog, block, conjunct, left, right) {
            columns.push(pair)?;
        }
    }
    Ok(columns)
}

/// The mask of the conjuncts that speak of entries of both sides.
fn across(block: &Block, left: u8, right: u8) -> u32
    requires { length block.now.conjuncts ≤ 32 }
    ensures { result ≡ conjuncts_across left right block.now.conjuncts }
{
    // What is inside one side is inside both together.
    block.within(union(left, right)) - (block.within(left) | block.within(right))
}
