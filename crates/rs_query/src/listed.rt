//! The rows of an entry whose cells are equal to those of an earlier one, in lists.

ghost use Rattle.std.specs.Prelude.{◌≡◌, ◌≤◌, IfOk, IfSome};
ghost use Rattle.std.specs.List.{AllByRecursion};
ghost use Rattle.rs_rank.specs.Masks.{mask_of};
ghost use Rattle.rs_query.specs.Searching.{AreListed, AreTied, IsEquatedBy};
ghost use Rattle.rs_query.specs.WellFormed.{IsBlock, IsColumn, column_kind};

use crate::block::Block;
use crate::conjunct::Conjunct;
use crate::equal_rows::EqualRows;
use crate::row_search::RowSearch;
use crate::steps::equated_by;
use rs_catalog::Snapshot;
use rs_rank::mask_of;
use rs_value::Memory;
use std::alloc::Global;

/// The rows that are equal in all columns of two entries which conditions equate.
#[derive(Drop)]
pub(crate) struct Listed {
    /// The columns beside those of the tie, in the same order of the entries.
    pub others: Vec<((u8, u8), (u8, u8))>,
    pub rows: EqualRows,
}

impl Block {
    /// The rows of equal cells of two columns of one kind, and of others of their entries, or none where the rows are scanned. To
    /// make the lists takes about as long again for each pair of others.
    pub(crate) fn listed(
        &self,
        alloc: Global,
        catalog: &Snapshot<'_>,
        left: (u8, u8),
        right: (u8, u8),
        search: RowSearch,
    ) -> Result<Option<Listed>, Memory>
        requires block { IsBlock catalog.now self.now }
        requires left { IsColumn catalog.now self.now left }
        requires right { IsColumn catalog.now self.now right }
        requires kinds { column_kind catalog.now self.now left ≡ column_kind catalog.now self.now right }
        ensures { IfOk result (λ listed. IfSome listed (AreListed catalog.now self.now left right)) }
    {
        if let RowSearch::Scan = search {
            return Ok(None);
        }
        let others = self.others(alloc, catalog, left, right, search)?;
        let mut rows = self.equal_rows(alloc, catalog, left, right)?;
        for columns in &others {
            rows = self.refined(alloc, catalog, rows, columns.0, columns.1)?;
        }
        Ok(Some(Listed { others, rows }))
    }

    /// The other columns of the entries of two columns that conditions equate, or none where one equality is enough.
    fn others(
        &self,
        alloc: Global,
        catalog: &Snapshot<'_>,
        left: (u8, u8),
        right: (u8, u8),
        search: RowSearch,
    ) -> Result<Vec<((u8, u8), (u8, u8))>, Memory>
        requires block { IsBlock catalog.now self.now }
        requires left { IsColumn catalog.now self.now left }
        ensures { IfOk result (λ others. AllByRecursion (λ pair. AreTied catalog.now self.now (mask_of left.0) right.0 pair.0 pair.1) others.items) }
    {
        let mut others = Vec::new(alloc);
        if let RowSearch::OneEquality = search {
            return Ok(others);
        }
        for conjunct in self.conjuncts.items() {
            if let Some(columns) = other_by(conjunct, left, right) {
                // The cells of both columns are of their kinds.
                let _ = self.kind(catalog, columns.0);
                let _ = self.kind(catalog, columns.1);
                others.push(columns)?;
            }
        }
        Ok(others)
    }
}

/// The columns that a conjunct equates, where they are others of the same entries.
fn other_by(conjunct: &Conjunct, left: (u8, u8), right: (u8, u8)) -> Option<((u8, u8), (u8, u8))>
    requires equality { IfSome conjunct.now.equality (λ columns. (1 ≤ columns.0.0) × (columns.0.0 ≤ 8) × (1 ≤ columns.1.0) × (columns.1.0 ≤ 8)) }
    requires least { 1 ≤ left.0 }
    requires most { left.0 ≤ 8 }
    ensures { IfSome result (λ columns. IsEquatedBy conjunct.now (mask_of left.0) right.0 columns.0 columns.1) }
{
    let columns = equated_by(conjunct, mask_of(left.0), right.0)?;
    if columns == (left, right) {
        return None;
    }
    Some(columns)
}
