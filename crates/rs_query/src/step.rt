//! The steps of a search for combinations.

ghost use Rattle.std.specs.Prelude.{◌≤◌, ℕ};
ghost use Rattle.rs_query.specs.EqualRows.{IsNext};
ghost use Rattle.rs_query.specs.Searching.{Fits, IsStep};
ghost use Rattle.rs_query.specs.Tables.{HasRows};
ghost use Rattle.rs_query.specs.WellFormed.{IsBlock};

use crate::block::Block;
use crate::tie::Tie;
use rs_catalog::Snapshot;

/// A step of a search: rows are tried for one more FROM entry.
#[derive(Drop)]
pub(crate) struct Step {
    pub entry: u8,
    /// Rows behind this one are tried, up to the last one.
    pub above: u32,
    pub last: u32,
    /// The conditions that are new here: they speak of this entry, and else only of entries before it in the search.
    pub conditions: u32,
    /// An equality with an entry before it in the search, where there is one.
    pub tie: Option<Tie>,
}

impl Step {
    /// The first row to be tried behind rows of the earlier entries, or 0.
    pub fn first(&self, catalog: &Snapshot<'_>, block: &Block, rows: &[u32; 6]) -> u32
        requires block { IsBlock catalog.now block.now }
        requires step { (mask : ℕ) × IsStep catalog.now block.now mask self.now × HasRows catalog.now block.now mask rows.now }
        ensures { IsNext (Fits catalog.now block.now self.now.tie rows.now) self.now.above self.now.last result }
    {
        match &self.tie {
            Some(tie) => tie.first(catalog, block, rows, self.last),
            None => self.behind(self.above),
        }
    }

    /// The next row to be tried behind one that was, or 0.
    pub fn next(&self, catalog: &Snapshot<'_>, block: &Block, rows: &[u32; 6], row: u32) -> u32
        requires block { IsBlock catalog.now block.now }
        requires step { (mask : ℕ) × IsStep catalog.now block.now mask self.now × HasRows catalog.now block.now mask rows.now }
        requires least { 1 ≤ row }
        requires most { row ≤ self.now.last }
        requires fits { Fits catalog.now block.now self.now.tie rows.now row }
        ensures { IsNext (Fits catalog.now block.now self.now.tie rows.now) row self.now.last result }
    {
        match &self.tie {
            Some(tie) => tie.next(catalog, block, rows, row, self.last),
            None => self.behind(row),
        }
    }

    /// The row behind one, or 0 behind the last one.
    fn behind(&self, row: u32) -> u32
        ensures { IsNext (λ _. Unit {0}) row self.now.last result }
    {
        if row < self.last { row + 1 } else { 0 }
    }
}
