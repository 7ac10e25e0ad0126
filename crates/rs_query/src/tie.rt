//! The rows of an entry whose cells are equal to that of an earlier one.

ghost use Rattle.std.specs.Prelude.{◌≡◌, ◌≤◌, ◌↔◌, ℕ, IsTrue, if◌then◌else◌, nat_le};
ghost use Rattle.rs_query.specs.EqualRows.{IsNext};
ghost use Rattle.rs_query.specs.Searching.{Fits, IsTied};
ghost use Rattle.rs_query.specs.Tables.{HasRows, size_of};
ghost use Rattle.rs_query.specs.WellFormed.{IsBlock};
ghost use Rattle.rs_table.specs.Lent.{shown};

use crate::block::Block;
use crate::listed::Listed;
use rs_catalog::Snapshot;
use rs_table::Cell;

/// A column of an earlier entry and one of a step's own entry, which a condition equates.
#[derive(Drop)]
pub(crate) struct Tie {
    pub left: (u8, u8),
    pub right: (u8, u8),
    /// The rows of equal cells in these columns and in others, where they are listed. Else those of equal cells in these columns
    /// are found by a look at each row.
    pub listed: Option<Listed>,
}

impl Tie {
    /// The first row up to a last one that fits rows of the earlier entries, or 0.
    pub fn first(&self, catalog: &Snapshot<'_>, block: &Block, rows: &[u32; 6], last: u32) -> u32
        requires block { IsBlock catalog.now block.now }
        requires tied { (mask : ℕ) × (entry : ℕ) × IsTied catalog.now block.now mask entry self.now × HasRows catalog.now block.now mask rows.now }
        requires last { last ≤ size_of catalog.now block.now self.now.right.0 }
        ensures { IsNext (Fits catalog.now block.now (Some self.now) rows.now) 0 last result }
    {
        match &self.listed {
            Some(listed) => up_to(last, listed.rows.first(rows[self.left.0 as usize - 1])),
            None => self.scan(catalog, block, rows, 0, last),
        }
    }

    /// The next row up to a last one that fits, behind one that does, or 0.
    pub fn next(
        &self,
        catalog: &Snapshot<'_>,
        block: &Block,
        rows: &[u32; 6],
        row: u32,
        last: u32,
    ) -> u32
        requires block { IsBlock catalog.now block.now }
        requires tied { (mask : ℕ) × (entry : ℕ) × IsTied catalog.now block.now mask entry self.now × HasRows catalog.now block.now mask rows.now }
        requires last { last ≤ size_of catalog.now block.now self.now.right.0 }
        requires least { 1 ≤ row }
        requires most { row ≤ last }
        requires fits { Fits catalog.now block.now (Some self.now) rows.now row }
        ensures { IsNext (Fits catalog.now block.now (Some self.now) rows.now) row last result }
    {
        match &self.listed {
            Some(listed) => up_to(last, listed.rows.next(row)),
            None => self.scan(catalog, block, rows, row, last),
        }
    }

    /// The first row behind one, up to a last one, that fits, or 0. It looks at the cells of these rows.
    fn scan(
        &self,
        catalog: &Snapshot<'_>,
        block: &Block,
        rows: &[u32; 6],
        behind: u32,
        last: u32,
    ) -> u32
        requires block { IsBlock catalog.now block.now }
        requires tied { (mask : ℕ) × (entry : ℕ) × IsTied catalog.now block.now mask entry self.now × HasRows catalog.now block.now mask rows.now }
        requires unlisted { self.now.listed ≡ None }
        requires last { last ≤ size_of catalog.now block.now self.now.right.0 }
        ensures { IsNext (Fits catalog.now block.now (Some self.now) rows.now) behind last result }
    {
        let cell = block.cell(catalog, self.left, rows);
        let table = block.table(catalog, self.right.0);
        for row in behind..last {
            if are_equal(table.cell(row + 1, self.right.1), cell) {
                return row + 1;
            }
        }
        0
    }
}

/// A row, or 0 where it comes behind the last one.
fn up_to(last: u32, row: u32) -> u32
    ensures { result ≡ (if nat_le row last then row else 0) }
{
    if row <= last { row } else { 0 }
}

/// Whether two cells are equal. `==` asks the same of two references, for which both cells have to be put into memory first.
fn are_equal(cell: Cell<'_>, other: Cell<'_>) -> bool
    ensures { IsTrue result ↔ (shown cell.entry ≡ shown other.entry) }
{
    match (cell, other) {
        (Cell::Number(number), Cell::Number(other)) => number == other,
        (Cell::Text(text), Cell::Text(other)) => text == other,
        _ => false,
    }
}
