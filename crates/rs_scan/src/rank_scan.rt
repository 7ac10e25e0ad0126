ghost use Rattle.std.specs.Prelude.{◌≡◌, ◌≤◌, ◌<◌, ◌+◌, ◌-◌, ◌*◌, ◌↔◌, IfSome, None, length, min, slice_get, slice_index};
ghost use Rattle.rs_catalog.specs.Indexes.{ranking_at};
ghost use Rattle.rs_scan.specs.Scans.{IsOfAllRows, last_at, new_index_scan, rows_of_index, scan_at};

use crate::row::row_of;
use rs_catalog::Snapshot;
use rs_rank::RankRow;
use std::marker::Model;

/// A scan of a rank index, the row of the greatest score first. The term of the index is evaluated, so the sum of each row
/// is the weight of the term times the row's score.
#[derive(Drop)]
pub struct RankScan {
    index: u8,
    entry: u8,
    block: u8,
    weight: u32,
    rows: u32,
    drawn: u32,
    last: Option<(u32, u32)>,
}

impl Model for RankScan {
    ghost use Rattle.rs_scan.specs.Scans.{IndexScan, IsScan};

    ghost Value = { IndexScan };

    ghost view = { λ s. record {
      index = s.index;
      entry = s.entry;
      block = s.block;
      weight = s.weight;
      rows = s.rows;
      drawn = s.drawn;
      last = s.last;
    } };

    ghost invariant = { λ s. IsScan s.entry s.rows s.drawn };
}

impl RankScan {
    /// The scan of a rank index, counted from 0, for a FROM entry, from 1 to 6, of a block. Its view is this many of the
    /// first rows of the table.
    pub fn new(index: u8, entry: u8, block: u8, weight: u32, rows: u32) -> RankScan
        requires least { 1 ≤ entry }
        requires most { entry ≤ 6 }
        ensures { result ≡ new_index_scan index entry block weight rows }
    {
        RankScan {
            index,
            entry,
            block,
            weight,
            rows,
            drawn: 0,
            last: None,
        }
    }

    /// The next row of the view, with the number of a row of the table. The view has to be all rows of the index's table in what
    /// is seen of the catalogue. The scan goes on behind the entry that it drew last, so rows that join the index don't move it. It
    /// takes no memory.
    ///
    /// # Errors
    ///
    /// - `None`: exactly where all rows of the view were given. Then nothing changes.
    pub fn next(&mut self, catalog: &Snapshot<'_>) -> Option<RankRow>
        requires index { self.old.index < length catalog.now.indexes }
        requires view { IsOfAllRows catalog.now self.old }
        requires last { self.old.last ≡ last_at (ranking_at catalog.now self.old.index) self.old.drawn }
        ensures row { result ≡ slice_get (rows_of_index catalog.now self.old) self.old.drawn }
        ensures number { IfSome result (λ row. 1 ≤ slice_index row.ids.rows (self.old.entry - 1)) }
        ensures end { (result ≡ None) ↔ (self.old.drawn ≡ self.old.rows) }
        ensures most { self.old.drawn ≤ self.old.rows }
        ensures after { self.new ≡ scan_at catalog.now (min (self.old.drawn + 1) self.old.rows) self.old }
    {
        // Its ranking has each row of the table once, so no entry lies outside the view.
        let _ = catalog.index(self.index);
        let (score, row) = catalog.index_after(self.index, self.last)?;
        self.drawn += 1;
        self.last = Some((score, row));
        let sum = share(self.weight, score);
        Some(row_of(self.block, self.entry, row, sum))
    }

    /// How many rows it gave so far.
    pub fn drawn(&self) -> u32
        ensures value { result ≡ self.now.drawn }
        ensures most { result ≤ self.now.rows }
    {
        self.drawn
    }
}

/// What a score adds to a sum.
fn share(weight: u32, score: u32) -> u64
    ensures { result ≡ weight * score }
{
    u64::from(weight) * u64::from(score)
}
