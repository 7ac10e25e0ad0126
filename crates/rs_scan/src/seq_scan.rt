ghost use Rattle.std.specs.Prelude.{◌≡◌, ◌≤◌, ◌+◌, ◌↔◌, None, min, slice_get};
ghost use Rattle.rs_scan.specs.Scans.{new_table_scan, rows_of_table};

use crate::row::row_of;
use rs_rank::RankRow;
use std::marker::Model;

/// A scan of a table, in the order of its rows. No term is evaluated, so each row has the sum 0.
#[derive(Drop)]
pub struct SeqScan {
    entry: u8,
    block: u8,
    rows: u32,
    drawn: u32,
}

impl Model for SeqScan {
    ghost use Rattle.rs_scan.specs.Scans.{IsScan, TableScan};

    ghost Value = { TableScan };

    ghost view = { λ s. record { entry = s.entry; block = s.block; rows = s.rows; drawn = s.drawn } };

    ghost invariant = { λ s. IsScan s.entry s.rows s.drawn };
}

impl SeqScan {
    /// The scan of the table of a FROM entry, from 1 to 6, of a block. Its view is this many of the first rows of the table.
    pub fn new(entry: u8, block: u8, rows: u32) -> SeqScan
        requires least { 1 ≤ entry }
        requires most { entry ≤ 6 }
        ensures { result ≡ new_table_scan entry block rows }
    {
        SeqScan {
            entry,
            block,
            rows,
            drawn: 0,
        }
    }

    /// The next row of the view. It takes no memory.
    ///
    /// # Errors
    ///
    /// - `None`: exactly where all rows of the view were given. Then nothing changes.
    pub fn next(&mut self) -> Option<RankRow>
        ensures row { result ≡ slice_get (rows_of_table self.old) self.old.drawn }
        ensures end { (result ≡ None) ↔ (self.old.drawn ≡ self.old.rows) }
        ensures after { self.new ≡ record self.old { drawn = min (self.old.drawn + 1) self.old.rows } }
    {
        if self.drawn == self.rows {
            return None;
        }
        self.drawn += 1;
        Some(row_of(self.block, self.entry, self.drawn, 0))
    }

    /// How many rows it gave so far.
    pub fn drawn(&self) -> u32
        ensures value { result ≡ self.now.drawn }
        ensures most { result ≤ self.now.rows }
    {
        self.drawn
    }
}
