ghost use Rattle.std.specs.Prelude.{◌≡◌, ◌==◌, if◌then◌else◌};
ghost use Rattle.rs_rank.specs.Ids.{AreSidesOfRow, IsIds, ids_inside, merge_ids, merge_rows, rows_inside};

use crate::mask::union;

/// Which rows of a block make up a row: for each FROM entry in the mask the number of its table's row, counted from 1.
/// `rows` holds 0 at the entries outside the mask.
#[derive(Clone, Copy, Debug, PartialEq, Eq)]
pub struct Ids {
    pub block: u8,
    pub mask: u8,
    pub rows: [u32; 6],
}

impl Ids {
    /// The entries of both. The two are to be of the same block and to have no entry in common.
    pub fn merge(&self, other: &Ids) -> Ids
        ensures value { result ≡ merge_ids self.now other.now }
        ensures ids { AreSidesOfRow self.now other.now → IsIds result }
    {
        Ids {
            block: self.block,
            mask: union(self.mask, other.mask),
            rows: merge_rows(&self.rows, &other.rows),
        }
    }

    /// The rows of the entries in a mask alone.
    pub fn inside(&self, entries: u8) -> Ids
        ensures { result ≡ ids_inside self.now.block entries self.now.rows }
    {
        Ids {
            block: self.block,
            mask: entries,
            rows: rows_inside(entries, &self.rows),
        }
    }
}

/// The row numbers of the entries in a mask, and 0 at the other entries.
fn rows_inside(entries: u8, rows: &[u32; 6]) -> [u32; 6]
    ensures { result ≡ rows_inside entries rows.now }
{
    let mut inside = [0; 6];
    let mut mask = entries;
    for entry in 0..6 {
        inside[entry] = row_if(mask % 2 == 1, rows[entry]);
        mask /= 2;
    }
    inside
}

/// The row number where the entry is in the mask, else 0.
fn row_if(is_inside: bool, row: u32) -> u32
    ensures { result ≡ (if is_inside then row else 0) }
{
    if is_inside { row } else { 0 }
}

/// At each entry the left row number, or the right one where the left one is 0.
fn merge_rows(left: &[u32; 6], right: &[u32; 6]) -> [u32; 6]
    ensures { result ≡ merge_rows left.now right.now }
{
    let mut rows = [0; 6];
    for entry in 0..6 {
        rows[entry] = merge_number(left[entry], right[entry]);
    }
    rows
}

/// The left row number, or the right one where the left one is 0.
fn merge_number(left: u32, right: u32) -> u32
    ensures { result ≡ (if left == 0 then right else left) }
{
    if left == 0 { right } else { left }
}
