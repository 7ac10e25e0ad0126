ghost use Rattle.std.specs.Prelude.{◌≡◌, ◌≤◌};
ghost use Rattle.rs_scan.specs.Scans.{entry_row};

use rs_rank::{Ids, RankRow, mask_of};

/// The row of one FROM entry of a block, with a sum.
pub(crate) fn row_of(block: u8, entry: u8, number: u32, sum: u64) -> RankRow
    requires least { 1 ≤ entry }
    requires most { entry ≤ 6 }
    ensures { result ≡ entry_row block entry number sum }
{
    let mut rows = [0; 6];
    rows[entry as usize - 1] = number;
    let ids = Ids {
        block,
        mask: mask_of(entry),
        rows,
    };
    RankRow { ids, sum }
}
