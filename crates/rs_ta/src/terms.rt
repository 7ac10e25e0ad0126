ghost use Rattle.std.specs.Prelude.{◌≡◌, ◌*◌, max};
ghost use Rattle.rs_ta.specs.Depths.{ids_at};
ghost use Rattle.rs_ta.specs.Scans.{IsEntry};

use rs_rank::{Ids, Key, Weights, mask_of};

/// What a scan is made of: the weights of its terms, and the FROM entry and the block that its rows are of.
#[derive(Clone, Copy, Debug)]
pub(crate) struct ScanTerms {
    pub(crate) weights: Weights,
    pub(crate) entry: u8,
    pub(crate) block: u8,
}

impl ScanTerms {
    /// The key of a sum and a row.
    pub(crate) fn key(&self, sum: u64, row: u32) -> Key
        requires { IsEntry self.now.entry }
        ensures { result ≡ record { bound = sum; ids = ids_at self.now.block self.now.entry row } }
    {
        let mut rows = [0; 6];
        rows[usize::from(self.entry - 1)] = row;
        Key {
            bound: sum,
            ids: Ids {
                block: self.block,
                mask: mask_of(self.entry),
                rows,
            },
        }
    }
}

/// What a score adds to a sum.
pub(crate) fn share(weight: u32, score: u32) -> u64
    ensures { result ≡ weight * score }
{
    u64::from(weight) * u64::from(score)
}

/// The greater one of two numbers.
pub(crate) fn greater(left: u32, right: u32) -> u32
    ensures { result ≡ max left right }
{
    left.max(right)
}
