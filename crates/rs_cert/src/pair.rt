ghost use Rattle.std.specs.Prelude.{◌≡◌};
ghost use Rattle.rs_cert.specs.Good.{merged};
ghost use Rattle.rs_cert.specs.Pairs.{pair_cmp};

use rs_feed::FeedRow;
use std::cmp::Ordering;

/// A left row and a right one by their numbers, from 1, and the sum of their scores.
#[derive(Clone, Copy)]
pub(crate) struct Pair {
    pub(crate) left: u32,
    pub(crate) right: u32,
    pub(crate) sum: u64,
}

impl Pair {
    /// The pair of these rows, whatever their texts are.
    pub(crate) fn of(left: u32, left_row: &FeedRow, right: u32, right_row: &FeedRow) -> Pair
        ensures { result ≡ merged left left_row.now right right_row.now }
    {
        Pair {
            left,
            right,
            sum: u64::from(left_row.score) + u64::from(right_row.score),
        }
    }

    /// How the two are ordered: the greater sum comes first, at equal sums the lesser left number, and then the lesser right one.
    pub(crate) fn order(&self, other: &Pair) -> Ordering
        ensures { result ≡ pair_cmp self.now other.now }
    {
        match other.sum.cmp(&self.sum) {
            Ordering::Equal => match self.left.cmp(&other.left) {
                Ordering::Equal => self.right.cmp(&other.right),
                unequal => unequal,
            },
            unequal => unequal,
        }
    }
}
