ghost use Rattle.std.specs.Prelude.{◌≡◌, ◌<◌, ◌≤◌, length, IfOk, Some};
ghost use Rattle.rs_feed.specs.declared.feed_row.FeedRow.{FeedRow};
ghost use Rattle.rs_feed_join.specs.Pairs.{pair_of};
ghost use Rattle.rs_feed_join.specs.Ranked.{row_of};

use rs_feed::FeedRow;
use rs_value::{Memory, Text};

/// Two rows of the same text, by their numbers in the order of drawing, from 1, with their scores.
#[derive(Debug, Drop)]
pub struct FeedPair {
    pub left: u32,
    pub right: u32,
    pub join: Text,
    pub left_score: u32,
    pub right_score: u32,
}

impl FeedPair {
    /// The pair of the rows with these numbers, which are to be there. Its text is that of the left one.
    pub(crate) fn of(
        lefts: &[FeedRow],
        left: u32,
        rights: &[FeedRow],
        right: u32,
    ) -> Result<FeedPair, Memory>
        requires left_from { 0 < left }
        requires left_to { left ≤ length lefts.now }
        requires right_from { 0 < right }
        requires right_to { right ≤ length rights.now }
        ensures { IfOk result (λ pair. (l r : FeedRow) → row_of lefts.now left ≡ Some l → row_of rights.now right ≡ Some r
            → pair ≡ pair_of left l right r) }
    {
        let left_row = &lefts[left as usize - 1];
        let right_row = &rights[right as usize - 1];
        Ok(FeedPair {
            left,
            right,
            join: left_row.join.copy()?,
            left_score: left_row.score,
            right_score: right_row.score,
        })
    }
}
