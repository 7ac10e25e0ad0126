ghost use Rattle.std.specs.Prelude.{◌≡◌, List, false};
ghost use Rattle.rs_feed.specs.declared.feed_row.FeedRow.{FeedRow};
ghost use Rattle.rs_feed_join.specs.Answers.{IsNext, MayBe};
ghost use Rattle.rs_feed_join.specs.Joins.{IsAfter};
ghost use Rattle.rs_feed_join.specs.Sides.{IsDrawnOf};
ghost use Rattle.rs_words.specs.Joining as told;
ghost use Rattle.rs_words.specs.Joining.{IsOfTables, JoinLeaves};

use crate::fault::WordFault;
use rs_feed::Feed;
use rs_feed_join::{FeedJoin, FeedPair, JoinFault};

/// The next pair of two feeds, or none at the end, by a join of which no call failed. What it draws is what the pair takes.
pub(crate) fn next_pair<L: Feed, R: Feed>(
    join: &mut FeedJoin,
    left: &mut L,
    right: &mut R,
) -> Result<Option<FeedPair>, JoinFault>
    requires whole { join.old.broken ≡ false }
    requires left { IsDrawnOf join.old.broken (L.state left.old) join.old.left }
    requires right { IsDrawnOf join.old.broken (R.state right.old) join.old.right }
    ensures next { (lefts rights : List FeedRow) → MayBe 1 lefts join.new.left result → MayBe 2 rights join.new.right result
        → IsNext lefts rights join.old.given join.new.left join.new.right result }
    ensures after { IsAfter join.old join.new result }
    ensures leaves { JoinLeaves join.new (L.state left.old) (L.state left.new) (R.state right.old) (R.state right.new) result }
{
    join.next(left, right)
}

/// The fault of a join of two tables.
pub(crate) fn join_fault(why: JoinFault) -> WordFault
    requires { IsOfTables why }
    ensures { result ≡ told.join_fault why }
{
    match why {
        JoinFault::OutOfOrder {
            side,
            row,
            before,
            got,
        } => WordFault::Order {
            side,
            row,
            before,
            got,
        },
        JoinFault::Memory => WordFault::Memory,
        JoinFault::TooLong { .. } | JoinFault::Failed { .. } | JoinFault::Broken => unreachable!(),
    }
}
