ghost use Rattle.std.specs.Prelude.{◌≡◌, List, Some, false, is_err, suc};
ghost use Rattle.rs_events.specs.Environment.{Environment};
ghost use Rattle.rs_feed.specs.declared.feed_row.FeedRow.{FeedRow};
ghost use Rattle.rs_feed_join.specs.Answers.{MayBe};
ghost use Rattle.rs_feed_join.specs.Cuts.{HaveScores};
ghost use Rattle.rs_feed_join.specs.Joins.{new_feed_join};
ghost use Rattle.rs_feed_join.specs.Sides.{IsDrawnOf};
ghost use Rattle.rs_words.specs.Joining.{JoinLeaves};
ghost use Rattle.rs_words.specs.Putting.{IsAfterPut, PutsNext, PutsPairs, call_of};

use crate::fault::PairsFault;
use crate::joining::next_pair;
use crate::lines::put_pair;
use rs_feed::Feed;
use rs_feed_join::FeedJoin;
use rs_lines::RowLines;
use rs_outside::Sink;
use std::alloc::Global;

/// Puts the first `count` pairs of two feeds, or all, where there are fewer, each in one put, once it comes at or before
/// the thresholds of the join. Each put stands before any later draw. The join is to be one that has drawn nothing, and
/// both feeds are drawn by no other.
///
/// It draws exactly what the pairs take that it puts. Behind an Ok both feeds were drawn as often as the first `count`
/// pairs take, or all pairs and the end, where there are fewer; where a put failed behind n pairs, as often as the pair
/// n + 1 takes; where a call of the join failed behind n pairs, as that call says: all up to a row that was refused, or
/// a front of what the pair n + 1 takes, of which a draw that failed is the last. Of feeds that tell no rows that holds
/// for whatever rows they may have: those that the join took, the one that it refused, if one was, and any others
/// behind them. The rows that were drawn stay with the join, also where it failed.
///
/// # Errors
///
/// - `Join`: where a call of the join failed, with its fault; the pairs in front of it are out. With `OutOfOrder` and
///   `TooLong` exactly where it comes to a row that is refused, and no call or put failed before; with `Failed` only
///   where that feed's count of faults rose; with `Memory` at any call; with `Broken` never.
/// - `Put`: with `Write` only where a put failed; with `Memory` at any put. The join gave the pair that was not put,
///   and it isn't broken.
pub fn put_pairs<L: Feed, R: Feed, O: Sink>(
    alloc: Global,
    join: &mut FeedJoin,
    count: u32,
    left: &mut L,
    right: &mut R,
    out: &mut O,
) -> Result<(), PairsFault>
    requires undrawn { join.old ≡ new_feed_join }
    requires left { IsDrawnOf join.old.broken (L.state left.old) join.old.left }
    requires right { IsDrawnOf join.old.broken (R.state right.old) join.old.right }
    // What is put and drawn, of feeds that tell their rows, and of all others that may have such rows.
    ensures told { (beside : Environment) (lefts rights : List FeedRow) → (L.state left.old).outside.told ≡ Some lefts → (R.state right.old).outside.told ≡ Some rights
        → HaveScores lefts → HaveScores rights
        → PutsPairs lefts rights count result join.new (record beside { out = O.state out.old }) (record beside { out = O.state out.new }) }
    ensures untold { (beside : Environment) (lefts rights : List FeedRow) → MayBe 1 lefts join.new.left (call_of result) → MayBe 2 rights join.new.right (call_of result)
        → PutsPairs lefts rights count result join.new (record beside { out = O.state out.old }) (record beside { out = O.state out.new }) }

    // What is left.
    ensures leaves { JoinLeaves join.new (L.state left.old) (L.state left.new) (R.state right.old) (R.state right.new) (call_of result) }
    ensures broken { join.new.broken ≡ is_err (call_of result) }
{
    let mut lines = RowLines::new(alloc);
    put_each(join, &mut lines, count, left, right, out)
}

/// The same, with lines that are kept from pair to pair.
fn put_each<L: Feed, R: Feed, O: Sink>(
    join: &mut FeedJoin,
    lines: &mut RowLines,
    count: u32,
    left: &mut L,
    right: &mut R,
    out: &mut O,
) -> Result<(), PairsFault>
    requires undrawn { join.old ≡ new_feed_join }
    requires left { IsDrawnOf join.old.broken (L.state left.old) join.old.left }
    requires right { IsDrawnOf join.old.broken (R.state right.old) join.old.right }
    ensures puts { (beside : Environment) (lefts rights : List FeedRow) → MayBe 1 lefts join.new.left (call_of result) → MayBe 2 rights join.new.right (call_of result)
        → PutsPairs lefts rights count result join.new (record beside { out = O.state out.old }) (record beside { out = O.state out.new }) }
    ensures leaves { JoinLeaves join.new (L.state left.old) (L.state left.new) (R.state right.old) (R.state right.new) (call_of result) }
    ensures broken { join.new.broken ≡ is_err (call_of result) }
{
    for index in 0..count {
        if !put_next(join, lines, index + 1, left, right, out)? {
            return Ok(());
        }
    }
    Ok(())
}

/// Puts the next pair, which gets this rank, and answers whether there was one. All that it draws it draws before the put.
fn put_next<L: Feed, R: Feed, O: Sink>(
    join: &mut FeedJoin,
    lines: &mut RowLines,
    rank: u32,
    left: &mut L,
    right: &mut R,
    out: &mut O,
) -> Result<bool, PairsFault>
    requires rank { rank ≡ suc join.old.given }
    requires whole { join.old.broken ≡ false }
    requires left { IsDrawnOf join.old.broken (L.state left.old) join.old.left }
    requires right { IsDrawnOf join.old.broken (R.state right.old) join.old.right }
    ensures puts { (beside : Environment) (lefts rights : List FeedRow) → MayBe 1 lefts join.new.left (call_of result) → MayBe 2 rights join.new.right (call_of result)
        → PutsNext lefts rights join.old.given result join.new.left join.new.right (record beside { out = O.state out.old }) (record beside { out = O.state out.new }) }
    ensures after { IsAfterPut join.old join.new result }
    ensures leaves { JoinLeaves join.new (L.state left.old) (L.state left.new) (R.state right.old) (R.state right.new) (call_of result) }
{
    match next_pair(join, left, right)? {
        Some(pair) => {
            put_pair(lines, rank, pair, out)?;
            Ok(true)
        }
        None => Ok(false),
    }
}
