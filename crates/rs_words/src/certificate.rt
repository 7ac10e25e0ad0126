ghost use Rattle.std.specs.Prelude.{◌≡◌, ◌⊎◌, [], ◌∷◌, ◌++◌, List, Some, IfOk, MatchResult, false, is_ok, true, if◌then◌else◌};
ghost use Rattle.rs_cert.specs.Good.{IsGood};
ghost use Rattle.rs_words.specs.Certs.{AreEnough, AreGiven, cert_of};
ghost use Rattle.rs_feed.specs.declared.feed_row.FeedRow.{FeedRow};
ghost use Rattle.rs_feed_join.specs.Answers.{MayBe};
ghost use Rattle.rs_feed_join.specs.Cuts.{HaveScores};
ghost use Rattle.rs_feed_join.specs.Joins.{new_feed_join};
ghost use Rattle.rs_feed_join.specs.Sides.{IsDrawnOf};
ghost use Rattle.rs_words.specs.Gathering.{GivesAll, StopsShort, draws_shown, last_call};
ghost use Rattle.rs_words.specs.Joining.{JoinLeaves};

use crate::cert_of_join::cert_of;
use crate::joining::next_pair;
use rs_cert::Cert;
use rs_feed::Feed;
use rs_feed_join::{FeedJoin, FeedPair, JoinFault};
use rs_value::Memory;
use std::alloc::Global;

/// The certificate of the first `count` pairs of two feeds, or of all, where there are fewer, and of the rows that were
/// drawn for them. It is good. The join is to be one that has drawn nothing, and both feeds are drawn by no other.
///
/// Each draw that was made stands in the certificate: as a row, or as the end of its side, where one draw was behind the
/// last row. These draws are exactly those that the pairs take. Of feeds that tell no rows that holds for whatever rows
/// they may have: those that the join took, the one that it refused, if one was, and any others behind them. The rows
/// that were drawn stay with the join, also where it failed.
///
/// # Errors
///
/// With each fault but `Memory` the join is broken.
///
/// - `OutOfOrder`, `TooLong`: exactly where the join comes to a row that it refuses, and no call failed before.
/// - `Failed`: only where that feed's count of faults rose.
/// - `Broken`: never.
/// - `Memory`: at any call. Where a call of the join had none, the join is broken, and it was drawn what the first pairs
///   take and a front of what the next one takes. Else it isn't broken, and the draws are those that its pairs take.
pub fn certify<L: Feed, R: Feed>(
    alloc: Global,
    join: &mut FeedJoin,
    count: u32,
    left: &mut L,
    right: &mut R,
) -> Result<Cert, JoinFault>
    requires undrawn { join.old ≡ new_feed_join }
    requires left { IsDrawnOf join.old.broken (L.state left.old) join.old.left }
    requires right { IsDrawnOf join.old.broken (R.state right.old) join.old.right }
    // The certificate, and that it has each draw.
    ensures cert { IfOk result (λ cert. cert ≡ cert_of join.new count cert.pairs) }
    ensures good { IfOk result (λ cert. IsGood cert) }
    ensures left_draws { IfOk result (λ cert. (L.state left.new).draws ≡ draws_shown cert.left) }
    ensures right_draws { IfOk result (λ cert. (R.state right.new).draws ≡ draws_shown cert.right) }

    // The pairs and the draws, of feeds that tell their rows, and of all others that may have such rows.
    ensures told { (lefts rights : List FeedRow) → (L.state left.old).outside.told ≡ Some lefts → (R.state right.old).outside.told ≡ Some rights
        → HaveScores lefts → HaveScores rights
        → MatchResult result (λ cert. GivesAll lefts rights count cert.pairs join.new) (λ why. StopsShort lefts rights count why join.new) }
    ensures untold { (lefts rights : List FeedRow) → MayBe 1 lefts join.new.left (last_call result) → MayBe 2 rights join.new.right (last_call result)
        → MatchResult result (λ cert. GivesAll lefts rights count cert.pairs join.new) (λ why. StopsShort lefts rights count why join.new) }

    // What is left.
    ensures leaves { JoinLeaves join.new (L.state left.old) (L.state left.new) (R.state right.old) (R.state right.new) (last_call result) }
    ensures whole { MatchResult result (λ _. join.new.broken ≡ false) (λ why. (why ≡ JoinFault.Memory) ⊎ (join.new.broken ≡ true)) }
{
    let pairs = first_pairs(alloc, join, count, left, right)?;
    Ok(cert_of(alloc, join, count, &pairs)?)
}

/// Those pairs, by the numbers of their rows.
fn first_pairs<L: Feed, R: Feed>(
    alloc: Global,
    join: &mut FeedJoin,
    count: u32,
    left: &mut L,
    right: &mut R,
) -> Result<Vec<(u32, u32)>, JoinFault>
    requires undrawn { join.old ≡ new_feed_join }
    requires left { IsDrawnOf join.old.broken (L.state left.old) join.old.left }
    requires right { IsDrawnOf join.old.broken (R.state right.old) join.old.right }
    ensures pairs { (lefts rights : List FeedRow) → MayBe 1 lefts join.new.left (last_call result) → MayBe 2 rights join.new.right (last_call result)
        → MatchResult result (λ pairs. GivesAll lefts rights count pairs.items join.new) (λ why. StopsShort lefts rights count why join.new) }
    ensures given { IfOk result (λ pairs. AreGiven join.new pairs.items) }
    ensures enough { IfOk result (λ pairs. AreEnough join.new count pairs.items) }
    ensures leaves { JoinLeaves join.new (L.state left.old) (L.state left.new) (R.state right.old) (R.state right.new) (last_call result) }
    ensures whole { MatchResult result (λ _. join.new.broken ≡ false) (λ why. (why ≡ JoinFault.Memory) ⊎ (join.new.broken ≡ true)) }
{
    let mut pairs = Vec::new(alloc);
    for index in 0..count {
        match next_pair(join, left, right)? {
            Some(pair) => add_numbers(&mut pairs, &pair)?,
            None => return Ok(pairs),
        }
    }
    Ok(pairs)
}

/// Adds the numbers of the rows of a pair.
fn add_numbers(pairs: &mut Vec<(u32, u32)>, pair: &FeedPair) -> Result<(), Memory>
    ensures { pairs.new.items ≡ (if is_ok result then pairs.old.items ++ (pair.now.left, pair.now.right) ∷ [] else pairs.old.items) }
{
    pairs.push((pair.left, pair.right))?;
    Ok(())
}
