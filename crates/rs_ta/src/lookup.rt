ghost use Rattle.std.specs.Prelude.{◌≡◌, ◌<◌, ℕ, ◌==◌, [], ◌∷◌, length, map, if◌then◌else◌};
ghost use Rattle.rs_value.specs.Faults.{raised};
ghost use Rattle.rs_rank.specs.Weights.{IsWeights};
ghost use Rattle.rs_ta.specs.Depths.{lookups_of, weighted_sum};
ghost use Rattle.rs_ta.specs.Lists.{AreRanked, AreSame, AreTold, IsList, IsRow, list_at, rows_in, score_of};
ghost use Rattle.rs_ta.specs.Lookups.{AreRaisedBut, IsRaisedUnless};

use crate::lists::Lists;
use crate::terms::share;
use rs_rank::Weights;

/// The sum of weight times score of a row that a list showed with this score. It is looked up in each other list, in order.
pub(crate) fn sum_of<L: Lists>(
    weights: &Weights,
    lists: &mut L,
    shown: u8,
    row: u32,
    score: u32,
) -> u64
    requires ranked { AreRanked (L.state lists.old).lists }
    requires weights { IsWeights weights.now }
    requires list { IsList (L.state lists.old).lists shown }
    requires row { IsRow (rows_in (L.state lists.old).lists) row }
    requires score { score ≡ score_of row (list_at (L.state lists.old).lists shown) }
    ensures sum { result ≡ weighted_sum weights.now.weight (map (score_of row) (L.state lists.old).lists) }
    ensures lists { (L.state lists.new).lists ≡ (L.state lists.old).lists }
    ensures counts { AreRaisedBut (L.state lists.old).lists shown (L.state lists.old).random_count (L.state lists.new).random_count }
    ensures others { AreSame (L.state lists.old).lists (L.state lists.old).sorted_count (L.state lists.new).sorted_count }
    ensures told { AreTold (lookups_of (length (L.state lists.old).lists) (record { row = row; list = shown })) (L.state lists.old).told (L.state lists.new).told }
{
    let mut sum = 0;
    for place in 0..lists.lists() {
        let score = score_in(lists, place + 1, shown, row, score);
        sum += share(weights.weight[usize::from(place)], score);
    }
    sum
}

/// The score of a row in a list. It is known in the list that showed it, and looked up in another one.
fn score_in<L: Lists>(lists: &mut L, list: u8, shown: u8, row: u32, score: u32) -> u32
    requires list { IsList (L.state lists.old).lists list }
    requires row { IsRow (rows_in (L.state lists.old).lists) row }
    requires score { score ≡ score_of row (list_at (L.state lists.old).lists shown) }
    ensures score { result ≡ score_of row (list_at (L.state lists.old).lists list) }
    ensures lists { (L.state lists.new).lists ≡ (L.state lists.old).lists }
    ensures counts { IsRaisedUnless (L.state lists.old).lists list shown (L.state lists.old).random_count (L.state lists.new).random_count }
    ensures others { AreSame (L.state lists.old).lists (L.state lists.old).sorted_count (L.state lists.new).sorted_count }
    ensures told { AreTold (if list == shown then [] else record { row = row; list = list } ∷ []) (L.state lists.old).told (L.state lists.new).told }
{
    if list == shown {
        score
    } else {
        lists.random(list, row)
    }
}
