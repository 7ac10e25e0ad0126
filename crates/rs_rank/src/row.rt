ghost use Rattle.std.specs.Prelude.{◌≡◌, ℕ, List};
ghost use Rattle.rs_rank.specs.Ids.{IsIds};
ghost use Rattle.rs_rank.specs.Rows.{CanMergeRows, HasSum, key_of, merge_row};
ghost use Rattle.rs_rank.specs.Weights.{IsBound, IsWeights, bound, evaluated};

use crate::ids::Ids;
use crate::key::Key;
use crate::stable::Scored;
use crate::weights::Weights;

/// A row on its way through the operators: which rows of the tables it is made of, and the sum of weight times worth
/// over the terms that are evaluated so far.
#[derive(Clone, Copy, Debug, PartialEq, Eq)]
pub struct RankRow {
    pub ids: Ids,
    pub sum: u64,
}

impl RankRow {
    /// The key of the row, of which the terms in the mask are evaluated: its ids, and its sum with what the other terms
    /// can give at most. Where the sum is made of the worths of the evaluated terms, this is the bound of the row.
    pub fn key(&self, weights: &Weights, terms: u8) -> Key
        requires weights { IsWeights weights.now }
        requires sum { HasSum weights.now terms self.now }
        ensures value { result ≡ key_of weights.now terms self.now }
        ensures bound { IsBound weights.now terms result.bound }
        // The bound is that of the worths of which the sum is made.
        ensures worths { (worths : List ℕ) → self.now.sum ≡ evaluated weights.now terms worths
            → result.bound ≡ bound weights.now terms worths }
    {
        Key {
            bound: self.sum + weights.rest(terms),
            ids: self.ids,
        }
    }

    /// The row of both sides, which are to be of the same block and to have no entry in common. It has the entries of
    /// both, and the sum of both sums.
    pub fn merge(&self, other: &RankRow) -> RankRow
        requires { CanMergeRows self.now other.now }
        ensures value { result ≡ merge_row self.now other.now }
        ensures ids { IsIds result.ids }
    {
        RankRow {
            ids: self.ids.merge(&other.ids),
            sum: self.sum + other.sum,
        }
    }
}

impl Scored for RankRow {
    ghost score_of = { λ row. row.sum };

    fn score(&self) -> u64 {
        self.sum
    }
}
