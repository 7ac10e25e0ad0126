ghost use Rattle.std.proofs.Common.{rules};
ghost use Rattle.std.specs.Prelude.{◌≡◌, bit_or};
ghost use Rattle.std.specs.Cmp.{partial_order_from_own_ties};
ghost use Rattle.std.specs.Cmp.Rules.{comparing};
ghost use Rattle.std.specs.Ordering.{as_partial_cmp, eq_by_cmp};
ghost use Rattle.rs_rank.specs.Ids.{IsIds};
ghost use Rattle.rs_rank.specs.Keys.{key_cmp};
ghost use Rattle.rs_rank.specs.Merging.{CanMerge, merge_key};
ghost use Rattle.rs_rank.specs.Weights.{IsBound};

use crate::ids::Ids;
use crate::mask::union;
use crate::weights::Weights;
use std::cmp::Ordering;

/// What a row is ordered by while some of its terms aren't evaluated: the upper bound of its score, and its ids.
///
/// The greater bound comes first. Equal bounds go by block, and then by the row numbers in FROM order. No comparison
/// looks at the mask.
#[derive(Clone, Copy, Debug)]
pub struct Key {
    pub bound: u64,
    pub ids: Ids,
}

impl Ord for Key {
    ghost cmp = { key_cmp };

    ghost total = { Prim.search (comparing, rules) depth 9 };

    ghost matches_partial_cmp = { Prim.search (comparing, rules) };

    ghost matches_eq = { Prim.search (comparing, rules) };

    fn cmp(&self, other: &Key) -> Ordering {
        match other.bound.cmp(&self.bound) {
            Ordering::Equal => match self.ids.block.cmp(&other.ids.block) {
                Ordering::Equal => self.ids.rows.cmp(&other.ids.rows),
                unequal => unequal,
            },
            unequal => unequal,
        }
    }
}

impl PartialOrd for Key {
    ghost partial_cmp = { as_partial_cmp key_cmp };

    ghost laws = { partial_order_from_own_ties (Prim.search (comparing, rules) depth 9) (Prim.search (comparing, rules)) };

    fn partial_cmp(&self, other: &Key) -> Option<Ordering> {
        Some(self.cmp(other))
    }
}

impl PartialEq for Key {
    ghost eq = { eq_by_cmp key_cmp };

    ghost laws = { Prim.search (comparing, rules) depth 9 };

    fn eq(&self, other: &Key) -> bool {
        self.cmp(other).is_eq()
    }
}

impl Eq for Key {
    ghost laws = { Prim.search (comparing, rules) depth 9 };
}

impl Key {
    /// The key of the merged row, from the keys of its sides: `self` under the terms `left`, and `other` under `right`.
    /// Its bound is that under the terms of both.
    pub fn merge(&self, other: &Key, weights: &Weights, left: u8, right: u8) -> Key
        requires { CanMerge weights.now left right self.now other.now }
        ensures value { result ≡ merge_key weights.now left right self.now other.now }
        ensures bound { IsBound weights.now (bit_or left right) result.bound }
        ensures ids { IsIds result.ids }
    {
        let evaluated = (self.bound - weights.rest(left)) + (other.bound - weights.rest(right));
        Key {
            bound: evaluated + weights.rest(union(left, right)),
            ids: self.ids.merge(&other.ids),
        }
    }
}
