//! What the stable order is: laws that hold of every list of rows. The functions compute nothing; each is called
//! for its contract.

ghost use Rattle.std.specs.Prelude.{◌≡◌, ℕ, ◌<◌, ◌≤◌, ◌==◌, List, length, slice_index_or};
ghost use Rattle.std.specs.List.{filter};
ghost use Rattle.std.specs.List.Sorted.{IsPermutation};
ghost use Rattle.std.specs.Ordering.{flip_args, nat_cmp};
ghost use Rattle.rs_order.specs.Climbing.{Climbs};
ghost use Rattle.rs_order.specs.Sorting.{sorted};
ghost use Rattle.rs_rank.specs.declared.row.RankRow.{RankRow};
ghost use Rattle.rs_rank.specs.declared.weights.Weights.{Weights};
ghost use Rattle.rs_rank.specs.Keys.{ids_cmp, key_cmp};
ghost use Rattle.rs_rank.specs.Rows.{key_of};
ghost use Rattle.rs_rank.specs.Stable.{stable};

use crate::stable::Scored;

/// The stable order has the rows of the list, each as often as the list has it.
pub fn stable_is_permutation<T: Scored>()
    ensures { (rows : List T) → IsPermutation rows (stable T.score_of rows) }
{}

/// Scores never rise along the stable order.
pub fn stable_is_sorted<T: Scored>()
    ensures { (rows : List T) (i j : ℕ) (other : T) → i ≤ j → j < length rows
        → T.score_of (slice_index_or (stable T.score_of rows) j other)
        ≤ T.score_of (slice_index_or (stable T.score_of rows) i other) }
{}

/// The rows of each score stand in the stable order as they stood in the list.
pub fn stable_keeps_equals<T: Scored>()
    ensures { (rows : List T) (score : ℕ)
        → filter (λ row. T.score_of row == score) (stable T.score_of rows)
        ≡ filter (λ row. T.score_of row == score) rows }
{}

/// No other list is in order and keeps the order of equals.
pub fn stable_is_unique<T: Scored>()
    ensures { (rows ordered : List T)
        → ((i j : ℕ) (other : T) → i ≤ j → j < length ordered
        → T.score_of (slice_index_or ordered j other) ≤ T.score_of (slice_index_or ordered i other))
        → ((score : ℕ) → filter (λ row. T.score_of row == score) ordered
        ≡ filter (λ row. T.score_of row == score) rows)
        → ordered ≡ stable T.score_of rows }
{}

/// The stable order is the list sorted by score, the greater score first.
pub fn stable_is_sorted_by_score<T: Scored>()
    ensures { (rows : List T) → stable T.score_of rows ≡ sorted (flip_args nat_cmp) T.score_of rows }
{}

/// Of rows whose ids rise, the order by keys is the stable order by sums, whichever terms are evaluated: the bounds of
/// all rows have the same part for the other terms, and at equal bounds the ids decide, by which the rows stand already.
pub fn stable_is_sorted_by_key()
    ensures { (weights : Weights) (terms : ℕ) (rows : List RankRow) → Climbs ids_cmp (λ row. row.ids) rows
        → stable (λ row. row.sum) rows ≡ sorted key_cmp (key_of weights terms) rows }
{}
