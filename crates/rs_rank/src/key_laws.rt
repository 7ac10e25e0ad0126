//! Laws of the order of keys and of merged keys. The functions compute nothing; each is called for its contract.

ghost use Rattle.std.specs.Prelude.{◌≡◌, ◌⊎◌, ◌↔◌, ℕ, bit_or};
ghost use Rattle.std.specs.Cmp.{IsTotalOrder};
ghost use Rattle.rs_rank.specs.declared.key.Key.{Key};
ghost use Rattle.rs_rank.specs.declared.row.RankRow.{RankRow};
ghost use Rattle.rs_rank.specs.declared.weights.Weights.{Weights};
ghost use Rattle.rs_rank.specs.Keys.{IsAtOrBefore, IsBefore, IsTied, key_cmp};
ghost use Rattle.rs_rank.specs.Merging.{CanMerge, merge_key};
ghost use Rattle.rs_rank.specs.Rows.{key_of, merge_row};

/// Of two keys one comes before the other, or they are equal; and what comes before a key comes before all that it
/// comes before.
pub fn key_order_is_total()
    ensures { IsTotalOrder key_cmp }
{}

/// Keys are equal exactly where their bounds, blocks and row numbers are, whatever their masks.
pub fn equal_keys_have_equal_rows()
    ensures { (key other : Key) → IsTied key other
        ↔ ((key.bound ≡ other.bound) × (key.ids.block ≡ other.ids.block) × (key.ids.rows ≡ other.ids.rows)) }
{}

/// Merging is monotone: where each side's key comes at or before another one, so does the merged key.
pub fn merging_keeps_the_order()
    ensures { (weights : Weights) (p q : ℕ) (left right later_left later_right : Key)
        → CanMerge weights p q left right → CanMerge weights p q later_left later_right
        → IsAtOrBefore left later_left → IsAtOrBefore right later_right
        → IsAtOrBefore (merge_key weights p q left right) (merge_key weights p q later_left later_right) }
{}

/// Where one side's key comes strictly before another one, and the other side's at or before another one, the merged
/// key comes strictly before.
pub fn merging_keeps_the_strict_order()
    ensures { (weights : Weights) (p q : ℕ) (left right later_left later_right : Key)
        → CanMerge weights p q left right → CanMerge weights p q later_left later_right
        → IsAtOrBefore left later_left → IsAtOrBefore right later_right
        → IsBefore left later_left ⊎ IsBefore right later_right
        → IsBefore (merge_key weights p q left right) (merge_key weights p q later_left later_right) }
{}

/// The merge of two rows' keys is the key of the merged row.
pub fn merged_rows_have_merged_keys()
    ensures { (weights : Weights) (p q : ℕ) (left right : RankRow)
        → merge_key weights p q (key_of weights p left) (key_of weights q right)
        ≡ key_of weights (bit_or p q) (merge_row left right) }
{}
