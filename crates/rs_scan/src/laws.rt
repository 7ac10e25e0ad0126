//! What scans give can be the input of an operator: laws of their rows. The functions compute nothing; each is called for its
//! contract.

ghost use Rattle.std.specs.Prelude.{◌≡◌, ◌≤◌, ◌-◌, ℕ, List, length, slice_index};
ghost use Rattle.std.specs.List.{AllByRecursion};
ghost use Rattle.rs_order.specs.Climbing.{Climbs};
ghost use Rattle.rs_rank.specs.declared.scored_row.ScoredRow.{ScoredRow};
ghost use Rattle.rs_rank.specs.declared.weights.Weights.{Weights};
ghost use Rattle.rs_rank.specs.Ids.{IsIds};
ghost use Rattle.rs_rank.specs.Keys.{key_cmp};
ghost use Rattle.rs_rank.specs.Masks.{mask_of};
ghost use Rattle.rs_rank.specs.Rows.{HasSum, HaveOtherIds, key_of};
ghost use Rattle.rs_rank.specs.Weights.{IsWeights};
ghost use Rattle.rs_catalog.specs.Indexes.{IsRanking};
ghost use Rattle.rs_scan.specs.Scans.{IsEntryNumber, index_rows, table_rows};

/// The rows of a table: there are as many as the view has, their keys rise where no term is evaluated, no term is in their sums,
/// they have ids of their entry, and no two have the same ids.
pub fn table_rows_can_be_input()
    ensures count { (block entry rows : ℕ) → length (table_rows block entry rows) ≡ rows }
    ensures rising { (weights : Weights) (block entry rows : ℕ) → IsEntryNumber entry
        → Climbs key_cmp (key_of weights 0) (table_rows block entry rows) }
    ensures sums { (weights : Weights) (block entry rows : ℕ)
        → AllByRecursion (HasSum weights 0) (table_rows block entry rows) }
    ensures ids { (block entry rows : ℕ) → IsEntryNumber entry
        → AllByRecursion (λ row. IsIds row.ids) (table_rows block entry rows) }
    ensures others { (block entry rows : ℕ) → IsEntryNumber entry → HaveOtherIds (table_rows block entry rows) }
{}

/// The rows of an index, whose entries are a ranking, for a term that has a weight: there are as many as the table has, where the
/// view is all of it, their keys rise where this term alone is evaluated, their sums are such that it can give, they have ids
/// of their entry, and no two have the same ids.
pub fn index_rows_can_be_input()
    ensures count { (block entry weight size max : ℕ) (ranking : List ScoredRow) → IsRanking size max ranking
        → length (index_rows block entry weight size ranking) ≡ size }
    ensures rising { (weights : Weights) (block entry weight rows term size max : ℕ) (ranking : List ScoredRow)
        → IsEntryNumber entry → IsRanking size max ranking → 1 ≤ weight
        → Climbs key_cmp (key_of weights (mask_of term)) (index_rows block entry weight rows ranking) }
    ensures sums { (weights : Weights) (block entry weight rows term size max : ℕ) (ranking : List ScoredRow)
        → IsWeights weights → 1 ≤ term → term ≤ 8 → IsRanking size max ranking
        → slice_index weights.weight (term - 1) ≡ weight → max ≤ slice_index weights.max (term - 1)
        → AllByRecursion (HasSum weights (mask_of term)) (index_rows block entry weight rows ranking) }
    ensures ids { (block entry weight rows : ℕ) (ranking : List ScoredRow) → IsEntryNumber entry
        → AllByRecursion (λ row. IsIds row.ids) (index_rows block entry weight rows ranking) }
    ensures others { (block entry weight rows size max : ℕ) (ranking : List ScoredRow)
        → IsEntryNumber entry → IsRanking size max ranking
        → HaveOtherIds (index_rows block entry weight rows ranking) }
{}
