//! What a join gives of its sides: laws that hold of every catalogue and block. The functions compute nothing; each is called for
//! its contract.

ghost use Rattle.std.specs.Prelude.{◌≡◌, ◌&&◌, ◌↔◌, ℕ, List, bit_or, true};
ghost use Rattle.rs_order.specs.Climbing.{In};
ghost use Rattle.rs_rank.specs.declared.row.RankRow.{RankRow};
ghost use Rattle.rs_rank.specs.Ids.{merge_rows};
ghost use Rattle.rs_rank.specs.Masks.{AreDisjoint};
ghost use Rattle.rs_rank.specs.Rows.{merge_row};
ghost use Rattle.rs_catalog.specs.Catalog.{CatalogDef};
ghost use Rattle.rs_query.specs.Choices.{IsChoice};
ghost use Rattle.rs_query.specs.Combinations.{combinations, satisfies};
ghost use Rattle.rs_query.specs.Tables.{sizes_of};
ghost use Rattle.rs_query.specs.WellFormed.{IsBlock};
ghost use Rattle.rs_query.specs.declared.block.Block.{Block as Bound};
ghost use Rattle.rs_filter.specs.JoinValues.{is_equi, left_values, right_values};
ghost use Rattle.rs_filter.specs.Matching.{IsView, is_side, joins, satisfies_across};

/// Of rows of two sides that share no entry: each conjunct that speaks of entries of both sides together is looked at in a
/// side, or across them. So the merge of two rows is a combination of both sides exactly where they are combinations of their
/// sides and match.
pub fn sides_and_matches_are_combinations()
    ensures satisfied { (catalogue : CatalogDef) (block : Bound) (sizes : List ℕ) (left right : ℕ) (lefts rights : List ℕ)
        → IsBlock catalogue block → AreDisjoint left right → IsChoice left sizes lefts → IsChoice right sizes rights
        → satisfies catalogue block (bit_or left right) (merge_rows lefts rights)
        ≡ (satisfies catalogue block left lefts && (satisfies catalogue block right rights
        && satisfies_across catalogue block left right (merge_rows lefts rights))) }
    ensures combined { (catalogue : CatalogDef) (block : Bound) (sizes : List ℕ) (l r : RankRow)
        → IsBlock catalogue block → IsView sizes (sizes_of catalogue block) → AreDisjoint l.ids.mask r.ids.mask
        → IsChoice l.ids.mask sizes l.ids.rows → IsChoice r.ids.mask sizes r.ids.rows
        → In (merge_row l r).ids.rows (combinations catalogue block sizes (merge_row l r).ids.mask)
        ↔ (In l.ids.rows (combinations catalogue block sizes l.ids.mask)
        × In r.ids.rows (combinations catalogue block sizes r.ids.mask)
        × (joins catalogue block l.ids.mask r.ids.mask l r ≡ true)) }
{}

/// Rows that match have equal join values. So it is enough to look for the matches of a row among the rows that have its own.
pub fn matches_have_equal_join_values()
    ensures { (catalogue : CatalogDef) (block : Bound) (left right : ℕ) (l r : RankRow) → IsBlock catalogue block
        → AreDisjoint left right → joins catalogue block left right l r ≡ true
        → left_values catalogue block left right l.ids.rows ≡ right_values catalogue block left right r.ids.rows }
{}

/// Where each conjunct that speaks of both sides is an equality of a column of the one and a column of the other, rows of the
/// two sides that have equal join values match. So it needn't be looked at whether they do.
pub fn equal_join_values_match()
    ensures { (catalogue : CatalogDef) (block : Bound) (left right : ℕ) (l r : RankRow) → IsBlock catalogue block
        → AreDisjoint left right → is_equi left right block.conjuncts ≡ true
        → is_side catalogue block left l ≡ true → is_side catalogue block right r ≡ true
        → left_values catalogue block left right l.ids.rows ≡ right_values catalogue block left right r.ids.rows
        → joins catalogue block left right l r ≡ true }
{}
