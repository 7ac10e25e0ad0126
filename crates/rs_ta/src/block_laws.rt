//! A threshold scan over the rank indexes of an eligible block answers it: laws of such blocks. The functions compute nothing; each
//! is called for its contract.

ghost use Rattle.std.specs.Prelude.{◌≡◌, ℕ, List, Option, Some, length, map};
ghost use Rattle.std.specs.List.{AllByRecursion};
ghost use Rattle.rs_expr.specs.Scoring.{Answering};
ghost use Rattle.rs_catalog.specs.Catalog.{CatalogDef};
ghost use Rattle.rs_catalog.specs.IndexesHold.{Holds};
ghost use Rattle.rs_query.specs.Answers.{answer_of, cut};
ghost use Rattle.rs_query.specs.Tables.{size_of};
ghost use Rattle.rs_query.specs.Views.{all_rows};
ghost use Rattle.rs_query.specs.WellFormed.{IsBlock};
ghost use Rattle.rs_query.specs.declared.block.Block.{Block as Bound};
ghost use Rattle.rs_query.specs.declared.query.Query.TheVariants.{One};
ghost use Rattle.rs_ta.specs.Depths.{answers};
ghost use Rattle.rs_ta.specs.Eligible.{answer_for, block_input, eligible_indexes};
ghost use Rattle.rs_ta.specs.IndexLists.{AreOfOneTable};
ghost use Rattle.rs_ta.specs.Lists.{rows_in};
ghost use Rattle.rs_ta.specs.Scans.{HaveWeights};

use rs_catalog::rankings_are_in_order;

/// An eligible block can be scanned: it has one FROM entry, its indexes are of one table, and each of them has a weight.
pub fn eligible_blocks_can_be_scanned()
    ensures entry { (catalogue : CatalogDef) (block : Bound) (indexes : List ℕ)
        → eligible_indexes catalogue block ≡ Some indexes → length block.from ≡ 1 }
    ensures indexes { (catalogue : CatalogDef) (block : Bound) (indexes : List ℕ)
        → IsBlock catalogue block → eligible_indexes catalogue block ≡ Some indexes → AreOfOneTable catalogue indexes }
    ensures weights { (catalogue : CatalogDef) (block : Bound) (indexes : List ℕ)
        → IsBlock catalogue block → eligible_indexes catalogue block ≡ Some indexes → HaveWeights (block_input catalogue block indexes) }
{}

/// Where the indexes of an eligible block hold the scorer's answers, they have the rows of its table, and the answer of the block is
/// made of the rows that the scan gives.
pub fn threshold_scans_give_the_answer()
    ensures rows { (answer : Answering) (catalogue : CatalogDef) (block : Bound) (indexes : List ℕ)
        → IsBlock catalogue block → eligible_indexes catalogue block ≡ Some indexes → AllByRecursion (Holds answer catalogue) indexes
        → size_of catalogue block 1 ≡ rows_in (block_input catalogue block indexes).lists }
    ensures answer { (answer : Answering) (catalogue : CatalogDef) (block : Bound) (limit : Option ℕ) (indexes : List ℕ)
        → IsBlock catalogue block → eligible_indexes catalogue block ≡ Some indexes → AllByRecursion (Holds answer catalogue) indexes
        → cut limit (map (answer_for catalogue block) (answers (block_input catalogue block indexes)))
        ≡ answer_of answer catalogue (One block limit) (all_rows catalogue (One block limit)) }
{
    rankings_are_in_order();
}
