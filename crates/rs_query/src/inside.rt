//! What holds of every well-formed block. The function computes nothing; it is called for its contract.

ghost use Rattle.std.specs.Prelude.{◌≡◌, true};
ghost use Rattle.std.specs.List.{AllByRecursion};
ghost use Rattle.rs_catalog.specs.Catalog.{CatalogDef};
ghost use Rattle.rs_query.specs.declared.block.Block.{Block as BoundBlock};
ghost use Rattle.rs_query.specs.Meaning.{is_inside};
ghost use Rattle.rs_query.specs.Tables.{all_entries};
ghost use Rattle.rs_query.specs.WellFormed.{IsBlock, entries_mask};

/// The entries of each term, of each conjunct and of the output columns are among the entries of the block.
pub fn parts_are_inside()
    ensures terms { (catalogue : CatalogDef) (block : BoundBlock) → IsBlock catalogue block
        → AllByRecursion (λ t. is_inside t.entries (all_entries block) ≡ true) block.terms }
    ensures conjuncts { (catalogue : CatalogDef) (block : BoundBlock) → IsBlock catalogue block
        → AllByRecursion (λ c. is_inside c.entries (all_entries block) ≡ true) block.conjuncts }
    ensures items { (catalogue : CatalogDef) (block : BoundBlock) → IsBlock catalogue block
        → is_inside (entries_mask block.items) (all_entries block) ≡ true }
{}
