//! What the tops of terms are: laws that hold of every catalogue and query. The function computes nothing; it is called for its
//! contract.

ghost use Rattle.std.specs.Prelude.{◌≡◌, ◌≤◌, ℕ, List, Some, true};
ghost use Rattle.rs_order.specs.Climbing.{In};
ghost use Rattle.rs_expr.specs.Scoring.{Answering};
ghost use Rattle.rs_catalog.specs.Catalog.{CatalogDef};
ghost use Rattle.rs_catalog.specs.Indexes.{index_of, ranking_at};
ghost use Rattle.rs_catalog.specs.IndexesHold.{IndexesHold};
ghost use Rattle.rs_catalog.specs.declared.index.BoundArg.{BoundArg};
ghost use Rattle.rs_query.specs.Answers.{worth_of};
ghost use Rattle.rs_query.specs.Blocks.{block_in};
ghost use Rattle.rs_query.specs.Combinations.{combinations};
ghost use Rattle.rs_query.specs.Growth.{CatalogueGrows, IsSizes};
ghost use Rattle.rs_query.specs.Meaning.{is_inside};
ghost use Rattle.rs_query.specs.Tops.{HasTops, IsBounded, first_score, top_by, with_tops};
ghost use Rattle.rs_query.specs.WellFormed.{IsQuery};
ghost use Rattle.rs_query.specs.declared.query.Query.{Query as BoundQuery};
ghost use Rattle.rs_query.specs.declared.term.Term.{Term as BoundTerm};

use rs_catalog::rankings_are_in_order;

/// A query that gets its tops stays well formed and has them. Where the rank indexes hold the scorer's answers, the top that comes from
/// an index is its first score, and no term of a query with its tops is worth more than its maximum: for no rows of its entries'
/// tables, so for no combination of a view. That is so too of the catalogue as it was before, and of each of its snapshots.
pub fn worths_are_within_tops()
    ensures tops { (catalogue : CatalogDef) (query : BoundQuery) → IsQuery catalogue query → HasTops catalogue (with_tops catalogue query) }
    ensures worths { (answer : Answering) (catalogue : CatalogDef) (query : BoundQuery) → IndexesHold answer catalogue
        → HasTops catalogue query → IsBounded answer catalogue query }
    ensures formed { (catalogue : CatalogDef) (query : BoundQuery) → IsQuery catalogue query → IsQuery catalogue (with_tops catalogue query) }
    ensures first { (answer : Answering) (catalogue : CatalogDef) (table predicate : ℕ) (args : List BoundArg) (entry index : ℕ)
        → IndexesHold answer catalogue → index_of table predicate args entry catalogue ≡ Some index
        → top_by catalogue predicate (Some index) ≡ first_score (ranking_at catalogue index) }
    ensures views { (answer : Answering) (catalogue : CatalogDef) (query : BoundQuery) (number : ℕ) (sizes : List ℕ) (mask : ℕ) (rows : List ℕ) (term : BoundTerm)
        → IsBounded answer catalogue query → IsSizes catalogue (block_in query number) sizes
        → In rows (combinations catalogue (block_in query number) sizes mask) → In term (block_in query number).terms
        → is_inside term.entries mask ≡ true → worth_of answer catalogue (block_in query number) rows term ≤ term.max }
    ensures before { (answer : Answering) (old new : CatalogDef) (query : BoundQuery) → CatalogueGrows old new
        → IsQuery old query → IsBounded answer new query → IsBounded answer old query }
{
    rankings_are_in_order();
}
