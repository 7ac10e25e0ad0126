//! What the rows of a plan are, and when a cursor goes on to stand: laws that hold of every scorer, catalogue and query. The
//! functions compute nothing; each is called for its contract.

ghost use Rattle.std.specs.Prelude.{◌≡◌, ℕ, List, Result};
ghost use Rattle.std.specs.List.{flat_map};
ghost use Rattle.rs_order.specs.Schedule.{numbers_from};
ghost use Rattle.rs_expr.specs.Predicates.{PredicateDef};
ghost use Rattle.rs_expr.specs.Scoring.{Answering, ScorerState};
ghost use Rattle.rs_value.specs.declared.value.Value.{Value};
ghost use Rattle.rs_rank.specs.Stable.{stable};
ghost use Rattle.rs_rank.specs.Weights.{IsWeights};
ghost use Rattle.rs_rank.specs.declared.scored_row.ScoredRow.{ScoredRow};
ghost use Rattle.rs_table.specs.Relation.{Relation};
ghost use Rattle.rs_catalog.specs.Catalog.{CatalogDef, with_index, with_predicate, with_table};
ghost use Rattle.rs_catalog.specs.Growing.{CanJoin, GrowsBy};
ghost use Rattle.rs_catalog.specs.IndexesHold.{IndexesHold};
ghost use Rattle.rs_catalog.specs.Snapshot.{HaveRows, snapshot};
ghost use Rattle.rs_catalog.specs.declared.growth.GrowFault.{GrowFault};
ghost use Rattle.rs_catalog.specs.declared.index.IndexDef.{IndexDef};
ghost use Rattle.rs_query.specs.Answers.{answer_of, cut, limit_of, rows_of};
ghost use Rattle.rs_query.specs.Tables.{sizes_of};
ghost use Rattle.rs_query.specs.WellFormed.{IsQuery};
ghost use Rattle.rs_plan.specs.Calls.{calls_of_plan, part_of_plan};
ghost use Rattle.rs_filter.specs.Matching.{IsView};
ghost use Rattle.rs_plan.specs.Lists.{World, list_of_plan, numbered_block, sizes_in, weights_in};
ghost use Rattle.rs_plan.specs.Plans.{IsPlan};
ghost use Rattle.rs_plan.specs.Trees.{PlanTree};
ghost use Rattle.rs_exec.specs.Asked.{IsBoundedWorld};
ghost use Rattle.rs_exec.specs.Covering.{Covers};
ghost use Rattle.rs_exec.specs.Cursors.{CursorState, HasFewTerms, SameAsks, StandsFor, answers_of};
ghost use Rattle.rs_exec.specs.Asking.{world_of};
ghost use Rattle.rs_query.specs.declared.query.Query.{Query};

use rs_catalog::snapshots_stay;

/// The rows of a plan are those of the query in the stable order of their scores. Cut to LIMIT they are its answer. A block has at most
/// eight terms, as those of each bound query have.
pub fn plans_give_the_answer()
    ensures order { (w : World) (tree : PlanTree) → HasFewTerms w.query → IsPlan w.catalogue w.query tree
        → answers_of w tree ≡ stable (λ row. row.score) (rows_of w.answer w.catalogue w.query w.view) }
    ensures answer { (w : World) (tree : PlanTree) → HasFewTerms w.query → IsPlan w.catalogue w.query tree
        → cut (limit_of w.query) (answers_of w tree) ≡ answer_of w.answer w.catalogue w.query w.view }
{}

/// So any two plans of a query give the same rows in the same order.
pub fn plans_give_the_same_rows()
    ensures { (w : World) (tree other : PlanTree) → IsPlan w.catalogue w.query tree → IsPlan w.catalogue w.query other
        → list_of_plan w tree ≡ list_of_plan w other }
{}

/// The calls of the first asks, one ask after another, are those that come with this many asks: no call is made ahead, and none
/// twice.
pub fn rows_give_the_parts_in_turn()
    ensures { (w : World) (tree : PlanTree) (n : ℕ) → IsQuery w.catalogue w.query → IsBoundedWorld w
        → IsView (sizes_in w 1) (sizes_of w.catalogue (numbered_block w 1)) → IsWeights (weights_in w)
        → IsPlan w.catalogue w.query tree
        → flat_map (part_of_plan w tree) (numbers_from 1 n) ≡ calls_of_plan w tree n }
{}

/// What joins the catalogue changes nothing for a cursor that stands for what was seen of it: a table, a predicate, an index; or rows,
/// where it is seen by the snapshot of its tables' sizes.
pub fn cursors_stand_in_larger_catalogues()
    ensures tables { (catalogue : CatalogDef) (answer : Answering) (cursor : CursorState) (name : List ℕ) (table : Relation)
        → StandsFor catalogue answer cursor → StandsFor (with_table name table catalogue) answer cursor }
    ensures predicates { (catalogue : CatalogDef) (answer : Answering) (cursor : CursorState) (predicate : PredicateDef)
        → StandsFor catalogue answer cursor → StandsFor (with_predicate predicate catalogue) answer cursor }
    ensures indexes { (catalogue : CatalogDef) (answer : Answering) (cursor : CursorState) (def : IndexDef) (ranking : List ScoredRow)
        → StandsFor catalogue answer cursor → StandsFor (with_index def ranking catalogue) answer cursor }
    ensures rows { (sizes : List ℕ) (catalogue new : CatalogDef) (answer : Answering) (cursor : CursorState) (table : ℕ) (rows : List (List Value))
        (result : Result (Unit {0}) GrowFault) (before after : ScorerState)
        → CanJoin catalogue table rows → HaveRows sizes catalogue.tables → IndexesHold before.answer catalogue → GrowsBy table rows catalogue new result before after
        → StandsFor (snapshot sizes catalogue) answer cursor → StandsFor (snapshot sizes new) answer cursor }
{
    snapshots_stay();
}

/// What joins the catalogue changes nothing of what the asks of a plan give, and of the calls that they make, where the catalogue has
/// the tables of the query's FROM entries and the predicates of its terms.
pub fn plans_ask_the_same_in_larger_catalogues()
    ensures tables { (catalogue : CatalogDef) (answer : Answering) (query : Query) (tree : PlanTree) (name : List ℕ) (table : Relation)
        → Covers catalogue query → SameAsks (world_of (with_table name table catalogue) answer query) (world_of catalogue answer query) tree }
    ensures predicates { (catalogue : CatalogDef) (answer : Answering) (query : Query) (tree : PlanTree) (predicate : PredicateDef)
        → Covers catalogue query → SameAsks (world_of (with_predicate predicate catalogue) answer query) (world_of catalogue answer query) tree }
    ensures indexes { (catalogue : CatalogDef) (answer : Answering) (query : Query) (tree : PlanTree) (def : IndexDef) (ranking : List ScoredRow)
        → Covers catalogue query → SameAsks (world_of (with_index def ranking catalogue) answer query) (world_of catalogue answer query) tree }
{}
