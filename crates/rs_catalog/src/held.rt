//! When the rank indexes of a catalogue hold a scorer's answers: laws that hold of every catalogue and scorer. The function
//! computes nothing; it is called for its contract.

ghost use Rattle.std.specs.Prelude.{ℕ, List, Result};
ghost use Rattle.rs_value.specs.declared.value.Value.{Value};
ghost use Rattle.rs_expr.specs.Predicates.{PredicateDef};
ghost use Rattle.rs_expr.specs.Scoring.{Answering, ScorerState};
ghost use Rattle.rs_table.specs.Relation.{Relation};
ghost use Rattle.rs_catalog.specs.Catalog.{CatalogDef, empty, with_predicate, with_table};
ghost use Rattle.rs_catalog.specs.Growing.{CanJoin, GrowsBy};
ghost use Rattle.rs_catalog.specs.IndexesHold.{IndexesHold};
ghost use Rattle.rs_catalog.specs.Indexes.{IsIndex, making};
ghost use Rattle.rs_catalog.specs.Making.{MakesIndex};
ghost use Rattle.rs_catalog.specs.declared.growth.GrowFault.{GrowFault};
ghost use Rattle.rs_catalog.specs.declared.index.IndexDef.{IndexDef};
ghost use Rattle.rs_catalog.specs.declared.index.IndexFault.{IndexFault};

/// An empty catalogue has no index that lacks a scorer's answers. Where none does, none does behind what joins: a table, a
/// predicate, an index for which the scorer was called, or rows for which it was, whatever came of that.
pub fn indexes_go_on_to_hold_answers()
    ensures start { (answer : Answering) → IndexesHold answer empty }
    ensures tables { (catalogue : CatalogDef) (answer : Answering) (name : List ℕ) (table : Relation)
        → IndexesHold answer catalogue → IndexesHold answer (with_table name table catalogue) }
    ensures predicates { (catalogue : CatalogDef) (answer : Answering) (predicate : PredicateDef)
        → IndexesHold answer catalogue → IndexesHold answer (with_predicate predicate catalogue) }
    ensures indexes { (catalogue new : CatalogDef) (def : IndexDef) (result : Result (Unit {0}) IndexFault) (before after : ScorerState)
        → IsIndex catalogue def → IndexesHold before.answer catalogue
        → MakesIndex (making before.answer catalogue def) def catalogue new result before after → IndexesHold after.answer new }
    ensures rows { (catalogue new : CatalogDef) (table : ℕ) (rows : List (List Value)) (result : Result (Unit {0}) GrowFault) (before after : ScorerState)
        → CanJoin catalogue table rows → IndexesHold before.answer catalogue
        → GrowsBy table rows catalogue new result before after → IndexesHold after.answer new }
{}
