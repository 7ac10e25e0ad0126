//! What snapshots keep: laws that hold of every catalogue. The functions compute nothing; each is called for its contract.

ghost use Rattle.std.specs.Prelude.{◌≡◌, ℕ, List, Result};
ghost use Rattle.rs_value.specs.declared.value.Value.{Value};
ghost use Rattle.rs_expr.specs.Predicates.{PredicateDef};
ghost use Rattle.rs_expr.specs.Scoring.{Answering, ScorerState};
ghost use Rattle.rs_rank.specs.declared.scored_row.ScoredRow.{ScoredRow};
ghost use Rattle.rs_table.specs.FirstRows.{first_rows};
ghost use Rattle.rs_table.specs.Relation.{Relation};
ghost use Rattle.rs_catalog.specs.After.{entries_within};
ghost use Rattle.rs_catalog.specs.Catalog.{CatalogDef, with_index, with_predicate, with_table};
ghost use Rattle.rs_catalog.specs.Growing.{CanJoin, GrowsBy};
ghost use Rattle.rs_catalog.specs.IndexesHold.{IndexesHold};
ghost use Rattle.rs_catalog.specs.Snapshot.{HaveRows, size_at, sizes_in, snapshot};
ghost use Rattle.rs_catalog.specs.declared.growth.GrowFault.{GrowFault};
ghost use Rattle.rs_catalog.specs.declared.index.IndexDef.{IndexDef};

/// A catalogue whose indexes hold a scorer's answers is its own snapshot at the sizes of its tables. What joins it later, a table, a
/// predicate or an index, joins the snapshot behind all that is there, a table without rows. A call that adds rows to a table by that
/// scorer changes nothing of the snapshot, whether they joined or not; and the tables go on to have its rows.
pub fn snapshots_stay()
    ensures start { (answer : Answering) (catalogue : CatalogDef) → IndexesHold answer catalogue → snapshot (sizes_in catalogue) catalogue ≡ catalogue }
    ensures rows_start { (catalogue : CatalogDef) → HaveRows (sizes_in catalogue) catalogue.tables }
    ensures tables { (sizes : List ℕ) (catalogue : CatalogDef) (name : List ℕ) (table : Relation) → HaveRows sizes catalogue.tables
        → snapshot sizes (with_table name table catalogue) ≡ with_table name (first_rows 0 table) (snapshot sizes catalogue) }
    ensures predicates { (sizes : List ℕ) (catalogue : CatalogDef) (predicate : PredicateDef)
        → snapshot sizes (with_predicate predicate catalogue) ≡ with_predicate predicate (snapshot sizes catalogue) }
    ensures indexes { (sizes : List ℕ) (catalogue : CatalogDef) (def : IndexDef) (ranking : List ScoredRow)
        → snapshot sizes (with_index def ranking catalogue) ≡ with_index def (entries_within (size_at sizes def.table) ranking) (snapshot sizes catalogue) }
    ensures rows { (sizes : List ℕ) (catalogue new : CatalogDef) (table : ℕ) (rows : List (List Value)) (result : Result (Unit {0}) GrowFault) (before after : ScorerState)
        → CanJoin catalogue table rows → HaveRows sizes catalogue.tables → IndexesHold before.answer catalogue
        → GrowsBy table rows catalogue new result before after → snapshot sizes new ≡ snapshot sizes catalogue }
    ensures rows_tables { (sizes : List ℕ) (catalogue : CatalogDef) (name : List ℕ) (table : Relation) → HaveRows sizes catalogue.tables
        → HaveRows sizes (with_table name table catalogue).tables }
    ensures rows_rows { (sizes : List ℕ) (catalogue new : CatalogDef) (table : ℕ) (rows : List (List Value)) (result : Result (Unit {0}) GrowFault) (before after : ScorerState)
        → CanJoin catalogue table rows → HaveRows sizes catalogue.tables
        → GrowsBy table rows catalogue new result before after → HaveRows sizes new.tables }
{}

/// The indexes of a snapshot hold the answers that those of its catalogue do.
pub fn snapshots_hold_answers()
    ensures { (sizes : List ℕ) (answer : Answering) (catalogue : CatalogDef) → IndexesHold answer catalogue
        → IndexesHold answer (snapshot sizes catalogue) }
{}
