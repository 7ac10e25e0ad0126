//! What queries keep as their catalogue grows: laws that hold of every catalogue and query. The functions compute nothing; each
//! is called for its contract.

ghost use Rattle.std.specs.Prelude.{◌≡◌, ◌≤◌, ℕ, List, Result, not, true};
ghost use Rattle.std.specs.List.{filter};
ghost use Rattle.rs_value.specs.declared.value.Value.{Value};
ghost use Rattle.rs_table.specs.Relation.{Relation};
ghost use Rattle.rs_order.specs.Climbing.{In};
ghost use Rattle.rs_rank.specs.declared.scored_row.ScoredRow.{ScoredRow};
ghost use Rattle.rs_expr.specs.Predicates.{PredicateDef};
ghost use Rattle.rs_expr.specs.Scoring.{Answering, ScorerState};
ghost use Rattle.rs_catalog.specs.Catalog.{CatalogDef, with_index, with_predicate, with_table};
ghost use Rattle.rs_catalog.specs.Growing.{GrowsBy};
ghost use Rattle.rs_catalog.specs.Snapshot.{snapshot};
ghost use Rattle.rs_catalog.specs.declared.growth.GrowFault.{GrowFault};
ghost use Rattle.rs_catalog.specs.declared.index.IndexDef.{IndexDef};
ghost use Rattle.rs_query.specs.Answers.{answer_of, predicate_at, rows_of, scorer_answer, worth_of};
ghost use Rattle.rs_query.specs.Combinations.{all_combinations, combinations, satisfies};
ghost use Rattle.rs_query.specs.Conjuncts.{ConjunctDef};
ghost use Rattle.rs_query.specs.Fresh.{has_new_row};
ghost use Rattle.rs_query.specs.Growth.{CatalogueGrows, IsSizes, IsViewOf};
ghost use Rattle.rs_query.specs.Meaning.{argument_values, conjunct_holds, is_inside, outputs_of};
ghost use Rattle.rs_query.specs.Tables.{HasRows, size_of, sizes_of};
ghost use Rattle.rs_query.specs.Views.{View, all_rows};
ghost use Rattle.rs_query.specs.WellFormed.{IsBlock, IsQuery, entries_mask};
ghost use Rattle.rs_query.specs.declared.block.Block.{Block as Bound};
ghost use Rattle.rs_query.specs.declared.query.Query.{Query as BoundQuery};
ghost use Rattle.rs_query.specs.declared.term.Term.{Term as BoundTerm};

/// A catalogue grows by a call that adds rows to a table, also where that fails and none joins, and where a table, a predicate or an
/// index joins. Each of its snapshots grows to it. It grows to itself, and by two steps as by one.
pub fn catalogues_grow()
    ensures rows { (old new : CatalogDef) (table : ℕ) (rows : List (List Value)) (result : Result (Unit {0}) GrowFault) (before after : ScorerState)
        → GrowsBy table rows old new result before after → CatalogueGrows old new }
    ensures tables { (catalogue : CatalogDef) (name : List ℕ) (table : Relation) → CatalogueGrows catalogue (with_table name table catalogue) }
    ensures predicates { (catalogue : CatalogDef) (predicate : PredicateDef) → CatalogueGrows catalogue (with_predicate predicate catalogue) }
    ensures indexes { (catalogue : CatalogDef) (def : IndexDef) (ranking : List ScoredRow)
        → CatalogueGrows catalogue (with_index def ranking catalogue) }
    ensures snapshots { (sizes : List ℕ) (catalogue : CatalogDef) → CatalogueGrows (snapshot sizes catalogue) catalogue }
    ensures same { (catalogue : CatalogDef) → CatalogueGrows catalogue catalogue }
    ensures steps { (old middle new : CatalogDef) → CatalogueGrows old middle → CatalogueGrows middle new → CatalogueGrows old new }
{}

/// As a catalogue grows, blocks and queries stay well formed, entries have no fewer rows, and a view of a query stays one. All rows
/// that the tables have are a view.
pub fn queries_stay_formed()
    ensures block { (old new : CatalogDef) (block : Bound) → CatalogueGrows old new → IsBlock old block → IsBlock new block }
    ensures query { (old new : CatalogDef) (query : BoundQuery) → CatalogueGrows old new → IsQuery old query → IsQuery new query }
    ensures sizes { (old new : CatalogDef) (block : Bound) (entry : ℕ) → CatalogueGrows old new
        → size_of old block entry ≤ size_of new block entry }
    ensures view { (old new : CatalogDef) (query : BoundQuery) (view : View) → CatalogueGrows old new
        → IsViewOf old query view → IsViewOf new query view }
    ensures whole { (catalogue : CatalogDef) (query : BoundQuery) → IsQuery catalogue query
        → IsViewOf catalogue query (all_rows catalogue query) }
{}

/// As a catalogue grows, nothing changes for rows that were there: whether conditions hold of them, the arguments of terms, the number
/// and the worth that a scorer gives these, and the values of output columns.
pub fn rows_keep_their_values()
    ensures conjunct { (old new : CatalogDef) (block : Bound) (mask : ℕ) (rows : List ℕ) (conjunct : ConjunctDef)
        → CatalogueGrows old new → IsBlock old block → HasRows old block mask rows
        → In conjunct block.conjuncts → is_inside conjunct.entries mask ≡ true
        → conjunct_holds new block rows conjunct ≡ conjunct_holds old block rows conjunct }
    ensures conditions { (old new : CatalogDef) (block : Bound) (mask : ℕ) (rows : List ℕ)
        → CatalogueGrows old new → IsBlock old block → HasRows old block mask rows
        → satisfies new block mask rows ≡ satisfies old block mask rows }
    ensures predicate { (old new : CatalogDef) (block : Bound) (term : BoundTerm)
        → CatalogueGrows old new → IsBlock old block → In term block.terms
        → predicate_at new term.predicate ≡ predicate_at old term.predicate }
    ensures arguments { (old new : CatalogDef) (block : Bound) (mask : ℕ) (rows : List ℕ) (term : BoundTerm)
        → CatalogueGrows old new → IsBlock old block → HasRows old block mask rows
        → In term block.terms → is_inside term.entries mask ≡ true
        → argument_values new block rows term ≡ argument_values old block rows term }
    ensures number { (answer : Answering) (old new : CatalogDef) (block : Bound) (mask : ℕ) (rows : List ℕ) (term : BoundTerm)
        → CatalogueGrows old new → IsBlock old block → HasRows old block mask rows
        → In term block.terms → is_inside term.entries mask ≡ true
        → scorer_answer answer new block rows term ≡ scorer_answer answer old block rows term }
    ensures worth { (answer : Answering) (old new : CatalogDef) (block : Bound) (mask : ℕ) (rows : List ℕ) (term : BoundTerm)
        → CatalogueGrows old new → IsBlock old block → HasRows old block mask rows
        → In term block.terms → is_inside term.entries mask ≡ true
        → worth_of answer new block rows term ≡ worth_of answer old block rows term }
    ensures outputs { (old new : CatalogDef) (block : Bound) (mask : ℕ) (rows : List ℕ)
        → CatalogueGrows old new → IsBlock old block → HasRows old block mask rows → is_inside (entries_mask block.items) mask ≡ true
        → outputs_of new block rows ≡ outputs_of old block rows }
{}

/// So under a view of before a query keeps its combinations, the rows that these give it, and its answer. The combinations of all
/// rows that the tables had are those of all rows that they have in which no row is new.
pub fn queries_keep_their_rows()
    ensures combinations { (old new : CatalogDef) (block : Bound) (sizes : List ℕ) (mask : ℕ)
        → CatalogueGrows old new → IsBlock old block → IsSizes old block sizes
        → combinations new block sizes mask ≡ combinations old block sizes mask }
    ensures fresh { (old new : CatalogDef) (block : Bound) → CatalogueGrows old new → IsBlock old block
        → filter (λ rows. not (has_new_row (sizes_of old block) rows)) (all_combinations new block) ≡ all_combinations old block }
    ensures rows { (answer : Answering) (old new : CatalogDef) (query : BoundQuery) (view : View)
        → CatalogueGrows old new → IsQuery old query → IsViewOf old query view
        → rows_of answer new query view ≡ rows_of answer old query view }
    ensures answers { (answer : Answering) (old new : CatalogDef) (query : BoundQuery) (view : View)
        → CatalogueGrows old new → IsQuery old query → IsViewOf old query view
        → answer_of answer new query view ≡ answer_of answer old query view }
{}
