//! What combinations are, which rows the parts of a block depend on, and what scores and their order are: laws that hold of
//! every catalogue and block. The functions compute nothing; each is called for its contract.

ghost use Rattle.std.specs.Prelude.{◌≡◌, ℕ, ◌≤◌, ◌*◌, ◌↔◌, List, length, map, true};
ghost use Rattle.std.specs.Cmp.Lexicographic.{slice_cmp};
ghost use Rattle.std.specs.List.{AllByRecursion};
ghost use Rattle.std.specs.Ordering.{nat_cmp};
ghost use Rattle.rs_order.specs.Climbing.{Climbs, In};
ghost use Rattle.rs_order.specs.Sorting.{sorted};
ghost use Rattle.rs_rank.specs.Keys.{ids_cmp, key_cmp};
ghost use Rattle.rs_rank.specs.Masks.{has_number};
ghost use Rattle.rs_rank.specs.Rows.{key_of};
ghost use Rattle.rs_rank.specs.Stable.{stable};
ghost use Rattle.rs_rank.specs.Weights.{evaluated};
ghost use Rattle.rs_rank.specs.declared.row.RankRow.{RankRow};
ghost use Rattle.rs_rank.specs.declared.scored_row.ScoredRow.{ScoredRow};
ghost use Rattle.rs_rank.specs.declared.weights.Weights.{Weights};
ghost use Rattle.rs_catalog.specs.Catalog.{CatalogDef};
ghost use Rattle.rs_expr.specs.Scoring.{Answering};
ghost use Rattle.rs_query.specs.Answers.{all_terms, scorer_answer, score_of, weights_of, worth_of, worths_of};
ghost use Rattle.rs_query.specs.Choices.{AgreeOn, IsChoice};
ghost use Rattle.rs_query.specs.Combinations.{combinations, satisfies};
ghost use Rattle.rs_query.specs.Conjuncts.{ConjunctDef};
ghost use Rattle.rs_query.specs.Meaning.{argument_values, column_value, conjunct_holds, is_inside, outputs_of};
ghost use Rattle.rs_query.specs.WellFormed.{AreSetSides, IsBlock, entries_mask};
ghost use Rattle.rs_query.specs.declared.block.Block.{Block as Bound};
ghost use Rattle.rs_query.specs.declared.term.Term.{Term as BoundTerm};

/// The combinations of the entries in a mask are the choices of a row for each of them for which all conjuncts hold that
/// speak of these entries alone.
pub fn combinations_are_choices_that_satisfy()
    ensures { (catalogue : CatalogDef) (block : Bound) (sizes : List ℕ) (mask : ℕ) (rows : List ℕ)
        → In rows (combinations catalogue block sizes mask)
        ↔ (IsChoice mask sizes rows × (satisfies catalogue block mask rows ≡ true)) }
{}

/// Combinations rise strictly in lexicographic order. With the law above this determines the list of them.
pub fn combinations_climb()
    ensures { (catalogue : CatalogDef) (block : Bound) (sizes : List ℕ) (mask : ℕ)
        → Climbs (slice_cmp nat_cmp) (λ rows. rows) (combinations catalogue block sizes mask) }
{}

/// Of two lists of row numbers that have the same at each entry in a mask, what speaks of these entries alone is the same:
/// whether a conjunct holds, the arguments of a term, and with them the number and the worth that a scorer gives it, and
/// the values of output columns.
pub fn parts_are_local()
    ensures conjunct { (catalogue : CatalogDef) (block : Bound) (mask : ℕ) (xs ys : List ℕ) (conjunct : ConjunctDef)
        → IsBlock catalogue block → AgreeOn mask xs ys → In conjunct block.conjuncts → is_inside conjunct.entries mask ≡ true
        → conjunct_holds catalogue block xs conjunct ≡ conjunct_holds catalogue block ys conjunct }
    ensures args { (catalogue : CatalogDef) (block : Bound) (mask : ℕ) (xs ys : List ℕ) (term : BoundTerm)
        → IsBlock catalogue block → AgreeOn mask xs ys → In term block.terms → is_inside term.entries mask ≡ true
        → argument_values catalogue block xs term ≡ argument_values catalogue block ys term }
    ensures number { (answer : Answering) (catalogue : CatalogDef) (block : Bound) (mask : ℕ) (xs ys : List ℕ) (term : BoundTerm)
        → IsBlock catalogue block → AgreeOn mask xs ys → In term block.terms → is_inside term.entries mask ≡ true
        → scorer_answer answer catalogue block xs term ≡ scorer_answer answer catalogue block ys term }
    ensures worth { (answer : Answering) (catalogue : CatalogDef) (block : Bound) (mask : ℕ) (xs ys : List ℕ) (term : BoundTerm)
        → IsBlock catalogue block → AgreeOn mask xs ys → In term block.terms → is_inside term.entries mask ≡ true
        → worth_of answer catalogue block xs term ≡ worth_of answer catalogue block ys term }
    ensures output { (catalogue : CatalogDef) (block : Bound) (mask : ℕ) (xs ys : List ℕ) (column : ℕ × ℕ)
        → IsBlock catalogue block → AgreeOn mask xs ys → In column block.items → has_number mask column.0 ≡ true
        → column_value catalogue block xs column ≡ column_value catalogue block ys column }
    ensures outputs { (catalogue : CatalogDef) (block : Bound) (mask : ℕ) (xs ys : List ℕ)
        → IsBlock catalogue block → AgreeOn mask xs ys → is_inside (entries_mask block.items) mask ≡ true
        → outputs_of catalogue block xs ≡ outputs_of catalogue block ys }
{}

/// The score of a combination is what all terms of its block give to it, of the worths of the terms. Both blocks of a set
/// query have the same weights.
pub fn scores_are_evaluated()
    ensures score { (answer : Answering) (catalogue : CatalogDef) (block : Bound) (rows : List ℕ) → length block.terms ≤ 8
        → evaluated (weights_of block) (all_terms block) (worths_of answer catalogue block rows)
        ≡ score_of answer catalogue block rows block.terms }
    ensures sides { (catalogue : CatalogDef) (left right : Bound) → AreSetSides catalogue left right
        → weights_of left ≡ weights_of right }
{}

/// The order of a rank index is that of keys, whatever the weight of the term. Let the sum of a row be a weight of at least 1
/// times the score of an entry, and let the entries stand by the ids of their rows. Then to rank the entries by score is to
/// order the rows by key.
pub fn rankings_are_ordered_by_key()
    ensures { (weights : Weights) (terms weight : ℕ) (row_for : ScoredRow → RankRow) (entries : List ScoredRow) → 1 ≤ weight
        → AllByRecursion (λ e. (row_for e).sum ≡ weight * e.score) entries
        → Climbs ids_cmp (λ e. (row_for e).ids) entries
        → map row_for (stable (λ e. e.score) entries) ≡ sorted key_cmp (key_of weights terms) (map row_for entries) }
{}
