//! What a rank index is: laws of the definition. The function computes nothing; it is called for its contract.

ghost use Rattle.std.specs.Prelude.{◌≡◌, ℕ, ℤ, pos, List, length, map, take, Ok, Err};
ghost use Rattle.std.specs.List.{AllByRecursion};
ghost use Rattle.rs_value.specs.declared.value.Value.{Value};
ghost use Rattle.rs_expr.specs.Predicates.{PredicateDef};
ghost use Rattle.rs_expr.specs.InOrder.{calls_of};
ghost use Rattle.rs_expr.specs.Scoring.{Answering, call_of};
ghost use Rattle.rs_rank.specs.declared.scored_row.ScoredRow.{ScoredRow};
ghost use Rattle.rs_catalog.specs.Indexes.{IsFirstBad, IsRanking, args_in, making_of, row_at};
ghost use Rattle.rs_catalog.specs.declared.index.BoundArg.{BoundArg};
ghost use Rattle.rs_catalog.specs.declared.index.IndexFault.{IndexFault};

/// An index that is made has each row once, by score and then by row, with the score that was answered for it, and each row
/// was asked for once, in the order of the rows. An index that isn't made has a first row whose number is no score, and that
/// row and those before it were asked for.
pub fn rankings_are_in_order()
    ensures ranking { (answer : Answering) (predicate : PredicateDef) (args : List BoundArg) (rows : List (List Value)) (ranking : List ScoredRow)
        → (making_of answer predicate args rows).outcome ≡ Ok ranking
        → IsRanking (length rows) predicate.max ranking }
    ensures scores { (answer : Answering) (predicate : PredicateDef) (args : List BoundArg) (rows : List (List Value)) (ranking : List ScoredRow)
        → (making_of answer predicate args rows).outcome ≡ Ok ranking
        → AllByRecursion (λ entry. pos entry.score ≡ answer predicate (args_in args (row_at rows entry.row))) ranking }
    ensures calls { (answer : Answering) (predicate : PredicateDef) (args : List BoundArg) (rows : List (List Value)) (ranking : List ScoredRow)
        → (making_of answer predicate args rows).outcome ≡ Ok ranking
        → calls_of (making_of answer predicate args rows).requests ≡ map (λ row. call_of predicate (args_in args row)) rows }
    ensures bad { (answer : Answering) (predicate : PredicateDef) (args : List BoundArg) (rows : List (List Value)) (fault : IndexFault)
        → (making_of answer predicate args rows).outcome ≡ Err fault
        → IsFirstBad (λ row. answer predicate (args_in args row)) predicate.max rows fault }
    ensures bad_calls { (answer : Answering) (predicate : PredicateDef) (args : List BoundArg) (rows : List (List Value)) (row : ℕ) (got : ℤ) (max : ℕ)
        → (making_of answer predicate args rows).outcome ≡ Err (IndexFault.BadScore row got max)
        → calls_of (making_of answer predicate args rows).requests ≡ map (λ row. call_of predicate (args_in args row)) (take row rows) }
{}
