//! What the calls of a plan tell of its rows: laws that hold of every catalogue and query, and of every two scorers. The functions
//! compute nothing; each is called for its contract.

ghost use Rattle.std.specs.Prelude.{◌≡◌, ℕ, suc, take};
ghost use Rattle.rs_expr.specs.Scoring.{Answering};
ghost use Rattle.rs_catalog.specs.Catalog.{CatalogDef};
ghost use Rattle.rs_query.specs.declared.query.Query.{Query};
ghost use Rattle.rs_plan.specs.Calls.{calls_of_plan, questions};
ghost use Rattle.rs_plan.specs.Trees.{Rank, PlanTree};
ghost use Rattle.rs_ripple.specs.Stands.{BeginsWith};
ghost use Rattle.rs_exec.specs.Asking.{world_of};
ghost use Rattle.rs_exec.specs.Certifying.{AnswerAlike, AnswersFit, AsksNo, IsGreaterBy};
ghost use Rattle.rs_exec.specs.Cursors.{answers_of, next_answer};

/// The calls of a plan certify its rows: where two scorers answer the questions of its first asks alike, its first rows are the same
/// for both, with their scores. So are the calls of these asks, and what each of them comes to. No answer that wasn't asked for can
/// change them.
pub fn calls_certify_rows()
    ensures rows { (catalogue : CatalogDef) (query : Query) (tree : PlanTree) (answer other : Answering) (n : ℕ)
        → AnswersFit catalogue query tree answer → AnswersFit catalogue query tree other
        → AnswerAlike catalogue answer other (questions (world_of catalogue answer query) 1 tree n)
        → take n (answers_of (world_of catalogue answer query) tree) ≡ take n (answers_of (world_of catalogue other query) tree) }
    ensures calls { (catalogue : CatalogDef) (query : Query) (tree : PlanTree) (answer other : Answering) (n : ℕ)
        → AnswersFit catalogue query tree answer → AnswersFit catalogue query tree other
        → AnswerAlike catalogue answer other (questions (world_of catalogue answer query) 1 tree n)
        → calls_of_plan (world_of catalogue answer query) tree n ≡ calls_of_plan (world_of catalogue other query) tree n }
    ensures asks { (catalogue : CatalogDef) (query : Query) (tree : PlanTree) (answer other : Answering) (n : ℕ)
        → AnswersFit catalogue query tree answer → AnswersFit catalogue query tree other
        → AnswerAlike catalogue answer other (questions (world_of catalogue answer query) 1 tree (suc n))
        → next_answer (world_of catalogue answer query) tree n ≡ next_answer (world_of catalogue other query) tree n }
{}

/// Greater answers take no more calls, where the topmost operator of a plan alone asks for them. Two scorers answer alike but for one
/// predicate, by which no term is worth less with the second one, and no rank operator below the topmost one evaluates a term of
/// it. Then the calls of the first asks with the second scorer are the first of those with the first scorer. It isn't so where a rank
/// operator stands above: it asks for rows that a greater answer brings forward.
pub fn greater_answers_call_no_more()
    ensures { (catalogue : CatalogDef) (query : Query) (predicate term : ℕ) (child : PlanTree) (lesser greater : Answering) (n : ℕ)
        → AsksNo query predicate child → IsGreaterBy catalogue predicate lesser greater
        → AnswersFit catalogue query (Rank term child) lesser → AnswersFit catalogue query (Rank term child) greater
        → BeginsWith (calls_of_plan (world_of catalogue lesser query) (Rank term child) n) (calls_of_plan (world_of catalogue greater query) (Rank term child) n) }
{}
