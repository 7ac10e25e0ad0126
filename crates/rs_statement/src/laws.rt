//! What queries put: laws that hold of all scripts. The functions compute nothing; they are called for their contracts.

ghost use Rattle.std.specs.Prelude.{[], ◌≡◌, ◌++◌, ℕ, List, Ok};
ghost use Rattle.rs_bind.specs.Queries.{bound_query};
ghost use Rattle.rs_catalog.specs.Catalog.{CatalogDef};
ghost use Rattle.rs_catalog.specs.Snapshot.{snapshot};
ghost use Rattle.rs_events.specs.Events.{Event, puts};
ghost use Rattle.rs_expr.specs.Scoring.{Answering};
ghost use Rattle.rs_query.specs.Answers.{answer_of};
ghost use Rattle.rs_query.specs.Views.{all_rows};
ghost use Rattle.rs_query.specs.declared.query.Query.{Query};
ghost use Rattle.rs_statement.specs.declared.evaluating.Evaluating.{Evaluating};
ghost use Rattle.rs_statement.specs.declared.evaluating.Evaluating.TheVariants.{Planned};
ghost use Rattle.rs_statement.specs.declared.sampling.Sampling.{Sampling};
ghost use Rattle.rs_statement.specs.declared.sampling.Sampling.TheVariants.{ByGuesses, ByScores};
ghost use Rattle.rs_statement.specs.Lines.{ComeFirst, rank_lines};
ghost use Rattle.rs_statement.specs.Planned.{plan_for};
ghost use Rattle.rs_statement.specs.Sampled.{formulas, sample_step};
ghost use Rattle.rs_statement.specs.Session.{ByPlan, State, fetched_from, next_lines};
ghost use Rattle.rs_statement.specs.Statements.{query_step};
ghost use Rattle.rs_syntax.specs.Syntax as syntax;
ghost use Rattle.rs_syntax.specs.Written.{IsWrittenQuery};

use rs_exec::plans_give_the_answer;

/// What a query puts by its plan comes first among the lines of its answer, and what a FETCH puts comes first among the lines of the next
/// rows of its cursor's query, over the rows that the cursor sees. This holds of each first part of the events, so also where a fault of
/// the definition ends them, or a call or a put that fails. How many they are where no fault comes is said by
/// `queries_put_all_lines_of_their_answers`.
pub fn queries_put_the_first_lines_of_their_answers()
    ensures queries { (answer : Answering) (sampling : Sampling) (catalogue : CatalogDef) (query : syntax.Query) (bound : Query) (done rest : List Event)
        → IsWrittenQuery query → bound_query catalogue query ≡ Ok bound
        → (query_step (Planned sampling) answer catalogue bound).events ≡ done ++ rest
        → ComeFirst (puts done) (rank_lines 1 (answer_of answer catalogue bound (all_rows catalogue bound))) }
    ensures fetches { (answer : Answering) (sampling : Sampling) (state : State) (sizes : List ℕ) (query : syntax.Query) (bound : Query) (name : List ℕ) (asked wanted : ℕ) (done rest : List Event)
        → IsWrittenQuery query → bound_query (snapshot sizes state.catalogue) query ≡ Ok bound
        → (fetched_from answer state name asked wanted (ByPlan bound (plan_for answer (snapshot sizes state.catalogue) sampling bound) sizes)).events ≡ done ++ rest
        → ComeFirst (puts done) (next_lines (answer_of answer (snapshot sizes state.catalogue) bound (all_rows (snapshot sizes state.catalogue) bound)) asked wanted) }
{
    plans_give_the_answer();
}

/// A query that comes to no fault puts all lines of its answer, plainly as by its plan: those of the first rows up to LIMIT, or of all
/// rows where there are fewer. A FETCH that comes to no fault puts the lines of as many of the next rows of its cursor's query as it
/// wants, or of all that are left up to LIMIT.
pub fn queries_put_all_lines_of_their_answers()
    ensures queries { (answer : Answering) (evaluating : Evaluating) (catalogue next : CatalogDef) (query : syntax.Query) (bound : Query)
        → IsWrittenQuery query → bound_query catalogue query ≡ Ok bound
        → (query_step evaluating answer catalogue bound).outcome ≡ Ok next
        → puts (query_step evaluating answer catalogue bound).events ≡ rank_lines 1 (answer_of answer catalogue bound (all_rows catalogue bound)) }
    ensures fetches { (answer : Answering) (sampling : Sampling) (state after : State) (sizes : List ℕ) (query : syntax.Query) (bound : Query) (name : List ℕ) (asked wanted : ℕ)
        → IsWrittenQuery query → bound_query (snapshot sizes state.catalogue) query ≡ Ok bound
        → (fetched_from answer state name asked wanted (ByPlan bound (plan_for answer (snapshot sizes state.catalogue) sampling bound) sizes)).outcome ≡ Ok after
        → puts (fetched_from answer state name asked wanted (ByPlan bound (plan_for answer (snapshot sizes state.catalogue) sampling bound) sizes)).events
        ≡ next_lines (answer_of answer (snapshot sizes state.catalogue) bound (all_rows (snapshot sizes state.catalogue) bound)) asked wanted }
{
    plans_give_the_answer();
}

/// A sample by guesses calls nobody, and the plan that is chosen by it depends on no scorer. Where a scorer answers as the formulas
/// do, it is the plan that a sample by scores chooses.
pub fn guesses_call_nobody()
    ensures calls { (catalogue : CatalogDef) (seed : ℕ) (query : Query) → (sample_step catalogue (ByGuesses seed) query).events ≡ [] }
    ensures plans { (answer other : Answering) (catalogue : CatalogDef) (seed : ℕ) (query : Query)
        → plan_for answer catalogue (ByGuesses seed) query ≡ plan_for other catalogue (ByGuesses seed) query }
    ensures same { (answer : Answering) (catalogue : CatalogDef) (seed : ℕ) (query : Query)
        → plan_for answer catalogue (ByGuesses seed) query ≡ plan_for formulas catalogue (ByScores seed) query }
{}
