//! What the definitions say: laws that hold of all words and files. The functions compute nothing; they are called for
//! their contracts.

ghost use Rattle.std.specs.Prelude.{◌≡◌, ◌+◌, ℕ, List, Option, None, Some, Ok, length};
ghost use Rattle.rs_value.specs.declared.value.Value.{Value};
ghost use Rattle.rs_outside.specs.Files.{Contents, finds_in, found_in};
ghost use Rattle.rs_rank.specs.declared.scored_row.ScoredRow.{ScoredRow};
ghost use Rattle.rs_expr.specs.Predicates.{PredicateDef};
ghost use Rattle.rs_expr.specs.Scoring.{Answering};
ghost use Rattle.rs_table.specs.Relation.{Relation};
ghost use Rattle.rs_syntax.specs.Syntax.{Command};
ghost use Rattle.rs_syntax.specs.Written.{AreWritten};
ghost use Rattle.rs_catalog.specs.Catalog.{CatalogDef, RankIndex, empty, with_index, with_predicate, with_table};
ghost use Rattle.rs_catalog.specs.Growing.{grown, growing};
ghost use Rattle.rs_catalog.specs.IndexesHold.{IndexesHold};
ghost use Rattle.rs_catalog.specs.Snapshot.{sizes_in};
ghost use Rattle.rs_catalog.specs.declared.index.IndexDef.{IndexDef};
ghost use Rattle.rs_query.specs.declared.query.Query.{Query};
ghost use Rattle.rs_plan.specs.Trees.{PlanTree};
ghost use Rattle.rs_exec.specs.Asking.{world_of};
ghost use Rattle.rs_exec.specs.Covering.{Covers};
ghost use Rattle.rs_statement.specs.declared.evaluating.Evaluating.{Evaluating};
ghost use Rattle.rs_statement.specs.declared.evaluating.Evaluating.TheVariants.{Plainly, Planned};
ghost use Rattle.rs_statement.specs.declared.sampling.Sampling.{Sampling};
ghost use Rattle.rs_statement.specs.Planned.{asks_from, next_asks};
ghost use Rattle.rs_statement.specs.Session.{ByPlan, DoesInSession, IsCursorOf, OpenCursor, State, StatementsRun, fetched_from, fetched_step, nothing};
ghost use Rattle.rs_statement.specs.Steps.{Run};
ghost use Rattle.rs_events.specs.Events.{puts};
ghost use Rattle.rs_run.specs.Faults.{WordsRun};
ghost use Rattle.rs_run.specs.Later.{Leads, LeadsTo};
ghost use Rattle.rs_run.specs.Numbered.{DoesNext, Numbered, first_statement};
ghost use Rattle.rs_run.specs.Rest.{SplitsAtStatements};
ghost use Rattle.rs_run.specs.Running.{HasNoExplain, IsRun, IsRunOf};
ghost use Rattle.rs_run.specs.Threshold.{DoesByScan, ScansRun};
ghost use Rattle.rs_run.specs.Viewing.{DoesByViews, ViewState, ViewsRun, first_view_statement};
ghost use Rattle.rs_run.specs.Words.{RunScript};

use rs_enum::there_is_one_least_plan;
use rs_exec::{plans_ask_the_same_in_larger_catalogues, plans_give_the_answer};

/// Words have one run at most over the same files and the same answers of a scorer, where the files stay as they are.
pub fn one_run()
    ensures { (there : List ℕ → Option (List ℕ)) (answer : Answering) (words : List (List ℕ)) (run other : WordsRun)
        → IsRun (found_in there) answer words run → IsRun (found_in there) answer words other → run ≡ other }
{}

/// All words have a run, whatever is known of the files and the scorer answers: each script is lexed or refused, its tokens parse or are
/// refused, and each statement does something.
pub fn words_have_a_run()
    ensures { (contents : Contents) (answer : Answering) (words : List (List ℕ)) → (run : WordsRun) × IsRun (finds_in contents) answer words run }
{}

/// A script without EXPLAIN that ends without a fault under `plain` and under `run`, whatever the seed, puts the same rows in the same
/// order under both, over the same files and the same answers of a scorer: those of its queries, and those of its cursors, among CREATE
/// statements, INSERTs and queries as they may stand. So it does where plans are chosen by guesses.
pub fn plain_and_run_agree()
    ensures { (there : List ℕ → Option (List ℕ)) (answer : Answering) (name : List ℕ) (sampling : Sampling) (run other : Run)
        → HasNoExplain (found_in there) name
        → IsRunOf (found_in there) answer (RunScript name Plainly) run → IsRunOf (found_in there) answer (RunScript name (Planned sampling)) other
        → run.fault ≡ None → other.fault ≡ None → puts run.events ≡ puts other.events }
{
    plans_give_the_answer();
    plans_ask_the_same_in_larger_catalogues();
    there_is_one_least_plan();
}

/// The rows of a cursor depend on the catalogue of its DECLARE and on its own query alone. What joins the catalogue later, a table, a
/// predicate, an index or rows, changes no event of a FETCH, nor does any number of statements that end without a fault. So behind all of
/// them a FETCH makes the asks of its plan over the catalogue as it was at the DECLARE.
pub fn cursors_keep_their_rows()
    ensures tables { (answer : Answering) (state : State) (cursor : OpenCursor) (wanted : ℕ) (name : List ℕ) (table : Relation) → IsCursorOf state.catalogue cursor
        → (fetched_step answer (record state { catalogue = with_table name table state.catalogue }) (cursor, wanted)).events
        ≡ (fetched_step answer state (cursor, wanted)).events }
    ensures predicates { (answer : Answering) (state : State) (cursor : OpenCursor) (wanted : ℕ) (predicate : PredicateDef) → IsCursorOf state.catalogue cursor
        → (fetched_step answer (record state { catalogue = with_predicate predicate state.catalogue }) (cursor, wanted)).events
        ≡ (fetched_step answer state (cursor, wanted)).events }
    ensures indexes { (answer : Answering) (state : State) (cursor : OpenCursor) (wanted : ℕ) (def : IndexDef) (ranking : List ScoredRow) → IsCursorOf state.catalogue cursor
        → (fetched_step answer (record state { catalogue = with_index def ranking state.catalogue }) (cursor, wanted)).events
        ≡ (fetched_step answer state (cursor, wanted)).events }
    ensures rows { (answer : Answering) (state : State) (cursor : OpenCursor) (wanted table : ℕ) (rows : List (List Value)) (indexes : List RankIndex)
        → IsCursorOf state.catalogue cursor → IndexesHold answer state.catalogue → (growing answer state.catalogue table rows).outcome ≡ Ok indexes
        → (fetched_step answer (record state { catalogue = grown table rows indexes state.catalogue }) (cursor, wanted)).events
        ≡ (fetched_step answer state (cursor, wanted)).events }
    ensures statements { (contents : Contents) (answer : Answering) (evaluating : Evaluating) (state later : State) (commands : List Command) (cursor : OpenCursor) (wanted : ℕ)
        → AreWritten commands → IndexesHold answer state.catalogue → IsCursorOf state.catalogue cursor → LeadsTo (finds_in contents) answer evaluating state commands later
        → (fetched_step answer later (cursor, wanted)).events ≡ (fetched_step answer state (cursor, wanted)).events }
    ensures declared { (contents : Contents) (answer : Answering) (evaluating : Evaluating) (state later : State) (commands : List Command) (query : Query) (tree : PlanTree)
        (name : List ℕ) (asked wanted : ℕ)
        → Covers state.catalogue query → AreWritten commands → IndexesHold answer state.catalogue → LeadsTo (finds_in contents) answer evaluating state commands later
        → (fetched_from answer later name asked wanted (ByPlan query tree (sizes_in state.catalogue))).events
        ≡ (asks_from (world_of state.catalogue answer query) tree asked (next_asks (world_of state.catalogue answer query) tree asked wanted)).events }
{
    plans_ask_the_same_in_larger_catalogues();
}

/// A run may begin at any statement of its script. From the catalogue, and the cursors or views, that the statements in front of it left,
/// the statement and those behind it do what is left of the whole run; so the events of the former, and then those of the latter, are the
/// events of all, with the ending of the latter. Each whole run is made so, or a fault of the statements in front ends it. Numbers count on.
pub fn a_run_from_a_statement_is_the_rest()
    ensures run { (answer : Answering) (evaluating : Evaluating)
        → SplitsAtStatements (λ finds. DoesInSession finds answer evaluating) nothing (λ finds. StatementsRun finds answer evaluating) }
    ensures ta { (answer : Answering)
        → SplitsAtStatements (λ finds. DoesNext (DoesByScan finds answer)) (first_statement empty) (λ finds. ScansRun finds answer) }
    ensures view { (answer : Answering)
        → SplitsAtStatements (λ finds. DoesNext (DoesByViews finds answer)) first_view_statement (λ finds. ViewsRun finds answer) }
    ensures ta_number { (contents : Contents) (answer : Answering) (front : List Command) (later : Numbered CatalogDef)
        → Leads (DoesNext (DoesByScan (finds_in contents) answer)) (first_statement empty) front later → later.number ≡ length front + 1 }
    ensures view_number { (contents : Contents) (answer : Answering) (front : List Command) (later : ViewState)
        → Leads (DoesNext (DoesByViews (finds_in contents) answer)) first_view_statement front later → later.number ≡ length front + 1 }
{}
