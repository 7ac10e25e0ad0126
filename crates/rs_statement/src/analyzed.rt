//! EXPLAIN ANALYZE: the text of the plan of a query, with what each node has done once the query was asked.

ghost use Rattle.std.specs.Prelude.{◌≡◌, IfOk, Some};
ghost use Rattle.rs_syntax.specs.Syntax.{query_of};
ghost use Rattle.rs_syntax.specs.Written.{IsWrittenQuery};
ghost use Rattle.rs_expr.specs.Scoring.{Answering};
ghost use Rattle.rs_catalog.specs.Catalog.{CatalogDef};
ghost use Rattle.rs_query.specs.Tops.{HasTops};
ghost use Rattle.rs_bind.specs.Queries.{bound_query};
ghost use Rattle.rs_plan.specs.Counts.{counts_of_plan};
ghost use Rattle.rs_plan.specs.Shapes.{tree_of};
ghost use Rattle.rs_sample.specs.Kept.{cards_of};
ghost use Rattle.rs_enum.specs.Texts.{text_of};
ghost use Rattle.rs_exec.specs.Asking.{world_of};
ghost use Rattle.rs_exec.specs.Cursors.{StandsFor, asks_of, plan_of};
ghost use Rattle.rs_catalog.specs.IndexesHold.{IndexesHold};
ghost use Rattle.rs_statement.specs.Parts.Asks.{AskedForAll, AskedOnce, StandsSomewhere, call_step, left_of, most_asks, without_value};
ghost use Rattle.rs_statement.specs.Parts.PlannedQuery.{IsPlanned};
ghost use Rattle.rs_statement.specs.Parts.Steps.{Stepped};
ghost use Rattle.rs_statement.specs.Planned.{asks_in_all, planned_step};
ghost use Rattle.rs_events.specs.Sequence.{silent};
ghost use Rattle.rs_statement.specs.Statements.{analyzed_step, or_bind_fault, refused_or};
ghost use Rattle.rs_events.specs.Environment.{Environment};

use crate::fault::Fault;
use crate::planned::ask_fault;
use crate::planned_query::PlannedQuery;
use crate::sampling::Sampling;
use rs_bind::bind;
use rs_catalog::{Catalog, Snapshot};
use rs_enum::explain;
use rs_events::{Host, put_text};
use rs_exec::Cursor;
use rs_expr::Scorer;
use rs_plan::Counts;
use rs_query::worths_are_within_tops;
use rs_syntax::Select;
use rs_value::Memory;
use std::alloc::Global;

/// Asks the least plan of a query for all rows that the query wants, puts none of them, and then puts the text of the plan with
/// what each node has done.
pub fn analyze_planned<W: Host>(
    alloc: Global,
    sampling: Sampling,
    select: &Select,
    catalog: &Catalog,
    host: &mut W,
) -> Result<(), Fault>
    requires written { IsWrittenQuery (query_of select.now) }
    requires held { IndexesHold (W.state host.old).scorer.answer catalog.now }
    ensures { Stepped
        (λ step. step ≡ refused_or (analyzed_step (W.state host.old).scorer.answer catalog.now sampling) (or_bind_fault (bound_query catalog.now (query_of select.now))))
        catalog.now result (W.state host.old) (W.state host.new) }
{
    let query = bind(alloc, catalog, select)?;
    let planned = PlannedQuery::make(alloc, sampling, catalog, query, host.scorer())?;
    let text = asked_text(alloc, catalog, planned, host.scorer())?;
    put_text(&text, host.out())
}

/// Asks a plan for all rows that its query wants. Answers the text of the plan, with what each node has done.
fn asked_text<S: Scorer>(
    alloc: Global,
    catalog: &Catalog,
    planned: PlannedQuery,
    scorer: &mut S,
) -> Result<Vec<u8>, Fault>
    requires whole { IsPlanned catalog.now planned }
    requires tops { HasTops catalog.now planned.query }
    requires held { IndexesHold (S.state scorer.old).answer catalog.now }
    ensures asks { (beside : Environment) → Stepped (λ step. step ≡ silent (planned_step (world_of catalog.now (S.state scorer.old).answer planned.query) (tree_of planned.plan)))
        catalog.now (without_value result) (record beside { scorer = S.state scorer.old }) (record beside { scorer = S.state scorer.new }) }
    ensures text { IfOk result (λ text. text.items ≡ text_of catalog.now planned.query (cards_of planned.cards) (tree_of planned.plan)
        (Some (counts_of_plan (world_of catalog.now (S.state scorer.old).answer planned.query) (tree_of planned.plan)
        (asks_in_all (world_of catalog.now (S.state scorer.old).answer planned.query) (tree_of planned.plan))))) }
{
    worths_are_within_tops();
    let current = Snapshot::current(catalog);
    // What is owned is let go of by name at each end: else it takes long to prove.
    let PlannedQuery { query, cards, plan } = planned;
    let mut cursor = match Cursor::start(alloc, &current, query, &plan) {
        Ok(cursor) => cursor,
        Err(Memory) => {
            drop(plan);
            drop(cards);
            return Err(Fault::Memory);
        }
    };
    let counts = match asked_counts(alloc, &current, &mut cursor, scorer) {
        Ok(counts) => counts,
        Err(fault) => {
            drop(cursor);
            drop(plan);
            drop(cards);
            return Err(fault);
        }
    };
    let told = explain(alloc, catalog, cursor.query(), &cards, &plan, Some(&counts));
    drop(counts);
    drop(cursor);
    drop(plan);
    drop(cards);
    Ok(told?)
}

/// Asks for the rows of a cursor that are left. Answers what each node of its plan has done by then.
fn asked_counts<S: Scorer>(
    alloc: Global,
    catalog: &Snapshot<'_>,
    cursor: &mut Cursor,
    scorer: &mut S,
) -> Result<Vec<Counts>, Fault>
    requires { StandsFor catalog.now (S.state scorer.old).answer cursor.old }
    ensures asks { (beside : Environment) → Stepped (λ step. step ≡ silent (left_of catalog.now (S.state scorer.old).answer cursor.old)) catalog.now (without_value result)
        (record beside { scorer = S.state scorer.old }) (record beside { scorer = S.state scorer.new }) }
    ensures counts { IfOk result (λ counts. counts.items ≡ counts_of_plan (world_of catalog.now (S.state scorer.old).answer cursor.old.query) (plan_of cursor.old)
        (most_asks catalog.now (S.state scorer.old).answer cursor.old)) }
    ensures query { IfOk result (λ _. cursor.new.query ≡ cursor.old.query) }
{
    ask_all(catalog, cursor, scorer)?;
    Ok(all_counts(alloc, cursor)?)
}

/// Asks for the rows of a cursor that are left, and drops them.
fn ask_all<S: Scorer>(
    catalog: &Snapshot<'_>,
    cursor: &mut Cursor,
    scorer: &mut S,
) -> Result<(), Fault>
    requires { StandsFor catalog.now (S.state scorer.old).answer cursor.old }
    ensures asks { (beside : Environment) → Stepped (λ step. step ≡ silent (left_of catalog.now (S.state scorer.old).answer cursor.old)) catalog.now result
        (record beside { scorer = S.state scorer.old }) (record beside { scorer = S.state scorer.new }) }
    ensures all { IfOk result (λ _. AskedForAll catalog.now (S.state scorer.old).answer cursor.old cursor.new) }
    ensures stands { IfOk result (λ _. StandsFor catalog.now (S.state scorer.old).answer cursor.new) }
{
    while ask_next(catalog, cursor, scorer)? {}
    Ok(())
}

/// Asks for the next row of a cursor, and drops it. Answers whether there was one.
fn ask_next<S: Scorer>(
    catalog: &Snapshot<'_>,
    cursor: &mut Cursor,
    scorer: &mut S,
) -> Result<bool, Fault>
    requires { StandsFor catalog.now (S.state scorer.old).answer cursor.old }
    ensures asks { (beside : Environment) → Stepped (λ step. step ≡ silent (call_step catalog.now (S.state scorer.old).answer cursor.old)) catalog.now (without_value result)
        (record beside { scorer = S.state scorer.old }) (record beside { scorer = S.state scorer.new }) }
    ensures next { IfOk result (λ more. AskedOnce catalog.now (S.state scorer.old).answer cursor.old more cursor.new) }
{
    match cursor.next(catalog, scorer) {
        Ok(row) => Ok(row.is_some()),
        Err(why) => Err(ask_fault(catalog, why)),
    }
}

/// What each node of the plan of a cursor has done, a node before its children and the left one before the right one.
fn all_counts(alloc: Global, cursor: &Cursor) -> Result<Vec<Counts>, Memory>
    requires { StandsSomewhere cursor.now }
    ensures { (catalogue : CatalogDef) (answer : Answering) → StandsFor catalogue answer cursor.now
        → IfOk result (λ told. told.items ≡ counts_of_plan (world_of catalogue answer cursor.now.query) (plan_of cursor.now) (asks_of cursor.now)) }
{
    let mut told = Vec::new(alloc);
    let mut node = 0;
    while let Some(counts) = cursor.counts(node) {
        told.push(counts)?;
        node += 1;
    }
    Ok(told)
}
