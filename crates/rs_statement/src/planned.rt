//! Queries by their plans: rows are asked for one after another.

ghost use Rattle.std.specs.Prelude.{ℕ, ◌≡◌, ◌≤◌, ◌⊎◌, ◌^◌, Err, IfErr, IfOk, Ok, false, length, suc, true};
ghost use Rattle.rs_syntax.specs.Syntax.{query_of};
ghost use Rattle.rs_syntax.specs.Written.{IsWrittenQuery};
ghost use Rattle.rs_expr.specs.Scoring.{Answering};
ghost use Rattle.rs_catalog.specs.Catalog.{CatalogDef};
ghost use Rattle.rs_query.specs.Tops.{HasTops};
ghost use Rattle.rs_query.specs.WellFormed.{IsQuery};
ghost use Rattle.rs_bind.specs.Queries.{bound_query};
ghost use Rattle.rs_plan.specs.Counts.{gave_of};
ghost use Rattle.rs_exec.specs.Asking.{world_of};
ghost use Rattle.rs_exec.specs.Cursors.{IsOver, StandsFor, asks_after, asks_of, plan_of};
ghost use Rattle.rs_catalog.specs.IndexesHold.{IndexesHold};
ghost use Rattle.rs_statement.specs.Parts.Asks.{IsAt, NamesPredicate, StandsSomewhere, call_step, left_of, without_value};
ghost use Rattle.rs_statement.specs.Parts.Steps.{Stepped};
ghost use Rattle.rs_statement.specs.Planned.{ask_fault, plan_for};
ghost use Rattle.rs_statement.specs.Sampled.{sample_step};
ghost use Rattle.rs_events.specs.Environment.{Environment};
ghost use Rattle.rs_events.specs.Sequence.{then_step};
ghost use Rattle.rs_statement.specs.Statements.{or_bind_fault, query_step, refused_or};
ghost use Rattle.rs_statement.specs.declared.evaluating.Evaluating.TheVariants.{Planned};

use crate::fault::Fault;
use crate::planned_query::PlannedQuery;
use crate::put::put_row;
use crate::query::{bad_score, failed_call};
use crate::sampling::Sampling;
use rs_bind::bind;
use rs_catalog::{Catalog, Snapshot};
use rs_events::Host;
use rs_exec::{Cursor, ExecFault};
use rs_expr::Scorer;
use rs_lines::RowLines;
use rs_query::Query;
use rs_syntax::Select;
use std::alloc::Global;

/// Prints the rows of a query: takes its sample, asks its least plan for one row after another, and puts each before it asks for
/// the next one.
pub fn run_planned<W: Host>(
    alloc: Global,
    sampling: Sampling,
    select: &Select,
    catalog: &Catalog,
    host: &mut W,
) -> Result<(), Fault>
    requires written { IsWrittenQuery (query_of select.now) }
    requires held { IndexesHold (W.state host.old).scorer.answer catalog.now }
    ensures { Stepped
        (λ step. step ≡ refused_or (query_step (Planned sampling) (W.state host.old).scorer.answer catalog.now) (or_bind_fault (bound_query catalog.now (query_of select.now))))
        catalog.now result (W.state host.old) (W.state host.new) }
{
    let query = bind(alloc, catalog, select)?;
    let mut cursor = start_planned(alloc, sampling, catalog, query, host.scorer())?;
    let put = put_all(alloc, &Snapshot::current(catalog), &mut cursor, host);
    drop(cursor);
    put
}

/// A cursor over the least plan of a query, which its sample decides. No row is asked for yet.
pub fn start_planned<S: Scorer>(
    alloc: Global,
    sampling: Sampling,
    catalog: &Catalog,
    query: Query,
    scorer: &mut S,
) -> Result<Cursor, Fault>
    requires formed { IsQuery catalog.now query }
    requires tops { HasTops catalog.now query }
    requires held { IndexesHold (S.state scorer.old).answer catalog.now }
    ensures calls { (beside : Environment) → Stepped (λ step. step ≡ sample_step catalog.now sampling query) catalog.now (without_value result)
        (record beside { scorer = S.state scorer.old }) (record beside { scorer = S.state scorer.new }) }
    ensures starts { IfOk result (IsAt query (plan_for (S.state scorer.old).answer catalog.now sampling query) 0) }
    ensures stands { IfOk result (StandsFor catalog.now (S.state scorer.old).answer) }
{
    let planned = PlannedQuery::make(alloc, sampling, catalog, query, scorer)?;
    Ok(planned.start(alloc, catalog)?)
}

/// Puts the rows of a cursor that are left, each before the next one is asked for.
fn put_all<W: Host>(
    alloc: Global,
    catalog: &Snapshot<'_>,
    cursor: &mut Cursor,
    host: &mut W,
) -> Result<(), Fault>
    requires stands { StandsFor catalog.now (W.state host.old).scorer.answer cursor.old }
    ensures { Stepped (λ step. step ≡ left_of catalog.now (W.state host.old).scorer.answer cursor.old) catalog.now result (W.state host.old) (W.state host.new) }
{
    let mut lines = RowLines::new(alloc);
    while put_next(&mut lines, catalog, cursor, host)? {}
    Ok(())
}

/// Asks for the next row of a cursor and puts it. Answers whether there was one.
pub fn put_next<W: Host>(
    lines: &mut RowLines,
    catalog: &Snapshot<'_>,
    cursor: &mut Cursor,
    host: &mut W,
) -> Result<bool, Fault>
    requires stands { StandsFor catalog.now (W.state host.old).scorer.answer cursor.old }
    ensures puts { Stepped (λ step. step ≡ call_step catalog.now (W.state host.old).scorer.answer cursor.old) catalog.now (without_value result)
        (W.state host.old) (W.state host.new) }
    ensures more { result ≡ Ok true → IsAt cursor.old.query (plan_of cursor.old) (suc (asks_of cursor.old)) cursor.new }
    ensures count { IfOk result (λ _. IsAt cursor.old.query (plan_of cursor.old)
        (asks_after (world_of catalog.now (W.state host.old).scorer.answer cursor.old.query) (plan_of cursor.old) (asks_of cursor.old)) cursor.new) }
    ensures over { result ≡ Ok false → IsOver catalog.now (W.state host.old).scorer.answer cursor.new }
    ensures stands { IfOk result (λ _. StandsFor catalog.now (W.state host.old).scorer.answer cursor.new) }
    ensures left { result ≡ Ok true → left_of catalog.now (W.state host.old).scorer.answer cursor.old
        ≡ then_step (call_step catalog.now (W.state host.old).scorer.answer cursor.old) (left_of catalog.now (W.state host.old).scorer.answer cursor.new) }
    ensures rank { result ≡ Ok true → suc (asks_of cursor.old) ≤ 2 ^ 103 }
    ensures end { result ≡ Ok false → left_of catalog.now (W.state host.old).scorer.answer cursor.old ≡ call_step catalog.now (W.state host.old).scorer.answer cursor.old }
{
    match cursor.next(catalog, host.scorer()) {
        Ok(Some(row)) => {
            put_row(lines, rank_of(cursor), &row, host.out())?;
            Ok(true)
        }
        Ok(None) => Ok(false),
        Err(why) => Err(ask_fault(catalog, why)),
    }
}

/// The rank of the row that a cursor gave last: how many it gave.
fn rank_of(cursor: &Cursor) -> u128
    requires { StandsSomewhere cursor.now }
    ensures rank { (catalogue : CatalogDef) (answer : Answering) → StandsFor catalogue answer cursor.now
        → result ≡ gave_of (world_of catalogue answer cursor.now.query) 1 (plan_of cursor.now) (asks_of cursor.now) }
    ensures limit { result ≤ 2 ^ 103 }
{
    match cursor.counts(0) {
        Some(counts) => counts.gave,
        None => unreachable!(),
    }
}

/// The fault of a cursor that gave no row, with the name of the predicate.
pub fn ask_fault(catalog: &Snapshot<'_>, why: ExecFault) -> Fault
    requires { NamesPredicate catalog.now why }
    ensures { (result ≡ ask_fault catalog.now why) ⊎ (result ≡ Fault.Memory) }
{
    match why {
        ExecFault::BadScore {
            predicate,
            ids,
            got,
            max,
        } => bad_score(catalog.predicate(predicate), ids.rows, got, max),
        ExecFault::Probe { predicate } => failed_call(catalog.predicate(predicate)),
        ExecFault::Memory => Fault::Memory,
        ExecFault::Broken => Fault::Memory,
    }
}
