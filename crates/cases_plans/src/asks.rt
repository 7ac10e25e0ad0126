//! What the asks of a plan give.

ghost use Rattle.std.specs.Prelude.{◌≡◌, IfOk, false, is_err};
ghost use Rattle.rs_expr.specs.MemScorer.{answered_score};
ghost use Rattle.rs_query.specs.Tops.{HasTops};
ghost use Rattle.rs_query.specs.WellFormed.{IsQuery};
ghost use Rattle.rs_exec.specs.Cursors.{CanGo};
ghost use Rattle.rs_catalog.specs.IndexesHold.{IndexesHold};

use crate::calls::tell_calls;
use cases_lines::Fault;
use rs_catalog::{Catalog, Snapshot};
use rs_exec::{Cursor, ExecFault};
use rs_expr::{Call, MemScorer};
use rs_plan::{Counts, Plan};
use rs_query::{Query, limit_of, worths_are_within_tops};
use rs_rank::Answer;
use std::alloc::{AllocError, Global};

/// Asks for the rows of a query by a plan, or tells that it is no plan of the query.
pub fn tell_rows(
    alloc: Global,
    catalog: &Catalog,
    query: Query,
    plan: &Plan,
    count: u32,
    scorer: &mut MemScorer,
) -> Result<String, Fault>
    requires formed { IsQuery catalog.now query }
    requires tops { HasTops catalog.now query }
    requires held { IndexesHold (answered_score scorer.old) catalog.now }
{
    if !plan.valid(catalog, &query) {
        drop(query);
        return Ok(format!(in alloc; "  invalid\n")?);
    }
    worths_are_within_tops();
    let seen = Snapshot::current(catalog);
    let mut cursor = Cursor::start(alloc, &seen, query, plan)?;
    let told = tell_cursor(alloc, &seen, &mut cursor, count, scorer);
    drop(cursor);
    told
}

/// Asks a new cursor this many times, and tells what each ask gave, and what the nodes of its plan count.
fn tell_cursor(
    alloc: Global,
    catalog: &Snapshot<'_>,
    cursor: &mut Cursor,
    count: u32,
    scorer: &mut MemScorer,
) -> Result<String, Fault>
    requires goes { CanGo catalog.now (answered_score scorer.old) cursor.old }
    requires sound { cursor.old.failed ≡ false }
{
    let mut told = String::new(alloc);
    if !tell_asks(catalog, cursor, count, scorer, &mut told)? {
        tell_counts(cursor, &mut told)?;
    }
    Ok(told)
}

/// Tells what each of this many asks gave. It answers whether the last one had a fault.
fn tell_asks(
    catalog: &Snapshot<'_>,
    cursor: &mut Cursor,
    count: u32,
    scorer: &mut MemScorer,
    told: &mut String,
) -> Result<bool, Fault>
    requires goes { CanGo catalog.now (answered_score scorer.old) cursor.old }
    requires sound { cursor.old.failed ≡ false }
    ensures { IfOk result (λ failed. cursor.new.failed ≡ failed) }
{
    let mut failed = false;
    for _ in 0..count {
        failed = tell_ask(catalog, cursor, scorer, told)?;
    }
    Ok(failed)
}

/// Tells what one ask gave, and the calls that it made. It answers whether it had a fault.
fn tell_ask(
    catalog: &Snapshot<'_>,
    cursor: &mut Cursor,
    scorer: &mut MemScorer,
    told: &mut String,
) -> Result<bool, Fault>
    requires { CanGo catalog.now (answered_score scorer.old) cursor.old }
    ensures goes { IfOk result (λ _. CanGo catalog.now (answered_score scorer.new) cursor.new) }
    ensures failed { IfOk result (λ failed. cursor.new.failed ≡ failed) }
{
    let before = scorer.calls().len();
    let given = ask(catalog, cursor, scorer);
    let failed = given.is_err();
    tell_given(&given, told)?;
    tell_calls(calls_behind(scorer.calls(), before), told)?;
    Ok(failed)
}

/// One ask. Behind it the cursor can be asked again.
fn ask(
    catalog: &Snapshot<'_>,
    cursor: &mut Cursor,
    scorer: &mut MemScorer,
) -> Result<Option<Answer>, ExecFault>
    requires { CanGo catalog.now (answered_score scorer.old) cursor.old }
    ensures goes { CanGo catalog.now (answered_score scorer.new) cursor.new }
    ensures failed { cursor.new.failed ≡ is_err result }
{
    cursor.next(catalog, scorer)
}

fn tell_given(given: &Result<Option<Answer>, ExecFault>, told: &mut String) -> Result<(), Fault> {
    match given {
        Ok(Some(answer)) => Ok(tell_answer(answer, told)?),
        Ok(None) => Ok(told.push_str("  none")?),
        Err(ExecFault::Memory) => Err(Fault::Memory),
        Err(fault) => Ok(write!(told, "  {fault:?}")?),
    }
}

/// The block, the mask and the rows of an answer, its score and its values.
fn tell_answer(answer: &Answer, told: &mut String) -> Result<(), AllocError> {
    let block = answer.ids.block;
    let mask = answer.ids.mask;
    let rows = answer.ids.rows;
    let score = answer.score;
    let values = answer.values.items();
    write!(told, "  {block} {mask} {rows:?} {score} {values:?}")
}

/// The calls behind this many first ones.
fn calls_behind(calls: &[Call], first: usize) -> &[Call] {
    if first < calls.len() {
        &calls[first..]
    } else {
        &[]
    }
}

/// Tells what each node of the plan counts, and the LIMIT of the query.
fn tell_counts(cursor: &Cursor, told: &mut String) -> Result<(), Fault>
    requires { cursor.now.failed ≡ false }
{
    let mut between = "  counts ";
    for node in 0..u8::MAX {
        let Some(counts) = cursor.counts(node) else {
            break;
        };
        told.push_str(between)?;
        tell_node(counts, told)?;
        between = ", ";
    }
    let limit = limit_of(cursor.query());
    Ok(writeln!(told, "; limit {limit:?}")?)
}

fn tell_node(counts: Counts, told: &mut String) -> Result<(), AllocError> {
    let Counts {
        asked,
        gave,
        calls,
        drawn,
    } = counts;
    write!(told, "{asked} {gave} {calls} {drawn}")
}
