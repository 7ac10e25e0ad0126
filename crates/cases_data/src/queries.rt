//! What bound queries give.

ghost use Rattle.rs_query.specs.WellFormed.{IsBlock, IsQuery};

use cases_lines::{Fault, print_call};
use rs_catalog::{Catalog, Snapshot};
use rs_expr::{Call, MemScorer};
use rs_plain::{PlainFault, answer_plainly};
use rs_query::{Block, Query};
use rs_rank::Answer;
use rs_value::Memory;
use std::alloc::{AllocError, Global};

/// The combinations of rows of a query of one block that have a row behind the first so many of its table.
pub fn tell_combinations(
    alloc: Global,
    catalog: &Snapshot<'_>,
    query: &Query,
    old: u32,
) -> Result<String, Fault>
    requires { IsQuery catalog.now query.now }
{
    match query {
        Query::One(block, _) => tell_rows(alloc, &combinations(alloc, catalog, block, old)?),
        Query::Set(_, _, _, _) => Err(Fault::Form),
    }
}

fn combinations(
    alloc: Global,
    catalog: &Snapshot<'_>,
    block: &Block,
    old: u32,
) -> Result<Vec<[u32; 6]>, Memory>
    requires { IsBlock catalog.now block.now }
{
    match old {
        0 => block.combinations(alloc, catalog),
        _ => block.fresh(alloc, catalog, &[old; 6]),
    }
}

fn tell_rows(alloc: Global, combinations: &[[u32; 6]]) -> Result<String, Fault> {
    let mut told = String::from_str(alloc, "rows")?;
    for rows in combinations {
        write!(told, " {rows:?}")?;
    }
    told.push_str("\n")?;
    Ok(told)
}

/// The answers of a query or the fault that stops it, and the calls, of which the one of this number fails.
pub fn tell_plain(
    alloc: Global,
    catalog: &Catalog,
    query: &Query,
    failing: u64,
) -> Result<String, Fault>
    requires { IsQuery catalog.now query.now }
{
    let mut scorer = MemScorer::new(alloc);
    scorer.fail_at(failing)?;
    let mut told = tell_outcome(alloc, answer_plainly(alloc, catalog, query, &mut scorer))?;
    tell_calls(scorer.calls(), &mut told)?;
    Ok(told)
}

fn tell_outcome(alloc: Global, outcome: Result<Vec<Answer>, PlainFault>) -> Result<String, Fault> {
    match outcome {
        Ok(answers) => Ok(tell_answers(alloc, &answers)?),
        Err(PlainFault::Memory) => Err(Fault::Memory),
        Err(fault) => Ok(format!(in alloc; "{fault:?}")?),
    }
}

fn tell_answers(alloc: Global, answers: &[Answer]) -> Result<String, AllocError> {
    let mut told = String::from_str(alloc, "answers")?;
    for answer in answers {
        tell_answer(answer, &mut told)?;
    }
    Ok(told)
}

/// The block, the mask and the rows of an answer, its score and its values.
pub fn tell_answer(answer: &Answer, told: &mut String) -> Result<(), AllocError> {
    let block = answer.ids.block;
    let mask = answer.ids.mask;
    let rows = answer.ids.rows;
    let score = answer.score;
    let values = answer.values.items();
    write!(told, "; {block} {mask} {rows:?} {score} {values:?}")
}

/// Tells the calls of a scorer.
pub fn tell_calls(calls: &[Call], told: &mut String) -> Result<(), Memory> {
    let mut between = "; calls ";
    for call in calls {
        told.push_str(between)?;
        print_call(call.predicate.bytes(), call.args.items(), told)?;
        between = ", ";
    }
    told.push_str("\n")?;
    Ok(())
}
