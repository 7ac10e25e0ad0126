//! Rows of the answer, with their output values, that are made of scored combinations.

ghost use Rattle.std.specs.Prelude.{◌≡◌, IfOk, map};
ghost use Rattle.std.specs.List.{AllByRecursion};
ghost use Rattle.rs_query.specs.WellFormed.{IsBlock, IsQuery};
ghost use Rattle.rs_plain.specs.Keeping.{IsWhole, IsWholeIn, answer_for, answer_in};

use rs_catalog::Snapshot;
use rs_query::{Block, Query, block_in};
use rs_rank::{Answer, RankRow};
use rs_value::{List, Memory};
use std::alloc::Global;

/// The rows that scored combinations of a query make.
pub(crate) fn query_answers(
    alloc: Global,
    catalog: &Snapshot<'_>,
    query: &Query,
    scored: &[RankRow],
) -> Result<Vec<Answer>, Memory>
    requires query { IsQuery catalog.now query.now }
    requires rows { AllByRecursion (IsWholeIn catalog.now query.now) scored.now }
    ensures { IfOk result (λ answers. answers.items ≡ map (answer_in catalog.now query.now) scored.now) }
{
    let mut answers = Vec::with_capacity(alloc, scored.len())?;
    for row in scored {
        let answer = answer_for(alloc, catalog, block_in(query, row.ids.block), row)?;
        answers.push(answer)?;
    }
    Ok(answers)
}

/// The rows that scored combinations of a block make.
///
/// # Errors
///
/// - `Memory`: at any call.
pub fn block_answers(
    alloc: Global,
    catalog: &Snapshot<'_>,
    block: &Block,
    scored: &[RankRow],
) -> Result<Vec<Answer>, Memory>
    requires block { IsBlock catalog.now block.now }
    requires rows { AllByRecursion (IsWhole catalog.now block.now) scored.now }
    ensures { IfOk result (λ answers. answers.items ≡ map (answer_for catalog.now block.now) scored.now) }
{
    let mut answers = Vec::with_capacity(alloc, scored.len())?;
    for row in scored {
        let answer = answer_for(alloc, catalog, block, row)?;
        answers.push(answer)?;
    }
    Ok(answers)
}

/// The row that a scored combination of a block makes.
fn answer_for(
    alloc: Global,
    catalog: &Snapshot<'_>,
    block: &Block,
    row: &RankRow,
) -> Result<Answer, Memory>
    requires block { IsBlock catalog.now block.now }
    requires row { IsWhole catalog.now block.now row.now }
    ensures { IfOk result (λ answer. answer ≡ answer_for catalog.now block.now row.now) }
{
    let values = block.outputs(alloc, catalog, &row.ids)?;
    Ok(Answer {
        ids: row.ids,
        score: row.sum,
        values: List::of(values),
    })
}
