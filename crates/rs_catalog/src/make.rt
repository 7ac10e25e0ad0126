ghost use Rattle.std.specs.Prelude.{◌≡◌, ◌≤◌, true, IfOk, List, length, if◌then◌else◌, Ok, Err};
ghost use Rattle.rs_value.specs.Value.{all_fit, fits};
ghost use Rattle.rs_value.specs.declared.kind.Kind.{Kind as ValueKind};
ghost use Rattle.rs_expr.specs.InOrder.{Inquires};
ghost use Rattle.rs_catalog.specs.Indexes.{IsRanking, arg_fits, arg_value, args_fit, args_in, making_of, row_at};
ghost use Rattle.rs_catalog.specs.Inside.{AreScores};
ghost use Rattle.rs_catalog.specs.Making.{as_ranked, as_ranking, score_for, scoring_of, scoring_row};

use crate::index::{BoundArg, IndexFault};
use crate::ranked::Ranked;
use rs_expr::{Predicate, Scorer, ScorerFault, score_within};
use rs_rank::ScoredRow;
use rs_table::Table;
use rs_value::{Memory, Value};
use std::alloc::Global;

/// The rows of a table by the score that a predicate gives them, the greatest first. The scorer is called once a row, in
/// the order of the rows, up to the first fault.
pub(crate) fn rank_rows<S: Scorer>(
    alloc: Global,
    table: &Table,
    predicate: &Predicate,
    args: &[BoundArg],
    scorer: &mut S,
) -> Result<Ranked, IndexFault>
    requires { args_fit table.now.schema predicate.now.params args.now ≡ true }
    ensures ranks { Inquires IndexFault.Memory (making_of (S.state scorer.old).answer predicate.now args.now table.now.rows)
        (as_ranked result) (S.state scorer.old) (S.state scorer.new) }
    ensures ranking { IfOk result (λ ranked. IsRanking (length table.now.rows) predicate.now.max ranked.ranking.items) }
    ensures scores { IfOk result (λ ranked. AreScores ranked.ranking.items ranked.scores.items) }
{
    let entries = score_rows(alloc, table, predicate, args, scorer)?;
    Ok(Ranked::of(alloc, entries)?)
}

/// The rows of a table in their order, each with its score.
fn score_rows<S: Scorer>(
    alloc: Global,
    table: &Table,
    predicate: &Predicate,
    args: &[BoundArg],
    scorer: &mut S,
) -> Result<Vec<ScoredRow>, IndexFault>
    requires { args_fit table.now.schema predicate.now.params args.now ≡ true }
    ensures { Inquires IndexFault.Memory (scoring_of (S.state scorer.old).answer predicate.now args.now table.now.rows)
        (as_ranking result) (S.state scorer.old) (S.state scorer.new) }
{
    let mut entries = Vec::new(alloc);
    for index in 0..table.len() {
        let entry = score_row(alloc, table, index + 1, predicate, args, scorer)?;
        entries.push(entry)?;
    }
    Ok(entries)
}

/// A row with its score, for which the scorer is called.
fn score_row<S: Scorer>(
    alloc: Global,
    table: &Table,
    row: u32,
    predicate: &Predicate,
    args: &[BoundArg],
    scorer: &mut S,
) -> Result<ScoredRow, IndexFault>
    requires some { 1 ≤ row }
    requires within { row ≤ length table.now.rows }
    requires fits { args_fit table.now.schema predicate.now.params args.now ≡ true }
    ensures { Inquires IndexFault.Memory (scoring_row (S.state scorer.old).answer predicate.now args.now row (row_at table.now.rows row))
        result (S.state scorer.old) (S.state scorer.new) }
{
    let values = arguments_of(alloc, table, row, args)?;
    match scorer.score(predicate, &values) {
        Ok(got) => score_for(predicate.max(), row, got),
        Err(ScorerFault::Failed) => Err(IndexFault::Probe),
        Err(ScorerFault::Memory) => Err(IndexFault::Memory),
    }
}

/// A row with the number that it got as its score, where that is one.
///
/// # Errors
///
/// - `BadScore`: exactly where the number lies outside 0 to `max`.
/// - `Probe`, `Memory`: never.
pub fn score_for(max: u32, row: u32, got: i128) -> Result<ScoredRow, IndexFault>
    ensures { result ≡ score_for max row got }
{
    match score_within(got, max) {
        Some(score) => Ok(ScoredRow { score, row }),
        None => Err(IndexFault::BadScore { row, got, max }),
    }
}

/// The values that the arguments have for a row.
fn arguments_of(
    alloc: Global,
    table: &Table,
    row: u32,
    args: &[BoundArg],
) -> Result<Vec<Value>, Memory>
    requires some { 1 ≤ row }
    requires within { row ≤ length table.now.rows }
    requires fits { (kinds : List ValueKind) × (args_fit table.now.schema kinds args.now ≡ true) }
    ensures values { IfOk result (λ values. values.items ≡ args_in args.now (row_at table.now.rows row)) }
    ensures fit { (kinds : List ValueKind) → args_fit table.now.schema kinds args.now ≡ true → IfOk result (λ values. all_fit kinds values.items ≡ true) }
{
    let mut values = Vec::new(alloc);
    for arg in args {
        values.push(argument_of(table, row, arg)?)?;
    }
    Ok(values)
}

/// The value that an argument has for a row.
fn argument_of(table: &Table, row: u32, arg: &BoundArg) -> Result<Value, Memory>
    requires some { 1 ≤ row }
    requires within { row ≤ length table.now.rows }
    requires fits { (kind : ValueKind) × (arg_fits table.now.schema kind arg.now ≡ true) }
    ensures value { IfOk result (λ value. value ≡ arg_value (row_at table.now.rows row) arg.now) }
    ensures fit { (kind : ValueKind) → arg_fits table.now.schema kind arg.now ≡ true → IfOk result (λ value. fits kind value ≡ true) }
{
    match arg {
        BoundArg::Column(_, column) => table.value(row, *column),
        BoundArg::Int(number) => Ok(Value::Int(*number)),
        BoundArg::Text(text) => Ok(Value::Text(text.copy()?)),
    }
}
