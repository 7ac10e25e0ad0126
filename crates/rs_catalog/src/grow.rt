//! What becomes of a rank index as rows join its table.

ghost use Rattle.std.specs.Prelude.{ℕ, ◌≡◌, ◌+◌, ◌<◌, ◌≤◌, ◌^◌, ◌++◌, true, IfOk, List as Seq, length, if◌then◌else◌, Ok, Err};
ghost use Rattle.std.specs.List.{AllByRecursion};
ghost use Rattle.rs_value.specs.Value.{all_fit, fits};
ghost use Rattle.rs_value.specs.declared.kind.Kind.{Kind as ValueKind};
ghost use Rattle.rs_table.specs.Column.{Column};
ghost use Rattle.rs_table.specs.Relation.{row_fits};
ghost use Rattle.rs_expr.specs.InOrder.{Inquires};
ghost use Rattle.rs_expr.specs.Scores.{as_score, is_score};
ghost use Rattle.rs_rank.specs.Stable.{stable};
ghost use Rattle.rs_catalog.specs.Growing.{scoring_new, scorings_new, with_entries};
ghost use Rattle.rs_catalog.specs.Grown.{as_entries, as_renewed_index, finished, index_in};
ghost use Rattle.rs_catalog.specs.Indexes.{IsRanking, arg_fits, arg_value, args_fit, args_in};
ghost use Rattle.rs_catalog.specs.Inside.{AreScores};

use crate::catalog::RankIndex;
use crate::growth::GrowFault;
use crate::index::BoundArg;
use crate::ranked::Ranked;
use rs_expr::{Predicate, Scorer, ScorerFault, score_within};
use rs_rank::ScoredRow;
use rs_value::{List, Memory, Value};
use std::alloc::Global;

/// The new rows that an index takes as they join its table: one call a row, in the order of the rows, up to the first fault, and
/// then the new rows by score.
pub(crate) fn grow_index<S: Scorer>(
    alloc: Global,
    number: u8,
    index: &RankIndex,
    predicate: &Predicate,
    rows: &[List<Value>],
    scorer: &mut S,
) -> Result<Ranked, GrowFault>
    requires fits { (columns : Seq Column) × (AllByRecursion (λ row. row_fits columns row ≡ true) rows.now × (args_fit columns predicate.now.params index.now.def.args ≡ true)) }
    requires few { length index.now.scores.items + 1 + length rows.now < 2 ^ 32 }
    requires ranking { IsRanking (length index.now.scores.items) predicate.now.max index.now.ranking.items }
    ensures grows { Inquires GrowFault.Memory (finished (λ entries. with_entries entries (index_in index.now))
        (scorings_new (S.state scorer.old).answer number predicate.now index.now.def.args (length index.now.scores.items + 1) rows.now))
        (as_renewed_index (index_in index.now) result) (S.state scorer.old) (S.state scorer.new) }
    ensures ordered { IfOk result (λ ranked. stable (λ row. row.score) ranked.ranking.items ≡ ranked.ranking.items) }
    ensures ranking { IfOk result (λ ranked. IsRanking (length index.now.scores.items + length rows.now) predicate.now.max
        (stable (λ row. row.score) (index.now.ranking.items ++ ranked.ranking.items))) }
    ensures scores { IfOk result (λ ranked. (scores : Seq ℕ) → AreScores index.now.ranking.items scores
        → AreScores (stable (λ row. row.score) (index.now.ranking.items ++ ranked.ranking.items)) (scores ++ ranked.scores.items)) }
{
    let first = index.scores.len() as u32 + 1;
    let args = index.def.args.items();
    let entries = score_new_rows(alloc, number, predicate, args, first, rows, scorer)?;
    Ok(Ranked::of(alloc, entries)?)
}

/// The new rows of a table with the scores that they get at an index, in their order; the first one has this number. The
/// scorer is called once a row, up to the first fault.
fn score_new_rows<S: Scorer>(
    alloc: Global,
    index: u8,
    predicate: &Predicate,
    args: &[BoundArg],
    first: u32,
    rows: &[List<Value>],
    scorer: &mut S,
) -> Result<Vec<ScoredRow>, GrowFault>
    requires fits { (columns : Seq Column) × (AllByRecursion (λ row. row_fits columns row ≡ true) rows.now × (args_fit columns predicate.now.params args.now ≡ true)) }
    requires few { first + length rows.now < 2 ^ 32 }
    ensures { Inquires GrowFault.Memory (scorings_new (S.state scorer.old).answer index predicate.now args.now first rows.now)
        (as_entries result) (S.state scorer.old) (S.state scorer.new) }
{
    let mut entries = Vec::new(alloc);
    for place in 0..rows.len() {
        let row = first + place as u32;
        let entry = score_new_row(alloc, index, predicate, args, row, &rows[place], scorer)?;
        entries.push(entry)?;
    }
    Ok(entries)
}

/// A new row with its score at an index, for which the scorer is called.
fn score_new_row<S: Scorer>(
    alloc: Global,
    index: u8,
    predicate: &Predicate,
    args: &[BoundArg],
    row: u32,
    values: &List<Value>,
    scorer: &mut S,
) -> Result<ScoredRow, GrowFault>
    requires fits { (columns : Seq Column) × ((row_fits columns values.now ≡ true) × (args_fit columns predicate.now.params args.now ≡ true)) }
    ensures { Inquires GrowFault.Memory (scoring_new (S.state scorer.old).answer index predicate.now args.now row values.now)
        result (S.state scorer.old) (S.state scorer.new) }
{
    let given = arguments_in(alloc, values.items(), args)?;
    match scorer.score(predicate, &given) {
        Ok(got) => new_score(index, predicate.max(), row, got),
        Err(ScorerFault::Failed) => Err(GrowFault::Probe { index }),
        Err(ScorerFault::Memory) => Err(GrowFault::Memory),
    }
}

/// A new row with the number that it got at an index as its score, where that is one.
fn new_score(index: u8, max: u32, row: u32, got: i128) -> Result<ScoredRow, GrowFault>
    ensures { result ≡ (if is_score max got then Ok (record { score = as_score got; row = row }) else Err (GrowFault.BadScore index row got max)) }
{
    match score_within(got, max) {
        Some(score) => Ok(ScoredRow { score, row }),
        None => Err(GrowFault::BadScore {
            index,
            row,
            got,
            max,
        }),
    }
}

/// The values that the arguments have for a row of these values.
fn arguments_in(alloc: Global, row: &[Value], args: &[BoundArg]) -> Result<Vec<Value>, Memory>
    requires fits { (columns : Seq Column) × ((kinds : Seq ValueKind) × ((row_fits columns row.now ≡ true) × (args_fit columns kinds args.now ≡ true))) }
    ensures values { IfOk result (λ values. values.items ≡ args_in args.now row.now) }
    ensures fit { (columns : Seq Column) (kinds : Seq ValueKind) → row_fits columns row.now ≡ true → args_fit columns kinds args.now ≡ true → IfOk result (λ values. all_fit kinds values.items ≡ true) }
{
    let mut values = Vec::new(alloc);
    for arg in args {
        values.push(argument_in(row, arg)?)?;
    }
    Ok(values)
}

/// The value that an argument has for a row of these values.
fn argument_in(row: &[Value], arg: &BoundArg) -> Result<Value, Memory>
    requires fits { (columns : Seq Column) × ((kind : ValueKind) × ((row_fits columns row.now ≡ true) × (arg_fits columns kind arg.now ≡ true))) }
    ensures value { IfOk result (λ value. value ≡ arg_value row.now arg.now) }
    ensures fit { (columns : Seq Column) (kind : ValueKind) → row_fits columns row.now ≡ true → arg_fits columns kind arg.now ≡ true → IfOk result (λ value. fits kind value ≡ true) }
{
    match arg {
        BoundArg::Column(_, column) => row[*column as usize].copy(),
        BoundArg::Int(number) => Ok(Value::Int(*number)),
        BoundArg::Text(text) => Ok(Value::Text(text.copy()?)),
    }
}
