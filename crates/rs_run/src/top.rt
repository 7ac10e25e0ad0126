ghost use Rattle.std.specs.Prelude.{◌≡◌, ◌⊎◌, ◌≤◌, Ok, Err, IfOk, MatchResult, map, length, slice_get, Some};
ghost use Rattle.std.specs.List.{AllByRecursion};
ghost use Rattle.rs_value.specs.Answer.{Gives};
ghost use Rattle.rs_value.specs.declared.kind.Kind.TheVariants as kind;
ghost use Rattle.rs_table.specs.Column.{Column, place_of};
ghost use Rattle.rs_table.specs.NumberColumn.{HasNumberColumn};
ghost use Rattle.rs_catalog.specs.Indexes.{row_at};
ghost use Rattle.rs_catalog.specs.Making.{as_ranking};
ghost use Rattle.rs_outside.specs.Files.{finds_in};
ghost use Rattle.rs_run.specs.Running.{IsRunOf};
ghost use Rattle.rs_run.specs.Top.{best_rows, named_table, number_at, row_answer, scored_rows};
ghost use Rattle.rs_statement.specs.Parts.Steps.{FetchesFile, Runs};
ghost use Rattle.rs_run.specs.Parts.Read.{IsRow, IsTopTable};
ghost use Rattle.rs_run.specs.Words.{Top};
ghost use Rattle.rs_run.specs.Parts.CommandLine.{words_of};

use crate::words::TopCommand;
use rs_catalog::{IndexFault, score_for};
use rs_events::Host;
use rs_outside::Files;
use rs_rank::{Answer, Ids, ScoredRow, sort_stably};
use rs_statement::{Fault, fetch_file, index_fault, only_row, put_rows, table_fault};
use rs_table::{Schema, TABLE_LIMIT, Table, TableFault};
use rs_value::{List, Memory, Text, Value};
use std::alloc::Global;
use std::hash::RandomState;

/// Puts the first `words.count` rows of a file's table by the number in a column, greatest first, a tie to the earlier row.
pub fn top<W: Host>(alloc: Global, words: TopCommand<'_>, host: &mut W) -> Result<(), Fault>
    ensures { Runs
        (IsRunOf (finds_in (W.state host.old).files.contents) (W.state host.old).scorer.answer (Top (words_of words.entry))) result
        (W.state host.old) (W.state host.new) }
{
    let table = fetch_table(alloc, words.file, words.column, host.files())?;
    let rows = best_rows(alloc, &table, words.column, words.max, words.count)?;
    put_rows(alloc, 0, &rows, host.out())
}

/// Fetches a file and reads its table, in which the column is of numbers.
fn fetch_table<F: Files>(
    alloc: Global,
    file: &Text,
    column: &Text,
    files: &mut F,
) -> Result<Table, Fault>
    ensures fetches { FetchesFile file.now result (IsTopTable file.now column.now) (F.state files.old) (F.state files.new) }
    ensures number_column { IfOk result (λ table. HasNumberColumn column.now table.schema) }
{
    let bytes = fetch_file(alloc, file, TABLE_LIMIT, files)?;
    match read_table(alloc, files.hash_keys(), column, &bytes) {
        Ok(table) => Ok(table),
        Err(why) => Err(table_fault(file, why)),
    }
}

/// The table of a file's bytes, in which the column is of numbers. Its texts are hashed by the keys.
fn read_table(
    alloc: Global,
    hash_keys: RandomState,
    column: &Text,
    bytes: &[u8],
) -> Result<Table, TableFault>
    requires { length bytes.now ≤ 33554432 }
    ensures gives { Gives TableFault.Memory (named_table column.now bytes.now) result }
    ensures number_column { IfOk result (λ table. HasNumberColumn column.now table.schema) }
{
    let schema = Schema::of_header(alloc, bytes, column)?;
    Table::read(alloc, hash_keys, schema, bytes)
}

/// The first `count` rows of a table in the stable order of the numbers in a column.
fn best_rows(
    alloc: Global,
    table: &Table,
    column: &Text,
    max: u32,
    count: u32,
) -> Result<Vec<Answer>, Fault>
    requires { HasNumberColumn column.now table.now.schema }
    ensures { let best = best_rows column.now max count table.now in
        MatchResult result (λ rows. best ≡ Ok rows.items) (λ fault. (fault ≡ Fault.Memory) ⊎ (best ≡ Err fault)) }
{
    let mut scored = match score_rows(alloc, table, column, max) {
        Ok(scored) => scored,
        Err(why) => return Err(index_fault(column.copy()?, why)),
    };
    sort_stably(&mut scored)?;
    scored.truncate(count as usize);
    Ok(row_answers(alloc, table, &scored)?)
}

/// The rows of a table with the numbers in a column as their scores.
fn score_rows(
    alloc: Global,
    table: &Table,
    column: &Text,
    max: u32,
) -> Result<Vec<ScoredRow>, IndexFault>
    requires { HasNumberColumn column.now table.now.schema }
    ensures scores { Gives IndexFault.Memory (scored_rows column.now max table.now) (as_ranking result) }
    ensures rows { IfOk result (λ scored. AllByRecursion (λ r. IsRow table.now r.row) scored.items) }
{
    let mut scored = Vec::new(alloc);
    let place = number_column(table, column);
    for index in 0..table.len() {
        let row = index + 1;
        let number = number_in(table, row, place);
        scored.push(score_for(max, row, number as i128)?)?;
    }
    Ok(scored)
}

/// The place of the column of numbers.
fn number_column(table: &Table, column: &Text) -> u8
    requires { HasNumberColumn column.now table.now.schema }
    ensures { place_of column.now table.now.schema ≡ Some result }
{
    match table.schema().place(column) {
        Some(place) => place,
        None => unreachable!(),
    }
}

/// The number that a row has in a column of numbers.
fn number_in(table: &Table, row: u32, place: u8) -> i64
    requires row { IsRow table.now row }
    requires number { (column : Column) × (slice_get table.now.schema place ≡ Some column) × (column.1 ≡ kind.Int) }
    ensures { result ≡ number_at place (row_at table.now.rows row) }
{
    match table.value(row, place) {
        Ok(Value::Int(number)) => number,
        Ok(Value::Text(_)) => unreachable!(),
        Err(_) => unreachable!(),
    }
}

/// Rows of a table, each with its score, as answers of a query over that table alone.
fn row_answers(alloc: Global, table: &Table, scored: &[ScoredRow]) -> Result<Vec<Answer>, Memory>
    requires { AllByRecursion (λ r. IsRow table.now r.row) scored.now }
    ensures { IfOk result (λ rows. rows.items ≡ map (row_answer table.now) scored.now) }
{
    let mut rows = Vec::new(alloc);
    for row in scored {
        rows.push(row_answer(alloc, table, *row)?)?;
    }
    Ok(rows)
}

/// A row of a table with its score, as an answer of a query over that table alone.
fn row_answer(alloc: Global, table: &Table, scored: ScoredRow) -> Result<Answer, Memory>
    requires { IsRow table.now scored.row }
    ensures { IfOk result (λ answer. answer ≡ row_answer table.now scored) }
{
    let values = row_values(alloc, table, scored.row)?;
    Ok(Answer {
        ids: Ids {
            block: 1,
            mask: 1,
            rows: only_row(scored.row),
        },
        score: scored.score as u64,
        values: List::of(values),
    })
}

/// The values of a row.
fn row_values(alloc: Global, table: &Table, row: u32) -> Result<Vec<Value>, Memory>
    requires { IsRow table.now row }
    ensures { IfOk result (λ values. values.items ≡ row_at table.now.rows row) }
{
    let mut values = Vec::new(alloc);
    for column in 0..table.schema().columns().len() {
        values.push(table.value(row, column as u8)?)?;
    }
    Ok(values)
}
