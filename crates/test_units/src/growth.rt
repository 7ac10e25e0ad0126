//! Rows that join a table of one column of numbers, "left", with two rank indexes of that column.

ghost use Rattle.std.specs.Prelude.{◌≡◌, ◌<◌, ◌≤◌, IfOk, Ok, length, true};
ghost use Rattle.std.specs.List.{AllByRecursion};
ghost use Rattle.rs_table.specs.Relation.{most_rows, row_fits};
ghost use Rattle.rs_catalog.specs.Catalog.{names_of, room_for};
ghost use Rattle.rs_catalog.specs.Growing.{CanJoin};
ghost use Rattle.rs_catalog.specs.Indexes.{IsIndex, args_fit, ranking_at};
ghost use Rattle.rs_catalog.specs.declared.room.What.{What as Lists};
ghost use Rattle.rs_catalog.specs.declared.room.What.TheVariants as what;

use crate::tables::{catalogue, text};
use rs_catalog::{BoundArg, Catalog, GrowFault, IndexDef, What};
use rs_expr::{MemScorer, Predicate};
use rs_table::{MOST_ROWS, Table};
use rs_value::{GREATEST_INT, Kind, List, Memory, Text, Value};
use std::alloc::Global;
use std::process::Abort;
use std::random::RandomSource;
use std::test::Fail;

const FILE: &[u8] = b"k\n10\n8\n5\n2\n";

/// The number of the one of this name in a list.
pub(crate) fn number_of(
    rt: &impl Abort,
    alloc: Global,
    catalog: &Catalog,
    what: What,
    name: &str,
) -> Result<u8, Fail>
    ensures { IfOk result (λ number. number < length (names_of what catalog.now)) }
{
    let name = text(alloc, name)?;
    match catalog.find(what, &name) {
        Some(number) => Ok(number),
        None => panic!(rt; "there is none"),
    }
}

/// Whether an argument is the first column, which is one of numbers as the predicate wants.
fn is_first(table: &Table, predicate: &Predicate, args: &[BoundArg]) -> bool
    ensures { result ≡ true → args_fit table.now.schema predicate.now.params args.now ≡ true }
{
    match (table.schema().columns(), predicate.params(), args) {
        ([(_, Kind::Int)], [Kind::Int], [BoundArg::Column(1, 0)]) => true,
        _ => false,
    }
}

/// The index of this name over the first column of a table.
fn index_of(alloc: Global, name: &str, table: u8, predicate: u8) -> Result<IndexDef, Fail>
    ensures { IfOk result (λ def. (def.table ≡ table) × (def.predicate ≡ predicate)) }
{
    let args = vec![in alloc; BoundArg::Column(1, 0)]?;
    match text(alloc, name) {
        Ok(name) => Ok(IndexDef {
            name,
            table,
            predicate,
            args: List::of(args),
        }),
        Err(fail) => {
            drop(args);
            Err(fail)
        }
    }
}

/// Adds the index of this name, of a predicate.
pub(crate) fn add_index(
    rt: &impl Abort,
    alloc: Global,
    catalog: &mut Catalog,
    name: &str,
    predicate: &str,
    scorer: &mut MemScorer,
) -> Result<(), Fail> {
    let table = number_of(rt, alloc, catalog, What::Table, "left")?;
    let predicate = number_of(rt, alloc, catalog, What::Predicate, predicate)?;
    let def = index_of(alloc, name, table, predicate)?;
    assert!(rt; can_be_made(catalog, &def));
    Ok(catalog.add_index(alloc, def, scorer)?)
}

fn can_be_made(catalog: &Catalog, def: &IndexDef) -> bool
    requires table { def.now.table < length catalog.now.tables }
    requires predicate { def.now.predicate < length catalog.now.predicates }
    ensures room { result ≡ true → room_for what.Index def.now.name catalog.now ≡ Ok tt }
    ensures index { result ≡ true → IsIndex catalog.now def.now }
{
    if catalog.room(What::Index, &def.name) != Ok(()) {
        return false;
    }
    is_first(
        catalog.table(def.table),
        catalog.predicate(def.predicate),
        def.args.items(),
    )
}

/// Whether a row has one number, and is to stand in one column of numbers.
fn fits(columns: &[(Text, Kind)], row: &[Value]) -> bool
    ensures { result ≡ true → row_fits columns.now row.now ≡ true }
{
    match (columns, row) {
        ([(_, Kind::Int)], [Value::Int(number)]) => number.unsigned_abs() <= GREATEST_INT,
        _ => false,
    }
}

/// Whether a row can join a table.
fn can_join(catalog: &Catalog, table: u8, rows: &[List<Value>]) -> bool
    requires { table < length catalog.now.tables }
    ensures { result ≡ true → CanJoin catalog.now table rows.now }
{
    let of = catalog.table(table);
    match rows {
        [first, last] => {
            fits(of.schema().columns(), first.items())
                && fits(of.schema().columns(), last.items())
                && (of.len() as usize) < MOST_ROWS - 1
        }
        _ => false,
    }
}

/// The row of a number.
fn row_of(alloc: Global, number: i64) -> Result<List<Value>, Fail> {
    Ok(List::of(vec![in alloc; Value::Int(number)]?))
}

/// The rows of two numbers.
fn rows_of(alloc: Global, numbers: (i64, i64)) -> Result<Vec<List<Value>>, Fail> {
    let mut rows = Vec::new(alloc);
    for number in [numbers.0, numbers.1] {
        rows.push(row_of(alloc, number)?)?;
    }
    Ok(rows)
}

/// Puts two rows of these numbers last.
fn grow(
    rt: &impl Abort,
    alloc: Global,
    catalog: &mut Catalog,
    numbers: (i64, i64),
    scorer: &mut MemScorer,
) -> Result<Result<(), GrowFault>, Fail> {
    let table = number_of(rt, alloc, catalog, What::Table, "left")?;
    let rows = rows_of(alloc, numbers)?;
    assert!(rt; can_join(catalog, table, &rows));
    Ok(catalog.add_rows(alloc, table, rows, scorer))
}

/// Asserts the entries of an index whose rows are among the first so many.
pub(crate) fn assert_entries(
    rt: &impl Abort,
    alloc: Global,
    catalog: &Catalog,
    name: &str,
    rows: u32,
    want: &[(u32, u32)],
) -> Result<(), Fail> {
    let index = number_of(rt, alloc, catalog, What::Index, name)?;
    let mut last = None;
    for entry in want {
        last = catalog.index_after(index, last, rows);
        assert_eq!(rt; last, Some(*entry));
        assert_eq!(rt; score_of(catalog, index, entry.1), Some(entry.0));
    }
    assert_eq!(rt; catalog.index_after(index, last, rows), None);
    Ok(())
}

/// The score of a row, where an index has it.
fn score_of(catalog: &Catalog, index: u8, row: u32) -> Option<u32>
    requires { index < length catalog.now.indexes }
{
    let def = catalog.index(index);
    if row >= 1 && row <= catalog.table(def.table).len() {
        Some(catalog.score_of(index, row))
    } else {
        None
    }
}

/// Asserts the numbers that the last calls of a scorer asked for.
pub(crate) fn assert_last_calls(rt: &impl Abort, scorer: &MemScorer, want: &[i64]) {
    let calls = scorer.calls();
    assert!(rt; calls.len() >= want.len());
    for (call, number) in calls[calls.len() - want.len()..].iter().zip(want) {
        assert!(rt; matches!(call.args.items().as_slice(), [Value::Int(n)] if n == number));
    }
}

/// Puts two rows of these numbers last, and asserts what comes of it.
pub(crate) fn assert_grown(
    rt: &impl Abort,
    alloc: Global,
    catalog: &mut Catalog,
    numbers: (i64, i64),
    scorer: &mut MemScorer,
    want: Result<(), GrowFault>,
) -> Result<(), Fail> {
    let got = grow(rt, alloc, catalog, numbers, scorer)?;
    assert_eq!(rt; got, want);
    Ok(())
}

/// Asserts that rows join both indexes behind those of their score.
fn assert_joined(
    rt: &impl Abort,
    alloc: Global,
    catalog: &mut Catalog,
    scorer: &mut MemScorer,
) -> Result<(), Fail> {
    add_index(rt, alloc, catalog, "one", "p", scorer)?;
    add_index(rt, alloc, catalog, "two", "p", scorer)?;
    assert_grown(rt, alloc, catalog, (9, 8), scorer, Ok(()))?;
    assert_last_calls(rt, scorer, &[9, 8, 9, 8]);
    let all = [(10, 1), (9, 5), (8, 2), (8, 6), (5, 3), (2, 4)];
    let old = [(10, 1), (8, 2), (5, 3), (2, 4)];
    for name in ["one", "two"] {
        assert_entries(rt, alloc, catalog, name, 6, &all)?;
        assert_entries(rt, alloc, catalog, name, 4, &old)?;
    }
    Ok(())
}

/// Asserts that no row joins where one of them has no score.
fn assert_refused(
    rt: &impl Abort,
    alloc: Global,
    catalog: &mut Catalog,
    scorer: &mut MemScorer,
) -> Result<(), Fail> {
    add_index(rt, alloc, catalog, "one", "p", scorer)?;
    let bad = GrowFault::BadScore {
        index: 0,
        row: 6,
        got: 11,
        max: 10,
    };
    assert_grown(rt, alloc, catalog, (9, 11), scorer, Err(bad))?;
    assert_last_calls(rt, scorer, &[9, 11]);
    scorer.fail_at(8)?;
    let failed = GrowFault::Probe { index: 0 };
    assert_grown(rt, alloc, catalog, (7, 3), scorer, Err(failed))?;
    let old = [(10, 1), (8, 2), (5, 3), (2, 4)];
    assert_entries(rt, alloc, catalog, "one", 9, &old)
}

/// A catalogue with the table "left".
fn catalogue_of_left(rt: &(impl Abort + RandomSource), alloc: Global) -> Result<Catalog, Fail> {
    catalogue(rt, alloc, &[Kind::Int], 10, (FILE, FILE))
}

#[test]
fn rows_join_behind_those_of_their_score(rt: HostRuntime) -> Result<(), Fail> {
    let mut catalog = catalogue_of_left(&rt, rt.alloc())?;
    let mut scorer = MemScorer::new(rt.alloc());
    let asserted = assert_joined(&rt, rt.alloc(), &mut catalog, &mut scorer);
    drop(scorer);
    drop(catalog);
    asserted
}

#[test]
fn no_row_joins_where_one_has_no_score(rt: HostRuntime) -> Result<(), Fail> {
    let mut catalog = catalogue_of_left(&rt, rt.alloc())?;
    let mut scorer = MemScorer::new(rt.alloc());
    let asserted = assert_refused(&rt, rt.alloc(), &mut catalog, &mut scorer);
    drop(scorer);
    drop(catalog);
    asserted
}
