//! Which rows of two entries satisfy a condition, match, and what they put out.

ghost use Rattle.std.specs.Prelude.{◌≡◌, length};
ghost use Rattle.rs_query.specs.Tables.{HasRows};
ghost use Rattle.rs_query.specs.WellFormed.{IsBlock};
ghost use Rattle.test_plans.specs.Pair.{HasPredicate, IsPair};

use crate::query::{catalogue, formed_pair};
use rs_catalog::{Catalog, Snapshot};
use rs_filter::{BlockMatch, JoinConditions, passes, project, sides_and_matches_are_combinations};
use rs_query::Block;
use rs_rank::{Ids, Matcher, RankRow};
use rs_value::Value;
use std::alloc::Global;
use std::process::Abort;
use std::test::Fail;

/// A row of the entries in a mask.
fn row_of(mask: u8, rows: [u32; 6]) -> RankRow
    ensures { result ≡ record { ids = record { block = 1; mask = mask; rows = rows }; sum = 0 } }
{
    let ids = Ids {
        block: 1,
        mask,
        rows,
    };
    RankRow { ids, sum: 0 }
}

/// A row of both entries.
fn both_rows(
    rt: &impl Abort,
    catalog: &Snapshot<'_>,
    block: &Block,
    left: u32,
    right: u32,
) -> RankRow
    requires tables { length catalog.now.tables ≡ 1 }
    requires pair { IsPair block.now }
    ensures mask { result.ids.mask ≡ 3 }
    ensures rows { HasRows catalog.now block.now 3 result.ids.rows }
{
    assert!(rt; left >= 1 && left <= catalog.table(0).len());
    assert!(rt; right >= 1 && right <= catalog.table(0).len());
    row_of(3, [left, right, 0, 0, 0, 0])
}

/// Asserts whether the condition holds of a row, and that without it each row passes.
fn assert_passes(rt: &impl Abort, catalog: &Snapshot<'_>, block: &Block, row: &RankRow, want: bool)
    requires pair { IsPair block.now }
    requires block { IsBlock catalog.now block.now }
    requires mask { row.now.ids.mask ≡ 3 }
    requires rows { HasRows catalog.now block.now 3 row.now.ids.rows }
{
    let with_condition = passes(catalog, block, 1, row);
    let without = passes(catalog, block, 0, row);
    assert!(rt; with_condition == want && without);
}

/// Whether there is one value, this number.
fn is_int(values: &[Value], want: i64) -> bool {
    match values {
        [Value::Int(number)] => *number == want,
        _ => false,
    }
}

/// Asserts what a row puts out.
fn assert_value(
    rt: &impl Abort,
    alloc: Global,
    catalog: &Snapshot<'_>,
    block: &Block,
    row: &RankRow,
    want: i64,
) -> Result<(), Fail>
    requires pair { IsPair block.now }
    requires block { IsBlock catalog.now block.now }
    requires mask { row.now.ids.mask ≡ 3 }
    requires rows { HasRows catalog.now block.now 3 row.now.ids.rows }
{
    let values = project(alloc, catalog, block, row)?;
    assert!(rt; is_int(&values, want));
    Ok(())
}

/// A left row and a right one, whether their numbers are equal, and the left one's.
const ROWS: [(u32, u32, bool, i64); 3] = [(1, 1, true, 4), (2, 1, false, 7), (3, 1, true, 4)];

fn assert_row(
    rt: &impl Abort,
    alloc: Global,
    catalog: &Snapshot<'_>,
    block: &Block,
    row: &(u32, u32, bool, i64),
) -> Result<(), Fail>
    requires tables { length catalog.now.tables ≡ 1 }
    requires pair { IsPair block.now }
    requires block { IsBlock catalog.now block.now }
{
    let both = both_rows(rt, catalog, block, row.0, row.1);
    assert_passes(rt, catalog, block, &both, row.2);
    assert_value(rt, alloc, catalog, block, &both, row.3)
}

fn assert_rows(rt: &impl Abort, alloc: Global, catalog: &Catalog) -> Result<(), Fail>
    requires tables { length catalog.now.tables ≡ 1 }
    requires predicate { HasPredicate catalog.now }
{
    let block = formed_pair(rt, alloc, catalog, false)?;
    assert_rows_of(rt, alloc, &Snapshot::current(catalog), &block)
}

fn assert_rows_of(
    rt: &impl Abort,
    alloc: Global,
    catalog: &Snapshot<'_>,
    block: &Block,
) -> Result<(), Fail>
    requires tables { length catalog.now.tables ≡ 1 }
    requires pair { IsPair block.now }
    requires block { IsBlock catalog.now block.now }
{
    for row in &ROWS {
        assert_row(rt, alloc, catalog, block, row)?;
    }
    Ok(())
}

#[test]
fn tells_which_rows_pass(rt: HostRuntime) -> Result<(), Fail> {
    let catalog = catalogue(&rt, rt.alloc())?;
    let asserted = assert_rows(&rt, rt.alloc(), &catalog);
    drop(catalog);
    asserted
}

/// Numbers at both entries, and whether they are of rows that match. The table has three rows.
const PAIRS: [(u32, u32, bool); 6] = [
    (1, 1, true),
    (1, 2, false),
    (3, 1, true),
    (4, 1, false),
    (0, 1, false),
    (1, 0, false),
];

fn assert_pair<M: Matcher>(
    rt: &impl Abort,
    matcher: &mut M,
    pair: &(u32, u32, bool),
) -> Result<(), Fail> {
    let left = row_of(1, [pair.0, 0, 0, 0, 0, 0]);
    let right = row_of(2, [0, pair.1, 0, 0, 0, 0]);
    let matches = matcher.matches(&left, &right)?;
    // Each is a row of its own side alone.
    let changed = matcher.matches(&right, &left)?;
    assert!(rt; matches == pair.2 && !changed);
    Ok(())
}

fn assert_matches(rt: &impl Abort, matcher: &mut BlockMatch<'_>) -> Result<(), Fail> {
    for pair in &PAIRS {
        assert_pair(rt, matcher, pair)?;
    }
    assert!(rt; matcher.calls() == 12);
    Ok(())
}

fn assert_pairs(rt: &impl Abort, alloc: Global, catalog: &Catalog) -> Result<(), Fail>
    requires tables { length catalog.now.tables ≡ 1 }
    requires predicate { HasPredicate catalog.now }
{
    let block = formed_pair(rt, alloc, catalog, false)?;
    assert_pairs_of(rt, alloc, &Snapshot::current(catalog), &block)
}

fn assert_pairs_of(
    rt: &impl Abort,
    alloc: Global,
    catalog: &Snapshot<'_>,
    block: &Block,
) -> Result<(), Fail>
    requires { IsBlock catalog.now block.now }
{
    let conditions = JoinConditions::new(alloc, catalog, block, 1, 2)?;
    let mut matcher = BlockMatch::new(catalog, block, &conditions);
    assert_matches(rt, &mut matcher)
}

#[test]
fn matches_rows_of_two_entries(rt: HostRuntime) -> Result<(), Fail> {
    let catalog = catalogue(&rt, rt.alloc())?;
    let asserted = assert_pairs(&rt, rt.alloc(), &catalog);
    drop(catalog);
    asserted
}

#[test]
fn laws_hold_of_filters() {
    sides_and_matches_are_combinations();
}
