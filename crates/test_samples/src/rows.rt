//! Which rows of a table are taken, by words that the test draws itself.

ghost use Rattle.rs_query.specs.WellFormed.{IsQuery};

use crate::query::query_of;
use rand_core::{Rng, SeedableRng};
use rand_pcg::Pcg32;
use rs_catalog::Catalog;
use rs_expr::{Call, MemScorer};
use rs_query::Query;
use rs_sample::Cards;
use rs_value::Value;
use std::alloc::Global;
use std::hash::RandomState;
use std::process::Abort;
use std::test::Fail;

const ROWS: u32 = 300;

const TAKEN: u32 = 256;

const SEEDS: [u64; 3] = [1, 0, 18_446_744_073_709_551_615];

/// A table of 300 rows, each with its number, and a query that calls a predicate for it.
fn script(alloc: Global) -> Result<String, Fail> {
    let mut script = String::from_str(alloc, "CREATE TABLE t (v INT) FROM 'v")?;
    for row in 1..=ROWS {
        write!(script, "\n{row}")?;
    }
    script.push_str("'; CREATE PREDICATE p (v INT) MAX 300 AS v; SELECT v FROM t ORDER BY p(v)")?;
    Ok(script)
}

/// Asserts that a call is for the number of this row.
fn assert_call(rt: &impl Abort, call: Option<&Call>, row: u32) {
    let is_its = match call {
        Some(call) => is_for(call, row),
        None => false,
    };
    assert!(rt; is_its, "row {row}");
}

fn is_for(call: &Call, row: u32) -> bool {
    match call.args.items().first() {
        Some(Value::Int(number)) => *number == i64::from(row),
        _ => false,
    }
}

/// Asserts that the calls are for the rows that the words of a seed take: a row is taken where its word, modulo the rows still to
/// see, is less than those still needed.
fn assert_taken(rt: &impl Abort, seed: u64, calls: &[Call]) {
    let mut words = Pcg32::seed_from_u64(seed);
    let mut taken = 0;
    for seen in 0..ROWS {
        if taken < TAKEN && words.next_u32() % (ROWS - seen) < TAKEN - taken {
            assert_call(rt, calls.get(taken as usize), seen + 1);
            taken += 1;
        }
    }
    assert_eq!(rt; taken, TAKEN);
    assert_eq!(rt; calls.len(), 256);
}

fn assert_seed(
    rt: &impl Abort,
    alloc: Global,
    catalog: &Catalog,
    query: &Query,
    seed: u64,
) -> Result<(), Fail>
    requires { IsQuery catalog.now query.now }
{
    let mut scorer = MemScorer::new(alloc);
    Cards::take(alloc, catalog, query, seed, &mut scorer)?;
    assert_taken(rt, seed, scorer.calls());
    Ok(())
}

fn assert_seeds(
    rt: &impl Abort,
    alloc: Global,
    catalog: &Catalog,
    query: &Query,
) -> Result<(), Fail>
    requires { IsQuery catalog.now query.now }
{
    for seed in SEEDS {
        assert_seed(rt, alloc, catalog, query, seed)?;
    }
    Ok(())
}

fn assert_query(
    rt: &impl Abort,
    alloc: Global,
    hash_keys: RandomState,
    catalog: &mut Catalog,
) -> Result<(), Fail> {
    let script = script(alloc)?;
    let query = query_of(alloc, hash_keys, catalog, script.as_str())?;
    assert_seeds(rt, alloc, catalog, &query)
}

#[test]
fn takes_rows_by_the_words_of_the_seed(rt: HostRuntime) -> Result<(), Fail> {
    let hash_keys = RandomState::new(&rt)?;
    let mut catalog = Catalog::new(rt.alloc());
    assert_query(&rt, rt.alloc(), hash_keys, &mut catalog)
}
