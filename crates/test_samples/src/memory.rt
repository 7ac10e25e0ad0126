//! Made for a process in which one allocation fails: a sample that lacks memory makes the first ones of its calls, and tells that
//! there is no memory, and that in no other way.

ghost use Rattle.rs_query.specs.WellFormed.{IsQuery};

use crate::query::query_of;
use cases_lines::Fault;
use rs_catalog::Catalog;
use rs_expr::{Call, MemScorer};
use rs_query::Query;
use rs_sample::{Cards, SampleFault};
use rs_value::Value;
use std::alloc::Global;
use std::hash::RandomState;
use std::process::Abort;
use std::test::Fail;

const SCRIPT: &str = "CREATE TABLE t (x INT, y INT) FROM 'x,y\n10,3\n8,9\n5,1\n2,10\n'; \
    CREATE PREDICATE p (v INT) MAX 10 AS v; CREATE PREDICATE q (v INT) MAX 10 COST 100 AS v; \
    SELECT x, y FROM t ORDER BY p(x) + q(y) LIMIT 1";

/// The calls: the name of the predicate, and the number.
const CALLS: [(&str, i64); 8] = [
    ("p", 10),
    ("p", 8),
    ("p", 5),
    ("p", 2),
    ("q", 3),
    ("q", 9),
    ("q", 1),
    ("q", 10),
];

fn is_for(call: &Call, number: i64) -> bool {
    match call.args.items().first() {
        Some(Value::Int(value)) => *value == number,
        _ => false,
    }
}

/// Asserts that these are the first calls.
fn assert_first(rt: &impl Abort, calls: &[Call]) {
    assert!(rt; calls.len() <= CALLS.len());
    for (call, (predicate, number)) in calls.iter().zip(&CALLS) {
        assert_eq!(rt; call.predicate.as_str(), *predicate);
        assert!(rt; is_for(call, *number), "{predicate} {number}");
    }
}

/// Takes a sample, and asserts that all calls were made, or that memory ended behind some.
fn assert_sample(rt: &impl Abort, alloc: Global, catalog: &Catalog, query: &Query)
    requires { IsQuery catalog.now query.now }
{
    let mut scorer = MemScorer::new(alloc);
    match Cards::take(alloc, catalog, query, 1, &mut scorer) {
        Ok(_) => assert_eq!(rt; scorer.calls().len(), CALLS.len()),
        Err(fault) => assert_eq!(rt; fault, SampleFault::Memory),
    }
    assert_first(rt, scorer.calls());
}

/// The same, where there is memory to make the query.
fn assert_query(rt: &impl Abort, alloc: Global, hash_keys: RandomState, catalog: &mut Catalog) {
    match query_of(alloc, hash_keys, catalog, SCRIPT) {
        Ok(query) => assert_sample(rt, alloc, catalog, &query),
        Err(fault) => assert_eq!(rt; fault, Fault::Memory),
    }
}

#[test]
fn tells_where_memory_ends(rt: HostRuntime) -> Result<(), Fail> {
    let hash_keys = RandomState::new(&rt)?;
    let mut catalog = Catalog::new(rt.alloc());
    assert_query(&rt, rt.alloc(), hash_keys, &mut catalog);
    Ok(())
}
