//! Which trees are plans of a query of two entries and one term, and the order of codes.

ghost use Rattle.std.specs.Prelude.{◌≡◌, length};
ghost use Rattle.rs_query.specs.WellFormed.{IsQuery};
ghost use Rattle.test_plans.specs.Pair.{HasPredicate};

use crate::query::{catalogue, query};
use crate::tree::Step::{self, Distinct, HashJoin, NestedJoin, Rank, RankScan, Scan, SetOperator};
use crate::tree::tree;
use rs_catalog::Catalog;
use rs_plan::{
    Plan, Signature, code_order_is_total, different_plans_have_different_codes, plans_have_numbers,
};
use rs_query::Query;
use std::alloc::Global;
use std::cmp::Ordering;
use std::process::Abort;
use std::test::Fail;

/// The steps of a tree, and whether it is a plan of the query, and of the query with DISTINCT.
type Case = (&'static [Step], bool, bool);

const CASES: [Case; 14] = [
    (&[Scan(1), Scan(2), NestedJoin, Rank(1)], true, false),
    (&[Scan(2), Scan(1), Rank(1), NestedJoin], true, false),
    (
        &[Scan(1), Scan(2), NestedJoin, Distinct, Rank(1)],
        false,
        true,
    ),
    (
        &[Scan(1), Scan(2), NestedJoin, Rank(1), Distinct],
        false,
        true,
    ),
    (&[Scan(1), Scan(2), NestedJoin], false, false),
    (&[Scan(1), Rank(1)], false, false),
    (&[Scan(1), Scan(2), Rank(1), NestedJoin], false, false),
    (
        &[Scan(1), Scan(2), NestedJoin, Rank(1), Rank(1)],
        false,
        false,
    ),
    (&[Scan(1), Scan(2), HashJoin, Rank(1)], true, false),
    (&[RankScan(1, 1, 0), Scan(2), NestedJoin], false, false),
    (
        &[Scan(1), Scan(2), NestedJoin, Scan(1), NestedJoin, Rank(1)],
        false,
        false,
    ),
    (
        &[Scan(1), Scan(2), NestedJoin, Rank(1), Scan(1), SetOperator],
        false,
        false,
    ),
    (&[Scan(0), Scan(9), NestedJoin, Rank(1)], false, false),
    (
        &[Scan(1), Scan(2), NestedJoin, Rank(0), Rank(9)],
        false,
        false,
    ),
];

/// Asserts of a tree whether it is a plan of the query.
fn assert_plan(
    rt: &impl Abort,
    alloc: Global,
    catalog: &Catalog,
    query: &Query,
    steps: &[Step],
    want: bool,
) -> Result<(), Fail>
    requires { IsQuery catalog.now query.now }
{
    let plan = tree(alloc, steps)?;
    assert_eq!(rt; plan.valid(catalog, query), want, "{steps:?}");
    Ok(())
}

/// The same of the query with DISTINCT or without.
fn assert_case(
    rt: &impl Abort,
    alloc: Global,
    catalog: &Catalog,
    steps: &[Step],
    distinct: bool,
    want: bool,
) -> Result<(), Fail>
    requires tables { length catalog.now.tables ≡ 1 }
    requires predicate { HasPredicate catalog.now }
{
    let query = query(rt, alloc, catalog, distinct)?;
    assert_plan(rt, alloc, catalog, &query, steps, want)
}

fn assert_cases(rt: &impl Abort, alloc: Global, catalog: &Catalog) -> Result<(), Fail>
    requires tables { length catalog.now.tables ≡ 1 }
    requires predicate { HasPredicate catalog.now }
{
    for (steps, plain, distinct) in &CASES {
        assert_case(rt, alloc, catalog, steps, false, *plain)?;
        assert_case(rt, alloc, catalog, steps, true, *distinct)?;
    }
    Ok(())
}

#[test]
fn tells_plans_from_other_trees(rt: HostRuntime) -> Result<(), Fail> {
    let catalog = catalogue(&rt, rt.alloc())?;
    let asserted = assert_cases(&rt, rt.alloc(), &catalog);
    drop(catalog);
    asserted
}

/// Trees in the order of their codes.
const TREES: [&[Step]; 8] = [
    &[Scan(1)],
    &[Scan(2)],
    &[RankScan(1, 2, 0)],
    &[Scan(1), Rank(1)],
    &[Scan(2), Rank(1)],
    &[Scan(1), Scan(2), HashJoin],
    &[Scan(2), Scan(1), HashJoin],
    &[Scan(1), Distinct],
];

/// Asserts how the code of a tree compares with that of a second one.
fn assert_order(
    rt: &impl Abort,
    alloc: Global,
    first: &Plan,
    second: &[Step],
    want: Ordering,
) -> Result<(), Fail> {
    let second = tree(alloc, second)?;
    assert_compared(rt, first, &second, want);
    Ok(())
}

fn assert_compared(rt: &impl Abort, first: &Plan, second: &Plan, want: Ordering) {
    assert!(rt; first.has_numbers());
    assert!(rt; second.has_numbers());
    assert_eq!(rt; first.cmp_code(second), want);
}

/// Asserts that a tree stands at this place of the order.
fn assert_place(rt: &impl Abort, alloc: Global, place: usize, steps: &[Step]) -> Result<(), Fail> {
    let first = tree(alloc, steps)?;
    assert_place_of(rt, alloc, place, &first)
}

fn assert_place_of(rt: &impl Abort, alloc: Global, place: usize, first: &Plan) -> Result<(), Fail> {
    for (other, second) in TREES.iter().enumerate() {
        assert_order(rt, alloc, first, second, place.cmp(&other))?;
    }
    Ok(())
}

#[test]
fn orders_plans_by_their_codes(rt: HostRuntime) -> Result<(), Fail> {
    for (place, steps) in TREES.iter().enumerate() {
        assert_place(&rt, rt.alloc(), place, steps)?;
    }
    Ok(())
}

fn assert_signature(rt: &impl Abort, plan: &Plan) {
    assert!(rt; plan.has_numbers());
    let signature = Signature {
        entries: 0b101,
        terms: 0b1010,
    };
    assert_eq!(rt; plan.signature(), signature);
}

#[test]
fn names_entries_and_terms(rt: HostRuntime) -> Result<(), Fail> {
    let steps = [Scan(3), RankScan(1, 4, 0), NestedJoin, Rank(2)];
    let plan = tree(rt.alloc(), &steps)?;
    assert_signature(&rt, &plan);
    Ok(())
}

#[test]
fn laws_hold_of_plans() {
    different_plans_have_different_codes();
    code_order_is_total();
    plans_have_numbers();
}
