//! Rows that don't join, at each call of two indexes in turn. The table "left" has the numbers 4 and 2. The first index has scores up
//! to 10, the second one up to 5, and each score is the number itself.

use crate::growth::{add_index, assert_entries, assert_grown, assert_last_calls};
use crate::tables::{add_predicate, catalogue};
use rs_catalog::{Catalog, GrowFault};
use rs_expr::MemScorer;
use rs_value::Kind;
use std::alloc::Global;
use std::process::Abort;
use std::random::RandomSource;
use std::test::Fail;

const FILE: &[u8] = b"k\n4\n2\n";

/// The number of an index, a row, and what the call for it gave, where that is no score.
type Bad = (u8, u32, i64);

/// Two new rows, what is told of the first bad score, and all calls. The first index is asked for both rows, and then the second
/// one.
const BAD_SCORES: [((i64, i64), Bad, &[i64]); 6] = [
    ((11, 1), (0, 3, 11), &[11]),
    ((-1, 1), (0, 3, -1), &[-1]),
    ((1, 11), (0, 4, 11), &[1, 11]),
    ((7, 11), (0, 4, 11), &[7, 11]),
    ((7, 1), (1, 3, 7), &[7, 1, 7]),
    ((1, 7), (1, 4, 7), &[1, 7, 1, 7]),
];

/// Asserts that the catalogue is as it was before the rows: each index has the two entries, and none of a row behind.
fn assert_unchanged(rt: &impl Abort, alloc: Global, catalog: &Catalog) -> Result<(), Fail> {
    for name in ["one", "two"] {
        assert_entries(rt, alloc, catalog, name, 9, &[(4, 1), (2, 2)])?;
    }
    let sizes = catalog.sizes(alloc)?;
    assert_eq!(rt; sizes.as_slice(), [2, 2].as_slice());
    Ok(())
}

/// Asserts how many calls came, and the last of them.
fn assert_calls(rt: &impl Abort, scorer: &MemScorer, before: usize, want: &[i64]) {
    assert!(rt; before <= 1000 && want.len() <= 1000);
    assert_eq!(rt; scorer.calls().len(), before + want.len());
    assert_last_calls(rt, scorer, want);
}

/// Asserts that the first bad score is told, whichever call gives it.
fn assert_bad_scores(
    rt: &impl Abort,
    alloc: Global,
    catalog: &mut Catalog,
    scorer: &mut MemScorer,
) -> Result<(), Fail> {
    for (numbers, (index, row, got), calls) in BAD_SCORES {
        let before = scorer.calls().len();
        let bad = GrowFault::BadScore {
            index,
            row,
            got: i128::from(got),
            max: if index == 0 { 10 } else { 5 },
        };
        assert_grown(rt, alloc, catalog, numbers, scorer, Err(bad))?;
        assert_calls(rt, scorer, before, calls);
        assert_unchanged(rt, alloc, catalog)?;
    }
    Ok(())
}

/// Asserts that the index of a failing call is told, whichever call fails.
fn assert_failing(
    rt: &impl Abort,
    alloc: Global,
    catalog: &mut Catalog,
    scorer: &mut MemScorer,
) -> Result<(), Fail> {
    let calls = [1, 3, 1, 3];
    for failing in 1..=calls.len() {
        let before = scorer.calls().len();
        assert!(rt; before <= 1000 && failing <= calls.len());
        scorer.fail_at((before + failing) as u64)?;
        let failed = GrowFault::Probe {
            index: if failing <= 2 { 0 } else { 1 },
        };
        assert_grown(rt, alloc, catalog, (1, 3), scorer, Err(failed))?;
        assert_calls(rt, scorer, before, &calls[..failing]);
        assert_unchanged(rt, alloc, catalog)?;
    }
    Ok(())
}

/// The catalogue with both predicates and both indexes, in which the rows that are refused join no index and no table. Rows without
/// a fault join behind that.
fn assert_refused(
    rt: &impl Abort,
    alloc: Global,
    catalog: &mut Catalog,
    scorer: &mut MemScorer,
) -> Result<(), Fail> {
    add_predicate(rt, alloc, catalog, "q", &[Kind::Int], 5)?;
    add_index(rt, alloc, catalog, "one", "p", scorer)?;
    add_index(rt, alloc, catalog, "two", "q", scorer)?;
    assert_bad_scores(rt, alloc, catalog, scorer)?;
    assert_failing(rt, alloc, catalog, scorer)?;
    assert_grown(rt, alloc, catalog, (1, 3), scorer, Ok(()))?;
    assert_last_calls(rt, scorer, &[1, 3, 1, 3]);
    for name in ["one", "two"] {
        assert_entries(
            rt,
            alloc,
            catalog,
            name,
            4,
            &[(4, 1), (3, 4), (2, 2), (1, 3)],
        )?;
    }
    Ok(())
}

#[test]
fn no_row_joins_at_a_fault_of_any_call(rt: HostRuntime) -> Result<(), Fail> {
    let mut catalog = catalogue(&rt, rt.alloc(), &[Kind::Int], 10, (FILE, FILE))?;
    let mut scorer = MemScorer::new(rt.alloc());
    let asserted = assert_refused(&rt, rt.alloc(), &mut catalog, &mut scorer);
    drop(scorer);
    drop(catalog);
    asserted
}
