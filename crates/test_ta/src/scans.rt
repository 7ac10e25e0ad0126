//! Scans over lists worked by hand: which rows come, how deep the scan goes, and how many accesses the lists had.

ghost use Rattle.std.specs.Prelude.{◌≡◌, IfOk, OnOk};
ghost use Rattle.rs_ta.specs.MemLists.{scored_lists};
ghost use Rattle.test_ta.specs.Asked.{AreScanned, CanBeAsked, lists_of};
ghost use Rattle.test_ta.specs.Holding.{holds_for};

use rs_rank::Weights;
use rs_ta::{Lookup, MemLists, RowTest, ThresholdScan, new_scan_stands};
use rs_value::Memory;
use std::alloc::Global;
use std::process::Abort;
use std::test::Fail;

/// Holds for one row, or for all where there is none.
#[derive(Clone, Copy)]
struct OneRow {
    rows: u32,
    row: Option<u32>,
}

impl RowTest for OneRow {
    ghost rows = { λ test. test.rows };

    ghost truth = { λ test row. holds_for test.row row };

    fn holds(&self, row: u32) -> Result<bool, Memory> {
        Ok(match self.row {
            Some(one) => row == one,
            None => true,
        })
    }
}

/// What an ask is to give: the row and its sum, the depth, and the sums of sorted and of random accesses.
type Wanted = (Option<(u32, u64)>, u32, u64, u64);

/// Of the rows (0, 4, 1), (2, 1, 1), (2, 1, 1), (4, 5, 0), (0, 4, 3) each number is a list.
const FIVE_ROWS: [[(u32, u32); 5]; 3] = [
    [(4, 4), (2, 2), (2, 3), (0, 1), (0, 5)],
    [(5, 4), (4, 1), (4, 5), (1, 2), (1, 3)],
    [(3, 5), (1, 1), (1, 2), (1, 3), (0, 4)],
];

/// Of the rows (10, 3), (8, 9), (5, 1), (2, 10) each number is a list.
const FOUR_ROWS: [[(u32, u32); 4]; 2] = [
    [(10, 1), (8, 2), (5, 3), (2, 4)],
    [(10, 4), (9, 2), (3, 1), (1, 3)],
];

/// What all rows of the five take: row by row in the order in which they are shown first, and list by list.
const FIVE_LOOKUPS: [Lookup; 10] = [
    Lookup { row: 4, list: 2 },
    Lookup { row: 4, list: 3 },
    Lookup { row: 5, list: 1 },
    Lookup { row: 5, list: 2 },
    Lookup { row: 2, list: 2 },
    Lookup { row: 2, list: 3 },
    Lookup { row: 1, list: 1 },
    Lookup { row: 1, list: 3 },
    Lookup { row: 3, list: 2 },
    Lookup { row: 3, list: 3 },
];

/// And of the four.
const FOUR_LOOKUPS: [Lookup; 4] = [
    Lookup { row: 1, list: 2 },
    Lookup { row: 4, list: 1 },
    Lookup { row: 2, list: 2 },
    Lookup { row: 3, list: 2 },
];

const NO_ROWS: [[(u32, u32); 0]; 1] = [[]];

const ONES: Weights = Weights {
    weight: [1, 1, 1, 0, 0, 0, 0, 0],
    max: [10, 10, 10, 0, 0, 0, 0, 0],
};

const ONE_AND_THREE: Weights = Weights {
    weight: [1, 3, 0, 0, 0, 0, 0, 0],
    max: [10, 10, 0, 0, 0, 0, 0, 0],
};

fn vectors_of<const N: usize>(
    alloc: Global,
    lists: &[[(u32, u32); N]],
) -> Result<Vec<Vec<(u32, u32)>>, Memory>
    ensures { IfOk result (λ made. scored_lists made.items ≡ lists_of lists.now) }
{
    let mut made = Vec::new(alloc);
    for list in lists {
        made.push(list.to_vec(alloc)?)?;
    }
    Ok(made)
}

/// Asks once.
fn assert_next(
    rt: &impl Abort,
    scan: &mut ThresholdScan,
    test: &OneRow,
    lists: &mut MemLists,
    wanted: &Wanted,
) -> Result<(), Memory>
    requires { CanBeAsked scan.old lists.old test.now.rows (holds_for test.now.row) }
    ensures { OnOk result (CanBeAsked scan.new lists.new test.now.rows (holds_for test.now.row)) }
{
    let (row, depth, sorted, random) = *wanted;
    let given = scan.next(test, lists)?;
    assert_eq!(rt; given.map(|given| (given.ids.rows[0], given.sum)), row);
    assert_eq!(rt; scan.depth(), depth);
    assert_eq!(rt; lists.counts(), (sorted, random));
    Ok(())
}

/// The random accesses so far, one after another.
fn assert_told(rt: &impl Abort, lists: &MemLists, wanted: &[Lookup]) {
    match lists.told() {
        Some(told) => assert_eq!(rt; told, wanted),
        None => {}
    }
}

/// Asks for one row after another, and looks at the random accesses that this took.
fn assert_gives<const N: usize>(
    rt: &impl Abort,
    alloc: Global,
    weights: Weights,
    test: &OneRow,
    lists: &[[(u32, u32); N]],
    wanted: &[Wanted],
    told: &[Lookup],
) -> Result<(), Fail>
    requires { AreScanned weights test.now.rows (lists_of lists.now) }
{
    let mut lists = MemLists::new(alloc, vectors_of(alloc, lists)?);
    let mut scan = ThresholdScan::new(alloc, weights, 1, 1);
    new_scan_stands();
    for wanted in wanted {
        assert_next(rt, &mut scan, test, &mut lists, wanted)?;
    }
    assert_told(rt, &lists, told);
    Ok(())
}

#[test]
fn decides_equal_bounds_by_the_greatest_row(rt: HostRuntime) -> Result<(), Fail> {
    let test = OneRow { rows: 5, row: None };
    let wanted = [
        (Some((4, 9)), 2, 6, 8),
        (Some((5, 7)), 3, 9, 10),
        (Some((1, 5)), 4, 12, 10),
        (Some((2, 4)), 4, 12, 10),
        (Some((3, 4)), 4, 12, 10),
        (None, 5, 15, 10),
        (None, 5, 15, 10),
    ];
    assert_gives(
        &rt,
        rt.alloc(),
        ONES,
        &test,
        &FIVE_ROWS,
        &wanted,
        &FIVE_LOOKUPS,
    )
}

#[test]
fn gives_all_rows_of_two_lists(rt: HostRuntime) -> Result<(), Fail> {
    let test = OneRow { rows: 4, row: None };
    let wanted = [
        (Some((2, 17)), 2, 4, 3),
        (Some((1, 13)), 3, 6, 4),
        (Some((4, 12)), 3, 6, 4),
        (Some((3, 6)), 4, 8, 4),
        (None, 4, 8, 4),
    ];
    assert_gives(
        &rt,
        rt.alloc(),
        ONES,
        &test,
        &FOUR_ROWS,
        &wanted,
        &FOUR_LOOKUPS,
    )
}

#[test]
fn adds_the_scores_by_their_weights(rt: HostRuntime) -> Result<(), Fail> {
    let test = OneRow { rows: 4, row: None };
    let wanted = [
        (Some((2, 35)), 2, 4, 3),
        (Some((4, 32)), 3, 6, 4),
        (Some((1, 19)), 3, 6, 4),
        (Some((3, 8)), 4, 8, 4),
        (None, 4, 8, 4),
    ];
    assert_gives(
        &rt,
        rt.alloc(),
        ONE_AND_THREE,
        &test,
        &FOUR_ROWS,
        &wanted,
        &FOUR_LOOKUPS,
    )
}

#[test]
fn looks_rows_up_that_fail_the_test(rt: HostRuntime) -> Result<(), Fail> {
    let test = OneRow {
        rows: 4,
        row: Some(2),
    };
    let wanted = [(Some((2, 17)), 2, 4, 3), (None, 4, 8, 4)];
    assert_gives(
        &rt,
        rt.alloc(),
        ONES,
        &test,
        &FOUR_ROWS,
        &wanted,
        &FOUR_LOOKUPS,
    )
}

#[test]
fn ends_at_once_over_no_rows(rt: HostRuntime) -> Result<(), Fail> {
    let test = OneRow { rows: 0, row: None };
    assert_gives(
        &rt,
        rt.alloc(),
        ONES,
        &test,
        &NO_ROWS,
        &[(None, 0, 0, 0)],
        &[],
    )
}
