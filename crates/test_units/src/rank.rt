//! What no clause says of rows: worked by hand.

ghost use Rattle.std.specs.Prelude.{◌==◌};

use crate::rows::assert_number;
use rs_rank::*;
use rs_value::Memory;
use std::process::Abort;
use std::test::Fail;

// Two terms of weights 1 and 2, at most 10 and 100.
const TWO_TERMS: Weights = Weights {
    weight: [1, 2, 0, 0, 0, 0, 0, 0],
    max: [10, 100, 0, 0, 0, 0, 0, 0],
};

const fn keyed(bound: u64, ids: Ids) -> Key {
    Key { bound, ids }
}

// Rows of the first and of the third entry of block 1.
const LEFT: RankRow = RankRow {
    ids: Ids {
        block: 1,
        mask: 0b001,
        rows: [5, 0, 0, 0, 0, 0],
    },
    sum: 7,
};

const RIGHT: RankRow = RankRow {
    ids: Ids {
        block: 1,
        mask: 0b100,
        rows: [0, 0, 8, 0, 0, 0],
    },
    sum: 120,
};

const BOTH: Ids = Ids {
    block: 1,
    mask: 0b101,
    rows: [5, 0, 8, 0, 0, 0],
};

// The merged row.
const MERGED: RankRow = RankRow {
    ids: BOTH,
    sum: 127,
};

// Asserts the bound and the ids of a key.
fn assert_key(rt: &impl Abort, key: &Key, want: &Key) {
    assert_eq!(rt; *key, *want);
    assert_eq!(rt; key.ids, want.ids);
}

#[test]
fn rows_are_merged(rt: HostRuntime) {
    assert_eq!(rt; LEFT.ids.merge(&RIGHT.ids), BOTH);
    assert_eq!(rt; LEFT.merge(&RIGHT), MERGED);
}

// 7 of term 1 and at most 200 of term 2; at most 10 of term 1 and 120 of term 2.
#[test]
fn rows_have_keys(rt: HostRuntime) {
    assert_key(&rt, &LEFT.key(&TWO_TERMS, 0b01), &keyed(207, LEFT.ids));
    assert_key(&rt, &RIGHT.key(&TWO_TERMS, 0b10), &keyed(130, RIGHT.ids));
}

#[test]
fn keys_are_merged(rt: HostRuntime) {
    let left = LEFT.key(&TWO_TERMS, 0b01);
    let right = RIGHT.key(&TWO_TERMS, 0b10);
    let merged = left.merge(&right, &TWO_TERMS, 0b01, 0b10);
    assert_key(&rt, &merged, &keyed(127, BOTH));
    assert_key(&rt, &merged, &MERGED.key(&TWO_TERMS, 0b11));
}

#[test]
fn a_third_term_stays_in_the_merged_bound(rt: HostRuntime) {
    let weights = Weights {
        weight: [1, 2, 3, 0, 0, 0, 0, 0],
        max: [10, 100, 1000, 0, 0, 0, 0, 0],
    };
    let left = LEFT.key(&weights, 0b001);
    let right = RIGHT.key(&weights, 0b010);
    assert_number(&rt, left.bound, 3207);
    assert_number(&rt, right.bound, 3130);
    let merged = left.merge(&right, &weights, 0b001, 0b010);
    assert_number(&rt, merged.bound, 3127);
}

// Rows match where the sums of both are equal.
#[derive(Clone, Copy)]
struct SameSum {
    calls: u64,
}

impl Matcher for SameSum {
    ghost truth = { λ _ left right. left.sum == right.sum };

    ghost calls = { λ matcher. matcher.calls };

    fn matches(&mut self, left: &RankRow, right: &RankRow) -> Result<bool, Memory> {
        self.calls = self.calls.saturating_add(1);
        Ok(left.sum == right.sum)
    }
}

// How many rows match this one.
fn count_matches<M: Matcher>(
    matcher: &mut M,
    row: &RankRow,
    others: &[RankRow],
) -> Result<u32, Memory> {
    let mut count = 0u32;
    for other in others {
        if matcher.matches(row, other)? {
            count = count.saturating_add(1);
        }
    }
    Ok(count)
}

#[test]
fn a_matcher_counts_its_calls(rt: HostRuntime) -> Result<(), Fail> {
    let mut matcher = SameSum { calls: 0 };
    let count = count_matches(&mut matcher, &LEFT, &[RIGHT, LEFT, LEFT])?;
    assert_number(&rt, u64::from(count), 2);
    assert_number(&rt, matcher.calls, 3);
    Ok(())
}
