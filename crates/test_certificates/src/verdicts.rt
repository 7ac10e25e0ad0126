//! Certificates worked by hand, and what a check says of them.

use rs_cert::{Cert, CertSide, Verdict, check};
use rs_feed::FeedRow;
use rs_value::{List, Text};
use std::alloc::Global;
use std::process::Abort;
use std::test::Fail;

// The text and the score of each row that was drawn of a side.
const LEFT: &[(&str, u32)] = &[("a", 9), ("b", 8)];

const RIGHT: &[(&str, u32)] = &[("b", 9), ("a", 6)];

fn side_of(alloc: Global, rows: &[(&str, u32)], ended: bool) -> Result<CertSide, Fail> {
    let mut made = Vec::new(alloc);
    for (join, score) in rows {
        let join = Text::from_bytes(alloc, join.as_bytes())?;
        made.push(FeedRow {
            join,
            score: *score,
        })?;
    }
    Ok(CertSide {
        rows: List::of(made),
        ended,
    })
}

fn pairs_of(alloc: Global, pairs: &[(u32, u32)]) -> Result<List<(u32, u32)>, Fail> {
    let mut made = Vec::new(alloc);
    for pair in pairs {
        made.push(*pair)?;
    }
    Ok(List::of(made))
}

fn assert_verdict(
    rt: &impl Abort,
    alloc: Global,
    cert: &Cert,
    wanted: Verdict,
) -> Result<(), Fail> {
    if cert.left.rows.len() < 10 && cert.right.rows.len() < 10 {
        assert_eq!(rt; check(alloc, cert)?, wanted);
        return Ok(());
    }
    assert!(rt; false);
    Ok(())
}

fn assert_check(
    rt: &impl Abort,
    alloc: Global,
    k: u32,
    left: &[(&str, u32)],
    right: &[(&str, u32)],
    pairs: &[(u32, u32)],
    wanted: Verdict,
) -> Result<(), Fail> {
    let pairs = pairs_of(alloc, pairs)?;
    let left = side_of(alloc, left, false)?;
    let right = side_of(alloc, right, false)?;
    let cert = Cert {
        k,
        left,
        right,
        pairs,
    };
    assert_verdict(rt, alloc, &cert, wanted)
}

// The first pair is proved by the rows that were drawn of both sides. With a row less of one side, a row of the other text could come
// whose pair has a greater sum.
#[test]
fn looks_at_what_can_come(rt: HostRuntime) -> Result<(), Fail> {
    let alloc = rt.alloc();
    assert_check(&rt, alloc, 1, LEFT, RIGHT, &[(2, 1)], Verdict::Yes)?;
    assert_check(&rt, alloc, 1, LEFT, &[("b", 9)], &[(2, 1)], Verdict::Right)?;
    assert_check(&rt, alloc, 1, &[("a", 9)], RIGHT, &[(1, 2)], Verdict::Left)
}

#[test]
fn looks_at_the_pairs(rt: HostRuntime) -> Result<(), Fail> {
    let alloc = rt.alloc();
    assert_check(&rt, alloc, 1, LEFT, RIGHT, &[(1, 1)], Verdict::Pairs)?;
    assert_check(&rt, alloc, 1, LEFT, RIGHT, &[(1, 2)], Verdict::Pairs)?;
    assert_check(
        &rt,
        alloc,
        1,
        LEFT,
        RIGHT,
        &[(2, 1), (1, 2)],
        Verdict::Pairs,
    )?;
    assert_check(&rt, alloc, 2, LEFT, RIGHT, &[(2, 1)], Verdict::Short)
}

#[test]
fn looks_at_the_order_of_rows(rt: HostRuntime) -> Result<(), Fail> {
    let alloc = rt.alloc();
    let rising = &[("a", 6), ("b", 6), ("b", 9)];
    assert_check(
        &rt,
        alloc,
        1,
        rising,
        rising,
        &[(1, 1)],
        Verdict::Order { side: 1, row: 3 },
    )?;
    assert_check(
        &rt,
        alloc,
        1,
        LEFT,
        rising,
        &[(1, 1)],
        Verdict::Order { side: 2, row: 3 },
    )
}
