//! Joins of feeds worked by hand: their pairs, and how often each feed was drawn.

ghost use Rattle.std.specs.Prelude.{◌≡◌, IfOk, false};
ghost use Rattle.rs_feed_join.specs.Sides.{IsDrawnOf, new_side};
ghost use Rattle.rs_feed.specs.MemFeed.{feed_state};

use rs_feed::{Feed, MemFeed};
use rs_feed_join::{FeedJoin, JoinFault};
use rs_value::Text;
use std::alloc::Global;
use std::process::Abort;
use std::test::Fail;

// The left and the right number, the text, and both scores of each pair.
type Pairs = &'static [(u32, u32, &'static str, u32, u32)];

pub(crate) const LEFT: &[(&str, u32)] = &[("a", 9), ("b", 8), ("a", 7), ("c", 5), ("b", 1)];

pub(crate) const RIGHT: &[(&str, u32)] = &[("b", 9), ("a", 6), ("c", 6), ("a", 2), ("d", 1)];

// The third score rises.
const RISING: &[(&str, u32)] = &[("b", 9), ("a", 6), ("c", 7)];

const PAIRS: Pairs = &[
    (2, 1, "b", 8, 9),
    (1, 2, "a", 9, 6),
    (3, 2, "a", 7, 6),
    (1, 4, "a", 9, 2),
    (4, 3, "c", 5, 6),
    (5, 1, "b", 1, 9),
    (3, 4, "a", 7, 2),
];

pub(crate) fn feed_of(alloc: Global, rows: &[(&str, u32)]) -> Result<MemFeed, Fail>
    ensures { IfOk result (λ feed. IsDrawnOf false (feed_state feed) new_side) }
{
    let mut feed = MemFeed::new(alloc);
    for (join, score) in rows {
        let join = Text::from_bytes(alloc, join.as_bytes())?;
        feed.add(join, *score)?;
    }
    Ok(feed)
}

/// So many rows with the text "a" and the score 5, and one more with this score.
fn long_feed(alloc: Global, rows: u32, last: u32) -> Result<MemFeed, Fail>
    ensures { IfOk result (λ feed. IsDrawnOf false (feed_state feed) new_side) }
{
    let mut feed = MemFeed::new(alloc);
    for _row in 0..rows {
        let join = Text::from_bytes(alloc, b"a")?;
        feed.add(join, 5)?;
    }
    let join = Text::from_bytes(alloc, b"a")?;
    feed.add(join, last)?;
    Ok(feed)
}

fn assert_pair<L: Feed, R: Feed>(
    rt: &impl Abort,
    join: &mut FeedJoin,
    left: &mut L,
    right: &mut R,
    wanted: &(u32, u32, &str, u32, u32),
)
    requires left { IsDrawnOf join.old.broken (L.state left.old) join.old.left }
    requires right { IsDrawnOf join.old.broken (R.state right.old) join.old.right }
    ensures left { IsDrawnOf join.new.broken (L.state left.new) join.new.left }
    ensures right { IsDrawnOf join.new.broken (R.state right.new) join.new.right }
{
    match join.next(left, right) {
        Ok(Some(pair)) => {
            assert_eq!(rt; pair.left, wanted.0);
            assert_eq!(rt; pair.right, wanted.1);
            assert_eq!(rt; pair.join.as_str(), wanted.2);
            assert_eq!(rt; pair.left_score, wanted.3);
            assert_eq!(rt; pair.right_score, wanted.4);
        }
        _ => assert!(rt; false),
    }
}

fn assert_pairs<L: Feed, R: Feed>(
    rt: &impl Abort,
    join: &mut FeedJoin,
    left: &mut L,
    right: &mut R,
    wanted: Pairs,
)
    requires left { IsDrawnOf join.old.broken (L.state left.old) join.old.left }
    requires right { IsDrawnOf join.old.broken (R.state right.old) join.old.right }
    ensures left { IsDrawnOf join.new.broken (L.state left.new) join.new.left }
    ensures right { IsDrawnOf join.new.broken (R.state right.new) join.new.right }
{
    for pair in wanted {
        assert_pair(rt, join, left, right, pair);
    }
}

pub(crate) fn assert_none<L: Feed, R: Feed>(
    rt: &impl Abort,
    join: &mut FeedJoin,
    left: &mut L,
    right: &mut R,
    wanted: Option<JoinFault>,
)
    requires left { IsDrawnOf join.old.broken (L.state left.old) join.old.left }
    requires right { IsDrawnOf join.old.broken (R.state right.old) join.old.right }
    ensures left { IsDrawnOf join.new.broken (L.state left.new) join.new.left }
    ensures right { IsDrawnOf join.new.broken (R.state right.new) join.new.right }
{
    match join.next(left, right) {
        Ok(Some(_)) => assert!(rt; false),
        Ok(None) => assert_eq!(rt; None, wanted),
        Err(fault) => assert_eq!(rt; Some(fault), wanted),
    }
}

// What is left of the pairs isn't asked for, and no row that only those take is drawn.
#[test]
fn draws_no_row_too_many(rt: HostRuntime) -> Result<(), Fail> {
    let mut left = feed_of(rt.alloc(), LEFT)?;
    let mut right = feed_of(rt.alloc(), RIGHT)?;
    let mut join = FeedJoin::new(rt.alloc());
    assert_eq!(rt; (left.draws(), right.draws()), (0, 0));
    assert_pairs(&rt, &mut join, &mut left, &mut right, &PAIRS[..1]);
    assert_eq!(rt; (left.draws(), right.draws()), (2, 2));
    assert_pairs(&rt, &mut join, &mut left, &mut right, &PAIRS[1..2]);
    assert_eq!(rt; (left.draws(), right.draws()), (4, 2));
    assert_pairs(&rt, &mut join, &mut left, &mut right, &PAIRS[2..]);
    assert_none(&rt, &mut join, &mut left, &mut right, None);
    assert_none(&rt, &mut join, &mut left, &mut right, None);
    assert_eq!(rt; (left.draws(), right.draws()), (6, 6));
    Ok(())
}

// At equal bounds the numbers of the rows decide: a third right row could not precede this pair, but the second can.
#[test]
fn looks_at_numbers_where_bounds_are_equal(rt: HostRuntime) -> Result<(), Fail> {
    let mut left = feed_of(rt.alloc(), &[("a", 3), ("b", 2)])?;
    let mut right = feed_of(rt.alloc(), &[("b", 3), ("b", 2)])?;
    let mut join = FeedJoin::new(rt.alloc());
    assert_pairs(&rt, &mut join, &mut left, &mut right, &[(2, 1, "b", 2, 3)]);
    assert_eq!(rt; (left.draws(), right.draws()), (2, 3));
    Ok(())
}

// A score that rises is found once its row is drawn, and no sooner.
#[test]
fn refuses_a_row_out_of_order(rt: HostRuntime) -> Result<(), Fail> {
    let mut left = feed_of(rt.alloc(), LEFT)?;
    let mut right = feed_of(rt.alloc(), RISING)?;
    let mut join = FeedJoin::new(rt.alloc());
    assert_pairs(&rt, &mut join, &mut left, &mut right, &PAIRS[..2]);
    assert_eq!(rt; (left.draws(), right.draws()), (4, 2));
    let refused = JoinFault::OutOfOrder {
        side: 2,
        row: 3,
        before: 6,
        got: 7,
    };
    assert_none(&rt, &mut join, &mut left, &mut right, Some(refused));
    let draws = (left.draws(), right.draws());
    assert_none(
        &rt,
        &mut join,
        &mut left,
        &mut right,
        Some(JoinFault::Broken),
    );
    assert_eq!(rt; (left.draws(), right.draws()), draws);
    Ok(())
}

// The third draw of the left feed fails behind the first pair.
#[test]
fn breaks_off_where_a_draw_fails(rt: HostRuntime) -> Result<(), Fail> {
    let mut left = feed_of(rt.alloc(), LEFT)?;
    left.fail_at(3)?;
    let mut right = feed_of(rt.alloc(), RIGHT)?;
    let mut join = FeedJoin::new(rt.alloc());
    assert_pairs(&rt, &mut join, &mut left, &mut right, &PAIRS[..1]);
    assert_none(
        &rt,
        &mut join,
        &mut left,
        &mut right,
        Some(JoinFault::Failed { side: 1 }),
    );
    assert_eq!(rt; (left.draws(), right.draws()), (3, 2));
    assert_none(
        &rt,
        &mut join,
        &mut left,
        &mut right,
        Some(JoinFault::Broken),
    );
    assert_eq!(rt; (left.draws(), right.draws()), (3, 2));
    Ok(())
}

// A feed that has as many rows as a join takes is drawn to its end.
#[test]
fn takes_all_rows_of_a_long_feed(rt: HostRuntime) -> Result<(), Fail> {
    let mut left = long_feed(rt.alloc(), 131_071, 5)?;
    let mut right = feed_of(rt.alloc(), &[("b", 5)])?;
    let mut join = FeedJoin::new(rt.alloc());
    assert_none(&rt, &mut join, &mut left, &mut right, None);
    assert_eq!(rt; (left.draws(), right.draws()), (131_073, 2));
    Ok(())
}

// One that has a row more is too long, even where the score of that row rises.
#[test]
fn refuses_a_row_too_many(rt: HostRuntime) -> Result<(), Fail> {
    let mut left = long_feed(rt.alloc(), 131_072, 6)?;
    let mut right = feed_of(rt.alloc(), &[("b", 5)])?;
    let mut join = FeedJoin::new(rt.alloc());
    assert_none(
        &rt,
        &mut join,
        &mut left,
        &mut right,
        Some(JoinFault::TooLong { side: 1 }),
    );
    assert_eq!(rt; (left.draws(), right.draws()), (131_073, 2));
    assert_none(
        &rt,
        &mut join,
        &mut left,
        &mut right,
        Some(JoinFault::Broken),
    );
    assert_eq!(rt; (left.draws(), right.draws()), (131_073, 2));
    Ok(())
}
