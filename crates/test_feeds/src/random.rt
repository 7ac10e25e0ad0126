//! Joins of random feeds, with many equal scores and with scores that rise: what they give, and how often each feed was drawn.

ghost use Rattle.std.specs.Prelude.{◌≡◌};
ghost use Rattle.rs_feed.specs.MemFeed.{feed_state};
ghost use Rattle.rs_feed_join.specs.Sides.{IsDrawnOf};

use crate::cases::{FALLING, OTHERS, RISING};
use crate::joins::feed_of;
use rs_feed::MemFeed;
use rs_feed_join::{FeedJoin, JoinFault};
use std::alloc::Global;
use std::process::Abort;
use std::test::Fail;

/// The texts and the scores of a feed.
type Rows = &'static [(&'static str, u32)];

/// The numbers of each pair, with the draws of both sides up to it.
type Pairs = &'static [(u32, u32, u64, u64)];

/// Why a join stops: the side, the row, the score in front of it and its own, or nothing but zeros at the end.
type Stop = (u8, u32, u32, u32);

/// Both feeds, the pairs, why the join stops, and the draws up to there.
pub(crate) type Case = (Rows, Rows, Pairs, Stop, (u64, u64));

fn stop_of(fault: JoinFault) -> Option<Stop> {
    match fault {
        JoinFault::OutOfOrder {
            side,
            row,
            before,
            got,
        } => Some((side, row, before, got)),
        _ => None,
    }
}

fn assert_pair(
    rt: &impl Abort,
    join: &mut FeedJoin,
    left: &mut MemFeed,
    right: &mut MemFeed,
    wanted: &(u32, u32, u64, u64),
)
    requires left { IsDrawnOf join.old.broken (feed_state left.old) join.old.left }
    requires right { IsDrawnOf join.old.broken (feed_state right.old) join.old.right }
    ensures left { IsDrawnOf join.new.broken (feed_state left.new) join.new.left }
    ensures right { IsDrawnOf join.new.broken (feed_state right.new) join.new.right }
{
    match join.next(left, right) {
        Ok(Some(pair)) => assert_eq!(rt; (pair.left, pair.right), (wanted.0, wanted.1)),
        _ => assert!(rt; false),
    }
    assert_eq!(rt; (left.draws(), right.draws()), (wanted.2, wanted.3));
}

fn assert_stop(
    rt: &impl Abort,
    join: &mut FeedJoin,
    left: &mut MemFeed,
    right: &mut MemFeed,
    wanted: Stop,
)
    requires left { IsDrawnOf join.old.broken (feed_state left.old) join.old.left }
    requires right { IsDrawnOf join.old.broken (feed_state right.old) join.old.right }
    ensures left { IsDrawnOf join.new.broken (feed_state left.new) join.new.left }
    ensures right { IsDrawnOf join.new.broken (feed_state right.new) join.new.right }
{
    match join.next(left, right) {
        Ok(Some(_)) => assert!(rt; false),
        Ok(None) => assert_eq!(rt; wanted, (0, 0, 0, 0)),
        Err(fault) => assert_eq!(rt; stop_of(fault), Some(wanted)),
    }
}

fn assert_case(rt: &impl Abort, alloc: Global, case: &Case) -> Result<(), Fail> {
    let mut left = feed_of(alloc, case.0)?;
    let mut right = feed_of(alloc, case.1)?;
    let mut join = FeedJoin::new(alloc);
    for pair in case.2 {
        assert_pair(rt, &mut join, &mut left, &mut right, pair);
    }
    assert_stop(rt, &mut join, &mut left, &mut right, case.3);
    assert_eq!(rt; (left.draws(), right.draws()), case.4);
    Ok(())
}

#[test]
fn feeds_that_fall_are_joined(rt: HostRuntime) -> Result<(), Fail> {
    for case in FALLING {
        assert_case(&rt, rt.alloc(), case)?;
    }
    Ok(())
}

#[test]
fn feeds_that_rise_are_joined_up_to_there(rt: HostRuntime) -> Result<(), Fail> {
    for case in RISING {
        assert_case(&rt, rt.alloc(), case)?;
    }
    Ok(())
}

#[test]
fn other_feeds_that_rise_are_joined_up_to_there(rt: HostRuntime) -> Result<(), Fail> {
    for case in OTHERS {
        assert_case(&rt, rt.alloc(), case)?;
    }
    Ok(())
}
