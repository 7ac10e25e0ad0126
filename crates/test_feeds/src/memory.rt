//! A join for which memory ends at any place: checks/gate/memory.sh refuses each of its allocations.

ghost use Rattle.rs_feed.specs.MemFeed.{feed_state};
ghost use Rattle.rs_feed_join.specs.Sides.{IsDrawnOf};

use crate::joins::{LEFT, RIGHT, assert_none, feed_of};
use rs_feed::MemFeed;
use rs_feed_join::{FeedJoin, JoinFault};
use std::process::Abort;
use std::test::Fail;

/// The numbers of each pair, with the draws of both sides up to it.
const STEPS: &[(u32, u32, u64, u64)] = &[
    (2, 1, 2, 2),
    (1, 2, 4, 2),
    (3, 2, 5, 4),
    (1, 4, 5, 4),
    (4, 3, 5, 5),
    (5, 1, 5, 6),
    (3, 4, 6, 6),
];

/// The next pair is this one, or there is no memory for it, and no feed was drawn more often than it takes. Whether there was memory.
fn has_memory(
    rt: &impl Abort,
    join: &mut FeedJoin,
    left: &mut MemFeed,
    right: &mut MemFeed,
    wanted: &(u32, u32, u64, u64),
) -> bool
    requires left { IsDrawnOf join.old.broken (feed_state left.old) join.old.left }
    requires right { IsDrawnOf join.old.broken (feed_state right.old) join.old.right }
    ensures left { IsDrawnOf join.new.broken (feed_state left.new) join.new.left }
    ensures right { IsDrawnOf join.new.broken (feed_state right.new) join.new.right }
{
    match join.next(left, right) {
        Ok(Some(pair)) => {
            assert_eq!(rt; (pair.left, pair.right), (wanted.0, wanted.1));
            assert_eq!(rt; (left.draws(), right.draws()), (wanted.2, wanted.3));
            true
        }
        Err(JoinFault::Memory) => {
            assert!(rt; left.draws() <= wanted.2);
            assert!(rt; right.draws() <= wanted.3);
            false
        }
        _ => {
            assert!(rt; false);
            false
        }
    }
}

/// Gives the pairs up to where memory ends, and from there on says that it is broken, and draws nothing.
fn assert_front(rt: &impl Abort, join: &mut FeedJoin, left: &mut MemFeed, right: &mut MemFeed)
    requires left { IsDrawnOf join.old.broken (feed_state left.old) join.old.left }
    requires right { IsDrawnOf join.old.broken (feed_state right.old) join.old.right }
{
    for step in STEPS {
        let before = (left.draws(), right.draws());
        if !has_memory(rt, join, left, right, step) {
            let draws = (left.draws(), right.draws());
            assert!(rt; before.0 <= draws.0);
            assert!(rt; before.1 <= draws.1);
            assert_none(rt, join, left, right, Some(JoinFault::Broken));
            assert_eq!(rt; (left.draws(), right.draws()), draws);
            return;
        }
    }
    assert_none(rt, join, left, right, None);
}

#[test]
fn gives_a_front_where_memory_ends(rt: HostRuntime) -> Result<(), Fail> {
    let mut left = feed_of(rt.alloc(), LEFT)?;
    let mut right = feed_of(rt.alloc(), RIGHT)?;
    let mut join = FeedJoin::new(rt.alloc());
    assert_front(&rt, &mut join, &mut left, &mut right);
    Ok(())
}
