//! What no clause says of the nested rank join: rows worked by hand, and that memory is granted.

ghost use Rattle.std.specs.Prelude.{◌≡◌, Bool};
ghost use Rattle.rs_rank.specs.declared.row.RankRow.{RankRow};
ghost use Rattle.rs_ripple.specs.Joined.{Fits};
ghost use Rattle.test_units.specs.Joins.{new_join};

use crate::rows::{
    Higher, LEFT, RIGHT, TWO_TERMS, assert_ask, assert_number, assert_taken, left, pair, right,
};
use rs_nrjn::Nrjn;
use rs_rank::JoinAsk;
use std::process::Abort;
use std::test::Fail;

// A left row matches a right one of a lesser sum.
fn assert_a_pair(rt: &impl Abort, join: &mut Nrjn) -> Result<(), Fail>
    requires new { join.old ≡ new_join }
    requires fits { (matches : RankRow → RankRow → Bool) → Fits matches join.old }
{
    let mut matcher = Higher { calls: 0 };
    join.feed_left(left(1, 10), &mut matcher)?;
    join.feed_right(right(1, 9), &mut matcher)?;
    assert_ask(rt, join.ask(), JoinAsk::Ready);
    assert_taken(rt, join.take(), Some(pair(1, 1, 19)));
    assert_number(rt, matcher.calls, 1);
    Ok(())
}

#[test]
fn finds_a_pair(rt: HostRuntime) -> Result<(), Fail> {
    let mut join = Nrjn::new(rt.alloc(), TWO_TERMS, LEFT, RIGHT);
    assert_a_pair(&rt, &mut join)
}

fn assert_the_end(rt: &impl Abort, join: &mut Nrjn) -> Result<(), Fail>
    requires new { join.old ≡ new_join }
    requires fits { (matches : RankRow → RankRow → Bool) → Fits matches join.old }
{
    let mut matcher = Higher { calls: 0 };
    join.feed_left(left(1, 9), &mut matcher)?;
    join.feed_right(right(1, 9), &mut matcher)?;
    join.left_ended();
    assert_ask(rt, join.ask(), JoinAsk::NeedRight);
    join.right_ended();
    assert_ask(rt, join.ask(), JoinAsk::End);
    Ok(())
}

#[test]
fn ends_with_both_sides(rt: HostRuntime) -> Result<(), Fail> {
    let mut join = Nrjn::new(rt.alloc(), TWO_TERMS, LEFT, RIGHT);
    assert_the_end(&rt, &mut join)
}
