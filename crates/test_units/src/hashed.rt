//! What no clause says of the hash rank join: rows worked by hand, that the matcher is asked of rows with equal join values
//! alone, and not where these are enough, and that memory is granted.

ghost use Rattle.std.specs.Prelude.{◌≡◌, ◌∷◌, [], Bool, IfOk};
ghost use Rattle.rs_value.specs.declared.value.Value.TheVariants.{Int};
ghost use Rattle.rs_rank.specs.declared.row.RankRow.{RankRow};
ghost use Rattle.rs_ripple.specs.Joined.{Fits};
ghost use Rattle.rs_hrjn.specs.Hashed.{joined_of};
ghost use Rattle.test_units.specs.Joins.{new_hash_join};

use crate::rows::{
    Higher, LEFT, RIGHT, TWO_TERMS, assert_ask, assert_number, assert_taken, left, pair, right,
};
use rs_hrjn::Hrjn;
use rs_rank::JoinAsk;
use rs_value::Value;
use std::alloc::{AllocError, Global};
use std::process::Abort;
use std::test::Fail;

// The join values of a row with one number.
fn number(alloc: Global, number: i64) -> Result<Vec<Value>, AllocError>
    ensures { IfOk result (λ values. values.items ≡ Int number ∷ []) }
{
    Ok(vec![in alloc; Value::Int(number)]?)
}

// Both rows have the same join values. This many calls are made of the matcher.
fn assert_a_pair(
    rt: &impl Abort,
    alloc: Global,
    join: &mut Hrjn,
    exact: bool,
    calls: u64,
) -> Result<(), Fail>
    requires new { join.old ≡ new_hash_join }
    requires fits { (matches : RankRow → RankRow → Bool) → Fits matches (joined_of join.old) }
{
    let mut matcher = Higher { calls: 0 };
    join.feed_left(left(1, 10), number(alloc, 7)?, exact, &mut matcher)?;
    join.feed_right(right(1, 9), number(alloc, 7)?, exact, &mut matcher)?;
    assert_number(rt, matcher.calls, calls);
    assert_ask(rt, join.ask(), JoinAsk::Ready);
    assert_taken(rt, join.take(), Some(pair(1, 1, 19)));
    Ok(())
}

fn assert_a_pair_of_new_join(
    rt: &impl Abort,
    alloc: Global,
    exact: bool,
    calls: u64,
) -> Result<(), Fail> {
    let mut join = Hrjn::new(alloc, TWO_TERMS, LEFT, RIGHT);
    let asserted = assert_a_pair(rt, alloc, &mut join, exact, calls);
    drop(join);
    asserted
}

#[test]
fn finds_a_pair_by_its_join_values(rt: HostRuntime) -> Result<(), Fail> {
    assert_a_pair_of_new_join(&rt, rt.alloc(), false, 1)
}

#[test]
fn asks_no_matcher_where_equal_values_are_enough(rt: HostRuntime) -> Result<(), Fail> {
    assert_a_pair_of_new_join(&rt, rt.alloc(), true, 0)
}

// The rows don't match, and have other join values: the matcher isn't asked.
fn assert_no_pair(rt: &impl Abort, alloc: Global, join: &mut Hrjn) -> Result<(), Fail>
    requires new { join.old ≡ new_hash_join }
    requires fits { (matches : RankRow → RankRow → Bool) → Fits matches (joined_of join.old) }
{
    let mut matcher = Higher { calls: 0 };
    join.feed_left(left(1, 9), number(alloc, 7)?, false, &mut matcher)?;
    join.feed_right(right(1, 9), number(alloc, 8)?, false, &mut matcher)?;
    assert_number(rt, matcher.calls, 0);
    assert_ask(rt, join.ask(), JoinAsk::NeedLeft);
    Ok(())
}

#[test]
fn asks_the_matcher_of_equal_values_alone(rt: HostRuntime) -> Result<(), Fail> {
    let mut join = Hrjn::new(rt.alloc(), TWO_TERMS, LEFT, RIGHT);
    let asserted = assert_no_pair(&rt, rt.alloc(), &mut join);
    drop(join);
    asserted
}
