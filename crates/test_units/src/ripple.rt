//! What no clause says of the core of a rank join: rows worked by hand, and that memory is granted.

ghost use Rattle.std.specs.Prelude.{◌≡◌, ◌≤◌, IfOk, false};
ghost use Rattle.rs_ripple.specs.Ripple.{ask_of, left_for};
ghost use Rattle.test_units.specs.Joins.{core_of_three, left_key, new_core, right_key};

use crate::rows::{
    self, Higher, LEFT, RIGHT, TWO_TERMS, left as left_row, pair, right as right_row,
};
use rs_rank::{Ids, JoinAsk, Key, RankRow};
use rs_ripple::*;
use std::process::Abort;
use std::test::Fail;

// The key of a left row, by its number: the other term adds 10 at most.
const fn left(number: u32, worth: u64) -> Key
    requires { worth ≤ 10 }
    ensures { result ≡ left_key number worth }
{
    Key {
        bound: worth + 10,
        ids: Ids {
            block: 1,
            mask: 1,
            rows: [number, 0, 0, 0, 0, 0],
        },
    }
}

// The key of a right row, by its number.
const fn right(number: u32, worth: u64) -> Key
    requires { worth ≤ 10 }
    ensures { result ≡ right_key number worth }
{
    Key {
        bound: worth + 10,
        ids: Ids {
            block: 1,
            mask: 2,
            rows: [0, number, 0, 0, 0, 0],
        },
    }
}

// Asserts what the join does next.
fn assert_ask(rt: &impl Abort, core: &RippleCore, want: JoinAsk)
    requires { core.now.spent ≡ false }
{
    rows::assert_ask(rt, core.ask(), want);
}

// Asserts which pair is taken.
fn assert_taken(rt: &impl Abort, core: &mut RippleCore, want: Option<RankRow>)
    requires { core.old.spent ≡ false }
    ensures { core.new ≡ left_for (ask_of core.old) core.old }
{
    rows::assert_taken(rt, core.take(), want);
}

// Equal worths on both sides. The pair of the second left row is found first.
fn assert_a_pair_held(rt: &impl Abort, core: &mut RippleCore) -> Result<(), Fail>
    requires { core.old ≡ new_core }
    ensures { IfOk result (λ _. core.new ≡ core_of_three) }
{
    assert_ask(rt, core, JoinAsk::NeedLeft);
    core.left_drawn(left(1, 10));
    assert_ask(rt, core, JoinAsk::NeedRight);
    core.right_drawn(right(1, 9));
    assert_ask(rt, core, JoinAsk::NeedLeft);
    core.left_drawn(left(2, 8));
    core.found(pair(2, 1, 17))?;
    Ok(())
}

// Of the pairs of 17 that of the earlier left row comes first.
fn assert_the_pair_of_the_earlier_row(rt: &impl Abort, core: &mut RippleCore) -> Result<(), Fail>
    requires { core.old ≡ new_core }
{
    assert_a_pair_held(rt, core)?;
    assert_ask(rt, core, JoinAsk::NeedRight);
    assert_taken(rt, core, None);
    core.right_drawn(right(2, 7));
    core.found(pair(1, 2, 17))?;
    assert_ask(rt, core, JoinAsk::Ready);
    assert_taken(rt, core, Some(pair(1, 2, 17)));
    Ok(())
}

#[test]
fn gives_a_pair_once_none_can_precede_it(rt: HostRuntime) -> Result<(), Fail> {
    let mut core = RippleCore::new(rt.alloc(), TWO_TERMS, LEFT, RIGHT);
    assert_the_pair_of_the_earlier_row(&rt, &mut core)
}

fn assert_a_pair_at_once(rt: &impl Abort, core: &mut RippleCore) -> Result<(), Fail>
    requires { core.old ≡ new_core }
{
    core.left_drawn(left(1, 10));
    core.right_drawn(right(1, 9));
    core.found(pair(1, 1, 19))?;
    assert_taken(rt, core, Some(pair(1, 1, 19)));
    assert_ask(rt, core, JoinAsk::NeedLeft);
    Ok(())
}

#[test]
fn gives_a_pair_of_the_first_rows_at_once(rt: HostRuntime) -> Result<(), Fail> {
    let mut core = RippleCore::new(rt.alloc(), TWO_TERMS, LEFT, RIGHT);
    assert_a_pair_at_once(&rt, &mut core)
}

fn assert_what_is_left(rt: &impl Abort, core: &mut RippleCore) -> Result<(), Fail>
    requires { core.old ≡ new_core }
{
    core.left_drawn(left(1, 10));
    core.right_drawn(right(1, 9));
    core.left_ended();
    assert_ask(rt, core, JoinAsk::NeedRight);
    core.right_drawn(right(2, 4));
    core.found(pair(1, 2, 14))?;
    assert_ask(rt, core, JoinAsk::Ready);
    core.take();
    core.right_ended();
    assert_ask(rt, core, JoinAsk::End);
    assert_taken(rt, core, None);
    Ok(())
}

#[test]
fn gives_what_is_left_once_both_sides_ended(rt: HostRuntime) -> Result<(), Fail> {
    let mut core = RippleCore::new(rt.alloc(), TWO_TERMS, LEFT, RIGHT);
    assert_what_is_left(&rt, &mut core)
}

#[test]
fn ends_where_the_left_side_is_empty(rt: HostRuntime) {
    let mut core = RippleCore::new(rt.alloc(), TWO_TERMS, LEFT, RIGHT);
    core.left_ended();
    assert_ask(&rt, &core, JoinAsk::End);
}

#[test]
fn ends_where_the_right_side_is_empty(rt: HostRuntime) {
    let mut core = RippleCore::new(rt.alloc(), TWO_TERMS, LEFT, RIGHT);
    core.left_drawn(left(1, 10));
    core.right_ended();
    assert_ask(&rt, &core, JoinAsk::End);
}

// A left row matches a right one of a lesser sum.
fn assert_a_pair_tried(rt: &impl Abort, core: &mut RippleCore) -> Result<(), Fail>
    requires { core.old ≡ new_core }
{
    let mut matcher = Higher { calls: 0 };
    let key = core.left_key(&left_row(1, 10));
    core.left_drawn(key);
    let key = core.right_key(&right_row(1, 9));
    core.right_drawn(key);
    core.try_pair(&left_row(1, 10), &right_row(1, 9), &mut matcher)?;
    rows::assert_number(rt, matcher.calls, 1);
    rows::assert_taken(rt, core.take(), Some(pair(1, 1, 19)));
    core.give_up();
    Ok(())
}

#[test]
fn tries_a_pair(rt: HostRuntime) -> Result<(), Fail> {
    let mut core = RippleCore::new(rt.alloc(), TWO_TERMS, LEFT, RIGHT);
    assert_a_pair_tried(&rt, &mut core)
}

#[test]
fn laws_hold_of_the_core() {
    new_core_stands();
    left_row_is_drawn();
    right_row_is_drawn();
    side_ends();
    taken_core_stands();
    asks_of_core_are_exact();
    schedule_has_the_asks();
    ready_answers_are_certain();
    answers_rise();
}

#[test]
fn laws_hold_of_a_join_with_its_rows() {
    new_join_stands();
    standing_join_fits();
    left_row_is_fed();
    right_row_is_fed();
    side_of_join_ends();
    taken_join_stands();
}
