//! What no clause says of INTERSECT and EXCEPT: rows worked by hand, and that memory is granted. The score of a row is half of
//! its number.

ghost use Rattle.std.specs.Prelude.{◌≡◌, true, false};
ghost use Rattle.test_setops.specs.Cores.{new_compared_core};

use crate::rows::{ONE_TERM, left, right, values};
use rs_rank::JoinAsk;
use rs_setop::{ExceptCore, IntersectCore};
use std::alloc::Global;
use std::process::Abort;
use std::test::Fail;

// The right side has 4 too, and may have another row of its bound.
fn assert_shared_row(rt: &impl Abort, alloc: Global, core: &mut IntersectCore) -> Result<(), Fail>
    requires { core.old ≡ new_compared_core true }
{
    core.feed_left(left(4, 2), values(alloc, 4)?)?;
    core.feed_right(right(1, 2), values(alloc, 4)?)?;
    assert_eq!(rt; core.ask(), JoinAsk::NeedRight);
    Ok(())
}

#[test]
fn intersect_asks_for_all_rows_of_an_equal_bound(rt: HostRuntime) -> Result<(), Fail> {
    let mut core = IntersectCore::new(rt.alloc(), ONE_TERM, 1);
    assert_shared_row(&rt, rt.alloc(), &mut core)
}

// The right side is empty.
fn assert_only_row(rt: &impl Abort, alloc: Global, core: &mut ExceptCore) -> Result<(), Fail>
    requires { core.old ≡ new_compared_core false }
{
    core.feed_left(left(1, 1), values(alloc, 3)?)?;
    assert_eq!(rt; core.ask(), JoinAsk::NeedRight);
    core.right_ended();
    assert_eq!(rt; core.take(), Some(left(1, 1)));
    Ok(())
}

#[test]
fn except_gives_a_row_once_the_right_side_has_ended(rt: HostRuntime) -> Result<(), Fail> {
    let mut core = ExceptCore::new(rt.alloc(), ONE_TERM, 1);
    assert_only_row(&rt, rt.alloc(), &mut core)
}
