//! What no clause says of UNION ALL and UNION: rows worked by hand, and that memory is granted.

ghost use Rattle.std.specs.Prelude.{◌≡◌, false, true};
ghost use Rattle.test_setops.specs.Cores.{new_union_core};

use crate::rows::{ONE_TERM, left, right, values};
use rs_setop::{UnionAllCore, UnionCore};
use std::alloc::Global;
use std::process::Abort;
use std::test::Fail;

// Both rows have 2.
fn assert_both_rows(rt: &impl Abort, alloc: Global, core: &mut UnionAllCore) -> Result<(), Fail>
    requires { core.old ≡ new_union_core false }
{
    core.feed_left(left(1, 1), values(alloc, 2)?)?;
    core.feed_right(right(1, 1), values(alloc, 2)?)?;
    assert_eq!(rt; core.take(), Some(left(1, 1)));
    Ok(())
}

#[test]
fn union_all_gives_the_left_row_first(rt: HostRuntime) -> Result<(), Fail> {
    let mut core = UnionAllCore::new(rt.alloc(), ONE_TERM, 1);
    assert_both_rows(&rt, rt.alloc(), &mut core)
}

// The left row of 2 is taken first, and then the next left row is needed.
fn assert_left_row(rt: &impl Abort, alloc: Global, core: &mut UnionCore) -> Result<(), Fail>
    requires { core.old ≡ new_union_core true }
{
    core.feed_left(left(1, 1), values(alloc, 2)?)?;
    core.feed_right(right(1, 1), values(alloc, 2)?)?;
    assert_eq!(rt; core.take(), Some(left(1, 1)));
    Ok(())
}

#[test]
fn union_gives_the_left_row_of_equal_values(rt: HostRuntime) -> Result<(), Fail> {
    let mut core = UnionCore::new(rt.alloc(), ONE_TERM, 1);
    assert_left_row(&rt, rt.alloc(), &mut core)
}
