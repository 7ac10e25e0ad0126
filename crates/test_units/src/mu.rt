//! What no clause says: rows worked by hand, and that memory is granted.

ghost use Rattle.std.specs.Prelude.{◌≡◌, IfOk, false};
ghost use Rattle.rs_mu.specs.Mu.{ask_of, left_for};
ghost use Rattle.test_units.specs.Cores.{core_of_two, new_core, row_of};

use crate::rows;
use rs_mu::*;
use rs_rank::{Ask, Ids, RankRow, Weights};
use std::process::Abort;
use std::test::Fail;

// Two terms of weight 1 and at most 10; the first is evaluated below.
const TWO_TERMS: Weights = Weights {
    weight: [1, 1, 0, 0, 0, 0, 0, 0],
    max: [10, 10, 0, 0, 0, 0, 0, 0],
};

// A row of the first entry, by its number.
const fn row(number: u32, sum: u64) -> RankRow
    ensures { result ≡ row_of number sum }
{
    RankRow {
        ids: Ids {
            block: 1,
            mask: 1,
            rows: [number, 0, 0, 0, 0, 0],
        },
        sum,
    }
}

// Asserts what the operator does next.
fn assert_ask(rt: &impl Abort, core: &MuCore, want: Ask)
    requires { core.now.spent ≡ false }
{
    assert_eq!(rt; core.ask(), want);
}

// Asserts which row is taken.
fn assert_taken(rt: &impl Abort, core: &mut MuCore, want: Option<RankRow>)
    requires { core.old.spent ≡ false }
    ensures { core.new ≡ left_for (ask_of core.old) core.old }
{
    rows::assert_taken(rt, core.take(), want);
}

// Feeds two rows, of which the second one is to come first.
fn feed_two(rt: &impl Abort, core: &mut MuCore) -> Result<(), Fail>
    requires { core.old ≡ new_core }
    ensures { IfOk result (λ _. core.new ≡ core_of_two) }
{
    assert_ask(rt, core, Ask::Need);
    core.feed(row(1, 10), 3)?;
    assert_ask(rt, core, Ask::Need);
    core.feed(row(2, 8), 9)?;
    Ok(())
}

// Feeds them and a third row, behind which none to come can precede the second one.
fn assert_the_second_row(rt: &impl Abort, core: &mut MuCore) -> Result<(), Fail>
    requires { core.old ≡ new_core }
{
    feed_two(rt, core)?;
    assert_ask(rt, core, Ask::Need);
    core.feed(row(3, 5), 1)?;
    assert_ask(rt, core, Ask::Ready);
    assert_taken(rt, core, Some(row(2, 17)));
    assert_ask(rt, core, Ask::Need);
    assert_taken(rt, core, None);
    Ok(())
}

#[test]
fn gives_a_row_once_none_can_precede_it(rt: HostRuntime) -> Result<(), Fail> {
    let mut core = MuCore::new(rt.alloc(), TWO_TERMS, 1, 2);
    assert_the_second_row(&rt, &mut core)
}

// Feeds a row whose worth is the greatest, and one that waits for the end.
fn assert_a_row_at_once(rt: &impl Abort, core: &mut MuCore) -> Result<(), Fail>
    requires { core.old ≡ new_core }
{
    core.feed(row(1, 10), 10)?;
    assert_ask(rt, core, Ask::Ready);
    assert_taken(rt, core, Some(row(1, 20)));
    core.feed(row(2, 8), 9)?;
    assert_ask(rt, core, Ask::Need);
    core.feed_end();
    assert_ask(rt, core, Ask::Ready);
    assert_taken(rt, core, Some(row(2, 17)));
    assert_ask(rt, core, Ask::End);
    assert_taken(rt, core, None);
    Ok(())
}

#[test]
fn gives_a_row_whose_key_stays_at_once(rt: HostRuntime) -> Result<(), Fail> {
    let mut core = MuCore::new(rt.alloc(), TWO_TERMS, 1, 2);
    assert_a_row_at_once(&rt, &mut core)
}

#[test]
fn laws_hold_of_the_core() {
    new_core_stands();
    fed_core_stands();
    ended_core_stands();
    taken_core_stands();
    asks_of_core_are_exact();
    ready_answers_are_certain();
    asks_grow_with_answers();
    answers_can_be_input();
}
