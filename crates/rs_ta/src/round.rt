ghost use Rattle.std.specs.Prelude.{◌≡◌, ◌-◌, IfOk, OnErr, OnOk, suc};
ghost use Rattle.rs_ta.specs.Lists.{AreSame};
ghost use Rattle.rs_ta.specs.Depths.{depth};
ghost use Rattle.rs_ta.specs.Rounds.{Advanced, AreBetween, CanAdvance, CanSee, IsInput, Rounded, Saw, WasRefused, input_with, shown_by};
ghost use Rattle.rs_ta.specs.Scans.{AreAccessedWithin, AreLookedUpWithin};

use crate::lists::Lists;
use crate::lookup::sum_of;
use crate::row_test::RowTest;
use crate::seen_rows::SeenRows;
use crate::terms::{ScanTerms, greater, share};
use rs_rank::Key;
use rs_value::Memory;

/// Goes on, round by round, until the first row held comes at or before the last threshold, or the lists end.
pub(crate) fn advance<T: RowTest, L: Lists>(
    terms: &ScanTerms,
    rows: &mut SeenRows,
    last: &mut Option<Key>,
    test: &T,
    lists: &mut L,
) -> Result<(), Memory>
    requires input { IsInput (input_with terms.now (L.state lists.old) (T.truth test.now)) (T.rows test.now) }
    requires can { CanAdvance (input_with terms.now (L.state lists.old) (T.truth test.now)) rows.old last.old (L.state lists.old) }
    ensures lists { (L.state lists.new).lists ≡ (L.state lists.old).lists }
    ensures ok { OnOk result (Advanced (input_with terms.now (L.state lists.old) (T.truth test.now)) rows.old rows.new last.new (L.state lists.new)) }
    ensures err { OnErr result (let i = input_with terms.now (L.state lists.old) (T.truth test.now) in
        AreAccessedWithin i rows.old.rounds (depth i (suc rows.old.given)) (L.state lists.new)) }
{
    while !rows.is_reached(last) {
        match round(terms, rows, test, lists)? {
            Some(key) => *last = Some(key),
            None => return Ok(()),
        }
    }
    Ok(())
}

/// One sorted access of each list, in order, and what its row takes. The answer is the threshold of the place; at the end of the lists
/// there is none.
pub(crate) fn round<T: RowTest, L: Lists>(
    terms: &ScanTerms,
    rows: &mut SeenRows,
    test: &T,
    lists: &mut L,
) -> Result<Option<Key>, Memory>
    requires input { IsInput (input_with terms.now (L.state lists.old) (T.truth test.now)) (T.rows test.now) }
    requires between { AreBetween (input_with terms.now (L.state lists.old) (T.truth test.now)) rows.old (L.state lists.old) }
    ensures lists { (L.state lists.new).lists ≡ (L.state lists.old).lists }
    ensures ok { IfOk result (λ key. Rounded (input_with terms.now (L.state lists.old) (T.truth test.now)) rows.old rows.new (L.state lists.new) key) }
    ensures err { OnErr result (WasRefused (input_with terms.now (L.state lists.old) (T.truth test.now)) rows.old.rounds (L.state lists.new)) }
{
    let mut bound = 0;
    let mut greatest = 0;
    for place in 0..lists.lists() {
        match lists.sorted(place + 1) {
            Some((score, row)) => {
                see(terms, rows, test, lists, place + 1, row, score)?;
                bound += share(terms.weights.weight[usize::from(place)], score);
                greatest = greater(row, greatest);
            }
            None => return Ok(None),
        }
    }
    rows.end_round();
    Ok(Some(terms.key(bound, greatest)))
}

/// What a row takes that a list shows with this score: one that is new is looked up in all other lists, and held where the test holds
/// for it.
fn see<T: RowTest, L: Lists>(
    terms: &ScanTerms,
    rows: &mut SeenRows,
    test: &T,
    lists: &mut L,
    list: u8,
    row: u32,
    score: u32,
) -> Result<(), Memory>
    requires { CanSee (input_with terms.now (L.state lists.old) (T.truth test.now)) (T.rows test.now) list row score rows.old (L.state lists.old) }
    ensures lists { (L.state lists.new).lists ≡ (L.state lists.old).lists }
    ensures sorted { AreSame (L.state lists.old).lists (L.state lists.old).sorted_count (L.state lists.new).sorted_count }
    ensures ok { OnOk result (Saw (input_with terms.now (L.state lists.old) (T.truth test.now)) list rows.old rows.new (L.state lists.new)) }
    ensures err { OnErr result (let i = input_with terms.now (L.state lists.old) (T.truth test.now) in
        AreLookedUpWithin i (L.state lists.new) (shown_by i.lists rows.old.rounds (list - 1)) (shown_by i.lists rows.old.rounds list)) }
{
    let is_new = rows.note(row)?;
    if !is_new {
        return Ok(());
    }
    let sum = sum_of(&terms.weights, lists, list, row, score);
    let holds = test.holds(row)?;
    if !holds {
        return Ok(());
    }
    rows.hold(terms.key(sum, row))
}
