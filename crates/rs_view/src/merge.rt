//! The merge of rows that are in the order of keys into others that are.

ghost use Rattle.std.specs.Prelude.{◌≡◌, ◌≤◌, ◌<◌, ◌+◌, ◌++◌, None, IsTrue, OnErr, OnOk, false, true, length, take, drop, option_to_list};
ghost use Rattle.std.specs.List.{AllByRecursion};
ghost use Rattle.std.specs.List.Sorted.{IsSortedByKey};
ghost use Rattle.std.specs.Ordering.{is_gt};
ghost use Rattle.std.specs.Vec.{vec_capacity, vec_len};
ghost use Rattle.std.specs.VecDeque.{deque_len};
ghost use Rattle.rs_order.specs.Merging.{merged};
ghost use Rattle.rs_rank.specs.Keys.{key_cmp};
ghost use Rattle.rs_view.specs.Keeping.{key_of_row};

use rs_rank::{Key, RankRow};
use rs_value::Memory;
use std::collections::VecDeque;

/// Merges more rows into those that there are. Both are in the order of keys. No row moves that stands in front of the first one that
/// joins. Where there is no memory, nothing changes.
pub(crate) fn merge_in(rows: &mut Vec<RankRow>, more: Vec<RankRow>) -> Result<(), Memory>
    requires { IsSortedByKey key_of_row key_cmp rows.old.items }
    ensures ok { OnOk result (rows.new.items ≡ merged key_cmp key_of_row rows.old.items more.items) }
    ensures err { OnErr result (rows.new.items ≡ rows.old.items) }
{
    let place = match more.first() {
        Some(first) => place_of(rows, first),
        None => return Ok(()),
    };
    // Most often one row joins. Then none has to be set aside.
    if more.len() == 1 {
        return insert_one(rows, place, more);
    }
    rows.reserve(more.len())?;
    let behind = rows.split_off(place)?;
    push_merged(rows, VecDeque::from_vec(behind), VecDeque::from_vec(more));
    Ok(())
}

/// How many rows come at or before this one. They are in order, so it is found by halving.
fn place_of(rows: &[RankRow], row: &RankRow) -> usize
    requires { IsSortedByKey key_of_row key_cmp rows.now }
    ensures within { result ≤ length rows.now }
    ensures front { AllByRecursion (λ other. is_gt (key_cmp (key_of_row other) (key_of_row row.now)) ≡ false) (take result rows.now) }
    ensures behind { AllByRecursion (λ other. is_gt (key_cmp (key_of_row other) (key_of_row row.now)) ≡ true) (drop result rows.now) }
{
    rows.partition_point(|other| !is_behind(other, row))
}

/// Inserts the only row of a list at a place.
fn insert_one(rows: &mut Vec<RankRow>, place: usize, one: Vec<RankRow>) -> Result<(), Memory>
    requires within { place ≤ vec_len rows.old }
    requires one { vec_len one ≡ 1 }
    ensures ok { OnOk result (rows.new.items ≡ take place rows.old.items ++ (one.items ++ drop place rows.old.items)) }
    ensures err { OnErr result (rows.new.items ≡ rows.old.items) }
{
    let mut one = one;
    rows.insert(place, one.take_last())?;
    Ok(())
}

/// Puts the rows of two lists, each in the order of keys, behind others, for which there is room.
fn push_merged(rows: &mut Vec<RankRow>, mut old: VecDeque<RankRow>, mut new: VecDeque<RankRow>)
    requires { vec_len rows.old + (deque_len old + deque_len new) ≤ vec_capacity rows.old }
    ensures { rows.new.items ≡ rows.old.items ++ merged key_cmp key_of_row old.items new.items }
{
    while let Some(row) = take_first(&mut old, &mut new) {
        rows.push_reserved(row);
    }
}

/// Takes the first row of two lists; of two equal ones that of the first list.
fn take_first(old: &mut VecDeque<RankRow>, new: &mut VecDeque<RankRow>) -> Option<RankRow>
    ensures rows { merged key_cmp key_of_row old.old.items new.old.items
        ≡ option_to_list result ++ merged key_cmp key_of_row old.new.items new.new.items }
    ensures count { (deque_len old.new + deque_len new.new) + length (option_to_list result) ≡ deque_len old.old + deque_len new.old }
    ensures none { result ≡ None → deque_len old.old + deque_len new.old ≡ 0 }
{
    if leads(old, new) {
        old.pop_front()
    } else {
        new.pop_front()
    }
}

/// Whether the first row of two lists is one of the first list.
fn leads(old: &VecDeque<RankRow>, new: &VecDeque<RankRow>) -> bool
    ensures old { IsTrue result → merged key_cmp key_of_row old.now.items new.now.items
        ≡ take 1 old.now.items ++ merged key_cmp key_of_row (drop 1 old.now.items) new.now.items }
    ensures new { result ≡ false → merged key_cmp key_of_row old.now.items new.now.items
        ≡ take 1 new.now.items ++ merged key_cmp key_of_row old.now.items (drop 1 new.now.items) }
    ensures some { IsTrue result → 0 < deque_len old.now }
    ensures none { result ≡ false → deque_len new.now ≡ 0 → deque_len old.now ≡ 0 }
{
    match (old.front(), new.front()) {
        (Some(row), Some(other)) => !is_behind(row, other),
        (Some(_), None) => true,
        (None, _) => false,
    }
}

/// Whether a row comes behind another one in the order of keys.
fn is_behind(row: &RankRow, other: &RankRow) -> bool
    ensures { result ≡ is_gt (key_cmp (key_of_row row.now) (key_of_row other.now)) }
{
    key_of(row).cmp(&key_of(other)).is_gt()
}

/// The key of a row: its score, and then its row numbers.
pub(crate) fn key_of(row: &RankRow) -> Key
    ensures { result ≡ key_of_row row.now }
{
    Key {
        bound: row.sum,
        ids: row.ids,
    }
}
