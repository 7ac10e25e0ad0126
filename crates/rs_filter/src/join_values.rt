//! The join values of rows: what the equalities between a column of one side of a join and a column of the other one compare.

ghost use Rattle.std.specs.Prelude.{◌≡◌, ◌≤◌, IfOk, Some};
ghost use Rattle.std.specs.Option.{option_to_list};
ghost use Rattle.rs_query.specs.Tables.{HasRows};
ghost use Rattle.rs_query.specs.WellFormed.{IsBlock, IsConjunct};
ghost use Rattle.rs_filter.specs.Conditions.{AreConditions};
ghost use Rattle.rs_filter.specs.JoinValues.{equated_across, in_sides, is_equi, left_values, own_column, own_mask, right_values, side_values};
ghost use Rattle.rs_filter.specs.Matching.{is_across};

use crate::conditions::JoinConditions;
use rs_catalog::Snapshot;
use rs_query::{Block, Conjunct, is_inside};
use rs_rank::{Ids, has_number, union};
use rs_value::{Memory, Value};
use std::alloc::Global;

/// A side of a join.
#[derive(Clone, Copy)]
enum Side {
    Left,
    Right,
}

/// The join values of a row of the left side of a join by these conditions, in the order of the conjuncts.
///
/// # Errors
///
/// - `Memory`: at any call.
pub fn left_values(
    alloc: Global,
    catalog: &Snapshot<'_>,
    block: &Block,
    conditions: &JoinConditions,
    ids: &Ids,
) -> Result<Vec<Value>, Memory>
    requires block { IsBlock catalog.now block.now }
    requires conditions { AreConditions catalog.now block.now conditions.now }
    requires rows { HasRows catalog.now block.now conditions.now.left ids.now.rows }
    ensures { IfOk result (λ values. values.items ≡ left_values catalog.now block.now conditions.now.left conditions.now.right ids.now.rows) }
{
    side_values(alloc, catalog, block, conditions, Side::Left, ids)
}

/// The join values of a row of the right side of a join by these conditions, in the order of the conjuncts.
///
/// # Errors
///
/// - `Memory`: at any call.
pub fn right_values(
    alloc: Global,
    catalog: &Snapshot<'_>,
    block: &Block,
    conditions: &JoinConditions,
    ids: &Ids,
) -> Result<Vec<Value>, Memory>
    requires block { IsBlock catalog.now block.now }
    requires conditions { AreConditions catalog.now block.now conditions.now }
    requires rows { HasRows catalog.now block.now conditions.now.right ids.now.rows }
    ensures { IfOk result (λ values. values.items ≡ right_values catalog.now block.now conditions.now.left conditions.now.right ids.now.rows) }
{
    side_values(alloc, catalog, block, conditions, Side::Right, ids)
}

/// Those of a row of either side.
fn side_values(
    alloc: Global,
    catalog: &Snapshot<'_>,
    block: &Block,
    conditions: &JoinConditions,
    side: Side,
    ids: &Ids,
) -> Result<Vec<Value>, Memory>
    requires block { IsBlock catalog.now block.now }
    requires conditions { AreConditions catalog.now block.now conditions.now }
    requires rows { HasRows catalog.now block.now (own_mask side conditions.now) ids.now.rows }
    ensures { IfOk result (λ values. values.items ≡ side_values side catalog.now block.now conditions.now.left conditions.now.right ids.now.rows) }
{
    let columns = conditions.columns.items();
    let mut values = Vec::with_capacity(alloc, columns.len())?;
    for pair in columns {
        let column = own_column(side, pair);
        block.push_cell(catalog, column, &ids.rows, &mut values)?;
    }
    Ok(values)
}

/// The column that a side has of two that are equated.
fn own_column(side: Side, pair: &((u8, u8), (u8, u8))) -> (u8, u8)
    ensures { result ≡ own_column side pair.now }
{
    match side {
        Side::Left => pair.0,
        Side::Right => pair.1,
    }
}

/// Whether each conjunct that speaks of both sides equates a column of the one with a column of the other. Then rows of the two
/// sides that have equal join values match, and a join that looks among these alone need not ask whether they do.
pub(crate) fn is_equi_join(catalog: &Snapshot<'_>, block: &Block, left: u8, right: u8) -> bool
    requires block { IsBlock catalog.now block.now }
    ensures { result ≡ is_equi left right block.now.conjuncts }
{
    for conjunct in block.conjuncts.items() {
        let columns = equated_across(catalog, block, conjunct, left, right);
        if is_across(conjunct, left, right) && columns.is_none() {
            return false;
        }
    }
    true
}

/// The columns that a conjunct equates, that of the left side first, where it speaks of both sides.
pub(crate) fn equated_across(
    catalog: &Snapshot<'_>,
    block: &Block,
    conjunct: &Conjunct,
    left: u8,
    right: u8,
) -> Option<((u8, u8), (u8, u8))>
    requires block { IsBlock catalog.now block.now }
    requires conjunct { IsConjunct catalog.now block.now conjunct.now }
    ensures { equated_across left right conjunct.now ≡ option_to_list result }
{
    if !is_across(conjunct, left, right) {
        return None;
    }
    let (first, second) = conjunct.equality()?;
    in_sides(left, right, first, second)
}

/// Whether a conjunct speaks of both sides.
fn is_across(conjunct: &Conjunct, left: u8, right: u8) -> bool
    ensures { result ≡ is_across left right conjunct.now }
{
    let entries = conjunct.entries();
    is_inside(entries, union(left, right))
        && !is_inside(entries, left)
        && !is_inside(entries, right)
}

/// Two columns, that of the left side first, where each side has one of them.
fn in_sides(left: u8, right: u8, first: (u8, u8), second: (u8, u8)) -> Option<((u8, u8), (u8, u8))>
    requires first_least { 1 ≤ first.0 }
    requires first_most { first.0 ≤ 6 }
    requires second_least { 1 ≤ second.0 }
    requires second_most { second.0 ≤ 6 }
    ensures { in_sides left right (Some (first, second)) ≡ option_to_list result }
{
    if has_number(left, first.0) && has_number(right, second.0) {
        Some((first, second))
    } else if has_number(right, first.0) && has_number(left, second.0) {
        Some((second, first))
    } else {
        None
    }
}
