//! What is found of a query, one place after another.

ghost use Rattle.std.specs.Prelude.{ℕ, ◌≡◌, ◌≤◌, ◌<◌, ◌+◌, ◌*◌, ◌/◌, ◌%◌, ◌^◌, [], length, true, vec_capacity};
ghost use Rattle.rs_query.specs.Tables.{all_entries};
ghost use Rattle.rs_sample.specs.Kept.{cards_of};
ghost use Rattle.rs_enum.specs.declared.extent.Extent.TheVariants as whole;
ghost use Rattle.rs_enum.specs.Given.{AreFound, AreSetFound, AreTopsOf, CanPlan, IsFilledOf, IsTheBaseOf, block_at, complete_of, kept_of, top_row};
ghost use Rattle.rs_enum.specs.LeastCosts.{HasBlock};
ghost use Rattle.rs_enum.specs.Made.{AreBuilt};
ghost use Rattle.rs_enum.specs.Places.{candidate_at};
ghost use Rattle.rs_enum.specs.QueryCards.{IsBlockNumber};
ghost use Rattle.rs_enum.specs.Tops.{AreLower, IsExtent, IsTheFirstTop, base_top, distinct_base, set_base};

use crate::candidate::{Candidate, Choice};
use crate::costs::{both_sides, rows_of_all};
use crate::extent::Extent;
use crate::find::{candidate_at, masks_inside};
use crate::planning::Planning;
use crate::row::Row;
use crate::search::Search;
use rs_plan::Signature;
use rs_query::{Block, block_in};

/// How many masks there are of this many numbers.
pub(crate) fn masks(count: u8) -> u32
    requires { count ≤ 8 }
    ensures { result ≡ 2 ^ count }
{
    1 << count
}

/// The number of pairs.
fn product(rows: u32, columns: u32) -> u32
    requires rows { rows ≤ 256 }
    requires columns { columns ≤ 256 }
    ensures { result ≡ rows * columns }
{
    rows * columns
}

/// The signature of a place, where each mask of entries has this many places.
fn signature_at(place: u32, columns: u32) -> Signature
    requires some { 1 ≤ columns }
    requires few { columns ≤ 256 }
    requires row { place / columns < 256 }
    ensures entries { result.entries ≡ place / columns }
    ensures terms { result.terms ≡ place % columns }
{
    Signature {
        entries: (place / columns) as u8,
        terms: (place % columns) as u8,
    }
}

/// The row of the plans of all entries that drop duplicates: behind those of all masks of entries.
fn distinct_row(block: &Block) -> u8
    requires some { 1 ≤ length block.now.from }
    requires few { length block.now.from ≤ 6 }
    ensures { result ≡ 2 ^ length block.now.from }
{
    block.all_entries() + 1
}

/// The row of the complete plans of a block.
pub(crate) fn top_row(block: &Block) -> u8
    requires some { 1 ≤ length block.now.from }
    requires few { length block.now.from ≤ 6 }
    ensures { result ≡ top_row block.now }
{
    if block.distinct {
        distinct_row(block)
    } else {
        block.all_entries()
    }
}

/// Finds the plans of a block, in place of what was there.
pub(crate) fn fill_block(planning: &Planning, number: u8, places: &mut Vec<Option<Candidate>>)
    requires planning { CanPlan planning.now }
    requires number { IsBlockNumber (cards_of planning.now.cards.now) number }
    requires block { HasBlock planning.now.query.now number }
    requires room { 16640 ≤ vec_capacity places.old }
    ensures found { AreFound planning.now number places.new.items }
    ensures room { 16640 ≤ vec_capacity places.new }
{
    places.clear();
    fill_signatures(planning, number, places);
    let wanted = block_in(planning.query, number).distinct;
    if !wanted {
        return;
    }
    fill_distinct(planning, number, places);
}

/// Finds the first plan of each signature that drops no duplicates: of lesser entries first, and of equal entries those of lesser
/// terms.
fn fill_signatures(planning: &Planning, number: u8, places: &mut Vec<Option<Candidate>>)
    requires planning { CanPlan planning.now }
    requires number { IsBlockNumber (cards_of planning.now.cards.now) number }
    requires empty { places.old.items ≡ [] }
    requires room { 16640 ≤ vec_capacity places.old }
    ensures filled { IsFilledOf planning.now number places.new.items }
    ensures built { AreBuilt (block_at planning.now number).terms places.new.items }
    ensures all { length places.new.items
        ≡ 2 ^ length (block_at planning.now number).from * 2 ^ length (block_at planning.now number).terms }
    ensures room { 16640 ≤ vec_capacity places.new }
{
    let block = block_in(planning.query, number);
    let rows = masks(block.from.len() as u8);
    let columns = masks(block.terms.len() as u8);
    let all = product(rows, columns);
    let inside = masks_inside(block);
    for place in 0..all {
        let of = signature_at(place, columns);
        let search = Search {
            planning: *planning,
            number,
            inside: &inside,
            places: places.as_slice(),
        };
        let found = search.first_candidate(of);
        places.push_reserved(found);
    }
}

/// Finds the first plan of all entries that drops duplicates, of each mask of terms.
fn fill_distinct(planning: &Planning, number: u8, places: &mut Vec<Option<Candidate>>)
    requires planning { CanPlan planning.now }
    requires number { IsBlockNumber (cards_of planning.now.cards.now) number }
    requires block { HasBlock planning.now.query.now number }
    requires wanted { (block_at planning.now number).distinct ≡ true }
    requires filled { IsFilledOf planning.now number places.old.items }
    requires built { AreBuilt (block_at planning.now number).terms places.old.items }
    requires all { length places.old.items
        ≡ 2 ^ length (block_at planning.now number).from * 2 ^ length (block_at planning.now number).terms }
    requires room { 16640 ≤ vec_capacity places.old }
    ensures found { AreFound planning.now number places.new.items }
    ensures room { 16640 ≤ vec_capacity places.new }
{
    let columns = masks(block_in(planning.query, number).terms.len() as u8);
    for place in 0..columns {
        let evaluated = place as u8;
        let found = distinct_top(planning, number, places.as_slice(), evaluated);
        places.push_reserved(found);
    }
}

/// The first plan of all entries of a block that drops duplicates, and evaluates these terms.
fn distinct_top(
    planning: &Planning,
    number: u8,
    places: &[Option<Candidate>],
    evaluated: u8,
) -> Option<Candidate>
    requires planning { CanPlan planning.now }
    requires number { IsBlockNumber (cards_of planning.now.cards.now) number }
    requires wanted { (block_at planning.now number).distinct ≡ true }
    requires evaluated { evaluated < 2 ^ length (block_at planning.now number).terms }
    requires lower { AreLower planning.now.catalog.now planning.now.query.now (cards_of planning.now.cards.now) number
        (2 ^ length (block_at planning.now number).terms) (kept_of planning.now number places.now (all_entries (block_at planning.now number))) }
    requires tops { AreTopsOf planning.now (whole.Block number) evaluated (kept_of planning.now number places.now (2 ^ length (block_at planning.now number).from)) }
    ensures { IsTheFirstTop planning.now.catalog.now planning.now.query.now (cards_of planning.now.cards.now) (whole.Block number)
        (distinct_base planning.now.query.now (cards_of planning.now.cards.now) number evaluated
        (kept_of planning.now number places.now (all_entries (block_at planning.now number)) evaluated))
        (kept_of planning.now number places.now (2 ^ length (block_at planning.now number).from)) evaluated 10 result }
{
    let base = distinct_over(planning, number, places, evaluated);
    let row = Row {
        planning: *planning,
        extent: Extent::Block { number },
        entries: distinct_row(block_in(planning.query, number)),
        places,
    };
    row.first(evaluated, base)
}

/// The plan that drops duplicates of what was found of all entries and of these terms.
fn distinct_over(
    planning: &Planning,
    number: u8,
    places: &[Option<Candidate>],
    evaluated: u8,
) -> Option<Candidate>
    requires planning { CanPlan planning.now }
    requires number { IsBlockNumber (cards_of planning.now.cards.now) number }
    requires wanted { (block_at planning.now number).distinct ≡ true }
    requires evaluated { evaluated < 2 ^ length (block_at planning.now number).terms }
    requires lower { AreLower planning.now.catalog.now planning.now.query.now (cards_of planning.now.cards.now) number
        (2 ^ length (block_at planning.now number).terms) (kept_of planning.now number places.now (all_entries (block_at planning.now number))) }
    ensures value { result ≡ base_top (distinct_base planning.now.query.now (cards_of planning.now.cards.now) number evaluated
        (kept_of planning.now number places.now (all_entries (block_at planning.now number)) evaluated)) }
    ensures base { IsTheBaseOf planning.now (whole.Block number) evaluated
        (distinct_base planning.now.query.now (cards_of planning.now.cards.now) number evaluated
        (kept_of planning.now number places.now (all_entries (block_at planning.now number)) evaluated)) }
{
    let block = block_in(planning.query, number);
    let of = Signature {
        entries: block.all_entries(),
        terms: evaluated,
    };
    let below = candidate_at(block.terms.len() as u8, places, of)?;
    let rows = rows_of_all(planning, number, evaluated);
    let cost = below.cost + rows;
    Some(Candidate {
        cost,
        choice: Choice::Base,
    })
}

/// Finds the first plan that has the set operator of both blocks, of each mask of terms, in place of what was there.
pub(crate) fn fill_set(
    planning: &Planning,
    left: &[Option<Candidate>],
    right: &[Option<Candidate>],
    both: &mut Vec<Option<Candidate>>,
)
    requires planning { CanPlan planning.now }
    requires both { IsExtent planning.now.query.now (cards_of planning.now.cards.now) whole.Both }
    requires left { AreFound planning.now 1 left.now }
    requires right { AreFound planning.now 2 right.now }
    requires room { 256 ≤ vec_capacity both.old }
    ensures found { AreSetFound planning.now left.now right.now both.new.items (2 ^ length (block_at planning.now 1).terms) }
    ensures room { 256 ≤ vec_capacity both.new }
{
    both.clear();
    let columns = masks(block_in(planning.query, 1).terms.len() as u8);
    for place in 0..columns {
        let evaluated = place as u8;
        let base = set_over(planning, left, right, evaluated);
        let row = Row {
            planning: *planning,
            extent: Extent::Both,
            entries: 0,
            places: both.as_slice(),
        };
        let found = row.first(evaluated, base);
        both.push_reserved(found);
    }
}

/// The set operator of what was found of both blocks of these terms.
fn set_over(
    planning: &Planning,
    left: &[Option<Candidate>],
    right: &[Option<Candidate>],
    evaluated: u8,
) -> Option<Candidate>
    requires planning { CanPlan planning.now }
    requires both { IsExtent planning.now.query.now (cards_of planning.now.cards.now) whole.Both }
    requires left { AreFound planning.now 1 left.now }
    requires right { AreFound planning.now 2 right.now }
    requires evaluated { evaluated < 2 ^ length (block_at planning.now 1).terms }
    ensures value { result ≡ base_top (set_base planning.now.query.now (cards_of planning.now.cards.now) evaluated
        (complete_of planning.now 1 left.now evaluated) (complete_of planning.now 2 right.now evaluated)) }
    ensures base { IsTheBaseOf planning.now whole.Both evaluated (set_base planning.now.query.now (cards_of planning.now.cards.now) evaluated
        (complete_of planning.now 1 left.now evaluated) (complete_of planning.now 2 right.now evaluated)) }
{
    let first = complete_at(block_in(planning.query, 1), left, evaluated)?;
    let second = complete_at(block_in(planning.query, 2), right, evaluated)?;
    let left_rows = rows_of_all(planning, 1, evaluated);
    let right_rows = rows_of_all(planning, 2, evaluated);
    let cost = both_sides(first.cost, second.cost, left_rows, right_rows);
    Some(Candidate {
        cost,
        choice: Choice::Base,
    })
}

/// What was found of the complete plans of a block that evaluate these terms.
fn complete_at(block: &Block, places: &[Option<Candidate>], evaluated: u8) -> Option<Candidate>
    requires some { 1 ≤ length block.now.from }
    requires few { length block.now.from ≤ 6 }
    requires terms { length block.now.terms ≤ 8 }
    ensures { result ≡ candidate_at (length block.now.terms) places.now (top_row block.now) evaluated }
{
    let of = Signature {
        entries: top_row(block),
        terms: evaluated,
    };
    candidate_at(block.terms.len() as u8, places, of)
}
