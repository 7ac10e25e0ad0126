//! The text that shows a plan.

ghost use Rattle.std.specs.Prelude.{◌≡◌, ◌≤◌, ◌+◌, ◌*◌, ◌++◌, ◌∷◌, [], IfOk, OnOk, IfSome, length, option_map, replicate, codes};
ghost use Rattle.std.specs.Fmt.{decimal};
ghost use Rattle.rs_query.specs.WellFormed.{IsBlock, IsQuery};
ghost use Rattle.rs_sample.specs.Kept.{cards_of};
ghost use Rattle.rs_query.specs.Blocks.{block_in};
ghost use Rattle.rs_plan.specs.Plans.{IsEntryNumber, IsPart, IsPlan};
ghost use Rattle.rs_plan.specs.Shapes.{tree_of};
ghost use Rattle.rs_enum.specs.Bounds.{IsSetPart};
ghost use Rattle.rs_enum.specs.Given.{CanPlan, IsPartCost, IsSetCost};
ghost use Rattle.rs_enum.specs.QueryCards.{AreCards, IsBlockNumber};
ghost use Rattle.rs_enum.specs.Texts.{HasEntry, alias_of, behind, counted, done_by, first_of, name_of, nodes_of, operator_of, plan_lines, table_of, text_of};

use crate::costs::{has_set_operator, node_cost, part_rows, set_node_cost, set_rows};
use crate::planning::Planning;
use rs_catalog::Catalog;
use rs_plan::{Counts, Plan};
use rs_query::{Block, Query, block_in};
use rs_sample::Cards;
use rs_value::{Memory, SetOp};
use std::alloc::Global;

/// What the line of a node says besides its name.
#[derive(Clone, Copy)]
struct Line {
    /// How many levels the node stands below the root.
    level: u8,
    rows: u128,
    cost: u128,
    done: Option<Counts>,
}

/// The lines of a part of a plan, and what it costs.
#[derive(Drop)]
struct Lines {
    text: Vec<u8>,
    cost: u128,
}

/// The text of a plan: a line for each node, with how many rows are expected of it and what it costs. With counts each line
/// says what its node has done, too; they are those of all nodes, a node before its children and the left one before the right
/// one.
///
/// # Errors
///
/// - `Memory`: at any call.
pub fn explain(
    alloc: Global,
    catalog: &Catalog,
    query: &Query,
    cards: &Cards,
    plan: &Plan,
    counts: Option<&[Counts]>,
) -> Result<Vec<u8>, Memory>
    requires query { IsQuery catalog.now query.now }
    requires cards { AreCards query.now (cards_of cards.now) }
    requires plan { IsPlan catalog.now query.now (tree_of plan.now) }
    requires counts { IfSome counts (λ told. length told.now ≡ nodes_of (tree_of plan.now)) }
    ensures { IfOk result (λ text. text.items ≡ text_of catalog.now query.now (cards_of cards.now) (tree_of plan.now)
        (option_map (λ told. told.now) counts.entry)) }
{
    let planning = Planning {
        catalog,
        query,
        cards,
    };
    let told = if has_set_operator(plan) {
        set_lines(alloc, &planning, 0, plan, counts)?
    } else {
        part_lines(alloc, &planning, 0, 1, plan, counts)?
    };
    Ok(told.text)
}

/// The lines of a set operator, or of operators for terms above one, that stands this many levels below the root, and its cost.
fn set_lines(
    alloc: Global,
    planning: &Planning,
    level: u8,
    plan: &Plan,
    counts: Option<&[Counts]>,
) -> Result<Lines, Memory>
    requires planning { CanPlan planning.now }
    requires part { IsSetPart planning.now.catalog.now planning.now.query.now (tree_of plan.now) }
    requires few { level + nodes_of (tree_of plan.now) ≤ 255 }
    requires counts { IfSome counts (λ told. nodes_of (tree_of plan.now) ≤ length told.now) }
    ensures text { IfOk result (λ told. told.text.items ≡ plan_lines planning.now.catalog.now planning.now.query.now (cards_of planning.now.cards.now) level 1
        (tree_of plan.now) (option_map (λ told. told.now) counts.entry)) }
    ensures cost { IfOk result (λ told. IsSetCost planning.now (tree_of plan.now) told.cost) }
{
    match plan {
        Plan::Rank { term: _, child } => {
            let child = &**child;
            let below = set_lines(alloc, planning, level + 1, child, behind(1, counts))?;
            let line = Line {
                level,
                rows: set_rows(planning, plan),
                cost: set_node_cost(planning, plan, below.cost, 0),
                done: first_of(counts),
            };
            lines_over(alloc, planning, 1, plan, line, &below.text, &[])
        }
        Plan::SetOperator { left, right } => {
            let left = &**left;
            let right = &**right;
            let right_counts = behind(1 + nodes_of(left), counts);
            let first = part_lines(alloc, planning, level + 1, 1, left, behind(1, counts))?;
            let second = part_lines(alloc, planning, level + 1, 2, right, right_counts)?;
            let line = Line {
                level,
                rows: set_rows(planning, plan),
                cost: set_node_cost(planning, plan, first.cost, second.cost),
                done: first_of(counts),
            };
            lines_over(alloc, planning, 1, plan, line, &first.text, &second.text)
        }
        _ => Err(Memory),
    }
}

/// The lines of a part of a plan of the block of this number that stands this many levels below the root, and its cost.
fn part_lines(
    alloc: Global,
    planning: &Planning,
    level: u8,
    number: u8,
    plan: &Plan,
    counts: Option<&[Counts]>,
) -> Result<Lines, Memory>
    requires planning { CanPlan planning.now }
    requires number { IsBlockNumber (cards_of planning.now.cards.now) number }
    requires part { IsPart planning.now.catalog.now (block_in planning.now.query.now number) (tree_of plan.now) }
    requires few { level + nodes_of (tree_of plan.now) ≤ 255 }
    requires counts { IfSome counts (λ told. nodes_of (tree_of plan.now) ≤ length told.now) }
    ensures text { IfOk result (λ told. told.text.items ≡ plan_lines planning.now.catalog.now planning.now.query.now (cards_of planning.now.cards.now) level number
        (tree_of plan.now) (option_map (λ told. told.now) counts.entry)) }
    ensures cost { IfOk result (λ told. IsPartCost planning.now number (tree_of plan.now) told.cost) }
{
    match plan {
        Plan::Rank { term: _, child } | Plan::Distinct { child } => {
            let child = &**child;
            let told = behind(1, counts);
            let below = part_lines(alloc, planning, level + 1, number, child, told)?;
            let line = Line {
                level,
                rows: part_rows(planning, number, plan),
                cost: node_cost(planning, number, plan, below.cost, 0),
                done: first_of(counts),
            };
            lines_over(alloc, planning, number, plan, line, &below.text, &[])
        }
        Plan::HashJoin { left, right } | Plan::NestedJoin { left, right } => {
            let left = &**left;
            let right = &**right;
            let told = behind(1, counts);
            let right_told = behind(1 + nodes_of(left), counts);
            let first = part_lines(alloc, planning, level + 1, number, left, told)?;
            let second = part_lines(alloc, planning, level + 1, number, right, right_told)?;
            let line = Line {
                level,
                rows: part_rows(planning, number, plan),
                cost: node_cost(planning, number, plan, first.cost, second.cost),
                done: first_of(counts),
            };
            lines_over(
                alloc,
                planning,
                number,
                plan,
                line,
                &first.text,
                &second.text,
            )
        }
        _ => {
            let line = Line {
                level,
                rows: part_rows(planning, number, plan),
                cost: node_cost(planning, number, plan, 0, 0),
                done: first_of(counts),
            };
            lines_over(alloc, planning, number, plan, line, &[], &[])
        }
    }
}

/// The line of a node of a plan of the block of this number, and behind it the lines of its child, or of its left side and of its
/// right one.
fn lines_over(
    alloc: Global,
    planning: &Planning,
    number: u8,
    plan: &Plan,
    line: Line,
    left: &[u8],
    right: &[u8],
) -> Result<Lines, Memory>
    requires block { IsBlock planning.now.catalog.now (block_in planning.now.query.now number) }
    requires entry { HasEntry (block_in planning.now.query.now number) (tree_of plan.now) }
    ensures text { IfOk result (λ told. told.text.items ≡ replicate (2 * line.level) 32
        ++ name_of planning.now.catalog.now planning.now.query.now number (tree_of plan.now)
        ++ codes " est=" ++ decimal line.rows ++ codes " cost=" ++ decimal line.cost
        ++ done_by (tree_of plan.now) line.done ++ 10 ∷ [] ++ left.now ++ right.now) }
    ensures cost { IfOk result (λ told. told.cost ≡ line.cost) }
{
    let mut text = Vec::new(alloc);
    put_line(
        alloc,
        &mut text,
        planning.catalog,
        planning.query,
        number,
        plan,
        line,
    )?;
    text.extend_from_slice(left)?;
    text.extend_from_slice(right)?;
    Ok(Lines {
        text,
        cost: line.cost,
    })
}

/// How many nodes a plan has. It is at most 255 of each plan of a query.
pub fn nodes_of(plan: &Plan) -> u8
    requires { nodes_of (tree_of plan.now) ≤ 255 }
    ensures { result ≡ nodes_of (tree_of plan.now) }
{
    match plan {
        Plan::SeqScan { entry: _ } => 1,
        Plan::RankScan {
            entry: _,
            term: _,
            index: _,
        } => 1,
        Plan::Rank { term: _, child } => 1 + nodes_of(child),
        Plan::HashJoin { left, right } => 1 + nodes_of(left) + nodes_of(right),
        Plan::NestedJoin { left, right } => 1 + nodes_of(left) + nodes_of(right),
        Plan::Distinct { child } => 1 + nodes_of(child),
        Plan::SetOperator { left, right } => 1 + nodes_of(left) + nodes_of(right),
    }
}

/// The counts of the first node.
fn first_of(counts: Option<&[Counts]>) -> Option<Counts>
    ensures { result ≡ first_of (option_map (λ told. told.now) counts.entry) }
{
    match counts {
        Some(told) => told.first().copied(),
        None => None,
    }
}

/// The counts behind those of this many nodes.
fn behind(nodes: u8, counts: Option<&[Counts]>) -> Option<&[Counts]>
    requires { IfSome counts (λ told. nodes ≤ length told.now) }
    ensures { option_map (λ told. told.now) result ≡ behind nodes (option_map (λ told. told.now) counts.entry) }
{
    match counts {
        Some(told) => Some(&told[nodes as usize..]),
        None => None,
    }
}

/// Puts the line of a node of a plan of the block of this number.
fn put_line(
    alloc: Global,
    text: &mut Vec<u8>,
    catalog: &Catalog,
    query: &Query,
    number: u8,
    plan: &Plan,
    line: Line,
) -> Result<(), Memory>
    requires block { IsBlock catalog.now (block_in query.now number) }
    requires entry { HasEntry (block_in query.now number) (tree_of plan.now) }
    ensures { OnOk result (text.new.items ≡ text.old.items ++ (replicate (2 * line.level) 32
        ++ name_of catalog.now query.now number (tree_of plan.now)
        ++ codes " est=" ++ decimal line.rows ++ codes " cost=" ++ decimal line.cost
        ++ done_by (tree_of plan.now) line.done ++ 10 ∷ [])) }
{
    put_indent(text, line.level)?;
    put_name(alloc, text, catalog, query, number, plan)?;
    put_number(alloc, text, b" est=", line.rows)?;
    put_number(alloc, text, b" cost=", line.cost)?;
    put_done(alloc, text, plan, line.done)?;
    text.push(b'\n')?;
    Ok(())
}

/// Puts two spaces for each level.
fn put_indent(text: &mut Vec<u8>, level: u8) -> Result<(), Memory>
    ensures { OnOk result (text.new.items ≡ text.old.items ++ replicate (2 * level) 32) }
{
    for _below in 0..level {
        text.extend_from_slice(b"  ")?;
    }
    Ok(())
}

/// Puts what a node is.
fn put_name(
    alloc: Global,
    text: &mut Vec<u8>,
    catalog: &Catalog,
    query: &Query,
    number: u8,
    plan: &Plan,
) -> Result<(), Memory>
    requires block { IsBlock catalog.now (block_in query.now number) }
    requires entry { HasEntry (block_in query.now number) (tree_of plan.now) }
    ensures { OnOk result (text.new.items ≡ text.old.items ++ name_of catalog.now query.now number (tree_of plan.now)) }
{
    match plan {
        Plan::SeqScan { entry } => {
            text.extend_from_slice(b"SeqScan ")?;
            put_entry(text, catalog, block_in(query, number), *entry)?;
        }
        Plan::RankScan {
            entry,
            term,
            index: _,
        } => {
            text.extend_from_slice(b"RankScan ")?;
            put_entry(text, catalog, block_in(query, number), *entry)?;
            put_number(alloc, text, b" term ", *term as u128)?;
        }
        Plan::Rank { term, child: _ } => put_number(alloc, text, b"Rank term ", *term as u128)?,
        Plan::HashJoin { left: _, right: _ } => text.extend_from_slice(b"HashRankJoin")?,
        Plan::NestedJoin { left: _, right: _ } => text.extend_from_slice(b"NestedRankJoin")?,
        Plan::Distinct { child: _ } => text.extend_from_slice(b"Distinct")?,
        Plan::SetOperator { left: _, right: _ } => text.extend_from_slice(operator_name(query))?,
    }
    Ok(())
}

/// The name of the operator of a query of two blocks.
fn operator_name(query: &Query) -> &'static [u8]
    ensures { result.now ≡ operator_of query.now }
{
    match query {
        Query::One(_, _) => b"",
        Query::Set(op, _, _, _) => match op {
            SetOp::UnionAll => b"UnionAll",
            SetOp::Union => b"Union",
            SetOp::Intersect => b"Intersect",
            SetOp::Except => b"Except",
        },
    }
}

/// Puts the name of the table of an entry, and its alias.
fn put_entry(text: &mut Vec<u8>, catalog: &Catalog, block: &Block, entry: u8) -> Result<(), Memory>
    requires block { IsBlock catalog.now block.now }
    requires entry { IsEntryNumber block.now entry }
    ensures { OnOk result (text.new.items ≡ text.old.items ++ (table_of catalog.now block.now entry ++ codes " " ++ alias_of block.now entry)) }
{
    let from = &block.from.items()[entry as usize - 1];
    text.extend_from_slice(catalog.table_name(from.0).bytes())?;
    text.push(b' ')?;
    text.extend_from_slice(from.1.bytes())?;
    Ok(())
}

/// Puts what a node has done.
fn put_done(
    alloc: Global,
    text: &mut Vec<u8>,
    plan: &Plan,
    done: Option<Counts>,
) -> Result<(), Memory>
    ensures { OnOk result (text.new.items ≡ text.old.items ++ done_by (tree_of plan.now) done) }
{
    let Some(counts) = done else {
        return Ok(());
    };
    put_number(alloc, text, b" asked=", counts.asked)?;
    put_number(alloc, text, b" gave=", counts.gave)?;
    put_counted(alloc, text, plan, counts)
}

/// Puts the calls of a rank operator, or how far a scan has drawn.
fn put_counted(alloc: Global, text: &mut Vec<u8>, plan: &Plan, counts: Counts) -> Result<(), Memory>
    ensures { OnOk result (text.new.items ≡ text.old.items ++ counted (tree_of plan.now) counts) }
{
    match plan {
        Plan::SeqScan { entry: _ } => put_number(alloc, text, b" drawn=", counts.drawn as u128),
        Plan::RankScan {
            entry: _,
            term: _,
            index: _,
        } => put_number(alloc, text, b" drawn=", counts.drawn as u128),
        Plan::Rank { term: _, child: _ } => put_number(alloc, text, b" calls=", counts.calls),
        _ => Ok(()),
    }
}

/// Puts a label and a number.
fn put_number(alloc: Global, text: &mut Vec<u8>, label: &[u8], number: u128) -> Result<(), Memory>
    ensures { OnOk result (text.new.items ≡ text.old.items ++ (label.now ++ decimal number)) }
{
    text.extend_from_slice(label)?;
    text.extend_from_slice(number.to_string(alloc)?.as_bytes())?;
    Ok(())
}
