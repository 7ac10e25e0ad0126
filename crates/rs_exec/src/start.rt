//! How the nodes of a plan are made.

ghost use Rattle.std.specs.Prelude.{◌≡◌, ◌≤◌, IfOk, length};
ghost use Rattle.rs_query.specs.Blocks.{block_in};
ghost use Rattle.rs_plan.specs.Plans.{IsEntryNumber, IsPart, IsPlan, IsSetPlan};
ghost use Rattle.rs_plan.specs.Shapes.{tree_of};
ghost use Rattle.rs_query.specs.Tables.{size_of};
ghost use Rattle.rs_query.specs.WellFormed.{AreSetSides, IsBlock, IsQuery};
ghost use Rattle.rs_plan.specs.Numbers.{HasNumbers};
ghost use Rattle.rs_exec.specs.Joining.{side_for};
ghost use Rattle.rs_exec.specs.Starting.{IsDistinctOver, IsJoinOver, IsQueryStart, IsRankOver, IsSetOver, IsSetStart, IsStart};

use crate::distinct::DistinctNode;
use crate::join::JoinNode;
use crate::join_core::JoinCore;
use crate::node::PlanNode;
use crate::rank::RankNode;
use crate::scan::{IndexNode, TableNode};
use crate::set::SetNode;
use rs_catalog::Snapshot;
use rs_filter::JoinConditions;
use rs_plan::Plan;
use rs_query::{Block, Query, size_of};
use rs_rank::mask_of;
use rs_ripple::Side;
use rs_scan::{RankScan, SeqScan};
use rs_value::{Memory, SetOp};
use std::alloc::Global;

impl PlanNode {
    /// The nodes of a plan of a query. Nothing is asked.
    pub(crate) fn of_plan(
        alloc: Global,
        catalog: &Snapshot<'_>,
        query: &Query,
        plan: &Plan,
    ) -> Result<PlanNode, Memory>
        requires query { IsQuery catalog.now query.now }
        requires plan { IsPlan catalog.now query.now (tree_of plan.now) }
        ensures { IfOk result (IsQueryStart catalog.now query.now (tree_of plan.now)) }
    {
        match query {
            Query::One(block, _) => PlanNode::start(alloc, catalog, block, 1, plan),
            Query::Set(op, left, right, _) => {
                PlanNode::start_set(alloc, catalog, *op, left, right, plan)
            }
        }
    }

    /// The nodes of a plan of a set query of these blocks, or of what stands below a rank operator in one.
    fn start_set(
        alloc: Global,
        catalog: &Snapshot<'_>,
        op: SetOp,
        left_block: &Block,
        right_block: &Block,
        plan: &Plan,
    ) -> Result<PlanNode, Memory>
        requires sides { AreSetSides catalog.now left_block.now right_block.now }
        requires plan { IsSetPlan catalog.now left_block.now right_block.now (tree_of plan.now) }
        ensures { IfOk result (IsSetStart catalog.now op left_block.now right_block.now (tree_of plan.now)) }
    {
        match plan {
            Plan::SeqScan { entry: _ } => unreachable!(),
            Plan::RankScan {
                entry: _,
                term: _,
                index: _,
            } => unreachable!(),
            Plan::Rank { term, child } => {
                let below = PlanNode::start_set(
                    alloc,
                    catalog,
                    op,
                    left_block,
                    right_block,
                    child,
                )?;
                let below = hold(alloc, below)?;
                let weights = left_block.weights();
                let head = RankNode::new(alloc, weights, child.signature().terms, *term);
                Ok(over(head, below))
            }
            Plan::HashJoin { left: _, right: _ } | Plan::NestedJoin { left: _, right: _ } => {
                unreachable!()
            }
            Plan::Distinct { child: _ } => unreachable!(),
            Plan::SetOperator { left, right } => {
                let weights = left_block.weights();
                let terms = left.signature().terms;
                let on_left = hold(alloc, PlanNode::start(alloc, catalog, left_block, 1, left)?)?;
                let on_right = hold(
                    alloc,
                    PlanNode::start(alloc, catalog, right_block, 2, right)?,
                )?;
                let head = SetNode::new(alloc, op, weights, terms);
                Ok(set_over(head, on_left, on_right))
            }
        }
    }

    /// The nodes of a part of a plan of a block, which has this number. Nothing is asked.
    pub(crate) fn start(
        alloc: Global,
        catalog: &Snapshot<'_>,
        block: &Block,
        number: u8,
        plan: &Plan,
    ) -> Result<PlanNode, Memory>
        requires block { IsBlock catalog.now block.now }
        requires part { IsPart catalog.now block.now (tree_of plan.now) }
        ensures { IfOk result (IsStart catalog.now block.now number (tree_of plan.now)) }
    {
        match plan {
            Plan::SeqScan { entry } => {
                let rows = size_of(catalog, block, *entry);
                let conjuncts = block.within(mask_of(*entry));
                let scan = SeqScan::new(*entry, number, rows);
                let head = TableNode::new(scan, number, *entry, conjuncts);
                Ok(PlanNode::SeqScan(head))
            }
            Plan::RankScan { entry, term, index } => {
                let weight = block.weights().weight[*term as usize - 1];
                let rows = size_of(catalog, block, *entry);
                let conjuncts = block.within(mask_of(*entry));
                let scan = RankScan::new(*index, *entry, number, weight, rows);
                let head = IndexNode::new(scan, number, *entry, *term, conjuncts);
                Ok(PlanNode::RankScan(head))
            }
            Plan::Rank { term, child } => {
                let below = hold(
                    alloc,
                    PlanNode::start(alloc, catalog, block, number, child)?,
                )?;
                let head = RankNode::new(alloc, block.weights(), child.signature().terms, *term);
                Ok(over(head, below))
            }
            Plan::HashJoin { left, right } | Plan::NestedJoin { left, right } => {
                let weights = block.weights();
                let left_side = side_of(left);
                let right_side = side_of(right);
                let conditions = JoinConditions::new(
                    alloc,
                    catalog,
                    block,
                    left_side.mask,
                    right_side.mask,
                )?;
                let on_left = hold(alloc, PlanNode::start(alloc, catalog, block, number, left)?)?;
                let on_right = hold(
                    alloc,
                    PlanNode::start(alloc, catalog, block, number, right)?,
                )?;
                let core = JoinCore::new(alloc, plan, weights, left_side, right_side);
                let head = JoinNode::new(core, number, conditions);
                Ok(join_over(head, on_left, on_right))
            }
            Plan::Distinct { child } => {
                let below = hold(
                    alloc,
                    PlanNode::start(alloc, catalog, block, number, child)?,
                )?;
                Ok(distinct_over(DistinctNode::new(alloc), below))
            }
            Plan::SetOperator { left: _, right: _ } => unreachable!(),
        }
    }
}

/// A rank operator over its input.
fn over(head: RankNode, below: Box<PlanNode>) -> PlanNode
    ensures { IsRankOver head below.value result }
{
    PlanNode::Rank(head, below)
}

/// An operator that drops duplicates over its input.
fn distinct_over(head: DistinctNode, below: Box<PlanNode>) -> PlanNode
    ensures { IsDistinctOver head below.value result }
{
    PlanNode::Distinct(head, below)
}

/// A node in memory of its own. A node that is to stand below another one is put there as it is made, so that no function holds a
/// node by value while it makes another.
fn hold(alloc: Global, node: PlanNode) -> Result<Box<PlanNode>, Memory>
    ensures { IfOk result (λ held. held.value ≡ node) }
{
    Ok(Box::new(alloc, node)?)
}

/// A set operator over its sides.
fn set_over(head: SetNode, left: Box<PlanNode>, right: Box<PlanNode>) -> PlanNode
    ensures { IsSetOver head left.value right.value result }
{
    PlanNode::Set(head, left, right)
}

/// A side of a join.
fn side_of(plan: &Plan) -> Side
    requires { HasNumbers (tree_of plan.now) }
    ensures { result ≡ side_for (tree_of plan.now) }
{
    let signature = plan.signature();
    Side {
        mask: signature.entries,
        terms: signature.terms,
    }
}

/// A join over its sides.
fn join_over(head: JoinNode, left: Box<PlanNode>, right: Box<PlanNode>) -> PlanNode
    ensures { IsJoinOver head left.value right.value result }
{
    PlanNode::Join(head, left, right)
}
