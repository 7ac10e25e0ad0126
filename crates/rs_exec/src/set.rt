//! The set operators as a node. Its two sides are plans of the two blocks of the query.

ghost use Rattle.std.specs.Prelude.{◌≡◌, ◌<◌, ◌+◌, ◌-◌, ◌^◌, OnOk, is_some, if◌then◌else◌, false};
ghost use Rattle.rs_rank.specs.Rows.{HasSum};
ghost use Rattle.rs_rank.specs.Weights.{IsWeights};
ghost use Rattle.rs_rank.specs.declared.ask.JoinAsk.TheVariants.{NeedLeft, NeedRight};
ghost use Rattle.rs_exec.specs.Asked.{CanAskSet, SetAsked, SetNodeStands};
ghost use Rattle.rs_exec.specs.Asking.{world_in};
ghost use Rattle.rs_exec.specs.OutputValues.{CanPutOut, values_for};
ghost use Rattle.rs_exec.specs.SetCores.{core_ask, is_spent, left_ended, left_fed, left_in, new_core, right_ended, right_fed, taken_from, terms_of_core, weights_of_core};
ghost use Rattle.rs_exec.specs.Standing.{Stands};

use crate::context::QueryContext;
use crate::fault::ExecFault;
use crate::node::PlanNode;
use crate::set_core::SetCore;
use crate::tally::Tally;
use rs_expr::Scorer;
use rs_plan::Counts;
use rs_rank::{JoinAsk, RankRow, Weights};
use rs_value::{Memory, SetOp};
use std::alloc::Global;

/// A set operator, without its sides.
#[derive(Drop)]
pub(crate) struct SetNode {
    pub(crate) core: SetCore,
    pub(crate) tally: Tally,
}

impl SetNode {
    /// The operator over sides on whose rows `terms` are evaluated. No row is drawn.
    pub(crate) fn new(alloc: Global, op: SetOp, weights: Weights, terms: u8) -> SetNode
        requires { IsWeights weights }
        ensures { result ≡ record { core = new_core op weights terms; tally = record { asked = 0; gave = 0 } } }
    {
        SetNode {
            core: SetCore::new(alloc, op, weights, terms),
            tally: Tally::new(),
        }
    }

    /// What it does next.
    fn ask(&self) -> JoinAsk
        requires { is_spent self.now.core ≡ false }
        ensures { result ≡ core_ask self.now.core }
    {
        self.core.ask()
    }

    /// Takes the left side's next row.
    fn feed_left(&mut self, row: RankRow, context: &QueryContext<'_>) -> Result<(), Memory>
        requires alive { is_spent self.old.core ≡ false }
        requires need { core_ask self.old.core ≡ NeedLeft }
        requires row { CanPutOut context.now.catalog.now context.now.query.now row }
        requires sum { HasSum (weights_of_core self.old.core) (terms_of_core self.old.core) row }
        ensures { OnOk result (self.new ≡ record self.old { core = left_fed row (values_for context.now.catalog.now context.now.query.now row) self.old.core }) }
    {
        let values = context.outputs(&row)?;
        self.core.feed_left(row, values)
    }

    /// Takes the right side's next row.
    fn feed_right(&mut self, row: RankRow, context: &QueryContext<'_>) -> Result<(), Memory>
        requires alive { is_spent self.old.core ≡ false }
        requires need { core_ask self.old.core ≡ NeedRight }
        requires row { CanPutOut context.now.catalog.now context.now.query.now row }
        requires sum { HasSum (weights_of_core self.old.core) (terms_of_core self.old.core) row }
        ensures { OnOk result (self.new ≡ record self.old { core = right_fed row (values_for context.now.catalog.now context.now.query.now row) self.old.core }) }
    {
        let values = context.outputs(&row)?;
        self.core.feed_right(row, values)
    }

    /// The left side has no row more.
    fn end_left(&mut self)
        requires alive { is_spent self.old.core ≡ false }
        requires need { core_ask self.old.core ≡ NeedLeft }
        ensures { self.new ≡ record self.old { core = left_ended self.old.core } }
    {
        self.core.end_left();
    }

    /// The right side has no row more.
    fn end_right(&mut self)
        requires alive { is_spent self.old.core ≡ false }
        requires need { core_ask self.old.core ≡ NeedRight }
        ensures { self.new ≡ record self.old { core = right_ended self.old.core } }
    {
        self.core.end_right();
    }

    /// The row that comes next, where the operator is ready.
    fn give(&mut self) -> Option<RankRow>
        requires alive { is_spent self.old.core ≡ false }
        requires small { self.old.tally.gave < 2 ^ 128 - 1 }
        ensures row { result ≡ taken_from self.old.core }
        ensures after { self.new ≡ record self.old {
          core = left_in self.old.core;
          tally = record self.old.tally { gave = if is_some result then self.old.tally.gave + 1 else self.old.tally.gave };
        } }
    {
        let row = self.core.take();
        if row.is_some() {
            self.tally.give();
        }
        row
    }

    /// What it counts.
    pub(crate) fn counts(&self) -> Counts
        ensures { result ≡ record { asked = self.now.tally.asked; gave = self.now.tally.gave; calls = 0; drawn = 0 } }
    {
        Counts {
            asked: self.tally.asked,
            gave: self.tally.gave,
            calls: 0,
            drawn: 0,
        }
    }
}

/// The next row of a set operator. Its sides are asked until no row still to come can change what the next one is.
#[cycle(next)]
pub(crate) fn next_combined<S: Scorer>(
    head: &mut SetNode,
    left: &mut PlanNode,
    right: &mut PlanNode,
    context: &QueryContext<'_>,
    scorer: &mut S,
) -> Result<Option<RankRow>, ExecFault>
    requires can { CanAskSet (world_in context.now (S.state scorer.old)) head.old left.old right.old }
    requires head { SetNodeStands (world_in context.now (S.state scorer.old)) head.old left.old right.old }
    requires left { Stands (world_in context.now (S.state scorer.old)) 1 left.old }
    requires right { Stands (world_in context.now (S.state scorer.old)) 2 right.old }
    ensures { SetAsked (world_in context.now (S.state scorer.old)) head.old left.old right.old head.new left.new right.new result (S.state scorer.old) (S.state scorer.new) }
{
    head.tally.ask();
    loop {
        match head.ask() {
            JoinAsk::NeedLeft => match left.next(context, scorer)? {
                Some(row) => head.feed_left(row, context)?,
                None => head.end_left(),
            },
            JoinAsk::NeedRight => match right.next(context, scorer)? {
                Some(row) => head.feed_right(row, context)?,
                None => head.end_right(),
            },
            JoinAsk::Ready => return Ok(head.give()),
            JoinAsk::End => return Ok(None),
        }
    }
}
