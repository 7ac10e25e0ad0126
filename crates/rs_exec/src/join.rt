//! The rank joins as a node.

ghost use Rattle.std.specs.Prelude.{◌≡◌, ◌<◌, ◌+◌, ◌-◌, ◌^◌, OnOk, is_some, if◌then◌else◌, false};
ghost use Rattle.rs_query.specs.Blocks.{block_in};
ghost use Rattle.rs_order.specs.Schedule.{Left, Right};
ghost use Rattle.rs_rank.specs.declared.ask.JoinAsk.TheVariants.{NeedLeft, NeedRight, Ready};
ghost use Rattle.rs_ripple.specs.Ripple.{CanEnd, ask_of, left_ended, left_for, right_ended, taken_for};
ghost use Rattle.rs_exec.specs.Cores.{CanTake, core_with, core_with_row, joined_in};
ghost use Rattle.rs_exec.specs.Asked.{CanAskJoin, JoinAsked, JoinNodeStands};
ghost use Rattle.rs_exec.specs.Asking.{world_in};
ghost use Rattle.rs_exec.specs.Standing.{Stands};

use crate::context::QueryContext;
use crate::fault::ExecFault;
use crate::join_core::JoinCore;
use crate::node::PlanNode;
use crate::tally::Tally;
use rs_expr::Scorer;
use rs_filter::JoinConditions;
use rs_plan::Counts;
use rs_rank::{JoinAsk, RankRow};
use rs_value::Memory;

/// A rank join, without its sides.
#[derive(Drop)]
pub(crate) struct JoinNode {
    pub(crate) core: JoinCore,
    /// The number of its block.
    pub(crate) block: u8,
    /// What it looks at of two rows.
    pub(crate) conditions: JoinConditions,
    pub(crate) tally: Tally,
}

impl JoinNode {
    /// A join of a block with this core, which was asked nothing.
    pub(crate) fn new(core: JoinCore, block: u8, conditions: JoinConditions) -> JoinNode
        ensures { result ≡ record { core = core; block = block; conditions = conditions; tally = record { asked = 0; gave = 0 } } }
    {
        JoinNode {
            core,
            block,
            conditions,
            tally: Tally::new(),
        }
    }

    /// What it does next.
    fn ask(&self) -> JoinAsk
        requires { (joined_in self.now.core).ripple.spent ≡ false }
        ensures { result ≡ ask_of (joined_in self.now.core).ripple }
    {
        self.core.ask()
    }

    /// Takes the left side's next row, and finds the right rows drawn so far that it matches.
    fn feed_left(&mut self, row: RankRow, context: &QueryContext<'_>) -> Result<(), Memory>
        requires { CanTake Left context.now.catalog.now (block_in context.now.query.now self.old.block) self.old.conditions row self.old.core }
        ensures { OnOk result (self.new ≡ record self.old {
          core = core_with_row Left context.now.catalog.now (block_in context.now.query.now self.old.block) self.old.conditions row self.old.core;
        }) }
    {
        let block = context.block(self.block);
        self.core.feed_left(row, context.alloc, context.catalog, block, &self.conditions)
    }

    /// Takes the right side's next row, and finds the left rows drawn so far that it matches.
    fn feed_right(&mut self, row: RankRow, context: &QueryContext<'_>) -> Result<(), Memory>
        requires { CanTake Right context.now.catalog.now (block_in context.now.query.now self.old.block) self.old.conditions row self.old.core }
        ensures { OnOk result (self.new ≡ record self.old {
          core = core_with_row Right context.now.catalog.now (block_in context.now.query.now self.old.block) self.old.conditions row self.old.core;
        }) }
    {
        let block = context.block(self.block);
        self.core.feed_right(row, context.alloc, context.catalog, block, &self.conditions)
    }

    /// The left side has no row more.
    fn end_left(&mut self)
        requires { CanEnd NeedLeft (joined_in self.old.core).ripple }
        ensures { self.new ≡ record self.old { core = core_with self.old.core (left_ended (joined_in self.old.core).ripple) } }
    {
        self.core.end_left();
    }

    /// The right side has no row more.
    fn end_right(&mut self)
        requires { CanEnd NeedRight (joined_in self.old.core).ripple }
        ensures { self.new ≡ record self.old { core = core_with self.old.core (right_ended (joined_in self.old.core).ripple) } }
    {
        self.core.end_right();
    }

    /// The first held pair of a join that is ready.
    fn give(&mut self) -> Option<RankRow>
        requires alive { (joined_in self.old.core).ripple.spent ≡ false }
        requires ready { ask_of (joined_in self.old.core).ripple ≡ Ready }
        requires small { self.old.tally.gave < 2 ^ 128 - 1 }
        ensures row { result ≡ taken_for (ask_of (joined_in self.old.core).ripple) (joined_in self.old.core).ripple }
        ensures after { self.new ≡ record self.old {
          core = core_with self.old.core (left_for (ask_of (joined_in self.old.core).ripple) (joined_in self.old.core).ripple);
          tally = record self.old.tally { gave = if is_some result then self.old.tally.gave + 1 else self.old.tally.gave };
        } }
    {
        let row = self.core.take_ready();
        if row.is_some() {
            self.tally.give();
        }
        row
    }

    /// What it counts.
    pub(crate) fn counts(&self) -> Counts
        ensures { result ≡ record { asked = self.now.tally.asked; gave = self.now.tally.gave; calls = 0; drawn = 0 } }
    {
        Counts {
            asked: self.tally.asked,
            gave: self.tally.gave,
            calls: 0,
            drawn: 0,
        }
    }
}

/// The next row of a join, whichever way it is done. Its sides are asked until no pair still to come can precede the first held one.
#[cycle(next)]
pub(crate) fn next_joined<S: Scorer>(
    head: &mut JoinNode,
    left: &mut PlanNode,
    right: &mut PlanNode,
    context: &QueryContext<'_>,
    scorer: &mut S,
) -> Result<Option<RankRow>, ExecFault>
    requires can { CanAskJoin (world_in context.now (S.state scorer.old)) head.old left.old right.old }
    requires head { JoinNodeStands (world_in context.now (S.state scorer.old)) head.old left.old right.old }
    requires left { Stands (world_in context.now (S.state scorer.old)) head.old.block left.old }
    requires right { Stands (world_in context.now (S.state scorer.old)) head.old.block right.old }
    ensures { JoinAsked (world_in context.now (S.state scorer.old)) head.old left.old right.old head.new left.new right.new result (S.state scorer.old) (S.state scorer.new) }
{
    head.tally.ask();
    loop {
        match head.ask() {
            JoinAsk::NeedLeft => match left.next(context, scorer)? {
                Some(row) => head.feed_left(row, context)?,
                None => head.end_left(),
            },
            JoinAsk::NeedRight => match right.next(context, scorer)? {
                Some(row) => head.feed_right(row, context)?,
                None => head.end_right(),
            },
            JoinAsk::Ready => return Ok(head.give()),
            JoinAsk::End => return Ok(None),
        }
    }
}
