//! DISTINCT as a node.

ghost use Rattle.std.specs.Prelude.{◌≡◌, ◌<◌, ◌+◌, ◌-◌, ◌^◌, IfOk, is_some, if◌then◌else◌, false};
ghost use Rattle.rs_filter.specs.Distinct.{given_for, new_distinct};
ghost use Rattle.rs_outputs.specs.Seen.{with_list};
ghost use Rattle.rs_exec.specs.Asked.{CanAskDistinct, DistinctAsked, DistinctStands};
ghost use Rattle.rs_exec.specs.Asking.{world_in};
ghost use Rattle.rs_exec.specs.Nodes.{number_in};
ghost use Rattle.rs_exec.specs.OutputValues.{CanPutOut, values_for};
ghost use Rattle.rs_exec.specs.Standing.{Stands};

use crate::context::QueryContext;
use crate::fault::ExecFault;
use crate::node::PlanNode;
use crate::tally::Tally;
use rs_expr::Scorer;
use rs_filter::DistinctCore;
use rs_plan::Counts;
use rs_rank::RankRow;
use rs_value::Memory;
use std::alloc::Global;

/// The operator that drops duplicates, without its input.
#[derive(Drop)]
pub(crate) struct DistinctNode {
    pub(crate) core: DistinctCore,
    pub(crate) tally: Tally,
}

impl DistinctNode {
    /// No row is fed.
    pub(crate) fn new(alloc: Global) -> DistinctNode
        ensures { result ≡ record { core = new_distinct; tally = record { asked = 0; gave = 0 } } }
    {
        DistinctNode {
            core: DistinctCore::new(alloc),
            tally: Tally::new(),
        }
    }

    /// Takes the input's next row, and gives it where no earlier row had its output values.
    fn feed(&mut self, row: RankRow, context: &QueryContext<'_>) -> Result<Option<RankRow>, Memory>
        requires alive { self.old.core.spent ≡ false }
        requires row { CanPutOut context.now.catalog.now context.now.query.now row }
        requires small { self.old.tally.gave < 2 ^ 128 - 1 }
        ensures row { IfOk result (λ given. given ≡ given_for row (values_for context.now.catalog.now context.now.query.now row) self.old.core.lists) }
        ensures after { IfOk result (λ given. self.new ≡ record self.old {
          core = record self.old.core { lists = with_list (values_for context.now.catalog.now context.now.query.now row) self.old.core.lists };
          tally = record self.old.tally { gave = if is_some given then self.old.tally.gave + 1 else self.old.tally.gave };
        }) }
    {
        let values = context.outputs(&row)?;
        let given = self.core.feed(row, values)?;
        if given.is_some() {
            self.tally.give();
        }
        Ok(given)
    }

    /// What it counts.
    pub(crate) fn counts(&self) -> Counts
        ensures { result ≡ record { asked = self.now.tally.asked; gave = self.now.tally.gave; calls = 0; drawn = 0 } }
    {
        Counts {
            asked: self.tally.asked,
            gave: self.tally.gave,
            calls: 0,
            drawn: 0,
        }
    }
}

/// The next row of an operator that drops duplicates. Its input is asked until a row comes whose output values are new.
#[cycle(next)]
pub(crate) fn next_distinct<S: Scorer>(
    head: &mut DistinctNode,
    child: &mut PlanNode,
    context: &QueryContext<'_>,
    scorer: &mut S,
) -> Result<Option<RankRow>, ExecFault>
    requires can { CanAskDistinct (world_in context.now (S.state scorer.old)) head.old child.old }
    requires head { DistinctStands (world_in context.now (S.state scorer.old)) head.old child.old }
    requires child { Stands (world_in context.now (S.state scorer.old)) (number_in child.old) child.old }
    ensures { DistinctAsked (world_in context.now (S.state scorer.old)) head.old child.old head.new child.new result (S.state scorer.old) (S.state scorer.new) }
{
    head.tally.ask();
    while let Some(row) = child.next(context, scorer)? {
        let given = head.feed(row, context)?;
        if given.is_some() {
            return Ok(given);
        }
    }
    Ok(None)
}
