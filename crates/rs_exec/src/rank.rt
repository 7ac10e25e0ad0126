//! The rank operator as a node. It alone calls the scorer.

ghost use Rattle.std.specs.Prelude.{◌≡◌, ◌≤◌, ◌<◌, ◌+◌, ◌-◌, ◌^◌, OnOk, Some, is_some, if◌then◌else◌, length, slice_get, false, true};
ghost use Rattle.rs_expr.specs.InOrder.{Inquires};
ghost use Rattle.rs_mu.specs.Mu.{CanEnd, CanFeed, IsNewTerm, ask_of, left_for, new_mu, taken_for};
ghost use Rattle.rs_query.specs.Blocks.{block_in};
ghost use Rattle.rs_query.specs.Meaning.{is_inside};
ghost use Rattle.rs_query.specs.Tables.{HasRows};
ghost use Rattle.rs_query.specs.WellFormed.{IsBlock};
ghost use Rattle.rs_query.specs.declared.term.Term.{Term as BoundTerm};
ghost use Rattle.rs_rank.specs.Weights.{IsWeights};
ghost use Rattle.rs_rank.specs.declared.ask.Ask.TheVariants.{Need};
ghost use Rattle.rs_exec.specs.Asked.{CanAskRank, RankAsked, RankStands};
ghost use Rattle.rs_exec.specs.Asking.{world_in};
ghost use Rattle.rs_exec.specs.Drawing.{IsSmall, tally_with};
ghost use Rattle.rs_exec.specs.Feeding.{CanTake, feeding, left_by};
ghost use Rattle.rs_exec.specs.Nodes.{number_in};
ghost use Rattle.rs_exec.specs.Standing.{Stands};

use crate::context::QueryContext;
use crate::fault::ExecFault;
use crate::node::PlanNode;
use crate::tally::Tally;
use rs_expr::Scorer;
use rs_mu::MuCore;
use rs_plan::Counts;
use rs_query::KeptList;
use rs_rank::{Ask, RankRow, Weights};
use std::alloc::Global;

/// A rank operator, without its input.
#[derive(Drop)]
pub(crate) struct RankNode {
    pub(crate) core: MuCore,
    /// The number of its term.
    pub(crate) term: u8,
    /// The arguments of its last call.
    pub(crate) args: KeptList,
    pub(crate) tally: Tally,
    /// How many calls it made.
    pub(crate) calls: u128,
}

impl RankNode {
    /// The operator that evaluates a term over rows of which `terms` are evaluated. No row is fed.
    pub(crate) fn new(alloc: Global, weights: Weights, terms: u8, term: u8) -> RankNode
        requires weights { IsWeights weights }
        requires term { IsNewTerm terms term }
        ensures { result ≡ record {
          core = new_mu weights terms term;
          term = term;
          args = tt;
          tally = record { asked = 0; gave = 0 };
          calls = 0;
        } }
    {
        RankNode {
            core: MuCore::new(alloc, weights, terms, term),
            term,
            args: KeptList::new(alloc),
            tally: Tally::new(),
            calls: 0,
        }
    }

    /// Calls the scorer for the input's next row, and keeps the row.
    fn feed<S: Scorer>(
        &mut self,
        row: RankRow,
        context: &QueryContext<'_>,
        scorer: &mut S,
    ) -> Result<(), ExecFault>
        requires can { CanTake context.now.catalog.now (S.state scorer.old).answer context.now.query.now row self.old }
        ensures { (term : BoundTerm) → slice_get (block_in context.now.query.now row.ids.block).terms (self.old.term - 1) ≡ Some term
            → Inquires ExecFault.Memory
            (feeding (S.state scorer.old).answer context.now.catalog.now context.now.query.now row term self.old)
            (left_by result self.new) (S.state scorer.old) (S.state scorer.new) }
    {
        let block = context.block(row.ids.block);
        let worth = block.ask(context.catalog, self.term, &row.ids, &mut self.args, scorer)?;
        self.calls += 1;
        self.core.feed(row, worth)?;
        Ok(())
    }

    /// Whether it needs one row more of its input.
    fn needs(&self) -> bool
        requires alive { self.now.core.spent ≡ false }
        ensures needs { result ≡ true → ask_of self.now.core ≡ Need }
        ensures rests { result ≡ false → ask_of self.now.core ≡ Need → ⊥ }
    {
        self.core.ask() == Ask::Need
    }

    /// Its input has no row more.
    fn end(&mut self)
        requires { CanEnd self.old.core }
        ensures { self.new ≡ record self.old { core = record self.old.core { ended = true } } }
    {
        self.core.feed_end();
    }

    /// The first held row, where the operator is ready.
    fn give(&mut self) -> Option<RankRow>
        requires alive { self.old.core.spent ≡ false }
        requires small { self.old.tally.gave < 2 ^ 128 - 1 }
        ensures row { result ≡ taken_for (ask_of self.old.core) self.old.core }
        ensures after { self.new ≡ record self.old {
          core = left_for (ask_of self.old.core) self.old.core;
          tally = record self.old.tally { gave = if is_some result then self.old.tally.gave + 1 else self.old.tally.gave };
        } }
    {
        let row = self.core.take();
        if row.is_some() {
            self.tally.give();
        }
        row
    }

    /// What it counts.
    pub(crate) fn counts(&self) -> Counts
        ensures { result ≡ record { asked = self.now.tally.asked; gave = self.now.tally.gave; calls = self.now.calls; drawn = 0 } }
    {
        Counts {
            asked: self.tally.asked,
            gave: self.tally.gave,
            calls: self.calls,
            drawn: 0,
        }
    }
}

/// The next row of a rank operator. Its input is asked until no row still to come can precede the first held one.
#[cycle(next)]
pub(crate) fn next_ranked<S: Scorer>(
    head: &mut RankNode,
    child: &mut PlanNode,
    context: &QueryContext<'_>,
    scorer: &mut S,
) -> Result<Option<RankRow>, ExecFault>
    requires can { CanAskRank (world_in context.now (S.state scorer.old)) head.old child.old }
    requires head { RankStands (world_in context.now (S.state scorer.old)) head.old child.old }
    requires child { Stands (world_in context.now (S.state scorer.old)) (number_in child.old) child.old }
    ensures { RankAsked (world_in context.now (S.state scorer.old)) head.old child.old head.new child.new result (S.state scorer.old) (S.state scorer.new) }
{
    head.tally.ask();
    while head.needs() {
        match child.next(context, scorer)? {
            Some(row) => head.feed(row, context, scorer)?,
            None => head.end(),
        }
    }
    Ok(head.give())
}
