ghost use Rattle.std.specs.Prelude.{◌≡◌, ◌↔◌, ◌≤◌, ℕ, IfOk, IfSome, None, Ok, is_err, length, slice_get};
ghost use Rattle.rs_expr.specs.InOrder.{Inquires};
ghost use Rattle.rs_expr.specs.Scoring.{Answering};
ghost use Rattle.rs_catalog.specs.Catalog.{CatalogDef};
ghost use Rattle.rs_plan.specs.Counts.{AreWithinLimits, counts_of_plan};
ghost use Rattle.rs_plan.specs.Lists.{World};
ghost use Rattle.rs_plan.specs.Plans.{IsPlan};
ghost use Rattle.rs_plan.specs.Shapes.{tree_of};
ghost use Rattle.rs_query.specs.Tops.{IsBounded};
ghost use Rattle.rs_query.specs.WellFormed.{IsQuery};
ghost use Rattle.rs_exec.specs.Asking.{world_of};
ghost use Rattle.rs_exec.specs.Cursors.{CanGo, IsNew, IsOver, StandsFor, asks_after, asks_of, call_of, is_limit, is_over, next_of, plan_of};
ghost use Rattle.rs_exec.specs.Indexes.{PlanIndexesHold};
ghost use Rattle.rs_exec.specs.OutputValues.{CanPutOut, values_for};

use crate::context::QueryContext;
use crate::fault::ExecFault;
use crate::node::PlanNode;
use rs_catalog::Snapshot;
use rs_expr::Scorer;
use rs_plan::{Counts, Plan};
use rs_query::{Query, limit_of, limits_hold};
use rs_rank::{Answer, RankRow};
use rs_value::{List, Memory};
use std::alloc::Global;
use std::marker::Model;

/// A query whose rows are given one after another, by a plan.
///
/// It keeps its plan's state between two calls, so whoever holds it may stop at any row. It is asked over a snapshot of the catalogue,
/// which is to show the same rows at each call: what joins the catalogue in between then changes nothing for it.
#[derive(Drop)]
pub struct Cursor {
    alloc: Global,
    query: Query,
    root: PlanNode,
    // Whether a call of it failed.
    failed: bool,
}

impl Model for Cursor {
    ghost use Rattle.rs_exec.specs.Cursors.{CursorState};
    ghost use Rattle.rs_exec.specs.Stored.{cursor_code};

    ghost Value = { CursorState };

    ghost coded = { cursor_code };

    ghost view = { λ c. record { query = c.query; root = c.root; failed = c.failed } };
}

impl Cursor {
    /// A cursor over a plan of the query. No row is asked for yet. It stands for the catalogue and each scorer whose answers the plan's
    /// indexes hold and by which no term is worth more than its maximum.
    ///
    /// # Errors
    ///
    /// - `Memory`: at any call.
    pub fn start(
        alloc: Global,
        catalog: &Snapshot<'_>,
        query: Query,
        plan: &Plan,
    ) -> Result<Cursor, Memory>
        requires query { IsQuery catalog.now query }
        requires plan { IsPlan catalog.now query (tree_of plan.now) }
        ensures new { IfOk result (IsNew query (tree_of plan.now)) }
        ensures stands { (answer : Answering) → PlanIndexesHold answer catalog.now (tree_of plan.now) → IsBounded answer catalog.now query
            → IfOk result (StandsFor catalog.now answer) }
    {
        limits_hold(catalog, &query);
        match PlanNode::of_plan(alloc, catalog, &query, plan) {
            Ok(root) => Ok(Cursor {
                alloc,
                query,
                root,
                failed: false,
            }),
            Err(Memory) => {
                drop(query);
                Err(Memory)
            }
        }
    }

    /// The next row of the answer. The scorer is called only where this row, or the end, needs it. The plan's indexes have to hold the
    /// scorer's answers, since a scan of an index calls nobody.
    ///
    /// # Errors
    ///
    /// - `None`: exactly where the answer has ended or LIMIT rows were given, unless the ask that finds the end comes to a fault.
    ///   Behind that ask, or behind LIMIT rows, it always comes, without a call and without memory.
    /// - `BadScore`: exactly at the first call of this ask whose answer lies outside 0 to the predicate's MAX, unless `Probe` or
    ///   `Memory` came before.
    /// - `Probe`: only where the last call of this ask failed; the scorer's count of faults rose.
    /// - `Memory`: at any time of this ask, but not behind an answer outside that range. The calls that were made are a first part
    ///   of those of the ask.
    /// - `Broken`: exactly where an earlier call of this cursor answered a fault.
    pub fn next<S: Scorer>(
        &mut self,
        catalog: &Snapshot<'_>,
        scorer: &mut S,
    ) -> Result<Option<Answer>, ExecFault>
        requires { CanGo catalog.now (S.state scorer.old).answer self.old }
        ensures asks { Inquires ExecFault.Memory (call_of catalog.now (S.state scorer.old).answer self.old) result
            (S.state scorer.old) (S.state scorer.new) }
        ensures over { IsOver catalog.now (S.state scorer.old).answer self.old → result ≡ Ok None }
        ensures query { self.new.query ≡ self.old.query }
        ensures failed { self.new.failed ≡ is_err result }
        ensures plan { IfOk result (λ _. plan_of self.new ≡ plan_of self.old) }
        ensures count { IfOk result (λ _. asks_of self.new
            ≡ asks_after (world_of catalog.now (S.state scorer.old).answer self.old.query) (plan_of self.old) (asks_of self.old)) }
        ensures stands { IfOk result (λ _. StandsFor catalog.now (S.state scorer.old).answer self.new) }
    {
        if self.failed {
            return Err(ExecFault::Broken);
        }
        let result = self.advance(catalog, scorer);
        self.failed = result.is_err();
        result
    }

    /// The query, as it was given.
    pub fn query(&self) -> &Query
        ensures { result.now ≡ self.now.query }
    {
        &self.query
    }

    /// What the node at a place of the plan has done so far. A node stands before its children, the first one at 0. It takes no
    /// memory. The counts are those of the definitions as long as the cursor stands; behind a call that failed no clause says what
    /// they are.
    ///
    /// # Errors
    ///
    /// - `None`: exactly past the last node of the plan.
    pub fn counts(&self, node: u8) -> Option<Counts>
        ensures past { (w : World) (n : ℕ) → (result ≡ None) ↔ (length (counts_of_plan w (plan_of self.now) n) ≤ node) }
        ensures counts { (catalogue : CatalogDef) (answer : Answering) → StandsFor catalogue answer self.now
            → result ≡ slice_get (counts_of_plan (world_of catalogue answer self.now.query) (plan_of self.now) (asks_of self.now)) node }
        ensures limits { (catalogue : CatalogDef) (answer : Answering) → StandsFor catalogue answer self.now → IfSome result AreWithinLimits }
    {
        self.root.counts_at(node)
    }

    /// The next row, of a cursor that didn't fail.
    fn advance<S: Scorer>(
        &mut self,
        catalog: &Snapshot<'_>,
        scorer: &mut S,
    ) -> Result<Option<Answer>, ExecFault>
        requires { StandsFor catalog.now (S.state scorer.old).answer self.old }
        ensures asks { Inquires ExecFault.Memory
            (next_of (world_of catalog.now (S.state scorer.old).answer self.old.query) (plan_of self.old) (asks_of self.old)) result
            (S.state scorer.old) (S.state scorer.new) }
        ensures over { IsOver catalog.now (S.state scorer.old).answer self.old → result ≡ Ok None }
        ensures query { self.new.query ≡ self.old.query }
        ensures plan { IfOk result (λ _. plan_of self.new ≡ plan_of self.old) }
        ensures count { IfOk result (λ _. asks_of self.new
            ≡ asks_after (world_of catalog.now (S.state scorer.old).answer self.old.query) (plan_of self.old) (asks_of self.old)) }
        ensures stands { IfOk result (λ _. StandsFor catalog.now (S.state scorer.old).answer self.new) }
    {
        if self.is_over() {
            return Ok(None);
        }
        let context = QueryContext {
            alloc: self.alloc,
            catalog,
            query: &self.query,
        };
        match self.root.next(&context, scorer)? {
            Some(row) => Ok(Some(answer_for(&context, &row)?)),
            None => Ok(None),
        }
    }

    /// Whether LIMIT rows were given, or an ask found the end.
    fn is_over(&self) -> bool
        ensures { (catalogue : CatalogDef) (answer : Answering) → StandsFor catalogue answer self.now
            → result ≡ is_over (world_of catalogue answer self.now.query) (plan_of self.now) (asks_of self.now) }
    {
        let tally = self.root.tally();
        is_limit(limit_of(&self.query), tally.asked) || tally.gave < tally.asked
    }
}

/// Whether this many rows are as many as LIMIT says.
fn is_limit(limit: Option<u32>, rows: u128) -> bool
    ensures { result ≡ is_limit limit rows }
{
    match limit {
        Some(limit) => u128::from(limit) <= rows,
        None => false,
    }
}

/// The row with its score and its output values.
fn answer_for(context: &QueryContext<'_>, row: &RankRow) -> Result<Answer, Memory>
    requires { CanPutOut context.now.catalog.now context.now.query.now row.now }
    ensures { IfOk result (λ answer. answer ≡ record {
      ids = row.now.ids;
      score = row.now.sum;
      values = values_for context.now.catalog.now context.now.query.now row.now;
    }) }
{
    let values = context.outputs(row)?;
    Ok(Answer {
        ids: row.ids,
        score: row.sum,
        values: List::of(values),
    })
}
