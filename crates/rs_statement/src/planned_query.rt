//! A query with the plan that is chosen for it.

ghost use Rattle.std.specs.Prelude.{◌≡◌, IfOk, None};
ghost use Rattle.rs_expr.specs.Scoring.{Answering};
ghost use Rattle.rs_query.specs.Tops.{HasTops};
ghost use Rattle.rs_query.specs.WellFormed.{IsQuery};
ghost use Rattle.rs_plan.specs.Shapes.{tree_of};
ghost use Rattle.rs_sample.specs.Kept.{cards_of};
ghost use Rattle.rs_enum.specs.Texts.{text_of};
ghost use Rattle.rs_exec.specs.Cursors.{IsNew, StandsFor};
ghost use Rattle.rs_catalog.specs.IndexesHold.{IndexesHold};
ghost use Rattle.rs_statement.specs.Parts.Asks.{without_value};
ghost use Rattle.rs_statement.specs.Parts.PlannedQuery.{IsPlanned, IsPlannedFor};
ghost use Rattle.rs_statement.specs.Parts.Steps.{Stepped};
ghost use Rattle.rs_statement.specs.Sampled.{sample_step};
ghost use Rattle.rs_events.specs.Environment.{Environment};

use crate::fault::Fault;
use crate::planning::{choose_plan, take_sample};
use crate::sampling::Sampling;
use rs_catalog::{Catalog, Snapshot};
use rs_enum::{cards_decide_the_text, explain};
use rs_exec::Cursor;
use rs_expr::Scorer;
use rs_plan::Plan;
use rs_query::{Query, worths_are_within_tops};
use rs_sample::Cards;
use rs_value::Memory;
use std::alloc::Global;

/// A query, what planning knows of it by its sample, and its plan.
#[derive(Drop)]
pub struct PlannedQuery {
    pub query: Query,
    pub cards: Cards,
    pub plan: Plan,
}

impl PlannedQuery {
    /// Takes the sample of a query, and chooses its least plan by it. All that ask or explain a plan have it from here.
    pub fn make<S: Scorer>(
        alloc: Global,
        sampling: Sampling,
        catalog: &Catalog,
        query: Query,
        scorer: &mut S,
    ) -> Result<PlannedQuery, Fault>
        requires { IsQuery catalog.now query }
        ensures calls { (beside : Environment) → Stepped (λ step. step ≡ sample_step catalog.now sampling query) catalog.now (without_value result)
            (record beside { scorer = S.state scorer.old }) (record beside { scorer = S.state scorer.new }) }
        ensures planned { IfOk result (IsPlannedFor (S.state scorer.old).answer catalog.now sampling query) }
    {
        // What is owned is let go of by name at each end: else it takes long to prove.
        let cards = match take_sample(alloc, sampling, catalog, &query, scorer) {
            Ok(cards) => cards,
            Err(fault) => {
                drop(query);
                return Err(fault);
            }
        };
        cards_decide_the_text();
        match choose_plan(alloc, catalog, &query, &cards) {
            Ok(plan) => Ok(PlannedQuery { query, cards, plan }),
            Err(Memory) => {
                drop(cards);
                drop(query);
                Err(Fault::Memory)
            }
        }
    }

    /// A cursor over the plan. No row is asked for yet.
    pub fn start(self, alloc: Global, catalog: &Catalog) -> Result<Cursor, Memory>
        requires { IsPlanned catalog.now self }
        ensures new { IfOk result (IsNew self.query (tree_of self.plan)) }
        ensures stands { (answer : Answering) → IndexesHold answer catalog.now → HasTops catalog.now self.query → IfOk result (StandsFor catalog.now answer) }
    {
        worths_are_within_tops();
        let PlannedQuery { query, cards, plan } = self;
        drop(cards);
        let started = Cursor::start(alloc, &Snapshot::current(catalog), query, &plan);
        drop(plan);
        started
    }

    /// The text of the plan, before the query is asked.
    pub fn text(&self, alloc: Global, catalog: &Catalog) -> Result<Vec<u8>, Memory>
        requires { IsPlanned catalog.now self.now }
        ensures { IfOk result (λ text. text.items ≡ text_of catalog.now self.now.query (cards_of self.now.cards) (tree_of self.now.plan) None) }
    {
        explain(alloc, catalog, &self.query, &self.cards, &self.plan, None)
    }
}
