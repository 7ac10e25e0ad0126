//! When a cursor over a plan may be asked: a law that holds of every catalogue and scorer. The function computes nothing; it is
//! called for its contract.

ghost use Rattle.rs_expr.specs.Scoring.{Answering};
ghost use Rattle.rs_catalog.specs.Catalog.{CatalogDef};
ghost use Rattle.rs_catalog.specs.IndexesHold.{IndexesHold};
ghost use Rattle.rs_plan.specs.Trees.{PlanTree};
ghost use Rattle.rs_exec.specs.Indexes.{PlanIndexesHold};

/// Where no index of a catalogue lacks a scorer's answers, none does that a plan scans. Then a cursor over the plan may be asked.
pub fn indexes_of_plans_hold_answers()
    ensures { (catalogue : CatalogDef) (answer : Answering) (tree : PlanTree) → IndexesHold answer catalogue → PlanIndexesHold answer catalogue tree }
{}
