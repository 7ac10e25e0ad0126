//! The least plan of a query, and its text.

ghost use Rattle.std.specs.Prelude.{◌≡◌, ◌≤◌, IfOk, IfSome, length, true};
ghost use Rattle.rs_query.specs.WellFormed.{IsQuery};
ghost use Rattle.rs_sample.specs.Kept.{cards_of};
ghost use Rattle.rs_plan.specs.Plans.{IsPlan};
ghost use Rattle.rs_plan.specs.Shapes.{tree_of};
ghost use Rattle.rs_enum.specs.QueryCards.{AreCards};
ghost use Rattle.rs_enum.specs.Texts.{nodes_of};

use cases_lines::Fault;
use rs_catalog::Catalog;
use rs_enum::{best, explain, nodes_of};
use rs_expr::MemScorer;
use rs_plan::{Counts, Plan};
use rs_query::Query;
use rs_sample::{Cards, SampleFault};
use rs_value::Text;
use std::alloc::Global;

/// The text of the least plan of a query.
pub fn tell_least(
    alloc: Global,
    catalog: &Catalog,
    query: &Query,
    seed: u64,
    counts: Option<&[Counts]>,
    scorer: &mut MemScorer,
) -> Result<String, Fault>
    requires { IsQuery catalog.now query.now }
{
    let cards = sampled(alloc, catalog, query, seed, scorer)?;
    let plan = best(alloc, catalog, query, &cards)?;
    tell_plan(alloc, catalog, query, &cards, &plan, counts)
}

/// The cards of a query by a sample. A call that fails ends all.
pub fn sampled(
    alloc: Global,
    catalog: &Catalog,
    query: &Query,
    seed: u64,
    scorer: &mut MemScorer,
) -> Result<Cards, Fault>
    requires { IsQuery catalog.now query.now }
    ensures { IfOk result (λ cards. AreCards query.now (cards_of cards)) }
{
    match Cards::take(alloc, catalog, query, seed, scorer) {
        Ok(cards) => Ok(cards),
        Err(SampleFault::Memory) => Err(Fault::Memory),
        Err(_) => Err(Fault::Form),
    }
}

/// Tells the text of a plan, or that there aren't as many counts as nodes.
fn tell_plan(
    alloc: Global,
    catalog: &Catalog,
    query: &Query,
    cards: &Cards,
    plan: &Plan,
    counts: Option<&[Counts]>,
) -> Result<String, Fault>
    requires query { IsQuery catalog.now query.now }
    requires cards { AreCards query.now (cards_of cards.now) }
    requires plan { IsPlan catalog.now query.now (tree_of plan.now) }
{
    if !are_all(plan, counts) {
        return Ok(format!(in alloc; "  miscounted\n")?);
    }
    let text = explain(alloc, catalog, query, cards, plan, counts)?;
    indented(alloc, &Text::from_bytes(alloc, &text)?)
}

/// Whether there are as many counts as nodes, or none.
fn are_all(plan: &Plan, counts: Option<&[Counts]>) -> bool
    requires { nodes_of (tree_of plan.now) ≤ 255 }
    ensures { result ≡ true → IfSome counts.entry (λ told. length told.now ≡ nodes_of (tree_of plan.now)) }
{
    match counts {
        Some(told) => told.len() == nodes_of(plan) as usize,
        None => true,
    }
}

/// The lines of a text, each behind two spaces.
fn indented(alloc: Global, text: &Text) -> Result<String, Fault> {
    let mut told = String::new(alloc);
    for line in text.as_str().lines() {
        told.push_str("  ")?;
        told.push_str(line)?;
        told.push_str("\n")?;
    }
    Ok(told)
}
