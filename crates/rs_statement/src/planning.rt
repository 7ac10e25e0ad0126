//! What comes before the rows of a query are asked for: its sample, and the plan that is chosen by it.

ghost use Rattle.std.specs.Prelude.{◌≡◌, ◌⊎◌, IfOk, List};
ghost use Rattle.rs_expr.specs.Scoring.{Answering};
ghost use Rattle.rs_query.specs.WellFormed.{IsQuery};
ghost use Rattle.rs_plan.specs.Plans.{IsPlan};
ghost use Rattle.rs_plan.specs.Shapes.{tree_of};
ghost use Rattle.rs_sample.specs.Cards.{AllSayTheSame, BlockCards};
ghost use Rattle.rs_sample.specs.Kept.{cards_of};
ghost use Rattle.rs_sample.specs.Sampling.{NamesPredicate};
ghost use Rattle.rs_enum.specs.Least.{least_plan};
ghost use Rattle.rs_enum.specs.QueryCards.{AreCards};
ghost use Rattle.rs_statement.specs.Parts.Asks.{without_value};
ghost use Rattle.rs_statement.specs.Parts.Steps.{Stepped};
ghost use Rattle.rs_statement.specs.Planned.{cards_for};
ghost use Rattle.rs_statement.specs.Sampled.{sample_fault, sample_step};
ghost use Rattle.rs_statement.specs.declared.sampling.Sampling.TheVariants.{ByGuesses, ByScores};
ghost use Rattle.rs_events.specs.Environment.{Environment};

use crate::fault::Fault;
use crate::query::failed_call;
use crate::sampling::Sampling;
use rs_catalog::Catalog;
use rs_enum::{
    best, cards_decide_the_plan, sampled_cards_are_those_of_the_query, there_is_one_least_plan,
};
use rs_expr::{FormulaScorer, Scorer};
use rs_plan::Plan;
use rs_query::Query;
use rs_sample::{Cards, SampleFault};
use rs_value::Memory;
use std::alloc::Global;

/// Takes the sample of a query, and gives what planning knows by it. Where the scorer scores it, its calls are made; by guesses
/// nobody is called.
pub fn take_sample<S: Scorer>(
    alloc: Global,
    sampling: Sampling,
    catalog: &Catalog,
    query: &Query,
    scorer: &mut S,
) -> Result<Cards, Fault>
    requires { IsQuery catalog.now query.now }
    ensures calls { (beside : Environment) → Stepped (λ step. step ≡ sample_step catalog.now sampling query.now) catalog.now (without_value result)
        (record beside { scorer = S.state scorer.old }) (record beside { scorer = S.state scorer.new }) }
    ensures cards { IfOk result (λ cards. AllSayTheSame (cards_of cards) (cards_for (S.state scorer.old).answer catalog.now sampling query.now)) }
    ensures own { IfOk result (λ cards. AreCards query.now (cards_of cards)) }
{
    match sampling {
        Sampling::ByScores(seed) => take_by_scores(alloc, seed, catalog, query, scorer),
        Sampling::ByGuesses(seed) => Ok(take_by_guesses(alloc, seed, catalog, query)?),
    }
}

/// Takes the sample of a query: makes its calls, and gives what planning knows by their answers.
fn take_by_scores<S: Scorer>(
    alloc: Global,
    seed: u64,
    catalog: &Catalog,
    query: &Query,
    scorer: &mut S,
) -> Result<Cards, Fault>
    requires { IsQuery catalog.now query.now }
    ensures calls { (beside : Environment) → Stepped (λ step. step ≡ sample_step catalog.now (ByScores seed) query.now) catalog.now (without_value result)
        (record beside { scorer = S.state scorer.old }) (record beside { scorer = S.state scorer.new }) }
    ensures cards { IfOk result (λ cards. AllSayTheSame (cards_of cards) (cards_for (S.state scorer.old).answer catalog.now (ByScores seed) query.now)) }
    ensures own { IfOk result (λ cards. AreCards query.now (cards_of cards)) }
{
    sampled_cards_are_those_of_the_query();
    match Cards::take(alloc, catalog, query, seed, scorer) {
        Ok(cards) => Ok(cards),
        Err(why) => Err(sample_fault(catalog, why)),
    }
}

/// Takes the sample of a query, and gives what planning knows by the formulas of its predicates.
fn take_by_guesses(
    alloc: Global,
    seed: u64,
    catalog: &Catalog,
    query: &Query,
) -> Result<Cards, Memory>
    requires { IsQuery catalog.now query.now }
    ensures cards { IfOk result (λ cards. (answer : Answering) → AllSayTheSame (cards_of cards) (cards_for answer catalog.now (ByGuesses seed) query.now)) }
    ensures own { IfOk result (λ cards. AreCards query.now (cards_of cards)) }
{
    sampled_cards_are_those_of_the_query();
    let mut formulas = FormulaScorer::new();
    match Cards::take(alloc, catalog, query, seed, &mut formulas) {
        Ok(cards) => Ok(cards),
        // A formula has a value for all arguments, so none of these calls fails.
        Err(SampleFault::Probe { .. }) => unreachable!(),
        Err(SampleFault::Memory) => Err(Memory),
    }
}

/// The fault of a query that has no sample, with the name of the predicate.
fn sample_fault(catalog: &Catalog, why: SampleFault) -> Fault
    requires { NamesPredicate catalog.now why }
    ensures { (result ≡ sample_fault catalog.now why) ⊎ (result ≡ Fault.Memory) }
{
    match why {
        SampleFault::Probe { predicate } => failed_call(catalog.predicate(predicate)),
        SampleFault::Memory => Fault::Memory,
    }
}

/// The least plan of a query.
pub fn choose_plan(
    alloc: Global,
    catalog: &Catalog,
    query: &Query,
    cards: &Cards,
) -> Result<Plan, Memory>
    requires formed { IsQuery catalog.now query.now }
    requires cards { AreCards query.now (cards_of cards.now) }
    ensures tree { (sampled : List BlockCards) → AllSayTheSame (cards_of cards.now) sampled
        → IfOk result (λ plan. tree_of plan ≡ least_plan catalog.now query.now sampled) }
    ensures plan { IfOk result (λ plan. IsPlan catalog.now query.now (tree_of plan)) }
{
    there_is_one_least_plan();
    cards_decide_the_plan();
    best(alloc, catalog, query, cards)
}
