//! Samples and estimates as often as their time is to be taken.

ghost use Rattle.std.specs.Prelude.{◌<◌, ◌^◌, IfOk, length};
ghost use Rattle.rs_query.specs.WellFormed.{IsQuery};
ghost use Rattle.rs_sample.specs.Kept.{cards_of};
ghost use Rattle.cases_plans.specs.Shapes.{HasShape, IsOfBlock};

use crate::cards::are_read;
use cases_lines::Fault;
use rs_catalog::Catalog;
use rs_expr::FormulaScorer;
use rs_query::{Block, Query};
use rs_sample::{Cards, SampleFault};
use std::alloc::Global;

/// Takes this many samples, asks for all estimates of each this many times, and tells the sum of these.
pub fn tell_time(
    alloc: Global,
    catalog: &Catalog,
    query: &Query,
    takes: u32,
    asks: u32,
) -> Result<String, Fault>
    requires { IsQuery catalog.now query.now }
{
    let mut sum = 0;
    for seed in 0..takes {
        let cards = take(alloc, catalog, query, seed)?;
        for _ in 0..asks {
            sum = sum_with(query, &cards, sum);
        }
    }
    Ok(format!(in alloc; "  sum {sum}\n")?)
}

/// Takes a sample by a seed.
fn take(alloc: Global, catalog: &Catalog, query: &Query, seed: u32) -> Result<Cards, Fault>
    requires { IsQuery catalog.now query.now }
    ensures { IfOk result (λ cards. HasShape query.now (cards_of cards)) }
{
    let mut scorer = FormulaScorer::new();
    match Cards::take(alloc, catalog, query, u64::from(seed), &mut scorer) {
        Ok(cards) => Ok(cards),
        Err(SampleFault::Memory) => Err(Fault::Memory),
        Err(SampleFault::Probe { .. }) => Err(Fault::Form),
    }
}

/// The sum with all estimates of a query.
fn sum_with(query: &Query, cards: &Cards, sum: u128) -> u128
    requires { HasShape query.now (cards_of cards.now) }
{
    match query {
        Query::One(block, _) => sum_of(cards, 1, block, sum),
        Query::Set(_, left, right, _) => {
            let sum = sum_of(cards, 1, left, sum);
            sum_of(cards, 2, right, sum)
        }
    }
}

/// The sum with all estimates of the block of this number.
fn sum_of(cards: &Cards, number: u8, block: &Block, mut sum: u128) -> u128
    requires { IsOfBlock block.now number (cards_of cards.now) }
{
    for mask in 1..1u8 << block.from.len() {
        sum = sum_of_mask(cards, number, block, mask, sum);
    }
    sum
}

/// The sum with the estimates of a mask of entries.
fn sum_of_mask(cards: &Cards, number: u8, block: &Block, mask: u8, mut sum: u128) -> u128
    requires of { IsOfBlock block.now number (cards_of cards.now) }
    requires mask { mask < 2 ^ length block.now.from }
{
    for terms in 0..1u16 << block.terms.len() {
        if are_read(block, terms as u8, mask) {
            sum = sum.wrapping_add(cards.est(number, mask, terms as u8));
        }
    }
    sum
}
