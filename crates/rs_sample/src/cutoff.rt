//! The cutoff of a block: the score of the last sampled row that is planned for.

ghost use Rattle.std.specs.Prelude.{ℕ, ◌≡◌, ◌≤◌, ◌*◌, ◌-◌, IfOk, IfSome, length, map, max, slice_get, unwrap_or};
ghost use Rattle.std.specs.Int.{div_ceil};
ghost use Rattle.std.specs.List.{AllByRecursion};
ghost use Rattle.rs_expr.specs.Scoring.{Answering};
ghost use Rattle.rs_catalog.specs.Catalog.{CatalogDef};
ghost use Rattle.rs_query.specs.Answers.{all_terms, score_of, weights_of};
ghost use Rattle.rs_query.specs.Tables.{all_entries};
ghost use Rattle.rs_query.specs.WellFormed.{IsBlock, IsLimit};
ghost use Rattle.rs_sample.specs.Choosing.{sampled_choices};
ghost use Rattle.rs_sample.specs.Estimates.{nth_greatest, planned_rows};
ghost use Rattle.rs_sample.specs.Quotients.{product_inside};
ghost use Rattle.rs_sample.specs.Sampling.{worths_by_term};
ghost use Rattle.rs_order.specs.Climbing.{In};

use crate::bound::evaluated_score;
use crate::lookup::worths_for;
use crate::quotient::product_inside;
use rs_query::Block;
use rs_rank::{Scored, sort_stably};
use rs_value::{List, Memory};
use std::alloc::Global;
use std::marker::Model;

/// A score alone.
#[derive(Drop)]
struct Score {
    score: u64,
}

impl Model for Score {
    ghost Value = { ℕ };

    ghost view = { λ s. s.score };
}

impl Scored for Score {
    ghost score_of = { λ score. score };

    fn score(&self) -> u64 {
        self.score
    }
}

/// The score at a place among these combinations of all entries, the greatest first, or 0 where there are fewer.
pub(crate) fn cutoff(
    alloc: Global,
    block: &Block,
    samples: &[List<u32>],
    sampled: &[u32; 6],
    worths: &[List<u32>],
    combinations: &[[u32; 6]],
    place: u128,
) -> Result<u64, Memory>
    requires some { 1 ≤ place }
    requires six { length samples.now ≡ 6 }
    requires few_rows { AllByRecursion (λ sample. length sample ≤ 256) samples.now }
    requires sampled { sampled.now ≡ map length samples.now }
    requires worths { length worths.now ≡ length block.now.terms }
    requires entries { (1 ≤ length block.now.from) × (length block.now.from ≤ 6) }
    requires few_terms { length block.now.terms ≤ 8 }
    requires limits { AllByRecursion (λ t. t.weight ≤ 1000000) block.now.terms }
    ensures { (answer : Answering) (catalogue : CatalogDef) → IsBlock catalogue block.now
        → worths.now ≡ worths_by_term answer catalogue block.now samples.now
        → AllByRecursion (λ rows. In rows (sampled_choices (all_entries block.now) samples.now)) combinations.now
        → IfOk result (λ cutoff. cutoff ≡ nth_greatest place (map (λ rows. score_of answer catalogue block.now rows block.now.terms) combinations.now)) }
{
    let weights = block.weights();
    let mut scores = Vec::new(alloc);
    for rows in combinations {
        let worths = worths_for(block, samples, sampled, worths, block.all_entries(), rows);
        scores.push(Score {
            score: evaluated_score(&weights, &worths, all_terms(block)),
        })?;
    }
    sort_stably(&mut scores)?;
    Ok(score_at(&scores, place))
}

/// The score at a place, counted from 1, or 0 where there are fewer.
fn score_at(scores: &[Score], place: u128) -> u64
    requires { 1 ≤ place }
    ensures { result ≡ unwrap_or (slice_get scores.now (place - 1)) 0 }
{
    if place > scores.len() as u128 {
        return 0;
    }
    let score = &scores[place as usize - 1];
    score.score
}

/// The mask of all terms.
fn all_terms(block: &Block) -> u8
    requires { length block.now.terms ≤ 8 }
    ensures { result ≡ all_terms block.now }
{
    ((1u16 << block.terms.len()) - 1) as u8
}

/// Which of the sampled scores is the cutoff: the last row that is planned for, scaled down to the samples. Without a limit
/// ten rows are planned for.
pub(crate) fn cutoff_place(
    limit: Option<u32>,
    entries: u8,
    sizes: &[u32; 6],
    sampled: &[u32; 6],
) -> u128
    requires limit { IsLimit limit }
    requires rows { AllByRecursion (λ size. size ≤ 131072) sizes.now }
    requires sampled { AllByRecursion (λ size. size ≤ 131072) sampled.now }
    requires none { product_inside entries sizes.now ≡ 0 → product_inside entries sampled.now ≡ 0 }
    ensures value { result ≡ max 1 (div_ceil (planned_rows limit * product_inside entries sampled.now) (product_inside entries sizes.now)) }
{
    let rows = product_inside(entries, sizes);
    if rows == 0 {
        return 1;
    }
    let planned = u128::from(limit.unwrap_or(10));
    (planned * product_inside(entries, sampled))
        .div_ceil(rows)
        .max(1)
}
