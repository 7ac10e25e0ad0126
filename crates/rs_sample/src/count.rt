//! How many sampled rows reach the cutoff, and what is expected of whole tables.

ghost use Rattle.std.specs.Prelude.{ℕ, ◌≡◌, ◌<◌, ◌≤◌, ◌^◌, IfOk, filter, get_or, length, map};
ghost use Rattle.std.specs.List.{AllByRecursion};
ghost use Rattle.rs_expr.specs.Scoring.{Answering};
ghost use Rattle.rs_catalog.specs.Catalog.{CatalogDef};
ghost use Rattle.rs_order.specs.Climbing.{In};
ghost use Rattle.rs_query.specs.WellFormed.{IsBlock};
ghost use Rattle.rs_sample.specs.Choosing.{sampled_choices};
ghost use Rattle.rs_sample.specs.Finding.{known_estimate, known_reaches, truths_by_conjunct};
ghost use Rattle.rs_sample.specs.Quotients.{most_expected};
ghost use Rattle.rs_sample.specs.Samples.{AreBlockSamples};
ghost use Rattle.rs_sample.specs.Sampling.{worths_by_term};

use crate::bound::count_reached;
use crate::combinations::combinations;
use crate::lookup::worths_for;
use crate::quotient::expected_count;
use rs_query::Block;
use rs_value::{List, Memory};
use std::alloc::Global;

/// What is expected of the combinations of the entries in a mask, for each mask of terms. The number of a mask whose terms
/// read other entries too says nothing.
pub(crate) fn estimates_for(
    alloc: Global,
    block: &Block,
    sizes: &[u32; 6],
    samples: &[List<u32>],
    sampled: &[u32; 6],
    truths: &[List<bool>],
    worths: &[List<u32>],
    cutoff: u64,
    mask: u8,
) -> Result<List<u128>, Memory>
    requires block { (catalogue : CatalogDef) × IsBlock catalogue block.now }
    requires rows { AllByRecursion (λ size. size ≤ 131072) sizes.now }
    requires samples { AreBlockSamples (length block.now.from) sizes.now samples.now }
    requires six { length samples.now ≡ 6 }
    requires sampled { sampled.now ≡ map length samples.now }
    requires truths { length truths.now ≡ length block.now.conjuncts }
    requires worths { length worths.now ≡ length block.now.terms }
    requires mask { mask < 2 ^ length block.now.from }
    ensures length { IfOk result (λ numbers. length numbers ≡ 2 ^ length block.now.terms) }
    ensures limit { IfOk result (λ numbers. AllByRecursion (λ number. number ≤ most_expected mask) numbers) }
    ensures value { (answer : Answering) (catalogue : CatalogDef) → IsBlock catalogue block.now
        → truths.now ≡ truths_by_conjunct catalogue block.now samples.now → worths.now ≡ worths_by_term answer catalogue block.now samples.now
        → IfOk result (λ numbers. (terms : ℕ) → terms < 2 ^ length block.now.terms → get_or numbers terms 0
        ≡ known_estimate answer catalogue block.now sizes.now samples.now cutoff mask terms) }
{
    let rows = combinations(alloc, block, samples, sampled, truths, mask)?;
    let counts = count_each(alloc, block, samples, sampled, worths, cutoff, mask, &rows)?;
    let mut numbers = Vec::new(alloc);
    for count in &counts {
        numbers.push(expected_count(mask, sizes, sampled, *count))?;
    }
    Ok(List::of(numbers))
}

/// For each mask of terms, how many of these choices of rows have a bound that reaches the cutoff.
fn count_each(
    alloc: Global,
    block: &Block,
    samples: &[List<u32>],
    sampled: &[u32; 6],
    worths: &[List<u32>],
    cutoff: u64,
    mask: u8,
    choices: &[[u32; 6]],
) -> Result<Vec<u32>, Memory>
    requires few { length choices.now ≤ 65536 }
    requires few_terms { length block.now.terms ≤ 8 }
    requires limits { AllByRecursion (λ t. t.weight ≤ 1000000) block.now.terms }
    requires six { length samples.now ≡ 6 }
    requires few_rows { AllByRecursion (λ sample. length sample ≤ 256) samples.now }
    requires sampled { sampled.now ≡ map length samples.now }
    requires worths { length worths.now ≡ length block.now.terms }
    ensures length { IfOk result (λ counts. length counts.items ≡ 2 ^ length block.now.terms) }
    ensures limit { IfOk result (λ counts. AllByRecursion (λ count. count ≤ length choices.now) counts.items) }
    ensures value { (answer : Answering) (catalogue : CatalogDef) → IsBlock catalogue block.now
        → worths.now ≡ worths_by_term answer catalogue block.now samples.now
        → AllByRecursion (λ rows. In rows (sampled_choices mask samples.now)) choices.now
        → IfOk result (λ counts. (terms : ℕ) → terms < 2 ^ length block.now.terms → get_or counts.items terms 0
        ≡ length (filter (known_reaches answer catalogue block.now cutoff mask terms) choices.now)) }
{
    let weights = block.weights();
    let mut counts = vec![in alloc; 0; 1 << block.terms.len()]?;
    for rows in choices {
        let worths = worths_for(block, samples, sampled, worths, mask, rows);
        count_reached(&weights, &worths, cutoff, &mut counts);
    }
    Ok(counts)
}
