//! What is expected of the index of a term.

ghost use Rattle.std.specs.Prelude.{ℕ, ◌≡◌, ◌≤◌, ◌+◌, ◌*◌, ◌^◌, [], IfOk, Some, filter, get_or, length, nat_le, slice_get};
ghost use Rattle.std.specs.Int.{div_ceil};
ghost use Rattle.std.specs.List.{AllByRecursion};
ghost use Rattle.rs_rank.specs.Weights.{IsWeights, rest};
ghost use Rattle.rs_query.specs.Answers.{weights_of};
ghost use Rattle.rs_query.specs.declared.term.Term.{Term as BoundTerm};
ghost use Rattle.rs_sample.specs.Quotients.{most_expected, product_inside};

use crate::quotient::expected_count;
use rs_query::Block;
use rs_rank::Weights;
use rs_value::{List, Memory};
use std::alloc::Global;

/// For each term how many choices of rows of its entries are expected to reach the cutoff under it alone, whether conjuncts
/// hold or not. The worths are those of the choices among the samples.
pub(crate) fn index_estimates(
    alloc: Global,
    block: &Block,
    sizes: &[u32; 6],
    sampled: &[u32; 6],
    worths: &[List<u32>],
    cutoff: u64,
) -> Result<Vec<u128>, Memory>
    requires few_terms { length block.now.terms ≤ 8 }
    requires limits { AllByRecursion (λ t. t.weight ≤ 1000000) block.now.terms }
    requires rows { AllByRecursion (λ size. size ≤ 131072) sizes.now }
    requires sampled { AllByRecursion (λ size. size ≤ 131072) sampled.now }
    requires worths { length worths.now ≡ length block.now.terms }
    requires each { (place : ℕ) (t : BoundTerm) → slice_get block.now.terms place ≡ Some t
        → (length (get_or worths.now place []) ≤ product_inside t.entries sampled.now) × (product_inside t.entries sampled.now ≤ 65536) }
    ensures length { IfOk result (λ numbers. length numbers.items ≡ length block.now.terms) }
    ensures value { IfOk result (λ numbers. (place : ℕ) (t : BoundTerm) → slice_get block.now.terms place ≡ Some t → get_or numbers.items place 0
        ≡ div_ceil (length (filter (λ worth. nat_le cutoff (t.weight * worth + rest (weights_of block.now) (2 ^ place))) (get_or worths.now place []))
        * product_inside t.entries sizes.now) (product_inside t.entries sampled.now)) }
    ensures limit { IfOk result (λ numbers. (place : ℕ) (t : BoundTerm) → slice_get block.now.terms place ≡ Some t
        → get_or numbers.items place 0 ≤ most_expected t.entries) }
{
    let weights = block.weights();
    let mut numbers = Vec::new(alloc);
    for (place, term) in block.terms.items().iter().enumerate() {
        let rest = weights.rest(1 << place);
        let count = count_worths(term.weight, rest, worths[place].items(), cutoff);
        numbers.push(expected_count(term.entries, sizes, sampled, count))?;
    }
    Ok(numbers)
}

/// How many of these worths, times the weight, with the rest reach the cutoff.
fn count_worths(weight: u32, rest: u64, worths: &[u32], cutoff: u64) -> u32
    requires weight { weight ≤ 1000000 }
    requires rest { rest ≤ 34359738360000000 }
    requires few { length worths.now ≤ 65536 }
    ensures value { result ≡ length (filter (λ worth. nat_le cutoff (weight * worth + rest)) worths.now) }
    ensures limit { result ≤ length worths.now }
{
    let mut count = 0;
    for worth in worths {
        if u64::from(weight) * u64::from(*worth) + rest >= cutoff {
            count += 1;
        }
    }
    count
}
