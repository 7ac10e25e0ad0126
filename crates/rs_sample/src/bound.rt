//! Bounds of sampled rows, and how many reach the cutoff.

ghost use Rattle.std.specs.Prelude.{ℕ, ◌≡◌, ◌<◌, ◌≤◌, ◌+◌, ◌*◌, ◌/◌, ◌%◌, ◌^◌, ◌==◌, get_or, length, nat_le, if◌then◌else◌};
ghost use Rattle.rs_rank.specs.Weights.{IsWeights, bound, evaluated, score_limit};

use rs_rank::Weights;

/// Adds one to the count of each mask of terms under which the bound reaches the cutoff. Place p of the counts is that of
/// mask p.
pub(crate) fn count_reached(
    weights: &Weights,
    worths: &[u32; 8],
    cutoff: u64,
    counts: &mut Vec<u32>,
)
    requires weights { IsWeights weights.now }
    requires masks { length counts.old.items ≤ 256 }
    requires room { (terms : ℕ) → terms < length counts.old.items → get_or counts.old.items terms 0 < 4294967295 }
    ensures length { length counts.new.items ≡ length counts.old.items }
    ensures each { (terms : ℕ) → terms < length counts.old.items
        → get_or counts.new.items terms 0 ≡ get_or counts.old.items terms 0 + (if nat_le cutoff (bound weights.now terms worths.now) then 1 else 0) }
{
    let bounds = bounds(weights, worths);
    for terms in 0..counts.len() {
        // No branch: which bounds reach the cutoff can't be foreseen.
        counts[terms] += u32::from(cutoff <= bounds[terms]);
    }
}

/// The bound of a score under each mask of the terms that are evaluated, of these worths. Place p is that of mask p.
fn bounds(weights: &Weights, worths: &[u32; 8]) -> [u64; 256]
    requires { IsWeights weights.now }
    ensures { (terms : ℕ) → terms < 256 → get_or result terms 0 ≡ bound weights.now terms worths.now }
{
    let mut bounds = [0; 256];
    let mut masks = 1;
    // From the last term on: the bits of the terms behind it are the higher ones of a mask.
    for behind in 0..8 {
        let place = 7 - behind;
        let weight = u64::from(weights.weight[place]);
        let worth = weight * u64::from(worths[place]);
        let most = weight * u64::from(weights.max[place]);
        add_term(&mut bounds, masks, worth, most);
        masks *= 2;
    }
    bounds
}

/// Puts a term in front of those of which these are the bounds, this many masks: in a mask its bit is the lowest one. It gives its
/// worth where it is evaluated, or else at most this much.
fn add_term(bounds: &mut [u64; 256], masks: usize, worth: u64, most: u64)
    requires masks { masks ≤ 128 }
    requires worth { worth ≤ 4294967295000000 }
    requires most { most ≤ 4294967295000000 }
    requires limit { (mask : ℕ) → mask < masks → get_or bounds.old mask 0 ≤ 30064771065000000 }
    ensures { (mask : ℕ) → mask < 2 * masks
        → get_or bounds.new mask 0 ≡ get_or bounds.old (mask / 2) 0 + (if mask % 2 == 1 then worth else most) }
{
    // From the last mask on, so that none is overwritten before it is looked at.
    for behind in 0..masks {
        let mask = masks - 1 - behind;
        let bound = bounds[mask];
        bounds[2 * mask + 1] = bound + worth;
        bounds[2 * mask] = bound + most;
    }
}

/// What the terms in a mask give to a score, of these worths.
pub(crate) fn evaluated_score(weights: &Weights, worths: &[u32], terms: u8) -> u64
    requires { IsWeights weights.now }
    ensures value { result ≡ evaluated weights.now terms worths.now }
    ensures limit { result ≤ score_limit }
{
    let mut sum = 0;
    for place in 0..worths.len().min(8) {
        sum += evaluated_at(weights, worths, terms, place);
    }
    sum
}

/// What the term at a place from 0 gives to a score, if it is in the mask.
fn evaluated_at(weights: &Weights, worths: &[u32], terms: u8, place: usize) -> u64
    requires few { place < 8 }
    requires within { place < length worths.now }
    ensures { result ≡ (if terms / 2 ^ place % 2 == 1 then get_or weights.now.weight place 0 * get_or worths.now place 0 else 0) }
{
    if (terms >> place) % 2 == 0 {
        return 0;
    }
    u64::from(weights.weight[place]) * u64::from(worths[place])
}
