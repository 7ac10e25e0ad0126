//! Which rows of a table are taken as its sample.

ghost use Rattle.std.specs.Prelude.{ℕ, ◌≡◌, ◌≤◌, IfOk, sum};
ghost use Rattle.rs_sample.specs.Drawing.{Draws};
ghost use Rattle.rs_sample.specs.Samples.{AreBlockSamples, IsSample, sample_size, samples_from};
ghost use Rattle.rs_sample.specs.Taking.{taken_of};

use rand_core::utils::NextWord;
use rand_pcg::Pcg32;
use rs_value::{List, Memory};
use std::alloc::Global;

/// The sampled rows of six tables, one table after another: none of a table without rows.
pub(crate) fn take_samples(
    alloc: Global,
    entries: u8,
    sizes: &[u32; 6],
    words: &mut Pcg32,
) -> Result<Vec<List<u32>>, Memory>
    requires some { 1 ≤ entries }
    requires most { entries ≤ 6 }
    ensures are { IfOk result (λ samples. AreBlockSamples entries sizes.now samples.items) }
    ensures drawn { (count : ℕ) → sum sizes.now ≤ count
        → IfOk result (λ samples. Draws (sum sizes.now) (samples_from entries sizes.now) samples.items words.old words.new count) }
{
    let mut samples = Vec::new(alloc);
    for size in sizes {
        let rows = take_rows(alloc, *size, sample_size(entries, *size), words)?;
        samples.push(List::of(rows))?;
    }
    Ok(samples)
}

/// How many rows are taken of a table of this many rows, in a block of this many entries.
fn sample_size(entries: u8, rows: u32) -> u32
    requires some { 1 ≤ entries }
    requires most { entries ≤ 6 }
    ensures value { result ≡ sample_size entries rows }
    ensures few { result ≤ rows }
{
    const MOST: [u32; 6] = [256, 64, 24, 12, 8, 6];
    MOST[entries as usize - 1].min(rows)
}

/// This many rows of a table, counted from 1. A word is drawn for each row as long as one is needed.
fn take_rows(alloc: Global, size: u32, needed: u32, words: &mut Pcg32) -> Result<Vec<u32>, Memory>
    requires { needed ≤ size }
    ensures are { IfOk result (λ rows. IsSample needed size rows.items) }
    ensures drawn { (count : ℕ) → size ≤ count
        → IfOk result (λ rows. Draws size (taken_of size needed) rows.items words.old words.new count) }
{
    let mut taken = Vec::new(alloc);
    let mut seen = 0;
    let mut missing = needed;
    while missing > 0 {
        let is_taken = words.next_word() % (size - seen) < missing;
        seen += 1;
        if is_taken {
            taken.push(seen)?;
            missing -= 1;
        }
    }
    Ok(taken)
}
