//! The counts that words stand for.

use cases_lines::{Fault, count_of, cut_at, number_of};
use rs_plan::Counts;
use std::alloc::Global;

/// The counts of nodes, with commas between.
pub fn counts_of(alloc: Global, word: &[u8]) -> Result<Vec<Counts>, Fault> {
    let mut counts = Vec::new(alloc);
    for node in word.split(|byte| *byte == b',') {
        counts.push(node_counts(node)?)?;
    }
    Ok(counts)
}

/// The counts of a node: `ASKED:GAVE:CALLS:DRAWN`.
fn node_counts(word: &[u8]) -> Result<Counts, Fault> {
    let (asked, rest) = cut_number(word)?;
    let (gave, rest) = cut_number(rest)?;
    let (calls, drawn) = cut_number(rest)?;
    Ok(Counts {
        asked: asked as u128,
        gave: gave as u128,
        calls: calls as u128,
        drawn: count_of(drawn)?,
    })
}

/// The number in front of a colon, and what stands behind it.
pub fn cut_number(word: &[u8]) -> Result<(u64, &[u8]), Fault> {
    match cut_at(word, b':') {
        Some((number, rest)) => Ok((number_of(number)?, rest)),
        None => Err(Fault::Form),
    }
}
