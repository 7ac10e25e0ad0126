//! The least costs of the plans of a query by their signatures.

ghost use Rattle.rs_query.specs.WellFormed.{IsQuery};

use crate::counts::cut_number;
use crate::least::sampled;
use cases_lines::{Fault, number_of};
use rs_catalog::Catalog;
use rs_enum::Grid;
use rs_expr::MemScorer;
use rs_query::Query;
use std::alloc::Global;

/// The number of a block, a mask of entries and a mask of terms.
#[derive(Clone, Copy)]
pub struct Sought {
    block: u8,
    entries: u8,
    terms: u8,
}

/// What words stand for: `BLOCK:ENTRIES:TERMS`, with commas between.
pub fn sought_of(alloc: Global, word: &[u8]) -> Result<Vec<Sought>, Fault> {
    let mut sought = Vec::new(alloc);
    for signature in word.split(|byte| *byte == b',') {
        sought.push(one_sought(signature)?)?;
    }
    Ok(sought)
}

fn one_sought(word: &[u8]) -> Result<Sought, Fault> {
    let (block, rest) = cut_number(word)?;
    let (entries, terms) = cut_number(rest)?;
    Ok(Sought {
        block: small(block)?,
        entries: small(entries)?,
        terms: small(number_of(terms)?)?,
    })
}

/// The same number in eight bits.
fn small(number: u64) -> Result<u8, Fault> {
    if number > 255 {
        return Err(Fault::Form);
    }
    Ok(number as u8)
}

/// Fills the grid by a query, and tells the least cost of each of these signatures.
pub fn tell_costs(
    alloc: Global,
    catalog: &Catalog,
    query: &Query,
    seed: u64,
    sought: &[Sought],
    scorer: &mut MemScorer,
    grid: &mut Grid,
) -> Result<String, Fault>
    requires { IsQuery catalog.now query.now }
{
    let cards = sampled(alloc, catalog, query, seed, scorer)?;
    grid.fill(catalog, query, &cards);
    tell_all(alloc, grid, sought)
}

fn tell_all(alloc: Global, grid: &Grid, sought: &[Sought]) -> Result<String, Fault> {
    let mut told = String::new(alloc);
    told.push_str(" ")?;
    for one in sought {
        match grid.cost(one.block, one.entries, one.terms) {
            Some(cost) => write!(told, " {cost}")?,
            None => told.push_str(" none")?,
        }
    }
    told.push_str("\n")?;
    Ok(told)
}
