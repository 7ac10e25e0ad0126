//! The calls of a sample, and the estimates by it.

ghost use Rattle.std.specs.Prelude.{◌≡◌, ◌≤◌, ◌<◌, ◌-◌, ◌%◌, ◌^◌, IfSome, Some, length, map, slice_get, false, true};
ghost use Rattle.rs_rank.specs.Masks.{mask_of};
ghost use Rattle.rs_query.specs.Meaning.{is_inside};
ghost use Rattle.rs_query.specs.WellFormed.{IsQuery};
ghost use Rattle.rs_sample.specs.Cards.{AreRead};
ghost use Rattle.rs_sample.specs.Kept.{cards_of};
ghost use Rattle.cases_plans.specs.Shapes.{HasShape, IsOfBlock};

use crate::calls::tell_calls;
use cases_lines::Fault;
use rs_catalog::Catalog;
use rs_expr::MemScorer;
use rs_query::{Block, Query, is_inside};
use rs_sample::{Cards, SampleFault};
use std::alloc::Global;

/// Takes a sample, and tells the calls.
pub fn tell_sample(
    alloc: Global,
    catalog: &Catalog,
    query: &Query,
    seed: u64,
    scorer: &mut MemScorer,
) -> Result<String, Fault>
    requires { IsQuery catalog.now query.now }
{
    let mut told = String::new(alloc);
    match Cards::take(alloc, catalog, query, seed, scorer) {
        Ok(_) => told.push_str("  cards")?,
        Err(fault) => tell_fault(fault, &mut told)?,
    }
    tell_calls(scorer.calls(), &mut told)?;
    Ok(told)
}

fn tell_fault(fault: SampleFault, told: &mut String) -> Result<(), Fault> {
    match fault {
        SampleFault::Memory => Err(Fault::Memory),
        SampleFault::Probe { predicate } => Ok(write!(told, "  probe {predicate}")?),
    }
}

/// Takes a sample, and tells the estimates, behind the number of calls.
pub fn tell_cards(
    alloc: Global,
    catalog: &Catalog,
    query: &Query,
    seed: u64,
    scorer: &mut MemScorer,
) -> Result<String, Fault>
    requires { IsQuery catalog.now query.now }
{
    let mut told = String::new(alloc);
    match Cards::take(alloc, catalog, query, seed, scorer) {
        Ok(cards) => tell_estimates(query, &cards, &mut told)?,
        Err(fault) => tell_fault(fault, &mut told)?,
    }
    let count = scorer.calls().len();
    writeln!(told, "  calls {count}")?;
    Ok(told)
}

/// Tells all estimates of a query.
fn tell_estimates(query: &Query, cards: &Cards, told: &mut String) -> Result<(), Fault>
    requires { HasShape query.now (cards_of cards.now) }
{
    match query {
        Query::One(block, _) => tell_block(cards, 1, block, told),
        Query::Set(_, left, right, _) => {
            tell_block(cards, 1, left, told)?;
            tell_block(cards, 2, right, told)
        }
    }
}

/// Tells all estimates of the block of this number.
fn tell_block(cards: &Cards, number: u8, block: &Block, told: &mut String) -> Result<(), Fault>
    requires of { IsOfBlock block.now number (cards_of cards.now) }
{
    for mask in 1..1u8 << block.from.len() {
        write!(told, "  {number} {mask}:")?;
        tell_mask(cards, number, block, mask, told)?;
        told.push_str("\n")?;
    }
    for place in 0..block.terms.len() {
        tell_index(cards, number, block, place as u8 + 1, told)?;
    }
    Ok(())
}

/// Tells the estimates of a mask of entries.
fn tell_mask(
    cards: &Cards,
    number: u8,
    block: &Block,
    mask: u8,
    told: &mut String,
) -> Result<(), Fault>
    requires of { IsOfBlock block.now number (cards_of cards.now) }
    requires mask { mask < 2 ^ length block.now.from }
{
    for terms in 0..1u16 << block.terms.len() {
        if are_read(block, terms as u8, mask) {
            let estimate = cards.est(number, mask, terms as u8);
            write!(told, " {estimate}")?;
        }
    }
    Ok(())
}

/// Whether the terms in a mask read entries in a mask alone.
pub fn are_read(block: &Block, terms: u8, mask: u8) -> bool
    requires { length block.now.terms ≤ 8 }
    ensures { result ≡ true → AreRead terms mask (map (λ t. t.entries) block.now.terms) }
{
    for (place, term) in block.terms.items().iter().enumerate() {
        if reads_outside(terms >> place, term.entries, mask) {
            return false;
        }
    }
    true
}

/// Whether the term at the lowest bit is in a mask of terms, and reads other entries than those in a mask.
fn reads_outside(terms: u8, read: u8, mask: u8) -> bool
    ensures { result ≡ false → terms % 2 ≡ 1 → is_inside read mask ≡ true }
{
    if terms % 2 == 0 {
        return false;
    }
    !is_inside(read, mask)
}

/// Tells the estimate of the index of a term, counted from 1, where it reads one entry.
fn tell_index(
    cards: &Cards,
    number: u8,
    block: &Block,
    term: u8,
    told: &mut String,
) -> Result<(), Fault>
    requires of { IsOfBlock block.now number (cards_of cards.now) }
    requires least { 1 ≤ term }
    requires most { term ≤ length block.now.terms }
{
    if let Some(entry) = entry_of(block, term) {
        let estimate = cards.est_index(number, entry, term);
        writeln!(told, "  {number} index {entry} {term}: {estimate}")?;
    }
    Ok(())
}

/// The entry, counted from 1, that a term reads, where it is one alone.
fn entry_of(block: &Block, term: u8) -> Option<u8>
    requires least { 1 ≤ term }
    requires most { term ≤ length block.now.terms }
    ensures { IfSome result (λ entry. (1 ≤ entry) × (entry ≤ length block.now.from)
        × (slice_get (map (λ t. t.entries) block.now.terms) (term - 1) ≡ Some (mask_of entry))) }
{
    let entry = entry_alone(block.terms.items()[term as usize - 1].entries)?;
    if entry as usize > block.from.len() {
        return None;
    }
    Some(entry)
}

/// The entry, counted from 1, that stands alone in a mask.
fn entry_alone(mask: u8) -> Option<u8>
    ensures { IfSome result (λ entry. (1 ≤ entry) × (mask ≡ mask_of entry)) }
{
    match mask {
        1 => Some(1),
        2 => Some(2),
        4 => Some(3),
        8 => Some(4),
        16 => Some(5),
        32 => Some(6),
        _ => None,
    }
}
