ghost use Rattle.std.specs.Prelude.{◌≡◌, IfOk, option_map};
ghost use Rattle.rs_ta.specs.Eligible.{eligible_indexes, term_indexes};

use rs_catalog::Catalog;
use rs_query::{Block, Term};
use rs_value::Memory;
use std::alloc::Global;

/// The rank indexes by which a threshold scan answers a block, one for each of its terms, in their order, where it is eligible.
///
/// # Errors
///
/// - `None`: exactly where the block isn't eligible: where it is DISTINCT, hasn't just one FROM entry, has no term, or has a term
///   without a rank index.
/// - `Memory`: at any call.
pub fn eligible_indexes(
    alloc: Global,
    catalog: &Catalog,
    block: &Block,
) -> Result<Option<Vec<u8>>, Memory>
    ensures { IfOk result (λ indexes. option_map (λ made. made.items) indexes ≡ eligible_indexes catalog.now block.now) }
{
    let terms = block.terms.items();
    if block.distinct || terms.is_empty() {
        return Ok(None);
    }
    match block.from.items().as_slice() {
        [(table, _)] => term_indexes(alloc, catalog, *table, terms.as_slice()),
        _ => Ok(None),
    }
}

/// The rank index of each term over a table, or none where a term has none.
fn term_indexes(
    alloc: Global,
    catalog: &Catalog,
    table: u8,
    terms: &[Term],
) -> Result<Option<Vec<u8>>, Memory>
    ensures { IfOk result (λ indexes. option_map (λ made. made.items) indexes ≡ term_indexes catalog.now table terms.now) }
{
    let mut indexes = Vec::new(alloc);
    for term in terms {
        match catalog.index_for(table, term.predicate, term.args.items(), 1) {
            Some(index) => indexes.push(index)?,
            None => return Ok(None),
        }
    }
    Ok(Some(indexes))
}
