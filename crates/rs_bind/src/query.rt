ghost use Rattle.std.specs.Prelude.{IfOk, ◌≤◌, ◌<◌, length};
ghost use Rattle.std.specs.List.{AllByRecursion};
ghost use Rattle.rs_value.specs.Answer.{Gives};
ghost use Rattle.rs_syntax.specs.Syntax.{block_of, query_of};
ghost use Rattle.rs_query.specs.Tops.{HasTops};
ghost use Rattle.rs_query.specs.WellFormed.{IsQuery};
ghost use Rattle.rs_bind.specs.Indexes.{columns_in};
ghost use Rattle.rs_bind.specs.Names.{most_columns};
ghost use Rattle.rs_bind.specs.Narrow.{HaveNarrowConjuncts};
ghost use Rattle.rs_bind.specs.Queries.{block_columns, bound_query, needed_by, one_of, output_columns, set_of, terms_of, typed_query};
ghost use Rattle.rs_bind.specs.Sources.{most_entries, sources_of};
ghost use Rattle.rs_bind.specs.Terms.{IsEntryItem};
ghost use Rattle.rs_syntax.specs.Written.{IsWrittenQuery};

use crate::outputs::OutputColumns;
use crate::sources::Sources;
use crate::terms::{bind_terms, limit_of};
use crate::tops::with_tops;
use crate::unranked::{
    Unranked, agree, bind_unranked, first_item, names_of, needed_by, with_terms,
};
use rs_catalog::Catalog;
use rs_query::{Query, Term};
use rs_syntax::{BlockSyn, Select, TermSyn};
use rs_typing::{BindFault, Why};
use rs_value::{Kind, List, SetOp, Text};
use std::alloc::Global;

/// The query of a SELECT. The rules are looked at in this order: those of the left block, of the right block, that
/// their output columns agree (`SetColumnsDiffer`), those of the terms from left to right, and that of LIMIT. In a
/// block they are those of the FROM entries from left to right, of the condition, and of the output columns from left
/// to right. The maxima of the terms are their tops, as the rank indexes are now. What is answered is well formed over
/// the catalogue.
///
/// # Errors
///
/// - `At`: exactly where the query breaks a rule, with the first one in this order and its place.
/// - `Memory`: at any call, in place of each answer.
pub fn bind(alloc: Global, catalog: &Catalog, select: &Select) -> Result<Query, BindFault>
    requires written { IsWrittenQuery (query_of select.now) }
    ensures gives { Gives BindFault.Memory (bound_query catalog.now (query_of select.now)) result }
    ensures formed { IfOk result (λ query. IsQuery catalog.now query) }
    ensures tops { IfOk result (λ query. HasTops catalog.now query) }
{
    let typed = bind_typed(alloc, catalog, select)?;
    Ok(with_tops(catalog, typed))
}

/// The query of a SELECT, where each term's maximum is the greatest score of its predicate.
fn bind_typed(alloc: Global, catalog: &Catalog, select: &Select) -> Result<Query, BindFault>
    requires written { IsWrittenQuery (query_of select.now) }
    ensures gives { Gives BindFault.Memory (typed_query catalog.now (query_of select.now)) result }
    ensures formed { IfOk result (λ query. IsQuery catalog.now query) }
{
    match &select.right {
        None => bind_one(alloc, catalog, select),
        Some((op, right)) => bind_set(alloc, catalog, select, *op, right),
    }
}

/// A query of one block.
fn bind_one(alloc: Global, catalog: &Catalog, select: &Select) -> Result<Query, BindFault>
    ensures gives { Gives BindFault.Memory (one_of catalog.now (query_of select.now)) result }
    ensures narrow { IfOk result HaveNarrowConjuncts }
{
    let block = bind_unranked(alloc, catalog, &select.left)?;
    let terms = match block_terms(alloc, catalog, &block, select.terms.items()) {
        Ok(terms) => terms,
        Err(fault) => {
            drop(block);
            return Err(fault);
        }
    };
    let limit = match limit_of(&select.limit) {
        Ok(limit) => limit,
        Err(fault) => {
            drop(block);
            drop(terms);
            return Err(fault);
        }
    };
    Ok(Query::One(with_terms(alloc, block, terms)?, limit))
}

/// The terms of a query of one block.
fn block_terms(
    alloc: Global,
    catalog: &Catalog,
    block: &Unranked,
    terms: &[TermSyn],
) -> Result<List<Term>, BindFault>
    requires few { length block.now.from ≤ most_entries }
    requires tables { AllByRecursion (λ entry. entry.0 < length catalog.now.tables) block.now.from }
    requires columns { AllByRecursion (λ entry. length (columns_in catalog.now entry.0) ≤ most_columns) block.now.from }
    ensures { Gives BindFault.Memory
        (terms_of catalog.now (block_columns (sources_of catalog.now block.now.from)) (needed_by block.now) terms.now) result }
{
    let sources = Sources {
        catalog,
        from: block.from.items(),
    };
    bind_terms(alloc, catalog, &sources, needed_by(block), terms)
}

/// A query of two blocks.
fn bind_set(
    alloc: Global,
    catalog: &Catalog,
    select: &Select,
    op: SetOp,
    second: &BlockSyn,
) -> Result<Query, BindFault>
    ensures gives { Gives BindFault.Memory (set_of catalog.now (query_of select.now) op (block_of second.now)) result }
    ensures narrow { IfOk result HaveNarrowConjuncts }
{
    let left = bind_unranked(alloc, catalog, &select.left)?;
    let right = match bind_unranked(alloc, catalog, second) {
        Ok(right) => right,
        Err(fault) => {
            drop(left);
            return Err(fault);
        }
    };
    if !agree(left.items.items(), right.items.items()) {
        drop(left);
        drop(right);
        let at = first_item(&second.items);
        return Err(BindFault::At(Why::SetColumnsDiffer, at));
    }
    let names = match names_of(alloc, catalog, &left) {
        Ok(names) => names,
        Err(_) => {
            drop(left);
            drop(right);
            return Err(BindFault::Memory);
        }
    };
    let terms = select.terms.items();
    let left_terms = match output_terms(alloc, catalog, &names, left.items.items(), terms) {
        Ok(terms) => terms,
        Err(fault) => {
            drop(names);
            drop(left);
            drop(right);
            return Err(fault);
        }
    };
    // The same terms, over the output columns of the right block at the same places.
    let right_terms = match output_terms(alloc, catalog, &names, right.items.items(), terms) {
        Ok(terms) => terms,
        Err(fault) => {
            drop(left_terms);
            drop(names);
            drop(left);
            drop(right);
            return Err(fault);
        }
    };
    drop(names);
    let limit = match limit_of(&select.limit) {
        Ok(limit) => limit,
        Err(fault) => {
            drop(left_terms);
            drop(right_terms);
            drop(left);
            drop(right);
            return Err(fault);
        }
    };
    let left = match with_terms(alloc, left, left_terms) {
        Ok(left) => left,
        Err(_) => {
            drop(right_terms);
            drop(right);
            return Err(BindFault::Memory);
        }
    };
    match with_terms(alloc, right, right_terms) {
        Ok(right) => Ok(Query::Set(op, left, right, limit)),
        Err(_) => {
            drop(left);
            Err(BindFault::Memory)
        }
    }
}

/// The terms of a set query over the output columns of one of its blocks, under the names of those of the left one.
fn output_terms(
    alloc: Global,
    catalog: &Catalog,
    names: &[Text],
    items: &[((u8, u8), Kind)],
    terms: &[TermSyn],
) -> Result<List<Term>, BindFault>
    requires named { length names.now ≤ length items.now }
    requires few { AllByRecursion IsEntryItem items.now }
    ensures { Gives BindFault.Memory (terms_of catalog.now (output_columns names.now items.now) None terms.now) result }
{
    let columns = OutputColumns { names, items };
    bind_terms(alloc, catalog, &columns, None, terms)
}
