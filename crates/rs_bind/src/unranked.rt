ghost use Rattle.std.specs.Prelude.{◌≡◌, ◌≤◌, ◌<◌, IfOk, length, map};
ghost use Rattle.std.specs.List.{AllByRecursion};
ghost use Rattle.std.specs.Option.{option_copied};
ghost use Rattle.rs_syntax.specs.Syntax.{block_of};
ghost use Rattle.rs_value.specs.Answer.{Gives};
ghost use Rattle.rs_bind.specs.Indexes.{columns_in};
ghost use Rattle.rs_bind.specs.Names.{most_columns};
ghost use Rattle.rs_bind.specs.Narrow.{IsNarrow};
ghost use Rattle.rs_bind.specs.Queries.{agree, first_item, name_of, output_names, needed_by, unranked_of, with_terms};
ghost use Rattle.rs_bind.specs.Sources.{most_entries, sources_of};
ghost use Rattle.rs_bind.specs.Terms.{IsColumnOf, IsItemOf};

use crate::filter::bind_filter;
use crate::from::bind_entries;
use crate::items::bind_items;
use crate::sources::Sources;
use rs_catalog::Catalog;
use rs_lex::Span;
use rs_query::{Block, Conjunct, Term};
use rs_syntax::{BlockSyn, Items};
use rs_typing::{BindFault, span_of_column};
use rs_value::{Kind, List, Memory, Text};
use std::alloc::Global;

/// A block without the terms: FROM, WHERE and the output columns with their kinds.
#[derive(Drop)]
pub struct Unranked {
    pub from: List<(u8, Text)>,
    pub conjuncts: List<Conjunct>,
    pub items: List<((u8, u8), Kind)>,
    pub distinct: bool,
}

/// A block without the terms. The rules are looked at in this order: those of the FROM entries from left to right, of the
/// condition, and of the output columns from left to right.
pub(crate) fn bind_unranked(
    alloc: Global,
    catalog: &Catalog,
    block: &BlockSyn,
) -> Result<Unranked, BindFault>
    ensures gives { Gives BindFault.Memory (unranked_of catalog.now (block_of block.now)) result }
    ensures few { IfOk result (λ made. length made.from ≤ most_entries) }
    ensures tables { IfOk result (λ made. AllByRecursion (λ entry. entry.0 < length catalog.now.tables) made.from) }
    ensures columns { IfOk result (λ made. AllByRecursion (λ entry. length (columns_in catalog.now entry.0) ≤ most_columns) made.from) }
    ensures narrow { IfOk result (λ made. AllByRecursion IsNarrow made.conjuncts) }
    ensures items { IfOk result (λ made. AllByRecursion (IsItemOf (sources_of catalog.now made.from)) made.items) }
{
    let from = bind_entries(alloc, catalog, block.from.items())?;
    let sources = Sources {
        catalog,
        from: from.items(),
    };
    let conjuncts = bind_filter(alloc, &sources, &block.filter)?;
    let items = bind_items(alloc, &sources, &block.items)?;
    Ok(Unranked {
        from,
        conjuncts,
        items,
        distinct: block.distinct,
    })
}

/// The block of these terms.
pub(crate) fn with_terms(alloc: Global, block: Unranked, terms: List<Term>) -> Result<Block, Memory>
    ensures { IfOk result (λ made. made ≡ with_terms block terms) }
{
    match columns_of(alloc, block.items.items()) {
        Ok(items) => Ok(Block {
            from: block.from,
            conjuncts: block.conjuncts,
            items: List::of(items),
            terms,
            distinct: block.distinct,
        }),
        Err(fault) => {
            drop(block);
            drop(terms);
            Err(fault)
        }
    }
}

/// Output columns without their kinds.
fn columns_of(alloc: Global, items: &[((u8, u8), Kind)]) -> Result<Vec<(u8, u8)>, Memory>
    ensures { IfOk result (λ columns. columns.items ≡ map (λ item. item.0) items.now) }
{
    let mut columns = Vec::new(alloc);
    for item in items {
        columns.push(item.0)?;
    }
    Ok(columns)
}

/// The output columns, where DISTINCT needs them.
pub(crate) fn needed_by(block: &Unranked) -> Option<&[((u8, u8), Kind)]>
    ensures { option_copied result ≡ needed_by block.now }
{
    if block.distinct {
        Some(block.items.items())
    } else {
        None
    }
}

/// The names of the output columns of a block: those of the columns of its tables.
pub(crate) fn names_of(
    alloc: Global,
    catalog: &Catalog,
    block: &Unranked,
) -> Result<Vec<Text>, Memory>
    requires tables { AllByRecursion (λ entry. entry.0 < length catalog.now.tables) block.now.from }
    requires items { AllByRecursion (IsItemOf (sources_of catalog.now block.now.from)) block.now.items }
    ensures { IfOk result (λ names. names.items ≡ output_names catalog.now block.now) }
{
    let mut names = Vec::new(alloc);
    for item in block.items.items() {
        names.push(name_of(catalog, block, item.0).copy()?)?;
    }
    Ok(names)
}

/// The name of a column of a block.
fn name_of<'a>(catalog: &'a Catalog, block: &Unranked, column: (u8, u8)) -> &'a Text
    requires tables { AllByRecursion (λ entry. entry.0 < length catalog.now.tables) block.now.from }
    requires column { IsColumnOf (sources_of catalog.now block.now.from) column }
    ensures { result.now ≡ name_of catalog.now block.now column }
{
    let table = block.from.items()[column.0 as usize - 1].0;
    &catalog.table(table).schema().columns()[column.1 as usize].0
}

/// Whether the output columns of two blocks agree in number, and in kind at each place.
pub fn agree(left: &[((u8, u8), Kind)], right: &[((u8, u8), Kind)]) -> bool
    ensures { result ≡ agree left.now right.now }
{
    left.len() == right.len()
        && left
            .iter()
            .zip(right)
            .all(|(item, other)| item.1 == other.1)
}

/// The place of the first output column, or of `*`.
pub(crate) fn first_item(items: &Items) -> Span
    ensures { result ≡ first_item items.now }
{
    match items {
        Items::Star(at) => *at,
        Items::List(columns) => match columns.items().first() {
            None => Span { start: 0, end: 0 },
            Some(column) => span_of_column(column),
        },
    }
}
