ghost use Rattle.std.specs.Prelude.{◌≡◌, ◌≤◌, ◌++◌, OnOk, length};
ghost use Rattle.rs_syntax.specs.declared.select.Items.TheVariants as items;
ghost use Rattle.rs_value.specs.Answer.{Gives};
ghost use Rattle.rs_bind.specs.Names.{most_columns};
ghost use Rattle.rs_bind.specs.Sources.{columns_from, items_behind, items_of, sources_of};

use crate::from::MOST_ENTRIES;
use crate::sources::Sources;
use rs_lex::Span;
use rs_syntax::{ColRef, Items};
use rs_table::MOST_COLUMNS;
use rs_typing::{BindFault, Why, span_of_column};
use rs_value::{Kind, List, Memory, Text};
use std::alloc::Global;

/// The most output columns of a block: as many as its tables have at most.
const MOST_ITEMS: usize = MOST_ENTRIES * MOST_COLUMNS;

/// The output columns of a block, FROM entries counted from 1 and columns from 0, with their kinds. The rules are looked at
/// for one column after the other, from left to right: that there are no more than 384 (`LimitOf`), and that it is a column
/// (`NoColumn`, `Ambiguous`). `*` stands for all columns of all entries.
pub(crate) fn bind_items(
    alloc: Global,
    sources: &Sources,
    items: &Items,
) -> Result<List<((u8, u8), Kind)>, BindFault>
    ensures { Gives BindFault.Memory (items_of (sources_of sources.now.catalog.now sources.now.from.now) items.now) result }
{
    match items {
        Items::Star(at) => all_columns(alloc, sources, *at),
        Items::List(columns) => bind_columns(alloc, sources, columns.items()),
    }
}

/// The columns that are written.
fn bind_columns(
    alloc: Global,
    sources: &Sources,
    columns: &[ColRef],
) -> Result<List<((u8, u8), Kind)>, BindFault>
    ensures { Gives BindFault.Memory (items_behind (sources_of sources.now.catalog.now sources.now.from.now) 0 columns.now) result }
{
    let mut made = Vec::new(alloc);
    for column in columns {
        if made.len() == MOST_ITEMS {
            return Err(BindFault::At(Why::LimitOf, span_of_column(column)));
        }
        made.push(sources.column(column)?)?;
    }
    Ok(List::of(made))
}

/// All columns of all entries, for a `*` that stands here.
fn all_columns(
    alloc: Global,
    sources: &Sources,
    at: Span,
) -> Result<List<((u8, u8), Kind)>, BindFault>
    ensures { Gives BindFault.Memory (items_of (sources_of sources.now.catalog.now sources.now.from.now) (items.Star at)) result }
{
    let mut made = Vec::new(alloc);
    for (index, (table, _)) in sources.from.iter().enumerate() {
        let columns = sources.catalog.table(*table).schema().columns();
        push_columns(&mut made, index as u8 + 1, columns)?;
    }
    if made.len() > MOST_ITEMS {
        return Err(BindFault::At(Why::LimitOf, at));
    }
    Ok(List::of(made))
}

/// Puts the columns of the table of this entry behind what was made.
fn push_columns(
    made: &mut Vec<((u8, u8), Kind)>,
    entry: u8,
    columns: &[(Text, Kind)],
) -> Result<(), Memory>
    requires { length columns.now ≤ most_columns }
    ensures { OnOk result (made.new.items ≡ made.old.items ++ columns_from entry 0 columns.now) }
{
    for (place, column) in columns.iter().enumerate() {
        made.push(((entry, place as u8), column.1))?;
    }
    Ok(())
}
