ghost use Rattle.std.specs.Prelude.{◌≡◌, ◌≤◌, ◌<◌, None, if◌then◌else◌, length};
ghost use Rattle.std.specs.List.{AllByRecursion};
ghost use Rattle.std.proofs.Props.{props};
ghost use Rattle.rs_typing.specs.Parameters.{placed};
ghost use Rattle.rs_bind.specs.Indexes.{columns_in, is_of_entry};
ghost use Rattle.rs_bind.specs.Names.{most_columns};
ghost use Rattle.rs_bind.specs.Queries.{block_columns};
ghost use Rattle.rs_bind.specs.Sources.{column_in, most_entries, sources_of};

use crate::columns::{Columns, OneEntry};
use rs_catalog::{BoundArg, Catalog};
use rs_syntax::ColRef;
use rs_table::Schema;
use rs_typing::{BindFault, Why, span_of_column};
use rs_value::{Kind, Text};

/// The FROM entries of a block, at most 6: tables by their numbers, with their aliases. A table has at most 64 columns.
#[derive(Drop)]
pub struct Sources<'a> {
    pub catalog: &'a Catalog,
    pub from: &'a [(u8, Text)],
    ghost few: { length from.now ≤ most_entries },
    ghost tables: { AllByRecursion (λ entry. entry.0 < length catalog.now.tables) from.now } by { Prim.hlevel props },
    ghost columns: { AllByRecursion (λ entry. length (columns_in catalog.now entry.0) ≤ most_columns) from.now } by { Prim.hlevel props },
}

impl Sources<'_> {
    /// The column that a reference stands for, the FROM entry counted from 1 and the table's column from 0, with its kind. It
    /// has to be the only one: `NoColumn` where there is none, `Ambiguous` where two entries have one. It takes no memory.
    pub fn column(&self, column: &ColRef) -> Result<((u8, u8), Kind), BindFault>
        ensures { result ≡ column_in (sources_of self.now.catalog.now self.now.from.now) column.now }
    {
        let at = span_of_column(column);
        let mut found = None;
        for (index, (table, alias)) in self.from.iter().enumerate() {
            let schema = self.catalog.table(*table).schema();
            let Some((place, kind)) = place_in(alias, schema, column) else {
                continue;
            };
            if found.is_some() {
                return Err(BindFault::At(Why::Ambiguous, at));
            }
            found = Some(((index as u8 + 1, place), kind));
        }
        found.ok_or(BindFault::At(Why::NoColumn, at))
    }
}

impl Columns for Sources<'_> {
    ghost finds = { λ sources. block_columns (sources_of sources.catalog.now sources.from.now) };

    fn find(&self, column: &ColRef) -> Result<(BoundArg, Kind), BindFault> {
        let ((entry, place), kind) = self.column(column)?;
        Ok((BoundArg::Column(entry, place), kind))
    }
}

/// The place of a column in the table of an entry of this alias, and its kind, where the entry has it.
fn place_in(alias: &Text, schema: &Schema, column: &ColRef) -> Option<(u8, Kind)>
    ensures { result ≡ (if is_of_entry alias.now column.now.alias then placed column.now.column.text schema.now else None) }
{
    let entry = OneEntry { alias, schema };
    let (found, kind) = entry.find(column).ok()?;
    match found {
        BoundArg::Column(_, place) => Some((place, kind)),
        _ => None,
    }
}
