ghost use Rattle.std.specs.Prelude.{◌≡◌, ◌≤◌, ◌<◌, IfOk, length};
ghost use Rattle.std.specs.List.{AllByRecursion, list_any};
ghost use Rattle.std.specs.Str.{bytes_eq};
ghost use Rattle.rs_catalog.specs.Catalog.{number_named};
ghost use Rattle.rs_catalog.specs.declared.room.What.TheVariants as what;
ghost use Rattle.rs_value.specs.Answer.{Gives};
ghost use Rattle.rs_typing.specs.Missing.{or_fault};
ghost use Rattle.rs_bind.specs.Indexes.{columns_in};
ghost use Rattle.rs_bind.specs.Names.{most_columns};
ghost use Rattle.rs_bind.specs.Sources.{alias_of, entries_of, most_entries};

use rs_catalog::{Catalog, What};
use rs_syntax::Name;
use rs_typing::{BindFault, Why};
use rs_value::{List, Text};
use std::alloc::Global;

/// The most FROM entries of a block.
pub(crate) const MOST_ENTRIES: usize = 6;

/// The tables of FROM by their numbers, with their aliases. The rules are looked at for one entry after the other, from left
/// to right: that there are no more than six (`LimitOf`), its table (`NoTable`), and its alias (`NameTwice`).
pub(crate) fn bind_entries(
    alloc: Global,
    catalog: &Catalog,
    from: &[(Name, Option<Name>)],
) -> Result<List<(u8, Text)>, BindFault>
    ensures gives { Gives BindFault.Memory (entries_of catalog.now from.now) result }
    ensures few { IfOk result (λ made. length made ≤ most_entries) }
    ensures tables { IfOk result (λ made. AllByRecursion (λ entry. entry.0 < length catalog.now.tables) made) }
    ensures columns { IfOk result (λ made. AllByRecursion (λ entry. length (columns_in catalog.now entry.0) ≤ most_columns) made) }
{
    let mut made = Vec::new(alloc);
    for (table, alias) in from {
        if made.len() == MOST_ENTRIES {
            return Err(BindFault::At(Why::LimitOf, table.at));
        }
        let number = table_number(catalog, table)?;
        let alias = alias_of(table, alias);
        if is_among(&made, &alias.text) {
            return Err(BindFault::At(Why::NameTwice, alias.at));
        }
        let text = alias.text.copy()?;
        made.push((number, text))?;
    }
    Ok(List::of(made))
}

/// The number of a table by its name.
fn table_number(catalog: &Catalog, name: &Name) -> Result<u8, BindFault>
    ensures value { result ≡ or_fault (BindFault.At Why.NoTable name.now.at) (number_named what.Table name.now.text catalog.now) }
    ensures within { IfOk result (λ number. number < length catalog.now.tables) }
    ensures columns { IfOk result (λ number. length (columns_in catalog.now number) ≤ most_columns) }
{
    let Some(number) = catalog.find(What::Table, &name.text) else {
        return Err(BindFault::At(Why::NoTable, name.at));
    };
    // A schema has at most 64 columns: `columns` says so.
    let _columns = catalog.table(number).schema().columns();
    Ok(number)
}

/// The name by which an entry is known: its alias, or that of its table where none is written.
fn alias_of<'a>(table: &'a Name, alias: &'a Option<Name>) -> &'a Name
    ensures { result.now ≡ alias_of (table.now, alias.now) }
{
    match alias {
        None => table,
        Some(alias) => alias,
    }
}

/// Whether one of these entries has this alias.
fn is_among(entries: &[(u8, Text)], alias: &Text) -> bool
    ensures { result ≡ list_any (λ entry. bytes_eq entry.1 alias.now) entries.now }
{
    entries
        .iter()
        .any(|entry| entry.1.as_str() == alias.as_str())
}
