//! How many rows the tables of a block have.

ghost use Rattle.std.specs.Prelude.{◌≡◌, ◌≤◌};
ghost use Rattle.std.specs.List.{AllByRecursion};
ghost use Rattle.rs_query.specs.Tables.{size_of, sizes_of};
ghost use Rattle.rs_query.specs.WellFormed.{IsBlock};

use crate::block::Block;
use rs_catalog::Snapshot;

/// How many rows the table of each entry has, 0 past the last entry.
pub fn sizes_of(catalog: &Snapshot<'_>, block: &Block) -> [u32; 6]
    requires { IsBlock catalog.now block.now }
    ensures value { result ≡ sizes_of catalog.now block.now }
    ensures few { AllByRecursion (λ size. size ≤ 131072) result }
{
    [
        size_of(catalog, block, 1),
        size_of(catalog, block, 2),
        size_of(catalog, block, 3),
        size_of(catalog, block, 4),
        size_of(catalog, block, 5),
        size_of(catalog, block, 6),
    ]
}

/// How many rows the table of an entry, counted from 1, has, or 0 past the last entry.
pub fn size_of(catalog: &Snapshot<'_>, block: &Block, entry: u8) -> u32
    requires block { IsBlock catalog.now block.now }
    requires entry { 1 ≤ entry }
    ensures value { result ≡ size_of catalog.now block.now entry }
    ensures few { result ≤ 131072 }
{
    match block.from.items().get(entry as usize - 1) {
        Some((table, _)) => catalog.table(*table).len(),
        None => 0,
    }
}
