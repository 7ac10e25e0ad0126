ghost use Rattle.std.specs.Prelude.{◌≡◌, IfOk, OnOk};
ghost use Rattle.rs_outside.specs.MemFiles.{after_add};
ghost use Rattle.rs_gen.specs.Files.{generated};

use crate::statements::script;
use crate::tables::{hotel_table, museum_table, restaurant_table};
use rs_outside::MemFiles;
use rs_value::{Memory, Text};
use std::alloc::Global;
use std::hash::RandomState;

/// The files that are made from a number, with this many rows in each table: `hotel.csv`, `restaurant.csv`,
/// `museum.csv`, and the script `gen.sql`, which reads the tables and searches them, in this order. None was fetched
/// yet, and no fetch of them is to fail. The same numbers make the same bytes each time. Texts of the files are hashed
/// by the keys.
///
/// # Errors
///
/// - `Memory`: at any call.
pub fn generate(
    alloc: Global,
    hash_keys: RandomState,
    number: u32,
    rows: u32,
) -> Result<MemFiles, Memory>
    ensures { IfOk result (λ files. files ≡ generated number rows) }
{
    let mut files = MemFiles::new(alloc, hash_keys);
    let hotels = hotel_table(alloc, number, rows)?;
    add_file(alloc, &mut files, "hotel.csv", hotels)?;
    let restaurants = restaurant_table(alloc, number, rows)?;
    add_file(alloc, &mut files, "restaurant.csv", restaurants)?;
    let museums = museum_table(alloc, number, rows)?;
    add_file(alloc, &mut files, "museum.csv", museums)?;
    let script = script(alloc)?;
    add_file(alloc, &mut files, "gen.sql", script)?;
    Ok(files)
}

/// Adds a file of this name.
fn add_file(alloc: Global, files: &mut MemFiles, name: &str, bytes: Vec<u8>) -> Result<(), Memory>
    ensures { OnOk result (files.new ≡ after_add name.now bytes.items files.old) }
{
    let name = String::from_str(alloc, name)?;
    files.add(Text::from(name), bytes)
}
