//! The tables: a header, and a row for each number from 1 on.

ghost use Rattle.std.specs.Prelude.{◌≡◌, ◌<◌, ◌++◌, IfOk, OnOk};
ghost use Rattle.std.specs.String.{string_bytes};
ghost use Rattle.rs_gen.specs.Tables.{city_count, hotel_line, hotels, museum_line, museums, restaurant_line, restaurants};

use rs_value::Memory;
use std::alloc::Global;

/// How many cities there are in tables of this many rows.
fn city_count(rows: u32) -> u64
    ensures { result ≡ city_count rows }
{
    u64::from(rows / 10).max(1)
}

/// The table of hotels.
pub fn hotel_table(alloc: Global, number: u32, rows: u32) -> Result<Vec<u8>, Memory>
    ensures { IfOk result (λ bytes. bytes.items ≡ hotels number rows) }
{
    let cities = city_count(rows);
    let mut table = String::from_str(alloc, "name,price,city\n")?;
    for place in 0..rows {
        put_hotel(&mut table, number, cities, place + 1)?;
    }
    Ok(table.into_bytes())
}

/// The table of restaurants.
pub fn restaurant_table(alloc: Global, number: u32, rows: u32) -> Result<Vec<u8>, Memory>
    ensures { IfOk result (λ bytes. bytes.items ≡ restaurants number rows) }
{
    let cities = city_count(rows);
    let mut table = String::from_str(alloc, "name,city,rating\n")?;
    for place in 0..rows {
        put_restaurant(&mut table, number, cities, place + 1)?;
    }
    Ok(table.into_bytes())
}

/// The table of museums.
pub fn museum_table(alloc: Global, number: u32, rows: u32) -> Result<Vec<u8>, Memory>
    ensures { IfOk result (λ bytes. bytes.items ≡ museums number rows) }
{
    let cities = city_count(rows);
    let mut table = String::from_str(alloc, "name,city,fame\n")?;
    for place in 0..rows {
        put_museum(&mut table, number, cities, place + 1)?;
    }
    Ok(table.into_bytes())
}

/// Adds the line of a hotel.
fn put_hotel(table: &mut String, number: u32, cities: u64, row: u32) -> Result<(), Memory>
    requires { 0 < cities }
    ensures { OnOk result (string_bytes table.new ≡ string_bytes table.old ++ hotel_line number cities row) }
{
    let (number, row) = (u64::from(number), u64::from(row));
    let price = 40 + (37 * row + 11 * number) % 300;
    let city = (row + number) % cities;
    writeln!(table, "h{row},{price},{city}")?;
    Ok(())
}

/// Adds the line of a restaurant.
fn put_restaurant(table: &mut String, number: u32, cities: u64, row: u32) -> Result<(), Memory>
    requires { 0 < cities }
    ensures { OnOk result (string_bytes table.new ≡ string_bytes table.old ++ restaurant_line number cities row) }
{
    let (number, row) = (u64::from(number), u64::from(row));
    let city = (3 * row + number) % cities;
    let rating = (13 * row + 5 * number) % 101;
    writeln!(table, "r{row},{city},{rating}")?;
    Ok(())
}

/// Adds the line of a museum.
fn put_museum(table: &mut String, number: u32, cities: u64, row: u32) -> Result<(), Memory>
    requires { 0 < cities }
    ensures { OnOk result (string_bytes table.new ≡ string_bytes table.old ++ museum_line number cities row) }
{
    let (number, row) = (u64::from(number), u64::from(row));
    let city = (7 * row + number) % cities;
    let fame = (29 * row + 3 * number) % 201;
    writeln!(table, "m{row},{city},{fame}")?;
    Ok(())
}
