//! What is asked of scans.

ghost use Rattle.std.specs.Prelude.{◌≡◌, ◌≤◌, ◌<◌, length};
ghost use Rattle.rs_catalog.specs.Indexes.{ranking_at};
ghost use Rattle.rs_scan.specs.Scans.{IsOfAllRows, last_at};

use crate::indexes::number_in;
use cases_lines::{Fault, count_of, cut_word, small_number_of};
use rs_catalog::{Catalog, Snapshot, What};
use rs_rank::RankRow;
use rs_scan::{RankScan, SeqScan};
use std::alloc::{AllocError, Global};

/// Of which FROM entry and block a scan is, and how many rows are drawn.
#[derive(Clone, Copy)]
struct Drawing {
    entry: u8,
    block: u8,
    count: u32,
    ghost least: { 1 ≤ entry },
    ghost most: { entry ≤ 6 },
}

/// What words say of a scan: `ENTRY BLOCK COUNT`.
fn drawing_of(words: &[u8]) -> Result<Drawing, Fault> {
    let (entry, words) = cut_word(words);
    let (block, count) = cut_word(words);
    let entry = small_number_of(entry)?;
    let block = small_number_of(block)?;
    let count = count_of(count)?;
    if entry < 1 {
        return Err(Fault::Form);
    }
    if entry > 6 {
        return Err(Fault::Form);
    }
    Ok(Drawing {
        entry,
        block,
        count,
    })
}

/// Tells the rows that a scan of a table gives: `NAME ENTRY BLOCK COUNT`.
pub fn tell_table_scan(
    alloc: Global,
    catalog: &Catalog,
    words: &[u8],
    told: &mut String,
) -> Result<(), Fault> {
    let (name, words) = cut_word(words);
    let drawing = drawing_of(words)?;
    let table = number_in(alloc, catalog, What::Table, name)?;
    Ok(tell_rows(catalog.table(table).len(), drawing, told)?)
}

fn tell_rows(rows: u32, drawing: Drawing, told: &mut String) -> Result<(), AllocError> {
    let mut scan = SeqScan::new(drawing.entry, drawing.block, rows);
    for _ in 0..drawing.count {
        tell_row(scan.next(), told)?;
    }
    tell_drawn(scan.drawn(), told)
}

/// Tells the rows that a scan of a rank index gives, for a term of this weight: `NAME WEIGHT ENTRY BLOCK COUNT`.
pub fn tell_index_scan(
    alloc: Global,
    catalog: &Catalog,
    words: &[u8],
    told: &mut String,
) -> Result<(), Fault> {
    let (name, words) = cut_word(words);
    let (weight, words) = cut_word(words);
    let weight = count_of(weight)?;
    let drawing = drawing_of(words)?;
    let index = number_in(alloc, catalog, What::Index, name)?;
    Ok(tell_ranking(&Snapshot::current(catalog), index, weight, drawing, told)?)
}

fn tell_ranking(
    catalog: &Snapshot<'_>,
    index: u8,
    weight: u32,
    drawing: Drawing,
    told: &mut String,
) -> Result<(), AllocError>
    requires { index < length catalog.now.indexes }
{
    let rows = catalog.table(catalog.index(index).table).len();
    let mut scan = RankScan::new(index, drawing.entry, drawing.block, weight, rows);
    draw(catalog, &mut scan, drawing.count, told)?;
    tell_drawn(scan.drawn(), told)
}

/// Draws this many rows, and tells each.
fn draw(
    catalog: &Snapshot<'_>,
    scan: &mut RankScan,
    count: u32,
    told: &mut String,
) -> Result<(), AllocError>
    requires index { scan.old.index < length catalog.now.indexes }
    requires view { IsOfAllRows catalog.now scan.old }
    requires last { scan.old.last ≡ last_at (ranking_at catalog.now scan.old.index) scan.old.drawn }
{
    for _ in 0..count {
        tell_row(scan.next(catalog), told)?;
    }
    Ok(())
}

/// Tells the block of a row, its mask, its rows and its sum.
fn tell_row(row: Option<RankRow>, told: &mut String) -> Result<(), AllocError> {
    match row {
        Some(row) => {
            let block = row.ids.block;
            let mask = row.ids.mask;
            let rows = row.ids.rows;
            let sum = row.sum;
            write!(told, "{block} {mask} {rows:?} {sum}; ")
        }
        None => told.push_str("none; "),
    }
}

fn tell_drawn(drawn: u32, told: &mut String) -> Result<(), AllocError> {
    write!(told, "drawn {drawn}")
}
