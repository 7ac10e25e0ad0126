//! What is asked of tables.

use cases_lines::{Fault, columns_of, cut_word, print_escaped, small_number_of, text_of};
use rs_table::{Schema, TABLE_LIMIT, Table, TableFault};
use rs_value::{Memory, Value};
use std::alloc::Global;
use std::hash::RandomState;

/// Why there is no table.
#[derive(Drop)]
enum Refusal {
    Line(Fault),
    File(TableFault),
}

impl From<Fault> for Refusal {
    fn from(fault: Fault) -> Refusal {
        Refusal::Line(fault)
    }
}

impl From<TableFault> for Refusal {
    fn from(fault: TableFault) -> Refusal {
        Refusal::File(fault)
    }
}

/// What is said of a refusal.
fn told_refusal(alloc: Global, refusal: Refusal) -> Result<String, Fault> {
    match refusal {
        Refusal::Line(fault) => Err(fault),
        Refusal::File(TableFault::Memory) => Err(Fault::Memory),
        Refusal::File(fault) => Ok(format!(in alloc; "{fault}")?),
    }
}

/// How many columns the file's header has, and the place of one of them.
pub fn tell_place(alloc: Global, words: &[u8], file: &[u8]) -> Result<String, Fault> {
    let (column, name) = cut_word(words);
    match schema_of_header(alloc, column, file) {
        Ok(schema) => tell_place_in(alloc, &schema, name),
        Err(refusal) => told_refusal(alloc, refusal),
    }
}

fn tell_place_in(alloc: Global, schema: &Schema, name: &[u8]) -> Result<String, Fault> {
    let name = text_of(alloc, name)?;
    let count = schema.columns().len();
    let place = schema.place(&name);
    Ok(format!(in alloc; "{place:?} of {count}")?)
}

/// The schema of the file's header, in which the first column of this name is of numbers.
fn schema_of_header(alloc: Global, column: &[u8], file: &[u8]) -> Result<Schema, Refusal> {
    if file.len() > TABLE_LIMIT {
        return Err(Refusal::Line(Fault::Form));
    }
    let column = text_of(alloc, column)?;
    Ok(Schema::of_header(alloc, file, &column)?)
}

/// How many rows the file's table has, and whether it has none.
pub fn tell_rows(
    alloc: Global,
    hash_keys: RandomState,
    schema: &[u8],
    file: &[u8],
) -> Result<String, Fault> {
    match table_of(alloc, hash_keys, schema, file) {
        Ok(table) => tell_rows_of(alloc, &table),
        Err(refusal) => told_refusal(alloc, refusal),
    }
}

fn tell_rows_of(alloc: Global, table: &Table) -> Result<String, Fault> {
    let count = table.len();
    let is_empty = table.is_empty();
    Ok(format!(in alloc; "{count} {is_empty}")?)
}

/// What a cell of the file's table prints.
pub fn tell_cell(
    alloc: Global,
    hash_keys: RandomState,
    words: &[u8],
    file: &[u8],
) -> Result<String, Fault> {
    let (schema, words) = cut_word(words);
    let (row, column) = cut_word(words);
    let row = small_number_of(row)?;
    let column = small_number_of(column)?;
    match table_of(alloc, hash_keys, schema, file) {
        Ok(table) => tell_cell_of(alloc, &table, row, column),
        Err(refusal) => told_refusal(alloc, refusal),
    }
}

fn tell_cell_of(alloc: Global, table: &Table, row: u8, column: u8) -> Result<String, Fault> {
    let row = u32::from(row);
    if row < 1 || row > table.len() || column as usize >= table.schema().columns().len() {
        return Err(Fault::Form);
    }
    let value = table.value(row, column)?;
    let printed = printed(alloc, &value);
    drop(value);
    let mut told = String::new(alloc);
    print_escaped(&printed?, &mut told)?;
    Ok(told)
}

fn printed(alloc: Global, value: &Value) -> Result<Vec<u8>, Memory> {
    let mut bytes = Vec::new(alloc);
    value.print(&mut bytes)?;
    Ok(bytes)
}

fn table_of(
    alloc: Global,
    hash_keys: RandomState,
    schema: &[u8],
    file: &[u8],
) -> Result<Table, Refusal> {
    let schema = schema_of(alloc, schema, file)?;
    if file.len() > TABLE_LIMIT {
        return Err(Refusal::Line(Fault::Form));
    }
    Ok(Table::read(alloc, hash_keys, schema, file)?)
}

/// The schema that a word stands for: behind `=` the column of numbers in that of the file's header, else the columns.
fn schema_of(alloc: Global, word: &[u8], file: &[u8]) -> Result<Schema, Refusal> {
    match word {
        [b'=', column @ ..] => schema_of_header(alloc, column, file),
        _ => Ok(Schema::make(columns_of(alloc, word)?)),
    }
}
