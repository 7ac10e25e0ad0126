ghost use Rattle.std.specs.Prelude.{◌≡◌, ◌≤◌, ◌<◌, ◌+◌, ◌-◌, ◌^◌, ◌==◌, ◌⊎◌, length, map, slice_get, true, ℕ, List as Seq, IfOk, IfErr, IsOk, OnErr, OnOk, MatchResult};
ghost use Rattle.csv.specs.Records.{fields_of};
ghost use Rattle.rs_value.specs.Answer.{Gives};
ghost use Rattle.rs_value.specs.declared.kind.Kind.TheVariants as kind;
ghost use Rattle.rs_table.specs.Column.{Column};
ghost use Rattle.rs_value.specs.declared.value.Value.TheVariants as value;
ghost use Rattle.rs_table.specs.Lent.{shown, with_rows};
ghost use Rattle.rs_table.specs.Texts.{column_texts, text_number};
ghost use Rattle.rs_table.specs.Relation.{cell_at, most_rows, row_fits};
ghost use Rattle.rs_value.specs.Value.{fits};
ghost use Rattle.std.specs.List.{AllByRecursion};
ghost use Rattle.rs_table.specs.ReadInto.{ReadInto};
ghost use Rattle.rs_table.specs.Stored.{AreEven, cells_in, kinds_in};
ghost use Rattle.rs_table.specs.Reading.{cells_of, difference_from, row_of, rows_from, rows_of_records, table_of};

use crate::cell::Cell;
use crate::cells::Cells;
use crate::columns::{Columns, empty_columns};
use crate::fault::TableFault;
use crate::field::field_at;
use crate::records::Records;
use crate::schema::Schema;
use csv::ByteRecord;
use rs_value::{Kind, List, Memory, Text, Value};
use std::alloc::Global;
use std::hash::RandomState;
use std::marker::Model;

/// The greatest number of rows of a table.
pub const MOST_ROWS: usize = 131_072;

// The number of a row fits the `u32` by which it is named, that of the first row too many too.
const _: () = prove!(MOST_ROWS < u32::MAX as usize);

/// The rows of a CSV file in the file's order, with a value for each column of the schema.
#[derive(Drop)]
pub struct Table {
    schema: Schema,
    rows: Columns,
}

impl Model for Table {
    ghost use Rattle.rs_table.specs.Relation.{Relation};
    ghost use Rattle.rs_table.specs.Stored.{IsStored};

    ghost Value = { Relation };

    ghost view = { λ t. record { schema = t.schema; rows = t.rows.rows } };

    ghost invariant = { λ t. IsStored t.schema t.rows };
}

impl Table {
    /// The table of a CSV file, whose header names the schema's columns. The first thing that
    /// refuses the file is the answer: first the header, then row by row, and within a row its
    /// number, the number of its fields, and its cells from left to right. Texts are hashed by the
    /// keys, which the file is not to know: else it could make reading slow on purpose.
    ///
    /// # Errors
    ///
    /// The first thing in the order above that refuses the file, exactly where one does; only `Memory` may come in its
    /// place.
    ///
    /// - `NoHeader`: the file has no record.
    /// - `HeaderDiffers`: the first record isn't the names of the columns in their order. It tells the first place at which
    ///   they differ; a place that only one of them has counts too.
    /// - `TooManyRows`: there is a row 131,073.
    /// - `FieldCount`: a row has more or fewer fields than there are columns.
    /// - `NotInt`: a field of a column of numbers writes no whole number of a magnitude of at most
    ///   4,000,000,000,000,000,000. One that isn't UTF-8 is this too.
    /// - `NotUtf8`: a field of a column of texts isn't UTF-8.
    /// - `Memory`: at any call.
    /// - `NoColumn`, `TooManyColumns`: never.
    pub fn read(
        alloc: Global,
        hash_keys: RandomState,
        schema: Schema,
        bytes: &[u8],
    ) -> Result<Table, TableFault>
        requires { length bytes.now ≤ 33554432 }
        ensures { Gives TableFault.Memory (table_of schema bytes.now) result }
    {
        let columns = schema.columns();
        let mut records = Records::new(alloc, bytes);
        let mut record_ = ByteRecord::new(alloc);
        read_header(columns, &mut records, &mut record_)?;
        let rows = read_rows(alloc, hash_keys, columns, &mut records, &mut record_)?;
        Ok(Table { schema, rows })
    }

    /// The same table.
    ///
    /// # Errors
    ///
    /// - `Memory`: at any call.
    pub fn copy(&self) -> Result<Table, Memory>
        ensures { IfOk result (λ copy. copy ≡ self.now) }
    {
        let schema = self.schema.copy()?;
        let rows = self.rows.copy()?;
        Ok(Table { schema, rows })
    }

    /// The columns.
    pub fn schema(&self) -> &Schema
        ensures value { result.now ≡ self.now.schema }
        ensures rows_fit { AllByRecursion (λ row. row_fits self.now.schema row ≡ true) self.now.rows }
    {
        &self.schema
    }

    /// How many rows there are.
    pub fn len(&self) -> u32
        ensures value { result ≡ length self.now.rows }
        ensures few { result ≤ most_rows }
    {
        self.rows.len()
    }

    /// Whether there is no row.
    pub fn is_empty(&self) -> bool
        ensures { result ≡ (length self.now.rows == 0) }
    {
        self.rows.len() == 0
    }

    /// The value of a row, counted from 1, and a column, counted from 0. A number takes no memory.
    ///
    /// # Errors
    ///
    /// - `Memory`: only where the value is a text.
    pub fn value(&self, row: u32, column: u8) -> Result<Value, Memory>
        requires some_row { 1 ≤ row }
        requires row_in { row ≤ length self.now.rows }
        requires column_in { column < length self.now.schema }
        ensures cell { IfOk result (λ value. cell_at self.now row column ≡ Some value) }
        ensures fits { (c : Column) → slice_get self.now.schema column ≡ Some c → IfOk result (λ value. fits c.1 value ≡ true) }
        ensures number { (c : Column) → slice_get self.now.schema column ≡ Some c → c.1 ≡ kind.Int → IsOk result }
    {
        self.cell(row, column).copy()
    }

    /// The cell of a row, counted from 1, and a column, counted from 0. It takes no memory.
    pub fn cell(&self, row: u32, column: u8) -> Cell<'_>
        requires some_row { 1 ≤ row }
        requires row_in { row ≤ length self.now.rows }
        requires column_in { column < length self.now.schema }
        ensures cell { cell_at self.now row column ≡ Some (shown result) }
        ensures fits { (c : Column) → slice_get self.now.schema column ≡ Some c → fits c.1 (shown result) ≡ true }
    {
        self.rows.cell(row as usize - 1, column as usize)
    }

    /// The text of a row, counted from 1, and a column of texts, counted from 0. It takes no memory.
    pub fn text(&self, row: u32, column: u8) -> &Text
        requires some_row { 1 ≤ row }
        requires row_in { row ≤ length self.now.rows }
        requires texts { (name : Seq ℕ) × (slice_get self.now.schema column ≡ Some (name, kind.Text)) }
        ensures { cell_at self.now row column ≡ Some (value.Text result.now) }
    {
        self.rows.text(row as usize - 1, column as usize)
    }

    /// The number of the text of a row, counted from 1, and a column of texts, counted from 0. It takes no memory. In one
    /// column rows have one number where they have one text. Numbers of two columns have nothing to do with each other.
    pub fn text_number(&self, row: u32, column: u8) -> u32
        requires some_row { 1 ≤ row }
        requires row_in { row ≤ length self.now.rows }
        requires texts { (name : Seq ℕ) × (slice_get self.now.schema column ≡ Some (name, kind.Text)) }
        ensures { (text : Seq ℕ) → cell_at self.now row column ≡ Some (value.Text text) → result ≡ text_number text (column_texts self.now column) }
    {
        self.rows.text_number(row as usize - 1, column as usize)
    }

    /// Puts rows behind those of the table: all of them, or none.
    ///
    /// # Errors
    ///
    /// - `Memory`: at any call; the table stays as it was.
    pub fn add_rows(&mut self, rows: Vec<List<Value>>) -> Result<(), Memory>
        requires fit { AllByRecursion (λ row. row_fits self.old.schema row ≡ true) rows.items }
        requires few { length self.old.rows + length rows.items ≤ most_rows }
        ensures ok { OnOk result (self.new ≡ with_rows rows.items self.old) }
        ensures err { OnErr result (self.new ≡ self.old) }
    {
        self.rows.reserve(rows.len())?;
        self.rows.push_rows(rows);
        Ok(())
    }
}

/// Reads the header, which has to name the columns of the schema.
fn read_header(
    columns: &[(Text, Kind)],
    records: &mut Records<'_>,
    record_: &mut ByteRecord,
) -> Result<(), TableFault>
    requires { length columns.now ≤ 64 }
    ensures { MatchResult result (λ _. rows_of_records columns.now records.old ≡ rows_from columns.now 1 records.new) (λ fault. (fault ≡ TableFault.Memory) ⊎ (rows_of_records columns.now records.old ≡ Err fault)) }
{
    if !records.read(record_)? {
        return Err(TableFault::NoHeader);
    }
    match difference(columns, record_) {
        Some(column) => Err(TableFault::HeaderDiffers { column }),
        None => Ok(()),
    }
}

/// The number of the first column, counted from 1, at which a header differs from the schema.
fn difference(columns: &[(Text, Kind)], header: &ByteRecord) -> Option<u32>
    requires { length columns.now ≤ 64 }
    ensures { result ≡ difference_from 1 columns.now (fields_of header.now) }
{
    for (index, column) in columns.iter().enumerate() {
        if index >= header.len() {
            return Some(index as u32 + 1);
        }
        if field_at(header, index) != column.0.bytes() {
            return Some(index as u32 + 1);
        }
    }
    if header.len() > columns.len() {
        return Some(columns.len() as u32 + 1);
    }
    None
}

/// Reads the rows behind the header, whose texts are to be hashed by these keys.
fn read_rows(
    alloc: Global,
    hash_keys: RandomState,
    columns: &[(Text, Kind)],
    records: &mut Records<'_>,
    record_: &mut ByteRecord,
) -> Result<Columns, TableFault>
    requires { length columns.now ≤ 64 }
    ensures rows { MatchResult result (λ rows. rows_from columns.now 1 records.old ≡ Ok rows.rows) (λ fault. (fault ≡ TableFault.Memory) ⊎ (rows_from columns.now 1 records.old ≡ Err fault)) }
    ensures kinds { IfOk result (λ rows. rows.kinds ≡ map (λ column. column.1) columns.now) }
{
    let mut cells = empty_columns(alloc, hash_keys, columns)?;
    let mut len = 0;
    while records.read(record_)? {
        read_row(columns, len + 1, record_, cells.as_mut_slice())?;
        len += 1;
    }
    Ok(Columns::of(cells, len))
}

/// Reads the row of this number into the columns, each of which has a cell for each row before it. Where it is refused,
/// columns may have got a cell more.
fn read_row(
    columns: &[(Text, Kind)],
    row: u32,
    record_: &ByteRecord,
    cells: &mut [Cells],
) -> Result<(), TableFault>
    requires columns { length columns.now ≤ 64 }
    requires fields { length (fields_of record_.now) < 2 ^ 32 }
    requires kinds { kinds_in cells.old ≡ map (λ column. column.1) columns.now }
    requires even { AreEven (row - 1) (cells_in cells.old) }
    ensures kinds { kinds_in cells.new ≡ kinds_in cells.old }
    ensures ok { OnOk result (ReadInto (row_of columns.now row (fields_of record_.now)) (cells_in cells.old) (cells_in cells.new)) }
    ensures err { IfErr result (λ fault. (fault ≡ TableFault.Memory) ⊎ (row_of columns.now row (fields_of record_.now) ≡ Err fault)) }
    ensures few { OnOk result (row ≤ most_rows) }
{
    if row as usize > MOST_ROWS {
        return Err(TableFault::TooManyRows);
    }
    if record_.len() != columns.len() {
        return Err(TableFault::FieldCount {
            row,
            found: record_.len() as u32,
        });
    }
    read_cells(columns, row, record_, cells)
}

/// Reads a row's fields, of which there are as many as columns, into the columns.
fn read_cells(
    columns: &[(Text, Kind)],
    row: u32,
    record_: &ByteRecord,
    cells: &mut [Cells],
) -> Result<(), TableFault>
    requires few { length columns.now ≤ 64 }
    requires few_rows { row ≤ most_rows }
    requires same { length (fields_of record_.now) ≡ length columns.now }
    requires kinds { kinds_in cells.old ≡ map (λ column. column.1) columns.now }
    requires even { AreEven (row - 1) (cells_in cells.old) }
    ensures kinds { kinds_in cells.new ≡ kinds_in cells.old }
    ensures ok { OnOk result (ReadInto (cells_of columns.now row 1 (fields_of record_.now)) (cells_in cells.old) (cells_in cells.new)) }
    ensures err { IfErr result (λ fault. (fault ≡ TableFault.Memory) ⊎ (cells_of columns.now row 1 (fields_of record_.now) ≡ Err fault)) }
{
    for index in 0..columns.len() {
        let field = field_at(record_, index);
        let column = &mut cells[index];
        column.read(row, index as u32 + 1, field)?;
    }
    Ok(())
}
