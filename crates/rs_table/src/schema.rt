ghost use Rattle.std.specs.Prelude.{◌≡◌, ◌≤◌, ◌<◌, ◌^◌, length, IfOk, IfSome, if◌then◌else◌};
ghost use Rattle.csv.specs.Records.{fields_of};
ghost use Rattle.rs_value.specs.Answer.{Gives};
ghost use Rattle.rs_table.specs.Column.{place_of};
ghost use Rattle.rs_table.specs.NumberColumn.{HasNumberColumn};
ghost use Rattle.rs_table.specs.Reading.{columns_named, header_of};

use crate::fault::TableFault;
use crate::field::{field_at, text_at};
use crate::records::Records;
use csv::ByteRecord;
use rs_value::{Kind, Memory, Text};
use std::alloc::Global;
use std::marker::Model;

/// The greatest number of columns of a table.
pub const MOST_COLUMNS: usize = 64;

// A column's place fits the `u8` by which it is named.
const _: () = prove!(MOST_COLUMNS <= u8::MAX as usize);

/// The columns of a table: 1 to 64 names with their kinds.
#[derive(Drop)]
pub struct Schema {
    columns: Vec<(Text, Kind)>,
}

impl Model for Schema {
    ghost use Rattle.std.specs.Prelude.{List, ◌≤◌, length};
    ghost use Rattle.rs_table.specs.Column.{Column};

    ghost Value = { List Column };

    ghost view = { λ s. s.columns.items };

    ghost invariant = { λ s. (1 ≤ length s.columns.items) × (length s.columns.items ≤ 64) };
}

impl Schema {
    /// The schema of these columns.
    pub fn make(columns: Vec<(Text, Kind)>) -> Schema
        requires some { 1 ≤ length columns.items }
        requires few { length columns.items ≤ 64 }
        ensures { result ≡ columns.items }
    {
        Schema { columns }
    }

    /// The columns that the header of a CSV file names. The first one of the given name is of
    /// numbers, and the others are of texts.
    ///
    /// # Errors
    ///
    /// The first of these that holds, exactly where one does; only `Memory` may come in its place.
    ///
    /// - `NoHeader`: the file has no record.
    /// - `TooManyColumns`: the header has more than 64 fields.
    /// - `NotUtf8`: a field of the header isn't UTF-8. The row is 0, and the column that of the first such field.
    /// - `NoColumn`: no field of the header is the given name.
    /// - `Memory`: at any call.
    /// - `HeaderDiffers`, `FieldCount`, `NotInt`, `TooManyRows`: never.
    pub fn of_header(alloc: Global, bytes: &[u8], column: &Text) -> Result<Schema, TableFault>
        requires { length bytes.now ≤ 33554432 }
        ensures gives { Gives TableFault.Memory (header_of column.now bytes.now) result }
        ensures number_column { IfOk result (λ schema. HasNumberColumn column.now schema) }
    {
        let mut records = Records::new(alloc, bytes);
        let mut header = ByteRecord::new(alloc);
        if !records.read(&mut header)? {
            return Err(TableFault::NoHeader);
        }
        read_columns(alloc, &header, column)
    }

    /// The place of the first column of this name, counted from 0.
    ///
    /// # Errors
    ///
    /// - `None`: exactly where no column has the name.
    pub fn place(&self, name: &Text) -> Option<u8>
        ensures { result ≡ place_of name.now self.now }
    {
        let place = place_in(self.columns.as_slice(), name)?;
        Some(place as u8)
    }

    /// The same columns.
    ///
    /// # Errors
    ///
    /// - `Memory`: at any call.
    pub fn copy(&self) -> Result<Schema, Memory>
        ensures { IfOk result (λ copy. copy ≡ self.now) }
    {
        let mut columns = Vec::new(*self.columns.allocator());
        for column in &self.columns {
            columns.push((column.0.copy()?, column.1))?;
        }
        Ok(Schema { columns })
    }

    /// The columns in order.
    pub fn columns(&self) -> &[(Text, Kind)]
        ensures value { result.now ≡ self.now }
        ensures some { 1 ≤ length self.now }
        ensures few { length self.now ≤ 64 }
    {
        self.columns.as_slice()
    }
}

/// The place of the first column of this name.
fn place_in(columns: &[(Text, Kind)], name: &Text) -> Option<usize>
    ensures value { result ≡ place_of name.now columns.now }
    ensures within { IfSome result (λ place. place < length columns.now) }
{
    columns
        .iter()
        .position(|column| column.0.as_str() == name.as_str())
}

/// The columns of these names. The first one of the given name is of numbers, and the others are
/// of texts.
fn read_columns(alloc: Global, header: &ByteRecord, column: &Text) -> Result<Schema, TableFault>
    requires { length (fields_of header.now) < 2 ^ 32 }
    ensures { Gives TableFault.Memory (columns_named column.now (fields_of header.now)) result }
{
    if header.len() > MOST_COLUMNS {
        return Err(TableFault::TooManyColumns {
            found: header.len() as u32,
        });
    }
    let mut columns = Vec::new(alloc);
    let mut found = false;
    for index in 0..header.len() {
        let name = text_at(alloc, 0, index as u32 + 1, field_at(header, index))?;
        let is_named = name.as_str() == column.as_str();
        columns.push((name, kind_for(found, is_named)))?;
        found |= is_named;
    }
    if found {
        Ok(Schema { columns })
    } else {
        Err(TableFault::NoColumn)
    }
}

/// The kind of a header's column: numbers for the first one that has the name, else texts.
fn kind_for(found: bool, is_named: bool) -> Kind
    ensures { result ≡ (if found then Kind.Text else if is_named then Kind.Int else Kind.Text) }
{
    if found {
        return Kind::Text;
    }
    if is_named { Kind::Int } else { Kind::Text }
}
