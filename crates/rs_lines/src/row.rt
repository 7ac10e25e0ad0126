ghost use Rattle.std.specs.Prelude.{◌≡◌, ◌++◌, ◌∷◌, [], map, IfOk, OnOk};
ghost use Rattle.std.specs.Fmt.{decimal};
ghost use Rattle.csv.specs.Records.{fields_of, partial_of};
ghost use Rattle.csv.specs.Writing.{row_text, default_writer};
ghost use Rattle.rs_value.specs.Value.{printed};
ghost use Rattle.rs_lines.specs.Row.{line_of};

use csv::{ByteRecord, WriterBuilder};
use itoa::Buffer;
use rs_value::{Memory, Value};
use std::alloc::Global;
use std::mem;

/// Makes the lines of printed rows. It keeps its memory from one row to the next, so that a row whose line and fields are no
/// longer than earlier ones takes none.
#[derive(Drop)]
pub struct RowLines {
    row: ByteRecord,
    line: Vec<u8>,
}

impl RowLines {
    /// No line yet, and no memory.
    pub fn new(alloc: Global) -> RowLines {
        RowLines {
            row: ByteRecord::new(alloc),
            line: Vec::new(alloc),
        }
    }

    /// The line of a printed row: rank, score and values as one record of CSV after RFC 4180, quoted only where need be and
    /// ended by a line feed.
    ///
    /// # Errors
    ///
    /// - `Memory`: at any call.
    pub fn line(&mut self, rank: u128, score: u64, values: &[Value]) -> Result<&[u8], Memory>
        ensures { IfOk result (λ line. line.now ≡ line_of rank score values.now) }
    {
        self.put_fields(rank, score, values)?;
        let empty = Vec::new(*self.line.allocator());
        self.line = record_line(&self.row, mem::replace(&mut self.line, empty))?;
        Ok(&self.line)
    }

    // Makes the record that of a printed row.
    fn put_fields(&mut self, rank: u128, score: u64, values: &[Value]) -> Result<(), Memory>
        ensures { OnOk result (fields_of self.new.row ≡ decimal rank ∷ decimal score ∷ map printed values.now) }
    {
        let mut digits = Buffer::new();
        self.row.clear();
        self.row.push_field(digits.format(rank).as_bytes())?;
        self.row.push_field(digits.format(score).as_bytes())?;
        for value in values {
            push_value(&mut self.row, value)?;
        }
        Ok(())
    }
}

// Adds a value as a field of a record whose last field is ended.
fn push_value(row: &mut ByteRecord, value: &Value) -> Result<(), Memory>
    requires { partial_of row.old ≡ [] }
    ensures fields { OnOk result (fields_of row.new ≡ fields_of row.old ++ printed value.now ∷ []) }
    ensures partial { OnOk result (partial_of row.new ≡ []) }
{
    match value {
        Value::Int(number) => row.push_field(Buffer::new().format(*number).as_bytes())?,
        Value::Text(text) => row.push_field(text.bytes())?,
    }
    Ok(())
}

// The text of a record, as the writer of `csv` writes it at its defaults, in the memory of a line that isn't needed any more.
fn record_line(row: &ByteRecord, mut line: Vec<u8>) -> Result<Vec<u8>, Memory>
    ensures { IfOk result (λ line. line.items ≡ row_text default_writer (fields_of row.now)) }
{
    line.clear();
    let mut writer = WriterBuilder::new().from_writer(line);
    if writer.write_byte_record(row).is_err() {
        return Err(Memory);
    }
    match writer.into_inner() {
        Ok(line) => Ok(line),
        Err(_) => Err(Memory),
    }
}
