ghost use Rattle.std.specs.Prelude.{◌≡◌, [], IfOk};
ghost use Rattle.csv.specs.Records.{fields_of, partial_of};
ghost use Rattle.csv.specs.Writing.{default_writer, row_text};

use csv::{ByteRecord, WriterBuilder};
use rs_value::{Memory, Text};
use std::alloc::Global;

/// The record that has these texts as its fields.
pub(crate) fn row_of(alloc: Global, fields: &[Text]) -> Result<ByteRecord, Memory>
    ensures fields { IfOk result (λ row. fields_of row ≡ fields.now) }
    ensures ended { IfOk result (λ row. partial_of row ≡ []) }
{
    let mut row = ByteRecord::new(alloc);
    for field in fields {
        row.push_field(field.bytes())?;
    }
    Ok(row)
}

/// The text of a record, as the writer of `csv` writes it at its defaults.
pub(crate) fn record_line(alloc: Global, row: &ByteRecord) -> Result<Vec<u8>, Memory>
    ensures { IfOk result (λ line. line.items ≡ row_text default_writer (fields_of row.now)) }
{
    let mut writer = WriterBuilder::new().from_writer(Vec::new(alloc));
    if writer.write_byte_record(row).is_err() {
        return Err(Memory);
    }
    match writer.into_inner() {
        Ok(line) => Ok(line),
        Err(_) => Err(Memory),
    }
}
