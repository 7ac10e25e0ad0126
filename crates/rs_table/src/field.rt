ghost use Rattle.std.specs.Prelude.{◌≡◌, ◌<◌, [], length, slice_index_or, if◌then◌else◌};
ghost use Rattle.std.specs.Str.{is_utf8};
ghost use Rattle.csv.specs.Records.{fields_of};
ghost use Rattle.rs_value.specs.Answer.{Gives};

use crate::fault::TableFault;
use csv::ByteRecord;
use rs_value::{Text, TextFault};
use std::alloc::Global;

/// The field of a record at this place, counted from 0.
pub(crate) fn field_at(record_: &ByteRecord, place: usize) -> &[u8]
    requires { place < length (fields_of record_.now) }
    ensures { result.now ≡ slice_index_or (fields_of record_.now) place [] }
{
    record_.get(place).unwrap()
}

/// The text of a field. The row and the column are those that a fault names.
pub(crate) fn text_at(
    alloc: Global,
    row: u32,
    column: u32,
    field: &[u8],
) -> Result<Text, TableFault>
    ensures { Gives TableFault.Memory (if is_utf8 field.now then Ok field.now else Err (TableFault.NotUtf8 row column)) result }
{
    match Text::from_bytes(alloc, field) {
        Ok(text) => Ok(text),
        Err(TextFault::NotUtf8 { .. }) => Err(TableFault::NotUtf8 { row, column }),
        Err(TextFault::Memory) => Err(TableFault::Memory),
    }
}
