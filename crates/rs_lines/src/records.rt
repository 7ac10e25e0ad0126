ghost use Rattle.std.specs.Prelude.{◌≡◌, ◌∷◌, [], true, IfOk};
ghost use Rattle.std.specs.Bool.{MatchBool};
ghost use Rattle.csv.specs.Records.{fields_of};
ghost use Rattle.rs_lines.specs.Records.{IsReading, records_left, records_of};

use csv::{ByteRecord, Reader, ReaderBuilder};
use rs_value::Memory;
use std::alloc::Global;

/// What reads the records of these bytes, behind one byte order mark.
pub fn reader_of<'a>(alloc: Global, bytes: &'a [u8]) -> Reader<&'a [u8]>
    ensures reading { IsReading result }
    ensures records { records_left result ≡ records_of bytes.now }
{
    ReaderBuilder::new()
        .has_headers(false)
        .flexible(true)
        .from_reader(alloc, bytes)
}

/// Reads the next record, where one is left.
///
/// # Errors
///
/// - `Memory`: at any call.
pub fn next_record<'a>(
    reader: &mut Reader<&'a [u8]>,
    fields: &mut ByteRecord,
) -> Result<bool, Memory>
    requires { IsReading reader.old }
    ensures found { IfOk result (λ found.
        MatchBool found (records_left reader.old ≡ fields_of fields.new ∷ records_left reader.new) (records_left reader.old ≡ [])) }
    ensures reading { IfOk result (λ found. found ≡ true → IsReading reader.new) }
{
    // Records may differ in length and are read as bytes, so an error is no fault of the file.
    let Ok(found) = reader.read_byte_record(fields) else {
        return Err(Memory);
    };
    Ok(found)
}
