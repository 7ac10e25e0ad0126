ghost use Rattle.std.specs.Prelude.{◌≡◌, option_map, IfOk};
ghost use Rattle.csv.specs.Records.{fields_of};
ghost use Rattle.rs_value.specs.Answer.{Gives};
ghost use Rattle.rs_stream.specs.Rows.{are_two, field_of, fields_in, is_header_in, row_if, row_in, row_of_fields, row_with, scored_row};

use crate::fault::StreamFault;
use csv::ByteRecord;
use rs_feed::FeedRow;
use rs_lines::{next_record, reader_of};
use rs_value::{Memory, Text, TextFault, int_of};
use std::alloc::Global;

/// The greatest score of a row.
const MOST_SCORE: u32 = 4_294_967_295;

/// What the record with this number says, by its bytes: a row, or none where it is the end of a stream.
///
/// # Errors
///
/// - `Range`: exactly where it is a text and a number that is no score.
/// - `NoRow`: exactly where it is neither a text and a number nor the end.
/// - `Memory`: at any call.
/// - `Failed`, `BrokenOff`, `Header`: never.
pub(crate) fn row_in(
    alloc: Global,
    number: u64,
    bytes: &[u8],
) -> Result<Option<FeedRow>, StreamFault>
    ensures { Gives StreamFault.Memory (row_in number bytes.now) result }
{
    match fields_in(alloc, bytes) {
        Ok(Some(fields)) => row_of_fields(alloc, number, &fields),
        Ok(None) => Err(StreamFault::NoRow { record: number }),
        Err(Memory) => Err(StreamFault::Memory),
    }
}

/// Whether these bytes are the record with the names of the columns.
pub(crate) fn is_header(alloc: Global, bytes: &[u8]) -> Result<bool, Memory>
    ensures { IfOk result (λ is. is ≡ is_header_in bytes.now) }
{
    match fields_in(alloc, bytes)? {
        Some(fields) => Ok(are_two(&fields, b"key", b"score")),
        None => Ok(false),
    }
}

/// The fields of bytes that are one record.
fn fields_in(alloc: Global, bytes: &[u8]) -> Result<Option<ByteRecord>, Memory>
    ensures { IfOk result (λ fields. option_map fields_of fields ≡ fields_in bytes.now) }
{
    let mut reader = reader_of(alloc, bytes);
    let mut fields = ByteRecord::new(alloc);
    if !next_record(&mut reader, &mut fields)? {
        return Ok(None);
    }
    let mut more = ByteRecord::new(alloc);
    if next_record(&mut reader, &mut more)? {
        return Ok(None);
    }
    Ok(Some(fields))
}

/// A field by its place, from 0, or no bytes where there is none.
fn field(fields: &ByteRecord, place: usize) -> &[u8]
    ensures { result.now ≡ field_of (fields_of fields.now) place }
{
    match fields.get(place) {
        Some(field) => field,
        None => &[],
    }
}

/// Whether a record has two fields, of these bytes.
fn are_two(fields: &ByteRecord, first: &[u8], second: &[u8]) -> bool
    ensures { result ≡ are_two first.now second.now (fields_of fields.now) }
{
    fields.len() == 2 && field(fields, 0) == first && field(fields, 1) == second
}

/// What the fields of the record with this number say.
fn row_of_fields(
    alloc: Global,
    number: u64,
    fields: &ByteRecord,
) -> Result<Option<FeedRow>, StreamFault>
    ensures { Gives StreamFault.Memory (row_of_fields number (fields_of fields.now)) result }
{
    if are_two(fields, b"end", b"end") {
        return Ok(None);
    }
    if fields.len() != 2 {
        return Err(StreamFault::NoRow { record: number });
    }
    scored_row(alloc, number, field(fields, 0), int_of(field(fields, 1)))
}

/// The row with this key and this score.
fn scored_row(
    alloc: Global,
    number: u64,
    key: &[u8],
    score: Option<i64>,
) -> Result<Option<FeedRow>, StreamFault>
    ensures { Gives StreamFault.Memory (scored_row number key.now score) result }
{
    let Some(score) = score else {
        return Err(StreamFault::NoRow { record: number });
    };
    match Text::from_bytes(alloc, key) {
        Ok(key) => row_with(number, key, score),
        Err(TextFault::NotUtf8 { .. }) => Err(StreamFault::NoRow { record: number }),
        Err(TextFault::Memory) => Err(StreamFault::Memory),
    }
}

/// The row with this text and this score, where it is one.
fn row_with(number: u64, key: Text, score: i64) -> Result<Option<FeedRow>, StreamFault>
    ensures { result ≡ row_with number key score }
{
    if score < 0 || score > i64::from(MOST_SCORE) {
        return Err(StreamFault::Range {
            record: number,
            got: score,
        });
    }
    Ok(Some(FeedRow {
        join: key,
        score: score as u32,
    }))
}
