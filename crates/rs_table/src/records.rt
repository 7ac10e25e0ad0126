ghost use Rattle.std.specs.Prelude.{◌≡◌, ◌<◌, ◌≤◌, ◌^◌, [], ◌∷◌, false, true, length, IfOk, OnErr};
ghost use Rattle.std.specs.Bool.{MatchBool};
ghost use Rattle.csv.specs.Reading.{error_kind, stops_reader};
ghost use Rattle.csv.specs.Records.{fields_of};
ghost use Rattle.rs_table.specs.Records.{records_of};

use csv::{ByteRecord, Error, Reader, ReaderBuilder};
use rs_value::Memory;
use std::alloc::Global;
use std::marker::Model;

/// The records of a file, which are read one after another. Contracts see those that are left.
#[derive(Drop)]
pub struct Records<'a> {
    reader: Reader<&'a [u8]>,
    // A read failed or found no record, so the reader is asked no more.
    ended: bool,
}

impl<'a> Model for Records<'a> {
    ghost use Rattle.std.specs.Prelude.{◌≡◌, List, [], ℕ, false, if◌then◌else◌};
    ghost use Rattle.rs_table.specs.Records.{IsReading, records_left};

    ghost Value = { List (List (List ℕ)) };

    ghost view = { λ r. if r.ended then [] else records_left r.reader };

    ghost invariant = { λ r. r.ended ≡ false → IsReading r.reader };
}

// The answer to an error of a reader of bytes in memory. Records may differ in length and are read as
// bytes, so the error is no fault of the file.
fn memory_for(_error: &Error) -> Memory
    requires { stops_reader (error_kind _error.now) ≡ true }
{
    Memory
}

impl<'a> Records<'a> {
    /// All records of these bytes, behind one byte order mark.
    pub fn new(alloc: Global, bytes: &'a [u8]) -> Records<'a>
        requires { length bytes.now ≤ 33554432 }
        ensures { result ≡ records_of bytes.now }
    {
        let reader = ReaderBuilder::new()
            .has_headers(false)
            .flexible(true)
            .from_reader(alloc, bytes);
        Records {
            reader,
            ended: false,
        }
    }

    /// Reads the next record, where one is left. After an error nothing is left.
    pub fn read(&mut self, record_: &mut ByteRecord) -> Result<bool, Memory>
        ensures found { IfOk result (λ found. MatchBool found (self.old ≡ fields_of record_.new ∷ self.new) (self.old ≡ [])) }
        ensures few_fields { IfOk result (λ found. length (fields_of record_.new) < 2 ^ 32) }
        ensures ended { IfOk result (λ found. found ≡ false → (self.new ≡ []) × (fields_of record_.new ≡ [])) }
        ensures stopped { OnErr result (self.new ≡ []) }
    {
        if self.ended {
            record_.clear();
            return Ok(false);
        }
        let found = match self.reader.read_byte_record(record_) {
            Ok(found) => found,
            Err(error) => {
                self.ended = true;
                return Err(memory_for(&error));
            }
        };
        if !found {
            self.ended = true;
            record_.clear();
        }
        Ok(found)
    }
}
