ghost use Rattle.std.specs.Prelude.{◌≡◌, ◌≤◌, [], false, IfOk};
ghost use Rattle.rs_stream.specs.Records.{records_left};
ghost use Rattle.rs_stream.specs.Rows.{Draws, Reads, ReadsHeader, bytes_of, number_after, stream_left};

use crate::fault::{RecordFault, StreamFault};
use crate::records::Records;
use crate::row::{is_header, row_in};
use rs_feed::FeedRow;
use rs_value::Memory;
use std::alloc::Global;
use std::io::Read;

/// The rows of a stream, one after another. Its first record is `key,score`, each further one is a text and a score, and `end,end` ends it.
#[derive(Drop)]
pub struct StreamRows<R> {
    alloc: Global,
    records: Records<R>,
    // How many records were read, and whether the last of them ended the stream.
    number: u64,
    ended: bool,
}

impl<R> StreamRows<R> {
    /// The rows of what this reader gives, of which nothing is read yet. It takes no memory.
    pub fn new(alloc: Global, reader: R) -> StreamRows<R>
        ensures number { result.number ≡ 0 }
        ensures ended { result.ended ≡ false }
        ensures begun { result.records ≡ record { reader = reader; begun = [] } }
    {
        StreamRows {
            alloc,
            records: Records::new(alloc, reader),
            number: 0,
            ended: false,
        }
    }
}

impl<R: Read> StreamRows<R> {
    /// The next row, or none behind the record `end,end`, where nothing more is read. It takes the bytes of one record, and of the first
    /// two where none was read.
    ///
    /// # Errors
    ///
    /// - `None`: exactly behind the record `end,end`, which is no fault.
    /// - `BrokenOff`: exactly where the bytes that are left have no whole record more, and no read fails.
    /// - `Header`: exactly where the first record isn't `key,score`.
    /// - `NoRow`, `Range`: exactly where the next record is no row, or its number no score, with its number, counted from 1.
    /// - `Failed`: only where a read failed.
    /// - `Memory`: at any call. A record may be lost, so that no call is to come behind it.
    pub fn next(&mut self) -> Result<Option<FeedRow>, StreamFault>
        ensures { Draws result (stream_left self.old.ended self.old.number (records_left R.remaining self.old.records))
            (stream_left self.new.ended self.new.number (records_left R.remaining self.new.records)) }
    {
        if self.ended {
            return Ok(None);
        }
        if self.number == 0 {
            self.read_header()?;
        }
        self.read_row()
    }

    /// Reads the record with the names of the columns.
    fn read_header(&mut self) -> Result<(), StreamFault>
        requires first { self.old.number ≡ 0 }
        requires goes_on { self.old.ended ≡ false }
        ensures reads { ReadsHeader result (stream_left self.old.ended self.old.number (records_left R.remaining self.old.records))
            (stream_left self.new.ended self.new.number (records_left R.remaining self.new.records)) }
        ensures second { IfOk result (λ done. self.new.number ≡ 1) }
        ensures goes_on { self.new.ended ≡ false }
    {
        let bytes = self.next_record()?;
        match is_header(self.alloc, &bytes) {
            Ok(true) => Ok(()),
            Ok(false) => Err(StreamFault::Header),
            Err(Memory) => Err(StreamFault::Memory),
        }
    }

    /// Reads a record behind the first.
    fn read_row(&mut self) -> Result<Option<FeedRow>, StreamFault>
        requires behind { 1 ≤ self.old.number }
        requires goes_on { self.old.ended ≡ false }
        ensures { Draws result (stream_left self.old.ended self.old.number (records_left R.remaining self.old.records))
            (stream_left self.new.ended self.new.number (records_left R.remaining self.new.records)) }
    {
        let bytes = self.next_record()?;
        match row_in(self.alloc, self.number, &bytes) {
            Ok(Some(row)) => Ok(Some(row)),
            Ok(None) => {
                self.ended = true;
                Ok(None)
            }
            Err(why) => Err(why),
        }
    }

    /// The next record, which is counted.
    fn next_record(&mut self) -> Result<Vec<u8>, StreamFault>
        ensures reads { Reads (bytes_of result) (records_left R.remaining self.old.records) (records_left R.remaining self.new.records) }
        ensures number { self.new.number ≡ number_after result self.old.number }
        ensures ended { self.new.ended ≡ self.old.ended }
    {
        match self.records.next() {
            Ok(Some(bytes)) => {
                self.number = self.number.saturating_add(1);
                Ok(bytes)
            }
            Ok(None) => Err(StreamFault::BrokenOff),
            Err(RecordFault::Failed) => Err(StreamFault::Failed),
            Err(RecordFault::Memory) => Err(StreamFault::Memory),
        }
    }
}
