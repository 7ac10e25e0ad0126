ghost use Rattle.std.specs.Prelude.{◌≡◌, ◌==◌, ◌&&◌, not, [], if◌then◌else◌};
ghost use Rattle.std.specs.Io.{ReadsAtMost};
ghost use Rattle.std.specs.Io.KnownBytes.{ReadConsumes};
ghost use Rattle.rs_stream.specs.Records.{ReadsByte, ReadsRecord, items_of};

use crate::fault::RecordFault;
use std::alloc::Global;
use std::io::{ErrorKind, Read};
use std::marker::Model;
use std::{io, mem};

/// The records of a reader, one after another. A record ends with a line feed behind an even number of its quotes.
#[derive(Drop)]
pub struct Records<R> {
    reader: R,
    // What was read of the next record, and whether it has an odd number of quotes.
    begun: Vec<u8>,
    quoted: bool,
}

impl<R> Model for Records<R> {
    ghost use Rattle.std.specs.Prelude.{◌≡◌};
    ghost use Rattle.rs_stream.specs.Records.{RecordsState, is_quoted};

    ghost Value = { RecordsState R };

    ghost view = { λ r. record { reader = r.reader; begun = r.begun.items } };

    ghost invariant = { λ r. r.quoted ≡ is_quoted r.begun.items };
}

/// One read, tried again where a signal interrupts it.
fn read_some<R: Read>(reader: &mut R, into: &mut [u8]) -> io::Result<usize>
    ensures bound { ReadsAtMost result into.new }
    ensures bytes { ReadConsumes (R.remaining reader.old) (R.remaining reader.new) result into.new }
{
    for _ in 0..u64::MAX {
        match reader.read(into) {
            Err(error) if error.kind() == ErrorKind::Interrupted => {}
            result => return result,
        }
    }
    reader.read(into)
}

/// The next byte, or none at the end. No more bytes are read than this one.
fn read_byte<R: Read>(reader: &mut R) -> Result<Option<u8>, RecordFault>
    ensures { ReadsByte result (R.remaining reader.old) (R.remaining reader.new) }
{
    let mut byte = [0u8; 1];
    match read_some(reader, &mut byte) {
        Ok(0) => Ok(None),
        Ok(_) => Ok(Some(byte[0])),
        Err(_) => Err(RecordFault::Failed),
    }
}

impl<R> Records<R> {
    /// The records of this reader, of which nothing is read yet. It takes no memory.
    pub fn new(alloc: Global, reader: R) -> Records<R>
        ensures { result ≡ record { reader = reader; begun = [] } }
    {
        Records {
            reader,
            begun: Vec::new(alloc),
            quoted: false,
        }
    }
}

/// Whether this byte ends a record, of which the bytes before have an odd number of quotes, if `quoted` says so.
fn ends_record(byte: u8, quoted: bool) -> bool
    ensures { result ≡ (byte == 10 && not quoted) }
{
    byte == b'\n' && !quoted
}

/// Whether there is an odd number of quotes behind this byte.
fn quoted_after(byte: u8, quoted: bool) -> bool
    ensures { result ≡ (if byte == 34 then not quoted else quoted) }
{
    if byte == b'"' { !quoted } else { quoted }
}

impl<R: Read> Records<R> {
    /// The next record, with its line feed, or none at the end of the bytes. What stands there behind the last record is
    /// the begin of one that was broken off, and stays.
    ///
    /// Of the reader no byte is taken that stands behind the record.
    ///
    /// # Errors
    ///
    /// - `None`: exactly where the bytes that are left have no whole record, and no read fails; that is no fault.
    /// - `Failed`: only where a read failed. What was read of the record stays, and a later call goes on behind it.
    /// - `Memory`: at any call; the same.
    pub fn next(&mut self) -> Result<Option<Vec<u8>>, RecordFault>
        ensures { ReadsRecord (items_of result) self.old.begun (R.remaining self.old.reader) self.new.begun (R.remaining self.new.reader) }
    {
        for _ in 0..u64::MAX {
            let Ok(()) = self.begun.reserve(1) else {
                return Err(RecordFault::Memory);
            };
            let byte = match read_byte(&mut self.reader) {
                Ok(Some(byte)) => byte,
                Ok(None) => return Ok(None),
                Err(fault) => return Err(fault),
            };
            let ends = ends_record(byte, self.quoted);
            self.quoted = quoted_after(byte, self.quoted);
            let Ok(()) = self.begun.push(byte) else {
                unreachable!();
            };
            if ends {
                let empty = Vec::new(*self.begun.allocator());
                return Ok(Some(mem::replace(&mut self.begun, empty)));
            }
        }
        Err(RecordFault::Memory)
    }
}
