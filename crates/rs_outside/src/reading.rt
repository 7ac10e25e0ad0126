ghost use Rattle.std.specs.Prelude.{◌≡◌, Some};
ghost use Rattle.std.specs.Io.{ReadsAtMost};
ghost use Rattle.std.specs.Io.KnownBytes.{ReadConsumes};
ghost use Rattle.rs_outside.specs.Reading.{read_answer};

use std::io;
use std::io::{ErrorKind, Read};

/// A reader with what its last read answered, so that a contract can say what an answer comes of.
#[derive(Drop)]
pub struct Reading<F> {
    reader: F,
    last: Option<Result<usize, ErrorKind>>,
}

impl<F: Read> Reading<F> {
    /// The reader, of which nothing was read yet.
    pub fn new(reader: F) -> Reading<F>
        ensures { result ≡ record { reader = reader; last = None } }
    {
        Reading { reader, last: None }
    }

    /// What the last read answered.
    pub(crate) fn into_last(self) -> Option<Result<usize, ErrorKind>>
    where
        F: Drop,
        ensures { result ≡ self.last }
    {
        self.last
    }

    /// Reads some bytes as `read_some` does, and keeps what the reader answered.
    pub(crate) fn read(&mut self, chunk: &mut [u8]) -> io::Result<usize>
        ensures bound { ReadsAtMost result chunk.new }
        ensures bytes { ReadConsumes (F.remaining self.old.reader) (F.remaining self.new.reader) result chunk.new }
        ensures last { self.new.last ≡ Some (read_answer result) }
    {
        let result = read_some(&mut self.reader, chunk);
        self.last = Some(match &result {
            Ok(count) => Ok(*count),
            Err(error) => Err(error.kind()),
        });
        result
    }
}

/// Reads some bytes: one read, tried again where a signal interrupts it. What was interrupted took nothing.
///
/// # Errors
///
/// - `Err`: exactly where the last read failed, with its error.
pub fn read_some<R: Read>(reader: &mut R, chunk: &mut [u8]) -> io::Result<usize>
    ensures bound { ReadsAtMost result chunk.new }
    ensures bytes { ReadConsumes (R.remaining reader.old) (R.remaining reader.new) result chunk.new }
{
    for _ in 0..u64::MAX {
        match reader.read(chunk) {
            Err(error) if error.kind() == ErrorKind::Interrupted => {}
            result => return result,
        }
    }
    reader.read(chunk)
}
