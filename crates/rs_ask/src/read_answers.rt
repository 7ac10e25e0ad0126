ghost use Rattle.std.specs.Prelude.{◌≡◌, IsErr};
ghost use Rattle.rs_value.specs.Outside.{Counts};
ghost use Rattle.rs_ask.specs.Answers.{ReadsByte};
ghost use Rattle.rs_ask.specs.ReadAnswers.{faults_after_read, reader_state};

use crate::answers::{Answers, ReadFault};
use rs_outside::read_some;
use std::io;
use std::io::Read;
use std::marker::Model;

/// Answers from a reader of the system, such as a file or a pipe. Contracts see the reader, and how many reads failed.
#[derive(Drop)]
pub struct ReadAnswers<R> {
    reader: R,
    faults: u64,
}

impl<R> Model for ReadAnswers<R> {
    ghost use Rattle.rs_ask.specs.ReadAnswers.{Reader};

    ghost Value = { Reader R };

    ghost view = { λ a. record { reader = a.reader; faults = a.faults } };
}

/// The next byte. No more bytes are read than this one.
fn read_byte<R: Read>(reader: &mut R) -> io::Result<Option<u8>>
    ensures { ReadsByte result (R.remaining reader.old) (R.remaining reader.new) }
{
    let mut byte = [0u8; 1];
    match read_some(reader, &mut byte) {
        Ok(0) => Ok(None),
        Ok(_) => Ok(Some(byte[0])),
        Err(error) => Err(error),
    }
}

impl<R> ReadAnswers<R> {
    /// Answers from this reader, of which no read failed yet.
    pub fn new(reader: R) -> ReadAnswers<R>
        ensures { result ≡ record { reader = reader; faults = 0 } }
    {
        ReadAnswers { reader, faults: 0 }
    }

    /// How many reads failed.
    pub fn faults(&self) -> u64
        ensures { result ≡ self.now.faults }
    {
        self.faults
    }
}

impl<R: Read> Answers for ReadAnswers<R> {
    ghost state = { reader_state R.remaining };

    fn next_byte(&mut self) -> Result<Option<u8>, ReadFault>
        ensures reads { ReadsByte result (R.remaining self.old.reader) (R.remaining self.new.reader) }
        ensures counts { Counts (IsErr result) (reader_state R.remaining self.old) (reader_state R.remaining self.new) }

        // Exactly the reads that failed are counted.
        ensures counted { self.new.faults ≡ faults_after_read result self.old.faults }
    {
        match read_byte(&mut self.reader) {
            Ok(next) => Ok(next),
            Err(_) => {
                self.faults = self.faults.saturating_add(1);
                Err(ReadFault)
            }
        }
    }
}
