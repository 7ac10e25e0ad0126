//! Bytes of which one read fails.

ghost use Rattle.std.specs.Io.{ReadsAtMost};
ghost use Rattle.std.specs.Io.KnownBytes.{ReadConsumes};
ghost use Rattle.std.specs.Prelude.{Some};

use std::io;
use std::io::{ErrorKind, Read};

/// Bytes, how many reads were made of them, and which one fails, counted from 1, and with what. 0 is none.
#[derive(Drop)]
pub(crate) struct FailingBytes {
    pub left: &'static [u8],
    pub reads: u64,
    pub fails_at: u64,
    pub kind: ErrorKind,
}

impl FailingBytes {
    /// Bytes of which no read was made.
    pub(crate) fn new(left: &'static [u8], fails_at: u64, kind: ErrorKind) -> FailingBytes {
        FailingBytes {
            left,
            reads: 0,
            fails_at,
            kind,
        }
    }
}

impl Read for FailingBytes {
    ghost remaining = { λ bytes. Some bytes.left.now };

    fn read(&mut self, into: &mut [u8]) -> io::Result<usize>
        ensures bound { ReadsAtMost result into.new }
        ensures bytes { ReadConsumes (Some self.old.left.now) (Some self.new.left.now) result into.new }
    {
        self.reads = self.reads.saturating_add(1);
        if self.reads == self.fails_at {
            return Err(io::Error::from(self.kind));
        }
        self.left.read(into)
    }
}
