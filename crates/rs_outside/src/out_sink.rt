ghost use Rattle.std.specs.Prelude.{◌≡◌, ◌≢◌, None};
ghost use Rattle.std.specs.Io.{WritesAtMost};
ghost use Rattle.std.specs.Io.KnownBytes.{WriteAppends};
ghost use Rattle.rs_value.specs.Outside.{Counts};
ghost use Rattle.rs_outside.specs.OutSink.{WritesWhole, faults_after_put, stream_state};
ghost use Rattle.rs_outside.specs.Sink.{Puts};

use crate::sink::{Sink, SinkFault};
use std::io;
use std::io::{ErrorKind, Stderr, Stdout, Write};
use std::marker::Model;

/// A stream of the system. Contracts see its writer, and how many puts failed. A put whose flush fails has failed, also
/// where all bytes were written. Each error of the stream is `Failed`, and none is `Memory`.
#[derive(Drop)]
pub struct OutSink<W> {
    to: W,
    faults: u64,
}

impl<W> Model for OutSink<W> {
    ghost use Rattle.rs_outside.specs.OutSink.{Stream};

    ghost Value = { Stream W };

    ghost view = { λ s. record { writer = s.to; faults = s.faults } };
}

/// One write, tried again where a signal interrupts it.
fn write_some<W: Write>(to: &mut W, bytes: &[u8]) -> io::Result<usize>
    ensures bound { WritesAtMost result bytes.now }
    ensures bytes { WriteAppends (W.contents to.old) (W.contents to.new) result bytes.now }
{
    for _ in 0..u64::MAX {
        match to.write(bytes) {
            Err(error) if error.kind() == ErrorKind::Interrupted => {}
            result => return result,
        }
    }
    Err(io::Error::from(ErrorKind::TimedOut))
}

/// Writes all of the bytes. A write that takes none is a fault.
fn write_whole<W: Write>(to: &mut W, bytes: &[u8]) -> Result<(), SinkFault>
    ensures { WritesWhole (W.contents to.old) (W.contents to.new) result bytes.now }
{
    let mut rest = bytes;
    while !rest.is_empty() {
        match write_some(to, rest) {
            Ok(0) => return Err(SinkFault::Failed),
            Ok(count) => rest = &rest[count..],
            Err(_) => return Err(SinkFault::Failed),
        }
    }
    Ok(())
}

/// Writes all of the bytes and flushes.
fn write_flushed<W: Write>(to: &mut W, bytes: &[u8]) -> Result<(), SinkFault>
    ensures { WritesWhole (W.contents to.old) (W.contents to.new) result bytes.now }
{
    write_whole(to, bytes)?;
    match to.flush() {
        Ok(()) => Ok(()),
        Err(_) => Err(SinkFault::Failed),
    }
}

impl<W> OutSink<W> {
    /// A sink that writes to this writer.
    pub fn new(to: W) -> OutSink<W>
        ensures { result ≡ record { writer = to; faults = 0 } }
    {
        OutSink { to, faults: 0 }
    }
}

impl OutSink<Stdout> {
    /// The standard output.
    pub fn output(rt: &HostRuntime) -> OutSink<Stdout>
        ensures { result.faults ≡ 0 }
    {
        OutSink::new(rt.stdout())
    }
}

impl OutSink<Stderr> {
    /// The standard error.
    pub fn error(rt: &HostRuntime) -> OutSink<Stderr>
        ensures { result.faults ≡ 0 }
    {
        OutSink::new(rt.stderr())
    }
}

impl<W: Write> Sink for OutSink<W> {
    ghost state = { stream_state };

    fn put(&mut self, bytes: &[u8]) -> Result<(), SinkFault>
        ensures puts { Puts bytes.now result None None }
        ensures counts { Counts (result ≡ Err SinkFault.Failed) (stream_state self.old) (stream_state self.new) }

        // Where the writer tells its bytes, a prefix is written, all on `Ok`. No put wants memory.
        ensures written { WritesWhole (W.contents self.old.writer) (W.contents self.new.writer) result bytes.now }
        ensures counted { self.new.faults ≡ faults_after_put result self.old.faults }
        ensures no_memory { result ≢ Err SinkFault.Memory }
    {
        if write_flushed(&mut self.to, bytes).is_err() {
            self.faults = self.faults.saturating_add(1);
            return Err(SinkFault::Failed);
        }
        Ok(())
    }
}
