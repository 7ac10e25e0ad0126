ghost use Rattle.std.specs.Prelude.{◌≡◌, Option, Some, OnOk, OnErr, ◌∷◌, ◌++◌, []};
ghost use Rattle.std.specs.List.{concat};
ghost use Rattle.rs_value.specs.Answer.{Gives};
ghost use Rattle.rs_value.specs.Outside.{Counts};
ghost use Rattle.rs_outside.specs.Sink.{IsPrefix, Puts};
ghost use Rattle.rs_outside.specs.MemSink.{no_pieces, after_fail_put_at, next_failure, taken_of, put_answer, after_put, sink_state};

use crate::sink::{Sink, SinkFault};
use rs_value::{List, Memory};
use std::alloc::Global;
use std::marker::Model;

/// A put that is to fail: its number, and how many bytes it takes first.
#[derive(Debug, Drop)]
struct PutFailure {
    call: u32,
    after: usize,
}

impl Model for PutFailure {
    ghost use Rattle.rs_outside.specs.MemSink.{PutFailure as Planned};

    ghost Value = { Planned };

    ghost view = { λ f. record { call = f.call; after = f.after } };
}

/// A sink in memory, for tests of what writes. It keeps the pieces that were put, and fails where it is told. A put for
/// which there was no memory isn't kept, and has no number among the planned failures; one that failed is kept with the
/// piece that it took, which may be empty. It is steady where no failure was ever planned.
#[derive(Debug, Drop)]
pub struct MemSink {
    bytes: Vec<u8>,
    pieces: Vec<List<u8>>,
    failing: Vec<PutFailure>,
    faults: u64,
}

impl Model for MemSink {
    ghost use Rattle.std.specs.Prelude.{◌≡◌};
    ghost use Rattle.std.specs.List.{concat};
    ghost use Rattle.rs_outside.specs.MemSink.{MemSinkState};

    ghost Value = { MemSinkState };

    ghost view = { λ s. record { pieces = s.pieces.items; failing = s.failing.items; faults = s.faults } };

    ghost invariant = { λ s. s.bytes.items ≡ concat s.pieces.items };
}

/// What a put takes of these bytes: all, or where it is to fail after this many, the first ones.
fn piece_of(bytes: &[u8], failure: Option<usize>) -> &[u8]
    ensures value { result.now ≡ taken_of bytes.now failure }
    ensures prefix { IsPrefix result.now bytes.now }
{
    match failure {
        None => bytes,
        Some(after) => &bytes[..after.min(bytes.len())],
    }
}

impl MemSink {
    /// Nothing taken, and no failure planned. It takes no memory.
    pub fn new(alloc: Global) -> MemSink
        ensures { result ≡ no_pieces }
    {
        MemSink {
            bytes: Vec::new(alloc),
            pieces: Vec::new(alloc),
            failing: Vec::new(alloc),
            faults: 0,
        }
    }

    /// Plans that the put of this number, counted from 1, takes its first `after` bytes, at most all of them,
    /// and fails. Several may be planned; of two for one put the first counts.
    ///
    /// # Errors
    ///
    /// - `Memory`: at any call; nothing changes.
    pub fn fail_at(&mut self, call: u32, after: usize) -> Result<(), Memory>
        ensures ok { OnOk result (self.new ≡ after_fail_put_at call after self.old) }
        ensures err { OnErr result (self.new ≡ self.old) }
    {
        self.failing.push(PutFailure { call, after })?;
        Ok(())
    }

    /// All bytes taken: the pieces one after another.
    pub fn bytes(&self) -> &[u8]
        ensures { result.now ≡ concat self.now.pieces }
    {
        &self.bytes
    }

    /// How many bytes the next put takes before it fails, if it is to fail.
    fn next_failure(&self) -> Option<usize>
        ensures { result ≡ next_failure self.now }
    {
        let number = self.pieces.len() + 1;
        self.failing
            .iter()
            .find(|failure| failure.call as usize == number)
            .map(|failure| failure.after)
    }

    /// Adds a piece.
    fn take_piece(&mut self, bytes: &[u8]) -> Result<(), Memory>
        ensures ok { OnOk result (self.new ≡ record self.old { pieces = self.old.pieces ++ bytes.now ∷ [] }) }
        ensures err { OnErr result (self.new ≡ self.old) }
    {
        let piece = Vec::from_slice(*self.bytes.allocator(), bytes)?;
        self.pieces.reserve(1)?;
        self.bytes.extend_from_slice(bytes)?;
        self.pieces.push(List::of(piece)).unwrap();
        Ok(())
    }
}

impl Sink for MemSink {
    ghost state = { sink_state };

    fn put(&mut self, bytes: &[u8]) -> Result<(), SinkFault>
        ensures puts { Puts bytes.now result (sink_state self.old).told (sink_state self.new).told }
        ensures counts { Counts (result ≡ Err SinkFault.Failed) (sink_state self.old) (sink_state self.new) }

        // The answer, which only want of memory can replace, and what the call leaves.
        ensures answer { Gives SinkFault.Memory (put_answer self.old) result }
        ensures after { self.new ≡ after_put bytes.now result self.old }
    {
        let failure = self.next_failure();
        if self.take_piece(piece_of(bytes, failure)).is_err() {
            return Err(SinkFault::Memory);
        }
        if failure.is_some() {
            self.faults = self.faults.saturating_add(1);
            return Err(SinkFault::Failed);
        }
        Ok(())
    }
}
