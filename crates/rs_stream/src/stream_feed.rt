ghost use Rattle.std.specs.Prelude.{◌≡◌, ◌≢◌, Err, None};
ghost use Rattle.rs_feed.specs.Feeds.{GivesNext, given_after};
ghost use Rattle.rs_value.specs.Faults.{raised};
ghost use Rattle.rs_value.specs.Outside.{Counts};
ghost use Rattle.rs_stream.specs.StreamFeeds.{EndsAs, new_stream_feed, stream_feed_state, stream_in};

use crate::fault::StreamFault;
use crate::stream_rows::StreamRows;
use rs_feed::{Feed, FeedFault, FeedRow};
use std::alloc::Global;
use std::io::Read;
use std::marker::{Brand, Model, PhantomData};

/// What a stream has in all. Proofs alone see it.
pub trait Whole {
    ghost use Rattle.std.specs.Prelude.{Option};
    ghost use Rattle.rs_stream.specs.Rows.{Stream};

    /// The rows of the stream and how it ends, where its reader tells its bytes.
    ghost stream: { Option Stream };
}

impl Whole for Brand {
    ghost use Rattle.std.specs.Prelude.{None};

    ghost stream = { None };
}

/// A feed that gives the rows of a stream, and reads one record a draw; with the first draw also the record with the names of the
/// columns. Behind a draw that failed or lacked memory it reads nothing more.
#[derive(Drop)]
pub struct StreamFeed<R: Read, B: Whole> {
    rows: StreamRows<R>,
    draws: u64,
    given: u64,
    faults: u64,
    why: Option<StreamFault>,
    of: PhantomData<B>,
}

impl<R: Read, B: Whole> Model for StreamFeed<R, B> {
    ghost use Rattle.std.specs.Prelude.{◌≡◌, None};
    ghost use Rattle.rs_stream.specs.Records.{records_left};
    ghost use Rattle.rs_stream.specs.Rows.{stream_left};
    ghost use Rattle.rs_stream.specs.StreamFeeds.{EndsAs, IsAt, StreamFeedState};

    ghost Value = { StreamFeedState };

    ghost view = { λ f. record { draws = f.draws; given = f.given; faults = f.faults; why = f.why } };

    ghost invariant = { λ f. (f.why ≡ None → IsAt B.stream f.given (stream_left f.rows.ended f.rows.number (records_left R.remaining f.rows.records)))
        × (f.why ≡ None → f.faults ≡ 0)
        × EndsAs f.why B.stream };
}

impl<R: Read, B: Whole> StreamFeed<R, B> {
    /// The feed of what this reader gives, of which nothing is read yet. It takes no memory.
    pub fn new(alloc: Global, reader: R) -> StreamFeed<R, B>
        requires { B.stream ≡ stream_in (R.remaining reader) }
        ensures { result ≡ new_stream_feed }
    {
        StreamFeed {
            rows: StreamRows::new(alloc, reader),
            draws: 0,
            given: 0,
            faults: 0,
            why: None,
            of: PhantomData,
        }
    }

    /// How many draws were made.
    pub fn draws(&self) -> u64
        ensures { result ≡ self.now.draws }
    {
        self.draws
    }

    /// Why no more rows are given, where a draw failed or lacked memory. Of a stream that tells its bytes, that is how it ends.
    ///
    /// # Errors
    ///
    /// - `None`: only where no draw failed.
    pub fn why(&self) -> Option<StreamFault>
        ensures value { result ≡ self.now.why }
        ensures failed { result ≡ None → self.now.faults ≡ 0 }
        ensures ending { EndsAs result B.stream }
    {
        self.why
    }
}

impl<R: Read, B: Whole> Feed for StreamFeed<R, B> {
    ghost state = { stream_feed_state B.stream };

    fn draw(&mut self) -> Result<Option<FeedRow>, FeedFault>
        ensures row { GivesNext (stream_feed_state B.stream self.old).outside.told (stream_feed_state B.stream self.old).given result }
        ensures told { (stream_feed_state B.stream self.new).outside.told ≡ (stream_feed_state B.stream self.old).outside.told }
        ensures draws { (stream_feed_state B.stream self.new).draws ≡ raised (stream_feed_state B.stream self.old).draws }
        ensures given { (stream_feed_state B.stream self.new).given ≡ given_after result (stream_feed_state B.stream self.old).given }
        ensures counts { Counts (result ≡ Err FeedFault.Failed) (stream_feed_state B.stream self.old).outside (stream_feed_state B.stream self.new).outside }
    {
        self.draws = self.draws.saturating_add(1);
        if self.why.is_some() {
            return Err(FeedFault::Memory);
        }
        if self.given == u64::MAX {
            return Err(FeedFault::Memory);
        }
        match self.rows.next() {
            Ok(Some(row)) => {
                self.given += 1;
                Ok(Some(row))
            }
            Ok(None) => Ok(None),
            Err(StreamFault::Memory) => {
                self.why = Some(StreamFault::Memory);
                Err(FeedFault::Memory)
            }
            Err(why) => {
                self.faults = self.faults.saturating_add(1);
                self.why = Some(why);
                Err(FeedFault::Failed)
            }
        }
    }
}
